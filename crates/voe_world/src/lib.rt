//! All that lies outside a node as one value, whose parts are lent out or handed over: a source, a sink, a disk,
//! clocks, gates, a dialer, listeners and what starts jobs.
//!
//! `World` is the contract: what each call changes, and that nothing else does. `MemoryWorld` is a world whose parts are
//! in memory; one over the real thing stands in a crate of its own.
#![tactic(auto)]

mod memory;
mod world;

pub use memory::MemoryWorld;
pub use world::World;
