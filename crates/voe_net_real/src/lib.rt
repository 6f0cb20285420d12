//! The outside over the real thing: TCP, threads and the machine's clock, and a world of them.
//!
//! The adapters tell nothing of the bytes; each counts its answers as its trait says. A link that hears a bell ends its
//! wait for bytes when the bell is rung, so that what one connection took in is sent on by the others at once. That a
//! stroke wakes anyone, that a timeout is kept and that bytes arrive is tested alone.
#![tactic(auto)]

mod bell;
mod clock;
mod dialer;
mod doors;
mod ear;
mod link;
mod peers;
mod retry;
mod threads;
mod wire;
mod world;

pub use bell::Bell;
pub use clock::MachineClock;
pub use dialer::TcpDialer;
pub use link::TcpLink;
pub use peers::TcpPeers;
pub use threads::ThreadSpawner;
pub use world::{Moment, RealWorld};
