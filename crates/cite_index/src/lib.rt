//! Which packets cite which: who cites an identifier, what it stands for, and the thread that it belongs to.
//!
//! The index knows the citations of the packets that were added, in the order of adding, and nothing else of them.
#![tactic(auto)]

mod connected;
mod index;
pub mod laws;
mod names;
mod reach;
mod rows;
mod standing;
mod standings;
mod thread;
mod triple;

pub use index::{Citations, CiteIndex};
pub use standing::Standing;
pub use thread::Thread;
pub use triple::Triple;
