//! Payloads on a disk. A payload that was added is there after a crash at any later moment.
//!
//! The journal knows bytes alone: what a payload means is not its concern. Its contract speaks of the list of payloads,
//! and of the disk through the disk's own contract. A `Journal` has its payloads in memory; an `Appender` has none, and
//! only adds.
#![tactic(auto)]

mod appender;
mod entry;
mod fault;
mod gate;
mod journal;
mod laws;
mod load;
mod make;
mod payloads;
mod reading;
mod room;

pub use appender::Appender;
pub use fault::JournalFault;
pub use journal::Journal;
pub use laws::one_reading;
