//! The outside over the real thing: any reader and any writer of std, as standard input and standard output, and a rack
//! whose real disk is a file.
//!
//! They tell nothing of content; each counts its failures.
#![tactic(auto)]

mod rack;
mod reading;
mod retry;
mod writing;

pub use rack::FileRack;
pub use reading::Reading;
pub use writing::Writing;
