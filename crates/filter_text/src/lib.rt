//! Path filters as data, and their texts (a profile of XPath 1.0).
//!
//! A text is read as a path, or refused with the place that decides, and a path is written as its canonical text.
//! What a path names in a document is told elsewhere.
#![tactic(auto)]

mod advance;
mod combine;
mod fault;
mod filter;
pub mod laws;
mod read;
mod state;
mod symbol;
mod walk;
mod write;

pub use fault::FilterFault;
pub use filter::{Axis, Comparison, Condition, Operand, Part, Path, Step, Test};
pub use read::read_path;
pub use write::write_path;
