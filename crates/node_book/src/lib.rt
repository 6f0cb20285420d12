//! The notes of a node, kept in a journal, and what is asked of them.
//!
//! A book is a configuration and a list of notes. Its contract speaks of these, of the disk through the disk's own
//! contract, and of nothing else of the journal below. What a note's packet says is not its concern. The book of an end
//! adds what the three ends have in common: sessions, a count of steps, and what becomes of a step.
#![tactic(auto)]

mod added;
mod appending;
mod book;
mod edges;
mod end_book;
mod fallen;
mod fault;
mod given;
mod index;
mod known;
mod laws;
mod making;
mod open;
mod opening;
mod records;

pub use added::Added;
pub use book::Book;
pub use end_book::EndBook;
pub use fallen::Fallen;
pub use fault::BookFault;
pub use given::Given;
pub use laws::{one_book, one_making};
pub use node_notes::{Config, LinkConfig, is_config, keeps_form};
