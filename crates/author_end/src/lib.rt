//! An author: it writes each packet once, hands it to the brokers of its lines, and records their answers.
#![tactic(auto)]

mod author;
mod event;
mod writing;

pub use author::AuthorEnd;
pub use event::AuthorEvent;
