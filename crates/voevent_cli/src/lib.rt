//! What the program does with its words, over whatever source and sink it is handed.
//!
//! [`offline`] is the whole program but for the real objects. Its contract says for all words and all inputs which
//! status it ends with, what it writes and how much it reads.
#![tactic(auto)]

mod check;
mod command;
mod document;
mod init;
pub mod laws;
mod lending;
mod matching;
mod net;
mod outcome;
mod prepare;
mod refusal;
mod show;
mod top;

pub use top::offline;
