//! XML documents as tokens, for a tree to be built from.
//!
//! The bytes are judged as text and cut into the longest list of whole tokens. Tokens lend their texts from the bytes;
//! nothing here nests elements, reads names as namespaces, or joins texts.
#![tactic(auto)]

mod characters;
mod document;
mod fault;
mod front;
pub mod laws;
mod lexer;
mod markup;
mod reference;
mod scan;
mod token;

pub use document::read_tokens;
pub use fault::TokenFault;
pub use reference::named_character;
pub use token::{SpelledAttribute, StartTag, Token};
