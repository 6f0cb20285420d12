//! The text of a path filter as tokens (XPath 1.0, section 3.7, in this project's profile).
//!
//! A text is cut into the longest list of whole tokens, each as long as it can be. Tokens lend their texts; which of
//! them are a filter is told elsewhere.
#![tactic(auto)]

mod characters;
mod scan;
mod token;

pub use scan::tokens;
pub use token::{Placed, Token};
