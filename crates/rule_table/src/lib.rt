//! Rows of a table of rules over trees, and the first that a tree breaks.
//!
//! A table is built where it is needed, of as many rows as its caller names, and judged without taking memory. Which
//! rows make a valid packet is not known here.
#![tactic(auto)]

mod cites;
mod identifier;
mod row_test;
mod rows;
mod section;

pub use row_test::RowTest;
pub use rows::Rows;
pub use section::Section;
