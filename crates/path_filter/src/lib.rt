//! What a path filter means in a document, and which documents it passes (a profile of XPath 1.0).
//!
//! A filter is a path from the document, and passes a tree in which it names a place. A set of filters passes what one
//! of them passes, and a set without filters passes every tree. How a filter is spelled is told in `filter_text`.
//! The sets of a node's links are read once from its configuration.
#![tactic(auto)]

mod alike;
mod compare;
mod context;
mod copy;
mod cursor;
mod filter;
mod filter_set;
mod first;
mod found;
pub mod laws;
mod lay_out;
mod link_fault;
mod links;
mod once;
mod passes;
mod pieces;
mod plan;
mod positions;
mod search;
mod set_fault;
mod steps;
mod text;
mod visit;
mod wanted;

pub use filter::Filter;
pub use filter_set::FilterSet;
pub use filter_text::FilterFault;
pub use link_fault::LinkFault;
pub use links::{LinkFilters, check_filters};
pub use set_fault::SetFault;
