//! A document as a tree of elements (XML 1.0 and Namespaces in XML 1.0, in this project's profile).
//!
//! A tree is read from bytes and written as its canonical text. It knows elements, attributes and texts by their
//! namespaces and local names; prefixes, comments, instructions and the spelling of characters are not kept. What a
//! tree means, as a packet or a message, is judged elsewhere.
#![tactic(auto)]

mod contents;
mod element;
mod fault;
pub mod laws;
mod level;
mod lookup;
mod names;
mod nesting;
mod read;
mod start;
mod take;
mod values;
mod write;

pub use contents::{is_blank, is_xml_text, trim_blanks};
pub use element::{Attribute, Element, Node, Tree};
pub use fault::TreeFault;
pub use read::read_tree;
pub use write::{WriteFault, Writer, write_tree, written_trees_read_back};
