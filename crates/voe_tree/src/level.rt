//! The elements that are open while a document is read.

use crate::element::Element;
use voe_values::Text;

/// A prefix, which is empty for the default, and its namespace, which is empty where it is unbound.
#[derive(Drop)]
pub struct Binding<'a> {
    pub prefix: &'a str,
    pub namespace: Text,
}

/// An open element with its name as spelled, and what its own tag declares. The outermost level is no element of the
/// document: it has the root as its child.
#[derive(Drop)]
pub struct Level<'a> {
    pub name: &'a str,
    pub element: Element,
    pub declared: Vec<Binding<'a>>,
}
