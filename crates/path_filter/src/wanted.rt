//! What a search compares, and what it looks for.

use crate::plan::Side;
use filter_text::Comparison;
use voe_tree::Element;

/// What stands at a place that a path names.
#[derive(Clone, Copy)]
pub enum Found<'a> {
    Element(&'a Element),
    Text(&'a str),
}

/// What a search for the strings of a path looks for.
#[derive(Clone, Copy)]
pub enum Wanted<'a> {
    Anything,
    /// A string that is so related to this one.
    Related(Comparison, Found<'a>),
    /// A string that is so related to one of the side's, at this element.
    RelatedToOne(Comparison, &'a Side, &'a Element),
}
