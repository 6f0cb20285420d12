//! What conditions are evaluated in.

use crate::plan::Stage;
use crate::positions::Positions;
use voe_tree::Element;

/// A document, with a plan whose paths from the document are known.
#[derive(Clone, Copy)]
pub struct Context<'a> {
    pub plan: &'a [Stage],
    /// Which first steps of paths from the document find something.
    pub known: &'a Positions,
    pub root: &'a Element,
}
