//! Goes over the pieces of an element's string value.

use voe_tree::Node;

/// What is left of an element's string value: the rest of a piece, and the nodes behind it at each level that is open.
#[derive(Drop)]
pub struct Cursor<'a> {
    pub piece: &'a [u8],
    pub levels: [&'a [Node]; 64],
    pub open: usize,
}
