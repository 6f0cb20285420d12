//! A packet that is given.

use voe_values::Bytes;

/// A packet under its identifier, with the place of its note.
#[derive(Drop)]
pub struct Given {
    pub at: usize,
    pub identifier: Bytes,
    pub packet: Bytes,
}
