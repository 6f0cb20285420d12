//! What becomes of a note.

use crate::fallen::Fallen;

/// What became of a note that was to be added.
#[derive(Clone, Copy, Debug, PartialEq, Eq)]
pub enum Added {
    /// Each crash from now on leaves it.
    Kept,
    /// There is no room for it, and nothing has changed.
    Full,
    /// The disk has failed. The end is down from now on.
    Down { fallen: Fallen },
    /// There was no memory. No device was called.
    NoMemory,
}
