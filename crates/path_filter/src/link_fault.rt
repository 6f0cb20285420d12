//! Why filters were not read.

/// Why the filters of links were not read.
#[derive(Clone, Copy, Debug, PartialEq, Eq)]
pub enum LinkFault {
    /// A link has a filter that is refused, or too many.
    Refused,
    /// There was no memory for them.
    NoMemory,
}
