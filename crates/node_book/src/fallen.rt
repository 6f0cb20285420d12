//! How an end went down.

/// How an end's disk has failed: its count of faults, and whether it had been armed and has stopped.
#[derive(Clone, Copy, Debug, PartialEq, Eq)]
pub struct Fallen {
    pub faults: u64,
    pub stopped: bool,
}
