//! What happens to an author.

use voe_values::{Bytes, Ivorn};

/// What happens to an author. A line is one that is configured.
#[derive(Drop)]
pub enum AuthorEvent {
    /// A packet is to be written, of 1 to 1,048,576 bytes.
    Write {
        packet: Bytes,
    },
    /// The first packet at or past a place is asked for that is unanswered on this line.
    Next {
        line: u16,
        after: usize,
    },
    /// An answer comes over a line: an acknowledgement or a refusal.
    Answer {
        line: u16,
        identifier: Ivorn,
        ack: bool,
    },
}
