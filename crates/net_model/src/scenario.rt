//! Graphs and events.

use voe_values::{Listing, NodeKind};

/// A line from an author to a broker, or a link from a broker to a broker or subscriber, by the
/// numbers of its ends.
#[derive(Clone, Copy, Debug, PartialEq, Eq)]
pub struct Edge {
    pub upper: u8,
    pub lower: u8,
}

/// The network's nodes and edges, each numbered from 0.
#[derive(Drop)]
pub struct Graph {
    pub nodes: Listing<NodeKind>,
    pub edges: Listing<Edge>,
    /// How many packets may be unanswered on a connection.
    pub window: u8,
}

/// The event that a stop cuts short.
#[derive(Clone, Copy, Debug, PartialEq, Eq)]
pub enum Inner {
    Write { author: u8, packet: u16 },
    Down { edge: u16 },
    Up { edge: u16 },
}

/// One event. Where it doesn't fit, nothing changes.
#[derive(Clone, Copy, Debug, PartialEq, Eq)]
pub enum Event {
    /// An author writes a packet, by its number.
    Write { author: u8, packet: u16 },
    /// The upper end's first packet that is to be sent goes into flight.
    Send { edge: u16 },
    /// The first packet in flight is handed to the lower end, whose answer goes into flight.
    Down { edge: u16 },
    /// The first answer in flight is handed to the upper end.
    Up { edge: u16 },
    /// The connection is cut, and what was in flight is lost.
    Cut { edge: u16 },
    /// A cut edge whose two ends are up is connected.
    Connect { edge: u16 },
    /// A node goes down, and its edges are cut.
    Crash { node: u8 },
    /// A node that is down comes up with the records that it has.
    Reopen { node: u8 },
    /// An event during which its node's disk stops after so many calls; then that node crashes.
    Stop { calls: u8, fill: u8, inner: Inner },
    /// All nodes come up, all edges are connected anew, and each edge takes turns until nothing changes.
    Drain,
}
