//! What a text of a scenario gives.

use crate::graph::Graph;
use net_model::Event;
use voe_values::{Bytes, Listing};

/// A graph, the packets that its authors may write, and the events in order.
#[derive(Drop)]
pub struct Scenario {
    pub graph: Graph,
    pub packets: Listing<Bytes>,
    pub events: Listing<Event>,
}
