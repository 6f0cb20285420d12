//! A whole network over disks: a node's end and its disk for each node of a graph, stepped an event at a time.
//!
//! [`Network`] is made of a scenario's graph and of one disk for each node. Each node is an author, a broker or a
//! subscriber that keeps its records on its own disk; after each event the state is the one that the network's model
//! gives, and the disks keep it. There are no sockets or threads here.
#![tactic(auto)]

mod asking;
mod author_work;
mod blank;
mod broker_work;
mod crashing;
mod disks;
mod fault;
mod heard;
mod holding;
mod kept;
mod making;
mod network;
mod node_end;
mod performing;
mod start;
mod stopping;
mod subscriber_work;
mod take_back;
mod working;

pub use disks::Disks;
pub use fault::NetFault;
pub use kept::Kept;
pub use net_machine::Summary;
pub use network::Network;
pub use node_end::NodeEnd;
