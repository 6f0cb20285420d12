//! The network's plain data, and what holds of every run.
//!
//! A graph of authors, brokers and subscribers, the events that happen in it, the records of its nodes and a moment
//! of the whole are plain values here. What a node's step and an event do is said in this crate's definitions, over
//! whatever judges packets and filters; the laws of every run are the clauses of functions without a body.
#![tactic(auto)]

mod laws;
mod note;
mod scenario;
mod state;
mod step;

pub use laws::{
    drained_state, every_drain, every_line, every_moment, every_shape, every_state, run_with_room,
    settled_state, still_round, traffic_continued,
};
pub use note::Note;
pub use scenario::{Edge, Event, Graph, Inner};
pub use state::{NakCode, Node, State, Verdict, Wire};
pub use step::{AuthorStep, BrokerStep, Judged, SubscriberStep};
