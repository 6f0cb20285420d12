//! The whole network, stepped an event at a time over ends that keep their own records.
//!
//! A [`Machine`] is made of a graph, of the packets that its authors may write and of one end for each node. What an
//! end does is said by the trait [`NetEnd`]; where its records lie is its own affair. After each event the state is the
//! one that the network's model gives, and the report is that state's text. There are no sockets or threads here.
#![tactic(auto)]

mod at_ends;
mod connections;
mod drain;
mod end;
mod fault;
mod happening;
mod index;
mod lines;
mod machine;
mod plan;
mod reporting;
mod seat;
mod starting;
mod steps;
mod stop;
mod summary;
mod wires;
mod work;

pub use end::NetEnd;
pub use fault::{EndFault, StepFault};
pub use happening::happen;
pub use index::Index;
pub use machine::Machine;
pub use plan::Plan;
pub use reporting::{Sort, report};
pub use seat::{Parts, Seat};
pub use starting::start;
pub use summary::{Summary, sum_up};
pub use work::Work;
