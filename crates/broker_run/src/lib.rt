//! A broker over any world: it accepts and dials connections, starts a job for each, and takes their links back.
#![tactic(auto)]

mod desk;
mod doors;
mod guest;
mod job;
mod lines;
mod link;
mod outcome;
mod run;

pub use guest::SpentGuest;
pub use job::{Connection, Post, Work};
pub use link::{Back, Door, Fresh, SpentLine};
pub use outcome::{BrokerRun, Dialing};
pub use run::{JobOf, run_broker};
