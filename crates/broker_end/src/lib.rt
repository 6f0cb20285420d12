//! A broker: it takes each packet once, owes it to the links whose filters pass it, and hands it on until it is
//! acknowledged. Guests get what comes, and are owed nothing.
#![tactic(auto)]

mod broker;
mod event;
mod live;
mod sessions;
mod taking;
mod turned;

pub use broker::BrokerEnd;
pub use event::{BrokerEvent, Way};
