//! Whether a tree is a valid packet of VOEvent 2.0, and what is odd about a valid one.
//!
//! `valid` names the first rule that a tree breaks, and takes no memory. `remarks` lists what a reader may wonder
//! about; remarks never refuse a packet. `judge` says of bytes what they are as a packet.
#![tactic(auto)]

mod fraction;
mod gather;
mod judgement;
mod oddity;
mod places;
mod remark;
mod validity;

pub use gather::{Remarks, remarks};
pub use judgement::{
    Judging, fault_number, good_packets_are_named, judge, packets_are_judged_once,
};
pub use validity::valid;
