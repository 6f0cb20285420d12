//! A subscriber: it enters each packet once, and acknowledges it once its record is on the disk.
#![tactic(auto)]

mod entering;
mod event;
mod subscriber;

pub use event::SubscriberEvent;
pub use subscriber::SubscriberEnd;
