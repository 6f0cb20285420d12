//! The messages of the VOEvent Transport Protocol 2.0: what a tree says as one, and how one is written.
//!
//! A message is what one end tells the other beside packets: that it is there, that it asks who the other is or says
//! who it is, and that a packet is accepted or refused. What a message means to an end is not known here.
#![tactic(auto)]

mod children;
mod fault;
pub mod laws;
mod message;
mod read;
mod role;
mod show;
mod texts;
mod write;

pub use fault::MessageFault;
pub use message::{Message, is_stripped};
pub use read::read_message;
pub use role::MessageRole;
pub use show::show_message;
pub use write::write_message;
