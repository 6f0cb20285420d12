//! The connections of authors, brokers and subscribers over any link and clock (VTP 2.0).
//!
//! A connection is a talk: reads, turns, writes and lines, one after the other. Each side is a machine that says which move
//! comes next, and reads and writes nothing itself; a driver makes the moves. A broker's turns are made at a hub, from a seat;
//! those of an author and of a subscriber are steps of the one end that the call was lent. What was read, asked, answered and
//! written is a list of moves as the side's rules allow, and the bytes taken from the link and put on it are those of that list.
#![tactic(auto)]

mod ask;
mod author;
mod breach;
mod driving;
mod ended;
mod feed;
mod guest;
pub mod laws;
mod line;
mod listener;
mod moving;
mod no_sink;
mod one_end;
mod over_author;
mod over_hub;
mod over_subscriber;
mod putting;
mod reading;
mod sending;
mod serving;
mod side;
mod speech;
mod spelling;
mod submitting;
mod take;

pub use ask::BrokerAsk;
pub use author::AuthorAsk;
pub use breach::{Breach, Parted};
pub use driving::drive;
pub use ended::{Ended, Stop, Submitted};
pub use guest::GuestFilters;
pub use one_end::{listen, submit};
pub use over_hub::OverHub;
pub use serving::{follow_upstream, serve_author, serve_subscriber};
pub use side::{Next, Side, Turns};
pub use speech::{Speech, Voice};
pub use spelling::spell;
pub use submitting::{listen_over, submit_over};
