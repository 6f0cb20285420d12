//! Packets of VOEvent 2.0 as typed values: their parts, their lines on a screen, and their text from a draft.
//!
//! The parts are read off a valid tree, and a written draft is a valid packet with these parts. Whether a tree is valid
//! is judged elsewhere, and nothing here asks what a text of a packet means.
#![tactic(auto)]

mod draft;
mod identified;
pub mod laws;
mod packet;
mod param;
mod parts;
mod places;
mod show;
mod words;

pub use draft::{Draft, write_packet};
pub use identified::identifier_of;
pub use packet::{Citation, Packet, Position};
pub use param::Param;
pub use show::show_packet;
pub use words::{cite_word, role_word};
