//! The commands that meet the network, over any world: an author that submits, a subscriber that listens, a broker that
//! serves.
//!
//! Each takes what it needs from the world, calls the connections over it, and answers the status that the program ends
//! with. `submit` and `listen` give everything back; a broker keeps its disk while its connections may run. Contracts say of
//! each status when it comes, what the world's sink got, and what the journal holds that was put back.
#![tactic(auto)]

mod laws;
mod listening;
mod loading;
mod outside;
mod refusal;
mod serving;
mod status;
mod submit_journal;
mod submit_lines;
mod submit_packet;
mod submit_rounds;
mod submitting;
mod telling;
mod timers;
mod top;

pub use listening::listen;
pub use refusal::Refusal;
pub use serving::serve;
pub use status::Status;
pub use submitting::submit;
pub use top::online;
