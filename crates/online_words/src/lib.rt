//! The words of the commands that meet the network: `submit`, `listen` and `serve`.
//!
//! They are read by `clap` as one command with three subcommands, whose arguments are positional. Contracts say what is
//! asked for by `clap`'s own exact meaning of that command.
#![tactic(auto)]

mod command;
mod reading;
mod request;

pub use reading::read;
pub use request::{Request, WordsFault};
