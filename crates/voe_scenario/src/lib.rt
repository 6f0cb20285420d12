//! The text of a scenario: a graph, its packets and its events, a line each.
//!
//! [`read_scenario`] reads such a text, or says which line is refused first and why, by its number. Nothing here
//! runs a network, reads a file or prints. `docs/SCENARIOS.md` has the language.
#![tactic(auto)]

mod add;
mod config_judge;
mod config_line;
mod config_text;
mod event_line;
mod fault;
mod filter_line;
mod graph;
mod judge;
pub mod laws;
mod limits;
mod lines;
mod packet_line;
mod scenario;
mod statement;
mod text;
mod words;

pub use config_text::read_config;
pub use fault::ScenarioFault;
pub use graph::{Edge, Graph};
pub use limits::TEXT_LIMIT;
pub use node_notes::{Config as ConfigText, LinkConfig as LinkText};
pub use scenario::Scenario;
pub use text::read_scenario;
