//! The payloads of a node's journal: how a configuration and a note are spelled as bytes, read back, which forms they
//! keep to, and which note may stand behind others.
//!
//! It is a codec alone: it knows no disk and no journal, and what a node does with its notes is not its concern.
#![tactic(auto)]

mod config;
mod fault;
mod forms;
mod laws;
mod reading;
mod writing;

pub use config::{Config, LinkConfig};
pub use fault::ReadFault;
pub use forms::{is_config, keeps_form};
pub use laws::{first_found, held_packet, open_is_held};
pub use reading::{read_config, read_note};
pub use writing::{note_len, write_config, write_note};
