//! The forms of configurations and records.

ghost use Rattle.std.specs.Prelude.{◌≡◌, length};
ghost use Rattle.std.specs.List.{list_all};
ghost use Rattle.node_notes.specs.Forms.{is_name, is_identifier, is_filter, is_packet, is_link, is_config, are_rising, keeps_form};

use crate::config::{Config, LinkConfig};
use net_model::Note;
use voe_values::{NodeKind, Text, is_end_name, ivorn_fault};

const MAX_FILTER: usize = 1024;

const MAX_FILTERS: usize = 16;

const MAX_LINKS: usize = 64;

const MAX_PACKET: usize = 1_048_576;

#[tactic(auto, using(crate::proofs::Texts::name_is))]
pub fn is_name(text: &str) -> bool
    ensures { result ≡ is_name text.now }
{
    is_end_name(text)
}

#[tactic(auto, using(crate::proofs::Texts::filter_is))]
pub fn is_filter(text: &str) -> bool
    ensures { result ≡ is_filter text.now }
{
    text.len() <= MAX_FILTER
}

#[tactic(auto, using(crate::proofs::Texts::identifier_is, crate::proofs::Texts::no_identifier))]
fn is_identifier(bytes: &[u8]) -> bool
    ensures { result ≡ is_identifier bytes.now }
{
    match std::str::from_utf8(bytes) {
        Ok(text) => ivorn_fault(text).is_none(),
        Err(_) => false,
    }
}

#[tactic(auto, unfolding(crate::specs::Forms::is_packet))]
fn is_packet(bytes: &[u8]) -> bool
    ensures { result ≡ is_packet bytes.now }
{
    1 <= bytes.len() && bytes.len() <= MAX_PACKET
}

fn are_filters(filters: &[Text]) -> bool
    ensures { result ≡ list_all is_filter filters.now }
{
    filters.iter().all(|filter| is_filter(filter.as_str()))
}

fn is_link(link: &LinkConfig) -> bool
    ensures { result ≡ is_link link.now }
{
    is_name(link.name.as_str())
        && link.filters.len() <= MAX_FILTERS
        && are_filters(link.filters.as_slice())
}

fn are_links(links: &[LinkConfig]) -> bool
    ensures { result ≡ list_all is_link links.now }
{
    links.iter().all(|link| is_link(link))
}

/// Whether a configuration keeps to its form: at most 64 links, each with at most 16 filters of at most 1,024 bytes.
/// The types see to the rest.
#[tactic(auto, unfolding(crate::specs::Forms::is_config))]
pub fn is_config(config: &Config) -> bool
    ensures { result ≡ is_config config.now }
{
    is_name(config.name.as_str())
        && config.links.len() <= MAX_LINKS
        && are_links(config.links.as_slice())
}

// Each link is above the one before it and below a number.
fn are_rising(links: &[u16], below: usize) -> bool
    ensures { result ≡ are_rising 0 below links.now }
{
    let mut from = 0;
    for link in links {
        let link = *link as usize;
        if link < from || below <= link {
            return false;
        }
        from = link + 1;
    }
    true
}

/// Whether a note keeps to its form under a configuration: it is of the node's kind, with an identifier, a packet of 1
/// to 1,048,576 bytes, and links or lines that the configuration has, links strictly rising.
#[tactic(auto, unfolding(crate::specs::Forms::keeps_form))]
pub fn keeps_form(config: &Config, note: &Note) -> bool
    ensures { result ≡ keeps_form config.now note.now }
{
    let edges = config.links.len();
    match note {
        Note::Wrote { identifier, packet } => {
            config.kind == NodeKind::Author
                && is_identifier(identifier.as_slice())
                && is_packet(packet.as_slice())
        }
        Note::Acked { line, identifier } | Note::Refused { line, identifier } => {
            config.kind == NodeKind::Author
                && is_identifier(identifier.as_slice())
                && (*line as usize) < edges
        }
        Note::Accept {
            identifier,
            links,
            packet,
        } => {
            config.kind == NodeKind::Broker
                && is_identifier(identifier.as_slice())
                && is_packet(packet.as_slice())
                && are_rising(links.as_slice(), edges)
        }
        Note::Done { link, identifier } => {
            config.kind == NodeKind::Broker
                && is_identifier(identifier.as_slice())
                && (*link as usize) < edges
        }
        Note::Enter { identifier, packet } => {
            config.kind == NodeKind::Subscriber
                && is_identifier(identifier.as_slice())
                && is_packet(packet.as_slice())
        }
    }
}
