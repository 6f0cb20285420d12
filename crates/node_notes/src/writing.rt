//! The writing of payloads.

ghost use Rattle.std.specs.Prelude.{◌≡◌, ◌<◌, ◌^◌, ◌++◌, ℕ, length, OnOk, IfOk};
ghost use Rattle.std.specs.List.{AllByRecursion, flat_map};
ghost use Rattle.node_notes.specs.Spelling.{number, name, packet, counted, brought, answered, accepted, link_text, note_payload, config_payload, IsShort, IsLong, IsNumber, IsLinkText, HasSpelling, IsConfigText};

use crate::config::{Config, LinkConfig};
use net_model::Note;
use std::alloc::{AllocError, Global};
use voe_values::{Bytes, Listing, NodeKind, Text};

#[tactic(auto, unfolding(crate::specs::Spelling::number))]
fn put_number(out: &mut Vec<u8>, edge: u16) -> Result<(), AllocError>
    ensures { OnOk result (out.new.items ≡ out.old.items ++ number edge) }
{
    out.extend_from_slice(&edge.to_be_bytes())
}

#[tactic(auto, unfolding(crate::specs::Spelling::name))]
fn put_name(out: &mut Vec<u8>, text: &[u8]) -> Result<(), AllocError>
    requires { IsShort text.now }
    ensures { OnOk result (out.new.items ≡ out.old.items ++ name text.now) }
{
    out.extend_from_slice(&(text.len() as u16).to_be_bytes())?;
    out.extend_from_slice(text)
}

#[tactic(auto, unfolding(crate::specs::Spelling::packet))]
fn put_packet(out: &mut Vec<u8>, bytes: &[u8]) -> Result<(), AllocError>
    requires { IsLong bytes.now }
    ensures { OnOk result (out.new.items ≡ out.old.items ++ packet bytes.now) }
{
    out.extend_from_slice(&(bytes.len() as u32).to_be_bytes())?;
    out.extend_from_slice(bytes)
}

#[tactic(auto, unfolding(crate::specs::Spelling::counted))]
fn put_numbers(out: &mut Vec<u8>, numbers: &[u16]) -> Result<(), AllocError>
    requires { length numbers.now < 256 }
    ensures { OnOk result (out.new.items ≡ out.old.items ++ counted number numbers.now) }
{
    out.push(numbers.len() as u8)?;
    for edge in numbers {
        put_number(out, *edge)?;
    }
    Ok(())
}

#[tactic(auto, unfolding(crate::specs::Spelling::brought))]
fn put_brought(out: &mut Vec<u8>, identifier: &[u8], bytes: &[u8]) -> Result<(), AllocError>
    requires identifier { IsShort identifier.now }
    requires bytes { IsLong bytes.now }
    ensures { OnOk result (out.new.items ≡ out.old.items ++ brought identifier.now bytes.now) }
{
    put_name(out, identifier)?;
    put_packet(out, bytes)
}

#[tactic(auto, unfolding(crate::specs::Spelling::answered))]
fn put_answered(out: &mut Vec<u8>, edge: u16, identifier: &[u8]) -> Result<(), AllocError>
    requires { IsShort identifier.now }
    ensures { OnOk result (out.new.items ≡ out.old.items ++ answered edge identifier.now) }
{
    put_number(out, edge)?;
    put_name(out, identifier)
}

#[tactic(auto, unfolding(crate::specs::Spelling::accepted))]
fn put_accepted(
    out: &mut Vec<u8>,
    identifier: &[u8],
    links: &[u16],
    bytes: &[u8],
) -> Result<(), AllocError>
    requires identifier { IsShort identifier.now }
    requires links { length links.now < 256 }
    requires bytes { IsLong bytes.now }
    ensures { OnOk result (out.new.items ≡ out.old.items ++ accepted identifier.now links.now bytes.now) }
{
    put_name(out, identifier)?;
    put_numbers(out, links)?;
    put_packet(out, bytes)
}

/// The payload of a note.
pub fn write_note(alloc: Global, note: &Note) -> Result<Vec<u8>, AllocError>
    requires { HasSpelling note.now }
    ensures { IfOk result (λ payload. payload.items ≡ note_payload note.now) }
{
    let mut out = Vec::new(alloc);
    match note {
        Note::Wrote { identifier, packet } => {
            out.push(1)?;
            put_brought(&mut out, identifier.as_slice(), packet.as_slice())?;
        }
        Note::Acked { line, identifier } => {
            out.push(2)?;
            put_answered(&mut out, *line, identifier.as_slice())?;
        }
        Note::Refused { line, identifier } => {
            out.push(3)?;
            put_answered(&mut out, *line, identifier.as_slice())?;
        }
        Note::Accept {
            identifier,
            links,
            packet,
        } => {
            out.push(4)?;
            put_accepted(
                &mut out,
                identifier.as_slice(),
                links.as_slice(),
                packet.as_slice(),
            )?;
        }
        Note::Done { link, identifier } => {
            out.push(5)?;
            put_answered(&mut out, *link, identifier.as_slice())?;
        }
        Note::Enter { identifier, packet } => {
            out.push(6)?;
            put_brought(&mut out, identifier.as_slice(), packet.as_slice())?;
        }
    }
    Ok(out)
}

#[tactic(auto, unfolding(crate::specs::Spelling::counted))]
fn put_filters(out: &mut Vec<u8>, filters: &[Text]) -> Result<(), AllocError>
    requires few { length filters.now < 256 }
    requires each { AllByRecursion IsShort filters.now }
    ensures { OnOk result (out.new.items ≡ out.old.items ++ counted name filters.now) }
{
    out.push(filters.len() as u8)?;
    for filter in filters {
        put_name(out, filter.as_str().as_bytes())?;
    }
    Ok(())
}

#[tactic(auto, unfolding(crate::specs::Spelling::link_text))]
fn put_link(out: &mut Vec<u8>, link: &LinkConfig) -> Result<(), AllocError>
    requires { IsLinkText link.now }
    ensures { OnOk result (out.new.items ≡ out.old.items ++ link_text link.now) }
{
    put_name(out, link.name.as_str().as_bytes())?;
    put_filters(out, link.filters.as_slice())
}

#[tactic(auto, unfolding(crate::specs::Spelling::counted))]
fn put_links(out: &mut Vec<u8>, links: &[LinkConfig]) -> Result<(), AllocError>
    requires few { length links.now < 256 }
    requires each { AllByRecursion IsLinkText links.now }
    ensures { OnOk result (out.new.items ≡ out.old.items ++ counted link_text links.now) }
{
    out.push(links.len() as u8)?;
    for link in links {
        put_link(out, link)?;
    }
    Ok(())
}

/// The payload of a configuration.
pub fn write_config(alloc: Global, config: &Config) -> Result<Vec<u8>, AllocError>
    requires { IsConfigText config.now }
    ensures { IfOk result (λ payload. payload.items ≡ config_payload config.now) }
{
    let mut out = Vec::new(alloc);
    out.push(0)?;
    out.push(match config.kind {
        NodeKind::Author => b'a',
        NodeKind::Broker => b'b',
        NodeKind::Subscriber => b's',
    })?;
    put_name(&mut out, config.name.as_str().as_bytes())?;
    put_links(&mut out, config.links.as_slice())?;
    Ok(out)
}

#[tactic(auto, using(crate::proofs::Shapes::length_brought))]
fn brought_len(identifier: &Bytes, packet: &Bytes) -> usize
    requires identifier { IsShort identifier.now }
    requires packet { IsLong packet.now }
    ensures len { result ≡ length (brought identifier.now packet.now) }
    ensures fits { result < 2 ^ 63 }
{
    6 + identifier.len() + packet.len()
}

#[tactic(auto, using(crate::proofs::Shapes::length_answered))]
fn answered_len(identifier: &Bytes) -> usize
    requires { IsShort identifier.now }
    ensures len { (edge : ℕ) → result ≡ length (answered edge identifier.now) }
    ensures fits { result < 2 ^ 63 }
{
    4 + identifier.len()
}

#[tactic(auto, using(crate::proofs::Shapes::length_accepted))]
fn accepted_len(identifier: &Bytes, links: &Listing<u16>, packet: &Bytes) -> usize
    requires identifier { IsShort identifier.now }
    requires links { length links.now < 256 }
    requires packet { IsLong packet.now }
    ensures len { result ≡ length (accepted identifier.now links.now packet.now) }
    ensures fits { result < 2 ^ 63 }
{
    7 + identifier.len() + 2 * links.len() + packet.len()
}

/// How many bytes a note's payload has.
pub fn note_len(note: &Note) -> usize
    requires { HasSpelling note.now }
    ensures { result ≡ length (note_payload note.now) }
{
    match note {
        Note::Wrote { identifier, packet } => 1 + brought_len(identifier, packet),
        Note::Acked { identifier, .. } => 1 + answered_len(identifier),
        Note::Refused { identifier, .. } => 1 + answered_len(identifier),
        Note::Accept {
            identifier,
            links,
            packet,
        } => 1 + accepted_len(identifier, links, packet),
        Note::Done { identifier, .. } => 1 + answered_len(identifier),
        Note::Enter { identifier, packet } => 1 + brought_len(identifier, packet),
    }
}
