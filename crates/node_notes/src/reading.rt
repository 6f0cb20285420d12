//! The reading of payloads.

ghost use Rattle.std.specs.Prelude.{◌≡◌, true, List, length, IfOk, IsErrOf, Ok, Some};
ghost use Rattle.std.specs.Int.{w16, w32};
ghost use Rattle.node_notes.specs.Reading.{Gives, byte_at, integer_at, number_at, name_at, passing, end_name_at, filter_at, packet_at, many_at, counted_at, brought_at, answered_at, accepted_at, note_behind, note_of, kind_at, link_at, config_at, config_of};
ghost use Rattle.node_notes.specs.Spelling.{note_payload, config_payload};
ghost use Rattle.node_notes.specs.Forms.{is_name, is_filter, is_config, keeps_form};
ghost use Rattle.net_model.specs.declared.note.Note.{Note};
ghost use Rattle.node_notes.specs.declared.config.Config.{Config};

use crate::config::{Config, LinkConfig};
use crate::fault::ReadFault;
use crate::forms::{is_config, is_filter, is_name, keeps_form};
use net_model::Note;
use std::alloc::Global;
use voe_values::{Bytes, EndName, Listing, NodeKind, Text};

#[tactic(auto, unfolding(crate::specs::Reading::byte_at))]
fn take_byte(bytes: &[u8]) -> Result<(u8, &[u8]), ReadFault>
    ensures { Gives (λ x. (x.0, x.1.now)) result (byte_at bytes.now) }
{
    match bytes {
        [] => Err(ReadFault::Malformed),
        [byte, rest @ ..] => Ok((*byte, rest)),
    }
}

fn take_u16(bytes: &[u8]) -> Result<(u16, &[u8]), ReadFault>
    ensures { Gives (λ x. (x.0, x.1.now)) result (integer_at w16 bytes.now) }
{
    if bytes.len() < 2 {
        return Err(ReadFault::Malformed);
    }
    let (front, rest) = bytes.split_at(2);
    let integer = u16::from_be_bytes([front[0], front[1]]);
    Ok((integer, rest))
}

fn take_u32(bytes: &[u8]) -> Result<(u32, &[u8]), ReadFault>
    ensures { Gives (λ x. (x.0, x.1.now)) result (integer_at w32 bytes.now) }
{
    if bytes.len() < 4 {
        return Err(ReadFault::Malformed);
    }
    let (front, rest) = bytes.split_at(4);
    let integer = u32::from_be_bytes([front[0], front[1], front[2], front[3]]);
    Ok((integer, rest))
}

#[tactic(auto, unfolding(crate::specs::Reading::number_at))]
fn take_number(bytes: &[u8]) -> Result<(u16, &[u8]), ReadFault>
    ensures { Gives (λ x. (x.0, x.1.now)) result (number_at bytes.now) }
{
    take_u16(bytes)
}

// A length in two bytes, and so many bytes.
#[tactic(auto, unfolding(crate::specs::Reading::name_at))]
fn take_text(bytes: &[u8]) -> Result<(&[u8], &[u8]), ReadFault>
    ensures { Gives (λ x. (x.0.now, x.1.now)) result (name_at bytes.now) }
{
    let (count, rest) = take_u16(bytes)?;
    let count = count as usize;
    if rest.len() < count {
        return Err(ReadFault::Malformed);
    }
    Ok(rest.split_at(count))
}

fn take_name(alloc: Global, bytes: &[u8]) -> Result<(Bytes, &[u8]), ReadFault>
    ensures { Gives (λ x. (x.0, x.1.now)) result (name_at bytes.now) }
{
    let (text, rest) = take_text(bytes)?;
    Ok((Bytes::of(alloc, text)?, rest))
}

#[tactic(auto, unfolding(crate::specs::Reading::end_name_at))]
fn take_end_name(alloc: Global, bytes: &[u8]) -> Result<(EndName, &[u8]), ReadFault>
    ensures { Gives (λ x. (x.0, x.1.now)) result (end_name_at bytes.now) }
{
    let (text, rest) = take_text(bytes)?;
    let name = end_name_of(alloc, text)?;
    Ok((name, rest))
}

#[tactic(auto, unfolding(crate::specs::Reading::filter_at))]
fn take_filter(alloc: Global, bytes: &[u8]) -> Result<(Text, &[u8]), ReadFault>
    ensures { Gives (λ x. (x.0, x.1.now)) result (filter_at bytes.now) }
{
    let (text, rest) = take_text(bytes)?;
    let filter = filter_of(alloc, text)?;
    Ok((filter, rest))
}

// The bytes as an end name, if they are one.
#[tactic(auto, using(crate::proofs::Texts::no_name, crate::proofs::Texts::end_name_from))]
fn end_name_of(alloc: Global, bytes: &[u8]) -> Result<EndName, ReadFault>
    ensures { Gives (λ name. name) result (passing is_name bytes.now) }
{
    let Ok(text) = std::str::from_utf8(bytes) else {
        return Err(ReadFault::Malformed);
    };
    if !is_name(text) {
        return Err(ReadFault::Malformed);
    }
    Ok(EndName::of(alloc, text)?)
}

// The bytes as a filter's text, if they keep to its form.
#[tactic(auto, using(crate::proofs::Texts::no_filter))]
fn filter_of(alloc: Global, bytes: &[u8]) -> Result<Text, ReadFault>
    ensures { Gives (λ filter. filter) result (passing is_filter bytes.now) }
{
    let Ok(text) = std::str::from_utf8(bytes) else {
        return Err(ReadFault::Malformed);
    };
    if !is_filter(text) {
        return Err(ReadFault::Malformed);
    }
    Ok(Text::of(alloc, text)?)
}

#[tactic(auto, unfolding(crate::specs::Reading::packet_at))]
fn take_packet(alloc: Global, bytes: &[u8]) -> Result<(Bytes, &[u8]), ReadFault>
    ensures { Gives (λ x. (x.0, x.1.now)) result (packet_at bytes.now) }
{
    let (count, rest) = take_u32(bytes)?;
    let count = count as usize;
    if rest.len() < count {
        return Err(ReadFault::Malformed);
    }
    let (packet, rest) = rest.split_at(count);
    Ok((Bytes::of(alloc, packet)?, rest))
}

fn take_numbers(alloc: Global, count: u8, bytes: &[u8]) -> Result<(Listing<u16>, &[u8]), ReadFault>
    ensures { Gives (λ x. (x.0, x.1.now)) result (many_at number_at count bytes.now) }
{
    let mut numbers = Listing::new(alloc);
    let mut rest = bytes;
    for _ in 0..count {
        let (number, after) = take_number(rest)?;
        numbers.push(number)?;
        rest = after;
    }
    Ok((numbers, rest))
}

#[tactic(auto, unfolding(crate::specs::Reading::brought_at))]
fn take_brought(alloc: Global, bytes: &[u8]) -> Result<((Bytes, Bytes), &[u8]), ReadFault>
    ensures { Gives (λ x. (x.0, x.1.now)) result (brought_at bytes.now) }
{
    let (identifier, rest) = take_name(alloc, bytes)?;
    let (packet, rest) = take_packet(alloc, rest)?;
    Ok(((identifier, packet), rest))
}

#[tactic(auto, unfolding(crate::specs::Reading::answered_at))]
fn take_answered(alloc: Global, bytes: &[u8]) -> Result<((u16, Bytes), &[u8]), ReadFault>
    ensures { Gives (λ x. (x.0, x.1.now)) result (answered_at bytes.now) }
{
    let (edge, rest) = take_number(bytes)?;
    let (identifier, rest) = take_name(alloc, rest)?;
    Ok(((edge, identifier), rest))
}

#[tactic(auto, unfolding(crate::specs::Reading::accepted_at, crate::specs::Reading::counted_at))]
fn take_accepted(
    alloc: Global,
    bytes: &[u8],
) -> Result<((Bytes, Listing<u16>, Bytes), &[u8]), ReadFault>
    ensures { Gives (λ x. (x.0, x.1.now)) result (accepted_at bytes.now) }
{
    let (identifier, rest) = take_name(alloc, bytes)?;
    let (count, rest) = take_byte(rest)?;
    let (links, rest) = take_numbers(alloc, count, rest)?;
    let (packet, rest) = take_packet(alloc, rest)?;
    Ok(((identifier, links, packet), rest))
}

#[tactic(auto, unfolding(crate::specs::Reading::note_behind))]
fn take_note(alloc: Global, tag: u8, bytes: &[u8]) -> Result<(Note, &[u8]), ReadFault>
    ensures { Gives (λ x. (x.0, x.1.now)) result (note_behind tag bytes.now) }
{
    match tag {
        1 => {
            let ((identifier, packet), rest) = take_brought(alloc, bytes)?;
            Ok((Note::Wrote { identifier, packet }, rest))
        }
        2 => {
            let ((line, identifier), rest) = take_answered(alloc, bytes)?;
            Ok((Note::Acked { line, identifier }, rest))
        }
        3 => {
            let ((line, identifier), rest) = take_answered(alloc, bytes)?;
            Ok((Note::Refused { line, identifier }, rest))
        }
        4 => {
            let ((identifier, links, packet), rest) = take_accepted(alloc, bytes)?;
            Ok((
                Note::Accept {
                    identifier,
                    links,
                    packet,
                },
                rest,
            ))
        }
        5 => {
            let ((link, identifier), rest) = take_answered(alloc, bytes)?;
            Ok((Note::Done { link, identifier }, rest))
        }
        6 => {
            let ((identifier, packet), rest) = take_brought(alloc, bytes)?;
            Ok((Note::Enter { identifier, packet }, rest))
        }
        _ => Err(ReadFault::Malformed),
    }
}

// The note that a payload spells, all of its bytes.
#[tactic(auto, unfolding(crate::specs::Reading::note_of))]
fn spelled_note(alloc: Global, payload: &[u8]) -> Result<Note, ReadFault>
    ensures { Gives (λ note. note) result (note_of payload.now) }
{
    let (tag, rest) = take_byte(payload)?;
    let (note, rest) = take_note(alloc, tag, rest)?;
    if !rest.is_empty() {
        return Err(ReadFault::Malformed);
    }
    Ok(note)
}

#[tactic(auto, unfolding(crate::specs::Reading::kind_at))]
fn take_kind(bytes: &[u8]) -> Result<(NodeKind, &[u8]), ReadFault>
    ensures { Gives (λ x. (x.0, x.1.now)) result (kind_at bytes.now) }
{
    let (byte, rest) = take_byte(bytes)?;
    match byte {
        b'a' => Ok((NodeKind::Author, rest)),
        b'b' => Ok((NodeKind::Broker, rest)),
        b's' => Ok((NodeKind::Subscriber, rest)),
        _ => Err(ReadFault::Malformed),
    }
}

fn take_filters(alloc: Global, count: u8, bytes: &[u8]) -> Result<(Listing<Text>, &[u8]), ReadFault>
    ensures { Gives (λ x. (x.0, x.1.now)) result (many_at filter_at count bytes.now) }
{
    let mut filters = Listing::new(alloc);
    let mut rest = bytes;
    for _ in 0..count {
        let (filter, after) = take_filter(alloc, rest)?;
        filters.push(filter)?;
        rest = after;
    }
    Ok((filters, rest))
}

#[tactic(auto, unfolding(crate::specs::Reading::link_at, crate::specs::Reading::counted_at))]
fn take_link(alloc: Global, bytes: &[u8]) -> Result<(LinkConfig, &[u8]), ReadFault>
    ensures { Gives (λ x. (x.0, x.1.now)) result (link_at bytes.now) }
{
    let (name, rest) = take_end_name(alloc, bytes)?;
    let (count, rest) = take_byte(rest)?;
    let (filters, rest) = take_filters(alloc, count, rest)?;
    Ok((LinkConfig { name, filters }, rest))
}

fn take_links(
    alloc: Global,
    count: u8,
    bytes: &[u8],
) -> Result<(Listing<LinkConfig>, &[u8]), ReadFault>
    ensures { Gives (λ x. (x.0, x.1.now)) result (many_at link_at count bytes.now) }
{
    let mut links = Listing::new(alloc);
    let mut rest = bytes;
    for _ in 0..count {
        let (link, after) = take_link(alloc, rest)?;
        links.push(link)?;
        rest = after;
    }
    Ok((links, rest))
}

#[tactic(auto, unfolding(crate::specs::Reading::config_at, crate::specs::Reading::counted_at))]
fn take_config(alloc: Global, bytes: &[u8]) -> Result<(Config, &[u8]), ReadFault>
    ensures { Gives (λ x. (x.0, x.1.now)) result (config_at bytes.now) }
{
    let (kind, rest) = take_kind(bytes)?;
    let (name, rest) = take_end_name(alloc, rest)?;
    let (count, rest) = take_byte(rest)?;
    let (links, rest) = take_links(alloc, count, rest)?;
    Ok((Config { kind, name, links }, rest))
}

// The configuration that a payload spells, all of its bytes.
#[tactic(auto, unfolding(crate::specs::Reading::config_of))]
fn spelled_config(alloc: Global, payload: &[u8]) -> Result<Config, ReadFault>
    ensures { Gives (λ config. config) result (config_of payload.now) }
{
    let (tag, rest) = take_byte(payload)?;
    if tag != 0 {
        return Err(ReadFault::Malformed);
    }
    let (config, rest) = take_config(alloc, rest)?;
    if !rest.is_empty() {
        return Err(ReadFault::Malformed);
    }
    Ok(config)
}

/// The note of a payload, if it keeps to its form under a configuration. `Malformed` exactly where it doesn't, or where
/// bytes are left over.
pub fn read_note(alloc: Global, config: &Config, payload: &[u8]) -> Result<Note, ReadFault>
    requires { is_config config.now ≡ true }
    ensures found { IfOk result (λ note. (keeps_form config.now note ≡ true) × (payload.now ≡ note_payload note)) }
    ensures none { IsErrOf result ReadFault.Malformed → (note : Note) → keeps_form config.now note ≡ true → payload.now ≡ note_payload note → ⊥ }
{
    let note = spelled_note(alloc, payload)?;
    if !keeps_form(config, &note) {
        return Err(ReadFault::Malformed);
    }
    Ok(note)
}

/// The configuration of a payload, if it keeps to its form. `Malformed` exactly where it doesn't, or where bytes are
/// left over.
pub fn read_config(alloc: Global, payload: &[u8]) -> Result<Config, ReadFault>
    ensures found { IfOk result (λ config. (is_config config ≡ true) × (payload.now ≡ config_payload config)) }
    ensures none { IsErrOf result ReadFault.Malformed → (config : Config) → is_config config ≡ true → payload.now ≡ config_payload config → ⊥ }
{
    let config = spelled_config(alloc, payload)?;
    if !is_config(&config) {
        return Err(ReadFault::Malformed);
    }
    Ok(config)
}
