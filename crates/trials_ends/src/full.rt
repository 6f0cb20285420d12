//! Ends whose journals are full.

use crate::support::{BROKER, FIRST, OTHER, SECOND, SUBSCRIBER, Said};
use crate::{broker, subscriber};
use broker_end::Way;
use std::alloc::Global;
use std::test::Fail;
use voe_disk::MemoryDisk;
use voe_values::Bytes;

/// Adds an entry with a note that brings an identifier: an open gate, the payload's length, and the payload.
fn add(file: &mut Vec<u8>, kind: u8, identifier: &[u8], links: &[u8], packet: &[u8]) -> Option<()> {
    let length = 7usize
        .saturating_add(identifier.len())
        .saturating_add(links.len())
        .saturating_add(packet.len());
    file.push(1).ok()?;
    file.extend_from_slice(&u32::try_from(length).ok()?.to_be_bytes())
        .ok()?;
    file.push(kind).ok()?;
    file.extend_from_slice(&u16::try_from(identifier.len()).ok()?.to_be_bytes())
        .ok()?;
    file.extend_from_slice(identifier).ok()?;
    file.extend_from_slice(links).ok()?;
    file.extend_from_slice(&u32::try_from(packet.len()).ok()?.to_be_bytes())
        .ok()?;
    file.extend_from_slice(packet).ok()
}

/// An identifier of this number.
fn identifier_of(number: u32) -> [u8; 14] {
    let mut identifier = *b"ivo://a/f#aaaa";
    let [_, _, high, low] = number.to_be_bytes();
    identifier[10] = b'a' + high / 16;
    identifier[11] = b'a' + high % 16;
    identifier[12] = b'a' + low / 16;
    identifier[13] = b'a' + low % 16;
    identifier
}

/// What a journal is filled with behind its first packet: so many packets, each of so many bytes, and one more.
type Filling = (u32, usize, usize);

/// As many identifiers as a book has room for.
const MANY: Filling = (65_534, 1, 1);

/// A packet's bytes.
fn block(alloc: Global, size: usize) -> Option<Vec<u8>> {
    vec![in alloc; b'p'; size].ok()
}

/// The disk of a journal without notes, to which the first packet is added, and then a filling. The notes of a broker have
/// links.
fn filled(
    alloc: Global,
    new: &[u8],
    kind: u8,
    links: [&[u8]; 2],
    filling: Filling,
) -> Option<MemoryDisk> {
    let (count, size, last) = filling;
    let packet = block(alloc, size)?;
    let (_, before) = new.split_last()?;
    let mut file = before.to_vec(alloc).ok()?;
    add(&mut file, kind, b"ivo://a/k#1", links[0], FIRST)?;
    for number in 0..count {
        add(&mut file, kind, &identifier_of(number), links[1], &packet)?;
    }
    let packet = block(alloc, last)?;
    add(&mut file, kind, &identifier_of(count), links[1], &packet)?;
    file.push(0).ok()?;
    Some(MemoryDisk::new(alloc, Bytes::from_vec(file), Bytes::new(alloc)))
}

const A: &str = "ivo://a/k#1";

type Rows = [(broker::Ask, Said, usize); 3];

/// A broker's journal that a delivery's record would bring to 67,108,865 bytes, one more than a journal has room for.
const ONE_SHORT: Filling = (67, 1_000_000, 106_812);

const NONE_DELIVERED: Rows = [
    (broker::Ask::Packet(Way::Line, SECOND), ("full", 0, 2), 69),
    (broker::Ask::Acked(0, 0, A), ("full", 0, 0), 69),
    (broker::Ask::Next(0, 0, 0), ("packet", 0, 1), 69),
];

/// One that it brings to 67,108,864 bytes.
const JUST_ENOUGH: Filling = (67, 1_000_000, 106_811);

const ONE_DELIVERED: Rows = [
    (broker::Ask::Packet(Way::Link, SECOND), ("full", 0, 2), 69),
    (broker::Ask::Acked(0, 0, A), ("noted", 0, 0), 70),
    (broker::Ask::Next(0, 0, 0), ("nothing", 0, 0), 70),
];

/// What a broker answers whose book has no room for an identifier.
const MANY_ACCEPTED: Rows = [
    (
        broker::Ask::Packet(Way::Line, SECOND),
        ("full", 0, 2),
        65_536,
    ),
    (broker::Ask::Packet(Way::Line, FIRST), ("ack", 0, 1), 65_536),
    (broker::Ask::Acked(0, 0, A), ("noted", 0, 0), 65_537),
];

/// How many of these rows a full broker meets.
fn broker_met(alloc: Global, filling: Filling, rows: &Rows) -> Option<usize> {
    let disk = filled(alloc, BROKER, 4, [b"\x01\0\0", b"\0"], filling)?;
    let mut end = broker::loaded(alloc, disk)?;
    Some(broker::met(alloc, &mut end, rows))
}

/// What a full subscriber answers to a new packet and to a known one, and how many notes it has then.
fn taken(alloc: Global, filling: Filling) -> Option<(Said, Said, usize)> {
    let disk = filled(alloc, SUBSCRIBER, 6, [b"", b""], filling)?;
    let mut end = subscriber::loaded(alloc, disk)?;
    let new = subscriber::take(alloc, &mut end, SECOND);
    let known = subscriber::take(alloc, &mut end, OTHER);
    Some((new, known, end.book().notes()))
}

#[test]
fn a_full_broker_answers_so(rt: HostRuntime) -> Result<(), Fail> {
    assert!(rt; broker_met(rt.alloc(), ONE_SHORT, &NONE_DELIVERED) == Some(3));
    assert!(rt; broker_met(rt.alloc(), JUST_ENOUGH, &ONE_DELIVERED) == Some(3));
    assert!(rt; broker_met(rt.alloc(), MANY, &MANY_ACCEPTED) == Some(3));
    Ok(())
}

/// A subscriber's journal that the record of the second packet would bring to 67,108,865 bytes, and one that it brings to
/// 67,108,864.
const ONE_SHORT_OF_A_PACKET: Filling = (67, 1_000_000, 106_764);

const JUST_ENOUGH_FOR_A_PACKET: Filling = (67, 1_000_000, 106_763);

#[test]
fn a_full_subscriber_answers_so(rt: HostRuntime) -> Result<(), Fail> {
    let full = ("full", 0, 2);
    let known = ("ack", 0, 1);
    assert!(rt; taken(rt.alloc(), ONE_SHORT_OF_A_PACKET) == Some((full, known, 69)));
    assert!(rt; taken(rt.alloc(), JUST_ENOUGH_FOR_A_PACKET) == Some((("ack", 0, 2), known, 70)));
    assert!(rt; taken(rt.alloc(), MANY) == Some((full, known, 65_536)));
    Ok(())
}
