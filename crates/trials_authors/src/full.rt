//! An author whose journal is full.

use crate::author::{Ask, loaded, met};
use crate::support::{AUTHOR, FIRST, OTHER, SECOND, Said};
use std::alloc::Global;
use std::test::Fail;
use voe_disk::MemoryDisk;
use voe_values::Bytes;

/// Adds an entry with the note of a packet: an open gate, the payload's length, and the payload.
fn add(file: &mut Vec<u8>, identifier: &[u8], packet: &[u8]) -> Option<()> {
    let length = 7usize
        .saturating_add(identifier.len())
        .saturating_add(packet.len());
    file.push(1).ok()?;
    file.extend_from_slice(&u32::try_from(length).ok()?.to_be_bytes())
        .ok()?;
    file.push(1).ok()?;
    file.extend_from_slice(&u16::try_from(identifier.len()).ok()?.to_be_bytes())
        .ok()?;
    file.extend_from_slice(identifier).ok()?;
    file.extend_from_slice(&u32::try_from(packet.len()).ok()?.to_be_bytes())
        .ok()?;
    file.extend_from_slice(packet).ok()
}

/// An identifier of this number.
fn identifier_of(number: u32) -> [u8; 14] {
    let mut identifier = *b"ivo://a/f#aaaa";
    let [_, _, high, low] = number.to_be_bytes();
    identifier[10] = b'a' + high / 16;
    identifier[11] = b'a' + high % 16;
    identifier[12] = b'a' + low / 16;
    identifier[13] = b'a' + low % 16;
    identifier
}

/// What a journal is filled with behind its first packet: so many packets, each of so many bytes, and one more.
type Filling = (u32, usize, usize);

/// As many identifiers as a book has room for.
const MANY: Filling = (65_534, 1, 1);

/// A packet's bytes.
fn block(alloc: Global, size: usize) -> Option<Vec<u8>> {
    vec![in alloc; b'p'; size].ok()
}

/// The disk of an author's journal, to which the first packet is added, and then a filling.
fn filled(alloc: Global, filling: Filling) -> Option<MemoryDisk> {
    let (count, size, last) = filling;
    let packet = block(alloc, size)?;
    let (_, before) = AUTHOR.split_last()?;
    let mut file = before.to_vec(alloc).ok()?;
    add(&mut file, b"ivo://a/k#1", FIRST)?;
    for number in 0..count {
        add(&mut file, &identifier_of(number), &packet)?;
    }
    let packet = block(alloc, last)?;
    add(&mut file, &identifier_of(count), &packet)?;
    file.push(0).ok()?;
    Some(MemoryDisk::new(alloc, Bytes::from_vec(file), Bytes::new(alloc)))
}

const A: &str = "ivo://a/k#1";

type Rows = [(Ask, Said, usize); 3];

/// An author's journal that an answer's record would bring to 67,108,865 bytes, one more than a journal has room for.
const ONE_SHORT: Filling = (67, 1_000_000, 106_871);

const NONE_ANSWERED: Rows = [
    (Ask::Write(SECOND), ("full", 0, 0), 69),
    (Ask::Answer(0, A, true), ("full", 0, 0), 69),
    (Ask::Next(0, 0), ("packet", 0, 1), 69),
];

/// One that it brings to 67,108,864 bytes.
const JUST_ENOUGH: Filling = (67, 1_000_000, 106_870);

const ONE_ANSWERED: Rows = [
    (Ask::Write(SECOND), ("full", 0, 0), 69),
    (Ask::Answer(0, A, true), ("noted", 0, 0), 70),
    (Ask::Answer(1, A, true), ("full", 0, 0), 70),
];

/// What an author answers whose book has no room for an identifier.
const MANY_WRITTEN: Rows = [
    (Ask::Write(SECOND), ("full", 0, 0), 65_536),
    (Ask::Write(OTHER), ("known", 0, 0), 65_536),
    (Ask::Answer(0, A, true), ("noted", 0, 0), 65_537),
];

/// How many of these rows a full author meets.
fn full_met(alloc: Global, filling: Filling, rows: &Rows) -> Option<usize> {
    let disk = filled(alloc, filling)?;
    let mut end = loaded(alloc, disk)?;
    Some(met(alloc, &mut end, rows))
}

#[test]
fn a_full_author_answers_so(rt: HostRuntime) -> Result<(), Fail> {
    assert!(rt; full_met(rt.alloc(), ONE_SHORT, &NONE_ANSWERED) == Some(3));
    assert!(rt; full_met(rt.alloc(), JUST_ENOUGH, &ONE_ANSWERED) == Some(3));
    assert!(rt; full_met(rt.alloc(), MANY, &MANY_WRITTEN) == Some(3));
    Ok(())
}
