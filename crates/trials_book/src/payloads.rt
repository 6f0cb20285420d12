//! How configurations and notes are spelled on the disk, and which payloads are refused with the place of their gate.

use crate::support::{
    ACCEPT, ACKED, AUTHOR, BROKER, DONE, ENTER, REFUSED, SUBSCRIBER, UNFIT, WROTE, disk_of, kept,
};
use node_book::{Book, BookFault};
use std::alloc::Global;
use std::test::Fail;

// Adds an open gate, the payload's length in four bytes, and the payload.
fn add_entry(file: &mut Vec<u8>, payload: &[u8]) -> Result<(), BookFault> {
    let Ok(length) = u32::try_from(payload.len()) else {
        return Err(UNFIT);
    };
    file.extend_from_slice(b"\x01")?;
    file.extend_from_slice(&length.to_be_bytes())?;
    file.extend_from_slice(payload)?;
    Ok(())
}

// The file of these payloads.
fn file_of(alloc: Global, payloads: &[&[u8]]) -> Result<Vec<u8>, BookFault> {
    let mut file = b"\x01VOEVENT JRNL 1\n".to_vec(alloc)?;
    for payload in payloads {
        add_entry(&mut file, payload)?;
    }
    file.extend_from_slice(b"\0")?;
    Ok(file)
}

// How many notes the book of these payloads has.
fn loaded_from(alloc: Global, payloads: &[&[u8]]) -> Result<usize, BookFault> {
    let file = file_of(alloc, payloads)?;
    match Book::load(alloc, disk_of(alloc, &file, b"")?) {
        Ok(book) => Ok(book.notes()),
        Err((_, fault)) => Err(fault),
    }
}

// The same with one payload more.
fn loaded_behind(alloc: Global, before: &[&[u8]], last: &[u8]) -> Result<usize, BookFault> {
    match before.first() {
        None => loaded_from(alloc, &[last]),
        Some(config) => loaded_from(alloc, &[*config, last]),
    }
}

// Whether the book of a configuration and notes has a file of their payloads.
fn is_spelled(alloc: Global, payloads: &[&[u8]]) -> Result<bool, BookFault> {
    let Some((config, notes)) = payloads.split_first() else {
        return Err(UNFIT);
    };
    let disk = kept(alloc, config, notes)?.into_disk();
    Ok(disk.bytes() == file_of(alloc, payloads)?.as_slice())
}

#[test]
fn payloads_in_form_and_order_are_kept_and_loaded(rt: HostRuntime) -> Result<(), Fail> {
    let rows: [&[&[u8]]; 6] = [
        &[BROKER, ACCEPT, DONE],
        &[AUTHOR, WROTE, ACKED],
        &[AUTHOR, WROTE, REFUSED],
        &[SUBSCRIBER, ENTER],
        // The form of a link is a subscriber's too, and a filter may be empty.
        &[b"\0s\0\x09ivo://s/x\x01\0\x09ivo://b/x\0"],
        &[b"\0b\0\x09ivo://b/x\x01\0\x09ivo://s/x\x01\0\0"],
    ];
    for payloads in rows {
        assert!(rt; is_spelled(rt.alloc(), payloads)?, "{payloads:?}");
        assert!(rt;
            loaded_from(rt.alloc(), payloads)?.saturating_add(1) == payloads.len(),
            "{payloads:?}"
        );
    }
    Ok(())
}

#[test]
fn a_payload_out_of_form_is_refused_at_its_gate(rt: HostRuntime) -> Result<(), Fail> {
    // Payloads of which the last is refused, and the place of its gate: behind the header's 16 bytes, and 5 bytes and
    // the payload for each entry before it.
    let rows: [(&[&[u8]], u64); 27] = [
        (&[WROTE], 16),
        (&[b"\0x\0\x09ivo://s/x\0"], 16),
        (&[b"\0s\0\0\0"], 16),
        (&[b"\0s\0\x09ivo://s x\0"], 16),
        (&[b"\0s\0\x09ivo://s/"], 16),
        (&[b"\0s\0\x09ivo://s/x\0\0"], 16),
        (
            &[b"\0b\0\x09ivo://b/x\x01\0\x09ivo://s/x\x01\0\x01\xff"],
            16,
        ),
        (
            &[
                b"\0b\0\x09ivo://b/x\x01\0\x09ivo://s/x\x11\0\0\0\0\0\0\0\0\0\0\0\0\0\0\0\0\0\0\0\0\0\0\0\0\0\0\0\0\0\0\0\0\0\0",
            ],
            16,
        ),
        (&[BROKER, BROKER], 59),
        (&[BROKER, WROTE], 59),
        (&[BROKER, ENTER], 59),
        (&[BROKER, DONE], 59),
        (&[AUTHOR, ACCEPT], 59),
        (&[AUTHOR, ACKED], 59),
        (&[SUBSCRIBER, WROTE], 35),
        (&[BROKER, b"\x07\0\x0bivo://a/k#1\0\0\0\x01p"], 59),
        (&[BROKER, b"\x04\0\x09ivo://a/k\x01\0\0\0\0\0\x01p"], 59),
        (
            &[BROKER, b"\x04\0\x0bivo://a/k#\xff\x01\0\0\0\0\0\x01p"],
            59,
        ),
        (&[BROKER, b"\x04\0\x0bivo://a/k#1\x01\0\0\0\0\0\0"], 59),
        (&[BROKER, b"\x04\0\x0bivo://a/k#1\x01\0\0\0\0\0\x01"], 59),
        (&[BROKER, b"\x04\0\x0bivo://a/k#1\x01\0\0\0\0\0\x01pp"], 59),
        (&[BROKER, b"\x04\0\x0bivo://a/k#1\x01\0\x02\0\0\0\x01p"], 59),
        (
            &[BROKER, b"\x04\0\x0bivo://a/k#1\x02\0\0\0\0\0\0\0\x01p"],
            59,
        ),
        (&[AUTHOR, WROTE, b"\x02\0\x02\0\x0bivo://a/k#1"], 83),
        (&[BROKER, ACCEPT, b"\x05\0\x01\0\x0bivo://a/k#1"], 86),
        (&[BROKER, ACCEPT, b"\x05\0\x02\0\x0bivo://a/k#1"], 86),
        (&[BROKER, ACCEPT, b"\x05\0\0\0\x0bivo://a/k#2"], 86),
    ];
    for (payloads, place) in rows {
        assert!(rt;
            loaded_from(rt.alloc(), payloads) == Err(BookFault::BadNote { place }),
            "{payloads:?}"
        );
    }
    Ok(())
}

#[test]
fn a_payload_that_repeats_is_refused_at_its_gate(rt: HostRuntime) -> Result<(), Fail> {
    let rows: [(&[&[u8]], u64); 6] = [
        (&[BROKER, ACCEPT, ACCEPT], 86),
        (&[BROKER, ACCEPT, DONE, DONE], 107),
        (&[AUTHOR, WROTE, WROTE], 83),
        (&[AUTHOR, WROTE, ACKED, ACKED], 104),
        (&[AUTHOR, WROTE, ACKED, REFUSED], 104),
        (&[SUBSCRIBER, ENTER, ENTER], 59),
    ];
    for (payloads, place) in rows {
        assert!(rt;
            loaded_from(rt.alloc(), payloads) == Err(BookFault::BadNote { place }),
            "{payloads:?}"
        );
    }
    Ok(())
}

// A piece so many times, between two others.
fn repeated(
    alloc: Global,
    front: &[u8],
    piece: &[u8],
    count: u32,
    back: &[u8],
) -> Result<Vec<u8>, BookFault> {
    let mut bytes = front.to_vec(alloc)?;
    for _ in 0..count {
        bytes.extend_from_slice(piece)?;
    }
    bytes.extend_from_slice(back)?;
    Ok(bytes)
}

#[test]
fn a_payload_keeps_to_its_limits(rt: HostRuntime) -> Result<(), Fail> {
    let alloc = rt.alloc();
    // What stands before, a payload of a piece that repeats as often as it may, one more of it, and what the book of
    // either has: names and identifiers of 512 bytes, 64 links, filters of 1,024 bytes, packets of 1,048,576.
    let rows: [(&[&[u8]], [&[u8]; 2], &[u8], u32, &[u8]); 5] = [
        (&[], [b"\0s\x02\0", b"\0s\x02\x01"], b"n", 512, b"\0"),
        (
            &[],
            [b"\0b\0\x09ivo://b/x\x40", b"\0b\0\x09ivo://b/x\x41"],
            b"\0\x01n\0",
            64,
            b"",
        ),
        (
            &[],
            [
                b"\0b\0\x09ivo://b/x\x01\0\x01n\x01\x04\0",
                b"\0b\0\x09ivo://b/x\x01\0\x01n\x01\x04\x01",
            ],
            b"f",
            1024,
            b"",
        ),
        (
            &[SUBSCRIBER],
            [b"\x06\x02\0ivo://a/k#", b"\x06\x02\x01ivo://a/k#"],
            b"i",
            502,
            b"\0\0\0\x01p",
        ),
        (
            &[SUBSCRIBER],
            [
                b"\x06\0\x0bivo://a/k#1\0\x10\0\0",
                b"\x06\0\x0bivo://a/k#1\0\x10\0\x01",
            ],
            b"p",
            1_048_576,
            b"",
        ),
    ];
    for (before, [most, more], piece, count, back) in rows {
        let kept = repeated(alloc, most, piece, count, back)?;
        assert!(rt;
            loaded_behind(alloc, before, &kept) == Ok(before.len()),
            "{most:?}"
        );
        let refused = repeated(alloc, more, piece, count + 1, back)?;
        let place = if before.is_empty() { 16 } else { 35 };
        assert!(rt;
            loaded_behind(alloc, before, &refused) == Err(BookFault::BadNote { place }),
            "{more:?}"
        );
    }
    Ok(())
}
