//! What the trials have in common: payloads, and books that are made of them.

use net_model::Note;
use node_book::{Book, BookFault};
use node_notes::{ReadFault, read_config, read_note};
use std::alloc::Global;
use voe_disk::MemoryDisk;
use voe_values::Bytes;

/// A broker with two links, in 38 bytes.
pub const BROKER: &[u8] = b"\0b\0\x09ivo://b/x\x02\0\x09ivo://s/x\0\0\x09ivo://s/y\0";

/// An author with two lines, in 38 bytes.
pub const AUTHOR: &[u8] = b"\0a\0\x09ivo://a/x\x02\0\x09ivo://b/x\0\0\x09ivo://b/y\0";

/// A subscriber, in 14 bytes.
pub const SUBSCRIBER: &[u8] = b"\0s\0\x09ivo://s/x\0";

pub const WROTE: &[u8] = b"\x01\0\x0bivo://a/k#1\0\0\0\x01p";

pub const ACKED: &[u8] = b"\x02\0\x01\0\x0bivo://a/k#1";

pub const REFUSED: &[u8] = b"\x03\0\x01\0\x0bivo://a/k#1";

pub const ACCEPT: &[u8] = b"\x04\0\x0bivo://a/k#1\x01\0\0\0\0\0\x01p";

pub const DONE: &[u8] = b"\x05\0\0\0\x0bivo://a/k#1";

pub const ENTER: &[u8] = b"\x06\0\x0bivo://a/k#1\0\0\0\x01p";

/// What stands for a payload that no caller may add. No book answers it.
pub const UNFIT: BookFault = BookFault::BadNote { place: 0 };

/// A disk with these bytes, of which the calls of these numbers fail.
pub fn disk_of(alloc: Global, bytes: &[u8], fails: &[u8]) -> Result<MemoryDisk, BookFault> {
    let bytes = Bytes::of(alloc, bytes)?;
    let fails = Bytes::of(alloc, fails)?;
    Ok(MemoryDisk::new(alloc, bytes, fails))
}

/// The note of a payload under the configuration of another.
pub fn note_of(alloc: Global, config: &[u8], payload: &[u8]) -> Result<Note, ReadFault> {
    let config = read_config(alloc, config)?;
    read_note(alloc, &config, payload)
}

/// A book that is made on this disk, of the configuration of a payload.
pub fn made(alloc: Global, disk: MemoryDisk, config: &[u8]) -> Result<Book<MemoryDisk>, BookFault> {
    let Ok(config) = read_config(alloc, config) else {
        return Err(UNFIT);
    };
    match Book::make(alloc, disk, config) {
        Ok(book) => Ok(book),
        Err((_, fault)) => Err(fault),
    }
}

/// The book of this disk.
pub fn loaded(alloc: Global, disk: MemoryDisk) -> Result<Book<MemoryDisk>, BookFault> {
    match Book::load(alloc, disk) {
        Ok(book) => Ok(book),
        Err((_, fault)) => Err(fault),
    }
}

/// Adds the note of a payload, where it may stand behind the others.
pub fn add(
    alloc: Global,
    book: &mut Book<MemoryDisk>,
    config: &[u8],
    payload: &[u8],
) -> Result<(), BookFault> {
    let Ok(note) = note_of(alloc, config, payload) else {
        return Err(UNFIT);
    };
    if !book.may_add(&note) {
        return Err(UNFIT);
    }
    match book.add(note) {
        Ok(()) => Ok(()),
        Err((_, fault)) => Err(fault),
    }
}

/// A book of a configuration and notes, over an empty disk.
pub fn kept(alloc: Global, config: &[u8], notes: &[&[u8]]) -> Result<Book<MemoryDisk>, BookFault> {
    let mut book = made(alloc, disk_of(alloc, b"", b"")?, config)?;
    for note in notes {
        add(alloc, &mut book, config, note)?;
    }
    Ok(book)
}
