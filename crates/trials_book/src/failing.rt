//! A crash and a fault at each device call.

use crate::support::{SUBSCRIBER, UNFIT, add, disk_of, loaded, made};
use node_book::{Book, BookFault};
use node_notes::read_config;
use std::alloc::Global;
use std::test::Fail;
use voe_disk::{CrashDisk, DiskFail, MemoryDisk};

const FIRST: &[u8] = b"\x06\0\x0bivo://a/k#1\0\0\0\x01p";

const SECOND: &[u8] = b"\x06\0\x0bivo://a/k#2\0\0\0\x01q";

const STOPPED: Option<BookFault> = Some(BookFault::Stopped);

const FAULT: Option<BookFault> = Some(BookFault::DiskFault);

// What adding a note, and then another, answers.
type Added = (Option<BookFault>, Option<BookFault>);

// Adds two notes to a subscriber's book.
fn add_both(alloc: Global, book: &mut Book<MemoryDisk>) -> Added {
    let first = add(alloc, book, SUBSCRIBER, FIRST).err();
    (first, add(alloc, book, SUBSCRIBER, SECOND).err())
}

// How many notes are left of the book of this disk after a crash.
fn left(alloc: Global, mut disk: MemoryDisk) -> Result<usize, BookFault> {
    disk.crash();
    let book = loaded(alloc, disk)?;
    Ok(book.notes())
}

// What adding two notes answers where the disk stops after so many calls, and how many notes a crash with this byte
// leaves.
fn stopped(alloc: Global, calls: u8, fill: u8) -> Result<(Added, usize), BookFault> {
    let mut book = made(alloc, disk_of(alloc, b"", b"")?, SUBSCRIBER)?;
    book.arm(calls, fill);
    let added = add_both(alloc, &mut book);
    Ok((added, left(alloc, book.into_disk())?))
}

#[test]
fn a_stopped_addition_leaves_the_note_or_not(rt: HostRuntime) -> Result<(), Fail> {
    let rows = [
        (0, 1, (STOPPED, STOPPED), 0),
        (1, 1, (STOPPED, STOPPED), 0),
        (2, 1, (STOPPED, STOPPED), 0),
        (3, 0, (STOPPED, STOPPED), 0),
        (3, 1, (STOPPED, STOPPED), 1),
        (3, 2, (STOPPED, STOPPED), 0),
        (4, 1, (None, STOPPED), 1),
        (7, 1, (None, STOPPED), 2),
        (8, 0, (None, None), 2),
    ];
    for (calls, fill, added, notes) in rows {
        assert!(rt;
            stopped(rt.alloc(), calls, fill) == Ok((added, notes)),
            "{calls} {fill}"
        );
    }
    Ok(())
}

// What adding two notes answers where the call of this number fails, and how many notes the disk then has.
fn failed(alloc: Global, call: u8) -> Result<(Added, usize), BookFault> {
    let mut book = made(alloc, disk_of(alloc, b"", &[call])?, SUBSCRIBER)?;
    let added = add_both(alloc, &mut book);
    if book.down() != Some(DiskFail::Fault) || book.faults() != 1 {
        return Err(UNFIT);
    }
    let book = loaded(alloc, book.into_disk())?;
    Ok((added, book.notes()))
}

#[test]
fn a_failed_addition_is_told_until_the_book_is_loaded_again(rt: HostRuntime) -> Result<(), Fail> {
    // The making has fifteen calls: a sync, the size and a read, since a journal may be there; a journal's making with a
    // sync, the size and six that write or sync; and four for the configuration.
    for call in 0..15 {
        assert!(rt;
            failed(rt.alloc(), call) == Err(BookFault::DiskFault),
            "{call}"
        );
    }
    let rows = [
        (15, (FAULT, FAULT), 0),
        (16, (FAULT, FAULT), 0),
        (17, (FAULT, FAULT), 0),
        (18, (FAULT, FAULT), 1),
        (19, (None, FAULT), 1),
        (22, (None, FAULT), 2),
    ];
    for (call, added, notes) in rows {
        assert!(rt; failed(rt.alloc(), call) == Ok((added, notes)), "{call}");
    }
    Ok(())
}

// The making of a book that is stopped after so many calls, and a crash with this byte: how many notes are there.
fn stopped_making(alloc: Global, calls: u8, fill: u8) -> Result<usize, BookFault> {
    let mut disk = disk_of(alloc, b"", b"")?;
    disk.arm(calls, fill);
    let Ok(config) = read_config(alloc, SUBSCRIBER) else {
        return Err(UNFIT);
    };
    match Book::make(alloc, disk, config) {
        Ok(book) => left(alloc, book.into_disk()),
        Err((disk, BookFault::Stopped)) => left(alloc, disk),
        Err((_, fault)) => Err(fault),
    }
}

#[test]
fn a_stopped_making_leaves_a_new_book_or_none(rt: HostRuntime) -> Result<(), Fail> {
    let unmade = Err(BookFault::Unmade);
    // Twelve of the fifteen calls write or sync.
    for calls in 0..11 {
        assert!(rt; stopped_making(rt.alloc(), calls, 1) == unmade, "{calls}");
        assert!(rt; stopped_making(rt.alloc(), calls, 0) == unmade, "{calls}");
    }
    assert!(rt; stopped_making(rt.alloc(), 11, 0) == unmade);
    assert!(rt; stopped_making(rt.alloc(), 11, 1) == Ok(0));
    assert!(rt; stopped_making(rt.alloc(), 12, 0) == Ok(0));
    Ok(())
}
