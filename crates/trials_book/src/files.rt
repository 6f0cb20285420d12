//! Over which files a book is made, which of them are loaded, and what is refused with its place.

use crate::support::{SUBSCRIBER, UNFIT, disk_of, loaded};
use node_book::{Book, BookFault, one_book, one_making};
use node_notes::read_config;
use std::alloc::Global;
use std::test::Fail;
use voe_disk::MemoryDisk;

// A subscriber without notes, in 36 bytes: the header, one payload of 14 bytes, and a closed gate.
const NEW: &[u8] = b"\x01VOEVENT JRNL 1\n\x01\0\0\0\x0e\0s\0\x09ivo://s/x\0\0";

// A refusal, which must have left the disk as it was.
fn refused(disk: &MemoryDisk, bytes: &[u8], fault: BookFault) -> BookFault {
    if disk.bytes() == bytes { fault } else { UNFIT }
}

// Makes a subscriber's book over these bytes. Its disk must have those of a new one.
fn make_over(alloc: Global, bytes: &[u8]) -> Result<(), BookFault> {
    let Ok(config) = read_config(alloc, SUBSCRIBER) else {
        return Err(UNFIT);
    };
    match Book::make(alloc, disk_of(alloc, bytes, b"")?, config) {
        Ok(book) => {
            let disk = book.into_disk();
            if disk.bytes() == NEW {
                Ok(())
            } else {
                Err(UNFIT)
            }
        }
        Err((disk, fault)) => Err(refused(&disk, bytes, fault)),
    }
}

// Loads the book of these bytes, which has no notes.
fn load_from(alloc: Global, bytes: &[u8]) -> Result<(), BookFault> {
    match Book::load(alloc, disk_of(alloc, bytes, b"")?) {
        Ok(book) if book.notes() == 0 => Ok(()),
        Ok(_) => Err(UNFIT),
        Err((disk, fault)) => Err(refused(&disk, bytes, fault)),
    }
}

const UNMADE: Result<(), BookFault> = Err(BookFault::Unmade);

const MADE: Result<(), BookFault> = Err(BookFault::AlreadyMade);

const fn foreign(place: u64) -> Result<(), BookFault> {
    Err(BookFault::NotJournal { place })
}

const fn damaged(place: u64) -> Result<(), BookFault> {
    Err(BookFault::Damaged { place })
}

#[test]
fn a_file_is_made_a_book_or_loaded_or_refused(rt: HostRuntime) -> Result<(), Fail> {
    // A file, what the making of a book over it answers, and what loading the book in it does.
    let rows: [(&[u8], Result<(), BookFault>, Result<(), BookFault>); 16] = [
        (b"", Ok(()), UNMADE),
        (b"\x01", Ok(()), UNMADE),
        (b"\0VOEVENT JRNL 1\n\0", Ok(()), UNMADE),
        (b"hello, foreign on", Ok(()), UNMADE),
        (b"\x01VOEVENT JRNL 1\n\0", Ok(()), UNMADE),
        (NEW, MADE, Ok(())),
        (
            b"\x01VOEVENT JRNL 1\n\x01\0\0\0\x0e\0s\0\x09ivo://s/x\0\0any",
            MADE,
            Ok(()),
        ),
        (
            b"\x01VOEVENT JRNL 1\n\x01\0\0\0\x0e\0s\0\x09ivo://s/x\0\x02\x01\x01",
            MADE,
            Ok(()),
        ),
        (b"hello, foreign one", foreign(0), foreign(0)),
        (b"\x01V", foreign(2), foreign(2)),
        (b"\x01VOEVENT JRNL 2\n\0", foreign(14), foreign(14)),
        (b"\x01VOEVENT JRNL 1\n", foreign(16), foreign(16)),
        (b"\x01VOEVENT JRNL 1\n\x01\0\0\0", damaged(16), damaged(16)),
        (
            b"\x01VOEVENT JRNL 1\n\x01\0\0\0\0\0s\0\x09ivo://s/x\0\0",
            damaged(16),
            damaged(16),
        ),
        (
            b"\x01VOEVENT JRNL 1\n\x01\0\x10\xc8\xe1\0s\0\x09ivo://s/x\0\0",
            damaged(16),
            damaged(16),
        ),
        (
            b"\x01VOEVENT JRNL 1\n\x01\0\0\0\x0e\0s\0\x09ivo://s/x\0",
            damaged(16),
            damaged(16),
        ),
    ];
    for (bytes, made, loaded) in rows {
        assert!(rt; make_over(rt.alloc(), bytes) == made, "{bytes:?}");
        assert!(rt; load_from(rt.alloc(), bytes) == loaded, "{bytes:?}");
    }
    Ok(())
}

#[test]
fn a_book_tells_its_configuration(rt: HostRuntime) -> Result<(), Fail> {
    let book = loaded(rt.alloc(), disk_of(rt.alloc(), NEW, b"")?)?;
    assert!(rt; book.config().name.as_str() == "ivo://s/x");
    assert!(rt; book.config().links.is_empty());
    assert!(rt; book.down().is_none());
    assert!(rt; book.faults() == 0);
    assert!(rt; book.note(0).is_none());
    assert!(rt; book.into_disk().bytes().len() == 36);
    one_book();
    one_making();
    Ok(())
}
