//! Which disks are loaded as which end.

use crate::support::{AUTHOR, BROKER, SUBSCRIBER, disk_of};
use author_end::AuthorEnd;
use broker_end::BrokerEnd;
use node_book::BookFault;
use std::alloc::Global;
use std::test::Fail;
use subscriber_end::SubscriberEnd;
use voe_disk::MemoryDisk;

/// A refusal, or `Full`, which no loading answers, where the disk is not as it was.
fn refused(bytes: &[u8], disk: &MemoryDisk, fault: BookFault) -> BookFault {
    if disk.bytes() == bytes {
        fault
    } else {
        BookFault::Full
    }
}

fn author(alloc: Global, bytes: &[u8]) -> Option<BookFault> {
    match AuthorEnd::load(alloc, disk_of(alloc, bytes, 255)?) {
        Ok(_) => None,
        Err((disk, fault)) => Some(refused(bytes, &disk, fault)),
    }
}

fn broker(alloc: Global, bytes: &[u8]) -> Option<BookFault> {
    match BrokerEnd::load(alloc, disk_of(alloc, bytes, 255)?) {
        Ok(_) => None,
        Err((disk, fault)) => Some(refused(bytes, &disk, fault)),
    }
}

fn subscriber(alloc: Global, bytes: &[u8]) -> Option<BookFault> {
    match SubscriberEnd::load(alloc, disk_of(alloc, bytes, 255)?) {
        Ok(_) => None,
        Err((disk, fault)) => Some(refused(bytes, &disk, fault)),
    }
}

const UNMADE: Option<BookFault> = Some(BookFault::Unmade);

const UNFIT: Option<BookFault> = Some(BookFault::BadNote { place: 16 });

/// A disk, and what loading it as an author, a broker and a subscriber answers.
type Row = (
    &'static [u8],
    Option<BookFault>,
    Option<BookFault>,
    Option<BookFault>,
);

const ROWS: [Row; 9] = [
    (b"", UNMADE, UNMADE, UNMADE),
    (AUTHOR, None, UNFIT, UNFIT),
    (BROKER, UNFIT, None, UNFIT),
    (SUBSCRIBER, UNFIT, UNFIT, None),
    // A line with a filter that reads, and lines and links with one that is refused, or is empty.
    (
        b"\x01VOEVENT JRNL 1\n\x01\0\0\0\x1f\0a\0\x09ivo://a/x\x01\0\x09ivo://b/x\x01\0\x03//a\0",
        None,
        UNFIT,
        UNFIT,
    ),
    (
        b"\x01VOEVENT JRNL 1\n\x01\0\0\0\x20\0a\0\x09ivo://a/x\x01\0\x09ivo://b/x\x01\0\x04//a[\0",
        UNFIT,
        UNFIT,
        UNFIT,
    ),
    (
        b"\x01VOEVENT JRNL 1\n\x01\0\0\0\x20\0b\0\x09ivo://b/x\x01\0\x09ivo://s/x\x01\0\x04//a[\0",
        UNFIT,
        UNFIT,
        UNFIT,
    ),
    (
        b"\x01VOEVENT JRNL 1\n\x01\0\0\0\x1c\0b\0\x09ivo://b/x\x01\0\x09ivo://s/x\x01\0\0\0",
        UNFIT,
        UNFIT,
        UNFIT,
    ),
    (
        b"\x01VOEVENT JRNL 1\n\x01\0\0\0\x20\0s\0\x09ivo://s/x\x01\0\x09ivo://b/x\x01\0\x04//a[\0",
        UNFIT,
        UNFIT,
        UNFIT,
    ),
];

/// How many rows are answered so, one after the other.
fn met(alloc: Global) -> usize {
    for (number, (bytes, as_author, as_broker, as_subscriber)) in ROWS.iter().enumerate() {
        if author(alloc, bytes) != *as_author
            || broker(alloc, bytes) != *as_broker
            || subscriber(alloc, bytes) != *as_subscriber
        {
            return number;
        }
    }
    ROWS.len()
}

#[test]
fn a_disk_is_loaded_as_its_own_end_alone(rt: HostRuntime) -> Result<(), Fail> {
    assert!(rt; met(rt.alloc()) == 9);
    Ok(())
}
