//! What a book answers, before and after it is loaded again.

use crate::support::{AUTHOR, BROKER, kept, loaded, note_of};
use net_model::Note;
use node_book::{Book, is_config, keeps_form};
use std::alloc::Global;
use std::process::Abort;
use std::test::Fail;
use voe_digest::Digest;
use voe_disk::MemoryDisk;

const FIRST: &str = "ivo://a/k#1";

const SECOND: &str = "ivo://a/k#2";

const THIRD: &str = "ivo://a/k#3";

// The first packet is owed to both links and the second to link 1, and the first was handed to link 0.
const ACCEPTED: [&[u8]; 3] = [
    b"\x04\0\x0bivo://a/k#1\x02\0\0\0\x01\0\0\0\x03abc",
    b"\x04\0\x0bivo://a/k#2\x01\0\x01\0\0\0\x01q",
    b"\x05\0\0\0\x0bivo://a/k#1",
];

// The first packet is answered on both lines, and the second is refused on line 1.
const WRITTEN: [&[u8]; 5] = [
    b"\x01\0\x0bivo://a/k#1\0\0\0\x03abc",
    b"\x01\0\x0bivo://a/k#2\0\0\0\x01q",
    b"\x02\0\0\0\x0bivo://a/k#1",
    b"\x02\0\x01\0\x0bivo://a/k#1",
    b"\x03\0\x01\0\x0bivo://a/k#2",
];

// A broker with a third link.
const THREE_LINKS: &[u8] =
    b"\0b\0\x09ivo://b/x\x03\0\x09ivo://s/x\0\0\x09ivo://s/y\0\0\x09ivo://s/z\0";

// How many identifiers a link owes, and the first place from a place on that it owes or that a line has unanswered.
fn asked(
    book: &Book<MemoryDisk>,
    number: u16,
    after: usize,
) -> (usize, Option<usize>, Option<usize>) {
    let unanswered = if usize::from(number) < book.config().links.len() {
        book.next_unanswered(number, after)
    } else {
        None
    };
    (book.owed(number), book.next_owed(number, after), unanswered)
}

fn is_asked(
    rt: &impl Abort,
    book: &Book<MemoryDisk>,
    rows: &[(u16, usize, (usize, Option<usize>, Option<usize>))],
) {
    for (number, after, answers) in rows {
        assert!(rt;
            asked(book, *number, *after) == *answers,
            "{number} {after}"
        );
    }
}

// Whether an identifier is known, and whether it is open on a link or line that is configured.
fn looked_up(book: &Book<MemoryDisk>, number: u16, identifier: &str) -> (bool, bool) {
    let open = usize::from(number) < book.config().links.len()
        && book.is_open(number, identifier.as_bytes());
    (book.knows(identifier.as_bytes()), open)
}

fn is_looked_up(rt: &impl Abort, book: &Book<MemoryDisk>, rows: &[(u16, &str, (bool, bool))]) {
    for (number, identifier, answers) in rows {
        assert!(rt;
            looked_up(book, *number, identifier) == *answers,
            "{number} {identifier}"
        );
    }
}

const OWED: [(u16, usize, (usize, Option<usize>, Option<usize>)); 5] = [
    (0, 0, (0, None, None)),
    (1, 0, (2, Some(0), None)),
    (1, 1, (2, Some(1), None)),
    (1, 2, (2, None, None)),
    (2, 0, (0, None, None)),
];

const UNANSWERED: [(u16, usize, (usize, Option<usize>, Option<usize>)); 4] = [
    (0, 0, (0, None, Some(1))),
    (0, 1, (0, None, Some(1))),
    (0, 2, (0, None, None)),
    (1, 0, (0, None, None)),
];

#[test]
fn a_book_owes_the_same_when_it_is_loaded_again(rt: HostRuntime) -> Result<(), Fail> {
    let alloc = rt.alloc();
    let book = kept(alloc, BROKER, &ACCEPTED)?;
    is_asked(&rt, &book, &OWED);
    is_asked(&rt, &loaded(alloc, book.into_disk())?, &OWED);
    let book = kept(alloc, AUTHOR, &WRITTEN)?;
    is_asked(&rt, &book, &UNANSWERED);
    is_asked(&rt, &loaded(alloc, book.into_disk())?, &UNANSWERED);
    Ok(())
}

#[test]
fn a_book_knows_identifiers_and_digests(rt: HostRuntime) -> Result<(), Fail> {
    let alloc = rt.alloc();
    let book = loaded(alloc, kept(alloc, BROKER, &ACCEPTED)?.into_disk())?;
    is_looked_up(
        &rt,
        &book,
        &[
            (0, FIRST, (true, false)),
            (1, FIRST, (true, true)),
            (0, SECOND, (true, false)),
            (1, SECOND, (true, true)),
            (1, THIRD, (false, false)),
        ],
    );
    assert!(rt; book.digest_of(THIRD.as_bytes()).is_none());
    assert!(rt; book.digest_of(SECOND.as_bytes()) == Some(Digest::of(b"q")));
    let digest = book.digest_of(FIRST.as_bytes()).ok_or("no digest")?;
    let text = digest.text(alloc)?;
    assert!(rt; text.as_str() == "a9993e364706816aba3e25717850c26c9cd0d89d");
    Ok(())
}

// The links and the packet of an accepted packet.
fn accepted(note: Option<&Note>) -> (&[u16], &[u8]) {
    match note {
        Some(Note::Accept { links, packet, .. }) => (links.as_slice(), packet.as_slice()),
        _ => (&[], &[]),
    }
}

// Whether a note keeps to its form under the configuration of its book.
fn is_in_form(book: &Book<MemoryDisk>, at: usize) -> bool {
    match book.note(at) {
        Some(note) => keeps_form(book.config(), note),
        None => false,
    }
}

// Whether the note of a payload under a configuration may stand behind those of a book.
fn may_add(alloc: Global, book: &Book<MemoryDisk>, config: &[u8], payload: &[u8]) -> Option<bool> {
    let note = note_of(alloc, config, payload).ok()?;
    Some(book.may_add(&note))
}

#[test]
fn a_book_tells_its_notes_and_tries_others(rt: HostRuntime) -> Result<(), Fail> {
    let alloc = rt.alloc();
    let book = loaded(alloc, kept(alloc, BROKER, &ACCEPTED)?.into_disk())?;
    assert!(rt; book.notes() == 3);
    assert!(rt; accepted(book.note(0)) == ([0, 1].as_slice(), b"abc".as_slice()));
    assert!(rt; accepted(book.note(1)) == ([1].as_slice(), b"q".as_slice()));
    assert!(rt; is_config(book.config()));
    assert!(rt; is_in_form(&book, 2));
    assert!(rt; book.note(3).is_none());
    // Behind them stands a packet that is not known, on links that are configured, or a delivery that is owed.
    let rows: [(&[u8], &[u8], bool); 7] = [
        (BROKER, b"\x04\0\x0bivo://a/k#3\x01\0\0\0\0\0\x01p", true),
        (BROKER, b"\x04\0\x0bivo://a/k#1\x01\0\0\0\0\0\x01p", false),
        (
            THREE_LINKS,
            b"\x04\0\x0bivo://a/k#3\x01\0\x02\0\0\0\x01p",
            false,
        ),
        (AUTHOR, b"\x02\0\0\0\x0bivo://a/k#1", false),
        (BROKER, b"\x05\0\x01\0\x0bivo://a/k#1", true),
        (BROKER, b"\x05\0\0\0\x0bivo://a/k#1", false),
        (BROKER, b"\x05\0\x01\0\x0bivo://a/k#3", false),
    ];
    for (config, payload, may_stand) in rows {
        assert!(rt;
            may_add(alloc, &book, config, payload) == Some(may_stand),
            "{payload:?}"
        );
    }
    Ok(())
}
