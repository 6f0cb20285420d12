//! What the trials have in common: packets, disks, and answers in a few plain values.

ghost use Rattle.std.specs.Prelude.{◌≤◌, IfSome, length};

use net_model::NakCode;
use std::alloc::Global;
use voe_disk::MemoryDisk;
use voe_values::Bytes;

/// An author with two lines, without notes.
pub const AUTHOR: &[u8] =
    b"\x01VOEVENT JRNL 1\n\x01\0\0\0\x26\0a\0\x09ivo://a/x\x02\0\x09ivo://b/x\0\0\x09ivo://b/y\0\0";

/// A packet without content.
pub const FIRST: &[u8] =
    b"<voe:VOEvent xmlns:voe=\"http://www.ivoa.net/xml/VOEvent/v2.0\" ivorn=\"ivo://a/k#1\" role=\"test\" version=\"2.0\"></voe:VOEvent>";

/// Another packet of the same identifier.
pub const OTHER: &[u8] =
    b"<voe:VOEvent xmlns:voe=\"http://www.ivoa.net/xml/VOEvent/v2.0\" ivorn=\"ivo://a/k#1\" role=\"observation\" version=\"2.0\"></voe:VOEvent>";

/// A packet of another identifier.
pub const SECOND: &[u8] =
    b"<voe:VOEvent xmlns:voe=\"http://www.ivoa.net/xml/VOEvent/v2.0\" ivorn=\"ivo://a/k#2\" role=\"observation\" version=\"2.0\"></voe:VOEvent>";

/// Bytes that are refused, by the rule of trees or of packets of this number.
pub const BAD: [(&[u8], &str, usize); 5] = [
    (b"<a b=\"1\" b=\"2\"/>", "no tree", 7),
    (b"<p:a/>", "no tree", 8),
    (b"<a/>", "not valid", 1),
    (
        b"<v:VOEvent xmlns:v=\"http://www.ivoa.net/xml/VOEvent/v2.0\" ivorn=\"ivo://a/k#1\" version=\"2.1\"/>",
        "not valid",
        2,
    ),
    (
        b"<v:VOEvent xmlns:v=\"http://www.ivoa.net/xml/VOEvent/v2.0\" ivorn=\"ivo://a/k#1\" version=\"2.0\"><Who/><Who/></v:VOEvent>",
        "not valid",
        5,
    ),
];

/// An answer: a word, a number, and which packet it names, 0 where it names none.
pub type Said = (&'static str, usize, u8);

/// Which packet has this identifier.
fn named(identifier: &[u8]) -> u8 {
    if identifier == b"ivo://a/k#1".as_slice() {
        1
    } else if identifier == b"ivo://a/k#2".as_slice() {
        2
    } else {
        0
    }
}

/// A packet that is given, with its place.
pub fn given(at: usize, identifier: &[u8], packet: &[u8]) -> Said {
    let held = if packet == FIRST {
        1
    } else if packet == SECOND {
        2
    } else {
        0
    };
    if held == named(identifier) {
        ("packet", at, held)
    } else {
        ("another packet", at, held)
    }
}

/// Why a packet is refused.
pub fn refusal(code: NakCode) -> Said {
    match code {
        NakCode::Tree(number) => ("no tree", number as usize, 0),
        NakCode::Validity(number) => ("not valid", number as usize, 0),
        NakCode::Conflict => ("conflict", 0, 0),
        NakCode::Full => ("refused as full", 0, 0),
    }
}

/// How an author is down.
pub fn down(faults: u64, stopped: bool) -> Said {
    if stopped {
        ("stopped", faults as usize, 0)
    } else {
        ("failed", faults as usize, 0)
    }
}

/// What stands for an event that an author may not be asked.
pub const UNFIT: Said = ("unfit", 0, 0);

/// A disk with these bytes, of which the call of this number fails.
pub fn disk_of(alloc: Global, bytes: &[u8], call: u8) -> Option<MemoryDisk> {
    let bytes = Bytes::of(alloc, bytes).ok()?;
    let fails = Bytes::of(alloc, &[call]).ok()?;
    Some(MemoryDisk::new(alloc, bytes, fails))
}

/// A packet of 1 to 1,048,576 bytes.
pub fn packet_of(alloc: Global, packet: &[u8]) -> Option<Bytes>
    ensures { IfSome result (λ p. (1 ≤ length p) × (length p ≤ 1048576)) }
{
    if packet.is_empty() || packet.len() > 1_048_576 {
        return None;
    }
    Bytes::of(alloc, packet).ok()
}

/// What a step with a record meets: the disk's call of this number fails (the first of the first such step is 4, as loading
/// has four), or the disk stops after so many calls; the byte of the crash; how the author is down, where it is; the disk's
/// faults; and whether the record is there afterwards.
pub type Failing = (u8, u8, u8, &'static str, usize, bool);

pub const FAILINGS: [Failing; 12] = [
    (255, 0, 1, "stopped", 0, false),
    (255, 1, 1, "stopped", 0, false),
    (255, 2, 1, "stopped", 0, false),
    (255, 3, 0, "stopped", 0, false),
    (255, 3, 1, "stopped", 0, true),
    (255, 3, 2, "stopped", 0, false),
    (255, 4, 0, "", 0, true),
    (4, 255, 1, "failed", 1, false),
    (5, 255, 1, "failed", 1, false),
    (6, 255, 1, "failed", 1, false),
    (7, 255, 0, "failed", 1, false),
    (7, 255, 1, "failed", 1, true),
];

/// The number of the call that fails, so many steps with a record later.
pub fn call_behind(call: u8, steps: u8) -> u8 {
    call.saturating_add(steps.saturating_mul(4))
}

/// What a step is answered, and the next one; how many notes are there once the disk has crashed and is loaded again; and
/// what is answered then.
pub type Told = (Said, Said, usize, Said);

/// What is to be told of a step behind so many steps with a record, where this is answered to it, and this to the next one
/// without its record and with it.
pub fn told_of(failing: &Failing, steps: u8, answer: Said, without: Said, with: Said) -> Told {
    let (_, _, _, word, faults, is_kept) = *failing;
    let notes = usize::from(steps).saturating_add(usize::from(is_kept));
    let left = if is_kept { with } else { without };
    if word.is_empty() {
        (answer, with, notes, left)
    } else {
        ((word, faults, 0), (word, faults, 0), notes, left)
    }
}
