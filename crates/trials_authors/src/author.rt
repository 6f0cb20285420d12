//! An author with two lines.

use crate::support::{
    AUTHOR, BAD, FAILINGS, FIRST, Failing, OTHER, SECOND, Said, Told, UNFIT, call_behind, disk_of,
    down, given, packet_of, refusal, told_of,
};
use author_end::{AuthorEnd, AuthorEvent};
use net_model::AuthorStep;
use std::alloc::Global;
use std::test::Fail;
use voe_disk::{CrashDisk, MemoryDisk};
use voe_values::Ivorn;

type Author = AuthorEnd<MemoryDisk>;

/// What an author is asked.
#[derive(Clone, Copy)]
pub enum Ask {
    Write(&'static [u8]),
    Next(u16, usize),
    Answer(u16, &'static str, bool),
}

use Ask::{Answer, Next, Write};

fn said(step: &AuthorStep) -> Said {
    match step {
        AuthorStep::Wrote => ("wrote", 0, 0),
        AuthorStep::Known => ("known", 0, 0),
        AuthorStep::Refused { code } => refusal(*code),
        AuthorStep::Packet {
            at,
            identifier,
            packet,
        } => given(*at, identifier.as_slice(), packet.as_slice()),
        AuthorStep::Nothing => ("nothing", 0, 0),
        AuthorStep::Noted => ("noted", 0, 0),
        AuthorStep::Passed => ("passed", 0, 0),
        AuthorStep::Full => ("full", 0, 0),
        AuthorStep::Down { faults, stopped } => down(*faults, *stopped),
        AuthorStep::NoMemory => ("no memory", 0, 0),
    }
}

pub fn loaded(alloc: Global, disk: MemoryDisk) -> Option<Author> {
    AuthorEnd::load(alloc, disk).ok()
}

fn write(alloc: Global, end: &mut Author, packet: &[u8]) -> Said {
    match packet_of(alloc, packet) {
        Some(packet) => said(&end.step(AuthorEvent::Write { packet })),
        None => UNFIT,
    }
}

fn next(end: &mut Author, line: u16, after: usize) -> Said {
    if usize::from(line) >= end.book().config().links.len() {
        return UNFIT;
    }
    said(&end.step(AuthorEvent::Next { line, after }))
}

fn answer(alloc: Global, end: &mut Author, line: u16, identifier: &str, ack: bool) -> Said {
    if usize::from(line) >= end.book().config().links.len() {
        return UNFIT;
    }
    match Ivorn::read(alloc, identifier) {
        Ok(identifier) => said(&end.step(AuthorEvent::Answer {
            line,
            identifier,
            ack,
        })),
        Err(_) => UNFIT,
    }
}

pub fn asked(alloc: Global, end: &mut Author, ask: Ask) -> Said {
    match ask {
        Write(packet) => write(alloc, end, packet),
        Next(line, after) => next(end, line, after),
        Answer(line, identifier, ack) => answer(alloc, end, line, identifier, ack),
    }
}

/// How many rows from the first on are answered so, with so many notes afterwards.
pub fn met(alloc: Global, end: &mut Author, rows: &[(Ask, Said, usize)]) -> usize {
    for (number, (ask, answer, notes)) in rows.iter().enumerate() {
        if asked(alloc, end, *ask) != *answer || end.book().notes() != *notes {
            return number;
        }
    }
    rows.len()
}

const A: &str = "ivo://a/k#1";

const B: &str = "ivo://a/k#2";

/// Two packets, which are answered on two lines.
const ROWS: [(Ask, Said, usize); 20] = [
    (Next(0, 0), ("nothing", 0, 0), 0),
    (Write(FIRST), ("wrote", 0, 0), 1),
    (Write(FIRST), ("known", 0, 0), 1),
    (Write(OTHER), ("known", 0, 0), 1),
    (Write(SECOND), ("wrote", 0, 0), 2),
    (Next(0, 0), ("packet", 0, 1), 2),
    (Next(0, 1), ("packet", 1, 2), 2),
    (Next(0, 2), ("nothing", 0, 0), 2),
    (Answer(0, "ivo://a/k#3", true), ("passed", 0, 0), 2),
    (Answer(0, A, true), ("noted", 0, 0), 3),
    (Answer(0, A, false), ("passed", 0, 0), 3),
    (Next(0, 0), ("packet", 1, 2), 3),
    (Next(1, 0), ("packet", 0, 1), 3),
    (Answer(1, A, false), ("noted", 0, 0), 4),
    (Answer(1, A, true), ("passed", 0, 0), 4),
    (Next(1, 0), ("packet", 1, 2), 4),
    (Answer(0, B, false), ("noted", 0, 0), 5),
    (Next(0, 0), ("nothing", 0, 0), 5),
    (Write(SECOND), ("known", 0, 0), 5),
    (Write(b"<a ivorn=\"ivo://a/k#1\"/>"), ("not valid", 1, 0), 5),
];

/// What is so once the author is loaded again.
const AGAIN: [(Ask, Said, usize); 4] = [
    (Write(OTHER), ("known", 0, 0), 5),
    (Next(0, 0), ("nothing", 0, 0), 5),
    (Next(1, 0), ("packet", 1, 2), 5),
    (Answer(1, A, true), ("passed", 0, 0), 5),
];

/// How many of the bad packets are refused by their rules, one after the other.
fn refused(alloc: Global, end: &mut Author) -> usize {
    for (number, (packet, word, rule)) in BAD.iter().enumerate() {
        if write(alloc, end, packet) != (*word, *rule, 0) {
            return number;
        }
    }
    BAD.len()
}

/// How many bad packets are refused, how many rows are met, and how many once the author is loaded again.
fn tried(alloc: Global) -> Option<(usize, usize, usize)> {
    let mut end = loaded(alloc, disk_of(alloc, AUTHOR, 255)?)?;
    let refused = refused(alloc, &mut end);
    let rows = met(alloc, &mut end, &ROWS);
    let mut end = loaded(alloc, end.into_disk())?;
    Some((refused, rows, met(alloc, &mut end, &AGAIN)))
}

#[test]
fn an_author_writes_once_and_has_each_packet_answered_on_each_line(
    rt: HostRuntime,
) -> Result<(), Fail> {
    assert!(rt; tried(rt.alloc()) == Some((5, 20, 4)));
    Ok(())
}

/// An event over a failing disk, behind some with a record; then line 0 is asked for a packet.
fn broken(alloc: Global, before: &[Ask], ask: Ask, failing: &Failing) -> Option<Told> {
    let (call, calls, fill, _, _, _) = *failing;
    let steps = u8::try_from(before.len()).ok()?;
    let disk = disk_of(alloc, AUTHOR, call_behind(call, steps))?;
    let mut end = loaded(alloc, disk)?;
    for ask in before {
        asked(alloc, &mut end, *ask);
    }
    end.arm(calls, fill);
    let answer = asked(alloc, &mut end, ask);
    let then = next(&mut end, 0, 0);
    let mut disk = end.into_disk();
    disk.crash();
    let mut end = loaded(alloc, disk)?;
    Some((answer, then, end.book().notes(), next(&mut end, 0, 0)))
}

const PACKET: Said = ("packet", 0, 1);

const NOTHING: Said = ("nothing", 0, 0);

/// How many of the failings leave what they should of a packet's record, one after the other.
fn left_of_packets(alloc: Global) -> usize {
    for (number, failing) in FAILINGS.iter().enumerate() {
        let told = told_of(failing, 0, ("wrote", 0, 0), NOTHING, PACKET);
        if broken(alloc, &[], Write(FIRST), failing) != Some(told) {
            return number;
        }
    }
    FAILINGS.len()
}

/// The same of an answer's record.
fn left_of_answers(alloc: Global) -> usize {
    for (number, failing) in FAILINGS.iter().enumerate() {
        let told = told_of(failing, 1, ("noted", 0, 0), PACKET, NOTHING);
        if broken(alloc, &[Write(FIRST)], Answer(0, A, true), failing) != Some(told) {
            return number;
        }
    }
    FAILINGS.len()
}

#[test]
fn a_stop_or_a_fault_leaves_an_authors_note_or_not(rt: HostRuntime) -> Result<(), Fail> {
    assert!(rt; left_of_packets(rt.alloc()) == 12);
    assert!(rt; left_of_answers(rt.alloc()) == 12);
    Ok(())
}
