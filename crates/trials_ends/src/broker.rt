//! A broker.

use crate::support::{
    BAD, BROKER, FAILINGS, FIRST, Failing, OTHER, SECOND, Said, Told, UNFIT, call_behind, disk_of,
    down, given, packet_of, told_of, verdict,
};
use broker_end::{BrokerEnd, BrokerEvent, Way};
use net_model::BrokerStep;
use path_filter::FilterSet;
use std::alloc::Global;
use std::test::Fail;
use voe_disk::{CrashDisk, MemoryDisk};
use voe_values::{EndName, Ivorn, Text};

type Broker = BrokerEnd<MemoryDisk>;

/// What a broker is asked.
#[derive(Clone, Copy)]
pub enum Ask {
    Packet(Way, &'static [u8]),
    Join(&'static str),
    Next(u16, u64, usize),
    Acked(u16, u64, &'static str),
    Live(usize, &'static str),
}

use Ask::{Acked, Join, Live, Next, Packet};
use Way::{Line, Link};

fn said(step: &BrokerStep) -> Said {
    match step {
        BrokerStep::Answer { verdict: own } => verdict(own),
        BrokerStep::Joined { link, session } => (
            "joined",
            *session as usize,
            u8::try_from(*link).unwrap_or(255),
        ),
        BrokerStep::Guest { after } => ("guest", *after, 0),
        BrokerStep::Packet {
            at,
            identifier,
            packet,
        } => given(*at, identifier.as_slice(), packet.as_slice()),
        BrokerStep::Nothing => ("nothing", 0, 0),
        BrokerStep::Noted => ("noted", 0, 0),
        BrokerStep::Passed => ("passed", 0, 0),
        BrokerStep::Full => ("full", 0, 0),
        BrokerStep::Replaced { newer } => ("replaced", *newer as usize, 0),
        BrokerStep::Down { faults, stopped } => down(*faults, *stopped),
        BrokerStep::NoMemory => ("no memory", 0, 0),
    }
}

pub fn loaded(alloc: Global, disk: MemoryDisk) -> Option<Broker> {
    BrokerEnd::load(alloc, disk).ok()
}

fn take(alloc: Global, end: &mut Broker, from: Way, packet: &[u8]) -> Said {
    match packet_of(alloc, packet) {
        Some(packet) => said(&end.step(BrokerEvent::Packet { from, packet })),
        None => UNFIT,
    }
}

fn join(alloc: Global, end: &mut Broker, name: &str) -> Said {
    match EndName::read(alloc, name) {
        Ok(name) => said(&end.step(BrokerEvent::Join { name })),
        Err(_) => UNFIT,
    }
}

fn next(end: &mut Broker, link: u16, session: u64, after: usize) -> Said {
    if usize::from(link) >= end.book().config().links.len() || session > end.last_session(link) {
        return UNFIT;
    }
    said(&end.step(BrokerEvent::Next {
        link,
        session,
        after,
    }))
}

fn acked(alloc: Global, end: &mut Broker, link: u16, session: u64, identifier: &str) -> Said {
    if usize::from(link) >= end.book().config().links.len() || session > end.last_session(link) {
        return UNFIT;
    }
    match Ivorn::read(alloc, identifier) {
        Ok(identifier) => said(&end.step(BrokerEvent::Acked {
            link,
            session,
            identifier,
        })),
        Err(_) => UNFIT,
    }
}

/// The filter of a text, or none where it is empty.
fn filters_of(alloc: Global, filter: &str) -> Option<FilterSet> {
    if filter.is_empty() {
        return Some(FilterSet::new(alloc));
    }
    let text = Text::of(alloc, filter).ok()?;
    FilterSet::of(alloc, &[text]).ok()
}

fn live(alloc: Global, end: &mut Broker, after: usize, filter: &str) -> Said {
    match filters_of(alloc, filter) {
        Some(filters) => said(&end.step(BrokerEvent::Live { after, filters })),
        None => UNFIT,
    }
}

pub fn asked(alloc: Global, end: &mut Broker, ask: Ask) -> Said {
    match ask {
        Packet(from, packet) => take(alloc, end, from, packet),
        Join(name) => join(alloc, end, name),
        Next(link, session, after) => next(end, link, session, after),
        Acked(link, session, identifier) => acked(alloc, end, link, session, identifier),
        Live(after, filter) => live(alloc, end, after, filter),
    }
}

/// How many rows from the first on are answered so, with so many notes afterwards.
pub fn met(alloc: Global, end: &mut Broker, rows: &[(Ask, Said, usize)]) -> usize {
    for (number, (ask, answer, notes)) in rows.iter().enumerate() {
        if asked(alloc, end, *ask) != *answer || end.book().notes() != *notes {
            return number;
        }
    }
    rows.len()
}

const A: &str = "ivo://a/k#1";

const B: &str = "ivo://a/k#2";

/// A packet that comes again, and the sessions of the one link.
const ROWS: [(Ask, Said, usize); 11] = [
    (Packet(Line, FIRST), ("ack", 0, 1), 1),
    (Packet(Line, FIRST), ("ack", 0, 1), 1),
    (Packet(Line, OTHER), ("conflict", 0, 1), 1),
    (Packet(Link, OTHER), ("ack", 0, 1), 1),
    (Join("ivo://s/x"), ("joined", 1, 0), 1),
    (Join("ivo://s/x"), ("joined", 2, 0), 1),
    (Next(0, 1, 0), ("replaced", 2, 0), 1),
    (Acked(0, 1, A), ("replaced", 2, 0), 1),
    (Join("ivo://other/y"), ("guest", 1, 0), 1),
    (Next(0, 2, 0), ("packet", 0, 1), 1),
    (Next(0, 2, 1), ("nothing", 0, 0), 1),
];

/// A broker with two links, of which the first has a filter.
const TWO_LINKS: &[u8] =
    b"\x01VOEVENT JRNL 1\n\x01\0\0\0\x3f\0b\0\x09ivo://b/x\x02\0\x09ivo://s/x\x01\0\x17/*[@role=\"observation\"]\0\x09ivo://s/y\0\0";

const TESTS: &str = "/*[@role=\"test\"]";

/// Two packets, of which the first passes no filter of the first link.
const TWO_ROWS: [(Ask, Said, usize); 20] = [
    (Next(1, 0, 0), ("nothing", 0, 0), 0),
    (Live(0, ""), ("nothing", 0, 0), 0),
    (Packet(Line, FIRST), ("ack", 0, 1), 1),
    (Join("ivo://s/y"), ("joined", 1, 1), 1),
    (Next(0, 0, 0), ("nothing", 0, 0), 1),
    (Next(1, 1, 0), ("packet", 0, 1), 1),
    (Next(1, 0, 0), ("replaced", 1, 0), 1),
    (Acked(0, 0, A), ("passed", 0, 0), 1),
    (Acked(1, 1, B), ("passed", 0, 0), 1),
    (Packet(Link, SECOND), ("ack", 0, 2), 2),
    (Next(0, 0, 0), ("packet", 1, 2), 2),
    (Acked(1, 1, A), ("noted", 0, 0), 3),
    (Acked(1, 1, A), ("passed", 0, 0), 3),
    (Next(1, 1, 0), ("packet", 1, 2), 3),
    (Join("ivo://other/y"), ("guest", 3, 0), 3),
    (Live(0, ""), ("packet", 0, 1), 3),
    (Live(1, ""), ("packet", 1, 2), 3),
    (Live(0, TESTS), ("packet", 0, 1), 3),
    (Live(1, TESTS), ("nothing", 0, 0), 3),
    (Live(0, "//Citations"), ("nothing", 0, 0), 3),
];

/// What is so once that broker is loaded again: the second packet is owed on both links, and no session has begun.
const AGAIN: [(Ask, Said, usize); 6] = [
    (Next(0, 0, 0), ("packet", 1, 2), 3),
    (Next(1, 0, 0), ("packet", 1, 2), 3),
    (Next(1, 0, 2), ("nothing", 0, 0), 3),
    (Join("ivo://s/y"), ("joined", 1, 1), 3),
    (Packet(Line, OTHER), ("conflict", 0, 1), 3),
    (Acked(0, 0, B), ("noted", 0, 0), 4),
];

/// How many of the bad packets are refused by their rules, one after the other.
fn refused(alloc: Global, end: &mut Broker) -> usize {
    for (number, (packet, word, rule, is_named)) in BAD.iter().enumerate() {
        if take(alloc, end, Line, packet) != (*word, *rule, u8::from(*is_named)) {
            return number;
        }
    }
    BAD.len()
}

/// How many bad packets are refused, and how many rows are met.
fn tried(alloc: Global) -> Option<(usize, usize)> {
    let mut end = loaded(alloc, disk_of(alloc, BROKER, 255)?)?;
    let refused = refused(alloc, &mut end);
    Some((refused, met(alloc, &mut end, &ROWS)))
}

/// How many rows are met of two links, and how many once the broker is loaded again.
fn tried_links(alloc: Global) -> Option<(usize, usize)> {
    let mut end = loaded(alloc, disk_of(alloc, TWO_LINKS, 255)?)?;
    let rows = met(alloc, &mut end, &TWO_ROWS);
    let mut end = loaded(alloc, end.into_disk())?;
    Some((rows, met(alloc, &mut end, &AGAIN)))
}

#[test]
fn a_broker_accepts_a_packet_once_and_owes_it(rt: HostRuntime) -> Result<(), Fail> {
    assert!(rt; tried(rt.alloc()) == Some((7, 11)));
    assert!(rt; tried_links(rt.alloc()) == Some((20, 6)));
    Ok(())
}

/// An event over a failing disk, behind some with a record; then the link is asked for a packet.
fn broken(alloc: Global, before: &[Ask], ask: Ask, failing: &Failing) -> Option<Told> {
    let (call, calls, fill, _, _, _) = *failing;
    let steps = u8::try_from(before.len()).ok()?;
    let disk = disk_of(alloc, BROKER, call_behind(call, steps))?;
    let mut end = loaded(alloc, disk)?;
    for ask in before {
        asked(alloc, &mut end, *ask);
    }
    end.arm(calls, fill);
    let answer = asked(alloc, &mut end, ask);
    let then = next(&mut end, 0, 0, 0);
    let mut disk = end.into_disk();
    disk.crash();
    let mut end = loaded(alloc, disk)?;
    Some((answer, then, end.book().notes(), next(&mut end, 0, 0, 0)))
}

const PACKET: Said = ("packet", 0, 1);

const NOTHING: Said = ("nothing", 0, 0);

/// How many of the failings leave what they should of a packet's record, one after the other.
fn left_of_packets(alloc: Global) -> usize {
    for (number, failing) in FAILINGS.iter().enumerate() {
        let told = told_of(failing, 0, ("ack", 0, 1), NOTHING, PACKET);
        if broken(alloc, &[], Packet(Line, FIRST), failing) != Some(told) {
            return number;
        }
    }
    FAILINGS.len()
}

/// The same of a delivery's record.
fn left_of_deliveries(alloc: Global) -> usize {
    for (number, failing) in FAILINGS.iter().enumerate() {
        let told = told_of(failing, 1, ("noted", 0, 0), PACKET, NOTHING);
        if broken(alloc, &[Packet(Line, FIRST)], Acked(0, 0, A), failing) != Some(told) {
            return number;
        }
    }
    FAILINGS.len()
}

#[test]
fn a_stop_or_a_fault_leaves_a_brokers_note_or_not(rt: HostRuntime) -> Result<(), Fail> {
    assert!(rt; left_of_packets(rt.alloc()) == 12);
    assert!(rt; left_of_deliveries(rt.alloc()) == 12);
    Ok(())
}
