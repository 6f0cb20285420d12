//! A subscriber.

use crate::support::{
    BAD, FAILINGS, FIRST, Failing, OTHER, SECOND, SUBSCRIBER, Said, Told, UNFIT, disk_of, down,
    packet_of, told_of, verdict,
};
use net_model::SubscriberStep;
use std::alloc::Global;
use std::test::Fail;
use subscriber_end::{SubscriberEnd, SubscriberEvent};
use voe_disk::{CrashDisk, MemoryDisk};

type Subscriber = SubscriberEnd<MemoryDisk>;

fn said(step: &SubscriberStep) -> Said {
    match step {
        SubscriberStep::Answer { verdict: own } => verdict(own),
        SubscriberStep::Down { faults, stopped } => down(*faults, *stopped),
        SubscriberStep::NoMemory => ("no memory", 0, 0),
    }
}

pub fn loaded(alloc: Global, disk: MemoryDisk) -> Option<Subscriber> {
    SubscriberEnd::load(alloc, disk).ok()
}

pub fn take(alloc: Global, end: &mut Subscriber, packet: &[u8]) -> Said {
    match packet_of(alloc, packet) {
        Some(packet) => said(&end.step(SubscriberEvent::Packet { packet })),
        None => UNFIT,
    }
}

/// How many of the bad packets are refused by their rules, one after the other.
fn refused(alloc: Global, end: &mut Subscriber) -> usize {
    for (number, (packet, word, rule, is_named)) in BAD.iter().enumerate() {
        if take(alloc, end, packet) != (*word, *rule, u8::from(*is_named)) {
            return number;
        }
    }
    BAD.len()
}

/// Packets that come, which of the two is acknowledged, and how many notes are there afterwards.
const ROWS: [(&[u8], u8, usize); 4] = [(FIRST, 1, 1), (FIRST, 1, 1), (OTHER, 1, 1), (SECOND, 2, 2)];

/// How many of these rows are met, one after the other.
fn met(alloc: Global, end: &mut Subscriber) -> usize {
    for (number, (packet, named, notes)) in ROWS.iter().enumerate() {
        if take(alloc, end, packet) != ("ack", 0, *named) || end.book().notes() != *notes {
            return number;
        }
    }
    ROWS.len()
}

/// How many bad packets are refused, how many rows are met, and what is said to a packet that comes again once the
/// subscriber is loaded again.
fn tried(alloc: Global) -> Option<(usize, usize, Said)> {
    let mut end = loaded(alloc, disk_of(alloc, SUBSCRIBER, 255)?)?;
    let refused = refused(alloc, &mut end);
    let rows = met(alloc, &mut end);
    let mut end = loaded(alloc, end.into_disk())?;
    Some((refused, rows, take(alloc, &mut end, OTHER)))
}

#[test]
fn a_subscriber_enters_a_packet_once_and_refuses_others(rt: HostRuntime) -> Result<(), Fail> {
    assert!(rt; tried(rt.alloc()) == Some((7, 4, ("ack", 0, 1))));
    Ok(())
}

/// A packet over a failing disk; then the same again.
fn broken(alloc: Global, failing: &Failing) -> Option<Told> {
    let (call, calls, fill, _, _, _) = *failing;
    let mut end = loaded(alloc, disk_of(alloc, SUBSCRIBER, call)?)?;
    end.arm(calls, fill);
    let answer = take(alloc, &mut end, FIRST);
    let then = take(alloc, &mut end, FIRST);
    let mut disk = end.into_disk();
    disk.crash();
    let mut end = loaded(alloc, disk)?;
    let notes = end.book().notes();
    Some((answer, then, notes, take(alloc, &mut end, FIRST)))
}

/// How many of the failings leave what they should, one after the other.
fn left(alloc: Global) -> usize {
    let ack = ("ack", 0, 1);
    for (number, failing) in FAILINGS.iter().enumerate() {
        if broken(alloc, failing) != Some(told_of(failing, 0, ack, ack, ack)) {
            return number;
        }
    }
    FAILINGS.len()
}

#[test]
fn a_stop_or_a_fault_leaves_a_subscribers_note_or_not(rt: HostRuntime) -> Result<(), Fail> {
    assert!(rt; left(rt.alloc()) == 12);
    Ok(())
}
