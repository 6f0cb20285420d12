//! Scenarios and their reports.

use crate::call::{Call, check};
use std::test::Fail;

/// An author, a broker and a subscriber, with one packet.
const PATH: &str =
    "author\nbroker\nsubscriber\nline 0 1\nlink 1 2\npacket ivo://a/k#1 test\nwrite 0 0\n";

/// What the path holds once its packet has come to its end.
const DELIVERED: &str =
    "node 0 author up wrote 1 acked 1 refused 0\n  ivo://a/k#1\nnode 1 broker up seen 1 owed 0\n  ivo://a/k#1\nnode 2 subscriber up entered 1\n  ivo://a/k#1\n";

/// What the path holds while the broker owes the packet, before what the subscriber holds.
const OWED: &str =
    "node 0 author up wrote 1 acked 1 refused 0\n  ivo://a/k#1\nnode 1 broker up seen 1 owed 1\n  ivo://a/k#1\n";

#[test]
fn a_drain_delivers(rt: HostRuntime) -> Result<(), Fail> {
    let alloc = rt.alloc();
    check(&rt, &Call::net(b"", 64), 0, "")?;
    let drained = format!(in alloc; "{PATH}drain\n")?;
    check(&rt, &Call::net(drained.as_bytes(), 64), 0, DELIVERED)?;
    check(&rt, &Call::net(drained.as_bytes(), 1), 0, DELIVERED)
}

#[test]
fn a_packet_goes_round_once(rt: HostRuntime) -> Result<(), Fail> {
    let table: [(&str, &str); 3] = [
        // Two brokers that link to each other.
        (
            "author\nbroker\nbroker\nsubscriber\nsubscriber\nline 0 1\nlink 1 2\nlink 2 1\nlink 1 3\nlink 2 4\npacket ivo://a/k#1 test\nwrite 0 0\ndrain\n",
            "node 0 author up wrote 1 acked 1 refused 0\n  ivo://a/k#1\nnode 1 broker up seen 1 owed 0\n  ivo://a/k#1\nnode 2 broker up seen 1 owed 0\n  ivo://a/k#1\nnode 3 subscriber up entered 1\n  ivo://a/k#1\nnode 4 subscriber up entered 1\n  ivo://a/k#1\n",
        ),
        // A broker that links to itself.
        (
            "author\nbroker\nline 0 1\nlink 1 1\npacket ivo://a/k#1 test\nwrite 0 0\ndrain\n",
            "node 0 author up wrote 1 acked 1 refused 0\n  ivo://a/k#1\nnode 1 broker up seen 1 owed 0\n  ivo://a/k#1\n",
        ),
        // Two ways to one subscriber.
        (
            "author\nbroker\nbroker\nsubscriber\nline 0 1\nline 0 2\nlink 1 3\nlink 2 3\npacket ivo://a/k#1 test\nwrite 0 0\ndrain\n",
            "node 0 author up wrote 1 acked 2 refused 0\n  ivo://a/k#1\nnode 1 broker up seen 1 owed 0\n  ivo://a/k#1\nnode 2 broker up seen 1 owed 0\n  ivo://a/k#1\nnode 3 subscriber up entered 1\n  ivo://a/k#1\n",
        ),
    ];
    for (input, output) in &table {
        check(&rt, &Call::net(input.as_bytes(), 64), 0, output)?;
    }
    Ok(())
}

#[test]
fn a_stop_keeps_a_record_or_not(rt: HostRuntime) -> Result<(), Fail> {
    let alloc = rt.alloc();
    // The subscriber's disk stops after three calls: the byte that a crash puts in place of what was not synced decides.
    let table: [(&str, &str); 4] = [
        (
            "stop 3 1 down 1\n",
            "node 2 subscriber down entered 1\n  ivo://a/k#1\n",
        ),
        ("stop 3 0 down 1\n", "node 2 subscriber down entered 0\n"),
        (
            "stop 4 0 down 1\n",
            "node 2 subscriber down entered 1\n  ivo://a/k#1\n",
        ),
        ("stop 2 1 down 1\n", "node 2 subscriber down entered 0\n"),
    ];
    for (stop, held) in &table {
        let input = format!(in alloc; "{PATH}send 0\ndown 0\nup 0\nsend 1\n{stop}")?;
        let report = format!(in alloc; "{OWED}{held}")?;
        check(&rt, &Call::net(input.as_bytes(), 64), 0, report.as_str())?;
        let drained = format!(in alloc; "{input}drain\n")?;
        check(&rt, &Call::net(drained.as_bytes(), 64), 0, DELIVERED)?;
    }
    Ok(())
}

#[test]
fn what_was_kept_before_a_crash_is_owed(rt: HostRuntime) -> Result<(), Fail> {
    let alloc = rt.alloc();
    let input = format!(in alloc; "{PATH}send 0\nstop 4 0 down 0\n")?;
    let report =
        "node 0 author up wrote 1 acked 0 refused 0\n  ivo://a/k#1\nnode 1 broker down seen 1 owed 1\n  ivo://a/k#1\nnode 2 subscriber up entered 0\n";
    check(&rt, &Call::net(input.as_bytes(), 64), 0, report)?;
    let drained = format!(in alloc; "{input}drain\n")?;
    check(&rt, &Call::net(drained.as_bytes(), 64), 0, DELIVERED)
}

#[test]
fn a_lost_answer_leaves_the_delivery_owed(rt: HostRuntime) -> Result<(), Fail> {
    let alloc = rt.alloc();
    let input = format!(in alloc; "{PATH}send 0\ndown 0\nup 0\nsend 1\ndown 1\ncut 1\n")?;
    let report = format!(in alloc; "{OWED}node 2 subscriber up entered 1\n  ivo://a/k#1\n")?;
    check(&rt, &Call::net(input.as_bytes(), 64), 0, report.as_str())?;
    let drained = format!(in alloc; "{input}drain\n")?;
    check(&rt, &Call::net(drained.as_bytes(), 64), 0, DELIVERED)
}

#[test]
fn two_packets_of_one_identifier(rt: HostRuntime) -> Result<(), Fail> {
    let table: [(&str, &str); 3] = [
        // The packet that came first has no parameter, so the filter of the last link doesn't pass it.
        (
            "author\nauthor\nbroker\nbroker\nsubscriber\nline 0 2\nline 1 3\nlink 2 3\nlink 3 4\nfilter 3 //Param[@name=\"x\"]\npacket ivo://a/k#1 test x=1\npacket ivo://a/k#1 test\nwrite 0 0\nwrite 1 1\nsend 1\ndown 1\nup 1\ndrain\n",
            "node 0 author up wrote 1 acked 1 refused 0\n  ivo://a/k#1\nnode 1 author up wrote 1 acked 1 refused 0\n  ivo://a/k#1\nnode 2 broker up seen 1 owed 0\n  ivo://a/k#1\nnode 3 broker up seen 1 owed 0\n  ivo://a/k#1\nnode 4 subscriber up entered 0\n",
        ),
        // On a line the broker compares digests.
        (
            "author\nauthor\nbroker\nline 0 2\nline 1 2\npacket ivo://a/k#1 test\npacket ivo://a/k#1 observation\nwrite 0 0\nwrite 1 1\ndrain\n",
            "node 0 author up wrote 1 acked 1 refused 0\n  ivo://a/k#1\nnode 1 author up wrote 1 acked 0 refused 1\n  ivo://a/k#1\nnode 2 broker up seen 1 owed 0\n  ivo://a/k#1\n",
        ),
        (
            "author\nauthor\nbroker\nline 0 2\nline 1 2\npacket ivo://a/k#1 test\npacket ivo://a/k#1 observation\nwrite 0 0\nwrite 1 0\ndrain\n",
            "node 0 author up wrote 1 acked 1 refused 0\n  ivo://a/k#1\nnode 1 author up wrote 1 acked 1 refused 0\n  ivo://a/k#1\nnode 2 broker up seen 1 owed 0\n  ivo://a/k#1\n",
        ),
    ];
    for (input, output) in &table {
        check(&rt, &Call::net(input.as_bytes(), 64), 0, output)?;
    }
    Ok(())
}
