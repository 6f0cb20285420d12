//! The most that a scenario may have.

use crate::call::{Call, check};
use std::alloc::Global;
use std::test::Fail;

/// So many bytes, of which the first begins a comment.
fn comment(alloc: Global, length: usize) -> Result<Vec<u8>, Fail> {
    Ok(vec![in alloc; b'#'; length]?)
}

#[test]
fn limits_of_an_identifier_and_a_text(rt: HostRuntime) -> Result<(), Fail> {
    let alloc = rt.alloc();
    // A comment may fill the whole text; one byte more refuses it.
    let most = comment(alloc, 33_554_432)?;
    check(&rt, &Call::net(most.as_slice(), 1_000_000), 0, "")?;
    let more = comment(alloc, 33_554_433)?;
    let refused = "refused S03 line 0\n";
    check(&rt, &Call::net(more.as_slice(), 1_000_000), 3, refused)?;

    // An identifier has 512 bytes at most, the ten of its beginning counted.
    let long = "x".repeat(alloc, 502)?;
    let packet = format!(in alloc; "packet ivo://a/k#{long} test\n")?;
    check(&rt, &Call::net(packet.as_bytes(), 64), 0, "")?;
    let longer = format!(in alloc; "\npacket ivo://a/k#{long}x test\n")?;
    let refused = "refused S03 line 2\n";
    check(&rt, &Call::net(longer.as_bytes(), 64), 3, refused)
}

#[test]
fn limits_of_the_edges_of_a_node(rt: HostRuntime) -> Result<(), Fail> {
    let alloc = rt.alloc();
    // The nodes, an edge, and the report of 64 such edges.
    let table: [(&str, &str, &str); 2] = [
        (
            "author\nbroker\n",
            "line 0 1\n",
            "node 0 author up wrote 0 acked 0 refused 0\nnode 1 broker up seen 0 owed 0\n",
        ),
        (
            "broker\nsubscriber\n",
            "link 0 1\n",
            "node 0 broker up seen 0 owed 0\nnode 1 subscriber up entered 0\n",
        ),
    ];
    for (nodes, edge, report) in &table {
        let edges = edge.repeat(alloc, 64)?;
        let most = format!(in alloc; "{nodes}{edges}")?;
        check(&rt, &Call::net(most.as_bytes(), 64), 0, report)?;
        let more = format!(in alloc; "{most}{edge}")?;
        let refused = "refused S03 line 67\n";
        check(&rt, &Call::net(more.as_bytes(), 64), 3, refused)?;
    }
    Ok(())
}
