//! A network that is looked at: the ends that it shows, its report and its sums, and the disks that it gives back.

ghost use Rattle.std.specs.Prelude.{◌≡◌, IfOk, false, length};
ghost use Rattle.voe_net.specs.Starting.{NoneArmed};
ghost use Rattle.voe_scenario.specs.Sound.{IsSound};

use net_model::Event;
use std::alloc::Global;
use voe_disk::{Disk, MemoryDisk};
use voe_net::{Disks, NetFault, Network};
use voe_scenario::{Scenario, read_scenario};
use voe_values::{Bytes, NoMemory};

/// A packet comes to a subscriber, whose acknowledgement is under way as it crashes.
const CRASHED: &str =
    "author\nbroker\nsubscriber\nline 0 1\nlink 1 2\npacket ivo://a/k#1 test\nwrite 0 0\nsend 0\ndown 0\nup 0\nsend 1\ndown 1\ncrash 2\n";

const REPORT: &str =
    "node 0 author up wrote 1 acked 1 refused 0\n  ivo://a/k#1\nnode 1 broker up seen 1 owed 1\n  ivo://a/k#1\nnode 2 subscriber down entered 1\n  ivo://a/k#1\n";

/// How the subscriber's disk begins: the header, and the configuration up to its name.
const SUBSCRIBER: &[u8] = b"\x01VOEVENT JRNL 1\n\x01\0\0\0\x11\0s\0\x0civo://node/2\0\x01";

/// For the nodes, and for one that isn't there, whether it is shown as an author, as a broker and as a subscriber.
const WHOLE: [(u8, bool, bool, bool); 4] = [
    (0, true, false, false),
    (1, false, true, false),
    (2, false, false, true),
    (3, false, false, false),
];

/// The same once the subscriber is down.
const CUT_DOWN: [(u8, bool, bool, bool); 3] = [
    (0, true, false, false),
    (1, false, true, false),
    (2, false, false, false),
];

/// Three empty disks that never fail.
fn three_disks(alloc: Global) -> Result<Disks<MemoryDisk>, NoMemory>
    ensures count { IfOk result (λ disks. length disks ≡ 3) }
    ensures unarmed { IfOk result (λ disks. NoneArmed ⟦<MemoryDisk as Disk>⟧ disks) }
{
    let first = MemoryDisk::new(alloc, Bytes::new(alloc), Bytes::new(alloc));
    let second = MemoryDisk::new(alloc, Bytes::new(alloc), Bytes::new(alloc));
    let third = MemoryDisk::new(alloc, Bytes::new(alloc), Bytes::new(alloc));
    let mut disks = Disks::new(alloc);
    disks.push(first).map_err(|refused| refused.1)?;
    disks.push(second).map_err(|refused| refused.1)?;
    disks.push(third).map_err(|refused| refused.1)?;
    Ok(disks)
}

/// Whether the network shows these nodes as an author, as a broker and as a subscriber, and as nothing else.
fn is_shown(network: &Network<'_, MemoryDisk>, rows: &[(u8, bool, bool, bool)]) -> bool
    requires { network.now.failed ≡ false }
{
    for row in rows {
        let (node, author, broker, subscriber) = *row;
        if network.author(node).is_some() != author
            || network.broker(node).is_some() != broker
            || network.subscriber(node).is_some() != subscriber
        {
            return false;
        }
    }
    true
}

/// Steps a network through these events. Tells whether all ends are shown before the last of them, and all but the one that
/// it crashes behind it, and whether the report and the sums are then right.
fn is_seen(network: &mut Network<'_, MemoryDisk>, events: &[Event]) -> Result<bool, NetFault>
    requires { network.old.failed ≡ false }
{
    let Some((last, first)) = events.split_last() else {
        return Ok(false);
    };
    network.apply_all(first)?;
    let whole = is_shown(network, &WHOLE);
    network.apply(last)?;
    let crashed = is_shown(network, &CUT_DOWN);
    let report = network.report()?;
    let sums = network.summary();
    let summed = sums.acked == 1 && sums.entered == 1 && sums.owed == 1;
    Ok(whole && crashed && summed && report.as_str() == REPORT)
}

/// Whether these are the three disks of the nodes, the subscriber's as the last.
fn are_nodes(mut disks: Disks<MemoryDisk>) -> bool {
    let count = disks.len();
    match disks.pop() {
        Some(disk) => count == 3 && disk.bytes().starts_with(SUBSCRIBER),
        None => false,
    }
}

/// Runs a scenario of three nodes. Tells whether the network showed what it should, and gave its nodes' disks back.
fn is_looked_at(alloc: Global, scenario: &Scenario) -> Result<bool, NoMemory>
    requires { IsSound scenario.now }
{
    if scenario.graph.nodes.len() != 3 {
        return Ok(false);
    }
    let disks = three_disks(alloc)?;
    match Network::new(alloc, &scenario.graph, scenario.packets.as_slice(), disks) {
        Ok(mut network) => {
            let seen = is_seen(&mut network, scenario.events.as_slice());
            let given = are_nodes(network.into_disks());
            Ok(given && matches!(seen, Ok(true)))
        }
        Err(_) => Ok(false),
    }
}

#[test]
fn a_network_shows_its_ends(rt: HostRuntime) {
    let alloc = rt.alloc();
    let Ok(scenario) = read_scenario(alloc, CRASHED.as_bytes()) else {
        panic!(rt; "not read")
    };
    assert!(rt; matches!(is_looked_at(alloc, &scenario), Ok(true)));
}
