//! The trial disks: those that fail, those that are refused, and what is put back.

ghost use Rattle.std.specs.Prelude.{◌<◌, OnOk};
ghost use Rattle.voevent_cli.specs.Racks.{IsWhole, disks};

use crate::call::{Call, failed, run_over, whole_rack};
use std::process::Abort;
use std::test::Fail;
use voe_disk::{MemoryDisk, MemoryRack, Rack};
use voe_values::{Bytes, NoMemory};

const PATH: &str =
    "author\nbroker\nsubscriber\nline 0 1\nlink 1 2\npacket ivo://a/k#1 test\nwrite 0 0\ndrain\n";

const DELIVERED: &str =
    "node 0 author up wrote 1 acked 1 refused 0\n  ivo://a/k#1\nnode 1 broker up seen 1 owed 0\n  ivo://a/k#1\nnode 2 subscriber up entered 1\n  ivo://a/k#1\n";

/// The journal of the one node of a scenario, a subscriber: the header, its configuration, and a closed gate.
const SUBSCRIBER: &[u8] = b"\x01VOEVENT JRNL 1\n\x01\0\0\0\x11\0s\0\x0civo://node/0\0\0";

/// Puts a disk with these bytes, which fails at the calls of these numbers, in the place of a trial disk.
pub fn set_disk(
    rt: &(impl Abort + AllocGlobal),
    rack: &mut MemoryRack,
    k: u8,
    bytes: &[u8],
    fails: &[u8],
) -> Result<(), NoMemory>
    requires number { k < 64 }
    requires whole { IsWhole (disks (λ k. ⟦<MemoryRack as Rack>⟧.trial rack.old k) (⟦<MemoryRack as Rack>⟧.real rack.old)) }
    ensures { OnOk result (IsWhole (disks (λ k. ⟦<MemoryRack as Rack>⟧.trial rack.new k) (⟦<MemoryRack as Rack>⟧.real rack.new))) }
{
    let alloc = rt.alloc();
    let disk = MemoryDisk::new(alloc, Bytes::of(alloc, bytes)?, Bytes::of(alloc, fails)?);
    let _ = rack.lend(k);
    rack.put_back(k, disk);
    Ok(())
}

/// Checks that a trial disk stands in the rack and has these bytes.
fn check_disk(
    rt: &(impl Abort + AllocGlobal),
    rack: &mut MemoryRack,
    k: u8,
    bytes: &[u8],
) -> Result<(), Fail>
    requires number { k < 64 }
    requires whole { IsWhole (disks (λ k. ⟦<MemoryRack as Rack>⟧.trial rack.old k) (⟦<MemoryRack as Rack>⟧.real rack.old)) }
    ensures { OnOk result (IsWhole (disks (λ k. ⟦<MemoryRack as Rack>⟧.trial rack.new k) (⟦<MemoryRack as Rack>⟧.real rack.new))) }
{
    match rack.lend(k) {
        Some(disk) => {
            assert!(rt; disk.bytes() == bytes);
            rack.put_back(k, disk);
            Ok(())
        }
        None => Err(Fail::from("the disk is lent out")),
    }
}

#[test]
fn a_failing_disk_ends_the_call(rt: HostRuntime) -> Result<(), Fail> {
    let alloc = rt.alloc();
    // The disk of the broker fails at its first call, or at a later one; one that no node has is never called.
    let table: [(u8, &[u8], u8, &str); 3] = [
        (1, &[0], 6, ""),
        (2, &[3], 6, ""),
        (3, &[0], 0, DELIVERED),
    ];
    for (k, fails, status, output) in &table {
        let mut rack = whole_rack(alloc).map_err(failed)?;
        assert!(rt; *k < 64);
        set_disk(&rt, &mut rack, *k, b"", fails).map_err(failed)?;
        run_over(
            &rt,
            &mut rack,
            &Call::net(PATH.as_bytes(), 64),
            *status,
            output,
        )?;
        for other in 0..64 {
            assert!(rt; rack.lend(other).is_some());
        }
        assert!(rt; rack.lend_real().is_some());
    }
    Ok(())
}

#[test]
fn the_first_disk_that_is_made_is_named(rt: HostRuntime) -> Result<(), Fail> {
    let alloc = rt.alloc();
    let foreign = b"hello, foreign one";
    let mut rack = whole_rack(alloc).map_err(failed)?;
    set_disk(&rt, &mut rack, 0, b"\x01", b"").map_err(failed)?;
    set_disk(&rt, &mut rack, 1, SUBSCRIBER, b"").map_err(failed)?;
    set_disk(&rt, &mut rack, 2, foreign, b"").map_err(failed)?;
    let call = Call::net(PATH.as_bytes(), 64);
    run_over(&rt, &mut rack, &call, 8, "refused G5 node 1\n")?;
    // Each disk has what it had.
    check_disk(&rt, &mut rack, 0, b"\x01")?;
    check_disk(&rt, &mut rack, 1, SUBSCRIBER)?;
    check_disk(&rt, &mut rack, 2, foreign)
}

#[test]
fn a_disk_keeps_its_nodes_journal(rt: HostRuntime) -> Result<(), Fail> {
    let alloc = rt.alloc();
    let mut rack = whole_rack(alloc).map_err(failed)?;
    let call = Call::net(b"subscriber\n", 64);
    let report = "node 0 subscriber up entered 0\n";
    run_over(&rt, &mut rack, &call, 0, report)?;
    check_disk(&rt, &mut rack, 0, SUBSCRIBER)?;
    check_disk(&rt, &mut rack, 1, b"")?;
    // A second run finds it.
    run_over(&rt, &mut rack, &call, 8, "refused G5 node 0\n")?;
    check_disk(&rt, &mut rack, 0, SUBSCRIBER)
}
