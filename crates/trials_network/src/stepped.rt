//! The same scenario through the top call and through a network that is stepped, where a disk fails.

ghost use Rattle.std.specs.Prelude.{◌≡◌, IfOk, false, length};
ghost use Rattle.voe_net.specs.Starting.{NoneArmed};
ghost use Rattle.voe_scenario.specs.Sound.{IsSound};

use crate::call::{failed, whole_rack};
use crate::trial_disks::set_disk;
use std::process::Abort;
use std::test::Fail;
use voe_disk::{Disk, MemoryDisk};
use voe_net::{Disks, NetFault, Network};
use voe_outside::{MemorySink, MemorySource};
use voe_scenario::{Scenario, read_scenario};
use voe_values::{Bytes, NoMemory, Text};
use voevent_cli::offline;

/// A broker's disk stops inside a step, and a drain ends the run.
const STOPPED: &str =
    "author\nbroker\nsubscriber\nline 0 1\nlink 1 2\npacket ivo://a/k#1 test\nwrite 0 0\nsend 0\nstop 4 0 down 0\ndrain\n";

/// The status of the run through the top call, where disk 1 fails at this call.
fn by_top_call(rt: &(impl Abort + AllocGlobal), call: u8) -> Result<u8, Fail> {
    let alloc = rt.alloc();
    let mut rack = whole_rack(alloc).map_err(failed)?;
    set_disk(rt, &mut rack, 1, b"", &[call]).map_err(failed)?;
    let input = Bytes::of(alloc, STOPPED.as_bytes()).map_err(failed)?;
    let mut source = MemorySource::new(input, 64, Bytes::new(alloc));
    let mut sink = MemorySink::new(alloc, 64, Bytes::new(alloc));
    let word = Text::of(alloc, "net").map_err(failed)?;
    Ok(offline(alloc, &[word], &mut source, &mut sink, &mut rack))
}

/// Three empty disks, of which the second fails at this call.
fn three_disks(rt: &(impl Abort + AllocGlobal), call: u8) -> Result<Disks<MemoryDisk>, NoMemory>
    ensures count { IfOk result (λ disks. length disks ≡ 3) }
    ensures unarmed { IfOk result (λ disks. NoneArmed ⟦<MemoryDisk as Disk>⟧ disks) }
{
    let alloc = rt.alloc();
    let first = MemoryDisk::new(alloc, Bytes::new(alloc), Bytes::new(alloc));
    let second = MemoryDisk::new(alloc, Bytes::new(alloc), Bytes::of(alloc, &[call])?);
    let third = MemoryDisk::new(alloc, Bytes::new(alloc), Bytes::new(alloc));
    let mut disks = Disks::new(alloc);
    disks.push(first).map_err(|refused| refused.1)?;
    disks.push(second).map_err(|refused| refused.1)?;
    disks.push(third).map_err(|refused| refused.1)?;
    Ok(disks)
}

/// The status of a fault: the second disk's is 6; no other comes.
fn status_of(fault: NetFault) -> Result<u8, Fail> {
    match fault {
        NetFault::Disk { node: 1 } => Ok(6),
        _ => Err(Fail::from("another fault")),
    }
}

/// The status of the scenario's run through a network that is stepped event by event, where disk 1 fails at this call.
fn step_scenario(rt: &(impl Abort + AllocGlobal), scenario: &Scenario, call: u8) -> Result<u8, Fail>
    requires { IsSound scenario.now }
{
    assert!(rt; scenario.graph.nodes.len() == 3);
    let disks = three_disks(rt, call).map_err(failed)?;
    match Network::new(
        rt.alloc(),
        &scenario.graph,
        scenario.packets.as_slice(),
        disks,
    ) {
        Ok(network) => step_all(network, scenario),
        Err((_, fault)) => status_of(fault),
    }
}

/// The status of the run through a network that is stepped event by event, where disk 1 fails at this call.
fn by_steps(rt: &(impl Abort + AllocGlobal), call: u8) -> Result<u8, Fail> {
    match read_scenario(rt.alloc(), STOPPED.as_bytes()) {
        Ok(scenario) => step_scenario(rt, &scenario, call),
        Err(_) => Err(Fail::from("the scenario was not read")),
    }
}

/// Steps a network through all events.
fn step_all(mut network: Network<'_, MemoryDisk>, scenario: &Scenario) -> Result<u8, Fail>
    requires { network.failed ≡ false }
{
    for event in scenario.events.as_slice() {
        if let Err(fault) = network.apply(event) {
            let _ = network.into_disks();
            return status_of(fault);
        }
    }
    let _ = network.into_disks();
    Ok(0)
}

/// Runs the scenario both ways for these calls, and checks that both meet the fault or neither does. Tells whether a call
/// was past the last one.
fn check_calls(rt: &(impl Abort + AllocGlobal), from: u8, to: u8) -> Result<bool, Fail> {
    for call in from..to {
        let status = by_top_call(rt, call)?;
        assert_eq!(rt; by_steps(rt, call)?, status, "status");
        if status == 0 {
            return Ok(true);
        }
    }
    Ok(false)
}

#[test]
fn both_meet_a_fault_of_the_first_calls(rt: HostRuntime) -> Result<(), Fail> {
    assert!(rt; !check_calls(&rt, 0, 8)?);
    Ok(())
}

#[test]
fn both_meet_a_fault_up_to_the_last_call(rt: HostRuntime) -> Result<(), Fail> {
    assert!(rt; check_calls(&rt, 8, 255)?);
    Ok(())
}
