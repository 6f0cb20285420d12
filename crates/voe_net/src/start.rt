//! How a network over disks begins.

ghost use Rattle.std.specs.Prelude.{◌≡◌, ◌<◌, ◌≤◌, ◌^◌, [], IfErr, IfOk, OnOk, length, reverse, vec_capacity};
ghost use Rattle.net_model.specs.Draining.{IsProper};
ghost use Rattle.net_machine.specs.Ends.{AllPackets};
ghost use Rattle.voe_scenario.specs.Shapes.{config_of, shape};
ghost use Rattle.voe_net.specs.Begun.{AreBegun, HasStarted, HasStopped, IsConfigurable, IsRefused};
ghost use Rattle.voe_net.specs.Nodes.{IsBegun};
ghost use Rattle.voe_net.specs.Starting.{AllBlank, AreBack, IsBlank, NoneArmed};

use crate::blank::look_at;
use crate::fault::NetFault;
use crate::node_end::NodeEnd;
use crate::take_back::give_back;
use net_machine::{EndFault, Machine, Seat};
use std::alloc::Global;
use voe_disk::{CrashDisk, Disk};
use voe_scenario::Graph;
use voe_values::{Bytes, Listing, NoMemory};

/// Makes the node of this number on a blank disk.
fn make_node<D: CrashDisk>(
    alloc: Global,
    graph: &Graph,
    node: u8,
    disk: D,
) -> Result<NodeEnd<D>, (D, NetFault)>
    requires node { node < length graph.now.nodes }
    requires edges { length graph.now.edges < 2 ^ 16 }
    requires few { length graph.now.nodes < 2 ^ 8 }
    requires proper { IsProper (shape graph.now) }
    requires graph { IsConfigurable graph.now }
    requires blank { IsBlank D.Disk disk }
    requires unarmed { (D.arming disk).calls ≡ None }
    ensures ok { IfOk result (λ end. IsBegun D.Disk (config_of graph.now node) disk end) }
    ensures err { IfErr result (λ e. IsRefused D.Disk node disk e.0 e.1) }
{
    let Ok(config) = graph.config(alloc, node) else {
        return Err((disk, NetFault::NoMemory));
    };
    match NodeEnd::make(alloc, disk, config) {
        Ok(end) => Ok(end),
        Err((disk, EndFault::Disk)) => Err((disk, NetFault::Disk { node })),
        Err((disk, EndFault::NoMemory)) => Err((disk, NetFault::NoMemory)),
    }
}

/// Makes a node on each of these disks, which lie in reverse order, up to the first that can't be made.
fn fill_seats<D: CrashDisk>(
    alloc: Global,
    graph: &Graph,
    disks: &mut Vec<D>,
    seats: &mut Vec<Seat<NodeEnd<D>>>,
) -> Result<(), NetFault>
    requires edges { length graph.now.edges < 2 ^ 16 }
    requires few { length graph.now.nodes < 2 ^ 8 }
    requires proper { IsProper (shape graph.now) }
    requires graph { IsConfigurable graph.now }
    requires number { length disks.old.items ≡ length graph.now.nodes }
    requires blank { AllBlank D.Disk (reverse disks.old.items) }
    requires unarmed { NoneArmed D.Disk (reverse disks.old.items) }
    requires none { seats.old.items ≡ [] }
    requires room { length disks.old.items ≤ vec_capacity seats.old }
    requires kept { length disks.old.items ≤ vec_capacity disks.old }
    ensures ok { OnOk result ((disks.new.items ≡ []) × AreBegun D.Disk graph.now (reverse disks.old.items) seats.new.items) }
    ensures err { IfErr result (HasStopped D.Disk graph.now (reverse disks.old.items) disks.new.items seats.new.items) }
    ensures capacity { vec_capacity disks.new ≡ vec_capacity disks.old }
{
    while let Some(disk) = disks.pop() {
        let node = seats.len() as u8;
        match make_node(alloc, graph, node, disk) {
            Ok(end) => seats.push_reserved(Seat { up: true, end }),
            Err((disk, fault)) => {
                disks.push_reserved(disk);
                return Err(fault);
            }
        }
    }
    Ok(())
}

/// Makes a node on each of these disks. After an `Err` the disks lie there again.
fn make_seats<D: CrashDisk>(
    alloc: Global,
    graph: &Graph,
    disks: &mut Vec<D>,
) -> Result<Vec<Seat<NodeEnd<D>>>, NetFault>
    requires edges { length graph.now.edges < 2 ^ 16 }
    requires few { length graph.now.nodes < 2 ^ 8 }
    requires proper { IsProper (shape graph.now) }
    requires graph { IsConfigurable graph.now }
    requires number { length disks.old.items ≡ length graph.now.nodes }
    requires blank { AllBlank D.Disk disks.old.items }
    requires unarmed { NoneArmed D.Disk disks.old.items }
    requires kept { length disks.old.items ≤ vec_capacity disks.old }
    ensures ok { IfOk result (λ seats. (disks.new.items ≡ []) × AreBegun D.Disk graph.now disks.old.items seats.items) }
    ensures err { IfErr result (AreBack D.Disk disks.old.items disks.new.items) }
    ensures capacity { OnOk result (vec_capacity disks.new ≡ vec_capacity disks.old) }
{
    let Ok(mut seats) = Vec::with_capacity(alloc, disks.len()) else {
        return Err(NetFault::NoMemory);
    };
    disks.reverse();
    match fill_seats(alloc, graph, disks, &mut seats) {
        Ok(()) => Ok(seats),
        Err(fault) => {
            give_back(Listing::from_vec(seats), disks);
            Err(fault)
        }
    }
}

/// The network at its beginning, on disks that were looked at. After an `Err` the disks lie there again.
fn make_machine<'a, D: CrashDisk>(
    alloc: Global,
    graph: &Graph,
    packets: &'a [Bytes],
    disks: &mut Vec<D>,
) -> Result<Machine<'a, NodeEnd<D>>, NetFault>
    requires proper { IsProper (shape graph.now) }
    requires few { length graph.now.nodes < 2 ^ 8 }
    requires edges { length graph.now.edges < 2 ^ 16 }
    requires graph { IsConfigurable graph.now }
    requires packets { AllPackets packets.now }
    requires number { length disks.old.items ≡ length graph.now.nodes }
    requires blank { AllBlank D.Disk disks.old.items }
    requires unarmed { NoneArmed D.Disk disks.old.items }
    requires kept { length disks.old.items ≤ vec_capacity disks.old }
    ensures ok { IfOk result (HasStarted D.Disk graph.now packets.now disks.old.items) }
    ensures empty { OnOk result ((disks.new.items ≡ []) × (length disks.old.items ≤ vec_capacity disks.new)) }
    ensures err { IfErr result (AreBack D.Disk disks.old.items disks.new.items) }
{
    let shape = graph.shape(alloc)?;
    let seats = make_seats(alloc, graph, disks)?;
    match Machine::new(alloc, shape, packets, Listing::from_vec(seats)) {
        Ok(machine) => Ok(machine),
        Err((seats, NoMemory)) => {
            give_back(seats, disks);
            Err(NetFault::NoMemory)
        }
    }
}

/// The network at its beginning. All disks are looked at before the first node is made. After an `Err` the disks lie there
/// again.
pub fn start<'a, D: CrashDisk>(
    alloc: Global,
    graph: &Graph,
    packets: &'a [Bytes],
    disks: &mut Vec<D>,
) -> Result<Machine<'a, NodeEnd<D>>, NetFault>
    requires proper { IsProper (shape graph.now) }
    requires few { length graph.now.nodes < 2 ^ 8 }
    requires edges { length graph.now.edges < 2 ^ 16 }
    requires graph { IsConfigurable graph.now }
    requires packets { AllPackets packets.now }
    requires number { length disks.old.items ≡ length graph.now.nodes }
    requires unarmed { NoneArmed D.Disk disks.old.items }
    ensures ok { IfOk result (HasStarted D.Disk graph.now packets.now disks.old.items) }
    ensures blank { OnOk result (AllBlank D.Disk disks.old.items) }
    ensures empty { OnOk result ((disks.new.items ≡ []) × (length disks.old.items ≤ vec_capacity disks.new)) }
    ensures err { IfErr result (AreBack D.Disk disks.old.items disks.new.items) }
{
    match look_at(disks) {
        Ok(()) => make_machine(alloc, graph, packets, disks),
        Err(fault) => Err(fault),
    }
}
