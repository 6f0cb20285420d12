//! The crash of a node, and its loading from what its disk then keeps.

ghost use Rattle.std.specs.Prelude.{◌≡◌, ◌↔◌, OnOk, None, Some};
ghost use Rattle.std.specs.Option.{option_map};
ghost use Rattle.gate_journal.specs.Journal.{EachFile};
ghost use Rattle.node_book.specs.Keeps.{Keeps};
ghost use Rattle.node_book.specs.declared.fault.BookFault.TheVariants.{DiskFault};
ghost use Rattle.net_machine.specs.Counts.{HasCause};
ghost use Rattle.net_machine.specs.Ends.{crashed};
ghost use Rattle.voe_values.specs.declared.kind.NodeKind.TheVariants.{Author as AnAuthor, Broker as ABroker, Subscriber as ASubscriber};
ghost use Rattle.voe_net.specs.Crashes.{IsLoadedAgain, IsLoadedFrom, LeavesItself, LeavesNode, ReadsNode};
ghost use Rattle.voe_net.specs.Kept.{IsKeptNode, IsNode, end_of};
ghost use Rattle.voe_net.specs.Lost.{IsLost};
ghost use Rattle.voe_net.specs.Nodes.{TellsCrash, faults_of, show};
ghost use Rattle.voe_net.specs.Worked.{kind_of};

use crate::kept::Kept;
use crate::working::is_up;
use author_end::AuthorEnd;
use broker_end::BrokerEnd;
use net_machine::EndFault;
use node_book::BookFault;
use std::alloc::Global;
use subscriber_end::SubscriberEnd;
use voe_disk::{CrashDisk, Disk};
use voe_values::NodeKind;

/// Crashes the disk, and loads an end of the same kind from what it then keeps. Where that can't be, the disk is kept
/// alone. An end whose disk had failed before stays as it is, with `NoMemory`.
pub fn crash<D: CrashDisk>(alloc: Global, kept: &mut Option<Kept<D>>) -> Result<(), EndFault>
    requires { IsNode D.Disk kept.old }
    ensures node { IsNode D.Disk kept.new }
    ensures crashed { OnOk result (show (option_map end_of kept.new) ≡ crashed (show (option_map end_of kept.old))) }
    ensures told { OnOk result (TellsCrash D.Disk (option_map end_of kept.old) → TellsCrash D.Disk (option_map end_of kept.new)) }
    ensures faults { HasCause (faults_of D.Disk (option_map end_of kept.old)) (faults_of D.Disk (option_map end_of kept.new)) result }
{
    let Some(node) = kept.take() else {
        unreachable!();
    };
    let (node, outcome) = crash_node(alloc, node);
    put_back(kept, node);
    outcome
}

/// Puts a node back where it was taken out.
pub fn put_back<D: CrashDisk>(kept: &mut Option<Kept<D>>, node: Kept<D>)
    requires { kept.old ≡ None }
    ensures { kept.new ≡ Some node }
{
    let before = kept.replace(node);
    let None = before else {
        unreachable!();
    };
}

fn crash_node<D: CrashDisk>(alloc: Global, node: Kept<D>) -> (Kept<D>, Result<(), EndFault>)
    requires { IsKeptNode D.Disk node }
    ensures node { IsKeptNode D.Disk result.0 }
    ensures crashed { OnOk result.1 (show (Some (end_of result.0)) ≡ crashed (show (Some (end_of node)))) }
    ensures told { OnOk result.1 (TellsCrash D.Disk (Some (end_of node)) → TellsCrash D.Disk (Some (end_of result.0))) }
    ensures faults { HasCause (D.faults (end_of node).disk) (D.faults (end_of result.0).disk) result.1 }
{
    if !is_up(&node) {
        return (node, Err(EndFault::NoMemory));
    }
    load_after_crash(alloc, node)
}

/// Crashes the disk of an end that is whole whatever the crash leaves, and loads it again.
pub fn load_after_crash<D: CrashDisk>(
    alloc: Global,
    node: Kept<D>,
) -> (Kept<D>, Result<(), EndFault>)
    requires { LeavesItself D.Disk node }
    ensures node { IsKeptNode D.Disk result.0 }
    ensures loaded { OnOk result.1 (IsLoadedAgain D.Disk (end_of node).disk (end_of result.0)) }
    ensures faults { HasCause (D.faults (end_of node).disk) (D.faults (end_of result.0).disk) result.1 }
{
    match kind_of(&node) {
        Some(kind) => load_crashed(alloc, into_disk(node), kind),
        None => unreachable!(),
    }
}

/// Of which kind the end is.
fn kind_of<D: CrashDisk>(node: &Kept<D>) -> Option<NodeKind>
    ensures { result ≡ kind_of node.now }
{
    match node {
        Kept::Author { .. } => Some(NodeKind::Author),
        Kept::Broker { .. } => Some(NodeKind::Broker),
        Kept::Subscriber { .. } => Some(NodeKind::Subscriber),
        Kept::Bare { .. } => None,
    }
}

/// The disk as it is.
pub fn into_disk<D: CrashDisk>(node: Kept<D>) -> D
    ensures disk { result ≡ (end_of node).disk }
    ensures kept { (end_of node).down ≡ None → EachFile D.Disk result (λ file. Keeps file (end_of node).config (end_of node).notes) }
{
    match node {
        Kept::Author { end } => end.into_disk(),
        Kept::Broker { end } => end.into_disk(),
        Kept::Subscriber { end } => end.into_disk(),
        Kept::Bare { disk } => disk,
    }
}

/// Crashes a disk that keeps an end of this kind whatever the crash leaves, and loads that end.
fn load_crashed<D: CrashDisk>(
    alloc: Global,
    mut disk: D,
    kind: NodeKind,
) -> (Kept<D>, Result<(), EndFault>)
    requires { LeavesNode D.Disk kind disk }
    ensures node { IsKeptNode D.Disk result.0 }
    ensures loaded { OnOk result.1 (IsLoadedAgain D.Disk disk (end_of result.0)) }
    ensures faults { HasCause (D.faults disk) (D.faults (end_of result.0).disk) result.1 }
{
    disk.crash();
    load(alloc, disk, kind)
}

/// Loads the end that a disk keeps. An `Err` keeps the disk alone.
fn load<D: CrashDisk>(alloc: Global, disk: D, kind: NodeKind) -> (Kept<D>, Result<(), EndFault>)
    requires reading { ReadsNode D.Disk kind disk }
    requires unarmed { (D.arming disk).calls ≡ None }
    ensures node { IsKeptNode D.Disk result.0 }
    ensures loaded { OnOk result.1 (IsLoadedFrom D.Disk disk (end_of result.0)) }
    ensures faults { HasCause (D.faults disk) (D.faults (end_of result.0).disk) result.1 }
{
    match kind {
        NodeKind::Author => load_author(alloc, disk),
        NodeKind::Broker => load_broker(alloc, disk),
        NodeKind::Subscriber => load_subscriber(alloc, disk),
    }
}

fn load_author<D: CrashDisk>(alloc: Global, disk: D) -> (Kept<D>, Result<(), EndFault>)
    requires reading { ReadsNode D.Disk AnAuthor disk }
    requires unarmed { (D.arming disk).calls ≡ None }
    ensures node { IsKeptNode D.Disk result.0 }
    ensures loaded { OnOk result.1 (IsLoadedFrom D.Disk disk (end_of result.0)) }
    ensures faults { HasCause (D.faults disk) (D.faults (end_of result.0).disk) result.1 }
{
    match AuthorEnd::load(alloc, disk) {
        Ok(end) => (Kept::Author { end }, Ok(())),
        Err((disk, fault)) => (Kept::Bare { disk }, Err(why_lost(fault))),
    }
}

fn load_broker<D: CrashDisk>(alloc: Global, disk: D) -> (Kept<D>, Result<(), EndFault>)
    requires reading { ReadsNode D.Disk ABroker disk }
    requires unarmed { (D.arming disk).calls ≡ None }
    ensures node { IsKeptNode D.Disk result.0 }
    ensures loaded { OnOk result.1 (IsLoadedFrom D.Disk disk (end_of result.0)) }
    ensures faults { HasCause (D.faults disk) (D.faults (end_of result.0).disk) result.1 }
{
    match BrokerEnd::load(alloc, disk) {
        Ok(end) => (Kept::Broker { end }, Ok(())),
        Err((disk, fault)) => (Kept::Bare { disk }, Err(why_lost(fault))),
    }
}

fn load_subscriber<D: CrashDisk>(alloc: Global, disk: D) -> (Kept<D>, Result<(), EndFault>)
    requires reading { ReadsNode D.Disk ASubscriber disk }
    requires unarmed { (D.arming disk).calls ≡ None }
    ensures node { IsKeptNode D.Disk result.0 }
    ensures loaded { OnOk result.1 (IsLoadedFrom D.Disk disk (end_of result.0)) }
    ensures faults { HasCause (D.faults disk) (D.faults (end_of result.0).disk) result.1 }
{
    match SubscriberEnd::load(alloc, disk) {
        Ok(end) => (Kept::Subscriber { end }, Ok(())),
        Err((disk, fault)) => (Kept::Bare { disk }, Err(why_lost(fault))),
    }
}

/// Why an end was neither made nor loaded, as the network is told.
pub fn why_lost(fault: BookFault) -> EndFault
    requires { IsLost fault }
    ensures { (result ≡ EndFault.Disk) ↔ (fault ≡ DiskFault) }
{
    match fault {
        BookFault::DiskFault => EndFault::Disk,
        BookFault::NoMemory => EndFault::NoMemory,
        _ => unreachable!(),
    }
}
