//! The stop of a node's disk in the middle of work.

ghost use Rattle.std.specs.Prelude.{◌≡◌, ℕ, Bool, List, OnOk, Some, None};
ghost use Rattle.std.specs.Option.{option_map};
ghost use Rattle.net_model.specs.Rules.{NodeRules};
ghost use Rattle.net_model.specs.Runs.{is_kept};
ghost use Rattle.net_machine.specs.Counts.{HasCause};
ghost use Rattle.net_machine.specs.Ends.{crashed};
ghost use Rattle.net_machine.specs.Works.{IsAbout, IsFit, OnlyBrings, cut_short};
ghost use Rattle.voe_net.specs.Crashes.{IsLoadedAgain, LeavesItself};
ghost use Rattle.voe_net.specs.Kept.{IsKeptNode, IsNode, end_of};
ghost use Rattle.voe_net.specs.Nodes.{TellsCrash, faults_of, show};
ghost use Rattle.voe_net.specs.Right.{IsRight};
ghost use Rattle.voe_net.specs.Stopping.{HasCauseAfter, IsArmedNode, IsStopped, IsWhole};

use crate::crashing::{into_disk, load_after_crash, put_back};
use crate::kept::Kept;
use crate::working;
use crate::working::Worked;
use net_machine::{EndFault, Work};
use std::alloc::Global;
use voe_disk::{CrashDisk, Disk};

/// Does the work on a disk that stops after so many calls, crashes, and loads an end of the same kind from what the disk
/// then keeps. Where that can't be, the disk is kept alone, not armed.
pub fn stop<D: CrashDisk>(
    alloc: Global,
    kept: &mut Option<Kept<D>>,
    calls: u8,
    fill: u8,
    work: Work,
) -> Result<(), EndFault>
    requires node { IsNode D.Disk kept.old }
    requires fit { IsFit (show (option_map end_of kept.old)) work }
    ensures node { IsNode D.Disk kept.new }
    ensures exact { OnOk result (TellsCrash D.Disk (option_map end_of kept.old) → (rules : NodeRules) (packets : List (List ℕ)) → IsAbout work packets
        → IsRight (show (option_map end_of kept.old)).config packets rules
        → show (option_map end_of kept.new) ≡ cut_short (is_kept calls fill) rules (show (option_map end_of kept.old)) work) }
    ensures either { OnOk result ((rules : NodeRules) (packets : List (List ℕ)) → IsAbout work packets → IsRight (show (option_map end_of kept.old)).config packets rules
        → (outlives : Bool) × (show (option_map end_of kept.new) ≡ cut_short outlives rules (show (option_map end_of kept.old)) work)) }
    ensures only { OnOk result (OnlyBrings work (crashed (show (option_map end_of kept.old))) (show (option_map end_of kept.new))) }
    ensures told { OnOk result (TellsCrash D.Disk (option_map end_of kept.old) → TellsCrash D.Disk (option_map end_of kept.new)) }
    ensures faults { HasCause (faults_of D.Disk (option_map end_of kept.old)) (faults_of D.Disk (option_map end_of kept.new)) result }
{
    let Some(node) = kept.take() else {
        unreachable!();
    };
    let (node, outcome) = stop_node(alloc, node, calls, fill, work);
    put_back(kept, node);
    outcome
}

fn stop_node<D: CrashDisk>(
    alloc: Global,
    mut node: Kept<D>,
    calls: u8,
    fill: u8,
    work: Work,
) -> (Kept<D>, Result<(), EndFault>)
    requires node { IsKeptNode D.Disk node }
    requires fit { IsFit (show (Some (end_of node))) work }
    ensures node { IsKeptNode D.Disk result.0 }
    ensures stopped { OnOk result.1 (IsStopped D.Disk calls fill work (end_of node) (end_of result.0)) }
    ensures faults { HasCause (D.faults (end_of node).disk) (D.faults (end_of result.0).disk) result.1 }
{
    arm(&mut node, calls, fill);
    let worked = working::work(alloc, &mut node, work);
    after_work(alloc, node, worked)
}

/// Crashes the disk after the work, and loads the end again. After a fault of the disk, or without memory, the disk is
/// kept alone.
fn after_work<D: CrashDisk>(
    alloc: Global,
    node: Kept<D>,
    worked: Worked,
) -> (Kept<D>, Result<(), EndFault>)
    requires { IsWhole worked → LeavesItself D.Disk node }
    ensures node { IsKeptNode D.Disk result.0 }
    ensures loaded { OnOk result.1 (IsWhole worked × IsLoadedAgain D.Disk (end_of node).disk (end_of result.0)) }
    ensures faults { HasCauseAfter worked (D.faults (end_of node).disk) (D.faults (end_of result.0).disk) result.1 }
{
    match worked {
        Worked::Answered { .. } => load_after_crash(alloc, node),
        Worked::Fallen { stopped } => {
            if stopped {
                return load_after_crash(alloc, node);
            }
            (crash_alone(node), Err(EndFault::Disk))
        }
        Worked::NoMemory => (crash_alone(node), Err(EndFault::NoMemory)),
    }
}

/// Arms the disk of a node. All else stays.
fn arm<D: CrashDisk>(node: &mut Kept<D>, calls: u8, fill: u8)
    ensures { IsArmedNode D.Disk node.old node.new calls fill }
{
    match node {
        Kept::Author { end } => end.arm(calls, fill),
        Kept::Broker { end } => end.arm(calls, fill),
        Kept::Subscriber { end } => end.arm(calls, fill),
        Kept::Bare { disk } => disk.arm(calls, fill),
    }
}

/// Crashes the disk of a node, and keeps it alone.
fn crash_alone<D: CrashDisk>(node: Kept<D>) -> Kept<D>
    ensures node { IsKeptNode D.Disk result }
    ensures faults { D.faults (end_of result).disk ≡ D.faults (end_of node).disk }
{
    let mut disk = into_disk(node);
    disk.crash();
    Kept::Bare { disk }
}
