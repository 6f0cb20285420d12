//! The work of a node, as the network asks for it.

ghost use Rattle.std.specs.Prelude.{◌≡◌, Some};
ghost use Rattle.std.specs.Option.{option_map};
ghost use Rattle.net_machine.specs.Works.{IsFit};
ghost use Rattle.voe_net.specs.Kept.{IsNode, end_of};
ghost use Rattle.voe_net.specs.Nodes.{show};
ghost use Rattle.voe_net.specs.Performed.{HasPerformed};
ghost use Rattle.voe_net.specs.Told.{told_as};

use crate::kept::Kept;
use crate::working::{Worked, work as work_on};
use net_machine::{EndFault, Work};
use net_model::Verdict;
use std::alloc::Global;
use voe_disk::CrashDisk;

/// Does a node's work on a disk that is not armed, and gives the answer to a packet.
pub fn perform<D: CrashDisk>(
    alloc: Global,
    kept: &mut Option<Kept<D>>,
    work: Work,
) -> Result<Option<Verdict>, EndFault>
    requires node { IsNode D.Disk kept.old }
    requires fit { IsFit (show (option_map end_of kept.old)) work }
    ensures node { IsNode D.Disk kept.new }
    ensures performed { HasPerformed D.Disk work (option_map end_of kept.old) (option_map end_of kept.new) result }
{
    match kept {
        Some(kept) => perform_on(alloc, kept, work),
        None => unreachable!(),
    }
}

fn perform_on<D: CrashDisk>(
    alloc: Global,
    kept: &mut Kept<D>,
    work: Work,
) -> Result<Option<Verdict>, EndFault>
    requires node { IsNode D.Disk (Some kept.old) }
    requires fit { IsFit (show (Some (end_of kept.old))) work }
    ensures node { IsNode D.Disk (Some kept.new) }
    ensures performed { HasPerformed D.Disk work (Some (end_of kept.old)) (Some (end_of kept.new)) result }
{
    told(work_on(alloc, kept, work))
}

fn told(worked: Worked) -> Result<Option<Verdict>, EndFault>
    ensures { result ≡ told_as worked }
{
    match worked {
        Worked::Answered { answer } => Ok(answer),
        Worked::Fallen { .. } => Err(EndFault::Disk),
        Worked::NoMemory => Err(EndFault::NoMemory),
    }
}
