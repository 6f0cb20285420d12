//! What a node's end does about its work, on a disk that may be armed.

ghost use Rattle.std.specs.Prelude.{◌≡◌, ◌↔◌, IsTrue, None, Some};
ghost use Rattle.voe_disk.specs.declared.fail.DiskFail.{DiskFail};
ghost use Rattle.node_book.specs.Ends.{IsSound};
ghost use Rattle.net_machine.specs.Works.{IsFit};
ghost use Rattle.voe_net.specs.Kept.{HasKind, HasSessions, end_of};
ghost use Rattle.voe_net.specs.Nodes.{show};
ghost use Rattle.voe_net.specs.Worked.{HasWorked, kind_of};

use crate::author_work::author_works;
use crate::broker_work::broker_works;
use crate::kept::Kept;
use crate::subscriber_work::subscriber_works;
use net_machine::Work;
use net_model::Verdict;
use std::alloc::Global;
use voe_disk::CrashDisk;

/// What became of an end's work.
#[derive(Drop)]
pub enum Worked {
    /// It is done; a packet is answered.
    Answered { answer: Option<Verdict> },
    /// The disk has failed, or it was armed and has stopped, while the record was added.
    Fallen { stopped: bool },
    /// There was no memory, or the end was down before; nothing was done.
    NoMemory,
}

/// Does the work of an end, on a disk that may be armed.
pub fn work<D: CrashDisk>(alloc: Global, kept: &mut Kept<D>, work: Work) -> Worked
    requires kind { HasKind kept.old }
    requires fit { IsFit (show (Some (end_of kept.old))) work }
    ensures same_kind { kind_of kept.new ≡ kind_of kept.old }
    ensures kind { HasKind kept.new }
    ensures sessions { HasSessions kept.old → HasSessions kept.new }
    ensures was_up { (end_of kept.old).down ≡ None → HasWorked D.Disk work (end_of kept.old) (end_of kept.new) result }
    ensures was_down { (fail : DiskFail) → (end_of kept.old).down ≡ Some fail → (result ≡ Worked.NoMemory) × (kept.new ≡ kept.old) }
{
    if !is_up(kept) {
        return Worked::NoMemory;
    }
    match kept {
        Kept::Author { end } => author_works(alloc, end, work),
        Kept::Broker { end } => broker_works(alloc, end, work),
        Kept::Subscriber { end } => subscriber_works(end, work),
        Kept::Bare { .. } => unreachable!(),
    }
}

/// Whether the end is up.
pub fn is_up<D: CrashDisk>(kept: &Kept<D>) -> bool
    ensures up { IsTrue result ↔ ((end_of kept.now).down ≡ None) }
    ensures sound { (end_of kept.now).down ≡ None → IsSound D.Disk (end_of kept.now) }
{
    match kept {
        Kept::Author { end } => end.book().down().is_none(),
        Kept::Broker { end } => end.book().down().is_none(),
        Kept::Subscriber { end } => end.book().down().is_none(),
        Kept::Bare { .. } => false,
    }
}
