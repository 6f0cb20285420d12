//! What is answered where the disk's journal was not loaded.

ghost use Rattle.std.specs.Prelude.{◌≡◌};
ghost use Rattle.voevent_online.specs.Loading.{AnswersUnloaded, IsPossible, refusal_of_loading};

use crate::refusal::Refusal;
use crate::status::Status;
use crate::telling::refuse;
use node_book::BookFault;
use std::alloc::Global;
use voe_world::World;

/// The refusal of what the disk holds.
fn refusal_of(fault: BookFault) -> Option<Refusal>
    ensures { result ≡ refusal_of_loading fault }
{
    match fault {
        BookFault::Unmade => Some(Refusal::Unmade),
        BookFault::NotJournal { place } => Some(Refusal::Foreign { place }),
        BookFault::Damaged { place } => Some(Refusal::Damaged { place }),
        BookFault::BadNote { place } => Some(Refusal::BadNote { place }),
        _ => None,
    }
}

/// Writes the refusal's line where what the disk holds is refused, and answers why no end was loaded.
pub(crate) fn answer_unloaded<W: World>(alloc: Global, world: &mut W, fault: BookFault) -> Status
    requires { IsPossible fault }
    ensures parts { W.parts world.new ≡ record (W.parts world.old) { sink = (W.parts world.new).sink } }
    ensures answer { AnswersUnloaded W.Si.Sink fault result (W.parts world.old).sink (W.parts world.new).sink }
{
    match refusal_of(fault) {
        Some(refusal) => refuse(alloc, world, refusal),
        None => match fault {
            BookFault::DiskFault => Status::DiskFault,
            _ => Status::NoMemory,
        },
    }
}
