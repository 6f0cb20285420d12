//! Lines to the world's sink, and the status behind them.

ghost use Rattle.std.specs.Prelude.{◌≡◌};
ghost use Rattle.voevent_online.specs.Lines.{refusal_line, status_of_refusal};
ghost use Rattle.voevent_online.specs.Telling.{Tells};

use crate::outside::write;
use crate::refusal::Refusal;
use crate::status::Status;
use std::alloc::Global;
use voe_outside::WriteFault;
use voe_values::NoMemory;
use voe_world::World;

/// Writes a line and answers this status: 5 in its place where a write failed, and 7 where there was no room for the line.
pub(crate) fn tell<W: World>(world: &mut W, line: &[u8], then: Status) -> Status
    ensures parts { W.parts world.new ≡ record (W.parts world.old) { sink = (W.parts world.new).sink } }
    ensures told { Tells W.Si.Sink then line.now result (W.parts world.old).sink (W.parts world.new).sink }
{
    match write(world, line) {
        Ok(()) => then,
        Err(WriteFault::Failed) => Status::WriteFault,
        Err(WriteFault::NoMemory) => Status::NoMemory,
    }
}

/// Writes the line of a refusal and answers its status: 5 in its place where a write failed, and 7 where there was no memory.
pub(crate) fn refuse<W: World>(alloc: Global, world: &mut W, refusal: Refusal) -> Status
    ensures parts { W.parts world.new ≡ record (W.parts world.old) { sink = (W.parts world.new).sink } }
    ensures told { Tells W.Si.Sink (status_of_refusal refusal) (refusal_line refusal) result (W.parts world.old).sink (W.parts world.new).sink }
{
    match refusal.line(alloc) {
        Ok(line) => tell(world, line.as_slice(), refusal.status()),
        Err(NoMemory) => Status::NoMemory,
    }
}
