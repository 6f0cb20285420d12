//! What becomes of a packet that is to be submitted, and the line and the status that say so.

ghost use Rattle.std.specs.Prelude.{◌≡◌, IfOk};
ghost use Rattle.voevent_online.specs.Outcomes.{Concludes, ack_line, nak_line};

use crate::refusal::Refusal;
use crate::status::Status;
use crate::telling::{refuse, tell};
use std::alloc::Global;
use voe_values::{Bytes, NoMemory, Text};
use voe_world::World;

/// What became of a packet that was to be submitted.
#[derive(Drop)]
pub enum Outcome {
    /// Its acknowledgement stands in the journal.
    Acked,
    /// Its refusal stands in the journal. The reason is known where it came in this call, and had one.
    Nak { why: Option<Text> },
    /// Its identifier is known with another digest.
    Conflict,
    /// The author has no line.
    NoLine,
    /// The journal has no room for the packet, or for an answer.
    Full,
    /// The disk failed.
    DiskFault,
    /// There was no memory.
    NoMemory,
    /// The broker was not reached, or the link failed.
    LinkFault,
    /// The broker ended the session.
    Ended,
}

fn ack_line(alloc: Global, identifier: &[u8]) -> Result<Bytes, NoMemory>
    ensures { IfOk result (λ line. line ≡ ack_line identifier.now) }
{
    let mut line = Bytes::new(alloc);
    line.extend(b"ack ")?;
    line.extend(identifier)?;
    line.extend(b"\n")?;
    Ok(line)
}

fn nak_line(alloc: Global, why: Option<Text>) -> Result<Bytes, NoMemory>
    ensures { IfOk result (λ line. line ≡ nak_line why) }
{
    let mut line = Bytes::new(alloc);
    line.extend(b"nak")?;
    if let Some(why) = why {
        line.extend(b" ")?;
        line.extend(why.as_str().as_bytes())?;
    }
    line.extend(b"\n")?;
    Ok(line)
}

/// Writes the line that says what became of the packet, where there is one, and answers the status.
pub(crate) fn conclude<W: World>(
    alloc: Global,
    world: &mut W,
    identifier: &[u8],
    outcome: Outcome,
) -> Status
    ensures parts { W.parts world.new ≡ record (W.parts world.old) { sink = (W.parts world.new).sink } }
    ensures answer { Concludes W.Si.Sink identifier.now outcome result (W.parts world.old).sink (W.parts world.new).sink }
{
    match outcome {
        Outcome::Acked => match ack_line(alloc, identifier) {
            Ok(line) => tell(world, line.as_slice(), Status::Done),
            Err(NoMemory) => Status::NoMemory,
        },
        Outcome::Nak { why } => match nak_line(alloc, why) {
            Ok(line) => tell(world, line.as_slice(), Status::Refused),
            Err(NoMemory) => Status::NoMemory,
        },
        Outcome::Conflict => refuse(alloc, world, Refusal::Conflict),
        Outcome::NoLine => refuse(alloc, world, Refusal::BadNote { place: 16 }),
        Outcome::Full => Status::Full,
        Outcome::DiskFault => Status::DiskFault,
        Outcome::NoMemory => Status::NoMemory,
        Outcome::LinkFault => Status::LinkFault,
        Outcome::Ended => Status::Ended,
    }
}
