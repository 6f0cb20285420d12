//! The command `submit`.

ghost use Rattle.std.specs.Prelude.{◌≡◌, ◌≤◌, ◌<◌, [], IsSome, None, false, length, true};
ghost use Rattle.voe_values.specs.declared.kind.NodeKind.TheVariants.{Author};
ghost use Rattle.net_model.specs.Notes.{is_open, knows};
ghost use Rattle.net_model.specs.declared.step.Judged.TheVariants.{Good};
ghost use Rattle.node_notes.specs.Tells.{AreInOrder};
ghost use Rattle.voe_validity.specs.Judging.{IsJudged};
ghost use Rattle.voe_world.specs.Parts.{Parts};
ghost use Rattle.voevent_online.specs.Packets.{IsGiven};
ghost use Rattle.voevent_online.specs.Submission.{Becomes, Settles, StandsAs};
ghost use Rattle.voevent_online.specs.Submitting.{SubmitTells};

use crate::loading::answer_unloaded;
use crate::outside::{put_back, take_disk};
use crate::status::Status;
use crate::submit_journal::{Writing, holds_other, is_acknowledged, write_packet};
use crate::submit_lines::{Outcome, conclude};
use crate::submit_packet::{Packet, Unready, read_packet};
use crate::submit_rounds::submit_until_answered;
use crate::telling::refuse;
use author_end::AuthorEnd;
use node_book::Book;
use std::alloc::Global;
use std::sync::Wait;
use voe_disk::Disk;
use voe_outside::Clock;
use voe_values::Bytes;
use voe_world::World;

/// The answer that stands in the journal to a packet of line 0.
fn standing_answer<D: Disk>(book: &Book<D>, identifier: &[u8]) -> Outcome
    requires kind { book.now.config.kind ≡ Author }
    requires order { AreInOrder book.now.config [] book.now.notes }
    requires known { knows book.now.notes identifier.now ≡ true }
    requires answered { is_open book.now.notes 0 identifier.now ≡ false }
    ensures { StandsAs result identifier.now book.now.notes }
{
    if is_acknowledged(book, identifier) {
        Outcome::Acked
    } else {
        Outcome::Nak { why: None }
    }
}

/// What becomes of a packet that the journal holds: the answer that stands there, or what the rounds bring.
fn settle<H: Wait, W: World>(
    rt: &H,
    alloc: Global,
    world: &mut W,
    end: &mut AuthorEnd<W::D>,
    clock: &mut W::C,
    address: &str,
    identifier: &[u8],
) -> Outcome
    requires kind { end.old.config.kind ≡ Author }
    requires line { 0 < length end.old.config.links }
    requires known { knows end.old.notes identifier.now ≡ true }
    requires order { AreInOrder end.old.config [] end.old.notes }
    ensures rest { W.parts world.new ≡ record (W.parts world.old) { dialer = (W.parts world.new).dialer } }
    ensures settles { Settles W.D.Disk W.Di.L.Link W.Di.returns W.Di.fault_count identifier.now result
        (record { end = end.old; moment = W.C.moment clock.old; dialer = (W.parts world.old).dialer })
        (record { end = end.new; moment = W.C.moment clock.new; dialer = (W.parts world.new).dialer }) }
{
    if end.book().is_open(0, identifier) {
        submit_until_answered(rt, alloc, world, end, clock, address, identifier)
    } else {
        standing_answer(end.book(), identifier)
    }
}

/// Writes the packet in the journal where it is new, and settles it.
fn enter<H: Wait, W: World>(
    rt: &H,
    alloc: Global,
    world: &mut W,
    end: &mut AuthorEnd<W::D>,
    clock: &mut W::C,
    address: &str,
    identifier: &[u8],
    packet: Bytes,
) -> Outcome
    requires kind { end.old.config.kind ≡ Author }
    requires up { end.old.down ≡ None }
    requires good { IsJudged packet (Good identifier.now) }
    requires few { length packet ≤ 1048576 }
    ensures rest { W.parts world.new ≡ record (W.parts world.old) { dialer = (W.parts world.new).dialer } }
    ensures becomes { Becomes W.D.Disk W.Di.L.Link W.Di.returns W.Di.fault_count identifier.now packet result
        (record { end = end.old; moment = W.C.moment clock.old; dialer = (W.parts world.old).dialer })
        (record { end = end.new; moment = W.C.moment clock.new; dialer = (W.parts world.new).dialer }) }
{
    if end.book().config().links.is_empty() {
        return Outcome::NoLine;
    }
    if holds_other(end.book(), identifier, packet.as_slice()) {
        return Outcome::Conflict;
    }
    match write_packet(end, packet) {
        Writing::Held => settle(rt, alloc, world, end, clock, address, identifier),
        Writing::Full => Outcome::Full,
        Writing::Down => Outcome::DiskFault,
        Writing::NoMemory => Outcome::NoMemory,
    }
}

/// The same with a clock of the world's.
fn enter_in_time<H: Wait, W: World>(
    rt: &H,
    alloc: Global,
    world: &mut W,
    end: &mut AuthorEnd<W::D>,
    address: &str,
    identifier: &[u8],
    packet: Bytes,
) -> Outcome
    requires kind { end.old.config.kind ≡ Author }
    requires up { end.old.down ≡ None }
    requires good { IsJudged packet (Good identifier.now) }
    requires few { length packet ≤ 1048576 }
    ensures rest { W.parts world.new ≡ record (W.parts world.old) {
      dialer = (W.parts world.new).dialer;
      moment = (W.parts world.new).moment;
    } }
    ensures becomes { Becomes W.D.Disk W.Di.L.Link W.Di.returns W.Di.fault_count identifier.now packet result
        (record { end = end.old; moment = (W.parts world.old).moment; dialer = (W.parts world.old).dialer })
        (record { end = end.new; moment = (W.parts world.new).moment; dialer = (W.parts world.new).dialer }) }
{
    let mut clock = world.clock();
    let outcome = enter(
        rt, alloc, world, end, &mut clock, address, identifier, packet,
    );
    world.put_clock(clock);
    outcome
}

/// Submits a good packet from the world's disk, and puts the disk back.
fn submit_packet<H: Wait, W: World>(
    rt: &H,
    alloc: Global,
    world: &mut W,
    address: &str,
    packet: Packet,
) -> Status
    requires disk { IsSome (W.parts world.old).disk }
    requires good { IsJudged packet.bytes (Good packet.identifier) }
    requires few { length packet.bytes ≤ 1048576 }
    ensures rest { W.parts world.new ≡ record (W.parts world.old) {
      sink = (W.parts world.new).sink;
      disk = (W.parts world.new).disk;
      dialer = (W.parts world.new).dialer;
      moment = (W.parts world.new).moment;
    } }
    ensures back { IsSome (W.parts world.new).disk }
    ensures tells { (first : Parts W.So W.Si W.D W.Di W.Li W.Sp) → W.parts world.old ≡ record first { source = (W.parts world.old).source }
        → IsGiven W.So.Source packet.identifier packet.bytes first.source (W.parts world.old).source
        → SubmitTells W.So.Source W.Si.Sink W.D.Disk W.Di.L.Link W.Di.returns W.Di.fault_count first (W.parts world.new) result }
{
    let Packet { identifier, bytes } = packet;
    let disk = take_disk(world);
    match AuthorEnd::load(alloc, disk) {
        Ok(mut end) => {
            let name = identifier.as_slice();
            let outcome = enter_in_time(rt, alloc, world, &mut end, address, name, bytes);
            put_back(world, end.into_disk());
            conclude(alloc, world, name, outcome)
        }
        Err((disk, fault)) => {
            put_back(world, disk);
            answer_unloaded(alloc, world, fault)
        }
    }
}

/// Submits the packet that the source gives on line 0 of the author whose journal the disk has, with a line `ack ID` or
/// `nak REASON`. 0: the acknowledgement stands in the journal; 3: its bytes, its identifier's other digest or the broker refuse
/// it; 4, 5, 6: the source, a line or the disk failed; 7: no memory; 8: what the disk holds is refused; 9: the journal has no
/// room; 10: the link failed, or nobody was reached; 11: the broker ended the session. The disk is put back at each.
pub fn submit<H: Wait, W: World>(rt: &H, alloc: Global, world: &mut W, address: &str) -> Status
    requires { IsSome (W.parts world.old).disk }
    ensures rest { W.parts world.new ≡ record (W.parts world.old) {
      source = (W.parts world.new).source;
      sink = (W.parts world.new).sink;
      disk = (W.parts world.new).disk;
      dialer = (W.parts world.new).dialer;
      moment = (W.parts world.new).moment;
    } }
    ensures back { IsSome (W.parts world.new).disk }
    ensures tells { SubmitTells W.So.Source W.Si.Sink W.D.Disk W.Di.L.Link W.Di.returns W.Di.fault_count (W.parts world.old) (W.parts world.new) result }
{
    match read_packet(alloc, world) {
        Ok(packet) => submit_packet(rt, alloc, world, address, packet),
        Err(Unready::Refused(refusal)) => refuse(alloc, world, refusal),
        Err(Unready::ReadFault) => Status::ReadFault,
        Err(Unready::NoMemory) => Status::NoMemory,
    }
}
