//! The events that move packets and answers.

ghost use Rattle.std.specs.Prelude.{◌≡◌, ◌≢◌, ◌⊎◌, ◌↔◌, ℕ, IfNone, IfOk, IfSome, OnOk, None, Some, false, slice_get, unwrap_or};
ghost use Rattle.std.specs.Option.{option_copied};
ghost use Rattle.net_model.specs.Nodes.{is_author as is_author_kind};
ghost use Rattle.net_model.specs.Draining.{IsProper};
ghost use Rattle.net_model.specs.declared.scenario.Event.TheVariants.{Write, Send, Down, Up};
ghost use Rattle.net_machine.specs.AtEnds.{AllTell, counts_of};
ghost use Rattle.net_machine.specs.Counts.{Caused};
ghost use Rattle.net_machine.specs.Ends.{AllPackets};
ghost use Rattle.net_machine.specs.Index.{index_of};
ghost use Rattle.net_machine.specs.Parts.{Happened, IsReached, IsWhole, moment_of, state_of};
ghost use Rattle.net_machine.specs.Steppers.{Stepped, hearer, sender, taker as taker_over, writer};

use crate::at_ends::{next_at, perform_at, work_at};
use crate::end::NetEnd;
use crate::fault::StepFault;
use crate::plan::Plan;
use crate::seat::Parts;
use crate::wires::{put_answer, put_packet, take_from, take_packet};
use crate::work::Work;
use net_model::Edge;
use voe_values::{Bytes, Listing, NodeKind};

/// Tells whether the node is an author.
pub fn is_author(kind: Option<&NodeKind>) -> bool
    ensures { result ≡ is_author_kind (option_copied kind.entry) }
{
    match kind {
        Some(NodeKind::Author) => true,
        _ => false,
    }
}

/// The packet of this number.
pub fn packet_at(packets: &[Bytes], number: usize) -> Option<&Bytes>
    ensures { option_copied result ≡ slice_get packets.now number }
{
    packets.get(number)
}

/// The place from which an edge is to look; the first where none is kept.
fn place_of(places: &Listing<usize>, edge: usize) -> usize
    ensures { result ≡ unwrap_or (slice_get places.now edge) 0 }
{
    match places.get(edge) {
        Some(place) => *place,
        None => 0,
    }
}

/// An author that is up writes a packet.
pub fn write<N: NetEnd>(
    plan: &Plan<'_>,
    parts: &mut Parts<N>,
    author: u8,
    number: u16,
) -> Result<(), StepFault>
    requires packets { AllPackets plan.now.packets.now }
    requires whole { IsWhole plan.now.graph plan.now.packets.now (moment_of N.view parts.old) }
    ensures happened { OnOk result (Happened N.is_right plan.now.graph plan.now.packets.now (Write author number) (moment_of N.view parts.old) (moment_of N.view parts.new)) }
    ensures told { OnOk result (AllTell N.tells_crash parts.old.seats → AllTell N.tells_crash parts.new.seats) }
    ensures steps { OnOk result (Stepped (writer plan.now.graph plan.now.packets.now (state_of (moment_of N.view parts.old)) author number)
        (counts_of N.steps parts.old.seats) (counts_of N.steps parts.new.seats)) }
    ensures faults { Caused (counts_of N.faults parts.old.seats) (counts_of N.faults parts.new.seats) result }
{
    let Some(packet) = packet_at(plan.packets, usize::from(number)) else {
        return Ok(());
    };
    let at = usize::from(author);
    let Some(seat) = parts.seats.get(at) else {
        return Ok(());
    };
    if !is_author(plan.graph.nodes.get(at)) {
        return Ok(());
    }
    if !seat.up {
        return Ok(());
    }
    let packet = packet.copy()?;
    work_at(&mut parts.seats, author, Work::Write { packet })?;
    Ok(())
}

/// A connected edge sends the next packet of its upper end while its window has room. Tells whether it did.
pub fn send<N: NetEnd>(plan: &Plan<'_>, parts: &mut Parts<N>, edge: u16) -> Result<bool, StepFault>
    requires index { plan.now.index ≡ index_of plan.now.graph }
    requires proper { IsProper plan.now.graph }
    requires whole { IsWhole plan.now.graph plan.now.packets.now (moment_of N.view parts.old) }
    requires reached { IsReached N.is_right plan.now.graph plan.now.packets.now (moment_of N.view parts.old) }
    ensures happened { OnOk result (Happened N.is_right plan.now.graph plan.now.packets.now (Send edge) (moment_of N.view parts.old) (moment_of N.view parts.new)) }
    ensures still { IfOk result (λ sent. sent ≡ false → state_of (moment_of N.view parts.new) ≡ state_of (moment_of N.view parts.old)) }
    ensures told { OnOk result (AllTell N.tells_crash parts.old.seats → AllTell N.tells_crash parts.new.seats) }
    ensures steps { OnOk result (Stepped (sender plan.now.graph (slice_get plan.now.graph.edges edge) (slice_get parts.old.wires edge))
        (counts_of N.steps parts.old.seats) (counts_of N.steps parts.new.seats)) }
    ensures faults { Caused (counts_of N.faults parts.old.seats) (counts_of N.faults parts.new.seats) result }
{
    let at = usize::from(edge);
    let Some(found) = plan.graph.edges.get(at) else {
        return Ok(false);
    };
    let Some(wire) = parts.wires.get(at) else {
        return Ok(false);
    };
    if !wire.connected {
        return Ok(false);
    }
    if wire.unanswered >= usize::from(plan.graph.window) {
        return Ok(false);
    }
    let session = wire.session;
    let number = plan.index.number(&plan.graph, at);
    let after = place_of(&parts.places, at);
    let next = next_at(&mut parts.seats, found.upper, number, session, after)?;
    let Some((place, packet)) = next else {
        return Ok(false);
    };
    put_packet(parts.wires.get_mut(at), place, packet)?;
    let _ = parts.places.replace(at, place + 1);
    Ok(true)
}

/// The first packet in flight reaches the lower end, whose answer goes into flight. Tells whether there was one.
pub fn arrive<N: NetEnd>(
    plan: &Plan<'_>,
    parts: &mut Parts<N>,
    edge: u16,
) -> Result<bool, StepFault>
    requires packets { AllPackets plan.now.packets.now }
    requires proper { IsProper plan.now.graph }
    requires whole { IsWhole plan.now.graph plan.now.packets.now (moment_of N.view parts.old) }
    ensures happened { OnOk result (Happened N.is_right plan.now.graph plan.now.packets.now (Down edge) (moment_of N.view parts.old) (moment_of N.view parts.new)) }
    ensures still { IfOk result (λ came. came ≡ false → state_of (moment_of N.view parts.new) ≡ state_of (moment_of N.view parts.old)) }
    ensures told { OnOk result (AllTell N.tells_crash parts.old.seats → AllTell N.tells_crash parts.new.seats) }
    ensures steps { OnOk result (Stepped (taker_over (slice_get plan.now.graph.edges edge) (slice_get parts.old.wires edge))
        (counts_of N.steps parts.old.seats) (counts_of N.steps parts.new.seats)) }
    ensures faults { Caused (counts_of N.faults parts.old.seats) (counts_of N.faults parts.new.seats) result }
{
    let at = usize::from(edge);
    let Some(found) = plan.graph.edges.get(at) else {
        return Ok(false);
    };
    let Some(packet) = take_packet(&mut parts.wires, at) else {
        return Ok(false);
    };
    let from_line = is_author(plan.graph.nodes.get(usize::from(found.upper)));
    let work = Work::Take { from_line, packet };
    let Some(verdict) = perform_at(&mut parts.seats, found.lower, work)? else {
        unreachable!();
    };
    put_answer(parts.wires.get_mut(at), verdict)?;
    Ok(true)
}

/// The first answer in flight reaches the upper end. Tells whether there was one.
pub fn hear<N: NetEnd>(plan: &Plan<'_>, parts: &mut Parts<N>, edge: u16) -> Result<bool, StepFault>
    requires index { plan.now.index ≡ index_of plan.now.graph }
    requires proper { IsProper plan.now.graph }
    requires whole { IsWhole plan.now.graph plan.now.packets.now (moment_of N.view parts.old) }
    ensures happened { OnOk result (Happened N.is_right plan.now.graph plan.now.packets.now (Up edge) (moment_of N.view parts.old) (moment_of N.view parts.new)) }
    ensures still { IfOk result (λ heard. heard ≡ false → state_of (moment_of N.view parts.new) ≡ state_of (moment_of N.view parts.old)) }
    ensures told { OnOk result (AllTell N.tells_crash parts.old.seats → AllTell N.tells_crash parts.new.seats) }
    ensures steps { OnOk result (Stepped (hearer plan.now.graph (slice_get plan.now.graph.edges edge) (slice_get parts.old.wires edge))
        (counts_of N.steps parts.old.seats) (counts_of N.steps parts.new.seats)) }
    ensures faults { Caused (counts_of N.faults parts.old.seats) (counts_of N.faults parts.new.seats) result }
{
    let at = usize::from(edge);
    let Some(found) = plan.graph.edges.get(at) else {
        return Ok(false);
    };
    let Some((session, answer)) = take_from(&mut parts.wires, at) else {
        return Ok(false);
    };
    let number = plan.index.number(&plan.graph, at);
    let work = Work::Hear {
        number,
        session,
        answer,
    };
    work_at(&mut parts.seats, found.upper, work)?;
    Ok(true)
}
