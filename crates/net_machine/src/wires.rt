//! What is under way on an edge.

ghost use Rattle.net_machine.specs.Wires.{HasNoAnswer, HasNoPacket, IsAnswerOff, IsTakenOff};
ghost use Rattle.std.specs.Prelude.{slice_get, ◌≡◌, ◌∷◌, ◌++◌, ◌+◌, ◌<◌, ◌^◌, [], MatchOption, OnOk};
ghost use Rattle.net_model.specs.Flights.{with_packet, without_answer};

use net_model::{Verdict, Wire};
use voe_values::{Bytes, Listing, NoMemory};

/// A packet goes into flight.
pub fn put_packet(wire: &mut Wire, place: usize, packet: Bytes) -> Result<(), NoMemory>
    requires { wire.old.unanswered + 1 < 2 ^ 64 }
    ensures { OnOk result (wire.new ≡ with_packet wire.old place packet) }
{
    if let Err((_, refused)) = wire.down.push(packet) {
        return Err(refused);
    }
    if let Err((_, refused)) = wire.sent.push(place) {
        return Err(refused);
    }
    wire.unanswered += 1;
    Ok(())
}

/// An answer goes into flight.
pub fn put_answer(wire: &mut Wire, answer: Verdict) -> Result<(), NoMemory>
    ensures { OnOk result (wire.new ≡ record wire.old { up = wire.old.up ++ answer ∷ [] }) }
{
    match wire.up.push(answer) {
        Ok(()) => Ok(()),
        Err((_, refused)) => Err(refused),
    }
}

/// Takes the first answer that is in flight.
pub fn take_answer(wire: &mut Wire) -> Option<Verdict>
    ensures { MatchOption result ((wire.old.up ≡ []) × (wire.new ≡ wire.old))
        (λ answer. (wire.old.up ≡ answer ∷ wire.new.up) × (wire.new ≡ without_answer wire.old wire.new.up)) }
{
    let answer = wire.up.take_first()?;
    wire.unanswered = wire.unanswered.saturating_sub(1);
    Some(answer)
}

/// Takes the first packet that is in flight on this wire.
pub fn take_packet(wires: &mut Listing<Wire>, at: usize) -> Option<Bytes>
    ensures { MatchOption result ((wires.new ≡ wires.old) × HasNoPacket (slice_get wires.old at))
        (λ packet. IsTakenOff wires.old at packet wires.new) }
{
    let waits = match wires.get(at) {
        Some(wire) => !wire.down.is_empty(),
        None => false,
    };
    if !waits {
        return None;
    }
    wires.get_mut(at).down.take_first()
}

/// Takes the first answer that is in flight on this wire, with the session of the connection.
pub fn take_from(wires: &mut Listing<Wire>, at: usize) -> Option<(u64, Verdict)>
    ensures { MatchOption result ((wires.new ≡ wires.old) × HasNoAnswer (slice_get wires.old at))
        (λ taken. IsAnswerOff wires.old at taken.0 taken.1 wires.new) }
{
    let waits = match wires.get(at) {
        Some(wire) => !wire.up.is_empty(),
        None => false,
    };
    if !waits {
        return None;
    }
    let wire = wires.get_mut(at);
    let session = wire.session;
    let answer = take_answer(wire)?;
    Some((session, answer))
}
