//! One event.

ghost use Rattle.std.specs.Prelude.{◌≡◌, ◌<◌, ◌^◌, OnOk, length};
ghost use Rattle.net_model.specs.Draining.{IsProper};
ghost use Rattle.net_machine.specs.AtEnds.{AllTell, counts_of};
ghost use Rattle.net_machine.specs.Counts.{Caused};
ghost use Rattle.net_machine.specs.Ends.{AllPackets};
ghost use Rattle.net_machine.specs.Events.{AllDone, Done};
ghost use Rattle.net_machine.specs.Index.{index_of};
ghost use Rattle.net_machine.specs.Parts.{IsSound, moment_of, state_of};
ghost use Rattle.net_machine.specs.Steppers.{Stepped, stepper};

use crate::connections::{connect, crash, cut, reopen};
use crate::drain::drain;
use crate::end::NetEnd;
use crate::fault::StepFault;
use crate::plan::Plan;
use crate::seat::Parts;
use crate::steps::{arrive, hear, send, write};
use crate::stop::stop;
use net_model::Event;
use std::alloc::Global;

/// What happens at an event.
pub fn happen<N: NetEnd>(
    alloc: Global,
    plan: &Plan<'_>,
    parts: &mut Parts<N>,
    event: &Event,
) -> Result<(), StepFault>
    requires packets { AllPackets plan.now.packets.now }
    requires index { plan.now.index ≡ index_of plan.now.graph }
    requires proper { IsProper plan.now.graph }
    requires nodes { length plan.now.graph.nodes < 2 ^ 8 }
    requires edges { length plan.now.graph.edges < 2 ^ 16 }
    requires sound { IsSound N.is_right plan.now.graph plan.now.packets.now (moment_of N.view parts.old) }
    ensures done { OnOk result (Done N.is_right plan.now.graph plan.now.packets.now event.now (AllTell N.tells_crash parts.old.seats)
        (moment_of N.view parts.old) (moment_of N.view parts.new)) }
    ensures told { OnOk result (AllTell N.tells_crash parts.old.seats → AllTell N.tells_crash parts.new.seats) }
    ensures steps { OnOk result (Stepped (stepper plan.now.graph plan.now.packets.now (state_of (moment_of N.view parts.old)) event.now)
        (counts_of N.steps parts.old.seats) (counts_of N.steps parts.new.seats)) }
    ensures faults { Caused (counts_of N.faults parts.old.seats) (counts_of N.faults parts.new.seats) result }
{
    match event {
        Event::Write { author, packet } => {
            write(plan, parts, *author, *packet)?;
            Ok(())
        }
        Event::Send { edge } => {
            let _sent = send(plan, parts, *edge)?;
            Ok(())
        }
        Event::Down { edge } => {
            let _came = arrive(plan, parts, *edge)?;
            Ok(())
        }
        Event::Up { edge } => {
            let _heard = hear(plan, parts, *edge)?;
            Ok(())
        }
        Event::Cut { edge } => {
            cut(alloc, plan, parts, *edge);
            Ok(())
        }
        Event::Connect { edge } => {
            connect(alloc, plan, parts, *edge)?;
            Ok(())
        }
        Event::Crash { node } => {
            crash(alloc, plan, parts, *node)?;
            Ok(())
        }
        Event::Reopen { node } => {
            reopen(plan, parts, *node);
            Ok(())
        }
        Event::Stop { calls, fill, inner } => {
            stop(alloc, plan, parts, *calls, *fill, *inner)?;
            Ok(())
        }
        Event::Drain => {
            drain(alloc, plan, parts)?;
            Ok(())
        }
    }
}

/// What happens at all events, in order.
pub fn happen_all<N: NetEnd>(
    alloc: Global,
    plan: &Plan<'_>,
    parts: &mut Parts<N>,
    events: &[Event],
) -> Result<(), StepFault>
    requires packets { AllPackets plan.now.packets.now }
    requires index { plan.now.index ≡ index_of plan.now.graph }
    requires proper { IsProper plan.now.graph }
    requires nodes { length plan.now.graph.nodes < 2 ^ 8 }
    requires edges { length plan.now.graph.edges < 2 ^ 16 }
    requires sound { IsSound N.is_right plan.now.graph plan.now.packets.now (moment_of N.view parts.old) }
    ensures done { OnOk result (AllDone N.is_right plan.now.graph plan.now.packets.now events.now (AllTell N.tells_crash parts.old.seats)
        (moment_of N.view parts.old) (moment_of N.view parts.new)) }
    ensures told { OnOk result (AllTell N.tells_crash parts.old.seats → AllTell N.tells_crash parts.new.seats) }
    ensures faults { Caused (counts_of N.faults parts.old.seats) (counts_of N.faults parts.new.seats) result }
{
    for at in 0..events.len() {
        let Some(event) = events.get(at) else {
            break;
        };
        match happen(alloc, plan, parts, event) {
            Ok(()) => {}
            Err(fault) => return Err(fault),
        }
    }
    Ok(())
}
