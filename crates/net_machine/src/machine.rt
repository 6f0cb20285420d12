//! The network as one value.

ghost use Rattle.std.specs.Prelude.{◌≡◌, ◌<◌, ◌^◌, ◌-◌, ℕ, IfErr, IfOk, OnErr, OnOk, Some, false, true, length, map, min, slice_get};
ghost use Rattle.std.specs.Option.{option_copied};
ghost use Rattle.net_model.specs.Draining.{IsProper};
ghost use Rattle.net_model.specs.Runs.{beginning, first_nodes};
ghost use Rattle.net_machine.specs.AtEnds.{AllTell, counts_of};
ghost use Rattle.net_machine.specs.Counts.{Caused};
ghost use Rattle.net_machine.specs.Ends.{AllPackets};
ghost use Rattle.net_machine.specs.Events.{AllDone, Done};
ghost use Rattle.net_machine.specs.Parts.{IsOwn, Slot, moment_of, node_of, slots_of, state_of};
ghost use Rattle.net_machine.specs.Report.{report_of};
ghost use Rattle.net_machine.specs.Steppers.{Stepped, stepper};
ghost use Rattle.net_machine.specs.Summary.{counted_in, owed_in};

use crate::end::NetEnd;
use crate::fault::StepFault;
use crate::happening::{happen, happen_all};
use crate::index::Index;
use crate::plan::Plan;
use crate::reporting::{Sort, report};
use crate::seat::{Parts, Seat};
use crate::starting::start;
use crate::summary::{Summary, sum_up};
use net_model::{Event, Graph};
use std::alloc::Global;
use std::marker::Model;
use voe_values::{Bytes, Listing, NoMemory, Text};

/// A network of ends over a graph, with the packets that its authors may write, stepped an event at a time. After a
/// refused event its ends are only to be taken back.
pub struct Machine<'a, N: NetEnd> {
    alloc: Global,
    plan: Plan<'a>,
    parts: Parts<N>,
    failed: bool,
}

impl<'a, N: NetEnd> Model for Machine<'a, N> {
    ghost use Rattle.net_machine.specs.Machine.{IsMachine, MachineView};

    ghost Value = { MachineView N };

    ghost view = { λ m. record { graph = m.plan.graph; packets = m.plan.packets.now; parts = m.parts; failed = m.failed } };

    ghost invariant = { λ m. IsMachine N.view N.is_right m.plan.graph m.plan.packets.now m.plan.index m.parts m.failed };
}

impl<'a, N: NetEnd> Machine<'a, N> {
    /// The network at its beginning, of nodes that are up without records, each link of a broker in its first session. An
    /// `Err` hands the nodes back.
    pub fn new(
        alloc: Global,
        graph: Graph,
        packets: &'a [Bytes],
        seats: Listing<Seat<N>>,
    ) -> Result<Machine<'a, N>, (Listing<Seat<N>>, NoMemory)>
        requires proper { IsProper graph }
        requires nodes { length graph.nodes < 2 ^ 8 }
        requires edges { length graph.edges < 2 ^ 16 }
        requires packets { AllPackets packets.now }
        requires own { (n : ℕ) (slot : Slot) → slice_get (slots_of N.view seats) n ≡ Some slot → IsOwn graph n slot.view.config }
        requires first { map node_of (slots_of N.view seats) ≡ first_nodes graph 0 graph.nodes }
        ensures fixed { IfOk result (λ machine. (machine.graph ≡ graph) × (machine.packets ≡ packets.now) × (machine.failed ≡ false)) }
        ensures seats { IfOk result (λ machine. machine.parts.seats ≡ seats) }
        ensures state { IfOk result (λ machine. state_of (moment_of N.view machine.parts) ≡ beginning graph) }
        ensures back { IfErr result (λ e. e.0 ≡ seats) }
    {
        let Ok(index) = Index::new(alloc, &graph) else {
            return Err((seats, NoMemory));
        };
        let plan = Plan {
            graph,
            packets,
            index,
        };
        let parts = start(alloc, &plan, seats)?;
        Ok(Machine {
            alloc,
            plan,
            parts,
            failed: false,
        })
    }

    /// What happens at an event. After an `Err` the ends are only to be taken back.
    pub fn apply(&mut self, event: &Event) -> Result<(), StepFault>
        requires { self.old.failed ≡ false }
        ensures fixed { (self.new.graph ≡ self.old.graph) × (self.new.packets ≡ self.old.packets) }
        ensures works { OnOk result (self.new.failed ≡ false) }
        ensures failed { OnErr result (self.new.failed ≡ true) }
        ensures done { OnOk result (Done N.is_right self.old.graph self.old.packets event.now (AllTell N.tells_crash self.old.parts.seats)
            (moment_of N.view self.old.parts) (moment_of N.view self.new.parts)) }
        ensures told { OnOk result (AllTell N.tells_crash self.old.parts.seats → AllTell N.tells_crash self.new.parts.seats) }
        ensures steps { OnOk result (Stepped (stepper self.old.graph self.old.packets (state_of (moment_of N.view self.old.parts)) event.now)
            (counts_of N.steps self.old.parts.seats) (counts_of N.steps self.new.parts.seats)) }
        ensures faults { Caused (counts_of N.faults self.old.parts.seats) (counts_of N.faults self.new.parts.seats) result }
    {
        match happen(self.alloc, &self.plan, &mut self.parts, event) {
            Ok(()) => Ok(()),
            Err(fault) => {
                self.failed = true;
                Err(fault)
            }
        }
    }

    /// What happens at all events, in order. After an `Err` the ends are only to be taken back.
    pub fn apply_all(&mut self, events: &[Event]) -> Result<(), StepFault>
        requires { self.old.failed ≡ false }
        ensures fixed { (self.new.graph ≡ self.old.graph) × (self.new.packets ≡ self.old.packets) }
        ensures works { OnOk result (self.new.failed ≡ false) }
        ensures failed { OnErr result (self.new.failed ≡ true) }
        ensures done { OnOk result (AllDone N.is_right self.old.graph self.old.packets events.now (AllTell N.tells_crash self.old.parts.seats)
            (moment_of N.view self.old.parts) (moment_of N.view self.new.parts)) }
        ensures told { OnOk result (AllTell N.tells_crash self.old.parts.seats → AllTell N.tells_crash self.new.parts.seats) }
        ensures faults { Caused (counts_of N.faults self.old.parts.seats) (counts_of N.faults self.new.parts.seats) result }
    {
        match happen_all(self.alloc, &self.plan, &mut self.parts, events) {
            Ok(()) => Ok(()),
            Err(fault) => {
                self.failed = true;
                Err(fault)
            }
        }
    }

    /// The report of all nodes, in order: of each a line, and a line for each identifier that it holds.
    pub fn report(&self) -> Result<Text, NoMemory>
        requires { self.now.failed ≡ false }
        ensures { IfOk result (λ text. text ≡ report_of self.now.graph (state_of (moment_of N.view self.now.parts))) }
    {
        report(self.alloc, &self.plan, &self.parts)
    }

    /// The sums over all nodes. It takes no memory.
    pub fn summary(&self) -> Summary
        requires { self.now.failed ≡ false }
        ensures acked { result.acked ≡ min (counted_in Sort.Acked (state_of (moment_of N.view self.now.parts)).nodes) (2 ^ 64 - 1) }
        ensures entered { result.entered ≡ min (counted_in Sort.Enter (state_of (moment_of N.view self.now.parts)).nodes) (2 ^ 64 - 1) }
        ensures owed { result.owed ≡ min (owed_in self.now.graph 0 (state_of (moment_of N.view self.now.parts)).nodes) (2 ^ 64 - 1) }
    {
        sum_up(&self.plan, &self.parts)
    }

    /// The node of this number, if there is one.
    pub fn seat(&self, node: u8) -> Option<&Seat<N>>
        ensures { option_copied result ≡ slice_get self.now.parts.seats node }
    {
        self.parts.seats.get(usize::from(node))
    }

    /// The nodes, taken back.
    pub fn into_seats(self) -> Listing<Seat<N>>
        ensures { result ≡ self.entry.parts.seats }
    {
        let Machine {
            alloc: _,
            plan: _,
            parts,
            failed: _,
        } = self;
        let Parts {
            seats,
            wires: _,
            places: _,
        } = parts;
        seats
    }
}
