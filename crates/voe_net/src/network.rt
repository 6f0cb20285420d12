//! The network over disks as one value.

ghost use Rattle.std.specs.Prelude.{◌≡◌, ◌↔◌, ◌-◌, ◌<◌, ◌^◌, ℕ, IfErr, IfOk, IfSome, IsSome, OnErr, OnOk, false, length, map, min, true};
ghost use Rattle.voe_values.specs.declared.kind.NodeKind.TheVariants.{Author as AnAuthor, Broker as ABroker, Subscriber as ASubscriber};
ghost use Rattle.net_model.specs.Draining.{IsProper};
ghost use Rattle.net_model.specs.Rules.{Rules};
ghost use Rattle.net_model.specs.Runs.{beginning, happens, run};
ghost use Rattle.node_notes.specs.Forms.{is_config};
ghost use Rattle.path_filter.specs.Links.{AreReadable};
ghost use Rattle.net_machine.specs.Ends.{AllPackets};
ghost use Rattle.net_machine.specs.Events.{HappensEither, needs};
ghost use Rattle.net_machine.specs.Parts.{AreRight};
ghost use Rattle.net_machine.specs.Report.{report_of};
ghost use Rattle.net_machine.specs.Steppers.{Stepped, stepper};
ghost use Rattle.net_machine.specs.Summary.{counted_in, owed_in};
ghost use Rattle.net_machine.specs.declared.reporting.Sort.{Sort};
ghost use Rattle.voe_scenario.specs.Shapes.{config_of, shape};

use crate::disks::Disks;
use crate::fault::NetFault;
use crate::node_end::NodeEnd;
use crate::start::start;
use crate::take_back::give_back;
use author_end::AuthorEnd;
use broker_end::BrokerEnd;
use net_machine::{Machine, Summary};
use net_model::Event;
use std::alloc::Global;
use std::marker::Model;
use subscriber_end::SubscriberEnd;
use voe_disk::{CrashDisk, Disk};
use voe_scenario::Graph;
use voe_values::{Bytes, NoMemory, Text};

/// A network whose nodes keep their records on disks, stepped an event at a time. After a refused event its disks are only
/// to be taken back.
pub struct Network<'a, D: CrashDisk> {
    machine: Machine<'a, NodeEnd<D>>,
    /// Where the disks are put that are given back. Nothing lies there before.
    room: Vec<D>,
}

impl<'a, D: CrashDisk> Model for Network<'a, D> {
    ghost use Rattle.std.specs.Prelude.{vec_capacity};
    ghost use Rattle.voe_net.specs.Networks.{IsNetwork, NetworkView, network_of};

    ghost Value = { NetworkView D };

    ghost view = { λ n. network_of D.Disk n.machine };

    ghost invariant = { λ n. IsNetwork n.machine n.room.items (vec_capacity n.room) };
}

impl<'a, D: CrashDisk> Network<'a, D> {
    ghost use Rattle.voe_net.specs.Faults.{IsCaused};
    ghost use Rattle.voe_net.specs.Networks.{AllKeep, AreTheirDisks, IsEndOf, IsUpAs, TellsCrashes};
    ghost use Rattle.voe_net.specs.Right.{IsRight};
    ghost use Rattle.voe_net.specs.Starting.{AllBlank, AllTellImages, AreBack, AreConfigsOf, NoneArmed};

    /// The network at its beginning: a node on each disk, up and without records, each link of a broker in its first
    /// session. All disks are looked at before the first journal is made. An `Err` hands the disks back in their order:
    /// `AlreadyMade` exactly where one of them isn't blank, `Disk` where one failed.
    pub fn new(
        alloc: Global,
        graph: &Graph,
        packets: &'a [Bytes],
        disks: Disks<D>,
    ) -> Result<Network<'a, D>, (Disks<D>, NetFault)>
        requires proper { IsProper (shape graph.now) }
        requires nodes { length graph.now.nodes < 2 ^ 8 }
        requires edges { length graph.now.edges < 2 ^ 16 }
        requires configs { (node : ℕ) → node < length graph.now.nodes → is_config (config_of graph.now node) ≡ true }
        requires filters { (node : ℕ) → AreReadable (config_of graph.now node).links }
        requires packets { AllPackets packets.now }
        requires disks { length disks ≡ length graph.now.nodes }
        requires unarmed { NoneArmed D.Disk disks }
        ensures fixed { IfOk result (λ network. (network.graph ≡ shape graph.now) × (network.packets ≡ packets.now) × (network.failed ≡ false)) }
        ensures configs { IfOk result (λ network. AreConfigsOf graph.now network.configs) }
        ensures state { IfOk result (λ network. network.state ≡ beginning (shape graph.now)) }
        ensures blank { OnOk result (AllBlank D.Disk disks) }
        ensures told { IfOk result (λ network. AllTellImages D.Disk disks → TellsCrashes D.Disk network) }
        ensures counts { IfOk result (λ network. network.faults ≡ map D.faults disks) }
        ensures back { IfErr result (λ e. AreBack D.Disk disks e.0 e.1) }
    {
        let mut disks = disks.into_vec();
        match start(alloc, graph, packets, &mut disks) {
            Ok(machine) => Ok(Network {
                machine,
                room: disks,
            }),
            Err(fault) => Err((Disks::from_vec(disks), fault)),
        }
    }

    /// What happens at an event; one that doesn't fit changes nothing. After an `Err`, whose cause is the disk that it names
    /// or want of memory, the disks are only to be taken back.
    pub fn apply(&mut self, event: &Event) -> Result<(), NetFault>
        requires { self.old.failed ≡ false }
        ensures fixed { (self.new.graph ≡ self.old.graph) × (self.new.packets ≡ self.old.packets) }
        ensures configs { OnOk result (self.new.configs ≡ self.old.configs) }
        ensures works { OnOk result (self.new.failed ≡ false) }
        ensures failed { OnErr result (self.new.failed ≡ true) }

        // The state is the model's, by all rules that are right for the nodes; a stop's is so where the disks tell what a
        // crash leaves, and otherwise its record was kept or not.
        ensures exact { OnOk result (needs event.now (TellsCrashes D.Disk self.old) → (rules : Rules) → AreRight IsRight self.old.configs self.old.packets rules
            → self.new.state ≡ happens rules self.old.graph self.old.packets self.old.state event.now) }
        ensures either { OnOk result ((rules : Rules) → AreRight IsRight self.old.configs self.old.packets rules
            → HappensEither rules self.old.graph self.old.packets self.old.state event.now self.new.state) }

        ensures told { OnOk result (TellsCrashes D.Disk self.old → TellsCrashes D.Disk self.new) }
        ensures steps { OnOk result (Stepped (stepper self.old.graph self.old.packets self.old.state event.now) self.old.steps self.new.steps) }
        ensures faults { IsCaused self.old.faults self.new.faults result }
    {
        self.machine.apply(event)?;
        Ok(())
    }

    /// What happens at all events, in order. After an `Err`, whose cause is the disk that it names or want of memory, the
    /// disks are only to be taken back.
    pub fn apply_all(&mut self, events: &[Event]) -> Result<(), NetFault>
        requires { self.old.failed ≡ false }
        ensures fixed { (self.new.graph ≡ self.old.graph) × (self.new.packets ≡ self.old.packets) }
        ensures configs { OnOk result (self.new.configs ≡ self.old.configs) }
        ensures works { OnOk result (self.new.failed ≡ false) }
        ensures failed { OnErr result (self.new.failed ≡ true) }

        // Where the disks tell what a crash leaves, the state is that of the model's run, by all rules that are right for the
        // nodes.
        ensures exact { OnOk result (TellsCrashes D.Disk self.old → (rules : Rules) → AreRight IsRight self.old.configs self.old.packets rules
            → self.new.state ≡ run rules self.old.graph self.old.packets events.now self.old.state) }

        ensures told { OnOk result (TellsCrashes D.Disk self.old → TellsCrashes D.Disk self.new) }
        ensures faults { IsCaused self.old.faults self.new.faults result }
    {
        self.machine.apply_all(events)?;
        Ok(())
    }

    /// The report of all nodes, in order: of each a line, and a line for each identifier that it holds.
    pub fn report(&self) -> Result<Text, NoMemory>
        requires { self.now.failed ≡ false }
        ensures { IfOk result (λ text. text ≡ report_of self.now.graph self.now.state) }
    {
        self.machine.report()
    }

    /// The sums over all nodes. It takes no memory.
    pub fn summary(&self) -> Summary
        requires { self.now.failed ≡ false }
        ensures acked { result.acked ≡ min (counted_in Sort.Acked self.now.state.nodes) (2 ^ 64 - 1) }
        ensures entered { result.entered ≡ min (counted_in Sort.Enter self.now.state.nodes) (2 ^ 64 - 1) }
        ensures owed { result.owed ≡ min (owed_in self.now.graph 0 self.now.state.nodes) (2 ^ 64 - 1) }
    {
        self.machine.summary()
    }

    /// The author of this number that the network steps. Nothing comes exactly where there is no such node, it is no author,
    /// or it is down.
    pub fn author(&self, node: u8) -> Option<&AuthorEnd<D>>
        requires { self.now.failed ≡ false }
        ensures there { IsSome result ↔ IsUpAs AnAuthor self.now node }
        ensures shown { IfSome result (λ end. IsEndOf D.Disk self.now node end.now) }
    {
        let seat = self.machine.seat(node)?;
        if seat.up { seat.end.author() } else { None }
    }

    /// The broker of this number that the network steps. Nothing comes exactly where there is no such node, it is no broker,
    /// or it is down.
    pub fn broker(&self, node: u8) -> Option<&BrokerEnd<D>>
        requires { self.now.failed ≡ false }
        ensures there { IsSome result ↔ IsUpAs ABroker self.now node }
        ensures shown { IfSome result (λ end. IsEndOf D.Disk self.now node end.now) }
    {
        let seat = self.machine.seat(node)?;
        if seat.up { seat.end.broker() } else { None }
    }

    /// The subscriber of this number that the network steps. Nothing comes exactly where there is no such node, it is no
    /// subscriber, or it is down.
    pub fn subscriber(&self, node: u8) -> Option<&SubscriberEnd<D>>
        requires { self.now.failed ≡ false }
        ensures there { IsSome result ↔ IsUpAs ASubscriber self.now node }
        ensures shown { IfSome result (λ end. IsEndOf D.Disk self.now node end.now) }
    {
        let seat = self.machine.seat(node)?;
        if seat.up { seat.end.subscriber() } else { None }
    }

    /// The nodes' own disks, one for each node in order, none of them armed. Unless an event was refused, each keeps its node's
    /// configuration and records, and so does whatever a crash leaves of it.
    pub fn into_disks(self) -> Disks<D>
        ensures number { length result ≡ length self.entry.faults }
        ensures theirs { AreTheirDisks self.entry.seats result }
        ensures kept { self.entry.failed ≡ false → AllKeep D.Disk self.entry.configs self.entry.state result }
        ensures unarmed { NoneArmed D.Disk result }
        ensures counts { map D.faults result ≡ self.entry.faults }
        ensures told { TellsCrashes D.Disk self.entry → AllTellImages D.Disk result }
    {
        let Network { machine, mut room } = self;
        give_back(machine.into_seats(), &mut room);
        Disks::from_vec(room)
    }
}
