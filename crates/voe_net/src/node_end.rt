//! A node of the network: an end over a disk that can crash.

ghost use Rattle.std.specs.Prelude.{◌≡◌, ℕ, true, IfOk, IfErr, IfSome, IsSome, None, Some};
ghost use Rattle.std.specs.Option.{option_copied};
ghost use Rattle.voe_values.specs.declared.kind.NodeKind.TheVariants.{Author as AnAuthor, Broker as ABroker, Subscriber as ASubscriber};
ghost use Rattle.node_notes.specs.Forms.{is_config};

use crate::asking::{join, next};
use crate::crashing::crash;
use crate::holding::{is_new, note, notes, owed};
use crate::kept::Kept;
use crate::making::{author_of, broker_of, disk_of, make_kept, subscriber_of};
use crate::performing::perform;
use crate::stopping::stop;
use author_end::AuthorEnd;
use broker_end::BrokerEnd;
use net_machine::{EndFault, NetEnd, Work};
use net_model::{Note, Verdict};
use node_book::Config;
use std::alloc::Global;
use std::marker::Model;
use subscriber_end::SubscriberEnd;
use voe_disk::{CrashDisk, Disk};
use voe_values::{Bytes, NoMemory};

/// An author, a broker or a subscriber over its own disk, as the network steps it. Contracts see the end as its crate
/// does: its disk, configuration, records, sessions and steps. An end whose disk has failed shows no configuration; it is
/// only to be taken down.
#[derive(Drop)]
pub struct NodeEnd<D: CrashDisk> {
    alloc: Global,
    /// Nothing only while it is being loaded again.
    kept: Option<Kept<D>>,
}

impl<D: CrashDisk> Model for NodeEnd<D> {
    ghost use Rattle.std.specs.Prelude.{Option};
    ghost use Rattle.std.specs.Option.{option_map};
    ghost use Rattle.node_book.specs.Ends.{EndView};
    ghost use Rattle.voe_net.specs.Kept.{IsNode, end_of};

    ghost Value = { Option (EndView D) };

    ghost view = { λ n. option_map end_of n.kept };

    ghost invariant = { λ n. IsNode D.Disk n.kept };
}

impl<D: CrashDisk> NodeEnd<D> {
    ghost use Rattle.gate_journal.specs.Journal.{EachFile};
    ghost use Rattle.gate_journal.specs.Reading.{IsUnmade};
    ghost use Rattle.node_book.specs.Keeps.{Keeps};
    ghost use Rattle.path_filter.specs.Links.{AreReadable};
    ghost use Rattle.voe_net.specs.Nodes.{AreDistinct, IsBegun, IsNotBegun, TellsCrash, disk_in, faults_of, if_kind, names_of, show};

    /// A node on a disk that has no journal, up and without records; each link of a broker is in its first session. An
    /// `Err` hands the disk back, which is not armed.
    pub fn make(alloc: Global, disk: D, config: Config) -> Result<NodeEnd<D>, (D, EndFault)>
        requires form { is_config config ≡ true }
        requires filters { AreReadable config.links }
        requires names { AreDistinct (names_of config.links) }
        requires unmade { IfSome (D.reads disk) IsUnmade }
        requires unarmed { (D.arming disk).calls ≡ None }
        ensures ok { IfOk result (λ end. IsBegun D.Disk config disk end) }
        ensures err { IfErr result (λ e. IsNotBegun D.Disk disk e.0 e.1) }
    {
        let kept = make_kept(alloc, disk, config)?;
        Ok(NodeEnd {
            alloc,
            kept: Some(kept),
        })
    }

    /// The disk as it is, which is not armed. It keeps the configuration and the records that the end shows, and so does
    /// whatever a crash leaves of it, unless the disk has failed.
    pub fn into_disk(self) -> D
        ensures its { disk_in self ≡ Some result }
        ensures kept { is_config (show self).config ≡ true → EachFile D.Disk result (λ file. Keeps file (show self).config (show self).notes) }
        ensures unarmed { (D.arming result).calls ≡ None }
        ensures faults { D.faults result ≡ faults_of D.Disk self }
        ensures told { TellsCrash D.Disk self → (fill : ℕ) → IsSome (D.crash_image result fill) }
    {
        let NodeEnd { kept, .. } = self;
        disk_of(kept)
    }

    /// The author, if it is one whose disk has not failed.
    pub fn author(&self) -> Option<&AuthorEnd<D>>
        ensures { option_copied result ≡ if_kind AnAuthor self.now }
    {
        author_of(&self.kept)
    }

    /// The broker, if it is one whose disk has not failed.
    pub fn broker(&self) -> Option<&BrokerEnd<D>>
        ensures { option_copied result ≡ if_kind ABroker self.now }
    {
        broker_of(&self.kept)
    }

    /// The subscriber, if it is one whose disk has not failed.
    pub fn subscriber(&self) -> Option<&SubscriberEnd<D>>
        ensures { option_copied result ≡ if_kind ASubscriber self.now }
    {
        subscriber_of(&self.kept)
    }
}

impl<D: CrashDisk> NetEnd for NodeEnd<D> {
    ghost use Rattle.voe_net.specs.Nodes.{TellsCrash, faults_of, steps_of, show};
    ghost use Rattle.voe_net.specs.Right.{IsRight};

    ghost view = { show };

    ghost steps = { steps_of };

    ghost faults = { faults_of D.Disk };

    ghost tells_crash = { TellsCrash D.Disk };

    ghost is_right = { IsRight };

    fn perform(&mut self, work: Work) -> Result<Option<Verdict>, EndFault> {
        perform(self.alloc, &mut self.kept, work)
    }

    fn next(
        &mut self,
        number: u16,
        session: u64,
        after: usize,
    ) -> Result<Option<(usize, Bytes)>, EndFault> {
        next(&mut self.kept, number, session, after)
    }

    fn join(&mut self, number: u16) -> Result<u64, EndFault> {
        join(&mut self.kept, number)
    }

    fn crash(&mut self) -> Result<(), EndFault> {
        crash(self.alloc, &mut self.kept)
    }

    fn stop(&mut self, calls: u8, fill: u8, work: Work) -> Result<(), EndFault> {
        stop(self.alloc, &mut self.kept, calls, fill, work)
    }

    fn is_new(&self, packet: &Bytes) -> Result<bool, NoMemory> {
        is_new(self.alloc, &self.kept, packet)
    }

    fn notes(&self) -> usize {
        notes(&self.kept)
    }

    fn note(&self, at: usize) -> Option<&Note> {
        note(&self.kept, at)
    }

    fn owed(&self) -> u128 {
        owed(&self.kept)
    }
}
