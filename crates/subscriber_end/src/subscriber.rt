//! The end of a subscriber.

ghost use Rattle.std.specs.Prelude.{◌≡◌, ◌⊎◌, true, [], IfOk, IfErr, None, Some};
ghost use Rattle.voe_disk.specs.declared.fail.DiskFail.{DiskFail as HowFailed};
ghost use Rattle.voe_values.specs.declared.kind.NodeKind.TheVariants.{Subscriber};
ghost use Rattle.gate_journal.specs.Device.{IsSameDisk};
ghost use Rattle.net_model.specs.Rules.{NodeRules};
ghost use Rattle.node_notes.specs.Forms.{is_config};
ghost use Rattle.path_filter.specs.Links.{AreReadable, HasRefused};

use crate::entering::take;
use crate::event::SubscriberEvent;
use net_model::SubscriberStep;
use node_book::{Book, BookFault, Config, EndBook};
use path_filter::{LinkFault, check_filters};
use std::alloc::Global;
use std::marker::Model;
use voe_disk::{CrashDisk, Disk};
use voe_values::{Listing, NodeKind};

/// A subscriber's book on a disk that the end owns, and its steps. Contracts see the disk, the configuration, the notes,
/// the number of steps, and how the disk has failed, where the end is down.
#[derive(Drop)]
pub struct SubscriberEnd<D: Disk> {
    end: EndBook<D>,
}

impl<D: Disk> Model for SubscriberEnd<D> {
    ghost use Rattle.std.specs.Prelude.{◌≡◌};
    ghost use Rattle.voe_values.specs.declared.kind.NodeKind.TheVariants.{Subscriber};
    ghost use Rattle.node_book.specs.Ends.{EndView};

    ghost Value = { EndView D };

    ghost view = { λ e. e.end };

    ghost invariant = { λ e. e.end.config.kind ≡ Subscriber };
}

impl<D: Disk> SubscriberEnd<D> {
    ghost use Rattle.node_book.specs.Ends.{IsSound, after_step, book_of, is_stopped, one_more};
    ghost use Rattle.node_book.specs.EndMaking.{IsMade, IsNotMade, IsLoaded, IsNotLoaded};
    ghost use Rattle.node_book.specs.EndSteps.{Happens, IsUnchanged, KeepsRest, lacked_memory};
    ghost use Rattle.subscriber_end.specs.Subscriber.{AreRightFor, IsEvent, fate_of, outcome_of};

    /// A subscriber on a disk that has no journal, or one with no payload. An `Err` hands the disk back, as `Book::make`
    /// does.
    pub fn make(alloc: Global, disk: D, config: Config) -> Result<Self, (D, BookFault)>
        requires kind { config.kind ≡ Subscriber }
        requires form { is_config config ≡ true }
        requires filters { AreReadable config.links }
        ensures ok { IfOk result (λ end. (end.sessions ≡ []) × IsMade D.Disk config disk end) }
        ensures err { IfErr result (λ e. IsNotMade D.Disk config disk e.0 e.1) }
    {
        let end = EndBook::make(alloc, disk, config, Listing::new(alloc))?;
        Ok(SubscriberEnd { end })
    }

    /// The subscriber of a disk. An `Err` hands the disk back, as `Book::load` does, with `BadNote` (G6) at place 16 where
    /// the configuration is of another kind, or has a filter that is refused.
    pub fn load(alloc: Global, disk: D) -> Result<Self, (D, BookFault)>
        ensures ok { IfOk result (λ end. (end.sessions ≡ []) × (end.config.kind ≡ Subscriber) × AreReadable end.config.links × IsLoaded D.Disk disk end) }
        ensures err { IfErr result (λ e. IsNotLoaded D.Disk (λ config. (config.kind ≡ Subscriber → ⊥) ⊎ HasRefused config.links) disk e.0 e.1) }
    {
        let end = EndBook::load(alloc, disk, NodeKind::Subscriber)?;
        match check_filters(alloc, end.book().config()) {
            Ok(()) => Ok(SubscriberEnd { end }),
            Err(LinkFault::Refused) => Err((end.into_disk(), BookFault::BadNote { place: 16 })),
            Err(LinkFault::NoMemory) => Err((end.into_disk(), BookFault::NoMemory)),
        }
    }

    /// The book.
    pub fn book(&self) -> &Book<D>
        ensures { result.now ≡ book_of self.now }
    {
        self.end.book()
    }

    /// How many steps this end has made since it was made or loaded, up to 2^64 - 1.
    pub fn steps(&self) -> u64
        ensures { result ≡ self.now.steps }
    {
        self.end.steps()
    }

    /// The disk as it is.
    pub fn into_disk(self) -> D
        ensures disk { result ≡ self.disk }
        ensures sound { IsSound D.Disk self }
    {
        self.end.into_disk()
    }

    /// Makes a step, up to 2^64 - 1 of which are counted. An end that is up answers what the network's step says and holds
    /// its record, or it goes down while the record is added, or there was no memory and nothing has changed. `Down` comes
    /// only where the disk's count rose or the disk stopped in this call, or where the end was down, with the same values.
    pub fn step(&mut self, event: SubscriberEvent) -> SubscriberStep
        requires { IsEvent event }

        ensures config { self.new.config ≡ self.old.config }
        ensures sessions { self.new.sessions ≡ self.old.sessions }
        ensures steps { self.new.steps ≡ one_more self.old.steps }
        ensures same_disk { IsSameDisk D.Disk self.old.disk self.new.disk }
        ensures sound { IsSound D.Disk self.new }

        // An end that is down stays so, and answers the same.
        ensures was_down { (fail : HowFailed) → self.old.down ≡ Some fail
            → (result ≡ SubscriberStep.Down (D.faults self.old.disk) (is_stopped fail)) × (self.new ≡ after_step self.old) }

        // What an end that is up does, by any rules that are right for it and the event; and there are such rules.
        ensures happens { self.old.down ≡ None → (rules : NodeRules) → AreRightFor self.old.config event rules
            → Happens D.Disk self.old self.new (outcome_of rules self.old.notes event) result (fate_of result) }
        ensures rules { self.old.down ≡ None → (fate_of result ≡ lacked_memory) ⊎ ((rules : NodeRules) × AreRightFor self.old.config event rules) }
        ensures no_memory { fate_of result ≡ lacked_memory → IsUnchanged D.Disk self.old self.new }
    {
        if let Some(fallen) = self.end.begin() {
            return SubscriberStep::Down {
                faults: fallen.faults,
                stopped: fallen.stopped,
            };
        }
        let packet = event.into_packet();
        take(&mut self.end, packet)
    }
}

impl<D: CrashDisk> SubscriberEnd<D> {
    ghost use Rattle.node_book.specs.EndMaking.{IsArmed};

    /// Arms the disk, as `CrashDisk::arm` does. All else stays.
    pub fn arm(&mut self, calls: u8, fill: u8)
        ensures { IsArmed D.Disk self.old self.new calls fill }
    {
        self.end.arm(calls, fill);
    }
}
