//! The end of a broker.

ghost use Rattle.std.specs.Prelude.{◌≡◌, ◌⊎◌, ◌≤◌, true, Bool, List, ℕ, IfOk, IfErr, None, Some, length, map};
ghost use Rattle.voe_disk.specs.declared.fail.DiskFail.{DiskFail as HowFailed};
ghost use Rattle.voe_values.specs.declared.kind.NodeKind.TheVariants.{Broker};
ghost use Rattle.gate_journal.specs.Device.{IsSameDisk};
ghost use Rattle.net_model.specs.Rules.{NodeRules};
ghost use Rattle.net_model.specs.Steps.{last_of};
ghost use Rattle.node_notes.specs.Forms.{is_config};
ghost use Rattle.path_filter.specs.Links.{AreReadable, HasRefused};

use crate::event::BrokerEvent;
use crate::live::live;
use crate::sessions::{acked, join, next, no_sessions};
use crate::taking::take;
use net_model::BrokerStep;
use node_book::{Book, BookFault, Config, EndBook};
use path_filter::{LinkFault, LinkFilters};
use std::alloc::Global;
use std::marker::Model;
use voe_disk::{CrashDisk, Disk};
use voe_values::NodeKind;

/// A broker's book on a disk that the end owns, the filters of its links, the numbers of their last sessions, and its
/// steps. Contracts see the disk, the configuration, the notes, the sessions, the number of steps, and how the disk has
/// failed, where the end is down.
#[derive(Drop)]
pub struct BrokerEnd<D: Disk> {
    end: EndBook<D>,
    filters: LinkFilters,
}

impl<D: Disk> Model for BrokerEnd<D> {
    ghost use Rattle.node_book.specs.Ends.{EndView};
    ghost use Rattle.broker_end.specs.Inside.{IsBroker};

    ghost Value = { EndView D };

    ghost view = { λ e. e.end };

    ghost invariant = { λ e. IsBroker e.filters.sets e.end.config e.end.sessions };
}

impl<D: Disk> BrokerEnd<D> {
    ghost use Rattle.node_book.specs.Ends.{IsSound, after_step, book_of, is_stopped, one_more};
    ghost use Rattle.node_book.specs.EndMaking.{IsMade, IsNotMade, IsLoaded, IsNotLoaded};
    ghost use Rattle.node_book.specs.EndSteps.{Happens, IsUnchanged, lacked_memory};
    ghost use Rattle.broker_end.specs.Broker.{AreRightFor, HasRules, IsEvent, IsPlain, LeavesAll, fate_of, outcome_of, sessions_after};

    /// A broker on a disk that has no journal, or one with no payload; no session has begun. An `Err` hands the disk
    /// back, as `Book::make` does.
    pub fn make(alloc: Global, disk: D, config: Config) -> Result<Self, (D, BookFault)>
        requires kind { config.kind ≡ Broker }
        requires form { is_config config ≡ true }
        requires filters { AreReadable config.links }
        ensures ok { IfOk result (λ end. (end.sessions ≡ map (λ link. 0) config.links) × IsMade D.Disk config disk end) }
        ensures err { IfErr result (λ e. IsNotMade D.Disk config disk e.0 e.1) }
    {
        // The filters read, so that nothing but memory can be wanting.
        let Ok(filters) = LinkFilters::read(alloc, config.links.as_slice()) else {
            return Err((disk, BookFault::NoMemory));
        };
        let Ok(sessions) = no_sessions(alloc, config.links.as_slice()) else {
            return Err((disk, BookFault::NoMemory));
        };
        let end = EndBook::make(alloc, disk, config, sessions)?;
        Ok(BrokerEnd { end, filters })
    }

    /// The broker of a disk; no session has begun. An `Err` hands the disk back, as `Book::load` does, with `BadNote`
    /// (G6) at place 16 where the configuration is of another kind, or has a filter that is refused.
    pub fn load(alloc: Global, disk: D) -> Result<Self, (D, BookFault)>
        ensures ok { IfOk result (λ end. (end.sessions ≡ map (λ link. 0) end.config.links) × (end.config.kind ≡ Broker) × AreReadable end.config.links × IsLoaded D.Disk disk end) }
        ensures err { IfErr result (λ e. IsNotLoaded D.Disk (λ config. (config.kind ≡ Broker → ⊥) ⊎ HasRefused config.links) disk e.0 e.1) }
    {
        let end = EndBook::load(alloc, disk, NodeKind::Broker)?;
        let filters = match LinkFilters::read(alloc, end.book().config().links.as_slice()) {
            Ok(filters) => filters,
            Err(LinkFault::Refused) => {
                return Err((end.into_disk(), BookFault::BadNote { place: 16 }));
            }
            Err(LinkFault::NoMemory) => return Err((end.into_disk(), BookFault::NoMemory)),
        };
        match no_sessions(alloc, end.book().config().links.as_slice()) {
            Ok(sessions) => {
                let end = end.with_sessions(sessions);
                Ok(BrokerEnd { end, filters })
            }
            Err(_) => Err((end.into_disk(), BookFault::NoMemory)),
        }
    }

    /// The book.
    pub fn book(&self) -> &Book<D>
        ensures { result.now ≡ book_of self.now }
    {
        self.end.book()
    }

    /// The number of a link's last session, 0 before the first.
    pub fn last_session(&self, link: u16) -> u64
        ensures { result ≡ last_of self.now.sessions link }
    {
        self.end.last_session(link as usize)
    }

    /// How many steps this end has made since it was made or loaded, up to 2^64 - 1.
    pub fn steps(&self) -> u64
        ensures { result ≡ self.now.steps }
    {
        self.end.steps()
    }

    /// The disk as it is.
    pub fn into_disk(self) -> D
        ensures disk { result ≡ self.disk }
        ensures sound { IsSound D.Disk self }
    {
        let BrokerEnd { end, .. } = self;
        end.into_disk()
    }

    /// Makes a step, up to 2^64 - 1 of which are counted. An end that is up answers what the network's step says and holds
    /// its record, or it goes down while the record is added, or there was no memory and nothing has changed. `Down` comes
    /// only where the disk's count rose or the disk stopped in this call, or where the end was down, with the same values.
    pub fn step(&mut self, event: BrokerEvent) -> BrokerStep
        requires { IsEvent self.old.config self.old.sessions event }

        ensures config { self.new.config ≡ self.old.config }
        ensures sessions { self.old.down ≡ None → self.new.sessions ≡ sessions_after self.old.config self.old.notes self.old.sessions event }
        ensures steps { self.new.steps ≡ one_more self.old.steps }
        ensures same_disk { IsSameDisk D.Disk self.old.disk self.new.disk }
        ensures sound { IsSound D.Disk self.new }

        // An end that is down stays so, and answers the same.
        ensures was_down { (fail : HowFailed) → self.old.down ≡ Some fail
            → (result ≡ BrokerStep.Down (D.faults self.old.disk) (is_stopped fail)) × (self.new ≡ after_step self.old) }

        // What an end that is up does, by any rules that are right for it and the event; and there are such rules.
        ensures happens { self.old.down ≡ None → (rules : NodeRules) (shows : List ℕ → Bool) → AreRightFor self.old.config self.old.notes event rules shows
            → Happens D.Disk self.old self.new (outcome_of rules shows self.old.config self.old.notes self.old.sessions event) result (fate_of result) }
        ensures asks { self.old.down ≡ None → LeavesAll self.old self.new event }
        ensures plain { self.old.down ≡ None → IsPlain self.old.notes event result }
        ensures rules { self.old.down ≡ None → (fate_of result ≡ lacked_memory) ⊎ HasRules self.old.config self.old.notes event }
        ensures no_memory { fate_of result ≡ lacked_memory → IsUnchanged D.Disk self.old self.new × (self.new.sessions ≡ self.old.sessions) }
    {
        if let Some(fallen) = self.end.begin() {
            return BrokerStep::Down {
                faults: fallen.faults,
                stopped: fallen.stopped,
            };
        }
        match event {
            BrokerEvent::Packet { from, packet } => take(
                &mut self.end,
                &self.filters,
                from,
                packet,
            ),
            BrokerEvent::Join { name } => join(&mut self.end, &name),
            BrokerEvent::Next {
                link,
                session,
                after,
            } => next(&self.end, link, session, after),
            BrokerEvent::Acked {
                link,
                session,
                identifier,
            } => acked(&mut self.end, link, session, &identifier),
            BrokerEvent::Live { after, filters } => live(&self.end, after, &filters),
        }
    }
}

impl<D: CrashDisk> BrokerEnd<D> {
    ghost use Rattle.node_book.specs.EndMaking.{IsArmed};

    /// Arms the disk, as `CrashDisk::arm` does. All else stays.
    pub fn arm(&mut self, calls: u8, fill: u8)
        ensures { IsArmed D.Disk self.old self.new calls fill }
    {
        self.end.arm(calls, fill);
    }
}
