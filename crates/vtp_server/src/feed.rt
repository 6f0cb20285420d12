//! A broker towards a subscriber.

ghost use Rattle.std.specs.Prelude.{◌≡◌, [], IfOk};

use crate::ask::BrokerAsk;
use crate::ended::Stop;
use crate::guest::GuestFilters;
use crate::sending::send;
use crate::side::{Next, Side};
use crate::speech::Speech;
use net_model::BrokerStep;
use std::alloc::Global;
use std::marker::Model;
use std::mem;
use voe_values::{EndName, Ivorn, Listing, NoMemory, Text};
use vtp_session::Act;

/// Who the peer of a feed is.
#[derive(Drop)]
pub enum Peer {
    /// It has not been given a place yet.
    Stranger,
    /// A guest with these filters.
    Guest { filters: GuestFilters },
    /// It has this session of this link.
    Linked { link: u16, session: u64 },
}

/// Gives a subscriber packets, at most `limit` of them unanswered. Contracts see the limit, whether a beat is owed, who the
/// peer is, which filters it sent last, from which place the next packet is asked for, and whether the last answer was that
/// there is nothing.
#[derive(Drop)]
pub struct Feed {
    alloc: Global,
    limit: usize,
    owes_beat: bool,
    peer: Peer,
    wanted: GuestFilters,
    from: usize,
    found_nothing: bool,
}

impl Model for Feed {
    ghost use Rattle.vtp_server.specs.FeedMemory.{FeedMemory};

    ghost Value = { FeedMemory };

    ghost view = { λ f. record { limit = f.limit; owes_beat = f.owes_beat; peer = f.peer; wanted = f.wanted; from = f.from; found_nothing = f.found_nothing } };
}

impl Feed {
    ghost use Rattle.vtp_server.specs.Fits.{Gives};
    ghost use Rattle.vtp_server.specs.FeedMemory.{first_memory, placed};
    ghost use Rattle.vtp_server.specs.FeedSide.{asks_by, asks_or_reads, becomes_guest, feed_after_answer, feed_goes_on, is_wanted};
    ghost use Rattle.vtp_server.specs.declared.side.Next.TheVariants as next;

    /// A feed whose peer is a stranger. It takes no memory.
    pub fn new(alloc: Global, limit: usize) -> Feed
        ensures { result ≡ first_memory limit }
    {
        Feed {
            alloc,
            limit,
            owes_beat: false,
            peer: Peer::Stranger,
            wanted: GuestFilters::none(alloc),
            from: 0,
            found_nothing: false,
        }
    }

    fn ask(&self) -> Result<BrokerAsk, NoMemory>
        ensures { IfOk result (λ ask. ask ≡ asks_by self.now.peer self.now.from) }
    {
        match &self.peer {
            Peer::Stranger => Ok(BrokerAsk::Live {
                after: usize::MAX,
                filters: GuestFilters::none(self.alloc),
            }),
            Peer::Guest { filters } => {
                let filters = filters.copy(self.alloc)?;
                Ok(BrokerAsk::Live {
                    after: self.from,
                    filters,
                })
            }
            Peer::Linked { link, session } => Ok(BrokerAsk::Next {
                link: *link,
                session: *session,
                after: self.from,
            }),
        }
    }

    fn ask_or_read(&self, waiting: usize) -> Result<Next<BrokerAsk, Stop>, NoMemory>
        ensures { IfOk result (λ n. n ≡ asks_or_reads self.now waiting) }
    {
        if self.found_nothing || waiting >= self.limit {
            return Ok(Next::Read);
        }
        let ask = self.ask()?;
        Ok(Next::Ask(ask))
    }

    fn go_on(&mut self, waiting: usize) -> Result<Next<BrokerAsk, Stop>, NoMemory>
        ensures { IfOk result (λ n. Gives (feed_goes_on self.old waiting) self.new n) }
    {
        if !self.owes_beat {
            return self.ask_or_read(waiting);
        }
        self.owes_beat = false;
        Ok(Next::Say(Speech::Alive))
    }

    fn take_answer(
        &mut self,
        identifier: Ivorn,
        ack: bool,
        waiting: usize,
    ) -> Result<Next<BrokerAsk, Stop>, NoMemory>
        ensures { IfOk result (λ n. Gives (feed_after_answer self.old self.old.peer identifier ack waiting) self.new n) }
    {
        match &self.peer {
            Peer::Linked { link, session } if ack => Ok(Next::Ask(BrokerAsk::Acked {
                link: *link,
                session: *session,
                identifier,
            })),
            _ => self.go_on(waiting),
        }
    }

    fn take_name(
        &mut self,
        name: EndName,
        filters: Listing<Text>,
    ) -> Result<Next<BrokerAsk, Stop>, NoMemory>
        ensures { IfOk result (λ n. Gives (is_wanted self.old name filters) self.new n) }
    {
        self.wanted = GuestFilters::read(self.alloc, filters)?;
        Ok(Next::Ask(BrokerAsk::Join { name }))
    }

    fn take_place(&mut self, peer: Peer, from: usize)
        ensures { self.new ≡ placed self.old peer from }
    {
        self.peer = peer;
        self.from = from;
        self.found_nothing = false;
    }

    fn take_guest(&mut self, after: usize)
        ensures { self.new ≡ placed (record self.old { wanted = [] }) (Peer.Guest self.old.wanted) after }
    {
        let filters = mem::replace(&mut self.wanted, GuestFilters::none(self.alloc));
        self.take_place(Peer::Guest { filters }, after);
    }

    fn find_nothing(&mut self, front: u64)
        ensures { self.new ≡ becomes_guest self.old self.old.peer front }
    {
        if let Peer::Stranger = &self.peer {
            self.peer = Peer::Guest {
                filters: GuestFilters::none(self.alloc),
            };
            self.from = front as usize;
        }
        self.found_nothing = true;
    }
}

impl Side<BrokerAsk, BrokerStep, Stop> for Feed {
    ghost use Rattle.vtp_server.specs.FeedSide.{feed_rules};
    ghost use Rattle.vtp_server.specs.Sendable.{IsSendable};

    ghost rules = { feed_rules };

    ghost takes = { λ reply. IsSendable reply };

    fn heard(
        &mut self,
        act: Act,
        beats: bool,
        waiting: usize,
    ) -> Result<Next<BrokerAsk, Stop>, NoMemory> {
        self.owes_beat = beats;
        self.found_nothing = false;
        match act {
            Act::Auth { name, filters } => self.take_name(name, filters),
            Act::Answer {
                identifier,
                ack,
                ..
            } => self.take_answer(identifier, ack, waiting),
            _ => self.go_on(waiting),
        }
    }

    fn answered(
        &mut self,
        reply: BrokerStep,
        front: u64,
        waiting: usize,
    ) -> Result<Next<BrokerAsk, Stop>, NoMemory> {
        match reply {
            BrokerStep::Joined { link, session } => {
                self.take_place(Peer::Linked { link, session }, 0);
                self.go_on(waiting)
            }
            BrokerStep::Guest { after } => {
                self.take_guest(after);
                self.go_on(waiting)
            }
            BrokerStep::Packet {
                at,
                identifier,
                packet,
            } => {
                self.from = at.saturating_add(1);
                send(self.alloc, &identifier, packet)
            }
            BrokerStep::Nothing => {
                self.find_nothing(front);
                self.go_on(waiting)
            }
            BrokerStep::Replaced { newer } => Ok(Next::Over(Stop::Replaced { newer })),
            BrokerStep::Down { faults, .. } => Ok(Next::Over(Stop::Down { faults })),
            BrokerStep::NoMemory => Ok(Next::Over(Stop::NoMemory)),
            BrokerStep::Answer { .. } | BrokerStep::Noted | BrokerStep::Passed | BrokerStep::Full =>
                self.go_on(waiting),
        }
    }

    fn written(&mut self, waiting: usize) -> Result<Next<BrokerAsk, Stop>, NoMemory> {
        self.go_on(waiting)
    }

    fn told(&mut self, waiting: usize) -> Result<Next<BrokerAsk, Stop>, NoMemory> {
        self.go_on(waiting)
    }
}
