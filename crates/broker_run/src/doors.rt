//! The two listeners of a broker, with what they handed out and took back.

ghost use Rattle.std.specs.Prelude.{◌≡◌, ◌+◌, ◌<◌, ◌≤◌, false, OnErr, IsTrue, ◌↔◌};
ghost use Rattle.voe_world.specs.Parts.{IsFresh};
ghost use Rattle.broker_run.specs.Back.{TookTalks, taken_of};
ghost use Rattle.vtp_session.specs.declared.side.Side.TheVariants as side;

use crate::guest::SpentGuest;
use crate::link::{Door, Fresh, either};
use voe_outside::{Accepted, Listener};

/// The most connections that a broker accepts in a run.
pub const MOST_SESSIONS: u64 = 1_000_000;

/// A listener failed.
#[derive(Clone, Copy, Debug, PartialEq, Eq)]
pub struct DoorFault;

/// The listeners, how many links they handed out, and how many they took back. Unless a connection lacked memory, the
/// last link that each took back was that of an ended talk.
pub(crate) struct Doors<P: Listener> {
    pub(crate) authors: P,
    pub(crate) subscribers: P,
    /// How many links were handed out.
    pub(crate) guests: u64,
    pub(crate) authors_back: u64,
    pub(crate) subscribers_back: u64,
    /// There was no memory for some connection.
    pub(crate) lacked: bool,
    ghost counted: { P.accept_count authors + P.accept_count subscribers ≡ guests },
    ghost few: { guests ≤ 1_000_000 },
    ghost authors_talked: { lacked ≡ false → ∥ TookTalks side.Line P.L.Link authors_back (P.returns authors) ∥₁ },
    ghost subscribers_talked: { lacked ≡ false → ∥ TookTalks side.Feed P.L.Link subscribers_back (P.returns subscribers) ∥₁ },
}

impl<P: Listener> Doors<P> {
    /// The doors of listeners that have counted nothing yet.
    pub(crate) fn new(authors: P, subscribers: P) -> Self
        requires authors { IsFresh (P.fault_count authors) (P.idle_count authors) (P.accept_count authors) (P.returns authors) }
        requires subscribers { IsFresh (P.fault_count subscribers) (P.idle_count subscribers) (P.accept_count subscribers) (P.returns subscribers) }
        ensures guests { result.guests ≡ 0 }
    {
        Doors {
            authors,
            subscribers,
            guests: 0,
            authors_back: 0,
            subscribers_back: 0,
            lacked: false,
        }
    }

    /// Looks whether an author waits, and takes the link.
    pub(crate) fn accept_author(&mut self) -> Result<Option<Fresh<P::L>>, DoorFault>
        requires { self.old.guests < MOST_SESSIONS }
        ensures guests { self.new.guests ≡ self.old.guests + taken_of result }
        ensures fault { OnErr result (0 < P.fault_count self.new.authors + P.fault_count self.new.subscribers) }
    {
        match self.authors.accept() {
            Accepted::Link(link) => {
                self.guests += 1;
                Ok(Some(Fresh::of(link)))
            }
            Accepted::Idle => Ok(None),
            Accepted::Failed => Err(DoorFault),
        }
    }

    /// Looks whether a subscriber waits, and takes the link.
    pub(crate) fn accept_subscriber(&mut self) -> Result<Option<Fresh<P::L>>, DoorFault>
        requires { self.old.guests < MOST_SESSIONS }
        ensures guests { self.new.guests ≡ self.old.guests + taken_of result }
        ensures fault { OnErr result (0 < P.fault_count self.new.authors + P.fault_count self.new.subscribers) }
    {
        match self.subscribers.accept() {
            Accepted::Link(link) => {
                self.guests += 1;
                Ok(Some(Fresh::of(link)))
            }
            Accepted::Idle => Ok(None),
            Accepted::Failed => Err(DoorFault),
        }
    }

    /// Gives the link of a connection that has ended back to the listener that handed it out.
    pub(crate) fn take_back(&mut self, spent: SpentGuest<P::L>)
        ensures guests { self.new.guests ≡ self.old.guests }
    {
        match spent.door {
            Door::Authors => self.take_back_author(spent),
            Door::Subscribers => self.take_back_subscriber(spent),
        }
    }

    fn take_back_author(&mut self, spent: SpentGuest<P::L>)
        requires { spent.door ≡ Door.Authors }
        ensures guests { self.new.guests ≡ self.old.guests }
    {
        let SpentGuest {
            link,
            door: _,
            lacked,
        } = spent;
        self.authors.hang_up(link);
        self.authors_back = self.authors_back.saturating_add(1);
        self.lacked = either(self.lacked, lacked);
    }

    fn take_back_subscriber(&mut self, spent: SpentGuest<P::L>)
        requires { spent.door ≡ Door.Subscribers }
        ensures guests { self.new.guests ≡ self.old.guests }
    {
        let SpentGuest {
            link,
            door: _,
            lacked,
        } = spent;
        self.subscribers.hang_up(link);
        self.subscribers_back = self.subscribers_back.saturating_add(1);
        self.lacked = either(self.lacked, lacked);
    }

    /// Whether each link that was handed out was taken back.
    pub(crate) fn is_empty(&self) -> bool
        ensures { IsTrue result ↔ (self.now.authors_back + self.now.subscribers_back ≡ self.now.guests) }
    {
        u128::from(self.authors_back) + u128::from(self.subscribers_back) == u128::from(self.guests)
    }

    /// The listeners, the authors' one first.
    pub(crate) fn close(self) -> (P, P)
        ensures { result ≡ (self.authors, self.subscribers) }
    {
        let Doors {
            authors,
            subscribers,
            guests: _,
            authors_back: _,
            subscribers_back: _,
            lacked: _,
        } = self;
        (authors, subscribers)
    }
}
