//! The job of one connection.

ghost use Rattle.std.specs.Prelude.{◌≡◌, false};
ghost use Rattle.std.specs.Arc.{arc_value};
ghost use Rattle.voe_outside.specs.Traffic.{IsUnused};
ghost use Rattle.vtp_session.specs.declared.side.Side.TheVariants as side;
ghost use Rattle.broker_run.specs.Doors.{side_of};
ghost use Rattle.broker_run.specs.Talks.{WasTalk, has_lacked};

use crate::guest::SpentGuest;
use crate::link::{Back, Door, Fresh, SpentLine};
use broker_end::BrokerEnd;
use crossbeam_channel::Sender;
use hub_lock::{Hub, Seat};
use std::alloc::Global;
use std::sync::{Arc, Wait};
use voe_disk::Disk;
use voe_outside::{Clock, Gate, Job, Link};
use voe_values::EndName;
use vtp_server::{Ended, follow_upstream, serve_author, serve_subscriber};
use vtp_session::Timers;

/// What a connection needs beside its link: a seat at the hub that all share, and a clock and a gate of its own.
#[derive(Drop)]
pub struct Post<H, D: Disk, C, G> {
    pub rt: H,
    pub alloc: Global,
    pub hub: Arc<Hub<BrokerEnd<D>>, Global>,
    pub seat: Seat,
    pub clock: C,
    pub gate: G,
    /// The number of the connection, in the order in which they were started.
    pub call: u32,
    pub name: Arc<EndName, Global>,
    pub timers: Timers,
    ghost tied: { seat.hub ≡ arc_value hub },
}

impl<H: Wait, D: Disk, C: Clock, G: Gate> Post<H, D, C, G> {
    /// Serves an accepted connection to its end.
    fn meet<L: Link>(&mut self, door: Door, link: &mut L) -> Ended
        ensures { IsUnused (L.fault_count link.old) (L.idle_count link.old) (L.end_count link.old) (L.traffic link.old) → has_lacked result ≡ false → WasTalk (side_of door) L.Link link.new }
    {
        match door {
            Door::Authors => serve_author(
                &self.rt,
                self.alloc,
                &self.hub,
                &mut self.seat,
                link,
                &mut self.clock,
                &self.gate,
                self.call,
                &self.name,
                self.timers,
            ),
            Door::Subscribers => serve_subscriber(
                &self.rt,
                self.alloc,
                &self.hub,
                &mut self.seat,
                link,
                &mut self.clock,
                &self.gate,
                self.call,
                &self.name,
                self.timers,
            ),
        }
    }

    /// Serves whoever came to this door over a fresh link, and gives the link back with how that ended.
    pub fn serve<L: Link>(&mut self, door: Door, fresh: Fresh<L>) -> SpentGuest<L> {
        let Fresh { mut link } = fresh;
        let ended = self.meet(door, &mut link);
        SpentGuest::of(link, door, ended)
    }

    /// Follows an upstream broker to the connection's end.
    fn heed<L: Link>(&mut self, link: &mut L) -> Ended
        ensures { IsUnused (L.fault_count link.old) (L.idle_count link.old) (L.end_count link.old) (L.traffic link.old) → has_lacked result ≡ false → WasTalk side.Take L.Link link.new }
    {
        follow_upstream(
            &self.rt,
            self.alloc,
            &self.hub,
            &mut self.seat,
            link,
            &mut self.clock,
            &self.gate,
            self.call,
            &self.name,
            self.timers,
        )
    }

    /// Follows the upstream broker of this address over a fresh link, and gives the link back with how that ended.
    pub fn follow<L: Link>(&mut self, address: usize, fresh: Fresh<L>) -> SpentLine<L> {
        let Fresh { mut link } = fresh;
        let ended = self.heed(&mut link);
        SpentLine::of(link, address, ended)
    }
}

/// What a job is to do.
#[derive(Drop)]
pub enum Work<La: Link, Ld: Link> {
    Guest { door: Door, link: Fresh<La> },
    Line { address: usize, link: Fresh<Ld> },
}

/// The job of one connection, which hands its link back at the end.
#[derive(Drop)]
pub struct Connection<H, D: Disk, C, G, La: Link, Ld: Link> {
    pub post: Post<H, D, C, G>,
    pub work: Work<La, Ld>,
    pub back: Sender<Back<La, Ld>>,
}

impl<
    H: Wait + Drop,
    D: Disk + Drop,
    C: Clock + Drop,
    G: Gate + Drop,
    La: Link + Drop,
    Ld: Link + Drop,
> Job for Connection<H, D, C, G, La, Ld> {
    fn run(self) {
        let Connection {
            mut post,
            work,
            back,
        } = self;
        let spent = match work {
            Work::Guest { door, link } => Back::Guest(post.serve(door, link)),
            Work::Line { address, link } => Back::Line(post.follow(address, link)),
        };
        let _ = back.send(&post.rt, spent);
    }
}
