//! Where connections are started from.

ghost use Rattle.std.specs.Prelude.{◌≡◌, IfOk};
ghost use Rattle.std.specs.Arc.{arc_value};
ghost use Rattle.voe_outside.specs.Causes.{Rose};
ghost use Rattle.voe_world.specs.Parts.{added};
ghost use Rattle.broker_run.specs.Course.{HasBegun};

use crate::job::{Connection, Post, Work};
use crate::link::Back;
use broker_end::BrokerEnd;
use crossbeam_channel::{Receiver, Sender};
use hub_lock::{Hub, Seat};
use std::alloc::Global;
use std::snapshot::Snapshot;
use std::sync::{Arc, Wait};
use voe_disk::Disk;
use voe_outside::{Clock, Gate, Link, Spawner, Start};
use voe_values::{EndName, NoMemory};
use vtp_session::Timers;

// How many links may wait to be taken back. A job that finds no room waits.
const RETURNS: usize = 64;

/// What all connections share, and the channel on which their links come back.
#[derive(Drop)]
pub(crate) struct Desk<Sp, D: Disk, La: Link, Ld: Link> {
    pub(crate) first: Snapshot<Sp>,
    alloc: Global,
    hub: Arc<Hub<BrokerEnd<D>>, Global>,
    seat: Seat,
    name: Arc<EndName, Global>,
    timers: Timers,
    to_desk: Sender<Back<La, Ld>>,
    from_jobs: Receiver<Back<La, Ld>>,
    /// How many connections were started.
    pub(crate) started: u64,
    ghost tied: { seat.hub ≡ arc_value hub },
}

/// Whether a connection was started.
#[derive(Clone, Copy, Debug, PartialEq, Eq)]
pub(crate) enum Launched {
    Begun,
    SpawnFault,
    NoMemory,
}

impl<Sp, D: Disk, La: Link, Ld: Link> Desk<Sp, D, La, Ld> {
    /// Nothing is started yet.
    pub(crate) fn new(
        alloc: Global,
        spawner: &Sp,
        hub: Hub<BrokerEnd<D>>,
        seat: Seat,
        name: &EndName,
        timers: Timers,
    ) -> Result<Self, NoMemory>
    where
        D: Drop,
        La: Drop,
        Ld: Drop,
        requires { seat.hub ≡ hub }
        ensures first { IfOk result (λ desk. desk.first.value ≡ spawner.now) }
        ensures started { IfOk result (λ desk. desk.started ≡ 0) }
    {
        let hub = Arc::new(alloc, hub)?;
        let name = Arc::new(alloc, name.copy()?)?;
        let (to_desk, from_jobs) = crossbeam_channel::bounded(alloc, RETURNS)?;
        Ok(Desk {
            first: Snapshot::of(spawner),
            alloc,
            hub,
            seat,
            name,
            timers,
            to_desk,
            from_jobs,
            started: 0,
        })
    }

    /// A link that has come back, if there is one.
    pub(crate) fn look<R: Wait>(&self, rt: &R) -> Option<Back<La, Ld>>
    where
        La: Drop,
        Ld: Drop,
    {
        self.from_jobs.try_recv(rt).ok()
    }

    /// The next link that comes back.
    pub(crate) fn wait<R: Wait>(&self, rt: &R) -> Option<Back<La, Ld>>
    where
        La: Drop,
        Ld: Drop,
    {
        self.from_jobs.recv(rt).ok()
    }

    /// Starts a connection, with a seat of its own.
    pub(crate) fn launch<H: Wait + Clone + Drop + Send + 'static, C, G>(
        &mut self,
        rt: &H,
        spawner: &mut Sp,
        clock: C,
        gate: G,
        work: Work<La, Ld>,
    ) -> Launched
    where
        D: Drop + Send + 'static,
        C: Clock + Drop + Send + 'static,
        G: Gate + Drop + Send + 'static,
        La: Drop + Send + 'static,
        Ld: Drop + Send + 'static,
        Sp: Spawner<Connection<H, D, C, G, La, Ld>>,
        requires { HasBegun Sp.fault_count Sp.begin_count self.old.first.value spawner.old self.old.started }
        ensures first { self.new.first.value ≡ self.old.first.value }
        ensures begun { HasBegun Sp.fault_count Sp.begin_count self.new.first.value spawner.new self.new.started }
        ensures started { result ≡ Launched.Begun → self.new.started ≡ added self.old.started 1 }
        ensures fault { result ≡ Launched.SpawnFault → Rose (Sp.fault_count self.old.first.value) (Sp.fault_count spawner.new) }
    {
        let Ok(seat) = self.hub.split(&mut self.seat) else {
            return Launched::NoMemory;
        };
        let Ok(post) = self.post(rt, clock, gate, seat) else {
            return Launched::NoMemory;
        };
        let Ok(back) = self.to_desk.clone() else {
            return Launched::NoMemory;
        };
        match spawner.start(Connection { post, work, back }) {
            Start::Begun => {
                self.started = self.started.saturating_add(1);
                Launched::Begun
            }
            Start::Failed => Launched::SpawnFault,
        }
    }

    fn post<H: Clone, C, G>(
        &self,
        rt: &H,
        clock: C,
        gate: G,
        seat: Seat,
    ) -> Result<Post<H, D, C, G>, NoMemory>
    where
        C: Drop,
        G: Drop,
        H: Drop,
        D: Drop,
        requires { seat.hub ≡ arc_value self.now.hub }
    {
        Ok(Post {
            rt: rt.clone()?,
            alloc: self.alloc,
            hub: Arc::try_clone(&self.hub)?,
            seat,
            clock,
            gate,
            call: u32::try_from(self.started).unwrap_or(u32::MAX),
            name: Arc::try_clone(&self.name)?,
            timers: self.timers,
        })
    }
}
