//! The world of the program.

ghost use Rattle.std.specs.Prelude.{◌≡◌, ◌≤◌, None, Some, false, refl, IfOk};

use crate::clock::MachineClock;
use crate::{Bell, TcpDialer, TcpPeers};
use std::alloc::Global;
use std::fs::File;
use std::net::{Net, TcpListener, TcpStream};
use std::rt::Files;
use std::sync::Arc;
use std::thread;
use std::time::{Clock as SystemClock, Duration};
use voe_disk::FileDisk;
use voe_outside::{Clock, Listener, OpenGate, Sink, Source};
use voe_values::NoMemory;
use voe_world::World;

// For how many milliseconds the world rests where nothing has come.
const REST: u64 = 20;

/// A moment that a clock may answer, in milliseconds since 1970.
#[derive(Drop)]
pub struct Moment {
    /// The moment.
    pub at: u64,
    ghost in_range: { at ≤ 4102444799999 },
}

/// A world over TCP, the machine's clock and a file for a disk, with whatever source, sink and spawner. Its gates hold
/// nothing. It tells nothing of its listeners.
#[derive(Drop)]
pub struct RealWorld<R: Files<File = File> + Drop, So, Si, Sp> {
    rt: R,
    alloc: Global,
    // What links on which packets come in ring, and those on which packets go out hear.
    bell: Arc<Bell>,
    /// What is read.
    pub source: So,
    /// What is written to.
    pub sink: Si,
    /// The file of the journal, unless it is taken.
    pub disk: Option<FileDisk<R>>,
    /// What dials.
    pub dialer: TcpDialer<R>,
    /// What starts jobs.
    pub spawner: Sp,
    /// The last moment of the clock that was put back last; 0 before the first.
    pub moment: Moment,
    /// How many links the listeners that were put back had handed out, up to 2^64 - 1.
    pub accepted: u64,
    /// How often the world has failed, up to 2^64 - 1.
    pub failed: u64,
}

impl<R, So, Si, Sp> RealWorld<R, So, Si, Sp>
where
    R: Net<Listener = TcpListener, Stream = TcpStream>
        + Files<File = File>
        + SystemClock
        + Copy
        + Drop
        + Send
        + 'static,
    So: Drop,
    Si: Drop,
    Sp: Drop,
{
    /// A world with this source, this sink, this disk and this spawner, unless there is no memory for it or the machine
    /// refuses its bell.
    pub fn new(
        rt: R,
        alloc: Global,
        source: So,
        sink: Si,
        disk: FileDisk<R>,
        spawner: Sp,
    ) -> Result<Self, NoMemory>
        ensures parts { IfOk result (λ world. (world.source ≡ source) × (world.sink ≡ sink) × (world.disk ≡ Some disk) × (world.spawner ≡ spawner)) }
        ensures fresh { IfOk result (λ world. (world.moment.at ≡ 0) × (world.accepted ≡ 0) × (world.failed ≡ 0)) }
    {
        let Some(bell) = Bell::new(&rt) else {
            return Err(NoMemory);
        };
        let bell = Arc::new(alloc, bell)?;
        let dialer = TcpDialer::new(rt, alloc, Some(Arc::try_clone(&bell)?));
        Ok(RealWorld {
            rt,
            alloc,
            bell,
            source,
            sink,
            disk: Some(disk),
            dialer,
            spawner,
            moment: Moment { at: 0 },
            accepted: 0,
            failed: 0,
        })
    }
}

impl<R, So, Si, Sp> World for RealWorld<R, So, Si, Sp>
where
    R: Net<Listener = TcpListener, Stream = TcpStream>
        + Files<File = File>
        + SystemClock
        + Copy
        + Drop
        + Send
        + 'static,
    So: Source,
    Si: Sink,
{
    type So = So;

    type Si = Si;

    type D = FileDisk<R>;

    type C = MachineClock<R>;

    type Ga = OpenGate;

    type Di = TcpDialer<R>;

    type Li = TcpPeers<R>;

    type Sp = Sp;

    ghost parts = { λ w. record {
      source = w.source;
      sink = w.sink;
      disk = w.disk;
      moment = w.moment.at;
      dialer = w.dialer;
      tells = false;
      listeners = None;
      accepted = w.accepted;
      spawner = w.spawner;
      faults = w.failed;
    } };

    ghost with_source = { λ w s. record w { source = s } };

    ghost with_sink = { λ w s. record w { sink = s } };

    ghost with_dialer = { λ w d. record w { dialer = d } };

    ghost with_spawner = { λ w s. record w { spawner = s } };

    ghost source_put = { λ w s. refl };

    ghost sink_put = { λ w s. refl };

    ghost dialer_put = { λ w d. refl };

    ghost spawner_put = { λ w s. refl };

    ghost disk_unarmed = { λ w disk is. refl };

    fn source(&mut self) -> &mut So {
        &mut self.source
    }

    fn sink(&mut self) -> &mut Si {
        &mut self.sink
    }

    fn take_disk(&mut self) -> Option<FileDisk<R>> {
        self.disk.take()
    }

    fn put_disk(&mut self, disk: FileDisk<R>) {
        self.disk = Some(disk);
    }

    fn clock(&mut self) -> MachineClock<R> {
        MachineClock::starting_at(self.rt, self.moment.at)
    }

    fn put_clock(&mut self, clock: MachineClock<R>) {
        self.moment = Moment { at: clock.last() };
    }

    fn moment(&self) -> u64 {
        self.moment.at
    }

    fn gate(&mut self) -> Result<OpenGate, NoMemory> {
        Ok(OpenGate)
    }

    fn dialer(&mut self) -> &mut TcpDialer<R> {
        &mut self.dialer
    }

    fn listeners(
        &mut self,
        authors: &str,
        subscribers: &str,
    ) -> Option<(TcpPeers<R>, TcpPeers<R>)> {
        match TcpPeers::pair(self.rt, self.alloc, authors, subscribers, &self.bell) {
            Ok(pair) => Some(pair),
            Err(_) => {
                self.failed = self.failed.saturating_add(1);
                None
            }
        }
    }

    fn put_listeners(&mut self, authors: TcpPeers<R>, subscribers: TcpPeers<R>) {
        let accepted = authors.accepted().saturating_add(subscribers.accepted());
        self.accepted = self.accepted.saturating_add(accepted);
        if authors.faults() > 0 || subscribers.faults() > 0 {
            self.failed = self.failed.saturating_add(1);
        }
    }

    fn accepted(&self) -> u64 {
        self.accepted
    }

    fn spawner(&mut self) -> &mut Sp {
        &mut self.spawner
    }

    fn rest(&mut self) {
        thread::sleep(&self.rt, Duration::from_millis(REST));
    }

    fn faults(&self) -> u64 {
        self.failed
    }
}
