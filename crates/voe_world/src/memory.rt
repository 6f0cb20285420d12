//! A world in memory.

ghost use Rattle.std.specs.Prelude.{◌≡◌, ◌↔◌, ◌≤◌, Some, None, IfSome, refl, is_none};
ghost use Rattle.voe_disk.specs.Stops.{stops_of};
ghost use Rattle.voe_outside.specs.Causes.{count_after};
ghost use Rattle.voe_outside.specs.MemoryClock.{last_of};
ghost use Rattle.voe_world.specs.Parts.{IsFresh};

use crate::World;
use voe_disk::MemoryDisk;
use voe_outside::{
    Clock, Gate, Listener, MemoryClock, MemoryDialer, MemoryListener, MemorySink, MemorySource,
};
use voe_values::NoMemory;

/// A world whose parts are in memory, apart from its spawner and its gate, which may be any.
#[derive(Drop)]
pub struct MemoryWorld<Sp, Ga> {
    /// What is read.
    pub source: MemorySource,
    /// What is written to.
    pub sink: MemorySink,
    /// The disk, unless it is taken. It is not armed.
    pub disk: Option<MemoryDisk>,
    /// The clock that was put back last; each that is handed out is a copy of it.
    pub clock: MemoryClock,
    /// What dials.
    pub dialer: MemoryDialer,
    /// The authors' listener, unless it is handed out.
    pub authors: Option<MemoryListener>,
    /// The subscribers' listener, unless it is handed out.
    pub subscribers: Option<MemoryListener>,
    /// What starts jobs.
    pub spawner: Sp,
    /// The gate; each that is handed out shares its state.
    pub gate: Ga,
    /// How many links the listeners that were put back had handed out, up to 2^64 - 1.
    pub accepted: u64,
    /// How often the world has failed, up to 2^64 - 1.
    pub failed: u64,
    ghost unarmed: { (held : _) → disk ≡ Some held → stops_of held ≡ None },
}

impl<Sp, Ga: Gate + Drop + Send + 'static> World for MemoryWorld<Sp, Ga> {
    ghost use Rattle.voe_world.specs.MemoryWorld.{both_of, parts_of, WaitsAs};

    type So = MemorySource;

    type Si = MemorySink;

    type D = MemoryDisk;

    type C = MemoryClock;

    type Ga = Ga;

    type Di = MemoryDialer;

    type Li = MemoryListener;

    type Sp = Sp;

    ghost parts = { parts_of };

    ghost with_source = { λ w s. record w { source = s } };

    ghost with_sink = { λ w s. record w { sink = s } };

    ghost with_dialer = { λ w d. record w { dialer = d } };

    ghost with_spawner = { λ w s. record w { spawner = s } };

    ghost source_put = { λ w s. refl };

    ghost sink_put = { λ w s. refl };

    ghost dialer_put = { λ w d. refl };

    ghost spawner_put = { λ w s. refl };

    ghost disk_unarmed = { λ w disk is. w.unarmed disk is };

    fn source(&mut self) -> &mut MemorySource {
        &mut self.source
    }

    fn sink(&mut self) -> &mut MemorySink {
        &mut self.sink
    }

    fn take_disk(&mut self) -> Option<MemoryDisk> {
        self.disk.take()
    }

    fn put_disk(&mut self, disk: MemoryDisk) {
        self.disk = Some(disk);
    }

    fn clock(&mut self) -> MemoryClock
        ensures moment { last_of result ≡ (parts_of self.old).moment }
        ensures parts { parts_of self.new ≡ parts_of self.old }

        // It goes on as the world's does.
        ensures same { result ≡ self.old.clock }
    {
        self.clock.again()
    }

    fn put_clock(&mut self, clock: MemoryClock)
        requires { (parts_of self.old).moment ≤ last_of clock }
        ensures parts { parts_of self.new ≡ record (parts_of self.old) { moment = last_of clock } }
        ensures set { self.new.clock ≡ clock }
    {
        self.clock = clock;
    }

    fn moment(&self) -> u64 {
        self.clock.last()
    }

    fn gate(&mut self) -> Result<Ga, NoMemory> {
        self.gate.another()
    }

    fn dialer(&mut self) -> &mut MemoryDialer {
        &mut self.dialer
    }

    fn listeners(
        &mut self,
        _authors: &str,
        _subscribers: &str,
    ) -> Option<(MemoryListener, MemoryListener)>
        ensures fresh { IfSome result (λ both.
            IsFresh (⟦<MemoryListener as Listener>⟧.fault_count both.0) (⟦<MemoryListener as Listener>⟧.idle_count both.0) (⟦<MemoryListener as Listener>⟧.accept_count both.0) (⟦<MemoryListener as Listener>⟧.returns both.0)
            × IsFresh (⟦<MemoryListener as Listener>⟧.fault_count both.1) (⟦<MemoryListener as Listener>⟧.idle_count both.1) (⟦<MemoryListener as Listener>⟧.accept_count both.1) (⟦<MemoryListener as Listener>⟧.returns both.1)) }
        ensures parts { parts_of self.new ≡ record (parts_of self.old) {
          listeners = (parts_of self.new).listeners;
          faults = count_after (parts_of self.old).faults (is_none result);
        } }

        // Both are handed out, each in its own place; or none, where one is gone, and they stay where they are.
        ensures gone { (result ≡ None) ↔ (both_of self.old.authors self.old.subscribers ≡ None) }
        ensures given { IfSome result (λ both. IfSome self.old.authors (λ had. WaitsAs had both.0) × IfSome self.old.subscribers (λ had. WaitsAs had both.1)) }
        ensures out { IfSome result (λ both. (self.new.authors ≡ None) × (self.new.subscribers ≡ None)) }
        ensures stay { result ≡ None → (self.new.authors ≡ self.old.authors) × (self.new.subscribers ≡ self.old.subscribers) }
    {
        match (self.authors.take(), self.subscribers.take()) {
            (Some(authors), Some(subscribers)) => { Some((authors.afresh(), subscribers.afresh())) }
            (authors, subscribers) => {
                self.authors = authors;
                self.subscribers = subscribers;
                self.failed = self.failed.saturating_add(1);
                None
            }
        }
    }

    fn put_listeners(&mut self, authors: MemoryListener, subscribers: MemoryListener) {
        let accepted = authors.accepted().saturating_add(subscribers.accepted());
        self.accepted = self.accepted.saturating_add(accepted);
        if authors.faults() > 0 || subscribers.faults() > 0 {
            self.failed = self.failed.saturating_add(1);
        }
        self.authors = Some(authors);
        self.subscribers = Some(subscribers);
    }

    fn accepted(&self) -> u64 {
        self.accepted
    }

    fn spawner(&mut self) -> &mut Sp {
        &mut self.spawner
    }

    fn rest(&mut self) {}

    fn faults(&self) -> u64 {
        self.failed
    }
}
