//! What lies outside an end, and how each part of it is taken and given back.

ghost use Rattle.std.specs.Prelude.{◌≡◌, ◌≤◌, ◌+◌, Some, None, IfSome, is_none, nat_lt, if◌then◌else◌};
ghost use Rattle.std.specs.Borrow.{sem, Lends};
ghost use Rattle.voe_outside.specs.Causes.{count_after};
ghost use Rattle.voe_world.specs.Parts.{Parts, IsFresh, added};

use voe_disk::Disk;
use voe_outside::{Clock, Dialer, Gate, Listener, Sink, Source};
use voe_values::NoMemory;

/// The outside of a node. What a call does not speak of stays as it is; a part that is lent out is, once it is given
/// back, the only one that may have changed.
pub trait World {
    /// What is read.
    type So: Source;

    /// What is written to.
    type Si: Sink;

    /// The disk of the node's journal.
    type D: Disk + Drop + Send + 'static;

    /// A clock, of which each connection has its own.
    type C: Clock + Drop + Send + 'static;

    /// A gate, of which each connection has its own.
    type Ga: Gate + Drop + Send + 'static;

    /// What dials.
    type Di: Dialer;

    /// What listens.
    type Li: Listener + Drop;

    /// What starts jobs. Which jobs it starts, whoever starts them says.
    type Sp;

    /// The parts of the world.
    ghost parts: { Self → Parts Self.So Self.Si Self.D Self.Di Self.Li Self.Sp };

    /// The world with another source.
    ghost with_source: { Self → Self.So → Self };

    /// The world with another sink.
    ghost with_sink: { Self → Self.Si → Self };

    /// The world with another dialer.
    ghost with_dialer: { Self → Self.Di → Self };

    /// The world with another spawner.
    ghost with_spawner: { Self → Self.Sp → Self };

    /// Lends the source.
    fn source(&mut self) -> &mut Self::So
        ensures value { result.now ≡ (parts self.old).source }
        ensures* lends { sem 𝓛 (Lends Self.row Self.So.row self.entry result (with_source self.old)) };

    /// Lends the sink.
    fn sink(&mut self) -> &mut Self::Si
        ensures value { result.now ≡ (parts self.old).sink }
        ensures* lends { sem 𝓛 (Lends Self.row Self.Si.row self.entry result (with_sink self.old)) };

    /// Hands the disk over. `None` comes exactly where it is taken and not put back.
    fn take_disk(&mut self) -> Option<Self::D>
        ensures taken { result ≡ (parts self.old).disk }
        ensures unarmed { IfSome result (λ disk. (Self.D.arming disk).calls ≡ None) }
        ensures parts { parts self.new ≡ record (parts self.old) { disk = None } };

    /// Takes a disk, which is not armed, in place of the one that was taken.
    fn put_disk(&mut self, disk: Self::D)
        requires taken { (parts self.old).disk ≡ None }
        requires unarmed { (Self.D.arming disk).calls ≡ None }
        ensures parts { parts self.new ≡ record (parts self.old) { disk = Some disk } };

    /// A clock whose last moment is the world's.
    fn clock(&mut self) -> Self::C
        ensures moment { Self.C.moment result ≡ (parts self.old).moment }
        ensures parts { parts self.new ≡ parts self.old };

    /// Takes a clock back, whose last moment is not below the world's, and becomes it.
    fn put_clock(&mut self, clock: Self::C)
        requires { (parts self.old).moment ≤ Self.C.moment clock }
        ensures parts { parts self.new ≡ record (parts self.old) { moment = Self.C.moment clock } };

    /// The last moment of the clock that was put back last.
    fn moment(&self) -> u64
        ensures { result ≡ (parts self.now).moment };

    /// A gate that shares the state of all others of this world.
    fn gate(&mut self) -> Result<Self::Ga, NoMemory>
        ensures parts { parts self.new ≡ parts self.old };

    /// Lends the dialer.
    fn dialer(&mut self) -> &mut Self::Di
        ensures value { result.now ≡ (parts self.old).dialer }
        ensures* lends { sem 𝓛 (Lends Self.row Self.Di.row self.entry result (with_dialer self.old)) };

    /// Two listeners at these addresses, the authors' one first, which have counted nothing and taken nothing back.
    /// `None` is a fault of the world.
    fn listeners(&mut self, authors: &str, subscribers: &str) -> Option<(Self::Li, Self::Li)>
        ensures fresh { IfSome result (λ both.
            IsFresh (Self.Li.fault_count both.0) (Self.Li.idle_count both.0) (Self.Li.accept_count both.0) (Self.Li.returns both.0)
            × IsFresh (Self.Li.fault_count both.1) (Self.Li.idle_count both.1) (Self.Li.accept_count both.1) (Self.Li.returns both.1)) }
        ensures parts { parts self.new ≡ record (parts self.old) {
          listeners = (parts self.new).listeners;
          faults = count_after (parts self.old).faults (is_none result);
        } };

    /// Takes the listeners back, the authors' one first. A fault of one of them is a fault of the world.
    fn put_listeners(&mut self, authors: Self::Li, subscribers: Self::Li)
        ensures parts { parts self.new ≡ record (parts self.old) {
          listeners = (if (parts self.old).tells then Some (authors, subscribers) else None);
          accepted = added (parts self.old).accepted (Self.Li.accept_count authors + Self.Li.accept_count subscribers);
          faults = count_after (parts self.old).faults (nat_lt 0 (Self.Li.fault_count authors + Self.Li.fault_count subscribers));
        } };

    /// How many links the listeners that were put back had handed out, up to 2^64 - 1.
    fn accepted(&self) -> u64
        ensures { result ≡ (parts self.now).accepted };

    /// Lends the spawner.
    fn spawner(&mut self) -> &mut Self::Sp
        ensures value { result.now ≡ (parts self.old).spawner }
        ensures* lends { sem 𝓛 (Lends Self.row Self.Sp.row self.entry result (with_spawner self.old)) };

    /// May wait a little, for a twentieth of a second at most, before the caller looks again whether something came.
    fn rest(&mut self)
        ensures parts { parts self.new ≡ parts self.old };

    /// How often the world has failed, up to 2^64 - 1.
    fn faults(&self) -> u64
        ensures { result ≡ (parts self.now).faults };

    ghost source_put: { (w : Self) (s : Self.So) → parts (with_source w s) ≡ record (parts w) { source = s } };

    ghost sink_put: { (w : Self) (s : Self.Si) → parts (with_sink w s) ≡ record (parts w) { sink = s } };

    ghost dialer_put: { (w : Self) (d : Self.Di) → parts (with_dialer w d) ≡ record (parts w) { dialer = d } };

    ghost spawner_put: { (w : Self) (s : Self.Sp) → parts (with_spawner w s) ≡ record (parts w) { spawner = s } };

    ghost disk_unarmed: { (w : Self) (disk : Self.D) → (parts w).disk ≡ Some disk → (Self.D.arming disk).calls ≡ None };
}
