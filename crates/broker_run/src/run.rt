//! A broker's run, from its listeners to the end of its last connection.

ghost use Rattle.std.specs.Prelude.{◌≡◌, ◌⊎◌, ◌+◌, ◌-◌, ◌^◌, ◌<◌, ◌≤◌, ◌↔◌, min, length, false, ℕ, IsErr, IsNone, IsTrue, IfSome};
ghost use Rattle.voe_outside.specs.Causes.{Rose};
ghost use Rattle.voe_world.specs.Parts.{added};
ghost use Rattle.broker_run.specs.Back.{taken_of};
ghost use Rattle.broker_run.specs.Course.{HasBegun, HasTaken, IsSameButRun, IsSameButStarts};
ghost use Rattle.broker_run.specs.Run.{HasEnded, HasNotListened, HasPutBack, HasRun, IsFine, IsOutcome, IfTold, ServedGuests};

use crate::desk::{Desk, Launched};
use crate::doors::{DoorFault, Doors};
use crate::job::{Connection, Work};
use crate::lines::{Due, Lines};
use crate::link::{Back, Door, Fresh};
use crate::outcome::{BrokerRun, Dialing};
use broker_end::BrokerEnd;
use hub_lock::{Hub, Seat};
use std::alloc::Global;
use std::sync::Wait;
use voe_outside::{Clock, Dialer, Listener, Spawner};
use voe_values::{EndName, Text};
use voe_world::World;
use vtp_session::Timers;

type GuestOf<W> = <<W as World>::Li as Listener>::L;

type LineOf<W> = <<W as World>::Di as Dialer>::L;

type DeskOf<W> = Desk<<W as World>::Sp, <W as World>::D, GuestOf<W>, LineOf<W>>;

/// The job of a connection over a world.
pub type JobOf<H, W> = Connection<
    H,
    <W as World>::D,
    <W as World>::C,
    <W as World>::Ga,
    GuestOf<W>,
    LineOf<W>,
>;

// Gives one link back to what handed it out.
fn settle<W: World>(
    world: &mut W,
    doors: &mut Doors<W::Li>,
    lines: &mut Lines<W::Di>,
    back: Back<GuestOf<W>, LineOf<W>>,
)
    requires { HasTaken W.Di.returns W.Di.fault_count W.Di.L.Link lines.old.first.value (W.parts world.old).dialer lines.old.back lines.old.lacked }
    ensures kept { HasTaken W.Di.returns W.Di.fault_count W.Di.L.Link lines.new.first.value (W.parts world.new).dialer lines.new.back lines.new.lacked }
    ensures rest { W.parts world.new ≡ record (W.parts world.old) { dialer = (W.parts world.new).dialer } }
    ensures first { lines.new.first.value ≡ lines.old.first.value }
    ensures dialed { lines.new.dialed ≡ lines.old.dialed }
    ensures guests { doors.new.guests ≡ doors.old.guests }
{
    match back {
        Back::Guest(spent) => doors.take_back(spent),
        Back::Line(spent) => lines.take_back(world.dialer(), spent),
    }
}

// Gives back the links of all connections that have ended.
fn settle_all<H: Wait, W: World>(
    rt: &H,
    world: &mut W,
    desk: &DeskOf<W>,
    doors: &mut Doors<W::Li>,
    lines: &mut Lines<W::Di>,
)
    requires { HasTaken W.Di.returns W.Di.fault_count W.Di.L.Link lines.old.first.value (W.parts world.old).dialer lines.old.back lines.old.lacked }
    ensures kept { HasTaken W.Di.returns W.Di.fault_count W.Di.L.Link lines.new.first.value (W.parts world.new).dialer lines.new.back lines.new.lacked }
    ensures rest { W.parts world.new ≡ record (W.parts world.old) { dialer = (W.parts world.new).dialer } }
    ensures first { lines.new.first.value ≡ lines.old.first.value }
    ensures dialed { lines.new.dialed ≡ lines.old.dialed }
    ensures guests { doors.new.guests ≡ doors.old.guests }
{
    for _ in rt.forever() {
        let Some(back) = desk.look(rt) else {
            return;
        };
        settle(world, doors, lines, back);
    }
    unreachable!()
}

// Starts one connection.
fn begin<H: Wait + Clone + Drop + Send + 'static, W: World>(
    rt: &H,
    world: &mut W,
    desk: &mut DeskOf<W>,
    work: Work<GuestOf<W>, LineOf<W>>,
) -> Launched
where
    W::Sp: Spawner<JobOf<H, W>>,
    requires { HasBegun W.Sp.fault_count W.Sp.begin_count desk.old.first.value (W.parts world.old).spawner desk.old.started }
    ensures begun { HasBegun W.Sp.fault_count W.Sp.begin_count desk.new.first.value (W.parts world.new).spawner desk.new.started }
    ensures rest { W.parts world.new ≡ record (W.parts world.old) { spawner = (W.parts world.new).spawner } }
    ensures first { desk.new.first.value ≡ desk.old.first.value }
    ensures started { result ≡ Launched.Begun → desk.new.started ≡ added desk.old.started 1 }
    ensures fault { result ≡ Launched.SpawnFault → Rose (W.Sp.fault_count desk.old.first.value) (W.Sp.fault_count (W.parts world.new).spawner) }
{
    let clock = world.clock();
    let Ok(gate) = world.gate() else {
        return Launched::NoMemory;
    };
    desk.launch(rt, world.spawner(), clock, gate, work)
}

// Starts the connection of a link that a listener handed out.
fn welcome<H: Wait + Clone + Drop + Send + 'static, W: World>(
    rt: &H,
    world: &mut W,
    desk: &mut DeskOf<W>,
    door: Door,
    accepted: Result<Option<Fresh<GuestOf<W>>>, DoorFault>,
) -> Option<BrokerRun>
where
    W::Sp: Spawner<JobOf<H, W>>,
    requires { HasBegun W.Sp.fault_count W.Sp.begin_count desk.old.first.value (W.parts world.old).spawner desk.old.started }
    ensures begun { HasBegun W.Sp.fault_count W.Sp.begin_count desk.new.first.value (W.parts world.new).spawner desk.new.started }
    ensures rest { W.parts world.new ≡ record (W.parts world.old) { spawner = (W.parts world.new).spawner } }
    ensures first { desk.new.first.value ≡ desk.old.first.value }
    ensures started { IsNone result → desk.new.started ≡ added desk.old.started (taken_of accepted) }
    ensures cause { IfSome result (λ run. IsOutcome run (λ _. ⊥) (IsErr accepted) ⊥ (Rose (W.Sp.fault_count desk.old.first.value) (W.Sp.fault_count (W.parts world.new).spawner))) }
{
    let link = match accepted {
        Ok(Some(link)) => link,
        Ok(None) => return None,
        Err(DoorFault) => return Some(BrokerRun::ListenFault),
    };
    match begin(rt, world, desk, Work::Guest { door, link }) {
        Launched::Begun => None,
        Launched::SpawnFault => Some(BrokerRun::SpawnFault),
        Launched::NoMemory => Some(BrokerRun::NoMemory),
    }
}

// Looks at both doors, and starts a connection for whom it finds there.
fn admit<H: Wait + Clone + Drop + Send + 'static, W: World>(
    rt: &H,
    world: &mut W,
    desk: &mut DeskOf<W>,
    doors: &mut Doors<W::Li>,
    sessions: u64,
) -> Option<BrokerRun>
where
    W::Sp: Spawner<JobOf<H, W>>,
    requires few { sessions ≤ 1_000_000 }
    requires begun { HasBegun W.Sp.fault_count W.Sp.begin_count desk.old.first.value (W.parts world.old).spawner desk.old.started }
    ensures begun { HasBegun W.Sp.fault_count W.Sp.begin_count desk.new.first.value (W.parts world.new).spawner desk.new.started }
    ensures rest { W.parts world.new ≡ record (W.parts world.old) { spawner = (W.parts world.new).spawner } }
    ensures first { desk.new.first.value ≡ desk.old.first.value }
    ensures started { IsNone result → (more : ℕ) × (doors.new.guests ≡ doors.old.guests + more) × (desk.new.started ≡ added desk.old.started more) }
    ensures cause { IfSome result (λ run. IsOutcome run (λ _. ⊥) (0 < W.Li.fault_count doors.new.authors + W.Li.fault_count doors.new.subscribers) ⊥ (Rose (W.Sp.fault_count desk.old.first.value) (W.Sp.fault_count (W.parts world.new).spawner))) }
{
    if doors.guests >= sessions {
        return None;
    }
    let author = doors.accept_author();
    if let Some(run) = welcome(rt, world, desk, Door::Authors, author) {
        return Some(run);
    }
    if doors.guests >= sessions {
        return None;
    }
    let subscriber = doors.accept_subscriber();
    welcome(rt, world, desk, Door::Subscribers, subscriber)
}

// Dials an upstream address, and starts the connection where it was reached. The links that have come back are given
// back first, so that there is room for one more.
fn call<H: Wait + Clone + Drop + Send + 'static, W: World>(
    rt: &H,
    world: &mut W,
    desk: &mut DeskOf<W>,
    doors: &mut Doors<W::Li>,
    lines: &mut Lines<W::Di>,
    address: usize,
    place: &str,
) -> Option<BrokerRun>
where
    W::Sp: Spawner<JobOf<H, W>>,
    requires kept { HasTaken W.Di.returns W.Di.fault_count W.Di.L.Link lines.old.first.value (W.parts world.old).dialer lines.old.back lines.old.lacked }
    requires begun { HasBegun W.Sp.fault_count W.Sp.begin_count desk.old.first.value (W.parts world.old).spawner desk.old.started }
    requires tally { desk.old.started ≡ min (doors.old.guests + lines.old.dialed) (2 ^ 64 - 1) }
    ensures kept { HasTaken W.Di.returns W.Di.fault_count W.Di.L.Link lines.new.first.value (W.parts world.new).dialer lines.new.back lines.new.lacked }
    ensures begun { HasBegun W.Sp.fault_count W.Sp.begin_count desk.new.first.value (W.parts world.new).spawner desk.new.started }
    ensures tally { IsFine result → desk.new.started ≡ min (doors.new.guests + lines.new.dialed) (2 ^ 64 - 1) }
    ensures rest { IsSameButStarts (W.parts world.old) (W.parts world.new) }
    ensures first_begun { desk.new.first.value ≡ desk.old.first.value }
    ensures first_dialed { lines.new.first.value ≡ lines.old.first.value }
    ensures guests { doors.new.guests ≡ doors.old.guests }
    ensures dialed { IsNone result → lines.new.dialed ≡ min (lines.old.dialed + 1) (2 ^ 64 - 1) }
    ensures cause { IfSome result (λ run. IsOutcome run (λ _. ⊥) ⊥ (Rose (W.Di.fault_count lines.old.first.value) (W.Di.fault_count (W.parts world.new).dialer)) (Rose (W.Sp.fault_count desk.old.first.value) (W.Sp.fault_count (W.parts world.new).spawner))) }
{
    settle_all(rt, world, desk, doors, lines);
    let Some(link) = lines.dial(world.dialer(), place) else {
        return Some(BrokerRun::DialFault);
    };
    match begin(rt, world, desk, Work::Line { address, link }) {
        Launched::Begun => None,
        Launched::SpawnFault => Some(BrokerRun::SpawnFault),
        Launched::NoMemory => Some(BrokerRun::NoMemory),
    }
}

// Dials each upstream address once.
fn call_all<H: Wait + Clone + Drop + Send + 'static, W: World>(
    rt: &H,
    world: &mut W,
    desk: &mut DeskOf<W>,
    doors: &mut Doors<W::Li>,
    lines: &mut Lines<W::Di>,
    upstream: &[Text],
) -> Option<BrokerRun>
where
    W::Sp: Spawner<JobOf<H, W>>,
    requires kept { HasTaken W.Di.returns W.Di.fault_count W.Di.L.Link lines.old.first.value (W.parts world.old).dialer lines.old.back lines.old.lacked }
    requires begun { HasBegun W.Sp.fault_count W.Sp.begin_count desk.old.first.value (W.parts world.old).spawner desk.old.started }
    requires tally { desk.old.started ≡ min (doors.old.guests + lines.old.dialed) (2 ^ 64 - 1) }
    requires none { lines.old.dialed ≡ 0 }
    ensures kept { HasTaken W.Di.returns W.Di.fault_count W.Di.L.Link lines.new.first.value (W.parts world.new).dialer lines.new.back lines.new.lacked }
    ensures begun { HasBegun W.Sp.fault_count W.Sp.begin_count desk.new.first.value (W.parts world.new).spawner desk.new.started }
    ensures tally { IsNone result → desk.new.started ≡ min (doors.new.guests + lines.new.dialed) (2 ^ 64 - 1) }
    ensures rest { IsSameButStarts (W.parts world.old) (W.parts world.new) }
    ensures first_begun { desk.new.first.value ≡ desk.old.first.value }
    ensures first_dialed { lines.new.first.value ≡ lines.old.first.value }
    ensures guests { doors.new.guests ≡ doors.old.guests }
    ensures dialed { IsNone result → lines.new.dialed ≡ length upstream.now }
    ensures cause { IfSome result (λ run. IsOutcome run (λ _. ⊥) ⊥ (Rose (W.Di.fault_count lines.old.first.value) (W.Di.fault_count (W.parts world.new).dialer)) (Rose (W.Sp.fault_count desk.old.first.value) (W.Sp.fault_count (W.parts world.new).spawner))) }
{
    let _count = upstream.len();
    for (address, place) in upstream.iter().enumerate() {
        let called = call(rt, world, desk, doors, lines, address, place.as_str());
        if let Some(run) = called {
            return Some(run);
        }
    }
    None
}

// Dials each upstream address that is due again.
fn call_due<H: Wait + Clone + Drop + Send + 'static, W: World>(
    rt: &H,
    world: &mut W,
    desk: &mut DeskOf<W>,
    doors: &mut Doors<W::Li>,
    lines: &mut Lines<W::Di>,
    upstream: &[Text],
    now: u64,
    pause: u64,
) -> Option<BrokerRun>
where
    W::Sp: Spawner<JobOf<H, W>>,
    requires kept { HasTaken W.Di.returns W.Di.fault_count W.Di.L.Link lines.old.first.value (W.parts world.old).dialer lines.old.back lines.old.lacked }
    requires begun { HasBegun W.Sp.fault_count W.Sp.begin_count desk.old.first.value (W.parts world.old).spawner desk.old.started }
    requires tally { desk.old.started ≡ min (doors.old.guests + lines.old.dialed) (2 ^ 64 - 1) }
    ensures kept { HasTaken W.Di.returns W.Di.fault_count W.Di.L.Link lines.new.first.value (W.parts world.new).dialer lines.new.back lines.new.lacked }
    ensures begun { HasBegun W.Sp.fault_count W.Sp.begin_count desk.new.first.value (W.parts world.new).spawner desk.new.started }
    ensures tally { IsNone result → desk.new.started ≡ min (doors.new.guests + lines.new.dialed) (2 ^ 64 - 1) }
    ensures rest { IsSameButStarts (W.parts world.old) (W.parts world.new) }
    ensures first_begun { desk.new.first.value ≡ desk.old.first.value }
    ensures first_dialed { lines.new.first.value ≡ lines.old.first.value }
    ensures guests { doors.new.guests ≡ doors.old.guests }
    ensures cause { IfSome result (λ run. IsOutcome run (λ _. ⊥) ⊥ ⊥ (Rose (W.Sp.fault_count desk.old.first.value) (W.Sp.fault_count (W.parts world.new).spawner))) }
{
    for (address, place) in upstream.iter().enumerate() {
        if lines.is_due(address, now, pause) {
            match call(rt, world, desk, doors, lines, address, place.as_str()) {
                None => lines.note(address, Due::Up),
                Some(BrokerRun::DialFault) => {
                    lines.note(address, Due::At(now.saturating_add(pause)));
                }
                Some(run) => return Some(run),
            }
        }
    }
    None
}

// Looks at the doors and at the upstream addresses.
fn look<H: Wait + Clone + Drop + Send + 'static, W: World>(
    rt: &H,
    world: &mut W,
    desk: &mut DeskOf<W>,
    doors: &mut Doors<W::Li>,
    lines: &mut Lines<W::Di>,
    clock: &mut W::C,
    sessions: u64,
    upstream: &[Text],
    dialing: Dialing,
) -> Option<BrokerRun>
where
    W::Sp: Spawner<JobOf<H, W>>,
    requires few { sessions ≤ 1_000_000 }
    requires kept { HasTaken W.Di.returns W.Di.fault_count W.Di.L.Link lines.old.first.value (W.parts world.old).dialer lines.old.back lines.old.lacked }
    requires begun { HasBegun W.Sp.fault_count W.Sp.begin_count desk.old.first.value (W.parts world.old).spawner desk.old.started }
    requires tally { desk.old.started ≡ min (doors.old.guests + lines.old.dialed) (2 ^ 64 - 1) }
    ensures kept { HasTaken W.Di.returns W.Di.fault_count W.Di.L.Link lines.new.first.value (W.parts world.new).dialer lines.new.back lines.new.lacked }
    ensures begun { HasBegun W.Sp.fault_count W.Sp.begin_count desk.new.first.value (W.parts world.new).spawner desk.new.started }
    ensures tally { IsNone result → desk.new.started ≡ min (doors.new.guests + lines.new.dialed) (2 ^ 64 - 1) }
    ensures rest { IsSameButStarts (W.parts world.old) (W.parts world.new) }
    ensures first_begun { desk.new.first.value ≡ desk.old.first.value }
    ensures first_dialed { lines.new.first.value ≡ lines.old.first.value }
    ensures once { dialing ≡ Dialing.Once → IsNone result → lines.new.dialed ≡ lines.old.dialed }
    ensures cause { IfSome result (λ run. IsOutcome run (λ _. ⊥) (0 < W.Li.fault_count doors.new.authors + W.Li.fault_count doors.new.subscribers) ⊥ (Rose (W.Sp.fault_count desk.old.first.value) (W.Sp.fault_count (W.parts world.new).spawner))) }
{
    if let Some(run) = admit(rt, world, desk, doors, sessions) {
        return Some(run);
    }
    match dialing {
        Dialing::Once => None,
        Dialing::Again { pause } => {
            let now = clock.now();
            call_due(rt, world, desk, doors, lines, upstream, now, pause)
        }
    }
}

// One round: what has come back is given back; where nothing more is to come the run is over, and else what comes next
// is looked for, or waited for.
fn round<H: Wait + Clone + Drop + Send + 'static, W: World>(
    rt: &H,
    world: &mut W,
    desk: &mut DeskOf<W>,
    doors: &mut Doors<W::Li>,
    lines: &mut Lines<W::Di>,
    clock: &mut W::C,
    sessions: u64,
    upstream: &[Text],
    dialing: Dialing,
) -> Option<BrokerRun>
where
    W::Sp: Spawner<JobOf<H, W>>,
    requires few { sessions ≤ 1_000_000 }
    requires kept { HasTaken W.Di.returns W.Di.fault_count W.Di.L.Link lines.old.first.value (W.parts world.old).dialer lines.old.back lines.old.lacked }
    requires begun { HasBegun W.Sp.fault_count W.Sp.begin_count desk.old.first.value (W.parts world.old).spawner desk.old.started }
    requires tally { desk.old.started ≡ min (doors.old.guests + lines.old.dialed) (2 ^ 64 - 1) }
    ensures kept { HasTaken W.Di.returns W.Di.fault_count W.Di.L.Link lines.new.first.value (W.parts world.new).dialer lines.new.back lines.new.lacked }
    ensures begun { HasBegun W.Sp.fault_count W.Sp.begin_count desk.new.first.value (W.parts world.new).spawner desk.new.started }
    ensures tally { IsNone result → desk.new.started ≡ min (doors.new.guests + lines.new.dialed) (2 ^ 64 - 1) }
    ensures rest { IsSameButStarts (W.parts world.old) (W.parts world.new) }
    ensures first_begun { desk.new.first.value ≡ desk.old.first.value }
    ensures first_dialed { lines.new.first.value ≡ lines.old.first.value }
    ensures once { dialing ≡ Dialing.Once → IsNone result → lines.new.dialed ≡ lines.old.dialed }
    ensures over { IfSome result (λ run. IsOutcome run
        (λ n. HasEnded n sessions desk.new.started doors.new.guests doors.new.authors_back doors.new.subscribers_back lines.new.dialed lines.new.back doors.new.lacked lines.new.lacked × (dialing ≡ Dialing.Once → lines.new.dialed ≡ lines.old.dialed) × (desk.new.started ≡ min (doors.new.guests + lines.new.dialed) (2 ^ 64 - 1)))
        (0 < W.Li.fault_count doors.new.authors + W.Li.fault_count doors.new.subscribers) ⊥ (Rose (W.Sp.fault_count desk.old.first.value) (W.Sp.fault_count (W.parts world.new).spawner))) }
{
    settle_all(rt, world, desk, doors, lines);
    if doors.guests == sessions && doors.is_empty() && lines.back == lines.dialed {
        return Some(finish(desk.started, doors.lacked, lines.lacked));
    }
    if doors.guests == sessions && (doors.is_empty() || is_once(dialing)) {
        if let Some(back) = desk.wait(rt) {
            settle(world, doors, lines, back);
        }
        return None;
    }
    let before = desk.started;
    if let Some(run) = look(
        rt, world, desk, doors, lines, clock, sessions, upstream, dialing,
    ) {
        return Some(run);
    }
    if desk.started == before {
        world.rest();
    }
    None
}

fn is_once(dialing: Dialing) -> bool
    ensures { IsTrue result ↔ (dialing ≡ Dialing.Once) }
{
    match dialing {
        Dialing::Once => true,
        Dialing::Again { pause: _ } => false,
    }
}

fn finish(connections: u64, guests_lacked: bool, lines_lacked: bool) -> BrokerRun
    ensures { IsOutcome result (λ n. (n ≡ connections) × (guests_lacked ≡ false) × (lines_lacked ≡ false)) ⊥ ⊥ ⊥ }
{
    if guests_lacked || lines_lacked {
        return BrokerRun::NoMemory;
    }
    BrokerRun::Served { connections }
}

// Goes from round to round until the run is over.
fn serve<H: Wait + Clone + Drop + Send + 'static, W: World>(
    rt: &H,
    world: &mut W,
    desk: &mut DeskOf<W>,
    doors: &mut Doors<W::Li>,
    lines: &mut Lines<W::Di>,
    sessions: u64,
    upstream: &[Text],
    dialing: Dialing,
) -> BrokerRun
where
    W::Sp: Spawner<JobOf<H, W>>,
    requires few { sessions ≤ 1_000_000 }
    requires kept { HasTaken W.Di.returns W.Di.fault_count W.Di.L.Link lines.old.first.value (W.parts world.old).dialer lines.old.back lines.old.lacked }
    requires begun { HasBegun W.Sp.fault_count W.Sp.begin_count desk.old.first.value (W.parts world.old).spawner desk.old.started }
    requires tally { desk.old.started ≡ min (doors.old.guests + lines.old.dialed) (2 ^ 64 - 1) }
    requires once { dialing ≡ Dialing.Once → lines.old.dialed ≡ length upstream.now }
    ensures kept { HasTaken W.Di.returns W.Di.fault_count W.Di.L.Link lines.new.first.value (W.parts world.new).dialer lines.new.back lines.new.lacked }
    ensures begun { HasBegun W.Sp.fault_count W.Sp.begin_count desk.new.first.value (W.parts world.new).spawner desk.new.started }
    ensures rest { IsSameButStarts (W.parts world.old) (W.parts world.new) }
    ensures first_begun { desk.new.first.value ≡ desk.old.first.value }
    ensures first_dialed { lines.new.first.value ≡ lines.old.first.value }
    ensures over { IsOutcome result
        (λ n. HasEnded n sessions desk.new.started doors.new.guests doors.new.authors_back doors.new.subscribers_back lines.new.dialed lines.new.back doors.new.lacked lines.new.lacked × (dialing ≡ Dialing.Once → lines.new.dialed ≡ length upstream.now) × (desk.new.started ≡ min (doors.new.guests + lines.new.dialed) (2 ^ 64 - 1)))
        (0 < W.Li.fault_count doors.new.authors + W.Li.fault_count doors.new.subscribers) ⊥ (Rose (W.Sp.fault_count desk.old.first.value) (W.Sp.fault_count (W.parts world.new).spawner)) }
{
    let mut clock = world.clock();
    for _ in rt.forever() {
        let went = round(
            rt, world, desk, doors, lines, &mut clock, sessions, upstream, dialing,
        );
        if let Some(run) = went {
            return run;
        }
    }
    unreachable!()
}

// Dials each upstream address once, and serves.
fn serve_once<H: Wait + Clone + Drop + Send + 'static, W: World>(
    rt: &H,
    world: &mut W,
    desk: &mut DeskOf<W>,
    doors: &mut Doors<W::Li>,
    lines: &mut Lines<W::Di>,
    sessions: u64,
    upstream: &[Text],
) -> BrokerRun
where
    W::Sp: Spawner<JobOf<H, W>>,
    requires few { sessions ≤ 1_000_000 }
    requires kept { HasTaken W.Di.returns W.Di.fault_count W.Di.L.Link lines.old.first.value (W.parts world.old).dialer lines.old.back lines.old.lacked }
    requires begun { HasBegun W.Sp.fault_count W.Sp.begin_count desk.old.first.value (W.parts world.old).spawner desk.old.started }
    requires tally { desk.old.started ≡ min (doors.old.guests + lines.old.dialed) (2 ^ 64 - 1) }
    requires none { lines.old.dialed ≡ 0 }
    ensures kept { HasTaken W.Di.returns W.Di.fault_count W.Di.L.Link lines.new.first.value (W.parts world.new).dialer lines.new.back lines.new.lacked }
    ensures begun { HasBegun W.Sp.fault_count W.Sp.begin_count desk.new.first.value (W.parts world.new).spawner desk.new.started }
    ensures rest { IsSameButStarts (W.parts world.old) (W.parts world.new) }
    ensures first_begun { desk.new.first.value ≡ desk.old.first.value }
    ensures first_dialed { lines.new.first.value ≡ lines.old.first.value }
    ensures served { (n : ℕ) → result ≡ BrokerRun.Served n → HasEnded n sessions desk.new.started doors.new.guests doors.new.authors_back doors.new.subscribers_back lines.new.dialed lines.new.back doors.new.lacked lines.new.lacked × (lines.new.dialed ≡ length upstream.now) × (desk.new.started ≡ min (doors.new.guests + lines.new.dialed) (2 ^ 64 - 1)) }
    ensures listened { result ≡ BrokerRun.ListenFault → 0 < W.Li.fault_count doors.new.authors + W.Li.fault_count doors.new.subscribers }
    ensures dialed { result ≡ BrokerRun.DialFault → Rose (W.Di.fault_count lines.old.first.value) (W.Di.fault_count (W.parts world.new).dialer) }
    ensures spawned { result ≡ BrokerRun.SpawnFault → Rose (W.Sp.fault_count desk.old.first.value) (W.Sp.fault_count (W.parts world.new).spawner) }
{
    if let Some(run) = call_all(rt, world, desk, doors, lines, upstream) {
        return run;
    }
    serve(
        rt,
        world,
        desk,
        doors,
        lines,
        sessions,
        upstream,
        Dialing::Once,
    )
}

// Serves as the upstream addresses are to be dialed.
fn go<H: Wait + Clone + Drop + Send + 'static, W: World>(
    rt: &H,
    world: &mut W,
    desk: &mut DeskOf<W>,
    doors: &mut Doors<W::Li>,
    lines: &mut Lines<W::Di>,
    sessions: u64,
    upstream: &[Text],
    dialing: Dialing,
) -> BrokerRun
where
    W::Sp: Spawner<JobOf<H, W>>,
    requires few { sessions ≤ 1_000_000 }
    requires kept { HasTaken W.Di.returns W.Di.fault_count W.Di.L.Link lines.old.first.value (W.parts world.old).dialer lines.old.back lines.old.lacked }
    requires begun { HasBegun W.Sp.fault_count W.Sp.begin_count desk.old.first.value (W.parts world.old).spawner desk.old.started }
    requires tally { desk.old.started ≡ min (doors.old.guests + lines.old.dialed) (2 ^ 64 - 1) }
    requires none { lines.old.dialed ≡ 0 }
    ensures kept { HasTaken W.Di.returns W.Di.fault_count W.Di.L.Link lines.new.first.value (W.parts world.new).dialer lines.new.back lines.new.lacked }
    ensures begun { HasBegun W.Sp.fault_count W.Sp.begin_count desk.new.first.value (W.parts world.new).spawner desk.new.started }
    ensures rest { IsSameButStarts (W.parts world.old) (W.parts world.new) }
    ensures first_begun { desk.new.first.value ≡ desk.old.first.value }
    ensures first_dialed { lines.new.first.value ≡ lines.old.first.value }
    ensures served { (n : ℕ) → result ≡ BrokerRun.Served n → HasEnded n sessions desk.new.started doors.new.guests doors.new.authors_back doors.new.subscribers_back lines.new.dialed lines.new.back doors.new.lacked lines.new.lacked × (dialing ≡ Dialing.Once → lines.new.dialed ≡ length upstream.now) × (desk.new.started ≡ min (doors.new.guests + lines.new.dialed) (2 ^ 64 - 1)) }
    ensures listened { result ≡ BrokerRun.ListenFault → 0 < W.Li.fault_count doors.new.authors + W.Li.fault_count doors.new.subscribers }
    ensures dialed { result ≡ BrokerRun.DialFault → (dialing ≡ Dialing.Once) × Rose (W.Di.fault_count lines.old.first.value) (W.Di.fault_count (W.parts world.new).dialer) }
    ensures spawned { result ≡ BrokerRun.SpawnFault → Rose (W.Sp.fault_count desk.old.first.value) (W.Sp.fault_count (W.parts world.new).spawner) }
{
    match dialing {
        Dialing::Once => serve_once(rt, world, desk, doors, lines, sessions, upstream),
        Dialing::Again { pause: _ } => {
            serve(rt, world, desk, doors, lines, sessions, upstream, dialing)
        }
    }
}

// Makes what all connections share, and serves.
fn open<H: Wait + Clone + Drop + Send + 'static, W: World>(
    rt: &H,
    alloc: Global,
    world: &mut W,
    hub: Hub<BrokerEnd<W::D>>,
    seat: Seat,
    name: &EndName,
    doors: &mut Doors<W::Li>,
    sessions: u64,
    upstream: &[Text],
    timers: Timers,
    dialing: Dialing,
) -> BrokerRun
where
    W::Sp: Spawner<JobOf<H, W>>,
    requires tied { seat.hub ≡ hub }
    requires few { sessions ≤ 1_000_000 }
    requires none { doors.old.guests ≡ 0 }
    ensures rest { IsSameButStarts (W.parts world.old) (W.parts world.new) }
    ensures served { (n : ℕ) → result ≡ BrokerRun.Served n →
        (doors.new.guests ≡ sessions) × (doors.new.authors_back + doors.new.subscribers_back ≡ sessions) × (doors.new.lacked ≡ false)
        × ((lines : ℕ) × HasRun W.Sp.begin_count W.Di.returns W.Di.L.Link (W.parts world.old) (W.parts world.new) sessions lines n × (dialing ≡ Dialing.Once → lines ≡ length upstream.now)) }
    ensures listened { result ≡ BrokerRun.ListenFault → 0 < W.Li.fault_count doors.new.authors + W.Li.fault_count doors.new.subscribers }
    ensures dialed { result ≡ BrokerRun.DialFault → (dialing ≡ Dialing.Once) × Rose (W.Di.fault_count (W.parts world.old).dialer) (W.Di.fault_count (W.parts world.new).dialer) }
    ensures spawned { result ≡ BrokerRun.SpawnFault → Rose (W.Sp.fault_count (W.parts world.old).spawner) (W.Sp.fault_count (W.parts world.new).spawner) }
{
    let Ok(mut desk) = Desk::new(alloc, world.spawner(), hub, seat, name, timers) else {
        return BrokerRun::NoMemory;
    };
    let count = dues_of(dialing, upstream.len());
    let Ok(mut lines) = Lines::new(alloc, world.dialer(), count) else {
        return BrokerRun::NoMemory;
    };
    go(
        rt, world, &mut desk, doors, &mut lines, sessions, upstream, dialing,
    )
}

// How many addresses are dialed by their dues.
fn dues_of(dialing: Dialing, count: usize) -> usize {
    match dialing {
        Dialing::Once => 0,
        Dialing::Again { pause: _ } => count,
    }
}

/// Listens for authors and for subscribers until so many connections were accepted, follows each upstream address, and
/// ends once all its connections have ended. Each connection is a job of its own, with a seat at the hub.
pub fn run_broker<H: Wait + Clone + Drop + Send + 'static, W: World>(
    rt: &H,
    alloc: Global,
    world: &mut W,
    hub: Hub<BrokerEnd<W::D>>,
    seat: Seat,
    name: &EndName,
    authors: &str,
    subscribers: &str,
    sessions: u64,
    upstream: &[Text],
    timers: Timers,
    dialing: Dialing,
) -> BrokerRun
where
    W::Sp: Spawner<JobOf<H, W>>,
    requires tied { seat.hub ≡ hub }
    requires few { sessions ≤ 1_000_000 }
    ensures rest { IsSameButRun (W.parts world.old) (W.parts world.new) }
    ensures served { (n : ℕ) → result ≡ BrokerRun.Served n →
        ((lines : ℕ) × HasRun W.Sp.begin_count W.Di.returns W.Di.L.Link (W.parts world.old) (W.parts world.new) sessions lines n × (dialing ≡ Dialing.Once → lines ≡ length upstream.now))
        × ((W.parts world.new).accepted ≡ added (W.parts world.old).accepted sessions)
        × IfTold (W.parts world.new).listeners (λ a s. ∥ ServedGuests W.Li.returns W.Li.accept_count W.Li.L.Link sessions a s ∥₁) }
    ensures put_back { HasPutBack W.Li.accept_count (W.parts world.old) (W.parts world.new) ⊎ ((result ≡ BrokerRun.ListenFault) × HasNotListened (W.parts world.old) (W.parts world.new)) }
    ensures listened { result ≡ BrokerRun.ListenFault → Rose (W.parts world.old).faults (W.parts world.new).faults }
    ensures dialed { result ≡ BrokerRun.DialFault → (dialing ≡ Dialing.Once) × Rose (W.Di.fault_count (W.parts world.old).dialer) (W.Di.fault_count (W.parts world.new).dialer) }
    ensures spawned { result ≡ BrokerRun.SpawnFault → Rose (W.Sp.fault_count (W.parts world.old).spawner) (W.Sp.fault_count (W.parts world.new).spawner) }
{
    let Some((authors, subscribers)) = world.listeners(authors, subscribers) else {
        return BrokerRun::ListenFault;
    };
    let mut doors = Doors::new(authors, subscribers);
    let run = open(
        rt, alloc, world, hub, seat, name, &mut doors, sessions, upstream, timers, dialing,
    );
    let (authors, subscribers) = doors.close();
    world.put_listeners(authors, subscribers);
    run
}
