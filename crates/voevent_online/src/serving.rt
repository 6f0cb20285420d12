//! The command `serve`.

ghost use Rattle.std.specs.Prelude.{◌≡◌, ◌≤◌, IfOk, IsSome, None, length};
ghost use Rattle.node_book.specs.Ends.{IsSound};
ghost use Rattle.broker_run.specs.Course.{IsSameButRun};
ghost use Rattle.voevent_online.specs.Serving.{AnswersRun, HasRunSo, KeepsBroker, RunCause, ServeTells, served_line};
ghost use Rattle.voevent_online.specs.Telling.{Tells};
ghost use Rattle.voevent_online.specs.declared.status.Status.TheVariants as status;

use crate::loading::answer_unloaded;
use crate::outside::{put_back, take_disk};
use crate::status::Status;
use crate::telling::tell;
use crate::timers::TIMERS;
use broker_end::BrokerEnd;
use broker_run::{BrokerRun, Dialing, JobOf, run_broker};
use hub_lock::Hub;
use std::alloc::Global;
use std::sync::Wait;
use voe_outside::Spawner;
use voe_values::{Bytes, NoMemory, Text};
use voe_world::World;

/// The line of a run that has ended.
fn line_of(alloc: Global, connections: u64) -> Result<Bytes, NoMemory>
    ensures { IfOk result (λ line. line ≡ served_line connections) }
{
    let number = format!(in alloc; "{connections}")?;
    let mut line = Bytes::new(alloc);
    line.extend(b"served ")?;
    line.extend(number.as_bytes())?;
    line.extend(b"\n")?;
    Ok(line)
}

/// Writes the line of a run that has ended.
fn say<W: World>(alloc: Global, world: &mut W, connections: u64) -> Status
    ensures parts { W.parts world.new ≡ record (W.parts world.old) { sink = (W.parts world.new).sink } }
    ensures told { Tells W.Si.Sink status.Done (served_line connections) result (W.parts world.old).sink (W.parts world.new).sink }
{
    match line_of(alloc, connections) {
        Ok(line) => tell(world, line.as_slice(), Status::Done),
        Err(NoMemory) => Status::NoMemory,
    }
}

/// Serves with a broker's end, until so many connections were accepted and all have ended.
fn run<H: Wait + Clone + Drop + Send + 'static, W: World>(
    rt: &H,
    alloc: Global,
    world: &mut W,
    end: BrokerEnd<W::D>,
    authors: &str,
    subscribers: &str,
    sessions: u64,
    upstream: &[Text],
    dialing: Dialing,
) -> BrokerRun
where
    W::Sp: Spawner<JobOf<H, W>>,
    requires sound { IsSound W.D.Disk end }
    requires few { sessions ≤ 1_000_000 }
    ensures rest { IsSameButRun (W.parts world.old) (W.parts world.new) }
    ensures cause { RunCause W.Di.fault_count W.Sp.fault_count W.Sp.begin_count W.Di.returns W.Di.L.Link W.Li.returns W.Li.accept_count W.Li.L.Link sessions (length upstream.now) dialing (W.parts world.old) (W.parts world.new) result }
{
    let Ok(name) = end.book().config().name.copy() else {
        return BrokerRun::NoMemory;
    };
    let Ok((hub, seat)) = Hub::new(alloc, end) else {
        return BrokerRun::NoMemory;
    };
    run_broker(
        rt,
        alloc,
        world,
        hub,
        seat,
        &name,
        authors,
        subscribers,
        sessions,
        upstream,
        TIMERS,
        dialing,
    )
}

/// Answers how a run ended, with its line where it has served.
fn answer_run<W: World>(alloc: Global, world: &mut W, run: BrokerRun) -> Status
    ensures parts { W.parts world.new ≡ record (W.parts world.old) { sink = (W.parts world.new).sink } }
    ensures told { AnswersRun W.Si.Sink run result (W.parts world.old).sink (W.parts world.new).sink }
{
    match run {
        BrokerRun::Served { connections } => say(alloc, world, connections),
        BrokerRun::ListenFault | BrokerRun::DialFault => Status::LinkFault,
        BrokerRun::SpawnFault => Status::SpawnFault,
        BrokerRun::NoMemory => Status::NoMemory,
    }
}

/// Serves with a broker's end, and answers how that ended.
fn run_and_answer<H: Wait + Clone + Drop + Send + 'static, W: World>(
    rt: &H,
    alloc: Global,
    world: &mut W,
    end: BrokerEnd<W::D>,
    authors: &str,
    subscribers: &str,
    sessions: u64,
    upstream: &[Text],
    dialing: Dialing,
) -> Status
where
    W::Sp: Spawner<JobOf<H, W>>,
    requires sound { IsSound W.D.Disk end }
    requires few { sessions ≤ 1_000_000 }
    requires taken { (W.parts world.old).disk ≡ None }
    ensures { (own : _) → KeepsBroker W.D.Disk own → HasRunSo W.Si.Sink W.D.Disk W.Di.fault_count W.Sp.fault_count W.Sp.begin_count W.Di.returns W.Di.L.Link W.Li.returns W.Li.accept_count W.Li.L.Link sessions (length upstream.now) dialing own (W.parts world.old) (W.parts world.new) result }
{
    let run = run(
        rt,
        alloc,
        world,
        end,
        authors,
        subscribers,
        sessions,
        upstream,
        dialing,
    );
    answer_run(alloc, world, run)
}

/// Serves authors and subscribers at these addresses, until so many connections were accepted and all have ended, and follows
/// each upstream broker. The disk must be there; it is put back where it keeps no broker's journal, and else it is kept. 0 all
/// connections have ended, 5 a line could not be written, 6 the disk failed while the journal was loaded, 7 no memory, 8 what
/// the disk holds is refused, 10 the world did not listen, a listener failed or an upstream broker was not reached, 12 a
/// connection was not started.
pub fn serve<H: Wait + Clone + Drop + Send + 'static, W: World>(
    rt: &H,
    alloc: Global,
    world: &mut W,
    authors: &str,
    subscribers: &str,
    sessions: u64,
    upstream: &[Text],
    dialing: Dialing,
) -> Status
where
    W::Sp: Spawner<JobOf<H, W>>,
    requires disk { IsSome (W.parts world.old).disk }
    requires few { sessions ≤ 1_000_000 }
    ensures { ServeTells W.Si.Sink W.D.Disk W.Di.fault_count W.Sp.fault_count W.Sp.begin_count W.Di.returns W.Di.L.Link W.Li.returns W.Li.accept_count W.Li.L.Link sessions (length upstream.now) dialing (W.parts world.old) (W.parts world.new) result }
{
    let disk = take_disk(world);
    match BrokerEnd::load(alloc, disk) {
        Ok(end) => run_and_answer(
            rt,
            alloc,
            world,
            end,
            authors,
            subscribers,
            sessions,
            upstream,
            dialing,
        ),
        Err((disk, fault)) => {
            put_back(world, disk);
            answer_unloaded(alloc, world, fault)
        }
    }
}
