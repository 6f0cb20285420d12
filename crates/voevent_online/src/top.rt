//! The top call of the commands that meet the network.

ghost use Rattle.std.specs.Prelude.{◌≡◌, IsSome};
ghost use Rattle.voevent_online.specs.Online.{HasCause, HasFewSessions, OnlineTells, Performs, dialing_of};
ghost use Rattle.voevent_online.specs.Statuses.{code_of};
ghost use Rattle.voevent_online.specs.declared.status.Status.{Status as Answer};

use crate::listening::listen;
use crate::refusal::Refusal;
use crate::serving::serve;
use crate::status::Status;
use crate::submitting::submit;
use crate::telling::refuse;
use broker_run::{Dialing, JobOf};
use online_words::{Request, WordsFault, read};
use std::alloc::Global;
use std::sync::Wait;
use voe_outside::Spawner;
use voe_values::Text;
use voe_world::World;

/// How upstream brokers are dialed: each once, or again after a pause of so many seconds.
fn dialing_of(redial: Option<u32>) -> Dialing
    ensures { result ≡ dialing_of redial }
{
    match redial {
        None => Dialing::Once,
        Some(seconds) => Dialing::Again {
            pause: u64::from(seconds) * 1_000,
        },
    }
}

/// Does what is asked for.
fn perform<H: Wait + Clone + Drop + Send + 'static, W: World>(
    rt: &H,
    alloc: Global,
    world: &mut W,
    request: &Request,
) -> Status
where
    W::Sp: Spawner<JobOf<H, W>>,
    requires disk { IsSome (W.parts world.old).disk }
    requires few { HasFewSessions request.now }
    ensures { Performs W.So.Source W.Si.Sink W.D.Disk W.Di.L.Link W.Di.returns W.Di.fault_count W.Li.L.Link W.Li.returns W.Li.accept_count W.Sp.fault_count W.Sp.begin_count (W.parts world.old) (W.parts world.new) request.now result }
{
    match request {
        Request::Submit { address } => submit(rt, alloc, world, address.as_str()),
        Request::Listen { address, count } => {
            listen(rt, alloc, world, address.as_str(), u64::from(*count))
        }
        Request::Serve {
            redial,
            authors,
            subscribers,
            sessions,
            upstream,
        } => serve(
            rt,
            alloc,
            world,
            authors.as_str(),
            subscribers.as_str(),
            u64::from(*sessions),
            upstream.as_slice(),
            dialing_of(*redial),
        ),
    }
}

/// Does what the words ask for, or says that they ask for nothing.
fn answer<H: Wait + Clone + Drop + Send + 'static, W: World>(
    rt: &H,
    alloc: Global,
    words: &[Text],
    world: &mut W,
) -> Status
where
    W::Sp: Spawner<JobOf<H, W>>,
    requires disk { IsSome (W.parts world.old).disk }
    ensures { OnlineTells W.So.Source W.Si.Sink W.D.Disk W.Di.L.Link W.Di.returns W.Di.fault_count W.Li.L.Link W.Li.returns W.Li.accept_count W.Sp.fault_count W.Sp.begin_count (W.parts world.old) (W.parts world.new) words.now result }
{
    match read(alloc, words) {
        Ok(request) => perform(rt, alloc, world, &request),
        Err(WordsFault::Faulty) => refuse(alloc, world, Refusal::Usage),
        Err(WordsFault::NoMemory) => Status::NoMemory,
    }
}

/// Does what the words behind the program's name ask for, over this world whose disk must be there, and answers the status that
/// the program ends with: 0 done, 2 the words are no command, 3 the packet is refused, 4 the source failed, 5 the sink failed, 6
/// the disk failed, 7 no memory, 8 what the disk holds is refused, 9 the journal is full, 10 a link, a listener or the dialer
/// failed, 11 the peer ended the session, 12 a connection was not started. Each has its cause: what was asked for, what was
/// done, and the count that rose.
pub fn online<H: Wait + Clone + Drop + Send + 'static, W: World>(
    rt: &H,
    alloc: Global,
    words: &[Text],
    world: &mut W,
) -> u8
where
    W::Sp: Spawner<JobOf<H, W>>,
    requires disk { IsSome (W.parts world.old).disk }
    ensures { (ended : Answer) × (result ≡ code_of ended)
        × OnlineTells W.So.Source W.Si.Sink W.D.Disk W.Di.L.Link W.Di.returns W.Di.fault_count W.Li.L.Link W.Li.returns W.Li.accept_count W.Sp.fault_count W.Sp.begin_count (W.parts world.old) (W.parts world.new) words.now ended
        × HasCause W.So.Source W.Si.Sink W.D.Disk W.Di.L.Link W.Di.returns W.Di.fault_count W.Li.L.Link W.Li.returns W.Li.accept_count W.Sp.fault_count W.Sp.begin_count (W.parts world.old) (W.parts world.new) words.now ended }
{
    let status = answer(rt, alloc, words, world);
    status.code()
}
