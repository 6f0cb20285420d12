//! The command `listen`.

ghost use Rattle.std.specs.Prelude.{◌≡◌, ◌≤◌, IsSome};
ghost use Rattle.vtp_server.specs.OneEnd.{IsSameEnd};
ghost use Rattle.voevent_online.specs.Following.{FollowsOrNot, status_of_ended};
ghost use Rattle.voevent_online.specs.Listening.{ListenTells};

use crate::laws::moments_of;
use crate::loading::answer_unloaded;
use crate::outside::{dial, hang_up, put_back, take_disk};
use crate::status::Status;
use crate::timers::TIMERS;
use std::alloc::Global;
use std::sync::Wait;
use subscriber_end::SubscriberEnd;
use voe_outside::{Clock, Dialed};
use voe_world::World;
use vtp_server::Ended;

/// How the command ends with a connection that has ended so.
fn status_of(ended: Ended) -> Status
    ensures { result ≡ status_of_ended ended }
{
    match ended {
        Ended::Counted => Status::Done,
        Ended::PeerClosed | Ended::Garbage { .. } | Ended::Silent { .. } => Status::Ended,
        Ended::LinkFault => Status::LinkFault,
        Ended::SinkFault => Status::WriteFault,
        Ended::HubDown { .. } => Status::DiskFault,
        Ended::Replaced { .. } | Ended::NoMemory => Status::NoMemory,
    }
}

/// Dials the broker, follows it over the link, and gives the link back.
fn dial_and_follow<H: Wait, W: World>(
    rt: &H,
    alloc: Global,
    world: &mut W,
    end: &mut SubscriberEnd<W::D>,
    clock: &mut W::C,
    address: &str,
    count: u64,
) -> Status
    ensures rest { W.parts world.new ≡ record (W.parts world.old) { sink = (W.parts world.new).sink; dialer = (W.parts world.new).dialer } }
    ensures same { IsSameEnd W.D.Disk end.old end.new }
    ensures forward { W.C.moment clock.old ≤ W.C.moment clock.new }
    ensures follows { FollowsOrNot W.D.Disk W.Si.Sink W.Di.L.Link W.Di.returns W.Di.fault_count count result end.old end.new (W.C.moment clock.old) (W.C.moment clock.new) (W.parts world.old).sink (W.parts world.new).sink (W.parts world.old).dialer (W.parts world.new).dialer }
{
    match dial(world, address) {
        Dialed::Link(mut link) => {
            let ended = vtp_server::listen(
                rt,
                alloc,
                end,
                &mut link,
                clock,
                world.sink(),
                TIMERS,
                count,
            );
            hang_up(world, link);
            status_of(ended)
        }
        Dialed::Failed => Status::LinkFault,
    }
}

/// Follows the broker with a clock of the world's.
fn follow<H: Wait, W: World>(
    rt: &H,
    alloc: Global,
    world: &mut W,
    end: &mut SubscriberEnd<W::D>,
    address: &str,
    count: u64,
) -> Status
    ensures rest { W.parts world.new ≡ record (W.parts world.old) {
      sink = (W.parts world.new).sink;
      dialer = (W.parts world.new).dialer;
      moment = (W.parts world.new).moment;
    } }
    ensures same { IsSameEnd W.D.Disk end.old end.new }
    ensures forward { (W.parts world.old).moment ≤ (W.parts world.new).moment }
    ensures follows { FollowsOrNot W.D.Disk W.Si.Sink W.Di.L.Link W.Di.returns W.Di.fault_count count result end.old end.new (W.parts world.old).moment (W.parts world.new).moment (W.parts world.old).sink (W.parts world.new).sink (W.parts world.old).dialer (W.parts world.new).dialer }
{
    let mut clock = world.clock();
    let status = dial_and_follow(rt, alloc, world, end, &mut clock, address, count);
    world.put_clock(clock);
    status
}

/// Follows the broker at this address until so many packets were entered in this call, with a line `entered ID` for each. The
/// disk is put back at every status: 0 so many were entered, 5 a line could not be written, 6 the disk failed, 7 no memory, 8
/// what the disk holds is refused, 10 the broker was not reached or the link failed, 11 the broker ended the session.
pub fn listen<H: Wait, W: World>(
    rt: &H,
    alloc: Global,
    world: &mut W,
    address: &str,
    count: u64,
) -> Status
    requires { IsSome (W.parts world.old).disk }
    ensures rest { W.parts world.new ≡ record (W.parts world.old) {
      sink = (W.parts world.new).sink;
      disk = (W.parts world.new).disk;
      dialer = (W.parts world.new).dialer;
      moment = (W.parts world.new).moment;
    } }
    ensures back { IsSome (W.parts world.new).disk }
    ensures tells { ListenTells W.D.Disk W.Si.Sink W.Di.L.Link W.Di.returns W.Di.fault_count (W.parts world.old) (W.parts world.new) count result }
{
    let disk = take_disk(world);
    match SubscriberEnd::load(alloc, disk) {
        Ok(mut end) => {
            let status = follow(rt, alloc, world, &mut end, address, count);
            let disk = end.into_disk();
            moments_of(&disk);
            put_back(world, disk);
            status
        }
        Err((disk, fault)) => {
            put_back(world, disk);
            answer_unloaded(alloc, world, fault)
        }
    }
}
