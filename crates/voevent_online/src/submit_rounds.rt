//! Connections to the broker, one after the other, until a packet of line 0 has its answer.

ghost use Rattle.std.specs.Prelude.{◌≡◌, ◌<◌, length, true};
ghost use Rattle.net_model.specs.Notes.{is_open};
ghost use Rattle.voevent_online.specs.Rounds.{EndsRounds, IsRound, outcome_after, outcome_of_ended};

use crate::outside::{dial, hang_up};
use crate::submit_lines::Outcome;
use crate::timers::TIMERS;
use author_end::AuthorEnd;
use std::alloc::Global;
use std::sync::Wait;
use voe_outside::{Clock, Dialed};
use voe_world::World;
use vtp_server::{Ended, Submitted};

/// Dials the broker, submits the first unanswered packet of line 0 over the link, and gives the link back. Nothing is answered
/// where the broker was not reached.
fn make_round<H: Wait, W: World>(
    rt: &H,
    alloc: Global,
    world: &mut W,
    end: &mut AuthorEnd<W::D>,
    clock: &mut W::C,
    address: &str,
) -> Option<Submitted>
    requires { 0 < length end.old.config.links }
    ensures rest { W.parts world.new ≡ record (W.parts world.old) { dialer = (W.parts world.new).dialer } }
    ensures config { end.new.config ≡ end.old.config }
    ensures round { IsRound W.D.Disk W.Di.L.Link W.Di.returns W.Di.fault_count result
        (record { end = end.old; moment = W.C.moment clock.old; dialer = (W.parts world.old).dialer })
        (record { end = end.new; moment = W.C.moment clock.new; dialer = (W.parts world.new).dialer }) }
{
    match dial(world, address) {
        Dialed::Link(mut link) => {
            let told = vtp_server::submit(rt, alloc, end, &mut link, clock, TIMERS, 0);
            hang_up(world, link);
            Some(told)
        }
        Dialed::Failed => None,
    }
}

/// What becomes of the packet where a connection has ended so.
fn outcome_of_ended(ended: Ended) -> Outcome
    ensures { result ≡ outcome_of_ended ended }
{
    match ended {
        Ended::PeerClosed | Ended::Garbage { .. } | Ended::Silent { .. } => Outcome::Ended,
        Ended::LinkFault => Outcome::LinkFault,
        Ended::HubDown { .. } => Outcome::DiskFault,
        Ended::NoMemory | Ended::Counted | Ended::Replaced { .. } | Ended::SinkFault => {
            Outcome::NoMemory
        }
    }
}

/// What becomes of the packet behind a round, which left it unanswered or not; nothing where another round is to follow.
fn outcome_after(told: Option<Submitted>, is_open: bool) -> Option<Outcome>
    ensures { result ≡ outcome_after told is_open }
{
    match told {
        None => Some(Outcome::LinkFault),
        Some(Submitted::Ended(ended)) => Some(outcome_of_ended(ended)),
        Some(Submitted::Full) => Some(Outcome::Full),
        Some(_) if is_open => None,
        Some(Submitted::Nak { result }) => Some(Outcome::Nak { why: result }),
        Some(Submitted::Ack { .. } | Submitted::Nothing) => Some(Outcome::Acked),
    }
}

/// Makes one round after the other until this packet of line 0 has its answer, or a round failed.
pub(crate) fn submit_until_answered<H: Wait, W: World>(
    rt: &H,
    alloc: Global,
    world: &mut W,
    end: &mut AuthorEnd<W::D>,
    clock: &mut W::C,
    address: &str,
    identifier: &[u8],
) -> Outcome
    requires line { 0 < length end.old.config.links }
    requires open { is_open end.old.notes 0 identifier.now ≡ true }
    ensures rest { W.parts world.new ≡ record (W.parts world.old) { dialer = (W.parts world.new).dialer } }
    ensures rounds { EndsRounds W.D.Disk W.Di.L.Link W.Di.returns W.Di.fault_count identifier.now result
        (record { end = end.old; moment = W.C.moment clock.old; dialer = (W.parts world.old).dialer })
        (record { end = end.new; moment = W.C.moment clock.new; dialer = (W.parts world.new).dialer }) }
{
    for _ in rt.forever() {
        let told = make_round(rt, alloc, world, end, clock, address);
        let is_open = end.book().is_open(0, identifier);
        match outcome_after(told, is_open) {
            Some(outcome) => return outcome,
            None => {}
        }
    }
    unreachable!()
}
