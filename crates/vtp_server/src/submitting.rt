//! The calls of an author and of a subscriber, whoever takes their turns.

ghost use Rattle.std.specs.Prelude.{◌≡◌, ◌≤◌};
ghost use Rattle.net_model.specs.declared.step.AuthorStep.{AuthorStep as Reply};
ghost use Rattle.net_model.specs.declared.step.SubscriberStep.{SubscriberStep as Answer};
ghost use Rattle.vtp_session.specs.declared.side.Side.TheVariants as side;
ghost use Rattle.vtp_server.specs.Calls.{IsFollowed, IsSilentInTime, IsSubmitted, IsSubmittedInTime, terms_by};
ghost use Rattle.vtp_server.specs.ListenSide.{listens};
ghost use Rattle.vtp_server.specs.Sendable.{IsSendableOn};

use crate::author::{AuthorAsk, Submitter};
use crate::driving::drive;
use crate::ended::{Ended, ListenStop, Submitted};
use crate::listener::Listening;
use crate::no_sink::NoSink;
use crate::side::{Next, Turns};
use crate::speech::Voice;
use net_model::{AuthorStep, SubscriberStep};
use std::alloc::Global;
use std::sync::Wait;
use voe_outside::{Clock, Link, Sink};
use vtp_framing::Payload;
use vtp_session::{Session, Side, Timers};

/// Sends the first unanswered packet and waits for its answer, which it hands in.
pub fn submit_over<T: Turns<AuthorAsk, AuthorStep>, L: Link, C: Clock, W: Wait>(
    rt: &W,
    alloc: Global,
    turns: &T,
    seat: &mut T::Seat,
    voice: &Voice,
    link: &mut L,
    clock: &mut C,
    timers: Timers,
) -> Submitted
    requires seat { T.seats turns.now seat.old }
    requires replies { (reply : Reply) → T.gives reply → IsSendableOn reply }
    ensures seat { T.seats turns.now seat.new }
    ensures forward { C.moment clock.old ≤ C.moment clock.new }
    ensures silent { IsSubmittedInTime result (C.moment clock.old) (C.moment clock.new) }
    ensures talk { IsSubmitted (T.acts turns.now) L.Link (terms_by side.Author timers voice.now.name voice.now.filters) (C.moment clock.old) result seat.old seat.new link.old link.new }
{
    let start = clock.now();
    let mut session = Session::new(alloc, Side::Author, timers, start);
    let mut side = Submitter::new(alloc);
    let mut sink = NoSink { faults: 0 };
    let parted = drive(
        rt,
        alloc,
        voice,
        turns,
        seat,
        link,
        clock,
        &mut sink,
        &mut session,
        &mut side,
        Next::Ask(AuthorAsk::Next { after: 0 }),
    );
    Submitted::of(parted)
}

fn first_move(count: u64) -> Next<Payload, ListenStop>
    ensures { result ≡ listens count }
{
    if count == 0 {
        Next::Over(ListenStop::Counted)
    } else {
        Next::Read
    }
}

/// Follows a broker until so many packets were entered, and tells a line for each of them.
pub fn listen_over<T: Turns<Payload, SubscriberStep>, L: Link, C: Clock, K: Sink, W: Wait>(
    rt: &W,
    alloc: Global,
    turns: &T,
    seat: &mut T::Seat,
    voice: &Voice,
    link: &mut L,
    clock: &mut C,
    sink: &mut K,
    timers: Timers,
    count: u64,
) -> Ended
    requires { T.seats turns.now seat.old }
    ensures seat { T.seats turns.now seat.new }
    ensures forward { C.moment clock.old ≤ C.moment clock.new }
    ensures silent { IsSilentInTime result (C.moment clock.old) (C.moment clock.new) }
    ensures talk { IsFollowed (T.acts turns.now) L.Link K.Sink (terms_by side.Take timers voice.now.name voice.now.filters) count (T.front_of seat.old) (C.moment clock.old) result seat.old seat.new link.old link.new sink.old sink.new }
{
    let start = clock.now();
    let mut session = Session::new(alloc, Side::Take, timers, start);
    let mut side = Listening::new(alloc, count, turns.front(seat));
    let parted = drive(
        rt,
        alloc,
        voice,
        turns,
        seat,
        link,
        clock,
        sink,
        &mut session,
        &mut side,
        first_move(count),
    );
    Ended::of_listening(parted)
}
