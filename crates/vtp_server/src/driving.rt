//! A connection from its first move to its end.

ghost use Rattle.std.specs.Prelude.{◌≡◌, ◌≤◌, ℕ};
ghost use Rattle.vtp_server.specs.Counts.{counts_of};
ghost use Rattle.vtp_server.specs.InTime.{InTime, PartsInTime};
ghost use Rattle.vtp_server.specs.Reading.{terms_of};
ghost use Rattle.vtp_server.specs.Ends.{Ends, course_of, standing_of};

use crate::breach::Parted;
use crate::moving::make_move;
use crate::side::{Next, Side, Turns};
use crate::speech::Voice;
use std::alloc::Global;
use std::sync::Wait;
use voe_outside::{Clock, Link, Sink};
use vtp_session::Session;

/// Makes one move after the other until the talk ends.
pub fn drive<A: Drop, R, E, S: Side<A, R, E>, T: Turns<A, R>, L: Link, C: Clock, K: Sink, W: Wait>(
    rt: &W,
    alloc: Global,
    voice: &Voice,
    turns: &T,
    seat: &mut T::Seat,
    link: &mut L,
    clock: &mut C,
    sink: &mut K,
    session: &mut Session,
    side: &mut S,
    first: Next<A, E>,
) -> Parted<E>
    requires seat { T.seats turns.now seat.old }
    requires time { InTime session.old.watch (C.moment clock.old) }
    requires replies { (reply : R) → T.gives reply → S.takes reply }
    ensures forward { C.moment clock.old ≤ C.moment clock.new }
    ensures silent { PartsInTime result session.old.watch (C.moment clock.new) }
    ensures seat { T.seats turns.now seat.new }
    ensures talk { Ends (terms_of voice.now session.old) S.rules (T.acts turns.now) (course_of side.old first session.old) (standing_of session.old seat.old (L.traffic link.old) (K.held sink.old)) result seat.new (L.traffic link.new) (K.held sink.new) (counts_of L.Link K.Sink link.old sink.old) (counts_of L.Link K.Sink link.new sink.new) }
{
    let mut next = first;
    for _ in rt.forever() {
        next = match make_move(
            alloc, voice, turns, seat, link, clock, sink, session, side, next,
        ) {
            Ok(after) => after,
            Err(parted) => return parted,
        };
    }
    unreachable!()
}
