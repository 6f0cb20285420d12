//! The moves of a connection.

ghost use Rattle.std.specs.Prelude.{◌≡◌, ◌≤◌, ℕ, IfErr, IfOk, OnOk};
ghost use Rattle.vtp_server.specs.Counts.{NeverFall, counts_of};
ghost use Rattle.vtp_server.specs.InTime.{GoesOnInTime, InTime, PartsInTime};
ghost use Rattle.vtp_server.specs.Reading.{terms_of};
ghost use Rattle.vtp_server.specs.Ends.{Ends, MakesOne, course_of, standing_of};

use crate::breach::{Breach, Parted};
use crate::putting::{PutFault, put_message};
use crate::reading::read;
use crate::side::{Next, Side, Turns};
use crate::speech::Voice;
use crate::spelling::spell;
use std::alloc::Global;
use voe_outside::{Clock, Link, Sink, WriteFault, write_all};
use voe_values::NoMemory;
use vtp_session::Session;

/// Makes the next move, and gives the one behind it.
pub fn make_move<A: Drop, R, E, S: Side<A, R, E>, T: Turns<A, R>, L: Link, C: Clock, K: Sink>(
    alloc: Global,
    voice: &Voice,
    turns: &T,
    seat: &mut T::Seat,
    link: &mut L,
    clock: &mut C,
    sink: &mut K,
    session: &mut Session,
    side: &mut S,
    next: Next<A, E>,
) -> Result<Next<A, E>, Parted<E>>
    requires seat { T.seats turns.now seat.old }
    requires time { InTime session.old.watch (C.moment clock.old) }
    requires replies { (reply : R) → T.gives reply → S.takes reply }
    ensures time { OnOk result (GoesOnInTime session.old.watch session.new.watch (C.moment clock.new)) }
    ensures forward { C.moment clock.old ≤ C.moment clock.new }
    ensures silent { IfErr result (λ e. PartsInTime e session.old.watch (C.moment clock.new)) }
    ensures seat { T.seats turns.now seat.new }
    ensures side { OnOk result (session.new.side ≡ session.old.side) }
    ensures times { OnOk result (session.new.times ≡ session.old.times) }
    ensures ok { IfOk result (λ n. MakesOne (terms_of voice.now session.old) S.rules (T.acts turns.now) (course_of side.old next session.old) (standing_of session.old seat.old (L.traffic link.old) (K.held sink.old)) (course_of side.new n session.new) (standing_of session.new seat.new (L.traffic link.new) (K.held sink.new))) }
    ensures err { IfErr result (λ e. Ends (terms_of voice.now session.old) S.rules (T.acts turns.now) (course_of side.old next session.old) (standing_of session.old seat.old (L.traffic link.old) (K.held sink.old)) e seat.new (L.traffic link.new) (K.held sink.new) (counts_of L.Link K.Sink link.old sink.old) (counts_of L.Link K.Sink link.new sink.new)) }
    ensures counts { NeverFall (counts_of L.Link K.Sink link.old sink.old) (counts_of L.Link K.Sink link.new sink.new) }
{
    match next {
        Next::Read => {
            let seen = match read(link, clock, session) {
                Ok(seen) => seen,
                Err(breach) => return Err(Parted::Broken(breach)),
            };
            match side.heard(seen.act, seen.is_beat_due, session.waiting()) {
                Ok(after) => Ok(after),
                Err(NoMemory) => Err(Parted::Broken(Breach::NoMemory)),
            }
        }
        Next::Ask(ask) => {
            let reply = turns.turn(seat, ask);
            let front = turns.front(seat);
            match side.answered(reply, front, session.waiting()) {
                Ok(after) => Ok(after),
                Err(NoMemory) => Err(Parted::Broken(Breach::NoMemory)),
            }
        }
        Next::Say(speech) => {
            let message = match spell(alloc, voice, &speech, clock.last()) {
                Ok(message) => message,
                Err(NoMemory) => return Err(Parted::Broken(Breach::NoMemory)),
            };
            match put_message(alloc, link, &message) {
                Ok(()) => {}
                Err(PutFault::Failed) => return Err(Parted::Broken(Breach::LinkFault)),
                Err(PutFault::NoMemory) => return Err(Parted::Broken(Breach::NoMemory)),
            }
            match side.written(session.waiting()) {
                Ok(after) => Ok(after),
                Err(NoMemory) => Err(Parted::Broken(Breach::NoMemory)),
            }
        }
        Next::Send { identifier, packet } => {
            match put_message(alloc, link, &packet) {
                Ok(()) => {}
                Err(PutFault::Failed) => return Err(Parted::Broken(Breach::LinkFault)),
                Err(PutFault::NoMemory) => return Err(Parted::Broken(Breach::NoMemory)),
            }
            match session.sent(identifier) {
                Ok(()) => {}
                Err(NoMemory) => return Err(Parted::Broken(Breach::NoMemory)),
            }
            match side.written(session.waiting()) {
                Ok(after) => Ok(after),
                Err(NoMemory) => Err(Parted::Broken(Breach::NoMemory)),
            }
        }
        Next::Tell(line) => {
            match write_all(sink, line.as_slice()) {
                Ok(()) => {}
                Err(WriteFault::Failed) => return Err(Parted::Broken(Breach::SinkFault)),
                Err(WriteFault::NoMemory) => return Err(Parted::Broken(Breach::NoMemory)),
            }
            match side.told(session.waiting()) {
                Ok(after) => Ok(after),
                Err(NoMemory) => Err(Parted::Broken(Breach::NoMemory)),
            }
        }
        Next::Over(stop) => Err(Parted::Stopped(stop)),
    }
}
