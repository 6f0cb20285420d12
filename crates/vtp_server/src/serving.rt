//! The connections of a broker.

ghost use Rattle.std.specs.Prelude.{◌≡◌, ◌≤◌, ℕ, [], None, IfOk, false};
ghost use Rattle.vtp_session.specs.Watch.{watch_from};
ghost use Rattle.vtp_session.specs.declared.side.Side.TheVariants as side;
ghost use Rattle.vtp_server.specs.declared.side.Next.TheVariants as next;
ghost use Rattle.vtp_server.specs.declared.speech.Speech.TheVariants as speech;
ghost use Rattle.vtp_server.specs.Calls.{IsServed, IsSilentInTime, terms_by};
ghost use Rattle.vtp_server.specs.FeedMemory.{first_memory};
ghost use Rattle.vtp_server.specs.FeedSide.{feed_rules};
ghost use Rattle.vtp_server.specs.LineSide.{line_rules};
ghost use Rattle.vtp_server.specs.TakeSide.{take_rules};
ghost use Rattle.vtp_server.specs.HubTurns.{CanGive};
ghost use Rattle.vtp_server.specs.Sendable.{IsSendable};
ghost use Rattle.net_model.specs.declared.step.BrokerStep.{BrokerStep as Reply};

use crate::ask::BrokerAsk;
use crate::driving::drive;
use crate::ended::{Ended, Stop};
use crate::feed::Feed;
use crate::line::Line;
use crate::no_sink::NoSink;
use crate::over_hub::OverHub;
use crate::side::Next;
use crate::speech::{Speech, Voice};
use crate::take::Follower;
use broker_end::BrokerEvent;
use hub_lock::{Hub, Seat, Turned};
use net_model::BrokerStep;
use std::alloc::Global;
use std::sync::Wait;
use voe_outside::{Clock, Gate, Link};
use voe_values::{EndName, Listing, NoMemory};
use vtp_session::{Session, Side, Timers};

/// How many packets may wait for an answer on a connection.
pub const MOST_UNANSWERED: usize = 32;

fn voice_of(alloc: Global, name: &EndName) -> Result<Voice, NoMemory>
    ensures { IfOk result (λ voice. voice ≡ record { name = name.now; filters = [] }) }
{
    let name = name.copy()?;
    Ok(Voice {
        name,
        filters: Listing::new(alloc),
    })
}

/// Serves an author's line until it ends. It passes the gate before its first move.
pub fn serve_author<
    S: Turned<Ask = BrokerEvent, Reply = BrokerStep>,
    L: Link,
    C: Clock,
    G: Gate,
    W: Wait,
>(
    rt: &W,
    alloc: Global,
    hub: &Hub<S>,
    seat: &mut Seat,
    link: &mut L,
    clock: &mut C,
    gate: &G,
    call: u32,
    name: &EndName,
    timers: Timers,
) -> Ended
    requires { seat.old.hub ≡ hub.now }
    ensures seat { seat.new.hub ≡ hub.now }
    ensures silent { IsSilentInTime result (C.moment clock.old) (C.moment clock.new) }
    ensures talk { IsServed S.fixed S.records S.sound S.means S.sign_of L.Link (terms_by side.Line timers name.now []) line_rules (record { owes_beat = false }) next.Read (C.moment clock.old) result seat.old seat.new link.old link.new }
{
    let _made = seat.turns();
    gate.pass(call);
    let Ok(voice) = voice_of(alloc, name) else {
        return Ended::NoMemory;
    };
    let turns = OverHub { rt, hub };
    let start = clock.now();
    let mut session = Session::new(alloc, Side::Line, timers, start);
    let mut side = Line { owes_beat: false };
    let mut sink = NoSink { faults: 0 };
    let parted = drive(
        rt,
        alloc,
        &voice,
        &turns,
        seat,
        link,
        clock,
        &mut sink,
        &mut session,
        &mut side,
        Next::Read,
    );
    Ended::of_serving(parted)
}

/// Serves a subscriber until the connection ends. It passes the gate before its first move.
pub fn serve_subscriber<
    S: Turned<Ask = BrokerEvent, Reply = BrokerStep>,
    L: Link,
    C: Clock,
    G: Gate,
    W: Wait,
>(
    rt: &W,
    alloc: Global,
    hub: &Hub<S>,
    seat: &mut Seat,
    link: &mut L,
    clock: &mut C,
    gate: &G,
    call: u32,
    name: &EndName,
    timers: Timers,
) -> Ended
    requires seat { seat.old.hub ≡ hub.now }
    requires sendable { (reply : Reply) → CanGive S.means reply → IsSendable reply }
    ensures seat { seat.new.hub ≡ hub.now }
    ensures silent { IsSilentInTime result (C.moment clock.old) (C.moment clock.new) }
    ensures talk { IsServed S.fixed S.records S.sound S.means S.sign_of L.Link (terms_by side.Feed timers name.now []) feed_rules (first_memory 32) (next.Say speech.WhoAreYou) (C.moment clock.old) result seat.old seat.new link.old link.new }
{
    let _made = seat.turns();
    gate.pass(call);
    let Ok(voice) = voice_of(alloc, name) else {
        return Ended::NoMemory;
    };
    let turns = OverHub { rt, hub };
    let start = clock.now();
    let mut session = Session::new(alloc, Side::Feed, timers, start);
    let mut side = Feed::new(alloc, MOST_UNANSWERED);
    let mut sink = NoSink { faults: 0 };
    let parted = drive(
        rt,
        alloc,
        &voice,
        &turns,
        seat,
        link,
        clock,
        &mut sink,
        &mut session,
        &mut side,
        Next::Say(Speech::WhoAreYou),
    );
    Ended::of_serving(parted)
}

/// Follows a broker until the connection ends. It passes the gate before its first move.
pub fn follow_upstream<
    S: Turned<Ask = BrokerEvent, Reply = BrokerStep>,
    L: Link,
    C: Clock,
    G: Gate,
    W: Wait,
>(
    rt: &W,
    alloc: Global,
    hub: &Hub<S>,
    seat: &mut Seat,
    link: &mut L,
    clock: &mut C,
    gate: &G,
    call: u32,
    name: &EndName,
    timers: Timers,
) -> Ended
    requires { seat.old.hub ≡ hub.now }
    ensures seat { seat.new.hub ≡ hub.now }
    ensures silent { IsSilentInTime result (C.moment clock.old) (C.moment clock.new) }
    ensures talk { IsServed S.fixed S.records S.sound S.means S.sign_of L.Link (terms_by side.Take timers name.now []) take_rules (record {}) next.Read (C.moment clock.old) result seat.old seat.new link.old link.new }
{
    let _made = seat.turns();
    gate.pass(call);
    let Ok(voice) = voice_of(alloc, name) else {
        return Ended::NoMemory;
    };
    let turns = OverHub { rt, hub };
    let start = clock.now();
    let mut session = Session::new(alloc, Side::Take, timers, start);
    let mut side = Follower;
    let mut sink = NoSink { faults: 0 };
    let parted = drive(
        rt,
        alloc,
        &voice,
        &turns,
        seat,
        link,
        clock,
        &mut sink,
        &mut session,
        &mut side,
        Next::Read,
    );
    Ended::of_serving(parted)
}
