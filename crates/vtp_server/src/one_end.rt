//! The calls of an author and of a subscriber over the one end that they are lent.

ghost use Rattle.std.specs.Prelude.{◌≡◌, ◌<◌, ◌≤◌, [], IfOk, None, length};
ghost use Rattle.node_book.specs.Keeps.{has_room};
ghost use Rattle.vtp_session.specs.declared.side.Side.TheVariants as side;
ghost use Rattle.vtp_server.specs.Calls.{IsFollowed, IsSilentInTime, IsSubmitted, IsSubmittedInTime, terms_by};
ghost use Rattle.vtp_server.specs.Entered.{HasEntered};
ghost use Rattle.vtp_server.specs.OneEnd.{IsAuthorTurn, IsSameEnd, IsSubscriberTurn, state_of};
ghost use Rattle.vtp_server.specs.Submission.{AllExpected, HasNone, IsNothingTold, IsToldOf};

use crate::ended::{Ended, Submitted};
use crate::over_author::OverAuthor;
use crate::over_subscriber::OverSubscriber;
use crate::speech::Voice;
use crate::submitting::{listen_over, submit_over};
use author_end::AuthorEnd;
use std::alloc::Global;
use std::marker::PhantomData;
use std::sync::Wait;
use subscriber_end::SubscriberEnd;
use voe_disk::Disk;
use voe_outside::{Clock, Link, Sink};
use voe_values::{EndName, Listing, NoMemory};
use vtp_session::Timers;

fn voice_of(alloc: Global, name: &EndName) -> Result<Voice, NoMemory>
    ensures { IfOk result (λ voice. voice ≡ record { name = name.now; filters = [] }) }
{
    let name = name.copy()?;
    Ok(Voice {
        name,
        filters: Listing::new(alloc),
    })
}

/// Sends the first unanswered packet of a configured line and waits for its answer, which it records. `Ack` and `Nak` come
/// where the answer is recorded, `Nothing` exactly where the end is up and the line has no unanswered packet, and `Full` where
/// the journal has no room for the answer. With any other answer the end's notes stay, but that want of memory may come
/// behind the record.
pub fn submit<L: Link, C: Clock, D: Disk, W: Wait>(
    rt: &W,
    alloc: Global,
    end: &mut AuthorEnd<D>,
    link: &mut L,
    clock: &mut C,
    timers: Timers,
    line: u16,
) -> Submitted
    requires { line < length end.old.config.links }
    ensures told { IsToldOf line (λ notes note. has_room end.old.config notes note) (state_of D.Disk end.old) result (state_of D.Disk end.new) }
    ensures nothing { end.old.down ≡ None → HasNone line end.old.notes → IsNothingTold result }
    ensures same { IsSameEnd D.Disk end.old end.new }
    ensures forward { C.moment clock.old ≤ C.moment clock.new }
    ensures silent { IsSubmittedInTime result (C.moment clock.old) (C.moment clock.new) }
    ensures talk { IsSubmitted (λ before ask reply place front after. IsAuthorTurn D.Disk line before ask reply place front after) L.Link (terms_by side.Author timers end.old.config.name []) (C.moment clock.old) result end.old end.new link.old link.new }
    ensures replies { (h : IsSubmitted (λ before ask reply place front after. IsAuthorTurn D.Disk line before ask reply place front after) L.Link (terms_by side.Author timers end.old.config.name []) (C.moment clock.old) result end.old end.new link.old link.new) → AllExpected h.ends.moves }
{
    let Ok(voice) = voice_of(alloc, &end.book().config().name) else {
        return Submitted::Ended(Ended::NoMemory);
    };
    let turns = OverAuthor {
        line,
        end: PhantomData,
    };
    submit_over(rt, alloc, &turns, end, &voice, link, clock, timers)
}

/// Follows a broker until so many packets were entered, and tells a line for each of them. `Counted` comes where so many were
/// entered and their lines told; with any other answer fewer lines were told, and what was entered stays.
pub fn listen<L: Link, C: Clock, D: Disk, K: Sink, W: Wait>(
    rt: &W,
    alloc: Global,
    end: &mut SubscriberEnd<D>,
    link: &mut L,
    clock: &mut C,
    sink: &mut K,
    timers: Timers,
    count: u64,
) -> Ended
    ensures entered { HasEntered count (state_of D.Disk end.old) (state_of D.Disk end.new) result (K.held sink.old) (K.held sink.new) }
    ensures same { IsSameEnd D.Disk end.old end.new }
    ensures forward { C.moment clock.old ≤ C.moment clock.new }
    ensures silent { IsSilentInTime result (C.moment clock.old) (C.moment clock.new) }
    ensures talk { IsFollowed (λ before packet reply place front after. IsSubscriberTurn D.Disk before packet reply place front after) L.Link K.Sink (terms_by side.Take timers end.old.config.name []) count (length end.old.notes) (C.moment clock.old) result end.old end.new link.old link.new sink.old sink.new }
{
    let Ok(voice) = voice_of(alloc, &end.book().config().name) else {
        return Ended::NoMemory;
    };
    let turns = OverSubscriber { end: PhantomData };
    listen_over(
        rt, alloc, &turns, end, &voice, link, clock, sink, timers, count,
    )
}
