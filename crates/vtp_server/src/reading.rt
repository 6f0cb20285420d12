//! One read of a connection.

ghost use Rattle.std.specs.Prelude.{◌≡◌, ◌≤◌, ◌<◌, ◌++◌, ℕ, List, [], length, take, true, false, IfOk, IfErr, OnErr, OnOk};
ghost use Rattle.voe_outside.specs.Causes.{Rose};
ghost use Rattle.vtp_framing.specs.Front.{IsUnfinished};
ghost use Rattle.vtp_server.specs.Carried.{Carried};
ghost use Rattle.vtp_server.specs.Counts.{NoLess, link_counts};
ghost use Rattle.vtp_server.specs.Moves.{Found};
ghost use Rattle.vtp_server.specs.Moves as moves;
ghost use Rattle.vtp_server.specs.InTime.{GoesOnInTime, InTime, SilentInTime};
ghost use Rattle.vtp_server.specs.Reading.{FetchEnds, FitsBuf, Hearing, HearingEnds, OnIdle, SilenceEnds, piece_of};
ghost use Rattle.vtp_server.specs.ReadMoves.{ReadEnds, ReadMade};

use crate::breach::Breach;
use voe_outside::{Clock, Got, Link};
use vtp_session::{Act, Session, Tick};

/// What a read found, when, and whether a beat is due.
#[derive(Drop)]
pub struct Seen {
    pub act: Act,
    pub moment: u64,
    pub is_beat_due: bool,
}

/// What came from a link.
#[derive(Clone, Copy, Debug)]
pub enum Fetched {
    /// So many bytes stand at the buffer's start; none where the link wasn't asked.
    Piece(usize),
    Idle,
}

/// Asks the link for bytes, where any are wanted.
fn fetch<L: Link>(link: &mut L, wants: bool, buf: &mut [u8]) -> Result<Fetched, Breach>
    requires { 0 < length buf.old }
    ensures fits { IfOk result (λ f. FitsBuf f buf.new) }
    ensures carried { IfOk result (λ f. Carried (L.traffic link.old) (L.traffic link.new) (piece_of f buf.new) []) }
    ensures idle { IfOk result (λ f. OnIdle f ((wants ≡ true) × Rose (L.idle_count link.old) (L.idle_count link.new))) }
    ensures err_nothing { OnErr result (Carried (L.traffic link.old) (L.traffic link.new) [] []) }
    ensures err_wants { OnErr result (wants ≡ true) }
    ensures err { IfErr result (λ e. FetchEnds e (link_counts L.Link link.old) (link_counts L.Link link.new)) }
    ensures counts { NoLess (link_counts L.Link link.old) (link_counts L.Link link.new) }
{
    if !wants {
        return Ok(Fetched::Piece(0));
    }
    match link.receive(buf) {
        Got::Took(count) => Ok(Fetched::Piece(count)),
        Got::Idle => Ok(Fetched::Idle),
        Got::End => Err(Breach::PeerClosed),
        Got::Failed => Err(Breach::LinkFault),
    }
}

/// Hears the next message of the session behind these bytes.
fn hear(session: &mut Session, piece: &[u8], now: u64) -> Result<Seen, Breach>
    ensures ok { IfOk result (λ seen. (found : Found) × Hearing session.old piece.now now found seen session.new) }
    ensures err { IfErr result (λ e. HearingEnds e session.old piece.now session.new) }
{
    let Ok(()) = session.take(piece, now) else {
        return Err(Breach::NoMemory);
    };
    let Ok(act) = session.next() else {
        return Err(Breach::NoMemory);
    };
    match act.garbage() {
        Some((place, fault)) => Err(Breach::Garbage { place, fault }),
        None => {
            let is_beat_due = session.tick(now).is_beat();
            Ok(Seen {
                act,
                moment: now,
                is_beat_due,
            })
        }
    }
}

/// Notes that the link was idle.
fn hear_nothing(session: &mut Session, now: u64) -> Result<Seen, Breach>
    ensures ok { IfOk result (λ seen. Hearing session.old [] now moves.Idle seen session.new) }
    ensures err { IfErr result (λ e. SilenceEnds e session.old now session.new) }
{
    match session.tick(now) {
        Tick::Silent { heard, now } => Err(Breach::Silent { heard, now }),
        Tick::Beat => Ok(Seen {
            act: Act::Nothing,
            moment: now,
            is_beat_due: true,
        }),
        Tick::Quiet => Ok(Seen {
            act: Act::Nothing,
            moment: now,
            is_beat_due: false,
        }),
    }
}

/// Reads the next message, or notes that there is none. The link is asked only where no whole message is there.
pub fn read<L: Link, C: Clock>(
    link: &mut L,
    clock: &mut C,
    session: &mut Session,
) -> Result<Seen, Breach>
    requires { InTime session.old.watch (C.moment clock.old) }
    ensures time { OnOk result (GoesOnInTime session.old.watch session.new.watch (C.moment clock.new)) }
    ensures forward { C.moment clock.old ≤ C.moment clock.new }
    ensures silent { IfErr result (λ e. SilentInTime e session.old.watch (C.moment clock.new)) }
    ensures ok { IfOk result (λ seen. ReadMade session.old (L.traffic link.old) seen session.new (L.traffic link.new)) }
    ensures err { IfErr result (λ e. ReadEnds e session.old (L.traffic link.old) session.new (L.traffic link.new) (link_counts L.Link link.old) (link_counts L.Link link.new)) }
    ensures counts { NoLess (link_counts L.Link link.old) (link_counts L.Link link.new) }
{
    let mut buf = [0u8; 4096];
    let fetched = fetch(link, session.wants_bytes(), &mut buf)?;
    let now = clock.now();
    match fetched {
        Fetched::Piece(count) => hear(session, &buf[..count], now),
        Fetched::Idle => hear_nothing(session, now),
    }
}
