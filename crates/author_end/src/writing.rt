//! What an author does at an event.

ghost use Rattle.std.specs.Prelude.{◌≡◌, ◌⊎◌, ◌≤◌, ◌<◌, true, length};
ghost use Rattle.voe_values.specs.declared.kind.NodeKind.TheVariants.{Author};
ghost use Rattle.net_model.specs.Rules.{NodeRules};
ghost use Rattle.net_model.specs.Steps.{answer_note, author_answer, author_next, write_judged};
ghost use Rattle.net_model.specs.declared.step.Judged.TheVariants.{Good};
ghost use Rattle.node_notes.specs.Forms.{is_identifier, is_packet};
ghost use Rattle.node_book.specs.EndSteps.{HasAnswered, HasRoomOf, Happens, IsReady, IsUnchanged, KeepsRest, lacked_memory};
ghost use Rattle.author_end.specs.Author.{AreRightFor, fate_of, outcome_of};
ghost use Rattle.author_end.specs.declared.event.AuthorEvent.TheVariants.{Write};

use net_model::{AuthorStep, Judged, NakCode, Note};
use node_book::{Added, EndBook};
use voe_disk::Disk;
use voe_validity::{Judging, judge};
use voe_values::{Bytes, Ivorn};

/// Judges a packet, and writes it where it is good and new.
pub fn write<D: Disk>(end: &mut EndBook<D>, packet: Bytes) -> AuthorStep
    requires ready { IsReady D.Disk end.old }
    requires kind { end.old.config.kind ≡ Author }
    requires some { 1 ≤ length packet }
    requires few { length packet ≤ 1048576 }
    ensures rest { KeepsRest D.Disk end.old end.new }
    ensures happens { (rules : NodeRules) → AreRightFor end.old.config (Write packet) rules
        → Happens D.Disk end.old end.new (outcome_of rules end.old.notes (Write packet)) result (fate_of result) }
    ensures rules { (fate_of result ≡ lacked_memory) ⊎ ((rules : NodeRules) × AreRightFor end.old.config (Write packet) rules) }
    ensures no_memory { fate_of result ≡ lacked_memory → IsUnchanged D.Disk end.old end.new }
{
    let Ok(Judging { judged, .. }) = judge(end.alloc(), packet.as_slice()) else {
        return AuthorStep::NoMemory;
    };
    match judged {
        Judged::BadTree { number } => AuthorStep::Refused {
            code: NakCode::Tree(number),
        },
        Judged::BadPacket { number, .. } => AuthorStep::Refused {
            code: NakCode::Validity(number),
        },
        Judged::Good { identifier } => record(end, identifier, packet),
    }
}

/// Writes a good packet, unless its identifier is known.
fn record<D: Disk>(end: &mut EndBook<D>, identifier: Bytes, packet: Bytes) -> AuthorStep
    requires ready { IsReady D.Disk end.old }
    requires kind { end.old.config.kind ≡ Author }
    requires identifier { is_identifier identifier ≡ true }
    requires packet { is_packet packet ≡ true }
    ensures rest { KeepsRest D.Disk end.old end.new }
    ensures happens { (rules : NodeRules) → HasRoomOf end.old.config rules
        → Happens D.Disk end.old end.new (write_judged rules end.old.notes packet (Good identifier)) result (fate_of result) }
{
    if end.book().knows(identifier.as_slice()) {
        return AuthorStep::Known;
    }
    match end.add(Note::Wrote { identifier, packet }) {
        Added::Kept => AuthorStep::Wrote,
        Added::Full => AuthorStep::Full,
        Added::Down { fallen } => AuthorStep::Down {
            faults: fallen.faults,
            stopped: fallen.stopped,
        },
        Added::NoMemory => AuthorStep::NoMemory,
    }
}

/// The first packet at or past a place that is unanswered on a line.
pub fn next<D: Disk>(end: &EndBook<D>, line: u16, after: usize) -> AuthorStep
    requires ready { IsReady D.Disk end.now }
    requires kind { end.now.config.kind ≡ Author }
    requires line { line < length end.now.config.links }
    ensures { Happens D.Disk end.now end.now (author_next end.now.notes line after) result (fate_of result) }
{
    match end.next(line, after) {
        Ok(Some(given)) => AuthorStep::Packet {
            at: given.at,
            identifier: given.identifier,
            packet: given.packet,
        },
        Ok(None) => AuthorStep::Nothing,
        Err(_) => AuthorStep::NoMemory,
    }
}

/// Records an answer to what is unanswered on a line.
pub fn answer<D: Disk>(end: &mut EndBook<D>, line: u16, identifier: &Ivorn, ack: bool) -> AuthorStep
    requires ready { IsReady D.Disk end.old }
    requires kind { end.old.config.kind ≡ Author }
    requires line { line < length end.old.config.links }
    ensures rest { KeepsRest D.Disk end.old end.new }
    ensures happens { (rules : NodeRules) → HasRoomOf end.old.config rules
        → Happens D.Disk end.old end.new (author_answer rules end.old.notes line identifier.now ack) result (fate_of result) }
    ensures no_memory { fate_of result ≡ lacked_memory → IsUnchanged D.Disk end.old end.new }
{
    let name = identifier.as_str().as_bytes();
    if !end.book().is_open(line, name) {
        return AuthorStep::Passed;
    }
    let Ok(identifier) = Bytes::of(end.alloc(), name) else {
        return AuthorStep::NoMemory;
    };
    match end.add(answer_note(line, identifier, ack)) {
        Added::Kept => AuthorStep::Noted,
        Added::Full => AuthorStep::Full,
        Added::Down { fallen } => AuthorStep::Down {
            faults: fallen.faults,
            stopped: fallen.stopped,
        },
        Added::NoMemory => AuthorStep::NoMemory,
    }
}

/// The record of an answer.
fn answer_note(line: u16, identifier: Bytes, ack: bool) -> Note
    ensures { result ≡ answer_note ack line identifier }
{
    if ack {
        Note::Acked { line, identifier }
    } else {
        Note::Refused { line, identifier }
    }
}
