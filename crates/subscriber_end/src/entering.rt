//! What a subscriber does with a packet.

ghost use Rattle.std.specs.Prelude.{◌≡◌, ◌⊎◌, ◌≤◌, true, false, length};
ghost use Rattle.voe_values.specs.declared.kind.NodeKind.TheVariants.{Subscriber};
ghost use Rattle.net_model.specs.Rules.{NodeRules};
ghost use Rattle.net_model.specs.Steps.{reply_to};
ghost use Rattle.net_model.specs.declared.note.Note.TheVariants.{Enter};
ghost use Rattle.node_notes.specs.Forms.{is_identifier, is_packet};
ghost use Rattle.node_book.specs.EndSteps.{HasRoomOf, Happens, IsReady, IsUnchanged, KeepsRest, lacked_memory};
ghost use Rattle.subscriber_end.specs.Subscriber.{AreRightFor, fate_of, outcome_of, replies};
ghost use Rattle.subscriber_end.specs.declared.event.SubscriberEvent.TheVariants.{Packet};

use net_model::{Judged, NakCode, Note, SubscriberStep, Verdict};
use node_book::{Added, EndBook};
use voe_disk::Disk;
use voe_validity::{Judging, judge};
use voe_values::Bytes;

/// Judges a packet, and enters it where it is good and new.
pub fn take<D: Disk>(end: &mut EndBook<D>, packet: Bytes) -> SubscriberStep
    requires ready { IsReady D.Disk end.old }
    requires kind { end.old.config.kind ≡ Subscriber }
    requires some { 1 ≤ length packet }
    requires few { length packet ≤ 1048576 }
    ensures rest { KeepsRest D.Disk end.old end.new }
    ensures happens { (rules : NodeRules) → AreRightFor end.old.config (Packet packet) rules
        → Happens D.Disk end.old end.new (outcome_of rules end.old.notes (Packet packet)) result (fate_of result) }
    ensures rules { (fate_of result ≡ lacked_memory) ⊎ ((rules : NodeRules) × AreRightFor end.old.config (Packet packet) rules) }
    ensures no_memory { fate_of result ≡ lacked_memory → IsUnchanged D.Disk end.old end.new }
{
    let Ok(Judging { judged, .. }) = judge(end.alloc(), packet.as_slice()) else {
        return SubscriberStep::NoMemory;
    };
    match judged {
        Judged::BadTree { number } => refuse(None, NakCode::Tree(number)),
        Judged::BadPacket { number, identifier } => refuse(identifier, NakCode::Validity(number)),
        Judged::Good { identifier } => enter(end, identifier, packet),
    }
}

fn refuse(identifier: Option<Bytes>, code: NakCode) -> SubscriberStep
    ensures { result ≡ SubscriberStep.Answer (Verdict.Nak identifier code) }
{
    SubscriberStep::Answer {
        verdict: Verdict::Nak { identifier, code },
    }
}

/// Enters a good packet, unless its identifier is known.
fn enter<D: Disk>(end: &mut EndBook<D>, identifier: Bytes, packet: Bytes) -> SubscriberStep
    requires ready { IsReady D.Disk end.old }
    requires kind { end.old.config.kind ≡ Subscriber }
    requires identifier { is_identifier identifier ≡ true }
    requires packet { is_packet packet ≡ true }
    ensures rest { KeepsRest D.Disk end.old end.new }
    ensures happens { (rules : NodeRules) → HasRoomOf end.old.config rules
        → Happens D.Disk end.old end.new (replies (reply_to rules end.old.notes false packet identifier (Enter identifier packet))) result (fate_of result) }
{
    if end.book().knows(identifier.as_slice()) {
        return SubscriberStep::Answer {
            verdict: Verdict::Ack { identifier },
        };
    }
    let Ok(own) = identifier.copy() else {
        return SubscriberStep::NoMemory;
    };
    match end.add(Note::Enter {
        identifier: own,
        packet,
    }) {
        Added::Kept => SubscriberStep::Answer {
            verdict: Verdict::Ack { identifier },
        },
        Added::Full => SubscriberStep::Answer {
            verdict: Verdict::Nak {
                identifier: Some(identifier),
                code: NakCode::Full,
            },
        },
        Added::Down { fallen } => SubscriberStep::Down {
            faults: fallen.faults,
            stopped: fallen.stopped,
        },
        Added::NoMemory => SubscriberStep::NoMemory,
    }
}
