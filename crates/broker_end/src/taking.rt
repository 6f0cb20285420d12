//! What a broker does with a packet.

ghost use Rattle.std.specs.Prelude.{◌≡◌, ◌⊎◌, ◌≤◌, ℕ, List, Bool, true, false, length};
ghost use Rattle.voe_tree.specs.Document.{Spells};
ghost use Rattle.voe_values.specs.declared.kind.NodeKind.TheVariants.{Broker};
ghost use Rattle.net_model.specs.Notes.{differs, knows, passing};
ghost use Rattle.net_model.specs.Rules.{NodeRules};
ghost use Rattle.net_model.specs.Steps.{broker_packet, known_answer, reply_to};
ghost use Rattle.net_model.specs.declared.note.Note.TheVariants.{Accept};
ghost use Rattle.node_notes.specs.Forms.{is_identifier, is_packet};
ghost use Rattle.path_filter.specs.Links.{AreDecided, AreOf, PassesLinks};
ghost use Rattle.node_book.specs.Ends.{IsSound};
ghost use Rattle.node_book.specs.EndSteps.{HasRoomOf, Happens, IsReady, IsUnchanged, KeepsRest, lacked_memory};
ghost use Rattle.broker_end.specs.Broker.{AreRightForPacket, HasDigests, fate_of, is_line, replies};

use crate::event::Way;
use net_model::{BrokerStep, Judged, NakCode, Note, Verdict};
use node_book::{Added, EndBook};
use path_filter::LinkFilters;
use voe_digest::Digest;
use voe_disk::Disk;
use voe_tree::Tree;
use voe_validity::{Judging, judge};
use voe_values::Bytes;

/// Judges a packet, and accepts it where it is good and new.
pub fn take<D: Disk>(
    end: &mut EndBook<D>,
    filters: &LinkFilters,
    from: Way,
    packet: Bytes,
) -> BrokerStep
    requires ready { IsReady D.Disk end.old }
    requires kind { end.old.config.kind ≡ Broker }
    requires filters { AreOf filters.now.sets end.old.config.links }
    requires some { 1 ≤ length packet }
    requires few { length packet ≤ 1048576 }
    ensures rest { KeepsRest D.Disk end.old end.new }
    ensures happens { (rules : NodeRules) → AreRightForPacket end.old.config end.old.notes packet rules
        → Happens D.Disk end.old end.new (replies (broker_packet rules (length end.old.config.links) end.old.notes (is_line from) packet)) result (fate_of result) }
    ensures rules { (fate_of result ≡ lacked_memory) ⊎ ((rules : NodeRules) × AreRightForPacket end.old.config end.old.notes packet rules) }
    ensures no_memory { fate_of result ≡ lacked_memory → IsUnchanged D.Disk end.old end.new }
{
    let Ok(Judging { judged, tree }) = judge(end.alloc(), packet.as_slice()) else {
        return BrokerStep::NoMemory;
    };
    match judged {
        Judged::BadTree { number } => refuse(None, NakCode::Tree(number)),
        Judged::BadPacket { number, identifier } => refuse(identifier, NakCode::Validity(number)),
        Judged::Good { identifier } => match tree {
            Some(tree) => accept(end, filters, from, identifier, packet, &tree),
            None => unreachable!(),
        },
    }
}

fn refuse(identifier: Option<Bytes>, code: NakCode) -> BrokerStep
    ensures { result ≡ BrokerStep.Answer (Verdict.Nak identifier code) }
{
    BrokerStep::Answer {
        verdict: Verdict::Nak { identifier, code },
    }
}

/// Accepts a good packet, unless its identifier is known.
fn accept<D: Disk>(
    end: &mut EndBook<D>,
    filters: &LinkFilters,
    from: Way,
    identifier: Bytes,
    packet: Bytes,
    tree: &Tree,
) -> BrokerStep
    requires ready { IsReady D.Disk end.old }
    requires kind { end.old.config.kind ≡ Broker }
    requires filters { AreOf filters.now.sets end.old.config.links }
    requires identifier { is_identifier identifier ≡ true }
    requires packet { is_packet packet ≡ true }
    requires tree { Spells tree.now.root packet }
    ensures rest { KeepsRest D.Disk end.old end.new }
    ensures happens { (rules : NodeRules) → HasDigests rules → HasRoomOf end.old.config rules
        → (knows end.old.notes identifier ≡ false → PassesLinks end.old.config.links packet rules)
        → Happens D.Disk end.old end.new (replies (reply_to rules end.old.notes (is_line from) packet identifier (Accept identifier (passing rules 0 (length end.old.config.links) packet) packet))) result (fate_of result) }
    ensures decided { (fate_of result ≡ lacked_memory) ⊎ ((knows end.old.notes identifier ≡ true) ⊎ ((bits : List Bool) × AreDecided bits filters.now.sets tree.now.root)) }
    ensures no_memory { fate_of result ≡ lacked_memory → IsUnchanged D.Disk end.old end.new }
{
    if end.book().knows(identifier.as_slice()) {
        return answer_known(end, from, identifier, &packet);
    }
    let Ok(links) = filters.passing(end.alloc(), tree) else {
        return BrokerStep::NoMemory;
    };
    let Ok(own) = identifier.copy() else {
        return BrokerStep::NoMemory;
    };
    match end.add(Note::Accept {
        identifier: own,
        links,
        packet,
    }) {
        Added::Kept => BrokerStep::Answer {
            verdict: Verdict::Ack { identifier },
        },
        Added::Full => refuse(Some(identifier), NakCode::Full),
        Added::Down { fallen } => BrokerStep::Down {
            faults: fallen.faults,
            stopped: fallen.stopped,
        },
        Added::NoMemory => BrokerStep::NoMemory,
    }
}

/// Answers a packet whose identifier is known: another packet of an author is a conflict.
fn answer_known<D: Disk>(
    end: &EndBook<D>,
    from: Way,
    identifier: Bytes,
    packet: &Bytes,
) -> BrokerStep
    requires kind { end.now.config.kind ≡ Broker }
    requires sound { IsSound D.Disk end.now }
    ensures { (rules : NodeRules) → HasDigests rules → result ≡ BrokerStep.Answer (known_answer rules end.now.notes (is_line from) packet.now identifier) }
{
    if from == Way::Line && differs(end, &identifier, packet) {
        return refuse(Some(identifier), NakCode::Conflict);
    }
    BrokerStep::Answer {
        verdict: Verdict::Ack { identifier },
    }
}

/// Whether the packet that is held under an identifier has another digest.
fn differs<D: Disk>(end: &EndBook<D>, identifier: &Bytes, packet: &Bytes) -> bool
    requires kind { end.now.config.kind ≡ Broker }
    requires sound { IsSound D.Disk end.now }
    ensures { (rules : NodeRules) → HasDigests rules → result ≡ differs rules end.now.notes identifier.now packet.now }
{
    match end.book().digest_of(identifier.as_slice()) {
        Some(held) => held != Digest::of(packet.as_slice()),
        None => false,
    }
}
