//! What a broker's turns say of the journal, each told by a function that does nothing.

ghost use Rattle.std.specs.Prelude.{ℕ, List, map, take};
ghost use Rattle.hub_lock.specs.Journal.{payloads};
ghost use Rattle.hub_lock.specs.declared.view.Entry.{Entry as Recorded};
ghost use Rattle.net_model.specs.declared.state.Verdict.TheVariants.{Ack};
ghost use Rattle.net_model.specs.declared.step.BrokerStep.TheVariants as reply;
ghost use Rattle.node_notes.specs.Spelling.{note_payload};
ghost use Rattle.node_book.specs.Ends.{EndView};
ghost use Rattle.broker_end.specs.Turning.{MeansTurn};
ghost use Rattle.broker_end.specs.declared.event.Way.{Way as From};
ghost use Rattle.vtp_server.specs.HubTurns.{FitsAt};
ghost use Rattle.vtp_server.specs.Synced.{IsOwed, IsSynced};
ghost use Rattle.vtp_server.specs.declared.ask.BrokerAsk.TheVariants as ask;

use voe_disk::Disk;

/// An acknowledgement names an identifier that the broker held in the front of the turn that gave it, and had synced.
pub fn acknowledged_is_synced<D: Disk>()
    ensures { (fixed_of : EndView D → List ℕ) (number : ℕ) (fixed : List ℕ) (journal : List Recorded) (place front : ℕ) (from : From) (packet identifier : List ℕ)
        → FitsAt fixed_of (λ end. map note_payload end.notes) (λ old happened answer new. MeansTurn D.Disk old happened answer new) number fixed journal (ask.Packet from packet) (reply.Answer (Ack identifier)) place front
        → IsSynced D.Disk (take front (payloads journal)) identifier }
{}

/// A packet that a configured link is given was owed on it in the front of the turn that gave it.
pub fn given_is_owed<D: Disk>()
    ensures { (fixed_of : EndView D → List ℕ) (number : ℕ) (fixed : List ℕ) (journal : List Recorded) (place front link session after at : ℕ) (identifier packet : List ℕ)
        → FitsAt fixed_of (λ end. map note_payload end.notes) (λ old happened answer new. MeansTurn D.Disk old happened answer new) number fixed journal (ask.Next link session after) (reply.Packet at identifier packet) place front
        → IsOwed D (take place (payloads journal)) link at identifier packet }
{}
