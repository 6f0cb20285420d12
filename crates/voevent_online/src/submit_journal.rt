//! The packet in the author's journal, and the answer that stands there.

ghost use Rattle.std.specs.Prelude.{◌≡◌, ◌≤◌, [], List, None, false, length, slice_get, true, ℕ};
ghost use Rattle.voe_values.specs.declared.kind.NodeKind.TheVariants.{Author};
ghost use Rattle.net_model.specs.Notes.{is_open, knows};
ghost use Rattle.net_model.specs.declared.step.Judged.TheVariants.{Good};
ghost use Rattle.node_notes.specs.Tells.{AreInOrder};
ghost use Rattle.voe_validity.specs.Judging.{IsJudged};
ghost use Rattle.voevent_online.specs.Held.{IsWriting, answer_in, gives_answer, has_answer, holds_other, writing_of};

use author_end::{AuthorEnd, AuthorEvent};
use net_model::{AuthorStep, Note};
use node_book::Book;
use voe_digest::Digest;
use voe_disk::Disk;
use voe_values::Bytes;

/// What became of a packet that was to be written.
#[derive(Clone, Copy, Debug)]
pub enum Writing {
    /// It stands in the journal.
    Held,
    /// The journal has no room for it.
    Full,
    /// The disk failed.
    Down,
    /// There was no memory.
    NoMemory,
}

/// Whether the journal has another packet under this identifier, by its digest.
pub(crate) fn holds_other<D: Disk>(book: &Book<D>, identifier: &[u8], packet: &[u8]) -> bool
    ensures { result ≡ holds_other book.now.notes identifier.now packet.now }
{
    match book.digest_of(identifier) {
        Some(digest) => digest.bytes != Digest::of(packet).bytes,
        None => false,
    }
}

/// What a step says of a packet that was to be written.
fn writing_of(step: AuthorStep) -> Writing
    ensures { result ≡ writing_of step }
{
    match step {
        AuthorStep::Wrote | AuthorStep::Known => Writing::Held,
        AuthorStep::Full => Writing::Full,
        AuthorStep::Down { .. } => Writing::Down,
        _ => Writing::NoMemory,
    }
}

/// Writes a good packet in the journal, unless its identifier stands there.
pub(crate) fn write_packet<D: Disk>(end: &mut AuthorEnd<D>, packet: Bytes) -> Writing
    requires up { end.old.down ≡ None }
    requires some { 1 ≤ length packet }
    requires few { length packet ≤ 1048576 }
    ensures { (identifier : List ℕ) → IsJudged packet (Good identifier) → IsWriting D.Disk identifier packet result end.old end.new }
{
    writing_of(end.step(AuthorEvent::Write { packet }))
}

/// Whether a note is an acknowledgement of this identifier on line 0.
fn acknowledges(note: &Note, identifier: &[u8]) -> bool
    ensures { result ≡ gives_answer true 0 identifier.now note.now }
{
    match note {
        Note::Acked {
            line,
            identifier: own,
        } => *line == 0 && identifier == own.as_slice(),
        _ => false,
    }
}

/// Whether the note of this number is one.
fn acknowledges_at<D: Disk>(book: &Book<D>, at: usize, identifier: &[u8]) -> bool
    ensures { result ≡ answer_in true 0 identifier.now (slice_get book.now.notes at) }
{
    match book.note(at) {
        Some(note) => acknowledges(note, identifier),
        None => false,
    }
}

/// Whether the journal has an acknowledgement of this identifier on line 0.
fn has_ack<D: Disk>(book: &Book<D>, identifier: &[u8]) -> bool
    ensures { result ≡ has_answer true 0 identifier.now book.now.notes }
{
    for at in 0..book.notes() {
        if acknowledges_at(book, at, identifier) {
            return true;
        }
    }
    false
}

/// Whether the answer that stands in an author's journal to this packet of line 0 is an acknowledgement; otherwise it is a
/// refusal.
pub(crate) fn is_acknowledged<D: Disk>(book: &Book<D>, identifier: &[u8]) -> bool
    requires kind { book.now.config.kind ≡ Author }
    requires order { AreInOrder book.now.config [] book.now.notes }
    requires known { knows book.now.notes identifier.now ≡ true }
    requires answered { is_open book.now.notes 0 identifier.now ≡ false }
    ensures { has_answer result 0 identifier.now book.now.notes ≡ true }
{
    has_ack(book, identifier)
}
