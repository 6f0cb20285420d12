//! A note comes onto the disk.

ghost use Rattle.std.specs.Prelude.{◌≡◌, ◌⊎◌, ◌↔◌, ◌<◌, ◌≤◌, true, false, [], ◌∷◌, ◌++◌, List, ℕ, not, nat_lt, ◌||◌, IfOk, IfErr, IfSome, OnOk, OnErr, IsErrOf, Some, None};
ghost use Rattle.std.specs.Option.{option_map};
ghost use Rattle.voe_disk.specs.Disk.{Rose, counted};
ghost use Rattle.voe_disk.specs.Failing.{passed};
ghost use Rattle.voe_disk.specs.Runs.{LeavesOnly, Untouched};
ghost use Rattle.gate_journal.specs.Device.{IsSameDisk};
ghost use Rattle.gate_journal.specs.Fault.{fault_of};
ghost use Rattle.gate_journal.specs.Appender.{HasPayloads};
ghost use Rattle.gate_journal.specs.Format.{kept, Stands, StandsBeforeOrAfter};
ghost use Rattle.node_notes.specs.Forms.{is_next};
ghost use Rattle.node_notes.specs.Held.{held as held_by, is_bringing as brings_any};
ghost use Rattle.node_notes.specs.Spelling.{note_payload};
ghost use Rattle.node_notes.specs.Tells.{payloads_of};
ghost use Rattle.node_book.specs.Fault.{ComesFromDisk, book_fault};
ghost use Rattle.node_book.specs.Keeps.{has_room as has_room_for};
ghost use Rattle.node_book.specs.Records.{AreKept, AreOnDisk, HasNotePlace, payloads_in};

use crate::fault::BookFault;
use crate::records::{Records, is_bringing};
use gate_journal::{Appender, JournalFault};
use net_model::Note;
use node_notes::{note_len, write_note};
use std::alloc::Global;
use voe_disk::{Disk, DiskFail};

const MAX_IDENTIFIERS: usize = 65_536;

/// Appends a note that may stand behind the others, once there is room for it in memory, and gives a copy of the
/// identifier that it brings.
pub fn append_note<D: Disk>(
    alloc: Global,
    journal: &mut Appender<D>,
    records: &mut Records,
    note: &Note,
) -> Result<Vec<u8>, BookFault>
    requires on_disk { AreOnDisk D.Disk journal.old records.old }
    requires next { is_next records.old.config records.old.notes.items note.now ≡ true }

    ensures config { records.new.config ≡ records.old.config }
    ensures notes { records.new.notes.items ≡ records.old.notes.items }
    ensures kept { AreKept records.new }
    ensures ok { OnOk result (HasPayloads D.Disk journal.new (payloads_of records.old.config (records.old.notes.items ++ note.now ∷ []))) }
    ensures up { OnOk result (journal.new.down ≡ None) }
    ensures place { IfOk result (λ key. HasNotePlace note.now key records.new) }
    ensures err { OnErr result (HasPayloads D.Disk journal.new (payloads_in records.old)) }
    ensures any_moment { journal.old.down ≡ None → LeavesOnly D.Disk journal.old.disk journal.new.disk (StandsBeforeOrAfter (payloads_in records.old) (note_payload note.now)) }

    ensures four { OnOk result (D.failing journal.new.disk ≡ option_map passed (option_map passed (option_map passed (option_map passed (D.failing journal.old.disk))))) }
    ensures counted { OnOk result (D.arming journal.new.disk ≡ counted (counted (counted (counted (D.arming journal.old.disk))))) }
    ensures enough { OnOk result (IfSome (D.arming journal.old.disk).calls (λ calls. 4 ≤ calls)) }
    ensures few { IsErrOf result BookFault.Stopped → journal.old.down ≡ None
        → (calls : ℕ) × ((D.arming journal.old.disk).calls ≡ Some calls) × (calls < 4) }

    ensures full { (result ≡ Err BookFault.Full) ↔ ((journal.old.down ≡ None) × (has_room_for records.old.config records.old.notes.items note.now ≡ false)) }
    ensures full_unchanged { IsErrOf result BookFault.Full → journal.new ≡ journal.old }
    ensures no_memory { IsErrOf result BookFault.NoMemory → Untouched D.Disk journal.old.disk journal.new.disk × (journal.new.down ≡ None) }
    ensures fault { IsErrOf result BookFault.DiskFault → (journal.new.down ≡ Some DiskFail.Fault)
        × ((journal.old.down ≡ Some DiskFail.Fault) ⊎ Rose (D.faults journal.old.disk) (D.faults journal.new.disk)) }
    ensures stopped { IsErrOf result BookFault.Stopped → (journal.new.down ≡ Some DiskFail.Stopped)
        × ((journal.old.down ≡ Some DiskFail.Stopped) ⊎ ((D.arming journal.new.disk).calls ≡ Some 0)) }
    ensures down { (fail : _) → journal.old.down ≡ Some fail → (result ≡ Err (book_fault (fault_of fail))) × (journal.new ≡ journal.old) }
    ensures causes { IfErr result (λ e. (e ≡ BookFault.Full) ⊎ ComesFromDisk e) }
    ensures same_disk { IsSameDisk D.Disk journal.old.disk journal.new.disk }
    ensures quiet { (IsErrOf result BookFault.DiskFault → ⊥) → D.faults journal.new.disk ≡ D.faults journal.old.disk }
    ensures stopped_image { IsErrOf result BookFault.Stopped → journal.old.down ≡ None
        → (fill : ℕ) (image : List ℕ) → D.crash_image journal.new.disk fill ≡ Some image
        → Stands image (kept (D.arming journal.old.disk).calls fill (payloads_in records.old) (note_payload note.now)) }
{
    if let Some(fail) = journal.down() {
        return Err(BookFault::from(JournalFault::from(fail)));
    }
    if !has_room(journal, records, note) {
        return Err(BookFault::Full);
    }
    let key = records.prepare(alloc, note)?;
    let payload = write_note(alloc, note)?;
    journal.append(&payload)?;
    Ok(key)
}

// Whether the journal has room for a note's payload, and the book for an identifier that it brings.
fn has_room<D: Disk>(journal: &Appender<D>, records: &Records, note: &Note) -> bool
    requires on_disk { AreOnDisk D.Disk journal.now records.now }
    requires next { is_next records.now.config records.now.notes.items note.now ≡ true }
    ensures { result ≡ has_room_for records.now.config records.now.notes.items note.now }
{
    journal.has_room(note_len(note)) && has_identifier(records, note)
}

// Whether the book has room for an identifier that a note brings.
fn has_identifier(records: &Records, note: &Note) -> bool
    requires { AreKept records.now }
    ensures { result ≡ (not (brings_any note.now) || nat_lt (held_by records.now.notes.items) 65536) }
{
    !is_bringing(note) || records.held() < MAX_IDENTIFIERS
}
