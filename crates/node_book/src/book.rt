//! A book: a configuration and notes, kept in a journal.

ghost use Rattle.std.specs.Prelude.{◌≡◌, ◌⊎◌, ◌↔◌, ◌<◌, ◌≤◌, true, false, cond, [], ◌∷◌, ◌++◌, List, ℕ, length, IfOk, IfErr, IfSome, IsSome, OnOk, OnErr, slice_get, Some, None};
ghost use Rattle.std.specs.Option.{option_copied, option_map};
ghost use Rattle.sha1.specs.Sha1.{sha1};
ghost use Rattle.voe_disk.specs.Disk.{IsDurable, OneStep, Rose, counted};
ghost use Rattle.voe_disk.specs.Failing.{passed};
ghost use Rattle.voe_disk.specs.Runs.{LeavesOnly, Untouched};
ghost use Rattle.gate_journal.specs.Device.{IsSameDisk};
ghost use Rattle.net_model.specs.Notes.{knows as knows_among, is_open as is_open_among, to_send, first_from};
ghost use Rattle.node_notes.specs.Forms.{is_author, is_broker, is_config, is_identifier, is_next};
ghost use Rattle.node_notes.specs.Held.{identifier_in, packet_held};
ghost use Rattle.node_notes.specs.Open.{count_open, place_of};
ghost use Rattle.node_book.specs.Book.{IsSound};
ghost use Rattle.node_book.specs.Fault.{ComesFromDisk, IsMissing};
ghost use Rattle.node_book.specs.Keeps.{Keeps, KeepsBeforeOrAfter, kept_notes, has_room};
ghost use Rattle.node_book.specs.Making.{IsFree, IsMakeRefusal, IsMaking, IsMakingSoFar};
ghost use Rattle.node_book.specs.Reading.{IsRefusal};

use crate::appending::append_note;
use crate::fault::BookFault;
use crate::making::make_journal;
use crate::opening::read_records;
use crate::records::Records;
use gate_journal::{Appender, Journal};
use net_model::Note;
use node_notes::{Config, keeps_form};
use std::alloc::Global;
use std::marker::Model;
use voe_digest::Digest;
use voe_disk::{CrashDisk, Disk, DiskFail};
use voe_values::NodeKind;

/// A node's configuration and notes, on a disk that the book owns. A note that was added is there after a crash at any
/// later moment. After a failure of the disk the book is down; the disk is taken back and loaded again.
#[derive(Drop)]
pub struct Book<D: Disk> {
    alloc: Global,
    journal: Appender<D>,
    records: Records,
}

impl<D: Disk> Model for Book<D> {
    ghost use Rattle.node_book.specs.Book.{BookView};
    ghost use Rattle.node_book.specs.Records.{AreOnDisk};

    ghost Value = { BookView D };

    ghost view = { λ b. record { disk = b.journal.disk; config = b.records.config; notes = b.records.notes.items; down = b.journal.down } };

    ghost invariant = { λ b. AreOnDisk D.Disk b.journal b.records };
}

impl<D: Disk> Book<D> {
    ghost use Rattle.gate_journal.specs.Fault.{fault_of};
    ghost use Rattle.node_book.specs.Fault.{book_fault};

    /// Makes a book on a disk that has no journal, or one with no payload. An `Err` hands the disk back: `AlreadyMade`
    /// (G5) exactly where the journal has a payload, `NotJournal` and `Damaged` (G2, G3) as the bytes say, otherwise what
    /// the disk answered, or `NoMemory`.
    pub fn make(alloc: Global, disk: D, config: Config) -> Result<Self, (D, BookFault)>
        requires { is_config config ≡ true }

        ensures ok { IfOk result (λ book. (book.config ≡ config) × (book.notes ≡ []) × (book.down ≡ None) × IsSound D.Disk book) }
        ensures was_free { OnOk result (IfSome (D.reads disk) IsFree) }
        ensures refused { IfErr result (λ e. IsMakeRefusal e.1 (D.reads disk)) }
        ensures reading_err { IfErr result (λ e. IsMissing e.1 → (D.reads e.0 ≡ D.reads disk) × IsDurable (D.reads e.0) (D.may_leave e.0) × LeavesOnly D.Disk disk e.0 (D.may_leave disk)) }

        // After the first sync a crash at any moment leaves no journal, one with no payload, or one that keeps the
        // configuration and no note.
        ensures any_moment { IfOk result (λ book. IsMaking D.Disk config disk book.disk) }
        ensures any_moment_err { IfErr result (λ e. IsMakingSoFar D.Disk config disk e.0) }

        ensures same_disk { IfOk result (λ book. IsSameDisk D.Disk disk book.disk × (D.faults book.disk ≡ D.faults disk)) }
        ensures same_disk_err { IfErr result (λ e. IsSameDisk D.Disk disk e.0 × ((e.1 ≡ BookFault.DiskFault → ⊥) → D.faults e.0 ≡ D.faults disk)) }
        ensures fault { IfErr result (λ e. e.1 ≡ BookFault.DiskFault → Rose (D.faults disk) (D.faults e.0)) }
        ensures stopped { IfErr result (λ e. e.1 ≡ BookFault.Stopped → (D.arming e.0).calls ≡ Some 0) }
    {
        let Ok(records) = Records::new(alloc, config) else {
            return Err((disk, BookFault::NoMemory));
        };
        let journal = make_journal(alloc, disk, &records.config)?;
        Ok(Book {
            alloc,
            journal: journal.into_appender(),
            records,
        })
    }

    /// Reads the book of a disk, beginning with a sync. An `Err` hands the disk back: `Unmade` (G1) where it has no
    /// journal or one with no payload, `NotJournal`, `Damaged` and `BadNote` (G2, G3, G6) exactly as the bytes say,
    /// otherwise what the disk answered, or `NoMemory`.
    pub fn load(alloc: Global, disk: D) -> Result<Self, (D, BookFault)>
        ensures ok { IfOk result (λ book. (book.down ≡ None) × IsSound D.Disk book) }
        ensures told { IfOk result (λ book. IfSome (D.reads disk) (λ file. Keeps file book.config book.notes)) }
        ensures refused { IfErr result (λ e. IsRefusal e.1 (D.reads disk)) }

        // The disk reads as before, and where its bytes were judged a crash leaves what it reads.
        ensures reading { IfOk result (λ book. D.reads book.disk ≡ D.reads disk) }
        ensures reading_err { IfErr result (λ e. D.reads e.0 ≡ D.reads disk) }
        ensures durable { IfOk result (λ book. IsDurable (D.reads book.disk) (D.may_leave book.disk)) }
        ensures durable_err { IfErr result (λ e. IsMissing e.1 → IsDurable (D.reads e.0) (D.may_leave e.0)) }
        ensures no_memory { IfErr result (λ e. e.1 ≡ BookFault.NoMemory → Untouched D.Disk disk e.0 ⊎ IsDurable (D.reads e.0) (D.may_leave e.0)) }

        // A crash leaves nothing that it might not have left before.
        ensures any_moment { IfOk result (λ book. LeavesOnly D.Disk disk book.disk (D.may_leave disk)) }
        ensures any_moment_err { IfErr result (λ e. LeavesOnly D.Disk disk e.0 (D.may_leave disk)) }

        ensures same_disk { IfOk result (λ book. IsSameDisk D.Disk disk book.disk × (D.faults book.disk ≡ D.faults disk)) }
        ensures same_disk_err { IfErr result (λ e. IsSameDisk D.Disk disk e.0 × ((e.1 ≡ BookFault.DiskFault → ⊥) → D.faults e.0 ≡ D.faults disk)) }
        ensures fault { IfErr result (λ e. e.1 ≡ BookFault.DiskFault → Rose (D.faults disk) (D.faults e.0)) }
        ensures stopped { IfErr result (λ e. e.1 ≡ BookFault.Stopped → (D.arming e.0).calls ≡ Some 0) }
    {
        let journal = match Journal::load(alloc, disk) {
            Ok(journal) => journal,
            Err((disk, fault)) => return Err((disk, BookFault::from(fault))),
        };
        match read_records(alloc, &journal) {
            Ok(records) => Ok(Book {
                alloc,
                journal: journal.into_appender(),
                records,
            }),
            Err(fault) => Err((journal.into_disk(), fault)),
        }
    }

    /// Why the book is down, if it is.
    pub fn down(&self) -> Option<DiskFail>
        ensures down { result ≡ self.now.down }
        ensures sound { IsSound D.Disk self.now }
    {
        self.journal.down()
    }

    /// The configuration.
    pub fn config(&self) -> &Config
        ensures { result.now ≡ self.now.config }
    {
        &self.records.config
    }

    /// The number of notes.
    pub fn notes(&self) -> usize
        ensures { result ≡ length self.now.notes }
    {
        self.records.notes.len()
    }

    /// The note of a number, counted from 0; nothing exactly past the last. Its identifier is that of a packet, in UTF-8.
    pub fn note(&self, at: usize) -> Option<&Note>
        ensures note { option_copied result ≡ slice_get self.now.notes at }
        ensures within { IsSome result ↔ (at < length self.now.notes) }
        ensures identifier { IfSome result (λ note. is_identifier (identifier_in note.now) ≡ true) }
    {
        self.records.notes.get(at)
    }

    /// Whether a note brings this identifier. One look-up, and no memory.
    pub fn knows(&self, identifier: &[u8]) -> bool
        ensures { result ≡ knows_among self.now.notes identifier.now }
    {
        self.records.knows(identifier)
    }

    /// The digest of the packet that is held under this identifier. One look-up, and no memory: a packet's digest is
    /// computed once, as its note is added or loaded.
    pub fn digest_of(&self, identifier: &[u8]) -> Option<Digest>
        ensures { result ≡ option_map (λ packet. record { bytes = sha1 packet }) (packet_held self.now.notes identifier.now) }
    {
        self.records.digest_of(identifier)
    }

    /// How many identifiers are owed on a broker's link. It takes the same time however many notes there are.
    pub fn owed(&self, link: u16) -> usize
        ensures { result ≡ cond (is_broker self.now.config.kind) (count_open self.now.notes link) 0 }
    {
        if self.records.config.kind != NodeKind::Broker {
            return 0;
        }
        self.records.count_open(link)
    }

    /// The place of the first packet at or past another that is owed on a broker's link. One binary search, and no
    /// memory.
    pub fn next_owed(&self, link: u16, after: usize) -> Option<usize>
        ensures { result ≡ cond (is_broker self.now.config.kind) (place_of (first_from (to_send self.now.notes link) after 0 self.now.notes)) None }
    {
        if self.records.config.kind != NodeKind::Broker {
            return None;
        }
        self.records.next_open(link, after)
    }

    /// The place of the first packet at or past another that is neither acknowledged nor refused on an author's line.
    /// One binary search, and no memory.
    pub fn next_unanswered(&self, line: u16, after: usize) -> Option<usize>
        requires { line < length self.now.config.links }
        ensures { result ≡ cond (is_author self.now.config.kind) (place_of (first_from (to_send self.now.notes line) after 0 self.now.notes)) None }
    {
        if self.records.config.kind != NodeKind::Author {
            return None;
        }
        self.records.next_open(line, after)
    }

    /// Whether an identifier is unanswered on an author's line, or owed on a broker's link. One look-up, one binary
    /// search, and no memory.
    pub fn is_open(&self, number: u16, identifier: &[u8]) -> bool
        requires { number < length self.now.config.links }
        ensures { result ≡ is_open_among self.now.notes number identifier.now }
    {
        self.records.is_open(number, identifier)
    }

    /// How often the disk's calls have failed.
    pub fn faults(&self) -> u64
        ensures { result ≡ D.faults self.now.disk }
    {
        self.journal.faults()
    }

    /// The disk as it is.
    pub fn into_disk(self) -> D
        ensures disk { result ≡ self.disk }
        ensures sound { IsSound D.Disk self }
    {
        let Book { journal, .. } = self;
        journal.into_disk()
    }

    /// Whether a note keeps to its form, and may stand behind the others: `add` asks for it. It takes no memory.
    pub fn may_add(&self, note: &Note) -> bool
        ensures { result ≡ is_next self.now.config self.now.notes note.now }
    {
        keeps_form(&self.records.config, note) && self.records.may_follow(note)
    }

    /// Adds a note that may stand behind the others, or hands it back. After `Ok` each crash from then on leaves a book
    /// that has it. `Full` (G4) comes exactly where the book is not down and there is no room; after it and after
    /// `NoMemory` no device was called. After `DiskFault` and `Stopped` the book is down, and answers the same until its
    /// disk is taken back.
    pub fn add(&mut self, note: Note) -> Result<(), (Note, BookFault)>
        requires { is_next self.old.config self.old.notes note ≡ true }

        ensures sound { IsSound D.Disk self.new }
        ensures config { self.new.config ≡ self.old.config }
        ensures ok { OnOk result ((self.new.notes ≡ self.old.notes ++ note ∷ []) × (self.new.down ≡ None)) }
        ensures err { IfErr result (λ e. (e.0 ≡ note) × (self.new.notes ≡ self.old.notes)) }

        // A crash at any moment leaves a book with the note or without it.
        ensures any_moment { self.old.down ≡ None → LeavesOnly D.Disk self.old.disk self.new.disk (KeepsBeforeOrAfter self.old.config self.old.notes note) }

        // Four device calls, and no others.
        ensures four { OnOk result (D.failing self.new.disk ≡ option_map passed (option_map passed (option_map passed (option_map passed (D.failing self.old.disk))))) }
        ensures counted { OnOk result (D.arming self.new.disk ≡ counted (counted (counted (counted (D.arming self.old.disk))))) }
        ensures enough { OnOk result (IfSome (D.arming self.old.disk).calls (λ calls. 4 ≤ calls)) }
        ensures few { IfErr result (λ e. e.1 ≡ BookFault.Stopped → self.old.down ≡ None
            → (calls : ℕ) × ((D.arming self.old.disk).calls ≡ Some calls) × (calls < 4)) }

        ensures full { (result ≡ Err (note, BookFault.Full)) ↔ ((self.old.down ≡ None) × (has_room self.old.config self.old.notes note ≡ false)) }
        ensures full_unchanged { IfErr result (λ e. e.1 ≡ BookFault.Full → self.new ≡ self.old) }
        ensures no_memory { IfErr result (λ e. e.1 ≡ BookFault.NoMemory → Untouched D.Disk self.old.disk self.new.disk × (self.new.down ≡ None)) }

        // The disk has failed in this call, or the book was down. It is down from then on.
        ensures fault { IfErr result (λ e. e.1 ≡ BookFault.DiskFault → (self.new.down ≡ Some DiskFail.Fault)
            × ((self.old.down ≡ Some DiskFail.Fault) ⊎ Rose (D.faults self.old.disk) (D.faults self.new.disk))) }
        ensures stopped { IfErr result (λ e. e.1 ≡ BookFault.Stopped → (self.new.down ≡ Some DiskFail.Stopped)
            × ((self.old.down ≡ Some DiskFail.Stopped) ⊎ ((D.arming self.new.disk).calls ≡ Some 0))) }
        ensures down { (fail : _) → self.old.down ≡ Some fail → (result ≡ Err (note, book_fault (fault_of fail))) × (self.new ≡ self.old) }
        ensures causes { IfErr result (λ e. (e.1 ≡ BookFault.Full) ⊎ ComesFromDisk e.1) }
        ensures same_disk { IsSameDisk D.Disk self.old.disk self.new.disk }
        ensures quiet { (IfErr result (λ e. e.1 ≡ BookFault.DiskFault → ⊥)) → D.faults self.new.disk ≡ D.faults self.old.disk }

        // A crash of a disk that tells what it leaves.
        ensures stopped_image { IfErr result (λ e. e.1 ≡ BookFault.Stopped → self.old.down ≡ None
            → (fill : ℕ) (image : List ℕ) → D.crash_image self.new.disk fill ≡ Some image
            → Keeps image self.old.config (kept_notes (D.arming self.old.disk).calls fill self.old.notes note)) }
    {
        match append_note(self.alloc, &mut self.journal, &mut self.records, &note) {
            Ok(key) => {
                self.records.add(note, key);
                Ok(())
            }
            Err(fault) => Err((note, fault)),
        }
    }
}

impl<D: CrashDisk> Book<D> {
    /// Arms the disk, as `CrashDisk::arm` does. All else stays.
    pub fn arm(&mut self, calls: u8, fill: u8)
        ensures config { self.new.config ≡ self.old.config }
        ensures notes { self.new.notes ≡ self.old.notes }
        ensures down { self.new.down ≡ self.old.down }
        ensures sound { IsSound D.Disk self.new }
        ensures arming { D.arming self.new.disk ≡ record { calls = Some calls; fill = fill } }
        ensures reading { D.reads self.new.disk ≡ D.reads self.old.disk }
        ensures images { (image : List ℕ) → D.may_leave self.new.disk image ↔ D.may_leave self.old.disk image }
        ensures exact_image { (byte : ℕ) → D.crash_image self.new.disk byte ≡ D.crash_image self.old.disk byte }
        ensures failing { D.failing self.new.disk ≡ D.failing self.old.disk }
        ensures faults { D.faults self.new.disk ≡ D.faults self.old.disk }
        ensures any_moment { OneStep D.is_since D.left_since D.may_leave self.old.disk self.new.disk }
    {
        self.journal.arm(calls, fill);
    }
}
