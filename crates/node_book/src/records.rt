//! A configuration and notes in memory.

ghost use Rattle.std.specs.Prelude.{◌≡◌, ◌<◌, true, false, [], ◌∷◌, ◌++◌, length, OnOk, IfOk, IfSome, IsNone, IsErrOf, vec_len, vec_capacity};
ghost use Rattle.std.specs.Option.{option_map};
ghost use Rattle.sha1.specs.Sha1.{sha1};
ghost use Rattle.net_model.specs.Notes.{knows as knows_among, is_open as is_open_among, to_send, first_from};
ghost use Rattle.node_notes.specs.Forms.{is_config, is_next, keeps_form, may_follow as may_follow_notes};
ghost use Rattle.node_notes.specs.Held.{held as held_by, identifier_in, is_bringing as brings_any, packet_held};
ghost use Rattle.node_notes.specs.Open.{count_open, place_of};

use crate::index::Index;
use net_model::Note;
use node_notes::{Config, ReadFault, read_note};
use std::alloc::{AllocError, Global};
use voe_digest::Digest;
use voe_values::Bytes;

/// A configuration, the notes in the order in which they were added, and their index.
#[derive(Drop)]
pub struct Records {
    pub config: Config,
    pub notes: Vec<Note>,
    pub index: Index,
}

impl Records {
    ghost use Rattle.node_notes.specs.Spelling.{note_payload};
    ghost use Rattle.node_book.specs.Records.{AreKept, HasNotePlace, Grew, IsEdge};
    ghost use Rattle.node_book.specs.Index.{IsIndexOf};
    ghost use Rattle.net_model.specs.declared.note.Note.{Note};

    pub fn new(alloc: Global, config: Config) -> Result<Self, AllocError>
        requires { is_config config ≡ true }
        ensures config { IfOk result (λ made. made.config ≡ config) }
        ensures notes { IfOk result (λ made. made.notes.items ≡ []) }
        ensures kept { IfOk result AreKept }
    {
        let index = Index::new(alloc, config.links.len())?;
        Ok(Records {
            config,
            notes: Vec::new(alloc),
            index,
        })
    }

    pub fn knows(&self, identifier: &[u8]) -> bool
        requires { AreKept self.now }
        ensures { result ≡ knows_among self.now.notes.items identifier.now }
    {
        self.index.known.look_up(identifier).is_some()
    }

    pub fn digest_of(&self, identifier: &[u8]) -> Option<Digest>
        requires { AreKept self.now }
        ensures { result ≡ option_map (λ packet. record { bytes = sha1 packet }) (packet_held self.now.notes.items identifier.now) }
    {
        match self.index.known.look_up(identifier) {
            Some(entry) => Some(entry.digest),
            None => None,
        }
    }

    /// How many identifiers the notes bring.
    pub fn held(&self) -> usize
        requires { AreKept self.now }
        ensures { result ≡ held_by self.now.notes.items }
    {
        self.index.known.count()
    }

    /// How many identifiers are open on an edge. Where there is no such edge, it is for a broker's notes alone.
    pub fn count_open(&self, number: u16) -> usize
        requires kept { AreKept self.now }
        requires edge { IsEdge self.now.config number }
        ensures { result ≡ count_open self.now.notes.items number }
    {
        match self.index.edges.get(number) {
            Some(edge) => edge.count(),
            None => 0,
        }
    }

    /// The place of the first packet at or past another that is open on an edge.
    pub fn next_open(&self, number: u16, after: usize) -> Option<usize>
        requires kept { AreKept self.now }
        requires edge { IsEdge self.now.config number }
        ensures { result ≡ place_of (first_from (to_send self.now.notes.items number) after 0 self.now.notes.items) }
    {
        match self.index.edges.get(number) {
            Some(edge) => edge.next(after),
            None => None,
        }
    }

    /// Whether an identifier is open on an edge.
    pub fn is_open(&self, number: u16, identifier: &[u8]) -> bool
        requires kept { AreKept self.now }
        requires edge { number < length self.now.config.links }
        ensures { result ≡ is_open_among self.now.notes.items number identifier.now }
    {
        let Some(entry) = self.index.known.look_up(identifier) else {
            return false;
        };
        let Some(edge) = self.index.edges.get(number) else {
            return false;
        };
        match edge.next(entry.at) {
            Some(found) => found == entry.at,
            None => false,
        }
    }

    /// Whether a note that keeps to its form may stand behind the others.
    pub fn may_follow(&self, note: &Note) -> bool
        requires kept { AreKept self.now }
        requires form { keeps_form self.now.config note.now ≡ true }
        ensures { result ≡ may_follow_notes self.now.notes.items note.now }
    {
        match note {
            Note::Wrote { identifier, .. } => !self.knows(identifier.as_slice()),
            Note::Accept { identifier, .. } => !self.knows(identifier.as_slice()),
            Note::Enter { identifier, .. } => !self.knows(identifier.as_slice()),
            Note::Acked { line, identifier } => self.is_open(*line, identifier.as_slice()),
            Note::Refused { line, identifier } => self.is_open(*line, identifier.as_slice()),
            Note::Done { link, identifier } => self.is_open(*link, identifier.as_slice()),
        }
    }

    /// Makes room for one note more, and a copy of the identifier that it brings.
    pub fn prepare(&mut self, alloc: Global, note: &Note) -> Result<Vec<u8>, AllocError>
        ensures place { IfOk result (λ key. HasNotePlace note.now key self.new) }
        ensures config { self.new.config ≡ self.old.config }
        ensures notes { self.new.notes.items ≡ self.old.notes.items }
        ensures kept { AreKept self.old → AreKept self.new }
    {
        self.notes.reserve(1)?;
        match brought(note) {
            Some(identifier) => {
                self.index.reserve()?;
                Vec::from_slice(alloc, identifier.as_slice())
            }
            None => Ok(Vec::new(alloc)),
        }
    }

    /// Adds a note that may stand behind the others, with a copy of the identifier that it brings. It takes no memory.
    pub fn add(&mut self, note: Note, key: Vec<u8>)
        requires kept { AreKept self.old }
        requires place { HasNotePlace note key self.old }
        requires next { is_next self.old.config self.old.notes.items note ≡ true }
        ensures kept { AreKept self.new }
        ensures config { self.new.config ≡ self.old.config }
        ensures notes { self.new.notes.items ≡ self.old.notes.items ++ note ∷ [] }
    {
        self.follow(&note, key);
        self.notes.push(note).unwrap();
    }

    // Brings the index up to a note that is about to stand behind the others.
    fn follow(&mut self, note: &Note, key: Vec<u8>)
        requires kept { AreKept self.old }
        requires place { HasNotePlace note.now key self.old }
        requires next { is_next self.old.config self.old.notes.items note.now ≡ true }
        ensures config { self.new.config ≡ self.old.config }
        ensures notes { (self.new.notes.items ≡ self.old.notes.items) × (vec_len self.new.notes < vec_capacity self.new.notes) }
        ensures indexed { IsIndexOf (self.old.notes.items ++ note.now ∷ []) (length self.old.config.links) self.new.index }
    {
        match note {
            Note::Wrote { .. } => self.index.bring(&self.notes, note, key),
            Note::Accept { .. } => self.index.bring(&self.notes, note, key),
            Note::Enter { .. } => self.index.bring(&self.notes, note, key),
            Note::Acked { line, identifier } => {
                self.index
                    .answer(&self.notes, *line, identifier.as_slice(), note)
            }
            Note::Refused { line, identifier } => {
                self.index
                    .answer(&self.notes, *line, identifier.as_slice(), note)
            }
            Note::Done { link, identifier } => {
                self.index
                    .answer(&self.notes, *link, identifier.as_slice(), note)
            }
        }
    }

    /// Adds the note of a payload, if it keeps to its form and may stand behind the others.
    pub fn add_payload(&mut self, alloc: Global, payload: &[u8]) -> Result<(), ReadFault>
        requires { AreKept self.old }
        ensures added { OnOk result (Grew payload.now self.old self.new) }
        ensures kept { OnOk result (AreKept self.new) }
        ensures none { IsErrOf result ReadFault.Malformed → (note : Note) → is_next self.old.config self.old.notes.items note ≡ true → payload.now ≡ note_payload note → ⊥ }
    {
        let note = read_note(alloc, &self.config, payload)?;
        if !self.may_follow(&note) {
            return Err(ReadFault::Malformed);
        }
        let key = self.prepare(alloc, &note)?;
        self.add(note, key);
        Ok(())
    }
}

// The identifier that a note brings, if it brings one.
fn brought(note: &Note) -> Option<&Bytes>
    ensures some { IfSome result (λ identifier. (brings_any note.now ≡ true) × (identifier.now ≡ identifier_in note.now)) }
    ensures none { IsNone result → brings_any note.now ≡ false }
{
    match note {
        Note::Wrote { identifier, .. }
        | Note::Accept { identifier, .. }
        | Note::Enter { identifier, .. } => Some(identifier),
        Note::Acked { .. } | Note::Refused { .. } | Note::Done { .. } => None,
    }
}

/// Whether a note brings an identifier.
pub fn is_bringing(note: &Note) -> bool
    ensures { result ≡ brings_any note.now }
{
    brought(note).is_some()
}
