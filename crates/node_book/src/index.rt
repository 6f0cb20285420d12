//! What is looked up among notes without going over them.

ghost use Rattle.std.specs.Prelude.{◌≡◌, ◌<◌, ℕ, List, true, false, [], ◌∷◌, ◌++◌, length, OnOk, IfOk, Some};
ghost use Rattle.net_model.specs.declared.note.Note.{Note};
ghost use Rattle.node_notes.specs.Held.{is_bringing as brings_any, identifier_in, packet_in};
ghost use Rattle.node_book.specs.Index.{IsIndexOf, MayStandBehind, Answers};
ghost use Rattle.node_book.specs.Records.{HasIndexPlace};

use crate::edges::Edges;
use crate::known::{Entry, Known};
use net_model::Note;
use std::alloc::{AllocError, Global};
use voe_digest::Digest;

/// The identifiers that notes bring, and what is open on each edge.
#[derive(Drop)]
pub struct Index {
    pub known: Known,
    pub edges: Edges,
}

impl Index {
    /// The index of no notes, over so many edges.
    pub fn new(alloc: Global, edges: usize) -> Result<Self, AllocError>
        ensures { IfOk result (λ made. IsIndexOf [] edges made) }
    {
        Ok(Index {
            known: Known::new(alloc),
            edges: Edges::new(alloc, edges)?,
        })
    }

    /// Makes room for one identifier more.
    pub fn reserve(&mut self) -> Result<(), AllocError>
        ensures room { OnOk result (HasIndexPlace self.new) }
        ensures same { (notes : List Note) (edges : ℕ) → IsIndexOf notes edges self.old → IsIndexOf notes edges self.new }
    {
        self.known.reserve()?;
        self.edges.reserve()
    }

    /// Follows a note that brings an identifier, of which this is a copy, and is about to stand behind the others. It
    /// takes no memory.
    pub fn bring(&mut self, notes: &[Note], note: &Note, key: Vec<u8>)
        requires next { MayStandBehind notes.now note.now }
        requires indexed { (edges : ℕ) × IsIndexOf notes.now edges self.old }
        requires room { HasIndexPlace self.old }
        requires brings { brings_any note.now ≡ true }
        requires copied { key.items ≡ identifier_in note.now }
        ensures { (edges : ℕ) → IsIndexOf notes.now edges self.old → IsIndexOf (notes.now ++ note.now ∷ []) edges self.new }
    {
        let at = notes.len();
        let digest = Digest::of(packet_of(note));
        self.known.insert(key, Entry { at, digest });
        self.edges.open(note, at);
    }

    /// Follows an answer that is about to stand behind the others. It takes no memory.
    pub fn answer(&mut self, notes: &[Note], number: u16, identifier: &[u8], note: &Note)
        requires next { MayStandBehind notes.now note.now }
        requires indexed { (edges : ℕ) × IsIndexOf notes.now edges self.old × (number < edges) }
        requires answers { Answers number identifier.now note.now }
        ensures { (edges : ℕ) → IsIndexOf notes.now edges self.old → IsIndexOf (notes.now ++ note.now ∷ []) edges self.new }
    {
        let Some(entry) = self.known.look_up(identifier) else {
            return;
        };
        self.edges.close(number, entry.at);
    }
}

// The packet of a note that brings one.
fn packet_of(note: &Note) -> &[u8]
    ensures { brings_any note.now ≡ true → result.now ≡ packet_in note.now }
{
    match note {
        Note::Wrote { packet, .. } | Note::Accept { packet, .. } | Note::Enter { packet, .. } => {
            packet.as_slice()
        }
        Note::Acked { .. } | Note::Refused { .. } | Note::Done { .. } => &[],
    }
}
