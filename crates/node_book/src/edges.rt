//! What is open on each link or line.

ghost use Rattle.std.specs.Prelude.{◌≡◌, ◌<◌, ℕ, List, [], ◌∷◌, ◌++◌, length, filter, not, ◌==◌, cond, OnOk, IfOk, slice_get, Some, None};
ghost use Rattle.node_book.specs.Index.{hands as hands_over, Follow, IsRisingFrom};
ghost use Rattle.node_book.specs.Records.{HasPlace};
ghost use Rattle.net_model.specs.Notes.{lists as lists_number};
ghost use Rattle.std.specs.Option.{option_copied};

use crate::open::OpenPlaces;
use net_model::Note;
use std::alloc::{AllocError, Global};

/// Of each link or line the places of the notes that are open on it.
#[derive(Drop)]
pub struct Edges {
    edges: Vec<OpenPlaces>,
}

impl Edges {
    ghost use Rattle.node_book.specs.declared.open.OpenPlaces.{OpenPlaces};

    /// So many edges, on which nothing is open.
    pub fn new(alloc: Global, count: usize) -> Result<Self, AllocError>
        ensures count { IfOk result (λ made. length made.edges.items ≡ count) }
        ensures none { IfOk result (λ made. Follow made.edges.items (λ number. [])) }
    {
        let mut edges = Vec::new(alloc);
        for _ in 0..count {
            edges.push(OpenPlaces::new(alloc))?;
        }
        Ok(Edges { edges })
    }

    /// The edge of a number.
    pub fn get(&self, number: u16) -> Option<&OpenPlaces>
        ensures { option_copied result ≡ slice_get self.now.edges.items number }
    {
        self.edges.get(number as usize)
    }

    /// Makes room for one place more on each edge.
    pub fn reserve(&mut self) -> Result<(), AllocError>
        ensures count { length self.new.edges.items ≡ length self.old.edges.items }
        ensures same { (places : ℕ → List ℕ) → Follow self.old.edges.items places → Follow self.new.edges.items places }
        ensures room { OnOk result ((number : ℕ) (edge : OpenPlaces) → slice_get self.new.edges.items number ≡ Some edge → HasPlace edge) }
    {
        for number in 0..self.edges.len() {
            self.edges[number].reserve()?;
        }
        Ok(())
    }

    /// A note at this place, behind all others, is open on the edges that it hands its identifier to. It takes no memory.
    pub fn open(&mut self, note: &Note, place: usize)
        requires { (number : ℕ) (edge : OpenPlaces) → slice_get self.old.edges.items number ≡ Some edge → HasPlace edge }
        ensures count { length self.new.edges.items ≡ length self.old.edges.items }
        ensures opened { (places : ℕ → List ℕ) → Follow self.old.edges.items places
            → Follow self.new.edges.items (λ number. places number ++ cond (hands_over number note.now) (place ∷ []) []) }
    {
        for number in 0..self.edges.len() {
            open_on(&mut self.edges[number], number, note, place);
        }
    }

    /// The note at this place was answered on an edge. It takes no memory.
    pub fn close(&mut self, number: u16, place: usize)
        requires within { number < length self.old.edges.items }
        requires rising { (edge : OpenPlaces) → slice_get self.old.edges.items number ≡ Some edge → IsRisingFrom 0 edge.places.items }
        ensures count { length self.new.edges.items ≡ length self.old.edges.items }
        ensures closed { (places : ℕ → List ℕ) → Follow self.old.edges.items places
            → Follow self.new.edges.items (λ other. cond (other == number) (filter (λ at. not (at == place)) (places other)) (places other)) }
    {
        self.edges[number as usize].close(place);
    }
}

// A note at this place, behind all others, is open on this edge if it hands its identifier to it.
fn open_on(edge: &mut OpenPlaces, number: usize, note: &Note, place: usize)
    requires { HasPlace edge.old }
    ensures { edge.new.places.items ≡ edge.old.places.items ++ cond (hands_over number note.now) (place ∷ []) [] }
{
    if hands(number, note) {
        edge.open(place);
    }
}

// Whether a note hands its identifier to the edge of this number.
fn hands(number: usize, note: &Note) -> bool
    ensures { result ≡ hands_over number note.now }
{
    match note {
        Note::Wrote { .. } => true,
        Note::Accept { links, .. } => lists(links.as_slice(), number),
        Note::Enter { .. } | Note::Acked { .. } | Note::Refused { .. } | Note::Done { .. } => false,
    }
}

#[tactic(auto, unfolding(net_model::specs::Notes::lists))]
fn lists(numbers: &[u16], number: usize) -> bool
    ensures { result ≡ lists_number numbers.now number }
{
    numbers.iter().any(|other| *other as usize == number)
}
