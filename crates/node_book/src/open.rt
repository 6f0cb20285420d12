//! Where the notes stand that an edge has still to answer.

ghost use Rattle.std.specs.Prelude.{◌≡◌, ◌<◌, [], ◌∷◌, ◌++◌, length, filter, not, ◌==◌, OnOk, nat_le};
ghost use Rattle.std.specs.VecDeque.{deque_len, deque_capacity};
ghost use Rattle.std.specs.List.{find};
ghost use Rattle.node_book.specs.Index.{IsRisingFrom};
ghost use Rattle.node_book.specs.Records.{HasPlace};

use std::alloc::{AllocError, Global};
use std::collections::VecDeque;

/// The places of the notes that are open on one edge, rising. What was first to be sent is mostly the first to be
/// answered, so that a place is mostly taken off at the front.
#[derive(Drop)]
pub struct OpenPlaces {
    places: VecDeque<usize>,
}

impl OpenPlaces {
    pub fn new(alloc: Global) -> Self
        ensures { result.places.items ≡ [] }
    {
        OpenPlaces {
            places: VecDeque::new(alloc),
        }
    }

    /// How many there are.
    pub fn count(&self) -> usize
        ensures { result ≡ length self.now.places.items }
    {
        self.places.len()
    }

    /// The first place at or past another. It takes no memory.
    pub fn next(&self, after: usize) -> Option<usize>
        requires { IsRisingFrom 0 self.now.places.items }
        ensures { result ≡ find (λ place. nat_le after place) self.now.places.items }
    {
        let at = self.places.partition_point(|place| *place < after);
        self.places.get(at).copied()
    }

    /// Makes room for one more.
    pub fn reserve(&mut self) -> Result<(), AllocError>
        ensures room { OnOk result (HasPlace self.new) }
        ensures same { self.new.places.items ≡ self.old.places.items }
    {
        self.places.reserve(1)
    }

    /// Adds a place behind the others. It takes no memory.
    pub fn open(&mut self, place: usize)
        requires { HasPlace self.old }
        ensures { self.new.places.items ≡ self.old.places.items ++ place ∷ [] }
    {
        self.places.push_back(place).unwrap();
    }

    /// Takes a place off, if it is there.
    pub fn close(&mut self, place: usize)
        requires { IsRisingFrom 0 self.old.places.items }
        ensures { self.new.places.items ≡ filter (λ other. not (other == place)) self.old.places.items }
    {
        let at = self.places.partition_point(|other| *other < place);
        let Some(found) = self.places.get(at).copied() else {
            return;
        };
        if found == place {
            let _ = self.places.remove(at);
        }
    }
}
