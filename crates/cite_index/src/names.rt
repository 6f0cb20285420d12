//! Numbers of identifiers.

ghost use Rattle.std.specs.Prelude.{◌≡◌, ◌↔◌, ◌++◌, ◌∷◌, ℕ, [], IfOk, OnErr, OnOk, Some, length, slice_get};
ghost use Rattle.cite_index.specs.Names.{AreDistinct, with_name};

use indexmap::IndexMap;
use std::alloc::Global;
use std::marker::Model;
use voe_values::{Ivorn, NoMemory};

/// Identifiers, each once, numbered from 0 in the order of their first mention.
#[derive(Drop)]
pub struct Names {
    numbers: IndexMap<Vec<u8>, usize>,
    names: Vec<Ivorn>,
    alloc: Global,
}

impl Model for Names {
    ghost use Rattle.std.specs.Prelude.{List, ℕ};
    ghost use Rattle.cite_index.specs.Names.{AreNumbers};

    ghost Value = { List (List ℕ) };

    ghost view = { λ n. n.names.items };

    ghost invariant = { λ n. AreNumbers n.numbers.entries n.names.items };
}

impl Names {
    /// No identifiers. It takes no memory.
    pub fn new(alloc: Global) -> Names
        ensures { result ≡ [] }
    {
        Names {
            numbers: IndexMap::new(alloc),
            names: Vec::new(alloc),
            alloc,
        }
    }

    /// How many there are.
    pub fn len(&self) -> usize
        ensures { result ≡ length self.now }
    {
        self.names.len()
    }

    /// All of them, each at its number.
    pub fn as_slice(&self) -> &[Ivorn]
        ensures all { result.now ≡ self.now }
        ensures distinct { AreDistinct self.now }
    {
        self.names.as_slice()
    }

    /// The number of an identifier, if it has one. One look-up, and no memory.
    pub fn find(&self, identifier: &Ivorn) -> Option<usize>
        ensures { (n : ℕ) → (result ≡ Some n) ↔ (slice_get self.now n ≡ Some identifier.now) }
    {
        self.numbers.get(identifier.as_str().as_bytes()).copied()
    }

    /// The number of an identifier, which is the next one where it had none. Without memory nothing has changed.
    pub fn number(&mut self, identifier: &Ivorn) -> Result<usize, NoMemory>
        ensures at { IfOk result (λ n. slice_get self.new n ≡ Some identifier.now) }
        ensures names { OnOk result (self.new ≡ with_name self.old identifier.now) }
        ensures err { OnErr result (self.new ≡ self.old) }
    {
        match self.find(identifier) {
            Some(at) => Ok(at),
            None => self.push(identifier),
        }
    }

    /// Gives the next number to an identifier that has none. Without memory nothing has changed.
    pub fn push(&mut self, identifier: &Ivorn) -> Result<usize, NoMemory>
        requires { (n : ℕ) → slice_get self.old n ≡ Some identifier.now → ⊥ }
        ensures at { IfOk result (λ n. n ≡ length self.old) }
        ensures names { OnOk result (self.new ≡ self.old ++ identifier.now ∷ []) }
        ensures err { OnErr result (self.new ≡ self.old) }
    {
        let at = self.names.len();
        let own = identifier.copy()?;
        let Ok(key) = Vec::from_slice(self.alloc, identifier.as_str().as_bytes()) else {
            return Err(NoMemory);
        };
        if self.names.reserve(1).is_err() {
            return Err(NoMemory);
        }
        if self.numbers.insert(key, at).is_err() {
            return Err(NoMemory);
        }
        self.names.push(own).unwrap();
        Ok(at)
    }
}
