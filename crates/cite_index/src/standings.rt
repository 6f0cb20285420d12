//! What citations leave of each identifier that they name.

ghost use Rattle.std.specs.Prelude.{◌≡◌, length};

use crate::names::Names;
use crate::standing::{Standing, after};
use crate::triple::Triple;
use std::alloc::Global;
use voe_values::{Ivorn, NoMemory};

/// The identifiers that are cited, and the standing of each.
#[derive(Drop)]
pub struct Standings {
    pub names: Names,
    pub kept: Vec<Standing>,
    ghost counted: { length kept.items ≡ length names },
}

impl Standings {
    ghost use Rattle.std.specs.Prelude.{◌≡◌, ◌∷◌, ◌++◌, ℕ, true, [], All, List, OnOk, Some, slice_get};
    ghost use Rattle.cite_index.specs.Cites.{standing};
    ghost use Rattle.cite_index.specs.Kept.{AreStandings, knows, names_of};
    ghost use Rattle.cite_index.specs.declared.triple.Triple.{Triple};

    /// No citations. It takes no memory.
    pub fn new(alloc: Global) -> Standings
        ensures { AreStandings [] result }
    {
        Standings {
            names: Names::new(alloc),
            kept: Vec::new(alloc),
        }
    }

    /// The standing of an identifier. One look-up, and no memory.
    pub fn of(&self, identifier: &Ivorn) -> Standing
        ensures { (cites : List Triple) → AreStandings cites self.now → result ≡ standing cites identifier.now }
    {
        match self.names.find(identifier) {
            Some(at) => self.kept[at],
            None => Standing::Current,
        }
    }

    /// Makes an identifier one of those that are known.
    fn know(&mut self, identifier: &Ivorn) -> Result<(), NoMemory>
        ensures same { (cites : List Triple) → AreStandings cites self.old → AreStandings cites self.new }
        ensures keeps { (x : List ℕ) → knows self.old x ≡ true → knows self.new x ≡ true }
        ensures known { OnOk result (knows self.new identifier.now ≡ true) }
    {
        match self.names.find(identifier) {
            Some(_) => Ok(()),
            None => self.push(identifier),
        }
    }

    /// Makes an identifier that is not known, and so not cited, one of those that are.
    fn push(&mut self, identifier: &Ivorn) -> Result<(), NoMemory>
        requires { (n : ℕ) → slice_get (names_of self.old) n ≡ Some identifier.now → ⊥ }
        ensures same { (cites : List Triple) → AreStandings cites self.old → AreStandings cites self.new }
        ensures keeps { (x : List ℕ) → knows self.old x ≡ true → knows self.new x ≡ true }
        ensures known { OnOk result (knows self.new identifier.now ≡ true) }
    {
        if self.kept.reserve(1).is_err() {
            return Err(NoMemory);
        }
        let _ = self.names.push(identifier)?;
        self.kept.push(Standing::Current).unwrap();
        Ok(())
    }

    /// Makes the cited ends of citations some of those that are known.
    pub fn know_all(&mut self, cites: &[Triple]) -> Result<(), NoMemory>
        ensures same { (before : List Triple) → AreStandings before self.old → AreStandings before self.new }
        ensures known { OnOk result (All (λ t. knows self.new t.cited ≡ true) cites.now) }
    {
        for t in cites {
            self.know(&t.cited)?;
        }
        Ok(())
    }

    /// Takes a citation of a known identifier into account. It takes no memory.
    fn note(&mut self, t: &Triple)
        requires { knows self.old t.now.cited ≡ true }
        ensures names { names_of self.new ≡ names_of self.old }
        ensures more { (cites : List Triple) → AreStandings cites self.old → AreStandings (cites ++ t.now ∷ []) self.new }
    {
        let Some(at) = self.names.find(&t.cited) else {
            unreachable!()
        };
        self.kept[at] = after(self.kept[at], t.kind);
    }

    /// Takes citations of known identifiers into account, in order. It takes no memory.
    pub fn note_all(&mut self, cites: &[Triple])
        requires { All (λ t. knows self.old t.cited ≡ true) cites.now }
        ensures { (before : List Triple) → AreStandings before self.old → AreStandings (before ++ cites.now) self.new }
    {
        for t in cites {
            self.note(t);
        }
    }
}
