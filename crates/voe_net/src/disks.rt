//! Disks, one for each node.

ghost use Rattle.std.specs.Prelude.{◌≡◌, ◌++◌, ◌∷◌, [], IfErr, MatchOption, OnErr, OnOk, length};

use std::alloc::Global;
use std::marker::Model;
use voe_values::NoMemory;

/// Disks in order, which contracts see as a list. They are put in and taken out; none is lost.
#[derive(Drop)]
pub struct Disks<D> {
    items: Vec<D>,
}

impl<D> Model for Disks<D> {
    ghost use Rattle.std.specs.Prelude.{List};

    ghost Value = { List D };

    ghost view = { λ disks. disks.items.items };
}

impl<D> Disks<D> {
    /// No disks. It takes no memory.
    pub fn new(alloc: Global) -> Self
        ensures { result ≡ [] }
    {
        Disks {
            items: Vec::new(alloc),
        }
    }

    /// Adds a disk at the end; without memory the disks stay as they were, and the new one is handed back.
    pub fn push(&mut self, disk: D) -> Result<(), (D, NoMemory)>
        ensures ok { OnOk result (self.new ≡ self.old ++ disk ∷ []) }
        ensures err { OnErr result (self.new ≡ self.old) }
        ensures back { IfErr result (λ e. e.0 ≡ disk) }
    {
        match self.items.push(disk) {
            Ok(()) => Ok(()),
            Err(refused) => Err((refused.value, NoMemory)),
        }
    }

    /// Takes the last disk out; nothing comes exactly where there is none.
    pub fn pop(&mut self) -> Option<D>
        ensures { MatchOption result ((self.old ≡ []) × (self.new ≡ [])) (λ last. self.old ≡ self.new ++ last ∷ []) }
    {
        self.items.pop()
    }

    /// How many disks there are.
    pub fn len(&self) -> usize
        ensures { result ≡ length self.now }
    {
        self.items.len()
    }

    /// Lets go of what held the disks, once all of them are taken out.
    pub fn destroy_empty(self)
        requires { self ≡ [] }
    {
        self.items.destroy_empty();
    }

    /// The disks as a vector, which moves.
    pub(crate) fn into_vec(self) -> Vec<D>
        ensures { result.items ≡ self }
    {
        self.items
    }

    /// The disks of a vector, which moves.
    pub(crate) fn from_vec(items: Vec<D>) -> Self
        ensures { result ≡ items.items }
    {
        Disks { items }
    }
}
