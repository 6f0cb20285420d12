//! What a file keeps.

ghost use Rattle.std.specs.Prelude.{◌≡◌, ◌⊎◌, List, ℕ, Some};
ghost use Rattle.net_model.specs.declared.note.Note.{Note};
ghost use Rattle.node_notes.specs.declared.config.Config.{Config};
ghost use Rattle.node_book.specs.Fault.{ComesFromDisk, IsMissing};
ghost use Rattle.node_book.specs.Keeps.{Keeps};
ghost use Rattle.node_book.specs.Making.{HasPayload, IsFree, IsMakeRefusal};
ghost use Rattle.node_book.specs.Reading.{IsRefusal};

use crate::fault::BookFault;

/// A file keeps one configuration and one list of notes at most, and then nothing in it is refused. Otherwise it is
/// refused for one cause, at one place. It does nothing: its contract is the law.
pub fn one_book()
    ensures one { (file : List ℕ) (first second : Config) (notes others : List Note) → Keeps file first notes → Keeps file second others → (first ≡ second) × (notes ≡ others) }
    ensures not_refused { (file : List ℕ) (config : Config) (notes : List Note) (fault : _) → Keeps file config notes → IsRefusal fault (Some file) → ComesFromDisk fault }
    ensures one_refusal { (file : List ℕ) (first second : _) → IsMissing first → IsMissing second → IsRefusal first (Some file) → IsRefusal second (Some file) → first ≡ second }
{}

/// A file that is free for a book is not refused, and one that has a payload is refused for that. It does nothing: its
/// contract is the law.
pub fn one_making()
    ensures free { (file : List ℕ) (fault : _) → IsFree file → IsMakeRefusal fault (Some file) → ComesFromDisk fault }
    ensures taken { (file : List ℕ) (fault : _) → HasPayload file → IsMakeRefusal fault (Some file) → (fault ≡ BookFault.AlreadyMade) ⊎ ComesFromDisk fault }
    ensures not_both { (file : List ℕ) → IsFree file → HasPayload file → ⊥ }
{}
