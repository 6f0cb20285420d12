//! What a file stands for.

ghost use Rattle.std.specs.Prelude.{◌≡◌, List, ℕ, Some};
ghost use Rattle.gate_journal.specs.Format.{Stands};
ghost use Rattle.gate_journal.specs.Reading.{IsRefusal};
ghost use Rattle.gate_journal.specs.Fault.{ComesFromDisk, IsMissing};

/// A file stands for one list of payloads at most, and then nothing in it is refused. Otherwise it is refused for one
/// cause, at one place. It does nothing: its contract is the law.
pub fn one_reading()
    ensures one_list { (file : List ℕ) (first second : List (List ℕ)) → Stands file first → Stands file second → first ≡ second }
    ensures not_refused { (file : List ℕ) (payloads : List (List ℕ)) (fault : _) → Stands file payloads → IsRefusal fault (Some file) → ComesFromDisk fault }
    ensures one_refusal { (file : List ℕ) (first second : _) → IsMissing first → IsMissing second → IsRefusal first (Some file) → IsRefusal second (Some file) → first ≡ second }
{}
