//! Facts of the definitions that the crates above cite, each told by a function that does nothing.

ghost use Rattle.std.specs.Prelude.{◌≡◌, ℕ, List};
ghost use Rattle.vtp_framing.specs.Frames.{IsStream};

/// Each list of bytes is frames and a rest, and in one way alone.
pub fn streams_are_unique()
    ensures some { (bytes : List ℕ) → (payloads : List (List ℕ)) × ((rest : List ℕ) × IsStream bytes payloads rest) }
    ensures one { (bytes : List ℕ) (ps qs : List (List ℕ)) (rest other : List ℕ) → IsStream bytes ps rest → IsStream bytes qs other → (ps ≡ qs) × (rest ≡ other) }
{}
