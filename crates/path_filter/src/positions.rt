//! Sets of positions.

/// The words of a set: 64 positions each.
const WORDS: usize = 9;

/// A set of positions, which are numbers below 576.
#[derive(Drop)]
pub struct Positions {
    words: [u64; 9],
}

impl Positions {
    ghost use Rattle.std.specs.Prelude.{◌≡◌, ◌<◌, ◌≤◌, ℕ, ◌↔◌, ◌⊎◌, IsTrue};
    ghost use Rattle.path_filter.specs.Positions.{Has};

    #[tactic(auto, unfolding(crate::specs::Positions::Has))]
    pub fn none() -> Positions
        ensures { (i : ℕ) → Has result i → ⊥ }
    {
        Positions { words: [0; WORDS] }
    }

    /// The set of this position alone.
    pub fn only(at: usize) -> Positions
        requires { at < 576 }
        ensures { (i : ℕ) → Has result i ↔ (i ≡ at) }
    {
        let mut only = Positions::none();
        only.add(at);
        only
    }

    pub fn add(&mut self, at: usize)
        requires { at < 576 }
        ensures { (i : ℕ) → Has self.new i ↔ (Has self.old i ⊎ (i ≡ at)) }
    {
        self.words[at / 64] |= 1 << (at % 64);
    }

    #[tactic(auto, unfolding(crate::specs::Positions::Has))]
    pub fn has(&self, at: usize) -> bool
        requires { at < 576 }
        ensures { IsTrue result ↔ Has self.now at }
    {
        (self.words[at / 64] >> (at % 64)) & 1 == 1
    }

    /// The next position in the set, from this one on; where there is none below `end`, some place from `end` on.
    #[tactic(auto, unfolding(crate::specs::Positions::Has))]
    pub fn next(&self, from: usize, end: usize) -> usize
        requires { end ≤ 576 }
        ensures forward { from ≤ result }
        ensures skips { (i : ℕ) → from ≤ i → i < result → Has self.now i → ⊥ }
    {
        let mut at = from;
        while at < end {
            let word = self.words[at / 64];
            let rest = word >> (at % 64);
            if rest != 0 {
                return at + rest.trailing_zeros() as usize;
            }
            at = (at / 64 + 1) * 64;
        }
        at
    }
}
