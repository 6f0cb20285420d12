//! Facts of the definitions that the crates above cite, each told by a function that does nothing.

ghost use Rattle.std.specs.Prelude.{◌≡◌, ◌&&◌, ◌-◌, ◌<◌, ◌≤◌, ℕ, List, length, nat_le, nat_lt, slice_index, true};
ghost use Rattle.std.specs.List.{list_all};
ghost use Rattle.voe_time.specs.Stamp.{IsStamp};

/// A moment has one stamp. It is of 1 to 23 characters of printable ASCII, and neither begins nor ends with a blank.
pub fn stamps_are_plain()
    ensures one { (moment : ℕ) (s t : List ℕ) → IsStamp moment s → IsStamp moment t → s ≡ t }
    ensures printable { (moment : ℕ) (s : List ℕ) → IsStamp moment s → list_all (λ b. nat_le 32 b && nat_lt b 127) s ≡ true }
    ensures first { (moment : ℕ) (s : List ℕ) → IsStamp moment s → 32 < slice_index s 0 }
    ensures last { (moment : ℕ) (s : List ℕ) → IsStamp moment s → 32 < slice_index s (length s - 1) }
    ensures short { (moment : ℕ) (s : List ℕ) → IsStamp moment s → length s ≤ 23 }
{}
