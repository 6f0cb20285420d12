//! Facts of the definitions that the crates above cite, each told by a function that does nothing.

ghost use Rattle.std.specs.Prelude.{◌≡◌, ◌⊎◌};
ghost use Rattle.filter_text.specs.Filter.{Path, Text};
ghost use Rattle.filter_text.specs.Reading.{Reads};
ghost use Rattle.filter_text.specs.Refusal.{Refuses};
ghost use Rattle.filter_text.specs.Size.{IsSmall};
ghost use Rattle.filter_text.specs.Writing.{ReadsBack};
ghost use Rattle.filter_text.specs.declared.fault.FilterFault.{FilterFault};
ghost use Rattle.filter_text.specs.declared.fault.FilterFault.TheVariants.{NoMemory};

/// A text is at most one filter.
pub fn filters_are_unique()
    ensures { (s : Text) (f g : Path) → Reads f s → Reads g s → f ≡ g }
{}

/// A text that is a filter is refused for nothing but want of memory.
pub fn read_is_not_refused()
    ensures { (s : Text) (f : Path) (fault : FilterFault) → Reads f s → Refuses s fault → fault ≡ NoMemory }
{}

/// A text has at most one refusal besides want of memory.
pub fn refusals_are_unique()
    ensures { (s : Text) (a b : FilterFault) → Refuses s a → Refuses s b → (a ≡ NoMemory) ⊎ ((b ≡ NoMemory) ⊎ (a ≡ b)) }
{}

/// A filter that some text spells is small.
pub fn filters_are_small()
    ensures { (s : Text) (f : Path) → Reads f s → IsSmall f }
{}

/// The canonical text of a filter that some text spells is read as that filter, where it has at most 1,024 bytes.
pub fn written_filters_read_back()
    ensures { (f : Path) → ReadsBack f }
{}
