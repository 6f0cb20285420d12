//! Why texts are no set of filters.

use filter_text::FilterFault;
use voe_values::NoMemory;

/// Why texts are no set of filters. Too many are told first, and then the first text that is refused.
#[derive(Clone, Copy, Debug, PartialEq, Eq)]
pub enum SetFault {
    /// The text of this number, counted from 0, is no filter, and all before it are.
    Refused { at: usize, fault: FilterFault },
    /// There are more than 16 texts.
    TooMany,
    /// There was no memory for the set.
    NoMemory,
}

impl From<NoMemory> for SetFault {
    ghost use Rattle.std.specs.Prelude.{◌≡◌};
    ghost use Rattle.path_filter.specs.declared.set_fault.SetFault.TheVariants.{NoMemory};

    ghost from_gives = { λ _ fault. fault ≡ NoMemory };

    fn from(_: NoMemory) -> Self {
        SetFault::NoMemory
    }
}
