//! Why a text is no filter.

use voe_values::NoMemory;

/// Why a text is no filter. The first phase that fails decides, in this order. Places are bytes from the front.
#[derive(Clone, Copy, Debug, PartialEq, Eq)]
pub enum FilterFault {
    /// The text is empty, place 0, or longer than 1,024 bytes, place 1,024 (printed P1).
    Length { place: usize },
    /// Where the longest list of whole tokens ends before the text does (printed P2).
    BadToken { place: usize },
    /// The first token of XPath 1.0 that no filter has, or name before a parenthesis that is no function here
    /// (printed P3).
    OutOfProfile { place: usize },
    /// The first token with which no filter or condition goes on, or the end of the text (printed P4).
    Syntax { place: usize },
    /// The bracket or parenthesis that opens the seventeenth level (printed P5).
    TooDeep { place: usize },
    /// The text is a condition and no path, place 0 (printed P6).
    NotPath { place: usize },
    /// There was no memory for the filter.
    NoMemory,
}

impl From<NoMemory> for FilterFault {
    ghost use Rattle.std.specs.Prelude.{◌≡◌};
    ghost use Rattle.filter_text.specs.declared.fault.FilterFault.TheVariants.{NoMemory};

    ghost from_gives = { λ _ fault. fault ≡ NoMemory };

    fn from(_: NoMemory) -> Self {
        FilterFault::NoMemory
    }
}
