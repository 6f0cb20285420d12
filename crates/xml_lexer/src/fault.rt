//! Why bytes are not cut into tokens.

use std::alloc::{AllocError, AllocFailed};

/// Why bytes are not the tokens of a document. Places are bytes from the front, a byte order mark counted.
#[derive(Clone, Copy, Debug, PartialEq, Eq)]
pub enum TokenFault {
    /// The bytes are not UTF-8, or their declaration names another encoding though they are not all ASCII: the first
    /// byte of the first bad sequence, or else the first byte above 127.
    NotText { place: usize },
    /// Where the longest list of whole tokens ends before the bytes do.
    BadToken { place: usize },
    /// The same, where the bytes go on with `<!DOCTYPE`.
    Doctype { place: usize },
    /// There are more than 65,536 tokens.
    TooManyTokens,
    /// There was no memory for the tokens.
    NoMemory,
}

impl From<AllocError> for TokenFault {
    ghost use Rattle.std.specs.Prelude.{◌≡◌};
    ghost use Rattle.xml_lexer.specs.declared.fault.TokenFault.{TokenFault};
    ghost use Rattle.xml_lexer.specs.declared.fault.TokenFault.TheVariants.{NoMemory};

    ghost from_gives = { λ _ fault. fault ≡ NoMemory };

    fn from(_: AllocError) -> Self {
        TokenFault::NoMemory
    }
}

impl<T: Drop> From<AllocFailed<T>> for TokenFault {
    ghost use Rattle.std.specs.Prelude.{◌≡◌};
    ghost use Rattle.xml_lexer.specs.declared.fault.TokenFault.{TokenFault};
    ghost use Rattle.xml_lexer.specs.declared.fault.TokenFault.TheVariants.{NoMemory};

    ghost from_gives = { λ _ fault. fault ≡ NoMemory };

    fn from(_: AllocFailed<T>) -> Self {
        TokenFault::NoMemory
    }
}
