//! Why a call of a book failed.

ghost use Rattle.std.specs.Prelude.{◌≡◌};

use gate_journal::JournalFault;
use std::alloc::AllocError;
use voe_values::NoMemory;

/// Why a call of a book failed. Places are bytes of the disk, counted from 0.
#[derive(Clone, Copy, Debug, PartialEq, Eq)]
pub enum BookFault {
    /// The disk has no journal, the making of one was cut short, or the journal has no payload (G1).
    Unmade,
    /// The header differs first at this place, or ends there (G2).
    NotJournal { place: u64 },
    /// The gate at this place is open, and no whole entry is behind it (G3).
    Damaged { place: u64 },
    /// The journal would pass its size of 67,108,864 bytes, or the book its 65,536 identifiers. Nothing has changed (G4).
    Full,
    /// The journal has a payload. It reads as before (G5).
    AlreadyMade,
    /// The disk has failed, and its count of faults rose. A book is down from then on.
    DiskFault,
    /// The disk was armed and has stopped. A book is down from then on.
    Stopped,
    /// There was no memory. No device was called by `add`.
    NoMemory,
    /// The payload behind the gate at this place is not of the form that its place demands (G6).
    BadNote { place: u64 },
}

impl From<AllocError> for BookFault {
    ghost use Rattle.node_book.specs.declared.fault.BookFault.TheVariants.{NoMemory as OutOfMemory};

    ghost from_gives = { λ _ e. e ≡ OutOfMemory };

    fn from(_: AllocError) -> Self {
        BookFault::NoMemory
    }
}

impl From<NoMemory> for BookFault {
    ghost use Rattle.node_book.specs.declared.fault.BookFault.TheVariants.{NoMemory as OutOfMemory};

    ghost from_gives = { λ _ e. e ≡ OutOfMemory };

    fn from(_: NoMemory) -> Self {
        BookFault::NoMemory
    }
}

impl From<JournalFault> for BookFault {
    ghost use Rattle.node_book.specs.Fault.{book_fault};

    ghost from_gives = { λ fault e. e ≡ book_fault fault };

    fn from(fault: JournalFault) -> Self {
        match fault {
            JournalFault::Unmade => BookFault::Unmade,
            JournalFault::NotJournal { place } => BookFault::NotJournal { place },
            JournalFault::Damaged { place } => BookFault::Damaged { place },
            JournalFault::Full => BookFault::Full,
            JournalFault::AlreadyMade => BookFault::AlreadyMade,
            JournalFault::DiskFault => BookFault::DiskFault,
            JournalFault::Stopped => BookFault::Stopped,
            JournalFault::NoMemory => BookFault::NoMemory,
        }
    }
}
