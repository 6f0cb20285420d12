//! Why a call of a journal failed.

ghost use Rattle.std.specs.Prelude.{◌≡◌};
ghost use Rattle.gate_journal.specs.declared.fault.JournalFault.TheVariants.{NoMemory as OutOfMemory};
ghost use Rattle.gate_journal.specs.Fault.{fault_of};

use std::alloc::{AllocError, AllocFailed};
use voe_disk::DiskFail;
use voe_values::NoMemory;

/// Why a call of a journal failed. Places are bytes of the disk, counted from 0.
#[derive(Clone, Copy, Debug, PartialEq, Eq)]
pub enum JournalFault {
    /// The disk has no journal, or the making of one was cut short (G1).
    Unmade,
    /// The header differs first at this place, or ends there (G2).
    NotJournal { place: u64 },
    /// The gate at this place is open, and no whole entry is behind it (G3).
    Damaged { place: u64 },
    /// The journal would pass its size of 67,108,864 bytes. Nothing has changed (G4).
    Full,
    /// The disk has something else than no journal. It reads as before (G5).
    AlreadyMade,
    /// The disk has failed, and its count of faults rose. A journal is down from then on.
    DiskFault,
    /// The disk was armed and has stopped. A journal is down from then on.
    Stopped,
    /// There was no memory. No device was called by `append`.
    NoMemory,
}

impl From<AllocError> for JournalFault {
    ghost from_gives = { λ _ e. e ≡ OutOfMemory };

    fn from(_: AllocError) -> Self {
        JournalFault::NoMemory
    }
}

impl<T: Drop> From<AllocFailed<T>> for JournalFault {
    ghost from_gives = { λ _ e. e ≡ OutOfMemory };

    fn from(_: AllocFailed<T>) -> Self {
        JournalFault::NoMemory
    }
}

impl From<NoMemory> for JournalFault {
    ghost from_gives = { λ _ e. e ≡ OutOfMemory };

    fn from(_: NoMemory) -> Self {
        JournalFault::NoMemory
    }
}

impl From<DiskFail> for JournalFault {
    ghost from_gives = { λ fail e. e ≡ fault_of fail };

    fn from(fail: DiskFail) -> Self {
        match fail {
            DiskFail::Fault => JournalFault::DiskFault,
            DiskFail::Stopped => JournalFault::Stopped,
        }
    }
}
