//! A journal on a disk.

ghost use Rattle.std.specs.Prelude.{◌≡◌, ◌⊎◌, ◌↔◌, ◌+◌, ◌^◌, ◌<◌, ◌≤◌, [], ◌∷◌, ◌++◌, List, ℕ, length, take, IfOk, IfErr, IfSome, IsSome, OnOk, OnErr, slice_get, IsErrOf, Some, None};
ghost use Rattle.std.specs.Option.{option_map};
ghost use Rattle.voe_disk.specs.Disk.{OneStep, Rose, IsDurable, counted};
ghost use Rattle.voe_disk.specs.Failing.{passed};
ghost use Rattle.voe_disk.specs.Runs.{LeavesOnly, Untouched};
ghost use Rattle.gate_journal.specs.Device.{IsSameDisk, FailedWithin};
ghost use Rattle.gate_journal.specs.Format.{front, kept, Stands, StandsBeforeOrAfter};
ghost use Rattle.gate_journal.specs.Reading.{IsUnmade, IsRefusal};
ghost use Rattle.gate_journal.specs.Making.{IsMaking, IsMakingSoFar, IsOther};

use crate::JournalFault;
use crate::appender::{Appender, appender_at};
use crate::load::read_journal;
use crate::make::make_journal;
use crate::payloads::Payloads;
use std::alloc::Global;
use std::marker::Model;
use voe_disk::{CrashDisk, Disk, DiskFail};

/// Payloads of 1 to 1,100,000 bytes on a disk that the journal owns, at most 67,108,864 bytes with their gates. A
/// payload that was added is there after a crash at any later moment. After a failure of the disk the journal is
/// down; the disk is taken back and loaded again.
#[derive(Drop)]
pub struct Journal<D: Disk> {
    appender: Appender<D>,
    payloads: Payloads,
}

impl<D: Disk> Model for Journal<D> {
    ghost use Rattle.gate_journal.specs.Appender.{HasPayloads};
    ghost use Rattle.gate_journal.specs.Journal.{JournalView};
    ghost use Rattle.gate_journal.specs.Payloads.{payloads_in};

    ghost Value = { JournalView D };

    ghost view = { λ j. record { disk = j.appender.disk; payloads = payloads_in j.payloads; down = j.appender.down } };

    ghost invariant = { λ j. HasPayloads D.Disk j.appender (payloads_in j.payloads) };
}

impl<D: Disk> Journal<D> {
    ghost use Rattle.gate_journal.specs.Appender.{HasPayloads};
    ghost use Rattle.gate_journal.specs.Fault.{fault_of, ComesFromDisk, IsMakeFault, IsMissing};
    ghost use Rattle.gate_journal.specs.Journal.{IsSound};

    /// Makes an empty journal on a disk that has none. An `Err` hands the disk back: `AlreadyMade` (G5) exactly where
    /// something else stands there, otherwise what the disk answered, or `NoMemory`.
    pub fn make(alloc: Global, mut disk: D) -> Result<Self, (D, JournalFault)>
        ensures ok { IfOk result (λ journal. (journal.payloads ≡ []) × (journal.down ≡ None) × IsSound D.Disk journal) }
        ensures was_unmade { OnOk result (IfSome (D.reads disk) IsUnmade) }
        ensures already { IfErr result (λ e. e.1 ≡ JournalFault.AlreadyMade → IsOther D.Disk disk e.0) }
        ensures causes { IfErr result (λ e. IsMakeFault e.1) }

        // After the first sync a crash at any moment leaves no journal or an empty one.
        ensures any_moment { IfOk result (λ journal. IsMaking D.Disk disk journal.disk) }
        ensures any_moment_err { IfErr result (λ e. IsMakingSoFar D.Disk disk e.0) }

        ensures same_disk { IfOk result (λ journal. IsSameDisk D.Disk disk journal.disk × (D.faults journal.disk ≡ D.faults disk)) }
        ensures same_disk_err { IfErr result (λ e. IsSameDisk D.Disk disk e.0 × ((e.1 ≡ JournalFault.DiskFault → ⊥) → D.faults e.0 ≡ D.faults disk)) }
        ensures no_memory { IfErr result (λ e. e.1 ≡ JournalFault.NoMemory → Untouched D.Disk disk e.0) }
        ensures fault { IfErr result (λ e. e.1 ≡ JournalFault.DiskFault → Rose (D.faults disk) (D.faults e.0)) }
        ensures stopped { IfErr result (λ e. e.1 ≡ JournalFault.Stopped → (D.arming e.0).calls ≡ Some 0) }
    {
        let Ok(payloads) = Payloads::new(alloc) else {
            return Err((disk, JournalFault::NoMemory));
        };
        match make_journal(&mut disk) {
            Ok(()) => {
                let appender = appender_at(alloc, disk, payloads.end());
                Ok(Journal { appender, payloads })
            }
            Err(fault) => Err((disk, fault)),
        }
    }

    /// Reads the journal of a disk, beginning with a sync. An `Err` hands the disk back: `Unmade`, `NotJournal` or
    /// `Damaged` (G1 to G3) exactly as the bytes say, otherwise what the disk answered, or `NoMemory`.
    pub fn load(alloc: Global, mut disk: D) -> Result<Self, (D, JournalFault)>
        ensures ok { IfOk result (λ journal. (journal.down ≡ None) × IsSound D.Disk journal) }
        ensures told { IfOk result (λ journal. IfSome (D.reads disk) (λ file. Stands file journal.payloads)) }
        ensures refused { IfErr result (λ e. IsRefusal e.1 (D.reads disk)) }

        // The disk reads as before, and where its bytes were judged a crash leaves what it reads.
        ensures reading { IfOk result (λ journal. D.reads journal.disk ≡ D.reads disk) }
        ensures reading_err { IfErr result (λ e. D.reads e.0 ≡ D.reads disk) }
        ensures durable { IfOk result (λ journal. IsDurable (D.reads journal.disk) (D.may_leave journal.disk)) }
        ensures durable_err { IfErr result (λ e. IsMissing e.1 → IsDurable (D.reads e.0) (D.may_leave e.0)) }

        ensures no_memory { IfErr result (λ e. e.1 ≡ JournalFault.NoMemory → Untouched D.Disk disk e.0 ⊎ IsDurable (D.reads e.0) (D.may_leave e.0)) }

        // A crash leaves nothing that it might not have left before.
        ensures any_moment { IfOk result (λ journal. LeavesOnly D.Disk disk journal.disk (D.may_leave disk)) }
        ensures any_moment_err { IfErr result (λ e. LeavesOnly D.Disk disk e.0 (D.may_leave disk)) }

        ensures same_disk { IfOk result (λ journal. IsSameDisk D.Disk disk journal.disk × (D.faults journal.disk ≡ D.faults disk)) }
        ensures same_disk_err { IfErr result (λ e. IsSameDisk D.Disk disk e.0 × ((e.1 ≡ JournalFault.DiskFault → ⊥) → D.faults e.0 ≡ D.faults disk)) }
        ensures fault { IfErr result (λ e. e.1 ≡ JournalFault.DiskFault → Rose (D.faults disk) (D.faults e.0)) }
        ensures stopped { IfErr result (λ e. e.1 ≡ JournalFault.Stopped → (D.arming e.0).calls ≡ Some 0) }
    {
        match read_journal(alloc, &mut disk) {
            Ok(payloads) => {
                let appender = appender_at(alloc, disk, payloads.end());
                Ok(Journal { appender, payloads })
            }
            Err(fault) => Err((disk, fault)),
        }
    }

    /// Why the journal is down, if it is.
    pub fn down(&self) -> Option<DiskFail>
        ensures down { result ≡ self.now.down }
        ensures sound { IsSound D.Disk self.now }
    {
        self.appender.down()
    }

    /// The number of payloads.
    pub fn payloads(&self) -> usize
        ensures { result ≡ length self.now.payloads }
    {
        self.payloads.len()
    }

    /// The payload of a number, counted from 0.
    pub fn payload(&self, at: usize) -> Option<&[u8]>
        ensures { option_map (λ payload. payload.now) result ≡ slice_get self.now.payloads at }
    {
        self.payloads.get(at)
    }

    /// The place of a payload's gate on the disk.
    pub fn place(&self, at: usize) -> Option<u64>
        ensures place { IfSome result (λ place. place ≡ length (front (take at self.now.payloads))) }
        ensures within { IsSome result ↔ (at < length self.now.payloads) }
    {
        self.payloads.place(at)
    }

    /// How often the disk's calls have failed.
    pub fn faults(&self) -> u64
        ensures { result ≡ D.faults self.now.disk }
    {
        self.appender.faults()
    }

    /// The disk as it is.
    pub fn into_disk(self) -> D
        ensures disk { result ≡ self.disk }
        ensures sound { IsSound D.Disk self }
    {
        let Journal { appender, .. } = self;
        appender.into_disk()
    }

    /// The journal without its payloads in memory, which are let go.
    pub fn into_appender(self) -> Appender<D>
        ensures payloads { HasPayloads D.Disk result self.payloads }
        ensures disk { result.disk ≡ self.disk }
        ensures down { result.down ≡ self.down }
    {
        let Journal { appender, .. } = self;
        appender
    }

    /// Adds a payload. After `Ok` each crash from then on leaves a journal that has it. After `Full` (G4) and
    /// `NoMemory` no device was called; after `DiskFault` and `Stopped` the journal is down, and answers the same
    /// until its disk is taken back.
    pub fn append(&mut self, payload: &[u8]) -> Result<(), JournalFault>
        requires some { 1 ≤ length payload.now }
        requires few { length payload.now ≤ 1100000 }

        ensures sound { IsSound D.Disk self.new }
        ensures ok { OnOk result ((self.new.payloads ≡ self.old.payloads ++ payload.now ∷ []) × (self.new.down ≡ None)) }
        ensures err { OnErr result (self.new.payloads ≡ self.old.payloads) }

        // A crash at any moment leaves a journal with the payload or without it.
        ensures any_moment { self.old.down ≡ None → LeavesOnly D.Disk self.old.disk self.new.disk (StandsBeforeOrAfter self.old.payloads payload.now) }

        // Four device calls, and no others: none follows one that fails.
        ensures four { OnOk result (D.failing self.new.disk ≡ option_map passed (option_map passed (option_map passed (option_map passed (D.failing self.old.disk))))) }
        ensures counted { OnOk result (D.arming self.new.disk ≡ counted (counted (counted (counted (D.arming self.old.disk))))) }
        ensures failed { IsErrOf result JournalFault.DiskFault → self.old.down ≡ None → FailedWithin 4 (D.failing self.old.disk) (D.failing self.new.disk) }
        ensures enough { OnOk result (IfSome (D.arming self.old.disk).calls (λ calls. 4 ≤ calls)) }
        ensures few { IsErrOf result JournalFault.Stopped → self.old.down ≡ None
            → (calls : ℕ) × ((D.arming self.old.disk).calls ≡ Some calls) × (calls < 4) }

        ensures full { (result ≡ Err JournalFault.Full) ↔ ((self.old.down ≡ None) × (67108864 < length (front self.old.payloads) + 6 + length payload.now)) }
        ensures full_unchanged { IsErrOf result JournalFault.Full → self.new ≡ self.old }
        ensures no_memory { IsErrOf result JournalFault.NoMemory → Untouched D.Disk self.old.disk self.new.disk × (self.new.down ≡ None) }

        // The disk has failed in this call, or the journal was down. It is down from then on.
        ensures fault { IsErrOf result JournalFault.DiskFault → (self.new.down ≡ Some DiskFail.Fault)
            × ((self.old.down ≡ Some DiskFail.Fault) ⊎ Rose (D.faults self.old.disk) (D.faults self.new.disk)) }
        ensures stopped { IsErrOf result JournalFault.Stopped → (self.new.down ≡ Some DiskFail.Stopped)
            × ((self.old.down ≡ Some DiskFail.Stopped) ⊎ ((D.arming self.new.disk).calls ≡ Some 0)) }
        ensures down { (fail : _) → self.old.down ≡ Some fail → (result ≡ Err (fault_of fail)) × (self.new ≡ self.old) }
        ensures causes { IfErr result (λ fault. (fault ≡ JournalFault.Full) ⊎ ComesFromDisk fault) }
        ensures same_disk { IsSameDisk D.Disk self.old.disk self.new.disk }
        ensures quiet { (IsErrOf result JournalFault.DiskFault → ⊥) → D.faults self.new.disk ≡ D.faults self.old.disk }

        // A crash of a disk that tells what it leaves.
        ensures stopped_image { IsErrOf result JournalFault.Stopped → self.old.down ≡ None
            → (fill : ℕ) (image : List ℕ) → D.crash_image self.new.disk fill ≡ Some image
            → Stands image (kept (D.arming self.old.disk).calls fill self.old.payloads payload.now) }
    {
        if let Some(fail) = self.appender.down() {
            return Err(JournalFault::from(fail));
        }
        if !self.appender.has_room(payload.len()) {
            return Err(JournalFault::Full);
        }
        self.payloads.reserve(payload.len())?;
        self.appender.append(payload)?;
        self.payloads.push(payload);
        Ok(())
    }
}

impl<D: CrashDisk> Journal<D> {
    ghost use Rattle.gate_journal.specs.Journal.{IsSound};

    /// Arms the disk, as `CrashDisk::arm` does. All else stays.
    pub fn arm(&mut self, calls: u8, fill: u8)
        ensures payloads { self.new.payloads ≡ self.old.payloads }
        ensures down { self.new.down ≡ self.old.down }
        ensures sound { IsSound D.Disk self.new }
        ensures arming { D.arming self.new.disk ≡ record { calls = Some calls; fill = fill } }
        ensures reading { D.reads self.new.disk ≡ D.reads self.old.disk }
        ensures images { (image : List ℕ) → D.may_leave self.new.disk image ↔ D.may_leave self.old.disk image }
        ensures exact_image { (byte : ℕ) → D.crash_image self.new.disk byte ≡ D.crash_image self.old.disk byte }
        ensures failing { D.failing self.new.disk ≡ D.failing self.old.disk }
        ensures faults { D.faults self.new.disk ≡ D.faults self.old.disk }
        ensures any_moment { OneStep D.is_since D.left_since D.may_leave self.old.disk self.new.disk }
    {
        self.appender.arm(calls, fill);
    }
}
