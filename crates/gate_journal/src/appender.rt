//! A journal to which payloads are added, and which has none of them in memory.

ghost use Rattle.std.specs.Prelude.{◌≡◌, ◌⊎◌, ◌↔◌, ◌+◌, ◌<◌, ◌≤◌, [], ◌∷◌, ◌++◌, List, ℕ, length, IfErr, IfSome, IsTrue, OnOk, OnErr, IsErrOf, Some, None};
ghost use Rattle.std.specs.Option.{option_map};
ghost use Rattle.voe_disk.specs.Disk.{OneStep, Rose, counted};
ghost use Rattle.voe_disk.specs.Failing.{passed};
ghost use Rattle.voe_disk.specs.Runs.{LeavesOnly, Untouched};
ghost use Rattle.gate_journal.specs.Appender.{IsAppender};
ghost use Rattle.gate_journal.specs.Device.{IsSameDisk, FailedWithin};
ghost use Rattle.gate_journal.specs.Format.{kept, Stands, StandsBeforeOrAfter};

use crate::JournalFault;
use crate::entry::body;
use crate::gate::write_behind;
use std::alloc::Global;
use std::marker::Model;
use voe_disk::{CrashDisk, Disk, DiskFail};

const MAX_SIZE: u64 = 67_108_864;

/// The journal of a disk that it owns, to which payloads of 1 to 1,100,000 bytes are added, at most 67,108,864 bytes
/// with their gates. It knows where the closed gate stands, and has no payload in memory. A payload that was added is
/// there after a crash at any later moment. After a failure of the disk it is down; the disk is taken back and loaded
/// again.
#[derive(Drop)]
pub struct Appender<D: Disk> {
    alloc: Global,
    disk: D,
    end: u64,
    down: Option<DiskFail>,
}

impl<D: Disk> Model for Appender<D> {
    ghost use Rattle.gate_journal.specs.Appender.{AppenderView, IsAppender};

    ghost Value = { AppenderView D };

    ghost view = { λ a. record { disk = a.disk; end = a.end; down = a.down } };

    ghost invariant = { λ a. IsAppender D.Disk (record { disk = a.disk; end = a.end; down = a.down }) };
}

impl<D: Disk> Appender<D> {
    ghost use Rattle.gate_journal.specs.Fault.{fault_of, ComesFromDisk};
    ghost use Rattle.gate_journal.specs.Appender.{HasPayloads, ForPayloads};

    /// Why it is down, if it is.
    pub fn down(&self) -> Option<DiskFail>
        ensures down { result ≡ self.now.down }
        ensures sound { IsAppender D.Disk self.now }
    {
        self.down
    }

    /// Whether there is room for one payload of so many bytes.
    pub fn has_room(&self, count: usize) -> bool
        ensures { IsTrue result ↔ (self.now.end + 6 + count ≤ 67108864) }
    {
        has_room_behind(self.end, count)
    }

    /// How often the disk's calls have failed.
    pub fn faults(&self) -> u64
        ensures { result ≡ D.faults self.now.disk }
    {
        self.disk.faults()
    }

    /// The disk as it is.
    pub fn into_disk(self) -> D
        ensures disk { result ≡ self.disk }
        ensures sound { IsAppender D.Disk self }
    {
        let Appender { disk, .. } = self;
        disk
    }

    /// Adds a payload behind those that are there, whichever they are. After `Ok` each crash from then on leaves a
    /// journal that has it. After `Full` (G4) and `NoMemory` no device was called; after `DiskFault` and `Stopped` it is
    /// down, and answers the same until its disk is taken back.
    pub fn append(&mut self, payload: &[u8]) -> Result<(), JournalFault>
        requires some { 1 ≤ length payload.now }
        requires few { length payload.now ≤ 1100000 }

        ensures ok { OnOk result (ForPayloads D.Disk self.old (λ payloads. HasPayloads D.Disk self.new (payloads ++ payload.now ∷ []))) }
        ensures up { OnOk result (self.new.down ≡ None) }
        ensures err { OnErr result (ForPayloads D.Disk self.old (HasPayloads D.Disk self.new)) }

        // A crash at any moment leaves a journal with the payload or without it.
        ensures any_moment { self.old.down ≡ None → ForPayloads D.Disk self.old (λ payloads. LeavesOnly D.Disk self.old.disk self.new.disk (StandsBeforeOrAfter payloads payload.now)) }

        // Four device calls, and no others: none follows one that fails.
        ensures four { OnOk result (D.failing self.new.disk ≡ option_map passed (option_map passed (option_map passed (option_map passed (D.failing self.old.disk))))) }
        ensures counted { OnOk result (D.arming self.new.disk ≡ counted (counted (counted (counted (D.arming self.old.disk))))) }
        ensures failed { IsErrOf result JournalFault.DiskFault → self.old.down ≡ None → FailedWithin 4 (D.failing self.old.disk) (D.failing self.new.disk) }
        ensures enough { OnOk result (IfSome (D.arming self.old.disk).calls (λ calls. 4 ≤ calls)) }
        ensures few { IsErrOf result JournalFault.Stopped → self.old.down ≡ None
            → (calls : ℕ) × ((D.arming self.old.disk).calls ≡ Some calls) × (calls < 4) }

        ensures full { (result ≡ Err JournalFault.Full) ↔ ((self.old.down ≡ None) × (67108864 < self.old.end + 6 + length payload.now)) }
        ensures full_unchanged { IsErrOf result JournalFault.Full → self.new ≡ self.old }
        ensures no_memory { IsErrOf result JournalFault.NoMemory → Untouched D.Disk self.old.disk self.new.disk × (self.new.down ≡ None) }

        // The disk has failed in this call, or it was down. It is down from then on.
        ensures fault { IsErrOf result JournalFault.DiskFault → (self.new.down ≡ Some DiskFail.Fault)
            × ((self.old.down ≡ Some DiskFail.Fault) ⊎ Rose (D.faults self.old.disk) (D.faults self.new.disk)) }
        ensures stopped { IsErrOf result JournalFault.Stopped → (self.new.down ≡ Some DiskFail.Stopped)
            × ((self.old.down ≡ Some DiskFail.Stopped) ⊎ ((D.arming self.new.disk).calls ≡ Some 0)) }
        ensures down { (fail : _) → self.old.down ≡ Some fail → (result ≡ Err (fault_of fail)) × (self.new ≡ self.old) }
        ensures causes { IfErr result (λ fault. (fault ≡ JournalFault.Full) ⊎ ComesFromDisk fault) }
        ensures same_disk { IsSameDisk D.Disk self.old.disk self.new.disk }
        ensures quiet { (IsErrOf result JournalFault.DiskFault → ⊥) → D.faults self.new.disk ≡ D.faults self.old.disk }

        // A crash of a disk that tells what it leaves.
        ensures stopped_image { IsErrOf result JournalFault.Stopped → self.old.down ≡ None
            → ForPayloads D.Disk self.old (λ payloads. (fill : ℕ) (image : List ℕ) → D.crash_image self.new.disk fill ≡ Some image
            → Stands image (kept (D.arming self.old.disk).calls fill payloads payload.now)) }
    {
        if let Some(fail) = self.down {
            return Err(JournalFault::from(fail));
        }
        if !has_room_behind(self.end, payload.len()) {
            return Err(JournalFault::Full);
        }
        let entry = body(self.alloc, payload)?;
        let end = self.end + 5 + payload.len() as u64;
        self.disk.reserve(end + 1, 4, entry.len() as u64 + 1)?;
        if let Err(fail) = write_behind(&mut self.disk, self.end, &entry) {
            self.down = Some(fail);
            return Err(JournalFault::from(fail));
        }
        self.end = end;
        Ok(())
    }
}

impl<D: CrashDisk> Appender<D> {
    ghost use Rattle.gate_journal.specs.Appender.{HasPayloads, ForPayloads};

    /// Arms the disk, as `CrashDisk::arm` does. All else stays.
    pub fn arm(&mut self, calls: u8, fill: u8)
        ensures payloads { ForPayloads D.Disk self.old (HasPayloads D.Disk self.new) }
        ensures end { self.new.end ≡ self.old.end }
        ensures down { self.new.down ≡ self.old.down }
        ensures arming { D.arming self.new.disk ≡ record { calls = Some calls; fill = fill } }
        ensures reading { D.reads self.new.disk ≡ D.reads self.old.disk }
        ensures images { (image : List ℕ) → D.may_leave self.new.disk image ↔ D.may_leave self.old.disk image }
        ensures exact_image { (byte : ℕ) → D.crash_image self.new.disk byte ≡ D.crash_image self.old.disk byte }
        ensures failing { D.failing self.new.disk ≡ D.failing self.old.disk }
        ensures faults { D.faults self.new.disk ≡ D.faults self.old.disk }
        ensures any_moment { OneStep D.is_since D.left_since D.may_leave self.old.disk self.new.disk }
    {
        self.disk.arm(calls, fill);
    }
}

/// The appender of a disk whose journal has its closed gate at this place.
pub fn appender_at<D: Disk>(alloc: Global, disk: D, end: u64) -> Appender<D>
    requires { IsAppender D.Disk (record { disk = disk; end = end; down = None }) }
    ensures { result ≡ record { disk = disk; end = end; down = None } }
{
    Appender {
        alloc,
        disk,
        end,
        down: None,
    }
}

// Whether there is room for one payload of so many bytes behind a closed gate.
fn has_room_behind(end: u64, count: usize) -> bool
    ensures { IsTrue result ↔ (end + 6 + count ≤ 67108864) }
{
    end.saturating_add(6).saturating_add(count as u64) <= MAX_SIZE
}
