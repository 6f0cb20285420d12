//! The journal of a new book.

ghost use Rattle.std.specs.Prelude.{◌≡◌, ◌⊎◌, true, [], ◌∷◌, List, ℕ, IfOk, IfErr, IfSome, OnOk, Some, None};
ghost use Rattle.voe_disk.specs.Disk.{IsDurable, Rose};
ghost use Rattle.voe_disk.specs.Runs.{LeavesOnly};
ghost use Rattle.gate_journal.specs.Device.{IsSameDisk};
ghost use Rattle.gate_journal.specs.Reading.{IsUnmade};
ghost use Rattle.node_notes.specs.Forms.{is_config};
ghost use Rattle.node_notes.specs.Spelling.{config_payload};
ghost use Rattle.node_notes.specs.declared.config.Config.{Config as Configuration};
ghost use Rattle.node_book.specs.Fault.{IsMissing};
ghost use Rattle.node_book.specs.Making.{IsFree, IsMakeRefusal, IsMaking, IsMakingSoFar};

use crate::fault::BookFault;
use gate_journal::{Journal, JournalFault};
use node_notes::{Config, write_config};
use std::alloc::Global;
use voe_disk::Disk;

/// The journal of a disk, with the payload of a configuration and no other. It is made where there is none, and taken
/// where it has no payload. An `Err` hands the disk back.
pub fn make_journal<D: Disk>(
    alloc: Global,
    disk: D,
    config: &Config,
) -> Result<Journal<D>, (D, BookFault)>
    requires { is_config config.now ≡ true }
    ensures ok { IfOk result (λ journal. (journal.payloads ≡ config_payload config.now ∷ []) × (journal.down ≡ None)) }
    ensures was_free { OnOk result (IfSome (D.reads disk) IsFree) }
    ensures refused { IfErr result (λ e. IsMakeRefusal e.1 (D.reads disk)) }
    ensures reading_err { IfErr result (λ e. IsMissing e.1 → (D.reads e.0 ≡ D.reads disk) × IsDurable (D.reads e.0) (D.may_leave e.0) × LeavesOnly D.Disk disk e.0 (D.may_leave disk)) }
    ensures any_moment { IfOk result (λ journal. IsMaking D.Disk config.now disk journal.disk) }
    ensures any_moment_err { IfErr result (λ e. IsMakingSoFar D.Disk config.now disk e.0) }
    ensures same_disk { IfOk result (λ journal. IsSameDisk D.Disk disk journal.disk × (D.faults journal.disk ≡ D.faults disk)) }
    ensures same_disk_err { IfErr result (λ e. IsSameDisk D.Disk disk e.0 × ((e.1 ≡ BookFault.DiskFault → ⊥) → D.faults e.0 ≡ D.faults disk)) }
    ensures fault { IfErr result (λ e. e.1 ≡ BookFault.DiskFault → Rose (D.faults disk) (D.faults e.0)) }
    ensures stopped { IfErr result (λ e. e.1 ≡ BookFault.Stopped → (D.arming e.0).calls ≡ Some 0) }
{
    let Ok(payload) = write_config(alloc, config) else {
        return Err((disk, BookFault::NoMemory));
    };
    let mut journal = empty_journal(alloc, disk)?;
    if let Err(fault) = journal.append(&payload) {
        return Err((journal.into_disk(), BookFault::from(fault)));
    }
    Ok(journal)
}

// The empty journal of a disk, which is made where there is none. An `Err` hands the disk back.
fn empty_journal<D: Disk>(alloc: Global, disk: D) -> Result<Journal<D>, (D, BookFault)>
    ensures ok { IfOk result (λ journal. (journal.payloads ≡ []) × (journal.down ≡ None)) }
    ensures was_free { OnOk result (IfSome (D.reads disk) IsFree) }
    ensures refused { IfErr result (λ e. IsMakeRefusal e.1 (D.reads disk)) }
    ensures reading_err { IfErr result (λ e. IsMissing e.1 → (D.reads e.0 ≡ D.reads disk) × IsDurable (D.reads e.0) (D.may_leave e.0) × LeavesOnly D.Disk disk e.0 (D.may_leave disk)) }
    ensures any_moment { IfOk result (λ journal. (config : Configuration) → IsMaking D.Disk config disk journal.disk) }
    ensures any_moment_err { IfErr result (λ e. (config : Configuration) → IsMakingSoFar D.Disk config disk e.0) }
    ensures same_disk { IfOk result (λ journal. IsSameDisk D.Disk disk journal.disk × (D.faults journal.disk ≡ D.faults disk)) }
    ensures same_disk_err { IfErr result (λ e. IsSameDisk D.Disk disk e.0 × ((e.1 ≡ BookFault.DiskFault → ⊥) → D.faults e.0 ≡ D.faults disk)) }
    ensures fault { IfErr result (λ e. e.1 ≡ BookFault.DiskFault → Rose (D.faults disk) (D.faults e.0)) }
    ensures stopped { IfErr result (λ e. e.1 ≡ BookFault.Stopped → (D.arming e.0).calls ≡ Some 0) }
{
    match Journal::load(alloc, disk) {
        Ok(journal) => {
            if journal.payloads() == 0 {
                return Ok(journal);
            }
            Err((journal.into_disk(), BookFault::AlreadyMade))
        }
        Err((disk, fault)) => {
            if fault == JournalFault::Unmade {
                return first_journal(alloc, disk);
            }
            Err((disk, BookFault::from(fault)))
        }
    }
}

// The journal of a disk that has none, and whose bytes a crash leaves.
fn first_journal<D: Disk>(alloc: Global, disk: D) -> Result<Journal<D>, (D, BookFault)>
    requires unmade { IfSome (D.reads disk) IsUnmade }
    requires durable { IsDurable (D.reads disk) (D.may_leave disk) }
    ensures ok { IfOk result (λ journal. (journal.payloads ≡ []) × (journal.down ≡ None)) }
    ensures refused { IfErr result (λ e. IsMakeRefusal e.1 (D.reads disk)) }
    ensures reading_err { IfErr result (λ e. IsMissing e.1 → (D.reads e.0 ≡ D.reads disk) × IsDurable (D.reads e.0) (D.may_leave e.0) × LeavesOnly D.Disk disk e.0 (D.may_leave disk)) }
    ensures any_moment { IfOk result (λ journal. LeavesOnly D.Disk disk journal.disk IsFree) }
    ensures any_moment_err { IfErr result (λ e. LeavesOnly D.Disk disk e.0 IsFree) }
    ensures same_disk { IfOk result (λ journal. IsSameDisk D.Disk disk journal.disk × (D.faults journal.disk ≡ D.faults disk)) }
    ensures same_disk_err { IfErr result (λ e. IsSameDisk D.Disk disk e.0 × ((e.1 ≡ BookFault.DiskFault → ⊥) → D.faults e.0 ≡ D.faults disk)) }
    ensures fault { IfErr result (λ e. e.1 ≡ BookFault.DiskFault → Rose (D.faults disk) (D.faults e.0)) }
    ensures stopped { IfErr result (λ e. e.1 ≡ BookFault.Stopped → (D.arming e.0).calls ≡ Some 0) }
{
    match Journal::make(alloc, disk) {
        Ok(journal) => Ok(journal),
        Err((disk, fault)) => Err((disk, BookFault::from(fault))),
    }
}
