//! The command `init`.

ghost use Rattle.std.specs.Prelude.{◌≡◌, ◌⊎◌, ◌≤◌, ℕ, List, true, None, Some, IfErr, IfOk, codes, length};
ghost use Rattle.node_notes.specs.Forms.{is_config};
ghost use Rattle.voevent_cli.specs.Inits.{IsHindered, IsNoJournal, IsPossible, MakesOn, refusal_of_making};
ghost use Rattle.voevent_cli.specs.Outcomes.{done, refused};
ghost use Rattle.voevent_cli.specs.Prepared.{Acted, IsHinderedRack};
ghost use Rattle.voevent_cli.specs.Racks.{IsWhole, OnReal, disks};

use crate::command::Command;
use crate::outcome::{Outcome, Status};
use crate::prepare::Hindrance;
use crate::refusal::Refusal;
use node_book::{Book, BookFault};
use node_notes::Config;
use std::alloc::Global;
use voe_disk::{Disk, Rack};
use voe_scenario::{ScenarioFault, read_config};
use voe_values::{Bytes, NoMemory};

/// The refusal of a disk on which no journal was made.
fn refusal_of(fault: BookFault) -> Option<Refusal>
    ensures { result ≡ refusal_of_making fault }
{
    match fault {
        BookFault::NotJournal { place } => Some(Refusal::Foreign { place }),
        BookFault::Damaged { place } => Some(Refusal::Damaged { place }),
        BookFault::AlreadyMade => Some(Refusal::Made),
        _ => None,
    }
}

/// The outcome where a journal was made.
fn made(alloc: Global) -> Result<Outcome, NoMemory>
    ensures { IfOk result (λ outcome. outcome ≡ done (codes "made\n")) }
{
    Ok(Outcome {
        status: Status::Done,
        output: Bytes::of(alloc, b"made\n")?,
    })
}

/// Why no journal was made, where the disk is not refused.
fn hindrance_of(fault: BookFault) -> Hindrance
    requires possible { IsPossible fault }
    requires not_refused { refusal_of_making fault ≡ None }
    ensures { IsNoJournal fault result }
{
    match fault {
        BookFault::DiskFault => Hindrance::DiskFault,
        BookFault::NoMemory => Hindrance::NoMemory,
        _ => unreachable!(),
    }
}

/// What is answered where no journal was made.
fn refuse(alloc: Global, fault: BookFault) -> Result<Outcome, Hindrance>
    requires { IsPossible fault }
    ensures refused { IfOk result (λ outcome. (refusal : Refusal) × (refusal_of_making fault ≡ Some refusal) × (outcome ≡ refused refusal)) }
    ensures hindered { IfErr result (λ hindrance. hindrance ≡ Hindrance.NoMemory ⊎ IsNoJournal fault hindrance) }
{
    match refusal_of(fault) {
        Some(refusal) => Ok(refusal.outcome(alloc)?),
        None => Err(hindrance_of(fault)),
    }
}

/// Makes the journal of a node on a disk, which is handed back.
fn make_on<D: Disk>(alloc: Global, disk: D, config: Config) -> (D, Result<Outcome, Hindrance>)
    requires form { is_config config ≡ true }
    requires unarmed { (D.arming disk).calls ≡ None }
    ensures done { IfOk result.1 (λ outcome. MakesOn D.Disk config outcome disk result.0) }
    ensures failed { IfErr result.1 (IsHindered D.Disk disk result.0) }
    ensures unarmed { (D.arming result.0).calls ≡ None }
{
    match Book::make(alloc, disk, config) {
        Ok(book) => {
            let disk = book.into_disk();
            match made(alloc) {
                Ok(outcome) => (disk, Ok(outcome)),
                Err(NoMemory) => (disk, Err(Hindrance::NoMemory)),
            }
        }
        Err((disk, fault)) => (disk, refuse(alloc, fault)),
    }
}

/// Makes the journal of a node on the real disk of a rack.
fn make_node<R: Rack>(alloc: Global, rack: &mut R, config: Config) -> Result<Outcome, Hindrance>
    requires form { is_config config ≡ true }
    requires whole { IsWhole (disks (λ k. R.trial rack.old k) (R.real rack.old)) }
    ensures done { IfOk result (λ outcome. OnReal (MakesOn R.Real.Disk config outcome) (disks (λ k. R.trial rack.old k) (R.real rack.old)) (disks (λ k. R.trial rack.new k) (R.real rack.new))) }
    ensures failed { IfErr result (IsHinderedRack R.Trial.Disk R.Real.Disk Command.Init (disks (λ k. R.trial rack.old k) (R.real rack.old)) (disks (λ k. R.trial rack.new k) (R.real rack.new))) }
    ensures whole { IsWhole (disks (λ k. R.trial rack.new k) (R.real rack.new)) }
{
    let Some(disk) = rack.lend_real() else {
        unreachable!();
    };
    let (disk, result) = make_on(alloc, disk, config);
    rack.put_back_real(disk);
    result
}

/// What `init` answers to an input: it makes the journal of the node that the input configures.
pub(crate) fn answer_of_init<R: Rack>(
    alloc: Global,
    input: &[u8],
    rack: &mut R,
) -> Result<Outcome, Hindrance>
    requires input { length input.now ≤ 33554432 }
    requires whole { IsWhole (disks (λ k. R.trial rack.old k) (R.real rack.old)) }
    ensures acted { (words : List (List ℕ)) → Acted R.Trial.Disk R.Real.Disk words Command.Init input.now (disks (λ k. R.trial rack.old k) (R.real rack.old)) (disks (λ k. R.trial rack.new k) (R.real rack.new)) result }
    ensures whole { IsWhole (disks (λ k. R.trial rack.new k) (R.real rack.new)) }
{
    match read_config(alloc, input) {
        Ok(config) => make_node(alloc, rack, config),
        Err(ScenarioFault::Refused { number, line }) => {
            Ok(Refusal::Scenario { number, line }.outcome(alloc)?)
        }
        Err(ScenarioFault::NoMemory) => Err(Hindrance::NoMemory),
    }
}
