//! The top call.

ghost use Rattle.std.specs.Prelude.{◌≡◌, ◌==◌, List, ℕ, Some};
ghost use Rattle.voe_outside.specs.Causes.{Rose, count_after};
ghost use Rattle.voevent_cli.specs.Answers.{Answers, DoesAll, Ends, moment};
ghost use Rattle.voevent_cli.specs.Racks.{IsWhole, disks};
ghost use Rattle.voevent_cli.specs.Wanted.{DiskRose, code_of, command_of};

use crate::laws::scenarios_have_room;
use crate::outcome::Status;
use crate::prepare::{Hindrance, prepare};
use net_model::{drained_state, every_drain, every_moment};
use std::alloc::Global;
use voe_disk::Rack;
use voe_outside::{Sink, Source, WriteFault, write_all};
use voe_scenario::laws::scenarios_are_sound;
use voe_values::Text;

/// Reads what the words ask for, does it, makes the whole output, and writes it.
fn finish<S: Source, K: Sink, R: Rack>(
    alloc: Global,
    words: &[Text],
    source: &mut S,
    sink: &mut K,
    rack: &mut R,
) -> Status
    requires whole { IsWhole (disks (λ k. R.trial rack.old k) (R.real rack.old)) }
    ensures ends { let before = moment (S.left source.old) (S.fault_count source.old) (K.held sink.old) (K.fault_count sink.old) (disks (λ k. R.trial rack.old k) (R.real rack.old)) in
        let after = moment (S.left source.new) (S.fault_count source.new) (K.held sink.new) (K.fault_count sink.new) (disks (λ k. R.trial rack.new k) (R.real rack.new)) in
        Ends R.Trial.Disk R.Real.Disk words.now before after result }
    ensures source_faults { S.fault_count source.new ≡ count_after (S.fault_count source.old) (code_of result == 4) }
    ensures sink_faults { K.fault_count sink.new ≡ count_after (K.fault_count sink.old) (code_of result == 5) }
    ensures back { IsWhole (disks (λ k. R.trial rack.new k) (R.real rack.new)) }
{
    every_moment();
    every_drain();
    drained_state();
    scenarios_are_sound();
    scenarios_have_room();
    let outcome = match prepare(alloc, words, source, rack) {
        Ok(outcome) => outcome,
        Err(Hindrance::ReadFault) => return Status::ReadFault,
        Err(Hindrance::DiskFault) => return Status::DiskFault,
        Err(Hindrance::NoMemory) => return Status::NoMemory,
    };
    match write_all(sink, outcome.output.as_slice()) {
        Ok(()) => outcome.status,
        Err(WriteFault::Failed) => Status::WriteFault,
        Err(WriteFault::NoMemory) => Status::NoMemory,
    }
}

/// Does what the words ask for, without a link, and gives the program's exit status: 0 done, 2 the words are no
/// command, 3 the input is refused, 4 it could not be read, 5 the output could not be written, 6 a disk failed, 7 no
/// memory, 8 what a disk holds is refused. No disk of the rack is lent out, neither before nor behind.
pub fn offline<S: Source, K: Sink, R: Rack>(
    alloc: Global,
    words: &[Text],
    source: &mut S,
    sink: &mut K,
    rack: &mut R,
) -> u8
    requires whole { IsWhole (disks (λ k. R.trial rack.old k) (R.real rack.old)) }

    // For all words, sources, sinks and racks: which status, how much is taken from the source, what is put on the sink, and
    // what is done to the disks.
    ensures answers { let before = moment (S.left source.old) (S.fault_count source.old) (K.held sink.old) (K.fault_count sink.old) (disks (λ k. R.trial rack.old k) (R.real rack.old)) in
        let after = moment (S.left source.new) (S.fault_count source.new) (K.held sink.new) (K.fault_count sink.new) (disks (λ k. R.trial rack.new k) (R.real rack.new)) in
        Answers R.Trial.Disk R.Real.Disk words.now before after result }

    // Of a source that tells its bytes: what is wanted for all of them is done, unless a count of faults rose, or 7.
    ensures complete { let before = moment (S.left source.old) (S.fault_count source.old) (K.held sink.old) (K.fault_count sink.old) (disks (λ k. R.trial rack.old k) (R.real rack.old)) in
        let after = moment (S.left source.new) (S.fault_count source.new) (K.held sink.new) (K.fault_count sink.new) (disks (λ k. R.trial rack.new k) (R.real rack.new)) in
        (input : List ℕ) → before.left ≡ Some input → DoesAll R.Trial.Disk R.Real.Disk words.now input before after result }

    // 4 comes exactly where a read failed, and 5 exactly where a write did: the source's count of faults goes up in
    // this call, by one, where 4 is answered and nowhere else, and the sink's where 5 is.
    ensures source_faults { S.fault_count source.new ≡ count_after (S.fault_count source.old) (result == 4) }
    ensures sink_faults { K.fault_count sink.new ≡ count_after (K.fault_count sink.old) (result == 5) }

    // 4 comes only where the source's count of faults rose in this call, 5 only where the sink's did, 6 only where that of
    // a disk did which the command calls: of a trial disk for `net`, of the real one for `init`.
    ensures read_fault { result ≡ 4 → Rose (S.fault_count source.old) (S.fault_count source.new) }
    ensures write_fault { result ≡ 5 → Rose (K.fault_count sink.old) (K.fault_count sink.new) }
    ensures disk_fault { result ≡ 6 → DiskRose R.Trial.Disk R.Real.Disk (command_of words.now) (disks (λ k. R.trial rack.old k) (R.real rack.old)) (disks (λ k. R.trial rack.new k) (R.real rack.new)) }

    // Every disk is put back, whatever the status.
    ensures back { IsWhole (disks (λ k. R.trial rack.new k) (R.real rack.new)) }
{
    finish(alloc, words, source, sink, rack).code()
}
