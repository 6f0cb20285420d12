//! What is done and made before anything is written.

ghost use Rattle.std.specs.Prelude.{◌≡◌, ◌≤◌, Some, length};
ghost use Rattle.voe_outside.specs.Causes.{count_after};
ghost use Rattle.voevent_cli.specs.Outcomes.{refused};
ghost use Rattle.voevent_cli.specs.Prepared.{Acted, IsWantedAbove, MatchPrepares, Prepares, is_unread};
ghost use Rattle.voevent_cli.specs.Racks.{IsWhole, disks};
ghost use Rattle.voevent_cli.specs.Wanted.{command_of, filter_of, limit_of};

use crate::check::answer_of_check;
use crate::command::Command;
use crate::init::answer_of_init;
use crate::matching::{match_input, refusal_of};
use crate::net::answer_of_net;
use crate::outcome::{Outcome, Status};
use crate::refusal::Refusal;
use crate::show::answer_of_show;
use filter_text::laws::read_is_not_refused;
use path_filter::Filter;
use std::alloc::Global;
use voe_disk::Rack;
use voe_outside::{ReadFault, Source, read_all};
use voe_values::{Bytes, NoMemory, Text};

/// Why nothing could be prepared.
#[derive(Clone, Copy, Debug, PartialEq, Eq)]
pub enum Hindrance {
    ReadFault,
    DiskFault,
    NoMemory,
}

impl From<NoMemory> for Hindrance {
    ghost use Rattle.std.specs.Prelude.{◌≡◌};
    ghost use Rattle.voevent_cli.specs.declared.prepare.Hindrance.TheVariants as Hindrance;

    ghost from_gives = { λ _ hindrance. hindrance ≡ Hindrance.NoMemory };

    fn from(_: NoMemory) -> Self {
        Hindrance::NoMemory
    }
}

/// What a command but `match` answers to its whole input, over the disks of a rack.
fn answer_of<R: Rack>(
    alloc: Global,
    words: &[Text],
    command: Command,
    input: &[u8],
    rack: &mut R,
) -> Result<Outcome, Hindrance>
    requires other { command ≡ Command.Match → ⊥ }
    requires input { length input.now ≤ limit_of command }
    requires whole { IsWhole (disks (λ k. R.trial rack.old k) (R.real rack.old)) }
    ensures acted { Acted R.Trial.Disk R.Real.Disk words.now command input.now (disks (λ k. R.trial rack.old k) (R.real rack.old)) (disks (λ k. R.trial rack.new k) (R.real rack.new)) result }
    ensures whole { IsWhole (disks (λ k. R.trial rack.new k) (R.real rack.new)) }
{
    match command {
        Command::Net => answer_of_net(alloc, input, rack),
        Command::Check => Ok(answer_of_check(alloc, input)?),
        Command::Show => Ok(answer_of_show(alloc, input)?),
        Command::Match => unreachable!(),
        Command::Init => answer_of_init(alloc, input, rack),
    }
}

/// Why a command but `match` refuses an input above its limit.
fn refusal_above(command: Command) -> Refusal
    requires { command ≡ Command.Match → ⊥ }
    ensures { IsWantedAbove command (refused result) }
{
    match command {
        Command::Net => Refusal::Scenario { number: 3, line: 0 },
        Command::Init => Refusal::Scenario { number: 3, line: 0 },
        Command::Check | Command::Show => Refusal::TooLong,
        Command::Match => unreachable!(),
    }
}

/// Reads what a command but `match` asks for, does it, and makes the whole output.
fn prepare_command<S: Source, R: Rack>(
    alloc: Global,
    words: &[Text],
    command: Command,
    source: &mut S,
    rack: &mut R,
) -> Result<Outcome, Hindrance>
    requires asked { command_of words.now ≡ Some command }
    requires other { command ≡ Command.Match → ⊥ }
    requires whole { IsWhole (disks (λ k. R.trial rack.old k) (R.real rack.old)) }
    ensures prepares { Prepares R.Trial.Disk R.Real.Disk words.now (S.left source.old) (S.left source.new) (S.fault_count source.old) (S.fault_count source.new)
        (disks (λ k. R.trial rack.old k) (R.real rack.old)) (disks (λ k. R.trial rack.new k) (R.real rack.new)) result }
    ensures faults { S.fault_count source.new ≡ count_after (S.fault_count source.old) (is_unread result) }
    ensures whole { IsWhole (disks (λ k. R.trial rack.new k) (R.real rack.new)) }
{
    match read_all(alloc, source, command.limit()) {
        Ok(input) => answer_of(alloc, words, command, input.as_slice(), rack),
        Err(ReadFault::TooLong) => Ok(refusal_above(command).outcome(alloc)?),
        Err(ReadFault::Failed) => Err(Hindrance::ReadFault),
        Err(ReadFault::NoMemory) => Err(Hindrance::NoMemory),
    }
}

/// The second word: the text of a filter.
fn filter_word(words: &[Text]) -> &str
    ensures { result.now ≡ filter_of words.now }
{
    match words {
        [_, filter, ..] => filter.as_str(),
        _ => "",
    }
}

/// Reads a filter and then the document that it is tried against, and makes the whole output.
fn prepare_match<S: Source>(
    alloc: Global,
    words: &[Text],
    source: &mut S,
) -> Result<Outcome, Hindrance>
    requires { command_of words.now ≡ Some Command.Match }
    ensures prepares { MatchPrepares words.now (S.left source.old) (S.left source.new) (S.fault_count source.old) (S.fault_count source.new) result }
    ensures faults { S.fault_count source.new ≡ count_after (S.fault_count source.old) (is_unread result) }
{
    read_is_not_refused();
    let filter = match Filter::read(alloc, filter_word(words)) {
        Ok(filter) => filter,
        Err(fault) => {
            let Some(refusal) = refusal_of(fault) else {
                return Err(Hindrance::NoMemory);
            };
            return Ok(refusal.outcome(alloc)?);
        }
    };
    match read_all(alloc, source, Command::Match.limit()) {
        Ok(input) => Ok(match_input(alloc, &filter, input.as_slice())?),
        Err(ReadFault::TooLong) => Ok(Refusal::TooLong.outcome(alloc)?),
        Err(ReadFault::Failed) => Err(Hindrance::ReadFault),
        Err(ReadFault::NoMemory) => Err(Hindrance::NoMemory),
    }
}

/// Reads what the words ask for, does it, and makes the whole output.
pub(crate) fn prepare<S: Source, R: Rack>(
    alloc: Global,
    words: &[Text],
    source: &mut S,
    rack: &mut R,
) -> Result<Outcome, Hindrance>
    requires whole { IsWhole (disks (λ k. R.trial rack.old k) (R.real rack.old)) }
    ensures prepares { Prepares R.Trial.Disk R.Real.Disk words.now (S.left source.old) (S.left source.new) (S.fault_count source.old) (S.fault_count source.new)
        (disks (λ k. R.trial rack.old k) (R.real rack.old)) (disks (λ k. R.trial rack.new k) (R.real rack.new)) result }
    ensures faults { S.fault_count source.new ≡ count_after (S.fault_count source.old) (is_unread result) }
    ensures whole { IsWhole (disks (λ k. R.trial rack.new k) (R.real rack.new)) }
{
    match Command::of(words) {
        None => Ok(Outcome {
            status: Status::Usage,
            output: Bytes::of(alloc, b"refused usage\n")?,
        }),
        Some(Command::Match) => prepare_match(alloc, words, source),
        Some(command) => prepare_command(alloc, words, command, source, rack),
    }
}
