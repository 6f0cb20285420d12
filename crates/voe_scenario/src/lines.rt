//! The lines of a text, one after another.

ghost use Rattle.std.specs.Prelude.{◌≡◌, ◌≤◌, IfErr, List, None, Ok, OnOk, Option, length, ℕ};
ghost use Rattle.voe_scenario.specs.Faults.{IsFaultAt, IsLineFault, IsTextFault};
ghost use Rattle.voe_scenario.specs.Lines.{IsRefusedBy, LinesRead, TextRead, taken_with, is_passed_over as is_passed};
ghost use Rattle.voe_scenario.specs.Words.{lines_of};

use crate::fault::{LineFault, ScenarioFault, number_of};
use crate::limits::TEXT_LIMIT;
use crate::words::cut;
use std::alloc::Global;

/// What takes the lines of a text in.
pub trait TakesLines {
    /// What holds of it behind each line that was taken.
    ghost sound: { Self → Type 0 };

    /// By which number it refuses a line, if it does.
    ghost refuses: { Self → List ℕ → Option ℕ → Type 0 };

    /// What it is with a line that it takes.
    ghost with_line: { Self → List ℕ → Self };

    /// Takes a line that is neither empty nor a comment.
    fn take_line(&mut self, alloc: Global, line: &[u8]) -> Result<(), LineFault>
        requires { sound self.old }
        ensures unrefused { OnOk result (refuses self.old line.now None) }
        ensures taken { OnOk result (self.new ≡ with_line self.old line.now) }
        ensures sound { OnOk result (sound self.new) }
        ensures refused { IfErr result (IsLineFault (refuses self.old line.now)) };
}

/// Tells whether a line is empty or a comment.
#[tactic(auto, unfolding(crate::specs::Lines::is_passed_over))]
fn is_passed_over(line: &[u8]) -> bool
    ensures { result ≡ is_passed line.now }
{
    match line {
        [] => true,
        [first, ..] => *first == b'#',
    }
}

/// Takes the line at this place, counted from 1, unless it is passed over.
#[tactic(auto, unfolding(crate::specs::Lines::is_passed_over))]
fn take_at<R: TakesLines>(
    alloc: Global,
    reader: &mut R,
    line: &[u8],
    place: u32,
) -> Result<(), ScenarioFault>
    requires { R.sound reader.old }
    ensures unrefused { OnOk result (IsRefusedBy R.refuses reader.old line.now None) }
    ensures taken { OnOk result (reader.new ≡ taken_with R.with_line reader.old line.now) }
    ensures sound { OnOk result (R.sound reader.new) }
    ensures refused { IfErr result (IsFaultAt (IsRefusedBy R.refuses reader.old line.now) place) }
{
    if is_passed_over(line) {
        return Ok(());
    }
    match reader.take_line(alloc, line) {
        Ok(()) => Ok(()),
        Err(LineFault::Broken(rule)) => Err(ScenarioFault::Refused {
            number: number_of(rule),
            line: place,
        }),
        Err(LineFault::NoMemory) => Err(ScenarioFault::NoMemory),
    }
}

/// Takes the lines of a text, up to the first that is refused.
fn take_lines<R: TakesLines>(
    alloc: Global,
    reader: &mut R,
    text: &[u8],
) -> Result<(), ScenarioFault>
    requires short { length text.now ≤ 33554432 }
    requires sound { R.sound reader.old }
    ensures ok { OnOk result (LinesRead R.refuses R.with_line reader.old 1 (lines_of text.now) (Ok reader.new)) }
    ensures sound { OnOk result (R.sound reader.new) }
    ensures refused { IfErr result (IsTextFault (LinesRead R.refuses R.with_line reader.old 1 (lines_of text.now))) }
{
    let mut place: u32 = 0;
    let mut rest = Some(text);
    while let Some(lines) = rest {
        let (line, behind) = cut(lines, b'\n');
        place += 1;
        take_at(alloc, reader, line, place)?;
        rest = behind;
    }
    Ok(())
}

/// Takes the lines of a text, of which at most one byte more is given than it may have.
pub fn take_text<R: TakesLines>(
    alloc: Global,
    reader: &mut R,
    text: &[u8],
) -> Result<(), ScenarioFault>
    requires { R.sound reader.old }
    ensures ok { OnOk result (TextRead R.refuses R.with_line reader.old text.now (Ok reader.new)) }
    ensures sound { OnOk result (R.sound reader.new) }
    ensures refused { IfErr result (IsTextFault (TextRead R.refuses R.with_line reader.old text.now)) }
{
    if text.len() > TEXT_LIMIT {
        return Err(ScenarioFault::Refused { number: 3, line: 0 });
    }
    take_lines(alloc, reader, text)
}
