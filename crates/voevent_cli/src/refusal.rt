//! Why nothing was done, and the line that says so.

ghost use Rattle.std.specs.Prelude.{◌≡◌, ◌++◌, IfOk, OnOk};
ghost use Rattle.std.specs.Fmt.{decimal};
ghost use Rattle.voevent_cli.specs.Outcomes.{refused};
ghost use Rattle.voevent_cli.specs.Lines.{two_digits};

use crate::outcome::{Outcome, Status};
use std::alloc::Global;
use voe_values::{Bytes, NoMemory};

/// Why an input, or what a disk holds, is refused.
#[derive(Clone, Copy, Debug, PartialEq, Eq)]
pub enum Refusal {
    /// F2: the input is longer than a document may be.
    TooLong,
    /// T01 to T10: the input is no document, with the byte or the token where the rule has one.
    Tree { number: u8, place: Option<usize> },
    /// V01 to V12: the document is no valid packet.
    Validity { number: u8 },
    /// M2: the message has none of the four roles.
    BadRole,
    /// M3: the message names no origin.
    NoOrigin,
    /// S01 to S06: a line of the scenario, or of the configuration, is refused.
    Scenario { number: u8, line: u32 },
    /// P1 to P6: the text of a filter is refused, at this byte.
    Filter { number: u8, place: usize },
    /// G2: the disk holds another file, which differs from a journal first at this byte.
    Foreign { place: u64 },
    /// G3: the disk holds a journal that is damaged behind the gate at this byte.
    Damaged { place: u64 },
    /// G5: the disk holds a journal.
    Made,
    /// G5: the trial disk of this node is not unmade.
    MadeAt { node: u8 },
}

impl Refusal {
    ghost use Rattle.voevent_cli.specs.Lines.{code_of_refusal, place_of_refusal, status_of_refusal};

    /// Adds the code of the rule that refuses.
    fn add_code(self, alloc: Global, out: &mut Bytes) -> Result<(), NoMemory>
        ensures { OnOk result (out.new ≡ out.old ++ code_of_refusal self) }
    {
        match self {
            Refusal::TooLong => out.extend(b"F2"),
            Refusal::Tree { number, .. } => {
                out.extend(b"T")?;
                add_two_digits(alloc, out, number)
            }
            Refusal::Validity { number } => {
                out.extend(b"V")?;
                add_two_digits(alloc, out, number)
            }
            Refusal::BadRole => out.extend(b"M2"),
            Refusal::NoOrigin => out.extend(b"M3"),
            Refusal::Scenario { number, .. } => {
                out.extend(b"S0")?;
                add_number(alloc, out, number as usize)
            }
            Refusal::Filter { number, .. } => {
                out.extend(b"P")?;
                add_number(alloc, out, number as usize)
            }
            Refusal::Foreign { .. } => out.extend(b"G2"),
            Refusal::Damaged { .. } => out.extend(b"G3"),
            Refusal::Made | Refusal::MadeAt { .. } => out.extend(b"G5"),
        }
    }

    /// Adds where it refuses, for the rules that have a place, a line or a node.
    fn add_place(self, alloc: Global, out: &mut Bytes) -> Result<(), NoMemory>
        ensures { OnOk result (out.new ≡ out.old ++ place_of_refusal self) }
    {
        match self {
            Refusal::Tree {
                place: Some(place),
                ..
            } => {
                out.extend(b" at ")?;
                add_number(alloc, out, place)
            }
            Refusal::Scenario { line, .. } => {
                out.extend(b" line ")?;
                add_number(alloc, out, line as usize)
            }
            Refusal::Filter { place, .. } => {
                out.extend(b" at ")?;
                add_number(alloc, out, place)
            }
            Refusal::Foreign { place } | Refusal::Damaged { place } => {
                out.extend(b" at ")?;
                add_number(alloc, out, place as usize)
            }
            Refusal::MadeAt { node } => {
                out.extend(b" node ")?;
                add_number(alloc, out, node as usize)
            }
            _ => Ok(()),
        }
    }

    /// How the program ends with it.
    fn status(self) -> Status
        ensures { result ≡ status_of_refusal self }
    {
        match self {
            Refusal::Foreign { .. }
            | Refusal::Damaged { .. }
            | Refusal::Made
            | Refusal::MadeAt { .. } => Status::JournalRefused,
            _ => Status::Refused,
        }
    }

    /// The outcome of what is refused so: its one line.
    pub(crate) fn outcome(self, alloc: Global) -> Result<Outcome, NoMemory>
        ensures { IfOk result (λ outcome. outcome ≡ refused self) }
    {
        let mut output = Bytes::new(alloc);
        output.extend(b"refused ")?;
        self.add_code(alloc, &mut output)?;
        self.add_place(alloc, &mut output)?;
        output.extend(b"\n")?;
        Ok(Outcome {
            status: self.status(),
            output,
        })
    }
}

fn add_number(alloc: Global, out: &mut Bytes, number: usize) -> Result<(), NoMemory>
    ensures { OnOk result (out.new ≡ out.old ++ decimal number) }
{
    let digits = format!(in alloc; "{number}")?;
    out.extend(digits.as_bytes())
}

/// Adds a number below a hundred in two digits.
pub(crate) fn add_two_digits(alloc: Global, out: &mut Bytes, number: u8) -> Result<(), NoMemory>
    ensures { OnOk result (out.new ≡ out.old ++ two_digits number) }
{
    let tens = number / 10;
    let ones = number % 10;
    let digits = format!(in alloc; "{tens}{ones}")?;
    out.extend(digits.as_bytes())
}
