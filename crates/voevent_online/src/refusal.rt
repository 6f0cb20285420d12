//! Why a command was refused, and the line that says so.

ghost use Rattle.std.specs.Prelude.{◌≡◌, ◌++◌, IfOk, OnOk};
ghost use Rattle.std.specs.Fmt.{decimal};
ghost use Rattle.voevent_online.specs.Lines.{two_digits};

use crate::status::Status;
use std::alloc::Global;
use voe_values::{Bytes, NoMemory};

/// Why the words, a packet, or what the disk holds are refused.
#[derive(Clone, Copy, Debug, PartialEq, Eq)]
pub enum Refusal {
    /// The words are those of no command.
    Usage,
    /// F2: the packet is longer than a document may be.
    TooLong,
    /// T01 to T10: the packet is no document, with the byte or the token where the rule has one.
    Tree { number: u8, place: Option<usize> },
    /// V01 to V12: the document is no valid packet.
    Validity { number: u8 },
    /// The packet's identifier is known with another digest.
    Conflict,
    /// G1: the disk holds no journal, or one that keeps no configuration.
    Unmade,
    /// G2: the disk holds another file, which differs from a journal first at this byte.
    Foreign { place: u64 },
    /// G3: the disk holds a journal that is damaged behind the gate at this byte.
    Damaged { place: u64 },
    /// G6: the payload behind the gate at this byte is not what its place demands.
    BadNote { place: u64 },
}

impl Refusal {
    ghost use Rattle.voevent_online.specs.Lines.{code_of_refusal, place_of_refusal, refusal_line, status_of_refusal};

    /// Adds the code of the rule that refuses.
    fn add_code(self, alloc: Global, out: &mut Bytes) -> Result<(), NoMemory>
        ensures { OnOk result (out.new ≡ out.old ++ code_of_refusal self) }
    {
        match self {
            Refusal::Usage => out.extend(b"usage"),
            Refusal::TooLong => out.extend(b"F2"),
            Refusal::Tree { number, .. } => {
                out.extend(b"T")?;
                add_two_digits(alloc, out, number)
            }
            Refusal::Validity { number } => {
                out.extend(b"V")?;
                add_two_digits(alloc, out, number)
            }
            Refusal::Conflict => out.extend(b"conflict"),
            Refusal::Unmade => out.extend(b"G1"),
            Refusal::Foreign { .. } => out.extend(b"G2"),
            Refusal::Damaged { .. } => out.extend(b"G3"),
            Refusal::BadNote { .. } => out.extend(b"G6"),
        }
    }

    /// Adds where it refuses, for the rules that have a place.
    fn add_place(self, alloc: Global, out: &mut Bytes) -> Result<(), NoMemory>
        ensures { OnOk result (out.new ≡ out.old ++ place_of_refusal self) }
    {
        match self {
            Refusal::Tree {
                place: Some(place),
                ..
            } => {
                out.extend(b" at ")?;
                add_number(alloc, out, place as u64)
            }
            Refusal::Foreign { place } | Refusal::Damaged { place } | Refusal::BadNote { place } =>
                {
                    out.extend(b" at ")?;
                    add_number(alloc, out, place)
                }
            _ => Ok(()),
        }
    }

    /// How the command ends with it.
    pub fn status(self) -> Status
        ensures { result ≡ status_of_refusal self }
    {
        match self {
            Refusal::Usage => Status::Usage,
            Refusal::Unmade
            | Refusal::Foreign { .. }
            | Refusal::Damaged { .. }
            | Refusal::BadNote { .. } => Status::JournalRefused,
            _ => Status::Refused,
        }
    }

    /// The line that is written.
    pub fn line(self, alloc: Global) -> Result<Bytes, NoMemory>
        ensures { IfOk result (λ line. line ≡ refusal_line self) }
    {
        let mut line = Bytes::new(alloc);
        line.extend(b"refused ")?;
        self.add_code(alloc, &mut line)?;
        self.add_place(alloc, &mut line)?;
        line.extend(b"\n")?;
        Ok(line)
    }
}

fn add_number(alloc: Global, out: &mut Bytes, number: u64) -> Result<(), NoMemory>
    ensures { OnOk result (out.new ≡ out.old ++ decimal number) }
{
    let digits = format!(in alloc; "{number}")?;
    out.extend(digits.as_bytes())
}

/// Adds a number below a hundred in two digits.
fn add_two_digits(alloc: Global, out: &mut Bytes, number: u8) -> Result<(), NoMemory>
    ensures { OnOk result (out.new ≡ out.old ++ two_digits number) }
{
    let tens = number / 10;
    let ones = number % 10;
    let digits = format!(in alloc; "{tens}{ones}")?;
    out.extend(digits.as_bytes())
}
