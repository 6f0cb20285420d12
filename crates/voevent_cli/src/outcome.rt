//! How the program ends.

ghost use Rattle.std.specs.Prelude.{◌≡◌};
ghost use Rattle.voevent_cli.specs.Wanted.{code_of};

use voe_values::Bytes;

/// How the program ends.
#[derive(Clone, Copy, Debug, PartialEq, Eq)]
pub enum Status {
    /// The command was done, and its output is written.
    Done,
    /// The words are no command.
    Usage,
    /// The input is refused.
    Refused,
    /// The input could not be read.
    ReadFault,
    /// The output could not be written.
    WriteFault,
    /// A disk failed.
    DiskFault,
    /// There was no memory.
    NoMemory,
    /// What a disk holds is refused.
    JournalRefused,
}

impl Status {
    /// The program's exit status.
    pub fn code(self) -> u8
        ensures { result ≡ code_of self }
    {
        match self {
            Status::Done => 0,
            Status::Usage => 2,
            Status::Refused => 3,
            Status::ReadFault => 4,
            Status::WriteFault => 5,
            Status::DiskFault => 6,
            Status::NoMemory => 7,
            Status::JournalRefused => 8,
        }
    }
}

/// A status, and all that is to be written with it.
#[derive(Drop)]
pub struct Outcome {
    pub status: Status,
    pub output: Bytes,
}
