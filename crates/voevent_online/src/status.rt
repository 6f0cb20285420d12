//! How a command ends.

ghost use Rattle.std.specs.Prelude.{◌≡◌};
ghost use Rattle.voevent_online.specs.Statuses.{code_of};

/// How a command that meets the network ends.
#[derive(Clone, Copy, Debug, PartialEq, Eq)]
pub enum Status {
    /// The command was done, and its lines are written.
    Done,
    /// The words are no command.
    Usage,
    /// The packet is refused: by its bytes, by what the journal holds, or by the broker.
    Refused,
    /// The packet could not be read.
    ReadFault,
    /// A line could not be written.
    WriteFault,
    /// The disk failed.
    DiskFault,
    /// There was no memory.
    NoMemory,
    /// What the disk holds is refused.
    JournalRefused,
    /// The journal has no room for what the command adds.
    Full,
    /// The dialer, a listener or a link failed.
    LinkFault,
    /// The peer ended the session: it closed the link, sent what is no message, or was silent for too long.
    Ended,
    /// A connection's job was not started.
    SpawnFault,
}

impl Status {
    /// The program's exit status.
    pub fn code(self) -> u8
        ensures { result ≡ code_of self }
    {
        match self {
            Status::Done => 0,
            Status::Usage => 2,
            Status::Refused => 3,
            Status::ReadFault => 4,
            Status::WriteFault => 5,
            Status::DiskFault => 6,
            Status::NoMemory => 7,
            Status::JournalRefused => 8,
            Status::Full => 9,
            Status::LinkFault => 10,
            Status::Ended => 11,
            Status::SpawnFault => 12,
        }
    }
}
