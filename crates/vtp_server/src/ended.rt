//! Why a connection ended.

ghost use Rattle.std.specs.Prelude.{◌≡◌};

use crate::breach::{Breach, Parted};
use voe_values::{Ivorn, Text};
use vtp_session::GarbageFault;

/// Why a connection ended.
#[derive(Clone, Copy, Debug)]
pub enum Ended {
    /// So many packets were entered as were wanted.
    Counted,
    /// The peer closed the connection.
    PeerClosed,
    /// The peer sent what no message to this side is, at this place of the stream, modulo 2^64.
    Garbage { place: u64, fault: GarbageFault },
    /// No message was heard since `heard`, which is too long at `now`.
    Silent { heard: u64, now: u64 },
    /// Another connection has begun a newer session of the link.
    Replaced { newer: u64 },
    /// The link failed.
    LinkFault,
    /// The sink failed.
    SinkFault,
    /// The end is down; its disk has this count of faults.
    HubDown { faults: u64 },
    /// There was no memory.
    NoMemory,
}

/// Why a broker's side makes no further move.
#[derive(Clone, Copy, Debug)]
pub enum Stop {
    Replaced { newer: u64 },
    Down { faults: u64 },
    NoMemory,
}

/// Why a subscriber's side makes no further move.
#[derive(Clone, Copy, Debug)]
pub enum ListenStop {
    Counted,
    Down { faults: u64 },
    NoMemory,
}

/// Why an author's side makes no further move.
#[derive(Drop)]
pub enum SubmitStop {
    Ack { identifier: Ivorn },
    Nak { result: Option<Text> },
    Nothing,
    Full,
    Down { faults: u64 },
    NoMemory,
}

/// What became of a line's first unanswered packet.
#[derive(Drop)]
pub enum Submitted {
    /// The broker has acknowledged it, and that is recorded.
    Ack { identifier: Ivorn },
    /// The broker has refused it, with this reason, and that is recorded.
    Nak { result: Option<Text> },
    /// The line has no unanswered packet.
    Nothing,
    /// The answer came, and the journal has no room for it.
    Full,
    /// The connection ended before.
    Ended(Ended),
}

impl Ended {
    ghost use Rattle.vtp_server.specs.Endings.{ended_by, listen_ended, serve_ended};

    pub(crate) fn by(breach: Breach) -> Ended
        ensures { result ≡ ended_by breach }
    {
        match breach {
            Breach::PeerClosed => Ended::PeerClosed,
            Breach::Garbage { place, fault } => Ended::Garbage { place, fault },
            Breach::Silent { heard, now } => Ended::Silent { heard, now },
            Breach::LinkFault => Ended::LinkFault,
            Breach::SinkFault => Ended::SinkFault,
            Breach::NoMemory => Ended::NoMemory,
        }
    }

    pub(crate) fn of_serving(parted: Parted<Stop>) -> Ended
        ensures { result ≡ serve_ended parted }
    {
        match parted {
            Parted::Broken(breach) => Ended::by(breach),
            Parted::Stopped(Stop::Replaced { newer }) => Ended::Replaced { newer },
            Parted::Stopped(Stop::Down { faults }) => Ended::HubDown { faults },
            Parted::Stopped(Stop::NoMemory) => Ended::NoMemory,
        }
    }

    pub(crate) fn of_listening(parted: Parted<ListenStop>) -> Ended
        ensures { result ≡ listen_ended parted }
    {
        match parted {
            Parted::Broken(breach) => Ended::by(breach),
            Parted::Stopped(ListenStop::Counted) => Ended::Counted,
            Parted::Stopped(ListenStop::Down { faults }) => Ended::HubDown { faults },
            Parted::Stopped(ListenStop::NoMemory) => Ended::NoMemory,
        }
    }
}

impl Submitted {
    ghost use Rattle.vtp_server.specs.Endings.{submitted_by};

    pub(crate) fn of(parted: Parted<SubmitStop>) -> Submitted
        ensures { result ≡ submitted_by parted }
    {
        match parted {
            Parted::Broken(breach) => Submitted::Ended(Ended::by(breach)),
            Parted::Stopped(SubmitStop::Ack { identifier }) => Submitted::Ack { identifier },
            Parted::Stopped(SubmitStop::Nak { result }) => Submitted::Nak { result },
            Parted::Stopped(SubmitStop::Nothing) => Submitted::Nothing,
            Parted::Stopped(SubmitStop::Full) => Submitted::Full,
            Parted::Stopped(SubmitStop::Down { faults }) => {
                Submitted::Ended(Ended::HubDown { faults })
            }
            Parted::Stopped(SubmitStop::NoMemory) => Submitted::Ended(Ended::NoMemory),
        }
    }
}
