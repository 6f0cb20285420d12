//! What is asked for.

use voe_values::{Listing, NoMemory, Text};

/// What the words ask for. An address is `HOST:PORT`, as whoever dials or listens takes it.
#[derive(Drop)]
pub enum Request {
    /// `submit`: hands a packet to the broker at this address.
    Submit {
        address: Text,
    },
    /// `listen`: follows the broker at this address until so many packets were entered, 1 to 1,000,000.
    Listen {
        address: Text,
        count: u32,
    },
    /// `serve`: serves authors and subscribers at these addresses, until so many connections were accepted, 1 to
    /// 1,000,000, and follows these brokers, each once, or again after a pause of so many seconds, 1 to 86,400.
    Serve {
        redial: Option<u32>,
        authors: Text,
        subscribers: Text,
        sessions: u32,
        upstream: Listing<Text>,
    },
}

/// Why the words ask for nothing.
#[derive(Clone, Copy, Debug, PartialEq, Eq)]
pub enum WordsFault {
    /// They are not those of one of the commands.
    Faulty,
    /// There was no memory.
    NoMemory,
}

impl From<NoMemory> for WordsFault {
    ghost use Rattle.std.specs.Prelude.{◌≡◌};
    ghost use Rattle.online_words.specs.declared.request.WordsFault.TheVariants as WordsFault;

    ghost from_gives = { λ _ fault. fault ≡ WordsFault.NoMemory };

    fn from(_: NoMemory) -> Self {
        WordsFault::NoMemory
    }
}
