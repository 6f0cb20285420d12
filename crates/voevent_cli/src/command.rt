//! The commands.

ghost use Rattle.std.specs.Prelude.{◌≡◌};
ghost use Rattle.voevent_cli.specs.Wanted.{command_named, command_of, limit_of};

use voe_values::Text;

/// What the words ask for.
#[derive(Clone, Copy, Debug, PartialEq, Eq)]
pub enum Command {
    /// `net`: runs a scenario, and reports on its nodes.
    Net,
    /// `check`: says whether a document is a valid packet, and what is odd about it.
    Check,
    /// `show`: shows what a packet or a Transport message says.
    Show,
    /// `match` and a filter: says whether the filter passes a document.
    Match,
    /// `init`: makes the journal of a node from its configuration.
    Init,
}

impl Command {
    /// The command that these words are, each in its place; nothing where they are none.
    pub(crate) fn of(words: &[Text]) -> Option<Command>
        ensures { result ≡ command_of words.now }
    {
        match words {
            [word] => Command::named(word.as_str()),
            [word, _] if word.as_str() == "match" => Some(Command::Match),
            _ => None,
        }
    }

    /// The command that is one word.
    fn named(word: &str) -> Option<Command>
        ensures { result ≡ command_named word.now }
    {
        match word {
            "net" => Some(Command::Net),
            "check" => Some(Command::Check),
            "show" => Some(Command::Show),
            "init" => Some(Command::Init),
            _ => None,
        }
    }

    /// The greatest number of bytes of its input.
    pub(crate) fn limit(self) -> usize
        ensures { result ≡ limit_of self }
    {
        match self {
            Command::Net | Command::Init => 33_554_432,
            Command::Check | Command::Show | Command::Match => 1_048_576,
        }
    }
}
