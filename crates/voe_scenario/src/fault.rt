//! Why a text is refused.

ghost use Rattle.std.specs.Prelude.{◌≡◌};
ghost use Rattle.voe_scenario.specs.Faults.{number_of_rule};

/// Why a text is no scenario, or no configuration.
#[derive(Clone, Copy, Debug, PartialEq, Eq)]
pub enum ScenarioFault {
    /// The first refused line, counted from 1, and the least number of the rules that it breaks, from 1 to 6. A text
    /// above 33,554,432 bytes is refused by 3 on line 0.
    Refused { number: u8, line: u32 },
    /// There was no memory for what the text says.
    NoMemory,
}

/// A rule that a line breaks.
#[derive(Clone, Copy, Debug, PartialEq, Eq)]
pub enum Rule {
    /// It is no line of the grammar, or none at its place.
    Grammar,
    /// A number names nothing that is there, or a name that an earlier line has.
    Naming,
    /// It passes a limit.
    Limit,
    /// An identifier is none, or a name of an end.
    Identifier,
    /// The name of a packet's parameter is none.
    Parameter,
    /// A filter is refused.
    Filter,
}

/// Why a line was not taken.
#[derive(Clone, Copy, Debug, PartialEq, Eq)]
pub enum LineFault {
    /// The rule of the least number that it breaks.
    Broken(Rule),
    /// There was no memory for what it says.
    NoMemory,
}

/// The number that is shown for a broken rule.
pub fn number_of(rule: Rule) -> u8
    ensures { result ≡ number_of_rule rule }
{
    match rule {
        Rule::Grammar => 1,
        Rule::Naming => 2,
        Rule::Limit => 3,
        Rule::Identifier => 4,
        Rule::Parameter => 5,
        Rule::Filter => 6,
    }
}
