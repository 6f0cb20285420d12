//! What one line of a configuration says.

ghost use Rattle.std.specs.Prelude.{◌≡◌, ◌∷◌, []};
ghost use Rattle.voe_scenario.specs.ConfigGrammar.{config_line_said, config_text_said, config_words_said, filter_said, named_said};
ghost use Rattle.voe_scenario.specs.ConfigStatements.{ConfigMeans};
ghost use Rattle.voe_scenario.specs.Words.{words_of};

use crate::words::{cut_word, printable};
use voe_values::NodeKind;

/// What a line of a configuration says.
#[derive(Clone, Copy)]
pub enum ConfigStatement<'a> {
    /// The end that is configured.
    End { kind: NodeKind, name: &'a str },
    /// A line of an author, or a link of a broker: of an end of this kind.
    Edge { of: NodeKind, name: &'a str },
    /// One more filter of the last link.
    Filter { text: &'a str },
}

/// What a word says with a name behind it.
fn named_statement<'a>(word: &str, name: &'a str) -> Option<ConfigStatement<'a>>
    ensures { ConfigMeans result (named_said word.now name.now) }
{
    if name.is_empty() {
        return None;
    }
    match word {
        "author" => Some(ConfigStatement::End {
            kind: NodeKind::Author,
            name,
        }),
        "broker" => Some(ConfigStatement::End {
            kind: NodeKind::Broker,
            name,
        }),
        "subscriber" => Some(ConfigStatement::End {
            kind: NodeKind::Subscriber,
            name,
        }),
        "line" => Some(ConfigStatement::Edge {
            of: NodeKind::Author,
            name,
        }),
        "link" => Some(ConfigStatement::Edge {
            of: NodeKind::Broker,
            name,
        }),
        _ => None,
    }
}

/// A filter, whose text isn't empty.
fn filter_statement(text: &str) -> Option<ConfigStatement<'_>>
    ensures { ConfigMeans result (filter_said text.now) }
{
    if text.is_empty() {
        None
    } else {
        Some(ConfigStatement::Filter { text })
    }
}

/// What a word says with the words behind it, of which there may be one.
fn words_statement<'a>(word: &str, arguments: &'a str) -> Option<ConfigStatement<'a>>
    ensures { ConfigMeans result (config_words_said (word.now ∷ words_of arguments.now)) }
{
    let (name, more) = cut_word(arguments);
    match more {
        Some(_) => None,
        None => named_statement(word, name),
    }
}

/// What a printable line says.
fn text_statement(line: &str) -> Option<ConfigStatement<'_>>
    ensures { ConfigMeans result (config_text_said line.now) }
{
    let (word, arguments) = cut_word(line);
    let Some(arguments) = arguments else {
        return None;
    };
    if word == "filter" {
        filter_statement(arguments)
    } else {
        words_statement(word, arguments)
    }
}

/// What a line says, if it is one of the grammar.
#[tactic(auto, unfolding(crate::specs::ConfigGrammar::config_line_said))]
pub fn read_config_statement(line: &[u8]) -> Option<ConfigStatement<'_>>
    ensures { ConfigMeans result (config_line_said line.now) }
{
    text_statement(printable(line)?)
}
