//! What one line of a scenario says.

ghost use Rattle.std.specs.Prelude.{◌≡◌, ◌∷◌, [], cond, codes};
ghost use Rattle.std.specs.Str.{bytes_eq};
ghost use Rattle.voe_scenario.specs.Grammar.{alone_said, filter_said, one_said, pair_said, plain_said, said_of, text_said, words_said};
ghost use Rattle.voe_scenario.specs.Statements.{Means};
ghost use Rattle.voe_scenario.specs.Words.{words_of};

use crate::event_line::{SaidEvent, read_stop};
use crate::packet_line::{SaidPacket, read_packet_line};
use crate::words::{cut_word, number, printable};
use voe_values::NodeKind;

/// What a line says, in numbers that may name nothing.
#[derive(Clone, Copy)]
pub enum Statement<'a> {
    Node(NodeKind),
    Line { upper: u32, lower: u32 },
    Link { upper: u32, lower: u32 },
    Filter { edge: u32, text: &'a str },
    Packet(SaidPacket<'a>),
    Event(SaidEvent),
}

/// What a word says alone: a node by its kind, or a drain.
fn alone_statement<'a>(word: &str) -> Option<Statement<'a>>
    ensures { Means result (alone_said word.now) }
{
    match word {
        "author" => Some(Statement::Node(NodeKind::Author)),
        "broker" => Some(Statement::Node(NodeKind::Broker)),
        "subscriber" => Some(Statement::Node(NodeKind::Subscriber)),
        "drain" => Some(Statement::Event(SaidEvent::Drain)),
        _ => None,
    }
}

/// What happens at an edge or a node.
fn one_statement<'a>(word: &str, number: Option<u32>) -> Option<Statement<'a>>
    ensures { Means result (one_said word.now number) }
{
    let number = number?;
    match word {
        "send" => Some(Statement::Event(SaidEvent::Send { edge: number })),
        "down" => Some(Statement::Event(SaidEvent::Down { edge: number })),
        "up" => Some(Statement::Event(SaidEvent::Up { edge: number })),
        "cut" => Some(Statement::Event(SaidEvent::Cut { edge: number })),
        "connect" => Some(Statement::Event(SaidEvent::Connect { edge: number })),
        "crash" => Some(Statement::Event(SaidEvent::Crash { node: number })),
        "open" => Some(Statement::Event(SaidEvent::Open { node: number })),
        _ => None,
    }
}

/// A line, a link or a writing, by two numbers.
fn pair_statement<'a>(word: &str, first: Option<u32>, second: Option<u32>) -> Option<Statement<'a>>
    ensures { Means result (pair_said word.now first second) }
{
    let first = first?;
    let second = second?;
    match word {
        "line" => Some(Statement::Line {
            upper: first,
            lower: second,
        }),
        "link" => Some(Statement::Link {
            upper: first,
            lower: second,
        }),
        "write" => Some(Statement::Event(SaidEvent::Write {
            author: first,
            packet: second,
        })),
        _ => None,
    }
}

/// What a word says with up to two numbers behind it.
fn plain_statement<'a>(word: &str, arguments: &str) -> Option<Statement<'a>>
    ensures { Means result (plain_said word.now (words_of arguments.now)) }
{
    let (first, rest) = cut_word(arguments);
    let Some(rest) = rest else {
        return one_statement(word, number(first));
    };
    let (second, more) = cut_word(rest);
    match more {
        Some(_) => None,
        None => pair_statement(word, number(first), number(second)),
    }
}

/// A filter, whose text isn't empty.
fn filter_statement(arguments: &str) -> Option<Statement<'_>>
    ensures { Means result (filter_said arguments.now) }
{
    let (edge, text) = cut_word(arguments);
    let edge = number(edge)?;
    let text = text?;
    if text.is_empty() {
        None
    } else {
        Some(Statement::Filter { edge, text })
    }
}

/// What a word says with what stands behind it.
fn with_arguments<'a>(word: &str, arguments: &'a str) -> Option<Statement<'a>>
    ensures { Means result (cond (bytes_eq word.now (codes "filter")) (filter_said arguments.now) (words_said word.now (words_of arguments.now))) }
{
    match word {
        "filter" => filter_statement(arguments),
        "packet" => read_packet_line(arguments),
        "stop" => read_stop(arguments),
        _ => plain_statement(word, arguments),
    }
}

/// What a line of one word says, which is nothing where the word needs others behind it.
fn lone_statement<'a>(word: &str) -> Option<Statement<'a>>
    ensures { Means result (cond (bytes_eq word.now (codes "filter")) (filter_said []) (words_said word.now [])) }
{
    match word {
        "filter" | "packet" | "stop" => None,
        _ => alone_statement(word),
    }
}

/// What a printable line says.
fn text_statement(line: &str) -> Option<Statement<'_>>
    ensures { Means result (text_said line.now) }
{
    let (word, arguments) = cut_word(line);
    match arguments {
        Some(arguments) => with_arguments(word, arguments),
        None => lone_statement(word),
    }
}

/// What a line says, if it is one of the grammar.
#[tactic(auto, unfolding(crate::specs::Grammar::said_of))]
pub fn read_statement(line: &[u8]) -> Option<Statement<'_>>
    ensures { Means result (said_of line.now) }
{
    text_statement(printable(line)?)
}
