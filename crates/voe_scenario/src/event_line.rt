//! What a line of a scenario says that happens.

ghost use Rattle.std.specs.Prelude.{◌≡◌, ◌∷◌, []};
ghost use Rattle.voe_scenario.specs.Grammar.{inner_one, inner_pair, inner_said, stop_said, stopped};
ghost use Rattle.voe_scenario.specs.Statements.{Means, MeansInner, inner_found};
ghost use Rattle.voe_scenario.specs.Words.{words_of};

use crate::statement::Statement;
use crate::words::{cut_word, number};

/// What a stop cuts short, in numbers that may name nothing.
#[derive(Clone, Copy)]
pub enum SaidInner {
    Write { author: u32, packet: u32 },
    Down { edge: u32 },
    Up { edge: u32 },
}

/// An event, in numbers that may name nothing.
#[derive(Clone, Copy)]
pub enum SaidEvent {
    Write {
        author: u32,
        packet: u32,
    },
    Send {
        edge: u32,
    },
    Down {
        edge: u32,
    },
    Up {
        edge: u32,
    },
    Cut {
        edge: u32,
    },
    Connect {
        edge: u32,
    },
    Crash {
        node: u32,
    },
    Open {
        node: u32,
    },
    Stop {
        calls: u8,
        fill: u8,
        inner: SaidInner,
    },
    Drain,
}

/// A delivery that a stop cuts short.
fn inner_on_edge(word: &str, edge: Option<u32>) -> Option<SaidInner>
    ensures { MeansInner result (inner_one word.now edge) }
{
    let edge = edge?;
    if word == "down" {
        Some(SaidInner::Down { edge })
    } else if word == "up" {
        Some(SaidInner::Up { edge })
    } else {
        None
    }
}

/// A writing that a stop cuts short.
fn inner_write(word: &str, author: Option<u32>, packet: Option<u32>) -> Option<SaidInner>
    ensures { MeansInner result (inner_pair word.now author packet) }
{
    let author = author?;
    let packet = packet?;
    if word == "write" {
        Some(SaidInner::Write { author, packet })
    } else {
        None
    }
}

/// What a word and the words behind it say that a stop cuts short.
fn inner_of(word: &str, arguments: &str) -> Option<SaidInner>
    ensures { MeansInner result (inner_said (word.now ∷ words_of arguments.now)) }
{
    let (first, rest) = cut_word(arguments);
    let Some(rest) = rest else {
        return inner_on_edge(word, number(first));
    };
    let (second, more) = cut_word(rest);
    match more {
        Some(_) => None,
        None => inner_write(word, number(first), number(second)),
    }
}

/// What words say that a stop cuts short.
fn read_inner(words: &str) -> Option<SaidInner>
    ensures { MeansInner result (inner_said (words_of words.now)) }
{
    let (word, arguments) = cut_word(words);
    match arguments {
        Some(arguments) => inner_of(word, arguments),
        None => None,
    }
}

/// A stop of what is cut short, after 0 to 4 calls, with a byte that fills.
fn stop_statement<'a>(
    calls: Option<u32>,
    fill: Option<u32>,
    inner: Option<SaidInner>,
) -> Option<Statement<'a>>
    ensures { Means result (stopped calls fill (inner_found inner)) }
{
    let calls = calls?;
    let fill = fill?;
    let inner = inner?;
    if calls <= 4 && fill <= 255 {
        Some(Statement::Event(SaidEvent::Stop {
            calls: calls as u8,
            fill: fill as u8,
            inner,
        }))
    } else {
        None
    }
}

/// A stop, by the words behind its own.
pub fn read_stop<'a>(arguments: &str) -> Option<Statement<'a>>
    ensures { Means result (stop_said (words_of arguments.now)) }
{
    let (calls, rest) = cut_word(arguments);
    let Some(rest) = rest else {
        return None;
    };
    let (fill, inner) = cut_word(rest);
    match inner {
        Some(inner) => stop_statement(number(calls), number(fill), read_inner(inner)),
        None => None,
    }
}
