//! A walk over all tokens.

ghost use Rattle.std.specs.Prelude.{◌≡◌, ◌≤◌, ◌&&◌, IfOk, MatchResult, is_none, is_some, option_map};
ghost use Rattle.filter_text.specs.Machine.{beginning, ended, is_empty, part_read, path_in, path_of_machine, path_read, read_of, sentence_of, walk as walked};
ghost use Rattle.filter_text.specs.Phases.{StopsWalk};
ghost use Rattle.filter_text.specs.Reading.{first_outside, first_too_deep, open_behind};
ghost use Rattle.filter_text.specs.View.{operand_of, path_of};
ghost use Rattle.filter_text.specs.MachineView.{level_view, machine_view, state_view};
ghost use Rattle.filter_text.specs.SentenceView.{sentence_view};
ghost use Rattle.filter_tokens.specs.TokenView.{placed_views, token_view};

use crate::advance::advance;
use crate::combine::{nothing_read, path_to};
use crate::fault::FilterFault;
use crate::filter::{Operand, Path};
use crate::state::{Level, Machine, State};
use crate::symbol::{is_outside, symbol_before, token_behind};
use filter_tokens::{Placed, Token};
use sqlite_items::Items;
use std::alloc::Global;
use voe_values::NoMemory;

const MAX_NESTING: usize = 16;

/// The place of the first token that no filter has.
pub fn first_outside(tokens: &[Placed<'_>]) -> Option<usize>
    ensures { result ≡ first_outside (placed_views tokens.now) }
{
    for (i, placed) in tokens.iter().enumerate() {
        if is_outside(placed.token, token_behind(tokens, i)) {
            return Some(placed.place);
        }
    }
    None
}

/// How many brackets of both kinds are open behind a token.
fn open_behind(token: Token<'_>, opened: usize) -> usize
    requires { opened ≤ 16 }
    ensures { result ≡ open_behind (token_view token.entry) opened }
{
    match token {
        Token::OpeningBracket | Token::OpeningParenthesis => opened + 1,
        Token::ClosingBracket | Token::ClosingParenthesis => opened.saturating_sub(1),
        _ => opened,
    }
}

/// The place of the first bracket that opens too many.
pub fn first_too_deep(tokens: &[Placed<'_>]) -> Option<usize>
    ensures { result ≡ first_too_deep 0 (placed_views tokens.now) }
{
    let mut opened = 0;
    for placed in tokens {
        opened = open_behind(placed.token, opened);
        if MAX_NESTING < opened {
            return Some(placed.place);
        }
    }
    None
}

/// Reads all tokens, or refuses the first with which no sentence goes on.
pub fn walk(alloc: Global, tokens: &[Placed<'_>]) -> Result<Machine, FilterFault>
    ensures { MatchResult result (λ m. walked (placed_views tokens.now) beginning ≡ ended (machine_view m))
        (λ fault. StopsWalk (walked (placed_views tokens.now) beginning) fault) }
{
    let mut state = State::Start(nothing_read());
    let mut stack = Items::new(alloc);
    for (i, placed) in tokens.iter().enumerate() {
        let symbol = symbol_before(placed.token, token_behind(tokens, i));
        match advance(alloc, state, symbol, &mut stack)? {
            Some(next) => state = next,
            None => {
                return Err(FilterFault::Syntax {
                    place: placed.place,
                });
            }
        }
    }
    Ok(Machine { state, stack })
}

/// Whether a part of a condition is whole here.
fn is_whole(state: &State) -> bool
    ensures { result ≡ is_some (part_read (state_view state.now)) }
{
    match state {
        State::BehindStep(_, _, _, _) => true,
        State::BehindOperand(_, _) => true,
        State::BehindCondition(_, _) => true,
        _ => false,
    }
}

/// Whether nothing stands before the operand.
fn is_empty(level: &Level) -> bool
    ensures { result ≡ is_empty (level_view level.now) }
{
    level.ors.is_none() && level.ands.is_none() && level.left.is_none()
}

#[tactic(auto, using(crate::proofs::Views::views))]
fn as_path(operand: Operand) -> Option<Path>
    ensures { option_map path_of result ≡ path_in (operand_of operand) }
{
    match operand {
        Operand::Path(path) => Some(path),
        Operand::Literal(_) => None,
        Operand::LocalName => None,
    }
}

/// The path that was read, where that is all.
#[tactic(auto, using(crate::proofs::Views::views))]
fn path_read(state: State) -> Result<Option<Path>, NoMemory>
    ensures { IfOk result (λ r. option_map path_of r ≡ path_read (state_view state)) }
{
    match state {
        State::BehindStep(level, way, test, conditions) => {
            if !is_empty(&level) {
                return Ok(None);
            }
            Ok(Some(path_to(way, test, conditions)?))
        }
        State::BehindOperand(level, operand) => {
            if is_empty(&level) {
                Ok(as_path(operand))
            } else {
                Ok(None)
            }
        }
        _ => Ok(None),
    }
}

/// What all tokens are.
#[derive(Drop)]
pub enum Sentence {
    /// Neither a path nor a condition, but the front of one.
    Unfinished,
    Condition,
    Path(Path),
}

/// Whether what was read is a path or a condition.
#[tactic(auto, using(crate::proofs::Stacks::ends))]
fn is_sentence(machine: &Machine) -> bool
    ensures { result ≡ is_some (sentence_of (machine_view machine.now)) }
{
    machine.stack.is_empty() && is_whole(&machine.state)
}

/// The path that was read, where it is one.
#[tactic(auto, using(crate::proofs::Stacks::ends))]
fn into_path(machine: Machine) -> Result<Option<Path>, NoMemory>
    ensures { IfOk result (λ r. option_map path_of r ≡ path_of_machine (machine_view machine)) }
{
    let Machine { state, stack } = machine;
    if stack.is_empty() {
        path_read(state)
    } else {
        Ok(None)
    }
}

/// What was read, at the end of all tokens.
pub fn into_sentence(machine: Machine) -> Result<Sentence, NoMemory>
    ensures { IfOk result (λ r. sentence_view r ≡ read_of (machine_view machine)) }
{
    let is_sentence = is_sentence(&machine);
    let path = into_path(machine)?;
    if !is_sentence {
        return Ok(Sentence::Unfinished);
    }
    match path {
        None => Ok(Sentence::Condition),
        Some(path) => Ok(Sentence::Path(path)),
    }
}
