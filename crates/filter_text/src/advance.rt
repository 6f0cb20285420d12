//! One symbol more: what may come next, or nothing where no sentence goes on.

ghost use Rattle.std.specs.Prelude.{◌≡◌, IfOk, option_map, None, Some};
ghost use Rattle.filter_text.specs.Machine.{advance as moves, begin, behind as behind_at, close as close_at, close_bracket, close_parenthesis, compare, comparison_in, on_stack, open_group, open_not, not_opening, function_opening as opening_state, function_closing as closing_state, step as step_state, attribute_test as attribute_state, behind_step as behind_state, start as start_state, test_in, word};
ghost use Rattle.filter_text.specs.View.{comparison_of, condition_of, operand_of, test_of};
ghost use Rattle.filter_text.specs.MachineView.{conditions_view, left_view, level_view, next_view, stack_view, state_view, symbol_view, way_view};

use crate::combine::{
    absolute, and_level, compared, negated_or_not, next_step, nothing_read, or_level, path_to,
    path_to_attribute, relative, whole, with_condition,
};
use crate::filter::{Axis, Comparison, Condition, Operand, Test};
use crate::state::{Left, Level, Opening, State, Way};
use crate::symbol::Symbol;
use filter_tokens::Token;
use sqlite_items::Items;
use std::alloc::Global;
use voe_values::{NoMemory, Text};

/// The start of an operand.
#[tactic(auto, using(crate::proofs::Views::views))]
fn begin(alloc: Global, level: Level, symbol: Symbol<'_>) -> Result<Option<State>, NoMemory>
    ensures { IfOk result (λ r. option_map state_view r ≡ begin (level_view level) (symbol_view symbol.entry)) }
{
    let state = match symbol {
        Symbol::Plain(Token::Slash) => State::Step(level, absolute(alloc, Axis::Child)),
        Symbol::Plain(Token::DoubleSlash) => State::Step(level, absolute(alloc, Axis::Descendant)),
        Symbol::Plain(Token::AtSign) => State::AttributeTest(level, relative(alloc)),
        Symbol::Plain(Token::Star) => {
            State::BehindStep(level, relative(alloc), Test::Any, Items::new(alloc))
        }
        Symbol::Plain(Token::Name(name)) => {
            let test = Test::Name(Text::of(alloc, name)?);
            State::BehindStep(level, relative(alloc), test, Items::new(alloc))
        }
        Symbol::Plain(Token::Literal(value)) => {
            State::BehindOperand(level, Operand::Literal(Text::of(alloc, value)?))
        }
        Symbol::LocalName => State::FunctionOpening(level),
        _ => return Ok(None),
    };
    Ok(Some(state))
}

/// A parenthesis, which no left operand may stand before.
#[tactic(auto, using(crate::proofs::Stacks::pushed))]
fn open_group(
    level: Level,
    is_negated: bool,
    stack: &mut Items<Opening>,
) -> Result<Option<State>, NoMemory>
    ensures { IfOk result (λ r. next_view r stack.new ≡ open_group (level_view level) is_negated (level_view level).left (stack_view stack.old)) }
{
    if level.left.is_some() {
        return Ok(None);
    }
    stack.push(Opening::Parenthesis(level, is_negated))?;
    Ok(Some(State::Start(nothing_read())))
}

/// `not`, which no left operand may stand before.
fn open_not(level: Level) -> Option<State>
    ensures { (stack : _) → on_stack stack (option_map state_view result) ≡ open_not (level_view level) (level_view level).left stack }
{
    if level.left.is_some() {
        return None;
    }
    Some(State::NotOpening(level))
}

/// A name behind a part of a condition, which must be that of an operator.
#[tactic(auto, using(crate::proofs::Views::views))]
fn word(
    alloc: Global,
    level: Level,
    part: Condition,
    name: &str,
    stack: &Items<Opening>,
) -> Result<Option<State>, NoMemory>
    ensures { IfOk result (λ r. next_view r stack.now ≡ word (level_view level) (condition_of part) name.now (stack_view stack.now)) }
{
    if name == "and" {
        return Ok(Some(State::Start(and_level(alloc, level, part)?)));
    }
    if name == "or" {
        return Ok(Some(State::Start(or_level(alloc, level, part)?)));
    }
    Ok(None)
}

/// The end of a condition in brackets.
#[tactic(auto, using(crate::proofs::Views::views, crate::proofs::Stacks::pushed))]
fn close_bracket(
    condition: Condition,
    stack: &mut Items<Opening>,
) -> Result<Option<State>, NoMemory>
    ensures { IfOk result (λ r. next_view r stack.new ≡ close_bracket (condition_of condition) (stack_view stack.old)) }
{
    match stack.pop() {
        None => Ok(None),
        Some(Opening::Parenthesis(_, _)) => Ok(None),
        Some(Opening::Bracket(level, way, test, conditions)) => {
            let conditions = with_condition(conditions, condition)?;
            Ok(Some(State::BehindStep(level, way, test, conditions)))
        }
    }
}

/// The end of a condition in parentheses.
#[tactic(auto, using(crate::proofs::Views::views, crate::proofs::Stacks::pushed))]
fn close_parenthesis(
    alloc: Global,
    condition: Condition,
    stack: &mut Items<Opening>,
) -> Result<Option<State>, NoMemory>
    ensures { IfOk result (λ r. next_view r stack.new ≡ close_parenthesis (condition_of condition) (stack_view stack.old)) }
{
    match stack.pop() {
        None => Ok(None),
        Some(Opening::Bracket(_, _, _, _)) => Ok(None),
        Some(Opening::Parenthesis(level, is_negated)) => {
            let part = negated_or_not(alloc, is_negated, condition)?;
            Ok(Some(State::BehindCondition(level, part)))
        }
    }
}

/// Behind a part of a condition: another one, or what closes the whole.
fn close(
    alloc: Global,
    level: Level,
    part: Condition,
    symbol: Symbol<'_>,
    stack: &mut Items<Opening>,
) -> Result<Option<State>, NoMemory>
    ensures { IfOk result (λ r. next_view r stack.new ≡ close_at (level_view level) (condition_of part) (symbol_view symbol.entry) (stack_view stack.old)) }
{
    match symbol {
        Symbol::Plain(Token::Name(name)) => word(alloc, level, part, name, stack),
        Symbol::Plain(Token::ClosingBracket) => {
            let condition = whole(alloc, level, part)?;
            close_bracket(condition, stack)
        }
        Symbol::Plain(Token::ClosingParenthesis) => {
            let condition = whole(alloc, level, part)?;
            close_parenthesis(alloc, condition, stack)
        }
        _ => Ok(None),
    }
}

fn comparison(symbol: Symbol<'_>) -> Option<Comparison>
    ensures { option_map comparison_of result ≡ comparison_in (symbol_view symbol.entry) }
{
    match symbol {
        Symbol::Plain(Token::Equals) => Some(Comparison::Equal),
        Symbol::Plain(Token::Differs) => Some(Comparison::Differs),
        _ => None,
    }
}

/// Behind an operand: a comparison where no left operand stands, or what may stand behind a part of a condition.
fn behind(
    alloc: Global,
    level: Level,
    operand: Operand,
    symbol: Symbol<'_>,
    stack: &mut Items<Opening>,
) -> Result<Option<State>, NoMemory>
    ensures { IfOk result (λ r. next_view r stack.new ≡ behind_at (level_view level) (operand_of operand) (symbol_view symbol.entry) (stack_view stack.old)) }
{
    let Level { ors, ands, left } = level;
    match (comparison(symbol), left) {
        (Some(comparison), None) => {
            let left = Some(Left {
                operand,
                comparison,
            });
            Ok(Some(State::Start(Level { ors, ands, left })))
        }
        (_, left) => {
            let part = compared(left, operand);
            let left = None;
            close(alloc, Level { ors, ands, left }, part, symbol, stack)
        }
    }
}

/// Where a part of a condition may come, or a right operand.
fn start(
    alloc: Global,
    level: Level,
    symbol: Symbol<'_>,
    stack: &mut Items<Opening>,
) -> Result<Option<State>, NoMemory>
    ensures { IfOk result (λ r. next_view r stack.new ≡ moves (start_state (level_view level)) (symbol_view symbol.entry) (stack_view stack.old)) }
{
    match symbol {
        Symbol::Plain(Token::OpeningParenthesis) => open_group(level, false, stack),
        Symbol::Not => Ok(open_not(level)),
        _ => begin(alloc, level, symbol),
    }
}

/// Where the name or the sign of a step may come.
#[tactic(auto, using(crate::proofs::Views::views))]
fn step(
    alloc: Global,
    level: Level,
    way: Way,
    symbol: Symbol<'_>,
) -> Result<Option<State>, NoMemory>
    ensures { IfOk result (λ r. (stack : _) → on_stack stack (option_map state_view r) ≡ moves (step_state (level_view level) (way_view way)) (symbol_view symbol.entry) stack) }
{
    match symbol {
        Symbol::Plain(Token::AtSign) => Ok(Some(State::AttributeTest(level, way))),
        Symbol::Plain(Token::Star) => Ok(Some(State::BehindStep(
            level,
            way,
            Test::Any,
            Items::new(alloc),
        ))),
        Symbol::Plain(Token::Name(name)) => {
            let test = Test::Name(Text::of(alloc, name)?);
            Ok(Some(State::BehindStep(level, way, test, Items::new(alloc))))
        }
        _ => Ok(None),
    }
}

/// The test of an attribute.
fn attribute_test(alloc: Global, symbol: Symbol<'_>) -> Result<Option<Test>, NoMemory>
    ensures { IfOk result (λ r. option_map test_of r ≡ test_in (symbol_view symbol.entry)) }
{
    match symbol {
        Symbol::Plain(Token::Star) => Ok(Some(Test::Any)),
        Symbol::Plain(Token::Name(name)) => Ok(Some(Test::Name(Text::of(alloc, name)?))),
        _ => Ok(None),
    }
}

/// Behind the sign of an attribute.
#[tactic(auto, using(crate::proofs::Views::views))]
fn attribute(
    alloc: Global,
    level: Level,
    way: Way,
    symbol: Symbol<'_>,
) -> Result<Option<State>, NoMemory>
    ensures { IfOk result (λ r. (stack : _) → on_stack stack (option_map state_view r) ≡ moves (attribute_state (level_view level) (way_view way)) (symbol_view symbol.entry) stack) }
{
    match attribute_test(alloc, symbol)? {
        None => Ok(None),
        Some(test) => {
            let path = path_to_attribute(alloc, way, test)?;
            Ok(Some(State::BehindOperand(level, Operand::Path(path))))
        }
    }
}

/// Behind a step.
#[tactic(auto, using(crate::proofs::Views::views, crate::proofs::Stacks::pushed))]
fn behind_step(
    alloc: Global,
    level: Level,
    way: Way,
    test: Test,
    conditions: Items<Condition>,
    symbol: Symbol<'_>,
    stack: &mut Items<Opening>,
) -> Result<Option<State>, NoMemory>
    ensures { IfOk result (λ r. next_view r stack.new
        ≡ moves (behind_state (level_view level) (way_view way) (test_of test) (conditions_view conditions)) (symbol_view symbol.entry) (stack_view stack.old)) }
{
    match symbol {
        Symbol::Plain(Token::OpeningBracket) => {
            stack.push(Opening::Bracket(level, way, test, conditions))?;
            Ok(Some(State::Start(nothing_read())))
        }
        Symbol::Plain(Token::Slash) => {
            let way = next_step(way, test, conditions, Axis::Child)?;
            Ok(Some(State::Step(level, way)))
        }
        Symbol::Plain(Token::DoubleSlash) => {
            let way = next_step(way, test, conditions, Axis::Descendant)?;
            Ok(Some(State::Step(level, way)))
        }
        _ => {
            let path = path_to(way, test, conditions)?;
            behind(alloc, level, Operand::Path(path), symbol, stack)
        }
    }
}

/// Behind `not`.
#[tactic(auto, using(crate::proofs::Stacks::pushed))]
fn negated(
    level: Level,
    symbol: Symbol<'_>,
    stack: &mut Items<Opening>,
) -> Result<Option<State>, NoMemory>
    ensures { IfOk result (λ r. next_view r stack.new ≡ moves (not_opening (level_view level)) (symbol_view symbol.entry) (stack_view stack.old)) }
{
    match symbol {
        Symbol::Plain(Token::OpeningParenthesis) => {
            stack.push(Opening::Parenthesis(level, true))?;
            Ok(Some(State::Start(nothing_read())))
        }
        _ => Ok(None),
    }
}

/// Behind `local-name`.
fn function_opening(level: Level, symbol: Symbol<'_>) -> Option<State>
    ensures { (stack : _) → on_stack stack (option_map state_view result) ≡ moves (opening_state (level_view level)) (symbol_view symbol.entry) stack }
{
    match symbol {
        Symbol::Plain(Token::OpeningParenthesis) => Some(State::FunctionClosing(level)),
        _ => None,
    }
}

/// Behind `local-name(`.
#[tactic(auto, using(crate::proofs::Views::views))]
fn function_closing(level: Level, symbol: Symbol<'_>) -> Option<State>
    ensures { (stack : _) → on_stack stack (option_map state_view result) ≡ moves (closing_state (level_view level)) (symbol_view symbol.entry) stack }
{
    match symbol {
        Symbol::Plain(Token::ClosingParenthesis) => {
            Some(State::BehindOperand(level, Operand::LocalName))
        }
        _ => None,
    }
}

/// What may come behind one symbol more; nothing exactly where no sentence goes on with it.
#[tactic(auto, using(crate::proofs::Views::views, crate::proofs::Stacks::pushed))]
pub fn advance(
    alloc: Global,
    state: State,
    symbol: Symbol<'_>,
    stack: &mut Items<Opening>,
) -> Result<Option<State>, NoMemory>
    ensures { IfOk result (λ r. next_view r stack.new ≡ moves (state_view state) (symbol_view symbol.entry) (stack_view stack.old)) }
{
    match state {
        State::Start(level) => start(alloc, level, symbol, stack),
        State::NotOpening(level) => negated(level, symbol, stack),
        State::FunctionOpening(level) => Ok(function_opening(level, symbol)),
        State::FunctionClosing(level) => Ok(function_closing(level, symbol)),
        State::Step(level, way) => step(alloc, level, way, symbol),
        State::AttributeTest(level, way) => attribute(alloc, level, way, symbol),
        State::BehindStep(level, way, test, conditions) => {
            behind_step(alloc, level, way, test, conditions, symbol, stack)
        }
        State::BehindOperand(level, operand) => behind(alloc, level, operand, symbol, stack),
        State::BehindCondition(level, part) => close(alloc, level, part, symbol, stack),
    }
}
