//! What was read of a filter up to a token.

use crate::filter::{Axis, Comparison, Condition, Operand, Step, Test};
use sqlite_items::Items;

/// A left operand with its comparison.
#[derive(Drop)]
pub struct Left {
    pub operand: Operand,
    pub comparison: Comparison,
}

/// What was read of a condition.
#[derive(Drop)]
pub struct Level {
    /// The conjuncts up to an `or`.
    pub ors: Option<Items<Condition>>,
    /// The parts of a conjunct up to an `and`.
    pub ands: Option<Items<Condition>>,
    pub left: Option<Left>,
}

/// What was read of a path.
#[derive(Drop)]
pub struct Way {
    pub is_absolute: bool,
    /// The steps that are whole.
    pub steps: Items<Step>,
    /// How the next one goes on.
    pub axis: Axis,
}

/// What may come next.
#[derive(Drop)]
pub enum State {
    /// A part of a condition, or a right operand.
    Start(Level),
    NotOpening(Level),
    FunctionOpening(Level),
    FunctionClosing(Level),
    Step(Level, Way),
    AttributeTest(Level, Way),
    /// What may stand behind a step with these conditions.
    BehindStep(Level, Way, Test, Items<Condition>),
    BehindOperand(Level, Operand),
    /// What may stand behind a parenthesis that closed.
    BehindCondition(Level, Condition),
}

/// What stands before a bracket or parenthesis that is open.
#[derive(Drop)]
pub enum Opening {
    Bracket(Level, Way, Test, Items<Condition>),
    /// Whether `not` stands before it.
    Parenthesis(Level, bool),
}

/// What was read, with the openings that are not closed, the innermost last.
#[derive(Drop)]
pub struct Machine {
    pub state: State,
    pub stack: Items<Opening>,
}
