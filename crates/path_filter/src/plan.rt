//! A filter laid out so that one visit of each element serves all paths that are asked there.

use filter_text::{Axis, Comparison, Operand, Part, Test};
use sqlite_items::{Boxed, Items};
use voe_values::Text;

/// What the end of a path looks for.
#[derive(Drop)]
pub enum Sought {
    Anything,
    /// A string that is so related to this one.
    Related(Comparison, Text),
}

/// What comes behind a step: the step at another position, or the end of the path.
#[derive(Drop)]
pub enum Next {
    On(usize),
    Ends(Sought),
}

/// A condition in which paths stand as their positions.
#[cycle(plan)]
#[derive(Drop)]
pub enum Check {
    AnyOf(Items<Check>),
    AllOf(Items<Check>),
    Not(Boxed<Check>),
    /// What the path looks for is found from the element.
    Here(usize),
    /// What the path looks for is found from the document.
    Anywhere(usize),
    /// Some string of the one side is so related to some string of the other.
    Compare(Side, Comparison, Side),
}

/// One side of a comparison. For each step of its path, in their order, a guard stands for the step's conditions.
#[cycle(plan)]
#[derive(Drop)]
pub struct Side {
    pub operand: Operand,
    pub guards: Items<Check>,
}

/// A step of a path. Its number in the plan is its position, and it refers to lower ones alone.
#[derive(Drop)]
pub struct Stage {
    pub axis: Axis,
    pub part: Part,
    pub test: Test,
    pub checks: Items<Check>,
    pub next: Next,
    /// Whether it is the first step of a path from the document.
    pub of_document: bool,
}
