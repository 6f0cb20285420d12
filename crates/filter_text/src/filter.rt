//! Filters as data.

use sqlite_items::{Boxed, Items};
use voe_values::Text;

/// How a step goes on from a place: to the children, or to all descendants.
#[derive(Clone, Copy, Debug, PartialEq, Eq)]
pub enum Axis {
    Child,
    Descendant,
}

/// Which names a step goes to.
#[derive(Debug, Drop)]
pub enum Test {
    Any,
    /// This local name, in no namespace.
    Name(Text),
}

#[derive(Clone, Copy, Debug, PartialEq, Eq)]
pub enum Comparison {
    Equal,
    Differs,
}

/// What a step names.
#[derive(Clone, Copy, Debug, PartialEq, Eq)]
pub enum Part {
    Element,
    Attribute,
}

#[cycle(filter)]
#[derive(Drop)]
pub struct Path {
    /// Whether it starts at the document, and not at an element.
    pub is_absolute: bool,
    pub steps: Items<Step>,
}

#[cycle(filter)]
#[derive(Drop)]
pub struct Step {
    pub axis: Axis,
    pub part: Part,
    pub test: Test,
    pub conditions: Items<Condition>,
}

#[cycle(filter)]
#[derive(Drop)]
pub enum Condition {
    AnyOf(Items<Condition>),
    AllOf(Items<Condition>),
    Not(Boxed<Condition>),
    Holds(Operand),
    Compare(Operand, Comparison, Operand),
}

#[cycle(filter)]
#[derive(Drop)]
pub enum Operand {
    Path(Path),
    Literal(Text),
    LocalName,
}
