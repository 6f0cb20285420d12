//! Conditions and paths out of their parts.

ghost use Rattle.std.specs.Prelude.{◌≡◌, IfOk, option_map, None, Some};
ghost use Rattle.filter_text.specs.Filter.{arrived, more, no_more};
ghost use Rattle.filter_text.specs.Grammar.{both_list, either_list, joined};
ghost use Rattle.filter_text.specs.Machine.{and_level, before, both_all, compared, either_all, negated_or_not, next_step, nothing_read, or_level, or_none, path_to, path_to_attribute, relative, absolute, whole};
ghost use Rattle.filter_text.specs.View.{axis_of, condition_of, front_of, operand_of, path_of, steps_of, test_of};
ghost use Rattle.filter_text.specs.MachineView.{conditions_view, left_view, level_view, way_view};

use crate::filter::{Axis, Condition, Operand, Part, Path, Step, Test};
use crate::state::{Left, Level, Way};
use sqlite_items::{Boxed, Items};
use std::alloc::Global;
use voe_values::NoMemory;

/// A list of one condition.
#[tactic(auto, using(crate::proofs::Views::views))]
fn one(alloc: Global, condition: Condition) -> Result<Items<Condition>, NoMemory>
    ensures { IfOk result (λ r. conditions_view r ≡ more (condition_of condition) no_more) }
{
    let mut list = Items::new(alloc);
    list.push(condition)?;
    Ok(list)
}

/// The conditions of which one is to hold.
#[tactic(auto, using(crate::proofs::Views::views))]
fn alternatives(alloc: Global, condition: Condition) -> Result<Items<Condition>, NoMemory>
    ensures { IfOk result (λ r. conditions_view r ≡ either_list (condition_of condition)) }
{
    match condition {
        Condition::AnyOf(list) => Ok(list),
        Condition::AllOf(list) => one(alloc, Condition::AllOf(list)),
        Condition::Not(inner) => one(alloc, Condition::Not(inner)),
        Condition::Holds(operand) => one(alloc, Condition::Holds(operand)),
        Condition::Compare(left, how, right) => one(alloc, Condition::Compare(left, how, right)),
    }
}

/// The conditions that are all to hold.
#[tactic(auto, using(crate::proofs::Views::views))]
fn requirements(alloc: Global, condition: Condition) -> Result<Items<Condition>, NoMemory>
    ensures { IfOk result (λ r. conditions_view r ≡ both_list (condition_of condition)) }
{
    match condition {
        Condition::AllOf(list) => Ok(list),
        Condition::AnyOf(list) => one(alloc, Condition::AnyOf(list)),
        Condition::Not(inner) => one(alloc, Condition::Not(inner)),
        Condition::Holds(operand) => one(alloc, Condition::Holds(operand)),
        Condition::Compare(left, how, right) => one(alloc, Condition::Compare(left, how, right)),
    }
}

/// These conditions with more behind them.
#[tactic(auto, using(crate::proofs::Views::views))]
fn longer(
    front: Option<Items<Condition>>,
    behind: Items<Condition>,
) -> Result<Items<Condition>, NoMemory>
    ensures { IfOk result (λ r. conditions_view r ≡ joined (or_none (option_map conditions_view front)) (conditions_view behind)) }
{
    match front {
        None => Ok(behind),
        Some(mut list) => {
            list.append(behind)?;
            Ok(list)
        }
    }
}

/// A condition behind the conjuncts that stand before it.
#[tactic(auto, using(crate::proofs::Views::views))]
fn either_all(
    alloc: Global,
    ors: Option<Items<Condition>>,
    last: Condition,
) -> Result<Condition, NoMemory>
    ensures { IfOk result (λ r. condition_of r ≡ either_all (option_map conditions_view ors) (condition_of last)) }
{
    match ors {
        None => Ok(last),
        Some(list) => {
            let behind = alternatives(alloc, last)?;
            Ok(Condition::AnyOf(longer(Some(list), behind)?))
        }
    }
}

/// A condition behind the parts of its conjunct that stand before it.
#[tactic(auto, using(crate::proofs::Views::views))]
fn both_all(
    alloc: Global,
    ands: Option<Items<Condition>>,
    last: Condition,
) -> Result<Condition, NoMemory>
    ensures { IfOk result (λ r. condition_of r ≡ both_all (option_map conditions_view ands) (condition_of last)) }
{
    match ands {
        None => Ok(last),
        Some(list) => {
            let behind = requirements(alloc, last)?;
            Ok(Condition::AllOf(longer(Some(list), behind)?))
        }
    }
}

/// Nothing was read.
pub fn nothing_read() -> Level
    ensures { level_view result ≡ nothing_read }
{
    Level {
        ors: None,
        ands: None,
        left: None,
    }
}

/// The condition that ends with this part.
pub fn whole(alloc: Global, level: Level, part: Condition) -> Result<Condition, NoMemory>
    ensures { IfOk result (λ r. condition_of r ≡ whole (level_view level) (condition_of part)) }
{
    let Level { ors, ands, .. } = level;
    let conjunct = both_all(alloc, ands, part)?;
    either_all(alloc, ors, conjunct)
}

/// Behind `or`.
pub fn or_level(alloc: Global, level: Level, part: Condition) -> Result<Level, NoMemory>
    ensures { IfOk result (λ r. level_view r ≡ or_level (level_view level) (condition_of part)) }
{
    let Level { ors, ands, .. } = level;
    let conjunct = both_all(alloc, ands, part)?;
    let behind = alternatives(alloc, conjunct)?;
    let ors = longer(ors, behind)?;
    Ok(Level {
        ors: Some(ors),
        ands: None,
        left: None,
    })
}

/// Behind `and`.
pub fn and_level(alloc: Global, level: Level, part: Condition) -> Result<Level, NoMemory>
    ensures { IfOk result (λ r. level_view r ≡ and_level (level_view level) (condition_of part)) }
{
    let Level { ors, ands, .. } = level;
    let behind = requirements(alloc, part)?;
    let ands = longer(ands, behind)?;
    Ok(Level {
        ors,
        ands: Some(ands),
        left: None,
    })
}

/// The part of a condition that ends with this operand.
#[tactic(auto, using(crate::proofs::Views::views))]
pub fn compared(left: Option<Left>, operand: Operand) -> Condition
    ensures { condition_of result ≡ compared (option_map left_view left) (operand_of operand) }
{
    match left {
        None => Condition::Holds(operand),
        Some(left) => Condition::Compare(left.operand, left.comparison, operand),
    }
}

#[tactic(auto, using(crate::proofs::Views::views))]
pub fn negated_or_not(
    alloc: Global,
    is_negated: bool,
    condition: Condition,
) -> Result<Condition, NoMemory>
    ensures { IfOk result (λ r. condition_of r ≡ negated_or_not is_negated (condition_of condition)) }
{
    if is_negated {
        Ok(Condition::Not(Boxed::new(alloc, condition)?))
    } else {
        Ok(condition)
    }
}

/// The conditions of a step with one more.
#[tactic(auto, using(crate::proofs::Views::views))]
pub fn with_condition(
    conditions: Items<Condition>,
    condition: Condition,
) -> Result<Items<Condition>, NoMemory>
    ensures { IfOk result (λ r. conditions_view r ≡ joined (conditions_view conditions) (more (condition_of condition) no_more)) }
{
    let mut conditions = conditions;
    conditions.push(condition)?;
    Ok(conditions)
}

/// A path that starts at an element, before its first step.
pub fn relative(alloc: Global) -> Way
    ensures { way_view result ≡ relative }
{
    Way {
        is_absolute: false,
        steps: Items::new(alloc),
        axis: Axis::Child,
    }
}

/// A path that starts at the document, before its first step.
pub fn absolute(alloc: Global, axis: Axis) -> Way
    ensures { way_view result ≡ absolute (axis_of axis) }
{
    Way {
        is_absolute: true,
        steps: Items::new(alloc),
        axis,
    }
}

/// Whole steps with one more.
#[tactic(auto, using(crate::proofs::Views::views))]
fn with_step(steps: Items<Step>, step: Step) -> Result<Items<Step>, NoMemory>
    ensures { IfOk result (λ r. steps_of r ≡ before (steps_of steps) (front_of step arrived)) }
{
    let mut steps = steps;
    steps.push(step)?;
    Ok(steps)
}

/// The path that ends with this step.
#[tactic(auto, using(crate::proofs::Views::views))]
pub fn path_to(way: Way, test: Test, conditions: Items<Condition>) -> Result<Path, NoMemory>
    ensures { IfOk result (λ r. path_of r ≡ path_to (way_view way) (test_of test) (conditions_view conditions)) }
{
    let Way {
        is_absolute,
        steps,
        axis,
    } = way;
    let step = Step {
        axis,
        part: Part::Element,
        test,
        conditions,
    };
    let steps = with_step(steps, step)?;
    Ok(Path { is_absolute, steps })
}

/// The path that ends with the attributes of what was read.
#[tactic(auto, using(crate::proofs::Views::views))]
pub fn path_to_attribute(alloc: Global, way: Way, test: Test) -> Result<Path, NoMemory>
    ensures { IfOk result (λ r. path_of r ≡ path_to_attribute (way_view way) (test_of test)) }
{
    let Way {
        is_absolute,
        steps,
        axis,
    } = way;
    let step = Step {
        axis,
        part: Part::Attribute,
        test,
        conditions: Items::new(alloc),
    };
    let steps = with_step(steps, step)?;
    Ok(Path { is_absolute, steps })
}

/// Behind this step and a separator.
#[tactic(auto, using(crate::proofs::Views::views))]
pub fn next_step(
    way: Way,
    test: Test,
    conditions: Items<Condition>,
    next: Axis,
) -> Result<Way, NoMemory>
    ensures { IfOk result (λ r. way_view r ≡ next_step (way_view way) (test_of test) (conditions_view conditions) (axis_of next)) }
{
    let Way {
        is_absolute,
        steps,
        axis,
    } = way;
    let step = Step {
        axis,
        part: Part::Element,
        test,
        conditions,
    };
    let steps = with_step(steps, step)?;
    Ok(Way {
        is_absolute,
        steps,
        axis: next,
    })
}
