//! Lays a path out as a plan.

ghost use Rattle.std.specs.Prelude.{◌≡◌, ◌≤◌, ◌<◌, ◌+◌, ◌-◌, ◌∷◌, List, [], IfOk, IsTrue, MatchOption, OnOk, length, map, true};
ghost use Rattle.filter_text.specs.Filter.{Condition as AnyCondition, alone, arrived, compare};
ghost use Rattle.filter_text.specs.Size.{steps_in_condition, steps_in_conditions, steps_in_operand, steps_in_path, steps_in_steps};
ghost use Rattle.filter_text.specs.View.{comparison_of, condition_of, conditions_of, front_of, operand_of, part_of, path_of, steps_of};
ghost use Rattle.filter_text.specs.declared.filter.Path.{out-Path};
ghost use Rattle.path_filter.specs.Plan.{AreGuards, CheckRefers, Guarded, IsMade, IsOfDocument, check_of, checks_of, guards_of, newest};
ghost use Rattle.path_filter.specs.Planned.{AllMean, Follows, Grows, IsLast, IsPlanOf, IsSameEverywhere, IsText, Looks, Means, Stands, Starts, inner_steps, inner_steps_in};
ghost use Rattle.path_filter.specs.declared.plan.Sought.{Sought};
ghost use Rattle.path_filter.specs.declared.plan.Stage.{Stage};

use crate::copy::{copy_operand, copy_test};
use crate::once::{is_from_document, root_where};
use crate::plan::{Check, Next, Side, Sought, Stage};
use filter_text::{Comparison, Condition, Operand, Part, Path, Step};
use sqlite_items::{Boxed, Items};
use std::alloc::Global;
use voe_values::{NoMemory, Text};

/// Puts the stage at the end, and tells its position.
fn push(plan: &mut Items<Stage>, stage: Stage) -> Result<usize, NoMemory>
    ensures { IfOk result (λ i. (i ≡ length plan.old) × (newest plan.new ≡ stage ∷ newest plan.old)) }
{
    let position = plan.len();
    plan.push(stage)?;
    Ok(position)
}

/// A check in place of one that is the same at each element: it is evaluated once, at the root, by a step of its own.
fn plan_once(alloc: Global, plan: &mut Items<Stage>, check: Check) -> Result<Check, NoMemory>
    requires made { IsMade (newest plan.old) }
    requires refers { CheckRefers (newest plan.old) (check_of check) }
    ensures grows { OnOk result (Grows (newest plan.old) (newest plan.new) 1) }
    ensures means { IfOk result (λ k. (c : AnyCondition) → IsSameEverywhere c → Means (newest plan.old) (check_of check) c → Means (newest plan.new) (check_of k) c) }
{
    let stage = root_where(alloc, check)?;
    let position = push(plan, stage)?;
    Ok(Check::Anywhere(position))
}

/// Whether the side has a string that is not empty.
fn is_not_empty(alloc: Global, operand: &Operand) -> Result<Check, NoMemory>
    requires text { IsText (operand_of operand.now) }
    ensures { IfOk result (λ k. (plan : List Stage) → Means plan (check_of k) (alone (operand_of operand.now))) }
{
    let operand = copy_operand(alloc, operand)?;
    let left = Side {
        operand,
        guards: Items::new(alloc),
    };
    let right = Side {
        operand: Operand::Literal(Text::new(alloc)),
        guards: Items::new(alloc),
    };
    Ok(Check::Compare(left, Comparison::Differs, right))
}

/// The check of what a path finds from this position on.
fn plan_start(path: &Path, position: usize) -> Check
    ensures { (plan : List Stage) (w : Sought) → Starts plan position (steps_of (out-Path path.now).steps) w
        → (IsTrue (out-Path path.now).is_absolute → IsOfDocument plan position) → Looks plan (check_of result) (path_of path.now) w }
{
    if path.is_absolute {
        Check::Anywhere(position)
    } else {
        Check::Here(position)
    }
}

#[cycle(planning)]
fn plan_conditions(
    alloc: Global,
    plan: &mut Items<Stage>,
    conditions: &[Condition],
) -> Result<Items<Check>, NoMemory>
    requires made { IsMade (newest plan.old) }
    requires small { steps_in_conditions (conditions_of (map condition_of conditions.now)) ≤ 512 }
    ensures grows { OnOk result (Grows (newest plan.old) (newest plan.new) (steps_in_conditions (conditions_of (map condition_of conditions.now)))) }
    ensures means { IfOk result (λ ks. AllMean (newest plan.new) (checks_of (map check_of ks)) (conditions_of (map condition_of conditions.now))) }
{
    let mut checks = Items::new(alloc);
    for condition in conditions {
        let check = plan_condition(alloc, plan, condition)?;
        checks.push(check)?;
    }
    Ok(checks)
}

#[cycle(planning)]
fn plan_condition(
    alloc: Global,
    plan: &mut Items<Stage>,
    condition: &Condition,
) -> Result<Check, NoMemory>
    requires made { IsMade (newest plan.old) }
    requires small { steps_in_condition (condition_of condition.now) ≤ 512 }
    ensures grows { OnOk result (Grows (newest plan.old) (newest plan.new) (steps_in_condition (condition_of condition.now))) }
    ensures means { IfOk result (λ k. Means (newest plan.new) (check_of k) (condition_of condition.now)) }
{
    match condition {
        Condition::AnyOf(conditions) => {
            let checks = plan_conditions(alloc, plan, conditions.as_slice())?;
            Ok(Check::AnyOf(checks))
        }
        Condition::AllOf(conditions) => {
            let checks = plan_conditions(alloc, plan, conditions.as_slice())?;
            Ok(Check::AllOf(checks))
        }
        Condition::Not(inner) => {
            let check = plan_condition(alloc, plan, inner.get())?;
            let check = Boxed::new(alloc, check)?;
            Ok(Check::Not(check))
        }
        Condition::Holds(operand) => plan_alone(alloc, plan, operand),
        Condition::Compare(left, how, right) => {
            match plan_compared(alloc, plan, left, *how, right)? {
                Some(check) => Ok(check),
                None => plan_comparison(alloc, plan, left, *how, right),
            }
        }
    }
}

/// The check of an operand alone.
#[cycle(planning)]
fn plan_alone(alloc: Global, plan: &mut Items<Stage>, operand: &Operand) -> Result<Check, NoMemory>
    requires made { IsMade (newest plan.old) }
    requires small { steps_in_operand (operand_of operand.now) ≤ 512 }
    ensures grows { OnOk result (Grows (newest plan.old) (newest plan.new) (steps_in_operand (operand_of operand.now))) }
    ensures means { IfOk result (λ k. Means (newest plan.new) (check_of k) (alone (operand_of operand.now))) }
{
    match operand {
        Operand::Path(path) => match plan_found(alloc, plan, path, Sought::Anything)? {
            Some(check) => Ok(check),
            // A path without steps names where it starts.
            None => Ok(Check::AllOf(Items::new(alloc))),
        },
        Operand::Literal(_) => is_not_empty(alloc, operand),
        Operand::LocalName => is_not_empty(alloc, operand),
    }
}

/// The check of a comparison, where it is one of a path with steps and a literal.
#[cycle(planning)]
fn plan_compared(
    alloc: Global,
    plan: &mut Items<Stage>,
    left: &Operand,
    how: Comparison,
    right: &Operand,
) -> Result<Option<Check>, NoMemory>
    requires made { IsMade (newest plan.old) }
    requires small { steps_in_operand (operand_of left.now) + steps_in_operand (operand_of right.now) ≤ 512 }
    ensures grows { OnOk result (Grows (newest plan.old) (newest plan.new) (steps_in_operand (operand_of left.now) + steps_in_operand (operand_of right.now))) }
    ensures means { IfOk result (λ o. MatchOption o (newest plan.new ≡ newest plan.old) (λ k. Means (newest plan.new) (check_of k) (compare (operand_of left.now) (comparison_of how) (operand_of right.now)))) }
{
    match left {
        Operand::Path(path) => match right {
            Operand::Literal(text) => {
                let text = text.copy()?;
                plan_found(alloc, plan, path, Sought::Related(how, text))
            }
            Operand::Path(_) => Ok(None),
            Operand::LocalName => Ok(None),
        },
        Operand::Literal(text) => match right {
            Operand::Path(path) => {
                let text = text.copy()?;
                plan_found(alloc, plan, path, Sought::Related(how, text))
            }
            Operand::Literal(_) => Ok(None),
            Operand::LocalName => Ok(None),
        },
        Operand::LocalName => Ok(None),
    }
}

/// The check of a comparison of two sides. It is evaluated once, where both are paths from the document.
#[cycle(planning)]
fn plan_comparison(
    alloc: Global,
    plan: &mut Items<Stage>,
    left: &Operand,
    how: Comparison,
    right: &Operand,
) -> Result<Check, NoMemory>
    requires made { IsMade (newest plan.old) }
    requires small { steps_in_operand (operand_of left.now) + steps_in_operand (operand_of right.now) ≤ 512 }
    ensures grows { OnOk result (Grows (newest plan.old) (newest plan.new) (steps_in_operand (operand_of left.now) + steps_in_operand (operand_of right.now))) }
    ensures means { IfOk result (λ k. Means (newest plan.new) (check_of k) (compare (operand_of left.now) (comparison_of how) (operand_of right.now))) }
{
    let one = plan_side(alloc, plan, left)?;
    let other = plan_side(alloc, plan, right)?;
    let check = Check::Compare(one, how, other);
    if is_from_document(left) && is_from_document(right) {
        return plan_once(alloc, plan, check);
    }
    Ok(check)
}

/// One side of a comparison.
#[cycle(planning)]
fn plan_side(alloc: Global, plan: &mut Items<Stage>, operand: &Operand) -> Result<Side, NoMemory>
    requires made { IsMade (newest plan.old) }
    requires small { steps_in_operand (operand_of operand.now) ≤ 512 }
    ensures grows { OnOk result (Grows (newest plan.old) (newest plan.new) (inner_steps_in (operand_of operand.now))) }
    ensures same { IfOk result (λ s. s.operand ≡ operand.now) }
    ensures guarded { IfOk result (λ s. Guarded (newest plan.new) (operand_of operand.now) (guards_of s)) }
{
    let guards = match operand {
        Operand::Path(path) => plan_guards(alloc, plan, path.steps.as_slice())?,
        Operand::Literal(_) => Items::new(alloc),
        Operand::LocalName => Items::new(alloc),
    };
    let operand = copy_operand(alloc, operand)?;
    Ok(Side { operand, guards })
}

/// For each step the check of its conditions.
#[cycle(planning)]
fn plan_guards(
    alloc: Global,
    plan: &mut Items<Stage>,
    steps: &[Step],
) -> Result<Items<Check>, NoMemory>
    requires made { IsMade (newest plan.old) }
    requires small { steps_in_steps (steps_of steps.now) ≤ 512 }
    ensures grows { OnOk result (Grows (newest plan.old) (newest plan.new) (inner_steps (steps_of steps.now))) }
    ensures guards { IfOk result (λ ks. AreGuards (newest plan.new) (steps_of steps.now) (checks_of (map check_of ks))) }
{
    let mut guards = Items::new(alloc);
    for step in steps {
        let checks = plan_conditions(alloc, plan, step.conditions.as_slice())?;
        guards.push(Check::AllOf(checks))?;
    }
    Ok(guards)
}

/// The check of what a path finds. There is none of a path without steps.
#[cycle(planning)]
fn plan_found(
    alloc: Global,
    plan: &mut Items<Stage>,
    path: &Path,
    sought: Sought,
) -> Result<Option<Check>, NoMemory>
    requires made { IsMade (newest plan.old) }
    requires small { steps_in_path (path_of path.now) ≤ 512 }
    ensures grows { OnOk result (Grows (newest plan.old) (newest plan.new) (steps_in_path (path_of path.now))) }
    ensures means { IfOk result (λ o. MatchOption o ((newest plan.new ≡ newest plan.old) × (steps_of (out-Path path.now).steps ≡ arrived)) (λ k. Looks (newest plan.new) (check_of k) (path_of path.now) sought)) }
{
    match plan_path(alloc, plan, path, sought)? {
        Some(position) => Ok(Some(plan_start(path, position))),
        None => Ok(None),
    }
}

/// The position of a path's first step, which is the last one of the plan. There is none of a path without steps.
#[cycle(planning)]
fn plan_path(
    alloc: Global,
    plan: &mut Items<Stage>,
    path: &Path,
    sought: Sought,
) -> Result<Option<usize>, NoMemory>
    requires made { IsMade (newest plan.old) }
    requires small { steps_in_path (path_of path.now) ≤ 512 }
    ensures grows { OnOk result (Grows (newest plan.old) (newest plan.new) (steps_in_path (path_of path.now))) }
    ensures means { IfOk result (λ o. MatchOption o ((newest plan.new ≡ newest plan.old) × (steps_of (out-Path path.now).steps ≡ arrived)) (λ i. IsLast (newest plan.new) i path.now sought)) }
{
    let steps = path.steps.as_slice();
    if steps.is_empty() {
        return Ok(None);
    }
    let mut stage = plan_steps(alloc, plan, steps, sought)?;
    stage.of_document = path.is_absolute;
    let position = push(plan, stage)?;
    Ok(Some(position))
}

/// The stage of the first step, which is not in the plan yet.
#[cycle(planning)]
fn plan_steps(
    alloc: Global,
    plan: &mut Items<Stage>,
    steps: &[Step],
    sought: Sought,
) -> Result<Stage, NoMemory>
    requires made { IsMade (newest plan.old) }
    requires small { steps_in_steps (steps_of steps.now) ≤ 512 }
    requires some { 0 < length steps.now }
    ensures grows { OnOk result (Grows (newest plan.old) (newest plan.new) (steps_in_steps (steps_of steps.now) - 1)) }
    ensures means { IfOk result (λ x. Stands (newest plan.new) x (steps_of steps.now) sought) }
{
    let first = &steps[0];
    let next = plan_next(alloc, plan, first, &steps[1..], sought)?;
    let checks = plan_conditions(alloc, plan, first.conditions.as_slice())?;
    let test = copy_test(&first.test)?;
    Ok(Stage {
        axis: first.axis,
        part: first.part,
        test,
        checks,
        next,
        of_document: false,
    })
}

/// What comes behind a step. The path ends at an attribute.
#[cycle(planning)]
fn plan_next(
    alloc: Global,
    plan: &mut Items<Stage>,
    step: &Step,
    others: &[Step],
    sought: Sought,
) -> Result<Next, NoMemory>
    requires made { IsMade (newest plan.old) }
    requires small { steps_in_steps (steps_of others.now) ≤ 512 }
    ensures grows { OnOk result (Grows (newest plan.old) (newest plan.new) (steps_in_steps (steps_of others.now))) }
    ensures means { IfOk result (λ x. Follows (newest plan.new) x (part_of step.now.part) (steps_of others.now) sought) }
{
    match step.part {
        Part::Attribute => Ok(Next::Ends(sought)),
        Part::Element => {
            if others.is_empty() {
                return Ok(Next::Ends(sought));
            }
            let stage = plan_steps(alloc, plan, others, sought)?;
            let position = push(plan, stage)?;
            Ok(Next::On(position))
        }
    }
}

/// The plan of a filter.
pub fn lay_out(alloc: Global, path: &Path) -> Result<Items<Stage>, NoMemory>
    requires absolute { IsTrue (out-Path path.now).is_absolute }
    requires small { steps_in_path (path_of path.now) ≤ 512 }
    ensures { IfOk result (λ plan. IsPlanOf (newest plan) (path_of path.now)) }
{
    let mut plan = Items::new(alloc);
    let _position = plan_path(alloc, &mut plan, path, Sought::Anything)?;
    Ok(plan)
}
