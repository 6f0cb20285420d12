//! Whether a path finds what is wanted, and where a search goes.

ghost use Rattle.std.specs.Prelude.{◌↔◌, ◌≤◌, ℕ, IsTrue, map};
ghost use Rattle.voe_tree.specs.Shape.{depth};
ghost use Rattle.filter_text.specs.Filter.{Steps, found as path_operand};
ghost use Rattle.filter_text.specs.Size.{steps_in_path, steps_in_steps};
ghost use Rattle.filter_text.specs.View.{conditions_of, condition_of, front_of, path_of, steps_of};
ghost use Rattle.path_filter.specs.Contexts.{HoldsAt, IsReady};
ghost use Rattle.path_filter.specs.SearchParts.{Goes, Next, OwnAttribute, OwnFinds, PathFindsWanted, SearchFinds};
ghost use Rattle.path_filter.specs.Plan.{AreGuards, CheckRefers, Guarded, StandsFor, check_of, checks_of, newest};
ghost use Rattle.path_filter.specs.Positions.{Has};
ghost use Rattle.path_filter.specs.Wanted.{IsShallow, IsSound, Suits, text_found};

use crate::compare::{are_related, relates};
use crate::context::Context;
use crate::found::found_from;
use crate::plan::Check;
use crate::positions::Positions;
use crate::steps::{is_nowhere, meets, names_attributes, staying};
use crate::visit::{ask_check, check_holds};
use crate::wanted::{Found, Wanted};
use filter_text::{Path, Step};
use voe_tree::{Element, Node};

/// Whether the path finds what is wanted.
#[cycle(evaluate)]
pub fn finds(
    path: &Path,
    guards: &[Check],
    context: &Context<'_>,
    at: &Element,
    wanted: &Wanted<'_>,
) -> bool
    requires ready { IsReady context.now }
    requires inside { depth at.now ≤ depth context.now.root.now }
    requires guarded { Guarded (newest context.now.plan.now) (path_operand (path_of path.now)) (checks_of (map check_of guards.now)) }
    requires small { steps_in_path (path_of path.now) ≤ 512 }
    requires sound { IsSound wanted.now context.now }
    ensures { IsTrue result ↔ PathFindsWanted (path_of path.now) context.now.root.now at.now wanted.now }
{
    let steps = path.steps.as_slice();
    let start = Positions::only(0);
    if !path.is_absolute {
        return search(steps, guards, &start, context, at, wanted);
    }
    if steps.is_empty() {
        return suits(wanted, context, Found::Element(context.root));
    }
    let reached = advance(steps, guards, &start, context, context.root);
    search(steps, guards, &reached, context, context.root, wanted)
}

/// Whether what is wanted is found from an element at which these positions are reached.
#[cycle(evaluate)]
fn search(
    steps: &[Step],
    guards: &[Check],
    reached: &Positions,
    context: &Context<'_>,
    at: &Element,
    wanted: &Wanted<'_>,
) -> bool
    requires ready { IsReady context.now }
    requires inside { depth at.now ≤ depth context.now.root.now }
    requires guarded { AreGuards (newest context.now.plan.now) (steps_of steps.now) (checks_of (map check_of guards.now)) }
    requires small { steps_in_steps (steps_of steps.now) ≤ 512 }
    requires sound { IsSound wanted.now context.now }
    ensures { IsTrue result ↔ SearchFinds steps.now (Has reached.now) context.now.root.now at.now wanted.now }
{
    if is_nowhere(steps, reached) {
        return false;
    }
    if reached.has(steps.len()) && suits(wanted, context, Found::Element(at)) {
        return true;
    }
    if own_attributes(steps, reached, context, at, wanted) {
        return true;
    }
    for child in at.children.as_slice() {
        match child {
            Node::Element(inner) => {
                let next = advance(steps, guards, reached, context, inner);
                if search(steps, guards, &next, context, inner, wanted) {
                    return true;
                }
            }
            Node::Text(_) => {}
        }
    }
    false
}

/// The positions that are reached at this child of an element at which these are.
#[cycle(evaluate)]
pub fn advance(
    steps: &[Step],
    guards: &[Check],
    reached: &Positions,
    context: &Context<'_>,
    at: &Element,
) -> Positions
    requires ready { IsReady context.now }
    requires inside { depth at.now ≤ depth context.now.root.now }
    requires guarded { AreGuards (newest context.now.plan.now) (steps_of steps.now) (checks_of (map check_of guards.now)) }
    requires small { steps_in_steps (steps_of steps.now) ≤ 512 }
    ensures { (j : ℕ) → Has result j ↔ Next steps.now (Has reached.now) context.now.root.now at.now j }
{
    let mut next = staying(steps, reached);
    for (i, step) in steps.iter().enumerate() {
        if reached.has(i) && !next.has(i + 1) && goes(step, &guards[i], context, at) {
            next.add(i + 1);
        }
    }
    next
}

/// Whether the step goes to the element. The guard stands for its conditions, and isn't tried where there are none.
#[cycle(evaluate)]
fn goes(step: &Step, guard: &Check, context: &Context<'_>, at: &Element) -> bool
    requires ready { IsReady context.now }
    requires inside { depth at.now ≤ depth context.now.root.now }
    requires refers { CheckRefers (newest context.now.plan.now) (check_of guard.now) }
    requires stands { StandsFor (newest context.now.plan.now) (check_of guard.now) (conditions_of (map condition_of step.now.conditions)) }
    ensures { (rest : Steps) → IsTrue result ↔ Goes (front_of step.now rest) context.now.root.now at.now }
{
    if names_attributes(step) || !meets(&step.test, at.space.as_str(), at.local.as_str()) {
        return false;
    }
    step.conditions.as_slice().is_empty() || admits(guard, context, at)
}

/// Whether the check holds at the element, by one visit of what is below it, which ends where all that the check asks
/// is found.
#[cycle(evaluate)]
fn admits(guard: &Check, context: &Context<'_>, at: &Element) -> bool
    requires ready { IsReady context.now }
    requires inside { depth at.now ≤ depth context.now.root.now }
    requires refers { CheckRefers (newest context.now.plan.now) (check_of guard.now) }
    ensures { IsTrue result ↔ HoldsAt context.now at.now (check_of guard.now) }
{
    let mut asked = Positions::none();
    ask_check(guard, &mut asked);
    let here = found_from(context.plan, context.known, &asked, context.root, at);
    check_holds(guard, &here, context, at)
}

#[cycle(evaluate)]
fn own_attributes(
    steps: &[Step],
    reached: &Positions,
    context: &Context<'_>,
    at: &Element,
    wanted: &Wanted<'_>,
) -> bool
    requires ready { IsReady context.now }
    requires small { steps_in_steps (steps_of steps.now) ≤ 512 }
    requires sound { IsSound wanted.now context.now }
    ensures { IsTrue result ↔ OwnFinds steps.now (Has reached.now) context.now.root.now at.now wanted.now }
{
    for (i, step) in steps.iter().enumerate() {
        if reached.has(i) && own_attribute(step, context, at, wanted) {
            return true;
        }
    }
    false
}

#[cycle(evaluate)]
fn own_attribute(step: &Step, context: &Context<'_>, at: &Element, wanted: &Wanted<'_>) -> bool
    requires ready { IsReady context.now }
    requires sound { IsSound wanted.now context.now }
    ensures { (rest : Steps) → IsTrue result ↔ OwnAttribute (front_of step.now rest) context.now.root.now at.now wanted.now }
{
    if !names_attributes(step) {
        return false;
    }
    for attribute in at.attributes.as_slice() {
        if meets(
            &step.test,
            attribute.space.as_str(),
            attribute.local.as_str(),
        ) && suits(wanted, context, Found::Text(attribute.value.as_str()))
        {
            return true;
        }
    }
    false
}

#[cycle(evaluate)]
pub fn suits(wanted: &Wanted<'_>, context: &Context<'_>, found: Found<'_>) -> bool
    requires ready { IsReady context.now }
    requires found { IsShallow found }
    requires sound { IsSound wanted.now context.now }
    ensures { IsTrue result ↔ Suits wanted.now context.now.root.now (text_found found.entry) }
{
    match wanted {
        Wanted::Anything => true,
        Wanted::Related(how, other) => are_related(found, *how, *other),
        Wanted::RelatedToOne(how, side, at) => relates(side, *how, found, context, at),
    }
}
