//! What one visit of an element asks, and which checks hold there.

ghost use Rattle.std.specs.Prelude.{◌≡◌, ◌↔◌, ◌≤◌, ◌<◌, ℕ, IsTrue, map};
ghost use Rattle.voe_tree.specs.Shape.{depth};
ghost use Rattle.filter_text.specs.Filter.{descendant, element};
ghost use Rattle.filter_text.specs.View.{axis_of, part_of};
ghost use Rattle.path_filter.specs.Contexts.{IsReady};
ghost use Rattle.path_filter.specs.Plan.{Arrives, Asks, CheckAsks, CheckHolds, CheckIsSmall, CheckRefers, ChecksAreSmall, ChecksAsk, ChecksRefer, EachHolds, EndsAt, FromChild, GoesOn, NextAsks, NextIsSmall, OneHolds, Owns, StageIsSmall, StageRefers, Suited, check_of, checks_of, newest};
ghost use Rattle.path_filter.specs.Positions.{Has};
ghost use Rattle.path_filter.specs.Wanted.{text_found};

use crate::compare::{are_related, compares};
use crate::context::Context;
use crate::plan::{Check, Next, Sought, Stage};
use crate::positions::Positions;
use crate::steps::meets;
use crate::wanted::Found;
use filter_text::{Axis, Part};
use voe_tree::{Element, Node};

/// Whether the string is what the end of a path looks for.
fn is_sought(sought: &Sought, found: Found<'_>) -> bool
    ensures { IsTrue result ↔ Suited sought.now (text_found found.entry) }
{
    match sought {
        Sought::Anything => true,
        Sought::Related(how, text) => are_related(found, *how, Found::Text(text.as_str())),
    }
}

/// Whether the path goes on, and finds nothing from here.
fn is_cut(next: &Next, here: &Positions) -> bool
    requires { NextIsSmall next.now }
    ensures { IsTrue result → (at : Element) → GoesOn (Has here.now) at next.now → ⊥ }
{
    match next {
        Next::On(position) => !here.has(*position),
        Next::Ends(_) => false,
    }
}

/// Whether the path goes on from the element, or ends there.
fn goes_on(next: &Next, here: &Positions, at: &Element) -> bool
    requires { NextIsSmall next.now }
    ensures { IsTrue result ↔ GoesOn (Has here.now) at.now next.now }
{
    match next {
        Next::On(position) => here.has(*position),
        Next::Ends(sought) => is_sought(sought, Found::Element(at)),
    }
}

/// Whether the check holds at the element, from which these positions find something.
#[cycle(evaluate)]
pub fn check_holds(check: &Check, here: &Positions, context: &Context<'_>, at: &Element) -> bool
    requires ready { IsReady context.now }
    requires inside { depth at.now ≤ depth context.now.root.now }
    requires small { CheckIsSmall (check_of check.now) }
    requires refers { CheckRefers (newest context.now.plan.now) (check_of check.now) }
    ensures { IsTrue result ↔ CheckHolds (Has here.now) (Has context.now.known.now) context.now.root.now at.now (check_of check.now) }
{
    match check {
        Check::AnyOf(checks) => one_holds(checks.as_slice(), here, context, at),
        Check::AllOf(checks) => each_holds(checks.as_slice(), here, context, at),
        Check::Not(inner) => !check_holds(inner.get(), here, context, at),
        Check::Here(position) => here.has(*position),
        Check::Anywhere(position) => context.known.has(*position),
        Check::Compare(left, how, right) => compares(left, *how, right, context, at),
    }
}

#[cycle(evaluate)]
fn each_holds(checks: &[Check], here: &Positions, context: &Context<'_>, at: &Element) -> bool
    requires ready { IsReady context.now }
    requires inside { depth at.now ≤ depth context.now.root.now }
    requires small { ChecksAreSmall (checks_of (map check_of checks.now)) }
    requires refers { ChecksRefer (newest context.now.plan.now) (checks_of (map check_of checks.now)) }
    ensures { IsTrue result ↔ EachHolds (Has here.now) (Has context.now.known.now) context.now.root.now at.now (checks_of (map check_of checks.now)) }
{
    match checks {
        [] => true,
        [first, more @ ..] => {
            check_holds(first, here, context, at) && each_holds(more, here, context, at)
        }
    }
}

#[cycle(evaluate)]
fn one_holds(checks: &[Check], here: &Positions, context: &Context<'_>, at: &Element) -> bool
    requires ready { IsReady context.now }
    requires inside { depth at.now ≤ depth context.now.root.now }
    requires small { ChecksAreSmall (checks_of (map check_of checks.now)) }
    requires refers { ChecksRefer (newest context.now.plan.now) (checks_of (map check_of checks.now)) }
    ensures { IsTrue result ↔ OneHolds (Has here.now) (Has context.now.known.now) context.now.root.now at.now (checks_of (map check_of checks.now)) }
{
    match checks {
        [] => false,
        [first, more @ ..] => {
            check_holds(first, here, context, at) || one_holds(more, here, context, at)
        }
    }
}

fn names_elements(stage: &Stage) -> bool
    ensures { IsTrue result ↔ (part_of stage.now.part ≡ element) }
{
    match stage.part {
        Part::Element => true,
        Part::Attribute => false,
    }
}

/// Whether the step goes on from the children too.
fn goes_deeper(stage: &Stage) -> bool
    ensures { IsTrue result ↔ (axis_of stage.now.axis ≡ descendant) }
{
    match stage.axis {
        Axis::Child => false,
        Axis::Descendant => true,
    }
}

/// Whether the step goes to the element, and what comes behind it is found from there.
#[cycle(evaluate)]
fn arrives(stage: &Stage, here: &Positions, context: &Context<'_>, at: &Element) -> bool
    requires ready { IsReady context.now }
    requires inside { depth at.now ≤ depth context.now.root.now }
    requires small { StageIsSmall stage.now }
    requires refers { StageRefers (newest context.now.plan.now) stage.now }
    ensures { IsTrue result ↔ Arrives (Has here.now) (Has context.now.known.now) context.now.root.now at.now stage.now }
{
    if is_cut(&stage.next, here) {
        return false;
    }
    names_elements(stage)
        && meets(&stage.test, at.space.as_str(), at.local.as_str())
        && each_holds(stage.checks.as_slice(), here, context, at)
        && goes_on(&stage.next, here, at)
}

/// Whether the position finds something from this child.
#[cycle(evaluate)]
pub fn is_from_child(
    stage: &Stage,
    position: usize,
    here: &Positions,
    context: &Context<'_>,
    child: &Element,
) -> bool
    requires ready { IsReady context.now }
    requires inside { depth child.now ≤ depth context.now.root.now }
    requires small { StageIsSmall stage.now }
    requires refers { StageRefers (newest context.now.plan.now) stage.now }
    requires few { position < 576 }
    ensures { IsTrue result ↔ FromChild (Has here.now) (Has context.now.known.now) context.now.root.now child.now position stage.now }
{
    arrives(stage, here, context, child) || (goes_deeper(stage) && here.has(position))
}

/// Whether the path ends at an attribute with this value.
fn ends_at(next: &Next, value: &str) -> bool
    ensures { IsTrue result ↔ EndsAt value.now next.now }
{
    match next {
        Next::On(_) => false,
        Next::Ends(sought) => is_sought(sought, Found::Text(value)),
    }
}

/// Whether the step names an attribute of the element itself.
pub fn owns(stage: &Stage, at: &Element) -> bool
    ensures { IsTrue result ↔ Owns at.now stage.now }
{
    if names_elements(stage) {
        return false;
    }
    for attribute in at.attributes.as_slice() {
        if meets(
            &stage.test,
            attribute.space.as_str(),
            attribute.local.as_str(),
        ) && ends_at(&stage.next, attribute.value.as_str())
        {
            return true;
        }
    }
    false
}

/// Asks what decides whether the check holds.
#[cycle(asks)]
pub fn ask_check(check: &Check, asked: &mut Positions)
    requires small { CheckIsSmall (check_of check.now) }
    ensures asks { CheckAsks (Has asked.new) (check_of check.now) }
    ensures keeps { (i : ℕ) → Has asked.old i → Has asked.new i }
{
    match check {
        Check::AnyOf(checks) => ask_checks(checks.as_slice(), asked),
        Check::AllOf(checks) => ask_checks(checks.as_slice(), asked),
        Check::Not(inner) => ask_check(inner.get(), asked),
        Check::Here(position) => asked.add(*position),
        Check::Anywhere(_) => {}
        Check::Compare(_, _, _) => {}
    }
}

#[cycle(asks)]
fn ask_checks(checks: &[Check], asked: &mut Positions)
    requires small { ChecksAreSmall (checks_of (map check_of checks.now)) }
    ensures asks { ChecksAsk (Has asked.new) (checks_of (map check_of checks.now)) }
    ensures keeps { (i : ℕ) → Has asked.old i → Has asked.new i }
{
    match checks {
        [] => {}
        [first, more @ ..] => {
            ask_check(first, asked);
            ask_checks(more, asked);
        }
    }
}

fn ask_next(next: &Next, asked: &mut Positions)
    requires small { NextIsSmall next.now }
    ensures asks { NextAsks (Has asked.new) next.now }
    ensures keeps { (i : ℕ) → Has asked.old i → Has asked.new i }
{
    match next {
        Next::On(position) => asked.add(*position),
        Next::Ends(_) => {}
    }
}

/// Asks what decides whether the position finds something from this child.
pub fn ask_stage(stage: &Stage, position: usize, child: &Element, asked: &mut Positions)
    requires small { StageIsSmall stage.now }
    requires few { position < 576 }
    ensures asks { Asks (Has asked.new) child.now position stage.now }
    ensures keeps { (i : ℕ) → Has asked.old i → Has asked.new i }
{
    if goes_deeper(stage) {
        asked.add(position);
    }
    if names_elements(stage) && meets(&stage.test, child.space.as_str(), child.local.as_str()) {
        ask_checks(stage.checks.as_slice(), asked);
        ask_next(&stage.next, asked);
    }
}
