//! The first place that a path finds.

ghost use Rattle.std.specs.Prelude.{◌≤◌, IfNone, IfSome, map};
ghost use Rattle.voe_tree.specs.Shape.{depth};
ghost use Rattle.filter_text.specs.Filter.{Steps, found as path_operand};
ghost use Rattle.filter_text.specs.Size.{steps_in_path, steps_in_steps};
ghost use Rattle.filter_text.specs.View.{front_of, path_of, steps_of};
ghost use Rattle.path_filter.specs.Contexts.{IsReady};
ghost use Rattle.path_filter.specs.SearchParts.{OwnAttribute, OwnFinds, PathFindsWanted, SearchFinds};
ghost use Rattle.path_filter.specs.Plan.{AreGuards, Guarded, check_of, checks_of, newest};
ghost use Rattle.path_filter.specs.Positions.{Has};
ghost use Rattle.path_filter.specs.Wanted.{IsShallow, anything, exactly};

use crate::context::Context;
use crate::plan::Check;
use crate::positions::Positions;
use crate::search::advance;
use crate::steps::{is_nowhere, meets, names_attributes};
use crate::wanted::Found;
use filter_text::{Path, Step};
use voe_tree::{Element, Node};

/// The first place that the path finds.
#[cycle(evaluate)]
pub fn first<'a>(
    path: &Path,
    guards: &[Check],
    context: &Context<'a>,
    at: &'a Element,
) -> Option<Found<'a>>
    requires ready { IsReady context.now }
    requires inside { depth at.now ≤ depth context.now.root.now }
    requires guarded { Guarded (newest context.now.plan.now) (path_operand (path_of path.now)) (checks_of (map check_of guards.now)) }
    requires small { steps_in_path (path_of path.now) ≤ 512 }
    ensures some { IfSome result (λ f. IsShallow f × PathFindsWanted (path_of path.now) context.now.root.now at.now (exactly f)) }
    ensures none { IfNone result (PathFindsWanted (path_of path.now) context.now.root.now at.now anything → ⊥) }
{
    let steps = path.steps.as_slice();
    let start = Positions::only(0);
    if !path.is_absolute {
        return first_from(steps, guards, &start, context, at);
    }
    if steps.is_empty() {
        return Some(Found::Element(context.root));
    }
    let reached = advance(steps, guards, &start, context, context.root);
    first_from(steps, guards, &reached, context, context.root)
}

/// The first place that is found from an element at which these positions are reached.
#[cycle(evaluate)]
fn first_from<'a>(
    steps: &[Step],
    guards: &[Check],
    reached: &Positions,
    context: &Context<'_>,
    at: &'a Element,
) -> Option<Found<'a>>
    requires ready { IsReady context.now }
    requires inside { depth at.now ≤ depth context.now.root.now }
    requires guarded { AreGuards (newest context.now.plan.now) (steps_of steps.now) (checks_of (map check_of guards.now)) }
    requires small { steps_in_steps (steps_of steps.now) ≤ 512 }
    ensures some { IfSome result (λ f. IsShallow f × SearchFinds steps.now (Has reached.now) context.now.root.now at.now (exactly f)) }
    ensures none { IfNone result (SearchFinds steps.now (Has reached.now) context.now.root.now at.now anything → ⊥) }
{
    if is_nowhere(steps, reached) {
        return None;
    }
    if reached.has(steps.len()) {
        return Some(Found::Element(at));
    }
    if let Some(found) = first_attribute(steps, reached, at) {
        return Some(found);
    }
    for child in at.children.as_slice() {
        match child {
            Node::Element(inner) => {
                let next = advance(steps, guards, reached, context, inner);
                if let Some(found) = first_from(steps, guards, &next, context, inner) {
                    return Some(found);
                }
            }
            Node::Text(_) => {}
        }
    }
    None
}

/// The first attribute of the element itself that a reached step names.
fn first_attribute<'a>(steps: &[Step], reached: &Positions, at: &'a Element) -> Option<Found<'a>>
    requires small { steps_in_steps (steps_of steps.now) ≤ 512 }
    ensures some { IfSome result (λ f. IsShallow f × ((root : Element) → OwnFinds steps.now (Has reached.now) root at.now (exactly f))) }
    ensures none { IfNone result ((root : Element) → OwnFinds steps.now (Has reached.now) root at.now anything → ⊥) }
{
    for (i, step) in steps.iter().enumerate() {
        if reached.has(i) {
            if let Some(found) = attribute_of(step, at) {
                return Some(found);
            }
        }
    }
    None
}

/// The first attribute of the element itself that the step names.
fn attribute_of<'a>(step: &Step, at: &'a Element) -> Option<Found<'a>>
    ensures some { IfSome result (λ f. IsShallow f × ((root : Element) (rest : Steps) → OwnAttribute (front_of step.now rest) root at.now (exactly f))) }
    ensures none { IfNone result ((root : Element) (rest : Steps) → OwnAttribute (front_of step.now rest) root at.now anything → ⊥) }
{
    if !names_attributes(step) {
        return None;
    }
    for attribute in at.attributes.as_slice() {
        if meets(
            &step.test,
            attribute.space.as_str(),
            attribute.local.as_str(),
        ) {
            return Some(Found::Text(attribute.value.as_str()));
        }
    }
    None
}
