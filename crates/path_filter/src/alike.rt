//! Whether all that a path finds has one text.

ghost use Rattle.std.specs.Prelude.{◌≡◌, ◌≤◌, IfNone, IfSome, map, ◌≢◌, length};
ghost use Rattle.voe_tree.specs.Shape.{depth};
ghost use Rattle.filter_text.specs.Filter.{Steps, found as path_operand};
ghost use Rattle.filter_text.specs.Size.{steps_in_path, steps_in_steps};
ghost use Rattle.filter_text.specs.View.{front_of, path_of, steps_of};
ghost use Rattle.path_filter.specs.Contexts.{IsReady};
ghost use Rattle.path_filter.specs.SearchParts.{OwnAttribute, OwnFinds, PathFindsWanted, SearchFinds};
ghost use Rattle.path_filter.specs.Plan.{AreGuards, Guarded, check_of, checks_of, newest};
ghost use Rattle.path_filter.specs.Positions.{Has};
ghost use Rattle.path_filter.specs.Wanted.{IsLike, IsShallow, text_found, unlike};
ghost use Rattle.voe_tree.specs.Contents.{string_of};

use crate::context::Context;
use crate::plan::Check;
use crate::positions::Positions;
use crate::search::advance;
use crate::steps::{is_nowhere, meets, names_attributes};
use crate::text::have_same_text;
use crate::wanted::Found;
use filter_text::{Path, Step};
use voe_tree::{Element, Node};

/// The last place that the path finds, where all that it finds have the text of `like`, or `like` where it finds none.
/// Each is compared with the one found before it, since one text can be much longer to go over than another like it.
#[cycle(evaluate)]
pub fn all_like<'a>(
    path: &Path,
    guards: &[Check],
    context: &Context<'a>,
    at: &'a Element,
    like: Found<'a>,
) -> Option<Found<'a>>
    requires like { IsShallow like }
    requires ready { IsReady context.now }
    requires inside { depth at.now ≤ depth context.now.root.now }
    requires guarded { Guarded (newest context.now.plan.now) (path_operand (path_of path.now)) (checks_of (map check_of guards.now)) }
    requires small { steps_in_path (path_of path.now) ≤ 512 }
    ensures some { IfSome result (λ last. IsLike like.entry last × (PathFindsWanted (path_of path.now) context.now.root.now at.now (unlike like.entry) → ⊥)) }
    ensures none { IfNone result (PathFindsWanted (path_of path.now) context.now.root.now at.now (unlike like.entry)) }
{
    let steps = path.steps.as_slice();
    let start = Positions::only(0);
    if !path.is_absolute {
        return all_like_from(steps, guards, &start, context, at, like);
    }
    if steps.is_empty() {
        return if_like(Found::Element(context.root), like);
    }
    let reached = advance(steps, guards, &start, context, context.root);
    all_like_from(steps, guards, &reached, context, context.root, like)
}

/// The same of what is found from an element at which these positions are reached.
#[cycle(evaluate)]
fn all_like_from<'a>(
    steps: &[Step],
    guards: &[Check],
    reached: &Positions,
    context: &Context<'_>,
    at: &'a Element,
    like: Found<'a>,
) -> Option<Found<'a>>
    requires like { IsShallow like }
    requires ready { IsReady context.now }
    requires inside { depth at.now ≤ depth context.now.root.now }
    requires guarded { AreGuards (newest context.now.plan.now) (steps_of steps.now) (checks_of (map check_of guards.now)) }
    requires small { steps_in_steps (steps_of steps.now) ≤ 512 }
    ensures some { IfSome result (λ last. IsLike like.entry last × (SearchFinds steps.now (Has reached.now) context.now.root.now at.now (unlike like.entry) → ⊥)) }
    ensures none { IfNone result (SearchFinds steps.now (Has reached.now) context.now.root.now at.now (unlike like.entry)) }
{
    if is_nowhere(steps, reached) {
        return Some(like);
    }
    let itself = itself_like(steps, reached, at, like)?;
    let mut last = attributes_like(steps, reached, at, itself)?;
    for child in at.children.as_slice() {
        match child {
            Node::Element(inner) => {
                let next = advance(steps, guards, reached, context, inner);
                last = all_like_from(steps, guards, &next, context, inner, last)?;
            }
            Node::Text(_) => {}
        }
    }
    Some(last)
}

/// What was found, where it has the text of the other.
fn if_like<'a>(found: Found<'a>, like: Found<'a>) -> Option<Found<'a>>
    requires found { IsShallow found }
    requires like { IsShallow like }
    ensures some { IfSome result (λ same. (same ≡ found.entry) × IsLike like.entry same) }
    ensures none { IfNone result (text_found found.entry ≢ text_found like.entry) }
{
    if have_same_text(found, like) {
        Some(found)
    } else {
        None
    }
}

/// The element itself, where it is found and has the text of `like`, or `like` where it isn't found.
fn itself_like<'a>(
    steps: &[Step],
    reached: &Positions,
    at: &'a Element,
    like: Found<'a>,
) -> Option<Found<'a>>
    requires like { IsShallow like }
    requires shallow { depth at.now ≤ 64 }
    requires small { steps_in_steps (steps_of steps.now) ≤ 512 }
    ensures some { IfSome result (λ last. IsLike like.entry last × (Has reached.now (length steps.now) → string_of at.now ≡ text_found like.entry)) }
    ensures none { IfNone result (Has reached.now (length steps.now) × (string_of at.now ≢ text_found like.entry)) }
{
    if reached.has(steps.len()) {
        if_like(Found::Element(at), like)
    } else {
        Some(like)
    }
}

/// The last attribute of the element itself that a reached step names, where all have the text of `like`, or `like`
/// where none is named.
fn attributes_like<'a>(
    steps: &[Step],
    reached: &Positions,
    at: &'a Element,
    like: Found<'a>,
) -> Option<Found<'a>>
    requires like { IsShallow like }
    requires small { steps_in_steps (steps_of steps.now) ≤ 512 }
    ensures some { IfSome result (λ last. IsLike like.entry last × ((root : Element) → OwnFinds steps.now (Has reached.now) root at.now (unlike like.entry) → ⊥)) }
    ensures none { IfNone result ((root : Element) → OwnFinds steps.now (Has reached.now) root at.now (unlike like.entry)) }
{
    let mut last = like;
    for (i, step) in steps.iter().enumerate() {
        if reached.has(i) {
            last = named_like(step, at, last)?;
        }
    }
    Some(last)
}

/// The same of the attributes that the step names.
fn named_like<'a>(step: &Step, at: &'a Element, like: Found<'a>) -> Option<Found<'a>>
    requires { IsShallow like }
    ensures some { IfSome result (λ last. IsLike like.entry last × ((root : Element) (rest : Steps) → OwnAttribute (front_of step.now rest) root at.now (unlike like.entry) → ⊥)) }
    ensures none { IfNone result ((root : Element) (rest : Steps) → OwnAttribute (front_of step.now rest) root at.now (unlike like.entry)) }
{
    if !names_attributes(step) {
        return Some(like);
    }
    let mut last = like;
    for attribute in at.attributes.as_slice() {
        if meets(
            &step.test,
            attribute.space.as_str(),
            attribute.local.as_str(),
        ) {
            last = if_like(Found::Text(attribute.value.as_str()), last)?;
        }
    }
    Some(last)
}
