//! Which positions of a plan find something.

ghost use Rattle.std.specs.Prelude.{◌≡◌, ◌↔◌, ◌≤◌, ◌<◌, ◌⊎◌, ℕ, IsTrue, Some, length, slice_get};
ghost use Rattle.voe_tree.specs.Shape.{depth};
ghost use Rattle.path_filter.specs.Contexts.{IsReady};
ghost use Rattle.path_filter.specs.Plan.{Asks, FromChild, IsMade, Knows, Owns, StageIsSmall, StageRefers, StagesAreSmall, newest};
ghost use Rattle.path_filter.specs.Positions.{Has};
ghost use Rattle.path_filter.specs.declared.plan.Stage.{Stage};

use crate::context::Context;
use crate::plan::Stage;
use crate::positions::Positions;
use crate::visit::{ask_stage, is_from_child, owns};
use voe_tree::Element;

/// Asks a child what decides whether the position finds something from it, where that is asked and not known yet.
fn ask_one(
    stage: &Stage,
    position: usize,
    asked: &Positions,
    found: &Positions,
    child: &Element,
    below: &mut Positions,
)
    requires small { StageIsSmall stage.now }
    requires few { position < 576 }
    ensures asks { Has asked.now position → (Has found.now position → ⊥) → Asks (Has below.new) child.now position stage.now }
    ensures keeps { (k : ℕ) → Has below.old k → Has below.new k }
{
    if !asked.has(position) || found.has(position) {
        return;
    }
    ask_stage(stage, position, child, below);
}

/// What to ask a child for the positions that are asked and not found yet.
pub fn asked_of_child(
    plan: &[Stage],
    asked: &Positions,
    found: &Positions,
    child: &Element,
) -> Positions
    requires small { StagesAreSmall plan.now }
    requires few { length plan.now ≤ 512 }
    ensures { (i : ℕ) (x : Stage) → slice_get plan.now i ≡ Some x → Has asked.now i → (Has found.now i → ⊥) → Asks (Has result) child.now i x }
{
    let mut below = Positions::none();
    let mut i = asked.next(0, plan.len());
    while i < plan.len() {
        ask_one(&plan[i], i, asked, found, child, &mut below);
        i = asked.next(i + 1, plan.len());
    }
    below
}

/// Adds the position where it is asked and finds something from the child.
#[cycle(evaluate)]
fn add_one(
    stage: &Stage,
    position: usize,
    asked: &Positions,
    below: &Positions,
    context: &Context<'_>,
    child: &Element,
    found: &mut Positions,
)
    requires ready { IsReady context.now }
    requires inside { depth child.now ≤ depth context.now.root.now }
    requires small { StageIsSmall stage.now }
    requires refers { StageRefers (newest context.now.plan.now) stage.now }
    requires few { position < 576 }
    ensures { (k : ℕ) → Has found.new k
        ↔ (Has found.old k ⊎ ((k ≡ position) × Has asked.now position × FromChild (Has below.now) (Has context.now.known.now) context.now.root.now child.now position stage.now)) }
{
    if !asked.has(position) || found.has(position) {
        return;
    }
    if is_from_child(stage, position, below, context, child) {
        found.add(position);
    }
}

/// Adds the positions that are asked and find something from the child.
#[cycle(evaluate)]
pub fn add_from_child(
    plan: &[Stage],
    asked: &Positions,
    below: &Positions,
    known: &Positions,
    root: &Element,
    child: &Element,
    found: &mut Positions,
)
    requires shallow { depth root.now ≤ 64 }
    requires inside { depth child.now ≤ depth root.now }
    requires made { IsMade (newest plan.now) }
    requires small { StagesAreSmall plan.now }
    requires few { length plan.now ≤ 512 }
    requires knows { Knows (Has known.now) (newest plan.now) root.now }
    ensures { (i : ℕ) (x : Stage) → slice_get plan.now i ≡ Some x → Has asked.now i
        → Has found.new i ↔ (Has found.old i ⊎ FromChild (Has below.now) (Has known.now) root.now child.now i x) }
{
    let mut i = asked.next(0, plan.len());
    while i < plan.len() {
        // A stage refers to those before it, all of whose paths from the document are known.
        let context = Context {
            plan: &plan[..i],
            known,
            root,
        };
        add_one(&plan[i], i, asked, below, &context, child, found);
        i = asked.next(i + 1, plan.len());
    }
}

/// Adds the position where it is asked and names an attribute of the element.
fn add_own(stage: &Stage, position: usize, asked: &Positions, at: &Element, found: &mut Positions)
    requires few { position < 576 }
    ensures { (k : ℕ) → Has found.new k ↔ (Has found.old k ⊎ ((k ≡ position) × Has asked.now position × Owns at.now stage.now)) }
{
    if !asked.has(position) {
        return;
    }
    if owns(stage, at) {
        found.add(position);
    }
}

/// The positions that are asked and name an attribute of the element.
pub fn own(plan: &[Stage], asked: &Positions, at: &Element) -> Positions
    requires few { length plan.now ≤ 512 }
    ensures { (i : ℕ) (x : Stage) → slice_get plan.now i ≡ Some x → Has asked.now i → Has result i ↔ Owns at.now x }
{
    let mut found = Positions::none();
    let mut i = asked.next(0, plan.len());
    while i < plan.len() {
        add_own(&plan[i], i, asked, at, &mut found);
        i = asked.next(i + 1, plan.len());
    }
    found
}

/// Whether all that is asked is found.
pub fn is_done(plan: &[Stage], asked: &Positions, found: &Positions) -> bool
    requires few { length plan.now ≤ 512 }
    ensures { IsTrue result → (i : ℕ) → i < length plan.now → Has asked.now i → Has found.now i }
{
    let mut i = asked.next(0, plan.len());
    while i < plan.len() {
        if asked.has(i) && !found.has(i) {
            return false;
        }
        i = asked.next(i + 1, plan.len());
    }
    true
}
