//! One visit of the elements of a tree, with the positions that are asked at each.

ghost use Rattle.std.specs.Prelude.{◌≡◌, ◌↔◌, ◌≤◌, ◌<◌, ◌⊎◌, ℕ, IsTrue, Some, length, slice_get, true};
ghost use Rattle.voe_tree.specs.Shape.{depth};
ghost use Rattle.path_filter.specs.Places.{document};
ghost use Rattle.path_filter.specs.Plan.{At, FromChild, IsMade, IsOfDocument, Knows, StagesAreSmall, newest};
ghost use Rattle.path_filter.specs.Positions.{Has};
ghost use Rattle.path_filter.specs.declared.plan.Stage.{Stage};

use crate::passes::{add_from_child, asked_of_child, is_done, own};
use crate::plan::Stage;
use crate::positions::Positions;
use voe_tree::{Element, Node};

/// Which of the asked positions find something from the element.
#[cycle(evaluate)]
pub fn found_from(
    plan: &[Stage],
    known: &Positions,
    asked: &Positions,
    root: &Element,
    at: &Element,
) -> Positions
    requires shallow { depth root.now ≤ 64 }
    requires inside { depth at.now ≤ depth root.now }
    requires made { IsMade (newest plan.now) }
    requires small { StagesAreSmall plan.now }
    requires few { length plan.now ≤ 512 }
    requires knows { Knows (Has known.now) (newest plan.now) root.now }
    ensures { (i : ℕ) (x : Stage) → slice_get plan.now i ≡ Some x → Has asked.now i → Has result i ↔ At (newest plan.now) root.now i at.now }
{
    let mut found = own(plan, asked, at);
    for child in at.children.as_slice() {
        match child {
            Node::Element(inner) => {
                if is_done(plan, asked, &found) {
                    return found;
                }
                visit_child(plan, known, asked, root, inner, &mut found);
            }
            Node::Text(_) => {}
        }
    }
    found
}

/// Adds the asked positions that find something from the child.
#[cycle(evaluate)]
fn visit_child(
    plan: &[Stage],
    known: &Positions,
    asked: &Positions,
    root: &Element,
    child: &Element,
    found: &mut Positions,
)
    requires shallow { depth root.now ≤ 64 }
    requires inside { depth child.now ≤ depth root.now }
    requires made { IsMade (newest plan.now) }
    requires small { StagesAreSmall plan.now }
    requires few { length plan.now ≤ 512 }
    requires knows { Knows (Has known.now) (newest plan.now) root.now }
    ensures keeps { (i : ℕ) (x : Stage) → slice_get plan.now i ≡ Some x → Has asked.now i → Has found.old i → Has found.new i }
    ensures adds { (i : ℕ) (x : Stage) → slice_get plan.now i ≡ Some x → Has asked.now i → (Has found.old i → ⊥)
        → Has found.new i ↔ FromChild (λ j. At (newest plan.now) root.now j child.now) (λ j. At (newest plan.now) root.now j (document root.now)) root.now child.now i x }
{
    let below_asked = asked_of_child(plan, asked, found, child);
    let below = found_from(plan, known, &below_asked, root, child);
    add_from_child(plan, asked, &below, known, root, child, found);
}

/// Whether the position finds something from the document.
fn finds_from_document(plan: &[Stage], known: &Positions, root: &Element, position: usize) -> bool
    requires shallow { depth root.now ≤ 64 }
    requires made { IsMade (newest plan.now) }
    requires small { StagesAreSmall plan.now }
    requires few { length plan.now ≤ 512 }
    requires knows { Knows (Has known.now) (newest plan.now) root.now }
    requires within { position < length plan.now }
    ensures { IsTrue result ↔ At (newest plan.now) root.now position (document root.now) }
{
    let asked = Positions::only(position);
    let mut found = Positions::none();
    visit_child(plan, known, &asked, root, root, &mut found);
    found.has(position)
}

/// Adds the last position, where it is the first step of a path from the document and finds something.
fn add_known(stage: &Stage, plan: &[Stage], root: &Element, position: usize, known: &mut Positions)
    requires shallow { depth root.now ≤ 64 }
    requires made { IsMade (newest plan.now) }
    requires small { StagesAreSmall plan.now }
    requires few { length plan.now ≤ 512 }
    requires knows { Knows (Has known.old) (newest plan.now) root.now }
    requires within { position < length plan.now }
    ensures { (k : ℕ) → Has known.new k
        ↔ (Has known.old k ⊎ ((k ≡ position) × (stage.now.of_document ≡ true) × At (newest plan.now) root.now position (document root.now))) }
{
    if !stage.of_document {
        return;
    }
    if finds_from_document(plan, known, root, position) {
        known.add(position);
    }
}

/// Which of the first steps of paths from the document find something.
pub fn known_in(plan: &[Stage], root: &Element) -> Positions
    requires shallow { depth root.now ≤ 64 }
    requires made { IsMade (newest plan.now) }
    requires small { StagesAreSmall plan.now }
    requires few { length plan.now ≤ 512 }
    ensures { (j : ℕ) → IsOfDocument (newest plan.now) j → Has result j ↔ At (newest plan.now) root.now j (document root.now) }
{
    let mut known = Positions::none();
    for (i, stage) in plan.iter().enumerate() {
        add_known(stage, &plan[..i + 1], root, i, &mut known);
    }
    known
}
