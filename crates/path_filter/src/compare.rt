//! Whether strings of two sides are so related.

ghost use Rattle.std.specs.Prelude.{◌↔◌, ◌≤◌, ◌+◌, IsTrue, map};
ghost use Rattle.voe_tree.specs.Shape.{depth};
ghost use Rattle.filter_text.specs.Filter.{compare, found as path_operand};
ghost use Rattle.filter_text.specs.Size.{steps_in_operand, steps_in_path};
ghost use Rattle.filter_text.specs.View.{comparison_of, operand_of, path_of};
ghost use Rattle.path_filter.specs.Contexts.{IsReady};
ghost use Rattle.path_filter.specs.SearchParts.{PathsDiffer, Relates};
ghost use Rattle.path_filter.specs.Meaning.{Related};
ghost use Rattle.path_filter.specs.Plan.{Guarded, check_of, checks_of, guards_of, newest};
ghost use Rattle.path_filter.specs.Search.{Is};
ghost use Rattle.path_filter.specs.Wanted.{IsShallow, text_found};

use crate::alike::all_like;
use crate::context::Context;
use crate::first::first;
use crate::plan::{Check, Side};
use crate::search::finds;
use crate::text::have_same_text;
use crate::wanted::{Found, Wanted};
use filter_text::{Comparison, Operand, Path};
use voe_tree::Element;

/// Whether two strings are so related.
pub fn are_related(left: Found<'_>, how: Comparison, right: Found<'_>) -> bool
    requires { IsShallow right }
    ensures { IsTrue result ↔ Related (comparison_of how) (text_found left.entry) (text_found right.entry) }
{
    have_same_text(left, right) == (how == Comparison::Equal)
}

/// Whether some string of the one side is so related to some string of the other.
#[cycle(evaluate)]
pub fn compares(
    left: &Side,
    how: Comparison,
    right: &Side,
    context: &Context<'_>,
    at: &Element,
) -> bool
    requires ready { IsReady context.now }
    requires inside { depth at.now ≤ depth context.now.root.now }
    requires refers { Guarded (newest context.now.plan.now) (operand_of left.now.operand) (guards_of left.now) × Guarded (newest context.now.plan.now) (operand_of right.now.operand) (guards_of right.now) }
    requires small { steps_in_operand (operand_of left.now.operand) + steps_in_operand (operand_of right.now.operand) ≤ 512 }
    ensures { IsTrue result ↔ Is (compare (operand_of left.now.operand) (comparison_of how) (operand_of right.now.operand)) context.now.root.now at.now }
{
    match &left.operand {
        Operand::Literal(text) => relates(right, how, Found::Text(text.as_str()), context, at),
        Operand::LocalName => relates(right, how, Found::Text(at.local.as_str()), context, at),
        Operand::Path(path) => {
            let guards = left.guards.as_slice();
            if how == Comparison::Differs {
                if let Operand::Path(other) = &right.operand {
                    return differ(path, guards, other, right.guards.as_slice(), context, at);
                }
            }
            let wanted = Wanted::RelatedToOne(how, right, at);
            finds(path, guards, context, at, &wanted)
        }
    }
}

/// Whether a string of the side is so related to what was found.
#[cycle(evaluate)]
pub fn relates(
    side: &Side,
    how: Comparison,
    found: Found<'_>,
    context: &Context<'_>,
    at: &Element,
) -> bool
    requires found { IsShallow found }
    requires ready { IsReady context.now }
    requires inside { depth at.now ≤ depth context.now.root.now }
    requires refers { Guarded (newest context.now.plan.now) (operand_of side.now.operand) (guards_of side.now) }
    requires small { steps_in_operand (operand_of side.now.operand) ≤ 512 }
    ensures { IsTrue result ↔ Relates (operand_of side.now.operand) (comparison_of how) (text_found found.entry) context.now.root.now at.now }
{
    match &side.operand {
        Operand::Path(path) => {
            let wanted = Wanted::Related(how, found);
            finds(path, side.guards.as_slice(), context, at, &wanted)
        }
        Operand::Literal(text) => are_related(found, how, Found::Text(text.as_str())),
        Operand::LocalName => are_related(found, how, Found::Text(at.local.as_str())),
    }
}

/// Whether some string of the one path differs from some string of the other: both have strings, and those are not
/// all one.
#[cycle(evaluate)]
fn differ(
    path: &Path,
    guards: &[Check],
    other: &Path,
    other_guards: &[Check],
    context: &Context<'_>,
    at: &Element,
) -> bool
    requires ready { IsReady context.now }
    requires inside { depth at.now ≤ depth context.now.root.now }
    requires guarded { Guarded (newest context.now.plan.now) (path_operand (path_of path.now)) (checks_of (map check_of guards.now)) }
    requires others { Guarded (newest context.now.plan.now) (path_operand (path_of other.now)) (checks_of (map check_of other_guards.now)) }
    requires small { steps_in_path (path_of path.now) + steps_in_path (path_of other.now) ≤ 512 }
    ensures { IsTrue result ↔ PathsDiffer (path_of path.now) (path_of other.now) context.now.root.now at.now }
{
    // Lent anew, so that what is found may live no longer than the element.
    let near = Context {
        plan: &*context.plan,
        known: &*context.known,
        root: &*context.root,
    };
    match first(path, guards, &near, &*at) {
        None => false,
        Some(found) => match all_like(other, other_guards, &near, &*at, found) {
            None => true,
            Some(last) => {
                finds(other, other_guards, context, at, &Wanted::Anything)
                    && all_like(path, guards, &near, &*at, last).is_none()
            }
        },
    }
}
