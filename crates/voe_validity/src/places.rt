//! Elements at the end of a path of names.

ghost use Rattle.std.specs.Prelude.{◌≡◌, IfOk, map};
ghost use Rattle.std.specs.List.{list_any};
ghost use Rattle.voe_validity.specs.Oddities.{is_odd};
ghost use Rattle.voe_tree.specs.Places.{places};

use crate::oddity::Oddity;
use std::alloc::Global;
use voe_tree::{Element, Node};
use voe_values::NoMemory;

/// Whether some element at the end of the path, of names each a child of the one before, is odd in this way.
#[tactic(auto, using(crate::proofs::AnyOf::any_of_both))]
pub(crate) fn any_at(
    alloc: Global,
    element: &Element,
    path: &[&str],
    oddity: Oddity,
) -> Result<bool, NoMemory>
    ensures { IfOk result (λ odd. odd ≡ list_any (is_odd oddity) (places (map (λ name. name.now) path.now) element.now)) }
{
    match path.split_first() {
        None => oddity.holds(alloc, element),
        Some((first, rest)) => {
            for node in element.children.as_slice() {
                if let Node::Element(inner) = node {
                    if inner.is_called(first) && any_at(alloc, inner, rest, oddity)? {
                        return Ok(true);
                    }
                }
            }
            Ok(false)
        }
    }
}
