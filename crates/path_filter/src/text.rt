//! String values.

ghost use Rattle.std.specs.Prelude.{◌≡◌, ◌↔◌, ◌++◌, IsTrue, IfSome, IfNone, List, ℕ, map};
ghost use Rattle.voe_tree.specs.Contents.{string_of};
ghost use Rattle.path_filter.specs.Wanted.{IsShallow, text_found};

use crate::pieces::elements_have_same_text;
use crate::wanted::Found;
use voe_tree::{Element, Node};

/// What stands behind the element's text, where `text` begins with it.
fn behind_text<'a>(element: &Element, text: &'a [u8]) -> Option<&'a [u8]>
    ensures some { IfSome result (λ rest. text.now ≡ string_of element.now ++ rest.now) }
    ensures none { IfNone result ((rest : List ℕ) → text.now ≡ string_of element.now ++ rest → ⊥) }
{
    let mut rest = text;
    for child in element.children.as_slice() {
        match child {
            Node::Element(inner) => match behind_text(inner, rest) {
                None => return None,
                Some(behind) => rest = behind,
            },
            Node::Text(part) => match rest.strip_prefix(part.as_str().as_bytes()) {
                None => return None,
                Some(behind) => rest = behind,
            },
        }
    }
    Some(rest)
}

fn is_text_of(element: &Element, text: &str) -> bool
    ensures { IsTrue result ↔ (string_of element.now ≡ text.now) }
{
    match behind_text(element, text.as_bytes()) {
        None => false,
        Some(rest) => rest.is_empty(),
    }
}

/// Whether the two have one string value.
pub fn have_same_text(left: Found<'_>, right: Found<'_>) -> bool
    requires { IsShallow right }
    ensures { IsTrue result ↔ (text_found left.entry ≡ text_found right.entry) }
{
    match left {
        Found::Text(text) => match right {
            Found::Text(other) => text == other,
            Found::Element(element) => is_text_of(element, text),
        },
        Found::Element(element) => match right {
            Found::Text(text) => is_text_of(element, text),
            Found::Element(other) => elements_have_same_text(element, other),
        },
    }
}
