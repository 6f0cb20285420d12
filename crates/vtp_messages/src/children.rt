//! Children by their local names.

ghost use Rattle.std.specs.Prelude.{◌≡◌, IfOk, IsTrue};
ghost use Rattle.std.specs.Option.{option_copied};
ghost use Rattle.voe_tree.specs.Contents.{text_of};
ghost use Rattle.vtp_messages.specs.Parts.{child_local, has_local as is_of_local, is_stripped_if, name_at, text_at, unless_empty};

use std::alloc::Global;
use voe_tree::{Element, Node, trim_blanks};
use voe_values::{EndName, NoMemory, Text, is_end_name};

/// Whether its local name is this one, in whatever namespace.
pub(crate) fn has_local(element: &Element, local: &str) -> bool
    ensures { result ≡ is_of_local local.now element.now }
{
    element.local.as_str() == local
}

/// The first child element of this local name, in whatever namespace.
pub(crate) fn child_local<'e>(element: &'e Element, local: &str) -> Option<&'e Element>
    ensures { option_copied result ≡ child_local element.now local.now }
{
    for node in element.children.as_slice() {
        if let Node::Element(inner) = node {
            if has_local(inner, local) {
                return Some(inner);
            }
        }
    }
    None
}

/// The text of an element without the blanks at its ends; nothing where it is empty.
fn own_text(alloc: Global, element: &Element) -> Result<Option<Text>, NoMemory>
    ensures text { IfOk result (λ text. text ≡ unless_empty (text_of element.now)) }
    ensures stripped { IfOk result (λ text. IsTrue (is_stripped_if text)) }
{
    let string = element.string(alloc)?;
    let text = trim_blanks(string.as_str());
    if text.is_empty() {
        return Ok(None);
    }
    let kept = Text::of(alloc, text)?;
    Ok(Some(kept))
}

/// The text of the first child of this local name; nothing where there is none, or it is empty.
pub(crate) fn text_at(
    alloc: Global,
    element: &Element,
    local: &str,
) -> Result<Option<Text>, NoMemory>
    ensures text { IfOk result (λ text. text ≡ text_at element.now local.now) }
    ensures stripped { IfOk result (λ text. IsTrue (is_stripped_if text)) }
{
    match child_local(element, local) {
        Some(child) => own_text(alloc, child),
        None => Ok(None),
    }
}

/// The same where it is an end name.
pub(crate) fn name_at(
    alloc: Global,
    element: &Element,
    local: &str,
) -> Result<Option<EndName>, NoMemory>
    ensures { IfOk result (λ name. name ≡ name_at element.now local.now) }
{
    let Some(child) = child_local(element, local) else {
        return Ok(None);
    };
    let string = child.string(alloc)?;
    let text = trim_blanks(string.as_str());
    if !is_end_name(text) {
        return Ok(None);
    }
    let name = EndName::of(alloc, text)?;
    Ok(Some(name))
}
