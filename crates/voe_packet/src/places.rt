//! Elements at the end of a path of names, and their texts.

ghost use Rattle.std.specs.Prelude.{◌≡◌, ◌++◌, ◌∷◌, [], IfOk, OnOk};
ghost use Rattle.voe_tree.specs.Contents.{text_of};
ghost use Rattle.voe_tree.specs.Places.{places};
ghost use Rattle.voe_tree.specs.Writing.{texts};
ghost use Rattle.voe_packet.specs.Parts.{all_texts, elements, first_text};

use std::alloc::Global;
use voe_tree::{Element, Node, trim_blanks};
use voe_values::{Listing, NoMemory, Text};

/// The text of an element, without the blanks at both ends.
pub(crate) fn text_of(alloc: Global, element: &Element) -> Result<Text, NoMemory>
    ensures { IfOk result (λ text. text ≡ text_of element.now) }
{
    let whole = element.string(alloc)?;
    Text::of(alloc, trim_blanks(whole.as_str()))
}

/// Adds the elements at the end of the path, of names each a child of the one before, in the order of the document.
pub(crate) fn add_places<'t>(
    element: &'t Element,
    path: &[&str],
    found: &mut Vec<&'t Element>,
) -> Result<(), NoMemory>
    ensures { OnOk result (elements found.new.items ≡ elements found.old.items ++ places (texts path.now) element.now) }
{
    match path.split_first() {
        None => {
            found.push(element)?;
            Ok(())
        }
        Some((first, rest)) => {
            for node in element.children.as_slice() {
                if let Node::Element(inner) = node {
                    if inner.is_called(first) {
                        add_places(inner, rest, found)?;
                    }
                }
            }
            Ok(())
        }
    }
}

/// The elements at the end of the path.
pub(crate) fn places<'t>(
    alloc: Global,
    element: &'t Element,
    path: &[&str],
) -> Result<Vec<&'t Element>, NoMemory>
    ensures { IfOk result (λ found. elements found.items ≡ places (texts path.now) element.now) }
{
    let mut found: Vec<&'t Element> = Vec::new(alloc);
    add_places(element, path, &mut found)?;
    Ok(found)
}

/// The text of the first of them.
pub(crate) fn first_text(
    alloc: Global,
    element: &Element,
    path: &[&str],
) -> Result<Option<Text>, NoMemory>
    ensures { IfOk result (λ text. text ≡ first_text (texts path.now) element.now) }
{
    let found = places(alloc, element, path)?;
    match found.first() {
        None => Ok(None),
        Some(first) => {
            let text = text_of(alloc, first)?;
            Ok(Some(text))
        }
    }
}

/// The texts of all of them.
pub(crate) fn all_texts(
    alloc: Global,
    element: &Element,
    path: &[&str],
) -> Result<Listing<Text>, NoMemory>
    ensures { IfOk result (λ all. all ≡ all_texts (texts path.now) element.now) }
{
    let found = places(alloc, element, path)?;
    let mut texts = Listing::new(alloc);
    for place in found.as_slice() {
        let text = text_of(alloc, place)?;
        push(&mut texts, text)?;
    }
    Ok(texts)
}

/// Adds an item; without memory it is dropped.
pub(crate) fn push<T: Drop>(items: &mut Listing<T>, item: T) -> Result<(), NoMemory>
    ensures { OnOk result (items.new ≡ items.old ++ item ∷ []) }
{
    match items.push(item) {
        Ok(()) => Ok(()),
        Err((_, fault)) => Err(fault),
    }
}
