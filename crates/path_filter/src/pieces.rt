//! Compares string values piece by piece, without memory.

ghost use Rattle.std.specs.Prelude.{◌≡◌, ◌≤◌, ◌<◌, ◌++◌, ◌↔◌, [], IfSome, IfNone, IsTrue, length};
ghost use Rattle.std.specs.Bool.{OnFalse, OnTrue};
ghost use Rattle.voe_tree.specs.Contents.{string_of};
ghost use Rattle.voe_tree.specs.Shape.{depth};
ghost use Rattle.filter_text.specs.Filter.{Text};
ghost use Rattle.path_filter.specs.Cursors.{Fits, left, steps_left};

use crate::cursor::Cursor;
use voe_tree::{Element, Node};

fn at_front(element: &Element) -> Cursor<'_>
    requires { depth element.now ≤ 64 }
    ensures text { left result ≡ string_of element.now }
    ensures fits { Fits result }
{
    Cursor {
        piece: b"",
        levels: [element.children.as_slice(); 64],
        open: 1,
    }
}

/// Goes on by one node, where there is one.
fn step(cursor: &mut Cursor<'_>) -> bool
    requires empty { cursor.old.piece.now ≡ [] }
    requires fits { Fits cursor.old }
    ensures text { left cursor.new ≡ left cursor.old }
    ensures fits { Fits cursor.new }
    ensures less { OnTrue result (steps_left cursor.new < steps_left cursor.old) }
    ensures end { OnFalse result (left cursor.old ≡ []) }
{
    let open = cursor.open;
    if open == 0 {
        return false;
    }
    let levels = &mut cursor.levels[..];
    let nodes = levels[open - 1];
    match nodes.split_first() {
        None => cursor.open = open - 1,
        Some((first, rest)) => {
            levels[open - 1] = rest;
            match first {
                Node::Text(text) => cursor.piece = text.as_str().as_bytes(),
                Node::Element(inner) => {
                    levels[open] = inner.children.as_slice();
                    cursor.open = open + 1;
                }
            }
        }
    }
    true
}

/// Takes the wanted bytes off the front, or finds that the front is another.
fn take(cursor: &mut Cursor<'_>, wanted: &[u8]) -> bool
    requires fits { Fits cursor.old }
    ensures fits { Fits cursor.new }
    ensures taken { OnTrue result (left cursor.old ≡ wanted.now ++ left cursor.new) }
    ensures other { OnFalse result ((rest : Text) → left cursor.old ≡ wanted.now ++ rest → ⊥) }
{
    let mut wanted = wanted;
    while !wanted.is_empty() {
        let piece = cursor.piece;
        if piece.is_empty() {
            if !step(cursor) {
                return false;
            }
        } else {
            let len = wanted.len().min(piece.len());
            let (front, more) = wanted.split_at(len);
            let (begun, behind) = piece.split_at(len);
            if front != begun {
                return false;
            }
            wanted = more;
            cursor.piece = behind;
        }
    }
    true
}

/// Takes the element's string value off the front, or finds that the front is another.
fn take_element(cursor: &mut Cursor<'_>, element: &Element) -> bool
    requires fits { Fits cursor.old }
    ensures fits { Fits cursor.new }
    ensures taken { OnTrue result (left cursor.old ≡ string_of element.now ++ left cursor.new) }
    ensures other { OnFalse result ((rest : Text) → left cursor.old ≡ string_of element.now ++ rest → ⊥) }
{
    for child in element.children.as_slice() {
        let taken = match child {
            Node::Element(inner) => take_element(cursor, inner),
            Node::Text(text) => take(cursor, text.as_str().as_bytes()),
        };
        if !taken {
            return false;
        }
    }
    true
}

fn is_at_end(cursor: &mut Cursor<'_>) -> bool
    requires { Fits cursor.old }
    ensures { IsTrue result ↔ (left cursor.old ≡ []) }
{
    while cursor.piece.is_empty() {
        if !step(cursor) {
            return true;
        }
    }
    false
}

/// Whether the two elements have one string value (XPath 1.0, section 5.2).
pub fn elements_have_same_text(one: &Element, other: &Element) -> bool
    requires { depth other.now ≤ 64 }
    ensures { IsTrue result ↔ (string_of one.now ≡ string_of other.now) }
{
    let mut cursor = at_front(other);
    take_element(&mut cursor, one) && is_at_end(&mut cursor)
}
