//! What stands in an element.

ghost use Rattle.std.specs.Prelude.{◌≡◌, ◌-◌, ◌<◌, ◌≤◌, ◌++◌, IfOk, IsTrue, OnOk, length, slice_index};
ghost use Rattle.std.specs.Option.{option_copied};
ghost use Rattle.std.specs.List.{list_all, prefix_len, suffix_len};
ghost use Rattle.std.specs.Str.{chars};
ghost use Rattle.xml_lexer.specs.Characters.{is_blank, is_xml_character};
ghost use Rattle.voe_tree.specs.Texts.{is_xml_text, trimmed};
ghost use Rattle.voe_tree.specs.Contents.{attribute_of, child_of, is_called, string_of};

use crate::element::{Element, Node};
use std::alloc::Global;
use voe_values::{NoMemory, Text};

/// How many blanks stand at the front.
fn blanks_len(bytes: &[u8]) -> usize
    ensures value { result ≡ prefix_len is_blank bytes.now }
    ensures within { result ≤ length bytes.now }
{
    let mut len = 0;
    while len < bytes.len() && is_blank(bytes[len]) {
        len += 1;
    }
    len
}

/// The length without the blanks at the end.
fn len_without_blanks(bytes: &[u8]) -> usize
    ensures value { result ≡ length bytes.now - suffix_len is_blank bytes.now }
    ensures within { result ≤ length bytes.now }
    ensures ends { result < length bytes.now → IsTrue (is_blank (slice_index bytes.now result)) }
{
    let mut len = bytes.len();
    while len > 0 && is_blank(bytes[len - 1]) {
        len -= 1;
    }
    len
}

/// Whether it is a space, a tab, a line feed or a carriage return (XML 1.0, section 2.3).
pub fn is_blank(byte: u8) -> bool
    ensures { result ≡ is_blank byte }
{
    matches!(byte, b' ' | b'\t' | b'\n' | b'\r')
}

/// Whether the text is made of XML characters (XML 1.0, section 2.2). It takes no memory.
pub fn is_xml_text(text: &str) -> bool
    ensures { result ≡ is_xml_text text.now }
{
    are_xml_characters(text)
}

fn are_xml_characters(text: &str) -> bool
    ensures { result ≡ list_all is_xml_character (chars text.now) }
{
    text.chars().all(|c| is_xml_character(c))
}

fn is_xml_character(c: char) -> bool
    ensures { result ≡ is_xml_character c }
{
    matches!(c, '\t' | '\n' | '\r') || (c >= ' ' && c != '\u{FFFE}' && c != '\u{FFFF}')
}

/// The text without the blanks at both its ends.
pub fn trim_blanks(text: &str) -> &str
    ensures { result.now ≡ trimmed text.now }
{
    let (_, rest) = text.split_at(blanks_len(text.as_bytes()));
    let (trimmed, _) = rest.split_at(len_without_blanks(rest.as_bytes()));
    trimmed
}

impl Element {
    /// Whether it is in no namespace and has this local name.
    pub fn is_called(&self, local: &str) -> bool
        ensures { result ≡ is_called local.now self.now }
    {
        self.space.is_empty() && self.local.as_str() == local
    }

    /// The value of the attribute of this local name in no namespace.
    pub fn attribute(&self, local: &str) -> Option<&Text>
        ensures { option_copied result ≡ attribute_of self.now local.now }
    {
        for attribute in self.attributes.as_slice() {
            if attribute.space.is_empty() && attribute.local.as_str() == local {
                return Some(&attribute.value);
            }
        }
        None
    }

    /// The first child element of this local name in no namespace.
    pub fn child(&self, local: &str) -> Option<&Element>
        ensures { option_copied result ≡ child_of self.now local.now }
    {
        for node in self.children.as_slice() {
            if let Node::Element(inner) = node {
                if inner.is_called(local) {
                    return Some(inner);
                }
            }
        }
        None
    }

    /// The texts in it, at any depth, in the order of the document (XPath 1.0, section 5.2).
    pub fn string(&self, alloc: Global) -> Result<Text, NoMemory>
        ensures { IfOk result (λ text. text ≡ string_of self.now) }
    {
        let mut text = Text::new(alloc);
        self.append_string(&mut text)?;
        Ok(text)
    }

    fn append_string(&self, text: &mut Text) -> Result<(), NoMemory>
        ensures { OnOk result (text.new ≡ text.old ++ string_of self.now) }
    {
        for node in self.children.as_slice() {
            match node {
                Node::Element(inner) => inner.append_string(text)?,
                Node::Text(piece) => text.push_str(piece.as_str())?,
            }
        }
        Ok(())
    }
}
