//! Start tags: their declarations of namespaces and their attributes.

ghost use Rattle.std.specs.Prelude.{◌≡◌, ◌+◌, ◌<◌, ◌≤◌, ◌++◌, ◌==◌, ◌&&◌, not, true, nat_le, IfErr, IfOk, OnOk, codes, decimal, length, map, slice_index};
ghost use Rattle.std.specs.List.{list_any, position_or_len};
ghost use Rattle.xml_lexer.specs.Token.{start};
ghost use Rattle.xml_lexer.specs.Spelling.{max_attributes, same, tag_end};
ghost use Rattle.voe_tree.specs.Canonical.{add_space, default_declaration, is_numbered, numbered_declarations, numbered_spaces, written, written_attribute, written_attributes, written_prefix, written_spelled, written_value};
ghost use Rattle.voe_tree.specs.Writing.{IsWide, all_spelled, texts};

use super::WriteFault;
use super::writer::Writer;
use crate::element::{Attribute, Element};
use crate::names::XML_NAMESPACE;
use itoa::Buffer;
use std::alloc::Global;
use voe_values::NoMemory;

const MAX_ATTRIBUTES: usize = 64;

/// Whether a namespace takes a prefix with a number.
fn is_numbered(space: &str) -> bool
    ensures { result ≡ is_numbered space.now }
{
    !space.is_empty() && space != XML_NAMESPACE
}

/// The place of a namespace among these, or their number.
fn number_of(spaces: &[&str], space: &str) -> usize
    ensures value { result ≡ position_or_len (same space.now) (texts spaces.now) }
    ensures within { result ≤ length spaces.now }
{
    let mut number = 0;
    while number < spaces.len() && space != spaces[number] {
        number += 1;
    }
    number
}

/// Whether a namespace takes a prefix with a number and has none yet.
fn is_new(spaces: &[&str], space: &str) -> bool
    ensures { result ≡ (is_numbered space.now && not (list_any (same space.now) (texts spaces.now))) }
{
    if !is_numbered(space) {
        return false;
    }
    number_of(spaces, space) == spaces.len()
}

fn add_space<'t>(spaces: &mut Vec<&'t str>, space: &'t str) -> Result<(), NoMemory>
    ensures { OnOk result (texts spaces.new.items ≡ add_space (texts spaces.old.items) space.now) }
{
    if !is_new(spaces.as_slice(), space) {
        return Ok(());
    }
    spaces.push(space)?;
    Ok(())
}

/// The namespaces of the attributes that take prefixes with numbers, in the order of their first use.
fn numbered_spaces<'t>(alloc: Global, attributes: &'t [Attribute]) -> Result<Vec<&'t str>, NoMemory>
    ensures { IfOk result (λ spaces. texts spaces.items ≡ numbered_spaces attributes.now) }
{
    let mut spaces: Vec<&'t str> = Vec::new(alloc);
    for attribute in attributes {
        add_space(&mut spaces, attribute.space.as_str())?;
    }
    Ok(spaces)
}

impl Element {
    pub(super) fn is_childless(&self) -> bool
        ensures { result ≡ (length self.now.children == 0) }
    {
        self.children.len() == 0
    }

    /// Adds its start tag, where this default namespace is in force.
    pub(super) fn write_tag(
        &self,
        alloc: Global,
        default: &str,
        writer: &mut Writer,
    ) -> Result<(), WriteFault>
        ensures bytes { OnOk result (writer.new.bytes.items ≡ writer.old.bytes.items ++ written (start self.now.local (written_attributes default.now self.now.space self.now.attributes) (length self.now.children == 0))) }
        ensures tokens { OnOk result (writer.new.tokens ≡ writer.old.tokens + 1) }
        ensures narrow { OnOk result (nat_le (length (written_attributes default.now self.now.space self.now.attributes)) max_attributes ≡ true) }
        ensures wide { IfErr result (λ fault. IsWide fault (written_attributes default.now self.now.space self.now.attributes)) }
    {
        let attributes = self.attributes.as_slice();
        if attributes.len() > MAX_ATTRIBUTES {
            return Err(WriteFault::TooLarge);
        }
        let spaces = numbered_spaces(alloc, attributes)?;
        if declared_len(default, self.space.as_str()) + spaces.len() + attributes.len()
            > MAX_ATTRIBUTES
        {
            return Err(WriteFault::TooLarge);
        }
        self.put_tag(default, spaces.as_slice(), writer)?;
        Ok(())
    }

    fn put_tag(&self, default: &str, spaces: &[&str], writer: &mut Writer) -> Result<(), NoMemory>
        requires { texts spaces.now ≡ numbered_spaces self.now.attributes }
        ensures bytes { OnOk result (writer.new.bytes.items ≡ writer.old.bytes.items ++ written (start self.now.local (written_attributes default.now self.now.space self.now.attributes) (length self.now.children == 0))) }
        ensures tokens { OnOk result (writer.new.tokens ≡ writer.old.tokens + 1) }
    {
        writer.put(b"<")?;
        writer.put(self.local.as_str().as_bytes())?;
        writer.default_declaration(default, self.space.as_str())?;
        writer.declarations(spaces)?;
        writer.attributes(spaces, self.attributes.as_slice())?;
        writer.finish(tag_end(self.is_childless()))?;
        Ok(())
    }
}

/// How many declarations of the default namespace the tag has.
fn declared_len(default: &str, space: &str) -> usize
    ensures value { result ≡ length (default_declaration default.now space.now) }
    ensures few { result ≤ 1 }
{
    usize::from(space != default)
}

fn tag_end(is_empty: bool) -> &'static [u8]
    ensures value { result.now ≡ tag_end is_empty }
    ensures some { 0 < length result.now }
{
    if is_empty { b"/>" } else { b">" }
}

impl Writer {
    fn default_declaration(&mut self, default: &str, space: &str) -> Result<(), NoMemory>
        ensures bytes { OnOk result (self.new.bytes.items ≡ self.old.bytes.items ++ all_spelled (default_declaration default.now space.now)) }
        ensures tokens { OnOk result (self.new.tokens ≡ self.old.tokens) }
    {
        if space == default {
            return Ok(());
        }
        self.put(b" xmlns")?;
        self.value(space.as_bytes())
    }

    /// Adds declarations of the prefixes with numbers.
    fn declarations(&mut self, spaces: &[&str]) -> Result<(), NoMemory>
        ensures bytes { OnOk result (self.new.bytes.items ≡ self.old.bytes.items ++ all_spelled (numbered_declarations 0 (texts spaces.now))) }
        ensures tokens { OnOk result (self.new.tokens ≡ self.old.tokens) }
    {
        for number in 0..spaces.len() {
            self.put(b" xmlns:a")?;
            self.number(number)?;
            self.value(spaces[number].as_bytes())?;
        }
        Ok(())
    }

    fn number(&mut self, number: usize) -> Result<(), NoMemory>
        ensures bytes { OnOk result (self.new.bytes.items ≡ self.old.bytes.items ++ decimal number) }
        ensures tokens { OnOk result (self.new.tokens ≡ self.old.tokens) }
    {
        let mut buffer = Buffer::new();
        self.put(buffer.format(number).as_bytes())
    }

    fn attributes(&mut self, spaces: &[&str], attributes: &[Attribute]) -> Result<(), NoMemory>
        ensures bytes { OnOk result (self.new.bytes.items ≡ self.old.bytes.items ++ all_spelled (map (written_attribute (texts spaces.now)) attributes.now)) }
        ensures tokens { OnOk result (self.new.tokens ≡ self.old.tokens) }
    {
        for attribute in attributes {
            self.put(b" ")?;
            self.prefix(spaces, attribute.space.as_str())?;
            self.put(attribute.local.as_str().as_bytes())?;
            self.value(attribute.value.as_str().as_bytes())?;
        }
        Ok(())
    }

    /// Adds what the name of an attribute in the namespace begins with.
    fn prefix(&mut self, spaces: &[&str], space: &str) -> Result<(), NoMemory>
        ensures bytes { OnOk result (self.new.bytes.items ≡ self.old.bytes.items ++ written_prefix (texts spaces.now) space.now) }
        ensures tokens { OnOk result (self.new.tokens ≡ self.old.tokens) }
    {
        if space.is_empty() {
            return Ok(());
        }
        if space == XML_NAMESPACE {
            return self.put(b"xml:");
        }
        self.put(b"a")?;
        self.number(number_of(spaces, space))?;
        self.put(b":")
    }
}
