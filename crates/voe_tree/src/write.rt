//! The canonical text of a tree.

ghost use Rattle.std.specs.Prelude.{◌≡◌, ◌+◌, ◌++◌, ◌==◌, true, IfErr, IfOk, IsTrue, MatchResult, OnOk, codes, length};
ghost use Rattle.std.specs.List.{list_all};
ghost use Rattle.xml_lexer.specs.Token.{start};
ghost use Rattle.voe_tree.specs.Canonical.{all_written, canonical, is_narrow, is_writable, tokens_of, written, written_attributes};
ghost use Rattle.voe_tree.specs.Document.{Spells};
ghost use Rattle.voe_tree.specs.Shape.{is_well_formed};
ghost use Rattle.voe_tree.specs.Writing.{Exceeds, IsWide, RefusesWriting};
ghost use Rattle.voe_tree.specs.declared.element.Element.{Element};

use crate::element::{Element, Node, Tree};
use std::alloc::Global;
use voe_values::{Bytes, NoMemory};

mod tag;
mod writer;

pub use writer::Writer;

const MAX_BYTES: usize = 1_048_576;

const MAX_TOKENS: usize = 65_536;

/// Why a tree is not written.
#[derive(Clone, Copy, Debug, PartialEq, Eq)]
pub enum WriteFault {
    /// Its canonical text has more than 1,048,576 bytes, more than 65,536 tokens, or a start tag of more than 64
    /// attributes, declarations of namespaces among them: it could not be read.
    TooLarge,
    /// There was no memory for the text.
    NoMemory,
}

impl From<NoMemory> for WriteFault {
    ghost use Rattle.std.specs.Prelude.{◌≡◌};
    ghost use Rattle.voe_tree.specs.declared.write.WriteFault.TheVariants.{NoMemory};

    ghost from_gives = { λ _ fault. fault ≡ NoMemory };

    fn from(_: NoMemory) -> Self {
        WriteFault::NoMemory
    }
}

/// The canonical text of a tree, in UTF-8: it has no declaration, comments or instructions, each element declares its
/// namespace where it differs from the default in force, the namespaces of its attributes have the prefixes `a0`, `a1`
/// and so on, and only the characters that would not be read as they are stand as references.
pub fn write_tree(alloc: Global, tree: &Tree) -> Result<Bytes, WriteFault>
    ensures text { MatchResult result (λ bytes. (bytes ≡ canonical tree.now.root) × (is_writable tree.now.root ≡ true)) (λ fault. RefusesWriting tree.now.root fault) }
    ensures spells { IfOk result (λ bytes. Spells tree.now.root bytes) }
{
    let mut writer = Writer::new(alloc);
    tree.root.write(alloc, "", &mut writer)?;
    if writer.is_full() {
        return Err(WriteFault::TooLarge);
    }
    Ok(writer.into_bytes())
}

/// The canonical text of a tree that can be written spells the tree, so that it is read as the same tree.
pub fn written_trees_read_back()
    ensures { (root : Element) → IsTrue (is_well_formed root) → IsTrue (is_writable root) → Spells root (canonical root) }
{}

impl Element {
    /// Adds its tokens, where this default namespace is in force.
    fn write(&self, alloc: Global, default: &str, writer: &mut Writer) -> Result<(), WriteFault>
        ensures bytes { OnOk result (writer.new.bytes.items ≡ writer.old.bytes.items ++ all_written (tokens_of self.now default.now)) }
        ensures tokens { OnOk result (writer.new.tokens ≡ writer.old.tokens + length (tokens_of self.now default.now)) }
        ensures narrow { OnOk result (list_all is_narrow (tokens_of self.now default.now) ≡ true) }
        ensures large { IfErr result (λ fault. Exceeds fault (length writer.old.bytes.items) writer.old.tokens (tokens_of self.now default.now)) }
    {
        if writer.is_full() {
            return Err(WriteFault::TooLarge);
        }
        self.write_tag(alloc, default, writer)?;
        for node in self.children.as_slice() {
            match node {
                Node::Element(inner) => inner.write(alloc, self.space.as_str(), writer)?,
                Node::Text(text) => writer.text(text.as_str().as_bytes())?,
            }
        }
        if !self.is_childless() {
            writer.end_tag(self.local.as_str())?;
        }
        Ok(())
    }
}
