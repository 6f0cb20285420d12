//! What a row asks of a tree.

ghost use Rattle.std.specs.Prelude.{◌≡◌};
ghost use Rattle.voe_tree.specs.Validity.{is_role, meets_V01, meets_V02, meets_V03, meets_V04, stands_at_most_once};

use crate::cites::CiteRule;
use crate::identifier::is_identifier;
use crate::section::Section;
use voe_tree::{Element, Node};

const NAMESPACE: &str = "http://www.ivoa.net/xml/VOEvent/v2.0";

/// What a row asks of a tree, of its root mostly (VOEvent 2.0, section 3).
#[derive(Clone, Copy, Debug, PartialEq, Eq)]
pub enum RowTest {
    /// The root is `VOEvent` in the namespace of VOEvent 2.0.
    RootNamed,
    /// The root's attribute `version` is `2.0`.
    RootVersion,
    /// The root's attribute `ivorn` is an identifier.
    RootIdentifier,
    /// The root's attribute `role` is one of the four, or is missing.
    RootRole,
    /// The section stands at most once.
    AtMostOne(Section),
    /// Each citation has one of the three kinds in its attribute `cite`.
    CiteKinds,
    /// Each citation has one child, a text, which is an identifier without the blanks at its ends.
    CiteIdentifiers,
}

impl RowTest {
    ghost use Rattle.rule_table.specs.Meaning.{meets};

    /// Whether the tree of this root has what the row asks. It takes no memory.
    pub fn is_met(self, root: &Element) -> bool
        ensures { result ≡ meets self root.now }
    {
        match self {
            RowTest::RootNamed => is_packet(root),
            RowTest::RootVersion => has_version(root),
            RowTest::RootIdentifier => has_identifier(root),
            RowTest::RootRole => has_role(root),
            RowTest::AtMostOne(section) => stands_at_most_once(root, section.name()),
            RowTest::CiteKinds => CiteRule::HasKind.all_kept_below(root),
            RowTest::CiteIdentifiers => CiteRule::NamesIdentifier.all_kept_below(root),
        }
    }
}

fn is_packet(root: &Element) -> bool
    ensures { result ≡ meets_V01 root.now }
{
    root.space.as_str() == NAMESPACE && root.local.as_str() == "VOEvent"
}

fn has_version(root: &Element) -> bool
    ensures { result ≡ meets_V02 root.now }
{
    match root.attribute("version") {
        Some(version) => version.as_str() == "2.0",
        None => false,
    }
}

fn has_identifier(root: &Element) -> bool
    ensures { result ≡ meets_V03 root.now }
{
    match root.attribute("ivorn") {
        Some(ivorn) => is_identifier(ivorn.as_str()),
        None => false,
    }
}

fn has_role(root: &Element) -> bool
    ensures { result ≡ meets_V04 root.now }
{
    match root.attribute("role") {
        Some(role) => is_role(role.as_str()),
        None => true,
    }
}

fn is_role(value: &str) -> bool
    ensures { result ≡ is_role value.now }
{
    value == "observation" || value == "prediction" || value == "utility" || value == "test"
}

fn stands_at_most_once(root: &Element, name: &str) -> bool
    ensures { result ≡ stands_at_most_once root.now name.now }
{
    let mut stood = false;
    for node in root.children.as_slice() {
        if let Node::Element(inner) = node {
            if inner.is_called(name) {
                if stood {
                    return false;
                }
                stood = true;
            }
        }
    }
    true
}
