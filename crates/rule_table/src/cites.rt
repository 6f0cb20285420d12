//! What is asked of each citation.

ghost use Rattle.std.specs.Prelude.{◌≡◌, codes};
ghost use Rattle.std.specs.List.{list_all};
ghost use Rattle.voe_tree.specs.Contents.{attribute_of, children_called};
ghost use Rattle.voe_tree.specs.Validity.{citations_of, has_kind, is_kind, is_lone_identifier};

use crate::identifier::is_identifier;
use voe_tree::{Element, Node, trim_blanks};

/// What a row asks of each citation.
#[derive(Clone, Copy)]
pub(crate) enum CiteRule {
    /// Its attribute `cite` is one of the three kinds.
    HasKind,
    /// Its one child is a text that names an identifier.
    NamesIdentifier,
}

impl CiteRule {
    ghost use Rattle.rule_table.specs.Cites.{is_kept};

    fn is_kept(self, cite: &Element) -> bool
        ensures { result ≡ is_kept self cite.now }
    {
        match self {
            CiteRule::HasKind => has_kind(cite),
            CiteRule::NamesIdentifier => is_lone_identifier(cite),
        }
    }

    fn all_kept(self, section: &Element) -> bool
        ensures { result ≡ list_all (is_kept self) (children_called section.now (codes "EventIVORN")) }
    {
        for node in section.children.as_slice() {
            if let Node::Element(inner) = node {
                if inner.is_called("EventIVORN") && !self.is_kept(inner) {
                    return false;
                }
            }
        }
        true
    }

    /// Whether each citation of the packet keeps the rule.
    #[tactic(auto, using(crate::proofs::Appended::all_of_both))]
    pub(crate) fn all_kept_below(self, root: &Element) -> bool
        ensures { result ≡ list_all (is_kept self) (citations_of root.now) }
    {
        for node in root.children.as_slice() {
            if let Node::Element(inner) = node {
                if inner.is_called("Citations") && !self.all_kept(inner) {
                    return false;
                }
            }
        }
        true
    }
}

fn has_kind(cite: &Element) -> bool
    ensures { result ≡ has_kind (attribute_of cite.now (codes "cite")) }
{
    match cite.attribute("cite") {
        Some(kind) => is_kind(kind.as_str()),
        None => false,
    }
}

fn is_kind(value: &str) -> bool
    ensures { result ≡ is_kind value.now }
{
    value == "followup" || value == "supersedes" || value == "retraction"
}

fn is_lone_identifier(cite: &Element) -> bool
    ensures { result ≡ is_lone_identifier cite.now.children }
{
    match cite.children.as_slice() {
        [Node::Text(text)] => is_identifier(trim_blanks(text.as_str())),
        _ => false,
    }
}
