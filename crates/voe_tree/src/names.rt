//! Names as spelled (Namespaces in XML 1.0, section 4).

ghost use Rattle.std.specs.Prelude.{◌≡◌};
ghost use Rattle.std.specs.List.{list_any};
ghost use Rattle.xml_lexer.specs.Characters.{has_prefix};
ghost use Rattle.xml_lexer.specs.View.{all_spelled, spelled};
ghost use Rattle.voe_tree.specs.Pairs.{has_pair};
ghost use Rattle.voe_tree.specs.Names.{declared_prefix, is_declared_name, local_of, prefix_of};
ghost use Rattle.voe_tree.specs.Rules.{same_named, same_spelled};

use crate::element::Attribute;
use xml_lexer::SpelledAttribute;

/// The namespace of the prefix `xml` (Namespaces in XML 1.0, section 3).
pub const XML_NAMESPACE: &str = "http://www.w3.org/XML/1998/namespace";

/// A name as spelled, in its two parts.
#[derive(Clone, Copy)]
pub struct NameParts<'a> {
    pub has_prefix: bool,
    /// It is empty where there is none.
    pub prefix: &'a str,
    pub local: &'a str,
}

pub fn name_parts(name: &str) -> NameParts<'_>
    ensures has_prefix { result.has_prefix ≡ has_prefix name.now }
    ensures prefix { result.prefix.now ≡ prefix_of name.now }
    ensures local { result.local.now ≡ local_of name.now }
{
    match name.split_once(':') {
        None => NameParts {
            has_prefix: false,
            prefix: "",
            local: name,
        },
        Some((prefix, local)) => NameParts {
            has_prefix: true,
            prefix,
            local,
        },
    }
}

/// Whether an attribute of this name declares a namespace.
pub fn is_declared_name(name: &str) -> bool
    ensures { result ≡ is_declared_name name.now }
{
    name == "xmlns" || name_parts(name).prefix == "xmlns"
}

/// The prefix that an attribute of this name declares, which is empty for the default.
pub fn declared_prefix(name: &str) -> &str
    ensures { result.now ≡ declared_prefix name.now }
{
    let parts = name_parts(name);
    if parts.has_prefix { parts.local } else { "" }
}

/// Whether two attributes have one name as spelled.
pub fn repeats_spelled(given: &[SpelledAttribute<'_>]) -> bool
    ensures { result ≡ has_pair same_spelled (all_spelled given.now) }
{
    match given.split_first() {
        None => false,
        Some((first, rest)) => {
            if is_spelled_in(first, rest) {
                true
            } else {
                repeats_spelled(rest)
            }
        }
    }
}

fn is_spelled_in(first: &SpelledAttribute<'_>, others: &[SpelledAttribute<'_>]) -> bool
    ensures { result ≡ list_any (same_spelled (spelled first.now)) (all_spelled others.now) }
{
    for other in others {
        if first.name == other.name {
            return true;
        }
    }
    false
}

/// Whether two attributes in a namespace agree in it and in their local names.
pub fn repeats_named(attributes: &[Attribute]) -> bool
    ensures { result ≡ has_pair same_named attributes.now }
{
    match attributes.split_first() {
        None => false,
        Some((first, rest)) => {
            if is_named_in(first, rest) {
                true
            } else {
                repeats_named(rest)
            }
        }
    }
}

fn is_named_in(first: &Attribute, others: &[Attribute]) -> bool
    ensures { result ≡ list_any (same_named first.now) others.now }
{
    for other in others {
        if agree(first, other) {
            return true;
        }
    }
    false
}

fn agree(first: &Attribute, other: &Attribute) -> bool
    ensures { result ≡ same_named first.now other.now }
{
    !first.space.is_empty()
        && first.space.as_str() == other.space.as_str()
        && first.local.as_str() == other.local.as_str()
}
