//! What a start tag makes (Namespaces in XML 1.0, sections 5 and 6).

ghost use Rattle.std.specs.Prelude.{◌≡◌, ◌++◌, [], IfOk};
ghost use Rattle.std.specs.Option.{option_copied};
ghost use Rattle.xml_lexer.specs.View.{all_spelled, spelled};
ghost use Rattle.voe_tree.specs.Names.{Bindings, declare, element_with, is_bound, lookup, named_attribute, named_attributes, namespace};
ghost use Rattle.voe_tree.specs.Reader.{bindings_at};
ghost use Rattle.voe_tree.specs.Rules.{unbound_in};
ghost use Rattle.voe_tree.specs.View.{bindings_of, stack_of};

use crate::element::{Attribute, Element};
use crate::level::Binding;
use crate::lookup::{bound, bound_around};
use crate::names::{XML_NAMESPACE, declared_prefix, is_declared_name, name_parts};
use crate::nesting::Nesting;
use crate::values::read_value;
use sqlite_items::Items;
use std::alloc::Global;
use voe_values::{NoMemory, Text};
use xml_lexer::{SpelledAttribute, StartTag};

/// What a tag declares.
pub fn declarations<'a>(
    alloc: Global,
    given: &[SpelledAttribute<'a>],
) -> Result<Vec<Binding<'a>>, NoMemory>
    ensures { IfOk result (λ made. (outer : Bindings) → declare (all_spelled given.now) outer ≡ bindings_of made.items ++ outer) }
{
    let mut made = Vec::new(alloc);
    for attribute in given {
        if is_declared_name(attribute.name) {
            let namespace = read_value(alloc, attribute.value)?;
            made.push(Binding {
                prefix: declared_prefix(attribute.name),
                namespace,
            })?;
        }
    }
    Ok(made)
}

impl<'a> Nesting<'a> {
    /// What is bound to the prefix outside of a new tag.
    fn bound_here(&self, prefix: &str) -> Option<&Text>
        ensures { option_copied result ≡ lookup prefix.now (bindings_at (stack_of self.now)) }
    {
        match bound(&self.current.declared, prefix) {
            Some(found) => Some(found),
            None => bound_around(&self.parents, prefix),
        }
    }

    /// The namespace of a prefix in a tag that declares these bindings; it is empty where there is none.
    fn space_of<'b>(&'b self, own: &'b [Binding<'_>], prefix: &str) -> &'b str
        ensures { result.now ≡ namespace (bindings_of own.now ++ bindings_at (stack_of self.now)) prefix.now }
    {
        if prefix == "xml" {
            return XML_NAMESPACE;
        }
        match bound(own, prefix) {
            Some(found) => found.as_str(),
            None => match self.bound_here(prefix) {
                Some(found) => found.as_str(),
                None => "",
            },
        }
    }

    /// Whether the prefix is bound there; no prefix always is.
    pub fn is_bound(&self, own: &[Binding<'_>], prefix: &str) -> bool
        ensures { result ≡ is_bound (bindings_of own.now ++ bindings_at (stack_of self.now)) prefix.now }
    {
        prefix.is_empty() || !self.space_of(own, prefix).is_empty()
    }

    fn attribute(
        &self,
        alloc: Global,
        own: &[Binding<'_>],
        given: &SpelledAttribute<'_>,
    ) -> Result<Attribute, NoMemory>
        ensures { IfOk result (λ a. a ≡ named_attribute (bindings_of own.now ++ bindings_at (stack_of self.now)) (spelled given.now)) }
    {
        let parts = name_parts(given.name);
        let space = if parts.has_prefix {
            self.space_of(own, parts.prefix)
        } else {
            ""
        };
        Ok(Attribute {
            space: Text::of(alloc, space)?,
            local: Text::of(alloc, parts.local)?,
            value: read_value(alloc, given.value)?,
        })
    }

    fn attributes(
        &self,
        alloc: Global,
        own: &[Binding<'_>],
        given: &[SpelledAttribute<'_>],
    ) -> Result<Items<Attribute>, NoMemory>
        ensures { IfOk result (λ made. made ≡ named_attributes (bindings_of own.now ++ bindings_at (stack_of self.now)) (all_spelled given.now)) }
    {
        let mut made = Items::new(alloc);
        for attribute in given {
            if !is_declared_name(attribute.name) {
                let named = self.attribute(alloc, own, attribute)?;
                if made.push(named).is_err() {
                    return Err(NoMemory);
                }
            }
        }
        Ok(made)
    }

    /// The element of a tag that declares these bindings, without children.
    pub fn element(
        &self,
        alloc: Global,
        own: &[Binding<'_>],
        tag: &StartTag<'_>,
    ) -> Result<Element, NoMemory>
        ensures { IfOk result (λ e. e ≡ element_with (bindings_of own.now ++ bindings_at (stack_of self.now)) tag.now.name.now
            (all_spelled tag.now.attributes.items) []) }
    {
        let parts = name_parts(tag.name);
        Ok(Element {
            space: Text::of(alloc, self.space_of(own, parts.prefix))?,
            local: Text::of(alloc, parts.local)?,
            attributes: self.attributes(alloc, own, &tag.attributes)?,
            children: Items::new(alloc),
        })
    }

    /// Whether the prefix of an attribute is not bound.
    pub fn has_unbound_attribute(&self, own: &[Binding<'_>], given: &[SpelledAttribute<'_>]) -> bool
        ensures { result ≡ unbound_in (bindings_of own.now ++ bindings_at (stack_of self.now)) (all_spelled given.now) }
    {
        for attribute in given {
            if !is_declared_name(attribute.name)
                && !self.is_bound(own, name_parts(attribute.name).prefix)
            {
                return true;
            }
        }
        false
    }
}
