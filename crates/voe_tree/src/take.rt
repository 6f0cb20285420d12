//! What each token does to the stack.

ghost use Rattle.std.specs.Prelude.{◌≡◌, ◌++◌, ◌&&◌, length, nat_le, not, [], IfErr, IfNone, IfSome, None, OnOk, false, true};
ghost use Rattle.xml_lexer.specs.Token.{cdata, end, reference, start, text};
ghost use Rattle.xml_lexer.specs.View.{all_spelled, token_view};
ghost use Rattle.voe_tree.specs.Names.{Bindings, declare, element_with, is_bound, named_attributes, prefix_of};
ghost use Rattle.voe_tree.specs.Build.{with_line_feeds};
ghost use Rattle.voe_tree.specs.Pairs.{has_pair};
ghost use Rattle.voe_tree.specs.Rules.{is_innermost, same_named, same_spelled, unbound_in};
ghost use Rattle.voe_tree.specs.Shape.{max_depth};
ghost use Rattle.voe_tree.specs.Fault.{Shows};
ghost use Rattle.voe_tree.specs.Reader.{IsTidy, add_element, add_text, after, bindings_at, breaks, content_rule, is_bottom, is_rooted, opened_in, start_breaks};
ghost use Rattle.voe_tree.specs.View.{bindings_of, stack_of, state_of};

use crate::element::{Element, Node};
use crate::fault::TreeFault;
use crate::level::{Binding, Level};
use crate::names::{name_parts, repeats_named, repeats_spelled};
use crate::nesting::Nesting;
use crate::start::declarations;
use crate::values::{append_run, is_all_blanks};
use std::alloc::Global;
use voe_values::NoMemory;
use xml_lexer::{StartTag, Token};

/// How deep elements may nest.
const MAX_DEPTH: usize = 64;

fn is_spelled_twice(tag: &StartTag<'_>) -> bool
    ensures { result ≡ has_pair same_spelled (all_spelled tag.now.attributes.items) }
{
    repeats_spelled(&tag.attributes)
}

fn is_named_twice(element: &Element) -> bool
    ensures { result ≡ has_pair same_named element.now.attributes }
{
    repeats_named(element.attributes.as_slice())
}

impl<'a> Nesting<'a> {
    /// Whether an element was found outside.
    fn has_root(&self) -> bool
        requires { is_bottom (stack_of self.now) ≡ true }
        ensures { result ≡ is_rooted (stack_of self.now) }
    {
        !self.current.element.children.is_empty()
    }

    /// What content breaks here.
    fn content_fault(&self, at: usize) -> Option<TreeFault>
        ensures none { IfNone result (is_bottom (stack_of self.now) ≡ false) }
        ensures outside { IfSome result (λ fault. is_bottom (stack_of self.now) ≡ true) }
        ensures fault { IfSome result (λ fault. Shows at (content_rule (stack_of self.now)) fault) }
    {
        if !self.is_outside() {
            return None;
        }
        if self.has_root() {
            Some(TreeFault::AfterRoot { token: at })
        } else {
            Some(TreeFault::RootMissing)
        }
    }

    fn add_run(&mut self, run: &str) -> Result<(), NoMemory>
        requires { is_bottom (stack_of self.old) ≡ false }
        ensures { OnOk result (state_of self.new ≡ add_text (with_line_feeds run.now) (state_of self.old)) }
    {
        append_run(&mut self.pending, run)
    }

    fn take_text(&mut self, at: usize, run: &str) -> Result<(), TreeFault>
        ensures kept { OnOk result (breaks (state_of self.old) (text run.now) ≡ None) }
        ensures state { OnOk result (state_of self.new ≡ after (text run.now) (state_of self.old)) }
        ensures fault { IfErr result (λ fault. Shows at (breaks (state_of self.old) (text run.now)) fault) }
    {
        match self.content_fault(at) {
            None => {
                self.add_run(run)?;
                Ok(())
            }
            Some(fault) => {
                if is_all_blanks(run) {
                    Ok(())
                } else {
                    Err(fault)
                }
            }
        }
    }

    fn take_character_data(&mut self, at: usize, run: &str) -> Result<(), TreeFault>
        ensures kept { OnOk result (breaks (state_of self.old) (cdata run.now) ≡ None) }
        ensures state { OnOk result (state_of self.new ≡ after (cdata run.now) (state_of self.old)) }
        ensures fault { IfErr result (λ fault. Shows at (breaks (state_of self.old) (cdata run.now)) fault) }
    {
        match self.content_fault(at) {
            None => {
                self.add_run(run)?;
                Ok(())
            }
            Some(fault) => Err(fault),
        }
    }

    fn take_reference(&mut self, at: usize, c: char) -> Result<(), TreeFault>
        ensures kept { OnOk result (breaks (state_of self.old) (reference c) ≡ None) }
        ensures state { OnOk result (state_of self.new ≡ after (reference c) (state_of self.old)) }
        ensures fault { IfErr result (λ fault. Shows at (breaks (state_of self.old) (reference c)) fault) }
    {
        match self.content_fault(at) {
            None => {
                self.pending.push(c)?;
                Ok(())
            }
            Some(fault) => Err(fault),
        }
    }

    fn take_end(&mut self, alloc: Global, at: usize, name: &str) -> Result<(), TreeFault>
        ensures kept { OnOk result (breaks (state_of self.old) (end name.now) ≡ None) }
        ensures state { OnOk result (state_of self.new ≡ after (end name.now) (state_of self.old)) }
        ensures fault { IfErr result (λ fault. Shows at (breaks (state_of self.old) (end name.now)) fault) }
    {
        if !self.closes(name) {
            return Err(TreeFault::Unbalanced { token: at });
        }
        self.close(alloc)?;
        Ok(())
    }

    /// Whether an end tag of this name closes the innermost element.
    fn closes(&self, name: &str) -> bool
        ensures { result ≡ is_innermost name.now (opened_in (stack_of self.now)) }
    {
        if self.is_outside() {
            return false;
        }
        self.current.name == name
    }

    /// What a start tag breaks whose element was made.
    fn tag_fault(
        &self,
        at: usize,
        own: &[Binding<'_>],
        element: &Element,
        tag: &StartTag<'_>,
    ) -> Option<TreeFault>
        requires { element.now.attributes ≡ named_attributes (bindings_of own.now ++ bindings_at (stack_of self.now)) (all_spelled tag.now.attributes.items) }
        ensures none { IfNone result (start_breaks (bindings_of own.now ++ bindings_at (stack_of self.now)) (stack_of self.now) tag.now.name.now
            (all_spelled tag.now.attributes.items) ≡ None) }
        ensures fault { IfSome result (λ fault. Shows at (start_breaks (bindings_of own.now ++ bindings_at (stack_of self.now)) (stack_of self.now)
            tag.now.name.now (all_spelled tag.now.attributes.items)) fault) }
    {
        if self.is_too_deep() {
            return Some(TreeFault::TooDeep { token: at });
        }
        if is_spelled_twice(tag) {
            return Some(TreeFault::RepeatedAttribute { token: at });
        }
        if is_named_twice(element) {
            return Some(TreeFault::RepeatedAttribute { token: at });
        }
        if self.is_unbound(own, tag) {
            return Some(TreeFault::UnboundPrefix { token: at });
        }
        if self.has_unbound(own, tag) {
            return Some(TreeFault::UnboundPrefix { token: at });
        }
        if self.is_behind_root() {
            return Some(TreeFault::AfterRoot { token: at });
        }
        None
    }

    /// The same as what the token breaks.
    fn start_fault(
        &self,
        at: usize,
        own: &[Binding<'_>],
        element: &Element,
        tag: &StartTag<'_>,
    ) -> Option<TreeFault>
        requires tidy { IsTidy self.now.pending (stack_of self.now) }
        requires declares { (outer : Bindings) → declare (all_spelled tag.now.attributes.items) outer ≡ bindings_of own.now ++ outer }
        requires names { element.now ≡ element_with (bindings_of own.now ++ bindings_at (stack_of self.now)) tag.now.name.now
            (all_spelled tag.now.attributes.items) [] }
        ensures none { IfNone result (breaks (state_of self.now)
            (start tag.now.name.now (all_spelled tag.now.attributes.items) tag.now.is_empty) ≡ None) }
        ensures fault { IfSome result (λ fault. Shows at (breaks (state_of self.now)
            (start tag.now.name.now (all_spelled tag.now.attributes.items) tag.now.is_empty)) fault) }
    {
        self.tag_fault(at, own, element, tag)
    }

    /// Whether no further element may be opened.
    fn is_too_deep(&self) -> bool
        ensures { result ≡ nat_le max_depth (length (opened_in (stack_of self.now))) }
    {
        self.depth() >= MAX_DEPTH
    }

    /// Whether the prefix of a tag's element is not bound.
    fn is_unbound(&self, own: &[Binding<'_>], tag: &StartTag<'_>) -> bool
        ensures { result ≡ not (is_bound (bindings_of own.now ++ bindings_at (stack_of self.now)) (prefix_of tag.now.name.now)) }
    {
        !self.is_bound(own, name_parts(tag.name).prefix)
    }

    /// Whether the prefix of one of a tag's attributes is not bound.
    fn has_unbound(&self, own: &[Binding<'_>], tag: &StartTag<'_>) -> bool
        ensures { result ≡ unbound_in (bindings_of own.now ++ bindings_at (stack_of self.now)) (all_spelled tag.now.attributes.items) }
    {
        self.has_unbound_attribute(own, &tag.attributes)
    }

    fn is_behind_root(&self) -> bool
        ensures { result ≡ (is_bottom (stack_of self.now) && is_rooted (stack_of self.now)) }
    {
        if self.is_outside() {
            self.has_root()
        } else {
            false
        }
    }

    /// Opens a tag's element, or puts it where it stands if the tag ends in `/>`.
    fn enter(
        &mut self,
        alloc: Global,
        declared: Vec<Binding<'a>>,
        element: Element,
        tag: &StartTag<'a>,
    ) -> Result<(), NoMemory>
        requires declares { (outer : Bindings) → declare (all_spelled tag.now.attributes.items) outer ≡ bindings_of declared.items ++ outer }
        requires names { element ≡ element_with (bindings_of declared.items ++ bindings_at (stack_of self.old)) tag.now.name.now
            (all_spelled tag.now.attributes.items) [] }
        ensures { OnOk result (state_of self.new
            ≡ add_element tag.now.name.now (all_spelled tag.now.attributes.items) tag.now.is_empty (state_of self.old)) }
    {
        self.flush(alloc)?;
        if tag.is_empty {
            self.place(Node::Element(element))
        } else {
            self.open(Level {
                name: tag.name,
                element,
                declared,
            })
        }
    }

    fn take_start(&mut self, alloc: Global, at: usize, tag: &StartTag<'a>) -> Result<(), TreeFault>
        requires { IsTidy self.old.pending (stack_of self.old) }
        ensures kept { OnOk result (breaks (state_of self.old) (start tag.now.name.now (all_spelled tag.now.attributes.items) tag.now.is_empty) ≡ None) }
        ensures state { OnOk result (state_of self.new
            ≡ after (start tag.now.name.now (all_spelled tag.now.attributes.items) tag.now.is_empty) (state_of self.old)) }
        ensures fault { IfErr result (λ fault.
            Shows at (breaks (state_of self.old) (start tag.now.name.now (all_spelled tag.now.attributes.items) tag.now.is_empty)) fault) }
    {
        let declared = declarations(alloc, &tag.attributes)?;
        let element = self.element(alloc, &declared, tag)?;
        match self.start_fault(at, &declared, &element, tag) {
            Some(fault) => Err(fault),
            None => {
                self.enter(alloc, declared, element, tag)?;
                Ok(())
            }
        }
    }

    /// Takes the token of this number.
    pub fn take(&mut self, alloc: Global, at: usize, token: &Token<'a>) -> Result<(), TreeFault>
        requires { IsTidy self.old.pending (stack_of self.old) }
        ensures kept { OnOk result (breaks (state_of self.old) (token_view token.now) ≡ None) }
        ensures state { OnOk result (state_of self.new ≡ after (token_view token.now) (state_of self.old)) }
        ensures fault { IfErr result (λ fault. Shows at (breaks (state_of self.old) (token_view token.now)) fault) }
    {
        match token {
            Token::Declaration(_) => Ok(()),
            Token::Instruction => Ok(()),
            Token::Comment => Ok(()),
            Token::CharacterData(run) => self.take_character_data(at, run),
            Token::Start(tag) => self.take_start(alloc, at, tag),
            Token::End(name) => self.take_end(alloc, at, name),
            Token::Reference(c) => self.take_reference(at, *c),
            Token::Text(run) => self.take_text(at, run),
        }
    }
}
