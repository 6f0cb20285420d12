//! The stack of open elements.

ghost use Rattle.std.specs.Prelude.{◌≡◌};
ghost use Rattle.voe_tree.specs.Contents.{element_in};

use crate::element::{Element, Node};
use crate::fault::TreeFault;
use crate::level::Level;
use sqlite_items::Items;
use std::alloc::Global;
use std::mem;
use voe_values::{NoMemory, Text};

/// The levels that are open, the outermost first, and the text that is not yet a node.
#[derive(Drop)]
pub struct Nesting<'a> {
    pub parents: Vec<Level<'a>>,
    pub current: Level<'a>,
    pub pending: Text,
}

/// The element that the node is.
fn as_element(node: Node) -> Option<Element>
    ensures { result ≡ element_in node }
{
    match node {
        Node::Element(element) => Some(element),
        Node::Text(_) => None,
    }
}

impl<'a> Nesting<'a> {
    ghost use Rattle.std.specs.Prelude.{◌≡◌, [], ◌∷◌, ◌++◌, IfErr, IfOk, None, OnOk, Some, length};
    ghost use Rattle.voe_tree.specs.Reader.{IsTidy, above, bindings_at, initial, is_bottom, is_rooted, opened_in, pop, push, push_text, result_of};
    ghost use Rattle.voe_tree.specs.Rules.{end_rule};
    ghost use Rattle.voe_tree.specs.Fault.{Shows};
    ghost use Rattle.voe_tree.specs.declared.element.Node.TheVariants as tree;
    ghost use Rattle.voe_tree.specs.View.{own_bindings, stack_of, state_of};

    /// Nothing is open.
    pub fn new(alloc: Global) -> Nesting<'a>
        ensures { state_of result ≡ initial }
    {
        Nesting {
            parents: Vec::new(alloc),
            current: Level {
                name: "",
                element: Element {
                    space: Text::new(alloc),
                    local: Text::new(alloc),
                    attributes: Items::new(alloc),
                    children: Items::new(alloc),
                },
                declared: Vec::new(alloc),
            },
            pending: Text::new(alloc),
        }
    }

    /// How many elements are open.
    pub fn depth(&self) -> usize
        ensures { result ≡ length (opened_in (stack_of self.now)) }
    {
        self.parents.len()
    }

    /// Whether no element is open.
    pub fn is_outside(&self) -> bool
        ensures { result ≡ is_bottom (stack_of self.now) }
    {
        self.parents.is_empty()
    }

    /// Puts a node behind the others of the innermost level.
    pub fn place(&mut self, node: Node) -> Result<(), NoMemory>
        ensures stack { OnOk result (stack_of self.new ≡ push node (stack_of self.old)) }
        ensures pending { self.new.pending ≡ self.old.pending }
        ensures name { self.new.current.name.now ≡ self.old.current.name.now }
    {
        match self.current.element.children.push(node) {
            Ok(()) => Ok(()),
            Err(_) => Err(NoMemory),
        }
    }

    /// Makes a node of the pending text.
    pub fn flush(&mut self, alloc: Global) -> Result<(), NoMemory>
        ensures stack { OnOk result (stack_of self.new ≡ push_text self.old.pending (stack_of self.old)) }
        ensures pending { OnOk result (self.new.pending ≡ []) }
        ensures name { self.new.current.name.now ≡ self.old.current.name.now }
    {
        if self.pending.is_empty() {
            return Ok(());
        }
        let text = mem::replace(&mut self.pending, Text::new(alloc));
        self.place(Node::Text(text))
    }

    /// Opens a level.
    pub fn open(&mut self, level: Level<'a>) -> Result<(), NoMemory>
        ensures stack { OnOk result (stack_of self.new
            ≡ above level.entry.name.now level.entry.element (own_bindings level.entry ++ bindings_at (stack_of self.old)) (stack_of self.old)) }
        ensures pending { self.new.pending ≡ self.old.pending }
    {
        let parent = mem::replace(&mut self.current, level);
        self.parents.push(parent)?;
        Ok(())
    }

    /// Closes the innermost element.
    pub fn close(&mut self, alloc: Global) -> Result<(), NoMemory>
        ensures stack { OnOk result (stack_of self.new ≡ pop (push_text self.old.pending (stack_of self.old))) }
        ensures pending { OnOk result (self.new.pending ≡ []) }
    {
        self.flush(alloc)?;
        match self.parents.pop() {
            None => Ok(()),
            Some(parent) => {
                let closed = mem::replace(&mut self.current, parent);
                self.place(Node::Element(closed.element))
            }
        }
    }

    /// What was found outside, at the end of this many tokens.
    pub fn into_root(self, count: usize) -> Result<Element, TreeFault>
        requires { IsTidy self.pending (stack_of self) }
        ensures found { IfOk result (λ root. result_of (state_of self.entry) [] ≡ Some (tree.Element root ∷ [])) }
        ensures kept { OnOk result (end_rule (opened_in (stack_of self.entry)) (is_rooted (stack_of self.entry)) ≡ None) }
        ensures fault { IfErr result (λ fault. Shows count (end_rule (opened_in (stack_of self.entry)) (is_rooted (stack_of self.entry))) fault) }
    {
        if !self.is_outside() {
            return Err(TreeFault::Unbalanced { token: count });
        }
        let Nesting { current, .. } = self;
        let Level { element, .. } = current;
        let Element { mut children, .. } = element;
        match children.pop() {
            Some(node) => match as_element(node) {
                Some(root) => Ok(root),
                None => Err(TreeFault::RootMissing),
            },
            None => Err(TreeFault::RootMissing),
        }
    }
}
