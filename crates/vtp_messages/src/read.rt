//! What a tree says as a message.

ghost use Rattle.std.specs.Prelude.{◌≡◌, ◌++◌, ◌∷◌, [], IfOk, IsTrue, MatchResult, OnOk, codes, map};
ghost use Rattle.vtp_messages.specs.Parts.{children_local, is_stripped_if, is_transport, params_of, result_of, role_of};
ghost use Rattle.voe_packet.specs.Params.{param_of};
ghost use Rattle.vtp_messages.specs.Reading.{IsMessageOf, RefusesMessage};

use crate::children::{child_local, has_local, name_at, text_at};
use crate::fault::MessageFault;
use crate::message::Message;
use crate::role::MessageRole;
use std::alloc::Global;
use voe_packet::Param;
use voe_tree::{Element, Node, Tree};
use voe_values::{Listing, NoMemory, Text};

fn role_of(root: &Element) -> Option<MessageRole>
    ensures { result ≡ role_of root.now }
{
    match root.attribute("role") {
        Some(role) => MessageRole::named(role.as_str()),
        None => None,
    }
}

/// Adds the named values of a `Meta` to these.
fn add_params(alloc: Global, meta: &Element, params: &mut Listing<Param>) -> Result<(), NoMemory>
    ensures { OnOk result (params.new ≡ params.old ++ map param_of (children_local meta.now (codes "Param"))) }
{
    for node in meta.children.as_slice() {
        if let Node::Element(inner) = node {
            if has_local(inner, "Param") {
                let param = Param::of(alloc, inner)?;
                push(params, param)?;
            }
        }
    }
    Ok(())
}

fn push(params: &mut Listing<Param>, param: Param) -> Result<(), NoMemory>
    ensures { OnOk result (params.new ≡ params.old ++ param ∷ []) }
{
    match params.push(param) {
        Ok(()) => Ok(()),
        Err((_, fault)) => Err(fault),
    }
}

/// The named values of the first `Meta`.
fn params_of(alloc: Global, root: &Element) -> Result<Listing<Param>, NoMemory>
    ensures { IfOk result (λ params. params ≡ params_of root.now) }
{
    let mut params = Listing::new(alloc);
    if let Some(meta) = child_local(root, "Meta") {
        add_params(alloc, meta, &mut params)?;
    }
    Ok(params)
}

/// The result in the first `Meta`.
fn result_of(alloc: Global, root: &Element) -> Result<Option<Text>, NoMemory>
    ensures text { IfOk result (λ text. text ≡ result_of root.now) }
    ensures stripped { IfOk result (λ text. IsTrue (is_stripped_if text)) }
{
    match child_local(root, "Meta") {
        Some(meta) => text_at(alloc, meta, "Result"),
        None => Ok(None),
    }
}

/// What the tree says as a message (VTP 2.0, Transport messages). Its children are found by their local names, in any namespace
/// or in none, and of each name the first counts, even where it is no good. Children that are not known are passed over,
/// and so is a `version`. A `Response` that is no end name and an empty text read as missing.
pub fn read_message(alloc: Global, tree: &Tree) -> Result<Message, MessageFault>
    ensures { MatchResult result (λ message. IsMessageOf message tree.now.root) (λ fault. RefusesMessage tree.now.root fault) }
{
    let root = tree.root();
    if !has_local(root, "Transport") {
        return Err(MessageFault::NotTransport);
    }
    let Some(role) = role_of(root) else {
        return Err(MessageFault::BadRole);
    };
    let Some(origin) = name_at(alloc, root, "Origin")? else {
        return Err(MessageFault::NoOrigin);
    };
    let response = name_at(alloc, root, "Response")?;
    let stamp = text_at(alloc, root, "TimeStamp")?;
    let params = params_of(alloc, root)?;
    let result = result_of(alloc, root)?;
    Ok(Message {
        role,
        origin,
        response,
        stamp,
        params,
        result,
    })
}
