//! The text of a message.

ghost use Rattle.std.specs.Prelude.{◌≡◌, ◌+◌, ◌++◌, IfOk, IsTrue, MatchResult, OnOk, codes, false, [], length, map};
ghost use Rattle.xml_lexer.specs.Token.{start};
ghost use Rattle.voe_tree.specs.Canonical.{all_written, written};
ghost use Rattle.voe_tree.specs.Document.{Spells};
ghost use Rattle.voe_tree.specs.Writing.{RefusesWritten};
ghost use Rattle.voe_packet.specs.Params.{param_token};
ghost use Rattle.vtp_messages.specs.Reading.{IsMessageOf};
ghost use Rattle.vtp_messages.specs.Rooted.{IsPlainName, IsPlainNameIf, has_xml_texts, message_root};
ghost use Rattle.vtp_messages.specs.Spelling.{has_meta as meta_stands, inner, is_writable_message, leaf, leaf_if, message_tokens, meta, meta_inner, root_attributes, root_name, spelling};

use crate::message::Message;
use crate::role::MessageRole;
use std::alloc::Global;
use voe_packet::Param;
use voe_tree::{WriteFault, Writer};
use voe_values::{Bytes, EndName, NoMemory, Text};

const ROOT: &[u8] =
    b"<trn:Transport xmlns:trn=\"http://telescope-networks.org/schema/Transport/v1.1\" role=\"";

/// Adds a start tag without attributes.
fn add_start(writer: &mut Writer, name: &str) -> Result<(), NoMemory>
    ensures bytes { OnOk result (writer.new.bytes.items ≡ writer.old.bytes.items ++ written (start name.now [] false)) }
    ensures tokens { OnOk result (writer.new.tokens ≡ writer.old.tokens + 1) }
{
    writer.put(b"<")?;
    writer.put(name.as_bytes())?;
    writer.finish(b">")?;
    Ok(())
}

/// Adds an element of this name with this text.
fn add_leaf(writer: &mut Writer, name: &str, text: &str) -> Result<(), NoMemory>
    ensures bytes { OnOk result (writer.new.bytes.items ≡ writer.old.bytes.items ++ all_written (leaf name.now text.now)) }
    ensures tokens { OnOk result (writer.new.tokens ≡ writer.old.tokens + length (leaf name.now text.now)) }
{
    add_start(writer, name)?;
    writer.text(text.as_bytes())?;
    writer.end_tag(name)?;
    Ok(())
}

/// The same where there is a text.
fn add_text(writer: &mut Writer, name: &str, text: &Option<Text>) -> Result<(), NoMemory>
    ensures bytes { OnOk result (writer.new.bytes.items ≡ writer.old.bytes.items ++ all_written (leaf_if name.now text.now)) }
    ensures tokens { OnOk result (writer.new.tokens ≡ writer.old.tokens + length (leaf_if name.now text.now)) }
{
    match text {
        Some(text) => add_leaf(writer, name, text.as_str()),
        None => Ok(()),
    }
}

/// The same of an end name.
fn add_name(writer: &mut Writer, name: &str, end: &Option<EndName>) -> Result<(), NoMemory>
    ensures bytes { OnOk result (writer.new.bytes.items ≡ writer.old.bytes.items ++ all_written (leaf_if name.now end.now)) }
    ensures tokens { OnOk result (writer.new.tokens ≡ writer.old.tokens + length (leaf_if name.now end.now)) }
{
    match end {
        Some(end) => add_leaf(writer, name, end.as_str()),
        None => Ok(()),
    }
}

fn add_param(writer: &mut Writer, param: &Param) -> Result<(), NoMemory>
    ensures bytes { OnOk result (writer.new.bytes.items ≡ writer.old.bytes.items ++ written (param_token param.now)) }
    ensures tokens { OnOk result (writer.new.tokens ≡ writer.old.tokens + 1) }
{
    writer.put(b"<Param name")?;
    writer.value(param.name.as_str().as_bytes())?;
    writer.put(b" value")?;
    writer.value(param.value.as_str().as_bytes())?;
    writer.finish(b"/>")?;
    Ok(())
}

fn add_params(writer: &mut Writer, params: &[Param]) -> Result<(), NoMemory>
    ensures bytes { OnOk result (writer.new.bytes.items ≡ writer.old.bytes.items ++ all_written (map param_token params.now)) }
    ensures tokens { OnOk result (writer.new.tokens ≡ writer.old.tokens + length params.now) }
{
    for param in params {
        add_param(writer, param)?;
    }
    Ok(())
}

fn has_meta(params: &[Param], answer: &Option<Text>) -> bool
    ensures { result ≡ meta_stands params.now answer.now }
{
    !params.is_empty() || answer.is_some()
}

/// Adds `Meta` where it has something.
fn add_meta(writer: &mut Writer, params: &[Param], answer: &Option<Text>) -> Result<(), NoMemory>
    ensures bytes { OnOk result (writer.new.bytes.items ≡ writer.old.bytes.items ++ all_written (meta params.now answer.now)) }
    ensures tokens { OnOk result (writer.new.tokens ≡ writer.old.tokens + length (meta params.now answer.now)) }
{
    if !has_meta(params, answer) {
        return Ok(());
    }
    add_start(writer, "Meta")?;
    add_params(writer, params)?;
    add_text(writer, "Result", answer)?;
    writer.end_tag("Meta")?;
    Ok(())
}

/// Adds the root's start tag.
fn add_root(writer: &mut Writer, role: MessageRole) -> Result<(), NoMemory>
    ensures bytes { OnOk result (writer.new.bytes.items ≡ writer.old.bytes.items ++ written (start root_name (root_attributes role) false)) }
    ensures tokens { OnOk result (writer.new.tokens ≡ writer.old.tokens + 1) }
{
    writer.put(ROOT)?;
    writer.put(role.word().as_bytes())?;
    writer.finish(b"\" version=\"1.0\">")?;
    Ok(())
}

/// Adds what stands in the root.
fn add_inner(writer: &mut Writer, message: &Message) -> Result<(), NoMemory>
    ensures bytes { OnOk result (writer.new.bytes.items ≡ writer.old.bytes.items ++ all_written (inner message.now)) }
    ensures tokens { OnOk result (writer.new.tokens ≡ writer.old.tokens + length (inner message.now)) }
{
    add_leaf(writer, "Origin", message.origin.as_str())?;
    add_name(writer, "Response", &message.response)?;
    add_text(writer, "TimeStamp", &message.stamp)?;
    add_meta(writer, message.params.as_slice(), &message.result)?;
    Ok(())
}

fn add_message(writer: &mut Writer, message: &Message) -> Result<(), NoMemory>
    ensures bytes { OnOk result (writer.new.bytes.items ≡ writer.old.bytes.items ++ spelling message.now) }
    ensures tokens { OnOk result (writer.new.tokens ≡ writer.old.tokens + length (message_tokens message.now)) }
{
    add_root(writer, message.role)?;
    add_inner(writer, message)?;
    writer.end_tag("trn:Transport")?;
    Ok(())
}

/// An end name is made of XML characters, and has no blanks at its ends. Nothing is done.
fn is_plain_name(name: &EndName)
    ensures { IsPlainName name.now }
{
    let _ = name.as_str();
}

fn are_plain_names(message: &Message)
    ensures origin { IsPlainName message.now.origin }
    ensures response { IsPlainNameIf message.now.response }
{
    is_plain_name(&message.origin);
    if let Some(response) = &message.response {
        is_plain_name(response);
    }
}

/// The text of a message, in UTF-8: the root is written in the namespace of the transport's version 1.1 schema, and what
/// it contains in none. It is too large exactly where it could not be read: above 1,048,576 bytes or 65,536 tokens. What
/// is written spells a tree that says the message.
///
/// Its texts must be made of XML characters, as `has_xml_texts` tells.
pub fn write_message(alloc: Global, message: &Message) -> Result<Bytes, WriteFault>
    requires { IsTrue (has_xml_texts message.now) }
    ensures text { MatchResult result (λ bytes. (bytes ≡ spelling message.now) × IsTrue (is_writable_message message.now)) (λ fault. RefusesWritten (message_tokens message.now) fault) }
    ensures reads { IfOk result (λ bytes. Spells (message_root message.now) bytes) }
    ensures says { OnOk result (IsMessageOf message.now (message_root message.now)) }
{
    are_plain_names(message);
    let mut writer = Writer::new(alloc);
    add_message(&mut writer, message)?;
    writer.finished()
}
