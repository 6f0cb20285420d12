//! The lines that show a message.

ghost use Rattle.std.specs.Prelude.{◌≡◌, ◌++◌, IfOk, OnOk, map};
ghost use Rattle.std.specs.List.{concat};
ghost use Rattle.voe_packet.specs.Params.{param_line};
ghost use Rattle.vtp_messages.specs.Showing.{named_line, named_line_if, shown};

use crate::message::Message;
use std::alloc::Global;
use voe_packet::Param;
use voe_values::{Bytes, EndName, NoMemory, Text};

/// Adds the line of a named text.
fn add_line(out: &mut Bytes, name: &str, text: &str) -> Result<(), NoMemory>
    ensures { OnOk result (out.new ≡ out.old ++ named_line name.now text.now) }
{
    out.extend(name.as_bytes())?;
    out.extend(b" ")?;
    out.extend(text.as_bytes())?;
    out.extend(b"\n")
}

/// Adds the line of a named text, where there is one.
fn add_text(out: &mut Bytes, name: &str, text: &Option<Text>) -> Result<(), NoMemory>
    ensures { OnOk result (out.new ≡ out.old ++ named_line_if name.now text.now) }
{
    match text {
        Some(text) => add_line(out, name, text.as_str()),
        None => Ok(()),
    }
}

/// The same of an end name.
fn add_name(out: &mut Bytes, name: &str, end: &Option<EndName>) -> Result<(), NoMemory>
    ensures { OnOk result (out.new ≡ out.old ++ named_line_if name.now end.now) }
{
    match end {
        Some(end) => add_line(out, name, end.as_str()),
        None => Ok(()),
    }
}

fn add_param(out: &mut Bytes, param: &Param) -> Result<(), NoMemory>
    ensures { OnOk result (out.new ≡ out.old ++ param_line param.now) }
{
    out.extend(b"param ")?;
    out.extend(param.name.as_str().as_bytes())?;
    out.extend(b" ")?;
    out.extend(param.value.as_str().as_bytes())?;
    out.extend(b"\n")
}

fn add_params(out: &mut Bytes, params: &[Param]) -> Result<(), NoMemory>
    ensures { OnOk result (out.new ≡ out.old ++ concat (map param_line params.now)) }
{
    for param in params {
        add_param(out, param)?;
    }
    Ok(())
}

/// The lines that show a message: one each for its role, its origin, and where they are there its response, its stamp,
/// each named value and its result. Texts are written as they are.
pub fn show_message(alloc: Global, message: &Message) -> Result<Bytes, NoMemory>
    ensures { IfOk result (λ lines. lines ≡ shown message.now) }
{
    let mut out = Bytes::new(alloc);
    add_line(&mut out, "transport", message.role.word())?;
    add_line(&mut out, "origin", message.origin.as_str())?;
    add_name(&mut out, "response", &message.response)?;
    add_text(&mut out, "stamp", &message.stamp)?;
    add_params(&mut out, message.params.as_slice())?;
    add_text(&mut out, "result", &message.result)?;
    Ok(out)
}
