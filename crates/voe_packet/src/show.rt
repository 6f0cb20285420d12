//! The lines that show a packet.

ghost use Rattle.std.specs.Prelude.{◌≡◌, ◌++◌, IfOk, OnOk, codes, map, unwrap_or};
ghost use Rattle.std.specs.List.{concat};
ghost use Rattle.voe_packet.specs.Params.{param_line};
ghost use Rattle.voe_packet.specs.Shown.{citation_line, line, line_if, position_line, shown_packet};

use crate::packet::{Citation, Packet, Position};
use crate::param::Param;
use crate::words::{cite_word, role_word};
use std::alloc::Global;
use voe_values::{Listing, NoMemory, Text};

/// The lines that show a packet: `identifier ID`, `role ROLE`, then where they stand `author TEXT` and `date TEXT`,
/// `param NAME VALUE` and `time TEXT` for each, `position C1 C2 RADIUS` with `-` for a missing radius, and
/// `cite KIND ID` for each. Texts stand as they are, and each line ends in LF.
pub fn show_packet(alloc: Global, packet: &Packet) -> Result<Text, NoMemory>
    ensures { IfOk result (λ shown. shown ≡ shown_packet packet.now) }
{
    let mut shown = Text::new(alloc);
    add_line(&mut shown, "identifier", packet.identifier.as_str())?;
    add_line(&mut shown, "role", role_word(packet.role))?;
    add_line_if(&mut shown, "author", &packet.author)?;
    add_line_if(&mut shown, "date", &packet.date)?;
    add_params(&mut shown, &packet.params)?;
    add_times(&mut shown, &packet.times)?;
    add_position(&mut shown, &packet.position)?;
    add_citations(&mut shown, &packet.citations)?;
    Ok(shown)
}

fn add_line(shown: &mut Text, word: &str, text: &str) -> Result<(), NoMemory>
    ensures { OnOk result (shown.new ≡ shown.old ++ line word.now text.now) }
{
    shown.push_str(word)?;
    shown.push_str(" ")?;
    shown.push_str(text)?;
    shown.push_str("\n")
}

fn add_line_if(shown: &mut Text, word: &str, text: &Option<Text>) -> Result<(), NoMemory>
    ensures { OnOk result (shown.new ≡ shown.old ++ line_if word.now text.now) }
{
    match text {
        None => Ok(()),
        Some(text) => add_line(shown, word, text.as_str()),
    }
}

fn add_params(shown: &mut Text, params: &Listing<Param>) -> Result<(), NoMemory>
    ensures { OnOk result (shown.new ≡ shown.old ++ concat (map param_line params.now)) }
{
    for param in params.as_slice() {
        add_param(shown, param)?;
    }
    Ok(())
}

fn add_param(shown: &mut Text, param: &Param) -> Result<(), NoMemory>
    ensures { OnOk result (shown.new ≡ shown.old ++ param_line param.now) }
{
    shown.push_str("param ")?;
    shown.push_str(param.name.as_str())?;
    shown.push_str(" ")?;
    shown.push_str(param.value.as_str())?;
    shown.push_str("\n")
}

fn add_times(shown: &mut Text, times: &Listing<Text>) -> Result<(), NoMemory>
    ensures { OnOk result (shown.new ≡ shown.old ++ concat (map (line (codes "time")) times.now)) }
{
    for time in times.as_slice() {
        add_line(shown, "time", time.as_str())?;
    }
    Ok(())
}

fn add_position(shown: &mut Text, position: &Option<Position>) -> Result<(), NoMemory>
    ensures { OnOk result (shown.new ≡ shown.old ++ position_line position.now) }
{
    match position {
        None => Ok(()),
        Some(position) => {
            shown.push_str("position ")?;
            shown.push_str(position.c1.as_str())?;
            shown.push_str(" ")?;
            shown.push_str(position.c2.as_str())?;
            shown.push_str(" ")?;
            shown.push_str(text_or_dash(&position.radius))?;
            shown.push_str("\n")
        }
    }
}

fn text_or_dash(text: &Option<Text>) -> &str
    ensures { result.now ≡ unwrap_or text.now (codes "-") }
{
    match text {
        None => "-",
        Some(text) => text.as_str(),
    }
}

fn add_citations(shown: &mut Text, citations: &Listing<Citation>) -> Result<(), NoMemory>
    ensures { OnOk result (shown.new ≡ shown.old ++ concat (map citation_line citations.now)) }
{
    for citation in citations.as_slice() {
        add_citation(shown, citation)?;
    }
    Ok(())
}

fn add_citation(shown: &mut Text, citation: &Citation) -> Result<(), NoMemory>
    ensures { OnOk result (shown.new ≡ shown.old ++ citation_line citation.now) }
{
    shown.push_str("cite ")?;
    shown.push_str(cite_word(citation.kind))?;
    shown.push_str(" ")?;
    shown.push_str(citation.identifier.as_str())?;
    shown.push_str("\n")
}
