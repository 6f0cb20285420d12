//! The line of a packet, and the packet that it gives.

ghost use Rattle.std.specs.Prelude.{◌≡◌, ◌≤◌, ◌<◌, IfOk, IsTrue, MatchOption, length, map};
ghost use Rattle.std.specs.List.{list_all, list_any, before_first, after_first};
ghost use Rattle.voe_values.specs.Identifier.{IsIdentifier};
ghost use Rattle.voe_packet.specs.Drafts.{has_xml_texts, packet_text};
ghost use Rattle.voe_scenario.specs.Grammar.{has_equals as has_equals_sign, is_equals, packet_said, packet_words_said, param_in, role_said};
ghost use Rattle.voe_scenario.specs.Refusals.{has_param_name as has_name_of_param, is_param_character};
ghost use Rattle.voe_scenario.specs.Statements.{Means, packet_meant, words_in};
ghost use Rattle.voe_scenario.specs.Words.{words_of};

use crate::statement::Statement;
use crate::words::cut_word;
use std::alloc::Global;
use voe_packet::{Draft, Param, write_packet};
use voe_values::{Bytes, Ivorn, Listing, NoMemory, Role, Text};

/// A packet, by its identifier, its role and the words of its parameters.
#[derive(Clone, Copy)]
pub struct SaidPacket<'a> {
    pub identifier: &'a str,
    pub role: Role,
    /// What stands behind the role: words of which each has a `=`.
    pub params: Option<&'a str>,
}

/// What a packet is for (VOEvent 2.0, "role").
fn role_of(word: &str) -> Option<Role>
    ensures { result ≡ role_said word.now }
{
    match word {
        "observation" => Some(Role::Observation),
        "prediction" => Some(Role::Prediction),
        "utility" => Some(Role::Utility),
        "test" => Some(Role::Test),
        _ => None,
    }
}

fn has_equals(word: &str) -> bool
    ensures { result ≡ has_equals_sign word.now }
{
    word.as_bytes().iter().any(|byte| *byte == b'=')
}

/// Tells whether each of the words has a `=`.
fn are_params(words: Option<&str>) -> bool
    ensures { result ≡ list_all has_equals_sign (words_in words.entry) }
{
    let mut rest = words;
    while let Some(words) = rest {
        let (word, behind) = cut_word(words);
        if !has_equals(word) {
            return false;
        }
        rest = behind;
    }
    true
}

/// A packet, by its identifier, its role and the words behind them.
fn packet_of<'a>(identifier: &'a str, role: &str, params: Option<&'a str>) -> Option<Statement<'a>>
    ensures { Means result (packet_said identifier.now role.now (words_in params.entry)) }
{
    if identifier.is_empty() {
        return None;
    }
    let role = role_of(role)?;
    if are_params(params) {
        Some(Statement::Packet(SaidPacket {
            identifier,
            role,
            params,
        }))
    } else {
        None
    }
}

/// A packet, by the words behind its own.
pub fn read_packet_line(arguments: &str) -> Option<Statement<'_>>
    ensures { Means result (packet_words_said (words_of arguments.now)) }
{
    let (identifier, rest) = cut_word(arguments);
    let Some(rest) = rest else {
        return None;
    };
    let (role, params) = cut_word(rest);
    packet_of(identifier, role, params)
}

/// How many parameters these words are.
pub fn count_params(words: Option<&str>) -> usize
    ensures { result ≡ length (words_in words.entry) }
{
    let mut count = 0;
    let mut rest = words;
    while let Some(words) = rest {
        let (_, behind) = cut_word(words);
        count += 1;
        rest = behind;
    }
    count
}

/// What stands before the first `=` of a word, and what stands behind it.
fn cut_param(word: &str) -> (&str, &str)
    ensures name { result.0.now ≡ before_first is_equals word.now }
    ensures value { result.1.now ≡ after_first is_equals word.now }
{
    match word.split_once('=') {
        Some((name, value)) => (name, value),
        None => (word, ""),
    }
}

fn is_param_byte(byte: u8) -> bool
    ensures { result ≡ is_param_character byte }
{
    (byte >= b'a' && byte <= b'z')
        || (byte >= b'A' && byte <= b'Z')
        || (byte >= b'0' && byte <= b'9')
        || byte == b'_'
        || byte == b'-'
        || byte == b'.'
}

fn are_param_bytes(name: &[u8]) -> bool
    ensures { result ≡ list_all is_param_character name.now }
{
    name.iter().all(|byte| is_param_byte(*byte))
}

/// Tells whether the name of a parameter is one.
fn has_param_name(word: &str) -> bool
    ensures { result ≡ has_name_of_param (param_in word.now) }
{
    let (name, _) = cut_param(word);
    name.len() > 0 && are_param_bytes(name.as_bytes())
}

/// Tells whether the name of each parameter is one.
pub fn have_param_names(words: Option<&str>) -> bool
    ensures { result ≡ list_all has_name_of_param (map param_in (words_in words.entry)) }
{
    let mut rest = words;
    while let Some(words) = rest {
        let (word, behind) = cut_word(words);
        if !has_param_name(word) {
            return false;
        }
        rest = behind;
    }
    true
}

fn read_param(alloc: Global, word: &str) -> Result<Param, NoMemory>
    ensures { IfOk result (λ param. param ≡ param_in word.now) }
{
    let (name, value) = cut_param(word);
    let name = Text::of(alloc, name)?;
    let value = Text::of(alloc, value)?;
    Ok(Param { name, value })
}

fn read_params(alloc: Global, words: Option<&str>) -> Result<Listing<Param>, NoMemory>
    ensures { IfOk result (λ params. params ≡ map param_in (words_in words.entry)) }
{
    let mut params: Listing<Param> = Listing::new(alloc);
    let mut rest = words;
    while let Some(words) = rest {
        let (word, behind) = cut_word(words);
        let param = read_param(alloc, word)?;
        if let Err((_, fault)) = params.push(param) {
            return Err(fault);
        }
        rest = behind;
    }
    Ok(params)
}

/// The draft of a packet.
fn draft_of(alloc: Global, packet: SaidPacket<'_>) -> Result<Draft, NoMemory>
    requires { IsIdentifier packet.identifier.now }
    ensures { IfOk result (λ draft. draft ≡ packet_meant packet.entry) }
{
    let identifier = Ivorn::of(alloc, packet.identifier)?;
    let params = read_params(alloc, packet.params)?;
    Ok(Draft {
        identifier,
        role: packet.role,
        params,
        citations: Listing::new(alloc),
    })
}

/// The bytes of a packet, which its line keeps far below what a packet may have.
pub fn packet_bytes(alloc: Global, packet: SaidPacket<'_>) -> Result<Bytes, NoMemory>
    requires identifier { IsIdentifier packet.identifier.now }
    requires texts { IsTrue (has_xml_texts (packet_meant packet)) }
    ensures { IfOk result (λ bytes. bytes ≡ packet_text (packet_meant packet.entry)) }
{
    let draft = draft_of(alloc, packet)?;
    match write_packet(alloc, &draft) {
        Ok(bytes) => Ok(bytes),
        Err(_) => Err(NoMemory),
    }
}
