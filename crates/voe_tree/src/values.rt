//! The texts that runs and values read as (XML 1.0, sections 2.11 and 3.3.3).

ghost use Rattle.std.specs.Prelude.{◌≡◌, ◌<◌, ◌≤◌, ◌++◌, ◌∷◌, true, false, IfNone, IfOk, IfSome, OnOk, [], length, slice_index};
ghost use Rattle.std.specs.List.{before_first, list_all, prefix_len};
ghost use Rattle.xml_lexer.specs.Characters.{is_blank};
ghost use Rattle.voe_tree.specs.Build.{behind_return, with_line_feeds};
ghost use Rattle.voe_tree.specs.Names.{is_plain_byte, is_semicolon, read_value, value_text};

use std::alloc::Global;
use voe_values::{NoMemory, Text};
use xml_lexer::named_character;

/// Whether the run is all blanks.
pub fn is_all_blanks(run: &str) -> bool
    ensures { result ≡ list_all is_blank run.now }
{
    run.as_bytes()
        .iter()
        .all(|byte| crate::contents::is_blank(*byte))
}

/// The text before the first carriage return, and the text behind it.
fn split_return(run: &str) -> Option<(&str, &str)>
    ensures none { IfNone result (with_line_feeds run.now ≡ run.now) }
    ensures parts { IfSome result (λ parts. with_line_feeds run.now ≡ parts.0.now ++ behind_return parts.1.now) }
    ensures less { IfSome result (λ parts. length parts.1.now < length run.now) }
{
    run.split_once('\r')
}

/// Adds what a run reads as: a line ends in a line feed.
pub fn append_run(text: &mut Text, run: &str) -> Result<(), NoMemory>
    ensures { OnOk result (text.new ≡ text.old ++ with_line_feeds run.now) }
{
    let mut rest = run;
    while let Some((plain, behind)) = split_return(rest) {
        text.push_str(plain)?;
        if behind.as_bytes().first() != Some(&b'\n') {
            text.push('\n')?;
        }
        rest = behind;
    }
    text.push_str(rest)
}

fn is_plain_byte(byte: u8) -> bool
    ensures { result ≡ is_plain_byte byte }
{
    !matches!(byte, b'&' | b'\t' | b'\n' | b'\r')
}

/// How many bytes at the front stand for themselves in a value.
fn plain_len(bytes: &[u8]) -> usize
    ensures value { result ≡ prefix_len is_plain_byte bytes.now }
    ensures within { result ≤ length bytes.now }
    ensures stops { result < length bytes.now → is_plain_byte (slice_index bytes.now result) ≡ false }
{
    let mut len = 0;
    while len < bytes.len() && is_plain_byte(bytes[len]) {
        len += 1;
    }
    len
}

/// The front that stands for itself in a value, and the text behind it.
fn plain_front(rest: &str) -> (&str, &str)
    ensures reads { value_text false rest.now ≡ result.0.now ++ value_text false result.1.now }
    ensures stops { 0 < length result.1.now → is_plain_byte (slice_index result.1.now 0) ≡ false }
    ensures less { length result.1.now ≤ length rest.now }
{
    rest.split_at(plain_len(rest.as_bytes()))
}

/// The first byte, which is ASCII, and the text behind it.
fn split_byte(text: &str) -> Option<(u8, &str)>
    requires { 0 < length text.now → is_plain_byte (slice_index text.now 0) ≡ false }
    ensures none { IfNone result (text.now ≡ []) }
    ensures some { IfSome result (λ x. text.now ≡ x.0 ∷ x.1.now) }
    ensures special { IfSome result (λ x. is_plain_byte x.0 ≡ false) }
{
    match text.as_bytes() {
        [] => None,
        [first, ..] => {
            let (_, left) = text.split_at(1);
            Some((*first, left))
        }
    }
}

/// What a value reads as: its references are characters, and its line ends and tabs are spaces.
pub fn read_value(alloc: Global, value: &str) -> Result<Text, NoMemory>
    ensures { IfOk result (λ text. text ≡ read_value value.now) }
{
    let mut text = Text::new(alloc);
    let mut rest = value;
    loop {
        let (plain, behind) = plain_front(rest);
        text.push_str(plain)?;
        match split_byte(behind) {
            None => return Ok(text),
            Some((special, left)) => rest = append_special(&mut text, special, left)?,
        }
    }
}

/// The text before the first semicolon, and the text behind it.
fn split_reference(rest: &str) -> (&str, &str)
    ensures body { result.0.now ≡ before_first is_semicolon rest.now }
    ensures behind { value_text true rest.now ≡ value_text false result.1.now }
    ensures less { length result.1.now ≤ length rest.now }
{
    match rest.split_once(';') {
        None => (rest, ""),
        Some((body, left)) => (body, left),
    }
}

/// Adds what a byte reads as that does not stand for itself, with the text behind it if it begins a reference. Gives
/// what is left.
fn append_special<'v>(text: &mut Text, special: u8, rest: &'v str) -> Result<&'v str, NoMemory>
    requires { is_plain_byte special ≡ false }
    ensures reads { IfOk result (λ left. text.new ++ value_text false left.now ≡ text.old ++ value_text false (special ∷ rest.now)) }
    ensures less { IfOk result (λ left. length left.now ≤ length rest.now) }
{
    match special {
        b'&' => {
            let (body, left) = split_reference(rest);
            text.push(named_character(body.as_bytes()).unwrap_or(' '))?;
            Ok(left)
        }
        b'\r' if rest.as_bytes().first() == Some(&b'\n') => Ok(rest),
        _ => {
            text.push(' ')?;
            Ok(rest)
        }
    }
}
