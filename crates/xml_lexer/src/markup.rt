//! What is spelled by its first and its last bytes: comments, instructions, CDATA sections and the declaration.

ghost use Rattle.std.specs.Prelude.{◌≡◌, ◌≤◌, ◌<◌, ◌+◌, length, option_map, codes, slice_index, IfSome};
ghost use Rattle.std.specs.List.{prefix_len};
ghost use Rattle.std.specs.Str.{IsCharBoundary, str_eq_ignore_ascii_case};
ghost use Rattle.xml_lexer.specs.Scan.{find_at, up_to_at, instruction_at, plain_value_behind as behind_quote, plain_value_at, part_at, optional_at, parts_at, declaration_at};
ghost use Rattle.xml_lexer.specs.Characters.{is_name_byte as in_target};
ghost use Rattle.xml_lexer.specs.Spelling.{is_value_byte as in_value};

use crate::characters::{is_name, is_name_byte, skip_blanks, starts_with_blank};
use crate::scan::{behind_first, byte, literal};
use memchr::memmem;

/// Where `ending` first stands.
fn find(ending: &str, text: &str) -> Option<usize>
    requires { 0 < length ending.now }
    ensures value { result ≡ find_at ending.now text.now }
    ensures within { IfSome result (λ at. at < length text.now) }
    ensures first { IfSome result (λ at. slice_index text.now at ≡ slice_index ending.now 0) }
{
    memmem::find(text.as_bytes(), ending.as_bytes())
}

/// What stands before the first `ending`.
#[tactic(auto, unfolding(crate::specs::Scan::up_to_at))]
pub fn up_to<'a>(ending: &str, text: &'a str) -> Option<(&'a str, &'a str)>
    requires some { 0 < length ending.now }
    requires ascii { slice_index ending.now 0 < 128 }
    ensures { option_map (λ x. (x.0.now, x.1.now)) result ≡ up_to_at ending.now text.now }
{
    let at = find(ending, text)?;
    let (body, rest) = text.split_at(at);
    Some((body, literal(ending, rest)?))
}

fn target_len(text: &str) -> usize
    ensures value { result ≡ prefix_len in_target text.now }
    ensures boundary { IsCharBoundary text.now result }
{
    let bytes = text.as_bytes();
    let mut len = 0;
    while len < bytes.len() && is_name_byte(bytes[len]) {
        len += 1;
    }
    len
}

fn is_xml(target: &str) -> bool
    ensures { result ≡ str_eq_ignore_ascii_case target.now (codes "xml") }
{
    target.eq_ignore_ascii_case("xml")
}

/// Behind `<?`: the text behind the instruction.
#[tactic(auto, unfolding(crate::specs::Scan::instruction_at))]
pub fn instruction(text: &str) -> Option<&str>
    ensures { option_map (λ x. x.now) result ≡ instruction_at text.now }
{
    let (target, rest) = text.split_at(target_len(text));
    if !is_name(target.as_bytes()) || is_xml(target) {
        return None;
    }
    let (body, rest) = up_to("?>", rest)?;
    if body.is_empty() || starts_with_blank(body) {
        Some(rest)
    } else {
        None
    }
}

fn plain_value_len(quote: u8, text: &str) -> usize
    requires { quote < 128 }
    ensures value { result ≡ prefix_len (in_value quote) text.now }
    ensures boundary { IsCharBoundary text.now result }
{
    let bytes = text.as_bytes();
    let mut len = 0;
    while len < bytes.len() && bytes[len] != b'<' && bytes[len] != quote {
        len += 1;
    }
    len
}

#[tactic(auto, unfolding(crate::specs::Scan::plain_value_behind))]
fn plain_value_behind(quote: u8, text: &str) -> Option<(&str, &str)>
    requires { quote < 128 }
    ensures { option_map (λ x. (x.0.now, x.1.now)) result ≡ behind_quote quote text.now }
{
    let (value, rest) = text.split_at(plain_value_len(quote, text));
    let rest = byte(quote, rest)?;
    Some((value, rest))
}

/// A value in quotes, without `<`.
#[tactic(auto, unfolding(crate::specs::Scan::plain_value_at))]
fn plain_value(text: &str) -> Option<(&str, &str)>
    ensures { option_map (λ x. (x.0.now, x.1.now)) result ≡ plain_value_at text.now }
{
    match text.as_bytes() {
        [b, ..] if *b == b'"' || *b == b'\'' => plain_value_behind(*b, behind_first(text)),
        _ => None,
    }
}

/// A part of the declaration, with the blanks before it.
#[tactic(auto, unfolding(crate::specs::Scan::part_at))]
fn part<'a>(name: &str, text: &'a str) -> Option<(&'a str, &'a str)>
    ensures { option_map (λ x. (x.0.now, x.1.now)) result ≡ part_at name.now text.now }
{
    if !starts_with_blank(text) {
        return None;
    }
    let rest = literal(name, skip_blanks(text))?;
    let rest = byte(b'=', skip_blanks(rest))?;
    plain_value(skip_blanks(rest))
}

fn optional_part<'a>(name: &str, text: &'a str) -> (Option<&'a str>, &'a str)
    ensures { (option_map (λ v. v.now) result.0, result.1.now) ≡ optional_at name.now text.now }
{
    match part(name, text) {
        None => (None, text),
        Some((value, rest)) => (Some(value), rest),
    }
}

/// The encoding that the declaration names, and the text behind it.
#[tactic(auto, unfolding(crate::specs::Scan::declaration_at))]
pub fn declaration(text: &str) -> Option<(Option<&str>, &str)>
    ensures { option_map (λ x. (option_map (λ v. v.now) x.0, x.1.now)) result ≡ declaration_at text.now }
{
    let rest = literal("<?xml", text)?;
    let (version, rest) = optional_part("version", rest);
    let (encoding, rest) = optional_part("encoding", rest);
    let (standalone, rest) = optional_part("standalone", rest);
    let rest = literal("?>", skip_blanks(rest))?;
    if version.is_none() && encoding.is_none() && standalone.is_none() {
        return None;
    }
    Some((encoding, rest))
}
