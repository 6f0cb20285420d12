//! Reads what stands at the front of a text. Each function gives it with the text behind it.

ghost use Rattle.std.specs.Prelude.{◌≡◌, ◌≤◌, ◌<◌, ◌+◌, ◌==◌, length, drop, option_map, Some, None, IfOk, IfSome, slice_index};
ghost use Rattle.std.specs.Str.{IsCharBoundary, IsAscii};
ghost use Rattle.xml_lexer.specs.Scan.{name_at, byte_at, literal_at, reference_at, value_len as spec_value_len, value_at, quoted_at, attribute_at, tag_end_at, no_attributes_at, attributes_at, end_tag_at};
ghost use Rattle.xml_lexer.specs.Spelling.{max_attributes};
ghost use Rattle.xml_lexer.specs.View.{spelled, all_spelled};

use crate::characters::{is_spelled_name, name_len, skip_blanks, starts_with_blank};
use crate::reference;
use crate::token::SpelledAttribute;
use std::alloc::{AllocError, Global};

/// Behind the first byte, which is ASCII.
#[tactic(auto, using(crate::proofs::Boundaries::behind_first))]
pub fn behind_first(text: &str) -> &str
    requires some { 0 < length text.now }
    requires ascii { slice_index text.now 0 < 128 }
    ensures { result.now ≡ drop 1 text.now }
{
    let _bytes = text.as_bytes();
    text.split_at(1).1
}

/// Behind the first byte, where that is `wanted`.
pub fn byte(wanted: u8, text: &str) -> Option<&str>
    requires { wanted < 128 }
    ensures { option_map (λ rest. rest.now) result ≡ byte_at wanted text.now }
{
    match text.as_bytes() {
        [b, ..] if *b == wanted => Some(behind_first(text)),
        _ => None,
    }
}

/// Behind `front`, where the text begins with it.
pub fn literal<'a>(front: &str, text: &'a str) -> Option<&'a str>
    ensures { option_map (λ rest. rest.now) result ≡ literal_at front.now text.now }
{
    let bytes = text.as_bytes();
    let begin = front.as_bytes();
    if bytes.starts_with(begin) {
        Some(text.split_at(begin.len()).1)
    } else {
        None
    }
}

#[tactic(auto, unfolding(crate::specs::Scan::name_at))]
pub fn name(text: &str) -> Option<(&str, &str)>
    ensures { option_map (λ x. (x.0.now, x.1.now)) result ≡ name_at text.now }
{
    let (name, rest) = text.split_at(name_len(text));
    if is_spelled_name(name.as_bytes()) {
        Some((name, rest))
    } else {
        None
    }
}

/// Behind `</`.
#[tactic(auto, unfolding(crate::specs::Scan::end_tag_at))]
pub fn end_tag(text: &str) -> Option<(&str, &str)>
    ensures { option_map (λ x. (x.0.now, x.1.now)) result ≡ end_tag_at text.now }
{
    let (name, rest) = name(text)?;
    let rest = byte(b'>', skip_blanks(rest))?;
    Some((name, rest))
}

/// Behind `&`.
#[tactic(auto, using(crate::proofs::Boundaries::behind_ascii))]
pub fn reference(text: &str) -> Option<(char, &str)>
    ensures { option_map (λ x. (x.0, x.1.now)) result ≡ reference_at text.now }
{
    match reference::reference(text.as_bytes()) {
        None => None,
        Some((character, end)) => Some((character, text.split_at(end + 1).1)),
    }
}

fn value_len(quote: u8, bytes: &[u8]) -> Option<usize>
    ensures value { result ≡ spec_value_len quote bytes.now }
    ensures within { IfSome result (λ len. len < length bytes.now) }
    ensures end { IfSome result (λ len. slice_index bytes.now len ≡ quote) }
{
    for (i, b) in bytes.iter().enumerate() {
        if *b == quote {
            return Some(i);
        }
        if *b == b'<' || (*b == b'&' && reference::reference(&bytes[i + 1..]).is_none()) {
            return None;
        }
    }
    None
}

/// Behind the opening quote.
#[tactic(auto, unfolding(crate::specs::Scan::value_at))]
fn value(quote: u8, text: &str) -> Option<(&str, &str)>
    requires { quote < 128 }
    ensures { option_map (λ x. (x.0.now, x.1.now)) result ≡ value_at quote text.now }
{
    let len = value_len(quote, text.as_bytes())?;
    let (value, rest) = text.split_at(len);
    Some((value, behind_first(rest)))
}

#[tactic(auto, unfolding(crate::specs::Scan::quoted_at))]
fn quoted(text: &str) -> Option<(&str, &str)>
    ensures { option_map (λ x. (x.0.now, x.1.now)) result ≡ quoted_at text.now }
{
    match text.as_bytes() {
        [b, ..] if *b == b'"' || *b == b'\'' => value(*b, behind_first(text)),
        _ => None,
    }
}

/// Behind the blanks before it.
#[tactic(auto, unfolding(crate::specs::Scan::attribute_at))]
fn attribute(text: &str) -> Option<(SpelledAttribute<'_>, &str)>
    ensures { option_map (λ x. (spelled x.0, x.1.now)) result ≡ attribute_at text.now }
{
    let (name, rest) = name(text)?;
    let rest = byte(b'=', skip_blanks(rest))?;
    let (value, rest) = quoted(skip_blanks(rest))?;
    Some((SpelledAttribute { name, value }, rest))
}

/// The end of a start tag, and whether it is `/>`.
fn tag_end(text: &str) -> Option<(bool, &str)>
    ensures { option_map (λ x. (x.0, x.1.now)) result ≡ tag_end_at text.now }
{
    match text.as_bytes() {
        [b'>', ..] => Some((false, behind_first(text))),
        [b'/', ..] => Some((true, byte(b'>', behind_first(text))?)),
        _ => None,
    }
}

const MAX_ATTRIBUTES: usize = 64;

/// The attributes behind the name of a start tag, and whether it ends in `/>`.
pub fn attributes(
    alloc: Global,
    text: &str,
) -> Result<Option<(Vec<SpelledAttribute<'_>>, bool, &str)>, AllocError>
    ensures { IfOk result (λ found.
        option_map (λ x. ((all_spelled x.0.items, x.1), x.2.now)) found ≡ attributes_at max_attributes text.now) }
{
    let mut attributes = Vec::new(alloc);
    let mut rest = text;
    for _ in 0..MAX_ATTRIBUTES {
        let ahead = skip_blanks(rest);
        if let Some((is_empty, after)) = tag_end(ahead) {
            return Ok(Some((attributes, is_empty, after)));
        }
        if !starts_with_blank(rest) {
            return Ok(None);
        }
        let Some((attribute, after)) = attribute(ahead) else {
            return Ok(None);
        };
        attributes.push(attribute)?;
        rest = after;
    }
    match tag_end(skip_blanks(rest)) {
        None => Ok(None),
        Some((is_empty, after)) => Ok(Some((attributes, is_empty, after))),
    }
}
