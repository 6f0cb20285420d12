//! Reads what stands at the front of a text. Each function gives it with the text behind it.

ghost use Rattle.std.specs.Prelude.{◌≡◌, ◌≤◌, ◌<◌, ◌+◌, length, drop, option_map, slice_index, IfOk};
ghost use Rattle.xml_lexer.specs.Scan.{byte_at};
ghost use Rattle.filter_tokens.specs.Scan.{behind_digits, behind_fraction, literal_at, name_at, single, or_longer, differs_at, other_at, mark_at, token_at, cut_of};
ghost use Rattle.filter_tokens.specs.TokenView.{token_view, placed_views};

use crate::characters::{are_xml, digits_len, name_len, skip_blanks, starts_name, value_len};
use crate::token::{Placed, Token};
use std::alloc::Global;
use voe_values::NoMemory;

/// Behind the first byte, which is ASCII.
#[tactic(auto, using(xml_lexer::proofs::Boundaries::behind_first))]
fn behind_first(text: &str) -> &str
    requires some { 0 < length text.now }
    requires ascii { slice_index text.now 0 < 128 }
    ensures { result.now ≡ drop 1 text.now }
{
    let _bytes = text.as_bytes();
    text.split_at(1).1
}

/// Behind the first byte, where that is `wanted`.
fn byte(wanted: u8, text: &str) -> Option<&str>
    requires { wanted < 128 }
    ensures { option_map (λ rest. rest.now) result ≡ byte_at wanted text.now }
{
    match text.as_bytes() {
        [b, ..] if *b == wanted => Some(behind_first(text)),
        _ => None,
    }
}

fn behind_digits(text: &str) -> &str
    ensures { result.now ≡ behind_digits text.now }
{
    text.split_at(digits_len(text)).1
}

/// Behind a point and its digits, where a point stands.
fn behind_fraction(text: &str) -> &str
    ensures { result.now ≡ behind_fraction text.now }
{
    match text.as_bytes() {
        [b'.', ..] => behind_digits(behind_first(text)),
        _ => text,
    }
}

#[tactic(auto, unfolding(crate::specs::Scan::name_at))]
fn name(text: &str) -> (Token<'_>, &str)
    ensures { (token_view result.0, result.1.now) ≡ name_at text.now }
{
    let (name, rest) = text.split_at(name_len(text));
    (Token::Name(name), rest)
}

/// Behind the opening quote.
#[tactic(auto, unfolding(crate::specs::Scan::literal_at))]
fn literal(quote: u8, text: &str) -> Option<(Token<'_>, &str)>
    requires { quote < 128 }
    ensures { option_map (λ x. (token_view x.0, x.1.now)) result ≡ literal_at quote text.now }
{
    let (value, rest) = text.split_at(value_len(quote, text));
    let rest = byte(quote, rest)?;
    if are_xml(value) {
        Some((Token::Literal(value), rest))
    } else {
        None
    }
}

/// The token of this one byte, where no longer one begins with it.
fn single<'a>(b: u8) -> Option<Token<'a>>
    ensures { option_map token_view result ≡ single b }
{
    match b {
        b'[' => Some(Token::OpeningBracket),
        b']' => Some(Token::ClosingBracket),
        b'(' => Some(Token::OpeningParenthesis),
        b')' => Some(Token::ClosingParenthesis),
        b'@' => Some(Token::AtSign),
        b'*' => Some(Token::Star),
        b'=' => Some(Token::Equals),
        b'$' | b'+' | b',' | b'-' | b'|' => Some(Token::Foreign),
        _ => None,
    }
}

/// A token, or the longer one that its next byte makes.
fn or_longer<'a>(
    behind: Option<&'a str>,
    longer: Token<'a>,
    shorter: Token<'a>,
    rest: &'a str,
) -> Option<(Token<'a>, &'a str)>
    ensures { option_map (λ x. (token_view x.0, x.1.now)) result
        ≡ or_longer (option_map (λ x. x.now) behind.entry) (token_view longer.entry) (token_view shorter.entry) rest.now }
{
    match behind {
        Some(behind) => Some((longer, behind)),
        None => Some((shorter, rest)),
    }
}

fn differs(text: &str) -> Option<(Token<'_>, &str)>
    ensures { option_map (λ x. (token_view x.0, x.1.now)) result ≡ differs_at text.now }
{
    let rest = byte(b'=', text)?;
    Some((Token::Differs, rest))
}

/// The token of which this is the first byte, where it is none of `single`, and the text goes on behind it.
fn other(b: u8, text: &str) -> Option<(Token<'_>, &str)>
    ensures { option_map (λ x. (token_view x.0, x.1.now)) result ≡ other_at b text.now }
{
    match b {
        b'/' => or_longer(byte(b'/', text), Token::DoubleSlash, Token::Slash, text),
        b'!' => differs(text),
        b'"' | b'\'' => literal(b, text),
        b'.' => or_longer(
            byte(b'.', text),
            Token::Foreign,
            Token::Foreign,
            behind_digits(text),
        ),
        b':' => or_longer(byte(b':', text), Token::Foreign, Token::Foreign, text),
        b'<' | b'>' => or_longer(byte(b'=', text), Token::Foreign, Token::Foreign, text),
        _ => None,
    }
}

#[tactic(auto, unfolding(crate::specs::Scan::mark_at))]
fn mark(b: u8, text: &str) -> Option<(Token<'_>, &str)>
    ensures { option_map (λ x. (token_view x.0, x.1.now)) result ≡ mark_at b text.now }
{
    match single(b) {
        Some(token) => Some((token, text)),
        None => other(b, text),
    }
}

/// The longest token at the front.
#[tactic(auto, using(crate::proofs::Suffixes::low_mark), unfolding(crate::specs::Scan::token_at))]
fn token(text: &str) -> Option<(Token<'_>, &str)>
    ensures { option_map (λ x. (token_view x.0, x.1.now)) result ≡ token_at text.now }
{
    match text.as_bytes() {
        [] => None,
        [b, ..] => {
            if starts_name(*b) {
                return Some(name(text));
            }
            if b.is_ascii_digit() {
                return Some((Token::Foreign, behind_fraction(behind_digits(text))));
            }
            mark(*b, behind_first(text))
        }
    }
}

/// The longest list of whole tokens from the front, with blanks between, and what follows it.
pub fn tokens(alloc: Global, text: &str) -> Result<(Vec<Placed<'_>>, &str), NoMemory>
    ensures { IfOk result (λ cut. (placed_views cut.0.items, cut.1.now) ≡ cut_of text.now) }
{
    let mut tokens = Vec::new(alloc);
    let mut rest = skip_blanks(text);
    for _ in 0..text.len() {
        match token(rest) {
            None => return Ok((tokens, rest)),
            Some((token, behind)) => {
                let place = text.len() - rest.len();
                tokens.push(Placed { token, place })?;
                rest = skip_blanks(behind);
            }
        }
    }
    Ok((tokens, rest))
}
