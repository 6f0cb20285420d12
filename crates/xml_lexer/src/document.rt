//! The tokens of a document, or why it has none.

ghost use Rattle.std.specs.Prelude.{◌≡◌, ◌+◌, ◌≤◌, ◌<◌, ◌^◌, length, drop, codes, IfOk, IfSome, MatchResult, IsUtf8, nat_lt, position};
ghost use Rattle.std.specs.Str.{str_eq_ignore_ascii_case};
ghost use Rattle.xml_lexer.specs.Phases.{mark_len as front_mark, IsTokensOf};
ghost use Rattle.xml_lexer.specs.Refusal.{Refuses};
ghost use Rattle.xml_lexer.specs.Reading.{foreign_in, foreign_at, cut_behind, cut_at, stop_at, AreTokensOf, RefusesBehind};
ghost use Rattle.xml_lexer.specs.View.{token_views};

use crate::fault::TokenFault;
use crate::front::front_len;
use crate::lexer::tokens_from;
use crate::markup::declaration;
use crate::token::Token;
use simdutf8::compat;
use std::alloc::{AllocError, Global};

const MAX_TOKENS: usize = 65_536;

/// How many bytes a byte order mark at the front takes.
fn mark_len(bytes: &[u8]) -> usize
    ensures value { result ≡ front_mark bytes.now }
    ensures within { result ≤ length bytes.now }
{
    if bytes.starts_with(&[0xEF, 0xBB, 0xBF]) {
        3
    } else {
        0
    }
}

fn is_utf8(encoding: &str) -> bool
    ensures { result ≡ str_eq_ignore_ascii_case encoding.now (codes "UTF-8") }
{
    encoding.eq_ignore_ascii_case("UTF-8")
}

fn first_above_ascii(bytes: &[u8]) -> Option<usize>
    ensures value { result ≡ position (nat_lt 127) bytes.now }
    ensures within { IfSome result (λ at. at < length bytes.now) }
{
    bytes.iter().position(|b| 127 < *b)
}

/// The first byte above 127, where the declaration names another encoding than UTF-8.
#[tactic(auto, unfolding(crate::specs::Reading::foreign_at))]
fn foreign_byte(text: &str) -> Option<usize>
    ensures value { result ≡ foreign_at text.now }
    ensures within { IfSome result (λ at. at < length text.now) }
{
    match declaration(text) {
        Some((Some(encoding), _)) => {
            if is_utf8(encoding) {
                None
            } else {
                first_above_ascii(text.as_bytes())
            }
        }
        Some((None, _)) => None,
        None => None,
    }
}

/// These tokens with those of the text, and how many bytes are left behind them.
#[tactic(auto, unfolding(crate::specs::Reading::cut_behind))]
fn tokens_behind<'a>(
    alloc: Global,
    tokens: Vec<Token<'a>>,
    text: &'a str,
) -> Result<(Vec<Token<'a>>, usize), AllocError>
    ensures { IfOk result (λ cut. (token_views cut.0.items, cut.1) ≡ cut_behind (token_views tokens.entry.items) text.now) }
{
    let (front, behind) = text.split_at(front_len(text));
    let (tokens, rest) = tokens_from(alloc, tokens, front)?;
    Ok((tokens, behind.len() + rest.len()))
}

/// The tokens of the text, and how many bytes are left behind them.
#[tactic(auto, unfolding(crate::specs::Reading::cut_at))]
fn cut(alloc: Global, text: &str) -> Result<(Vec<Token<'_>>, usize), AllocError>
    ensures { IfOk result (λ cut. (token_views cut.0.items, cut.1) ≡ cut_at text.now) }
{
    let mut tokens = Vec::new(alloc);
    match declaration(text) {
        None => tokens_behind(alloc, tokens, text),
        Some((encoding, behind)) => {
            tokens.push(Token::Declaration(encoding))?;
            tokens_behind(alloc, tokens, behind)
        }
    }
}

/// Why a text that goes on at a place behind its tokens is refused.
fn stop(mark: usize, text: &str, at: usize) -> TokenFault
    requires within { at ≤ length text.now }
    requires room { mark + length text.now < 2 ^ 64 }
    ensures { result ≡ stop_at mark text.now at }
{
    let place = mark + at;
    if text.as_bytes()[at..].starts_with(b"<!DOCTYPE") {
        TokenFault::Doctype { place }
    } else {
        TokenFault::BadToken { place }
    }
}

/// The tokens of the text, which stands behind a mark of that many bytes.
fn read_text<'a>(alloc: Global, mark: usize, text: &'a str) -> Result<Vec<Token<'a>>, TokenFault>
    requires { mark + length text.now < 2 ^ 64 }
    ensures { MatchResult result (λ ks. AreTokensOf (token_views ks.items) text.now) (λ fault. RefusesBehind mark text.now fault) }
{
    if let Some(at) = foreign_byte(text) {
        return Err(TokenFault::NotText { place: mark + at });
    }
    let (tokens, left) = cut(alloc, text)?;
    if left > 0 {
        return Err(stop(mark, text, text.len() - left));
    }
    if tokens.len() > MAX_TOKENS {
        return Err(TokenFault::TooManyTokens);
    }
    Ok(tokens)
}

/// The tokens of a document's bytes, in order; a byte order mark at the front is passed over (XML 1.0, section 4.3.3).
/// The bytes must be UTF-8 text, then whole tokens to their end, then at most 65,536 of them; `TokenFault` says which
/// of these fails first, and where.
pub fn read_tokens(alloc: Global, bytes: &[u8]) -> Result<Vec<Token<'_>>, TokenFault>
    ensures { MatchResult result (λ ks. IsTokensOf (token_views ks.items) bytes.now) (λ fault. Refuses bytes.now fault) }
{
    let mark = mark_len(bytes);
    match compat::from_utf8(&bytes[mark..]) {
        Ok(text) => read_text(alloc, mark, text),
        Err(fault) => Err(TokenFault::NotText {
            place: mark + fault.valid_up_to(),
        }),
    }
}
