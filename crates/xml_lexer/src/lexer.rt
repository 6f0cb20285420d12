//! The token at the front of a text, and the longest list of them.

ghost use Rattle.std.specs.Prelude.{◌≡◌, ◌≤◌, ◌<◌, length, option_map, IfOk};
ghost use Rattle.std.specs.List.{prefix_len};
ghost use Rattle.std.specs.Str.{IsCharBoundary};
ghost use Rattle.xml_lexer.specs.Spelling.{is_text_byte};
ghost use Rattle.xml_lexer.specs.Cutting.{start_tag_at, comment_at, character_data_at, end_at, instruction_token_at, reference_token_at, section_at, markup_at, text_token_at, token_at, tokens_at, behind};
ghost use Rattle.xml_lexer.specs.View.{token_view, token_views};

use crate::markup::{instruction, up_to};
use crate::scan::{attributes, byte, end_tag, literal, name, reference};
use crate::token::{StartTag, Token};
use memchr::memchr2;
use std::alloc::{AllocError, Global};

/// How many bytes stand before the first `<` or `&`.
fn text_len(text: &str) -> usize
    ensures value { result ≡ prefix_len is_text_byte text.now }
    ensures boundary { IsCharBoundary text.now result }
{
    match memchr2(b'<', b'&', text.as_bytes()) {
        None => text.len(),
        Some(at) => at,
    }
}

/// The start tag whose name begins the text, which stands behind `<`.
#[tactic(auto, unfolding(crate::specs::Cutting::start_tag_at))]
fn start_tag(alloc: Global, text: &str) -> Result<Option<(Token<'_>, &str)>, AllocError>
    ensures { IfOk result (λ found. option_map (λ x. (token_view x.0, x.1.now)) found ≡ start_tag_at text.now) }
{
    match name(text) {
        None => Ok(None),
        Some((name, behind)) => match attributes(alloc, behind)? {
            None => Ok(None),
            Some((attributes, is_empty, rest)) => {
                let tag = StartTag {
                    name,
                    attributes,
                    is_empty,
                };
                Ok(Some((Token::Start(tag), rest)))
            }
        },
    }
}

fn comment(text: &str) -> Option<(Token<'_>, &str)>
    ensures { option_map (λ x. (token_view x.0, x.1.now)) result ≡ comment_at text.now }
{
    let (_, rest) = up_to("-->", text)?;
    Some((Token::Comment, rest))
}

fn character_data(text: &str) -> Option<(Token<'_>, &str)>
    ensures { option_map (λ x. (token_view x.0, x.1.now)) result ≡ character_data_at text.now }
{
    let (run, rest) = up_to("]]>", text)?;
    Some((Token::CharacterData(run), rest))
}

fn end(text: &str) -> Option<(Token<'_>, &str)>
    ensures { option_map (λ x. (token_view x.0, x.1.now)) result ≡ end_at text.now }
{
    let (name, rest) = end_tag(text)?;
    Some((Token::End(name), rest))
}

fn instruction_token(text: &str) -> Option<(Token<'_>, &str)>
    ensures { option_map (λ x. (token_view x.0, x.1.now)) result ≡ instruction_token_at text.now }
{
    let rest = instruction(text)?;
    Some((Token::Instruction, rest))
}

fn reference_token(text: &str) -> Option<(Token<'_>, &str)>
    ensures { option_map (λ x. (token_view x.0, x.1.now)) result ≡ reference_token_at text.now }
{
    let (character, rest) = reference(text)?;
    Some((Token::Reference(character), rest))
}

/// Behind `<`, where neither `/` nor `?` comes.
#[tactic(auto, unfolding(crate::specs::Cutting::section_at))]
fn section(alloc: Global, text: &str) -> Result<Option<(Token<'_>, &str)>, AllocError>
    ensures { IfOk result (λ found. option_map (λ x. (token_view x.0, x.1.now)) found ≡ section_at text.now) }
{
    match literal("!--", text) {
        Some(behind) => Ok(comment(behind)),
        None => match literal("![CDATA[", text) {
            Some(behind) => Ok(character_data(behind)),
            None => start_tag(alloc, text),
        },
    }
}

/// Behind `<`.
#[tactic(auto, unfolding(crate::specs::Cutting::markup_at))]
fn markup(alloc: Global, text: &str) -> Result<Option<(Token<'_>, &str)>, AllocError>
    ensures { IfOk result (λ found. option_map (λ x. (token_view x.0, x.1.now)) found ≡ markup_at text.now) }
{
    match byte(b'/', text) {
        Some(behind) => Ok(end(behind)),
        None => match byte(b'?', text) {
            Some(behind) => Ok(instruction_token(behind)),
            None => section(alloc, text),
        },
    }
}

#[tactic(auto, unfolding(crate::specs::Cutting::text_token_at))]
fn text_token(text: &str) -> (Token<'_>, &str)
    ensures { (token_view result.0, result.1.now) ≡ text_token_at text.now }
{
    let (run, rest) = text.split_at(text_len(text));
    (Token::Text(run), rest)
}

/// The token at the front, which is no declaration, and the text behind it.
#[tactic(auto, unfolding(crate::specs::Cutting::token_at))]
fn token(alloc: Global, text: &str) -> Result<Option<(Token<'_>, &str)>, AllocError>
    ensures { IfOk result (λ found. option_map (λ x. (token_view x.0, x.1.now)) found ≡ token_at text.now) }
{
    if text.is_empty() {
        return Ok(None);
    }
    match byte(b'<', text) {
        Some(behind) => markup(alloc, behind),
        None => match byte(b'&', text) {
            Some(behind) => Ok(reference_token(behind)),
            None => Ok(Some(text_token(text))),
        },
    }
}

/// These tokens with the longest list that follows them, and the text behind it.
pub fn tokens_from<'a>(
    alloc: Global,
    mut tokens: Vec<Token<'a>>,
    text: &'a str,
) -> Result<(Vec<Token<'a>>, &'a str), AllocError>
    ensures { IfOk result (λ cut. (token_views cut.0.items, cut.1.now) ≡ behind (token_views tokens.entry.items) (tokens_at (length text.now) text.now)) }
{
    let mut rest = text;
    for _ in 0..text.len() {
        match token(alloc, rest)? {
            None => return Ok((tokens, rest)),
            Some((found, after)) => {
                tokens.push(found)?;
                rest = after;
            }
        }
    }
    Ok((tokens, rest))
}
