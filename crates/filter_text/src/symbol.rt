//! Tokens with what follows them.

ghost use Rattle.std.specs.Prelude.{◌≡◌, ◌+◌, ◌<◌, drop, length, option_map, codes};
ghost use Rattle.std.specs.Str.{bytes_eq};
ghost use Rattle.filter_text.specs.Reading.{is_keyword, is_opening, is_outside, named_function, next_token, symbol_of};
ghost use Rattle.filter_tokens.specs.TokenView.{placed_views, token_view};
ghost use Rattle.filter_text.specs.MachineView.{symbol_view};

use filter_tokens::{Placed, Token};

/// A token, or a function's name, which stands before its parenthesis (XPath 1.0, section 3.7).
#[derive(Clone, Copy, Debug)]
pub enum Symbol<'a> {
    Plain(Token<'a>),
    Not,
    LocalName,
}

/// The token behind the one at this place.
pub fn token_behind<'a>(tokens: &[Placed<'a>], at: usize) -> Option<Token<'a>>
    requires { at < length tokens.now }
    ensures { option_map token_view result ≡ next_token (placed_views (drop (at + 1) tokens.now)) }
{
    match tokens.get(at + 1) {
        None => None,
        Some(placed) => Some(placed.token),
    }
}

fn is_opening(next: Option<Token<'_>>) -> bool
    ensures { result ≡ is_opening (option_map token_view next.entry) }
{
    match next {
        Some(Token::OpeningParenthesis) => true,
        _ => false,
    }
}

/// Whether it is the name of an operator or a function.
fn is_keyword(name: &str) -> bool
    ensures { result ≡ is_keyword name.now }
{
    name == "and" || name == "or" || name == "not" || name == "local-name"
}

/// Whether no filter has this token before that one.
pub fn is_outside(token: Token<'_>, next: Option<Token<'_>>) -> bool
    ensures { result ≡ is_outside (token_view token.entry) (option_map token_view next.entry) }
{
    match token {
        Token::Foreign => true,
        Token::Name(name) => is_opening(next) && !is_keyword(name),
        _ => false,
    }
}

fn named_function(name: &str) -> Symbol<'_>
    ensures { symbol_view result ≡ named_function name.now }
{
    if name == "not" {
        Symbol::Not
    } else if name == "local-name" {
        Symbol::LocalName
    } else {
        Symbol::Plain(Token::Name(name))
    }
}

pub fn symbol_before<'a>(token: Token<'a>, next: Option<Token<'a>>) -> Symbol<'a>
    ensures { symbol_view result ≡ symbol_of (token_view token.entry) (option_map token_view next.entry) }
{
    match token {
        Token::Name(name) => {
            if is_opening(next) {
                named_function(name)
            } else {
                Symbol::Plain(token)
            }
        }
        _ => Symbol::Plain(token),
    }
}
