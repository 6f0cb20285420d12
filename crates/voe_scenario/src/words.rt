//! Pieces of a text, and numbers.

ghost use Rattle.std.specs.Prelude.{◌≡◌, ◌<◌, ◌≤◌, ◌∷◌, [], IfNone, IfSome, MatchOption, length, true, false};
ghost use Rattle.std.specs.List.{list_all};
ghost use Rattle.voe_scenario.specs.Words.{behind_word, first_word, is_digit as is_digit_byte, is_number as is_number_word, is_printable as is_printable_byte, number_of, pieces_of, value_of, words_of};

use memchr::memchr;

/// What stands before the first such byte, and what stands behind it, if the byte is there.
pub fn cut(bytes: &[u8], byte: u8) -> (&[u8], Option<&[u8]>)
    ensures last { IfNone result.1 (pieces_of byte bytes.now ≡ result.0.now ∷ []) }
    ensures first { IfSome result.1 (λ rest. pieces_of byte bytes.now ≡ result.0.now ∷ pieces_of byte rest.now) }
    ensures shorter { IfSome result.1 (λ rest. length rest.now < length bytes.now) }
{
    match memchr(byte, bytes) {
        Some(end) => (&bytes[..end], Some(&bytes[end + 1..])),
        None => (bytes, None),
    }
}

/// The text of a line that has printable bytes alone, from the blank to the tilde.
pub fn printable(line: &[u8]) -> Option<&str>
    ensures { MatchOption result (list_all is_printable_byte line.now ≡ false) (λ text. (text.now ≡ line.now) × (list_all is_printable_byte line.now ≡ true)) }
{
    if !is_printable(line) {
        return None;
    }
    match str::from_utf8(line) {
        Ok(text) => Some(text),
        Err(_) => None,
    }
}

fn is_printable(line: &[u8]) -> bool
    ensures { result ≡ list_all is_printable_byte line.now }
{
    line.iter().all(|byte| *byte >= 32 && *byte <= 126)
}

/// The first word of a text, and what stands behind the blank that ends it, if one does.
pub fn cut_word(text: &str) -> (&str, Option<&str>)
    ensures last { IfNone result.1 (words_of text.now ≡ result.0.now ∷ []) }
    ensures first { IfSome result.1 (λ rest. words_of text.now ≡ result.0.now ∷ words_of rest.now) }
    ensures word { result.0.now ≡ first_word text.now }
    ensures behind { MatchOption result.1 (behind_word text.now ≡ []) (λ rest. rest.now ≡ behind_word text.now) }
    ensures shorter { IfSome result.1 (λ rest. length rest.now < length text.now) }
{
    match text.split_once(' ') {
        Some((word, rest)) => (word, Some(rest)),
        None => (text, None),
    }
}

fn is_digit(byte: u8) -> bool
    ensures { result ≡ is_digit_byte byte }
{
    byte.is_ascii_digit()
}

fn all_digits(word: &[u8]) -> bool
    ensures { result ≡ list_all is_digit_byte word.now }
{
    word.iter().all(|digit| is_digit(*digit))
}

/// Tells whether a word is `0`, or up to seven digits that don't begin with 0.
#[tactic(auto, unfolding(crate::specs::Words::is_number))]
fn is_number(word: &[u8]) -> bool
    ensures { result ≡ is_number_word word.now }
{
    match word {
        [] => false,
        [b'0', _, ..] => false,
        _ => word.len() <= 7 && all_digits(word),
    }
}

/// What up to seven digits say.
fn value(digits: &[u8]) -> u32
    requires few { length digits.now ≤ 7 }
    requires digits { list_all is_digit_byte digits.now ≡ true }
    ensures { result ≡ value_of digits.now }
{
    let mut value: u32 = 0;
    for digit in digits {
        value = value * 10 + u32::from(*digit - b'0');
    }
    value
}

/// The number that a word is, below ten million, if it is one.
pub fn number(word: &str) -> Option<u32>
    ensures { result ≡ number_of word.now }
{
    let word = word.as_bytes();
    if is_number(word) {
        Some(value(word))
    } else {
        None
    }
}
