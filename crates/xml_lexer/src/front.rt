//! The front of a text up to its first character that no document may have.

ghost use Rattle.std.specs.Prelude.{◌≡◌, ◌≤◌, ◌<◌, ◌+◌, length, drop};
ghost use Rattle.std.specs.List.{list_all};
ghost use Rattle.std.specs.Str.{IsCharBoundary};
ghost use Rattle.xml_lexer.specs.Scan.{is_clear as clear, starts_bad as begins_bad, front_len as bytes_before};

use crate::characters::is_blank;

/// How many bytes are looked at together.
const CHUNK: usize = 64;

/// Whether no character that no document may have begins with this byte.
fn is_clear(b: u8) -> bool
    ensures { result ≡ clear b }
{
    !((b < 32 && !is_blank(b)) || b == 0xEF)
}

/// The same of each byte. It looks at all of them, so that it becomes a vector loop.
fn are_clear(bytes: &[u8]) -> bool
    ensures { result ≡ list_all clear bytes.now }
{
    let mut all = true;
    for b in bytes {
        all &= is_clear(*b);
    }
    all
}

/// Whether the bytes begin with a character that no document may have: a control that is no blank, U+FFFE or U+FFFF
/// (XML 1.0, section 2.2).
fn starts_bad(bytes: &[u8]) -> bool
    ensures { result ≡ begins_bad bytes.now }
{
    match bytes {
        [0xEF, 0xBF, third, ..] => 0xBE <= *third,
        [b, ..] => *b < 32 && !is_blank(*b),
        [] => false,
    }
}

/// The first place from `from` up to `end` where such a character begins, or else `end`.
fn bad_from(bytes: &[u8], from: usize, end: usize) -> usize
    requires low { from ≤ end }
    requires high { end ≤ length bytes.now }
    ensures low { from ≤ result }
    ensures high { result ≤ end }
    ensures value { result + bytes_before (drop result bytes.now) ≡ from + bytes_before (drop from bytes.now) }
    ensures found { result < end → bytes_before (drop result bytes.now) ≡ 0 }
{
    let mut at = from;
    while at < end && !starts_bad(&bytes[at..]) {
        at += 1;
    }
    at
}

/// The same, where the bytes from `from` up to `end` are first looked at together.
#[tactic(auto, using(crate::proofs::Fronts::clear_chunk))]
fn bad_in(bytes: &[u8], from: usize, end: usize) -> usize
    requires low { from ≤ end }
    requires high { end ≤ length bytes.now }
    ensures low { from ≤ result }
    ensures high { result ≤ end }
    ensures value { result + bytes_before (drop result bytes.now) ≡ from + bytes_before (drop from bytes.now) }
    ensures found { result < end → bytes_before (drop result bytes.now) ≡ 0 }
{
    if are_clear(&bytes[from..end]) {
        return end;
    }
    bad_from(bytes, from, end)
}

/// How many bytes stand before the first such character.
#[tactic(auto, using(crate::proofs::Fronts::boundary_at))]
pub fn front_len(text: &str) -> usize
    ensures value { result ≡ bytes_before text.now }
    ensures boundary { IsCharBoundary text.now result }
{
    let bytes = text.as_bytes();
    let mut len = 0;
    while len < bytes.len() {
        let end = bytes.len().min(len.saturating_add(CHUNK));
        let at = bad_in(bytes, len, end);
        if at < end {
            return at;
        }
        len = at;
    }
    len
}
