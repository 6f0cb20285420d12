//! Classes of bytes, runs of them, and names.

ghost use Rattle.std.specs.Prelude.{◌≡◌, ◌<◌, ◌≤◌, length, IfSome, slice_index};
ghost use Rattle.std.specs.List.{prefix_len, list_all, position};
ghost use Rattle.std.specs.Str.{IsCharBoundary};
ghost use Rattle.xml_lexer.specs.Characters as spec;
ghost use Rattle.xml_lexer.specs.Scan.{in_name, skip_blanks as behind_blanks};

pub fn is_blank(b: u8) -> bool
    ensures { result ≡ spec.is_blank b }
{
    b == b' ' || b == b'\t' || b == b'\n' || b == b'\r'
}

pub fn is_name_byte(b: u8) -> bool
    ensures { result ≡ spec.is_name_byte b }
{
    b.is_ascii_alphanumeric() || b == b'_' || b == b'-' || b == b'.' || b >= 128
}

pub fn starts_name(b: u8) -> bool
    ensures { result ≡ spec.starts_name b }
{
    is_name_byte(b) && !(b.is_ascii_digit() || b == b'-' || b == b'.')
}

/// Whether a byte may stand in a name or is a colon.
const IN_NAME: [bool; 256] = [
    false, false, false, false, false, false, false, false, false, false, false, false, false,
    false, false, false, false, false, false, false, false, false, false, false, false, false,
    false, false, false, false, false, false, false, false, false, false, false, false, false,
    false, false, false, false, false, false, true, true, false, true, true, true, true, true,
    true, true, true, true, true, true, false, false, false, false, false, false, true, true, true,
    true, true, true, true, true, true, true, true, true, true, true, true, true, true, true, true,
    true, true, true, true, true, true, true, false, false, false, false, true, false, true, true,
    true, true, true, true, true, true, true, true, true, true, true, true, true, true, true, true,
    true, true, true, true, true, true, true, true, false, false, false, false, false, true, true,
    true, true, true, true, true, true, true, true, true, true, true, true, true, true, true, true,
    true, true, true, true, true, true, true, true, true, true, true, true, true, true, true, true,
    true, true, true, true, true, true, true, true, true, true, true, true, true, true, true, true,
    true, true, true, true, true, true, true, true, true, true, true, true, true, true, true, true,
    true, true, true, true, true, true, true, true, true, true, true, true, true, true, true, true,
    true, true, true, true, true, true, true, true, true, true, true, true, true, true, true, true,
    true, true, true, true, true, true, true, true, true, true, true, true, true, true, true, true,
    true, true, true, true, true, true, true, true, true, true, true, true, true, true,
];

fn is_in_name(b: u8) -> bool
    ensures { result ≡ in_name b }
{
    IN_NAME[b as usize]
}

/// How many bytes at the front may stand in a name or are a colon.
pub fn name_len(text: &str) -> usize
    ensures value { result ≡ prefix_len in_name text.now }
    ensures within { result ≤ length text.now }
    ensures boundary { IsCharBoundary text.now result }
{
    let bytes = text.as_bytes();
    let mut len = 0;
    while len < bytes.len() && is_in_name(bytes[len]) {
        len += 1;
    }
    len
}

fn blank_len(text: &str) -> usize
    ensures value { result ≡ prefix_len spec.is_blank text.now }
    ensures within { result ≤ length text.now }
    ensures boundary { IsCharBoundary text.now result }
{
    let bytes = text.as_bytes();
    let mut len = 0;
    while len < bytes.len() && is_blank(bytes[len]) {
        len += 1;
    }
    len
}

pub fn skip_blanks(text: &str) -> &str
    ensures { result.now ≡ behind_blanks text.now }
{
    text.split_at(blank_len(text)).1
}

pub fn starts_with_blank(text: &str) -> bool
    ensures { result ≡ spec.is_blank (slice_index text.now 0) }
{
    match text.as_bytes() {
        [b, ..] => is_blank(*b),
        [] => false,
    }
}

/// Whether each byte may stand in a name.
fn are_name_bytes(bytes: &[u8]) -> bool
    ensures { result ≡ list_all spec.is_name_byte bytes.now }
{
    bytes.iter().all(|b| is_name_byte(*b))
}

pub fn is_name(bytes: &[u8]) -> bool
    ensures { result ≡ spec.is_name bytes.now }
{
    match bytes {
        [] => false,
        [first, ..] => starts_name(*first) && are_name_bytes(bytes),
    }
}

fn first_colon(bytes: &[u8]) -> Option<usize>
    ensures value { result ≡ position spec.is_colon bytes.now }
    ensures within { IfSome result (λ at. at < length bytes.now) }
{
    bytes.iter().position(|b| *b == b':')
}

/// A name, or a prefix, a colon and a name.
pub fn is_spelled_name(bytes: &[u8]) -> bool
    ensures { result ≡ spec.is_spelled_name bytes.now }
{
    match first_colon(bytes) {
        None => is_name(bytes),
        Some(at) => is_name(&bytes[..at]) && is_name(&bytes[at + 1..]),
    }
}
