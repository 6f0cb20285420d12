//! Classes of bytes and characters, and runs of them at the front of a text (XML 1.0, sections 2.2 and 2.3).

ghost use Rattle.std.specs.Prelude.{◌≡◌, ◌<◌, ◌≤◌, length};
ghost use Rattle.std.specs.Char.{is_ascii_digit};
ghost use Rattle.std.specs.List.{prefix_len, list_all};
ghost use Rattle.std.specs.Str.{IsCharBoundary, chars};
ghost use Rattle.xml_lexer.specs.Characters as spec;
ghost use Rattle.xml_lexer.specs.Scan.{skip_blanks as behind_blanks};
ghost use Rattle.filter_tokens.specs.Token.{is_other_than};

pub fn is_blank(b: u8) -> bool
    ensures { result ≡ spec.is_blank b }
{
    b == b' ' || b == b'\t' || b == b'\n' || b == b'\r'
}

pub fn is_name_byte(b: u8) -> bool
    ensures { result ≡ spec.is_name_byte b }
{
    b.is_ascii_alphanumeric() || b == b'_' || b == b'-' || b == b'.' || b >= 128
}

pub fn starts_name(b: u8) -> bool
    ensures { result ≡ spec.starts_name b }
{
    is_name_byte(b) && !(b.is_ascii_digit() || b == b'-' || b == b'.')
}

fn is_xml_character(c: char) -> bool
    ensures { result ≡ spec.is_xml_character c }
{
    c == '\t'
        || c == '\n'
        || c == '\r'
        || (' ' <= c && c <= '\u{D7FF}')
        || ('\u{E000}' <= c && c <= '\u{FFFD}')
        || ('\u{10000}' <= c && c <= '\u{10FFFF}')
}

pub fn are_xml(text: &str) -> bool
    ensures { result ≡ list_all spec.is_xml_character (chars text.now) }
{
    text.chars().all(|c| is_xml_character(c))
}

fn blank_len(text: &str) -> usize
    ensures value { result ≡ prefix_len spec.is_blank text.now }
    ensures boundary { IsCharBoundary text.now result }
{
    let bytes = text.as_bytes();
    let mut len = 0;
    while len < bytes.len() && is_blank(bytes[len]) {
        len += 1;
    }
    len
}

pub fn skip_blanks(text: &str) -> &str
    ensures { result.now ≡ behind_blanks text.now }
{
    text.split_at(blank_len(text)).1
}

pub fn name_len(text: &str) -> usize
    ensures value { result ≡ prefix_len spec.is_name_byte text.now }
    ensures boundary { IsCharBoundary text.now result }
{
    let bytes = text.as_bytes();
    let mut len = 0;
    while len < bytes.len() && is_name_byte(bytes[len]) {
        len += 1;
    }
    len
}

pub fn digits_len(text: &str) -> usize
    ensures value { result ≡ prefix_len is_ascii_digit text.now }
    ensures boundary { IsCharBoundary text.now result }
{
    let bytes = text.as_bytes();
    let mut len = 0;
    while len < bytes.len() && bytes[len].is_ascii_digit() {
        len += 1;
    }
    len
}

/// How many bytes stand before the quote.
pub fn value_len(quote: u8, text: &str) -> usize
    requires { quote < 128 }
    ensures value { result ≡ prefix_len (is_other_than quote) text.now }
    ensures boundary { IsCharBoundary text.now result }
{
    let bytes = text.as_bytes();
    let mut len = 0;
    while len < bytes.len() && bytes[len] != quote {
        len += 1;
    }
    len
}
