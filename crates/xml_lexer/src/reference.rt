//! The characters that references name.

ghost use Rattle.std.specs.Prelude.{◌≡◌, ◌≤◌, ◌<◌, ◌+◌, ◌==◌, length, drop, slice_index, option_map, IfSome, Some, None};
ghost use Rattle.std.specs.Char.{digit_value, is_ascii_digit, is_ascii_hexdigit};
ghost use Rattle.std.specs.List.{list_all, position_or_len};
ghost use Rattle.std.specs.Str.Parse.{digits_value};
ghost use Rattle.xml_lexer.specs.Characters.{is_xml_character as in_xml};
ghost use Rattle.xml_lexer.specs.Spelling.{character as character_of, in_digits, named_character as name_of};
ghost use Rattle.xml_lexer.specs.Scan.{reference_at};

fn is_xml_character(c: u32) -> bool
    ensures { result ≡ in_xml c }
{
    match c {
        9 | 10 | 13 => true,
        _ => {
            (32 <= c && c <= 0xD7FF)
                || (0xE000 <= c && c <= 0xFFFD)
                || (0x10000 <= c && c <= 0x10FFFF)
        }
    }
}

fn character(code: u32) -> Option<char>
    ensures { result ≡ character_of code }
{
    if is_xml_character(code) {
        char::from_u32(code)
    } else {
        None
    }
}

fn digit(b: u8) -> u32
    ensures value { result ≡ digit_value b }
    ensures within { result ≤ 36 }
{
    match b {
        b'0'..=b'9' => u32::from(b - b'0'),
        b'A'..=b'Z' => u32::from(b - b'A') + 10,
        b'a'..=b'z' => u32::from(b - b'a') + 10,
        _ => 36,
    }
}

fn number(radix: u32, digits: &[u8]) -> Option<char>
    requires low { 1 ≤ radix }
    requires high { radix ≤ 16 }
    ensures { result ≡ character_of (digits_value radix digits.now) }
{
    let mut number = 0;
    for b in digits {
        number = number * radix + digit(*b);
        if number > 0x10FFFF {
            return None;
        }
    }
    character(number)
}

fn are_hexadecimal(digits: &[u8]) -> bool
    ensures { result ≡ list_all is_ascii_hexdigit digits.now }
{
    digits.iter().all(|b| b.is_ascii_hexdigit())
}

fn are_decimal(digits: &[u8]) -> bool
    ensures { result ≡ list_all is_ascii_digit digits.now }
{
    digits.iter().all(|b| b.is_ascii_digit())
}

fn hexadecimal(digits: &[u8]) -> Option<char>
    ensures { result ≡ in_digits 16 is_ascii_hexdigit digits.now }
{
    match digits {
        [] => None,
        _ => {
            if are_hexadecimal(digits) {
                number(16, digits)
            } else {
                None
            }
        }
    }
}

fn decimal(digits: &[u8]) -> Option<char>
    ensures { result ≡ in_digits 10 is_ascii_digit digits.now }
{
    match digits {
        [] => None,
        _ => {
            if are_decimal(digits) {
                number(10, digits)
            } else {
                None
            }
        }
    }
}

/// The character that a reference with this body names, which stands between `&` and `;` (XML 1.0, sections 4.1 and
/// 4.6). `None` where it names none, or one that no document may have.
pub fn named_character(body: &[u8]) -> Option<char>
    ensures { result ≡ name_of body.now }
{
    match body {
        b"lt" => Some('<'),
        b"gt" => Some('>'),
        b"amp" => Some('&'),
        b"apos" => Some('\''),
        b"quot" => Some('"'),
        [b'#', b'x', digits @ ..] => hexadecimal(digits),
        [b'#', digits @ ..] => decimal(digits),
        _ => None,
    }
}

fn semicolon(bytes: &[u8]) -> usize
    ensures value { result ≡ position_or_len (λ b. b == 59) bytes.now }
    ensures within { result ≤ length bytes.now }
{
    let mut at = 0;
    while at < bytes.len() && bytes[at] != b';' {
        at += 1;
    }
    at
}

/// The character that the reference behind `&` names, and where its `;` stands.
pub fn reference(bytes: &[u8]) -> Option<(char, usize)>
    ensures value { option_map (λ x. (x.0, drop (x.1 + 1) bytes.now)) result ≡ reference_at bytes.now }
    ensures end { IfSome result (λ x. slice_index bytes.now x.1 ≡ 59) }
    ensures within { IfSome result (λ x. x.1 < length bytes.now) }
{
    let at = semicolon(bytes);
    if at >= bytes.len() {
        return None;
    }
    let (body, _rest) = bytes.split_at(at);
    match named_character(body) {
        None => None,
        Some(character) => Some((character, at)),
    }
}
