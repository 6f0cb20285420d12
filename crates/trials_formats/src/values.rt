//! Identifiers, end names, decimals, texts and bytes.

use std::alloc::Global;
use std::process::Abort;
use std::test::Fail;
use voe_values::{Bytes, Decimal, EndName, Ivorn, Listing, Text, is_end_name, ivorn_fault};

const IDENTIFIER: &str = "ivo://a/k#1";

/// The text is an identifier.
fn takes_identifier(rt: &impl Abort, alloc: Global, text: &str) {
    assert_eq!(rt; ivorn_fault(text), None);
    match Ivorn::read(alloc, text) {
        Ok(ivorn) => assert_eq!(rt; ivorn.as_str(), text),
        Err(_) => panic!(rt; "refused"),
    }
}

/// The text is none, by this rule and at this place.
fn refuses_identifier(rt: &impl Abort, alloc: Global, text: &str, rule: u8, place: usize) {
    assert_eq!(rt; ivorn_fault(text), Some((rule, place)));
    match Ivorn::read(alloc, text) {
        Ok(_) => panic!(rt; "taken"),
        Err(fault) => assert_eq!(rt; fault.shown(), Some((rule, place))),
    }
}

#[test]
fn refuses_identifiers_by_the_first_rule_that_breaks(rt: HostRuntime) {
    let alloc = rt.alloc();
    for text in [IDENTIFIER, "ivo://a#1", "ivo://a/k##"] {
        takes_identifier(&rt, alloc, text);
    }
    refuses_identifier(&rt, alloc, "ivo://a/k", 5, 9);
    refuses_identifier(&rt, alloc, "ivo://a/k#", 5, 10);
    refuses_identifier(&rt, alloc, "ivo://#1", 4, 6);
    refuses_identifier(&rt, alloc, "ivo:///k#1", 4, 6);
    refuses_identifier(&rt, alloc, "ivo://", 4, 6);
    refuses_identifier(&rt, alloc, "", 3, 0);
    refuses_identifier(&rt, alloc, "iv", 3, 2);
    refuses_identifier(&rt, alloc, "ivo:/a#1", 3, 5);
    refuses_identifier(&rt, alloc, "iv //#1", 2, 2);
}

#[test]
fn holds_identifiers_to_512_bytes(rt: HostRuntime) -> Result<(), Fail> {
    let mut text = String::from_str(rt.alloc(), "ivo://a#")?;
    for _ in 0..504 {
        text.push('1')?;
    }
    takes_identifier(&rt, rt.alloc(), text.as_str());
    text.push(' ')?;
    refuses_identifier(&rt, rt.alloc(), text.as_str(), 1, 512);
    Ok(())
}

#[test]
fn takes_visible_xml_characters_as_names(rt: HostRuntime) {
    for text in ["ivo://b/x", "n", "\u{E9}\u{10FFFF}\u{FFFD}"] {
        assert!(rt; is_end_name(text), "{text:?}");
        assert!(rt; EndName::read(rt.alloc(), text).is_ok(), "{text:?}");
    }
    for text in ["", "a b", "a\tb", "a\u{7F}", "\u{FFFE}", "a\u{FFFF}"] {
        assert!(rt; !is_end_name(text), "{text:?}");
        assert!(rt; EndName::read(rt.alloc(), text).is_err(), "{text:?}");
    }
}

/// The text writes this decimal.
fn reads(rt: &impl Abort, text: &str, negative: bool, digits: u128, scale: u8) {
    let want = Decimal {
        negative,
        digits,
        scale,
    };
    assert!(rt; Decimal::read(text) == Some(want));
}

#[test]
fn reads_decimals_as_they_are_written(rt: HostRuntime) {
    reads(&rt, "-1.50", true, 150, 2);
    reads(&rt, "+7", false, 7, 0);
    reads(&rt, ".5", false, 5, 1);
    reads(&rt, "5.", false, 5, 0);
    reads(&rt, "-0", true, 0, 0);
    reads(
        &rt,
        "9999999999999999999999999999999999999.9",
        false,
        99_999_999_999_999_999_999_999_999_999_999_999_999,
        1,
    );
    for text in [
        "",
        ".",
        "-",
        "1.2.3",
        "--1",
        "1e5",
        " 1",
        "100000000000000000000000000000000000000",
    ] {
        assert!(rt; Decimal::read(text).is_none(), "{text:?}");
    }
}

#[test]
fn copies_of_texts_and_bytes_are_equal(rt: HostRuntime) -> Result<(), Fail> {
    let mut text = Text::of(rt.alloc(), "ivo://a/k")?;
    text.push('#')?;
    text.push_str("1")?;
    assert_eq!(rt; text.copy()?.as_str(), IDENTIFIER);
    let mut bytes = Bytes::of(rt.alloc(), b"ivo://a/k")?;
    bytes.extend(b"#1")?;
    assert_eq!(rt; bytes.copy()?.as_slice(), IDENTIFIER.as_bytes());
    let listing = Listing::from_slice(rt.alloc(), &[7u8, 8])?;
    assert_eq!(rt; listing.copy()?.as_slice(), [7u8, 8].as_slice());
    Ok(())
}

#[test]
fn copies_of_identifiers_are_equal(rt: HostRuntime) -> Result<(), Fail> {
    let Ok(ivorn) = Ivorn::read(rt.alloc(), IDENTIFIER) else {
        panic!(rt; "refused")
    };
    assert!(rt; ivorn.copy()?.is_same(&ivorn));
    assert!(rt; Ivorn::of(rt.alloc(), ivorn.as_str())?.is_same(&ivorn));
    assert_eq!(rt; ivorn.into_text().as_str(), IDENTIFIER);
    Ok(())
}

#[test]
fn copies_of_end_names_are_equal(rt: HostRuntime) -> Result<(), Fail> {
    let Ok(name) = EndName::read(rt.alloc(), IDENTIFIER) else {
        panic!(rt; "refused")
    };
    assert!(rt; name.copy()?.is_same(&name));
    assert!(rt; EndName::of(rt.alloc(), name.as_str())?.is_same(&name));
    assert_eq!(rt; name.into_text().as_str(), IDENTIFIER);
    Ok(())
}
