//! Texts of configurations, and what they give.

use std::alloc::Global;
use std::process::Abort;
use std::test::Fail;
use voe_scenario::{ConfigText, ScenarioFault, read_config};
use voe_values::NodeKind;

const LONGEST: usize = 33_554_433;

/// Checks that the text is refused by this number on this line.
fn check_refused(rt: &impl Abort, alloc: Global, text: &[u8], number: u8, line: u32) {
    assert!(rt; text.len() <= LONGEST);
    match read_config(alloc, text) {
        Err(fault) => assert!(rt;
            fault == ScenarioFault::Refused { number, line },
            "{fault:?}, not {number} on line {line}"
        ),
        Ok(_) => assert!(rt;
            false,
            "it is a configuration, and not refused by {number} on line {line}"
        ),
    }
}

/// The configuration that the text is.
fn read(alloc: Global, text: &[u8]) -> Result<ConfigText, Fail> {
    if text.len() > LONGEST {
        return Err(Fail::from("too long a text"));
    }
    match read_config(alloc, text) {
        Ok(config) => Ok(config),
        Err(_) => Err(Fail::from("a configuration is refused")),
    }
}

#[test]
fn texts_are_refused_at_their_first_bad_line(rt: HostRuntime) {
    let alloc = rt.alloc();
    let rows: [(&[u8], u8, u32); 26] = [
        (b"", 1, 1),
        (b"# nothing\n\n", 1, 1),
        (b"link a", 1, 1),
        (b"filter //a", 1, 1),
        (b"author a b", 1, 1),
        (b"author", 1, 1),
        (b"author ", 1, 1),
        (b"author  a", 1, 1),
        (b"author a ", 1, 1),
        (b"author a\r\n", 1, 1),
        (b"Author a", 1, 1),
        (b"broker a\nbroker b", 1, 2),
        (b"author a\nlink b", 1, 2),
        (b"broker a\nline b", 1, 2),
        (b"subscriber a\nlink b", 1, 2),
        (b"subscriber a\nline b", 1, 2),
        (b"broker a\nfilter //b", 1, 2),
        (b"author a\nline b\nfilter //b", 1, 3),
        (b"broker a\nlink b\nfilter", 1, 3),
        (b"broker a\nlink b\nfilter ", 1, 3),
        (b"broker ivo://b/x\nlink ivo://s/x\nlink ivo://s/x", 2, 3),
        (b"# one\nauthor a\n\nline b\nline c\nline b\n", 2, 6),
        (b"broker a\nlink b\nlink b \n", 1, 3),
        (b"broker a\nlink b\nfilter //a[", 6, 3),
        (b"broker a\nlink b\nfilter  ", 6, 3),
        (b"broker a\nlink b\nfilter not(//a)\nlink b", 6, 3),
    ];
    for (text, number, line) in rows {
        check_refused(&rt, alloc, text, number, line);
    }
}

#[test]
fn names_are_at_most_512_bytes_long(rt: HostRuntime) -> Result<(), Fail> {
    let alloc = rt.alloc();
    let mut text = Vec::from_slice(alloc, b"author ")?;
    for _ in 0..512 {
        text.push(b'n')?;
    }
    let config = read(alloc, text.as_slice())?;
    assert!(&rt; config.name.as_str().len() == 512);
    text.push(b'n')?;
    check_refused(&rt, alloc, text.as_slice(), 3, 1);
    Ok(())
}

#[test]
fn an_author_has_at_most_64_lines(rt: HostRuntime) -> Result<(), Fail> {
    let alloc = rt.alloc();
    let mut text = format!(in alloc; "author ivo://a/x\n")?;
    for k in 0..64u8 {
        text.push_str(format!(in alloc; "line ivo://b/{k}\n")?.as_str())?;
    }
    let config = read(alloc, text.as_str().as_bytes())?;
    assert!(&rt; config.kind == NodeKind::Author && config.links.len() == 64);
    text.push_str("line ivo://b/x\n")?;
    check_refused(&rt, alloc, text.as_str().as_bytes(), 3, 66);
    Ok(())
}

#[test]
fn a_broker_has_links_with_filters(rt: HostRuntime) -> Result<(), Fail> {
    let alloc = rt.alloc();
    let text =
        b"# links\nbroker ivo://b/x\nlink ivo://s/x\nfilter //Param[@name = \"x\"]\nfilter /*\n\nlink ivo://s/y";
    let config = read(alloc, text)?;
    assert!(&rt; config.kind == NodeKind::Broker && config.links.len() == 2);
    let Some(first) = config.links.get(0) else {
        return Err(Fail::from("no first link"));
    };
    assert!(&rt; first.name.as_str() == "ivo://s/x" && first.filters.len() == 2);
    let Some(filter) = first.filters.get(0) else {
        return Err(Fail::from("no first filter"));
    };
    assert!(&rt; filter.as_str() == "//Param[@name = \"x\"]");
    let Some(second) = config.links.get(1) else {
        return Err(Fail::from("no second link"));
    };
    assert!(&rt; second.name.as_str() == "ivo://s/y" && second.filters.is_empty());
    Ok(())
}

#[test]
fn a_link_has_at_most_16_filters(rt: HostRuntime) -> Result<(), Fail> {
    let alloc = rt.alloc();
    let mut text = format!(in alloc; "broker ivo://b/x\nlink ivo://s/x\n")?;
    for _ in 0..16 {
        text.push_str("filter //a\n")?;
    }
    let config = read(alloc, text.as_str().as_bytes())?;
    assert!(&rt; config.links.len() == 1);
    text.push_str("filter //a[\n")?;
    check_refused(&rt, alloc, text.as_str().as_bytes(), 3, 19);
    Ok(())
}
