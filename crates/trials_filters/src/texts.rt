//! Texts of filters: which are read, why others are refused, and how they are written.

use filter_text::{FilterFault, read_path, write_path};
use std::alloc::Global;
use std::process::Abort;
use std::test::Fail;

/// The text is refused for this.
fn refused(rt: &impl Abort, alloc: Global, text: &str, wanted: FilterFault) {
    let Err(fault) = read_path(alloc, text) else {
        panic!(rt; "read")
    };
    assert!(rt; fault == wanted);
}

/// The text is a filter, which is written so.
fn writes(rt: &impl Abort, alloc: Global, text: &str, wanted: &str) {
    let Ok(path) = read_path(alloc, text) else {
        panic!(rt; "refused")
    };
    let Ok(written) = write_path(alloc, &path) else {
        panic!(rt; "not written")
    };
    assert!(rt; written.as_str() == wanted);
}

/// The same of a text that is canonical.
fn is_canonical(rt: &impl Abort, alloc: Global, text: &str) {
    writes(rt, alloc, text, text);
}

#[test]
fn refuses_texts_that_are_not_tokens(rt: HostRuntime) -> Result<(), Fail> {
    let alloc = rt.alloc();
    refused(&rt, alloc, "", FilterFault::Length { place: 0 });
    refused(
        &rt,
        alloc,
        "//Param[@name=\"x",
        FilterFault::BadToken { place: 14 },
    );
    refused(&rt, alloc, "/a \u{1}", FilterFault::BadToken { place: 3 });
    refused(&rt, alloc, "/a!b", FilterFault::BadToken { place: 2 });
    Ok(())
}

#[test]
fn refuses_what_the_profile_leaves_out(rt: HostRuntime) -> Result<(), Fail> {
    let alloc = rt.alloc();
    refused(
        &rt,
        alloc,
        "//Param[1]",
        FilterFault::OutOfProfile { place: 8 },
    );
    refused(
        &rt,
        alloc,
        "//a[last()]",
        FilterFault::OutOfProfile { place: 4 },
    );
    refused(
        &rt,
        alloc,
        "/a[b=.5]",
        FilterFault::OutOfProfile { place: 5 },
    );
    refused(&rt, alloc, "/a::b", FilterFault::OutOfProfile { place: 2 });
    refused(
        &rt,
        alloc,
        "/a[text ( )]",
        FilterFault::OutOfProfile { place: 3 },
    );
    Ok(())
}

#[test]
fn refuses_what_no_filter_goes_on_with(rt: HostRuntime) -> Result<(), Fail> {
    let alloc = rt.alloc();
    refused(
        &rt,
        alloc,
        "//Param[@name=\"x\"",
        FilterFault::Syntax { place: 17 },
    );
    refused(&rt, alloc, "//not(b)", FilterFault::Syntax { place: 2 });
    refused(&rt, alloc, "//a[", FilterFault::Syntax { place: 4 });
    refused(&rt, alloc, "/a b", FilterFault::Syntax { place: 3 });
    refused(&rt, alloc, "/a/@b/c", FilterFault::Syntax { place: 5 });
    refused(&rt, alloc, "/a[@b=@c=@d]", FilterFault::Syntax { place: 8 });
    Ok(())
}

#[test]
fn refuses_conditions(rt: HostRuntime) -> Result<(), Fail> {
    let alloc = rt.alloc();
    refused(&rt, alloc, "@a=\"1\"", FilterFault::NotPath { place: 0 });
    refused(&rt, alloc, "not(a)", FilterFault::NotPath { place: 0 });
    refused(&rt, alloc, "a or b", FilterFault::NotPath { place: 0 });
    Ok(())
}

/// A text made of a part again and again.
pub fn repeated(alloc: Global, front: &str, part: &str, count: usize) -> Result<String, Fail> {
    let mut text = String::from_str(alloc, front)?;
    for _ in 0..count {
        text.push_str(part)?;
    }
    Ok(text)
}

#[test]
fn keeps_to_the_limits(rt: HostRuntime) -> Result<(), Fail> {
    let alloc = rt.alloc();
    let longest = repeated(alloc, "/", "a", 1023)?;
    is_canonical(&rt, alloc, longest.as_str());
    let longer = repeated(alloc, "/", "a", 1024)?;
    refused(
        &rt,
        alloc,
        longer.as_str(),
        FilterFault::Length { place: 1024 },
    );
    let opened = repeated(alloc, "", "(", 1024)?;
    refused(
        &rt,
        alloc,
        opened.as_str(),
        FilterFault::Syntax { place: 1024 },
    );
    let mut deep = repeated(alloc, "/a", "[b", 16)?;
    deep.push_str("]]]]]]]]]]]]]]]]")?;
    is_canonical(&rt, alloc, deep.as_str());
    let mut deeper = repeated(alloc, "/a", "[b", 17)?;
    deeper.push_str("]]]]]]]]]]]]]]]]]")?;
    refused(
        &rt,
        alloc,
        deeper.as_str(),
        FilterFault::TooDeep { place: 34 },
    );
    Ok(())
}

#[test]
fn keeps_canonical_texts(rt: HostRuntime) -> Result<(), Fail> {
    let alloc = rt.alloc();
    is_canonical(&rt, alloc, "/*[//Param/@name=\"y\"]");
    is_canonical(
        &rt,
        alloc,
        "/*[local-name()=\"VOEvent\" and @role=\"test\"]",
    );
    is_canonical(&rt, alloc, "/and[or and not]");
    is_canonical(&rt, alloc, "/a[b and (c or d) and e]");
    is_canonical(&rt, alloc, "/a[not(b or c)][d]");
    is_canonical(&rt, alloc, "/a[b='\"']");
    Ok(())
}

#[test]
fn writes_the_canonical_text(rt: HostRuntime) -> Result<(), Fail> {
    let alloc = rt.alloc();
    writes(&rt, alloc, "//Param[@name!='x']", "//Param[@name!=\"x\"]");
    writes(&rt, alloc, " a / b ", "/a/b");
    writes(&rt, alloc, "@a", "/@a");
    writes(&rt, alloc, "/a[(b and c) and (d)]", "/a[b and c and d]");
    writes(&rt, alloc, "/a[(b or c) or d]", "/a[b or c or d]");
    Ok(())
}
