//! Filters that would take minutes or more, if their searches went over the same again for each place. A test that ends
//! tells that they don't.

use crate::passes::tree_of;
use crate::texts::repeated;
use path_filter::Filter;
use std::alloc::Global;
use std::process::Abort;
use std::test::Fail;

/// No turn of the filter passes the document.
fn never_passes(rt: &impl Abort, alloc: Global, document: &str, text: &str, turns: usize) {
    let tree = tree_of(rt, alloc, document);
    match Filter::read(alloc, text) {
        Ok(filter) => {
            for _ in 0..turns {
                assert!(rt; !filter.passes(&tree), "{text}");
            }
        }
        Err(fault) => panic!(rt; "{text} is refused: {fault:?}"),
    }
}

/// The first place has a short text among elements without any, and all others have that text.
#[test]
fn a_text_among_many_elements_is_not_gone_over_for_each_place(rt: HostRuntime) -> Result<(), Fail> {
    let alloc = rt.alloc();
    let mut document = repeated(alloc, "<r><a>", "<e/>", 32_000)?;
    document.push_str(repeated(alloc, "x</a>", "<a>x</a>", 10_000)?.as_str())?;
    document.push_str("</r>")?;
    never_passes(&rt, alloc, document.as_str(), "//*[//a!=//a]", 50);
    Ok(())
}

/// Conditions twelve deep in a path that is compared, on elements that nest 60 deep.
#[test]
fn conditions_in_a_compared_path_do_not_multiply(rt: HostRuntime) -> Result<(), Fail> {
    let alloc = rt.alloc();
    let mut chain = repeated(alloc, "", "<a k='1'><b k='1'>", 30)?;
    chain.push_str(repeated(alloc, "", "</b></a>", 30)?.as_str())?;
    let mut document = repeated(alloc, "<r>", chain.as_str(), 30)?;
    document.push_str("<c k='2'/></r>")?;
    let mut text = repeated(alloc, "//*[", "*//a[*//b[", 6)?;
    text.push_str(repeated(alloc, "*//z", "]]", 6)?.as_str())?;
    text.push_str("/@k=*//c/@k]")?;
    never_passes(&rt, alloc, document.as_str(), text.as_str(), 1);
    Ok(())
}
