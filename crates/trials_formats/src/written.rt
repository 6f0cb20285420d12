//! Canonical texts of trees.

use std::alloc::Global;
use std::process::Abort;
use std::test::Fail;
use voe_tree::{read_tree, write_tree};

/// The document's canonical text is this one, which is its own.
fn writes(rt: &impl Abort, alloc: Global, bytes: &[u8], wanted: &[u8]) {
    assert!(rt; bytes.len() <= 1_048_576);
    let Ok(tree) = read_tree(alloc, bytes) else {
        panic!(rt; "refused")
    };
    let Ok(text) = write_tree(alloc, &tree) else {
        panic!(rt; "not written")
    };
    assert!(rt; text.as_slice() == wanted);
}

/// The same of a text that is canonical.
fn is_canonical(rt: &impl Abort, alloc: Global, text: &[u8]) {
    writes(rt, alloc, text, text);
}

#[test]
fn one_text_for_each_tree(rt: HostRuntime) -> Result<(), Fail> {
    let alloc = rt.alloc();
    let spelled = b"<a><![CDATA[x]]>&amp;<!-- c -->y</a>";
    writes(&rt, alloc, spelled, b"<a>x&amp;y</a>");
    is_canonical(&rt, alloc, b"<a>x&amp;y</a>");
    let prefixed = b"<p:a xmlns:p=\"u\" p:b=\"1\"/>";
    writes(
        &rt,
        alloc,
        prefixed,
        b"<a xmlns=\"u\" xmlns:a0=\"u\" a0:b=\"1\"/>",
    );
    is_canonical(&rt, alloc, b"<a xmlns=\"u\" xmlns:a0=\"u\" a0:b=\"1\"/>");
    Ok(())
}

#[test]
fn escapes_and_declarations(rt: HostRuntime) -> Result<(), Fail> {
    let alloc = rt.alloc();
    writes(
        &rt,
        alloc,
        b"<a b='\"&lt;&#9;&#10;&#13;>'>&lt;&gt;&#13;\"</a>",
        b"<a b=\"&quot;&lt;&#9;&#10;&#13;>\">&lt;&gt;&#13;\"</a>",
    );
    writes(
        &rt,
        alloc,
        b"<a xmlns='u'><b xmlns=''/><c></c></a>",
        b"<a xmlns=\"u\"><b xmlns=\"\"/><c/></a>",
    );
    is_canonical(&rt, alloc, b"<a xml:lang=\"en\"/>");
    Ok(())
}
