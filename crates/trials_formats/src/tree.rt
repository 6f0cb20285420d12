//! Trees of documents.

use std::alloc::Global;
use std::process::Abort;
use std::test::Fail;
use voe_tree::{Element, Node, TreeFault, read_tree, trim_blanks};
use voe_values::Text;

/// Adds what an element is, as `{namespace}name[{namespace}name=value ..](child,child ..)`.
fn describe(element: &Element, out: &mut String) -> Result<(), Fail> {
    describe_name(&element.space, &element.local, out)?;
    for attribute in element.attributes.as_slice() {
        out.push_str("[")?;
        describe_name(&attribute.space, &attribute.local, out)?;
        out.push_str("=")?;
        out.push_str(attribute.value.as_str())?;
        out.push_str("]")?;
    }
    out.push_str("(")?;
    for node in element.children.as_slice() {
        match node {
            Node::Element(inner) => describe(inner, out)?,
            Node::Text(text) => {
                out.push_str("'")?;
                out.push_str(text.as_str())?;
                out.push_str("'")?;
            }
        }
    }
    out.push_str(")")?;
    Ok(())
}

fn describe_name(space: &Text, local: &Text, out: &mut String) -> Result<(), Fail> {
    if !space.is_empty() {
        out.push_str("{")?;
        out.push_str(space.as_str())?;
        out.push_str("}")?;
    }
    out.push_str(local.as_str())?;
    Ok(())
}

/// The bytes are a document, of this tree.
fn reads(rt: &impl Abort, alloc: Global, bytes: &[u8], wanted: &str) -> Result<(), Fail> {
    assert!(rt; bytes.len() <= 1_048_576);
    match read_tree(alloc, bytes) {
        Ok(tree) => {
            let mut found = String::new(alloc);
            describe(tree.root(), &mut found)?;
            assert_eq!(rt; found.as_str(), wanted);
            Ok(())
        }
        Err(fault) => panic!(rt; "refused: {fault:?}"),
    }
}

/// The bytes are none, for this reason.
fn refuses(rt: &impl Abort, alloc: Global, bytes: &[u8], wanted: TreeFault) {
    assert!(rt; bytes.len() <= 1_048_576);
    match read_tree(alloc, bytes) {
        Ok(_) => panic!(rt; "taken"),
        Err(fault) => assert_eq!(rt; fault, wanted),
    }
}

#[test]
fn joins_texts_and_drops_what_is_no_content(rt: HostRuntime) -> Result<(), Fail> {
    let alloc = rt.alloc();
    reads(
        &rt,
        alloc,
        b"<a><![CDATA[x]]>&amp;<!-- c -->y</a>",
        "a('x&y')",
    )?;
    reads(&rt, alloc, b"<a>x<?p q?>y<b/>z</a>", "a('xy'b()'z')")?;
    reads(&rt, alloc, b"<a><![CDATA[]]><!-- --></a>", "a()")?;
    reads(
        &rt,
        alloc,
        b"\xEF\xBB\xBF<?xml version='1.0'?>\n <!-- --><a/>\n<?p?>",
        "a()",
    )?;
    reads(&rt, alloc, b"<a>]]&gt;]]></a>", "a(']]>]]>')")
}

#[test]
fn reads_line_ends_and_values_as_the_standard_says(rt: HostRuntime) -> Result<(), Fail> {
    let alloc = rt.alloc();
    reads(
        &rt,
        alloc,
        b"<a>1\r\n2\r3\n4&#13;5\r\r\n</a>",
        "a('1\n2\n3\n4\r5\n\n')",
    )?;
    reads(&rt, alloc, b"<a><![CDATA[\r\n&amp;]]></a>", "a('\n&amp;')")?;
    reads(
        &rt,
        alloc,
        b"<a b='\r\n\t\n\r&#9;&#x0A;&lt;&quot;'/>",
        "a[b=    \t\n<\"]()",
    )?;
    reads(
        &rt,
        alloc,
        "<a b='\u{E9}'>\u{10FFFF}&#233;</a>".as_bytes(),
        "a[b=\u{E9}]('\u{10FFFF}\u{E9}')",
    )
}

#[test]
fn names_by_the_declarations_in_force(rt: HostRuntime) -> Result<(), Fail> {
    let alloc = rt.alloc();
    reads(&rt, alloc, b"<p:a xmlns:p='u' p:b='1'/>", "{u}a[{u}b=1]()")?;
    reads(
        &rt,
        alloc,
        b"<a xmlns='u' b='1'><c xmlns=''><d/></c><e/></a>",
        "{u}a[b=1](c(d()){u}e())",
    )?;
    reads(
        &rt,
        alloc,
        b"<p:a xmlns:p='u'><p:b xmlns:p='v'/><p:c/></p:a>",
        "{u}a({v}b(){u}c())",
    )?;
    reads(
        &rt,
        alloc,
        b"<a xml:b='1' xmlns:xml='u'/>",
        "a[{http://www.w3.org/XML/1998/namespace}b=1]()",
    )?;
    reads(
        &rt,
        alloc,
        b"<a xmlns:p='u' xmlns:q='u' p:b='1' q:c='2' b='3'/>",
        "a[{u}b=1][{u}c=2][b=3]()",
    )?;
    reads(&rt, alloc, b"<a xmlns:p='&#117;'><p:b/></a>", "a({u}b())")
}

#[test]
fn refuses_by_the_phases_and_the_first_token(rt: HostRuntime) {
    let alloc = rt.alloc();
    refuses(&rt, alloc, b"<a>\xFF</a>", TreeFault::NotText { place: 3 });
    refuses(
        &rt,
        alloc,
        b"\xEF\xBB\xBF<?xml encoding='x'?><a>\xC3\xA9",
        TreeFault::NotText { place: 26 },
    );
    refuses(&rt, alloc, b"<a/><", TreeFault::BadToken { place: 4 });
    refuses(
        &rt,
        alloc,
        b"<?xml version=\"1.0\"?>\n<!DOCTYPE a><a/>",
        TreeFault::Doctype { place: 22 },
    );
    for (text, token) in [("</a>", 0), ("<a><b></a></b>", 2), ("<a><b/>", 2)] {
        refuses(&rt, alloc, text.as_bytes(), TreeFault::Unbalanced { token });
    }
    for (text, token) in [
        ("<a b='' b=''/>", 0),
        ("<a xmlns:p='u' xmlns:q='u' p:b='' q:b=''/>", 0),
        ("<a> <p:b c='' c=''/>", 2),
    ] {
        refuses(
            &rt,
            alloc,
            text.as_bytes(),
            TreeFault::RepeatedAttribute { token },
        );
    }
    for (text, token) in [
        ("<p:a/>", 0),
        ("<a><b p:c=''/></a>", 1),
        ("<a xmlns:p='u'><p:b xmlns:p=''/></a>", 1),
        ("<a><b xmlns:p='u'/><p:c/>", 2),
    ] {
        refuses(
            &rt,
            alloc,
            text.as_bytes(),
            TreeFault::UnboundPrefix { token },
        );
    }
    for text in [
        "",
        " ",
        "x<a/>",
        "&#32;<a/>",
        "<![CDATA[ ]]><a/>",
        "<!-- -->",
    ] {
        refuses(&rt, alloc, text.as_bytes(), TreeFault::RootMissing);
    }
    for (text, token) in [
        ("<a/><b/>", 1),
        ("<a/>\n x", 1),
        ("<a></a>&#32;", 2),
        ("<a/><![CDATA[]]>", 1),
    ] {
        refuses(&rt, alloc, text.as_bytes(), TreeFault::AfterRoot { token });
    }
}

#[test]
fn holds_depth_and_tokens_to_their_limits(rt: HostRuntime) -> Result<(), Fail> {
    let alloc = rt.alloc();
    let mut deep = String::new(alloc);
    for _ in 0..64 {
        deep.push_str("<a>")?;
    }
    refuses(
        &rt,
        alloc,
        deep.as_bytes(),
        TreeFault::Unbalanced { token: 64 },
    );
    deep.push_str("<a/>")?;
    refuses(
        &rt,
        alloc,
        deep.as_bytes(),
        TreeFault::TooDeep { token: 64 },
    );
    let mut many = String::from_str(alloc, "<a>")?;
    for _ in 0..65_535 {
        many.push_str("<b/>")?;
    }
    refuses(
        &rt,
        alloc,
        many.as_bytes(),
        TreeFault::Unbalanced { token: 65_536 },
    );
    many.push_str("</a>")?;
    refuses(&rt, alloc, many.as_bytes(), TreeFault::TooManyTokens);
    Ok(())
}

#[test]
fn gives_what_an_element_contains(rt: HostRuntime) -> Result<(), Fail> {
    let alloc = rt.alloc();
    let bytes = b"<a k='v' xmlns:p='u' p:l='w'>  1<b>2<p:c>3</p:c></b> <b/>4\n</a>";
    match read_tree(alloc, bytes) {
        Ok(tree) => {
            let root = tree.root();
            assert!(&rt; root.attribute("k").is_some());
            assert!(&rt; root.attribute("l").is_none());
            assert!(&rt; root.child("b").is_some());
            assert!(&rt; root.child("c").is_none());
            let text = root.string(alloc)?;
            assert_eq!(&rt; text.as_str(), "  123 4\n");
            assert_eq!(&rt; trim_blanks(text.as_str()), "123 4");
            Ok(())
        }
        Err(fault) => panic!(&rt; "refused: {fault:?}"),
    }
}
