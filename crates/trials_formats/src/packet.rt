//! Packets: their parts, the lines that show them, and drafts.

use std::alloc::Global;
use std::process::Abort;
use std::test::Fail;
use voe_packet::{Citation, Draft, Packet, Param, identifier_of, show_packet, write_packet};
use voe_tree::{Tree, read_tree, write_tree};
use voe_validity::valid;
use voe_values::{Cite, Ivorn, Listing, Role, Text};

const OBSERVATION: &str =
    "<WhereWhen><ObsDataLocation><ObservationLocation><AstroCoords><Time><TimeInstant><ISOTime>2012-08-27T18:33:02.50</ISOTime></TimeInstant></Time><Position2D><Value2><C1>12.5000</C1><C2>-41.0250</C2></Value2><Error2Radius>0.0500</Error2Radius></Position2D></AstroCoords></ObservationLocation></ObsDataLocation></WhereWhen>\n";

/// A packet after the shape of GCN's, which `examples/gcn.xml` is.
fn gcn(alloc: Global) -> Result<String, Fail> {
    let mut text = String::new(alloc);
    text.push_str("<?xml version = '1.0' encoding = 'UTF-8'?>\n")?;
    text.push_str(
        "<voe:VOEvent ivorn=\"ivo://example.gcn/SWIFT#BAT_1\" role=\"observation\" version=\"2.0\" xmlns:voe=\"http://www.ivoa.net/xml/VOEvent/v2.0\" xmlns:xsi=\"http://www.w3.org/2001/XMLSchema-instance\" xsi:schemaLocation=\"http://www.ivoa.net/xml/VOEvent/v2.0 http://www.ivoa.net/xml/VOEvent/VOEvent-v2.0.xsd\">\n<!-- ",
    )?;
    for _ in 0..3000 {
        text.push('x')?;
    }
    text.push_str(
        " -->\n<Who><AuthorIVORN>ivo://example.gcn/tan</AuthorIVORN><Date>2012-08-27T18:34:41</Date></Who>\n<What>\n",
    )?;
    for k in 1..41 {
        let line = format!(in alloc;
            "<Param name=\"p{k}\" value=\"{k}.5\" unit=\"s\" ucd=\"meta.number\"/>\n"
        )?;
        text.push_str(line.as_str())?;
    }
    text.push_str("</What>\n")?;
    text.push_str(OBSERVATION)?;
    text.push_str(
        "<Why importance=\"0.95\"><Inference probability=\"1.0\"/></Why>\n</voe:VOEvent>\n",
    )?;
    Ok(text)
}

/// The lines that show it.
fn gcn_shown(alloc: Global) -> Result<String, Fail> {
    let mut shown = String::new(alloc);
    shown.push_str(
        "identifier ivo://example.gcn/SWIFT#BAT_1\nrole observation\nauthor ivo://example.gcn/tan\ndate 2012-08-27T18:34:41\n",
    )?;
    for k in 1..41 {
        let line = format!(in alloc; "param p{k} {k}.5\n")?;
        shown.push_str(line.as_str())?;
    }
    shown.push_str("time 2012-08-27T18:33:02.50\nposition 12.5000 -41.0250 0.0500\n")?;
    Ok(shown)
}

fn tree_of(rt: &impl Abort, alloc: Global, bytes: &[u8]) -> Tree {
    assert!(rt; bytes.len() <= 1_048_576);
    match read_tree(alloc, bytes) {
        Ok(tree) => tree,
        Err(fault) => panic!(rt; "refused: {fault:?}"),
    }
}

/// The tree is a valid packet, shown by these lines.
fn shows(rt: &impl Abort, alloc: Global, tree: &Tree, wanted: &str) -> Result<(), Fail> {
    match valid(tree) {
        Ok(()) => {
            let packet = Packet::of(alloc, tree)?;
            let shown = show_packet(alloc, &packet)?;
            assert_eq!(rt; shown.as_str(), wanted);
            Ok(())
        }
        Err(row) => panic!(rt; "refused: {row}"),
    }
}

fn identifier(rt: &impl Abort, alloc: Global, text: &str) -> Ivorn {
    match Ivorn::read(alloc, text) {
        Ok(identifier) => identifier,
        Err(fault) => panic!(rt; "refused: {fault:?}"),
    }
}

fn param(alloc: Global, name: &str, value: &str) -> Result<Param, Fail> {
    let name = Text::of(alloc, name)?;
    let value = Text::of(alloc, value)?;
    Ok(Param { name, value })
}

fn add<T: Drop>(rt: &impl Abort, items: &mut Listing<T>, item: T) {
    if items.push(item).is_err() {
        panic!(rt; "no memory");
    }
}

/// The draft is written as this text, which reads as a packet that is shown by these lines.
fn is_written(
    rt: &impl Abort,
    alloc: Global,
    draft: &Draft,
    wanted: &str,
    shown: &str,
) -> Result<(), Fail> {
    assert!(rt; draft.has_xml_texts());
    match write_packet(alloc, draft) {
        Ok(bytes) => {
            assert!(rt; bytes.as_slice() == wanted.as_bytes());
            let tree = tree_of(rt, alloc, bytes.as_slice());
            shows(rt, alloc, &tree, shown)
        }
        Err(fault) => panic!(rt; "not written: {fault:?}"),
    }
}

#[test]
fn the_gcn_packet_is_shown_and_read_back(rt: HostRuntime) -> Result<(), Fail> {
    let alloc = rt.alloc();
    let text = gcn(alloc)?;
    assert_eq!(rt; text.len(), 6232);
    let tree = tree_of(&rt, alloc, text.as_bytes());
    let wanted = gcn_shown(alloc)?;
    shows(&rt, alloc, &tree, wanted.as_str())?;
    match write_tree(alloc, &tree) {
        Ok(bytes) => {
            let again = tree_of(&rt, alloc, bytes.as_slice());
            shows(&rt, alloc, &again, wanted.as_str())
        }
        Err(fault) => panic!(rt; "not written: {fault:?}"),
    }
}

#[test]
fn parts_are_where_the_standard_puts_them(rt: HostRuntime) -> Result<(), Fail> {
    let alloc = rt.alloc();
    let bytes =
        b"<v:VOEvent xmlns:v='http://www.ivoa.net/xml/VOEvent/v2.0' ivorn='ivo://a/k#1' version='2.0'>\
        <Who><AuthorIVORN/><Date> 2012 </Date><Date>2013</Date></Who>\
        <What><Param value='1'/><Group><Param name='g'/><Group><Param name='deep'/></Group></Group><Param name='h' value='2'/></What>\
        <WhereWhen><ObsDataLocation><ObservationLocation><AstroCoords><Time><TimeInstant><ISOTime>t<b>1</b></ISOTime></TimeInstant></Time>\
        <Position2D><Value2><C2>2</C2></Value2><Value2><C1>1</C1></Value2></Position2D></AstroCoords></ObservationLocation></ObsDataLocation></WhereWhen>\
        <Citations><EventIVORN cite='supersedes'> ivo://a/k#2\n</EventIVORN></Citations></v:VOEvent>";
    let tree = tree_of(&rt, alloc, bytes);
    shows(
        &rt,
        alloc,
        &tree,
        "identifier ivo://a/k#1\nrole observation\nauthor \ndate 2012\nparam  1\nparam g \nparam h 2\ntime t1\nposition 1 2 -\ncite supersedes ivo://a/k#2\n",
    )
}

#[test]
fn drafts_are_written_and_read_back(rt: HostRuntime) -> Result<(), Fail> {
    let alloc = rt.alloc();
    let mut draft = Draft {
        identifier: identifier(&rt, alloc, "ivo://a/k#1"),
        role: Role::Test,
        params: Listing::new(alloc),
        citations: Listing::new(alloc),
    };
    is_written(
        &rt,
        alloc,
        &draft,
        "<voe:VOEvent xmlns:voe=\"http://www.ivoa.net/xml/VOEvent/v2.0\" ivorn=\"ivo://a/k#1\" role=\"test\" version=\"2.0\"></voe:VOEvent>",
        "identifier ivo://a/k#1\nrole test\n",
    )?;
    draft.role = Role::Utility;
    add(&rt, &mut draft.params, param(alloc, "x", "1")?);
    add(&rt, &mut draft.params, param(alloc, "y", "<&\">\t")?);
    let cited = Citation {
        identifier: identifier(&rt, alloc, "ivo://a/k#<&>"),
        kind: Cite::Retraction,
    };
    add(&rt, &mut draft.citations, cited);
    is_written(
        &rt,
        alloc,
        &draft,
        "<voe:VOEvent xmlns:voe=\"http://www.ivoa.net/xml/VOEvent/v2.0\" ivorn=\"ivo://a/k#1\" role=\"utility\" version=\"2.0\"><What><Param name=\"x\" value=\"1\"/><Param name=\"y\" value=\"&lt;&amp;&quot;>&#9;\"/></What><Citations><EventIVORN cite=\"retraction\">ivo://a/k#&lt;&amp;&gt;</EventIVORN></Citations></voe:VOEvent>",
        "identifier ivo://a/k#1\nrole utility\nparam x 1\nparam y <&\">\t\ncite retraction ivo://a/k#<&>\n",
    )
}

#[test]
fn a_document_has_an_identifier_or_none(rt: HostRuntime) -> Result<(), Fail> {
    let alloc = rt.alloc();
    let named = tree_of(&rt, alloc, b"<a ivorn='ivo://a/k#1'/>");
    match identifier_of(alloc, &named)? {
        Some(identifier) => assert_eq!(rt; identifier.as_str(), "ivo://a/k#1"),
        None => panic!(rt; "not named"),
    }
    let unnamed = tree_of(&rt, alloc, b"<a ivorn='ivo://a/k'/>");
    assert!(rt; identifier_of(alloc, &unnamed)?.is_none());
    Ok(())
}
