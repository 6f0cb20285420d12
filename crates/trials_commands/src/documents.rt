//! Documents, with what `check` and `show` say of them.

use crate::call::{Call, check, run};
use std::alloc::Global;
use std::test::Fail;

/// A packet of the identifier `ivo://a/k#1` with this content.
fn packet(alloc: Global, content: &str) -> Result<String, Fail> {
    Ok(format!(in alloc;
        "<voe:VOEvent xmlns:voe=\"http://www.ivoa.net/xml/VOEvent/v2.0\" ivorn=\"ivo://a/k#1\" role=\"test\" version=\"2.0\">{content}</voe:VOEvent>"
    )?)
}

/// A message with this attribute and this content.
fn message(alloc: Global, role: &str, content: &str) -> Result<String, Fail> {
    Ok(format!(in alloc;
        "<trn:Transport xmlns:trn=\"http://telescope-networks.org/schema/Transport/v1.1\" role=\"{role}\" version=\"1.0\">{content}</trn:Transport>"
    )?)
}

#[test]
fn packets_are_checked(rt: HostRuntime) -> Result<(), Fail> {
    let alloc = rt.alloc();
    let table: [(&str, u8, &str); 7] = [
        ("", 0, "valid ivo://a/k#1\n"),
        ("<Extra/>", 0, "valid ivo://a/k#1\n"),
        ("<Who/>", 0, "valid ivo://a/k#1\nremark N01\n"),
        ("<Who/><Who/>", 3, "refused V05\n"),
        // The least broken rule is told, whatever comes first in the document.
        (
            "<Citations><EventIVORN/></Citations><Why/><Why/><What/><What/>",
            3,
            "refused V06\n",
        ),
        (
            "<Citations><EventIVORN cite=\"followup\">ivo://a/k</EventIVORN></Citations>",
            3,
            "refused V12\n",
        ),
        // Remarks rise.
        (
            "<Why importance=\"2\" expires=\"never\"/><What><Param/></What><Who><Date>today</Date></Who>",
            0,
            "valid ivo://a/k#1\nremark N01\nremark N02\nremark N07\nremark N09\nremark N10\n",
        ),
    ];
    for (content, status, output) in &table {
        let text = packet(alloc, content)?;
        check(&rt, "check", text.as_bytes(), *status, output)?;
    }
    Ok(())
}

#[test]
fn documents_are_refused_with_their_place(rt: HostRuntime) -> Result<(), Fail> {
    let alloc = rt.alloc();
    let table: [(&[u8], &str); 9] = [
        (
            b"<?xml version=\"1.0\"?>\n<!DOCTYPE a>\n<a/>",
            "refused T04 at 22\n",
        ),
        (b"<a b=\"1\" b=\"2\"/>", "refused T07 at 0\n"),
        (b"", "refused T09\n"),
        (b"<p:a/>", "refused T08 at 0\n"),
        (b"<a>\xFF</a>", "refused T01 at 3\n"),
        (b"<a", "refused T02 at 0\n"),
        (b"<a></b>", "refused T05 at 1\n"),
        (b"<a/>b", "refused T10 at 1\n"),
        (b"<a/>", "refused V01\n"),
    ];
    for (input, output) in &table {
        check(&rt, "check", input, 3, output)?;
        check(&rt, "show", input, 3, output)?;
    }
    let deep = "<a>".repeat(alloc, 64)?;
    let ends = "</a>".repeat(alloc, 64)?;
    let most = format!(in alloc; "{deep}{ends}")?;
    check(&rt, "check", most.as_bytes(), 3, "refused V01\n")?;
    let more = format!(in alloc; "<a>{deep}{ends}</a>")?;
    check(&rt, "check", more.as_bytes(), 3, "refused T06 at 64\n")
}

#[test]
fn packets_are_shown(rt: HostRuntime) -> Result<(), Fail> {
    let alloc = rt.alloc();
    let plain = packet(alloc, "")?;
    let shown = "identifier ivo://a/k#1\nrole test\n";
    check(&rt, "show", plain.as_bytes(), 0, shown)?;

    let full = packet(
        alloc,
        "<Who><AuthorIVORN> ivo://a/me </AuthorIVORN><Date/></Who><What><Group><Param name=\"y\"/></Group><Param name=\"x\" value=\"a&lt;b\"/></What><Citations><EventIVORN cite=\"retraction\"> ivo://b/j#2\n</EventIVORN></Citations>",
    )?;
    let shown =
        "identifier ivo://a/k#1\nrole test\nauthor ivo://a/me\ndate \nparam y \nparam x a<b\ncite retraction ivo://b/j#2\n";
    check(&rt, "show", full.as_bytes(), 0, shown)?;

    let twice = packet(alloc, "<How/><How/>")?;
    check(&rt, "show", twice.as_bytes(), 3, "refused V08\n")
}

#[test]
fn messages_are_shown(rt: HostRuntime) -> Result<(), Fail> {
    let alloc = rt.alloc();
    let alive = message(alloc, "iamalive", "<Origin>ivo://b/x</Origin>")?;
    let shown = "transport iamalive\norigin ivo://b/x\n";
    check(&rt, "show", alive.as_bytes(), 0, shown)?;
    // It is no packet.
    check(&rt, "check", alive.as_bytes(), 3, "refused V01\n")?;

    let full = message(
        alloc,
        "nak",
        "<Meta><Result> refused V05 </Result><Param value=\"1\" name=\"n\"/><o:Param xmlns:o=\"o\" o:name=\"x\"/></Meta><TimeStamp>now</TimeStamp><Response>ivo://b/x</Response><o:Origin xmlns:o=\"o\">\n<![CDATA[ivo://a/k#1]]></o:Origin>",
    )?;
    let shown =
        "transport nak\norigin ivo://a/k#1\nresponse ivo://b/x\nstamp now\nparam n 1\nparam  \nresult refused V05\n";
    check(&rt, "show", full.as_bytes(), 0, shown)?;

    // The first of each name counts, even where it is no good, and an empty text is none.
    let first = message(
        alloc,
        "ack",
        "<Origin>a</Origin><Origin>b</Origin><Response>two words</Response><Response>c</Response><TimeStamp> </TimeStamp><TimeStamp>d</TimeStamp><Meta/><Meta><Result>e</Result></Meta>",
    )?;
    check(
        &rt,
        "show",
        first.as_bytes(),
        0,
        "transport ack\norigin a\n",
    )?;

    let table: [(&str, &str); 5] = [
        ("<Transport/>", "refused M2\n"),
        (
            "<Transport role=\"Ack\"><Origin>a</Origin></Transport>",
            "refused M2\n",
        ),
        ("<Transport xmlns=\"u\" role=\"ack\"/>", "refused M3\n"),
        (
            "<Transport role=\"ack\"><Origin>a b</Origin><Origin>c</Origin></Transport>",
            "refused M3\n",
        ),
        ("<transport role=\"ack\"/>", "refused V01\n"),
    ];
    for (input, output) in &table {
        check(&rt, "show", input.as_bytes(), 3, output)?;
    }
    Ok(())
}

#[test]
fn faults_and_other_words(rt: HostRuntime) -> Result<(), Fail> {
    let alloc = rt.alloc();
    let text = packet(alloc, "")?;
    let read = Call {
        words: &["check"],
        input: text.as_bytes(),
        piece: 8,
        read_fails: &[0],
        write_fails: &[],
    };
    run(&rt, &read, 4, "")?;
    let write = Call {
        words: &["show"],
        input: text.as_bytes(),
        piece: 8,
        read_fails: &[],
        write_fails: &[1],
    };
    run(&rt, &write, 5, "identifi")?;
    let table: [&[&str]; 4] = [&["check", "x"], &["show", ""], &["Check"], &["shown"]];
    for words in &table {
        let call = Call {
            words,
            input: text.as_bytes(),
            piece: 8,
            read_fails: &[0],
            write_fails: &[],
        };
        run(&rt, &call, 2, "refused usage\n")?;
    }
    Ok(())
}
