//! Inputs at the limits of a document, and a packet of the size that observatories send.

use crate::call::{Call, check, run};
use std::test::Fail;
use voe_outside::{ReadFault, read_all};

const GCN_START: &str =
    "<?xml version = '1.0' encoding = 'UTF-8'?>\n<voe:VOEvent ivorn=\"ivo://example.gcn/SWIFT#BAT_1\" role=\"observation\" version=\"2.0\" xmlns:voe=\"http://www.ivoa.net/xml/VOEvent/v2.0\" xmlns:xsi=\"http://www.w3.org/2001/XMLSchema-instance\" xsi:schemaLocation=\"http://www.ivoa.net/xml/VOEvent/v2.0 http://www.ivoa.net/xml/VOEvent/VOEvent-v2.0.xsd\">\n<!-- ";

const GCN_WHO: &str =
    " -->\n<Who><AuthorIVORN>ivo://example.gcn/tan</AuthorIVORN><Date>2012-08-27T18:34:41</Date></Who>\n<What>\n";

const GCN_END: &str =
    "</What>\n<WhereWhen><ObsDataLocation><ObservationLocation><AstroCoords><Time><TimeInstant><ISOTime>2012-08-27T18:33:02.50</ISOTime></TimeInstant></Time><Position2D><Value2><C1>12.5000</C1><C2>-41.0250</C2></Value2><Error2Radius>0.0500</Error2Radius></Position2D></AstroCoords></ObservationLocation></ObsDataLocation></WhereWhen>\n<Why importance=\"0.95\"><Inference probability=\"1.0\"/></Why>\n</voe:VOEvent>\n";

fn unread(_: ReadFault) -> Fail {
    Fail::from("the source was not read")
}

#[test]
fn a_packet_like_those_of_gcn(rt: HostRuntime) -> Result<(), Fail> {
    let alloc = rt.alloc();
    let mut text = String::from_str(alloc, GCN_START)?;
    text.push_str("x".repeat(alloc, 3_000)?.as_str())?;
    text.push_str(GCN_WHO)?;
    let mut shown = String::from_str(
        alloc,
        "identifier ivo://example.gcn/SWIFT#BAT_1\nrole observation\nauthor ivo://example.gcn/tan\ndate 2012-08-27T18:34:41\n",
    )?;
    for k in 1..41u8 {
        let param = format!(in alloc;
            "<Param name=\"p{k}\" value=\"{k}.5\" unit=\"s\" ucd=\"meta.number\"/>\n"
        )?;
        text.push_str(param.as_str())?;
        let line = format!(in alloc; "param p{k} {k}.5\n")?;
        shown.push_str(line.as_str())?;
    }
    text.push_str(GCN_END)?;
    shown.push_str("time 2012-08-27T18:33:02.50\nposition 12.5000 -41.0250 0.0500\n")?;
    let valid = "valid ivo://example.gcn/SWIFT#BAT_1\n";
    check(&rt, "check", text.as_bytes(), 0, valid)?;
    check(&rt, "show", text.as_bytes(), 0, shown.as_str())
}

#[test]
fn a_document_above_the_limit_is_read_no_further(rt: HostRuntime) -> Result<(), Fail> {
    let alloc = rt.alloc();
    let most = vec![in alloc; b' '; 1_048_576]?;
    check(&rt, "check", most.as_slice(), 3, "refused T09\n")?;
    let more = vec![in alloc; b' '; 1_048_577]?;
    check(&rt, "check", more.as_slice(), 3, "refused F2\n")?;

    let input = vec![in alloc; b'<'; 1_100_000]?;
    let call = Call {
        words: &["show"],
        input: input.as_slice(),
        piece: 1_000_000,
        read_fails: &[],
        write_fails: &[],
    };
    let mut source = run(&rt, &call, 3, "refused F2\n")?;
    let left = read_all(alloc, &mut source, 1_100_000).map_err(unread)?;
    assert!(rt; left.len() >= 1_100_000 - 1_048_576 - 8_192);
    Ok(())
}

#[test]
fn tokens_at_their_limit(rt: HostRuntime) -> Result<(), Fail> {
    let alloc = rt.alloc();
    let inner = "<b/>".repeat(alloc, 65_534)?;
    let most = format!(in alloc; "<a>{inner}</a>")?;
    check(&rt, "check", most.as_bytes(), 3, "refused V01\n")?;
    let more = format!(in alloc; "<a>{inner}<b/></a>")?;
    check(&rt, "check", more.as_bytes(), 3, "refused T03\n")
}
