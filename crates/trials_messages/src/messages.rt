//! Messages as they are written, and as they are read.

use std::alloc::Global;
use std::process::Abort;
use std::test::Fail;
use voe_packet::Param;
use voe_tree::{Tree, read_tree};
use voe_values::{Bytes, EndName, Listing, Text};
use vtp_framing::frame;
use vtp_messages::{
    Message, MessageFault, MessageRole, is_stripped, read_message, show_message, write_message,
};

fn tree_of(rt: &impl Abort, alloc: Global, bytes: &[u8]) -> Tree {
    assert!(rt; bytes.len() <= 1_048_576);
    match read_tree(alloc, bytes) {
        Ok(tree) => tree,
        Err(fault) => panic!(rt; "refused: {fault:?}"),
    }
}

fn end_name(rt: &impl Abort, alloc: Global, text: &str) -> EndName {
    match EndName::read(alloc, text) {
        Ok(name) => name,
        Err(fault) => panic!(rt; "refused: {fault:?}"),
    }
}

fn add_param(
    rt: &impl Abort,
    alloc: Global,
    params: &mut Listing<Param>,
    name: &str,
    value: &str,
) -> Result<(), Fail> {
    let name = Text::of(alloc, name)?;
    let value = Text::of(alloc, value)?;
    if params.push(Param { name, value }).is_err() {
        panic!(rt; "no memory");
    }
    Ok(())
}

/// A message with an origin and nothing else.
fn plain(rt: &impl Abort, alloc: Global, role: MessageRole, origin: &str) -> Message {
    Message {
        role,
        origin: end_name(rt, alloc, origin),
        response: None,
        stamp: None,
        params: Listing::new(alloc),
        result: None,
    }
}

/// A message with all that one can have.
fn full(rt: &impl Abort, alloc: Global, role: MessageRole) -> Result<Message, Fail> {
    let mut params = Listing::new(alloc);
    add_param(
        rt,
        alloc,
        &mut params,
        "xpath-filter",
        "//Param[@name=\"x\"]",
    )?;
    add_param(rt, alloc, &mut params, "", " <&>\t")?;
    let stamp = "2012-08-27T18:34:41Z";
    let result = "refused V03 & <no> more";
    assert!(rt; is_stripped(stamp));
    assert!(rt; is_stripped(result));
    Ok(Message {
        role,
        origin: end_name(rt, alloc, "ivo://a/k#<1&2>"),
        response: Some(end_name(rt, alloc, "ivo://b/x")),
        stamp: Some(Text::of(alloc, stamp)?),
        params,
        result: Some(Text::of(alloc, result)?),
    })
}

fn written(rt: &impl Abort, alloc: Global, message: &Message) -> Bytes {
    assert!(rt; message.has_xml_texts());
    match write_message(alloc, message) {
        Ok(bytes) => bytes,
        Err(fault) => panic!(rt; "not written: {fault:?}"),
    }
}

fn message_of(rt: &impl Abort, alloc: Global, bytes: &[u8]) -> Message {
    let tree = tree_of(rt, alloc, bytes);
    match read_message(alloc, &tree) {
        Ok(message) => message,
        Err(fault) => panic!(rt; "refused: {fault:?}"),
    }
}

/// The bytes are a message, which is shown by these lines.
fn says(rt: &impl Abort, alloc: Global, bytes: &[u8], wanted: &str) -> Result<(), Fail> {
    let message = message_of(rt, alloc, bytes);
    let shown = show_message(alloc, &message)?;
    assert!(rt; shown.as_slice() == wanted.as_bytes());
    Ok(())
}

/// The bytes are a document that is no message, for this reason.
fn refuses(rt: &impl Abort, alloc: Global, document: &str, wanted: MessageFault) {
    let tree = tree_of(rt, alloc, document.as_bytes());
    match read_message(alloc, &tree) {
        Ok(_) => panic!(rt; "{document} is taken"),
        Err(fault) => assert_eq!(rt; fault, wanted, "{document}"),
    }
}

const ROLES: [(MessageRole, &str); 4] = [
    (MessageRole::IAmAlive, "iamalive"),
    (MessageRole::Authenticate, "authenticate"),
    (MessageRole::Ack, "ack"),
    (MessageRole::Nak, "nak"),
];

#[test]
fn the_least_message_of_each_role(rt: HostRuntime) -> Result<(), Fail> {
    let alloc = rt.alloc();
    for (role, word) in ROLES {
        let message = plain(&rt, alloc, role, "ivo://b/x");
        let bytes = written(&rt, alloc, &message);
        let text = format!(in alloc;
            "<trn:Transport xmlns:trn=\"http://telescope-networks.org/schema/Transport/v1.1\" role=\"{word}\" version=\"1.0\"><Origin>ivo://b/x</Origin></trn:Transport>"
        )?;
        assert!(&rt; bytes.as_slice() == text.as_bytes());
        let shown = format!(in alloc; "transport {word}\norigin ivo://b/x\n")?;
        says(&rt, alloc, bytes.as_slice(), shown.as_str())?;
    }
    Ok(())
}

#[test]
fn all_parts_in_each_role(rt: HostRuntime) -> Result<(), Fail> {
    let alloc = rt.alloc();
    for (role, word) in ROLES {
        let message = full(&rt, alloc, role)?;
        let bytes = written(&rt, alloc, &message);
        let text = format!(in alloc;
            "<trn:Transport xmlns:trn=\"http://telescope-networks.org/schema/Transport/v1.1\" role=\"{word}\" version=\"1.0\"><Origin>ivo://a/k#&lt;1&amp;2&gt;</Origin><Response>ivo://b/x</Response><TimeStamp>2012-08-27T18:34:41Z</TimeStamp><Meta><Param name=\"xpath-filter\" value=\"//Param[@name=&quot;x&quot;]\"/><Param name=\"\" value=\" &lt;&amp;>&#9;\"/><Result>refused V03 &amp; &lt;no&gt; more</Result></Meta></trn:Transport>"
        )?;
        assert!(&rt; bytes.as_slice() == text.as_bytes());
        let shown = format!(in alloc;
            "transport {word}\norigin ivo://a/k#<1&2>\nresponse ivo://b/x\nstamp 2012-08-27T18:34:41Z\nparam xpath-filter //Param[@name=\"x\"]\nparam   <&>\t\nresult refused V03 & <no> more\n"
        )?;
        says(&rt, alloc, bytes.as_slice(), shown.as_str())?;
        let again = message_of(&rt, alloc, bytes.as_slice());
        assert_eq!(&rt; again.role, role);
        let bytes_again = written(&rt, alloc, &again);
        assert!(&rt; bytes_again.as_slice() == text.as_bytes());
    }
    Ok(())
}

#[test]
fn a_heartbeat_has_151_bytes(rt: HostRuntime) -> Result<(), Fail> {
    let alloc = rt.alloc();
    let message = plain(&rt, alloc, MessageRole::IAmAlive, "ivo://b/x");
    let bytes = written(&rt, alloc, &message);
    assert_eq!(&rt; bytes.as_slice().len(), 151);
    let mut framed = Bytes::new(alloc);
    frame(alloc, bytes.as_slice(), &mut framed)?;
    assert!(&rt; framed.as_slice().starts_with(&[0, 0, 0, 0x97]));
    assert_eq!(&rt; framed.as_slice().len(), 155);
    Ok(())
}

#[test]
fn a_message_is_found_in_any_namespace(rt: HostRuntime) -> Result<(), Fail> {
    let alloc = rt.alloc();
    says(
        &rt,
        alloc,
        b"<Transport role='iamalive'><Origin>ivo://b/x</Origin></Transport>",
        "transport iamalive\norigin ivo://b/x\n",
    )?;
    // Other namespaces, another order and version, unknown children, and what reads as missing.
    says(
        &rt,
        alloc,
        b"<t:Transport xmlns:t='u' version='2' role='nak'><t:Meta><Result>\n no <b>more</b> </Result><Result>x</Result>\
        <t:Param value='v'/><p>q</p><Param name='n' xmlns:q='w' q:value='x'/></t:Meta><Meta><Param name='later'/></Meta><TimeStamp> </TimeStamp>\
        <Response>two words</Response><Response>ivo://c/y</Response><Other/><t:Origin xmlns:t='w'> ivo://b/x\n</t:Origin><Origin>ivo://d/z</Origin></t:Transport>",
        "transport nak\norigin ivo://b/x\nparam  v\nparam n \nresult no more\n",
    )
}

#[test]
fn the_first_fault_is_told(rt: HostRuntime) {
    let alloc = rt.alloc();
    for document in [
        "<a/>",
        "<transport role='ack'><Origin>ivo://b/x</Origin></transport>",
        "<a role='ack'><Transport role='ack'><Origin>ivo://b/x</Origin></Transport></a>",
        "<v:VOEvent xmlns:v='http://www.ivoa.net/xml/VOEvent/v2.0' ivorn='ivo://a/k#1' role='test' version='2.0'/>",
    ] {
        refuses(&rt, alloc, document, MessageFault::NotTransport);
    }
    for document in [
        "<Transport/>",
        "<Transport role=''><Origin>ivo://b/x</Origin></Transport>",
        "<Transport role='ACK'><Origin>ivo://b/x</Origin></Transport>",
        "<Transport role=' ack'><Origin>ivo://b/x</Origin></Transport>",
        "<t:Transport xmlns:t='u' t:role='ack'><Origin>ivo://b/x</Origin></t:Transport>",
    ] {
        refuses(&rt, alloc, document, MessageFault::BadRole);
    }
    for document in [
        "<Transport role='ack'/>",
        "<Transport role='ack'><Origin/></Transport>",
        "<Transport role='ack'><Origin>a b</Origin><Origin>ivo://b/x</Origin></Transport>",
        "<Transport role='ack'><Meta><Origin>ivo://b/x</Origin></Meta></Transport>",
        "<Transport role='ack' Origin='ivo://b/x'><Response>ivo://b/x</Response></Transport>",
    ] {
        refuses(&rt, alloc, document, MessageFault::NoOrigin);
    }
}

#[test]
fn texts_that_no_document_can_have_are_told(rt: HostRuntime) -> Result<(), Fail> {
    let alloc = rt.alloc();
    let mut message = plain(&rt, alloc, MessageRole::Authenticate, "ivo://b/x");
    assert!(&rt; message.has_xml_texts());
    add_param(&rt, alloc, &mut message.params, "n", "\u{1}")?;
    assert!(&rt; !message.has_xml_texts());
    for (text, wanted) in [("", false), (" a", false), ("a\n", false), ("a b", true)] {
        assert_eq!(&rt; is_stripped(text), wanted, "{text}");
    }
    Ok(())
}
