//! Texts of scenarios, and what they give.

use net_model::{Event, Inner};
use std::alloc::Global;
use std::process::Abort;
use std::test::Fail;
use voe_scenario::{Scenario, ScenarioFault, read_scenario};
use voe_values::NodeKind;

const LONGEST: usize = 33_554_433;

/// Checks that the text is refused by this number on this line.
fn check_refused(rt: &impl Abort, alloc: Global, text: &[u8], number: u8, line: u32) {
    assert!(rt; text.len() <= LONGEST);
    match read_scenario(alloc, text) {
        Err(fault) => assert!(rt;
            fault == ScenarioFault::Refused { number, line },
            "{fault:?}, not {number} on line {line}"
        ),
        Ok(_) => assert!(rt;
            false,
            "it is a scenario, and not refused by {number} on line {line}"
        ),
    }
}

/// The scenario that the text is.
fn read(alloc: Global, text: &[u8]) -> Result<Scenario, Fail> {
    if text.len() > LONGEST {
        return Err(Fail::from("too long a text"));
    }
    match read_scenario(alloc, text) {
        Ok(scenario) => Ok(scenario),
        Err(_) => Err(Fail::from("a scenario is refused")),
    }
}

#[test]
fn scenarios_are_refused_at_their_first_bad_line(rt: HostRuntime) {
    let alloc = rt.alloc();
    let rows: [(&[u8], u8, u32); 22] = [
        (b"line 0 1", 2, 1),
        (b"author\n# two\n\nbroker \n", 1, 4),
        (b"window 1", 1, 1),
        (b"author\nbroker\nline 0 1\nfilter 0 //a", 2, 4),
        (b"broker\nsubscriber\nlink 0 1\nfilter 0 ", 1, 4),
        (b"broker\nsubscriber\nlink 0 1\nfilter 0  ", 6, 4),
        (b"broker\nsubscriber\nlink 0 1\nfilter 0 //a[", 6, 4),
        (
            b"broker\nsubscriber\nlink 0 1\nfilter 0 //a\nfilter 1 //a[",
            2,
            5,
        ),
        (b"packet ivo://a/k#1 tset", 1, 1),
        (b"packet ivo://a/k#1 test x", 1, 1),
        (b"packet ivo://a/k#1 test =v", 5, 1),
        (b"packet ivo://a/k#1 test a=1 b+=2", 5, 1),
        (b"packet ivo://a/k test", 4, 1),
        (b"packet a test =v", 4, 1),
        (b"author\nwrite 0 0", 2, 2),
        (b"drain\nauthor", 1, 2),
        (b"stop 5 0 down 0", 1, 1),
        (b"stop 0 256 down 0", 1, 1),
        (b"stop 0 0 down 0", 2, 1),
        (b"stop 0 0 cut 0", 1, 1),
        (b"author\ncrash 0\nopen 1", 2, 3),
        (b"cut 01", 1, 1),
    ];
    for (text, number, line) in rows {
        check_refused(&rt, alloc, text, number, line);
    }
}

#[test]
fn a_scenario_has_a_graph_packets_and_events(rt: HostRuntime) -> Result<(), Fail> {
    let alloc = rt.alloc();
    let text =
        b"author\nbroker\nsubscriber\nline 0 1\nlink 1 2\nlink 1 1\nlink 1 2\nfilter 3 //Param[@name = 'x']\npacket ivo://a/k#1 test x=1=2 y=\nstop 4 255 write 0 0\nopen 0\ndrain\n";
    let scenario = read(alloc, text)?;
    let graph = &scenario.graph;
    assert!(&rt; graph.nodes.len() == 3 && graph.edges.len() == 4 && graph.window == 1);
    let Some(packet) = scenario.packets.get(0) else {
        return Err(Fail::from("no packet"));
    };
    let written: &[u8] =
        b"<voe:VOEvent xmlns:voe=\"http://www.ivoa.net/xml/VOEvent/v2.0\" ivorn=\"ivo://a/k#1\" role=\"test\" version=\"2.0\"><What><Param name=\"x\" value=\"1=2\"/><Param name=\"y\" value=\"\"/></What></voe:VOEvent>";
    assert!(&rt; packet.as_slice() == written);
    let Some(event) = scenario.events.get(0) else {
        return Err(Fail::from("no event"));
    };
    let inner = Inner::Write {
        author: 0,
        packet: 0,
    };
    assert!(&rt;
        *event
            == Event::Stop {
                calls: 4,
                fill: 255,
                inner
            }
    );
    assert!(&rt; scenario.events.len() == 3);
    Ok(())
}

#[test]
fn a_broker_is_configured_by_its_links(rt: HostRuntime) -> Result<(), Fail> {
    let alloc = rt.alloc();
    let text =
        b"author\nbroker\nsubscriber\nline 0 1\nlink 1 2\nlink 1 1\nlink 1 2\nfilter 3 //a\n";
    let scenario = read(alloc, text)?;
    if scenario.graph.nodes.len() < 2 {
        return Err(Fail::from("too few nodes"));
    }
    let config = scenario.graph.config(alloc, 1)?;
    assert!(&rt; config.kind == NodeKind::Broker && config.name.as_str() == "ivo://node/1");
    let names = ["ivo://node/2", "ivo://node/1", "ivo://node/2.2"];
    assert!(&rt; config.links.len() == names.len());
    for (at, name) in names.iter().enumerate() {
        let Some(link) = config.links.get(at) else {
            return Err(Fail::from("no such link"));
        };
        assert!(&rt; link.name.as_str() == *name);
        assert!(&rt; link.filters.len() == (if at == 2 { 1 } else { 0 }));
    }
    let shape = scenario.graph.shape(alloc)?;
    assert!(&rt; shape.nodes.len() == 3 && shape.edges.len() == 4);
    Ok(())
}
