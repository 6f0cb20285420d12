//! What a line adds to a scenario.

ghost use Rattle.std.specs.Prelude.{◌≡◌, ◌<◌, ◌≤◌, ◌++◌, ◌∷◌, [], IfErr, OnOk, Some, length, slice_get, true};
ghost use Rattle.voe_packet.specs.Drafts.{packet_text};
ghost use Rattle.voe_scenario.specs.Graphs.{joins_line, joins_link};
ghost use Rattle.voe_scenario.specs.Statements.{event_meant, inner_meant, meaning, packet_meant};
ghost use Rattle.voe_scenario.specs.Refusals.{is_event_named, is_inner_named, is_named};
ghost use Rattle.voe_scenario.specs.Scenarios.{with_edge, with_said, with_text};
ghost use Rattle.voe_scenario.specs.Taking.{BringsPacket, MayBeWritten};

use crate::event_line::{SaidEvent, SaidInner};
use crate::fault::LineFault;
use crate::graph::Edge;
use crate::packet_line::{SaidPacket, packet_bytes};
use crate::scenario::Scenario;
use crate::statement::Statement;
use net_model::{Event, Inner};
use path_filter::FilterSet;
use std::alloc::Global;
use voe_values::{Listing, NoMemory, NodeKind, Text};

fn add_node(scenario: &mut Scenario, kind: NodeKind) -> Result<(), NoMemory>
    ensures { OnOk result (scenario.new ≡ record scenario.old { graph = record scenario.old.graph { nodes = scenario.old.graph.nodes ++ kind ∷ [] } }) }
{
    scenario.graph.nodes.push(kind).map_err(|refused| refused.1)
}

fn add_edge(alloc: Global, scenario: &mut Scenario, upper: u8, lower: u8) -> Result<(), NoMemory>
    ensures { OnOk result (scenario.new ≡ with_edge scenario.old upper lower) }
{
    let edge = Edge {
        upper,
        lower,
        filters: FilterSet::new(alloc),
        texts: Listing::new(alloc),
    };
    match scenario.graph.edges.push(edge) {
        Ok(()) => Ok(()),
        Err(_) => Err(NoMemory),
    }
}

/// Adds a filter's text to an edge.
fn add_text(alloc: Global, edges: &mut Listing<Edge>, at: u32, text: &str) -> Result<(), NoMemory>
    requires { at < length edges.old }
    ensures { OnOk result (edges.new ≡ with_text edges.old at text.now (slice_get edges.old at)) }
{
    let text = Text::of(alloc, text)?;
    let edge = edges.get_mut(at as usize);
    match edge.texts.push(text) {
        Ok(()) => Ok(()),
        Err(_) => Err(NoMemory),
    }
}

fn add_packet(
    alloc: Global,
    scenario: &mut Scenario,
    packet: SaidPacket<'_>,
) -> Result<(), NoMemory>
    requires { MayBeWritten (packet_meant packet) }
    ensures { OnOk result (scenario.new ≡ record scenario.old { packets = scenario.old.packets ++ packet_text (packet_meant packet.entry) ∷ [] }) }
{
    let packet = packet_bytes(alloc, packet)?;
    match scenario.packets.push(packet) {
        Ok(()) => Ok(()),
        Err(_) => Err(NoMemory),
    }
}

/// What a stop cuts short, by numbers that name what is there.
#[tactic(auto, using(crate::proofs::Names::named_below))]
fn inner_of(scenario: &Scenario, inner: SaidInner) -> Inner
    requires nodes { length scenario.now.graph.nodes ≤ 64 }
    requires edges { length scenario.now.graph.edges ≤ 256 }
    requires packets { length scenario.now.packets ≤ 1024 }
    requires named { is_inner_named scenario.now (inner_meant inner) ≡ true }
    ensures { result ≡ inner_meant inner }
{
    match inner {
        SaidInner::Write { author, packet } => {
            let author = author as u8;
            let packet = packet as u16;
            Inner::Write { author, packet }
        }
        SaidInner::Down { edge } => Inner::Down { edge: edge as u16 },
        SaidInner::Up { edge } => Inner::Up { edge: edge as u16 },
    }
}

/// An event, by numbers that name what is there.
#[tactic(auto, using(crate::proofs::Names::named_below))]
fn event_of(scenario: &Scenario, event: SaidEvent) -> Event
    requires nodes { length scenario.now.graph.nodes ≤ 64 }
    requires edges { length scenario.now.graph.edges ≤ 256 }
    requires packets { length scenario.now.packets ≤ 1024 }
    requires named { is_event_named scenario.now (event_meant event) ≡ true }
    ensures { result ≡ event_meant event }
{
    match event {
        SaidEvent::Write { author, packet } => {
            let author = author as u8;
            let packet = packet as u16;
            Event::Write { author, packet }
        }
        SaidEvent::Send { edge } => Event::Send { edge: edge as u16 },
        SaidEvent::Down { edge } => Event::Down { edge: edge as u16 },
        SaidEvent::Up { edge } => Event::Up { edge: edge as u16 },
        SaidEvent::Cut { edge } => Event::Cut { edge: edge as u16 },
        SaidEvent::Connect { edge } => Event::Connect { edge: edge as u16 },
        SaidEvent::Crash { node } => Event::Crash { node: node as u8 },
        SaidEvent::Open { node } => Event::Reopen { node: node as u8 },
        SaidEvent::Stop { calls, fill, inner } => {
            let inner = inner_of(scenario, inner);
            Event::Stop { calls, fill, inner }
        }
        SaidEvent::Drain => Event::Drain,
    }
}

fn add_event(scenario: &mut Scenario, event: SaidEvent) -> Result<(), NoMemory>
    requires nodes { length scenario.old.graph.nodes ≤ 64 }
    requires edges { length scenario.old.graph.edges ≤ 256 }
    requires packets { length scenario.old.packets ≤ 1024 }
    requires named { is_event_named scenario.old (event_meant event) ≡ true }
    ensures { OnOk result (scenario.new ≡ record scenario.old { events = scenario.old.events ++ event_meant event ∷ [] }) }
{
    let event = event_of(scenario, event);
    scenario.events.push(event).map_err(|refused| refused.1)
}

/// Adds what a line says whose numbers name what is there.
#[tactic(auto, using(crate::proofs::Names::named_below, crate::proofs::Names::leaves_within))]
fn add_statement(
    alloc: Global,
    scenario: &mut Scenario,
    statement: Statement<'_>,
) -> Result<(), NoMemory>
    requires nodes { length scenario.old.graph.nodes ≤ 64 }
    requires edges { length scenario.old.graph.edges ≤ 256 }
    requires packets { length scenario.old.packets ≤ 1024 }
    requires named { is_named scenario.old (meaning statement) ≡ true }
    requires written { BringsPacket (meaning statement) }
    ensures { OnOk result (scenario.new ≡ with_said scenario.old (meaning statement.entry)) }
{
    match statement {
        Statement::Node(kind) => add_node(scenario, kind),
        Statement::Line { upper, lower } => add_edge(alloc, scenario, upper as u8, lower as u8),
        Statement::Link { upper, lower } => add_edge(alloc, scenario, upper as u8, lower as u8),
        Statement::Filter { edge, text } => add_text(alloc, &mut scenario.graph.edges, edge, text),
        Statement::Packet(packet) => add_packet(alloc, scenario, packet),
        Statement::Event(event) => add_event(scenario, event),
    }
}

/// The same, with the fault of a line.
pub fn add_line(
    alloc: Global,
    scenario: &mut Scenario,
    statement: Statement<'_>,
) -> Result<(), LineFault>
    requires nodes { length scenario.old.graph.nodes ≤ 64 }
    requires edges { length scenario.old.graph.edges ≤ 256 }
    requires packets { length scenario.old.packets ≤ 1024 }
    requires named { is_named scenario.old (meaning statement) ≡ true }
    requires written { BringsPacket (meaning statement) }
    ensures added { OnOk result (scenario.new ≡ with_said scenario.old (meaning statement.entry)) }
    ensures memory { IfErr result (λ fault. fault ≡ LineFault.NoMemory) }
{
    match add_statement(alloc, scenario, statement) {
        Ok(()) => Ok(()),
        Err(NoMemory) => Err(LineFault::NoMemory),
    }
}
