//! Why a line of a scenario is refused.

ghost use Rattle.std.specs.Prelude.{◌≡◌, ◌==◌, IfErr, IfNone, IfOk, IfSome, Some, filter, length, map};
ghost use Rattle.std.specs.Option.{option_copied};
ghost use Rattle.voe_scenario.specs.Shapes.{ends_of};
ghost use Rattle.voe_scenario.specs.Graphs.{is_kind as is_kind_at, joins_line as joins_line_at, joins_link as joins_link_at};
ghost use Rattle.voe_scenario.specs.Statements.{event_meant, inner_meant, meaning};
ghost use Rattle.voe_scenario.specs.Faults.{IsLineFault, number_of_rule};
ghost use Rattle.voe_scenario.specs.Rules.{least_that_holds};
ghost use Rattle.voe_scenario.specs.Refusals.{RefusesLine, can_write as can_write_in, count_texts as texts_of, has_room_for_edge as has_room_at, is_edge as is_edge_of, is_event_named as is_named_event, is_inner_named as is_named_inner, is_misplaced as is_misplaced_in, is_named as is_named_in, is_node as is_node_of, is_set_up as is_set_up_line, is_within as is_within_limits, leaves_broker as leaves_broker_at, misnames_packet as misnames_packet_said, misnames_param as misnames_param_said, scenario_rules};
ghost use Rattle.voe_scenario.specs.Taking.{IsFitting, MayStand};

use crate::event_line::{SaidEvent, SaidInner};
use crate::fault::{LineFault, Rule};
use crate::filter_line::check_filter;
use crate::graph::{Edge, Graph};
use crate::limits::{
    EDGES_LIMIT, EVENTS_LIMIT, FILTER_LIMIT, FILTERS_LIMIT, LINE_LIMIT, LINKS_LIMIT, NAME_LIMIT,
    NODES_LIMIT, PACKETS_LIMIT, PARAMS_LIMIT,
};
use crate::packet_line::{count_params, have_param_names};
use crate::scenario::Scenario;
use crate::statement::{Statement, read_statement};
use std::alloc::Global;
use voe_values::{Listing, NodeKind, ivorn_fault};

/// Tells whether there is such a node, and it is of this kind.
#[tactic(auto, unfolding(crate::specs::Graphs::is_kind))]
fn is_kind(nodes: &Listing<NodeKind>, at: u32, kind: NodeKind) -> bool
    ensures { result ≡ is_kind_at nodes.now at kind }
{
    match nodes.get(at as usize) {
        Some(found) => *found == kind,
        None => false,
    }
}

fn joins_line(nodes: &Listing<NodeKind>, upper: u32, lower: u32) -> bool
    ensures { result ≡ joins_line_at nodes.now upper lower }
{
    is_kind(nodes, upper, NodeKind::Author) && is_kind(nodes, lower, NodeKind::Broker)
}

fn joins_link(nodes: &Listing<NodeKind>, upper: u32, lower: u32) -> bool
    ensures { result ≡ joins_link_at nodes.now upper lower }
{
    is_kind(nodes, upper, NodeKind::Broker)
        && (is_kind(nodes, lower, NodeKind::Broker) || is_kind(nodes, lower, NodeKind::Subscriber))
}

/// Tells whether the edge leads from a broker.
fn leaves_broker(nodes: &Listing<NodeKind>, edge: Option<&Edge>) -> bool
    ensures { result ≡ leaves_broker_at nodes.now (option_copied edge.entry) }
{
    match edge {
        Some(edge) => is_kind(nodes, u32::from(edge.upper), NodeKind::Broker),
        None => false,
    }
}

/// Tells whether a line may stand only before the first event.
fn is_set_up(statement: Statement<'_>) -> bool
    ensures { result ≡ is_set_up_line (meaning statement.entry) }
{
    match statement {
        Statement::Node(_)
        | Statement::Line { .. }
        | Statement::Link { .. }
        | Statement::Filter { .. }
        | Statement::Packet(_) => true,
        Statement::Event(_) => false,
    }
}

/// Tells whether there is an author of the one number and a packet of the other.
fn can_write(before: &Scenario, author: u32, packet: u32) -> bool
    ensures { result ≡ can_write_in before.now author packet }
{
    is_kind(&before.graph.nodes, author, NodeKind::Author)
        && (packet as usize) < before.packets.len()
}

fn is_edge(before: &Scenario, edge: u32) -> bool
    ensures { result ≡ is_edge_of before.now edge }
{
    (edge as usize) < before.graph.edges.len()
}

fn is_node(before: &Scenario, node: u32) -> bool
    ensures { result ≡ is_node_of before.now node }
{
    (node as usize) < before.graph.nodes.len()
}

/// Tells whether each number of what a stop cuts short names what is there.
fn is_inner_named(before: &Scenario, inner: SaidInner) -> bool
    ensures { result ≡ is_named_inner before.now (inner_meant inner) }
{
    match inner {
        SaidInner::Write { author, packet } => can_write(before, author, packet),
        SaidInner::Down { edge } | SaidInner::Up { edge } => is_edge(before, edge),
    }
}

/// Tells whether each number of an event names what is there.
fn is_event_named(before: &Scenario, event: SaidEvent) -> bool
    ensures { result ≡ is_named_event before.now (event_meant event) }
{
    match event {
        SaidEvent::Write { author, packet } => can_write(before, author, packet),
        SaidEvent::Send { edge }
        | SaidEvent::Down { edge }
        | SaidEvent::Up { edge }
        | SaidEvent::Cut { edge }
        | SaidEvent::Connect { edge } => is_edge(before, edge),
        SaidEvent::Crash { node } | SaidEvent::Open { node } => is_node(before, node),
        SaidEvent::Stop { inner, .. } => is_inner_named(before, inner),
        SaidEvent::Drain => true,
    }
}

/// Tells whether each number of a line names what is there.
fn is_named(before: &Scenario, statement: Statement<'_>) -> bool
    ensures { result ≡ is_named_in before.now (meaning statement.entry) }
{
    let graph = &before.graph;
    match statement {
        Statement::Node(_) | Statement::Packet(_) => true,
        Statement::Line { upper, lower } => joins_line(&graph.nodes, upper, lower),
        Statement::Link { upper, lower } => joins_link(&graph.nodes, upper, lower),
        Statement::Filter { edge, .. } => leaves_broker(
            &graph.nodes,
            graph.edges.get(edge as usize),
        ),
        Statement::Event(event) => is_event_named(before, event),
    }
}

/// How many lines an author has, or how many links a broker.
fn count_links(edges: &Listing<Edge>, node: u32) -> usize
    ensures { result ≡ length (filter (λ edge. edge.upper == node) (map ends_of edges.now)) }
{
    let mut count = 0;
    for edge in edges.as_slice() {
        if u32::from(edge.upper) == node {
            count += 1;
        }
    }
    count
}

/// Tells whether there may be one edge more, out of this node.
fn has_room_for_edge(graph: &Graph, upper: u32) -> bool
    ensures { result ≡ has_room_at graph.now upper }
{
    graph.edges.len() < EDGES_LIMIT && count_links(&graph.edges, upper) < LINKS_LIMIT
}

/// How many filters an edge has.
fn count_texts(edge: Option<&Edge>) -> usize
    ensures { result ≡ texts_of (option_copied edge.entry) }
{
    match edge {
        Some(edge) => edge.texts.len(),
        None => 0,
    }
}

/// Tells whether what a line adds stays within the limits.
fn is_within(before: &Scenario, statement: Statement<'_>) -> bool
    ensures { result ≡ is_within_limits before.now (meaning statement.entry) }
{
    let graph = &before.graph;
    match statement {
        Statement::Node(_) => graph.nodes.len() < NODES_LIMIT,
        Statement::Line { upper, .. } | Statement::Link { upper, .. } => {
            has_room_for_edge(graph, upper)
        }
        Statement::Filter { edge, text } => text.len() <= FILTER_LIMIT
            && count_texts(graph.edges.get(edge as usize)) < FILTERS_LIMIT,
        Statement::Packet(packet) => packet.identifier.len() <= NAME_LIMIT
            && count_params(packet.params) <= PARAMS_LIMIT
            && before.packets.len() < PACKETS_LIMIT,
        Statement::Event(_) => before.events.len() < EVENTS_LIMIT,
    }
}

/// Tells whether a packet's identifier is none.
fn misnames_packet(statement: Statement<'_>) -> bool
    ensures { result ≡ misnames_packet_said (meaning statement.entry) }
{
    match statement {
        Statement::Packet(packet) => ivorn_fault(packet.identifier).is_some(),
        _ => false,
    }
}

/// Tells whether the name of a packet's parameter is none.
fn misnames_param(statement: Statement<'_>) -> bool
    ensures { result ≡ misnames_param_said (meaning statement.entry) }
{
    match statement {
        Statement::Packet(packet) => !have_param_names(packet.params),
        _ => false,
    }
}

/// The least rule that a line breaks, but for that on its filter.
fn broken_rule(before: &Scenario, line: &[u8], said: Statement<'_>) -> Option<Rule>
    ensures broken { IfSome result (λ rule. least_that_holds (scenario_rules before.now line.now (Some (meaning said.entry))) ≡ Some (number_of_rule rule)) }
    ensures unbroken { IfNone result (MayStand before.now line.now (meaning said.entry)) }
{
    if is_set_up(said) && !before.events.is_empty() {
        return Some(Rule::Grammar);
    }
    if !is_named(before, said) {
        return Some(Rule::Naming);
    }
    if line.len() > LINE_LIMIT || !is_within(before, said) {
        return Some(Rule::Limit);
    }
    if misnames_packet(said) {
        return Some(Rule::Identifier);
    }
    if misnames_param(said) {
        return Some(Rule::Parameter);
    }
    None
}

/// What a line says, or why it is refused.
pub fn judge<'a>(
    alloc: Global,
    before: &Scenario,
    line: &'a [u8],
) -> Result<Statement<'a>, LineFault>
    ensures fits { IfOk result (λ said. IsFitting before.now line.now (meaning said)) }
    ensures refused { IfErr result (IsLineFault (RefusesLine before.now line.now)) }
{
    let Some(said) = read_statement(line) else {
        return Err(LineFault::Broken(Rule::Grammar));
    };
    if let Some(rule) = broken_rule(before, line, said) {
        return Err(LineFault::Broken(rule));
    }
    if let Statement::Filter { text, .. } = said {
        check_filter(alloc, text)?;
    }
    Ok(said)
}
