//! The text of a scenario.

ghost use Rattle.std.specs.Prelude.{◌≡◌, ◌≤◌, IfErr, IfOk, Ok, OnOk, length, map};
ghost use Rattle.std.specs.List.{All};
ghost use Rattle.voe_scenario.specs.Faults.{IsTextFault};
ghost use Rattle.voe_scenario.specs.Refusals.{RefusesLine};
ghost use Rattle.voe_scenario.specs.Scenarios.{IsEdgeRead, IsScenarioOf, nothing_yet, unread_edge, with_said_line};
ghost use Rattle.voe_scenario.specs.Sound.{IsSound, IsSoundSoFar};

use crate::add::add_line;
use crate::fault::{LineFault, ScenarioFault};
use crate::graph::{Edge, Graph};
use crate::judge::judge;
use crate::lines::{TakesLines, take_text};
use crate::scenario::Scenario;
use path_filter::FilterSet;
use std::alloc::Global;
use voe_packet::laws::short_drafts_fit;
use voe_values::{Listing, NoMemory};

impl TakesLines for Scenario {
    ghost sound = { IsSoundSoFar };

    ghost refuses = { RefusesLine };

    ghost with_line = { with_said_line };

    fn take_line(&mut self, alloc: Global, line: &[u8]) -> Result<(), LineFault> {
        short_drafts_fit();
        let said = judge(alloc, self, line)?;
        add_line(alloc, self, said)
    }
}

/// A scenario of which no line was taken.
fn empty(alloc: Global) -> Scenario
    ensures empty { result ≡ nothing_yet }
    ensures sound { IsSoundSoFar result }
{
    Scenario {
        graph: Graph {
            nodes: Listing::new(alloc),
            edges: Listing::new(alloc),
            window: 1,
        },
        packets: Listing::new(alloc),
        events: Listing::new(alloc),
    }
}

/// Reads an edge's filters. Each of their texts reads, since its line was not refused, so that memory alone can be
/// wanted.
fn read_edge(alloc: Global, edge: &mut Edge) -> Result<(), NoMemory>
    ensures same { OnOk result (unread_edge edge.new ≡ unread_edge edge.old) }
    ensures read { OnOk result (IsEdgeRead edge.new) }
{
    match FilterSet::of(alloc, edge.texts.as_slice()) {
        Ok(filters) => {
            edge.filters = filters;
            Ok(())
        }
        Err(_) => Err(NoMemory),
    }
}

/// Reads the filters of all edges.
fn read_edges(alloc: Global, edges: &mut Listing<Edge>) -> Result<(), NoMemory>
    ensures same { OnOk result (map unread_edge edges.new ≡ map unread_edge edges.old) }
    ensures read { OnOk result (All IsEdgeRead edges.new) }
{
    for at in 0..edges.len() {
        read_edge(alloc, edges.get_mut(at))?;
    }
    Ok(())
}

/// Reads the text of a scenario, of which at most 33,554,433 bytes are given: one more than it may have tells that it
/// is too long. The scenario is within the limits, its edges and events name only what it has, and each of its nodes
/// may be configured.
pub fn read_scenario(alloc: Global, bytes: &[u8]) -> Result<Scenario, ScenarioFault>
    requires { length bytes.now ≤ 33554433 }
    ensures ok { IfOk result (λ scenario. IsScenarioOf bytes.now (Ok scenario)) }
    ensures sound { IfOk result IsSound }
    ensures refused { IfErr result (IsTextFault (IsScenarioOf bytes.now)) }
{
    let mut scenario = empty(alloc);
    take_text(alloc, &mut scenario, bytes)?;
    match read_edges(alloc, &mut scenario.graph.edges) {
        Ok(()) => Ok(scenario),
        Err(NoMemory) => Err(ScenarioFault::NoMemory),
    }
}
