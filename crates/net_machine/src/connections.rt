//! Connections, crashes and reopenings.

ghost use Rattle.std.specs.Prelude.{◌≡◌, ◌<◌, ℕ, OnOk, [], cond, length, map, slice_get, slice_set, take};
ghost use Rattle.net_model.specs.Connections.{connection, cut_round, unconnected};
ghost use Rattle.net_model.specs.Draining.{IsProper};
ghost use Rattle.net_model.specs.declared.scenario.Event.TheVariants.{Cut, Connect, Crash, Reopen};
ghost use Rattle.net_machine.specs.AtEnds.{AllTell, counts_of};
ghost use Rattle.net_machine.specs.Counts.{Caused};
ghost use Rattle.net_machine.specs.Index.{index_of};
ghost use Rattle.net_model.specs.Nodes.{is_up as node_is_up};
ghost use Rattle.net_machine.specs.Parts.{Happened, IsWhole, moment_of, node_of, slots_of, state_of};
ghost use Rattle.net_machine.specs.Steppers.{Stepped, joiner};
ghost use Rattle.net_machine.specs.Wires.{reset_round, touches};

use crate::at_ends::{crash_at, join_at};
use crate::end::NetEnd;
use crate::fault::StepFault;
use crate::plan::Plan;
use crate::seat::{Parts, Seat};
use net_model::{Edge, Wire};
use std::alloc::Global;
use voe_values::Listing;

/// A connection with nothing under way.
pub fn connection_in(alloc: Global, session: u64) -> Wire
    ensures { result ≡ connection session }
{
    Wire {
        connected: true,
        session,
        down: Listing::new(alloc),
        up: Listing::new(alloc),
        sent: Listing::new(alloc),
        unanswered: 0,
    }
}

/// No connection.
fn no_connection(alloc: Global) -> Wire
    ensures { result ≡ unconnected }
{
    Wire {
        connected: false,
        session: 0,
        down: Listing::new(alloc),
        up: Listing::new(alloc),
        sent: Listing::new(alloc),
        unanswered: 0,
    }
}

/// A connected edge is cut.
pub fn cut<N: NetEnd>(alloc: Global, plan: &Plan<'_>, parts: &mut Parts<N>, edge: u16)
    requires whole { IsWhole plan.now.graph plan.now.packets.now (moment_of N.view parts.old) }
    ensures happened { Happened N.is_right plan.now.graph plan.now.packets.now (Cut edge) (moment_of N.view parts.old) (moment_of N.view parts.new) }
    ensures seats { parts.new.seats ≡ parts.old.seats }
{
    let at = usize::from(edge);
    let Some(wire) = parts.wires.get(at) else {
        return;
    };
    if !wire.connected {
        return;
    }
    let _ = parts.wires.replace(at, no_connection(alloc));
    let _ = parts.places.replace(at, 0);
}

/// Tells whether a node is there and up.
fn is_up<N: NetEnd>(seats: &Listing<Seat<N>>, node: u8) -> bool
    ensures { result ≡ node_is_up (slice_get (map node_of (slots_of N.view seats.now)) node) }
{
    match seats.get(usize::from(node)) {
        Some(seat) => seat.up,
        None => false,
    }
}

/// A cut edge whose two ends are up is connected, in a new session.
pub fn connect<N: NetEnd>(
    alloc: Global,
    plan: &Plan<'_>,
    parts: &mut Parts<N>,
    edge: u16,
) -> Result<(), StepFault>
    requires index { plan.now.index ≡ index_of plan.now.graph }
    requires proper { IsProper plan.now.graph }
    requires whole { IsWhole plan.now.graph plan.now.packets.now (moment_of N.view parts.old) }
    ensures happened { OnOk result (Happened N.is_right plan.now.graph plan.now.packets.now (Connect edge) (moment_of N.view parts.old) (moment_of N.view parts.new)) }
    ensures told { OnOk result (AllTell N.tells_crash parts.old.seats → AllTell N.tells_crash parts.new.seats) }
    ensures steps { OnOk result (Stepped (joiner plan.now.graph (state_of (moment_of N.view parts.old)) (slice_get plan.now.graph.edges edge) (slice_get parts.old.wires edge))
        (counts_of N.steps parts.old.seats) (counts_of N.steps parts.new.seats)) }
    ensures faults { Caused (counts_of N.faults parts.old.seats) (counts_of N.faults parts.new.seats) result }
{
    let at = usize::from(edge);
    let Some(found) = plan.graph.edges.get(at) else {
        return Ok(());
    };
    let Some(wire) = parts.wires.get(at) else {
        return Ok(());
    };
    if wire.connected {
        return Ok(());
    }
    if !is_up(&parts.seats, found.upper) {
        return Ok(());
    }
    if !is_up(&parts.seats, found.lower) {
        return Ok(());
    }
    let number = plan.index.number(&plan.graph, at);
    let session = join_at(&mut parts.seats, found.upper, number)?;
    let _ = parts.wires.replace(at, connection_in(alloc, session));
    let _ = parts.places.replace(at, 0);
    Ok(())
}

/// Tells whether an edge leads from or to a node.
fn is_at(edge: &Edge, node: u8) -> bool
    ensures { result ≡ touches node edge.now }
{
    edge.upper == node || edge.lower == node
}

/// An edge is cut if it is one of the node's.
fn cut_if(
    alloc: Global,
    edge: &Edge,
    at: usize,
    wires: &mut Listing<Wire>,
    places: &mut Listing<usize>,
    node: u8,
)
    requires wires { at < length wires.old }
    requires places { at < length places.old }
    ensures wires { wires.new ≡ cond (touches node edge.now) (slice_set wires.old at unconnected) wires.old }
    ensures places { places.new ≡ cond (touches node edge.now) (slice_set places.old at 0) places.old }
{
    if is_at(edge, node) {
        let _ = wires.replace(at, no_connection(alloc));
        let _ = places.replace(at, 0);
    }
}

/// The edges of a node are cut.
pub fn cut_around(
    alloc: Global,
    edges: &[Edge],
    wires: &mut Listing<Wire>,
    places: &mut Listing<usize>,
    node: u8,
)
    requires wires { length wires.old ≡ length edges.now }
    requires places { length places.old ≡ length edges.now }
    ensures wires { wires.new ≡ cut_round node edges.now wires.old }
    ensures places { places.new ≡ reset_round 0 node edges.now places.old }
{
    for (at, edge) in edges.iter().enumerate() {
        cut_if(alloc, edge, at, wires, places, node);
    }
}

/// A node that is up crashes: its end is what its disk then keeps, and its edges are cut.
pub fn crash<N: NetEnd>(
    alloc: Global,
    plan: &Plan<'_>,
    parts: &mut Parts<N>,
    node: u8,
) -> Result<(), StepFault>
    requires whole { IsWhole plan.now.graph plan.now.packets.now (moment_of N.view parts.old) }
    ensures happened { OnOk result (Happened N.is_right plan.now.graph plan.now.packets.now (Crash node) (moment_of N.view parts.old) (moment_of N.view parts.new)) }
    ensures told { OnOk result (AllTell N.tells_crash parts.old.seats → AllTell N.tells_crash parts.new.seats) }
    ensures faults { Caused (counts_of N.faults parts.old.seats) (counts_of N.faults parts.new.seats) result }
{
    if !is_up(&parts.seats, node) {
        return Ok(());
    }
    crash_at(&mut parts.seats, node)?;
    cut_around(
        alloc,
        plan.graph.edges.as_slice(),
        &mut parts.wires,
        &mut parts.places,
        node,
    );
    Ok(())
}

/// A node that is down comes up, as its disk has kept it.
pub fn reopen<N: NetEnd>(plan: &Plan<'_>, parts: &mut Parts<N>, node: u8)
    requires whole { IsWhole plan.now.graph plan.now.packets.now (moment_of N.view parts.old) }
    ensures happened { Happened N.is_right plan.now.graph plan.now.packets.now (Reopen node) (moment_of N.view parts.old) (moment_of N.view parts.new) }
    ensures told { AllTell N.tells_crash parts.old.seats → AllTell N.tells_crash parts.new.seats }
    ensures faults { counts_of N.faults parts.new.seats ≡ counts_of N.faults parts.old.seats }
{
    let at = usize::from(node);
    let Some(seat) = parts.seats.get(at) else {
        return;
    };
    if seat.up {
        return;
    }
    parts.seats.get_mut(at).up = true;
}
