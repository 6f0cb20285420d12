//! What holds of every run of the network.

ghost use Rattle.std.specs.Prelude.{◌≡◌, ◌++◌, ◌∷◌, ◌*◌, ◌≤◌, List, [], length, ℕ};
ghost use Rattle.net_model.specs.Draining.{Drains, HadRoom, IsAllAnswered, IsAllUp, IsAtRest, IsDelivered, IsProper, NamesWritten, restart_of, sendings};
ghost use Rattle.net_model.specs.Laws.{AllWritten, AtEveryMoment, HasEdge, IsA, IsCovered, IsCurrent, IsFulfilled, IsOrdered, IsSettled, IsSourced, NoDouble};
ghost use Rattle.net_model.specs.Rounds.{restarted, round, rounds};
ghost use Rattle.net_model.specs.Rules.{Rules, endless};
ghost use Rattle.net_model.specs.Runs.{after, run};
ghost use Rattle.net_model.specs.Shape.{AllWired, IsInTurn, IsKept, IsSized};
ghost use Rattle.net_model.specs.Traffic.{AllTraffic};
ghost use Rattle.net_model.specs.declared.scenario.Edge.{Edge};
ghost use Rattle.net_model.specs.declared.scenario.Event.{Event};
ghost use Rattle.net_model.specs.declared.scenario.Event.TheVariants.{Drain};
ghost use Rattle.net_model.specs.declared.scenario.Graph.{Graph};
ghost use Rattle.net_model.specs.declared.state.State.{State};
ghost use Rattle.voe_values.specs.declared.kind.NodeKind.TheVariants.{Author, Broker};

/// Whatever is written, delivered, cut, stopped and reopened: no node holds an identifier twice, an
/// author wrote each packet, which was carried from there to its node, what is owed or held follows
/// the filters, each answer stands behind what it answers, and each connection is in the last
/// session of its link.
pub fn every_state()
    ensures single { (rules : Rules) (graph : Graph) (packets : List (List ℕ)) (events : List Event)
        → NoDouble (after rules graph packets events) }
    ensures written { (rules : Rules) (graph : Graph) (packets : List (List ℕ)) (events : List Event)
        → AllWritten graph (after rules graph packets events) }
    ensures sourced { (rules : Rules) (graph : Graph) (packets : List (List ℕ)) (events : List Event)
        → IsSourced rules graph (after rules graph packets events) }
    ensures covered { (rules : Rules) (graph : Graph) (packets : List (List ℕ)) (events : List Event)
        → IsCovered rules graph (after rules graph packets events) }
    ensures ordered { (rules : Rules) (graph : Graph) (packets : List (List ℕ)) (events : List Event)
        → IsOrdered (after rules graph packets events) }
    ensures current { (rules : Rules) (graph : Graph) (packets : List (List ℕ)) (events : List Event)
        → IsCurrent graph (after rules graph packets events) }
{}

/// There is a node for each of the graph's and a wire for each edge; each node keeps notes of its
/// kind, each packet under its own identifier; both ends of a connected edge are up, a cut one has
/// nothing under way, and what is unanswered is in flight, within the window; and an edge sends next
/// what its upper end gives when it is asked for the first packet past those that were sent.
pub fn every_shape()
    ensures sized { (rules : Rules) (graph : Graph) (packets : List (List ℕ)) (events : List Event)
        → IsSized graph (after rules graph packets events) }
    ensures kept { (rules : Rules) (graph : Graph) (packets : List (List ℕ)) (events : List Event)
        → IsKept rules graph (after rules graph packets events) }
    ensures wired { (rules : Rules) (graph : Graph) (packets : List (List ℕ)) (events : List Event)
        → IsProper graph → AllWired graph (after rules graph packets events) }
    ensures in_turn { (rules : Rules) (graph : Graph) (packets : List (List ℕ)) (events : List Event)
        → IsInTurn graph (after rules graph packets events) }
{}

/// A line of a proper graph leads to a broker, so that what is acknowledged on it is at a broker.
pub fn every_line()
    ensures lower { (graph : Graph) (a number : ℕ) (line : Edge)
        → IsProper graph → IsA graph a Author → HasEdge graph a number line → IsA graph line.lower Broker }
{}

/// Whenever no broker owes a delivery, every subscriber that an acknowledged packet reaches has
/// entered its identifier exactly once.
pub fn settled_state()
    ensures fulfilled { (rules : Rules) (graph : Graph) (packets : List (List ℕ)) (events : List Event)
        → IsSettled graph (after rules graph packets events)
        → IsFulfilled rules graph (after rules graph packets events) }
{}

/// The same of a whole run: after each of its events, and before the first.
pub fn every_moment()
    ensures single { (rules : Rules) (graph : Graph) (packets : List (List ℕ)) (events : List Event)
        → AtEveryMoment rules graph packets events (λ state. NoDouble state) }
    ensures written { (rules : Rules) (graph : Graph) (packets : List (List ℕ)) (events : List Event)
        → AtEveryMoment rules graph packets events (λ state. AllWritten graph state) }
    ensures sourced { (rules : Rules) (graph : Graph) (packets : List (List ℕ)) (events : List Event)
        → AtEveryMoment rules graph packets events (λ state. IsSourced rules graph state) }
    ensures covered { (rules : Rules) (graph : Graph) (packets : List (List ℕ)) (events : List Event)
        → AtEveryMoment rules graph packets events (λ state. IsCovered rules graph state) }
    ensures fulfilled { (rules : Rules) (graph : Graph) (packets : List (List ℕ)) (events : List Event)
        → AtEveryMoment rules graph packets events (λ state. IsSettled graph state → IsFulfilled rules graph state) }
{}

/// A drain begins as if all edges were cut, all nodes reopened and all edges connected. It ends: it
/// is the rounds up to and with the first that changes nothing, and over all edges it sends no more
/// packets than edges times identifiers that were written, each of which was answered. Then every
/// node is up, every edge is at rest, and a further round changes nothing.
pub fn every_drain()
    ensures begins { (rules : Rules) (graph : Graph) (packets : List (List ℕ)) (state : State)
        → restarted graph state ≡ run rules graph packets (restart_of graph) state }
    ensures ends { (rules : Rules) (graph : Graph) (packets : List (List ℕ)) (events : List Event)
        → IsProper graph
        → Drains rules graph (restarted graph (after rules graph packets events))
        (after rules graph packets (events ++ Drain ∷ [])) }
    ensures bounded { (rules : Rules) (graph : Graph) (packets : List (List ℕ)) (events : List Event) (names : List (List ℕ))
        → IsProper graph → NamesWritten (after rules graph packets events) names
        → sendings (after rules graph packets (events ++ Drain ∷ [])).wires ≤ length graph.edges * length names }
    ensures rested { (rules : Rules) (graph : Graph) (packets : List (List ℕ)) (events : List Event)
        → IsProper graph → IsAtRest graph (after rules graph packets (events ++ Drain ∷ [])) }
    ensures all_up { (rules : Rules) (graph : Graph) (packets : List (List ℕ)) (events : List Event)
        → IsProper graph → IsAllUp (after rules graph packets (events ++ Drain ∷ [])) }
    ensures still { (rules : Rules) (graph : Graph) (packets : List (List ℕ)) (events : List Event)
        → IsProper graph
        → round rules graph (after rules graph packets (events ++ Drain ∷ [])) ≡ after rules graph packets (events ++ Drain ∷ []) }
{}

/// After a round that changes nothing no round changes anything.
pub fn still_round()
    ensures same { (rules : Rules) (graph : Graph) (count : ℕ) (state : State)
        → round rules graph state ≡ state → rounds rules graph count state ≡ state }
{}

/// Where each note has room behind those before it, the network is that of journals that never
/// fill: no step lacked room.
pub fn run_with_room()
    ensures same { (rules : Rules) (graph : Graph) (packets : List (List ℕ)) (events : List Event)
        → HadRoom rules graph packets events
        → after rules graph packets events ≡ after (endless rules) graph packets events }
{}

/// After a drain, where no step lacked room, no broker owes anything, no line has a packet
/// unanswered, and a subscriber holds exactly the identifiers whose only packet was acknowledged
/// and reaches it.
pub fn drained_state()
    ensures settled { (rules : Rules) (graph : Graph) (packets : List (List ℕ)) (events : List Event)
        → IsProper graph → HadRoom rules graph packets (events ++ Drain ∷ [])
        → IsSettled graph (after rules graph packets (events ++ Drain ∷ [])) }
    ensures answered { (rules : Rules) (graph : Graph) (packets : List (List ℕ)) (events : List Event)
        → IsProper graph → HadRoom rules graph packets (events ++ Drain ∷ [])
        → IsAllAnswered graph (after rules graph packets (events ++ Drain ∷ [])) }
    ensures delivered { (rules : Rules) (graph : Graph) (packets : List (List ℕ)) (events : List Event)
        → IsProper graph → HadRoom rules graph packets (events ++ Drain ∷ [])
        → IsDelivered rules graph (after rules graph packets (events ++ Drain ∷ [])) }
{}

/// Where each event of two lists only moves packets and answers, so does each of the lists joined.
pub fn traffic_continued()
    ensures joined { (one two : List Event) → AllTraffic one → AllTraffic two → AllTraffic (one ++ two) }
{}
