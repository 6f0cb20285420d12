//! Graphs whose links have filters.

ghost use Rattle.std.specs.Prelude.{◌≡◌, ◌<◌, ◌++◌, ◌∷◌, ◌==◌, List, [], IfOk, OnOk, codes, length, map};
ghost use Rattle.std.specs.Fmt.{decimal};
ghost use Rattle.std.specs.List.{list_any};
ghost use Rattle.voe_scenario.specs.Shapes.{config_of, edges_from, ends_of, link_name as named_link, links_behind, node_name as named_node, shape};

use node_notes::{Config, LinkConfig};
use path_filter::FilterSet;
use std::alloc::Global;
use voe_values::{EndName, Listing, NoMemory, NodeKind, Text};

/// A line from an author to a broker, or a link from a broker to a broker or subscriber, by the numbers of its ends.
#[derive(Drop)]
pub struct Edge {
    pub upper: u8,
    pub lower: u8,
    /// What the texts spell: of a link the filters of which one must pass a packet; a line has none.
    pub filters: FilterSet,
    /// The filters' texts, as they were given.
    pub texts: Listing<Text>,
}

/// A network's nodes and edges, each numbered from 0.
#[derive(Drop)]
pub struct Graph {
    pub nodes: Listing<NodeKind>,
    pub edges: Listing<Edge>,
    /// How many packets may be unanswered on a connection.
    pub window: u8,
}

impl Graph {
    /// The graph without its filters, as the network's laws speak of it.
    pub fn shape(&self, alloc: Global) -> Result<net_model::Graph, NoMemory>
        ensures { IfOk result (λ graph. graph ≡ shape self.now) }
    {
        let nodes = self.nodes.copy()?;
        let edges = all_ends(alloc, self.edges.as_slice())?;
        Ok(net_model::Graph {
            nodes,
            edges,
            window: self.window,
        })
    }

    /// How the node of this number is configured: as `ivo://node/` and its number, with its lines or links in the order
    /// of their edges. Each has its lower node's name, and behind it a point and its own number where an earlier one of
    /// them leads to the same node.
    pub fn config(&self, alloc: Global, node: u8) -> Result<Config, NoMemory>
        requires { node < length self.now.nodes }
        ensures { IfOk result (λ config. config ≡ config_of self.now node) }
    {
        let kind = self.nodes.as_slice()[usize::from(node)];
        let name = node_name(alloc, node)?;
        let links = links_of(alloc, self.edges.as_slice(), node)?;
        Ok(Config { kind, name, links })
    }
}

/// Edges by their ends alone.
fn all_ends(alloc: Global, edges: &[Edge]) -> Result<Listing<net_model::Edge>, NoMemory>
    ensures { IfOk result (λ ends. ends ≡ map ends_of edges.now) }
{
    let mut ends = Listing::new(alloc);
    for edge in edges {
        let plain = net_model::Edge {
            upper: edge.upper,
            lower: edge.lower,
        };
        if let Err((_, fault)) = ends.push(plain) {
            return Err(fault);
        }
    }
    Ok(ends)
}

/// The name of a node.
fn node_name(alloc: Global, node: u8) -> Result<EndName, NoMemory>
    ensures { IfOk result (λ name. name ≡ named_node node) }
{
    let text = format!(in alloc; "ivo://node/{node}")?;
    EndName::of(alloc, text.as_str())
}

/// The name of a node, and behind it a point and the number of an edge that leads to it.
fn numbered_name(alloc: Global, node: u8, number: usize) -> Result<EndName, NoMemory>
    ensures { IfOk result (λ name. name ≡ named_node node ++ (codes "." ++ decimal number)) }
{
    let text = format!(in alloc; "ivo://node/{node}.{number}")?;
    EndName::of(alloc, text.as_str())
}

/// Tells whether the node is one of these.
fn has_node(nodes: &[u8], node: u8) -> bool
    ensures { result ≡ list_any (λ other. other == node) nodes.now }
{
    nodes.iter().any(|other| *other == node)
}

/// The name of a line or link, where the earlier ones lead to these nodes.
fn link_name(alloc: Global, earlier: &[u8], lower: u8) -> Result<EndName, NoMemory>
    ensures { IfOk result (λ name. name ≡ named_link earlier.now lower) }
{
    if has_node(earlier, lower) {
        numbered_name(alloc, lower, earlier.len())
    } else {
        node_name(alloc, lower)
    }
}

/// Equal texts of their own.
fn copy_texts(alloc: Global, texts: &[Text]) -> Result<Listing<Text>, NoMemory>
    ensures { IfOk result (λ copies. copies ≡ texts.now) }
{
    let mut copies = Listing::new(alloc);
    for text in texts {
        let copy = text.copy()?;
        if let Err((_, fault)) = copies.push(copy) {
            return Err(fault);
        }
    }
    Ok(copies)
}

/// A line or link, where the earlier ones of its node lead to these nodes.
fn link_of(alloc: Global, earlier: &[u8], edge: &Edge) -> Result<LinkConfig, NoMemory>
    ensures { IfOk result (λ link. link ≡ record { name = named_link earlier.now edge.now.lower; filters = edge.now.texts }) }
{
    let name = link_name(alloc, earlier, edge.lower)?;
    let filters = copy_texts(alloc, edge.texts.as_slice())?;
    Ok(LinkConfig { name, filters })
}

/// Adds a line or link, and its lower node to those of the earlier ones.
fn add_link(
    alloc: Global,
    links: &mut Listing<LinkConfig>,
    earlier: &mut Listing<u8>,
    edge: &Edge,
) -> Result<(), NoMemory>
    ensures link { OnOk result (links.new ≡ links.old ++ record { name = named_link earlier.old edge.now.lower; filters = edge.now.texts } ∷ []) }
    ensures lower { OnOk result (earlier.new ≡ earlier.old ++ edge.now.lower ∷ []) }
{
    let link = link_of(alloc, earlier.as_slice(), edge)?;
    if let Err((_, fault)) = links.push(link) {
        return Err(fault);
    }
    earlier.push(edge.lower).map_err(|refused| refused.1)
}

/// Adds an edge's line or link, where the edge leads out of the node.
fn take_edge(
    alloc: Global,
    links: &mut Listing<LinkConfig>,
    earlier: &mut Listing<u8>,
    edge: &Edge,
    node: u8,
) -> Result<(), NoMemory>
    ensures { OnOk result ((rest : List Edge) → links.new ++ links_behind earlier.new (edges_from node rest) ≡ links.old ++ links_behind earlier.old (edges_from node (edge.now ∷ rest))) }
{
    if edge.upper == node {
        add_link(alloc, links, earlier, edge)
    } else {
        Ok(())
    }
}

/// A node's lines or links, in the order of their edges.
fn links_of(alloc: Global, edges: &[Edge], node: u8) -> Result<Listing<LinkConfig>, NoMemory>
    ensures { IfOk result (λ links. links ≡ links_behind [] (edges_from node edges.now)) }
{
    let mut links = Listing::new(alloc);
    let mut earlier: Listing<u8> = Listing::new(alloc);
    for edge in edges {
        take_edge(alloc, &mut links, &mut earlier, edge, node)?;
    }
    Ok(links)
}
