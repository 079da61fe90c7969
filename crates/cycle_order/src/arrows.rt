ghost use Rattle.std.specs.Prelude.{◌≡◌, ◌<◌, ◌≤◌, ◌+◌, ◌++◌, ◌==◌, ◌&&◌, not, length, map, IfOk, OnOk};
ghost use Rattle.std.specs.List.{list_any};
ghost use Rattle.law_base.specs.Members.{IsIn};
ghost use Rattle.conn_graph.specs.declared.edges.Edge.{Edge};
ghost use Rattle.conn_graph.specs.Edges.{target_node};
ghost use Rattle.conn_graph.specs.Ends.{ends, arrives_at, is_delay, in_cycle as is_in_cycle};
ghost use Rattle.conn_graph.specs.Graph.{IsGraph};
ghost use Rattle.cycle_order.specs.Arrows as spec;
ghost use Rattle.cycle_order.specs.Surveys.{delays_in_cycle, TellCycles};

use crate::parts::Parts;
use crate::reaching::Arrows;
use conn_graph::{Edge, Graph, Target};
use std::alloc::Global;
use std::sync::ledger::Ledger;
use wa_base::{End, NoMemory, NodeId, Steps};

// For each node, the connections that leave it. Each is looked at once.
#[tactic(auto, unfolding(crate::specs::Arrows::edge_lists))]
pub(crate) fn edge_lists<L: Ledger>(
    alloc: Global,
    graph: &Graph,
    steps: &mut Steps<L>,
) -> Result<Parts<Edge>, NoMemory>
    ensures lists { IfOk result (λ lists. lists ≡ spec.edge_lists graph.now.value) }
    ensures whole { IsGraph graph.now.value }
    ensures cost { steps.new ≤ steps.old + length graph.now.value.edges + length graph.now.value.nodes }
{
    let number = graph.len();
    let mut edges = Vec::new(alloc);
    let mut bounds = vec![in alloc; 0]?;
    bounds.reserve(number as usize)?;
    for node in 0..number {
        append_edges_from(&mut edges, graph, NodeId(node), steps)?;
        bounds.push(edges.len())?;
    }
    Ok(Parts::between(edges, bounds))
}

// Appends the connections that leave a node.
fn append_edges_from<L: Ledger>(
    edges: &mut Vec<Edge>,
    graph: &Graph,
    node: NodeId,
    steps: &mut Steps<L>,
) -> Result<(), NoMemory>
    requires { node.0 < length graph.now.value.nodes }
    ensures edges { OnOk result (edges.new.items ≡ edges.old.items ++ spec.edges_from graph.now.value node.0) }
    ensures cost { steps.new ≤ steps.old + length (spec.edges_from graph.now.value node.0) + 1 }
{
    let mut after = None;
    while let Some((cell, edge)) = graph.next_out(node, after, steps) {
        edges.push(edge)?;
        after = Some(cell);
    }
    Ok(())
}

// The connections as arrows from node to node.
pub(crate) fn node_arrows(alloc: Global, lists: &Parts<Edge>) -> Result<Arrows, NoMemory>
    ensures { IfOk result (λ arrows. arrows ≡ map spec.node_targets lists.now) }
{
    let mut targets = Vec::new(alloc);
    targets.reserve(lists.items().len())?;
    let mut bounds = vec![in alloc; 0]?;
    bounds.reserve(lists.len())?;
    for node in 0..lists.len() {
        append_node_targets(&mut targets, lists.part(node))?;
        bounds.push(targets.len())?;
    }
    Ok(Parts::between(targets, bounds))
}

// Appends the nodes that connections lead to.
fn append_node_targets(targets: &mut Vec<usize>, edges: &[Edge]) -> Result<(), NoMemory>
    ensures { OnOk result (targets.new.items ≡ targets.old.items ++ spec.node_targets edges.now) }
{
    for edge in edges {
        targets.push(edge.to.node().0 as usize)?;
    }
    Ok(())
}

// The number of an end among the vertices.
pub(crate) fn vertex_of(end: End) -> usize
    ensures { result ≡ spec.vertex_of end }
{
    2 * end.node.0 as usize + usize::from(!end.writer)
}

// The arrows between ends, by the connections of each node and the marks of the delays that are in a
// cycle.
pub(crate) fn end_arrows(
    alloc: Global,
    graph: &Graph,
    lists: &Parts<Edge>,
    cycles: &[bool],
) -> Result<Arrows, NoMemory>
    requires whole { IsGraph graph.now.value }
    requires lists { lists.now ≡ spec.edge_lists graph.now.value }
    requires cycles { TellCycles graph.now.value cycles.now }
    ensures { IfOk result (λ arrows. arrows ≡ spec.end_arrows graph.now.value) }
{
    let mut targets = Vec::new(alloc);
    targets.reserve(lists.items().len())?;
    let mut bounds = vec![in alloc; 0]?;
    bounds.reserve(2 * graph.len() as usize)?;
    for i in 0..graph.len() {
        append_writer_targets(&mut targets, graph, NodeId(i), cycles)?;
        bounds.push(targets.len())?;
        append_reader_targets(&mut targets, graph, lists.part(i as usize))?;
        bounds.push(targets.len())?;
    }
    Ok(Parts::between(targets, bounds))
}

// Appends the vertices to which arrows lead from a node's writer.
fn append_writer_targets(
    targets: &mut Vec<usize>,
    graph: &Graph,
    node: NodeId,
    cycles: &[bool],
) -> Result<(), NoMemory>
    requires node { node.0 < length graph.now.value.nodes }
    requires cycles { TellCycles graph.now.value cycles.now }
    ensures { OnOk result (targets.new.items ≡ targets.old.items ++ spec.writer_targets graph.now.value node.0) }
{
    if graph.is_delay(node) && !cycles[node.0 as usize] {
        let reader = End {
            node,
            writer: false,
        };
        targets.push(vertex_of(reader))?;
    }
    Ok(())
}

// Whether an arrow leads from a node's writer to its reader.
pub(crate) fn is_passed_on(graph: &Graph, node: NodeId, in_cycle: &[NodeId]) -> bool
    requires node { node.0 < length graph.now.value.nodes }
    requires in_cycle { in_cycle.now ≡ delays_in_cycle graph.now.value }
    ensures { result ≡ (is_delay graph.now.value node.0 && not (is_in_cycle graph.now.value node.0)) }
{
    graph.is_delay(node) && !is_listed(in_cycle, node)
}

fn is_listed(nodes: &[NodeId], node: NodeId) -> bool
    ensures { result ≡ list_any (λ other. other.0 == node.0) nodes.now }
{
    nodes.contains(&node)
}

// Appends the vertices to which the connections of a node lead from its reader.
fn append_reader_targets(
    targets: &mut Vec<usize>,
    graph: &Graph,
    edges: &[Edge],
) -> Result<(), NoMemory>
    requires { (e : Edge) → IsIn e edges.now → target_node e.to < length graph.now.value.nodes }
    ensures { OnOk result (targets.new.items ≡ targets.old.items ++ spec.reader_targets graph.now.value edges.now) }
{
    for edge in edges {
        targets.push(vertex_of(arrives_at(graph, edge.to)))?;
    }
    Ok(())
}

// The end at which a connection arrives.
pub(crate) fn arrives_at(graph: &Graph, target: Target) -> End
    requires { target_node target < length graph.now.value.nodes }
    ensures { result ≡ arrives_at graph.now.value target }
{
    match target {
        Target::Input { node, .. } => End {
            node,
            writer: graph.is_delay(node),
        },
        Target::Param(param) => End {
            node: param.node,
            writer: false,
        },
    }
}

// All ends, in order of node number, the writer first.
#[tactic(auto, unfolding(conn_graph::specs::Ends::ends))]
pub(crate) fn ends(alloc: Global, graph: &Graph) -> Result<Vec<End>, NoMemory>
    ensures { IfOk result (λ list. list.items ≡ ends graph.now.value) }
{
    let mut ends = Vec::new(alloc);
    for i in 0..graph.len() {
        let node = NodeId(i);
        if graph.is_delay(node) {
            ends.push(End { node, writer: true })?;
        }
        ends.push(End {
            node,
            writer: false,
        })?;
    }
    Ok(ends)
}
