ghost use Rattle.std.specs.Prelude.{◌≡◌, ◌↔◌, ◌<◌, ◌≤◌, ◌+◌, ◌*◌, length, IsTrue};
ghost use Rattle.std.specs.List.{list_all};
ghost use Rattle.conn_graph.specs.Edges.{target_node};
ghost use Rattle.conn_graph.specs.Ends.{ends};
ghost use Rattle.conn_graph.specs.Graph.{IsGraph};
ghost use Rattle.conn_graph.specs.Orders.{IsLegalOrder};
ghost use Rattle.cycle_order.specs.Legality as spec;
ghost use Rattle.cycle_order.specs.Surveys.{IsSurvey};

use crate::arrows::{arrives_at, is_passed_on};
use crate::orders::is_listed;
use crate::surveys::Surveyed;
use conn_graph::{Edge, Graph};
use std::sync::ledger::Ledger;
use wa_base::{End, NodeId, Steps};

/// Whether a list of ends is a legal order: each unmuted end of the graph once, and no other end,
/// each behind the unmuted ends that it hears. Each connection and each node is looked at twice at
/// most.
pub fn is_legal<L: Ledger>(
    graph: &Graph,
    marks: &Surveyed,
    ends: &[End],
    steps: &mut Steps<L>,
) -> bool
    requires { IsSurvey graph.now.value marks.now }
    ensures legal { IsTrue result ↔ IsLegalOrder graph.now.value ends.now }
    ensures cost { steps.new ≤ steps.old + 2 * (length graph.now.value.edges + length graph.now.value.nodes) }
{
    for i in 0..ends.len() {
        if !can_follow(graph, marks, &ends[..i], ends[i], steps) {
            return false;
        }
    }
    are_settled(graph, marks.muted.as_slice(), ends)
}

// Whether each end of the graph is muted or placed.
#[tactic(auto, unfolding(conn_graph::specs::Ends::ends))]
fn are_settled(graph: &Graph, muted: &[End], placed: &[End]) -> bool
    ensures settled { result ≡ list_all (spec.is_settled muted.now placed.now) (ends graph.now.value) }
    ensures whole { IsGraph graph.now.value }
{
    for i in 0..graph.len() {
        let node = NodeId(i);
        let writer = End { node, writer: true };
        let reader = End {
            node,
            writer: false,
        };
        if graph.is_delay(node) && !is_settled(muted, placed, writer) {
            return false;
        }
        if !is_settled(muted, placed, reader) {
            return false;
        }
    }
    true
}

// Whether an end may stand behind those that are placed.
fn can_follow<L: Ledger>(
    graph: &Graph,
    marks: &Surveyed,
    placed: &[End],
    end: End,
    steps: &mut Steps<L>,
) -> bool
    requires { IsSurvey graph.now.value marks.now }
    ensures follows { result ≡ spec.can_follow graph.now.value marks.now.muted placed.now end }
    ensures cost { steps.new ≤ steps.old + spec.looks_for graph.now.value marks.now.muted placed.now end }
    ensures whole { IsGraph graph.now.value }
{
    let muted = marks.muted.as_slice();
    is_end(graph, end)
        && !is_settled(muted, placed, end)
        && is_writer_settled(graph, marks, placed, end)
        && are_sources_settled(graph, muted, placed, end, steps)
}

// Whether the graph has the end.
fn is_end(graph: &Graph, end: End) -> bool
    ensures is { result ≡ spec.is_end graph.now.value end }
    ensures whole { IsGraph graph.now.value }
{
    end.node.0 < graph.len() && (!end.writer || graph.is_delay(end.node))
}

// Whether an end is muted or placed.
fn is_settled(muted: &[End], placed: &[End], end: End) -> bool
    ensures { result ≡ spec.is_settled muted.now placed.now end }
{
    is_listed(muted, end) || is_listed(placed, end)
}

// Whether the writer is settled, where an arrow leads from it to the end.
fn is_writer_settled(graph: &Graph, marks: &Surveyed, placed: &[End], end: End) -> bool
    requires survey { IsSurvey graph.now.value marks.now }
    requires node { end.node.0 < length graph.now.value.nodes }
    ensures { result ≡ spec.writer_settled graph.now.value marks.now.muted placed.now end }
{
    let writer = End {
        node: end.node,
        writer: true,
    };
    end.writer
        || !is_passed_on(graph, end.node, marks.in_cycle.as_slice())
        || is_settled(marks.muted.as_slice(), placed, writer)
}

// Whether the sources of the connections that arrive at the end are settled.
fn are_sources_settled<L: Ledger>(
    graph: &Graph,
    muted: &[End],
    placed: &[End],
    end: End,
    steps: &mut Steps<L>,
) -> bool
    requires { end.node.0 < length graph.now.value.nodes }
    ensures settled { result ≡ list_all (spec.source_settled graph.now.value muted.now placed.now end) (spec.edges_into graph.now.value end.node.0) }
    ensures cost { steps.new ≤ steps.old + length (spec.edges_into graph.now.value end.node.0) + 1 }
{
    let mut after = None;
    while let Some((cell, edge)) = graph.next_in(end.node, after, steps) {
        if !is_source_settled(graph, muted, placed, end, edge) {
            return false;
        }
        after = Some(cell);
    }
    true
}

// Whether the source of a connection is settled, where the connection arrives at the end.
fn is_source_settled(graph: &Graph, muted: &[End], placed: &[End], end: End, edge: Edge) -> bool
    requires { target_node edge.to < length graph.now.value.nodes }
    ensures { result ≡ spec.source_settled graph.now.value muted.now placed.now end edge }
{
    let source = End {
        node: edge.from,
        writer: false,
    };
    arrives_at(graph, edge.to) != end || is_settled(muted, placed, source)
}
