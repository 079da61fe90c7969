ghost use Rattle.std.specs.List.{list_any};
ghost use Rattle.wa_base.specs.declared.graph_names.NodeId.{NodeId as a_node};
ghost use Rattle.wa_base.specs.declared.graph_names.End.{End as an_end};
ghost use Rattle.std.specs.Prelude.{◌≡◌, ◌<◌, ◌++◌, ◌==◌, ℕ, All, false, length, filter, slice_index_or, IfOk, OnOk};
ghost use Rattle.conn_graph.specs.Cells.{leaves};
ghost use Rattle.derivations.specs.Marks.{AreMarks};

use conn_graph::{Edge, Graph};
use cycle_order::{Parts, by_target, survey};
use std::alloc::Global;
use std::sync::ledger::{Blank, Ledger};
use wa_base::{End, NoMemory, NodeId, Steps};

/// What a graph says of each of its nodes.
#[derive(Drop)]
pub struct Marks {
    /// The connections that lead to it, in the graph's order.
    pub into: Parts<Edge>,
    /// Whether it is a delay in a cycle.
    pub cycles: Vec<bool>,
    /// Whether its reader is muted.
    pub muted: Vec<bool>,
}

// Surveys a graph, and counts no steps.
pub(crate) fn marks_of<L: Ledger>(
    alloc: Global,
    graph: &Graph,
    blank: Blank,
) -> Result<Marks, NoMemory>
    requires name { blank.name ≡ L.name }
    requires parts { blank.parts ≡ L.parts }
    requires some { 0 < L.parts }
    ensures { IfOk result (λ marks. AreMarks graph.now.value marks) }
{
    let mut steps: Steps<L> = Steps::new(blank);
    let found = survey(alloc, graph, &mut steps)?;
    let all = connections(alloc, graph, &mut steps)?;
    let into = by_target(alloc, graph.len(), all.as_slice())?;
    let cycles = marked_nodes(alloc, graph.len(), found.in_cycle.as_slice())?;
    let muted = marked_ends(alloc, graph.len(), found.muted.as_slice())?;
    Ok(Marks {
        into,
        cycles,
        muted,
    })
}

// All connections, in the graph's order.
fn connections<L: Ledger>(
    alloc: Global,
    graph: &Graph,
    steps: &mut Steps<L>,
) -> Result<Vec<Edge>, NoMemory>
    ensures { IfOk result (λ all. all.items ≡ graph.now.value.edges) }
{
    let mut all = Vec::new(alloc);
    for node in 0..graph.len() {
        append_from(&mut all, graph, NodeId(node), steps)?;
    }
    Ok(all)
}

// Appends the connections that leave a node.
fn append_from<L: Ledger>(
    all: &mut Vec<Edge>,
    graph: &Graph,
    node: NodeId,
    steps: &mut Steps<L>,
) -> Result<(), NoMemory>
    requires { node.0 < length graph.now.value.nodes }
    ensures { OnOk result (all.new.items ≡ all.old.items ++ filter (leaves node.0) graph.now.value.edges) }
{
    let mut after = None;
    while let Some((cell, edge)) = graph.next_out(node, after, steps) {
        all.push(edge)?;
        after = Some(cell);
    }
    Ok(())
}

// For each node, whether it is listed.
fn marked_nodes(alloc: Global, nodes: u32, listed: &[NodeId]) -> Result<Vec<bool>, NoMemory>
    requires { All (λ (node : a_node). node.0 < nodes) listed.now }
    ensures length { IfOk result (λ marks. length marks.items ≡ nodes) }
    ensures each { IfOk result (λ marks. (n : ℕ) → n < nodes → slice_index_or marks.items n false ≡ list_any (λ (node : a_node). node.0 == n) listed.now) }
{
    let mut marks = vec![in alloc; false; nodes as usize]?;
    for node in listed {
        marks[node.0 as usize] = true;
    }
    Ok(marks)
}

// For each node, whether an end of it is listed.
fn marked_ends(alloc: Global, nodes: u32, listed: &[End]) -> Result<Vec<bool>, NoMemory>
    requires { All (λ (end : an_end). end.node.0 < nodes) listed.now }
    ensures length { IfOk result (λ marks. length marks.items ≡ nodes) }
    ensures each { IfOk result (λ marks. (n : ℕ) → n < nodes → slice_index_or marks.items n false ≡ list_any (λ (end : an_end). end.node.0 == n) listed.now) }
{
    let mut marks = vec![in alloc; false; nodes as usize]?;
    for end in listed {
        marks[end.node.0 as usize] = true;
    }
    Ok(marks)
}
