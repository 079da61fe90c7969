ghost use Rattle.std.specs.Prelude.{◌*◌, ◌+◌, ◌≤◌, ◌≡◌, ◌<◌, ◌==◌, ℕ, [], All, false, length, slice_index_or, IfOk};
ghost use Rattle.std.specs.List.{list_any};
ghost use Rattle.wa_base.specs.declared.graph_names.End.{End};
ghost use Rattle.wa_base.specs.declared.graph_names.NodeId.{NodeId as a_node};
ghost use Rattle.law_base.specs.Members.{IsIn};
ghost use Rattle.conn_graph.specs.Graph.{IsGraph};
ghost use Rattle.cycle_order.specs.Arrows as arrows_spec;
ghost use Rattle.cycle_order.specs.Surveys as spec;

use crate::arrows::{edge_lists, end_arrows, ends, node_arrows, vertex_of};
use crate::parts::Parts;
use crate::reaching::{Arrows, on_cycles};
use conn_graph::{Edge, Graph};
use std::alloc::Global;
use std::sync::ledger::Ledger;
use wa_base::{End, Items, NoMemory, NodeId, Steps};

/// A list of nodes. Contracts see it as the list itself.
pub type Ids = Items<NodeId>;

/// A list of ends. Contracts see it as the list itself.
pub type Ends = Items<End>;

/// What a survey of a graph says.
#[derive(Drop)]
pub struct Surveyed {
    /// The delays in a cycle, in order of node number.
    pub in_cycle: Ids,
    /// The muted ends, in order of node number, the writer before the reader.
    pub muted: Ends,
}

/// Finds the delays in a cycle and the muted ends of a graph.
///
/// A delay is in a cycle where its node reaches itself through connections, those to parameters
/// included. An end is muted where it reaches itself, as a node in a cycle without a delay does
/// (the rendering loop of the Web Audio recommendation mutes the nodes of such a cycle).
pub fn survey<L: Ledger>(
    alloc: Global,
    graph: &Graph,
    steps: &mut Steps<L>,
) -> Result<Surveyed, NoMemory>
    ensures survey { IfOk result (λ marks. spec.IsSurvey graph.now.value marks) }
    ensures cost { steps.new ≤ steps.old + 4 * (length graph.now.value.edges + length graph.now.value.nodes) }
{
    let lists = edge_lists(alloc, graph, steps)?;
    let cycles = cycle_marks(alloc, graph, &lists)?;
    let arrows = end_arrows(alloc, graph, &lists, cycles.as_slice())?;
    survey_by_arrows(alloc, graph, cycles, &arrows)
}

// What a survey says, by the marks of the nodes that are on a cycle and the arrows between ends.
pub(crate) fn survey_by_arrows(
    alloc: Global,
    graph: &Graph,
    marks: Vec<bool>,
    arrows: &Arrows,
) -> Result<Surveyed, NoMemory>
    requires whole { IsGraph graph.now.value }
    requires marks { marks.items ≡ spec.cycle_marks graph.now.value }
    requires arrows { arrows.now ≡ arrows_spec.end_arrows graph.now.value }
    ensures { IfOk result (λ marks. spec.IsSurvey graph.now.value marks) }
{
    if !is_any_marked(marks.as_slice()) {
        return Ok(Surveyed::nothing(alloc));
    }
    let in_cycle = marked_delays(alloc, graph, marks.as_slice())?;
    let muted = muted_ends(alloc, graph, arrows)?;
    Ok(Surveyed { in_cycle, muted })
}

impl Surveyed {
    // What a survey says where no node is on a cycle: the ends are not gone through.
    fn nothing(alloc: Global) -> Surveyed
        ensures in_cycle { result.in_cycle ≡ [] }
        ensures muted { result.muted ≡ [] }
    {
        Surveyed {
            in_cycle: Ids::new(alloc),
            muted: Ends::new(alloc),
        }
    }
}

// For each node, whether it reaches itself through connections.
pub(crate) fn cycle_marks(
    alloc: Global,
    graph: &Graph,
    lists: &Parts<Edge>,
) -> Result<Vec<bool>, NoMemory>
    requires whole { IsGraph graph.now.value }
    requires lists { lists.now ≡ arrows_spec.edge_lists graph.now.value }
    ensures { IfOk result (λ marks. marks.items ≡ spec.cycle_marks graph.now.value) }
{
    let arrows = node_arrows(alloc, lists)?;
    on_cycles(alloc, &arrows)
}

fn is_any_marked(marks: &[bool]) -> bool
    ensures { result ≡ list_any (λ mark. mark) marks.now }
{
    marks.iter().any(|mark| *mark)
}

// The delays among the marked nodes.
fn marked_delays(alloc: Global, graph: &Graph, marks: &[bool]) -> Result<Ids, NoMemory>
    requires { length marks.now ≡ length graph.now.value.nodes }
    ensures { IfOk result (λ ids. ids ≡ spec.marked_delays graph.now.value marks.now) }
{
    let mut ids = Ids::new(alloc);
    for i in 0..graph.len() {
        let node = NodeId(i);
        if graph.is_delay(node) && marks[i as usize] {
            ids.push(node)?;
        }
    }
    Ok(ids)
}

fn muted_ends(alloc: Global, graph: &Graph, arrows: &Arrows) -> Result<Ends, NoMemory>
    requires whole { IsGraph graph.now.value }
    requires arrows { arrows.now ≡ arrows_spec.end_arrows graph.now.value }
    ensures { IfOk result (λ muted. muted ≡ spec.muted_ends graph.now.value) }
{
    let ends = ends(alloc, graph)?;
    let marks = on_cycles(alloc, arrows)?;
    marked_ends(alloc, ends.as_slice(), marks.as_slice())
}

// The ends whose vertices are marked.
fn marked_ends(alloc: Global, ends: &[End], marks: &[bool]) -> Result<Ends, NoMemory>
    requires { (e : End) → IsIn e ends.now → arrows_spec.vertex_of e < length marks.now }
    ensures { IfOk result (λ marked. marked ≡ spec.marked_ends marks.now ends.now) }
{
    let mut marked = Ends::new(alloc);
    for end in ends {
        if marks[vertex_of(*end)] {
            marked.push(*end)?;
        }
    }
    Ok(marked)
}

/// For each node, whether it is listed.
pub fn marked(alloc: Global, nodes: u32, listed: &[NodeId]) -> Result<Vec<bool>, NoMemory>
    requires { All (λ (node : a_node). node.0 < nodes) listed.now }
    ensures length { IfOk result (λ marks. length marks.items ≡ nodes) }
    ensures each { IfOk result (λ marks. (n : ℕ) → n < nodes → slice_index_or marks.items n false ≡ list_any (λ (node : a_node). node.0 == n) listed.now) }
{
    let mut marks = vec![in alloc; false; nodes as usize]?;
    for node in listed {
        marks[node.0 as usize] = true;
    }
    Ok(marks)
}
