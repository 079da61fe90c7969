ghost use Rattle.std.specs.Prelude.{◌≡◌, ◌<◌, ◌≤◌, ◌+◌, ℕ, [], length, filter, slice_index_or, IfOk};
ghost use Rattle.conn_graph.specs.Cells.{enters};
ghost use Rattle.conn_graph.specs.Orders.{IsLegalOrder};
ghost use Rattle.cycle_order.specs.Choices.{chosen_order};
ghost use Rattle.cycle_order.specs.Surveys.{IsSurvey};

use crate::arrows::{edge_lists, end_arrows};
use crate::orders::{Ordered, order_by_arrows};
use crate::parts::Parts;
use crate::surveys::{Surveyed, cycle_marks, survey_by_arrows};
use crate::targets::by_target;
use conn_graph::{Edge, Graph};
use std::alloc::Global;
use std::sync::ledger::Ledger;
use wa_base::{NoMemory, Steps, Tie};

/// What a graph is rendered by.
#[derive(Drop)]
pub struct Layout {
    /// The muted ends, and the delays that are in a cycle.
    pub marks: Surveyed,
    /// The unmuted ends, each behind those that it hears.
    pub order: Ordered,
    /// For each node, the connections that lead to it, in the graph's order.
    pub into: Parts<Edge>,
}

/// Surveys and orders a graph, and lists its connections by the node that they lead to. Each
/// connection and each node is looked at once.
pub fn lay_out<L: Ledger>(
    alloc: Global,
    graph: &Graph,
    tie: Tie,
    steps: &mut Steps<L>,
) -> Result<Layout, NoMemory>
    ensures survey { IfOk result (λ layout. IsSurvey graph.now.value layout.marks) }
    ensures legal { IfOk result (λ layout. IsLegalOrder graph.now.value layout.order.ends) }
    ensures tie { IfOk result (λ layout. layout.order.ends ≡ chosen_order graph.now.value tie) }
    ensures length { IfOk result (λ layout. length layout.into ≡ length graph.now.value.nodes) }
    ensures each { IfOk result (λ layout. (n : ℕ) → n < length graph.now.value.nodes → slice_index_or layout.into n [] ≡ filter (enters n) graph.now.value.edges) }
    ensures cost { steps.new ≤ steps.old + length graph.now.value.edges + length graph.now.value.nodes }
{
    let lists = edge_lists(alloc, graph, steps)?;
    let cycles = cycle_marks(alloc, graph, &lists)?;
    let arrows = end_arrows(alloc, graph, &lists, cycles.as_slice())?;
    let marks = survey_by_arrows(alloc, graph, cycles, &arrows)?;
    let order = order_by_arrows(alloc, graph, marks.muted.as_slice(), &arrows, tie)?;
    let into = by_target(alloc, graph.len(), lists.items())?;
    Ok(Layout { marks, order, into })
}
