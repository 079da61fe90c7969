ghost use Rattle.std.specs.Prelude.{◌≡◌, ◌↔◌, ◌≤◌, ◌+◌, ◌*◌, Bool, Some, not, filter, length, slice_get, IsTrue, IfOk};
ghost use Rattle.wa_base.specs.declared.graph_names.End.{End as an_end};
ghost use Rattle.std.specs.List.{list_any};
ghost use Rattle.conn_graph.specs.Ends.{same_end};
ghost use Rattle.conn_graph.specs.Graph.{IsGraph};
ghost use Rattle.conn_graph.specs.Orders.{IsLegalOrder};
ghost use Rattle.cycle_order.specs.Arrows.{end_arrows};
ghost use Rattle.cycle_order.specs.Choices as spec;
ghost use Rattle.cycle_order.specs.Surveys.{muted_ends, IsSurvey};

use crate::arrows::{edge_lists, end_arrows, ends};
use crate::places::place_all;
use crate::reaching::Arrows;
use crate::surveys::{Ends, Surveyed, marked};
use conn_graph::Graph;
use std::alloc::Global;
use std::sync::ledger::Ledger;
use wa_base::{End, NoMemory, Steps, Tie};

/// The unmuted ends of a graph in a legal order.
#[derive(Drop)]
pub struct Ordered {
    pub ends: Ends,
}

/// Orders the unmuted ends of a graph, so that each stands behind the unmuted ends that it hears.
///
/// Among the ends that are ready, the next place has the least one for `Tie::Up` and the greatest
/// one for `Tie::Down`, compared by node number and then the writer before the reader (the ordering
/// of nodes in the rendering loop of the Web Audio recommendation).
pub fn order<L: Ledger>(
    alloc: Global,
    graph: &Graph,
    marks: &Surveyed,
    tie: Tie,
    steps: &mut Steps<L>,
) -> Result<Ordered, NoMemory>
    requires { IsSurvey graph.now.value marks.now }
    ensures legal { IfOk result (λ ordered. IsLegalOrder graph.now.value ordered.ends) }
    ensures tie { IfOk result (λ ordered. ordered.ends ≡ spec.chosen_order graph.now.value tie) }
    ensures cost { steps.new ≤ steps.old + 4 * (length graph.now.value.edges + length graph.now.value.nodes) }
{
    let lists = edge_lists(alloc, graph, steps)?;
    let cycles = marked(alloc, graph.len(), marks.in_cycle.as_slice())?;
    let arrows = end_arrows(alloc, graph, &lists, cycles.as_slice())?;
    order_by_arrows(alloc, graph, marks.muted.as_slice(), &arrows, tie)
}

// The unmuted ends in a legal order, by the arrows between ends.
pub(crate) fn order_by_arrows(
    alloc: Global,
    graph: &Graph,
    muted: &[End],
    arrows: &Arrows,
    tie: Tie,
) -> Result<Ordered, NoMemory>
    requires whole { IsGraph graph.now.value }
    requires muted { muted.now ≡ muted_ends graph.now.value }
    requires arrows { arrows.now ≡ end_arrows graph.now.value }
    ensures legal { IfOk result (λ ordered. IsLegalOrder graph.now.value ordered.ends) }
    ensures tie { IfOk result (λ ordered. ordered.ends ≡ spec.chosen_order graph.now.value tie) }
{
    let unmuted = unmuted_ends(alloc, graph, muted)?;
    let ends = place_all(alloc, arrows, unmuted.as_slice(), tie)?;
    Ok(Ordered { ends })
}

fn unmuted_ends(alloc: Global, graph: &Graph, muted: &[End]) -> Result<Vec<End>, NoMemory>
    requires { muted.now ≡ muted_ends graph.now.value }
    ensures { IfOk result (λ unmuted. unmuted.items ≡ spec.unmuted_ends graph.now.value) }
{
    let all = ends(alloc, graph)?;
    unlisted(alloc, all.as_slice(), muted)
}

// The ends without those that are listed, in the order in which the list has them too. Both lists are
// gone along at once.
fn unlisted(alloc: Global, ends: &[End], listed: &[End]) -> Result<Vec<End>, NoMemory>
    ensures { IfOk result (λ rest. (test : an_end → Bool) → listed.now ≡ filter test ends.now → rest.items ≡ filter (λ e. not (test e)) ends.now) }
{
    let mut rest = Vec::new(alloc);
    let mut place = 0;
    for end in ends {
        if has_at(listed, place, *end) {
            place += 1;
        } else {
            rest.push(*end)?;
        }
    }
    Ok(rest)
}

// Whether a list has an end at a place.
fn has_at(ends: &[End], place: usize, end: End) -> bool
    ensures { IsTrue result ↔ (slice_get ends.now place ≡ Some end) }
{
    match ends.get(place) {
        Some(other) => *other == end,
        None => false,
    }
}

pub(crate) fn is_listed(ends: &[End], end: End) -> bool
    ensures { result ≡ list_any (λ other. same_end other end) ends.now }
{
    ends.contains(&end)
}
