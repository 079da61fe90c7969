ghost use Rattle.std.specs.Prelude.{◌≡◌, ◌≤◌, ◌<◌, ◌+◌, ◌⊎◌, ◌↔◌, length, Some, None, not, true, false, IsTrue, IfSome, IfOk, OnOk, OnErr};
ghost use Rattle.law_base.specs.Members.{IsIn};
ghost use Rattle.conn_graph.specs.Ends.{ends};
ghost use Rattle.node_table.specs.Kinds.{row as row_of, is_delay_kind};
ghost use Rattle.meaning.specs.World.{kind_of};
ghost use Rattle.quantum_render.specs.Sites.{IsQuantum, site_in};
ghost use Rattle.quantum_render.specs.Plans.{IsPlan, IsPlanned, IsUnedited, AreCycles};

use crate::site::{Quantum, Site};
use conn_graph::{Edge, Graph};
use cycle_order::{Ends, Layout, Parts, lay_out, marked};
use meaning::World;
use node_table::Channels;
use quantum_blocks::places_of;
use std::alloc::Global;
use std::marker::Model;
use std::sync::ledger::Ledger;
use wa_base::{End, NoMemory, Steps, Tie};

// What a graph is rendered by, with the number of edits that the graph had.
#[derive(Drop)]
pub(crate) struct Plan {
    // none of a plan that was made of no graph
    planned: Option<u64>,
    tie: Tie,
    // The unmuted ends in a legal order.
    order: Ends,
    muted: Ends,
    // For each node, the connections that lead to it.
    into: Parts<Edge>,
    near: Vec<usize>,
    // For each node, whether it is a delay in a cycle.
    cycles: Vec<bool>,
    // The ends of the order whose number of channels hangs on the time, in the same order.
    timed: Vec<End>,
}

impl Model for Plan {
    ghost use Rattle.quantum_render.specs.Plans.{PlanView};

    ghost Value = { PlanView };

    ghost view = { λ p. record {
      planned = p.planned;
      tie = p.tie;
      order = p.order;
      muted = p.muted;
      into = p.into;
      cycles = p.cycles.items;
      timed = p.timed.items;
    } };
}

impl Plan {
    // The plan of no graph.
    pub(crate) fn new(alloc: Global, tie: Tie) -> Result<Plan, NoMemory>
        ensures planned { IfOk result (λ plan. plan.planned ≡ None) }
        ensures tie { IfOk result (λ plan. plan.tie ≡ tie) }
    {
        Ok(Plan {
            planned: None,
            tie,
            order: Ends::new(alloc),
            muted: Ends::new(alloc),
            into: Parts::new(alloc)?,
            near: Vec::new(alloc),
            cycles: Vec::new(alloc),
            timed: Vec::new(alloc),
        })
    }

    // Surveys and orders the graph of a world. Each connection is looked at once.
    fn of<L: Ledger>(
        alloc: Global,
        world: &World,
        tie: Tie,
        steps: &mut Steps<L>,
    ) -> Result<Plan, NoMemory>
        ensures plan { IfOk result (λ plan. IsPlanned world.now.graph.value plan) }
        ensures planned { IfOk result (λ plan. plan.planned ≡ Some world.now.graph.edits) }
        ensures tie { IfOk result (λ plan. plan.tie ≡ tie) }
        ensures cost { steps.new ≤ steps.old + length world.now.graph.value.edges + length world.now.graph.value.nodes }
    {
        let graph = &world.graph;
        let near = places_of(alloc, world)?;
        let Layout { marks, order, into } = lay_out(alloc, graph, tie, steps)?;
        let cycles = marked(alloc, graph.len(), marks.in_cycle.as_slice())?;
        let timed = timed_ends(alloc, world, order.ends.as_slice())?;
        Ok(Plan {
            planned: Some(graph.edits()),
            tie,
            order: order.ends,
            muted: marks.muted,
            into,
            near,
            cycles,
            timed,
        })
    }

    // Makes this the plan of a world. Where nothing was edited in the graph, the plan is kept, and no
    // connection is looked at. After `NoMemory` the plan is as before.
    pub(crate) fn follow<L: Ledger>(
        &mut self,
        alloc: Global,
        world: &World,
        steps: &mut Steps<L>,
    ) -> Result<(), NoMemory>
        requires unedited { IsUnedited self.old.planned world.now.graph → IsPlanned world.now.graph.value self.old }
        ensures plan { OnOk result (IsPlanned world.now.graph.value self.new) }
        ensures planned { OnOk result (self.new.planned ≡ Some world.now.graph.edits) }
        ensures kept { IsUnedited self.old.planned world.now.graph → self.new ≡ self.old }
        ensures err { OnErr result (self.new ≡ self.old) }
        ensures tie { self.new.tie ≡ self.old.tie }
        ensures cost { steps.new ≤ steps.old + length world.now.graph.value.edges + length world.now.graph.value.nodes }
        ensures unedited_cost { IsUnedited self.old.planned world.now.graph → steps.new ≡ steps.old }
    {
        if self.is_unedited(&world.graph) {
            return Ok(());
        }
        *self = Plan::of(alloc, world, self.tie, steps)?;
        Ok(())
    }

    // Whether nothing was edited in a graph since it was planned.
    fn is_unedited(&self, graph: &Graph) -> bool
        ensures { IsTrue result ↔ IsUnedited self.now.planned graph.now }
    {
        let edits = graph.edits();
        match self.planned {
            Some(planned) => planned == edits && edits < u64::MAX,
            None => false,
        }
    }

    pub(crate) fn order(&self) -> &[End]
        ensures { result.now ≡ self.now.order }
    {
        self.order.as_slice()
    }

    pub(crate) fn muted(&self) -> &[End]
        ensures { result.now ≡ self.now.muted }
    {
        self.muted.as_slice()
    }

    // An end in a quantum, with the connections that lead to its node.
    pub(crate) fn site<'a>(&'a self, quantum: &'a Quantum<'a>, end: End) -> Site<'a>
        requires quantum { IsQuantum quantum.now.world.now quantum.now.counts.now quantum.now.levels.now quantum.now.first }
        requires plan { IsPlan quantum.now.world.now self.now.order self.now.muted self.now.into }
        requires cycles { AreCycles quantum.now.world.now.graph.value quantum.now.cycles.now }
        requires there { IsIn end (ends quantum.now.world.now.graph.value) }
        ensures { result ≡ site_in quantum.now end }
    {
        Site {
            quantum,
            end,
            into: self.into.part(end.node.0 as usize),
        }
    }

    // Where the schedule of each node is likely to stand.
    pub(crate) fn near(&self) -> &[usize] {
        self.near.as_slice()
    }

    // For each node, whether it is a delay in a cycle.
    pub(crate) fn cycles(&self) -> &[bool]
        ensures { result.now ≡ self.now.cycles }
    {
        self.cycles.as_slice()
    }

    // The ends whose number of channels hangs on the time.
    pub(crate) fn timed(&self) -> &[End]
        ensures { result.now ≡ self.now.timed }
    {
        self.timed.as_slice()
    }

    // For each node, the connections that lead to it.
    pub(crate) fn sources(&self) -> &Parts<Edge>
        ensures { result.now ≡ self.now.into }
    {
        &self.into
    }
}

// The ends of an order whose number of channels hangs on the time.
fn timed_ends(alloc: Global, world: &World, order: &[End]) -> Result<Vec<End>, NoMemory> {
    let mut timed = Vec::new(alloc);
    for end in order {
        if is_timed(world, *end) {
            timed.push(*end)?;
        }
    }
    Ok(timed)
}

// Whether the number of channels of an end hangs on the time: it is the reader of a delay, or it plays
// a buffer.
fn is_timed(world: &World, end: End) -> bool {
    if end.node.0 >= world.nodes.len() {
        return false;
    }
    match channels_of(world, end) {
        Some(Channels::Always(_) | Channels::OfInput) => false,
        Some(Channels::OfBuffer) | None => true,
    }
}

// How many channels an end has, by its node's row. That of a delay's reader does not say it.
pub(crate) fn channels_of(world: &World, end: End) -> Option<Channels>
    requires { end.node.0 < length world.now.nodes }
    ensures row { IfSome result (λ channels. (row_of (kind_of world.now end.node.0)).channels ≡ channels) }
    ensures plain { IfSome result (λ _. (not end.writer ≡ false) ⊎ (is_delay_kind (kind_of world.now end.node.0) ≡ false)) }
    ensures reader { result ≡ None → (is_delay_kind (kind_of world.now end.node.0) ≡ true) × (end.writer ≡ false) }
{
    let row = world.nodes.kind(end.node).row();
    if row.keeps.is_written() && !end.writer {
        None
    } else {
        Some(row.channels)
    }
}
