ghost use Rattle.std.specs.Prelude.{◌≡◌, ◌≤◌, List, true, if◌then◌else◌};
ghost use Rattle.wa_base.specs.Contexts.{quantum_of};
ghost use Rattle.node_table.specs.Kinds.{outputs as outputs_of, IsInLimits};
ghost use Rattle.conn_graph.specs.Ends.{is_delay, in_cycle as cycle_of};
ghost use Rattle.meaning.specs.World.{kind_of};
ghost use Rattle.quantum_blocks.specs.Blocks.{BlockView as a_block, counts_in};
ghost use Rattle.quantum_blocks.specs.Fits.{AreFit};
ghost use Rattle.quantum_render.specs.Sites.{IsSite};
ghost use Rattle.quantum_render.specs.Renders.{IsPlace};

use automation::Level;
use conn_graph::Edge;
use meaning::World;
use node_table::Kind;
use quantum_blocks::{near_of, slot};
use std::marker::Model;
use wa_base::End;

// What the ends of a valid world are rendered by in the quantum that begins at a frame.
#[derive(Clone, Copy)]
pub(crate) struct Quantum<'a> {
    pub world: &'a World,
    // The channels of each end, by its slot.
    pub counts: &'a [u32],
    // The level of each node's parameter.
    pub levels: &'a [Level],
    pub first: u64,
    // Where the schedule of each node is likely to stand.
    pub near: &'a [usize],
    // For each node, whether it is a delay in a cycle.
    pub cycles: &'a [bool],
    // A mark for each end that is idle, by its slot. There is none where that is not known.
    pub idle: &'a [bool],
}

// An end of a node in a quantum, with the connections that lead to the node.
#[derive(Drop)]
pub(crate) struct Site<'a> {
    pub quantum: &'a Quantum<'a>,
    pub end: End,
    pub into: &'a [Edge],
}

impl<'a> Model for Site<'a> {
    ghost use Rattle.quantum_render.specs.Sites.{SiteView, IsSite};
    ghost use Rattle.quantum_render.specs.Plans.{AreCycles};

    ghost Value = { SiteView };

    ghost view = { λ s. record { world = s.quantum.now.world.now; end = s.end; into = s.into.now; counts = s.quantum.now.counts.now; levels = s.quantum.now.levels.now; first = s.quantum.now.first } };

    ghost invariant = { λ s. IsSite s.quantum.now.world.now s.end s.into.now s.quantum.now.counts.now s.quantum.now.levels.now s.quantum.now.first × AreCycles s.quantum.now.world.now.graph.value s.quantum.now.cycles.now };
}

impl Site<'_> {
    // The number of channels of the end.
    pub(crate) fn channels(&self) -> usize
        ensures count { result ≡ counts_in self.now.counts self.now.end }
        ensures low { 1 ≤ result }
        ensures high { result ≤ 32 }
        ensures site { IsSite self.now.world self.now.end self.now.into self.now.counts self.now.levels self.now.first }
    {
        self.quantum.counts[slot(self.end)] as usize
    }

    // The place of the end's block.
    pub(crate) fn place(&self) -> usize
        ensures own { (blocks : List a_block) → AreFit self.now.world self.now.counts blocks → IsPlace self.now blocks result }
    {
        slot(self.end)
    }

    // What the end's node is.
    pub(crate) fn kind(&self) -> &Kind
        ensures value { result.now ≡ kind_of self.now.world self.now.end.node.0 }
        ensures limits { IsInLimits result.now }
        ensures site { IsSite self.now.world self.now.end self.now.into self.now.counts self.now.levels self.now.first }
    {
        self.quantum.world.nodes.kind(self.end.node)
    }

    // Where the schedule of the end's node is likely to stand.
    pub(crate) fn near(&self) -> usize {
        near_of(self.quantum.near, self.end.node)
    }

    // The number of outputs of the end's node.
    pub(crate) fn outputs(&self) -> u32
        ensures count { result ≡ outputs_of (kind_of self.now.world self.now.end.node.0) }
        ensures ports { IsInLimits (kind_of self.now.world self.now.end.node.0) }
        ensures site { IsSite self.now.world self.now.end self.now.into self.now.counts self.now.levels self.now.first }
    {
        self.kind().row().outputs
    }

    // The least number of frames that a delay lasts: in a cycle those of a quantum.
    pub(crate) fn least_delay(&self) -> u64
        ensures { is_delay self.now.world.graph.value self.now.end.node.0 ≡ true → result ≡ (if cycle_of self.now.world.graph.value self.now.end.node.0 then quantum_of self.now.world.spec else 0) }
    {
        if self.quantum.cycles[self.end.node.0 as usize] {
            u64::from(self.quantum.world.spec.quantum)
        } else {
            0
        }
    }
}
