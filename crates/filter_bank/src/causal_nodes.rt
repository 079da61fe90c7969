ghost use Rattle.std.specs.Prelude.{◌≡◌, ◌<◌, ◌≤◌, ◌+◌, ◌-◌, ◌*◌, ◌^◌, ℕ, ℤ, pos, [], None, IfSome, max, take, length, slice_index_or, slice_set, Some, IfOk, OnOk};
ghost use Rattle.wa_base.specs.Contexts.{IsQuantumSize};
ghost use Rattle.node_table.specs.Equations.{equation_value};
ghost use Rattle.filter_bank.specs.States.{equation_of};
ghost use Rattle.node_table.specs.Frames.{item};
ghost use Rattle.meaning.specs.Validity.{IsValid};
ghost use Rattle.meaning.specs.Lists.{since};
ghost use Rattle.filter_bank.specs.Heard.{HeardView as a_node, room_of, HasHeard, Brings, IsHeard, first_heard};
ghost use Rattle.meaning.specs.World.{node_at, kind_of};
ghost use Rattle.filter_bank.specs.Banks.{heard_at, AreNew, AreSame, IsSameIfThere, IsRestedIfThere, HaveRoom, Hears};

use crate::causal_node::CausalNode;
use meaning::World;
use node_table::Kind;
use std::alloc::Global;
use std::marker::Model;
use wa_base::{Fix, NoMemory, NodeId};

// The most channels of an end.
const CHANNELS: usize = 32;

/// The causal nodes of a graph, by node, each with what it has heard.
#[derive(Drop)]
pub struct CausalNodes {
    alloc: Global,
    // The frames of a render quantum.
    quantum: usize,
    // How many nodes had a quantum behind them.
    known: usize,
    nodes: Vec<Option<CausalNode>>,
    zeros: Vec<Fix>,
    scratch: Vec<Fix>,
}

impl Model for CausalNodes {
    ghost use Rattle.filter_bank.specs.Banks.{BankView, IsBank};
    ghost use Rattle.std.specs.Prelude.{length};

    ghost Value = { BankView };

    ghost view = { λ f. record { quantum = f.quantum; known = f.known; nodes = f.nodes.items } };

    ghost invariant = { λ f. IsBank f.quantum f.known (length f.nodes.items) f.zeros.items f.scratch.items };
}

impl CausalNodes {
    /// No node, before the first quantum, where each has so many frames.
    pub fn new(alloc: Global, quantum: usize) -> Result<CausalNodes, NoMemory>
        requires { IsQuantumSize quantum }
        ensures { IfOk result (λ bank. bank ≡ record { quantum = quantum; known = 0; nodes = [] }) }
    {
        Ok(CausalNodes {
            alloc,
            quantum,
            known: 0,
            nodes: Vec::new(alloc),
            zeros: vec![in alloc; 0; CHANNELS * quantum]?,
            scratch: vec![in alloc; 0; CHANNELS * quantum]?,
        })
    }

    /// Adds each causal node of a world that had no quantum behind it. The others stay as they are.
    pub fn follow(&mut self, world: &World) -> Result<(), NoMemory>
        requires { IsValid world.now }
        ensures quantum { self.new.quantum ≡ self.old.quantum }
        ensures known { self.new.known ≡ self.old.known }
        ensures kept { take self.old.known self.new.nodes ≡ take self.old.known self.old.nodes }
        ensures fresh { OnOk result (AreNew self.new world.now) }
        ensures count { OnOk result (length self.new.nodes ≡ max self.old.known (length world.now.nodes)) }
    {
        self.nodes.truncate(self.known);
        add_nodes(self.alloc, &mut self.nodes, world)
    }

    /// Makes room for the channels of each node's end, by the two places of each node. What was heard
    /// stays.
    pub fn grow(&mut self, counts: &[u32]) -> Result<(), NoMemory>
        requires { (k : ℕ) → k < length counts.now → slice_index_or counts.now k 1 ≤ 32 }
        ensures same { AreSame self.old self.new }
        ensures ok { OnOk result (HaveRoom self.new counts.now) }
    {
        grow_each(self.nodes.as_mut_slice(), counts)
    }

    /// The number of channels that a causal node has room for.
    pub fn room(&self, node: NodeId) -> usize
        ensures room { (f : a_node) → heard_at self.now node.0 ≡ Some f → result ≡ room_of f }
        ensures few { result ≤ 32 }
    {
        match self.nodes.get(node.0 as usize) {
            Some(Some(causal)) => causal.room(),
            _ => 0,
        }
    }

    /// One causal node hears the next quantum of its input: the frames of each channel that it has
    /// room for, channel after channel. `y` gets the outputs in the same order.
    pub fn hear(&mut self, node: NodeId, x: &[Fix], y: &mut [Fix])
        requires there { node.0 < length self.old.nodes }
        requires x { (f : a_node) → heard_at self.old node.0 ≡ Some f → length x.now ≡ room_of f * self.old.quantum }
        requires y { length y.old ≡ length x.now }
        ensures hears { Hears self.old self.new node.0 x.now y.new }
        ensures length { length y.new ≡ length y.old }
    {
        hear_one(&mut self.nodes[node.0 as usize], x, y, self.quantum);
    }

    /// The causal nodes that have heard nothing of the quantum that begins at `first` hear that it is silent.
    /// Then a quantum is behind all nodes.
    pub fn rest(&mut self, first: u64)
        requires { first ≤ 2 ^ 62 }
        ensures quantum { self.new.quantum ≡ self.old.quantum }
        ensures known { self.new.known ≡ length self.old.nodes }
        ensures count { length self.new.nodes ≡ length self.old.nodes }
        ensures each { (n : ℕ) → IsRestedIfThere self.old.quantum first (heard_at self.old n) (heard_at self.new n) }
    {
        rest_each(
            self.nodes.as_mut_slice(),
            self.zeros.as_slice(),
            self.scratch.as_mut_slice(),
            self.quantum,
            first,
        );
        self.known = self.nodes.len();
    }
}

// Adds what each node behind the others remembers, if it is causal.
fn add_nodes(
    alloc: Global,
    nodes: &mut Vec<Option<CausalNode>>,
    world: &World,
) -> Result<(), NoMemory>
    requires { IsValid world.now }
    ensures kept { take (length nodes.old.items) nodes.new.items ≡ nodes.old.items }
    ensures count { OnOk result (length nodes.new.items ≡ max (length nodes.old.items) (length world.now.nodes)) }
    ensures fresh { OnOk result ((n : ℕ) → length nodes.old.items ≤ n → n < length world.now.nodes → slice_index_or nodes.new.items n None ≡ first_heard (kind_of world.now n) (node_at world.now n).attrs.birth) }
{
    for node in nodes.len()..world.nodes.len() as usize {
        nodes.push(causal_of(alloc, world, NodeId(node as u32))?)?;
    }
    Ok(())
}

// What a node that has heard nothing remembers, if it is causal.
fn causal_of(alloc: Global, world: &World, node: NodeId) -> Result<Option<CausalNode>, NoMemory>
    requires valid { IsValid world.now }
    requires node { node.0 < length world.now.nodes }
    ensures { IfOk result (λ causal. causal ≡ first_heard (kind_of world.now node.0) (node_at world.now node.0).attrs.birth) }
{
    match world.nodes.kind(node) {
        Kind::Causal { equation } => {
            let birth = world.nodes.attrs(node).birth;
            Ok(Some(CausalNode::new(alloc, birth, equation)?))
        }
        _ => Ok(None),
    }
}

// Makes room in each causal node for the channels of its end, which stands at the second of the
// node's two places.
fn grow_each(nodes: &mut [Option<CausalNode>], counts: &[u32]) -> Result<(), NoMemory>
    requires { (k : ℕ) → k < length counts.now → slice_index_or counts.now k 1 ≤ 32 }
    ensures count { length nodes.new ≡ length nodes.old }
    ensures same { (n : ℕ) → IsSameIfThere (slice_index_or nodes.old n None) (slice_index_or nodes.new n None) }
    ensures ok { OnOk result ((n : ℕ) (f : a_node) → slice_index_or nodes.new n None ≡ Some f → 2 * n + 1 < length counts.now → (slice_index_or counts.now (2 * n + 1) 1 ≤ room_of f) × (room_of f ≤ 32)) }
{
    let count = nodes.len().min(counts.len() / 2);
    for node in 0..count {
        grow_one(&mut nodes[node], counts[2 * node + 1])?;
    }
    Ok(())
}

fn grow_one(causal: &mut Option<CausalNode>, channels: u32) -> Result<(), NoMemory>
    requires { channels ≤ 32 }
    ensures same { IsSameIfThere causal.old causal.new }
    ensures ok { OnOk result (IfSome causal.new (λ f. (channels ≤ room_of f) × (room_of f ≤ 32))) }
{
    match causal {
        Some(causal) => causal.grow(channels),
        None => Ok(()),
    }
}

fn hear_one(causal: &mut Option<CausalNode>, x: &[Fix], y: &mut [Fix], frames: usize)
    requires frames { IsQuantumSize frames }
    requires x { IfSome causal.old (λ f. length x.now ≡ room_of f * frames) }
    requires y { length y.old ≡ length x.now }
    ensures rooms { (g : a_node) → causal.new ≡ Some g → (f : a_node) × (causal.old ≡ Some f) × (room_of g ≡ room_of f) }
    ensures heard { (f : a_node) → causal.old ≡ Some f → f.time ≤ 2 ^ 62 → (at : ℕ → ℕ → ℤ) → HasHeard at f → Brings frames f.time x.now at → IsHeard causal.new (equation_of f.state) f.birth (f.time + frames) at }
    ensures values { (f : a_node) → causal.old ≡ Some f → (at : ℕ → ℕ → ℤ) → HasHeard at f → Brings frames f.time x.now at → (c k : ℕ) → c < room_of f → k < frames →
        item y.new (c * frames + k) ≡ equation_value (equation_of f.state) (since (λ g. at g c) f.birth (f.time + k + 1 - f.birth)) }
    ensures length { length y.new ≡ length y.old }
{
    if let Some(causal) = causal {
        causal.hear(x, y, frames);
    }
}

// Each causal node that has heard nothing of a quantum hears a silent one.
fn rest_each(
    nodes: &mut [Option<CausalNode>],
    zeros: &[Fix],
    scratch: &mut [Fix],
    frames: usize,
    first: u64,
)
    requires frames { IsQuantumSize frames }
    requires zeros { length zeros.now ≡ 32 * frames }
    requires silent { (k : ℕ) → slice_index_or zeros.now k (pos 0) ≡ pos 0 }
    requires scratch { length scratch.old ≡ 32 * frames }
    requires time { first ≤ 2 ^ 62 }
    ensures count { length nodes.new ≡ length nodes.old }
    ensures scratch { length scratch.new ≡ 32 * frames }
    ensures each { (n : ℕ) → IsRestedIfThere frames first (slice_index_or nodes.old n None) (slice_index_or nodes.new n None) }
{
    for causal in nodes.iter_mut() {
        rest_one(causal, zeros, scratch, frames, first);
    }
}

fn rest_one(
    causal: &mut Option<CausalNode>,
    zeros: &[Fix],
    scratch: &mut [Fix],
    frames: usize,
    first: u64,
)
    requires frames { IsQuantumSize frames }
    requires zeros { length zeros.now ≡ 32 * frames }
    requires silent { (k : ℕ) → slice_index_or zeros.now k (pos 0) ≡ pos 0 }
    requires scratch { length scratch.old ≡ 32 * frames }
    requires time { first ≤ 2 ^ 62 }
    ensures scratch { length scratch.new ≡ 32 * frames }
    ensures rested { IsRestedIfThere frames first causal.old causal.new }
{
    if let Some(causal) = causal {
        causal.rest(zeros, scratch, frames, first);
    }
}
