ghost use Rattle.std.specs.Prelude.{◌≡◌, ◌<◌, ◌≤◌, ◌+◌, ◌*◌, ◌/◌, ◌^◌, ℕ, Some, None, [], IfSome, max, take, length, slice_index_or, IfOk, OnOk};
ghost use Rattle.wa_base.specs.Contexts.{IsQuantumSize};
ghost use Rattle.mix_rules.specs.Blocks.{sample};
ghost use Rattle.delay_line.specs.Delays.{Writer};
ghost use Rattle.delay_line.specs.Spans.{delay_at as frames_back};
ghost use Rattle.meaning.specs.Validity.{IsValid};
ghost use Rattle.meaning.specs.World.{node_at, kind_of};
ghost use Rattle.delay_bank.specs.Kept.{DelayView as a_delay, room_of, HasKept, IsKept, IsOf, IsGrown, Brings, IsAsked, AreFew, read_back, first_delay};
ghost use Rattle.delay_bank.specs.Banks.{delay_at, AreOf, AreNew, AreSame, Writes as BankWrites, HaveRoom};

use crate::delay::{NodeDelay, Reading, silence};
use meaning::World;
use node_table::Keeps;
use std::alloc::Global;
use std::marker::Model;
use wa_base::{Fix, NoMemory, NodeId};

/// The delays of a graph's nodes (DelayNode), by node, each with what its writer wrote.
///
/// Samples are in units of 2^-24, and frames are those of the context. From the section 'The DelayNode
/// Interface'.
#[derive(Drop)]
pub struct Delays {
    alloc: Global,
    // The frames of a render quantum.
    quantum: usize,
    // How many nodes had a quantum behind them.
    known: usize,
    delays: Vec<Option<NodeDelay>>,
}

impl Model for Delays {
    ghost use Rattle.delay_bank.specs.Banks.{BankView, IsBank};

    ghost Value = { BankView };

    ghost view = { λ d. record { quantum = d.quantum; known = d.known; delays = d.delays.items } };

    ghost invariant = { λ d. IsBank d.quantum d.known d.delays.items };
}

impl Delays {
    /// No delay, before the first quantum, where each has so many frames.
    pub fn new(alloc: Global, quantum: usize) -> Delays
        requires { IsQuantumSize quantum }
        ensures { result ≡ record { quantum = quantum; known = 0; delays = [] } }
    {
        Delays {
            alloc,
            quantum,
            known: 0,
            delays: Vec::new(alloc),
        }
    }

    /// Makes a delay for each node of a world that is one and had no quantum behind it. The others stay
    /// as they are.
    pub fn follow(&mut self, world: &World) -> Result<(), NoMemory>
        requires { IsValid world.now }
        ensures quantum { self.new.quantum ≡ self.old.quantum }
        ensures known { self.new.known ≡ self.old.known }
        ensures kept { take self.old.known self.new.delays ≡ take self.old.known self.old.delays }
        ensures fresh { OnOk result (AreNew self.new world.now) }
        ensures count { OnOk result (length self.new.delays ≡ max self.old.known (length world.now.nodes)) }
    {
        self.delays.truncate(self.known);
        add_delays(self.alloc, &mut self.delays, world, self.quantum)
    }

    /// Makes room for the channels of each writer, by the two places of each node. What is kept stays.
    pub fn grow(&mut self, counts: &[u32]) -> Result<(), NoMemory>
        ensures same { AreSame self.old self.new }
        ensures ok { OnOk result (HaveRoom self.new counts.now) }
    {
        grow_each(self.delays.as_mut_slice(), counts)
    }

    /// The most channels that a node's writer had in a quantum, 1 to 32, and 1 where there is no delay.
    pub fn most(&self, node: NodeId) -> u32
        ensures most { (d : a_delay) → delay_at self.now node.0 ≡ Some d → result ≡ d.most }
        ensures low { 1 ≤ result }
        ensures high { result ≤ 32 }
    {
        match self.delays.get(node.0 as usize) {
            Some(Some(delay)) => delay.most(),
            _ => 1,
        }
    }

    /// A node's writer writes the quantum that begins at the frame `first`: the frames of each of its
    /// channels, channel after channel.
    pub fn write(&mut self, node: NodeId, block: &[Fix], channels: u32, first: u64)
        requires there { node.0 < length self.old.delays }
        requires room { (d : a_delay) → delay_at self.old node.0 ≡ Some d → channels ≤ room_of d }
        requires few { channels ≤ 32 }
        requires block { length block.now ≡ channels * self.old.quantum }
        requires time { first ≤ 2 ^ 62 }
        ensures { BankWrites self.old self.new node.0 first channels block.now }
    {
        write_one(&mut self.delays[node.0 as usize], block, channels, first);
    }

    /// A node's reader reads a quantum.
    pub fn read(&self, node: NodeId, out: &mut [Fix], asked: Reading<'_>)
        requires out { length out.old ≡ asked.channels * self.now.quantum }
        requires delays { length asked.delays.now ≡ self.now.quantum }
        requires time { asked.first ≤ 2 ^ 62 }
        ensures values { (d : a_delay) (longest born now : ℕ) (writer : Writer) → delay_at self.now node.0 ≡ Some d → HasKept self.now.quantum d longest born now writer → IsAsked self.now.quantum asked.entry.first now longest asked.entry.delays.now → AreFew self.now.quantum born writer asked.entry.channels asked.entry.first asked.entry.delays.now → self.now.quantum * (born / self.now.quantum) ≡ born →
            (c k : ℕ) → c < asked.entry.channels → k < self.now.quantum → sample self.now.quantum out.new c k ≡ read_back self.now.quantum born writer asked.entry.interp asked.entry.channels (asked.entry.first + k) (frames_back asked.entry.delays.now k) c }
    {
        match self.delays.get(node.0 as usize) {
            Some(Some(delay)) => delay.read(out, asked),
            _ => silence(out),
        }
    }

    /// A quantum is behind all nodes.
    pub fn end_quantum(&mut self)
        ensures quantum { self.new.quantum ≡ self.old.quantum }
        ensures known { self.new.known ≡ length self.old.delays }
        ensures delays { self.new.delays ≡ self.old.delays }
    {
        self.known = self.delays.len();
    }
}

// Adds a delay, or none, for each node behind those that have theirs.
fn add_delays(
    alloc: Global,
    delays: &mut Vec<Option<NodeDelay>>,
    world: &World,
    quantum: usize,
) -> Result<(), NoMemory>
    requires valid { IsValid world.now }
    requires quantum { IsQuantumSize quantum }
    ensures each { AreOf quantum delays.old.items → AreOf quantum delays.new.items }
    ensures kept { take (length delays.old.items) delays.new.items ≡ delays.old.items }
    ensures count { OnOk result (length delays.new.items ≡ max (length delays.old.items) (length world.now.nodes)) }
    ensures fresh { OnOk result ((n : ℕ) → length delays.old.items ≤ n → n < length world.now.nodes → slice_index_or delays.new.items n None ≡ first_delay quantum (kind_of world.now n) (node_at world.now n).attrs.birth) }
{
    for node in delays.len()..world.nodes.len() as usize {
        delays.push(delay_of(alloc, world, NodeId(node as u32), quantum)?)?;
    }
    Ok(())
}

// The delay of a node whose writer has written nothing, if it is one.
fn delay_of(
    alloc: Global,
    world: &World,
    node: NodeId,
    quantum: usize,
) -> Result<Option<NodeDelay>, NoMemory>
    requires valid { IsValid world.now }
    requires quantum { IsQuantumSize quantum }
    requires node { node.0 < length world.now.nodes }
    ensures { IfOk result (λ delay. delay ≡ first_delay quantum (kind_of world.now node.0) (node_at world.now node.0).attrs.birth) }
{
    match world.nodes.kind(node).row().keeps {
        Keeps::Written(frames) => {
            let birth = world.nodes.attrs(node).birth;
            Ok(Some(NodeDelay::new(alloc, birth, frames, quantum)?))
        }
        Keeps::Nothing | Keeps::Heard => Ok(None),
    }
}

// Makes room in each delay for the channels of its writer, which stand at the first of the node's two
// places.
fn grow_each(delays: &mut [Option<NodeDelay>], counts: &[u32]) -> Result<(), NoMemory>
    ensures count { length delays.new ≡ length delays.old }
    ensures each { (n : ℕ) → IsGrown (slice_index_or delays.old n None) (slice_index_or delays.new n None) }
    ensures ok { OnOk result ((n : ℕ) (d : a_delay) → slice_index_or delays.new n None ≡ Some d → 2 * n < length counts.now → slice_index_or counts.now (2 * n) 1 ≤ room_of d) }
{
    let nodes = delays.len().min((counts.len() + 1) / 2);
    for node in 0..nodes {
        grow_one(&mut delays[node], counts[2 * node])?;
    }
    Ok(())
}

fn grow_one(delay: &mut Option<NodeDelay>, channels: u32) -> Result<(), NoMemory>
    ensures grown { IsGrown delay.old delay.new }
    ensures ok { OnOk result (IfSome delay.new (λ d. channels ≤ room_of d)) }
{
    match delay {
        Some(delay) => delay.grow(channels),
        None => Ok(()),
    }
}

fn write_one(delay: &mut Option<NodeDelay>, block: &[Fix], channels: u32, first: u64)
    requires room { (d : a_delay) → delay.old ≡ Some d → channels ≤ room_of d }
    requires few { channels ≤ 32 }
    requires block { (d : a_delay) → delay.old ≡ Some d → length block.now ≡ channels * d.line.block }
    requires time { first ≤ 2 ^ 62 }
    ensures rooms { (e : a_delay) → delay.new ≡ Some e → (d : a_delay) × (delay.old ≡ Some d) × (room_of e ≡ room_of d) }
    ensures block { (q : ℕ) → IsOf q delay.old → IsOf q delay.new }
    ensures own { (q longest born : ℕ) (writer : Writer) → IsKept q delay.old longest born first writer → Brings q first channels block.now writer → IsKept q delay.new longest born (first + q) writer }
{
    if let Some(delay) = delay {
        delay.write(block, channels, first);
    }
}
