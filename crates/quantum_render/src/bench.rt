ghost use Rattle.std.specs.Prelude.{◌≡◌, ◌≤◌, ◌<◌, ◌+◌, ◌*◌, ◌/◌, ◌^◌, ℕ, ℤ, List, Some, length, slice_index_or, max, IfOk, IfSome, FitsSigned};
ghost use Rattle.std.specs.Int.{w32};
ghost use Rattle.wa_base.specs.Contexts.{quantum_of, IsQuantumSize};
ghost use Rattle.meaning.specs.World.{sounding, node_at, kind_of, param_id};
ghost use Rattle.node_table.specs.Kinds.{param_name};
ghost use Rattle.node_table.specs.Delays.{frames_of as whole_frames};
ghost use Rattle.meaning.specs.Counts.{input_channels};
ghost use Rattle.meaning.specs.Values.{Frame as a_frame, input_value, computed_value};
ghost use Rattle.std.specs.List.{list_any};
ghost use Rattle.automation.specs.Levels.{HasRoom, level_at};
ghost use Rattle.quantum_blocks.specs.Blocks.{at, room_of, counts_in};
ghost use Rattle.quantum_blocks.specs.Connections.{leads_to};
ghost use Rattle.quantum_blocks.specs.Fits.{AreFit};
ghost use Rattle.quantum_blocks.specs.Held.{IsWidened, AreLanes};
ghost use Rattle.filter_bank.specs.Heard.{HeardView as a_node, room_of as causal_room};
ghost use Rattle.filter_bank.specs.Banks.{heard_at, Hears};
ghost use Rattle.delay_line.specs.Delays.{Writer};
ghost use Rattle.delay_line.specs.Spans.{delay_at as frames_back};
ghost use Rattle.delay_bank.specs.Kept.{DelayView as a_delay, room_of as delay_room, HasKept, IsAsked, AreFew, read_back};
ghost use Rattle.delay_bank.specs.Banks.{delay_at, Writes as DelayWrites};
ghost use Rattle.quantum_render.specs.Parameters.{unclamped_value};
ghost use Rattle.quantum_render.specs.Sites.{IsLone};
ghost use Rattle.quantum_render.specs.Renders.{past_of, here_of};

use crate::site::Site;
use automation::{Level, Values};
use channel_mix::{CHANNELS, Sums};
use conn_graph::{Edge, Target};
use delay_bank::{Delays, Reading, Spans};
use filter_bank::CausalNodes;
use node_table::Range;
use quantum_blocks::{Block, Held, Inlet, gather, reader, slot};
use std::alloc::Global;
use std::marker::Model;
use wa_base::{Fix, Interp, NoMemory, NodeId, ParamId, ParamName, Rate};

// What is at hand while an end is rendered, one end after another: what its input carries, the
// levels of its parameter, what its inputs carry, one lane each, its input with silent lanes behind it,
// what its node or its delay gives, how many frames its delay lasts at each frame of the quantum, and
// the sums that all are made of.
#[derive(Drop)]
pub(crate) struct Bench {
    pub heard: Block,
    pub levels: Block,
    pub merged: Block,
    pub wide: Vec<Fix>,
    pub given: Vec<Fix>,
    pub spans: Spans,
    sums: Sums,
}

impl Model for Bench {
    ghost use Rattle.std.specs.Prelude.{length};
    ghost use Rattle.quantum_render.specs.Benches.{BenchView, IsBench};

    ghost Value = { BenchView };

    ghost view = { λ b. record { frames = length b.spans; heard = b.heard; levels = b.levels; merged = b.merged; wide = length b.wide.items; given = length b.given.items; spans = b.spans; summed = b.sums.frames } };

    ghost invariant = { λ b. IsBench (record { frames = length b.spans; heard = b.heard; levels = b.levels; merged = b.merged; wide = length b.wide.items; given = length b.given.items; spans = b.spans; summed = b.sums.frames }) };
}

impl Bench {
    // A bench for quanta of so many frames.
    pub(crate) fn new(alloc: Global, quantum: usize) -> Result<Bench, NoMemory>
        requires { IsQuantumSize quantum }
        ensures { IfOk result (λ bench. bench.frames ≡ quantum) }
    {
        Ok(Bench {
            heard: Block::new(alloc, CHANNELS, quantum)?,
            levels: Block::new(alloc, 1, quantum)?,
            merged: Block::new(alloc, CHANNELS, quantum)?,
            wide: vec![in alloc; 0; CHANNELS * quantum]?,
            given: vec![in alloc; 0; CHANNELS * quantum]?,
            spans: Spans::new(alloc, quantum)?,
            sums: Sums::new(alloc, quantum)?,
        })
    }

    // Hears what an input carries, mixed to so many channels.
    pub(crate) fn take_input(&mut self, blocks: &[Block], site: &Site, input: u32, channels: usize)
        requires frames { self.old.frames ≡ quantum_of site.now.world.spec }
        requires low { 1 ≤ channels }
        requires high { channels ≤ 32 }
        requires fit { AreFit site.now.world site.now.counts blocks.now }
        ensures frames { self.new.frames ≡ self.old.frames }
        ensures merged { self.new.merged ≡ self.old.merged }
        ensures lanes { self.new.heard.lanes ≡ channels }
        ensures heard_frames { self.new.heard.frames ≡ self.old.frames }
        ensures input { channels ≡ input_channels (sounding site.now.world) (counts_in site.now.counts) site.now.end.node.0 input →
            (c m : ℕ) → c < channels → m < quantum_of site.now.world.spec → at self.new.heard c m ≡ input_value (here_of site.now blocks.now m) site.now.end.node.0 input c }
    {
        let node = site.end.node;
        let inlet = Inlet {
            target: Target::Input { node, input },
            count: channels,
            interp: site.quantum.world.nodes.attrs(node).interp,
        };
        if let Some(edge) = lone_connection(site, inlet) {
            let source = &blocks[slot(reader(edge.from))];
            self.heard
                .copy_output(source, edge.output as usize, channels);
            return;
        }
        self.heard.hear(
            &mut self.sums,
            blocks,
            site.into,
            site.quantum.counts,
            inlet,
        );
    }

    // Hears what each of so many inputs carries, mixed to one channel.
    pub(crate) fn take_inputs(&mut self, blocks: &[Block], site: &Site, inputs: usize)
        requires frames { self.old.frames ≡ quantum_of site.now.world.spec }
        requires few { inputs ≤ 32 }
        requires fit { AreFit site.now.world site.now.counts blocks.now }
        ensures frames { self.new.frames ≡ self.old.frames }
        ensures lanes { self.new.merged.lanes ≡ inputs }
        ensures inputs { ((i : ℕ) → i < inputs → 1 ≡ input_channels (sounding site.now.world) (counts_in site.now.counts) site.now.end.node.0 i) →
            (i m : ℕ) → i < inputs → m < quantum_of site.now.world.spec → at self.new.merged i m ≡ input_value (here_of site.now blocks.now m) site.now.end.node.0 i 0 }
    {
        self.merged.begin(inputs);
        for input in 0..inputs {
            self.take_input(blocks, site, input as u32, 1);
            self.merged.set_lane(input, &self.heard);
        }
    }

    // Takes the computed values of the parameter that the kind of the end's node has.
    pub(crate) fn take_levels(&mut self, blocks: &[Block], site: &Site, name: ParamName)
        requires frames { self.old.frames ≡ quantum_of site.now.world.spec }
        requires fit { AreFit site.now.world site.now.counts blocks.now }
        requires there { param_name (kind_of site.now.world site.now.end.node.0) ≡ Some name }
        ensures frames { self.new.frames ≡ self.old.frames }
        ensures heard { self.new.heard ≡ self.old.heard }
        ensures levels { (before : ℕ → a_frame) (m : ℕ) → m < quantum_of site.now.world.spec →
            at self.new.levels 0 m ≡ computed_value (quantum_of site.now.world.spec) (site.now.first + m) (past_of site.now blocks.now before) (here_of site.now blocks.now m) (param_id site.now.end.node.0 name) }
    {
        self.take_sums(blocks, site, name);
        if let Some(param) = site.kind().row().param {
            match param.range {
                Range::Any => {}
                Range::UpTo(most) => self.levels.up_to(most),
            }
        }
    }

    // Takes the values of a parameter before they are clamped to its nominal range.
    fn take_sums(&mut self, blocks: &[Block], site: &Site, name: ParamName)
        requires frames { self.old.frames ≡ quantum_of site.now.world.spec }
        requires fit { AreFit site.now.world site.now.counts blocks.now }
        requires there { param_name (kind_of site.now.world site.now.end.node.0) ≡ Some name }
        ensures frames { self.new.frames ≡ self.old.frames }
        ensures heard { self.new.heard ≡ self.old.heard }
        ensures levels { (before : ℕ → a_frame) (m : ℕ) → m < quantum_of site.now.world.spec →
            at self.new.levels 0 m ≡ unclamped_value (quantum_of site.now.world.spec) (site.now.first + m) (past_of site.now blocks.now before) (here_of site.now blocks.now m) (param_id site.now.end.node.0 name) }
    {
        let id = ParamId {
            node: site.end.node,
            name,
        };
        let level = &site.quantum.levels[site.end.node.0 as usize];
        take_level(&mut self.levels, level);
        let target = Target::Param(id);
        if !is_reached(site.into, target) {
            return;
        }
        let inlet = Inlet {
            target,
            count: 1,
            interp: Interp::Speakers,
        };
        gather(
            &mut self.sums,
            blocks,
            site.into,
            site.quantum.counts,
            inlet,
        );
        self.levels.add(&self.sums);
        match level.rate() {
            Rate::A => {}
            Rate::K => self.levels.hold_first(),
        }
    }

    // Takes how many frames a delay of so many seconds as the levels say lasts, and at least so many.
    pub(crate) fn take_spans(&mut self, rate: u32, least: u64)
        ensures frames { self.new.frames ≡ self.old.frames }
        ensures heard { self.new.heard ≡ self.old.heard }
        ensures merged { self.new.merged ≡ self.old.merged }
        ensures spans { (m : ℕ) → m < self.old.frames → slice_index_or self.new.spans m 0 ≡ max least (whole_frames (at self.old.levels 0 m) rate) }
    {
        match self.levels.held() {
            Held::Steady(held) => self.spans.hold(held[0], rate, least),
            Held::Moving(levels) => self.spans.follow(levels, rate, least),
        }
    }

    // Makes of an end's block what its causal node puts out for what is heard. The node hears that
    // with silent lanes behind it up to so many.
    pub(crate) fn causal_heard(
        &mut self,
        block: &mut Block,
        lanes: usize,
        causal: &mut CausalNodes,
        node: NodeId,
    )
        requires frames { (block.old.frames ≡ self.old.frames) × (causal.old.quantum ≡ self.old.frames) }
        requires few { lanes ≤ 32 }
        requires within { self.old.heard.lanes ≤ lanes }
        requires own { block.old.lanes ≤ lanes }
        requires there { node.0 < length causal.old.nodes }
        requires wide { (f : a_node) → heard_at causal.old node.0 ≡ Some f → lanes ≡ causal_room f }
        ensures frames { self.new.frames ≡ self.old.frames }
        ensures lanes { block.new.lanes ≡ block.old.lanes }
        ensures block_frames { block.new.frames ≡ block.old.frames }
        ensures hears { (x : List ℤ) × (y : List ℤ) × IsWidened self.old.heard lanes x × AreLanes block.new y × Hears causal.old causal.new node.0 x y }
    {
        match self.heard.plain(lanes) {
            Some(heard) => causal_block(block, heard, causal, node, self.given.as_mut_slice()),
            None => {
                self.heard.copy_out(self.wide.as_mut_slice(), lanes);
                let wide = &self.wide[..lanes * self.spans.frames()];
                causal_block(block, wide, causal, node, self.given.as_mut_slice());
            }
        }
    }

    // Makes of an end's block what the reader of its node's delay gives, where `spans` has the delay of
    // each frame.
    pub(crate) fn read_delay(&mut self, block: &mut Block, delays: &Delays, site: &Site)
        requires frames { self.old.frames ≡ quantum_of site.now.world.spec }
        requires delay_frames { delays.now.quantum ≡ quantum_of site.now.world.spec }
        requires block_frames { block.old.frames ≡ quantum_of site.now.world.spec }
        requires lanes { block.old.lanes ≡ counts_in site.now.counts site.now.end }
        ensures frames { self.new.frames ≡ self.old.frames }
        ensures lanes { block.new.lanes ≡ block.old.lanes }
        ensures block_frames { block.new.frames ≡ block.old.frames }
        ensures values { (d : a_delay) (longest born now : ℕ) (writer : Writer) → delay_at delays.now site.now.end.node.0 ≡ Some d → HasKept (quantum_of site.now.world.spec) d longest born now writer → IsAsked (quantum_of site.now.world.spec) site.now.first now longest self.old.spans →
            AreFew (quantum_of site.now.world.spec) born writer block.old.lanes site.now.first self.old.spans → quantum_of site.now.world.spec * (born / (quantum_of site.now.world.spec)) ≡ born → (c m : ℕ) → c < block.old.lanes → m < quantum_of site.now.world.spec →
            at block.new c m ≡ read_back (quantum_of site.now.world.spec) born writer (node_at site.now.world site.now.end.node.0).attrs.interp block.old.lanes (site.now.first + m) (frames_back self.old.spans m) c }
    {
        let node = site.end.node;
        let lanes = block.lanes();
        let asked = Reading {
            first: site.quantum.first,
            delays: &self.spans,
            channels: lanes as u32,
            interp: site.quantum.world.nodes.attrs(node).interp,
        };
        read_block(block, delays, node, asked, self.given.as_mut_slice());
    }

    // The writer of a node's delay writes what is heard in the quantum that begins at `first`.
    pub(crate) fn write_heard(&mut self, delays: &mut Delays, node: NodeId, first: u64)
        requires frames { delays.old.quantum ≡ self.old.frames }
        requires there { node.0 < length delays.old.delays }
        requires room { (d : a_delay) → delay_at delays.old node.0 ≡ Some d → self.old.heard.lanes ≤ delay_room d }
        requires time { first ≤ 2 ^ 62 }
        ensures frames { self.new.frames ≡ self.old.frames }
        ensures heard { self.new.heard ≡ self.old.heard }
        ensures writes { (x : List ℤ) × IsWidened self.old.heard self.old.heard.lanes x × DelayWrites delays.old delays.new node.0 first self.old.heard.lanes x }
    {
        let lanes = self.heard.lanes();
        match self.heard.plain(lanes) {
            Some(heard) => delays.write(node, heard, lanes as u32, first),
            None => {
                self.heard.copy_out(self.wide.as_mut_slice(), lanes);
                let wide = &self.wide[..lanes * self.spans.frames()];
                delays.write(node, wide, lanes as u32, first);
            }
        }
    }
}

// Makes of a block one lane with the values of a level.
fn take_level(block: &mut Block, level: &Level)
    requires room { block.old.frames ≤ room_of block.old }
    requires size { IsQuantumSize block.old.frames }
    requires level { HasRoom block.old.frames level.now }
    ensures frames { block.new.frames ≡ block.old.frames }
    ensures lanes { block.new.lanes ≡ 1 }
    ensures room { room_of block.new ≡ room_of block.old }
    ensures values { (m : ℕ) → m < block.old.frames → at block.new 0 m ≡ level_at level.now m }
    ensures fit { (m : ℕ) → m < block.old.frames → FitsSigned w32 (level_at level.now m) }
{
    match level.values() {
        Values::Steady(value) => block.hold(value),
        Values::Rising(ramp) => block.rise(&ramp),
        Values::Moving(values) => block.copy_moving(values, 1),
    }
}

// A causal node hears a quantum, lane after lane, and writes what it puts out into the front of
// `given`. A block becomes the first lanes of that, as many as it has.
fn causal_block(
    block: &mut Block,
    heard: &[Fix],
    causal: &mut CausalNodes,
    node: NodeId,
    given: &mut [Fix],
)
    requires there { node.0 < length causal.old.nodes }
    requires heard { (f : a_node) → heard_at causal.old node.0 ≡ Some f → length heard.now ≡ causal_room f * causal.old.quantum }
    requires frames { block.old.frames ≡ causal.old.quantum }
    requires given { length heard.now ≤ length given.old }
    requires lanes { block.old.lanes * causal.old.quantum ≤ length heard.now }
    ensures frames { block.new.frames ≡ block.old.frames }
    ensures lanes { block.new.lanes ≡ block.old.lanes }
    ensures given { length given.new ≡ length given.old }
    ensures hears { (y : List ℤ) × AreLanes block.new y × Hears causal.old causal.new node.0 heard.now y }
{
    let lanes = block.lanes();
    let given = &mut given[..heard.len()];
    causal.hear(node, heard, given);
    block.copy_moving(&given[..lanes * block.frames()], lanes);
}

// A node's reader reads a quantum into the front of `given`, and a block becomes that.
fn read_block(
    block: &mut Block,
    delays: &Delays,
    node: NodeId,
    asked: Reading<'_>,
    given: &mut [Fix],
)
    requires lanes { asked.channels ≡ block.old.lanes }
    requires frames { block.old.frames ≡ delays.now.quantum }
    requires given { block.old.lanes * delays.now.quantum ≤ length given.old }
    requires delays { length asked.delays.now ≡ delays.now.quantum }
    requires time { asked.first ≤ 2 ^ 62 }
    ensures frames { block.new.frames ≡ block.old.frames }
    ensures lanes { block.new.lanes ≡ block.old.lanes }
    ensures given { length given.new ≡ length given.old }
    ensures values { (d : a_delay) (longest born now : ℕ) (writer : Writer) → delay_at delays.now node.0 ≡ Some d → HasKept delays.now.quantum d longest born now writer → IsAsked delays.now.quantum asked.entry.first now longest asked.entry.delays.now → AreFew delays.now.quantum born writer block.old.lanes asked.entry.first asked.entry.delays.now → delays.now.quantum * (born / delays.now.quantum) ≡ born →
        (c m : ℕ) → c < block.old.lanes → m < delays.now.quantum → at block.new c m ≡ read_back delays.now.quantum born writer asked.entry.interp block.old.lanes (asked.entry.first + m) (frames_back asked.entry.delays.now m) c }
{
    let lanes = block.lanes();
    let given = &mut given[..lanes * asked.delays.frames()];
    delays.read(node, given, asked);
    block.copy_moving(given, lanes);
}

// The connection to a site's node, where there is one alone, it leads to the inlet, and it has the
// inlet's number of channels: then the inlet carries what the connection does.
fn lone_connection(site: &Site, inlet: Inlet) -> Option<Edge>
    ensures { IfSome result (λ edge. IsLone site.now inlet edge) }
{
    let [edge] = site.into else {
        return None;
    };
    let channels = site.quantum.counts[slot(reader(edge.from))] as usize;
    if inlet.target.is_same(edge.to) && channels == inlet.count {
        Some(*edge)
    } else {
        None
    }
}

// Whether a connection leads to the target.
fn is_reached(into: &[Edge], target: Target) -> bool
    ensures { result ≡ list_any (leads_to target) into.now }
{
    into.iter().any(|edge| target.is_same(edge.to))
}
