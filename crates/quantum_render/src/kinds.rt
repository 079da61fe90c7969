ghost use Rattle.std.specs.Prelude.{◌≡◌, ◌<◌, ◌≤◌, ◌+◌, ◌-◌, ◌^◌, ℕ, ℤ, Bool, pos, length, true, false, Some, None, IfSome, IsTrue};
ghost use Rattle.wa_base.specs.Contexts.{quantum_of};
ghost use Rattle.node_table.specs.Curves.{IsCurve};
ghost use Rattle.node_table.specs.declared.equation.Equation.{Equation as an_equation};
ghost use Rattle.sched_source.specs.Schedule.{is_between};
ghost use Rattle.node_table.specs.declared.kinds.Kind.TheVariants.{Destination, Constant, Buffer, Gain, Delay, Splitter, Merger, Shaper, Causal};
ghost use Rattle.node_table.specs.Kinds.{IsInLimits};
ghost use Rattle.meaning.specs.World.{kind_of, sounds_at};
ghost use Rattle.quantum_blocks.specs.Blocks.{at, block_of};
ghost use Rattle.quantum_blocks.specs.Fits.{AreFit};
ghost use Rattle.filter_bank.specs.Banks.{HaveRoom};
ghost use Rattle.delay_bank.specs.Banks.{HaveRoom as HaveDelayRoom};
ghost use Rattle.quantum_render.specs.declared.memory.Memory.{Memory as a_memory};
ghost use Rattle.quantum_render.specs.Listening.{HasRooms};
ghost use Rattle.quantum_render.specs.Renders.{Draws, DrawsWith, Listens, Stores};

use crate::bench::Bench;
use crate::memory::Memory;
use crate::site::Site;
use delay_bank::Delays;
use node_table::Kind;
use quantum_blocks::{Block, Held, play_place, sounding};
use wa_base::{ParamName, Samples};

// What each kind of node does in a quantum: a line of the table, and a function that takes an input
// and levels from the blocks of the other ends and leaves that of its own.
impl Bench {
    // Renders an end for one quantum, from the blocks of the ends that are connected to it.
    pub(crate) fn render(&mut self, blocks: &mut [Block], memory: &mut Memory, site: &Site)
        requires frames { self.old.frames ≡ quantum_of site.now.world.spec }
        requires fit { AreFit site.now.world site.now.counts blocks.old }
        requires rooms { HasRooms memory.old site.now.world site.now.counts }
        ensures frames { self.new.frames ≡ self.old.frames }
        ensures draws { DrawsWith site.now memory.old blocks.old blocks.new }
        ensures listens { Listens site.now blocks.old memory.old memory.new }
        ensures stores { Stores site.now (block_of blocks.new site.now.end) memory.old.delays memory.new.delays }
        ensures rooms { HasRooms memory.new site.now.world site.now.counts }
    {
        match site.kind() {
            Kind::Delay { .. } => self.render_delay(blocks, memory, site),
            Kind::Causal { .. } => self.render_causal(blocks, memory, site),
            kind => self.render_plain(blocks, site, kind),
        }
    }

    // Renders an end of a node that remembers nothing.
    fn render_plain(&mut self, blocks: &mut [Block], site: &Site, kind: &Kind)
        requires frames { self.old.frames ≡ quantum_of site.now.world.spec }
        requires fit { AreFit site.now.world site.now.counts blocks.old }
        requires kind { kind.now ≡ kind_of site.now.world site.now.end.node.0 }
        requires limits { IsInLimits kind.now }
        requires no_delay { (longest time : ℤ) (capacity : ℕ) → kind.now ≡ Delay longest time capacity → ⊥ }
        requires not_causal { (equation : an_equation) → kind.now ≡ Causal equation → ⊥ }
        ensures frames { self.new.frames ≡ self.old.frames }
        ensures draws { Draws site.now blocks.old blocks.new }
    {
        match kind {
            Kind::Destination => self.render_destination(blocks, site),
            Kind::Constant { .. } => self.render_constant(blocks, site),
            Kind::Buffer { .. } => render_buffer(blocks, site),
            Kind::Gain { .. } => self.render_gain(blocks, site),
            Kind::Splitter { .. } => self.render_splitter(blocks, site),
            Kind::Merger { .. } => self.render_merger(blocks, site),
            Kind::Shaper { curve, .. } => self.render_shaper(blocks, site, curve),
            // They are rendered with what they remember.
            Kind::Delay { .. } | Kind::Causal { .. } => {}
        }
    }

    fn render_destination(&mut self, blocks: &mut [Block], site: &Site)
        requires frames { self.old.frames ≡ quantum_of site.now.world.spec }
        requires fit { AreFit site.now.world site.now.counts blocks.old }
        requires kind { kind_of site.now.world site.now.end.node.0 ≡ Destination }
        ensures frames { self.new.frames ≡ self.old.frames }
        ensures draws { Draws site.now blocks.old blocks.new }
    {
        let place = site.place();
        self.take_input(blocks, site, 0, site.channels());
        blocks[place].copy(&self.heard);
    }

    fn render_constant(&mut self, blocks: &mut [Block], site: &Site)
        requires frames { self.old.frames ≡ quantum_of site.now.world.spec }
        requires fit { AreFit site.now.world site.now.counts blocks.old }
        requires kind { (offset : ℤ) × (kind_of site.now.world site.now.end.node.0 ≡ Constant offset) }
        ensures frames { self.new.frames ≡ self.old.frames }
        ensures draws { Draws site.now blocks.old blocks.new }
    {
        let place = site.place();
        let Some((start, end)) = span(site) else {
            blocks[place].silence();
            return;
        };
        self.take_levels(blocks, site, ParamName::Offset);
        self.levels.sound(start, end, site.quantum.first);
        blocks[place].copy(&self.levels);
    }

    fn render_gain(&mut self, blocks: &mut [Block], site: &Site)
        requires frames { self.old.frames ≡ quantum_of site.now.world.spec }
        requires fit { AreFit site.now.world site.now.counts blocks.old }
        requires kind { (gain : ℤ) × (kind_of site.now.world site.now.end.node.0 ≡ Gain gain) }
        ensures frames { self.new.frames ≡ self.old.frames }
        ensures draws { Draws site.now blocks.old blocks.new }
    {
        let place = site.place();
        self.take_input(blocks, site, 0, site.channels());
        if self.heard.is_silent() {
            blocks[place].silence();
            return;
        }
        self.take_levels(blocks, site, ParamName::Gain);
        blocks[place].scale(&self.heard, &self.levels);
    }

    // The channels of its input, one on each output.
    fn render_splitter(&mut self, blocks: &mut [Block], site: &Site)
        requires frames { self.old.frames ≡ quantum_of site.now.world.spec }
        requires fit { AreFit site.now.world site.now.counts blocks.old }
        requires kind { (ports : ℕ) × (kind_of site.now.world site.now.end.node.0 ≡ Splitter ports) }
        ensures frames { self.new.frames ≡ self.old.frames }
        ensures draws { Draws site.now blocks.old blocks.new }
    {
        let place = site.place();
        self.take_input(blocks, site, 0, site.outputs() as usize);
        blocks[place].copy(&self.heard);
    }

    // Its inputs, one on each channel.
    fn render_merger(&mut self, blocks: &mut [Block], site: &Site)
        requires frames { self.old.frames ≡ quantum_of site.now.world.spec }
        requires fit { AreFit site.now.world site.now.counts blocks.old }
        requires kind { (ports : ℕ) × (kind_of site.now.world site.now.end.node.0 ≡ Merger ports) }
        ensures frames { self.new.frames ≡ self.old.frames }
        ensures draws { Draws site.now blocks.old blocks.new }
    {
        let place = site.place();
        self.take_inputs(blocks, site, site.channels());
        blocks[place].copy(&self.merged);
    }

    // Its input, shaped by the curve in force.
    fn render_shaper(&mut self, blocks: &mut [Block], site: &Site, curve: &Option<Samples>)
        requires frames { self.old.frames ≡ quantum_of site.now.world.spec }
        requires fit { AreFit site.now.world site.now.counts blocks.old }
        requires kind { (was_set : Bool) × (kind_of site.now.world site.now.end.node.0 ≡ Shaper curve.now was_set) }
        requires curve { IsCurve curve.now }
        ensures frames { self.new.frames ≡ self.old.frames }
        ensures draws { Draws site.now blocks.old blocks.new }
    {
        let place = site.place();
        self.take_input(blocks, site, 0, site.channels());
        blocks[place].shape(&self.heard, curve);
    }

    // What the equation of a causal node makes of its input from its birth on.
    fn render_causal(&mut self, blocks: &mut [Block], memory: &mut Memory, site: &Site)
        requires frames { self.old.frames ≡ quantum_of site.now.world.spec }
        requires fit { AreFit site.now.world site.now.counts blocks.old }
        requires kind { (equation : an_equation) × (kind_of site.now.world site.now.end.node.0 ≡ Causal equation) }
        requires rooms { HasRooms memory.old site.now.world site.now.counts }
        ensures frames { self.new.frames ≡ self.old.frames }
        ensures draws { DrawsWith site.now memory.old blocks.old blocks.new }
        ensures listens { Listens site.now blocks.old memory.old memory.new }
        ensures delays { memory.new.delays ≡ memory.old.delays }
        ensures quantum { memory.new.causal.quantum ≡ memory.old.causal.quantum }
        ensures room { HaveRoom memory.new.causal site.now.counts }
    {
        let node = site.end.node;
        let place = site.place();
        let channels = site.channels();
        self.take_input(blocks, site, 0, channels);
        let room = memory.causal.room(node).max(channels);
        self.causal_heard(&mut blocks[place], room, &mut memory.causal, node);
    }

    // A delay's writer takes its input in, and its reader gives it later.
    fn render_delay(&mut self, blocks: &mut [Block], memory: &mut Memory, site: &Site)
        requires frames { self.old.frames ≡ quantum_of site.now.world.spec }
        requires fit { AreFit site.now.world site.now.counts blocks.old }
        requires kind { (longest : ℤ) × (time : ℤ) × (capacity : ℕ) × (kind_of site.now.world site.now.end.node.0 ≡ Delay longest time capacity) }
        requires rooms { HasRooms memory.old site.now.world site.now.counts }
        ensures frames { self.new.frames ≡ self.old.frames }
        ensures draws { DrawsWith site.now memory.old blocks.old blocks.new }
        ensures stores { Stores site.now (block_of blocks.new site.now.end) memory.old.delays memory.new.delays }
        ensures causal { memory.new.causal ≡ memory.old.causal }
        ensures quantum { memory.new.delays.quantum ≡ memory.old.delays.quantum }
        ensures room { HaveDelayRoom memory.new.delays site.now.counts }
    {
        if site.end.writer {
            self.render_writer(blocks, &mut memory.delays, site);
        } else {
            self.render_reader(blocks, &memory.delays, site);
        }
    }

    // Its input, which is kept.
    fn render_writer(&mut self, blocks: &mut [Block], delays: &mut Delays, site: &Site)
        requires frames { self.old.frames ≡ quantum_of site.now.world.spec }
        requires delay_frames { delays.old.quantum ≡ quantum_of site.now.world.spec }
        requires fit { AreFit site.now.world site.now.counts blocks.old }
        requires kind { (longest : ℤ) × (time : ℤ) × (capacity : ℕ) × (kind_of site.now.world site.now.end.node.0 ≡ Delay longest time capacity) }
        requires writer { site.now.end.writer ≡ true }
        requires count { length site.now.world.nodes ≤ length delays.old.delays }
        requires room { HaveDelayRoom delays.old site.now.counts }
        ensures frames { self.new.frames ≡ self.old.frames }
        ensures draws { Draws site.now blocks.old blocks.new }
        ensures stores { Stores site.now (block_of blocks.new site.now.end) delays.old delays.new }
        ensures quantum { delays.new.quantum ≡ delays.old.quantum }
        ensures room { HaveDelayRoom delays.new site.now.counts }
    {
        let place = site.place();
        self.take_input(blocks, site, 0, site.channels());
        self.write_heard(delays, site.end.node, site.quantum.first);
        blocks[place].copy(&self.heard);
    }

    // What was written so many frames before each frame.
    fn render_reader(&mut self, blocks: &mut [Block], delays: &Delays, site: &Site)
        requires frames { self.old.frames ≡ quantum_of site.now.world.spec }
        requires delay_frames { delays.now.quantum ≡ quantum_of site.now.world.spec }
        requires fit { AreFit site.now.world site.now.counts blocks.old }
        requires kind { (longest : ℤ) × (time : ℤ) × (capacity : ℕ) × (kind_of site.now.world site.now.end.node.0 ≡ Delay longest time capacity) }
        requires reader { site.now.end.writer ≡ false }
        ensures frames { self.new.frames ≡ self.old.frames }
        ensures draws { (memory : a_memory) → memory.delays ≡ delays.now → DrawsWith site.now memory blocks.old blocks.new }
    {
        let place = site.place();
        self.take_levels(blocks, site, ParamName::DelayTime);
        self.take_spans(site.quantum.world.spec.rate, site.least_delay());
        self.read_delay(&mut blocks[place], delays, site);
    }
}

// What a buffer source plays. Where it does not sound in the quantum, it has one silent channel.
fn render_buffer(blocks: &mut [Block], site: &Site)
    requires fit { AreFit site.now.world site.now.counts blocks.old }
    requires kind { (rate : ℕ) × (kind_of site.now.world site.now.end.node.0 ≡ Buffer rate) }
    ensures { Draws site.now blocks.old blocks.new }
{
    let quantum = site.quantum;
    let place = site.place();
    let block = &mut blocks[place];
    match sounding(quantum.world, site.end.node, site.near(), quantum.first) {
        Some(source) => block.play(&source, quantum.first),
        None => block.silence(),
    }
}

// The frame from which a source sounds, and the one before which it ends, where it sounds in the quantum.
fn span(site: &Site) -> Option<(u64, u64)>
    ensures sounds { IfSome result (λ span. (frame : ℕ) → frame < 2 ^ 64 - 1 → is_between (Some span.0) (Some span.1) frame ≡ sounds_at site.now.world site.now.end.node.0 frame) }
    ensures silent { result ≡ None → (m : ℕ) → m < quantum_of site.now.world.spec → sounds_at site.now.world site.now.end.node.0 (site.now.first + m) ≡ false }
{
    let quantum = site.quantum;
    let place = play_place(quantum.world, site.end.node, site.near())?;
    let sched = quantum.world.scheds.at(place).sched;
    let start = sched.start_frame()?;
    let end = sched.end_frame().unwrap_or(u64::MAX);
    let next = quantum.first + u64::from(quantum.world.spec.quantum);
    if end <= quantum.first || next <= start {
        return None;
    }
    Some((start, end))
}
