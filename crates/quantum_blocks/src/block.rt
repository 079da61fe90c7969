ghost use Rattle.std.specs.Prelude.{◌≡◌, ◌≤◌, ◌<◌, ◌*◌, ◌+◌, ◌/◌, ◌^◌, ◌+ℤ◌, ◌∷◌, [], ℕ, ℤ, pos, Some, length, slice_index_or, map, filter, OnOk, IfOk, IfSome, FitsSigned, IsTrue, if◌then◌else◌};
ghost use Rattle.std.specs.Int.{w32};
ghost use Rattle.wa_base.specs.Numbers.{sat as saturated, scale as scaled};
ghost use Rattle.wa_base.specs.Contexts.{IsQuantumSize};
ghost use Rattle.param_cursor.specs.Ramps.{LastsFor, rise_at};
ghost use Rattle.node_table.specs.Curves.{IsCurve, shaper_value};
ghost use Rattle.sched_source.specs.Schedule.{is_between, played};
ghost use Rattle.meaning.specs.World.{channels_in, samples_in, up_to as clamped};
ghost use Rattle.mix_rules.specs.Blocks.{sample};
ghost use Rattle.mix_rules.specs.Mixing.{total};
ghost use Rattle.meaning.specs.declared.world.World.{World as world};
ghost use Rattle.meaning.specs.Values.{part};
ghost use Rattle.quantum_blocks.specs.Blocks.{at, shown, carried, room_of, frame_of};
ghost use Rattle.quantum_blocks.specs.Connections.{leads_to};
ghost use Rattle.quantum_blocks.specs.Fits.{AreSources};
ghost use Rattle.channel_mix.specs.Sums.{sum_at};
ghost use Rattle.quantum_blocks.specs.Held.{IsHeld, IsCarried, IsWidened};

use crate::gathering::{Inlet, gather, pair};
use crate::held::Held;
use crate::kernels::{
    are_scaled, copy_values, fill, is_throughout, move_on, raise_channels, scale_all,
    scale_channels, scale_steady, silence, sound, spread, unfold_if, up_to, up_to_each,
};
use crate::playing::Source;
use channel_mix::{Sums, level_of, sum_into};
use conn_graph::Edge;
use lane_kern::sat_into;
use param_cursor::Ramp;
use shaper_iir::shape_all;
use std::alloc::Global;
use std::marker::Model;
use wa_base::{Fix, NoMemory, Samples};

/// The values of a render quantum, on each of up to 32 lanes: one for each channel of each
/// output of an end. Contracts read a lane at frame m as `at`.
#[derive(Drop)]
pub struct Block {
    lanes: usize,
    frames: usize,
    // Whether each lane has one value, which it has at all frames.
    steady: bool,
    values: Vec<Fix>,
}

impl Model for Block {
    ghost use Rattle.std.specs.Prelude.{◌*◌, ◌-◌, vec_len};
    ghost use Rattle.quantum_blocks.specs.Blocks.{BlockView, IsBlock, lanes_from};

    ghost Value = { BlockView };

    ghost view = { λ b. record { lanes = b.lanes; frames = b.frames; spare = vec_len b.values - b.lanes * b.frames; values = lanes_from b.frames b.steady b.lanes b.values.items } };

    ghost invariant = { λ b. IsBlock b.lanes b.frames (vec_len b.values) };
}

impl Block {
    // No lane, and no room.
    pub(crate) fn empty(alloc: Global, frames: usize) -> Block
        requires { IsQuantumSize frames }
    {
        Block {
            lanes: 0,
            frames,
            steady: true,
            values: Vec::new(alloc),
        }
    }

    /// One silent lane of so many frames, with room for so many lanes.
    pub fn new(alloc: Global, room: usize, frames: usize) -> Result<Block, NoMemory>
        requires low { 1 ≤ room }
        requires high { room ≤ 32 }
        requires frames { IsQuantumSize frames }
        ensures frames { IfOk result (λ block. block.frames ≡ frames) }
        ensures lanes { IfOk result (λ block. block.lanes ≡ 1) }
        ensures room { IfOk result (λ block. room_of block ≡ room * frames) }
    {
        Ok(Block {
            lanes: 1,
            frames,
            steady: true,
            values: vec![in alloc; 0; room * frames]?,
        })
    }

    // Takes the memory for so many lanes of so many frames, and has them. Their values may be any.
    pub(crate) fn fit(&mut self, lanes: usize, frames: usize) -> Result<(), NoMemory>
        requires lanes { lanes ≤ 32 }
        requires frames { IsQuantumSize frames }
        ensures lanes { OnOk result (self.new.lanes ≡ lanes) }
        ensures frames { OnOk result (self.new.frames ≡ frames) }
    {
        if self.lanes == lanes && self.frames == frames {
            return Ok(());
        }
        self.resize(lanes, frames)
    }

    // The same for a block that may be of another size. It stands apart, so that going along blocks that
    // all fit is a short loop.
    #[inline(never)]
    fn resize(&mut self, lanes: usize, frames: usize) -> Result<(), NoMemory>
        requires lanes { lanes ≤ 32 }
        requires frames { IsQuantumSize frames }
        ensures lanes { OnOk result (self.new.lanes ≡ lanes) }
        ensures frames { OnOk result (self.new.frames ≡ frames) }
    {
        let room = self.values.len().max(lanes * frames);
        self.values.resize(room, 0)?;
        self.lanes = lanes;
        self.frames = frames;
        Ok(())
    }

    /// The number of lanes.
    pub fn lanes(&self) -> usize
        ensures lanes { result ≡ self.now.lanes }
        ensures high { result ≤ 32 }
    {
        self.lanes
    }

    /// The number of frames of a quantum.
    pub fn frames(&self) -> usize
        ensures value { result ≡ self.now.frames }
        ensures size { IsQuantumSize result }
    {
        self.frames
    }

    /// All values.
    pub fn held(&self) -> Held<'_>
        ensures { IsHeld self.now result }
    {
        if self.steady {
            Held::Steady(&self.values[0..self.lanes])
        } else {
            Held::Moving(&self.values[0..self.lanes * self.frames])
        }
    }

    /// Whether it is seen at once to be silent: what moves is not looked at.
    pub fn is_silent(&self) -> bool
        ensures { IsTrue result → (lane m : ℕ) → lane < self.now.lanes → m < self.now.frames → at self.now lane m ≡ pos 0 }
    {
        self.holds(0)
    }

    /// Whether it is seen at once to have one value on all lanes, at all frames: what moves is not looked at.
    pub fn holds(&self, value: Fix) -> bool
        ensures { IsTrue result → (lane m : ℕ) → lane < self.now.lanes → m < self.now.frames → at self.now lane m ≡ value }
    {
        match self.held() {
            Held::Steady(held) => held.iter().all(|one| *one == value),
            Held::Moving(_) => false,
        }
    }

    /// Whether it is seen at once to be what an output of another block is, multiplied by one gain: what moves
    /// is not looked at.
    pub fn is_scaled(&self, other: &Block, output: usize, gain: Fix) -> bool
        requires output { output * self.now.lanes + self.now.lanes ≤ other.now.lanes }
        requires frames { other.now.frames ≡ self.now.frames }
        ensures values { IsTrue result → (c m : ℕ) → c < self.now.lanes → m < self.now.frames → at self.now c m ≡ scaled (carried other.now self.now.lanes output m c) gain }
        ensures fit { IsTrue result → (c m : ℕ) → c < self.now.lanes → m < self.now.frames → FitsSigned w32 (carried other.now self.now.lanes output m c) }
    {
        match (self.held(), other.output(output, self.lanes)) {
            (Held::Steady(held), Held::Steady(heard)) => are_scaled(held, heard, gain),
            (Held::Steady(_) | Held::Moving(_), _) => false,
        }
    }

    // All values of one output, where each has so many channels.
    pub(crate) fn output(&self, output: usize, channels: usize) -> Held<'_>
        requires { output * channels + channels ≤ self.now.lanes }
        ensures { IsCarried self.now.frames (carried self.now channels output) channels result }
    {
        let values = self.values.as_slice();
        let first = output * channels;
        let end = first + channels;
        if self.steady {
            Held::Steady(&values[first..end])
        } else {
            Held::Moving(&values[first * self.frames..end * self.frames])
        }
    }

    /// Writes the lanes into the front of a room, with silent lanes behind them up to so many.
    pub fn copy_out(&self, out: &mut [Fix], lanes: usize)
        requires few { lanes ≤ 32 }
        requires within { self.now.lanes ≤ lanes }
        requires room { lanes * self.now.frames ≤ length out.old }
        ensures length { length out.new ≡ length out.old }
        ensures values { (lane m : ℕ) → lane < lanes → m < self.now.frames → sample self.now.frames out.new lane m ≡ shown self.now m lane }
    {
        let filled = self.lanes() * self.frames;
        match self.held() {
            Held::Steady(held) => spread(&mut out[0..filled], held, self.frames),
            Held::Moving(values) => copy_values(&mut out[0..filled], values),
        }
        silence(out, filled, lanes * self.frames);
    }

    /// All values as they are, where there are so many lanes and each has a value for each frame.
    pub fn plain(&self, lanes: usize) -> Option<&[Fix]>
        ensures { IfSome result (λ values. IsWidened self.now lanes values.now) }
    {
        if self.steady || self.lanes != lanes {
            return None;
        }
        Some(&self.values[0..self.lanes * self.frames])
    }

    /// Silences the lanes.
    pub fn silence(&mut self)
        ensures frames { self.new.frames ≡ self.old.frames }
        ensures lanes { self.new.lanes ≡ self.old.lanes }
        ensures values { (lane m : ℕ) → lane < self.old.lanes → m < self.old.frames → at self.new lane m ≡ pos 0 }
    {
        self.steady = true;
        fill(&mut self.values[0..self.lanes], 0);
    }

    /// Becomes one lane with the same value at all frames.
    pub fn hold(&mut self, value: Fix)
        requires room { self.old.frames ≤ room_of self.old }
        ensures frames { self.new.frames ≡ self.old.frames }
        ensures lanes { self.new.lanes ≡ 1 }
        ensures room { room_of self.new ≡ room_of self.old }
        ensures values { (m : ℕ) → m < self.old.frames → at self.new 0 m ≡ value }
    {
        self.lanes = 1;
        self.steady = true;
        fill(&mut self.values[0..1], value);
    }

    /// Becomes one lane with the values of a ramp.
    pub fn rise(&mut self, ramp: &Ramp)
        requires lasts { LastsFor ramp.now self.old.frames }
        requires room { self.old.frames ≤ room_of self.old }
        ensures frames { self.new.frames ≡ self.old.frames }
        ensures lanes { self.new.lanes ≡ 1 }
        ensures room { room_of self.new ≡ room_of self.old }
        ensures values { (m : ℕ) → m < self.old.frames → at self.new 0 m ≡ rise_at ramp.now m }
        ensures fit { (m : ℕ) → m < self.old.frames → FitsSigned w32 (rise_at ramp.now m) }
    {
        self.lanes = 1;
        self.steady = false;
        ramp.write(&mut self.values[0..self.frames]);
    }

    /// Of one lane, adds at each frame the sum there, saturated before and after.
    #[inline(never)]
    pub fn add(&mut self, sums: &Sums)
        requires mono { self.old.lanes ≡ 1 }
        requires sum { sums.now.count ≡ 1 }
        requires frames { sums.now.frames ≡ self.old.frames }
        ensures frames { self.new.frames ≡ self.old.frames }
        ensures lanes { self.new.lanes ≡ 1 }
        ensures room { room_of self.new ≡ room_of self.old }
        ensures values { (m : ℕ) → m < self.old.frames → at self.new 0 m ≡ saturated (at self.old 0 m +ℤ saturated (sum_at sums.now 0 m)) }
    {
        match self.steady_level(sums) {
            Some(level) => self.hold(level),
            None => self.add_moving(sums),
        }
    }

    // Of one lane, the level with its sum, where both are the same at all frames.
    fn steady_level(&self, sums: &Sums) -> Option<Fix>
        requires mono { self.now.lanes ≡ 1 }
        requires sum { sums.now.count ≡ 1 }
        requires frames { sums.now.frames ≡ self.now.frames }
        ensures { IfSome result (λ level. (m : ℕ) → m < self.now.frames → level ≡ saturated (at self.now 0 m +ℤ saturated (sum_at sums.now 0 m))) }
    {
        if !self.steady {
            return None;
        }
        let held = sums.steady()?;
        Some(level_of(self.values[0], held[0]))
    }

    fn add_moving(&mut self, sums: &Sums)
        requires mono { self.old.lanes ≡ 1 }
        requires sum { sums.now.count ≡ 1 }
        requires frames { sums.now.frames ≡ self.old.frames }
        ensures frames { self.new.frames ≡ self.old.frames }
        ensures lanes { self.new.lanes ≡ 1 }
        ensures room { room_of self.new ≡ room_of self.old }
        ensures values { (m : ℕ) → m < self.old.frames → at self.new 0 m ≡ saturated (at self.old 0 m +ℤ saturated (sum_at sums.now 0 m)) }
    {
        move_on(&mut self.values[0..self.frames], self.steady);
        self.steady = false;
        sums.add_to(&mut self.values[0..self.frames], 0);
    }

    /// Of one lane, holds the value of the first frame.
    pub fn hold_first(&mut self)
        requires mono { self.old.lanes ≡ 1 }
        ensures frames { self.new.frames ≡ self.old.frames }
        ensures lanes { self.new.lanes ≡ 1 }
        ensures room { room_of self.new ≡ room_of self.old }
        ensures values { (m : ℕ) → m < self.old.frames → at self.new 0 m ≡ at self.old 0 0 }
    {
        let value = self.values[0];
        self.hold(value);
    }

    /// Of one lane, clamps each value to those from 0 up to another.
    pub fn up_to(&mut self, most: Fix)
        requires mono { self.old.lanes ≡ 1 }
        ensures frames { self.new.frames ≡ self.old.frames }
        ensures lanes { self.new.lanes ≡ 1 }
        ensures room { room_of self.new ≡ room_of self.old }
        ensures values { (m : ℕ) → m < self.old.frames → at self.new 0 m ≡ clamped most (at self.old 0 m) }
    {
        match self.steady_value() {
            Some(value) => self.hold(up_to(value, most)),
            None => self.up_to_moving(most),
        }
    }

    // Of one lane, the value that it has at all frames, if it is steady.
    fn steady_value(&self) -> Option<Fix>
        requires { self.now.lanes ≡ 1 }
        ensures { IfSome result (λ value. (m : ℕ) → m < self.now.frames → value ≡ at self.now 0 m) }
    {
        if self.steady {
            Some(self.values[0])
        } else {
            None
        }
    }

    fn up_to_moving(&mut self, most: Fix)
        requires mono { self.old.lanes ≡ 1 }
        ensures frames { self.new.frames ≡ self.old.frames }
        ensures lanes { self.new.lanes ≡ 1 }
        ensures room { room_of self.new ≡ room_of self.old }
        ensures values { (m : ℕ) → m < self.old.frames → at self.new 0 m ≡ clamped most (at self.old 0 m) }
    {
        move_on(&mut self.values[0..self.frames], self.steady);
        self.steady = false;
        up_to_each(&mut self.values[0..self.frames], most);
    }

    /// Of one lane, silences the frames before `start` and from `end` on.
    pub fn sound(&mut self, start: u64, end: u64, first: u64)
        requires mono { self.old.lanes ≡ 1 }
        requires time { first ≤ 2 ^ 62 }
        ensures frames { self.new.frames ≡ self.old.frames }
        ensures lanes { self.new.lanes ≡ 1 }
        ensures room { room_of self.new ≡ room_of self.old }
        ensures values { (m : ℕ) → m < self.old.frames → at self.new 0 m ≡ (if is_between (Some start) (Some end) (first + m) then at self.old 0 m else pos 0) }
    {
        if !is_throughout(start, end, first, self.frames) {
            self.sound_in_part(start, end, first);
        }
    }

    fn sound_in_part(&mut self, start: u64, end: u64, first: u64)
        requires mono { self.old.lanes ≡ 1 }
        requires time { first ≤ 2 ^ 62 }
        ensures frames { self.new.frames ≡ self.old.frames }
        ensures lanes { self.new.lanes ≡ 1 }
        ensures room { room_of self.new ≡ room_of self.old }
        ensures values { (m : ℕ) → m < self.old.frames → at self.new 0 m ≡ (if is_between (Some start) (Some end) (first + m) then at self.old 0 m else pos 0) }
    {
        move_on(&mut self.values[0..self.frames], self.steady);
        self.steady = false;
        sound(&mut self.values[0..self.frames], start, end, first);
    }

    /// Becomes what a source plays in the quantum that begins at `first`.
    pub fn play(&mut self, source: &Source, first: u64)
        requires time { first ≤ 2 ^ 62 }
        ensures frames { self.new.frames ≡ self.old.frames }
        ensures lanes { self.new.lanes ≡ self.old.lanes }
        ensures values { (lane m : ℕ) → lane < self.old.lanes → lane < channels_in source.now.store (Some source.now.buffer) → m < self.old.frames →
            at self.new lane m ≡ played source.now.sched (samples_in source.now.store (Some source.now.buffer) lane) (first + m) }
    {
        self.steady = false;
        source.play(
            &mut self.values[0..self.lanes * self.frames],
            self.lanes,
            self.frames,
            first,
        );
    }

    /// Becomes what the sums are, saturated.
    pub fn saturate(&mut self, sums: &Sums)
        requires room { sums.now.count * self.old.frames ≤ room_of self.old }
        requires frames { sums.now.frames ≡ self.old.frames }
        ensures frames { self.new.frames ≡ self.old.frames }
        ensures lanes { self.new.lanes ≡ sums.now.count }
        ensures room { room_of self.new ≡ room_of self.old }
        ensures values { (lane m : ℕ) → lane < sums.now.count → m < self.old.frames → at self.new lane m ≡ saturated (sum_at sums.now lane m) }
    {
        self.lanes = sums.count();
        match sums.steady() {
            Some(held) => {
                self.steady = true;
                sat_into(&mut self.values[0..self.lanes], held);
            }
            None => {
                self.steady = false;
                sums.settle(&mut self.values[0..self.lanes * self.frames]);
            }
        }
    }

    /// Becomes what those of the connections carry that lead to an inlet, added up and saturated, with the
    /// channels of each end by its slot.
    #[inline(never)]
    pub fn hear(
        &mut self,
        sums: &mut Sums,
        blocks: &[Block],
        into: &[Edge],
        counts: &[u32],
        inlet: Inlet,
    )
        requires low { 1 ≤ inlet.count }
        requires high { inlet.count ≤ 32 }
        requires few { length into.now ≤ 8192 }
        requires room { inlet.count * self.old.frames ≤ room_of self.old }
        requires frames { sums.old.frames ≡ self.old.frames }
        requires sources { AreSources self.old.frames counts.now blocks.now into.now }
        ensures frames { self.new.frames ≡ self.old.frames }
        ensures sum_frames { sums.new.frames ≡ sums.old.frames }
        ensures lanes { self.new.lanes ≡ inlet.count }
        ensures room { room_of self.new ≡ room_of self.old }
        ensures values { (w : world) (c m : ℕ) → c < inlet.count → m < self.old.frames → at self.new c m ≡ saturated (total (map (part (frame_of w blocks.now counts.now m) inlet.interp inlet.count c) (filter (leads_to inlet.target) into.now))) }
    {
        match pair(blocks, into, counts, inlet) {
            Some((Held::Moving(first), Held::Moving(second))) => {
                self.copy_sum(first, second, inlet.count);
            }
            Some(
                (Held::Moving(heard), Held::Steady(held))
                | (Held::Steady(held), Held::Moving(heard)),
            ) => self.copy_raised(heard, held),
            _ => {
                gather(sums, blocks, into, counts, inlet);
                self.saturate(sums);
            }
        }
    }

    // Becomes so many lanes, each with the sums of two values, saturated.
    fn copy_sum(&mut self, first: &[Fix], second: &[Fix], lanes: usize)
        requires first { length first.now ≡ lanes * self.old.frames }
        requires second { length second.now ≡ lanes * self.old.frames }
        requires few { lanes ≤ 32 }
        requires room { lanes * self.old.frames ≤ room_of self.old }
        ensures frames { self.new.frames ≡ self.old.frames }
        ensures lanes { self.new.lanes ≡ lanes }
        ensures room { room_of self.new ≡ room_of self.old }
        ensures values { (lane m : ℕ) → lane < lanes → m < self.old.frames → at self.new lane m ≡ saturated (sample self.old.frames first.now lane m +ℤ sample self.old.frames second.now lane m) }
    {
        self.lanes = lanes;
        self.steady = false;
        sum_into(&mut self.values[0..lanes * self.frames], first, second);
    }

    // Becomes lanes with these values, each raised by the value of its lane, and saturated.
    fn copy_raised(&mut self, heard: &[Fix], held: &[Fix])
        requires heard { length heard.now ≡ length held.now * self.old.frames }
        requires few { length held.now ≤ 32 }
        requires room { length held.now * self.old.frames ≤ room_of self.old }
        ensures frames { self.new.frames ≡ self.old.frames }
        ensures lanes { self.new.lanes ≡ length held.now }
        ensures room { room_of self.new ≡ room_of self.old }
        ensures values { (lane m : ℕ) → lane < length held.now → m < self.old.frames → at self.new lane m ≡ saturated (sample self.old.frames heard.now lane m +ℤ slice_index_or held.now lane (pos 0)) }
    {
        self.lanes = held.len();
        self.steady = false;
        let frames = self.frames;
        raise_channels(
            &mut self.values[0..self.lanes * frames],
            heard,
            held,
            frames,
        );
    }

    /// Becomes what another block is.
    pub fn copy(&mut self, other: &Block)
        requires room { other.now.lanes * self.old.frames ≤ room_of self.old }
        requires frames { other.now.frames ≡ self.old.frames }
        ensures frames { self.new.frames ≡ self.old.frames }
        ensures lanes { self.new.lanes ≡ other.now.lanes }
        ensures room { room_of self.new ≡ room_of self.old }
        ensures values { (lane m : ℕ) → lane < other.now.lanes → m < self.old.frames → at self.new lane m ≡ at other.now lane m }
    {
        let lanes = other.lanes();
        match other.held() {
            Held::Steady(held) => self.copy_steady(held),
            Held::Moving(values) => self.copy_moving(values, lanes),
        }
    }

    /// Becomes what an output of another block is.
    pub fn copy_output(&mut self, other: &Block, output: usize, channels: usize)
        requires output { output * channels + channels ≤ other.now.lanes }
        requires few { channels ≤ 32 }
        requires room { channels * self.old.frames ≤ room_of self.old }
        requires frames { other.now.frames ≡ self.old.frames }
        ensures frames { self.new.frames ≡ self.old.frames }
        ensures lanes { self.new.lanes ≡ channels }
        ensures room { room_of self.new ≡ room_of self.old }
        ensures values { (c m : ℕ) → c < channels → m < self.old.frames → at self.new c m ≡ carried other.now channels output m c }
        ensures fit { (c m : ℕ) → c < channels → m < self.old.frames → FitsSigned w32 (carried other.now channels output m c) }
    {
        match other.output(output, channels) {
            Held::Steady(held) => self.copy_steady(held),
            Held::Moving(values) => self.copy_moving(values, channels),
        }
    }

    fn copy_steady(&mut self, held: &[Fix])
        requires few { length held.now ≤ 32 }
        requires room { length held.now * self.old.frames ≤ room_of self.old }
        ensures frames { self.new.frames ≡ self.old.frames }
        ensures lanes { self.new.lanes ≡ length held.now }
        ensures room { room_of self.new ≡ room_of self.old }
        ensures values { (lane m : ℕ) → lane < length held.now → m < self.old.frames → at self.new lane m ≡ slice_index_or held.now lane (pos 0) }
        ensures fit { (lane : ℕ) → lane < length held.now → FitsSigned w32 (slice_index_or held.now lane (pos 0)) }
    {
        if let [value] = held {
            self.hold(*value);
            return;
        }
        self.lanes = held.len();
        self.steady = true;
        copy_values(&mut self.values[0..self.lanes], held);
    }

    /// Becomes so many lanes with these values, the frames of one lane behind those of another.
    pub fn copy_moving(&mut self, values: &[Fix], lanes: usize)
        requires length { length values.now ≡ lanes * self.old.frames }
        requires few { lanes ≤ 32 }
        requires room { lanes * self.old.frames ≤ room_of self.old }
        ensures frames { self.new.frames ≡ self.old.frames }
        ensures lanes { self.new.lanes ≡ lanes }
        ensures room { room_of self.new ≡ room_of self.old }
        ensures values { (lane m : ℕ) → lane < lanes → m < self.old.frames → at self.new lane m ≡ sample self.old.frames values.now lane m }
        ensures fit { (lane m : ℕ) → lane < lanes → m < self.old.frames → FitsSigned w32 (sample self.old.frames values.now lane m) }
    {
        self.lanes = lanes;
        self.steady = false;
        copy_values(&mut self.values[0..lanes * self.frames], values);
    }

    /// Has so many lanes. Their values may be any.
    pub fn begin(&mut self, lanes: usize)
        requires few { lanes ≤ 32 }
        requires room { lanes * self.old.frames ≤ room_of self.old }
        ensures frames { self.new.frames ≡ self.old.frames }
        ensures lanes { self.new.lanes ≡ lanes }
        ensures room { room_of self.new ≡ room_of self.old }
    {
        self.lanes = lanes;
        self.steady = true;
    }

    /// Of another block's one lane, makes one of its own.
    pub fn set_lane(&mut self, lane: usize, other: &Block)
        requires lane { lane < self.old.lanes }
        requires mono { other.now.lanes ≡ 1 }
        requires frames { other.now.frames ≡ self.old.frames }
        ensures frames { self.new.frames ≡ self.old.frames }
        ensures lanes { self.new.lanes ≡ self.old.lanes }
        ensures room { room_of self.new ≡ room_of self.old }
        ensures own { (m : ℕ) → m < self.old.frames → at self.new lane m ≡ at other.now 0 m }
        ensures others { (l m : ℕ) → l < self.old.lanes → (l ≡ lane → ⊥) → m < self.old.frames → at self.new l m ≡ at self.old l m }
    {
        match other.held() {
            Held::Steady(held) => self.set_steady(lane, held[0]),
            Held::Moving(values) => self.set_moving(lane, values),
        }
    }

    fn set_steady(&mut self, lane: usize, value: Fix)
        requires lane { lane < self.old.lanes }
        ensures frames { self.new.frames ≡ self.old.frames }
        ensures lanes { self.new.lanes ≡ self.old.lanes }
        ensures room { room_of self.new ≡ room_of self.old }
        ensures own { (m : ℕ) → m < self.old.frames → at self.new lane m ≡ value }
        ensures others { (l m : ℕ) → l < self.old.lanes → (l ≡ lane → ⊥) → m < self.old.frames → at self.new l m ≡ at self.old l m }
    {
        if self.steady {
            self.values[lane] = value;
        } else {
            fill(
                &mut self.values[lane * self.frames..(lane + 1) * self.frames],
                value,
            );
        }
    }

    fn set_moving(&mut self, lane: usize, values: &[Fix])
        requires lane { lane < self.old.lanes }
        requires length { length values.now ≡ self.old.frames }
        ensures frames { self.new.frames ≡ self.old.frames }
        ensures lanes { self.new.lanes ≡ self.old.lanes }
        ensures room { room_of self.new ≡ room_of self.old }
        ensures own { (m : ℕ) → m < self.old.frames → at self.new lane m ≡ slice_index_or values.now m (pos 0) }
        ensures others { (l m : ℕ) → l < self.old.lanes → (l ≡ lane → ⊥) → m < self.old.frames → at self.new l m ≡ at self.old l m }
    {
        unfold_if(
            &mut self.values[0..self.lanes * self.frames],
            self.lanes,
            self.frames,
            self.steady,
        );
        self.steady = false;
        copy_values(
            &mut self.values[lane * self.frames..(lane + 1) * self.frames],
            values,
        );
    }

    /// Becomes what another block is, multiplied at each frame by the gain there.
    pub fn scale(&mut self, other: &Block, gains: &Block)
        requires room { other.now.lanes * self.old.frames ≤ room_of self.old }
        requires mono { gains.now.lanes ≡ 1 }
        requires frames { other.now.frames ≡ self.old.frames }
        requires gain_frames { gains.now.frames ≡ self.old.frames }
        ensures frames { self.new.frames ≡ self.old.frames }
        ensures lanes { self.new.lanes ≡ other.now.lanes }
        ensures room { room_of self.new ≡ room_of self.old }
        ensures values { (lane m : ℕ) → lane < other.now.lanes → m < self.old.frames → at self.new lane m ≡ scaled (at other.now lane m) (at gains.now 0 m) }
    {
        match gains.held() {
            Held::Steady(held) => self.scale_by(other, held[0]),
            Held::Moving(gains) => self.scale_by_frame(other, gains),
        }
    }

    // Becomes what another block is, multiplied by one gain.
    fn scale_by(&mut self, other: &Block, gain: Fix)
        requires room { other.now.lanes * self.old.frames ≤ room_of self.old }
        requires frames { other.now.frames ≡ self.old.frames }
        ensures frames { self.new.frames ≡ self.old.frames }
        ensures lanes { self.new.lanes ≡ other.now.lanes }
        ensures room { room_of self.new ≡ room_of self.old }
        ensures values { (lane m : ℕ) → lane < other.now.lanes → m < self.old.frames → at self.new lane m ≡ scaled (at other.now lane m) gain }
    {
        self.lanes = other.lanes();
        match other.held() {
            Held::Steady(held) => {
                self.steady = true;
                scale_all(&mut self.values[0..self.lanes], held, gain);
            }
            Held::Moving(values) => {
                self.steady = false;
                scale_all(&mut self.values[0..self.lanes * self.frames], values, gain);
            }
        }
    }

    // Becomes what another block is, multiplied at each frame by the gain there.
    fn scale_by_frame(&mut self, other: &Block, gains: &[Fix])
        requires room { other.now.lanes * self.old.frames ≤ room_of self.old }
        requires gains { length gains.now ≡ self.old.frames }
        requires frames { other.now.frames ≡ self.old.frames }
        ensures frames { self.new.frames ≡ self.old.frames }
        ensures lanes { self.new.lanes ≡ other.now.lanes }
        ensures room { room_of self.new ≡ room_of self.old }
        ensures values { (lane m : ℕ) → lane < other.now.lanes → m < self.old.frames → at self.new lane m ≡ scaled (at other.now lane m) (slice_index_or gains.now m (pos 0)) }
    {
        self.lanes = other.lanes();
        self.steady = false;
        let values = &mut self.values[0..self.lanes * self.frames];
        match other.held() {
            Held::Steady(held) => scale_steady(values, held, gains),
            Held::Moving(heard) => scale_channels(values, self.lanes, heard, gains),
        }
    }

    /// Becomes what another block is, shaped by a curve.
    pub fn shape(&mut self, other: &Block, curve: &Option<Samples>)
        requires room { other.now.lanes * self.old.frames ≤ room_of self.old }
        requires curve { IsCurve curve.now }
        requires frames { other.now.frames ≡ self.old.frames }
        ensures frames { self.new.frames ≡ self.old.frames }
        ensures lanes { self.new.lanes ≡ other.now.lanes }
        ensures room { room_of self.new ≡ room_of self.old }
        ensures values { (lane m : ℕ) → lane < other.now.lanes → m < self.old.frames → at self.new lane m ≡ shaper_value curve.now (at other.now lane m ∷ []) }
    {
        self.lanes = other.lanes();
        match other.held() {
            Held::Steady(held) => {
                self.steady = true;
                shape_all(curve, held, &mut self.values[0..self.lanes]);
            }
            Held::Moving(values) => {
                self.steady = false;
                shape_all(curve, values, &mut self.values[0..self.lanes * self.frames]);
            }
        }
    }
}
