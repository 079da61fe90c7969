ghost use Rattle.std.specs.Prelude.{◌≡◌, ◌≤◌, ◌<◌, ◌+◌, ◌*◌, ◌+ℤ◌, ℕ, pos, length, slice_index_or, IfOk, IfSome};
ghost use Rattle.mix_rules.specs.Blocks.{sample, frame_at};
ghost use Rattle.wa_base.specs.Contexts.{IsQuantumSize};
ghost use Rattle.wa_base.specs.Numbers.{sat as saturated};
ghost use Rattle.mix_rules.specs.Mixing.{mix};
ghost use Rattle.channel_mix.specs.Sums.{sum_at, AreLong, four_at};

use crate::four::{Four, add_four};
use crate::mixing::mix_add;
use crate::settling::{clear_unless, each_level, each_level_on, settle};
use crate::widening::{widen, widen_if};
use std::alloc::Global;
use std::marker::Model;
use wa_base::{Fix, Interp, NoMemory, sat};

/// The greatest number of channels.
pub const CHANNELS: usize = 32;

/// What connections carry, mixed to 1 to 32 channels and added up exactly: a sum for each channel at
/// each frame. It has room for as many connections as a graph may have.
#[derive(Drop)]
pub struct Sums {
    count: usize,
    frames: usize,
    added: usize,
    // What is the same at all frames, a sum for each channel.
    held: Vec<i64>,
    // Whether there is more, which is in `moving`.
    moves: bool,
    moving: Vec<i64>,
}

impl Model for Sums {
    ghost use Rattle.std.specs.Prelude.{take};
    ghost use Rattle.channel_mix.specs.Sums.{SumsView, AreSums, moving_sums};

    ghost Value = { SumsView };

    ghost view = { λ s. record { count = s.count; frames = s.frames; added = s.added; held = take s.count s.held.items; moving = moving_sums s.frames s.moves s.count s.moving.items } };

    ghost invariant = { λ s. AreSums s.count s.frames s.added s.moves s.held.items s.moving.items };
}

impl Sums {
    /// One channel of so many frames, to which nothing is added yet.
    pub fn new(alloc: Global, frames: usize) -> Result<Sums, NoMemory>
        requires { IsQuantumSize frames }
        ensures { IfOk result (λ sums. (sums.count ≡ 1) × (sums.frames ≡ frames) × (sums.added ≡ 0) × ((m : ℕ) → m < frames → sum_at sums 0 m ≡ pos 0)) }
    {
        Ok(Sums {
            count: 1,
            frames,
            added: 0,
            held: vec![in alloc; 0; CHANNELS]?,
            moves: false,
            moving: vec![in alloc; 0; CHANNELS * frames]?,
        })
    }

    /// The number of channels.
    pub fn count(&self) -> usize
        ensures count { result ≡ self.now.count }
        ensures low { 1 ≤ result }
        ensures high { result ≤ 32 }
    {
        self.count
    }

    /// The sum of each channel, where it is the same at all frames.
    pub fn steady(&self) -> Option<&[i64]>
        ensures { IfSome result (λ held. (length held.now ≡ self.now.count) × (1 ≤ length held.now) × ((c m : ℕ) → c < self.now.count → m < self.now.frames → sum_at self.now c m ≡ slice_index_or held.now c (pos 0))) }
    {
        if self.moves {
            None
        } else {
            Some(&self.held[0..self.count])
        }
    }

    /// Writes all sums, saturated: the frames of one channel behind those of another.
    pub fn settle(&self, values: &mut [Fix])
        requires { length values.old ≡ self.now.count * self.now.frames }
        ensures length { length values.new ≡ length values.old }
        ensures values { (c m : ℕ) → c < self.now.count → m < self.now.frames → sample self.now.frames values.new c m ≡ saturated (sum_at self.now c m) }
    {
        for channel in 0..self.count() {
            let first = channel * self.frames;
            self.settle_channel(channel, &mut values[first..first + self.frames]);
        }
    }

    fn settle_channel(&self, channel: usize, values: &mut [Fix])
        requires channel { channel < self.now.count }
        requires length { length values.old ≡ self.now.frames }
        ensures length { length values.new ≡ length values.old }
        ensures values { (m : ℕ) → m < length values.old → slice_index_or values.new m (pos 0) ≡ saturated (sum_at self.now channel m) }
    {
        let held = self.held[channel];
        if self.moves {
            let first = channel * self.frames;
            settle(values, held, &self.moving[first..first + self.frames]);
        } else {
            values.fill(sat(held));
        }
    }

    /// Adds to each level the sum of a channel there, saturated before and after.
    pub fn add_to(&self, levels: &mut [Fix], channel: usize)
        requires channel { channel < self.now.count }
        requires length { length levels.old ≡ self.now.frames }
        ensures length { length levels.new ≡ length levels.old }
        ensures values { (m : ℕ) → m < length levels.old → slice_index_or levels.new m (pos 0) ≡ saturated (slice_index_or levels.old m (pos 0) +ℤ saturated (sum_at self.now channel m)) }
    {
        let held = self.held[channel];
        if self.moves {
            let first = channel * self.frames;
            each_level(levels, held, &self.moving[first..first + self.frames]);
        } else {
            each_level_on(levels, held);
        }
    }

    /// No connection yet, and so many channels.
    pub fn clear(&mut self, count: usize)
        requires low { 1 ≤ count }
        requires high { count ≤ 32 }
        ensures frames { self.new.frames ≡ self.old.frames }
        ensures count { self.new.count ≡ count }
        ensures added { self.new.added ≡ 0 }
        ensures sums { (c m : ℕ) → c < count → m < self.old.frames → sum_at self.new c m ≡ pos 0 }
    {
        self.count = count;
        self.added = 0;
        self.moves = false;
        self.held[0..count].fill(0);
    }

    /// Adds what a connection carries that has one value for each of its channels, at all frames.
    pub fn add_steady(&mut self, held: &[Fix], interp: Interp)
        requires added { self.old.added < 8192 }
        ensures frames { self.new.frames ≡ self.old.frames }
        ensures count { self.new.count ≡ self.old.count }
        ensures added { self.new.added ≡ self.old.added + 1 }
        ensures sums { (c m : ℕ) → c < self.old.count → m < self.old.frames →
            sum_at self.new c m ≡ sum_at self.old c m +ℤ mix interp (length held.now) self.old.count (λ i. slice_index_or held.now i (pos 0)) c }
    {
        let sums = &mut self.held[0..self.count];
        mix_add(sums, self.count, held, held.len(), interp);
        self.added += 1;
    }

    /// Adds what a connection carries from so many channels, with a value for each frame of each.
    pub fn add_moving(&mut self, values: &[Fix], from: usize, interp: Interp)
        requires added { self.old.added < 8192 }
        requires length { length values.now ≡ from * self.old.frames }
        ensures frames { self.new.frames ≡ self.old.frames }
        ensures count { self.new.count ≡ self.old.count }
        ensures added { self.new.added ≡ self.old.added + 1 }
        ensures sums { (c m : ℕ) → c < self.old.count → m < self.old.frames →
            sum_at self.new c m ≡ sum_at self.old c m +ℤ mix interp from self.old.count (frame_at self.old.frames values.now m) c }
    {
        let sums = &mut self.moving[0..self.count * self.frames];
        clear_unless(sums, self.moves);
        mix_add(sums, self.count, values, from, interp);
        self.moves = true;
        self.added += 1;
    }

    /// Adds what four connections carry that have as many channels as the sums: four of them in one pass.
    pub fn add_four(&mut self, four: Four<'_>)
        requires added { self.old.added < 8192 }
        requires long { AreLong (self.old.count * self.old.frames) four }
        ensures frames { self.new.frames ≡ self.old.frames }
        ensures count { self.new.count ≡ self.old.count }
        ensures added { self.new.added ≡ self.old.added + 1 }
        ensures sums { (c m : ℕ) → c < self.old.count → m < self.old.frames → sum_at self.new c m ≡ sum_at self.old c m +ℤ four_at four.entry (c * self.old.frames + m) }
    {
        let sums = &mut self.moving[0..self.count * self.frames];
        clear_unless(sums, self.moves);
        add_four(sums, four);
        self.moves = true;
        self.added += 1;
    }

    /// Of one channel, makes so many: what a mono input is mixed to.
    pub fn widen(&mut self, count: usize, interp: Interp)
        requires mono { self.old.count ≡ 1 }
        requires low { 1 ≤ count }
        requires high { count ≤ 32 }
        ensures frames { self.new.frames ≡ self.old.frames }
        ensures count { self.new.count ≡ count }
        ensures sums { (c m : ℕ) → c < count → m < self.old.frames → sum_at self.new c m ≡ mix interp 1 count (λ i. sum_at self.old 0 m) c }
    {
        widen(&mut self.held[0..count], count, 1, interp);
        let sums = &mut self.moving[0..count * self.frames];
        widen_if(sums, count, self.frames, interp, self.moves);
        self.count = count;
    }
}
