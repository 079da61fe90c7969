ghost use Rattle.std.specs.Prelude.{◌≡◌, ◌<◌, ◌≤◌, ◌+◌, ◌*◌, ◌^◌, ℕ, true, length, All};
ghost use Rattle.delay_line.specs.Lines.{written as frames_of};
ghost use Rattle.delay_line.specs.Spans.{IsReached, delay_at};

use delay_line::DelayLine;
use std::alloc::Global;
use wa_base::{Fix, Interp, NoMemory};

const LATEST: u64 = 1 << 62;

// A line whose calls are tried before they are made.
#[derive(Drop)]
pub struct Tried {
    pub line: DelayLine,
    pub capacity: u64,
    pub block: u32,
    pub written: u64,
    // The greatest count so far.
    pub most: u32,
    ghost sizes: { (line.capacity ≡ capacity) × (line.block ≡ block) },
    ghost small: { (capacity ≤ 4194304) × (block ≤ 1024) × (written ≤ 2 ^ 62 + 1024) },
    ghost frames: { written ≡ frames_of line },
    ghost counts: { All (λ n. n ≤ most) line.counts },
}

impl Tried {
    pub fn new(alloc: Global, capacity: u64, block: u32) -> Result<Tried, NoMemory>
        requires capacity { capacity ≤ 4194304 }
        requires block { (1 ≤ block) × (block ≤ 1024) }
    {
        let line = DelayLine::new(alloc, capacity, block)?;
        Ok(Tried {
            line,
            capacity,
            block,
            written: 0,
            most: 1,
        })
    }

    // Makes room for a block and writes it, where its length is right.
    pub fn write(&mut self, block: &[Fix], channels: u32) -> Result<bool, NoMemory> {
        let frames = self.block;
        if channels > 32
            || block.len() != channels as usize * frames as usize
            || self.written > LATEST
        {
            return Ok(false);
        }
        self.line.grow(channels)?;
        self.line.write(block, channels);
        self.written += u64::from(frames);
        self.most = self.most.max(channels);
        Ok(true)
    }

    // Reads a block, where the line has it.
    pub fn read(
        &self,
        out: &mut [Fix],
        channels: u32,
        first: u64,
        delays: &[u64],
        interp: Interp,
    ) -> bool {
        let frames = self.block as usize;
        if channels > 32
            || channels < self.most
            || out.len() != channels as usize * frames
            || delays.len() != frames
            || first > LATEST
        {
            return false;
        }
        if !self.has_all(first, delays) {
            return false;
        }
        self.line.read(out, channels, first, delays, interp);
        true
    }

    // Whether each frame asked for lies before birth or is kept.
    fn has_all(&self, first: u64, delays: &[u64]) -> bool
        requires { (first ≤ 2 ^ 62) × (length delays.now ≤ 1024) }
        ensures { result ≡ true → (k : ℕ) → k < length delays.now → IsReached self.now.line (first + k) (delay_at delays.now k) }
    {
        for k in 0..delays.len() {
            if !self.has(first + k as u64, delays[k]) {
                return false;
            }
        }
        true
    }

    fn has(&self, f: u64, delay: u64) -> bool
        requires { f ≤ 2 ^ 63 }
        ensures { result ≡ true → IsReached self.now.line f delay }
    {
        if f < delay {
            return true;
        }
        let g = f - delay;
        g < self.written && self.written <= g + self.capacity + u64::from(self.block)
    }
}
