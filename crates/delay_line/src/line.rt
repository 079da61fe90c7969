ghost use Rattle.std.specs.Prelude.{◌≡◌, ◌↔◌, ◌<◌, ◌≤◌, ◌+◌, ◌-◌, ◌*◌, ◌^◌, [], ℕ, length, max, All, IfOk, OnOk, OnErr, Some};
ghost use Rattle.lane_kern.specs.Blocks.{at};
ghost use Rattle.mix_rules.specs.Blocks.{sample};
ghost use Rattle.delay_line.specs.Delays.{Writer, delayed};
ghost use Rattle.delay_line.specs.Lines as lines;
ghost use Rattle.delay_line.specs.Lines.{Keeps, IsNext, IsKept, frame_at};
ghost use Rattle.delay_line.specs.Runs.{IsSteadySpan};
ghost use Rattle.delay_line.specs.Spans.{IsSpan, IsReached, heard_count, delay_at};
ghost use Rattle.delay_line.specs.Sources.{picked};

use crate::counts::Counts;
use crate::rings::{Ring, copy_run, distance, gather, grow_rings, write_rings};
use crate::sources::source_of;
use crate::spans::{Span, moving_end, steady_delay, unborn_end};
use std::alloc::Global;
use std::marker::Model;
use wa_base::{Fix, Interp, NoMemory};

/// What a delay (DelayNode) remembers: the last frames that its writer wrote, as many as the longest
/// delay and a block have, and with how many channels each block was written.
///
/// Frames are numbered from 0, which is the first that is written and the birth of the delay. All
/// blocks of a line have one length, and a block holds channel after channel. Samples are in units of
/// 2^-24. After `grow` neither `write` nor `read` takes memory.
///
/// From the section 'The DelayNode Interface'.
#[derive(Drop)]
pub struct DelayLine {
    alloc: Global,
    capacity: usize,
    block: usize,
    blocks: u64,
    counts: Counts,
    rings: Vec<Ring>,
}

// What a reader asks for: its frames from the first on, mixed to so many channels.
#[derive(Clone, Copy)]
struct Request {
    first: u64,
    channels: usize,
    interp: Interp,
}

impl Model for DelayLine {
    ghost use Rattle.delay_line.specs.Lines.{Line};

    ghost Value = { Line };

    ghost use Rattle.delay_line.specs.Inside.{line_of, IsSound};

    ghost view = { line_of };

    ghost invariant = { IsSound };
}

impl DelayLine {
    /// A line at its birth, for delays of at most `capacity` frames and blocks of 1 to 1,024 frames. It
    /// has no room for a channel.
    pub fn new(alloc: Global, capacity: u64, block: u32) -> Result<DelayLine, NoMemory>
        requires capacity { capacity ≤ 4194304 }
        requires block { (1 ≤ block) × (block ≤ 1024) }
        ensures value { IfOk result (λ line. line ≡ record { capacity = capacity; block = block; blocks = 0; counts = []; channels = [] }) }
        ensures keeps { IfOk result (λ line. (writer : Writer) → Keeps line writer) }
    {
        let capacity = capacity as usize;
        let block = block as usize;
        let counts = Counts::new(alloc, capacity / block + 2)?;
        Ok(DelayLine {
            alloc,
            capacity,
            block,
            blocks: 0,
            counts,
            rings: Vec::new(alloc),
        })
    }

    /// Makes room for at least so many channels, which are silent so far. It alone takes memory; after
    /// `NoMemory` the line is as before.
    pub fn grow(&mut self, channels: u32) -> Result<(), NoMemory>
        ensures keeps { (writer : Writer) → Keeps self.old writer ↔ Keeps self.new writer }
        ensures same { (self.new.capacity ≡ self.old.capacity) × (self.new.block ≡ self.old.block) × (self.new.blocks ≡ self.old.blocks) }
        ensures counts { self.new.counts ≡ self.old.counts }
        ensures ok { OnOk result (length self.new.channels ≡ max (length self.old.channels) channels) }
        ensures err { OnErr result (self.new ≡ self.old) }
    {
        let capacity = self.capacity + self.block;
        grow_rings(self.alloc, &mut self.rings, channels as usize, capacity)
    }

    /// Writes the next block: its frames of the first channel, then those of the second and so on. `grow`
    /// made room for its channels, and at most 2^62 frames were written before.
    pub fn write(&mut self, block: &[Fix], channels: u32)
        requires room { channels ≤ length self.old.channels }
        requires block { length block.now ≡ channels * self.old.block }
        requires written { lines.written self.old ≤ 2 ^ 62 }
        ensures keeps { (writer : Writer) → Keeps self.old writer → IsNext self.old writer channels block.now → Keeps self.new writer }
        ensures blocks { self.new.blocks ≡ self.old.blocks + 1 }
        ensures counts { (most : ℕ) → All (λ n. n ≤ most) self.old.counts → channels ≤ most → All (λ n. n ≤ most) self.new.counts }
        ensures same { (self.new.capacity ≡ self.old.capacity) × (self.new.block ≡ self.old.block) }
        ensures room { length self.new.channels ≡ length self.old.channels }
    {
        self.counts.push(channels);
        write_rings(&mut self.rings, block, channels as usize, self.block);
        self.blocks += 1;
    }

    /// Reads a block from the reader's frame `first` on, mixed to so many channels: `out` gets the frames
    /// of the first channel, then those of the second and so on. `delays` has the delay of each frame, in
    /// frames. Each frame asked for lies before birth, or is among the last that were written, as many as
    /// the longest delay and a block have. Of one that was written with more channels the first are read.
    pub fn read(&self, out: &mut [Fix], channels: u32, first: u64, delays: &[u64], interp: Interp)
        requires out { length out.old ≡ channels * self.now.block }
        requires delays { length delays.now ≡ self.now.block }
        requires first { first ≤ 2 ^ 62 }
        requires frames { (k : ℕ) → k < self.now.block → IsReached self.now (first + k) (delay_at delays.now k) }
        ensures { (writer : Writer) (c k : ℕ) → Keeps self.now writer → c < channels → k < self.now.block → heard_count self.now (first + k) (delay_at delays.now k) ≤ channels →
            sample self.now.block out.new c k ≡ delayed self.now.block writer interp channels (first + k) (delay_at delays.now k) c }
    {
        if let Some(delay) = steady_delay(delays) {
            self.read_steady(out, channels, first, delay, interp);
            return;
        }
        let request = Request {
            first,
            channels: channels as usize,
            interp,
        };
        let mut start = 0;
        while start < delays.len() {
            let span = self.span(first, delays, start);
            self.read_span(out, request, delays, span);
            start = span.end;
        }
    }

    /// The same with one delay for all frames, which is looked at once.
    pub fn read_steady(
        &self,
        out: &mut [Fix],
        channels: u32,
        first: u64,
        delay: u64,
        interp: Interp,
    )
        requires out { length out.old ≡ channels * self.now.block }
        requires first { first ≤ 2 ^ 62 }
        requires frames { (k : ℕ) → k < self.now.block → IsReached self.now (first + k) delay }
        ensures { (writer : Writer) (c k : ℕ) → Keeps self.now writer → c < channels → k < self.now.block → heard_count self.now (first + k) delay ≤ channels →
            sample self.now.block out.new c k ≡ delayed self.now.block writer interp channels (first + k) delay c }
    {
        let request = Request {
            first,
            channels: channels as usize,
            interp,
        };
        let mut start = 0;
        while start < self.block {
            let span = self.steady_span(first, delay, start);
            self.read_steady_span(out, request, delay, span);
            start = span.end;
        }
    }

    // How many frames were written.
    fn written(&self) -> u64
        ensures value { result ≡ lines.written self.now }
        ensures small { result ≤ 2 ^ 62 + 2 ^ 10 }
    {
        self.blocks * self.block as u64
    }

    // Frames from one on that all lie before birth, or that were all written with as many channels.
    fn span(&self, first: u64, delays: &[u64], start: usize) -> Span
        requires start { start < length delays.now }
        requires delays { length delays.now ≡ self.now.block }
        requires first { first ≤ 2 ^ 62 }
        requires frames { (k : ℕ) → k < self.now.block → IsReached self.now (first + k) (delay_at delays.now k) }
        ensures { IsSpan self.now first delays.now start result }
    {
        let block = self.block;
        let f = first + start as u64;
        if f < delays[start] {
            return Span {
                start,
                end: unborn_end(first, delays, start),
                count: 0,
            };
        }
        let written = self.written();
        let back = distance(written, f, delays[start]);
        let stretch = self.counts.stretch(back / block);
        let near = stretch.first * block;
        let far = stretch.end * block;
        Span {
            start,
            end: moving_end(written, first, delays, start, near, far),
            count: stretch.count,
        }
    }

    // The same with one delay. What a frame reads is followed by one frame less than what the frame before
    // it reads.
    fn steady_span(&self, first: u64, delay: u64, start: usize) -> Span
        requires start { start < self.now.block }
        requires first { first ≤ 2 ^ 62 }
        requires frames { (k : ℕ) → k < self.now.block → IsReached self.now (first + k) delay }
        ensures { IsSteadySpan self.now first delay start result }
    {
        let rest = self.block - start;
        let f = first + start as u64;
        if f < delay {
            let unborn = (delay - f).min(rest as u64) as usize;
            return Span {
                start,
                end: start + unborn,
                count: 0,
            };
        }
        let back = distance(self.written(), f, delay);
        let stretch = self.counts.stretch(back / self.block);
        let near = stretch.first * self.block;
        Span {
            start,
            end: start + (back + 1 - near).min(rest),
            count: stretch.count,
        }
    }

    // Reads the frames of a span, in all channels.
    fn read_span(&self, out: &mut [Fix], request: Request, delays: &[u64], span: Span)
        requires out { length out.old ≡ request.channels * self.now.block }
        requires delays { length delays.now ≡ self.now.block }
        requires first { request.first ≤ 2 ^ 62 }
        requires frames { (k : ℕ) → k < self.now.block → IsReached self.now (request.first + k) (delay_at delays.now k) }
        requires span { IsSpan self.now request.first delays.now span.start span }
        ensures read { (writer : Writer) (c k : ℕ) → Keeps self.now writer → c < request.channels → span.start ≤ k → k < span.end → heard_count self.now (request.first + k) (delay_at delays.now k) ≤ request.channels →
            sample self.now.block out.new c k ≡ delayed self.now.block writer request.interp request.channels (request.first + k) (delay_at delays.now k) c }
        ensures kept { (c k : ℕ) → c < request.channels → k < span.start → sample self.now.block out.new c k ≡ sample self.now.block out.old c k }
    {
        let first = request.first + span.start as u64;
        let count = (span.count as usize).min(request.channels);
        for c in 0..request.channels {
            let at = c * self.block;
            let source = source_of(request.interp, count, request.channels, c);
            let part = &mut out[at + span.start..at + span.end];
            self.read_channel(part, source, first, &delays[span.start..span.end]);
        }
    }

    // The same with one delay.
    fn read_steady_span(&self, out: &mut [Fix], request: Request, delay: u64, span: Span)
        requires out { length out.old ≡ request.channels * self.now.block }
        requires first { request.first ≤ 2 ^ 62 }
        requires frames { (k : ℕ) → k < self.now.block → IsReached self.now (request.first + k) delay }
        requires span { IsSteadySpan self.now request.first delay span.start span }
        ensures read { (writer : Writer) (c k : ℕ) → Keeps self.now writer → c < request.channels → span.start ≤ k → k < span.end → heard_count self.now (request.first + k) delay ≤ request.channels →
            sample self.now.block out.new c k ≡ delayed self.now.block writer request.interp request.channels (request.first + k) delay c }
        ensures kept { (c k : ℕ) → c < request.channels → k < span.start → sample self.now.block out.new c k ≡ sample self.now.block out.old c k }
    {
        let (block, interp) = (self.block, request.interp);
        let first = request.first + span.start as u64;
        let count = (span.count as usize).min(request.channels);
        for c in 0..request.channels {
            let at = c * block;
            let source = source_of(interp, count, request.channels, c);
            let part = &mut out[at + span.start..at + span.end];
            self.copy_channel(part, source, first, delay);
        }
    }

    // Reads frames of one channel, and silence where there is none.
    fn read_channel(&self, out: &mut [Fix], source: Option<usize>, first: u64, delays: &[u64])
        requires same { length delays.now ≡ length out.old }
        requires some { 1 ≤ length out.old }
        requires short { (first ≤ 2 ^ 63) × (length out.old ≤ 1024) }
        requires born { (i k : ℕ) → source ≡ Some i → k < length delays.now → delay_at delays.now k ≤ first + k }
        requires kept { (i k : ℕ) → source ≡ Some i → k < length delays.now → IsKept self.now (first + k - delay_at delays.now k) }
        ensures { (k : ℕ) → k < length out.old → at out.new k ≡ picked (frame_at self.now (first + k - delay_at delays.now k)) source }
    {
        match source {
            Some(c) if c < self.rings.len() => {
                gather(&self.rings[c], out, self.written(), first, delays);
            }
            _ => out.fill(0),
        }
    }

    // The same with one delay.
    fn copy_channel(&self, out: &mut [Fix], source: Option<usize>, first: u64, delay: u64)
        requires some { 1 ≤ length out.old }
        requires short { (first ≤ 2 ^ 63) × (length out.old ≤ 1024) }
        requires born { (i : ℕ) → source ≡ Some i → delay ≤ first }
        requires kept { (i k : ℕ) → source ≡ Some i → k < length out.old → IsKept self.now (first + k - delay) }
        ensures { (k : ℕ) → k < length out.old → at out.new k ≡ picked (frame_at self.now (first + k - delay)) source }
    {
        match source {
            Some(c) if c < self.rings.len() => {
                copy_run(&self.rings[c], out, distance(self.written(), first, delay));
            }
            _ => out.fill(0),
        }
    }
}
