ghost use Rattle.std.specs.Prelude.{◌≡◌, ◌<◌, ◌≤◌, ◌+◌, ◌*◌, ◌++◌, [], ℕ, ℤ, List, None, length, replicate, max, slice_index_or, IfOk, OnOk, OnErr};
ghost use Rattle.node_table.specs.Frames.{item, heard};
ghost use Rattle.node_table.specs.Convolutions.{convolution, response_refusal};
ghost use Rattle.convolve.specs.Responses.{IsResponse};
ghost use Rattle.convolve.specs.Convolver.{ConvolverStands, kept_of};
ghost use Rattle.convolve.specs.Lines.{Recalls, HasHeard, AreLong, silence};

use crate::lines::Line;
use node_table::Causal;
use std::alloc::Global;
use std::marker::Model;
use wa_base::{Fix, NoMemory, Samples};

/// The state of a convolver (ConvolverNode): its response, and what it remembers of each channel. Each
/// channel is convolved by itself. After `grow` neither `step` nor `block` takes memory.
#[derive(Drop)]
pub struct Convolver {
    alloc: Global,
    response: Samples,
    lines: Vec<Line>,
}

impl Model for Convolver {
    ghost use Rattle.convolve.specs.Convolver.{ConvolverView};

    ghost Value = { ConvolverView };

    ghost use Rattle.convolve.specs.ConvolverInside.{view_of, IsSound};

    ghost view = { view_of };

    ghost invariant = { IsSound };
}

impl Convolver {
    /// A convolver at its birth, which has heard nothing and has no room for a channel (createConvolver):
    /// the samples of its response, in units of 2^-24. `response_refusal` says which ones it can have.
    /// With none it is silent.
    pub fn new(alloc: Global, response: &[Fix]) -> Result<Convolver, NoMemory>
        requires { response_refusal response.now ≡ None }
        ensures value { IfOk result (λ convolver. convolver ≡ record { response = response.now; channels = [] }) }
        ensures born { IfOk result (λ convolver. (c : ℕ) → ConvolverStands convolver c []) }
    {
        Ok(Convolver {
            alloc,
            response: Samples::from(Vec::from_slice(alloc, response)?),
            lines: Vec::new(alloc),
        })
    }

    /// The number of channels that there is room for.
    pub fn channels(&self) -> usize
        ensures { result ≡ length self.now.channels }
    {
        self.lines.len()
    }
}

impl Causal for Convolver {
    ghost use Rattle.std.specs.Prelude.{length};
    ghost use Rattle.node_table.specs.Convolutions.{convolution};

    ghost stands = { ConvolverStands };

    ghost value = { λ convolver frames. convolution convolver.response frames };

    ghost room = { λ convolver. length convolver.channels };

    fn grow(&mut self, channels: u32) -> Result<(), NoMemory>
        ensures stands { (c : ℕ) (xs : List ℤ) → ConvolverStands self.old c xs → ConvolverStands self.new c xs }
        ensures value { convolution self.new.response ≡ convolution self.old.response }
        ensures ok { OnOk result (length self.new.channels ≡ max (length self.old.channels) channels) }
        ensures err { OnErr result (length self.new.channels ≡ length self.old.channels) }
        ensures response { self.new.response ≡ self.old.response }
        ensures kept { (c : ℕ) → kept_of self.new c ≡ kept_of self.old c }
    {
        let kept = self.response.len();
        grow_lines(self.alloc, &mut self.lines, channels as usize, kept)
    }

    fn step(&mut self, x: &[Fix], y: &mut [Fix]) {
        hear_all(self.response.as_slice(), &mut self.lines, x, y, 1);
    }

    fn block(&mut self, x: &[Fix], y: &mut [Fix], frames: usize) {
        hear_all(self.response.as_slice(), &mut self.lines, x, y, frames);
    }
}

// Adds silent channels until there are so many.
fn grow_lines(
    alloc: Global,
    lines: &mut Vec<Line>,
    count: usize,
    kept: usize,
) -> Result<(), NoMemory>
    requires { kept ≤ 16384 }
    ensures grown { (more : ℕ) × (lines.new.items ≡ lines.old.items ++ replicate more (silence kept)) }
    ensures ok { OnOk result (length lines.new.items ≡ max (length lines.old.items) count) }
    ensures err { OnErr result (lines.new.items ≡ lines.old.items) }
{
    let old = lines.len();
    let grown = add_lines(alloc, lines, count, kept);
    if grown.is_err() {
        lines.truncate(old);
    }
    grown
}

fn add_lines(
    alloc: Global,
    lines: &mut Vec<Line>,
    count: usize,
    kept: usize,
) -> Result<(), NoMemory>
    requires { kept ≤ 16384 }
    ensures grown { (more : ℕ) × (lines.new.items ≡ lines.old.items ++ replicate more (silence kept)) }
    ensures ok { OnOk result (length lines.new.items ≡ max (length lines.old.items) count) }
{
    for _ in lines.len()..count {
        lines.push(Line::new(alloc, kept)?)?;
    }
    Ok(())
}

// Hears a block of each channel.
fn hear_all(response: &[Fix], lines: &mut [Line], x: &[Fix], y: &mut [Fix], frames: usize)
    requires response { IsResponse response.now }
    requires lines { AreLong lines.old (length response.now) }
    requires x { length x.now ≡ length lines.old * frames }
    requires y { length y.old ≡ length lines.old * frames }
    ensures heard { (c : ℕ) (other : List ℤ) → c < length lines.old → HasHeard (slice_index_or lines.old c other) (slice_index_or lines.new c other) x.now (c * frames) frames }
    ensures outputs { (c k : ℕ) (other xs : List ℤ) → c < length lines.old → k < frames → Recalls (slice_index_or lines.old c other) xs → item y.new (c * frames + k) ≡ convolution response.now (heard x.now (c * frames) (k + 1) xs) }
{
    for c in 0..lines.len() {
        let start = c * frames;
        hear_channel(
            response,
            &mut lines[c],
            &x[start..start + frames],
            &mut y[start..start + frames],
        );
    }
}

// Hears a block of a channel.
fn hear_channel(response: &[Fix], line: &mut Line, x: &[Fix], y: &mut [Fix])
    requires response { IsResponse response.now }
    requires line { length line.old ≡ length response.now }
    requires y { length y.old ≡ length x.now }
    ensures heard { HasHeard line.old line.new x.now 0 (length x.now) }
    ensures outputs { (k : ℕ) (xs : List ℤ) → k < length x.now → Recalls line.old xs → item y.new k ≡ convolution response.now (heard x.now 0 (k + 1) xs) }
{
    for (k, out) in y.iter_mut().enumerate() {
        *out = line.hear(response, x[k]);
    }
}
