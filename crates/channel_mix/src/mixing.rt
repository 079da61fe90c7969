ghost use Rattle.std.specs.Prelude.{◌≡◌, ◌<◌, ◌≤◌, ◌-◌, ◌+◌, ◌*◌, ◌^◌, ◌+ℤ◌, ℕ, ℤ, pos, length, All, if◌then◌else◌};
ghost use Rattle.lane_kern.specs.Blocks.{IsWithin};
ghost use Rattle.mix_rules.specs.Blocks.{sample, frame_at};
ghost use Rattle.channel_mix.specs.Adding.{Adds};
ghost use Rattle.mix_rules.specs.Mixing.{mix};
ghost use Rattle.channel_mix.specs.Outputs.{value_of, needed};

use crate::kernels::{
    add_all_speakers, add_channel, add_front_speakers, add_halves, add_quarters, add_side_speakers,
    channel_of,
};
use crate::outputs::Output;
use wa_base::Interp;

// The index of C in 5.1.
const CENTRE: usize = 2;

/// Adds a connection's samples to the sums of an input, mixed to the input's number of channels.
///
/// `acc` has `to` channels and `src` has `from`, both 1 to 32. They stand one after the other, and
/// each has equally many frames. Samples are in units of 2^-24. An output channel's value at a frame
/// is rounded once, and a half goes up. It is not saturated: the sum over all connections is, once.
///
/// A call moves a sum by at most 2^34, so sums have room for 8,191 connections from zero.
///
/// From the section on channel up-mixing and down-mixing.
#[inline]
pub fn mix_add(acc: &mut [i64], to: usize, src: &[i32], from: usize, interp: Interp)
    requires to { 1 ≤ to }
    requires lengths { (frames : ℕ) × (length acc.old ≡ to * frames) × (length src.now ≡ from * frames) }
    requires room { All (IsWithin (2 ^ 47 - 2 ^ 34)) acc.old }
    ensures sums { (frames c k : ℕ) → length acc.old ≡ to * frames → c < to → k < frames →
        sample frames acc.new c k ≡ sample frames acc.old c k +ℤ mix interp from to (frame_at frames src.now k) c }
    ensures room { (bound : ℕ) → All (IsWithin bound) acc.old → All (IsWithin (bound + 2 ^ 34)) acc.new }
{
    // Equal counts pass through.
    if from == to {
        add_channel(acc, src);
        return;
    }
    mix_each(acc, to, src, from, interp);
}

// The same one output channel after another. It stands apart from `mix_add`, which is then so small that
// it is compiled in the place of each call.
#[inline(never)]
fn mix_each(acc: &mut [i64], to: usize, src: &[i32], from: usize, interp: Interp)
    requires to { 1 ≤ to }
    requires lengths { (frames : ℕ) × (length acc.old ≡ to * frames) × (length src.now ≡ from * frames) }
    requires room { All (IsWithin (2 ^ 47 - 2 ^ 34)) acc.old }
    ensures sums { (frames c k : ℕ) → length acc.old ≡ to * frames → c < to → k < frames →
        sample frames acc.new c k ≡ sample frames acc.old c k +ℤ mix interp from to (frame_at frames src.now k) c }
    ensures room { (bound : ℕ) → All (IsWithin bound) acc.old → All (IsWithin (bound + 2 ^ 34)) acc.new }
{
    let frames = acc.len() / to;
    for channel in 0..to {
        let first = channel * frames;
        let output = Output::new(interp, from, to, channel);
        add_output(&mut acc[first..first + frames], output, src);
    }
}

// Whether an output channel, of so many, is what a mono input is. If not, it is silent.
//
// So a sum of mono connections may be mixed once, in place of each of them.
pub(crate) fn takes_mono(interp: Interp, to: usize, channel: usize) -> bool
    requires { channel < to }
    ensures { (frame : ℕ → ℤ) → mix interp 1 to frame channel ≡ (if result then frame 0 else pos 0) }
{
    match Output::new(interp, 1, to, channel) {
        Output::Channel(_) => true,
        _ => false,
    }
}

// Adds an output channel to its sums.
fn add_output(sums: &mut [i64], output: Output, src: &[i32])
    requires src { needed output * length sums.old ≤ length src.now }
    requires room { All (IsWithin (2 ^ 47)) sums.old }
    ensures { Adds (λ k. value_of output (frame_at (length sums.old) src.now k)) sums.old sums.new }
{
    let frames = sums.len();
    match output {
        Output::Silence => {}
        Output::Channel(i) => add_channel(sums, channel_of(src, frames, i)),
        Output::HalfOfTwo(i, j) => {
            add_halves(sums, channel_of(src, frames, i), channel_of(src, frames, j));
        }
        Output::QuarterOfFour => {
            let (l, r) = (channel_of(src, frames, 0), channel_of(src, frames, 1));
            let (sl, sr) = (channel_of(src, frames, 2), channel_of(src, frames, 3));
            add_quarters(sums, l, r, sl, sr);
        }
        Output::AllSpeakers => {
            let (l, r) = (channel_of(src, frames, 0), channel_of(src, frames, 1));
            let (sl, sr) = (channel_of(src, frames, 4), channel_of(src, frames, 5));
            add_all_speakers(sums, l, r, channel_of(src, frames, CENTRE), sl, sr);
        }
        Output::SideSpeakers(i, j) => {
            let (front, surround) = (channel_of(src, frames, i), channel_of(src, frames, j));
            add_side_speakers(sums, front, channel_of(src, frames, CENTRE), surround);
        }
        Output::FrontSpeakers(i) => {
            let centre = channel_of(src, frames, CENTRE);
            add_front_speakers(sums, channel_of(src, frames, i), centre);
        }
    }
}
