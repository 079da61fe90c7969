ghost use Rattle.std.specs.Prelude.{◌≡◌, ◌<◌, ◌≤◌, ◌^◌};
ghost use Rattle.wa_base.specs.Numbers.{sat as saturated};
ghost use Rattle.lane_kern.specs.Blocks.{at, IsWithin};
ghost use Rattle.mix_rules.specs.Mixing.{mix as mixed};
ghost use Rattle.equations.specs.Weights.{one_on};

use crate::filters::with_product;
use channel_mix::mix_add;
use wa_base::{Fix, Interp, ONE, rnd_div};

pub(crate) const MAX_CHANNELS: usize = 32;

// What an output carries at a frame: how many channels it has, and a sample for each.
#[derive(Clone, Copy)]
pub(crate) struct Carried {
    pub(crate) count: u32,
    pub(crate) samples: [i64; MAX_CHANNELS],
}

// A channel of what an output carries, mixed to so many channels. It is not saturated.
//
// `mix_add` mixes samples of 32 bits, and those of facts have 64: so each is taken by its weight.
pub(crate) fn mix(carried: &Carried, interp: Interp, to: u32, channel: u32) -> i128
    requires few { carried.now.count ≤ 32 }
    requires to { to ≤ 32 }
    requires channel { channel < to }
    ensures value { result ≡ mixed interp carried.now.count to (at carried.now.samples) channel }
    ensures small { IsWithin (2 ^ 100) result }
{
    let from = carried.count as usize;
    let mut sum: i128 = 0;
    for input in 0..from {
        let weight = weight(interp, from, to as usize, channel as usize, input);
        sum = with_product(sum, weight, carried.samples[input]);
    }
    rnd_div(sum, i128::from(ONE))
}

// How much of an input channel a channel of the mix has, in units of 2^-24: what it is where that input
// channel is one and the others are silent.
fn weight(interp: Interp, from: usize, to: usize, channel: usize, input: usize) -> i64
    requires from { from ≤ 32 }
    requires to { to ≤ 32 }
    requires channel { channel < to }
    requires input { input < from }
    ensures value { result ≡ mixed interp from to (one_on input) channel }
    ensures small { IsWithin (2 ^ 34) result }
{
    let mut frame = [0; MAX_CHANNELS];
    frame[input] = ONE;
    let mut sums = [0; MAX_CHANNELS];
    mix_add(&mut sums[..to], to, &frame[..from], from, interp);
    sums[channel]
}

// The nearest Fix.
pub(crate) fn nearest(x: i128) -> Fix
    ensures { result ≡ saturated x }
{
    x.clamp(i128::from(i32::MIN), i128::from(i32::MAX)) as i32
}
