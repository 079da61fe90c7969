ghost use Rattle.std.specs.Prelude.{◌≡◌, ◌≤◌, ◌+◌, ◌^◌, ◌+ℤ◌, ◌*ℤ◌, length, unsigned_abs, All};
ghost use Rattle.wa_base.specs.Numbers.{sat as saturated};
ghost use Rattle.node_table.specs.Filters as filters;
ghost use Rattle.lane_kern.specs.Blocks.{IsWithin};
ghost use Rattle.node_table.specs.Convolutions.{convolution};
ghost use Rattle.convolve.specs.Responses.{IsResponse};

use wa_base::{Fix, ONE, rnd_div};

// How many products are added up in 64 bits: with samples of 32 bits and a response of 26 no such sum
// leaves them.
const GROUP: usize = 64;

// The output where these are the newest frames, the newest of all first, as many as the response has.
pub(crate) fn output(response: &[Fix], frames: &[Fix]) -> Fix
    requires response { IsResponse response.now }
    requires frames { length frames.now ≡ length response.now }
    ensures { result ≡ convolution response.now frames.now }
{
    nearest(rnd_div(dot(response, frames), i128::from(ONE)))
}

// The exact sum of the products, of which each group is added up in 64 bits.
fn dot(response: &[Fix], frames: &[Fix]) -> i128
    requires response { IsResponse response.now }
    requires frames { length frames.now ≡ length response.now }
    ensures value { result ≡ filters.dot response.now frames.now }
    ensures small { unsigned_abs result ≤ 2 ^ 70 }
{
    let mut sum: i128 = 0;
    for group in 0..response.len().div_ceil(GROUP) {
        let start = group * GROUP;
        let end = (start + GROUP).min(response.len());
        sum = with_group(sum, group_dot(&response[start..end], &frames[start..end]));
    }
    sum
}

fn with_group(sum: i128, group: i64) -> i128
    requires sum { unsigned_abs sum ≤ 2 ^ 70 }
    ensures value { result ≡ sum +ℤ group }
{
    sum + i128::from(group)
}

// The exact sum of the products of a group.
fn group_dot(taps: &[Fix], frames: &[Fix]) -> i64
    requires few { length taps.now ≤ 64 }
    requires taps { All (IsWithin (2 ^ 25)) taps.now }
    requires frames { length frames.now ≡ length taps.now }
    ensures value { result ≡ filters.dot taps.now frames.now }
    ensures small { unsigned_abs result ≤ 2 ^ 62 }
{
    let mut sum = 0;
    for (m, tap) in taps.iter().enumerate() {
        sum = with_product(sum, *tap, frames[m]);
    }
    sum
}

fn with_product(sum: i64, tap: Fix, frame: Fix) -> i64
    requires sum { unsigned_abs sum ≤ 2 ^ 62 }
    requires tap { IsWithin (2 ^ 25) tap }
    ensures value { result ≡ sum +ℤ tap *ℤ frame }
    ensures small { unsigned_abs result ≤ unsigned_abs sum + 2 ^ 56 }
{
    sum + i64::from(tap) * i64::from(frame)
}

// The nearest Fix.
fn nearest(x: i128) -> Fix
    ensures { result ≡ saturated x }
{
    x.clamp(i128::from(i32::MIN), i128::from(i32::MAX)) as i32
}
