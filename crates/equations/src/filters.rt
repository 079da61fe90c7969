ghost use Rattle.std.specs.Prelude.{◌≡◌, ◌≤◌, ◌≤ℤ◌, ◌+◌, ◌^◌, ◌+ℤ◌, ◌-ℤ◌, ◌*ℤ◌, pos, false, length, unsigned_abs};
ghost use Rattle.wa_base.specs.Numbers.{rnd, sat as saturated};
ghost use Rattle.node_table.specs.Convolutions.{convolution};
ghost use Rattle.node_table.specs.Filters as filters;
ghost use Rattle.node_table.specs.Filters.{IsFilter, is_zero};

use crate::mixing::nearest;
use wa_base::{Fix, ONE, rnd_div};

// The output of a filter, from the inputs and the earlier outputs, the newest first.
pub(crate) fn filter_output(forward: &[Fix], back: &[Fix], inputs: &[i64], outputs: &[i64]) -> Fix
    requires { IsFilter forward.now back.now }
    ensures { result ≡ filters.next_output forward.now back.now inputs.now outputs.now }
{
    let ahead = dot(forward, inputs);
    let fed_back = dot(&back[1..], outputs);
    quotient(difference(ahead, fed_back), back[0])
}

// The output of a convolver, from the inputs, the newest first.
pub(crate) fn convolver_output(response: &[Fix], inputs: &[i64]) -> Fix
    requires { length response.now ≤ 16384 }
    ensures { result ≡ convolution response.now inputs.now }
{
    nearest(rnd_div(dot(response, inputs), i128::from(ONE)))
}

// The exact sum of coefficients times items. An item that is not there is 0.
fn dot(coefficients: &[Fix], items: &[i64]) -> i128
    requires { length coefficients.now ≤ 16384 }
    ensures value { result ≡ filters.dot coefficients.now items.now }
    ensures small { unsigned_abs result ≤ 2 ^ 112 }
{
    let mut sum: i128 = 0;
    for i in 0..coefficients.len().min(items.len()) {
        sum = with_product(sum, i64::from(coefficients[i]), items[i]);
    }
    sum
}

// The exact sum with one product more.
pub(crate) fn with_product(sum: i128, coefficient: i64, item: i64) -> i128
    requires sum { unsigned_abs sum ≤ 2 ^ 112 }
    requires coefficient { unsigned_abs coefficient ≤ 2 ^ 34 }
    ensures value { result ≡ sum +ℤ coefficient *ℤ item }
    ensures small { unsigned_abs result ≤ unsigned_abs sum + 2 ^ 97 }
{
    sum + i128::from(coefficient) * i128::from(item)
}

fn difference(a: i128, b: i128) -> i128
    requires a { unsigned_abs a ≤ 2 ^ 112 }
    requires b { unsigned_abs b ≤ 2 ^ 112 }
    ensures value { result ≡ a -ℤ b }
    ensures small { unsigned_abs result ≤ 2 ^ 114 }
{
    a - b
}

// A sum over the first feedback coefficient, rounded once and saturated.
fn quotient(sum: i128, divisor: Fix) -> Fix
    requires sum { unsigned_abs sum ≤ 2 ^ 114 }
    requires divisor { is_zero divisor ≡ false }
    ensures { result ≡ filters.quotient sum divisor }
{
    if divisor < 0 {
        quotient_up(-sum, -i128::from(divisor))
    } else {
        quotient_up(sum, i128::from(divisor))
    }
}

// The same over a number above 0.
fn quotient_up(sum: i128, divisor: i128) -> Fix
    requires sum { unsigned_abs sum ≤ 2 ^ 114 }
    requires low { pos 1 ≤ℤ divisor }
    requires high { divisor ≤ℤ pos (2 ^ 31) }
    ensures { result ≡ saturated (rnd sum divisor) }
{
    nearest(rnd_div(sum, divisor))
}
