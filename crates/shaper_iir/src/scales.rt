ghost use Rattle.std.specs.Prelude.{◌≡◌, ◌↔◌, ◌≤◌, ◌^◌, ℕ, ◌+ℤ◌, ◌*ℤ◌, pos, true, length, Some, IsTrue, unsigned_abs};
ghost use Rattle.wa_base.specs.Numbers.{rnd, sat as saturated};
ghost use Rattle.node_table.specs.Filters.{IsFilter};
ghost use Rattle.shaper_iir.specs.Scales.{weight, greatest, upright, IsDivisor, IsScale};

use wa_base::{Fix, sat};

// How far from 0 a sum may be so that twice the sum and half of any divisor more fit 64 bits.
const MOST: u64 = 1 << 61;

// What the sums of a filter can be in 64 bits, and what they are divided by.
#[derive(Clone, Copy)]
pub(crate) struct Scale {
    // How far from 0 inputs and outputs may be for sums in 64 bits.
    pub(crate) reach: u64,
    // The absolute value of the first feedback coefficient, and whether that is negative.
    pub(crate) divisor: u32,
    pub(crate) is_negative: bool,
    // The binary logarithm of the divisor, where it is a whole number.
    pub(crate) bits: Option<u32>,
}

impl Scale {
    // The scale of a filter.
    pub(crate) fn of(forward: &[Fix], back: &[Fix]) -> Scale
        requires { IsFilter forward.now back.now }
        ensures { IsScale result forward.now back.now }
    {
        let total = weight_of(forward) + weight_of(&back[1..]);
        let divisor = back[0].unsigned_abs();
        Scale {
            reach: MOST / total.max(1),
            divisor,
            is_negative: back[0] < 0,
            bits: binary_logarithm(divisor),
        }
    }

    // A sum over the first feedback coefficient, rounded once and saturated.
    pub(crate) fn quotient(&self, sum: i64) -> Fix
        requires divisor { IsDivisor self.now }
        requires sum { unsigned_abs sum ≤ 2 ^ 61 }
        ensures { result ≡ saturated (rnd (upright self.now sum) (pos self.now.divisor)) }
    {
        sat(self.rounded(self.turned(sum)))
    }

    // The sum with the sign of the divisor taken over.
    fn turned(&self, sum: i64) -> i64
        requires { unsigned_abs sum ≤ 2 ^ 61 }
        ensures value { result ≡ upright self.now sum }
        ensures small { unsigned_abs result ≤ 2 ^ 61 }
    {
        if self.is_negative { -sum } else { sum }
    }

    // A sum over the absolute value of the divisor, rounded. A division by a power of two is a shift.
    fn rounded(&self, sum: i64) -> i64
        requires divisor { IsDivisor self.now }
        requires sum { unsigned_abs sum ≤ 2 ^ 61 }
        ensures { result ≡ rnd sum (pos self.now.divisor) }
    {
        let numerator = doubled(sum, self.divisor);
        match self.bits {
            Some(bits) => numerator >> (bits + 1),
            None => numerator.div_euclid(2 * i64::from(self.divisor)),
        }
    }
}

// Twice a sum, and the divisor more.
fn doubled(sum: i64, divisor: u32) -> i64
    requires sum { unsigned_abs sum ≤ 2 ^ 61 }
    ensures { result ≡ pos 2 *ℤ sum +ℤ pos divisor }
{
    2 * sum + i64::from(divisor)
}

// The binary logarithm of a number, where it is a whole one.
fn binary_logarithm(number: u32) -> Option<u32>
    ensures { (bits : ℕ) → result ≡ Some bits → (bits ≤ 31) × (number ≡ 2 ^ bits) }
{
    let bits = number.trailing_zeros();
    if bits < 32 && 1 << bits == number {
        Some(bits)
    } else {
        None
    }
}

// The sum of the absolute values.
fn weight_of(coefficients: &[Fix]) -> u64
    requires { length coefficients.now ≤ 20 }
    ensures value { result ≡ weight coefficients.now }
    ensures small { result ≤ 2 ^ 36 }
{
    let mut sum = 0;
    for coefficient in coefficients {
        sum += u64::from(coefficient.unsigned_abs());
    }
    sum
}

// Whether a sample is so near to 0, as all before it are.
pub(crate) fn is_also_within(are_within: bool, sample: Fix, reach: u64) -> bool
    ensures { result ≡ true → (are_within ≡ true) × (unsigned_abs sample ≤ reach) }
{
    are_within && is_within(sample, reach)
}

fn is_within(sample: Fix, reach: u64) -> bool
    ensures { IsTrue result ↔ (unsigned_abs sample ≤ reach) }
{
    u64::from(sample.unsigned_abs()) <= reach
}

// Whether each sample is so near to 0.
pub(crate) fn are_within(samples: &[Fix], reach: u64) -> bool
    ensures { result ≡ true → greatest samples.now ≤ reach }
{
    for sample in samples {
        if !is_within(*sample, reach) {
            return false;
        }
    }
    true
}
