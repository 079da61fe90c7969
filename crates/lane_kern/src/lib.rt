//! The kernels of blocks: one plain loop over slices of equal length each.
#![tactic(auto)]

ghost use Rattle.std.specs.Prelude.{◌≡◌, ◌<◌, ◌≤◌, ◌^◌, ◌+ℤ◌, ◌*ℤ◌, ℕ, length, All};
ghost use Rattle.wa_base.specs.Numbers.{sat as saturated, scale as scaled};
ghost use Rattle.lane_kern.specs.Blocks.{at, IsWithin};

use wa_base::{Fix, sat, scale};

/// Adds each sample to the sum at its place. Sums are exact, in units of 2^-24.
pub fn add_into(acc: &mut [i64], src: &[Fix])
    requires same { length src.now ≡ length acc.old }
    requires room { All (IsWithin (2 ^ 62)) acc.old }
    ensures length { length acc.new ≡ length acc.old }
    ensures sums { (k : ℕ) → k < length acc.old → at acc.new k ≡ at acc.old k +ℤ at src.now k }
    ensures samples { (k : ℕ) → k < length acc.old → IsWithin (2 ^ 31) (at src.now k) }
{
    for (k, sum) in acc.iter_mut().enumerate() {
        *sum += i64::from(src[k]);
    }
}

/// Multiplies each sample by the gain at its place, rounded once and saturated.
pub fn gain_into(out: &mut [Fix], src: &[Fix], gain: &[Fix])
    requires src { length src.now ≡ length out.old }
    requires gain { length gain.now ≡ length out.old }
    ensures length { length out.new ≡ length out.old }
    ensures values { (k : ℕ) → k < length out.old → at out.new k ≡ scaled (at src.now k) (at gain.now k) }
{
    for (k, value) in out.iter_mut().enumerate() {
        *value = scale(src[k], gain[k]);
    }
}

/// Saturates each sum.
pub fn sat_into(out: &mut [Fix], acc: &[i64])
    requires { length acc.now ≡ length out.old }
    ensures length { length out.new ≡ length out.old }
    ensures values { (k : ℕ) → k < length out.old → at out.new k ≡ saturated (at acc.now k) }
{
    for (k, value) in out.iter_mut().enumerate() {
        *value = sat(acc[k]);
    }
}

/// Adds to each sum the sample at its place times the factor. The products are not rounded.
pub fn scaled_add(acc: &mut [i64], src: &[Fix], factor: i64)
    requires same { length src.now ≡ length acc.old }
    requires factor { IsWithin (2 ^ 25) factor }
    requires room { All (IsWithin (2 ^ 62)) acc.old }
    ensures length { length acc.new ≡ length acc.old }
    ensures sums { (k : ℕ) → k < length acc.old → at acc.new k ≡ at acc.old k +ℤ at src.now k *ℤ factor }
{
    for (k, sum) in acc.iter_mut().enumerate() {
        *sum += product_of(src[k], factor);
    }
}

// The exact product.
fn product_of(sample: Fix, factor: i64) -> i64
    requires { IsWithin (2 ^ 25) factor }
    ensures value { result ≡ sample *ℤ factor }
    ensures small { IsWithin (2 ^ 56) result }
{
    i64::from(sample) * factor
}
