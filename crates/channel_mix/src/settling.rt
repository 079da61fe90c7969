ghost use Rattle.std.specs.Prelude.{◌≡◌, ◌<◌, ◌^◌, ◌+ℤ◌, ℕ, pos, length, slice_index_or, true, false, All};
ghost use Rattle.wa_base.specs.Numbers.{sat as saturated};
ghost use Rattle.lane_kern.specs.Blocks.{IsWithin};

use wa_base::{Fix, sat};

/// Adds two samples at each place, saturated: what two connections of equal counts bring needs no sums.
pub fn sum_into(out: &mut [Fix], first: &[Fix], second: &[Fix])
    requires first { length first.now ≡ length out.old }
    requires second { length second.now ≡ length out.old }
    ensures length { length out.new ≡ length out.old }
    ensures values { (k : ℕ) → k < length out.old → slice_index_or out.new k (pos 0) ≡ saturated (slice_index_or first.now k (pos 0) +ℤ slice_index_or second.now k (pos 0)) }
{
    for (k, value) in out.iter_mut().enumerate() {
        *value = pair_of(first[k], second[k]);
    }
}

/// The sum of two samples, saturated.
pub fn pair_of(x: Fix, y: Fix) -> Fix
    ensures { result ≡ saturated (x +ℤ y) }
{
    sat(i64::from(x) + i64::from(y))
}

// Makes room for moving sums: they stay, or are zeros where none moves yet.
pub(crate) fn clear_unless(sums: &mut [i64], moves: bool)
    ensures length { length sums.new ≡ length sums.old }
    ensures stay { moves ≡ true → sums.new ≡ sums.old }
    ensures clear { moves ≡ false → (k : ℕ) → k < length sums.old → slice_index_or sums.new k (pos 0) ≡ pos 0 }
{
    if !moves {
        sums.fill(0);
    }
}

// Adds to each level its sum on one that is the same at all frames, saturated before and after.
pub(crate) fn each_level(levels: &mut [Fix], held: i64, sums: &[i64])
    requires length { length sums.now ≡ length levels.old }
    requires held { IsWithin (2 ^ 47) held }
    requires small { All (IsWithin (2 ^ 47)) sums.now }
    ensures length { length levels.new ≡ length levels.old }
    ensures levels { (m : ℕ) → m < length levels.old → slice_index_or levels.new m (pos 0) ≡ saturated (slice_index_or levels.old m (pos 0) +ℤ saturated (held +ℤ slice_index_or sums.now m (pos 0))) }
{
    for (m, level) in levels.iter_mut().enumerate() {
        *level = level_of(*level, sum_of(held, sums[m]));
    }
}

// Adds one sum to each level, saturated before and after.
pub(crate) fn each_level_on(levels: &mut [Fix], sum: i64)
    ensures length { length levels.new ≡ length levels.old }
    ensures levels { (m : ℕ) → m < length levels.old → slice_index_or levels.new m (pos 0) ≡ saturated (slice_index_or levels.old m (pos 0) +ℤ saturated sum) }
{
    for level in levels {
        *level = level_of(*level, sum);
    }
}

// Sums on one that is the same at all frames, saturated.
pub(crate) fn settle(values: &mut [Fix], held: i64, sums: &[i64])
    requires length { length sums.now ≡ length values.old }
    requires held { IsWithin (2 ^ 47) held }
    requires small { All (IsWithin (2 ^ 47)) sums.now }
    ensures length { length values.new ≡ length values.old }
    ensures values { (m : ℕ) → m < length values.old → slice_index_or values.new m (pos 0) ≡ saturated (held +ℤ slice_index_or sums.now m (pos 0)) }
{
    for (m, value) in values.iter_mut().enumerate() {
        *value = sat(sum_of(held, sums[m]));
    }
}

fn sum_of(a: i64, b: i64) -> i64
    requires a { IsWithin (2 ^ 47) a }
    requires b { IsWithin (2 ^ 47) b }
    ensures { result ≡ a +ℤ b }
{
    a + b
}

/// A level with its sum, saturated before and after.
pub fn level_of(value: Fix, sum: i64) -> Fix
    ensures { result ≡ saturated (value +ℤ saturated sum) }
{
    sat(i64::from(value) + i64::from(sat(sum)))
}
