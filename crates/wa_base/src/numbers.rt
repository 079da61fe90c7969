ghost use Rattle.std.specs.Prelude.{◌≡◌, ◌≤ℤ◌, ◌^◌, pos, neg_ℤ};
ghost use Rattle.wa_base.specs.Numbers as numbers;

/// A sample or a parameter value: the whole number v stands for v / 2^24.
pub type Fix = i32;

/// The Fix that stands for 1.0.
pub const ONE: Fix = 16_777_216;

const FRACTION_BITS: u32 = 24;

const HALF: i64 = 8_388_608;

/// The whole number nearest to `num / den`; a half is rounded towards plus infinity.
pub fn rnd_div(num: i128, den: i128) -> i128
    requires den_low { pos 1 ≤ℤ den }
    requires den_high { den ≤ℤ pos (2 ^ 100) }
    requires num_low { neg_ℤ (pos (2 ^ 120)) ≤ℤ num }
    requires num_high { num ≤ℤ pos (2 ^ 120) }
    ensures { result ≡ numbers.rnd num den }
{
    (2 * num + den).div_euclid(2 * den)
}

/// The Fix nearest to `x`.
pub fn sat(x: i64) -> Fix
    ensures { result ≡ numbers.sat x }
{
    x.clamp(i64::from(i32::MIN), i64::from(i32::MAX)) as i32
}

/// The product of two values, rounded once and saturated.
pub fn scale(x: Fix, g: Fix) -> Fix
    ensures { result ≡ numbers.scale x g }
{
    let product = i64::from(x) * i64::from(g);
    sat((product + HALF) >> FRACTION_BITS)
}
