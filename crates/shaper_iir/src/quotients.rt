ghost use Rattle.std.specs.Prelude.{◌≡◌, ◌≤◌, ◌≤ℤ◌, ◌^◌, pos, false, unsigned_abs};
ghost use Rattle.wa_base.specs.Numbers.{rnd, sat as saturated};
ghost use Rattle.node_table.specs.Filters as filters;
ghost use Rattle.node_table.specs.Filters.{is_zero};

use wa_base::{Fix, rnd_div};

// A sum over the first feedback coefficient, rounded once and saturated.
pub(crate) fn quotient(sum: i128, divisor: Fix) -> Fix
    requires sum { unsigned_abs sum ≤ 2 ^ 68 }
    requires divisor { is_zero divisor ≡ false }
    ensures { result ≡ filters.quotient sum divisor }
{
    if divisor < 0 {
        quotient_up(-sum, -i128::from(divisor))
    } else {
        quotient_up(sum, i128::from(divisor))
    }
}

// The same over a number above 0.
fn quotient_up(sum: i128, divisor: i128) -> Fix
    requires sum { unsigned_abs sum ≤ 2 ^ 68 }
    requires divisor_low { pos 1 ≤ℤ divisor }
    requires divisor_high { divisor ≤ℤ pos (2 ^ 31) }
    ensures { result ≡ saturated (rnd sum divisor) }
{
    nearest(rnd_div(sum, divisor))
}

// The nearest Fix.
fn nearest(x: i128) -> Fix
    ensures { result ≡ saturated x }
{
    x.clamp(i128::from(i32::MIN), i128::from(i32::MAX)) as i32
}
