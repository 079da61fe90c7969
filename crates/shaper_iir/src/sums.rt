ghost use Rattle.std.specs.Prelude.{◌≡◌, ◌≤◌, ◌+◌, ◌*◌, ◌^◌, ◌+ℤ◌, ◌-ℤ◌, ◌*ℤ◌, length, unsigned_abs};
ghost use Rattle.node_table.specs.Filters as filters;
ghost use Rattle.shaper_iir.specs.Scales.{weight, greatest};

use crate::histories::KEPT;
use wa_base::Fix;

// The exact sum of coefficients times items.
pub(crate) fn dot(coefficients: &[Fix], items: &[Fix; KEPT]) -> i128
    requires { length coefficients.now ≤ 20 }
    ensures value { result ≡ filters.dot coefficients.now items.now }
    ensures small { unsigned_abs result ≤ 2 ^ 67 }
{
    let mut sum: i128 = 0;
    for (i, coefficient) in coefficients.iter().enumerate() {
        sum = with_product(sum, *coefficient, items[i]);
    }
    sum
}

fn with_product(sum: i128, coefficient: Fix, item: Fix) -> i128
    requires { unsigned_abs sum ≤ 2 ^ 67 }
    ensures value { result ≡ sum +ℤ coefficient *ℤ item }
    ensures small { unsigned_abs result ≤ unsigned_abs sum + 2 ^ 62 }
{
    sum + i128::from(coefficient) * i128::from(item)
}

pub(crate) fn difference(a: i128, b: i128) -> i128
    requires a { unsigned_abs a ≤ 2 ^ 67 }
    requires b { unsigned_abs b ≤ 2 ^ 67 }
    ensures value { result ≡ a -ℤ b }
    ensures small { unsigned_abs result ≤ 2 ^ 68 }
{
    a - b
}

// The same in 64 bits, where no sum on the way can leave them.
pub(crate) fn small_dot(coefficients: &[Fix], items: &[Fix; KEPT]) -> i64
    requires length { length coefficients.now ≤ 20 }
    requires small { weight coefficients.now * greatest items.now ≤ 2 ^ 61 }
    ensures { result ≡ filters.dot coefficients.now items.now }
{
    if coefficients.is_empty() {
        return 0;
    }
    // The newest item stands alone: it was written a moment ago, and apart from the others.
    let mut sum = with_small_product(0, coefficients[0], items[0]);
    for i in 1..coefficients.len() {
        sum = with_small_product(sum, coefficients[i], items[i]);
    }
    sum
}

fn with_small_product(sum: i64, coefficient: Fix, item: Fix) -> i64
    requires { unsigned_abs sum ≤ 2 ^ 61 }
    ensures { result ≡ sum +ℤ coefficient *ℤ item }
{
    sum + i64::from(coefficient) * i64::from(item)
}

pub(crate) fn small_difference(a: i64, b: i64) -> i64
    requires { unsigned_abs a + unsigned_abs b ≤ 2 ^ 61 }
    ensures value { result ≡ a -ℤ b }
    ensures small { unsigned_abs result ≤ 2 ^ 61 }
{
    a - b
}
