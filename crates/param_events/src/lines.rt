ghost use Rattle.std.specs.Prelude.{◌≡◌, ◌<◌, ◌≤◌, ◌^◌, pos, ◌-ℤ◌, ◌*ℤ◌, unsigned_abs};
ghost use Rattle.wa_base.specs.Numbers as numbers;
ghost use Rattle.param_events.specs.Lines.{IsPartOf};
ghost use Rattle.param_events.specs.Values as values;

use wa_base::{Fix, rnd_div};

/// How far a line goes up from one value to another; it is negative where the line goes down.
pub fn rise(from: Fix, to: Fix) -> i64
    ensures { result ≡ to -ℤ from }
{
    to as i64 - from as i64
}

/// A rise that is taken so many times.
pub fn times(rise: i64, n: u64) -> i128
    requires { unsigned_abs rise ≤ 2 ^ 33 }
    ensures value { result ≡ rise *ℤ pos n }
    ensures bound { unsigned_abs result ≤ 2 ^ 100 }
{
    rise as i128 * n as i128
}

// The part of a rise that is done after n of so many frames, rounded.
pub(crate) fn share(rise: i64, n: u64, frames: u64) -> i64
    requires small { unsigned_abs rise ≤ 2 ^ 33 }
    requires within { n ≤ frames }
    requires lasts { 0 < frames }
    ensures value { result ≡ numbers.rnd (rise *ℤ pos n) (pos frames) }
    ensures part { IsPartOf rise result }
{
    rnd_div(times(rise, n), frames as i128) as i64
}

/// The value after n of so many frames of a line from one value to another, rounded once; a half is
/// rounded up.
pub fn along(from: Fix, to: Fix, n: u64, frames: u64) -> Fix
    requires within { n ≤ frames }
    requires lasts { 0 < frames }
    ensures { result ≡ values.along from to n frames }
{
    (from as i64 + share(rise(from, to), n, frames)) as i32
}
