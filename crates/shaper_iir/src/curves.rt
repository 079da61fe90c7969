ghost use Rattle.std.specs.Prelude.{◌≡◌, ◌<◌, ◌≤◌, ◌-◌, ◌*◌, ◌^◌, ◌-ℤ◌, ◌*ℤ◌, pos, length, unsigned_abs};
ghost use Rattle.wa_base.specs.Numbers.{rnd};
ghost use Rattle.node_table.specs.Curves as curves;

use wa_base::{Fix, ONE};

/// How many parts the way from a point of a curve to the next one has, and how far it is from -1.0 to
/// 1.0.
const PARTS: u32 = 33_554_432;

const PART_BITS: u32 = 25;

const HALF_PART: i64 = 16_777_216;

// The value of a curve at an input.
pub(crate) fn shape(points: &[Fix], x: Fix) -> Fix
    requires { 2 ≤ length points.now }
    ensures { result ≡ curves.shaped points.now x }
{
    let at = i64::from(x) + i64::from(ONE);
    if at <= 0 {
        points[0]
    } else if at >= i64::from(PARTS) {
        points[points.len() - 1]
    } else {
        on_way(points, at as u64)
    }
}

// The value of a curve between its first point and its last.
fn on_way(points: &[Fix], at: u64) -> Fix
    requires points { 2 ≤ length points.now }
    requires at { at < 2 ^ 25 }
    ensures { result ≡ curves.on_way points.now ((length points.now - 1) * at) }
{
    let p = (points.len() - 1) as u128 * u128::from(at);
    let k = (p / u128::from(PARTS)) as usize;
    let part = (p % u128::from(PARTS)) as u32;
    between(points[k], points[k + 1], part)
}

// The value after so many parts of the way from one value to another, rounded once.
fn between(from: Fix, to: Fix, part: u32) -> Fix
    requires { part ≤ 2 ^ 25 }
    ensures { result ≡ curves.between from to part (2 ^ 25) }
{
    (i64::from(from) + share(rise(from, to), part)) as i32
}

fn rise(from: Fix, to: Fix) -> i64
    ensures value { result ≡ to -ℤ from }
    ensures small { unsigned_abs result ≤ 2 ^ 32 }
{
    i64::from(to) - i64::from(from)
}

// The part of a rise that is done, rounded.
fn share(rise: i64, part: u32) -> i64
    requires rise { unsigned_abs rise ≤ 2 ^ 32 }
    requires part { part ≤ 2 ^ 25 }
    ensures { result ≡ rnd (rise *ℤ pos part) (pos (2 ^ 25)) }
{
    (rise * i64::from(part) + HALF_PART) >> PART_BITS
}
