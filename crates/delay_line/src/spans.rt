ghost use Rattle.std.specs.Prelude.{◌≡◌, ◌<◌, ◌≤◌, ◌+◌, ◌-◌, ◌^◌, ℕ, true, length, IfSome};
ghost use Rattle.delay_line.specs.Spans.{IsBetween, delay_at};

use crate::rings::distance;

// Frames of a block that all lie before birth, or that were all written with as many channels.
#[derive(Clone, Copy)]
pub(crate) struct Span {
    pub(crate) start: usize,
    pub(crate) end: usize,
    pub(crate) count: u32,
}

// The delay of all frames, where they have one.
pub(crate) fn steady_delay(delays: &[u64]) -> Option<u64>
    ensures { IfSome result (λ delay. (k : ℕ) → k < length delays.now → delay_at delays.now k ≡ delay) }
{
    let first = *delays.first()?;
    if is_steady(delays) { Some(first) } else { None }
}

// Whether all delays are equal.
fn is_steady(delays: &[u64]) -> bool
    ensures { result ≡ true → (k : ℕ) → k < length delays.now → delay_at delays.now k ≡ delay_at delays.now 0 }
{
    let mut is_steady = true;
    for delay in delays {
        is_steady &= *delay == delays[0];
    }
    is_steady
}

// Where what frames read stops to lie before birth, from a frame on that reads what lies there.
pub(crate) fn unborn_end(first: u64, delays: &[u64], start: usize) -> usize
    requires start { start < length delays.now }
    requires short { (first ≤ 2 ^ 62) × (length delays.now ≤ 1024) }
    requires unborn { first + start < delay_at delays.now start }
    ensures order { (start < result) × (result ≤ length delays.now) }
    ensures unborn { (k : ℕ) → start ≤ k → k < result → first + k < delay_at delays.now k }
{
    let mut end = start + 1;
    while end < delays.len() && first + (end as u64) < delays[end] {
        end += 1;
    }
    end
}

// Where fewer frames than `near`, or `far` and more, follow what frames read, from a frame on where it
// is not so.
pub(crate) fn moving_end(
    written: u64,
    first: u64,
    delays: &[u64],
    start: usize,
    near: usize,
    far: usize,
) -> usize
    requires start { start < length delays.now }
    requires short { (first ≤ 2 ^ 62) × (length delays.now ≤ 1024) }
    requires written { (k : ℕ) → k < length delays.now → delay_at delays.now k ≤ first + k → first + k - delay_at delays.now k < written }
    requires between { IsBetween written (first + start) (delay_at delays.now start) near far }
    ensures order { (start < result) × (result ≤ length delays.now) }
    ensures between { (k : ℕ) → start ≤ k → k < result → IsBetween written (first + k) (delay_at delays.now k) near far }
{
    // Mostly it is so of all frames, and one fold over them is faster than a loop that may end at each.
    let begin = first + start as u64;
    if are_between(written, begin, &delays[start..delays.len()], near, far) {
        return delays.len();
    }
    let mut end = start + 1;
    while end < delays.len() && is_between(written, first + end as u64, delays[end], near, far) {
        end += 1;
    }
    end
}

// Whether it is so of all frames from one on.
fn are_between(written: u64, first: u64, delays: &[u64], near: usize, far: usize) -> bool
    requires short { (first ≤ 2 ^ 63) × (length delays.now ≤ 1024) }
    requires written { (k : ℕ) → k < length delays.now → delay_at delays.now k ≤ first + k → first + k - delay_at delays.now k < written }
    ensures { result ≡ true → (k : ℕ) → k < length delays.now → IsBetween written (first + k) (delay_at delays.now k) near far }
{
    let mut are_between = true;
    for (k, delay) in delays.iter().enumerate() {
        are_between &= is_between(written, first + k as u64, *delay, near, far);
    }
    are_between
}

fn is_between(written: u64, f: u64, delay: u64, near: usize, far: usize) -> bool
    requires { delay ≤ f → f - delay < written }
    ensures { result ≡ true → IsBetween written f delay near far }
{
    if f < delay {
        return false;
    }
    let back = distance(written, f, delay);
    near <= back && back < far
}
