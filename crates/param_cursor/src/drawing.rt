ghost use Rattle.std.specs.Prelude.{◌≡◌, ℕ, length, ◌+◌, ◌-◌, ◌*◌, ◌<◌, ◌≤◌, ◌^◌, unsigned_abs, FitsSigned, pos, slice_index_or};
ghost use Rattle.std.specs.Int.{w32};
ghost use Rattle.param_events.specs.Values as values;
ghost use Rattle.param_cursor.specs.Cursors.{IsDrawn};
ghost use Rattle.param_cursor.specs.Rising.{share_rising, numerator_on, value_on};
ghost use Rattle.param_cursor.specs.Lanes.{IsNarrow};

use crate::lanes::LANES;
use crate::slope::Slope;
use param_events::{along, rise, times};
use wa_base::Fix;

// A line from one value to another in so many parts.
#[derive(Clone, Copy)]
pub(crate) struct Segment {
    pub(crate) from: Fix,
    pub(crate) to: Fix,
    pub(crate) parts: u64,
}

// The same value in each frame.
pub(crate) fn draw_level(out: &mut [Fix], at: usize, end: usize, value: Fix)
    requires { end ≤ length out.old }
    ensures { IsDrawn out.old out.new at end (λ m. value) }
{
    for m in at..end {
        out[m] = value;
    }
}

// The share of a rise from its n-th part on, where each frame takes `gain` parts.
fn share_from(rise: i64, n: u64, gain: u64, parts: u64) -> Slope
    requires small { unsigned_abs rise ≤ 2 ^ 33 }
    requires some { 0 < parts }
    requires within { n ≤ parts }
    requires gain { gain ≤ parts }
    ensures { result ≡ share_rising rise n gain parts }
{
    let start = times(rise, n);
    let step = times(rise, gain);
    Slope::new(start + (parts / 2) as i128, step, parts)
}

// The values of a narrow slope that begins at a value, LANES frames at a time.
fn draw_lanes(out: &mut [Fix], at: usize, end: usize, from: Fix, slope: &Slope)
    requires ends { end ≤ length out.old }
    requires many { at + 8 ≤ end }
    requires narrow { IsNarrow slope.now }
    requires small { (k : ℕ) → at + k < end → unsigned_abs (numerator_on slope.now k) ≤ 2 ^ 34 * slope.now.divisor }
    requires fits { (k : ℕ) → at + k < end → FitsSigned w32 (value_on from slope.now k) }
    ensures { IsDrawn out.old out.new at end (λ m. value_on from slope.now (m - at)) }
{
    let mut lanes = slope.lanes(from);
    let mut m = at;
    while end - m >= LANES {
        lanes.write(&mut out[m..m + LANES]);
        lanes.advance();
        m += LANES;
    }
    let left = lanes.values;
    draw_left(out, m, end, left);
}

// The first of so many values.
fn draw_left(out: &mut [Fix], at: usize, end: usize, values: [Fix; LANES])
    requires ends { end ≤ length out.old }
    requires order { at ≤ end }
    requires few { end ≤ at + 8 }
    ensures { IsDrawn out.old out.new at end (λ m. slice_index_or values (m - at) (pos 0)) }
{
    for m in at..end {
        out[m] = values[m - at];
    }
}

// The values of a slope, each by a step from the one before.
fn draw_singly(out: &mut [Fix], at: usize, end: usize, from: Fix, slope: Slope)
    requires ends { end ≤ length out.old }
    requires order { at ≤ end }
    requires step { unsigned_abs slope.step ≤ 2 ^ 34 * slope.divisor }
    requires small { (k : ℕ) → at + k < end → unsigned_abs (numerator_on slope k) ≤ 2 ^ 34 * slope.divisor }
    requires fits { (k : ℕ) → at + k < end → FitsSigned w32 (value_on from slope k) }
    ensures { IsDrawn out.old out.new at end (λ m. value_on from slope (m - at)) }
{
    let mut on = slope;
    for m in at..end {
        out[m] = (from as i64 + on.value()) as i32;
        on.advance();
    }
}

// A line from its n-th part on, where each frame takes `gain` parts. Its first value and its step are
// divided out.
pub(crate) fn draw_steps(
    out: &mut [Fix],
    at: usize,
    end: usize,
    segment: Segment,
    n: u64,
    gain: u64,
)
    requires ends { end ≤ length out.old }
    requires order { at ≤ end }
    requires before { (m : ℕ) → at ≤ m → m < end → n + gain * (m - at) ≤ segment.parts }
    requires some { 0 < segment.parts }
    requires within { n ≤ segment.parts }
    requires gain { gain ≤ segment.parts }
    ensures { IsDrawn out.old out.new at end (λ m. values.along segment.from segment.to (n + gain * (m - at)) segment.parts) }
{
    let slope = share_from(rise(segment.from, segment.to), n, gain, segment.parts);
    if end - at >= LANES && slope.is_narrow() {
        draw_lanes(out, at, end, segment.from, &slope);
    } else {
        draw_singly(out, at, end, segment.from, slope);
    }
}

// The same, where a frame may take more parts than there are, if it is alone.
pub(crate) fn draw_segment(
    out: &mut [Fix],
    at: usize,
    end: usize,
    segment: Segment,
    n: u64,
    gain: u64,
)
    requires ends { end ≤ length out.old }
    requires some { at < end }
    requires before { (m : ℕ) → at ≤ m → m < end → n + gain * (m - at) ≤ segment.parts }
    requires lasts { 0 < segment.parts }
    ensures { IsDrawn out.old out.new at end (λ m. values.along segment.from segment.to (n + gain * (m - at)) segment.parts) }
{
    if end - at == 1 {
        out[at] = along(segment.from, segment.to, n, segment.parts);
        return;
    }
    draw_steps(out, at, end, segment, n, gain);
}

// The index behind one more than so many frames, or the end.
fn stop_after(at: usize, end: usize, count: u64) -> usize
    requires { at < end }
    ensures within { (at < result) × (result ≤ end) }
    ensures count { result ≤ at + count + 1 }
{
    if count < (end - at - 1) as u64 {
        at + count as usize + 1
    } else {
        end
    }
}

// The frames of a curve that lie between two of its points, from its n-th frame on. It gives the index
// at which it stops.
fn draw_curve_segment(
    out: &mut [Fix],
    at: usize,
    end: usize,
    points: &[Fix],
    duration: u64,
    n: u64,
) -> usize
    requires ends { end ≤ length out.old }
    requires more { at < end }
    requires has_points { 2 ≤ length points.now }
    requires lasts { 1 ≤ duration }
    requires fits { n + (end - at) < 2 ^ 64 }
    ensures within { (at < result) × (result ≤ end) }
    ensures drawn { IsDrawn out.old out.new at result (λ m. values.curve_value points.now duration (n + (m - at))) }
{
    let last = points.len() - 1;
    let way = last as u128 * n as u128;
    let k = way / duration as u128;
    if last as u128 <= k {
        draw_level(out, at, end, points[last]);
        return end;
    }
    let part = (way - k * duration as u128) as u64;
    let count = (duration - part - 1) / last as u64;
    let stop = stop_after(at, end, count);
    let segment = Segment {
        from: points[k as usize],
        to: points[k as usize + 1],
        parts: duration,
    };
    draw_segment(out, at, stop, segment, part, last as u64);
    stop
}

// A curve from its n-th frame on.
pub(crate) fn draw_curve(
    out: &mut [Fix],
    at: usize,
    end: usize,
    points: &[Fix],
    duration: u64,
    n: u64,
)
    requires ends { end ≤ length out.old }
    requires order { at ≤ end }
    requires has_points { 2 ≤ length points.now }
    requires lasts { 1 ≤ duration }
    requires fits { n + (end - at) < 2 ^ 64 }
    ensures { IsDrawn out.old out.new at end (λ m. values.curve_value points.now duration (n + (m - at))) }
{
    let mut m = at;
    while m < end {
        m = draw_curve_segment(out, m, end, points, duration, n + (m - at) as u64);
    }
}
