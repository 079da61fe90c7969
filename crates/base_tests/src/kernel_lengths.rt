use lane_kern::{add_into, gain_into, sat_into, scaled_add};
use wa_base::{sat, scale};

// The greatest length that is tried. No kernel takes so many items at once.
const MOST: usize = 130;

const SUM: i64 = -5_000_000_000;

const FACTOR: i64 = 33_554_432;

// Samples from the whole range.
fn samples(first: i32) -> [i32; MOST] {
    let mut samples = [0; MOST];
    let mut value = first;
    for sample in samples.iter_mut() {
        *sample = value;
        value = value.wrapping_mul(1_664_525).wrapping_add(1_013_904_223);
    }
    samples
}

// Whether each kernel does to so many items what a plain loop does, and nothing to those behind them.
fn are_added(length: usize) -> bool {
    if length > MOST {
        return false;
    }
    let src = samples(i32::MAX);
    let mut acc = [SUM; MOST];
    add_into(&mut acc[..length], &src[..length]);
    for (k, sum) in acc.iter().enumerate() {
        let added = if k < length { i64::from(src[k]) } else { 0 };
        if *sum != SUM + added {
            return false;
        }
    }
    true
}

fn are_added_scaled(length: usize) -> bool {
    if length > MOST {
        return false;
    }
    let src = samples(i32::MIN);
    let mut acc = [SUM; MOST];
    scaled_add(&mut acc[..length], &src[..length], FACTOR);
    for (k, sum) in acc.iter().enumerate() {
        let sample = if k < length { src[k] } else { 0 };
        if *sum != SUM + i64::from(sample) * FACTOR {
            return false;
        }
    }
    true
}

fn are_multiplied(length: usize) -> bool {
    if length > MOST {
        return false;
    }
    let (src, gains) = (samples(i32::MAX), samples(1));
    let mut out = [7; MOST];
    gain_into(&mut out[..length], &src[..length], &gains[..length]);
    for (k, value) in out.iter().enumerate() {
        let want = if k < length {
            scale(src[k], gains[k])
        } else {
            7
        };
        if *value != want {
            return false;
        }
    }
    true
}

fn are_saturated(length: usize) -> bool {
    if length > MOST {
        return false;
    }
    let mut sums = [0; MOST];
    for (sum, sample) in sums.iter_mut().zip(samples(1)) {
        *sum = 3 * i64::from(sample);
    }
    let mut out = [7; MOST];
    sat_into(&mut out[..length], &sums[..length]);
    for (k, value) in out.iter().enumerate() {
        let want = if k < length { sat(sums[k]) } else { 7 };
        if *value != want {
            return false;
        }
    }
    true
}

#[test]
fn blocks_of_0_to_130_frames_are_as_by_plain_loops(rt: HostRuntime) {
    for length in 0..=MOST {
        assert!(rt; are_added(length), "added: {length}");
        assert!(rt; are_added_scaled(length), "added and scaled: {length}");
        assert!(rt; are_multiplied(length), "multiplied: {length}");
        assert!(rt; are_saturated(length), "saturated: {length}");
    }
}
