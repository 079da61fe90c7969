use crate::tried::Tried;
use std::alloc::Global;
use std::test::Fail;
use wa_base::{Fix, Interp, NoMemory};

const MOST: usize = 1_024;

// The number of a frame, as a sample.
fn number(frame: u64) -> Fix {
    (frame % 1_000_003) as i32
}

// Whether blocks of so many frames are heard after so many frames, where the first sample is 0, the
// second 1 and so on. The delay falls by one frame in each third frame where it moves.
fn is_heard(
    alloc: Global,
    frames: usize,
    blocks: u64,
    capacity: u64,
    moves: bool,
) -> Result<bool, NoMemory> {
    if frames == 0 || frames > MOST || capacity > 4_194_304 || blocks > 10_000 {
        return Ok(false);
    }
    let mut line = Tried::new(alloc, capacity, frames as u32)?;
    let mut block = [0; MOST];
    let mut delays = [capacity; MOST];
    let mut out = [-1; MOST];
    for b in 0..blocks {
        let first = b * frames as u64;
        for k in 0..frames {
            block[k] = number(first + k as u64);
            delays[k] = capacity - if moves { capacity.min(k as u64 / 3) } else { 0 };
        }
        let is_written = line.write(&block[..frames], 1)?;
        let is_read = line.read(
            &mut out[..frames],
            1,
            first,
            &delays[..frames],
            Interp::Speakers,
        );
        if !is_written || !is_read || !are_late(&out, &delays, first, frames) {
            return Ok(false);
        }
    }
    Ok(true)
}

// Whether each of so many frames is the one that was written before its delay.
fn are_late(out: &[Fix; MOST], delays: &[u64; MOST], first: u64, frames: usize) -> bool {
    for (k, (sample, delay)) in out.iter().zip(delays).enumerate() {
        let f = first.saturating_add(k as u64);
        let want = if f < *delay { 0 } else { number(f - *delay) };
        if k < frames && *sample != want {
            return false;
        }
    }
    true
}

#[test]
fn blocks_have_1_to_1024_frames(rt: HostRuntime) -> Result<(), Fail> {
    let alloc = rt.alloc();
    for (frames, blocks, capacity) in [
        (1, 5_000, 1_000),
        (1, 10, 0),
        (32, 200, 1_000),
        (128, 500, 48_000),
        (128, 20, 128),
        (1_000, 20, 999),
        (1_024, 100, 48_000),
        (1_024, 10, 4_194_304),
    ] {
        assert!(rt; is_heard(alloc, frames, blocks, capacity, false)?);
        assert!(rt; is_heard(alloc, frames, blocks, capacity, true)?);
    }
    Ok(())
}
