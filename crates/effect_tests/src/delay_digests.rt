ghost use Rattle.std.specs.Prelude.{◌≤◌, length};

use crate::digest::{mixed, with_samples};
use crate::random::Random;
use crate::tried::Tried;
use std::alloc::Global;
use std::test::Fail;
use wa_base::{Fix, Interp, NoMemory};

// The most frames of a block, and the most channels.
const FRAMES: usize = 16;

const CHANNELS: usize = 6;

fn samples(random: &mut Random) -> [Fix; FRAMES * CHANNELS] {
    let mut block = [0; FRAMES * CHANNELS];
    for sample in &mut block {
        *sample = random.any_sample();
    }
    block
}

// Delays from a least one on: one for all frames, or one for each.
fn delays(random: &mut Random, least: u64, capacity: u64) -> [u64; FRAMES]
    requires least { least ≤ 16 }
    requires capacity { capacity ≤ 40 }
{
    let mut delays = [least + random.below(capacity + 4); FRAMES];
    if random.below(2) == 0 {
        for delay in &mut delays {
            *delay = least + random.below(capacity + 1);
        }
    }
    delays
}

// What a reader gives of a line, from its frame `first` on.
fn read(line: &Tried, random: &mut Random, digest: u64, first: u64, least: u64) -> u64
    requires { least ≤ 16 }
{
    let delays = delays(random, least, line.capacity.min(40));
    let interp = if random.below(3) == 0 {
        Interp::Discrete
    } else {
        Interp::Speakers
    };
    let channels = line.most.max(1 + random.below(6) as u32).min(6);
    let mut out = [0; FRAMES * CHANNELS];
    let frames = (line.block as usize).min(FRAMES);
    let count = (channels as usize * frames).min(FRAMES * CHANNELS);
    if line.read(
        &mut out[..count],
        channels,
        first,
        &delays[..frames],
        interp,
    ) {
        with_samples(mixed(digest, 1), &out[..count])
    } else {
        mixed(digest, 0)
    }
}

// A line whose reader reads before its writer writes, or after it.
fn one_line(alloc: Global, random: &mut Random, digest: u64) -> Result<u64, NoMemory> {
    let capacity = random.below(41);
    let frames = 1 + random.below(FRAMES as u64) as u32;
    let mut line = Tried::new(alloc, capacity, frames)?;
    let mut digest = mixed(digest, capacity);
    let in_cycle = random.below(2) == 0;
    for _ in 0..12 {
        let first = line.written;
        if in_cycle {
            digest = read(&line, random, digest, first, u64::from(frames));
        }
        let channels = [1, 1, 2, 2, 4, 6][random.below(6) as usize];
        let block = samples(random);
        let _ = line.write(&block[..channels as usize * frames as usize], channels)?;
        if !in_cycle {
            digest = read(&line, random, digest, first, 0);
        }
    }
    Ok(digest)
}

fn digest(alloc: Global) -> Result<u64, NoMemory> {
    let mut random = Random::new(2_026);
    let mut digest = 14_695_981_039_346_656_037;
    for _ in 0..5_000 {
        digest = one_line(alloc, &mut random, digest)?;
    }
    Ok(digest)
}

// The number is what tools/delays works out by itself.
#[test]
fn lines_are_as_a_second_calculation_has_them(rt: HostRuntime) -> Result<(), Fail> {
    assert!(rt; digest(rt.alloc())? == 621_701_345_450_219_990);
    Ok(())
}
