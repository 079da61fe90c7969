ghost use Rattle.std.specs.Prelude.{◌≡◌, ◌≤◌, ◌*◌, length};

use crate::digest::{mixed, with_samples};
use crate::random::Random;
use node_table::{Causal, curve_refusal, filter_refusal};
use shaper_iir::{Iir, Shaper};
use std::alloc::Global;
use std::test::Fail;
use wa_base::{Exc, Fix, NoMemory};

fn with_refusal(digest: u64, refusal: Option<Exc>) -> u64 {
    let number = match refusal {
        None => 0,
        Some(Exc::NotSupported(_)) => 1,
        Some(Exc::InvalidState) => 2,
        Some(_) => 3,
    };
    mixed(digest, number)
}

// The outputs of a block of 16 frames.
fn block<K: Causal>(state: &mut K, random: &mut Random, digest: u64, channels: usize) -> u64
    requires room { K.room state.old ≡ channels }
    requires channels { channels ≤ 2 }
    ensures { K.room state.new ≡ K.room state.old }
{
    let x = random.samples();
    let mut y = [0; 32];
    let count = channels * 16;
    state.block(&x[..count], &mut y[..count], 16);
    with_samples(digest, &y[..count])
}

// The outputs of one frame of two channels.
fn frame<K: Causal>(state: &mut K, random: &mut Random, digest: u64) -> u64
    requires { K.room state.old ≡ 2 }
    ensures { K.room state.new ≡ K.room state.old }
{
    let x = [random.sample(), random.sample()];
    let mut y = [0; 2];
    state.step(&x, &mut y);
    with_samples(digest, &y)
}

// The outputs of a state that hears a block of one channel, then one of two, and then five frames.
fn played<K: Causal>(state: &mut K, random: &mut Random, digest: u64) -> Result<u64, NoMemory>
    requires { K.room state.old ≡ 0 }
{
    state.grow(1)?;
    let digest = block(state, random, digest, 1);
    state.grow(2)?;
    let mut digest = block(state, random, digest, 2);
    for _ in 0..5 {
        digest = frame(state, random, digest);
    }
    Ok(digest)
}

fn one_filter(alloc: Global, random: &mut Random, digest: u64) -> Result<u64, NoMemory> {
    let forward = random.coefficients();
    let mut back = random.coefficients();
    back[0] = random.divisor(back[0]);
    let forward = &forward[..random.count()];
    let back = &back[..random.count()];
    let refusal = filter_refusal(forward, back);
    let digest = with_refusal(digest, refusal);
    match refusal {
        None => played(&mut Iir::new(alloc, forward, back)?, random, digest),
        Some(_) => Ok(digest),
    }
}

fn one_shaper(alloc: Global, random: &mut Random, digest: u64) -> Result<u64, NoMemory> {
    let points = random.samples();
    let count = random.below(7) as usize;
    let curve = if random.below(8) == 0 {
        None
    } else {
        Some(&points[..count])
    };
    let refusal = curve_refusal(curve, random.below(16) == 0);
    let digest = with_refusal(digest, refusal);
    match refusal {
        None => played(&mut Shaper::new(alloc, curve)?, random, digest),
        Some(_) => Ok(digest),
    }
}

fn digest(alloc: Global) -> Result<u64, NoMemory> {
    let mut random = Random::new(2_025);
    let mut digest = 14_695_981_039_346_656_037;
    for _ in 0..10_000 {
        digest = one_filter(alloc, &mut random, digest)?;
        digest = one_shaper(alloc, &mut random, digest)?;
    }
    Ok(digest)
}

// The number is what tools/filters works out by itself.
#[test]
fn filters_and_shapers_are_as_a_second_calculation_has_them(rt: HostRuntime) -> Result<(), Fail> {
    assert!(rt; digest(rt.alloc())? == 10_631_824_897_952_427_165);
    Ok(())
}
