ghost use Rattle.std.specs.Prelude.{◌≡◌, ◌≤◌, ◌+◌, length, IfOk};

use crate::random::Random;
use convolve::Convolver;
use node_table::{Causal, response_refusal};
use std::alloc::Global;
use std::test::Fail;
use wa_base::{Channel, Exc, Feature, Fix, NoMemory};

const ONE: Fix = 16_777_216;

const TWO: Fix = 33_554_432;

// The output at the last of the frames heard, the oldest first, by a plain sum.
fn plain(response: &[Fix], heard: &[Fix]) -> Fix {
    let mut sum: i128 = 0;
    for (tap, frame) in response.iter().zip(heard.iter().rev()) {
        sum = sum.wrapping_add(i128::from(*tap).wrapping_mul(i128::from(*frame)));
    }
    let rounded = sum.wrapping_add(8_388_608) >> 24;
    rounded.clamp(i128::from(i32::MIN), i128::from(i32::MAX)) as i32
}

// Frames of the whole range, its ends among them, or silence.
fn frames_of(alloc: Global, random: &mut Random, count: usize) -> Result<Vec<Fix>, NoMemory>
    ensures { IfOk result (λ list. length list.items ≡ count) }
{
    let is_silent = random.below(3) == 0;
    let mut list = vec![in alloc; 0; count]?;
    for frame in list.iter_mut() {
        *frame = if is_silent { 0 } else { random.sample() };
    }
    Ok(list)
}

// A response of samples from -2.0 to 2.0.
fn response_of(alloc: Global, random: &mut Random, count: usize) -> Result<Vec<Fix>, NoMemory> {
    let mut list = vec![in alloc; 0; count]?;
    for tap in list.iter_mut() {
        *tap = random.below(67_108_865) as i32 - TWO;
    }
    Ok(list)
}

// Whether a convolver of one channel puts out the plain sums in the next block of its input.
fn hears(
    convolver: &mut Convolver,
    response: &[Fix],
    input: &[Fix],
    at: usize,
    y: &mut [Fix],
) -> bool
    requires room { length convolver.old.channels ≡ 1 }
    requires there { at + length y.old ≤ length input.now }
    ensures { length convolver.new.channels ≡ 1 }
{
    let frames = y.len();
    convolver.block(&input[at..at + frames], y, frames);
    let mut is_same = true;
    for (k, sample) in y.iter().enumerate() {
        is_same &= *sample == plain(response, &input[..at + k + 1]);
    }
    is_same
}

// Whether it does in three blocks one after another.
fn are_blocks(
    alloc: Global,
    random: &mut Random,
    taps: usize,
    frames: usize,
) -> Result<bool, NoMemory>
    requires { frames ≤ 1024 }
{
    let response = response_of(alloc, random, taps)?;
    if response_refusal(&Channel::from(response.as_slice())).is_some() {
        return Ok(false);
    }
    let mut convolver = Convolver::new(alloc, &response)?;
    convolver.grow(1)?;
    let input = frames_of(alloc, random, 3 * frames)?;
    let mut y = vec![in alloc; 0; frames]?;
    let first = hears(&mut convolver, &response, &input, 0, &mut y);
    let second = hears(&mut convolver, &response, &input, frames, &mut y);
    let third = hears(&mut convolver, &response, &input, 2 * frames, &mut y);
    Ok(first && second && third)
}

#[test]
fn blocks_are_plain_sums(rt: HostRuntime) -> Result<(), Fail> {
    let mut random = Random::new(2_027);
    for taps in [0, 1, 2, 65, 300] {
        let alloc = rt.alloc();
        assert!(rt; are_blocks(alloc, &mut random, taps, 1)?);
        assert!(rt; are_blocks(alloc, &mut random, taps, 32)?);
        assert!(rt; are_blocks(alloc, &mut random, taps, 128)?);
        assert!(rt; are_blocks(alloc, &mut random, taps, 1_024)?);
    }
    Ok(())
}

// The loudest input, but for one frame.
fn loud_frames(alloc: Global, frame: Fix) -> Result<Vec<Fix>, NoMemory>
    ensures { IfOk result (λ list. length list.items ≡ 2176) }
{
    let mut list = vec![in alloc; frame; 2_176]?;
    list[1_950] = 5;
    Ok(list)
}

// Whether a convolver of one channel puts out the plain sums of this response and input.
fn is_exact(alloc: Global, response: &[Fix], input: &[Fix]) -> Result<bool, NoMemory>
    requires { length input.now ≡ 2176 }
{
    if response_refusal(&Channel::from(response)).is_some() {
        return Ok(false);
    }
    let mut convolver = Convolver::new(alloc, response)?;
    convolver.grow(1)?;
    let mut y = vec![in alloc; 0; 2_176]?;
    Ok(hears(&mut convolver, response, input, 0, &mut y))
}

// Whether the longest and loudest response, which is negated from its 1,025th sample on, is heard exactly
// on the loudest input: sums go to 2^66, and back through 0.
fn is_loudest_exact(alloc: Global, frame: Fix) -> Result<bool, NoMemory> {
    let mut response = vec![in alloc; TWO; 16_384]?;
    response[1_024..].fill(-TWO);
    let input = loud_frames(alloc, frame)?;
    is_exact(alloc, &response, &input)
}

#[test]
fn no_sum_wraps(rt: HostRuntime) -> Result<(), Fail> {
    assert!(rt; is_loudest_exact(rt.alloc(), i32::MIN)?);
    assert!(rt; is_loudest_exact(rt.alloc(), i32::MAX)?);
    Ok(())
}

// The outputs of the second channel, which comes a frame late, and then hears an impulse and silence.
fn late_channel(alloc: Global, response: &[Fix; 3]) -> Result<[Fix; 4], NoMemory> {
    if response_refusal(&Channel::from(response.as_slice())).is_some() {
        return Ok([0; 4]);
    }
    let mut convolver = Convolver::new(alloc, response)?;
    convolver.grow(1)?;
    let mut y = [0; 2];
    convolver.step(&[7], &mut y[..1]);
    convolver.grow(2)?;
    let mut outputs = [0; 4];
    convolver.step(&[5, ONE], &mut y);
    outputs[0] = y[1];
    convolver.step(&[5, 0], &mut y);
    outputs[1] = y[1];
    convolver.grow(1)?;
    convolver.step(&[5, 0], &mut y);
    outputs[2] = y[1];
    convolver.step(&[5, 0], &mut y);
    outputs[3] = y[1];
    Ok(outputs)
}

#[test]
fn a_late_channel_was_silent_before(rt: HostRuntime) -> Result<(), Fail> {
    assert_eq!(rt; late_channel(rt.alloc(), &[3, -4, TWO])?, [3, -4, TWO, 0]);
    Ok(())
}

#[test]
fn responses_that_no_convolver_has(rt: HostRuntime) -> Result<(), Fail> {
    let long = vec![in rt.alloc(); 0; 16_385]?;
    assert_eq!(rt; response_refusal(&Channel::from(&long[1..])), None);
    assert_eq!(rt;
        response_refusal(&Channel::from(long.as_slice())),
        Some(Exc::NotSupported(Some(Feature::LongResponse)))
    );
    let loud = Some(Exc::NotSupported(Some(Feature::LoudResponse)));
    assert_eq!(rt;
        response_refusal(&Channel::from([TWO, -TWO].as_slice())),
        None
    );
    assert_eq!(rt;
        response_refusal(&Channel::from([0, TWO + 1].as_slice())),
        loud
    );
    assert_eq!(rt;
        response_refusal(&Channel::from([i32::MIN].as_slice())),
        loud
    );
    Ok(())
}
