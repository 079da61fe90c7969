ghost use Rattle.std.specs.Prelude.{◌≡◌, ◌≤◌, ◌+◌, ◌*◌, ◌/◌, ◌<◌, ◌++◌, ℕ, length, map, IsTrue, IfOk, OnOk, pos, neg_ℤ, ◌-ℤ◌, ◌≤ℤ◌};
ghost use Rattle.std.specs.List.{range_with_len};
ghost use Rattle.byteorder.specs.Endian.{little_number, twos_complement};
ghost use Rattle.wav_io.specs.WavGrammar as grammar;

use crate::format_chunk::Format;
use byteorder::{ByteOrder, LittleEndian};
use std::alloc::Global;
use wa_base::{Fix, NoMemory, Samples};

/// The sample of 8 bits that stands for 0.
const ZERO_8: Fix = 128;

/// How many steps of a `Fix` a sample of 8 bits is worth.
const STEPS_8: Fix = 131_072;

const STEPS_16: Fix = 512;

const STEPS_24: Fix = 2;

/// What one step of the highest byte of a sample of 24 bits is worth.
const HIGHEST_24: i32 = 65_536;

/// Half of the 2^7 steps that a sample of 32 bits has in one step of a `Fix`.
const HALF_32: i64 = 64;

const STEP_BITS_32: u32 = 7;

/// The places of a channel's samples: that of the first, how far it is to the next, and how many
/// there are.
#[derive(Clone, Copy)]
struct Places {
    first: usize,
    step: usize,
    count: usize,
}

/// The values of so many blocks from a place on, one channel after another.
///
/// The memory of the values is taken at once, and none beside it.
pub(crate) fn values_in(
    alloc: Global,
    bytes: &[u8],
    format: &Format,
    start: usize,
    frames: usize,
) -> Result<Samples, NoMemory>
    requires width { IsTrue (grammar.is_width format.now.bits) }
    requires channels { format.now.channels ≤ 32 }
    requires room { start + frames * (format.now.channels * (format.now.bits / 8)) ≤ length bytes.now }
    ensures { IfOk result (λ samples. samples ≡ grammar.values_in bytes.now format.now start frames) }
{
    let mut values = Vec::with_capacity(alloc, frames * format.channels as usize)?;
    'channels: for channel in 0..format.channels {
        push_channel(&mut values, bytes, format, start, frames, channel)?;
    }
    Ok(Samples::from(values))
}

// Adds the values of one channel. Where their memory is there, none is taken.
fn push_channel(
    values: &mut Vec<Fix>,
    bytes: &[u8],
    format: &Format,
    start: usize,
    frames: usize,
    channel: u32,
) -> Result<(), NoMemory>
    requires width { IsTrue (grammar.is_width format.now.bits) }
    requires channel { channel < format.now.channels }
    requires channels { format.now.channels ≤ 32 }
    requires room { start + frames * (format.now.channels * (format.now.bits / 8)) ≤ length bytes.now }
    ensures { OnOk result (values.new.items ≡ values.old.items ++ grammar.channel_values bytes.now format.now start frames channel) }
{
    let width = (format.bits / 8) as usize;
    let places = Places {
        first: start + channel as usize * width,
        step: format.channels as usize * width,
        count: frames,
    };
    push_samples(values, bytes, format.bits, places)
}

// Adds the values of samples of so many bits. The width is asked for once, before the samples.
fn push_samples(
    values: &mut Vec<Fix>,
    bytes: &[u8],
    bits: u32,
    places: Places,
) -> Result<(), NoMemory>
    requires width { IsTrue (grammar.is_width bits) }
    requires room { (k : ℕ) → k < places.count → places.first + k * places.step + bits / 8 ≤ length bytes.now }
    ensures { OnOk result (values.new.items ≡ values.old.items ++ map (λ k. grammar.value_of bits (grammar.bytes_at (bits / 8) bytes.now (places.first + k * places.step))) (range_with_len 0 places.count)) }
{
    if bits == 8 {
        push_8(values, bytes, places)
    } else if bits == 16 {
        push_16(values, bytes, places)
    } else if bits == 24 {
        push_24(values, bytes, places)
    } else {
        push_32(values, bytes, places)
    }
}

fn push_8(values: &mut Vec<Fix>, bytes: &[u8], places: Places) -> Result<(), NoMemory>
    requires { (k : ℕ) → k < places.count → places.first + k * places.step + 1 ≤ length bytes.now }
    ensures { OnOk result (values.new.items ≡ values.old.items ++ map (λ k. grammar.value_of 8 (grammar.bytes_at 1 bytes.now (places.first + k * places.step))) (range_with_len 0 places.count)) }
{
    values.extend((0..places.count).map(|k| value_8_at(bytes, places.first + k * places.step)))?;
    Ok(())
}

fn push_16(values: &mut Vec<Fix>, bytes: &[u8], places: Places) -> Result<(), NoMemory>
    requires { (k : ℕ) → k < places.count → places.first + k * places.step + 2 ≤ length bytes.now }
    ensures { OnOk result (values.new.items ≡ values.old.items ++ map (λ k. grammar.value_of 16 (grammar.bytes_at 2 bytes.now (places.first + k * places.step))) (range_with_len 0 places.count)) }
{
    values.extend((0..places.count).map(|k| value_16_at(bytes, places.first + k * places.step)))?;
    Ok(())
}

fn push_24(values: &mut Vec<Fix>, bytes: &[u8], places: Places) -> Result<(), NoMemory>
    requires { (k : ℕ) → k < places.count → places.first + k * places.step + 3 ≤ length bytes.now }
    ensures { OnOk result (values.new.items ≡ values.old.items ++ map (λ k. grammar.value_of 24 (grammar.bytes_at 3 bytes.now (places.first + k * places.step))) (range_with_len 0 places.count)) }
{
    values.extend((0..places.count).map(|k| value_24_at(bytes, places.first + k * places.step)))?;
    Ok(())
}

fn push_32(values: &mut Vec<Fix>, bytes: &[u8], places: Places) -> Result<(), NoMemory>
    requires { (k : ℕ) → k < places.count → places.first + k * places.step + 4 ≤ length bytes.now }
    ensures { OnOk result (values.new.items ≡ values.old.items ++ map (λ k. grammar.value_of 32 (grammar.bytes_at 4 bytes.now (places.first + k * places.step))) (range_with_len 0 places.count)) }
{
    values.extend((0..places.count).map(|k| value_32_at(bytes, places.first + k * places.step)))?;
    Ok(())
}

// The value of the sample at a place.
fn value_8_at(bytes: &[u8], place: usize) -> Fix
    requires { place + 1 ≤ length bytes.now }
    ensures { result ≡ grammar.value_of 8 (grammar.bytes_at 1 bytes.now place) }
{
    value_of_8(&bytes[place..place + 1])
}

fn value_16_at(bytes: &[u8], place: usize) -> Fix
    requires { place + 2 ≤ length bytes.now }
    ensures { result ≡ grammar.value_of 16 (grammar.bytes_at 2 bytes.now place) }
{
    value_of_16(&bytes[place..place + 2])
}

fn value_24_at(bytes: &[u8], place: usize) -> Fix
    requires { place + 3 ≤ length bytes.now }
    ensures { result ≡ grammar.value_of 24 (grammar.bytes_at 3 bytes.now place) }
{
    value_of_24(&bytes[place..place + 3])
}

fn value_32_at(bytes: &[u8], place: usize) -> Fix
    requires { place + 4 ≤ length bytes.now }
    ensures { result ≡ grammar.value_of 32 (grammar.bytes_at 4 bytes.now place) }
{
    value_of_32(&bytes[place..place + 4])
}

// The value of a sample by its bytes.
#[tactic(auto, unfolding(crate::specs::WavGrammar::value_of))]
fn value_of_8(sample: &[u8]) -> Fix
    requires { length sample.now ≡ 1 }
    ensures { result ≡ grammar.value_of 8 sample.now }
{
    value_8(sample[0])
}

fn value_of_16(sample: &[u8]) -> Fix
    requires { length sample.now ≡ 2 }
    ensures { result ≡ grammar.value_of 16 sample.now }
{
    value_16(LittleEndian::read_i16(sample))
}

fn value_of_24(sample: &[u8]) -> Fix
    requires { length sample.now ≡ 3 }
    ensures { result ≡ grammar.value_of 24 sample.now }
{
    value_24(signed_24(sample))
}

fn value_of_32(sample: &[u8]) -> Fix
    requires { length sample.now ≡ 4 }
    ensures { result ≡ grammar.value_of 32 sample.now }
{
    value_32(LittleEndian::read_i32(sample))
}

fn value_8(sample: u8) -> Fix
    ensures { result ≡ grammar.fix_of 8 (pos sample -ℤ pos 128) }
{
    (Fix::from(sample) - ZERO_8) * STEPS_8
}

fn value_16(sample: i16) -> Fix
    ensures { result ≡ grammar.fix_of 16 sample }
{
    Fix::from(sample) * STEPS_16
}

fn value_24(sample: i32) -> Fix
    requires low { neg_ℤ (pos 8388608) ≤ℤ sample }
    requires high { sample ≤ℤ pos 8388607 }
    ensures { result ≡ grammar.fix_of 24 sample }
{
    sample * STEPS_24
}

// The number of three bytes, the lowest first, in two's complement.
fn signed_24(sample: &[u8]) -> i32
    requires { length sample.now ≡ 3 }
    ensures value { result ≡ twos_complement 3 (little_number 3 sample.now) }
    ensures low { neg_ℤ (pos 8388608) ≤ℤ result }
    ensures high { result ≤ℤ pos 8388607 }
{
    i32::from(sample[2].cast_signed()) * HIGHEST_24 + i32::from(LittleEndian::read_u16(sample))
}

fn value_32(sample: i32) -> Fix
    ensures { result ≡ grammar.fix_of 32 sample }
{
    ((i64::from(sample) + HALF_32) >> STEP_BITS_32) as Fix
}
