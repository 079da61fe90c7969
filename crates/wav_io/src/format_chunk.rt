ghost use Rattle.std.specs.Prelude.{◌≡◌, ◌≤◌, ◌+◌, ◌<◌, true, false, length, IfOk, IsTrue};
ghost use Rattle.std.specs.Str.{bytes_eq};
ghost use Rattle.wav_io.specs.WavGrammar as grammar;

use crate::chunk_walk::Chunk;
use crate::numbers::{u16_at, u32_at};
use crate::wav::WavErr;

/// The format tag of PCM samples.
const PCM: u32 = 1;

/// The format tag WAVE_FORMAT_EXTENSIBLE.
const EXTENSIBLE: u32 = 65_534;

/// The fewest bytes of a format.
const LEAST_SIZE: u32 = 16;

/// The fewest bytes of a format with an extension.
const EXTENSION_SIZE: u32 = 40;

/// The subformat of PCM samples in an extension.
const PCM_GUID: [u8; 16] = [1, 0, 0, 0, 0, 0, 16, 0, 128, 0, 0, 170, 0, 56, 155, 113];

const MAX_CHANNELS: u32 = 32;

/// What the format chunk says of the samples.
#[derive(Clone, Copy)]
pub(crate) struct Format {
    pub rate: u32,
    pub channels: u32,
    pub bits: u32,
}

/// The format in a chunk, or its first fault.
#[tactic(auto, unfolding(crate::specs::WavGrammar::format_in))]
pub(crate) fn format_in(bytes: &[u8], chunk: &Chunk) -> Result<Format, WavErr>
    requires { chunk.now.place + 8 ≤ length bytes.now }
    ensures value { result ≡ grammar.format_in bytes.now chunk.now }
    ensures whole { IfOk result (λ _. chunk.now.place + 8 + chunk.now.size ≤ length bytes.now) }
    ensures width { IfOk result (λ format. IsTrue (grammar.is_width format.bits)) }
    ensures channels_low { IfOk result (λ format. 1 ≤ format.channels) }
    ensures channels_high { IfOk result (λ format. format.channels ≤ 32) }
{
    if is_short(bytes, chunk) {
        return Err(WavErr::NoFormat(chunk.place as u64));
    }
    if !is_pcm(bytes, chunk) {
        return Err(WavErr::UnknownTag(chunk.place as u64 + 8));
    }
    let bits = u16_at(bytes, chunk.place + 22);
    if !is_width(bits) {
        return Err(WavErr::BadBits(chunk.place as u64 + 22));
    }
    let channels = u16_at(bytes, chunk.place + 10);
    if !has_shape(channels, bits, u16_at(bytes, chunk.place + 20)) {
        return Err(WavErr::BadShape(chunk.place as u64 + 10));
    }
    Ok(Format {
        rate: u32_at(bytes, chunk.place + 12),
        channels,
        bits,
    })
}

// Whether the chunk has too few bytes, or the file too few of them.
#[tactic(auto, unfolding(crate::specs::WavGrammar::is_short))]
fn is_short(bytes: &[u8], chunk: &Chunk) -> bool
    requires { chunk.now.place + 8 ≤ length bytes.now }
    ensures value { result ≡ grammar.is_short bytes.now chunk.now }
    ensures long { (result ≡ false) → 16 ≤ chunk.now.size }
    ensures whole { (result ≡ false) → chunk.now.place + 8 + chunk.now.size ≤ length bytes.now }
{
    chunk.size < LEAST_SIZE || chunk.is_cut(bytes)
}

#[tactic(auto, unfolding(crate::specs::WavGrammar::is_pcm, crate::specs::WavGrammar::is_extended))]
fn is_pcm(bytes: &[u8], chunk: &Chunk) -> bool
    requires size { 16 ≤ chunk.now.size }
    requires room { chunk.now.place + 8 + chunk.now.size ≤ length bytes.now }
    ensures { result ≡ grammar.is_pcm bytes.now chunk.now }
{
    let tag = u16_at(bytes, chunk.place + 8);
    tag == PCM
        || tag == EXTENSIBLE
            && EXTENSION_SIZE <= chunk.size
            && is_pcm_guid(&bytes[chunk.place + 32..chunk.place + 32 + 16])
}

fn is_pcm_guid(guid: &[u8]) -> bool
    ensures { result ≡ bytes_eq guid.now grammar.pcm_guid }
{
    guid == PCM_GUID.as_slice()
}

#[tactic(auto, unfolding(crate::specs::WavGrammar::is_width))]
fn is_width(bits: u32) -> bool
    ensures { result ≡ grammar.is_width bits }
{
    bits == 8 || bits == 16 || bits == 24 || bits == 32
}

#[tactic(auto, unfolding(crate::specs::WavGrammar::has_shape))]
fn has_shape(channels: u32, bits: u32, block: u32) -> bool
    requires { bits < 65536 }
    ensures value { result ≡ grammar.has_shape channels bits block }
    ensures low { (result ≡ true) → 1 ≤ channels }
    ensures high { (result ≡ true) → channels ≤ 32 }
{
    1 <= channels && channels <= MAX_CHANNELS && block == channels * (bits / 8)
}
