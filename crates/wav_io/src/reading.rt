ghost use Rattle.std.specs.Prelude.{◌≡◌, ◌≢◌, ◌≤◌, ◌+◌, ◌*◌, ◌/◌, true, false, length, Ok, Err, IfOk, IfErr, IsTrue};
ghost use Rattle.std.specs.Str.{bytes_eq};
ghost use Rattle.buffer_store.specs.Recordings.{IsRecording};
ghost use Rattle.wav_io.specs.WavGrammar as grammar;
ghost use Rattle.wav_io.specs.WavRest.{IsRest};

use crate::chunk_walk::{Chunk, HEAD_LEN, chunk_at};
use crate::format_chunk::{Format, format_in};
use crate::values::values_in;
use crate::wav::{Head, WavErr};
use buffer_store::Wav;
use std::alloc::Global;
use wa_base::SharedSamples;

const RIFF_LEN: usize = 12;

/// The samples of a WAV file of PCM samples with 8, 16, 24 or 32 bits, or the file's first fault.
/// The chunks are read one by one: those with other names than `fmt ` and `data` are skipped, and so
/// is what follows the first `data` chunk. Its body may reach past the end of the file: the whole
/// blocks that are there count.
///
/// The memory of the samples is taken at once, and none beside it.
///
/// The format is that of "RIFF/WAVE PCM, Multimedia Programming Interface and Data Specifications 1.0".
pub fn decode(alloc: Global, bytes: &[u8]) -> Result<Wav, WavErr>
    ensures ok { IfOk result (λ wav. grammar.wav_of bytes.now ≡ Ok wav) }
    ensures fault { IfErr result (λ e. e ≢ WavErr.NoMemory → grammar.wav_of bytes.now ≡ Err e) }
    ensures recording { IfOk result (λ wav. IsRecording wav) }
{
    let (format, data_chunk) = parts_of(bytes)?;
    wav_in(alloc, bytes, &format, &data_chunk)
}

/// What `decode` would read from a file, without the samples, or the file's first fault. It looks at no
/// sample, and takes no memory.
pub fn head_of(bytes: &[u8]) -> Result<Head, WavErr>
    ensures value { result ≡ grammar.head_of bytes.now }
    ensures channels { IfOk result (λ head. (1 ≤ head.channels) × (head.channels ≤ 32)) }
{
    let (format, data_chunk) = parts_of(bytes)?;
    let frames = frames_in(bytes, &format, &data_chunk);
    if frames == 0 {
        return Err(WavErr::NoData(data_chunk.place as u64));
    }
    Ok(Head {
        rate: format.rate,
        channels: format.channels,
        frames: frames as u64,
    })
}

// The format of a file and the chunk of its data, or the fault that stands before them.
fn parts_of(bytes: &[u8]) -> Result<(Format, Chunk), WavErr>
    ensures value { IfOk result (λ parts. grammar.wav_of bytes.now ≡ grammar.wav_in bytes.now parts.0 parts.1) }
    ensures width { IfOk result (λ parts. IsTrue (grammar.is_width parts.0.bits)) }
    ensures channels_low { IfOk result (λ parts. 1 ≤ parts.0.channels) }
    ensures channels_high { IfOk result (λ parts. parts.0.channels ≤ 32) }
    ensures there { IfOk result (λ parts. parts.1.place + 8 ≤ length bytes.now) }
    ensures fault { IfErr result (λ e. grammar.wav_of bytes.now ≡ Err e) }
{
    if !is_riff(bytes) {
        return Err(WavErr::NotRiff(0));
    }
    let format_chunk = find_format(bytes)?;
    let format = format_in(bytes, &format_chunk)?;
    let data_chunk = find_data(bytes, format_chunk.next_place())?;
    Ok((format, data_chunk))
}

#[tactic(auto, unfolding(crate::specs::WavGrammar::is_riff))]
fn is_riff(bytes: &[u8]) -> bool
    ensures value { result ≡ grammar.is_riff bytes.now }
    ensures room { (result ≡ true) → 12 ≤ length bytes.now }
{
    bytes.len() >= RIFF_LEN && is_text(&bytes[0..4], b"RIFF") && is_text(&bytes[8..12], b"WAVE")
}

fn is_text(bytes: &[u8], text: &[u8; 4]) -> bool
    ensures { result ≡ bytes_eq bytes.now text.now }
{
    bytes == text.as_slice()
}

// The first `fmt ` chunk, or the fault where there is none or a `data` chunk comes before it.
fn find_format(bytes: &[u8]) -> Result<Chunk, WavErr>
    requires { 12 ≤ length bytes.now }
    ensures value { let chunks = grammar.chunks_from bytes.now 12 in
        result ≡ grammar.format_chunk_of (grammar.first_format chunks) (grammar.first_data chunks) (grammar.end_of bytes.now 12 chunks) }
    ensures there { IfOk result (λ chunk. chunk.place + 8 ≤ length bytes.now) }
    // The data is looked for after the format.
    ensures rest { IfOk result (λ chunk. grammar.is_cut bytes.now chunk ≡ false → IsRest bytes.now chunk) }
{
    let mut place = RIFF_LEN;
    'chunks: while let Some(chunk) = chunk_at(bytes, place) {
        if chunk.is_format() {
            return Ok(chunk);
        }
        if chunk.is_data() {
            return Err(WavErr::DataFirst(place as u64));
        }
        if chunk.is_cut(bytes) {
            return Err(WavErr::NoFormat(place as u64));
        }
        place = chunk.next_place();
    }
    Err(WavErr::NoFormat(place as u64))
}

// The first `data` chunk from a place on, or the fault where there is none.
fn find_data(bytes: &[u8], start: usize) -> Result<Chunk, WavErr>
    requires { start ≤ length bytes.now + 1 }
    ensures value { let chunks = grammar.chunks_from bytes.now start in
        result ≡ grammar.data_chunk_of (grammar.first_data chunks) (grammar.end_of bytes.now start chunks) }
    ensures there { IfOk result (λ chunk. chunk.place + 8 ≤ length bytes.now) }
{
    let mut place = start;
    'chunks: while let Some(chunk) = chunk_at(bytes, place) {
        if chunk.is_data() {
            return Ok(chunk);
        }
        if chunk.is_cut(bytes) {
            return Err(WavErr::NoData(place as u64));
        }
        place = chunk.next_place();
    }
    Err(WavErr::NoData(place as u64))
}

// How many whole blocks of a data chunk the file has.
fn frames_in(bytes: &[u8], format: &Format, chunk: &Chunk) -> usize
    requires width { IsTrue (grammar.is_width format.now.bits) }
    requires channels_low { 1 ≤ format.now.channels }
    requires channels_high { format.now.channels ≤ 32 }
    requires there { chunk.now.place + 8 ≤ length bytes.now }
    ensures value { result ≡ grammar.frames_in bytes.now format.now chunk.now }
    ensures there { chunk.now.place + 8 + result * (format.now.channels * (format.now.bits / 8)) ≤ length bytes.now }
{
    let start = chunk.place + HEAD_LEN;
    let block = (format.channels * (format.bits / 8)) as usize;
    (bytes.len().min(chunk.body_end()) - start) / block
}

// What is in a data chunk, of which the file may have a part.
fn wav_in(alloc: Global, bytes: &[u8], format: &Format, chunk: &Chunk) -> Result<Wav, WavErr>
    requires width { IsTrue (grammar.is_width format.now.bits) }
    requires channels_low { 1 ≤ format.now.channels }
    requires channels_high { format.now.channels ≤ 32 }
    requires there { chunk.now.place + 8 ≤ length bytes.now }
    ensures ok { IfOk result (λ wav. grammar.wav_in bytes.now format.now chunk.now ≡ Ok wav) }
    ensures fault { IfErr result (λ e. e ≢ WavErr.NoMemory → grammar.wav_in bytes.now format.now chunk.now ≡ Err e) }
    ensures recording { IfOk result (λ wav. IsRecording wav) }
{
    let start = chunk.place + HEAD_LEN;
    let frames = frames_in(bytes, format, chunk);
    if frames == 0 {
        return Err(WavErr::NoData(chunk.place as u64));
    }
    let samples = values_in(alloc, bytes, format, start, frames)?;
    Ok(Wav {
        rate: format.rate,
        channels: format.channels,
        frames: frames as u64,
        samples: SharedSamples::new(alloc, samples)?,
    })
}
