ghost use Rattle.std.specs.Prelude.{◌≡◌, ◌≤◌, ◌+◌, ◌*◌, ◌/◌, ◌%◌, ◌⊎◌, ℕ, IsTrue, length, take, drop, OnOk, OnErr, IsErrOf};
ghost use Rattle.io_edge.specs.Faults.{Rose};
ghost use Rattle.io_edge.specs.Paths.{SamePaths, Sets, AppendsWhole, AppendsPart};
ghost use Rattle.session.specs.Rows.{interleaved};
ghost use Rattle.wav_io.specs.WavText as text;
ghost use Rattle.replay_top.specs.WavFile.{IsWritable, wav_of};

use command_line::Reading;
use io_edge::{EdgeErr, Files, append_all};
use session::Rendered;
use wa_base::Fix;
use wav_io::{frames_into, header};

// The most bytes that a sample has.
const MAX_SAMPLE_BYTES: usize = 3;

// As many samples as there are whole ones of so many bytes in 65,536 bytes.
const PIECE: usize = 21_845;

const PIECE_BYTES: usize = PIECE * MAX_SAMPLE_BYTES;

/// Makes OUT a WAV file with what was rendered, in pieces of at most 65,536 bytes.
pub fn write_wav<F: Files>(
    files: &mut F,
    reading: &Reading<'_>,
    rendered: &Rendered,
) -> Result<(), EdgeErr>
    requires { IsWritable rendered.now }
    ensures tells { F.tells files.new ≡ F.tells files.old }
    ensures all { OnOk result (IsTrue (F.tells files.old)
        → Sets (F.paths files.old) (F.paths files.new) reading.now.out (wav_of reading.now.bits rendered.now.spec (interleaved rendered.now.spec rendered.now.samples))) }
    ensures part { OnErr result (IsTrue (F.tells files.old) → SamePaths (F.paths files.old) (F.paths files.new)
        ⊎ ((n : ℕ) × Sets (F.paths files.old) (F.paths files.new) reading.now.out (take n (wav_of reading.now.bits rendered.now.spec (interleaved rendered.now.spec rendered.now.samples))))) }
    ensures reads { F.read_faults files.new ≡ F.read_faults files.old }
    ensures later { F.write_faults files.old ≤ F.write_faults files.new }
    ensures cause { IsErrOf result EdgeErr.Failed → Rose (F.write_faults files.old) (F.write_faults files.new) }
{
    files.create(reading.out)?;
    append_wav(files, reading, rendered)
}

// Adds the header, the frames and the padding to the end of the file.
fn append_wav<F: Files>(
    files: &mut F,
    reading: &Reading<'_>,
    rendered: &Rendered,
) -> Result<(), EdgeErr>
    requires { IsWritable rendered.now }
    ensures tells { F.tells files.new ≡ F.tells files.old }
    ensures all { OnOk result (IsTrue (F.tells files.old)
        → AppendsWhole (F.paths files.old) (F.paths files.new) reading.now.out (wav_of reading.now.bits rendered.now.spec (interleaved rendered.now.spec rendered.now.samples))) }
    ensures part { OnErr result (IsTrue (F.tells files.old)
        → AppendsPart (F.paths files.old) (F.paths files.new) reading.now.out (wav_of reading.now.bits rendered.now.spec (interleaved rendered.now.spec rendered.now.samples))) }
    ensures reads { F.read_faults files.new ≡ F.read_faults files.old }
    ensures later { F.write_faults files.old ≤ F.write_faults files.new }
    ensures cause { IsErrOf result EdgeErr.Failed → Rose (F.write_faults files.old) (F.write_faults files.new) }
{
    let spec = rendered.spec;
    append_all(
        files,
        reading.out,
        &header(spec.rate, spec.channels, reading.bits, spec.length),
    )?;
    append_frames(files, reading, rendered)?;
    let size = rendered.samples.len() * reading.sample_bytes();
    append_all(files, reading.out, padding(size))
}

// What follows so many bytes of samples.
fn padding(size: usize) -> &'static [u8]
    ensures { result.now ≡ text.padding size }
{
    if size % 2 == 0 { &[] } else { &[0] }
}

// Adds all frames to the end of the file.
fn append_frames<F: Files>(
    files: &mut F,
    reading: &Reading<'_>,
    rendered: &Rendered,
) -> Result<(), EdgeErr>
    requires { IsWritable rendered.now }
    ensures tells { F.tells files.new ≡ F.tells files.old }
    ensures all { OnOk result (IsTrue (F.tells files.old)
        → AppendsWhole (F.paths files.old) (F.paths files.new) reading.now.out (text.samples_bytes reading.now.bits (interleaved rendered.now.spec rendered.now.samples))) }
    ensures part { OnErr result (IsTrue (F.tells files.old)
        → AppendsPart (F.paths files.old) (F.paths files.new) reading.now.out (text.samples_bytes reading.now.bits (interleaved rendered.now.spec rendered.now.samples))) }
    ensures reads { F.read_faults files.new ≡ F.read_faults files.old }
    ensures later { F.write_faults files.old ≤ F.write_faults files.new }
    ensures cause { IsErrOf result EdgeErr.Failed → Rose (F.write_faults files.old) (F.write_faults files.new) }
{
    let channels = rendered.spec.channels as usize;
    let frames = rendered.spec.length;
    let sample_bytes = reading.sample_bytes();
    let most = frames_in_a_piece(channels);
    let mut samples = [0; PIECE];
    let mut bytes = [0u8; PIECE_BYTES];
    let mut at = 0;
    while at < frames {
        let next = (frames - at).min(most);
        let count = next as usize * channels;
        append_piece(
            files,
            reading,
            rendered,
            at,
            &mut samples[..count],
            &mut bytes[..count * sample_bytes],
        )?;
        at += next;
    }
    Ok(())
}

// How many whole frames a piece has room for.
fn frames_in_a_piece(channels: usize) -> u64
    requires low { 1 ≤ channels }
    requires high { channels ≤ 32 }
    ensures some { 1 ≤ result }
    ensures room { result * channels ≤ 21845 }
{
    (PIECE / channels) as u64
}

// Adds as many samples as there is room for, from the frame `first` on.
fn append_piece<F: Files>(
    files: &mut F,
    reading: &Reading<'_>,
    rendered: &Rendered,
    first: u64,
    samples: &mut [Fix],
    bytes: &mut [u8],
) -> Result<(), EdgeErr>
    requires writable { IsWritable rendered.now }
    requires whole { length samples.old % rendered.now.spec.channels ≡ 0 }
    requires within { first * rendered.now.spec.channels + length samples.old ≤ rendered.now.spec.channels * rendered.now.spec.length }
    requires room { length bytes.old ≡ length samples.old * (reading.now.bits / 8) }
    ensures tells { F.tells files.new ≡ F.tells files.old }
    ensures all { OnOk result (IsTrue (F.tells files.old) → AppendsWhole (F.paths files.old) (F.paths files.new) reading.now.out
        (text.samples_bytes reading.now.bits (take (length samples.old) (drop (first * rendered.now.spec.channels) (interleaved rendered.now.spec rendered.now.samples))))) }
    ensures part { OnErr result (IsTrue (F.tells files.old) → AppendsPart (F.paths files.old) (F.paths files.new) reading.now.out
        (text.samples_bytes reading.now.bits (take (length samples.old) (drop (first * rendered.now.spec.channels) (interleaved rendered.now.spec rendered.now.samples))))) }
    ensures reads { F.read_faults files.new ≡ F.read_faults files.old }
    ensures later { F.write_faults files.old ≤ F.write_faults files.new }
    ensures cause { IsErrOf result EdgeErr.Failed → Rose (F.write_faults files.old) (F.write_faults files.new) }
{
    rendered.interleave(first, samples);
    frames_into(bytes, samples, reading.bits);
    append_all(files, reading.out, bytes)
}
