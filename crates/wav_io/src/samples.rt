ghost use Rattle.std.specs.Prelude.{◌≡◌, ◌*◌, ◌/◌, ◌⊎◌, length};
ghost use Rattle.wav_io.specs.WavText.{sample_of, samples_bytes};

use byteorder::{ByteOrder, LittleEndian};
use wa_base::Fix;

/// The bytes of a sample of 16 bits.
const LEN_16: usize = 2;

/// A sample of 16 bits is worth 2^9 steps of a `Fix`.
const STEP_BITS_16: u32 = 9;

const HALF_STEP_16: Fix = 256;

const LOWEST_16: i32 = -32_768;

const HIGHEST_16: i32 = 32_767;

/// The bytes of a sample of 24 bits.
const LEN_24: usize = 3;

/// A sample of 24 bits is worth 2^1 steps of a `Fix`.
const STEP_BITS_24: u32 = 1;

const HALF_STEP_24: Fix = 1;

const LOWEST_24: i32 = -8_388_608;

const HIGHEST_24: i32 = 8_388_607;

/// Writes the sample of each value of `rows`, which has them frame by frame, and within a frame
/// channel by channel. The value v stands for v / 2^24. A file may be written in pieces, each by a
/// call of its own.
///
/// Nothing is allocated. The layout is that of "RIFF/WAVE PCM, Multimedia Programming Interface and
/// Data Specifications 1.0".
pub fn frames_into(out: &mut [u8], rows: &[Fix], bits: u32)
    requires bits_known { (bits ≡ 16) ⊎ (bits ≡ 24) }
    requires room { length out.old ≡ length rows.now * (bits / 8) }
    ensures { out.new ≡ samples_bytes bits rows.now }
{
    if bits == 16 {
        write_16(out, rows);
    } else {
        write_24(out, rows);
    }
}

fn write_16(out: &mut [u8], rows: &[Fix])
    requires { length out.old ≡ length rows.now * 2 }
    ensures { out.new ≡ samples_bytes 16 rows.now }
{
    'samples: for i in 0..rows.len() {
        let start = LEN_16 * i;
        LittleEndian::write_i16(&mut out[start..start + LEN_16], sample_16(rows[i]));
    }
}

fn write_24(out: &mut [u8], rows: &[Fix])
    requires { length out.old ≡ length rows.now * 3 }
    ensures { out.new ≡ samples_bytes 24 rows.now }
{
    'samples: for i in 0..rows.len() {
        let start = LEN_24 * i;
        LittleEndian::write_i24(&mut out[start..start + LEN_24], sample_24(rows[i]));
    }
}

fn sample_16(value: Fix) -> i16
    ensures { result ≡ sample_of 16 value }
{
    let nearest = value.saturating_add(HALF_STEP_16) >> STEP_BITS_16;
    nearest.clamp(LOWEST_16, HIGHEST_16) as i16
}

fn sample_24(value: Fix) -> i32
    ensures { result ≡ sample_of 24 value }
{
    let nearest = value.saturating_add(HALF_STEP_24) >> STEP_BITS_24;
    nearest.clamp(LOWEST_24, HIGHEST_24)
}
