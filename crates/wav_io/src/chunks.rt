ghost use Rattle.std.specs.Prelude.{◌≡◌, ◌≤◌, ◌*◌, ◌⊎◌, length};
ghost use Rattle.wav_io.specs.WavText.{header_bytes, riff_bytes, format_bytes, data_bytes};

use byteorder::{ByteOrder, LittleEndian};

/// The place of the format chunk in the header.
const FORMAT_START: usize = 12;

/// The place of the data chunk.
const DATA_START: usize = 36;

const HEADER_LEN: usize = 44;

/// The bytes of the header that come after the RIFF size.
const AFTER_RIFF_SIZE: u32 = 36;

/// The bytes of the format chunk that come after its size.
const FORMAT_SIZE: u32 = 16;

/// The format tag of PCM samples.
const PCM: u16 = 1;

/// The header of a file of PCM samples, all that stands before the first sample: `rate` frames a
/// second, and `bits` for each of the `channels` samples of a frame. Where the samples take an odd
/// number of bytes, one zero byte has to follow them, which the RIFF size counts and the data size
/// does not.
///
/// Nothing is allocated. The layout is that of "RIFF/WAVE PCM, Multimedia Programming Interface and
/// Data Specifications 1.0".
#[tactic(auto, unfolding(crate::specs::WavText::header_bytes))]
pub fn header(rate: u32, channels: u32, bits: u32, frames: u64) -> [u8; 44]
    requires channels_low { 1 ≤ channels }
    requires channels_high { channels ≤ 32 }
    requires rate_low { 8000 ≤ rate }
    requires rate_high { rate ≤ 96000 }
    requires frames_low { 1 ≤ frames }
    requires frames_high { frames ≤ 33554432 }
    requires samples_high { channels * frames ≤ 67108864 }
    requires bits_known { (bits ≡ 16) ⊎ (bits ≡ 24) }
    ensures { result ≡ header_bytes rate channels bits frames }
{
    let size = (frames * u64::from(channels) * u64::from(bits) / 8) as u32;
    let mut bytes = [0; HEADER_LEN];
    write_riff(&mut bytes[..FORMAT_START], size);
    write_format(
        &mut bytes[FORMAT_START..DATA_START],
        rate,
        channels as u16,
        bits as u16,
    );
    write_data(&mut bytes[DATA_START..], size);
    bytes
}

fn write_riff(out: &mut [u8], size: u32)
    requires room { length out.old ≡ 12 }
    requires size_high { size ≤ 201326592 }
    ensures { out.new ≡ riff_bytes size }
{
    out[0..4].copy_from_slice(b"RIFF");
    LittleEndian::write_u32(&mut out[4..8], AFTER_RIFF_SIZE + size + size % 2);
    out[8..12].copy_from_slice(b"WAVE");
}

fn write_format(out: &mut [u8], rate: u32, channels: u16, bits: u16)
    requires room { length out.old ≡ 24 }
    requires rate_high { rate ≤ 96000 }
    requires channels_high { channels ≤ 32 }
    requires bits_known { (bits ≡ 16) ⊎ (bits ≡ 24) }
    ensures { out.new ≡ format_bytes rate channels bits }
{
    let block_size = channels * bits / 8;
    let byte_rate = rate * u32::from(channels) * u32::from(bits) / 8;
    out[0..4].copy_from_slice(b"fmt ");
    LittleEndian::write_u32(&mut out[4..8], FORMAT_SIZE);
    LittleEndian::write_u16(&mut out[8..10], PCM);
    LittleEndian::write_u16(&mut out[10..12], channels);
    LittleEndian::write_u32(&mut out[12..16], rate);
    LittleEndian::write_u32(&mut out[16..20], byte_rate);
    LittleEndian::write_u16(&mut out[20..22], block_size);
    LittleEndian::write_u16(&mut out[22..24], bits);
}

fn write_data(out: &mut [u8], size: u32)
    requires { length out.old ≡ 8 }
    ensures { out.new ≡ data_bytes size }
{
    out[0..4].copy_from_slice(b"data");
    LittleEndian::write_u32(&mut out[4..8], size);
}
