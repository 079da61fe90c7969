ghost use Rattle.std.specs.Prelude.{◌≡◌, ◌≤◌, ◌+◌, ◌<◌, ◌^◌, length};
ghost use Rattle.wav_io.specs.WavGrammar.{number_at};

use byteorder::{ByteOrder, LittleEndian};

/// The number of 16 bits at a place.
pub(crate) fn u16_at(bytes: &[u8], place: usize) -> u32
    requires { place + 2 ≤ length bytes.now }
    ensures value { result ≡ number_at 2 bytes.now place }
    ensures small { result < 2 ^ 16 }
{
    u32::from(LittleEndian::read_u16(&bytes[place..place + 2]))
}

/// The number of 32 bits at a place.
pub(crate) fn u32_at(bytes: &[u8], place: usize) -> u32
    requires { place + 4 ≤ length bytes.now }
    ensures { result ≡ number_at 4 bytes.now place }
{
    LittleEndian::read_u32(&bytes[place..place + 4])
}
