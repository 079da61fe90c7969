use std::alloc::{AllocError, AllocFailed};
use thiserror::Error;
use wa_base::NoMemory;

/// What a WAV file of PCM samples holds, without the samples.
#[derive(Clone, Copy, Debug, PartialEq, Eq)]
pub struct Head {
    /// The frames a second. Any number of 32 bits can stand in a file, 0 too.
    pub rate: u32,
    /// The number of channels, from 1 to 32.
    pub channels: u32,
    /// The number of frames, at least 1.
    pub frames: u64,
}

/// Why bytes are no WAV file of PCM samples: their first fault, with its place in bytes from the start
/// of the file.
#[derive(Clone, Copy, Debug, PartialEq, Eq, Error)]
pub enum WavErr {
    /// The first twelve bytes are not RIFF, a size and WAVE. The place is 0.
    #[error("no RIFF/WAVE file (at byte {0})")]
    NotRiff(u64),
    /// There is no format chunk, and the place is where the chunks end; or the first one has fewer
    /// than 16 bytes in the file, and the place is that chunk.
    #[error("no format chunk (at byte {0})")]
    NoFormat(u64),
    /// The format's tag, at this place, is not that of PCM samples.
    #[error("unknown format tag (at byte {0})")]
    UnknownTag(u64),
    /// The number of bits, at this place, is not 8, 16, 24 or 32.
    #[error("unknown number of bits (at byte {0})")]
    BadBits(u64),
    /// The channels, at this place, are not 1 to 32, or do not fit the size of a block.
    #[error("channels that do not fit (at byte {0})")]
    BadShape(u64),
    /// There is no data chunk, and the place is where the chunks end; or the first one has no whole
    /// block, and the place is that chunk.
    #[error("no samples (at byte {0})")]
    NoData(u64),
    /// A data chunk, at this place, comes before the format chunk.
    #[error("data before the format (at byte {0})")]
    DataFirst(u64),
    /// Memory ran out.
    #[error("out of memory")]
    NoMemory,
}

impl From<NoMemory> for WavErr {
    ghost use Rattle.std.specs.Prelude.{◌≡◌};
    ghost use Rattle.wav_io.specs.declared.wav.WavErr.TheVariants.{NoMemory as no_memory};

    ghost from_gives = { λ _ e. e ≡ no_memory };

    fn from(_: NoMemory) -> WavErr {
        WavErr::NoMemory
    }
}
