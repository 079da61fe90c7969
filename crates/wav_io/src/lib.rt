//! WAV files of PCM samples: the header of a file and the bytes of its samples, and their reading.
#![tactic(auto)]

ghost use Rattle.wav_io.specs.WavLaw.{ChunksLaw, ReadsBackLaw};

mod chunk_walk;
mod chunks;
mod format_chunk;
mod numbers;
mod reading;
mod samples;
mod values;
mod wav;

pub use buffer_store::Wav;
pub use chunks::header;
pub use reading::{decode, head_of};
pub use samples::frames_into;
pub use wav::{Head, WavErr};

/// The list of a file's chunks goes on wherever the file has eight bytes for another one.
pub fn chunks_law()
    ensures { ChunksLaw }
{}

/// What is written with 24 bits is read again: each value is twice the sample that was written.
pub fn reads_back_law()
    ensures { ReadsBackLaw }
{}
