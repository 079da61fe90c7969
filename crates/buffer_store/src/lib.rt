//! The buffers of a session (AudioBuffer): their samples, and which of them may still be written.
#![tactic(auto)]

ghost use Rattle.buffer_store.specs.BufferLaws.{WritingLaw};

mod buffers;
mod store;
mod wav;

pub use buffers::{Buffer, Shape};
pub use store::Store;
pub use wav::Wav;

/// Writing a channel changes its frames from one on, as many as were handed in and are there, and no
/// other channel.
pub fn writing_law()
    ensures { WritingLaw }
{}
