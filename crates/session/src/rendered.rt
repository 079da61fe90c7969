ghost use Rattle.std.specs.Prelude.{◌≡◌, ◌≢◌, ◌≤◌, ◌<◌, ◌+◌, ◌*◌, ◌%◌, ℕ, pos, length, take, drop, slice_index_or};
ghost use Rattle.session.specs.Rows.{interleaved};

use wa_base::{ContextSpec, Fix, Samples};

/// What a session rendered. Its samples stand channel after channel, `spec.length` of them for each.
#[derive(Drop)]
pub struct Rendered {
    pub spec: ContextSpec,
    pub samples: Samples,
}

impl Rendered {
    /// Writes frames into `piece`, one after another, from frame `first` on. A frame has a sample for each
    /// channel, in the channels' order. A sample `v` stands for the value v / 2^24.
    ///
    /// `piece` holds whole frames, at most those from `first` to the end.
    pub fn interleave(&self, first: u64, piece: &mut [Fix])
        requires channels { 1 ≤ self.now.spec.channels }
        requires long { length self.now.samples ≡ self.now.spec.channels * self.now.spec.length }
        requires whole { length piece.old % self.now.spec.channels ≡ 0 }
        requires within { first * self.now.spec.channels + length piece.old ≤ self.now.spec.channels * self.now.spec.length }
        ensures { piece.new ≡ take (length piece.old) (drop (first * self.now.spec.channels) (interleaved self.now.spec self.now.samples)) }
    {
        let samples = self.samples.as_slice();
        let channels = self.spec.channels as usize;
        if channels == 1 {
            let start = first as usize;
            piece.copy_from_slice(&samples[start..start + piece.len()]);
            return;
        }
        let frames = piece.len() / channels;
        for channel in 0..channels {
            let start = channel * self.spec.length as usize + first as usize;
            place_channel(&samples[start..start + frames], channel, channels, piece);
        }
    }
}

// Writes a channel's samples, each into its place in a frame of so many channels.
fn place_channel(samples: &[Fix], channel: usize, channels: usize, piece: &mut [Fix])
    requires channel { channel < channels }
    requires whole { length piece.old ≡ length samples.now * channels }
    ensures written { (frame : ℕ) → frame < length samples.now → slice_index_or piece.new (frame * channels + channel) (pos 0) ≡ slice_index_or samples.now frame (pos 0) }
    ensures kept { (place : ℕ) → place % channels ≢ channel → slice_index_or piece.new place (pos 0) ≡ slice_index_or piece.old place (pos 0) }
{
    let mut place = channel;
    for sample in samples {
        piece[place] = *sample;
        place += channels;
    }
}
