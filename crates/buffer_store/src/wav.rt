use wa_base::SharedSamples;

/// What a WAV file of PCM samples holds.
#[derive(Drop)]
pub struct Wav {
    /// The frames a second. Any number of 32 bits can stand in a file, 0 too.
    pub rate: u32,
    /// The number of channels, from 1 to 32.
    pub channels: u32,
    /// The number of frames, at least 1.
    pub frames: u64,
    /// The samples, one channel after another. The value v stands for v / 2^24.
    pub samples: SharedSamples,
}
