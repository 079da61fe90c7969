ghost use Rattle.std.specs.Prelude.{◌≡◌, ◌<◌, ◌≤◌, ◌+◌, ◌-◌, ◌*◌, ◌++◌, length, take, drop, min, IfOk, OnOk, OnErr};
ghost use Rattle.buffer_store.specs.Buffers as spec;

use std::alloc::Global;
use wa_base::{Channel, Fix, NoMemory, PagedSamples};

/// What a buffer has besides its samples.
#[derive(Clone, Copy, PartialEq, Eq)]
pub struct Shape {
    /// The number of channels (numberOfChannels), from 1 to 32.
    pub channels: u32,
    /// The number of frames of each channel (length), at least 1.
    pub frames: u64,
    /// The frames a second (sampleRate).
    pub rate: u32,
    /// Whether a source acquired the buffer, so that it can't be written any more.
    pub frozen: bool,
}

/// A buffer (AudioBuffer).
#[derive(Drop)]
pub struct Buffer {
    pub shape: Shape,
    /// The samples, one channel after another.
    pub samples: PagedSamples,
}

impl Buffer {
    /// The samples of a channel.
    pub(crate) fn channel(&self, channel: u32) -> Channel<'_>
        requires buffer { spec.IsBuffer self.now }
        requires small { length self.now.samples ≤ 134217728 }
        requires channel { channel < self.now.shape.channels }
        ensures value { result ≡ spec.channel_of self.now channel }
        ensures small { length result ≤ 134217728 }
    {
        let frames = self.shape.frames as usize;
        self.samples.channel(channel as usize * frames, frames)
    }

    /// Writes samples of a channel from a frame on. What would lie past the channel's end is dropped.
    /// After `NoMemory` the buffer is as before.
    pub(crate) fn write(
        &mut self,
        alloc: Global,
        channel: u32,
        samples: &[Fix],
        at: u64,
    ) -> Result<(), NoMemory>
        requires buffer { spec.IsBuffer self.old }
        requires small { length self.old.samples ≤ 134217728 }
        requires channel { channel < self.old.shape.channels }
        ensures ok { OnOk result (self.new ≡ spec.with_written channel samples.now at self.old) }
        ensures err { OnErr result (self.new ≡ self.old) }
    {
        if at >= self.shape.frames {
            return Ok(());
        }
        let room = (self.shape.frames - at) as usize;
        let start = channel as usize * self.shape.frames as usize + at as usize;
        let count = samples.len().min(room);
        self.samples.write(alloc, start, &samples[..count])?;
        Ok(())
    }

    /// An equal buffer, which shares the samples.
    pub(crate) fn share(&self) -> Result<Buffer, NoMemory>
        ensures { IfOk result (λ other. other ≡ self.now) }
    {
        Ok(Buffer {
            shape: self.shape,
            samples: self.samples.share()?,
        })
    }
}
