ghost use Rattle.std.specs.Prelude.{◌≡◌, ◌↔◌, ◌<◌, ◌≤◌, ◌+◌, ◌*◌, ◌∷◌, ◌++◌, [], Some, None, length, slice_get, IfOk, IsErrOf, OnOk, OnErr};
ghost use Rattle.buffer_store.specs.Recordings.{IsRecording};
ghost use Rattle.buffer_store.specs.Buffers as spec;
ghost use Rattle.buffer_store.specs.Buffers.{IsBuffer};

use crate::buffers::{Buffer, Shape};
use crate::wav::Wav;
use std::alloc::Global;
use std::marker::Model;
use wa_base::{BufId, Channel, Exc, Feature, Fix, NoMemory, PagedSamples, Refusal};

const MAX_CHANNELS: u32 = 32;

const MIN_RATE: u32 = 8_000;

const MAX_RATE: u32 = 96_000;

/// The most samples in all buffers together.
const MAX_SAMPLES: u64 = 134_217_728;

/// The buffers of a session, in order of creation. Contracts see them as the list of buffers.
///
/// A buffer is never removed. All buffers have at most 134,217,728 samples together.
#[derive(Drop)]
pub struct Store {
    buffers: Vec<Buffer>,
    // The number of samples in all buffers.
    total: u64,
}

impl Model for Store {
    ghost use Rattle.std.specs.Prelude.{◌≡◌, List};
    ghost use Rattle.buffer_store.specs.declared.buffers.Buffer.{Buffer};
    ghost use Rattle.buffer_store.specs.Buffers.{AreBuffers, total_of};

    ghost Value = { List Buffer };

    ghost view = { λ s. s.buffers.items };

    ghost invariant = { λ s. AreBuffers s.buffers.items × (s.total ≡ total_of s.buffers.items) };
}

impl Store {
    /// A store without a buffer, which takes no memory until it grows.
    pub fn new(alloc: Global) -> Store
        ensures { result ≡ [] }
    {
        Store {
            buffers: Vec::new(alloc),
            total: 0,
        }
    }

    /// Creates a buffer of silence (createBuffer). Its number is the count of the buffers that were
    /// there before.
    ///
    /// It is refused with NotSupportedError for no channel or more than 32, for no frame, and for a
    /// rate outside 8,000 to 96,000; then with the feature `buffer-limit` where all buffers would have
    /// more than 134,217,728 samples. After a refusal, and after `NoMemory`, the buffers are as before.
    pub fn create(&mut self, channels: u32, frames: u64, rate: u32) -> Result<BufId, Refusal>
        ensures id { IfOk result (λ id. id.0 ≡ length self.old) }
        ensures buffers { OnOk result (self.new ≡ self.old ++ spec.silence channels frames rate ∷ []) }
        ensures accepted { OnOk result (spec.creation_refusal self.old channels frames rate ≡ None) }
        ensures refused { (exc : Exc) → IsErrOf result (Refusal.Exc exc) ↔ (spec.creation_refusal self.old channels frames rate ≡ Some exc) }
        ensures err { OnErr result (self.new ≡ self.old) }
    {
        if let Some(exc) = self.creation_refusal(channels, frames, rate) {
            return Err(Refusal::Exc(exc));
        }
        let shape = Shape {
            channels,
            frames,
            rate,
            frozen: false,
        };
        let samples = PagedSamples::silence(channels as usize * frames as usize);
        Ok(self.push(Buffer { shape, samples })?)
    }

    /// The exception with which `create` would refuse a buffer now.
    pub fn creation_refusal(&self, channels: u32, frames: u64, rate: u32) -> Option<Exc>
        ensures { result ≡ spec.creation_refusal self.now channels frames rate }
    {
        if channels == 0
            || channels > MAX_CHANNELS
            || frames == 0
            || rate < MIN_RATE
            || rate > MAX_RATE
        {
            return Some(Exc::NotSupported(None));
        }
        self.limit_refusal(channels, frames)
    }

    /// The exception with which a buffer of so many channels and frames would be refused now for its size
    /// alone: NotSupportedError with the feature `buffer-limit` where all buffers would have more than
    /// 134,217,728 samples.
    pub fn limit_refusal(&self, channels: u32, frames: u64) -> Option<Exc>
        requires low { 1 ≤ channels }
        requires high { channels ≤ 32 }
        ensures { result ≡ spec.limit_refusal self.now channels frames }
    {
        if frames > MAX_SAMPLES || self.total + u64::from(channels) * frames > MAX_SAMPLES {
            return Some(Exc::NotSupported(Some(Feature::BufferLimit)));
        }
        None
    }

    /// Makes a new buffer of a recording (decodeAudioData), which shares its samples.
    ///
    /// It is refused with NotSupportedError and the feature `buffer-limit` where all buffers would have
    /// more than 134,217,728 samples. After a refusal, and after `NoMemory`, the buffers are as before.
    pub fn adopt(&mut self, wav: &Wav) -> Result<BufId, Refusal>
        requires { IsRecording wav.now }
        ensures id { IfOk result (λ id. id.0 ≡ length self.old) }
        ensures buffers { OnOk result (self.new ≡ self.old ++ spec.recorded wav.now ∷ []) }
        ensures accepted { OnOk result (spec.adoption_refusal self.old wav.now ≡ None) }
        ensures refused { (exc : Exc) → IsErrOf result (Refusal.Exc exc) ↔ (spec.adoption_refusal self.old wav.now ≡ Some exc) }
        ensures err { OnErr result (self.new ≡ self.old) }
    {
        if let Some(exc) = self.adoption_refusal(wav) {
            return Err(Refusal::Exc(exc));
        }
        let shape = Shape {
            channels: wav.channels,
            frames: wav.frames,
            rate: wav.rate,
            frozen: false,
        };
        let samples = PagedSamples::shared(wav.samples.share()?);
        Ok(self.push(Buffer { shape, samples })?)
    }

    // Appends a buffer, for whose samples there is room.
    fn push(&mut self, buffer: Buffer) -> Result<BufId, NoMemory>
        requires buffer { IsBuffer buffer }
        requires room { spec.limit_refusal self.old buffer.shape.channels buffer.shape.frames ≡ None }
        ensures id { IfOk result (λ id. id.0 ≡ length self.old) }
        ensures buffers { OnOk result (self.new ≡ self.old ++ buffer ∷ []) }
        ensures err { OnErr result (self.new ≡ self.old) }
    {
        self.buffers.reserve(1).map_err(NoMemory::from)?;
        let id = BufId(self.buffers.len() as u32);
        self.total += buffer.samples.len() as u64;
        self.buffers.push_reserved(buffer);
        Ok(id)
    }

    /// The exception with which `adopt` would refuse a recording now.
    pub fn adoption_refusal(&self, wav: &Wav) -> Option<Exc>
        requires { IsRecording wav.now }
        ensures { result ≡ spec.adoption_refusal self.now wav.now }
    {
        self.limit_refusal(wav.channels, wav.frames)
    }

    /// Writes samples of a channel from the frame `at` on (copyToChannel). What would lie past the end
    /// of the buffer is dropped. It takes memory for what is written, and leaves what others share.
    ///
    /// It is refused with IndexSizeError where the buffer has no such channel, then with
    /// NotSupportedError and the feature `buffer-acquired` where it is frozen. After a refusal, and after
    /// `NoMemory`, the buffers are as before.
    pub fn write_channel(
        &mut self,
        buf: BufId,
        channel: u32,
        samples: &[Fix],
        at: u64,
    ) -> Result<(), Refusal>
        requires { buf.0 < length self.old }
        ensures accepted { OnOk result (spec.refusal_at self.old buf.0 (spec.write_refusal channel) ≡ None) }
        ensures refused { (exc : Exc) → IsErrOf result (Refusal.Exc exc) ↔ (spec.refusal_at self.old buf.0 (spec.write_refusal channel) ≡ Some exc) }
        ensures ok { OnOk result (self.new ≡ spec.changed_at buf.0 (spec.with_written channel samples.now at) self.old) }
        ensures err { OnErr result (self.new ≡ self.old) }
    {
        if let Some(exc) = self.write_refusal(buf, channel) {
            return Err(Refusal::Exc(exc));
        }
        let alloc = *self.buffers.allocator();
        self.buffers[buf.0 as usize].write(alloc, channel, samples, at)?;
        Ok(())
    }

    /// The exception with which `write_channel` would refuse a channel of a buffer now.
    pub fn write_refusal(&self, buf: BufId, channel: u32) -> Option<Exc>
        requires { buf.0 < length self.now }
        ensures { result ≡ spec.refusal_at self.now buf.0 (spec.write_refusal channel) }
    {
        let shape = self.shape(buf);
        if channel >= shape.channels {
            return Some(Exc::IndexSize);
        }
        if shape.frozen {
            return Some(Exc::NotSupported(Some(Feature::BufferAcquired)));
        }
        None
    }

    /// Makes a buffer one that can't be written any more.
    pub fn freeze(&mut self, buf: BufId)
        requires { buf.0 < length self.old }
        ensures { self.new ≡ spec.changed_at buf.0 spec.frozen self.old }
    {
        self.buffers[buf.0 as usize].shape.frozen = true;
    }

    /// What a buffer has besides its samples.
    pub fn shape(&self, buf: BufId) -> Shape
        requires { buf.0 < length self.now }
        ensures value { spec.shape_at self.now buf.0 ≡ Some result }
        ensures channels { (1 ≤ result.channels) × (result.channels ≤ 32) }
        ensures frames { 1 ≤ result.frames }
    {
        self.buffers[buf.0 as usize].shape
    }

    /// The samples of a channel of a buffer.
    pub fn channel(&self, buf: BufId, channel: u32) -> Channel<'_>
        requires there { spec.HasChannel self.now buf.0 channel }
        ensures value { spec.channel_at self.now buf.0 channel ≡ Some result }
        ensures small { length result ≤ 134217728 }
    {
        self.buffers[buf.0 as usize].channel(channel)
    }

    /// The number of buffers.
    pub fn len(&self) -> u32
        ensures value { result ≡ length self.now }
        ensures buffers { spec.AreBuffers self.now }
    {
        self.buffers.len() as u32
    }

    /// Equal buffers, which share their samples.
    pub fn copy(&self) -> Result<Store, NoMemory>
        ensures { IfOk result (λ copy. copy ≡ self.now) }
    {
        let buffers = share_all(*self.buffers.allocator(), self.buffers.as_slice())?;
        Ok(Store {
            buffers,
            total: self.total,
        })
    }
}

// Equal buffers, in their order.
fn share_all(alloc: Global, buffers: &[Buffer]) -> Result<Vec<Buffer>, NoMemory>
    ensures { IfOk result (λ shared. shared.items ≡ buffers.now) }
{
    let mut shared = Vec::with_capacity(alloc, buffers.len())?;
    for buffer in buffers {
        shared.push_reserved(buffer.share()?);
    }
    Ok(shared)
}
