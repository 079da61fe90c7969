ghost use Rattle.std.specs.Prelude.{◌≡◌, None, IsOk, IsErr, OnOk, OnErr, IsErrOf};
ghost use Rattle.wa_base.specs.declared.exceptions.Exc.{Exc as an_exception};
ghost use Rattle.wa_base.specs.declared.exceptions.Refusal.TheVariants as refusal;
ghost use Rattle.meaning.specs.Sources as spec;
ghost use Rattle.meaning.specs.World.{plain};

use crate::world::World;
use buffer_store::Wav;
use wa_base::{BufId, Exc, NoMemory, Refusal, Samples};

/// What a control call edits in the buffers.
#[derive(Drop)]
pub enum BufferEdit {
    /// A silent buffer is created (BaseAudioContext.createBuffer).
    Create {
        channels: u32,
        frames: u64,
        rate: u32,
    },
    /// A recording that was decoded becomes a buffer (BaseAudioContext.decodeAudioData).
    Adopt {
        wav: Wav,
    },
    /// A channel is written from a frame on (AudioBuffer.copyToChannel).
    Write {
        buffer: BufId,
        channel: u32,
        samples: Samples,
        first: u64,
    },
}

impl World {
    // Why an edit of the buffers is refused.
    pub(crate) fn buffers_refusal(&self, edit: &BufferEdit) -> Option<Exc>
        requires { spec.IsEditOf self.now.store edit.now }
        ensures { result ≡ spec.buffers_refusal self.now.store edit.now }
    {
        match edit {
            BufferEdit::Create {
                channels,
                frames,
                rate,
            } => self.store.creation_refusal(*channels, *frames, *rate),
            BufferEdit::Adopt { wav } => self.store.adoption_refusal(wav),
            BufferEdit::Write {
                buffer,
                channel,
                ..
            } => self.store.write_refusal(*buffer, *channel),
        }
    }

    // Makes an edit of the buffers that is accepted.
    pub(crate) fn edit_buffers(&mut self, edit: &BufferEdit) -> Result<(), NoMemory>
        requires named { spec.IsEditOf self.old.store edit.now }
        requires accepted { spec.buffers_refusal self.old.store edit.now ≡ None }
        ensures ok { OnOk result (plain self.new ≡ spec.with_store (plain self.old) (spec.buffers_edited self.old.store edit.now)) }
        ensures err { OnErr result (plain self.new ≡ plain self.old) }
        ensures graph { self.new.graph ≡ self.old.graph }
    {
        match edit {
            BufferEdit::Create {
                channels,
                frames,
                rate,
            } => made(self.store.create(*channels, *frames, *rate)),
            BufferEdit::Adopt { wav } => made(self.store.adopt(wav)),
            BufferEdit::Write {
                buffer,
                channel,
                samples,
                first,
            } => made(
                self.store
                    .write_channel(*buffer, *channel, samples.as_slice(), *first),
            ),
        }
    }
}

// An edit that the world accepts fails only for want of memory.
fn made<T: Copy>(edited: Result<T, Refusal>) -> Result<(), NoMemory>
    requires accepted { (exc : an_exception) → IsErrOf edited (refusal.Exc exc) → ⊥ }
    ensures ok { OnOk result (IsOk edited) }
    ensures err { OnErr result (IsErr edited) }
{
    match edited {
        Ok(_) => Ok(()),
        Err(Refusal::NoMemory) => Err(NoMemory),
        Err(Refusal::Exc(_)) => unreachable!(),
    }
}
