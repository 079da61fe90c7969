ghost use Rattle.std.specs.Prelude.{◌≡◌, Option, IfOk};
ghost use Rattle.script_ast.specs.Operations.{interface_of};
ghost use Rattle.meaning.specs.Sources.{IsBufferOf};
ghost use Rattle.control_side.specs.Deciding.{by_found, with_buffer};
ghost use Rattle.control_side.specs.Step as spec;

use crate::control::Control;
use crate::decide::{Decided, refused};
use meaning::{BufferEdit, Edit};
use sched_source::Loop;
use script_ast::{Interface, Op};
use wa_base::{BufId, Exc, Fix, Name, NoMemory, ONE, Samples};

// What the operations on buffers come to, and the creation of a node with one (the AudioBuffer
// interface).
impl Control {
    #[tactic(auto, unfolding(crate::specs::Step::decided))]
    pub(crate) fn decide_on_buffer(&self, op: &Op) -> Result<Decided, NoMemory>
        requires { interface_of op.now ≡ Interface.Buffer }
        ensures { IfOk result (λ decided. decided ≡ spec.decided self.now op.now) }
    {
        match op {
            Op::CreateConvolver {
                buffer,
                disable_normalization,
                ..
            } => Ok(self.create_convolver(buffer, *disable_normalization)),
            Op::CreateBufferSource {
                buffer,
                looping,
                loop_start,
                loop_end,
                playback_rate,
                ..
            } => {
                let points = Loop {
                    on: *looping,
                    first: *loop_start,
                    end: *loop_end,
                };
                Ok(self.create_source(buffer, *playback_rate, points))
            }
            Op::CreateBuffer {
                channels,
                length,
                rate,
                ..
            } => Ok(self.create_buffer(*channels, *length, *rate)),
            Op::CopyToChannel {
                buffer,
                channel,
                samples,
                at,
            } => self.write(buffer, *channel, samples, *at),
            _ => unreachable!(),
        }
    }

    fn create_source(&self, buffer: &Option<Name>, rate: Fix, points: Loop) -> Decided
        ensures { result ≡ spec.edits_with_buffer self.now buffer.now (λ source. Edit.CreateBufferSource (spec.rate_of rate) source points) }
    {
        match self.given_buffer(buffer) {
            Ok(buffer) => self.edits(Edit::CreateBufferSource {
                rate: rate_of(rate),
                buffer,
                points,
            }),
            Err(exc) => refused(exc),
        }
    }

    // The buffer for which a name is given, if one is, or why there is none.
    pub(crate) fn given_buffer(&self, name: &Option<Name>) -> Result<Option<BufId>, Exc>
        ensures decided { (what : Option BufId → Decided) → with_buffer self.now name.now what ≡ by_found result what }
        ensures there { IfOk result (IsBufferOf self.now.world.store) }
    {
        let Some(name) = name else {
            return Ok(None);
        };
        match self.buffer_named(name) {
            Some(buffer) => Ok(Some(buffer)),
            None => Err(Exc::WrongType),
        }
    }

    fn create_buffer(&self, channels: u32, frames: u32, rate: u32) -> Decided
        ensures { result ≡ spec.edits self.now (Edit.Buffers (BufferEdit.Create channels frames rate)) }
    {
        self.edits(Edit::Buffers {
            edit: BufferEdit::Create {
                channels,
                frames: u64::from(frames),
                rate,
            },
        })
    }

    fn write(
        &self,
        buffer: &Name,
        channel: u32,
        samples: &Samples,
        first: u32,
    ) -> Result<Decided, NoMemory>
        ensures { IfOk result (λ decided. decided ≡ spec.edits_buffer self.now (spec.buffer_named self.now buffer.now) (λ written. Edit.Buffers (BufferEdit.Write written channel samples.now first))) }
    {
        let Some(buffer) = self.buffer_named(buffer) else {
            return Ok(refused(Exc::WrongType));
        };
        Ok(self.edits(Edit::Buffers {
            edit: BufferEdit::Write {
                buffer,
                channel,
                samples: samples.copy()?,
                first: u64::from(first),
            },
        }))
    }
}

// The whole frames of a playbackRate, 0 where it is none.
fn rate_of(rate: Fix) -> u32
    ensures { result ≡ spec.rate_of rate }
{
    if rate > 0 && rate % ONE == 0 {
        (rate / ONE) as u32
    } else {
        0
    }
}
