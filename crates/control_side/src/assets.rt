ghost use Rattle.std.specs.Prelude.{◌≡◌, ◌≤◌, IfOk, Ok, None};
ghost use Rattle.io_edge.specs.Fetch.{IsWithin};
ghost use Rattle.wav_io.specs.WavGrammar.{head_of, wav_of};
ghost use Rattle.control_side.specs.Assets as spec;
ghost use Rattle.control_side.specs.Assets.{IsFit};

use crate::control::Control;
use crate::decide::Decided;
use io_edge::Fetched;
use meaning::{BufferEdit, Edit};
use std::alloc::Global;
use transcript::Answer;
use wa_base::{Exc, Feature, NoMemory};
use wav_io::{Head, WavErr, decode, head_of};

// What decodeAudioData comes to (the BaseAudioContext interface).
impl Control {
    // What comes of a file, or of none. Its bytes are dropped once the samples are there. Nothing is
    // changed.
    pub(crate) fn decode(&self, alloc: Global, asset: Fetched) -> Result<Decided, NoMemory>
        requires { IsWithin spec.max_asset asset }
        ensures decided { IfOk result (λ decided. decided ≡ spec.decodes self.now (spec.found_of asset)) }
        ensures fits { IfOk result (IsFit self.now) }
    {
        let bytes = match asset {
            Fetched::Bytes(bytes) => bytes,
            Fetched::Missing => return Ok(rejected(Exc::NotFound)),
            Fetched::TooLong(_) => {
                return Ok(rejected(Exc::NotSupported(Some(Feature::AssetSize))));
            }
        };
        match head_of(bytes.as_slice()) {
            Ok(head) => match self.head_refusal(head) {
                Some(exc) => Ok(rejected(exc)),
                None => self.decode_samples(alloc, bytes.as_slice(), head),
            },
            Err(_) => Ok(rejected(Exc::Encoding)),
        }
    }

    // Why a recording does not become a buffer, whatever its samples are.
    fn head_refusal(&self, head: Head) -> Option<Exc>
        requires { (1 ≤ head.channels) × (head.channels ≤ 32) }
        ensures { result ≡ spec.head_refusal self.now head }
    {
        if head.rate != self.spec().rate {
            return Some(Exc::NotSupported(Some(Feature::Resampling)));
        }
        self.world().store.limit_refusal(head.channels, head.frames)
    }

    // The samples of a file become a buffer.
    fn decode_samples(&self, alloc: Global, bytes: &[u8], head: Head) -> Result<Decided, NoMemory>
        requires head { head_of bytes.now ≡ Ok head }
        requires accepted { spec.head_refusal self.now head ≡ None }
        ensures decided { IfOk result (λ decided. decided ≡ spec.by_reading self.now (wav_of bytes.now)) }
        ensures fits { IfOk result (IsFit self.now) }
    {
        match decode(alloc, bytes) {
            Ok(wav) => Ok(Decided::Change(Edit::Buffers {
                edit: BufferEdit::Adopt { wav },
            })),
            Err(WavErr::NoMemory) => Err(NoMemory),
            Err(_) => Ok(rejected(Exc::Encoding)),
        }
    }
}

// A promise that is rejected.
fn rejected(exc: Exc) -> Decided
    ensures { result ≡ spec.rejected exc }
{
    Decided::Answer(Answer::Rejected(exc))
}
