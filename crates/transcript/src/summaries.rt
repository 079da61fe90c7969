ghost use Rattle.std.specs.Prelude.{◌≡◌, ◌++◌, IfOk, OnOk};
ghost use Rattle.transcript.specs.Summary as spec;

use crate::lines::{Answer, EndWord, Line, Lines};
use crate::loudness::Loudness;
use crate::printed::push_end;
use std::alloc::{AllocError, Global};
use wa_base::{Bytes, NoMemory};

impl Line {
    // Whether the line is the answer to a call.
    #[tactic(auto, unfolding(crate::specs::Summary::is_call))]
    fn is_call(&self) -> bool
        ensures { result ≡ spec.is_call self.now }
    {
        matches!(self, Line::Call(..))
    }

    // Whether the line tells that a source ended.
    #[tactic(auto, unfolding(crate::specs::Summary::is_end))]
    fn is_end(&self) -> bool
        ensures { result ≡ spec.is_end self.now }
    {
        matches!(self, Line::Ended(..))
    }

    // Whether the line tells that a call was refused.
    #[tactic(auto, unfolding(crate::specs::Summary::is_refusal))]
    fn is_refusal(&self) -> bool
        ensures { result ≡ spec.is_refusal self.now }
    {
        matches!(
            self,
            Line::Call(_, Answer::Throw(_)) | Line::Call(_, Answer::Rejected(_))
        )
    }
}

// How many lines are of a kind.
#[derive(Clone, Copy)]
struct Counts {
    calls: usize,
    ended: usize,
    refused: usize,
}

impl Counts {
    // The counts of lines: the calls that were run, the sources that ended, and the calls that were
    // refused.
    fn of(lines: &[Line]) -> Counts
        ensures calls { result.calls ≡ spec.count spec.is_call lines.now }
        ensures ended { result.ended ≡ spec.count spec.is_end lines.now }
        ensures refused { result.refused ≡ spec.count spec.is_refusal lines.now }
    {
        let mut calls = 0;
        let mut ended = 0;
        let mut refused = 0;
        for line in lines {
            calls += usize::from(line.is_call());
            ended += usize::from(line.is_end());
            refused += usize::from(line.is_refusal());
        }
        Counts {
            calls,
            ended,
            refused,
        }
    }
}

/// The summary of a session of so many quanta: how many calls were run, how many sources ended, how
/// many calls were refused and, where there are samples, how loud they are. The last line is the
/// transcript's.
pub fn summary(
    alloc: Global,
    lines: &Lines,
    quanta: u64,
    loudness: Option<Loudness>,
    end: &EndWord,
) -> Result<Bytes, NoMemory>
    ensures { IfOk result (λ bytes. bytes ≡ spec.summary_of lines.now.items quanta loudness end.now) }
{
    let mut out = Vec::from_slice(alloc, b"summary")?;
    let counts = Counts::of(lines.as_slice());
    push_work(alloc, &mut out, counts.calls, quanta)?;
    push_events(alloc, &mut out, counts.ended, counts.refused)?;
    push_loudness(alloc, &mut out, loudness)?;
    out.extend_from_slice(b"\n")?;
    push_end(alloc, &mut out, *end)?;
    Ok(Bytes::from(out))
}

// Appends how many calls were run, and how many quanta were rendered.
#[tactic(auto, unfolding(crate::specs::Summary::work_text))]
fn push_work(alloc: Global, out: &mut Vec<u8>, calls: usize, quanta: u64) -> Result<(), AllocError>
    ensures { OnOk result (out.new.items ≡ out.old.items ++ spec.work_text calls quanta) }
{
    let text = format!(in alloc; " calls {calls} quanta {quanta}")?;
    out.extend_from_slice(text.as_bytes())
}

// Appends how many sources ended, and how many calls were refused.
#[tactic(auto, unfolding(crate::specs::Summary::events_text))]
fn push_events(
    alloc: Global,
    out: &mut Vec<u8>,
    ended: usize,
    refused: usize,
) -> Result<(), AllocError>
    ensures { OnOk result (out.new.items ≡ out.old.items ++ spec.events_text ended refused) }
{
    let text = format!(in alloc; " ended {ended} refused {refused}")?;
    out.extend_from_slice(text.as_bytes())
}

// Appends how loud the samples are, where there are any.
#[tactic(auto, unfolding(crate::specs::Summary::loudness_text))]
fn push_loudness(
    alloc: Global,
    out: &mut Vec<u8>,
    loudness: Option<Loudness>,
) -> Result<(), AllocError>
    ensures { OnOk result (out.new.items ≡ out.old.items ++ spec.loudness_text loudness) }
{
    match loudness {
        Some(loudness) => {
            let text = format!(in alloc; " peak {} sum {}", loudness.peak, loudness.sum)?;
            out.extend_from_slice(text.as_bytes())
        }
        None => Ok(()),
    }
}
