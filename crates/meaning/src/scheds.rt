ghost use Rattle.std.specs.Prelude.{◌≡◌, ◌==◌, IfOk, option_and_then, slice_get};
ghost use Rattle.std.specs.List.{position};
ghost use Rattle.meaning.specs.Plays as plays;
ghost use Rattle.meaning.specs.World.{find_play, not_started};
ghost use Rattle.meaning.specs.declared.scheds.Play.{Play as play};

use crate::listed::Listed;
use sched_source::{Loop, Sched};
use wa_base::{BufId, NoMemory, NodeId};

/// A source with its schedule (AudioScheduledSourceNode), and a buffer source with its buffer.
#[derive(Clone, Copy)]
pub struct Play {
    pub id: NodeId,
    pub sched: Sched,
    /// The buffer (AudioBufferSourceNode.buffer).
    pub buffer: Option<BufId>,
    /// Whether a buffer was set before. It stays so where the buffer is taken away.
    pub was_set: bool,
}

/// A part of the loop of a buffer source, and its new value. Times are frames of the buffer.
#[derive(Clone, Copy)]
pub enum LoopPart {
    /// Whether it loops (AudioBufferSourceNode.loop).
    On(bool),
    /// Where the loop begins (AudioBufferSourceNode.loopStart).
    First(i64),
    /// Before where it ends (AudioBufferSourceNode.loopEnd).
    End(i64),
}

impl LoopPart {
    // The loop with this part.
    pub(crate) fn set_in(self, points: Loop) -> Loop
        ensures { result ≡ plays.with_part self points }
    {
        match self {
            LoopPart::On(on) => Loop { on, ..points },
            LoopPart::First(first) => Loop { first, ..points },
            LoopPart::End(end) => Loop { end, ..points },
        }
    }
}

impl Play {
    /// A source that was not started, and has no buffer.
    pub fn not_started(id: NodeId, sched: Sched) -> Play
        ensures { result ≡ not_started id.0 sched }
    {
        Play {
            id,
            sched,
            buffer: None,
            was_set: false,
        }
    }
}

/// The schedules of a world's sources.
pub type Scheds = Listed<Play>;

impl Listed<Play> {
    /// The place of a source's schedule. A list that lacks it has none.
    pub fn find(&self, id: NodeId) -> Option<usize>
        ensures place { result ≡ position (λ (p : play). p.id.0 == id.0) self.now.items }
        ensures item { option_and_then (slice_get self.now.items) result ≡ find_play self.now.items id.0 }
    {
        place_of(self.as_slice(), id)
    }

    /// A list of equal schedules, with memory of its own.
    pub fn copy(&self) -> Result<Scheds, NoMemory>
        ensures { IfOk result (λ copy. copy.items ≡ self.now.items) }
    {
        Ok(Listed::of(Vec::from_slice(self.alloc(), self.as_slice())?))
    }
}

// The place of the first schedule of a source.
fn place_of(plays: &[Play], id: NodeId) -> Option<usize>
    ensures { result ≡ position (λ (p : play). p.id.0 == id.0) plays.now }
{
    plays.iter().position(|p| p.id.0 == id.0)
}
