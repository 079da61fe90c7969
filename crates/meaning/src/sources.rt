ghost use Rattle.std.specs.Prelude.{◌≡◌, ◌≤◌, ◌^◌, None, Some};
ghost use Rattle.meaning.specs.declared.world.World.{World as a_world};
ghost use Rattle.meaning.specs.Plays as plays;
ghost use Rattle.meaning.specs.Sources as spec;
ghost use Rattle.meaning.specs.Validity.{IsValid};
ghost use Rattle.meaning.specs.World.{plain, find_play, frames_in};

use crate::scheds::{LoopPart, Play};
use crate::world::World;
use node_table::Kind;
use wa_base::{BufId, Exc, Feature, NodeId};

/// What a control call edits in a source. Times are frames.
#[derive(Clone, Copy)]
pub enum SourceEdit {
    /// It is started (AudioScheduledSourceNode.start).
    Start {
        when: i64,
        offset: i64,
        duration: Option<i64>,
    },
    /// It is stopped (AudioScheduledSourceNode.stop).
    Stop {
        when: i64,
    },
    /// Its buffer is set or taken away (AudioBufferSourceNode.buffer).
    SetBuffer {
        buffer: Option<BufId>,
    },
    /// A part of its loop is set (AudioBufferSourceNode.loop, loopStart, loopEnd).
    SetLoop {
        part: LoopPart,
    },
}

// Why an edit of a source is refused.
impl World {
    // A source with its schedule. Another node has none.
    fn play(&self, node: NodeId) -> Option<Play>
        ensures { result ≡ find_play self.now.scheds.items node.0 }
    {
        let place = self.scheds.find(node)?;
        Some(*self.scheds.at(place))
    }

    pub(crate) fn source_refusal(&self, node: NodeId, edit: SourceEdit) -> Option<Exc>
        requires { spec.IsNamedBy self.now.store edit }
        ensures { result ≡ spec.source_refusal (plain self.now) edit (find_play self.now.scheds.items node.0) }
    {
        let Some(play) = self.play(node) else {
            return Some(Exc::WrongType);
        };
        match edit {
            SourceEdit::Start {
                when,
                offset,
                duration,
            } => play.sched.start_refusal(when, offset, duration),
            SourceEdit::Stop { when } => play.sched.stop_refusal(when),
            SourceEdit::SetBuffer { buffer } => self.buffer_refusal(play, buffer),
            SourceEdit::SetLoop { .. } => loop_refusal(play),
        }
    }

    fn buffer_refusal(&self, play: Play, buffer: Option<BufId>) -> Option<Exc>
        requires { spec.IsBufferOf self.now.store buffer }
        ensures { result ≡ spec.buffer_refusal (plain self.now) buffer play }
    {
        if !play.sched.is_buffer() {
            return Some(Exc::WrongType);
        }
        if buffer.is_some() && play.was_set {
            return Some(Exc::InvalidState);
        }
        if play.sched.is_started() {
            return Some(Exc::NotSupported(Some(Feature::LateBuffer)));
        }
        self.resampling_refusal(buffer)
    }

    // No buffer is resampled.
    pub(crate) fn resampling_refusal(&self, buffer: Option<BufId>) -> Option<Exc>
        requires { spec.IsBufferOf self.now.store buffer }
        ensures { result ≡ spec.resampling_refusal (plain self.now) buffer }
    {
        let buffer = buffer?;
        if self.store.shape(buffer).rate == self.spec.rate {
            None
        } else {
            Some(Exc::NotSupported(Some(Feature::Resampling)))
        }
    }

    pub(crate) fn source_creation_refusal(&self, rate: u32, buffer: Option<BufId>) -> Option<Exc>
        requires { spec.IsBufferOf self.now.store buffer }
        ensures { result ≡ spec.source_creation_refusal (plain self.now) rate buffer }
    {
        let kind = Kind::Buffer { rate };
        if let Some(exc) = kind.range_refusal() {
            return Some(exc);
        }
        if let Some(exc) = self.resampling_refusal(buffer) {
            return Some(exc);
        }
        self.nodes.creation_refusal(&kind)
    }
}

// Only a buffer source that was not started may get another loop.
fn loop_refusal(play: Play) -> Option<Exc>
    ensures { result ≡ spec.loop_refusal play }
{
    if !play.sched.is_buffer() {
        return Some(Exc::WrongType);
    }
    if play.sched.is_started() {
        return Some(Exc::NotSupported(Some(Feature::LoopChange)));
    }
    None
}

// Edits of sources that the world accepts.
impl World {
    pub(crate) fn edit_source(&mut self, now: u64, node: NodeId, edit: SourceEdit)
        requires time { now ≤ 2 ^ 62 }
        requires valid { IsValid self.old }
        requires accepted { spec.source_refusal (plain self.old) edit (find_play self.old.scheds.items node.0) ≡ None }
        ensures edited { plain self.new ≡ spec.source_edited (plain self.old) now node.0 edit }
        ensures graph { self.new.graph ≡ self.old.graph }
    {
        let Some(place) = self.scheds.find(node) else {
            return;
        };
        let mut play = *self.scheds.at(place);
        let frames = self.frames_of(play.buffer);
        let acquired = acquires(edit, play);
        play.edit(now, edit, frames);
        *self.scheds.at_mut(place) = play;
        if let Some(buffer) = acquired {
            self.store.freeze(buffer);
        }
    }

    // The number of frames of a buffer, 0 where there is none.
    fn frames_of(&self, buffer: Option<BufId>) -> u64
        requires valid { IsValid self.now }
        requires buffer { spec.IsBufferOf self.now.store buffer }
        ensures value { result ≡ frames_in self.now.store buffer }
        ensures small { result ≤ 134217728 }
    {
        match buffer {
            Some(buffer) => self.store.shape(buffer).frames,
            None => 0,
        }
    }
}

// The buffer that a source acquires by an edit.
fn acquires(edit: SourceEdit, play: Play) -> Option<BufId>
    ensures { result ≡ plays.acquires edit play }
{
    match edit {
        SourceEdit::Start { .. } => play.buffer,
        SourceEdit::Stop { .. } | SourceEdit::SetBuffer { .. } | SourceEdit::SetLoop { .. } => None,
    }
}

impl Play {
    // Makes an edit that is accepted, over a buffer of so many frames.
    fn edit(&mut self, now: u64, edit: SourceEdit, frames: u64)
        requires time { now ≤ 2 ^ 62 }
        requires frames { frames ≤ 134217728 }
        requires accepted { (w : a_world) × (spec.source_refusal w edit (Some self.old) ≡ None) }
        ensures { self.new ≡ plays.play_edited frames now edit self.old }
    {
        match edit {
            SourceEdit::Start {
                when,
                offset,
                duration,
            } => {
                let _accepted = self.sched.start(now, when, offset, duration, frames);
            }
            SourceEdit::Stop { when } => {
                let _accepted = self.sched.stop(now, when);
            }
            SourceEdit::SetBuffer { buffer } => self.set_buffer(buffer),
            SourceEdit::SetLoop { part } => {
                let points = part.set_in(self.sched.points());
                let _accepted = self.sched.set_loop(points);
            }
        }
    }

    // Gives the source a buffer, or takes it away.
    fn set_buffer(&mut self, buffer: Option<BufId>)
        ensures { self.new ≡ plays.with_buffer buffer self.old }
    {
        self.buffer = buffer;
        self.was_set = self.was_set || buffer.is_some();
    }
}
