ghost use Rattle.std.specs.Prelude.{◌≡◌, ◌≤◌, ◌<◌, ◌+◌, ◌^◌, ℕ, length, Some, true, is_some, OnOk, OnErr, IsSome, IfSome, option_map};
ghost use Rattle.std.specs.Result.{result_err};
ghost use Rattle.sched_source.specs.Drawing.{at as sample};
ghost use Rattle.sched_source.specs.Schedule as spec;

use crate::content::{Content, Loop, begun, looped};
use crate::playing::{Span, play_span, silence};
use std::marker::Model;
use wa_base::{Channel, Exc, Feature, Fix};

/// When a source is to start and to stop (AudioScheduledSourceNode), whether its event `ended` was
/// fired, and what a buffer source plays (AudioBufferSourceNode). Frames are counted from the context's
/// start.
///
/// A source starts once. It may be stopped again and again until it has ended; the last call counts.
#[derive(Clone, Copy, PartialEq, Eq)]
pub struct Sched {
    start: Option<u64>,
    stop: Option<u64>,
    ended: bool,
    content: Option<Content>,
}

impl Model for Sched {
    ghost use Rattle.sched_source.specs.Schedule.{Schedule, IsCounted};

    ghost Value = { Schedule };

    ghost view = { λ s. record { start = s.start; stop = s.stop; ended = s.ended; content = s.content } };

    ghost invariant = { λ s. IsCounted s.start s.content };

    ghost inverse = { λ s. record { start = s.start; stop = s.stop; ended = s.ended; content = s.content } };
}

impl Sched {
    /// The schedule of a constant source (ConstantSourceNode) that was not started.
    pub fn constant() -> Sched
        ensures { result ≡ spec.constant }
    {
        Sched {
            start: None,
            stop: None,
            ended: false,
            content: None,
        }
    }

    /// The schedule of a buffer source (AudioBufferSourceNode) that was not started. In each frame it
    /// moves on by `rate` frames of its buffer.
    pub fn buffer(rate: u32, points: Loop) -> Sched
        requires { 1 ≤ rate }
        ensures { result ≡ spec.buffer rate points }
    {
        Sched {
            start: None,
            stop: None,
            ended: false,
            content: Some(Content::unstarted(rate, points)),
        }
    }

    /// Changes the loop of a buffer source. It is refused with `loop-change` where the source was
    /// started, and a refused call changes nothing. A constant source has no loop.
    pub fn set_loop(&mut self, points: Loop) -> Result<(), Exc>
        ensures refusal { result_err result ≡ spec.loop_refusal self.old }
        ensures ok { OnOk result (self.new ≡ spec.with_loop points self.old) }
        ensures err { OnErr result (self.new ≡ self.old) }
    {
        if self.is_started() {
            return Err(Exc::NotSupported(Some(Feature::LoopChange)));
        }
        self.content = looped(self.content, points);
        Ok(())
    }

    /// Whether it is the schedule of a buffer source.
    pub fn is_buffer(&self) -> bool
        ensures { result ≡ is_some self.now.content }
    {
        self.content.is_some()
    }

    /// The loop of a buffer source.
    pub fn points(&self) -> Loop
        requires { IsSome self.now.content }
        ensures { spec.loop_of self.now ≡ Some result }
    {
        self.content.unwrap().points
    }

    /// Lets the source sound from a frame on, or from now on where that has passed. It is refused with
    /// InvalidStateError where the source was started, and then with RangeError for a negative frame.
    /// A refused call changes nothing.
    ///
    /// A buffer source plays its buffer of `length` frames from the frame `offset` of it on, and at most
    /// `duration` frames of it, those of repeated rounds of a loop included. A negative offset and a
    /// negative duration are refused with RangeError too. A constant source ignores the three, their
    /// signs too.
    pub fn start(
        &mut self,
        now: u64,
        when: i64,
        offset: i64,
        duration: Option<i64>,
        length: u64,
    ) -> Result<(), Exc>
        requires now { now ≤ 2 ^ 62 }
        requires length { length ≤ 2 ^ 62 }
        ensures refusal { result_err result ≡ spec.start_refusal self.old when offset duration }
        ensures ok { OnOk result (self.new ≡ spec.started self.old now when offset duration length) }
        ensures err { OnErr result (self.new ≡ self.old) }
    {
        if let Some(exc) = self.start_refusal(when, offset, duration) {
            return Err(exc);
        }
        self.start = Some(now.max(when as u64));
        self.content = begun(self.content, offset, duration, length);
        Ok(())
    }

    /// The exception with which `start` would refuse these arguments now.
    pub fn start_refusal(&self, when: i64, offset: i64, duration: Option<i64>) -> Option<Exc>
        ensures { result ≡ spec.start_refusal self.now when offset duration }
    {
        if self.start.is_some() {
            return Some(Exc::InvalidState);
        }
        if when < 0 {
            return Some(Exc::Range);
        }
        if self.content.is_some() && is_any_negative(offset, duration) {
            return Some(Exc::Range);
        }
        None
    }

    /// Lets the source sound until a frame, or until now where that has passed. It is refused with
    /// InvalidStateError where the source was not started, and then with RangeError for a negative
    /// frame. A refused call changes nothing, and neither does one after the source has ended.
    pub fn stop(&mut self, now: u64, when: i64) -> Result<(), Exc>
        requires { now ≤ 2 ^ 62 }
        ensures refusal { result_err result ≡ spec.stop_refusal self.old when }
        ensures ok { OnOk result (self.new ≡ spec.stopped self.old now when) }
        ensures err { OnErr result (self.new ≡ self.old) }
    {
        if let Some(exc) = self.stop_refusal(when) {
            return Err(exc);
        }
        if !self.ended {
            self.stop = Some(now.max(when as u64));
        }
        Ok(())
    }

    /// The exception with which `stop` would refuse this time now.
    pub fn stop_refusal(&self, when: i64) -> Option<Exc>
        ensures { result ≡ spec.stop_refusal self.now when }
    {
        if self.start.is_none() {
            return Some(Exc::InvalidState);
        }
        if when < 0 {
            return Some(Exc::Range);
        }
        None
    }

    /// The frame from which the source sounds, or `None` where it was not started.
    pub fn start_frame(&self) -> Option<u64>
        ensures { result ≡ self.now.start }
    {
        self.start
    }

    /// Whether the source was started.
    pub fn is_started(&self) -> bool
        ensures { result ≡ is_some self.now.start }
    {
        self.start.is_some()
    }

    /// The frame before which the source sounds for the last time, or `None` where it was not started
    /// or has no end. It is never before the start.
    pub fn end_frame(&self) -> Option<u64>
        ensures { result ≡ spec.end_frame self.now }
    {
        earliest(self.content_end(), self.stop_end())
    }

    // The frame before which a buffer source has played its content, if that ends.
    fn content_end(&self) -> Option<u64>
        ensures { result ≡ spec.content_end self.now.content self.now.start }
    {
        match (self.content, self.start) {
            (Some(content), Some(start)) => end_after(start, content.length_played()),
            _ => None,
        }
    }

    // The frame before which the source is stopped.
    fn stop_end(&self) -> Option<u64>
        ensures { result ≡ spec.later_end self.now.start self.now.stop }
    {
        match (self.start, self.stop) {
            (Some(start), Some(stop)) => Some(stop.max(start)),
            _ => None,
        }
    }

    /// Whether the source sounds in one of so many frames from the first on.
    #[tactic(auto, using(crate::proofs::Spans::plays_in_not_started, crate::proofs::Spans::plays_in_without_end, crate::proofs::Spans::plays_in_until_end))]
    pub fn plays_in(&self, first: u64, frames: u32) -> bool
        requires first { first ≤ 2 ^ 62 }
        requires frames { (1 ≤ frames) × (frames ≤ 1024) }
        ensures { result ≡ spec.plays_in frames self.now first }
    {
        let Some(start) = self.start else {
            return false;
        };
        let next = first + u64::from(frames);
        match self.end_frame() {
            Some(end) => first.max(start) < end.min(next),
            None => start < next,
        }
    }

    /// What the source plays of a channel of its buffer in the frames from the first on, one for each
    /// item of `out`. A frame in which it does not sound is silent, and all frames of a constant source
    /// are.
    ///
    /// `channel` has as many samples as the length says that `start` was given.
    pub fn play(&self, out: &mut [Fix], channel: &Channel<'_>, first: u64)
        requires frames { (1 ≤ length out.old) × (length out.old ≤ 1024) }
        requires first { first ≤ 2 ^ 62 }
        requires channel { IfSome self.now.content (λ content. content.length ≡ length channel.now) }
        ensures { (m : ℕ) → m < length out.new → sample out.new m ≡ spec.played self.now channel.now (first + m) }
    {
        let Some(content) = self.content else {
            silence(out);
            return;
        };
        let Some(start) = self.start else {
            silence(out);
            return;
        };
        let span = Span {
            start,
            end: self.end_frame(),
        };
        play_span(out, channel, first, span, &content);
    }

    /// Notes that the event `ended` was fired. Start and stop stay.
    pub fn fire(&mut self)
        ensures { self.new ≡ record self.old { ended = true } }
    {
        self.ended = true;
    }

    /// Whether the event `ended` was fired.
    pub fn has_ended(&self) -> bool
        ensures { result ≡ self.now.ended }
    {
        self.ended
    }
}

// Whether an offset or a duration is negative.
fn is_any_negative(offset: i64, duration: Option<i64>) -> bool
    ensures { result ≡ spec.is_any_negative offset duration }
{
    if offset < 0 {
        return true;
    }
    match duration {
        Some(duration) => duration < 0,
        None => false,
    }
}

// So many frames after a start, where there is a number.
fn end_after(start: u64, frames: Option<u64>) -> Option<u64>
    requires start { start < 2 ^ 63 }
    requires frames { IfSome frames (λ frames. frames ≤ 2 ^ 63) }
    ensures { result ≡ option_map (λ frames. start + frames) frames }
{
    match frames {
        Some(frames) => Some(start + frames),
        None => None,
    }
}

// The first of two frames, as far as they exist.
fn earliest(end: Option<u64>, other: Option<u64>) -> Option<u64>
    ensures { result ≡ spec.earliest end other }
{
    match (end, other) {
        (Some(end), Some(other)) => Some(end.min(other)),
        (Some(end), None) => Some(end),
        (None, other) => other,
    }
}
