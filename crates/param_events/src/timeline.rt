ghost use Rattle.std.specs.Prelude.{◌≡◌, [], length, ◌+◌, ◌<◌, ◌≤◌, ◌^◌, None, Some, slice_get, IfOk, IfErr, OnOk, OnErr};
ghost use Rattle.param_events.specs.Edits as edits;
ghost use Rattle.param_events.specs.Edits.{IsCause};
ghost use Rattle.param_events.specs.Timeline.{IsTimeline};
ghost use Rattle.param_events.specs.Values as values;

use crate::edits::{base_after, cancel_from, hold_from, put_curve, put_ramp, put_set};
use crate::events::Event;
use crate::pieces::Events;
use crate::refusals::{ParamErr, free_moment, free_span, moment, outside_curves, refusal_of};
use crate::values::value_at;
use std::alloc::Global;
use std::marker::Model;
use std::sync::ledger::Ledger;
use wa_base::{Fix, NoMemory, Samples, Steps};

/// The automation timeline of one parameter (AudioParam): a base value, the current value slot, and
/// the events in order of time. Contracts see it as these three.
///
/// Times do not fall along the events, no event lies within a curve before its end, and the first event
/// is no Ramp. Each call that schedules an event takes the frame that is rendered next, `now`; a time
/// before it stands for it. A refused call changes nothing.
///
/// The base is the value before the first event. The slot is what a script reads as the parameter's
/// `value`: it is the creation option's value, and then what each render quantum set it to.
#[derive(Debug, Drop)]
pub struct Timeline {
    base: Fix,
    slot: Fix,
    events: Events,
}

impl Model for Timeline {
    ghost use Rattle.param_events.specs.Timeline.{Timeline, IsTimeline};

    ghost Value = { Timeline };

    ghost view = { λ t. record { base = t.base; slot = t.slot; events = t.events } };

    ghost invariant = { λ t. IsTimeline t.events };
}

impl Timeline {
    /// A timeline without events, whose value is that of the creation option. It takes no memory.
    pub fn new(alloc: Global, base: Fix) -> Timeline
        ensures { result ≡ record { base = base; slot = base; events = [] } }
    {
        Timeline {
            base,
            slot: base,
            events: Events::new(alloc),
        }
    }

    /// The value before the first event.
    pub fn base(&self) -> Fix
        ensures { result ≡ self.now.base }
    {
        self.base
    }

    /// The current value slot, which a script reads as the parameter's `value`.
    pub fn current(&self) -> Fix
        ensures { result ≡ self.now.slot }
    {
        self.slot
    }

    /// The number of events.
    pub fn len(&self) -> usize
        ensures value { result ≡ length self.now.events }
        ensures timeline { IsTimeline self.now.events }
    {
        self.events.len()
    }

    /// Shows an event, which counts as one step. No other call that leaves the timeline shows one.
    pub fn look<L: Ledger>(&self, i: usize, steps: &mut Steps<L>) -> &Event
        requires { i < length self.now.events }
        ensures event { slice_get self.now.events i ≡ Some result.now }
        ensures cost { steps.new ≡ steps.old + 1 }
    {
        steps.tick();
        self.events.get(i)
    }

    /// Schedules a jump to a value at a frame (setValueAtTime). It is refused for a negative time, and
    /// for one that lies in a curve before its end.
    pub fn set_value(&mut self, now: u64, value: Fix, time: i64) -> Result<(), ParamErr>
        requires { now ≤ 2 ^ 62 }
        ensures accepted { OnOk result (edits.event_refusal now time self.old.events ≡ None) }
        ensures ok { OnOk result (self.new ≡ edits.value_set self.old now value time) }
        ensures refused { IfErr result (λ e. IsCause e (edits.event_refusal now time self.old.events)) }
        ensures err { OnErr result (self.new ≡ self.old) }
    {
        let at = match free_moment(&self.events, now, time) {
            Ok(at) => at,
            Err(refusal) => return Err(refusal),
        };
        put_set(&mut self.events, at, value)
    }

    /// Schedules a line from the event before to a value at a frame (linearRampToValueAtTime). Where no
    /// event comes before it, the line begins now at the current value. It is refused as `set_value` is.
    pub fn ramp(&mut self, now: u64, value: Fix, time: i64) -> Result<(), ParamErr>
        requires { now ≤ 2 ^ 62 }
        ensures accepted { OnOk result (edits.event_refusal now time self.old.events ≡ None) }
        ensures ok { OnOk result (self.new ≡ edits.ramped self.old now value time) }
        ensures refused { IfErr result (λ e. IsCause e (edits.event_refusal now time self.old.events)) }
        ensures err { OnErr result (self.new ≡ self.old) }
    {
        let at = match free_moment(&self.events, now, time) {
            Ok(at) => at,
            Err(refusal) => return Err(refusal),
        };
        put_ramp(&mut self.events, self.slot, now, at, value)
    }

    /// Schedules a curve of at least two points over a duration in frames (setValueCurveAtTime). It is
    /// refused, in this order, for too few points, a negative time, a duration that is not positive, a
    /// time that lies in another curve before its end, and an event that lies strictly within it.
    pub fn curve(
        &mut self,
        now: u64,
        points: &[Fix],
        time: i64,
        duration: i64,
    ) -> Result<(), ParamErr>
        requires { now ≤ 2 ^ 62 }
        ensures accepted { OnOk result (edits.curve_refusal now points.now time duration self.old.events ≡ None) }
        ensures ok { OnOk result (self.new ≡ edits.curved self.old now points.now time duration) }
        ensures refused { IfErr result (λ e. IsCause e (edits.curve_refusal now points.now time duration self.old.events)) }
        ensures err { OnErr result (self.new ≡ self.old) }
    {
        let at = match free_span(&self.events, now, points.len(), time, duration) {
            Ok(at) => at,
            Err(refusal) => return Err(refusal),
        };
        let points = Samples::from(Vec::from_slice(self.events.allocator(), points)?);
        put_curve(&mut self.events, at, duration as u64, points)
    }

    /// Sets the attribute `value`: the value jumps now, and the current value slot takes it. It is
    /// refused where now lies in a curve before its end, and then the slot stays too.
    pub fn set_now(&mut self, now: u64, value: Fix) -> Result<(), ParamErr>
        requires { now ≤ 2 ^ 62 }
        ensures accepted { OnOk result (edits.in_curve now self.old.events ≡ None) }
        ensures ok { OnOk result (self.new ≡ edits.value_now self.old now value) }
        ensures refused { IfErr result (λ e. IsCause e (edits.in_curve now self.old.events)) }
        ensures err { OnErr result (self.new ≡ self.old) }
    {
        if let Err(refusal) = outside_curves(&self.events, now) {
            return Err(refusal);
        }
        put_set(&mut self.events, now, value)?;
        self.slot = value;
        Ok(())
    }

    /// Takes away the events from a frame on, and a curve that has not ended before it
    /// (cancelScheduledValues). Where no event is left that is not after now, the current value becomes
    /// the base. It takes no memory and is refused for a negative time alone.
    pub fn cancel(&mut self, now: u64, time: i64) -> Result<(), ParamErr>
        requires { now ≤ 2 ^ 62 }
        ensures accepted { OnOk result (edits.time_refusal time ≡ None) }
        ensures ok { OnOk result (self.new ≡ edits.cancelled self.old now time) }
        ensures refused { IfErr result (λ e. edits.time_refusal time ≡ Some e) }
        ensures err { OnErr result (self.new ≡ self.old) }
    {
        let at = match moment(now, time) {
            Ok(at) => at,
            Err(refusal) => return Err(refusal),
        };
        cancel_from(&mut self.events, at);
        let base = base_after(&self.events, now, self.base, self.slot);
        self.base = base;
        Ok(())
    }

    /// Holds the value that is reached at a frame (cancelAndHoldAtTime): a curve or a ramp that is under
    /// way ends there, and what comes later is taken away. It takes no memory and is refused for a
    /// negative time alone.
    pub fn hold(&mut self, now: u64, time: i64) -> Result<(), ParamErr>
        requires { now ≤ 2 ^ 62 }
        ensures accepted { OnOk result (edits.time_refusal time ≡ None) }
        ensures ok { OnOk result (self.new ≡ edits.held_from self.old now time) }
        ensures refused { IfErr result (λ e. edits.time_refusal time ≡ Some e) }
        ensures err { OnErr result (self.new ≡ self.old) }
    {
        let at = match moment(now, time) {
            Ok(at) => at,
            Err(refusal) => return Err(refusal),
        };
        let value = value_at(self.base, &self.events, at);
        hold_from(&mut self.events, at, value);
        Ok(())
    }

    /// Why `set_value` and `ramp` are refused at a time, if they are. Nothing is changed. It is for the
    /// side that makes calls: it counts no step, and a refusal tells the place of an event.
    pub fn event_refusal(&self, now: u64, time: i64) -> Option<ParamErr>
        ensures { result ≡ edits.event_refusal now time self.now.events }
    {
        refusal_of(free_moment(&self.events, now, time))
    }

    /// Why `curve` is refused, if it is. Nothing is changed, and no step is counted, as in `event_refusal`.
    pub fn curve_refusal(
        &self,
        now: u64,
        points: &[Fix],
        time: i64,
        duration: i64,
    ) -> Option<ParamErr>
        requires { now ≤ 2 ^ 62 }
        ensures { result ≡ edits.curve_refusal now points.now time duration self.now.events }
    {
        refusal_of(free_span(&self.events, now, points.len(), time, duration))
    }

    /// Why `set_now` is refused, if it is. Nothing is changed, and no step is counted, as in `event_refusal`.
    pub fn now_refusal(&self, now: u64) -> Option<ParamErr>
        ensures { result ≡ edits.in_curve now self.now.events }
    {
        refusal_of(outside_curves(&self.events, now))
    }

    /// Why `cancel` and `hold` are refused at a time, if they are, whatever the timeline.
    pub fn time_refusal(time: i64) -> Option<ParamErr>
        ensures { result ≡ edits.time_refusal time }
    {
        refusal_of(moment(0, time))
    }

    /// Sets the current value slot to a value. Base and events stay.
    pub fn mark(&mut self, value: Fix)
        ensures { self.new ≡ record self.old { slot = value } }
    {
        self.slot = value;
    }

    /// Sets the current value slot to the intrinsic value at a frame, as each render quantum does. Without
    /// events that is the base, and no search is made. The value is not handed out: rendering takes it
    /// from events that it looks at, each for a step.
    pub fn mark_at(&mut self, frame: u64)
        ensures { self.new ≡ record self.old { slot = values.value_at self.old.base self.old.events frame } }
    {
        self.slot = value_at(self.base, &self.events, frame);
    }

    /// An equal timeline with memory of its own.
    pub fn copy(&self) -> Result<Timeline, NoMemory>
        ensures { IfOk result (λ copy. copy ≡ self.now) }
    {
        let events = self.events.copy()?;
        Ok(Timeline {
            base: self.base,
            slot: self.slot,
            events,
        })
    }
}
