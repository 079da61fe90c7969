ghost use Rattle.std.specs.Prelude.{◌≡◌, ℕ, ℤ, ◌-◌, ◌≤◌, ◌^◌, IfSome, None, Option, Some, option_copied};
ghost use Rattle.param_events.specs.declared.events.Event.{Event};
ghost use Rattle.param_events.specs.Events.{time_of};
ghost use Rattle.param_events.specs.Timeline.{IsSound};
ghost use Rattle.param_events.specs.Values as values;

use crate::ramps::Ramp;
use param_events::{Event, curve_value};
use wa_base::Fix;

/// How the values of a block are drawn: one that stays, a ramp that all of them lie on, or one written
/// for each frame.
#[derive(Clone, Copy, PartialEq, Eq, Debug)]
pub enum Drawn {
    Stays(Stay),
    Rises(Ramp),
    Each,
}

/// A value that all frames have from the first of a block on and before the frame `until`: that of the
/// next event, or `u64::MAX` where none is to come.
#[derive(Clone, Copy, PartialEq, Eq, Debug)]
pub struct Stay {
    pub value: Fix,
    pub until: u64,
}

// A value that is held from a frame on.
#[derive(Clone, Copy)]
pub(crate) struct Held {
    pub(crate) value: Fix,
    pub(crate) from: u64,
}

// The value that is held from an event on, before the next one. Of a curve there is none.
pub(crate) fn held_from(event: &Event) -> Option<Held>
    ensures value { IfSome result (λ held. (base : ℤ) (next : Option Event) (frame : ℕ) → values.between base (Some event.now) next frame ≡ values.towards held.value held.from next frame) }
    ensures from { IfSome result (λ held. held.from ≡ time_of event.now) }
{
    match event {
        Event::Set { time, value } | Event::Ramp { time, value } => Some(Held {
            value: *value,
            from: *time,
        }),
        Event::Curve { .. } => None,
    }
}

// The time of the next event, or the last of all where none is to come.
pub(crate) fn stay_until(next: Option<&Event>) -> u64
    ensures event { IfSome (option_copied next.entry) (λ event. time_of event ≡ result) }
    ensures none { option_copied next.entry ≡ None → result ≡ 2 ^ 64 - 1 }
{
    match next {
        Some(event) => event.time(),
        None => u64::MAX,
    }
}

// The value from a frame on, after one event and before the next, where it stays: no curve is under way,
// and no ramp.
pub(crate) fn level(
    base: Fix,
    here: Option<&Event>,
    next: Option<&Event>,
    frame: u64,
) -> Option<Fix>
    requires sound { IfSome (option_copied here) IsSound }
    ensures { IfSome result (λ value. (later : ℕ) → frame ≤ later → values.between base (option_copied here.entry) (option_copied next.entry) later ≡ value) }
{
    if next.is_some_and(|event| event.is_ramp()) {
        return None;
    }
    match here {
        None => Some(base),
        Some(Event::Set { value, .. } | Event::Ramp { value, .. }) => Some(*value),
        Some(
            Event::Curve {
                time,
                duration,
                end,
                points,
            },
        ) => {
            if frame < *end {
                None
            } else {
                Some(curve_value(points.as_slice(), *duration, *end - *time))
            }
        }
    }
}
