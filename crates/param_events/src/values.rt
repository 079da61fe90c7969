ghost use Rattle.std.specs.Prelude.{◌≡◌, ℤ, length, ◌<◌, ◌≤◌, Some, IfSome, option_copied, slice_get};
ghost use Rattle.param_events.specs.Values as values;
ghost use Rattle.param_events.specs.Events.{time_of};
ghost use Rattle.param_events.specs.Timeline.{IsSound, IsTimeline};

use crate::edits::place;
use crate::events::Event;
use crate::lines::along;
use crate::pieces::Events;
use wa_base::Fix;

/// The value of a curve n frames after its time: its points lie evenly over the duration, with lines
/// between them. From the duration on it is the last point.
pub fn curve_value(points: &[Fix], duration: u64, n: u64) -> Fix
    requires has_points { 2 ≤ length points.now }
    requires lasts { 1 ≤ duration }
    ensures { result ≡ values.curve_value points.now duration n }
{
    let last = points.len() - 1;
    let way = last as u128 * n as u128;
    let k = way / duration as u128;
    if k < last as u128 {
        let k = k as usize;
        let part = (way - k as u128 * duration as u128) as u64;
        along(points[k], points[k + 1], part, duration)
    } else {
        points[last]
    }
}

// The value at a frame where `held` is held from a frame on, before the next event: a ramp that comes
// next is under way.
pub(crate) fn towards(held: Fix, from: u64, next: Option<&Event>, frame: u64) -> Fix
    requires begun { from ≤ frame }
    requires later { IfSome (option_copied next) (λ event. frame < time_of event) }
    ensures { result ≡ values.towards held from (option_copied next.entry) frame }
{
    match next {
        Some(Event::Ramp { time, value }) => along(held, *value, frame - from, *time - from),
        _ => held,
    }
}

// The value at a frame that is not before an event, and before the next one.
pub(crate) fn between(here: &Event, next: Option<&Event>, frame: u64) -> Fix
    requires sound { IsSound here.now }
    requires begun { time_of here.now ≤ frame }
    requires later { IfSome (option_copied next) (λ event. frame < time_of event) }
    ensures { (base : ℤ) → result ≡ values.between base (Some here.now) (option_copied next.entry) frame }
{
    match here {
        Event::Set { time, value } => towards(*value, *time, next, frame),
        Event::Ramp { time, value } => towards(*value, *time, next, frame),
        Event::Curve {
            time,
            duration,
            end,
            points,
        } => {
            if frame < *end {
                curve_value(points.as_slice(), *duration, frame - *time)
            } else {
                let held = curve_value(points.as_slice(), *duration, *end - *time);
                towards(held, *end, next, frame)
            }
        }
    }
}

// The event at a place, where there is one.
fn event_at(events: &Events, place: usize) -> Option<&Event>
    ensures { option_copied result ≡ slice_get events.now place }
{
    if place < events.len() {
        Some(events.get(place))
    } else {
        None
    }
}

// The intrinsic value at a frame, by a search among all events.
pub(crate) fn value_at(base: Fix, events: &Events, frame: u64) -> Fix
    requires { IsTimeline events.now }
    ensures { result ≡ values.value_at base events.now frame }
{
    let i = place(events, frame);
    if i == 0 {
        base
    } else {
        between(events.get(i - 1), event_at(events, i), frame)
    }
}
