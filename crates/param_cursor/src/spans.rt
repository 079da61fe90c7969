ghost use Rattle.std.specs.Prelude.{◌≡◌, ℕ, ℤ, length, ◌+◌, ◌-◌, ◌<◌, ◌≤◌, ◌^◌, Some, IfSome, option_copied, slice_get, slice_index_or, take};
ghost use Rattle.std.specs.Option.{IsSomeAnd};
ghost use Rattle.param_events.specs.declared.events.Event.{Event};
ghost use Rattle.param_events.specs.Events.{time_of, last};
ghost use Rattle.param_events.specs.Timeline.{IsSound, IsTimeline};
ghost use Rattle.param_events.specs.Values as values;
ghost use Rattle.param_cursor.specs.Cursors.{IsDrawn};

use crate::drawing::{Segment, draw_curve, draw_level, draw_segment};
use crate::levels::Held;
use param_events::{Event, Timeline, curve_value};
use wa_base::Fix;

// The events before a place and at it, where there are any.
#[derive(Clone, Copy)]
pub(crate) struct Around<'a> {
    pub(crate) place: usize,
    pub(crate) here: Option<&'a Event>,
    pub(crate) next: Option<&'a Event>,
}

// From a value that is held towards the next event: a ramp that comes next is under way.
fn draw_towards(
    out: &mut [Fix],
    at: usize,
    end: usize,
    held: Held,
    next: Option<&Event>,
    first: u64,
)
    requires ends { end ≤ length out.old }
    requires some { at < end }
    requires begun { held.from ≤ first + at }
    requires fits { first + end < 2 ^ 64 }
    requires later { IfSome (option_copied next) (λ event. first + end ≤ time_of event) }
    ensures { IsDrawn out.old out.new at end (λ m. values.towards held.value held.from (option_copied next.entry) (first + m)) }
{
    match next {
        Some(Event::Ramp { time, value }) => {
            let segment = Segment {
                from: held.value,
                to: *value,
                parts: *time - held.from,
            };
            draw_segment(out, at, end, segment, first + at as u64 - held.from, 1)
        }
        _ => draw_level(out, at, end, held.value),
    }
}

// The index at which a curve ends that is to be drawn from one index to another.
fn curve_stop(until: u64, at: usize, end: usize, first: u64) -> usize
    requires order { at ≤ end }
    requires fits { first + end < 2 ^ 64 }
    ensures within { (at ≤ result) × (result ≤ end) }
    ensures running { (m : ℕ) → at ≤ m → m < result → first + m < until }
    ensures ended { result < end → until ≤ first + result }
{
    if first + end as u64 <= until {
        end
    } else if until <= first + at as u64 {
        at
    } else {
        (until - first) as usize
    }
}

// From an event on, before the next one.
fn draw_between(
    out: &mut [Fix],
    at: usize,
    end: usize,
    here: &Event,
    next: Option<&Event>,
    first: u64,
)
    requires ends { end ≤ length out.old }
    requires some { at < end }
    requires sound { IsSound here.now }
    requires begun { time_of here.now ≤ first + at }
    requires fits { first + end < 2 ^ 64 }
    requires later { IfSome (option_copied next) (λ event. first + end ≤ time_of event) }
    ensures { (base : ℤ) → IsDrawn out.old out.new at end (λ m. values.between base (Some here.now) (option_copied next.entry) (first + m)) }
{
    match here {
        Event::Set { time, value } | Event::Ramp { time, value } => {
            let held = Held {
                value: *value,
                from: *time,
            };
            draw_towards(out, at, end, held, next, first);
        }
        Event::Curve {
            time,
            duration,
            end: until,
            points,
        } => {
            let stop = curve_stop(*until, at, end, first);
            let begun = first + at as u64 - *time;
            draw_curve(out, at, stop, points.as_slice(), *duration, begun);
            if stop < end {
                let held = Held {
                    value: curve_value(points.as_slice(), *duration, *until - *time),
                    from: *until,
                };
                draw_towards(out, stop, end, held, next, first);
            }
        }
    }
}

// The index of the next event's frame, or the end of the block.
pub(crate) fn block_end(next: Option<&Event>, first: u64, count: usize) -> usize
    requires { IfSome (option_copied next) (λ event. first ≤ time_of event) }
    ensures within { result ≤ count }
    ensures later { IfSome (option_copied next.entry) (λ event. first + result ≤ time_of event) }
    ensures there { result < count → IsSomeAnd (option_copied next.entry) (λ event. time_of event ≡ first + result) }
{
    match next {
        Some(event) => {
            let frames = event.time() - first;
            if frames < count as u64 {
                frames as usize
            } else {
                count
            }
        }
        None => count,
    }
}

// The frames between two events that stand side by side. Of most parameters the value stays, and this
// is not called.
#[cold]
pub(crate) fn draw_around(
    out: &mut [Fix],
    at: usize,
    end: usize,
    around: Around,
    line: &Timeline,
    first: u64,
)
    requires ends { end ≤ length out.old }
    requires order { at ≤ end }
    requires fits { first + end < 2 ^ 64 }
    requires here { option_copied around.here ≡ last (take around.place line.now.events) }
    requires next { option_copied around.next ≡ slice_get line.now.events around.place }
    requires timeline { IsTimeline line.now.events }
    requires place { around.place ≤ length line.now.events }
    requires begun { (default : Event) → 0 < around.place → time_of (slice_index_or line.now.events (around.place - 1) default) ≤ first + at }
    requires later { (default : Event) → around.place < length line.now.events → first + end ≤ time_of (slice_index_or line.now.events around.place default) }
    ensures { IsDrawn out.old out.new at end (λ m. values.value_at line.now.base line.now.events (first + m)) }
{
    if at == end {
        return;
    }
    match around.here {
        Some(event) => draw_between(out, at, end, event, around.next, first),
        None => draw_level(out, at, end, line.base()),
    }
}
