ghost use Rattle.std.specs.Prelude.{◌≡◌, ◌∷◌, length, ◌+◌, ◌<◌, ◌≤◌, ◌^◌, None, take, drop, OnOk, OnErr, IfErr};
ghost use Rattle.std.specs.List.{filter};
ghost use Rattle.param_events.specs.declared.events.Event.TheVariants.{Set, Ramp, Curve};
ghost use Rattle.param_events.specs.declared.refusals.ParamErr.TheVariants.{NoMemory};
ghost use Rattle.param_events.specs.Edits as edits;
ghost use Rattle.param_events.specs.Events as meant;
ghost use Rattle.param_events.specs.Events.{until, after, first, last};
ghost use Rattle.param_events.specs.Places.{MayStand};
ghost use Rattle.param_events.specs.Timeline.{IsOrderedFrom, IsTimeline};

use crate::events::Event;
use crate::pieces::Events;
use crate::refusals::ParamErr;
use wa_base::{Fix, Samples};

// How many events have a time at or before this one.
pub(crate) fn place(events: &Events, time: u64) -> usize
    requires { IsOrderedFrom 0 events.now }
    ensures within { result ≤ length events.now }
    ensures fits { length events.now < 2 ^ 64 }
    ensures before { until time events.now ≡ take result events.now }
    ensures after { after time events.now ≡ drop result events.now }
{
    let mut low = 0;
    let mut high = events.len();
    while low < high {
        let middle = low + (high - low) / 2;
        if events.get(middle).time() <= time {
            low = middle + 1;
        } else {
            high = middle;
        }
    }
    low
}

// Puts an event behind all that have a time at or before its own.
fn put(items: &mut Events, event: Event) -> Result<(), ParamErr>
    requires kept { IsTimeline items.old }
    requires may { MayStand items.old event }
    ensures ok { OnOk result (items.new ≡ meant.put items.old event) }
    ensures kept { IsTimeline items.new }
    ensures err { IfErr result (λ e. e ≡ NoMemory) }
    ensures same { OnErr result (items.new ≡ items.old) }
{
    let i = place(items, event.time());
    items.insert(i, event)?;
    Ok(())
}

// Puts a Set where no curve is under way.
pub(crate) fn put_set(items: &mut Events, time: u64, value: Fix) -> Result<(), ParamErr>
    requires kept { IsTimeline items.old }
    requires outside { edits.in_curve time items.old ≡ None }
    ensures ok { OnOk result (items.new ≡ meant.put items.old (Set time value)) }
    ensures kept { IsTimeline items.new }
    ensures err { IfErr result (λ e. e ≡ NoMemory) }
    ensures same { OnErr result (items.new ≡ items.old) }
{
    put(items, Event::Set { time, value })
}

// Puts a curve where no curve is under way and no event lies within it.
pub(crate) fn put_curve(
    items: &mut Events,
    time: u64,
    duration: u64,
    points: Samples,
) -> Result<(), ParamErr>
    requires kept { IsTimeline items.old }
    requires outside { edits.in_curve time items.old ≡ None }
    requires empty { edits.curve_over time (time + duration) items.old ≡ None }
    requires lasts { 1 ≤ duration }
    requires fits { time + duration < 2 ^ 64 }
    requires has_points { 2 ≤ length points }
    ensures ok { OnOk result (items.new ≡ meant.put items.old (Curve time duration (time + duration) points)) }
    ensures kept { IsTimeline items.new }
    ensures err { IfErr result (λ e. e ≡ NoMemory) }
    ensures same { OnErr result (items.new ≡ items.old) }
{
    let end = time + duration;
    put(
        items,
        Event::Curve {
            time,
            duration,
            end,
            points,
        },
    )
}

// Puts a Ramp where no curve is under way. Where nothing comes before it, a Set of the slot at `now`
// is put before it.
pub(crate) fn put_ramp(
    items: &mut Events,
    slot: Fix,
    now: u64,
    time: u64,
    value: Fix,
) -> Result<(), ParamErr>
    requires kept { IsTimeline items.old }
    requires outside { edits.in_curve time items.old ≡ None }
    requires later { now ≤ time }
    ensures ok { OnOk result (items.new ≡ meant.put (edits.begun (until time items.old) slot now items.old) (Ramp time value)) }
    ensures kept { IsTimeline items.new }
    ensures err { IfErr result (λ e. e ≡ NoMemory) }
    ensures same { OnErr result (items.new ≡ items.old) }
{
    if place(items, time) == 0 {
        return put_first_ramp(items, slot, now, time, value);
    }
    put(items, Event::Ramp { time, value })
}

// Puts a Ramp and a Set before it in front of all others.
fn put_first_ramp(
    items: &mut Events,
    slot: Fix,
    now: u64,
    time: u64,
    value: Fix,
) -> Result<(), ParamErr>
    ensures ok { OnOk result (items.new ≡ Set now slot ∷ Ramp time value ∷ items.old) }
    ensures err { IfErr result (λ e. e ≡ NoMemory) }
    ensures same { OnErr result (items.new ≡ items.old) }
{
    items.insert(0, Event::Ramp { time, value })?;
    let set = Event::Set {
        time: now,
        value: slot,
    };
    if items.insert(0, set).is_err() {
        items.remove_first();
        return Err(ParamErr::NoMemory);
    }
    Ok(())
}

// How many events stay where all is cancelled from a time on.
fn staying(events: &Events, time: u64) -> usize
    requires { IsOrderedFrom 0 events.now }
    ensures within { result ≤ length events.now }
    ensures rest { filter (edits.stays time) events.now ≡ take result events.now }
{
    let mut count = events.len();
    while count > 0 && !events.get(count - 1).stays(time) {
        count -= 1;
    }
    count
}

// Takes away what begins at a time or later, and a curve that has not ended before.
pub(crate) fn cancel_from(items: &mut Events, time: u64)
    requires { IsTimeline items.old }
    ensures value { items.new ≡ filter (edits.stays time) items.old }
    ensures kept { IsTimeline items.new }
{
    let i = staying(items, time);
    items.truncate(i);
}

// The base, or the slot where no event has a time at or before now.
pub(crate) fn base_after(events: &Events, now: u64, base: Fix, slot: Fix) -> Fix
    requires { IsOrderedFrom 0 events.now }
    ensures { result ≡ edits.base_after (until now events.now) base slot }
{
    if place(events, now) == 0 { slot } else { base }
}

// Whether the event before a place is a curve that ends after a time.
pub(crate) fn goes_past(events: &Events, i: usize, time: u64) -> bool
    requires { i ≤ length events.now }
    ensures { result ≡ edits.goes_past time (last (take i events.now)) }
{
    i > 0 && events.get(i - 1).goes_past(time)
}

// Whether the event at a place is a ramp.
fn is_ramp(events: &Events, i: usize) -> bool
    ensures { result ≡ edits.is_ramp (first (drop i events.now)) }
{
    i < events.len() && events.get(i).is_ramp()
}

// Ends what is under way at a time, and takes away what comes later.
fn end_at(items: &mut Events, time: u64, value: Fix)
    requires { IsTimeline items.old }
    ensures { items.new ≡ edits.held (until time items.old) (after time items.old) time value }
{
    let i = place(items, time);
    if goes_past(items, i, time) {
        items.cut_at(i - 1, time);
        items.truncate(i);
    } else if is_ramp(items, i) {
        items.set(i, Event::Ramp { time, value });
        items.truncate(i + 1);
    } else {
        items.truncate(i);
    }
}

// Holds a value from a time on: what is under way ends there, and what comes later is taken away.
pub(crate) fn hold_from(items: &mut Events, time: u64, value: Fix)
    requires { IsTimeline items.old }
    ensures value { items.new ≡ edits.held (until time items.old) (after time items.old) time value }
    ensures kept { IsTimeline items.new }
{
    end_at(items, time, value)
}
