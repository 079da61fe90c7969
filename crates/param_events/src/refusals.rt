ghost use Rattle.std.specs.Prelude.{◌≡◌, ◌+◌, ◌<◌, ◌≤◌, ◌≤ℤ◌, ◌^◌, pos, unsigned_abs, None, Some, OnOk, IfOk, IfErr};
ghost use Rattle.std.specs.List.{position};
ghost use Rattle.std.specs.Result.{result_err};
ghost use Rattle.param_events.specs.Edits as edits;
ghost use Rattle.param_events.specs.Timeline.{IsOrderedFrom};

use crate::edits::{goes_past, place};
use crate::pieces::Events;
use std::alloc::{AllocError, AllocFailed};
use wa_base::NoMemory;

/// Why a call on a timeline is refused, in the order in which the reasons are tried.
#[derive(Clone, Copy, Debug, PartialEq, Eq)]
pub enum ParamErr {
    /// The time is negative.
    NegativeTime,
    /// The duration of a curve is not positive.
    BadDuration,
    /// A curve has fewer than two points. This is tried before all others.
    ShortCurve,
    /// The time lies in a curve, at or after its begin and before its end. The number is the least
    /// index of such a curve.
    InCurve(usize),
    /// An event lies strictly within the new curve. The number is the least index of such an event.
    CurveOver(usize),
    /// Memory ran out. No other reason stood against the call.
    NoMemory,
}

impl From<NoMemory> for ParamErr {
    ghost use Rattle.param_events.specs.declared.refusals.ParamErr.TheVariants.{NoMemory};

    ghost from_gives = { λ _ error. error ≡ NoMemory };

    fn from(_: NoMemory) -> ParamErr {
        ParamErr::NoMemory
    }
}

impl From<AllocError> for ParamErr {
    ghost use Rattle.param_events.specs.declared.refusals.ParamErr.TheVariants.{NoMemory};

    ghost from_gives = { λ _ error. error ≡ NoMemory };

    fn from(_: AllocError) -> ParamErr {
        ParamErr::NoMemory
    }
}

impl<T: Drop> From<AllocFailed<T>> for ParamErr {
    ghost use Rattle.param_events.specs.declared.refusals.ParamErr.TheVariants.{NoMemory};

    ghost from_gives = { λ _ error. error ≡ NoMemory };

    fn from(_: AllocFailed<T>) -> ParamErr {
        ParamErr::NoMemory
    }
}

// The time of a call: one before now stands for now.
#[tactic(auto, using(crate::proofs::Moments::moment_is), unfolding(crate::specs::Edits::time_refusal))]
pub(crate) fn moment(now: u64, time: i64) -> Result<u64, ParamErr>
    ensures value { IfOk result (λ at. at ≡ edits.moment now time) }
    ensures ok { OnOk result (edits.time_refusal time ≡ None) }
    ensures err { IfErr result (λ e. edits.time_refusal time ≡ Some e) }
{
    if time < 0 {
        return Err(ParamErr::NegativeTime);
    }
    Ok((time as u64).max(now))
}

// The place of the first curve that is under way at a time. Only the last event that has begun can be.
fn first_running(events: &Events, at: u64) -> Option<usize>
    requires { IsOrderedFrom 0 events.now }
    ensures { result ≡ position (edits.runs_at at) events.now }
{
    let i = place(events, at);
    if goes_past(events, i, at) {
        Some(i - 1)
    } else {
        None
    }
}

// The place of the first event that lies strictly between two times. Only the first one after `start` can.
fn first_between(events: &Events, start: u64, finish: u64) -> Option<usize>
    requires { IsOrderedFrom 0 events.now }
    ensures { result ≡ position (edits.lies_between start finish) events.now }
{
    let i = place(events, start);
    if i < events.len() && events.get(i).time() < finish {
        Some(i)
    } else {
        None
    }
}

// That no curve is under way at a time.
#[tactic(auto, unfolding(crate::specs::Edits::in_curve))]
pub(crate) fn outside_curves(events: &Events, at: u64) -> Result<(), ParamErr>
    requires { IsOrderedFrom 0 events.now }
    ensures ok { OnOk result (edits.in_curve at events.now ≡ None) }
    ensures err { IfErr result (λ e. edits.in_curve at events.now ≡ Some e) }
{
    match first_running(events, at) {
        Some(place) => Err(ParamErr::InCurve(place)),
        None => Ok(()),
    }
}

// The moment of an event that may be put there.
#[tactic(auto, unfolding(crate::specs::Edits::event_refusal))]
pub(crate) fn free_moment(events: &Events, now: u64, time: i64) -> Result<u64, ParamErr>
    requires { IsOrderedFrom 0 events.now }
    ensures value { IfOk result (λ at. at ≡ edits.moment now time) }
    ensures outside { IfOk result (λ at. edits.in_curve at events.now ≡ None) }
    ensures ok { OnOk result (edits.event_refusal now time events.now ≡ None) }
    ensures err { IfErr result (λ e. edits.event_refusal now time events.now ≡ Some e) }
{
    let at = moment(now, time)?;
    match outside_curves(events, at) {
        Ok(()) => Ok(at),
        Err(refusal) => Err(refusal),
    }
}

// That no event lies strictly between two times.
#[tactic(auto, unfolding(crate::specs::Edits::curve_over))]
pub(crate) fn empty_between(events: &Events, start: u64, finish: u64) -> Result<(), ParamErr>
    requires { IsOrderedFrom 0 events.now }
    ensures ok { OnOk result (edits.curve_over start finish events.now ≡ None) }
    ensures err { IfErr result (λ e. edits.curve_over start finish events.now ≡ Some e) }
{
    match first_between(events, start, finish) {
        Some(place) => Err(ParamErr::CurveOver(place)),
        None => Ok(()),
    }
}

// The moment at which a curve may be put that is to have so many points and a duration.
#[tactic(auto, unfolding(crate::specs::Edits::span_refusal))]
pub(crate) fn free_span(
    events: &Events,
    now: u64,
    count: usize,
    time: i64,
    duration: i64,
) -> Result<u64, ParamErr>
    requires now { now ≤ 2 ^ 62 }
    requires kept { IsOrderedFrom 0 events.now }
    ensures value { IfOk result (λ at. at ≡ edits.moment now time) }
    ensures outside { IfOk result (λ at. edits.in_curve at events.now ≡ None) }
    ensures empty { IfOk result (λ at. edits.curve_over at (at + unsigned_abs duration) events.now ≡ None) }
    ensures lasts { OnOk result (pos 1 ≤ℤ duration) }
    ensures has_points { OnOk result (2 ≤ count) }
    ensures fits { IfOk result (λ at. at + unsigned_abs duration < 2 ^ 64) }
    ensures ok { OnOk result (edits.span_refusal now count time duration events.now ≡ None) }
    ensures err { IfErr result (λ e. edits.span_refusal now count time duration events.now ≡ Some e) }
{
    if count < 2 {
        return Err(ParamErr::ShortCurve);
    }
    let at = match moment(now, time) {
        Ok(at) => at,
        Err(refusal) => return Err(refusal),
    };
    if duration <= 0 {
        return Err(ParamErr::BadDuration);
    }
    if let Err(refusal) = outside_curves(events, at) {
        return Err(refusal);
    }
    match empty_between(events, at, at + duration as u64) {
        Ok(()) => Ok(at),
        Err(refusal) => Err(refusal),
    }
}

// The reason of a test that did not pass.
pub(crate) fn refusal_of<T: Drop>(test: Result<T, ParamErr>) -> Option<ParamErr>
    ensures { result ≡ result_err test }
{
    test.err()
}
