use param_events::{ParamErr, Timeline};
use std::alloc::Global;
use std::test::Fail;
use wa_base::{NoMemory, ONE};

// Whether a call gave this answer and left the timeline as it was.
fn is_refused(
    before: &Timeline,
    after: &Timeline,
    answer: Result<(), ParamErr>,
    refusal: ParamErr,
    alloc: Global,
) -> Result<bool, NoMemory> {
    let is_same = format!(in alloc; "{before:?}")? == format!(in alloc; "{after:?}")?;
    Ok(is_same && matches!(answer, Err(given) if given == refusal))
}

// A curve from frame 10 to before frame 30, and an event at frame 40.
fn curve_and_set(alloc: Global) -> Result<Timeline, ParamErr> {
    let mut line = Timeline::new(alloc, ONE);
    line.set_value(0, 5, 40)?;
    line.curve(0, &[0, ONE], 10, 20)?;
    Ok(line)
}

fn refuses_events_in_a_curve(alloc: Global) -> Result<bool, ParamErr> {
    let mut line = curve_and_set(alloc)?;
    let old = line.copy()?;
    let first = line.set_value(0, 0, 10);
    let at_first = is_refused(&old, &line, first, ParamErr::InCurve(0), alloc)?;
    let last = line.ramp(0, 0, 29);
    let at_last = is_refused(&old, &line, last, ParamErr::InCurve(0), alloc)?;
    let now = line.set_now(29, 0);
    let is_now = is_refused(&old, &line, now, ParamErr::InCurve(0), alloc)?;
    let late = line.set_value(0, 0, -1);
    let is_late = is_refused(&old, &line, late, ParamErr::NegativeTime, alloc)?;
    line.set_value(0, 0, 30)?;
    Ok(at_first && at_last && is_now && is_late && line.len() == 3)
}

#[test]
fn events_in_a_curve_are_refused(rt: HostRuntime) -> Result<(), Fail> {
    assert!(rt; matches!(refuses_events_in_a_curve(rt.alloc()), Ok(true)));
    Ok(())
}

fn refuses_curves_in_order(alloc: Global) -> Result<bool, ParamErr> {
    let mut line = curve_and_set(alloc)?;
    let old = line.copy()?;
    let short = line.curve(0, &[0], -1, 0);
    let is_short = is_refused(&old, &line, short, ParamErr::ShortCurve, alloc)?;
    let late = line.curve(0, &[0, 1], -1, 0);
    let is_late = is_refused(&old, &line, late, ParamErr::NegativeTime, alloc)?;
    let empty = line.curve(0, &[0, 1], 20, 0);
    let is_empty = is_refused(&old, &line, empty, ParamErr::BadDuration, alloc)?;
    let inside = line.curve(0, &[0, 1], 20, 30);
    let is_inside = is_refused(&old, &line, inside, ParamErr::InCurve(0), alloc)?;
    let over = line.curve(0, &[0, 1], 35, 6);
    let is_over = is_refused(&old, &line, over, ParamErr::CurveOver(1), alloc)?;
    line.curve(0, &[0, 1], 30, 10)?;
    line.curve(0, &[0, 1], 40, 1 << 40)?;
    Ok(is_short && is_late && is_empty && is_inside && is_over && line.len() == 4)
}

#[test]
fn curves_are_refused_by_the_first_reason(rt: HostRuntime) -> Result<(), Fail> {
    assert!(rt; matches!(refuses_curves_in_order(rt.alloc()), Ok(true)));
    Ok(())
}

// What is left of the curve and the event after a cancel or a hold, and the base.
fn cancels_and_holds(alloc: Global) -> Result<bool, ParamErr> {
    let mut line = curve_and_set(alloc)?;
    line.mark(7);
    let mut held = line.copy()?;
    let is_negative = line.cancel(0, -1) == Err(ParamErr::NegativeTime)
        && held.hold(0, -1) == Err(ParamErr::NegativeTime);
    line.cancel(20, 31)?;
    let is_cut = line.len() == 1 && line.base() == ONE;
    line.cancel(20, 30)?;
    let is_gone = line.len() == 0 && line.base() == 7;
    held.hold(0, 15)?;
    held.set_value(0, 3, 15)?;
    held.set_now(15, 4)?;
    let is_held = held.len() == 3 && held.current() == 4 && held.base() == ONE;
    Ok(is_negative && is_cut && is_gone && is_held)
}

#[test]
fn cancels_take_away_and_holds_cut(rt: HostRuntime) -> Result<(), Fail> {
    assert!(rt; matches!(cancels_and_holds(rt.alloc()), Ok(true)));
    Ok(())
}
