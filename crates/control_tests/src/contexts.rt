use ctx_state::{Context, Turn};
use std::alloc::Global;
use std::test::Fail;
use wa_base::{ContextSpec, Exc, NoMemory, Refusal, State};

// A function pays for each of its ends at which a context is let go. So a context is made in one function,
// lent to the others, and given to `drop` before any error goes up.

fn spec_of(quantum: u32, length: u64) -> ContextSpec {
    ContextSpec {
        channels: 1,
        length,
        rate: 48_000,
        quantum,
    }
}

// A context of quanta of this size and of so many frames, before its first call.
fn begin(alloc: Global, quantum: u32, length: u64) -> Result<Context, Exc> {
    let spec = spec_of(quantum, length);
    if !spec.is_supported() {
        return Err(Exc::NotSupported(None));
    }
    Ok(Context::new(alloc, spec))
}

// The next turn, where rendering goes on: as it is foreseen, and as it is taken.
fn turn(context: &mut Context) -> Option<(Turn, Turn)> {
    if context.state() == State::Running {
        let next = context.next_turn();
        return Some((next, context.turn()));
    }
    None
}

fn turns_to(context: &mut Context, want: Turn) -> bool {
    turn(context) == Some((want, want))
}

fn is_at(context: &Context, state: State, now: u64, started: Option<u32>) -> bool {
    context.state() == state && context.now() == now && context.started() == started
}

// Whether a suspend takes effect at this frame, or is refused, as it was foreseen.
fn suspends(context: &mut Context, ordinal: u32, time: i64, want: Option<u64>) -> bool {
    let foreseen = context.suspend_frame(time);
    let answer = context.suspend(ordinal, time);
    match want {
        Some(frame) => foreseen == Ok(frame) && answer == Ok(frame),
        None => {
            foreseen == Err(Exc::InvalidState) && answer == Err(Refusal::Exc(Exc::InvalidState))
        }
    }
}

// Whether a start is refused, as it was foreseen.
fn refuses_start(context: &mut Context) -> bool {
    context.start_refusal() == Some(Exc::InvalidState)
        && context.start(99) == Err(Exc::InvalidState)
}

fn starts(context: &mut Context, ordinal: u32) -> bool {
    context.start_refusal().is_none() && context.start(ordinal) == Ok(())
}

// Whether a resume is refused, as it was foreseen.
fn refuses_resume(context: &mut Context) -> bool {
    context.resume_refusal() == Some(Exc::InvalidState)
        && context.resume() == Err(Exc::InvalidState)
}

fn resumes(context: &mut Context) -> bool {
    context.resume_refusal().is_none() && context.resume() == Ok(())
}

// The size of a context's quanta, its length, the quanta that it went over, and suspends that come one
// after another: the time, and the frame at which it takes effect, or none where it is refused.
type Row = (u32, u64, u32, &'static [(i64, Option<u64>)]);

const SUSPENDS: [Row; 11] = [
    (
        128,
        300,
        0,
        &[
            (0, None),
            (-1, None),
            (-128, None),
            (-129, None),
            (i64::MIN, None),
            (127, Some(128)),
            (128, None),
            (1, None),
            (129, Some(256)),
            (256, None),
            (257, None),
            (300, None),
            (i64::MAX, None),
        ],
    ),
    // At the length, and up to it.
    (
        128,
        256,
        0,
        &[(256, None), (129, None), (255, None), (128, Some(128))],
    ),
    (128, 128, 0, &[(1, None), (127, None), (128, None)]),
    (128, 257, 0, &[(257, None), (255, Some(256))]),
    (128, 129, 0, &[(128, Some(128)), (129, None)]),
    // Up to the present.
    (
        128,
        512,
        1,
        &[
            (1, None),
            (127, None),
            (128, None),
            (129, Some(256)),
            (384, Some(384)),
        ],
    ),
    (
        128,
        512,
        2,
        &[
            (128, None),
            (256, None),
            (257, Some(384)),
            (300, None),
            (385, None),
        ],
    ),
    // Quanta of other sizes.
    (
        32,
        128,
        0,
        &[
            (1, Some(32)),
            (33, Some(64)),
            (96, Some(96)),
            (65, None),
            (97, None),
        ],
    ),
    (64, 129, 1, &[(64, None), (65, Some(128)), (128, None)]),
    (
        1_024,
        2_048,
        0,
        &[
            (1, Some(1_024)),
            (1_024, None),
            (1_025, None),
            (2_047, None),
        ],
    ),
    (1_024, 2_049, 1, &[(1_024, None), (1_025, Some(2_048))]),
];

fn goes_over(context: &mut Context, quanta: u32) -> bool {
    if quanta == 0 {
        return true;
    }
    let mut goes = starts(context, 7);
    for _ in 0..quanta {
        goes = turns_to(context, Turn::Went) && goes;
    }
    goes
}

fn suspends_in_turn(context: &mut Context, quanta: u32, calls: &[(i64, Option<u64>)]) -> bool {
    let mut are_met = goes_over(context, quanta);
    for (time, want) in calls {
        are_met = suspends(context, 5, *time, *want) && are_met;
    }
    are_met
}

fn is_row_met(alloc: Global, row: &Row) -> Result<bool, Exc> {
    let (quantum, length, quanta, calls) = *row;
    let mut context = begin(alloc, quantum, length)?;
    let is_met = suspends_in_turn(&mut context, quanta, calls);
    drop(context);
    Ok(is_met)
}

#[test]
fn suspends_take_effect_at_the_next_boundary_or_are_refused(rt: HostRuntime) {
    for row in &SUSPENDS {
        assert!(rt; is_row_met(rt.alloc(), row) == Ok(true), "{row:?}");
    }
}

// A context before its start: there is nothing to resume, and suspensions can be asked for.
fn is_idle(context: &mut Context) -> bool {
    context.spec() == spec_of(128, 500)
        && is_at(context, State::Suspended, 0, None)
        && turn(context).is_none()
        && refuses_resume(context)
        && suspends(context, 3, 100, Some(128))
        && suspends(context, 4, 300, Some(384))
        && is_at(context, State::Suspended, 0, None)
}

// It is started once. What runs is resumed without effect.
fn is_started_once(context: &mut Context) -> bool {
    starts(context, 7)
        && is_at(context, State::Running, 0, Some(7))
        && refuses_start(context)
        && is_at(context, State::Running, 0, Some(7))
        && resumes(context)
        && is_at(context, State::Running, 0, Some(7))
}

// It is suspended where that is due, until it is resumed.
fn is_suspended(context: &mut Context) -> bool {
    turns_to(context, Turn::Due(3))
        && is_at(context, State::Suspended, 128, Some(7))
        && turn(context).is_none()
        && refuses_start(context)
        && suspends(context, 8, 128, None)
        && suspends(context, 9, 300, None)
        && is_at(context, State::Suspended, 128, Some(7))
        && resumes(context)
        && is_at(context, State::Running, 128, Some(7))
}

// A suspension that is over is not due again. The next one is, and the last turn reaches the length.
fn is_done(context: &mut Context) -> bool {
    turns_to(context, Turn::Went)
        && is_at(context, State::Running, 256, Some(7))
        && turns_to(context, Turn::Due(4))
        && is_at(context, State::Suspended, 384, Some(7))
        && resumes(context)
        && turns_to(context, Turn::Done(7))
        && is_at(context, State::Closed, 512, Some(7))
}

fn is_closed(context: &mut Context) -> bool {
    turn(context).is_none()
        && refuses_resume(context)
        && refuses_start(context)
        && suspends(context, 9, 600, None)
        && suspends(context, 9, 400, None)
        && is_at(context, State::Closed, 512, Some(7))
}

fn goes_from_start_to_end(context: &mut Context) -> bool {
    is_idle(context)
        && is_started_once(context)
        && is_suspended(context)
        && is_done(context)
        && is_closed(context)
}

fn goes(alloc: Global) -> Result<bool, Exc> {
    let mut context = begin(alloc, 128, 500)?;
    let goes = goes_from_start_to_end(&mut context);
    drop(context);
    Ok(goes)
}

#[test]
fn a_context_goes_from_its_start_to_its_end(rt: HostRuntime) {
    assert!(rt; goes(rt.alloc()) == Ok(true));
}

// A suspension at the next boundary that was asked for at one is due a quantum later.
fn asks_at_a_suspension(context: &mut Context) -> bool {
    suspends(context, 1, 1, Some(128))
        && starts(context, 2)
        && turns_to(context, Turn::Due(1))
        && suspends(context, 3, 129, Some(256))
        && resumes(context)
        && turns_to(context, Turn::Due(3))
        && resumes(context)
        && turns_to(context, Turn::Went)
        && turns_to(context, Turn::Done(2))
}

fn asks(alloc: Global) -> Result<bool, Exc> {
    let mut context = begin(alloc, 128, 385)?;
    let asks = asks_at_a_suspension(&mut context);
    drop(context);
    Ok(asks)
}

#[test]
fn a_suspension_is_asked_for_at_another(rt: HostRuntime) {
    assert!(rt; asks(rt.alloc()) == Ok(true));
}

// Schedules a suspension at a frame that was asked for, a second time where memory for it was refused.
// Whether that had changed nothing.
fn schedules_again(context: &mut Context, ordinal: u32, time: i64) -> Result<bool, Refusal> {
    let frame = context.suspend_frame(time)?;
    if context.schedule(frame, ordinal) == Err(NoMemory) {
        let is_as_before = context.suspend_frame(time);
        let Ok(frame) = is_as_before else {
            return Ok(false);
        };
        context.schedule(frame, ordinal)?;
    }
    Ok(context.suspend_frame(time) == Err(Exc::InvalidState))
}

// 40 suspensions, the last one first, and then a start.
fn schedules_all(context: &mut Context) -> Result<bool, Refusal> {
    for back in 0..40_u32 {
        let ordinal = 40_u32.wrapping_sub(back);
        let time = i64::from(ordinal).wrapping_mul(128);
        if !schedules_again(context, ordinal, time)? {
            return Ok(false);
        }
    }
    Ok(starts(context, 41))
}

fn are_due_in_turn(context: &mut Context) -> bool {
    for ordinal in 1..41 {
        if !turns_to(context, Turn::Due(ordinal)) || !resumes(context) {
            return false;
        }
    }
    turns_to(context, Turn::Done(41))
}

fn schedules(context: &mut Context) -> Result<bool, Refusal> {
    Ok(schedules_all(context)? && are_due_in_turn(context))
}

fn is_done_again(alloc: Global) -> Result<bool, Refusal> {
    let mut context = begin(alloc, 128, 5_248)?;
    let is_done = schedules(&mut context);
    drop(context);
    is_done
}

// Where memory for a suspension is refused, the context is as before. All are due in the order of time.
#[test]
fn what_was_refused_memory_can_be_done_again(rt: HostRuntime) -> Result<(), Fail> {
    assert!(rt; is_done_again(rt.alloc())?);
    Ok(())
}
