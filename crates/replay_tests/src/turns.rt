ghost use Rattle.script_ast.specs.Operations.{IsInRange};

use io_edge::MemFiles;
use script_ast::{Call, Op};
use session::{Options, Session, Stop, Turn};
use std::alloc::Global;
use std::test::Fail;
use transcript::EndWord;
use wa_base::{ContextSpec, NoMemory, Refusal, State, Tie};

// A function pays for each of its ends at which a session is let go, and much. So a session is made in one
// function, lent to the others, and given to `drop` or `finish` before any error goes up.

pub(crate) const WITH_AUDIO: Options = Options {
    tie: Tie::Up,
    audio: true,
};

// A session in which no call came yet. It is begun here so that no proof reckons with the numbers of a test.
pub(crate) fn begin(alloc: Global, channels: u32, length: u64) -> Result<Session, Refusal> {
    let context = ContextSpec {
        channels,
        length,
        rate: 48_000,
        quantum: 128,
    };
    Session::new(alloc, context, WITH_AUDIO)
}

// A call of the main list.
fn call(alloc: Global, session: &mut Session, ordinal: u32, op: Op) -> Result<(), Stop>
    requires { IsInRange op }
{
    let call = Call {
        ordinal,
        holder: 0,
        op,
    };
    let mut files = MemFiles::new(alloc);
    let called = session.call(&call, &mut files);
    drop(call);
    drop(files);
    called
}

// The next turn, where rendering goes on.
pub(crate) fn advance(session: &mut Session) -> Result<Option<Turn>, NoMemory> {
    if session.state() == State::Running {
        return Ok(Some(session.advance()?));
    }
    Ok(None)
}

pub(crate) fn is_at(session: &Session, state: State, started: Option<u32>) -> bool {
    session.state() == state && session.started() == started
}

// Whether a session of two quanta goes from its start to its end.
fn goes_on(alloc: Global, session: &mut Session) -> Result<bool, Stop> {
    let was_idle = is_at(session, State::Suspended, None);
    call(alloc, session, 7, Op::StartRendering)?;
    let is_started = session.started() == Some(7);
    let turns = [advance(session)?, advance(session)?, advance(session)?];
    Ok(
        was_idle
            && is_started
            && turns == [Some(Turn::Went), Some(Turn::Done(7)), None]
            && is_at(session, State::Closed, Some(7)),
    )
}

fn goes_call_by_call(alloc: Global) -> Result<bool, Fail> {
    let mut session = begin(alloc, 2, 200)?;
    let goes = goes_on(alloc, &mut session);
    drop(session);
    Ok(goes?)
}

#[test]
fn a_session_goes_call_by_call(rt: HostRuntime) -> Result<(), Fail> {
    assert!(rt; goes_call_by_call(rt.alloc())?);
    Ok(())
}

// Whether a session comes to a suspension after the first quantum, and waits there.
fn waits(alloc: Global, session: &mut Session) -> Result<bool, Stop> {
    call(alloc, session, 5, Op::Suspend { time: 1 })?;
    call(alloc, session, 7, Op::StartRendering)?;
    let turns = [advance(session)?, advance(session)?];
    Ok(turns == [Some(Turn::Due(5)), None] && is_at(session, State::Suspended, Some(7)))
}

// The end of a session; None where its context still runs.
fn end_of(session: Session) -> Option<EndWord> {
    if session.state() == State::Running {
        drop(session);
        return None;
    }
    let outcome = session.finish();
    let end = outcome.end;
    drop(outcome);
    Some(end)
}

fn end_at_a_suspension(alloc: Global) -> Result<Option<EndWord>, Fail> {
    let mut session = begin(alloc, 2, 256)?;
    let waits = waits(alloc, &mut session);
    let end = end_of(session);
    Ok(if waits? { end } else { None })
}

#[test]
fn a_session_that_is_not_resumed_has_stalled(rt: HostRuntime) -> Result<(), Fail> {
    assert_eq!(rt;
        end_at_a_suspension(rt.alloc())?,
        Some(EndWord::Stalled(128))
    );
    Ok(())
}
