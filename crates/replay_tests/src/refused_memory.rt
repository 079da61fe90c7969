// Where one growth is refused, what asked for it is done again, and comes out as where none was: tried by
// hand, with `rt try --test --fail-alloc N`.

ghost use Rattle.std.specs.Prelude.{IfOk};
ghost use Rattle.script_ast.specs.WellFormed.{AreCallsAfter, IsWellFormed};

use crate::turns::{WITH_AUDIO, advance, begin, is_at};
use io_edge::MemFiles;
use script_ast::{Call, Script};
use script_json::{ScriptErr, read};
use session::{Outcome, Session, Stop, Turn, run};
use std::alloc::Global;
use std::test::Fail;
use transcript::{EndWord, Lines, text};
use wa_base::{Bytes, Fix, NoMemory, Refusal, State};

// A source at half its value, in three quanta. After the second one the gain is halved, a second source
// begins, and the first one is to end within the third.
const SCRIPT: &str = r#"{"version":1,"context":{"channels":1,"length":384,"rate":48000},"calls":[
{"op":"createConstantSource","as":"c"},
{"op":"createGain","as":"g","gain":8388608},
{"op":"connect","from":"c","to":"g"},
{"op":"connect","from":"g","to":"destination"},
{"op":"start","node":"c"},
{"op":"suspend","time":200,"then":[
{"op":"readState"},
{"op":"setValue","node":"g","param":"gain","value":4194304},
{"op":"createConstantSource","as":"d","offset":2097152},
{"op":"connect","from":"d","to":"destination"},
{"op":"start","node":"d"},
{"op":"stop","node":"c","when":300},
{"op":"resume"}]},
{"op":"startRendering"}]}"#;

const LINES: &[u8] =
    b"1 ok\n2 ok\n3 ok\n4 ok\n5 ok\n6 pending\n14 pending\n6 resolved\n7 state suspended\n8 ok\n9 ok\n10 ok\n11 ok\n12 ok\n13 resolved\nended 1 c\n14 resolved\ncomplete 384\nend completed\n";

fn samples() -> [Fix; 384] {
    let mut samples = [8_388_608; 384];
    for sample in &mut samples[256..300] {
        *sample = 6_291_456;
    }
    for sample in &mut samples[300..] {
        *sample = 2_097_152;
    }
    samples
}

// A script that is read a second time where memory for it was refused.
fn script_again(alloc: Global) -> Result<Script, ScriptErr>
    ensures { IfOk result IsWellFormed }
{
    match read(alloc, SCRIPT.as_bytes()) {
        Ok(script) => Ok(script),
        Err(_) => read(alloc, SCRIPT.as_bytes()),
    }
}

fn begin_again(alloc: Global) -> Result<Session, Refusal> {
    begin(alloc, 1, 384).or_else(|_| begin(alloc, 1, 384))
}

// The calls of one list, each made a second time where memory for it was refused.
fn list_again(
    session: &mut Session,
    calls: &[Call],
    holder: u32,
    files: &mut MemFiles,
) -> Result<(), Stop>
    requires { AreCallsAfter 0 calls.now }
{
    for call in calls {
        if call.holder == holder && session.call(call, files) == Err(Stop::NoMemory) {
            session.call(call, files)?;
        }
    }
    Ok(())
}

fn advance_again(session: &mut Session) -> Result<Option<Turn>, NoMemory> {
    match advance(session) {
        Err(NoMemory) => advance(session),
        turn => turn,
    }
}

// Whether a session goes to its suspension, is resumed in its list, and goes to its end.
fn goes_on(session: &mut Session, calls: &[Call], files: &mut MemFiles) -> Result<bool, Stop>
    requires { AreCallsAfter 0 calls.now }
{
    list_again(session, calls, 0, files)?;
    let turns = [advance_again(session)?, advance_again(session)?];
    let is_due = turns == [Some(Turn::Went), Some(Turn::Due(6))]
        && is_at(session, State::Suspended, Some(14));
    list_again(session, calls, 6, files)?;
    let is_resumed = is_at(session, State::Running, Some(14));
    let last = advance_again(session)?;
    Ok(
        is_due
            && is_resumed
            && last == Some(Turn::Done(14))
            && is_at(session, State::Closed, Some(14)),
    )
}

fn goes_on_again(alloc: Global, session: &mut Session, script: &Script) -> Result<bool, Stop>
    requires { IsWellFormed script.now }
{
    let mut files = MemFiles::new(alloc);
    let goes = goes_on(session, script.calls.as_slice(), &mut files);
    drop(files);
    goes
}

// What a session came to, and whether it went to its end as it should.
fn outcome_again(alloc: Global, script: &Script) -> Result<(Outcome, bool), Fail>
    requires { IsWellFormed script.now }
{
    let mut session = begin_again(alloc)?;
    let goes = goes_on_again(alloc, &mut session, script);
    let outcome = session.finish();
    Ok((outcome, goes?))
}

fn text_again(alloc: Global, lines: &Lines, end: EndWord) -> Result<Bytes, NoMemory> {
    match text(alloc, lines, &end) {
        Err(NoMemory) => text(alloc, lines, &end),
        Ok(bytes) => Ok(bytes),
    }
}

// Whether the lines and the samples are those of the script.
fn is_whole(alloc: Global, outcome: &Outcome) -> Result<bool, NoMemory> {
    let lines = text_again(alloc, &outcome.lines, outcome.end)?;
    let samples = samples();
    let is_heard = match &outcome.rendered {
        Some(rendered) => rendered.samples.as_slice() == samples.as_slice(),
        None => false,
    };
    Ok(is_heard && lines.as_slice() == LINES)
}

fn comes_out(alloc: Global, script: &Script) -> Result<bool, Fail>
    requires { IsWellFormed script.now }
{
    let (outcome, goes) = outcome_again(alloc, script)?;
    let is_whole = is_whole(alloc, &outcome);
    drop(outcome);
    Ok(goes && is_whole?)
}

#[test]
fn a_call_and_a_quantum_can_be_done_again(rt: HostRuntime) -> Result<(), Fail> {
    let script = script_again(rt.alloc())?;
    let comes_out = comes_out(rt.alloc(), &script);
    drop(script);
    assert!(rt; comes_out?);
    Ok(())
}

// A script that is run a second time where memory for it was refused.
fn run_with(alloc: Global, script: &Script, files: &mut MemFiles) -> Result<Outcome, Stop>
    requires { IsWellFormed script.now }
{
    match run(alloc, script, WITH_AUDIO, files) {
        Ok(outcome) => Ok(outcome),
        Err(_) => run(alloc, script, WITH_AUDIO, files),
    }
}

fn run_again(alloc: Global, script: &Script) -> Result<Outcome, Stop>
    requires { IsWellFormed script.now }
{
    let mut files = MemFiles::new(alloc);
    let outcome = run_with(alloc, script, &mut files);
    drop(files);
    outcome
}

fn comes_out_of_a_run(alloc: Global, script: &Script) -> Result<bool, Fail>
    requires { IsWellFormed script.now }
{
    let outcome = run_again(alloc, script)?;
    let is_whole = is_whole(alloc, &outcome);
    drop(outcome);
    Ok(is_whole?)
}

#[test]
fn a_script_can_be_run_again(rt: HostRuntime) -> Result<(), Fail> {
    let script = script_again(rt.alloc())?;
    let comes_out = comes_out_of_a_run(rt.alloc(), &script);
    drop(script);
    assert!(rt; comes_out?);
    Ok(())
}
