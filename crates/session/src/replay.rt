ghost use Rattle.std.specs.Prelude.{◌≡◌, ◌≤◌, List, [], length, true, IsTrue, IsSome, IfOk, IsErrOf, OnOk, Some, None, slice_index_or};
ghost use Rattle.io_edge.specs.Faults.{Rose};
ghost use Rattle.io_edge.specs.Paths.{SamePaths};
ghost use Rattle.script_ast.specs.WellFormed.{AreCallsAfter};
ghost use Rattle.wa_base.specs.Contexts.{IsSupported};
ghost use Rattle.session.specs.Folders.{Folder, IsFolderOf, AgreeBetween};
ghost use Rattle.session.specs.Rendering.{IsOutcomeOf};
ghost use Rattle.session.specs.Session.{after_calls, held_by, is_running as runs, session_of, HasDecode, Decodes, SessionDecodes};
ghost use Rattle.control_side.specs.Step.{KeepsTime, RunsOnceStarted};
ghost use Rattle.session.specs.Lists.{AreLengths};
ghost use Rattle.session.specs.View.{Stands, IsPlayed, IsReplayed, ComesToDecode};
ghost use Rattle.session.specs.Observing.{Saw};
ghost use Rattle.session.specs.Tapes.{HasTape};
ghost use Rattle.meaning.specs.declared.world.World.{World};

use crate::observer::{NoObserver, Observer};
use crate::rendered::Rendered;
use crate::session::{Options, Session};
use crate::stop::Stop;
use ctx_state::Turn;
use io_edge::Files;
use script_ast::{Call, Script};
use std::alloc::Global;
use transcript::{EndWord, Lines};
use wa_base::{NoMemory, Refusal, State};

/// What a session led to.
#[derive(Drop)]
pub struct Outcome {
    /// The lines of its transcript, without that of its end.
    pub lines: Lines,
    pub end: EndWord,
    /// How many quanta were rendered, or gone over where there is no audio.
    pub quanta: u64,
    /// With audio, the samples of a context that was rendered to its length.
    pub rendered: Option<Rendered>,
}

/// Replays a script: its main list at frame 0 and, where that started rendering, the quanta of the
/// context up to its length, and then the list that the promise of startRendering holds. Where a
/// suspension is due, the list that its promise holds is done between two quanta, and the session
/// stalls there unless that resumed the context. Assets are read from `files`.
///
/// A refused context, and refused calls, are part of the outcome. `AssetFault` comes where reading an
/// asset failed. After a `Stop` nothing is left of the session. No file is written.
pub fn run<F: Files>(
    alloc: Global,
    script: &Script,
    options: Options,
    files: &mut F,
) -> Result<Outcome, Stop>
    requires { AreCallsAfter 0 script.now.calls }
    ensures outcome { IfOk result (λ outcome. (folder : Folder) × IsFolderOf (F.tells files.old) (F.paths files.old) folder × IsOutcomeOf options.audio script.now.context (session_of folder script.now) outcome) }
    ensures tells { F.tells files.new ≡ F.tells files.old }
    ensures paths { IsTrue (F.tells files.old) → SamePaths (F.paths files.old) (F.paths files.new) }
    ensures later { F.read_faults files.old ≤ F.read_faults files.new }
    ensures writes { F.write_faults files.new ≡ F.write_faults files.old }
    ensures cause { IsErrOf result Stop.AssetFault → Rose (F.read_faults files.old) (F.read_faults files.new)
        × ((folder : Folder) × IsFolderOf (F.tells files.old) (F.paths files.old) folder × SessionDecodes folder script.now) }
{
    run_observed(alloc, script, options, files, &mut NoObserver)
}

/// Replays a script as `run` does, and shows an observer, who saw nothing yet, the world of each quantum
/// before it is rendered. It stops with NoMemory too where the observer has none.
#[tactic(auto, unfolding(crate::specs::Session::session_of))]
pub fn run_observed<F: Files, O: Observer>(
    alloc: Global,
    script: &Script,
    options: Options,
    files: &mut F,
    observer: &mut O,
) -> Result<Outcome, Stop>
    requires calls { AreCallsAfter 0 script.now.calls }
    requires unseen { Saw (O.saw observer.old) [] }
    ensures outcome { IfOk result (λ outcome. (folder : Folder) × IsFolderOf (F.tells files.old) (F.paths files.old) folder × IsOutcomeOf options.audio script.now.context (session_of folder script.now) outcome
        × Saw (O.saw observer.new) (session_of folder script.now).tape × HasTape script.now.context (session_of folder script.now)) }
    ensures tells { F.tells files.new ≡ F.tells files.old }
    ensures paths { IsTrue (F.tells files.old) → SamePaths (F.paths files.old) (F.paths files.new) }
    ensures later { F.read_faults files.old ≤ F.read_faults files.new }
    ensures writes { F.write_faults files.new ≡ F.write_faults files.old }
    ensures cause { IsErrOf result Stop.AssetFault → Rose (F.read_faults files.old) (F.read_faults files.new)
        × ((folder : Folder) × IsFolderOf (F.tells files.old) (F.paths files.old) folder × SessionDecodes folder script.now) }
{
    match Session::new(alloc, script.context, options) {
        Ok(mut session) => {
            match replay_calls(
                alloc,
                &mut session,
                script.calls.as_slice(),
                files,
                observer,
            ) {
                Ok(()) => Ok(session.finish()),
                Err(stop) => {
                    drop(session);
                    Err(stop)
                }
            }
        }
        Err(Refusal::Exc(exception)) => Ok(Outcome {
            lines: Lines::new(alloc),
            end: EndWord::Refused(exception),
            quanta: 0,
            rendered: None,
        }),
        Err(Refusal::NoMemory) => Err(Stop::NoMemory),
    }
}

// Does the calls of a script in a session without a call yet: the main list and, where that started
// rendering, what comes after it.
fn replay_calls<F: Files, O: Observer>(
    alloc: Global,
    session: &mut Session,
    calls: &[Call],
    files: &mut F,
    observer: &mut O,
) -> Result<(), Stop>
    requires calls { AreCallsAfter 0 calls.now }
    requires idle { session.old.told.machine.context.started ≡ None }
    requires fresh { Stands session.old [] }
    requires unseen { Saw (O.saw observer.old) [] }
    ensures ok { OnOk result (IsReplayed (Saw (O.saw observer.new)) (F.tells files.old) (F.paths files.old) calls.now session.old session.new) }
    ensures audio { session.new.audio ≡ session.old.audio }
    ensures tells { F.tells files.new ≡ F.tells files.old }
    ensures paths { IsTrue (F.tells files.old) → SamePaths (F.paths files.old) (F.paths files.new) }
    ensures later { F.read_faults files.old ≤ F.read_faults files.new }
    ensures writes { F.write_faults files.new ≡ F.write_faults files.old }
    ensures cause { IsErrOf result Stop.AssetFault → Rose (F.read_faults files.old) (F.read_faults files.new)
        × ((folder : Folder) × IsFolderOf (F.tells files.old) (F.paths files.old) folder × Decodes folder calls.now session.old.told) }
{
    let lengths = list_lengths(alloc, calls)?;
    let lengths = lengths.as_slice();
    call_list(session, calls, lengths, 0, files)?;
    if session.started().is_none() {
        return Ok(());
    }
    go_on(session, calls, lengths, files, observer)
}

// Takes turn after turn, with the lists of the suspensions that are due, until the length is reached,
// and its list is done, or a suspension is not resumed.
fn go_on<F: Files, O: Observer>(
    session: &mut Session,
    calls: &[Call],
    lengths: &[usize],
    files: &mut F,
    observer: &mut O,
) -> Result<(), Stop>
    requires calls { AreCallsAfter 0 calls.now }
    requires lengths { AreLengths lengths.now calls.now }
    requires running { session.old.told.machine.context.state ≡ State.Running }
    requires started { IsSome session.old.told.machine.context.started }
    requires supported { IsSupported session.old.told.machine.world.spec }
    requires fresh { Stands session.old [] }
    requires unseen { Saw (O.saw observer.old) [] }
    ensures ok { OnOk result (IsPlayed (Saw (O.saw observer.new)) (F.tells files.old) (F.paths files.old) calls.now session.old session.new) }
    ensures longer { length session.old.told.lines ≤ length session.new.told.lines }
    ensures audio { session.new.audio ≡ session.old.audio }
    ensures spec { session.new.told.machine.world.spec ≡ session.old.told.machine.world.spec }
    ensures started { OnOk result (IsSome session.new.told.machine.context.started) }
    ensures tells { F.tells files.new ≡ F.tells files.old }
    ensures paths { IsTrue (F.tells files.old) → SamePaths (F.paths files.old) (F.paths files.new) }
    ensures later { F.read_faults files.old ≤ F.read_faults files.new }
    ensures writes { F.write_faults files.new ≡ F.write_faults files.old }
    ensures cause { IsErrOf result Stop.AssetFault → Rose (F.read_faults files.old) (F.read_faults files.new)
        × ComesToDecode (F.tells files.old) (F.paths files.old) calls.now session.old session.new }
{
    let mut again = false;
    loop {
        observer.show(session.world(), again)?;
        let told = session.line_count();
        match session.advance()? {
            Turn::Went => again = session.line_count() == told,
            Turn::Due(ordinal) => {
                call_list(session, calls, lengths, ordinal, files)?;
                if !is_running(session.state()) {
                    return Ok(());
                }
                again = false;
            }
            Turn::Done(ordinal) => return call_list(session, calls, lengths, ordinal, files),
        }
    }
}

// Whether rendering goes on.
fn is_running(state: State) -> bool
    ensures { result ≡ runs state }
{
    match state {
        State::Running => true,
        State::Suspended | State::Closed => false,
    }
}

// How many calls each list has: at the place of a holder's ordinal, that of the list that it holds.
fn list_lengths(alloc: Global, calls: &[Call]) -> Result<Vec<usize>, NoMemory>
    requires { AreCallsAfter 0 calls.now }
    ensures { IfOk result (λ lengths. AreLengths lengths.items calls.now) }
{
    let mut lengths = vec![in alloc; 0; calls.len()]?;
    for call in calls {
        lengths[call.holder as usize] += 1;
    }
    Ok(lengths)
}

// Does the calls of one list, in their order. They come after their holder, and no call is looked at
// behind the last of them.
fn call_list<F: Files>(
    session: &mut Session,
    calls: &[Call],
    lengths: &[usize],
    holder: u32,
    files: &mut F,
) -> Result<(), Stop>
    requires calls { AreCallsAfter 0 calls.now }
    requires lengths { AreLengths lengths.now calls.now }
    ensures told { OnOk result ((folder : Folder) × IsFolderOf (F.tells files.old) (F.paths files.old) folder
        × ((other : Folder) → AgreeBetween (length session.old.told.lines) (length session.new.told.lines) folder other
        → session.new.told ≡ after_calls other session.old.told (held_by holder calls.now))) }
    ensures longer { length session.old.told.lines ≤ length session.new.told.lines }
    ensures audio { session.new.audio ≡ session.old.audio }
    ensures kept { KeepsTime session.old.told.machine session.new.told.machine }
    ensures started { IsSome session.old.told.machine.context.started → IsSome session.new.told.machine.context.started }
    ensures runs { RunsOnceStarted session.old.told.machine → RunsOnceStarted session.new.told.machine }
    ensures stands { (tape : List World) → Stands session.old tape → Stands session.new tape }
    ensures tells { F.tells files.new ≡ F.tells files.old }
    ensures paths { IsTrue (F.tells files.old) → SamePaths (F.paths files.old) (F.paths files.new) }
    ensures later { F.read_faults files.old ≤ F.read_faults files.new }
    ensures writes { F.write_faults files.new ≡ F.write_faults files.old }
    ensures cause { IsErrOf result Stop.AssetFault → Rose (F.read_faults files.old) (F.read_faults files.new) × HasDecode (held_by holder calls.now) }
{
    let mut left = length_of(lengths, holder);
    let mut place = holder as usize;
    while left > 0 {
        let call = &calls[place];
        place += 1;
        if call.holder == holder {
            left -= 1;
            session.call(call, files)?;
        }
    }
    Ok(())
}

// The length of the list of a holder.
fn length_of(lengths: &[usize], holder: u32) -> usize
    ensures { result ≡ slice_index_or lengths.now holder 0 }
{
    match lengths.get(holder as usize) {
        Some(length) => *length,
        None => 0,
    }
}
