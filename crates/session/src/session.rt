ghost use Rattle.std.specs.Prelude.{◌≡◌, ◌↔◌, ◌≤◌, ◌<◌, ◌+◌, ◌*◌, ◌/◌, Some, None, is_some, ◌⊎◌, ◌∷◌, ◌++◌, [], List, true, false, length, replicate, pos, IsTrue, IsSome, IsNone, IfOk, IfSome, IfErr, IsErrOf, OnOk, OnErr, Ok, ◌&&◌, if◌then◌else◌};
ghost use Rattle.io_edge.specs.Faults.{Rose};
ghost use Rattle.io_edge.specs.Paths.{Paths, SamePaths};
ghost use Rattle.script_ast.specs.Operations.{IsInRange};
ghost use Rattle.ctx_state.specs.Context.{IsInState, turn_of, is_closed};
ghost use Rattle.wa_base.specs.Contexts.{IsQuantumSize, IsSupported, quantum_of};
ghost use Rattle.control_msgs.specs.Messages.{IsAcceptedBy, ended_marked};
ghost use Rattle.meaning.specs.Changes.{Accepts};
ghost use Rattle.session.specs.Session.{after_call, after_turn, end_of, lines_at_end};
ghost use Rattle.wa_base.specs.Contexts.{is_supported as supports};
ghost use Rattle.control_side.specs.Assets.{IsHeld};
ghost use Rattle.control_side.specs.Step.{is_start, is_decode, KeepsTime, RunsOnceStarted};
ghost use Rattle.control_side.specs.Machine.{caught_up};
ghost use Rattle.control_side.specs.Turns.{IsTurned};
ghost use Rattle.session.specs.View.{IsFirst, IsAsBefore, Stands, Follows, MakesRoom, Gets, Marks, CatchesUp, Hears, GoesOn, Waits, IsAt, sent};
ghost use Rattle.meaning.specs.declared.world.World.{World as a_world};
ghost use Rattle.meaning.specs.World.{sounding};
ghost use Rattle.meaning.specs.Worlds.{first_world};
ghost use Rattle.quantum_render.specs.Stands.{StandsFor};

use crate::assets::asset_for;
use crate::render_side::RenderSide;
use crate::rendered::Rendered;
use crate::replay::Outcome;
use crate::stop::Stop;
use control_msgs::Message;
use control_side::{Control, Stepped};
use ctx_state::Turn;
use io_edge::Files;
use meaning::{Change, World};
use script_ast::{Call, Op};
use std::alloc::Global;
use std::marker::Model;
use transcript::{EndWord, Line, Lines};
use wa_base::{ContextSpec, Exc, Fix, NoMemory, Refusal, Samples, State, Tie};

/// How a session is run.
#[derive(Clone, Copy, Debug, PartialEq, Eq)]
pub struct Options {
    /// Which of two nodes is rendered first where either may be. The samples do not depend on it.
    pub tie: Tie,
    /// Whether samples are rendered.
    pub audio: bool,
}

/// A session while it runs. Contracts see it as its machine, its lines, its samples and, with audio,
/// its renderer.
#[derive(Drop)]
pub struct Session {
    alloc: Global,
    control: Control,
    // The first frame of the last quantum, where the current values of the parameters are still to be
    // set to what they were there: no sample hangs on them, so they are set once before a call.
    behind: Option<u64>,
    lines: Lines,
    // With audio, the side that renders.
    side: Option<RenderSide>,
    samples: Vec<Fix>,
}

impl Model for Session {
    ghost use Rattle.std.specs.Prelude.{is_some, option_map};
    ghost use Rattle.control_side.specs.Machine.{caught_up};
    ghost use Rattle.session.specs.View.{SessionView, IsSound};

    ghost Value = { SessionView };

    ghost view = { λ s. record { told = record { machine = caught_up s.behind s.control; lines = s.lines.items }; audio = is_some s.side; samples = s.samples.items; renderer = option_map (λ side. side.renderer) s.side } };

    ghost invariant = { λ s. IsSound (is_some s.side) s.control s.lines.room s.samples.items s.side };
}

impl Session {
    /// A session in which no call came yet.
    pub fn new(alloc: Global, spec: ContextSpec, options: Options) -> Result<Session, Refusal>
        ensures ok { IfOk result (IsFirst spec options.audio) }
        ensures tie { IfOk result (λ session. IfSome session.renderer (λ renderer. renderer.tie ≡ options.tie)) }
        ensures refused { IsErrOf result (Refusal.Exc (Exc.NotSupported None)) ↔ (supports spec ≡ false) }
        ensures others { IfErr result (λ e. (e ≡ Refusal.Exc (Exc.NotSupported None)) ⊎ (e ≡ Refusal.NoMemory)) }
    {
        if !spec.is_supported() {
            return Err(Refusal::Exc(Exc::NotSupported(None)));
        }
        let mut lines = Lines::new(alloc);
        lines.reserve(1)?;
        let control = Control::new(alloc, spec)?;
        let side = match side_of(alloc, spec, options) {
            Ok(side) => side,
            Err(NoMemory) => {
                drop(control);
                return Err(Refusal::NoMemory);
            }
        };
        Ok(Session {
            alloc,
            control,
            behind: None,
            lines,
            side,
            samples: Vec::new(alloc),
        })
    }

    /// Does one control call at the time of the context. A refusal is a line. decodeAudioData settles
    /// within the call; its file is one of `files`. `AssetFault` comes where reading that failed. After
    /// a `Stop` the session stands as before, and the call can be made again.
    pub fn call<F: Files>(&mut self, call: &Call, files: &mut F) -> Result<(), Stop>
        requires { IsInRange call.now.op }
        ensures told { OnOk result ((held : Paths) × IsHeld (F.tells files.old) (F.paths files.old) held × (self.new.told ≡ after_call self.old.told held call.now)) }
        ensures audio { self.new.audio ≡ self.old.audio }
        ensures kept { KeepsTime self.old.told.machine self.new.told.machine }
        ensures started { IsSome self.old.told.machine.context.started → IsSome self.new.told.machine.context.started }
        ensures runs { RunsOnceStarted self.old.told.machine → RunsOnceStarted self.new.told.machine }
        ensures stands { (tape : List a_world) → Stands self.old tape → Stands self.new tape }
        ensures err { OnErr result (self.new ≡ self.old) }
        ensures tells { F.tells files.new ≡ F.tells files.old }
        ensures paths { IsTrue (F.tells files.old) → SamePaths (F.paths files.old) (F.paths files.new) }
        ensures later { F.read_faults files.old ≤ F.read_faults files.new }
        ensures writes { F.write_faults files.new ≡ F.write_faults files.old }
        ensures cause { IsErrOf result Stop.AssetFault → Rose (F.read_faults files.old) (F.read_faults files.new) × (is_decode call.now.op ≡ true) }
    {
        catch_up(&mut self.behind, &mut self.control, &mut self.side)?;
        self.lines.reserve(2)?;
        reserve(&mut self.side, 1)?;
        let samples = self.samples_for(&call.op)?;
        let asset = asset_for(self.alloc, &call.op, files)?;
        let Stepped { answer, change } = self.control.step(call, asset)?;
        send(&mut self.side, change);
        if let Some(samples) = samples {
            self.samples = samples;
        }
        self.lines.push_reserved(Line::Call(call.ordinal, answer));
        Ok(())
    }

    /// Takes a turn: renders one quantum, and closes the context where its length is reached, or
    /// suspends it where a suspension is due. The promise resolves then. After `NoMemory` the session
    /// stands as before, and the call can be made again.
    pub fn advance(&mut self) -> Result<Turn, NoMemory>
        requires { self.old.told.machine.context.state ≡ State.Running }
        ensures turn { IfOk result (λ turn. turn ≡ turn_of self.old.told.machine.context) }
        ensures told { OnOk result (self.new.told ≡ after_turn self.old.told) }
        ensures left { OnOk result (self.old.told.machine.context.time < self.old.told.machine.world.spec.length) }
        ensures time { OnOk result (self.new.told.machine.context.time ≡ self.old.told.machine.context.time + quantum_of self.old.told.machine.world.spec) }
        ensures size { OnOk result (IsQuantumSize (quantum_of self.old.told.machine.world.spec)) }
        ensures state { IfOk result (λ turn. IsTurned turn self.old.told.machine self.new.told.machine) }
        ensures audio { self.new.audio ≡ self.old.audio }
        ensures stands { (tape : List a_world) → Stands self.old tape → OnOk result (Stands self.new (tape ++ self.old.told.machine.world ∷ [])) }
        ensures err { OnErr result (IsAsBefore self.old self.new) }
    {
        let ended = self.control.lines_of_quantum(self.alloc)?;
        self.lines.reserve(ended.len() + 2)?;
        reserve(&mut self.side, 1)?;
        let first = self.control.now();
        let spec = self.control.spec();
        render(&mut self.side, first, self.samples.as_mut_slice())?;
        let turn = self.control.turn();
        self.behind = Some(first);
        post_ended(
            &mut self.side,
            first + u64::from(spec.quantum),
            !ended.is_empty(),
        );
        self.lines.append_reserved(ended);
        match turn {
            Turn::Went => {}
            Turn::Due(ordinal) | Turn::Done(ordinal) => {
                self.lines.push_reserved(Line::Resolved(ordinal));
            }
        }
        Ok(turn)
    }

    // The samples that an operation starts to render, all zeros.
    fn samples_for(&self, op: &Op) -> Result<Option<Vec<Fix>>, NoMemory>
        ensures some { IfOk result (λ samples. IsSome samples ↔ (IsTrue self.now.audio × IsNone self.now.told.machine.context.started × (is_start op.now ≡ true))) }
        ensures at_start { IfOk result (λ samples. IsSome samples → self.now.told.machine.context.time ≡ 0) }
        ensures zeros { IfOk result (λ samples. IfSome samples (λ v. v.items ≡ replicate (self.now.told.machine.world.spec.channels * self.now.told.machine.world.spec.length) (pos 0))) }
    {
        if self.side.is_none()
            || !matches!(op, Op::StartRendering)
            || self.control.started().is_some()
        {
            return Ok(None);
        }
        let spec = self.control.spec();
        let count = u64::from(spec.channels) * spec.length;
        Ok(Some(vec![in self.alloc; 0; count as usize]?))
    }

    /// The ordinal of the accepted startRendering.
    pub fn started(&self) -> Option<u32>
        ensures started { result ≡ self.now.told.machine.context.started }
        ensures state { IsInState self.now.told.machine.context.state self.now.told.machine.context.started self.now.told.machine.context.time self.now.told.machine.world.spec.length }
        ensures supported { IsSupported self.now.told.machine.world.spec }
    {
        self.control.started()
    }

    /// The outcome of a session as it stands. Where its context closed, the line of the complete
    /// event comes last, and with audio the samples are handed over. Where it was started and did not
    /// close, it stalled.
    pub fn finish(self) -> Outcome
        ensures lines { result.lines.items ≡ lines_at_end self.told }
        ensures end { result.end ≡ end_of self.told.machine.context }
        ensures quanta { result.quanta ≡ self.told.machine.context.time / quantum_of self.told.machine.world.spec }
        ensures state { IsInState self.told.machine.context.state self.told.machine.context.started self.told.machine.context.time self.told.machine.world.spec.length }
        ensures short { self.told.machine.context.time ≤ 33555456 }
        ensures rendered { result.rendered ≡ (if self.audio && is_closed self.told.machine.context.state then Some (record { spec = self.told.machine.world.spec; samples = self.samples }) else None) }
    {
        let end = self.end();
        let completed = self.is_closed();
        let spec = self.control.spec();
        let quanta = self.control.context().now() / u64::from(spec.quantum);
        let Session {
            control,
            mut lines,
            side,
            samples,
            ..
        } = self;
        let audio = side.is_some();
        drop(control);
        drop(side);
        if completed {
            lines.push_reserved(Line::Complete(spec.length));
        }
        Outcome {
            lines,
            end,
            quanta,
            rendered: rendered_if(audio && completed, spec, samples),
        }
    }

    // Whether the length was reached.
    fn is_closed(&self) -> bool
        ensures { result ≡ is_closed self.now.told.machine.context.state }
    {
        matches!(self.control.context().state(), State::Closed)
    }

    // How the session ended.
    fn end(&self) -> EndWord
        ensures { result ≡ end_of self.now.told.machine.context }
    {
        let context = self.control.context();
        match (context.state(), context.started()) {
            (State::Closed, _) => EndWord::Completed,
            (_, Some(_)) => EndWord::Stalled(context.now()),
            (_, None) => EndWord::Idle,
        }
    }

    /// The world in force. The current values of its parameters may be those of an earlier quantum.
    pub fn world(&self) -> &World
        ensures { sounding result.now ≡ sounding self.now.told.machine.world }
    {
        self.control.world()
    }

    // How many lines were told so far.
    pub(crate) fn line_count(&self) -> usize
        ensures { result ≡ length self.now.told.lines }
    {
        self.lines.len()
    }

    /// The state of the context.
    pub fn state(&self) -> State
        ensures { result ≡ self.now.told.machine.context.state }
    {
        self.control.context().state()
    }
}

// The side that renders, where samples are rendered.
fn side_of(
    alloc: Global,
    spec: ContextSpec,
    options: Options,
) -> Result<Option<RenderSide>, NoMemory>
    requires { IsSupported spec }
    ensures some { IfOk result (λ side. is_some side ≡ options.audio) }
    ensures world { IfOk result (λ side. IfSome side (λ s. sent s ≡ first_world spec)) }
    ensures stands { IfOk result (λ side. IfSome side (λ s. StandsFor s.renderer [])) }
    ensures spec { IfOk result (λ side. IfSome side (λ s. s.renderer.spec ≡ spec)) }
    ensures tie { IfOk result (λ side. IfSome side (λ s. s.renderer.tie ≡ options.tie)) }
{
    if options.audio {
        Ok(Some(RenderSide::new(alloc, spec, options.tie)?))
    } else {
        Ok(None)
    }
}

// The samples of a session that completed with audio.
fn rendered_if(has_samples: bool, spec: ContextSpec, samples: Vec<Fix>) -> Option<Rendered>
    ensures { result ≡ (if has_samples then Some (record { spec = spec; samples = samples.items }) else None) }
{
    if has_samples {
        Some(Rendered {
            spec,
            samples: Samples::from(samples),
        })
    } else {
        None
    }
}

// Makes room for messages to the side that renders.
fn reserve(side: &mut Option<RenderSide>, more: usize) -> Result<(), NoMemory>
    ensures ok { OnOk result (Follows (MakesRoom more) side.old side.new) }
    ensures err { OnErr result (Follows (MakesRoom 0) side.old side.new) }
{
    match side {
        Some(side) => side.reserve(more),
        None => Ok(()),
    }
}

// Sends a message to the side that renders.
fn post(side: &mut Option<RenderSide>, message: Message)
    requires room { IfSome side.old (λ s. 0 < s.room) }
    requires accepted { IfSome side.old (λ s. IsAcceptedBy (sent s) message) }
    ensures { Follows (Gets message) side.old side.new }
{
    if let Some(side) = side {
        side.post(message);
    }
}

// Has the side that renders mark the sources that end before the quantum that begins at `next`, where
// one does.
fn post_ended(side: &mut Option<RenderSide>, next: u64, any: bool)
    requires room { IfSome side.old (λ s. 0 < s.room) }
    requires none { any ≡ false → IfSome side.old (λ s. ended_marked next (sent s) ≡ sent s) }
    ensures { Follows (Marks next) side.old side.new }
{
    if any {
        post(side, Message::Ended(next));
    }
}

// Sets the current values that are still to be set, on both sides. After `NoMemory` they still are.
fn catch_up(
    behind: &mut Option<u64>,
    control: &mut Control,
    side: &mut Option<RenderSide>,
) -> Result<(), NoMemory>
    ensures ok { OnOk result ((behind.new ≡ None) × (control.new ≡ caught_up behind.old control.old) × Follows (CatchesUp behind.old) side.old side.new) }
    ensures err { OnErr result ((behind.new ≡ behind.old) × (control.new ≡ control.old) × Follows (MakesRoom 0) side.old side.new) }
{
    let Some(first) = *behind else {
        return Ok(());
    };
    reserve(side, 1)?;
    control.set_slots(first);
    post(side, Message::Slots(first));
    *behind = None;
    Ok(())
}

// Sends what a call changed to the side that renders.
fn send(side: &mut Option<RenderSide>, change: Option<Change>)
    requires room { IfSome side.old (λ s. 0 < s.room) }
    requires accepted { IfSome change (λ c. IfSome side.old (λ s. Accepts (sent s) c)) }
    ensures { Follows (Hears change) side.old side.new }
{
    if let Some(change) = change {
        post(side, Message::Change(change));
    }
}

// Renders the quantum that begins at `first`, where there is a side that renders.
fn render(side: &mut Option<RenderSide>, first: u64, samples: &mut [Fix]) -> Result<(), NoMemory>
    requires at { IfSome side.old (λ s. IsAt (sent s).spec first s.renderer) }
    requires running { IfSome side.old (λ s. first < (sent s).spec.length) }
    requires long { IfSome side.old (λ s. length samples.old ≡ (sent s).spec.channels * (sent s).spec.length) }
    ensures ok { OnOk result (Follows (GoesOn first samples.old samples.new) side.old side.new) }
    ensures err { OnErr result (Follows (Waits first) side.old side.new × (samples.new ≡ samples.old)) }
{
    match side {
        Some(side) => side.render(first, samples),
        None => Ok(()),
    }
}
