ghost use Rattle.std.specs.Prelude.{◌≡◌, ◌↔◌, Some, ◌≤◌, ◌+◌, ◌-◌, ◌*◌, ◌/◌, None, true, IfOk, IfErr, IsErrOf, IsOk, OnOk, OnErr};
ghost use Rattle.std.specs.Result.{result_err};
ghost use Rattle.wa_base.specs.Contexts.{quantum_of, IsQuantumSize, IsSupported};
ghost use Rattle.ctx_state.specs.Context as of_context;

use std::alloc::Global;
use std::collections::BTreeMap;
use std::marker::Model;
use wa_base::{ContextSpec, Exc, NoMemory, Refusal, State};

/// What a quantum led to.
#[derive(Clone, Copy, PartialEq, Eq)]
pub enum Turn {
    /// Rendering goes on.
    Went,
    /// A suspension is due. The ordinal is that of its suspend.
    Due(u32),
    /// The length is reached. The ordinal is that of the accepted startRendering.
    Done(u32),
}

/// The state of an OfflineAudioContext, its time, and its suspensions.
///
/// Times are in frames. The context is suspended until rendering is started, and again at each
/// suspension until it is resumed; it is closed where its length is reached.
#[derive(Drop)]
pub struct Context {
    spec: ContextSpec,
    state: State,
    time: u64,
    started: Option<u32>,
    // The frame of each suspension, with the ordinal of its suspend.
    suspensions: BTreeMap<u64, u32>,
}

impl Model for Context {
    ghost use Rattle.ctx_state.specs.Context.{ContextView, IsContext};

    ghost Value = { ContextView };

    ghost view = { λ s. record { spec = s.spec; state = s.state; time = s.time; started = s.started; suspensions = s.suspensions.entries } };

    ghost invariant = { λ s. IsContext (record { spec = s.spec; state = s.state; time = s.time; started = s.started; suspensions = s.suspensions.entries }) };
}

impl Context {
    /// A context before its first call. It takes no memory until a suspension is scheduled.
    pub fn new(alloc: Global, spec: ContextSpec) -> Context
        requires { IsSupported spec }
        ensures { result ≡ of_context.first_context spec }
    {
        Context {
            spec,
            state: State::Suspended,
            time: 0,
            started: None,
            suspensions: BTreeMap::new(alloc),
        }
    }

    /// What the context was created with.
    pub fn spec(&self) -> ContextSpec
        ensures { result ≡ self.now.spec }
    {
        self.spec
    }

    // The number of frames of a quantum.
    fn quantum(&self) -> u64
        ensures value { result ≡ quantum_of self.now.spec }
        ensures size { IsQuantumSize result }
    {
        u64::from(self.spec.quantum)
    }

    /// The state (BaseAudioContext.state).
    pub fn state(&self) -> State
        ensures { result ≡ self.now.state }
    {
        self.state
    }

    /// The first frame of the next quantum (BaseAudioContext.currentTime, in frames).
    pub fn now(&self) -> u64
        ensures now { result ≡ self.now.time }
        ensures short { result ≤ 33555456 }
        ensures state { of_context.IsInState self.now.state self.now.started self.now.time self.now.spec.length }
    {
        self.time
    }

    /// The ordinal of the accepted startRendering.
    pub fn started(&self) -> Option<u32>
        ensures started { result ≡ self.now.started }
        ensures state { of_context.IsInState self.now.state self.now.started self.now.time self.now.spec.length }
    {
        self.started
    }

    /// Why `start` would be refused now.
    pub fn start_refusal(&self) -> Option<Exc>
        ensures { result ≡ of_context.start_refusal self.now }
    {
        match self.started {
            Some(_) => Some(Exc::InvalidState),
            None => None,
        }
    }

    /// Starts rendering (OfflineAudioContext.startRendering). A second start is refused with
    /// InvalidStateError, and changes nothing.
    pub fn start(&mut self, ordinal: u32) -> Result<(), Exc>
        ensures refusal { result_err result ≡ of_context.start_refusal self.old }
        ensures ok { OnOk result (self.new ≡ of_context.with_start self.old ordinal) }
        ensures err { OnErr result (self.new ≡ self.old) }
    {
        if let Some(exc) = self.start_refusal() {
            return Err(exc);
        }
        self.state = State::Running;
        self.started = Some(ordinal);
        Ok(())
    }

    /// Why `resume` would be refused now.
    pub fn resume_refusal(&self) -> Option<Exc>
        ensures { result ≡ of_context.resume_refusal self.now }
    {
        match self.state {
            State::Suspended | State::Running if self.started.is_some() => None,
            _ => Some(Exc::InvalidState),
        }
    }

    /// Lets rendering go on (OfflineAudioContext.resume). Where rendering was not started, or the
    /// context is closed, it is refused with InvalidStateError and changes nothing.
    pub fn resume(&mut self) -> Result<(), Exc>
        ensures refusal { result_err result ≡ of_context.resume_refusal self.old }
        ensures ok { OnOk result (self.new ≡ of_context.resumed self.old) }
        ensures err { OnErr result (self.new ≡ self.old) }
    {
        if let Some(exc) = self.resume_refusal() {
            return Err(exc);
        }
        self.state = State::Running;
        Ok(())
    }

    /// The frame at which a suspend at a time takes effect: the next boundary of quanta. It is refused
    /// with InvalidStateError where that is negative, at or before the present, at or past the length,
    /// or where a suspension is scheduled already.
    pub fn suspend_frame(&self, time: i64) -> Result<u64, Exc>
        ensures refusal { result_err result ≡ of_context.suspend_refusal self.now time }
        ensures frame { IfOk result (λ frame. frame ≡ of_context.suspend_frame self.now time) }
        ensures may { IfOk result (λ frame. of_context.may_suspend self.now frame ≡ true) }
    {
        if time <= 0 || time as u64 >= self.spec.length {
            return Err(Exc::InvalidState);
        }
        let frame = boundary_from(time as u64, self.quantum());
        if frame <= self.time
            || frame >= self.spec.length
            || self.suspensions.contains_key(&frame)
        {
            return Err(Exc::InvalidState);
        }
        Ok(frame)
    }

    /// Schedules a suspension at a frame (OfflineAudioContext.suspend). After `NoMemory` the context is
    /// as before.
    pub fn schedule(&mut self, frame: u64, ordinal: u32) -> Result<(), NoMemory>
        requires { of_context.may_suspend self.old frame ≡ true }
        ensures ok { OnOk result (self.new ≡ of_context.with_suspension self.old frame ordinal) }
        ensures err { OnErr result (self.new ≡ self.old) }
    {
        self.suspensions.insert(frame, ordinal)?;
        Ok(())
    }

    /// Schedules a suspension at the next boundary of quanta, and gives its frame
    /// (OfflineAudioContext.suspend). It is refused as `suspend_frame` says. After a refusal, and after
    /// `NoMemory`, the context is as before.
    pub fn suspend(&mut self, ordinal: u32, time: i64) -> Result<u64, Refusal>
        ensures frame { IfOk result (λ frame. frame ≡ of_context.suspend_frame self.old time) }
        ensures ok { OnOk result (self.new ≡ of_context.with_suspension self.old (of_context.suspend_frame self.old time) ordinal) }
        ensures accepted { OnOk result (of_context.suspend_refusal self.old time ≡ None) }
        ensures refused { (exc : Exc) → IsErrOf result (Refusal.Exc exc) ↔ (of_context.suspend_refusal self.old time ≡ Some exc) }
        ensures err { OnErr result (self.new ≡ self.old) }
    {
        let frame = self.suspend_frame(time)?;
        self.schedule(frame, ordinal)?;
        Ok(frame)
    }

    /// What the next quantum will lead to.
    pub fn next_turn(&self) -> Turn
        requires { self.now.state ≡ State.Running }
        ensures { result ≡ of_context.turn_of self.now }
    {
        let next = self.time + self.quantum();
        if next >= self.spec.length {
            return Turn::Done(self.started.unwrap_or(0));
        }
        match self.suspensions.get(&next) {
            Some(ordinal) => Turn::Due(*ordinal),
            None => Turn::Went,
        }
    }

    /// Moves the time on by a quantum. Where its length is reached the context is closed, and where a
    /// suspension is due it is suspended.
    #[tactic(auto, unfolding(crate::specs::Context::after_turn))]
    pub fn turn(&mut self) -> Turn
        requires { self.old.state ≡ State.Running }
        ensures turn { result ≡ of_context.turn_of self.old }
        ensures context { self.new ≡ of_context.after_turn self.old }
        ensures state { of_context.IsTurned result self.old self.new }
    {
        let turn = self.next_turn();
        self.time += self.quantum();
        match turn {
            Turn::Went => {}
            Turn::Due(_) => {
                self.state = State::Suspended;
                self.suspensions.remove(&self.time);
            }
            Turn::Done(_) => self.state = State::Closed,
        }
        turn
    }
}

// A time in frames, moved up to the next boundary of quanta.
fn boundary_from(time: u64, quantum: u64) -> u64
    requires time { time ≤ 33554432 }
    requires quantum { IsQuantumSize quantum }
    ensures frame { result ≡ (time + (quantum - 1)) / quantum * quantum }
    ensures after { time ≤ result }
{
    time.div_ceil(quantum) * quantum
}
