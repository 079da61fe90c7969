ghost use Rattle.std.specs.Prelude.{◌≡◌, ◌<◌, ◌≤◌, ◌+◌, false, true, length, None, Some, option_map, IfOk, IfSome, IsSome, is_some, OnOk, OnErr};
ghost use Rattle.io_edge.specs.Paths.{Paths};
ghost use Rattle.wa_base.specs.Contexts.{IsSupported};
ghost use Rattle.script_ast.specs.Operations.{IsInRange, new_name};
ghost use Rattle.script_ast.specs.Ranges.{IsNewName};
ghost use Rattle.meaning.specs.World.{plain};
ghost use Rattle.meaning.specs.Validity.{IsValid};
ghost use Rattle.meaning.specs.Changes.{Accepts, Grows, creates};
ghost use Rattle.control_side.specs.Assets.{HasAsset, IsAssetOf};
ghost use Rattle.control_side.specs.Machine.{Machine, IsAccepted, first_machine, caught_up};
ghost use Rattle.ctx_state.specs.Context.{IsInState, next, turn_of, start_refusal, with_start, resume_refusal, resumed, may_suspend, with_suspension};
ghost use Rattle.control_side.specs.Steady.{IsSteady};
ghost use Rattle.control_msgs.specs.Messages.{ended_marked};
ghost use Rattle.control_side.specs.Turns as turns;
ghost use Rattle.control_side.specs.Step as spec;
ghost use Rattle.control_side.specs.Step.{Steps, Sends, KeepsTime, RunsOnceStarted};

use crate::decide::Decided;
use crate::ends::{ended_lines, open_until};
use control_msgs::mark_ended;
use ctx_state::{Context, Turn};
use io_edge::Fetched;
use meaning::{Change, Edit, World};
use name_book::{Book, Object};
use script_ast::{Call, Op};
use std::alloc::Global;
use std::marker::Model;
use transcript::{Answer, Line};
use wa_base::{BufId, ContextSpec, Name, NoMemory, NodeId, State};

/// What a call did: its answer, and the change of the world of which the side that renders has to hear.
#[derive(Drop)]
pub struct Stepped {
    pub answer: Answer,
    pub change: Option<Change>,
}

/// The control side of a session: its context, its nodes and connections, and its names. Contracts
/// see it as the machine.
#[derive(Drop)]
pub struct Control {
    pub(crate) alloc: Global,
    pub(crate) context: Context,
    pub(crate) world: World,
    pub(crate) book: Book,
    // No source ends before this frame.
    open_until: u64,
}

impl Model for Control {
    ghost use Rattle.control_side.specs.Machine.{Machine, machine_of};

    ghost Value = { Machine };

    ghost view = { λ s. machine_of s.context s.world s.book };

    ghost use Rattle.control_side.specs.Steady.{AreOpen, IsSteady};

    ghost invariant = { λ s. IsSteady (machine_of s.context s.world s.book) × AreOpen s.open_until s.world.scheds.items };
}

impl Control {
    /// The machine of a context before its first call.
    pub fn new(alloc: Global, spec: ContextSpec) -> Result<Control, NoMemory>
        requires { IsSupported spec }
        ensures machine { IfOk result (λ control. control ≡ first_machine spec) }
        ensures valid { IfOk result (λ control. IsValid control.world) }
    {
        Ok(Control {
            alloc,
            context: Context::new(alloc, spec),
            world: World::new(alloc, spec)?,
            book: Book::new(alloc),
            open_until: 0,
        })
    }
}

impl Control {
    /// Does one call at the time of the context. A refused call changes nothing but for its answer.
    /// decodeAudioData settles within the call: `asset` is what the folder of assets has at its path,
    /// and nothing for any other call. After `NoMemory` all is as before, and the call can be made
    /// again.
    pub fn step(&mut self, call: &Call, asset: Option<Fetched>) -> Result<Stepped, NoMemory>
        requires in_range { IsInRange call.now.op }
        requires asset { HasAsset call.now.op asset }
        ensures ok { IfOk result (λ stepped. (held : Paths) → IsAssetOf held call.now.op asset → Steps self.new (spec.step self.old held call.now) stepped.answer) }
        ensures sends { IfOk result (λ stepped. Sends self.old.world self.new.world stepped.change) }
        ensures kept { KeepsTime self.old self.new }
        ensures grows { Grows self.old.context.time self.old.world self.new.world }
        ensures kept_start { spec.is_start call.now.op ≡ false → self.new.context.started ≡ self.old.context.started }
        ensures started { spec.is_start call.now.op ≡ true → OnOk result (IsSome self.new.context.started) }
        ensures runs { RunsOnceStarted self.old → RunsOnceStarted self.new }
        ensures err { OnErr result (self.new ≡ self.old) }
    {
        let decided = self.decide_with(&call.op, asset)?;
        self.settle(call, decided)
    }
}

// What is done.
impl Control {
    // Does what was decided. After `NoMemory` all is as before.
    fn settle(&mut self, call: &Call, decided: Decided) -> Result<Stepped, NoMemory>
        requires range { IsInRange call.now.op }
        requires decided { spec.IsFor self.old call.now.op decided }
        ensures ok { IfOk result (λ stepped. Steps self.new (spec.settled self.old call.now decided) stepped.answer) }
        ensures sends { IfOk result (λ stepped. Sends self.old.world self.new.world stepped.change) }
        ensures err { OnErr result (self.new ≡ self.old) }
    {
        match decided {
            Decided::Answer(answer) => Ok(answered(answer)),
            Decided::Start => {
                self.start(call.ordinal);
                Ok(answered(Answer::Pending))
            }
            Decided::Suspend { frame } => {
                self.schedule(frame, call.ordinal)?;
                Ok(answered(Answer::Pending))
            }
            Decided::Resume => {
                self.resume();
                Ok(answered(Answer::Resolved))
            }
            Decided::Change(edit) => {
                let change = self.make(call.op.new_name(), edit)?;
                Ok(Stepped {
                    answer: done(&call.op),
                    change: Some(change),
                })
            }
        }
    }

    // Edits the world, and binds the name to what that creates, where there is one. After `NoMemory` all
    // is as before.
    fn make(&mut self, name: Option<&Name>, edit: Edit) -> Result<Change, NoMemory>
        requires name { IfSome name (λ n. IsNewName n.now) }
        requires accepted { IsAccepted self.old edit }
        requires creates { creates edit ≡ is_some name }
        ensures ok { OnOk result (self.new ≡ spec.with_edit self.old edit (option_map (λ n. n.now) name.entry)) }
        ensures change { IfOk result (λ change. change ≡ record { time = self.old.context.time; edit = edit }) }
        ensures err { OnErr result (self.new ≡ self.old) }
    {
        let change = Change {
            time: self.context.now(),
            edit,
        };
        match name {
            Some(name) => self.create(name, &change)?,
            None => {
                self.open_until = 0;
                self.world.apply(&change)?;
            }
        }
        Ok(change)
    }

    // Creates an object, and binds a name to it. After `NoMemory` all is as before.
    fn create(&mut self, name: &Name, change: &Change) -> Result<(), NoMemory>
        requires name { IsNewName name.now }
        requires accepted { Accepts self.old.world change.now }
        requires time { change.now.time ≡ self.old.context.time }
        requires creates { creates change.now.edit ≡ true }
        ensures ok { OnOk result (self.new ≡ spec.with_edit self.old change.now.edit (Some name.now)) }
        ensures err { OnErr result (self.new ≡ self.old) }
    {
        let object = self.created_by(&change.edit);
        self.open_until = 0;
        self.book.reserve(name)?;
        self.world.apply(change)?;
        self.book.bind(name, object)?;
        Ok(())
    }

    // What an edit creates has the number after the last one of its kind.
    fn created_by(&self, edit: &Edit) -> Object
        ensures { result ≡ spec.created_by self.now edit.now }
    {
        match edit {
            Edit::Buffers { .. } => Object::Buffer(BufId(self.world.store.len())),
            _ => Object::Node(NodeId(self.world.nodes.len())),
        }
    }

    // Starts the rendering.
    fn start(&mut self, ordinal: u32)
        requires { start_refusal self.old.context ≡ None }
        ensures { self.new ≡ spec.with_context self.old (with_start self.old.context ordinal) }
    {
        let _accepted = self.context.start(ordinal);
    }

    // Schedules a suspension. After `NoMemory` all is as before.
    fn schedule(&mut self, frame: u64, ordinal: u32) -> Result<(), NoMemory>
        requires { may_suspend self.old.context frame ≡ true }
        ensures ok { OnOk result (self.new ≡ spec.with_context self.old (with_suspension self.old.context frame ordinal)) }
        ensures err { OnErr result (self.new ≡ self.old) }
    {
        self.context.schedule(frame, ordinal)
    }

    // Lets rendering go on.
    fn resume(&mut self)
        requires { resume_refusal self.old.context ≡ None }
        ensures { self.new ≡ spec.with_context self.old (resumed self.old.context) }
    {
        let _accepted = self.context.resume();
    }
}

// The context and its quanta.
impl Control {
    /// The context.
    pub fn context(&self) -> &Context
        ensures { result.now ≡ self.now.context }
    {
        &self.context
    }

    /// The ordinal of the accepted startRendering.
    pub fn started(&self) -> Option<u32>
        ensures started { result ≡ self.now.context.started }
        ensures state { IsInState self.now.context.state self.now.context.started self.now.context.time self.now.world.spec.length }
        ensures supported { IsSupported self.now.world.spec }
    {
        self.context.started()
    }

    /// The first frame of the next quantum.
    pub fn now(&self) -> u64
        ensures now { result ≡ self.now.context.time }
        ensures left { self.now.context.state ≡ State.Running → result < self.now.world.spec.length }
        ensures begun { self.now.context.state ≡ State.Running → IsSome self.now.context.started }
    {
        self.context.now()
    }

    /// The world that is in force.
    pub fn world(&self) -> &World
        ensures world { plain result.now ≡ self.now.world }
        ensures valid { IsValid result.now }
    {
        &self.world
    }

    /// The numbers of the context.
    pub fn spec(&self) -> ContextSpec
        ensures spec { result ≡ self.now.world.spec }
        ensures context { result ≡ self.now.context.spec }
        ensures supported { IsSupported result }
    {
        self.world.spec
    }

    /// The lines of the sources that end in the next quantum, in order of node number. Where there is
    /// none, the turn marks none.
    pub fn lines_of_quantum(&self, alloc: Global) -> Result<Vec<Line>, NoMemory>
        requires { self.now.context.state ≡ State.Running }
        ensures lines { IfOk result (λ lines. lines.items ≡ turns.ended_lines self.now.first_names (next self.now.context) self.now.world.scheds.items) }
        ensures none { IfOk result (λ lines. length lines.items ≡ 0 → ended_marked (next self.now.context) self.now.world ≡ self.now.world) }
    {
        let next = self.context.now() + u64::from(self.context.spec().quantum);
        if next < self.open_until {
            return Ok(Vec::new(alloc));
        }
        ended_lines(alloc, &self.book, self.world.scheds.as_slice(), next)
    }

    /// Goes over one quantum: the time moves on, and the sources that end in it are marked. The current
    /// value of each parameter is left to be set. Says what the quantum led to.
    pub fn turn(&mut self) -> Turn
        requires { self.old.context.state ≡ State.Running }
        ensures turn { result ≡ turn_of self.old.context }
        ensures machine { self.new ≡ turns.gone_on self.old }
        ensures state { turns.IsTurned result self.old self.new }
        ensures valid { IsValid self.new.world }
    {
        let turn = self.context.turn();
        let next = self.context.now();
        if self.open_until <= next {
            mark_ended(&mut self.world, next);
            self.open_until = open_until(self.world.scheds.as_slice());
        }
        turn
    }

    /// Sets the current value of each parameter to its intrinsic value at the first frame of a quantum.
    pub fn set_slots(&mut self, first: u64)
        ensures { self.new ≡ caught_up (Some first) self.old }
    {
        self.world.set_slots(first);
    }
}

// A call that is only answered.
fn answered(answer: Answer) -> Stepped
    ensures { result ≡ record { answer = answer; change = None } }
{
    Stepped {
        answer,
        change: None,
    }
}

// The answer to an edit that was made.
fn done(op: &Op) -> Answer
    ensures { result ≡ spec.done op.now }
{
    match op {
        Op::DecodeAudioData { .. } => Answer::Resolved,
        _ => Answer::Ok,
    }
}
