ghost use Rattle.std.specs.Prelude.{IfSome};
ghost use Rattle.law_base.specs.Members.{IsIn};
ghost use Rattle.meaning.specs.Changes.{IsNamed};
ghost use Rattle.meaning.specs.declared.change.Edit.TheVariants as edits;
ghost use Rattle.meaning.specs.Validity.{IsValid, param_ids};

use conn_graph::{Edge, Form, Target};
use control_msgs::{Message, Queue, ends_by, mark_ended};
use meaning::{BufferEdit, Change, Edit, ParamEdit, SourceEdit, World};
use node_table::Kind;
use sched_source::Sched;
use std::alloc::Global;
use std::marker::Model;
use std::test::Fail;
use wa_base::{
    BufId, ContextSpec, Exc, Feature, Fix, NoMemory, NodeId, ParamId, ParamName, Refusal,
};

// A function pays for each of its ends at which worlds are let go. So the two sides are made in one
// function, lent to the others, and given to `drop` before any error goes up.

const CONTEXT: ContextSpec = ContextSpec {
    channels: 2,
    length: 512,
    rate: 48_000,
    quantum: 128,
};

// A world, the messages of its changes, and a world that hears them.
#[derive(Drop)]
struct Sides {
    control: World,
    queue: Queue,
    render: World,
}

impl Model for Sides {
    ghost use Rattle.meaning.specs.World.{plain};
    ghost use Rattle.meaning.specs.declared.world.World.{World as a_world};
    ghost use Rattle.control_tests.specs.Sides.{IsFollowed};

    ghost Value = { a_world };

    ghost view = { λ s. plain s.control };

    ghost invariant = { λ s. IsFollowed (plain s.control) s.queue.messages (plain s.render) };
}

fn begin(alloc: Global) -> Result<Sides, Refusal> {
    if !CONTEXT.is_supported() {
        return Err(Refusal::Exc(Exc::NotSupported(None)));
    }
    Ok(Sides {
        control: World::new(alloc, CONTEXT)?,
        queue: Queue::new(alloc),
        render: World::new(alloc, CONTEXT)?,
    })
}

impl Sides {
    // Makes an edit that is not refused, and sends it.
    fn edit(&mut self, time: u32, edit: Edit) -> Result<(), Refusal>
        requires { IsNamed self.old edit }
    {
        let time = u64::from(time);
        if let Some(exc) = self.control.refusal(time, &edit) {
            return Err(Refusal::Exc(exc));
        }
        let change = Change { time, edit };
        self.queue.reserve(1)?;
        self.control.apply(&change)?;
        self.queue.post(Message::Change(change));
        Ok(())
    }

    // Goes over the quantum that begins at a frame, and sends it.
    fn turn(&mut self, first: u32) -> Result<(), NoMemory> {
        let first = u64::from(first);
        let next = first + 128;
        self.queue.reserve(2)?;
        self.control.set_slots(first);
        mark_ended(&mut self.control, next);
        self.queue.post(Message::Slots(first));
        self.queue.post(Message::Ended(next));
        Ok(())
    }

    // Hears all that was sent.
    fn hear(&mut self) -> Result<(), NoMemory> {
        self.queue.drain_into(&mut self.render)
    }
}

// A parameter of a node, where it is there.
fn param_of(world: &World, node: u32, name: ParamName) -> Option<ParamId>
    requires { IsValid world.now }
    ensures { IfSome result (λ id. IsIn id (param_ids world.now)) }
{
    let node = NodeId(node);
    if node.0 >= world.nodes.len() {
        return None;
    }
    let param = world.nodes.kind(node).row().param?;
    if param.name == name {
        Some(ParamId { node, name })
    } else {
        None
    }
}

fn add(sides: &mut Sides, time: u32, kind: Kind) -> Result<(), Refusal>
    requires { IsNamed sides.old (edits.Create kind) }
{
    sides.edit(time, Edit::Create { kind })
}

fn connect(sides: &mut Sides, from: u32, to: u32) -> Result<(), Refusal> {
    let count = sides.control.nodes.len();
    if from >= count || to >= count {
        return Err(Refusal::Exc(Exc::NotFound));
    }
    let (node, input) = (NodeId(to), 0);
    let edge = Edge {
        from: NodeId(from),
        output: 0,
        to: Target::Input { node, input },
    };
    sides.edit(0, Edit::Connect { edge })
}

// Takes all connections of a node away.
fn disconnect(sides: &mut Sides, time: u32, from: u32) -> Result<(), Refusal> {
    if from >= sides.control.nodes.len() {
        return Err(Refusal::Exc(Exc::NotFound));
    }
    let (from, form) = (NodeId(from), Form::All);
    sides.edit(time, Edit::Disconnect { from, form })
}

fn start(sides: &mut Sides, node: u32, when: i64) -> Result<(), Refusal> {
    let edit = SourceEdit::Start {
        when,
        offset: 0,
        duration: None,
    };
    let node = NodeId(node);
    sides.edit(0, Edit::Source { node, edit })
}

fn stop(sides: &mut Sides, node: u32, when: i64) -> Result<(), Refusal> {
    let (node, edit) = (NodeId(node), SourceEdit::Stop { when });
    sides.edit(0, Edit::Source { node, edit })
}

fn automate(
    sides: &mut Sides,
    time: u32,
    node: u32,
    name: ParamName,
    edit: ParamEdit,
) -> Result<(), Refusal> {
    match param_of(&sides.control, node, name) {
        Some(id) => sides.edit(time, Edit::Param { id, edit }),
        None => Err(Refusal::Exc(Exc::NotFound)),
    }
}

// A source that sounds for 129 frames through a gain. Its offset rises from 0 to 1.0 in 256 frames, and
// the gain is set twice. The first quantum comes after that.
fn first_step(sides: &mut Sides, step: u32) -> Result<(), Refusal> {
    let (offset, gain) = (ParamName::Offset, ParamName::Gain);
    match step {
        0 => add(sides, 0, Kind::Constant { offset: 9 }),
        1 => add(sides, 0, Kind::Gain { gain: 8 }),
        2 => connect(sides, 1, 2),
        3 => connect(sides, 2, 0),
        4 => automate(sides, 0, 1, offset, ParamEdit::Set { value: 0, time: 0 }),
        5 => {
            let ramp = ParamEdit::Ramp {
                value: 16_777_216,
                time: 256,
            };
            automate(sides, 0, 1, offset, ramp)
        }
        6 => automate(sides, 0, 2, gain, ParamEdit::SetNow { value: 5 }),
        7 => automate(sides, 0, 2, gain, ParamEdit::SetNow { value: 7 }),
        8 => start(sides, 1, 0),
        9 => stop(sides, 1, 129),
        _ => Ok(sides.turn(0)?),
    }
}

// A convolver is created, whose response is a buffer.
fn convolve(sides: &mut Sides, time: u32, buffer: u32) -> Result<(), Refusal> {
    if buffer >= sides.control.store.len() {
        return Err(Refusal::Exc(Exc::NotFound));
    }
    let buffer = Some(BufId(buffer));
    sides.edit(time, Edit::CreateConvolver { buffer })
}

// The second quantum, and what comes after it.
fn second_step(sides: &mut Sides, step: u32) -> Result<(), Refusal> {
    match step {
        0 => Ok(sides.turn(128)?),
        1 => disconnect(sides, 256, 1),
        2 => add(sides, 256, Kind::Gain { gain: 6 }),
        3 => {
            let edit = BufferEdit::Create {
                channels: 1,
                frames: 3,
                rate: 48_000,
            };
            sides.edit(256, Edit::Buffers { edit })
        }
        _ => convolve(sides, 256, 0),
    }
}

// Each step is done a second time where memory for it was refused.
fn first_steps(sides: &mut Sides) -> Result<(), Refusal> {
    for step in 0..11 {
        if first_step(sides, step) == Err(Refusal::NoMemory) {
            first_step(sides, step)?;
        }
    }
    Ok(())
}

fn second_steps(sides: &mut Sides) -> Result<(), Refusal> {
    for step in 0..5 {
        if second_step(sides, step) == Err(Refusal::NoMemory) {
            second_step(sides, step)?;
        }
    }
    Ok(())
}

fn hear_again(sides: &mut Sides) -> Result<(), NoMemory> {
    match sides.hear() {
        Err(NoMemory) => sides.hear(),
        Ok(()) => Ok(()),
    }
}

// The current value of a parameter, where it is there.
fn current(world: &World, node: u32, name: ParamName) -> Option<Fix>
    requires { IsValid world.now }
{
    let id = param_of(world, node, name)?;
    Some(world.current(id))
}

fn has_ended(world: &World, node: u32) -> Option<bool> {
    let place = world.scheds.find(NodeId(node))?;
    if place >= world.scheds.len() {
        return None;
    }
    Some(world.scheds.at(place).sched.has_ended())
}

fn is_joined(world: &World, from: u32, to: u32) -> bool {
    let count = world.graph.len();
    if from >= count || to >= count {
        return false;
    }
    let form = Form::Node(NodeId(to));
    world.graph.disconnect_refusal(NodeId(from), form).is_none()
}

// Why a buffer cannot be written, where it is there.
fn write_refusal(world: &World, buffer: u32) -> Option<Exc> {
    if buffer >= world.store.len() {
        return None;
    }
    world.store.write_refusal(BufId(buffer), 0)
}

// The numbers of nodes, of parameters, of sources and of buffers.
fn sizes(world: &World) -> (u32, usize, usize, u32) {
    let lists = (world.params.len(), world.scheds.len());
    (world.nodes.len(), lists.0, lists.1, world.store.len())
}

fn is_empty(world: &World) -> bool {
    sizes(world) == (1, 0, 0, 0)
}

// A world after the first quantum.
fn is_first(world: &World) -> bool
    requires { IsValid world.now }
{
    sizes(world) == (3, 2, 1, 0)
        && is_joined(world, 1, 2)
        && is_joined(world, 2, 0)
        && current(world, 1, ParamName::Offset) == Some(0)
        && current(world, 2, ParamName::Gain) == Some(7)
        && has_ended(world, 1) == Some(false)
}

// And after the second one, at whose first frame the ramp is half way up. The convolver acquired the buffer.
fn is_second(world: &World) -> bool
    requires { IsValid world.now }
{
    sizes(world) == (5, 3, 1, 1)
        && !is_joined(world, 1, 2)
        && is_joined(world, 2, 0)
        && current(world, 1, ParamName::Offset) == Some(8_388_608)
        && current(world, 3, ParamName::Gain) == Some(6)
        && has_ended(world, 1) == Some(true)
        && write_refusal(world, 0) == Some(Exc::NotSupported(Some(Feature::BufferAcquired)))
}

// Whether both graphs had as many edits.
fn are_same(sides: &Sides) -> bool {
    sides.control.graph.edits() == sides.render.graph.edits()
}

// Whether nothing is heard before it is asked for, and then all of it.
fn hears_first(sides: &mut Sides) -> Result<bool, Refusal> {
    first_steps(sides)?;
    let is_told = is_first(&sides.control) && is_empty(&sides.render) && !are_same(sides);
    hear_again(sides)?;
    Ok(is_told && is_first(&sides.control) && is_first(&sides.render) && are_same(sides))
}

fn hears_second(sides: &mut Sides) -> Result<bool, Refusal> {
    second_steps(sides)?;
    let is_told = is_second(&sides.control) && is_first(&sides.render) && !are_same(sides);
    hear_again(sides)?;
    hear_again(sides)?;
    Ok(is_told && is_second(&sides.render) && are_same(sides))
}

fn hears_all(sides: &mut Sides) -> Result<bool, Refusal> {
    Ok(hears_first(sides)? && hears_second(sides)?)
}

fn begin_again(alloc: Global) -> Result<Sides, Refusal> {
    match begin(alloc) {
        Ok(sides) => Ok(sides),
        Err(_) => begin(alloc),
    }
}

fn is_heard(alloc: Global) -> Result<bool, Refusal> {
    let mut sides = begin_again(alloc)?;
    let hears = hears_all(&mut sides);
    drop(sides);
    hears
}

// Where one growth is refused, what asked for it can be done again.
#[test]
fn what_is_sent_is_heard_in_order(rt: HostRuntime) -> Result<(), Fail> {
    assert!(rt; is_heard(rt.alloc())?);
    Ok(())
}

// A source that plays up to a frame ends at it, once.
fn ends_once() -> bool {
    let mut sched = Sched::constant();
    let is_started = sched.start(0, 0, 0, None, 0) == Ok(());
    let had_no_end = !ends_by(&sched, 1_000);
    let is_stopped = sched.stop(0, 128) == Ok(());
    let has_end = !ends_by(&sched, 127) && ends_by(&sched, 128) && ends_by(&sched, 129);
    sched.fire();
    is_started && had_no_end && is_stopped && has_end && !ends_by(&sched, 128)
}

#[test]
fn a_source_ends_once(rt: HostRuntime) {
    assert!(rt; ends_once());
}
