ghost use Rattle.std.specs.Prelude.{◌≡◌, [], ◌∷◌, ◌++◌, map, OnOk};
ghost use Rattle.std.specs.List.Sorted.{IsStrictlyIncreasing};
ghost use Rattle.meaning.specs.declared.params.Param.{Param as parameter};

use conn_graph::{Edge, Target};
use meaning::{Param, Params, Play, Scheds, World};
use node_table::Kind;
use param_events::Timeline;
use sched_source::Sched;
use std::alloc::Global;
use std::test::Fail;
use wa_base::{ContextSpec, Exc, Fix, NoMemory, NodeId, ParamId, ParamName, Rate, Refusal};

// A function pays for each of its ends at which a world is let go. So a world is made in one function, lent
// to the others, and given to `drop` before any error goes up.

const CONTEXT: ContextSpec = ContextSpec {
    channels: 6,
    length: 128,
    rate: 48_000,
    quantum: 128,
};

fn id(node: u32, name: ParamName) -> ParamId
    ensures { result.node.0 ≡ node }
{
    ParamId {
        node: NodeId(node),
        name,
    }
}

// The world of the context before its first call.
fn begin(alloc: Global) -> Result<World, Refusal> {
    if !CONTEXT.is_supported() {
        return Err(Refusal::Exc(Exc::NotSupported(None)));
    }
    Ok(World::new(alloc, CONTEXT)?)
}

// NotFound where the node is not there, which a graph itself never answers.
fn connect(world: &mut World, from: u32, output: u32) -> Result<bool, Refusal> {
    if from >= world.graph.len() {
        return Err(Refusal::Exc(Exc::NotFound));
    }
    let node = NodeId(0);
    world.graph.connect(Edge {
        from: NodeId(from),
        output,
        to: Target::Input { node, input: 0 },
    })
}

fn push_param(alloc: Global, params: &mut Params, id: ParamId, base: Fix) -> Result<(), NoMemory>
    ensures { OnOk result (map (λ (p : parameter). p.id.node.0) params.new.items ≡ map (λ (p : parameter). p.id.node.0) params.old.items ++ id.node.0 ∷ []) }
{
    params.push(Param {
        id,
        line: Timeline::new(alloc, base),
        rate: Rate::A,
    })
}

// A source that starts at a frame.
fn push_play(scheds: &mut Scheds, node: u32, start: i64) -> Result<(), NoMemory> {
    let mut sched = Sched::constant();
    let _first = sched.start(0, start, 0, None, 0);
    scheds.push(Play {
        id: NodeId(node),
        sched,
        buffer: None,
        was_set: false,
    })
}

// The base, the slot and the rate of the parameter at a place.
fn param_at(params: &Params, i: usize) -> Option<(Fix, Fix, Rate)> {
    if i >= params.len() {
        return None;
    }
    let param = params.at(i);
    Some((param.line.base(), param.line.current(), param.rate))
}

fn start_at(scheds: &Scheds, i: usize) -> Option<u64> {
    if i >= scheds.len() {
        return None;
    }
    scheds.at(i).sched.start_frame()
}

fn mark_k_rate(params: &mut Params, i: usize, value: Fix) {
    if i < params.len() {
        let param = params.at_mut(i);
        param.rate = Rate::K;
        param.line.mark(value);
    }
}

fn stop_at(scheds: &mut Scheds, i: usize, frame: i64) -> Result<(), Exc> {
    if i >= scheds.len() {
        return Err(Exc::NotFound);
    }
    scheds.at_mut(i).sched.stop(0, frame)
}

fn end_at(scheds: &Scheds, i: usize) -> Option<u64> {
    if i >= scheds.len() {
        return None;
    }
    scheds.at(i).sched.end_frame()
}

// The numbers of nodes, of the graph's nodes, of parameters and of schedules.
fn sizes(world: &World) -> (u32, u32, usize, usize) {
    let lists = (world.params.len(), world.scheds.len());
    (world.nodes.len(), world.graph.len(), lists.0, lists.1)
}

fn is_alone(world: &mut World) -> bool {
    world.spec == CONTEXT
        && sizes(world) == (1, 1, 0, 0)
        && connect(world, 0, 1) == Err(Refusal::Exc(Exc::IndexSize))
        && connect(world, 0, 0) == Ok(true)
}

fn begins_alone(alloc: Global) -> Result<bool, Refusal> {
    let mut world = begin(alloc)?;
    let is_alone = is_alone(&mut world);
    drop(world);
    Ok(is_alone)
}

#[test]
fn a_new_world_has_the_destination_alone(rt: HostRuntime) -> Result<(), Fail> {
    assert!(rt; begins_alone(rt.alloc())?);
    Ok(())
}

fn push_three(alloc: Global, params: &mut Params) -> Result<(), NoMemory>
    requires { params.old.items ≡ [] }
    ensures { OnOk result (map (λ (p : parameter). p.id.node.0) params.new.items ≡ 1 ∷ 2 ∷ 4 ∷ []) }
{
    params.reserve()?;
    push_param(alloc, params, id(1, ParamName::Offset), 5)?;
    push_param(alloc, params, id(2, ParamName::Gain), 7)?;
    push_param(alloc, params, id(4, ParamName::Gain), 9)
}

fn has_three(params: &Params) -> bool
    requires { IsStrictlyIncreasing (map (λ (p : parameter). p.id.node.0) params.now.items) }
{
    for (node, name, place) in [
        (1, ParamName::Offset, Some(0)),
        (2, ParamName::Gain, Some(1)),
        (4, ParamName::Gain, Some(2)),
        (2, ParamName::Offset, None),
        (3, ParamName::Gain, None),
        (5, ParamName::Gain, None),
    ] {
        if params.find(id(node, name)) != place {
            return false;
        }
    }
    params.len() == 3 && params.as_slice().len() == 3
}

fn are_marked(params: &Params) -> bool {
    param_at(params, 0) == Some((5, 5, Rate::A))
        && param_at(params, 1) == Some((7, -3, Rate::K))
        && param_at(params, 2) == Some((9, 9, Rate::A))
}

fn finds_parameters(alloc: Global) -> Result<bool, NoMemory> {
    let mut params = Params::new(alloc);
    let was_empty = params.is_empty();
    push_three(alloc, &mut params)?;
    let has_three = has_three(&params);
    mark_k_rate(&mut params, 1, -3);
    let are_marked = are_marked(&params);
    drop(params);
    Ok(was_empty && has_three && are_marked)
}

#[test]
fn a_parameter_is_found_by_its_node_and_name(rt: HostRuntime) -> Result<(), Fail> {
    assert!(rt; finds_parameters(rt.alloc())?);
    Ok(())
}

fn push_two(scheds: &mut Scheds) -> Result<(), NoMemory> {
    scheds.reserve()?;
    push_play(scheds, 3, 10)?;
    push_play(scheds, 1, 20)
}

fn has_two(scheds: &Scheds) -> bool {
    for (node, place, start) in [
        (3, Some(0), Some(10)),
        (1, Some(1), Some(20)),
        (2, None, None),
    ] {
        let found = scheds.find(NodeId(node));
        let started = match found {
            Some(i) => start_at(scheds, i),
            None => None,
        };
        if found != place || started != start {
            return false;
        }
    }
    true
}

fn goes_apart(copy: &mut Scheds, scheds: &Scheds) -> Result<bool, NoMemory> {
    let is_stopped = stop_at(copy, 1, 60) == Ok(());
    push_play(copy, 5, 0)?;
    Ok(
        is_stopped
            && (end_at(copy, 0), end_at(copy, 1)) == (None, Some(60))
            && (copy.len(), copy.find(NodeId(5))) == (3, Some(2))
            && (scheds.len(), end_at(scheds, 1)) == (2, None),
    )
}

fn copies_schedules(scheds: &Scheds) -> Result<bool, NoMemory> {
    let mut copy = scheds.copy()?;
    let goes_apart = goes_apart(&mut copy, scheds);
    drop(copy);
    goes_apart
}

fn finds_schedules(alloc: Global) -> Result<bool, NoMemory> {
    let mut scheds = Scheds::new(alloc);
    let pushed = push_two(&mut scheds);
    let has_two = has_two(&scheds);
    let copies = copies_schedules(&scheds);
    drop(scheds);
    pushed?;
    Ok(has_two && copies?)
}

#[test]
fn a_schedule_is_found_by_its_node(rt: HostRuntime) -> Result<(), Fail> {
    assert!(rt; finds_schedules(rt.alloc())?);
    Ok(())
}

// A constant source, started at frame 4, which is connected to the destination.
fn add_tone(alloc: Global, world: &mut World) -> Result<(), Refusal> {
    world.nodes.create(Kind::Constant { offset: 5 }, 0)?;
    add_node(world, 0)?;
    push_param(alloc, &mut world.params, id(1, ParamName::Offset), 5)?;
    push_play(&mut world.scheds, 1, 4)?;
    connect(world, 1, 0)?;
    Ok(())
}

fn tone(alloc: Global) -> Result<World, Refusal> {
    let mut world = begin(alloc)?;
    match add_tone(alloc, &mut world) {
        Ok(()) => Ok(world),
        Err(refusal) => {
            drop(world);
            Err(refusal)
        }
    }
}

// A node with so many inputs and one output.
fn add_node(world: &mut World, inputs: u32) -> Result<(), Refusal> {
    if world.graph.len() == u32::MAX {
        return Err(Refusal::NoMemory);
    }
    Ok(world.graph.add_node(inputs, 1, false)?)
}

// Whether a copy of the first world is as that one was, until it goes on.
fn goes_on(alloc: Global, world: &mut World) -> Result<bool, Refusal> {
    let is_copy = world.spec == CONTEXT
        && sizes(world) == (2, 2, 1, 1)
        && param_at(&world.params, 0) == Some((5, 5, Rate::A))
        && start_at(&world.scheds, 0) == Some(4)
        && connect(world, 1, 0) == Ok(false);
    world.nodes.create(Kind::Gain { gain: 7 }, 128)?;
    add_node(world, 1)?;
    push_param(alloc, &mut world.params, id(2, ParamName::Gain), 7)?;
    mark_k_rate(&mut world.params, 0, 6);
    let is_stopped = stop_at(&mut world.scheds, 0, 9) == Ok(());
    let is_new = connect(world, 2, 0) == Ok(true);
    Ok(is_copy && is_stopped && is_new && sizes(world) == (3, 3, 2, 1))
}

// Whether the first world is still as it was.
fn stays(world: &mut World) -> bool {
    sizes(world) == (2, 2, 1, 1)
        && param_at(&world.params, 0) == Some((5, 5, Rate::A))
        && end_at(&world.scheds, 0).is_none()
        && connect(world, 2, 0) == Err(Refusal::Exc(Exc::NotFound))
}

fn copy_goes_on(alloc: Global, first: &mut World) -> Result<bool, Refusal> {
    let mut second = first.copy()?;
    let goes_on = goes_on(alloc, &mut second);
    drop(second);
    Ok(goes_on? && stays(first))
}

fn copies_apart(alloc: Global) -> Result<bool, Refusal> {
    let mut first = tone(alloc)?;
    let goes_on = copy_goes_on(alloc, &mut first);
    drop(first);
    goes_on
}

#[test]
fn a_copied_world_goes_on_by_itself(rt: HostRuntime) -> Result<(), Fail> {
    assert!(rt; copies_apart(rt.alloc())?);
    Ok(())
}

fn tone_again(alloc: Global) -> Result<World, Refusal> {
    match tone(alloc) {
        Ok(world) => Ok(world),
        Err(_) => tone(alloc),
    }
}

fn copy_again(world: &World) -> Result<World, NoMemory> {
    match world.copy() {
        Ok(copy) => Ok(copy),
        Err(NoMemory) => world.copy(),
    }
}

// Pushes eight schedules. Whether each that was refused memory had changed nothing.
fn push_again(scheds: &mut Scheds) -> Result<bool, NoMemory> {
    for node in 2..10 {
        let len = scheds.len();
        if push_play(scheds, node, 0) == Err(NoMemory) {
            let is_as_before = scheds.len() == len;
            push_play(scheds, node, 0)?;
            if !is_as_before {
                return Ok(false);
            }
        }
    }
    Ok(true)
}

fn copy_goes_on_again(world: &World) -> Result<bool, NoMemory> {
    let mut copy = copy_again(world)?;
    let pushed = push_again(&mut copy.scheds);
    let has_all = sizes(&copy) == (2, 2, 1, 9) && copy.scheds.find(NodeId(9)) == Some(8);
    drop(copy);
    Ok(pushed? && has_all)
}

fn is_done_again(alloc: Global) -> Result<bool, Refusal> {
    let world = tone_again(alloc)?;
    let goes_on = copy_goes_on_again(&world);
    let stays = sizes(&world) == (2, 2, 1, 1);
    drop(world);
    Ok(goes_on? && stays)
}

// Where one growth is refused, what asked for it can be done again.
#[test]
fn what_was_refused_memory_can_be_done_again(rt: HostRuntime) -> Result<(), Fail> {
    assert!(rt; is_done_again(rt.alloc())?);
    Ok(())
}
