ghost use Rattle.std.specs.Prelude.{◌≡◌, IfOk};
ghost use Rattle.wa_base.specs.Contexts.{IsSupported};
ghost use Rattle.meaning.specs.Changes.{IsNamed};
ghost use Rattle.meaning.specs.declared.change.Edit.TheVariants as edits;
ghost use Rattle.meaning.specs.Validity.{IsValid};
ghost use Rattle.meaning.specs.World.{plain};

use conn_graph::{Edge, Target};
use meaning::{Change, Edit, SourceEdit, World};
use node_table::{Equation, Kind};
use std::alloc::Global;
use wa_base::{ContextSpec, Exc, Fix, NoMemory, NodeId, Refusal, Samples};

// Valid worlds, which are built by edits that are not refused.

const CONTEXT: ContextSpec = ContextSpec {
    channels: 2,
    length: 1_024,
    rate: 48_000,
    quantum: 128,
};

// The world of the context before its first call.
pub(crate) fn begin(alloc: Global) -> Result<World, Refusal>
    ensures valid { IfOk result IsValid }
    ensures supported { IfOk result (λ world. IsSupported world.spec) }
    ensures channels { IfOk result (λ world. world.spec.channels ≡ 2) }
    ensures quantum { IfOk result (λ world. world.spec.quantum ≡ 128) }
{
    if !CONTEXT.is_supported() {
        return Err(Refusal::Exc(Exc::NotSupported(None)));
    }
    Ok(World::new(alloc, CONTEXT)?)
}

fn make(world: &mut World, time: u32, edit: Edit) -> Result<(), Refusal>
    requires valid { IsValid world.old }
    requires named { IsNamed (plain world.old) edit }
    ensures valid { IsValid world.new }
    ensures spec { world.new.spec ≡ world.old.spec }
{
    let time = u64::from(time);
    if let Some(exc) = world.refusal(time, &edit) {
        return Err(Refusal::Exc(exc));
    }
    let change = Change { time, edit };
    Ok(world.apply(&change)?)
}

// Creates a node, which is born at a frame.
pub(crate) fn add(world: &mut World, birth: u32, kind: Kind) -> Result<(), Refusal>
    requires valid { IsValid world.old }
    requires named { IsNamed (plain world.old) (edits.Create kind) }
    ensures valid { IsValid world.new }
    ensures spec { world.new.spec ≡ world.old.spec }
{
    make(world, birth, Edit::Create { kind })
}

// Connects the only output of a node to the only input of another one.
pub(crate) fn connect(world: &mut World, from: u32, to: u32) -> Result<(), Refusal>
    requires valid { IsValid world.old }
    ensures valid { IsValid world.new }
    ensures spec { world.new.spec ≡ world.old.spec }
{
    connect_ports(world, (from, 0), (to, 0))
}

// Connects an output of a node to an input of another one.
pub(crate) fn connect_ports(
    world: &mut World,
    source: (u32, u32),
    target: (u32, u32),
) -> Result<(), Refusal>
    requires valid { IsValid world.old }
    ensures valid { IsValid world.new }
    ensures spec { world.new.spec ≡ world.old.spec }
{
    let (from, output) = source;
    let (to, input) = target;
    let count = world.nodes.len();
    if from >= count || to >= count {
        return Err(Refusal::Exc(Exc::NotFound));
    }
    let edge = Edge {
        from: NodeId(from),
        output,
        to: Target::Input {
            node: NodeId(to),
            input,
        },
    };
    make(world, 0, Edit::Connect { edge })
}

// Starts a source at frame 0.
pub(crate) fn start(world: &mut World, node: u32) -> Result<(), Refusal>
    requires valid { IsValid world.old }
    ensures valid { IsValid world.new }
    ensures spec { world.new.spec ≡ world.old.spec }
{
    let edit = SourceEdit::Start {
        when: 0,
        offset: 0,
        duration: None,
    };
    let node = NodeId(node);
    make(world, 0, Edit::Source { node, edit })
}

fn samples(alloc: Global, values: &[Fix]) -> Result<Samples, NoMemory> {
    Ok(Samples::from(Vec::from_slice(alloc, values)?))
}

// Creates an IIR filter.
pub(crate) fn add_filter(
    alloc: Global,
    world: &mut World,
    birth: u32,
    forward: &[Fix],
    back: &[Fix],
) -> Result<(), Refusal>
    requires valid { IsValid world.old }
    ensures valid { IsValid world.new }
    ensures spec { world.new.spec ≡ world.old.spec }
{
    let equation = Equation::Filter {
        forward: samples(alloc, forward)?,
        back: samples(alloc, back)?,
    };
    add(world, birth, Kind::Causal { equation })
}

// Creates a wave shaper with a curve, at frame 0.
pub(crate) fn add_shaper(alloc: Global, world: &mut World, curve: &[Fix]) -> Result<(), Refusal>
    requires valid { IsValid world.old }
    ensures valid { IsValid world.new }
    ensures spec { world.new.spec ≡ world.old.spec }
{
    let kind = Kind::Shaper {
        curve: Some(samples(alloc, curve)?),
        was_set: true,
    };
    add(world, 0, kind)
}
