ghost use Rattle.std.specs.Prelude.{◌≡◌, ◌<◌, ◌≤◌, ◌+◌, ◌*◌, ◌^◌, ◌-◌, [], length, None, OnOk};
ghost use Rattle.wa_base.specs.Contexts.{IsSupported};
ghost use Rattle.meaning.specs.Validity.{IsValid};

use crate::building::{add, begin, connect_ports};
use meaning::World;
use node_table::Kind;
use quantum_render::Renderer;
use std::alloc::Global;
use std::marker::Brand;
use std::sync::ledger::{Blank, Ledger};
use std::test::Fail;
use wa_base::{NoMemory, Refusal, Steps, Tie};

const PORTS: u32 = 32;

const MERGERS: u32 = 8;

// As many as a graph may have.
const CONNECTIONS: u32 = PORTS * PORTS * MERGERS;

const TIMES: u32 = 4_000_000;

// A splitter (1), and eight mergers behind it.
fn add_nodes(world: &mut World) -> Result<(), Refusal>
    requires { IsValid world.old }
    ensures valid { IsValid world.new }
    ensures spec { world.new.spec ≡ world.old.spec }
{
    add(world, 0, Kind::Splitter { outputs: PORTS })?;
    for _ in 0..MERGERS {
        add(world, 0, Kind::Merger { inputs: PORTS })?;
    }
    Ok(())
}

// Connects each output of the splitter to each input of each merger.
fn connect_all(world: &mut World) -> Result<(), Refusal>
    requires { IsValid world.old }
    ensures valid { IsValid world.new }
    ensures spec { world.new.spec ≡ world.old.spec }
{
    for number in 0..CONNECTIONS {
        let merger = 2 + number / (PORTS * PORTS);
        let input = number / PORTS % PORTS;
        connect_ports(world, (1, number % PORTS), (merger, input))?;
    }
    Ok(())
}

// Prepares for one world again and again. It costs what once costs.
fn prepare_often<L: Ledger>(
    renderer: &mut Renderer,
    world: &World,
    steps: &mut Steps<L>,
) -> Result<(), NoMemory>
    requires valid { IsValid world.now }
    requires spec { world.now.spec ≡ renderer.old.spec }
    requires planned { renderer.old.planned ≡ None }
    requires params { world.now.params.items ≡ [] }
    requires edits { world.now.graph.edits < 2 ^ 64 - 1 }
    ensures { OnOk result (steps.new ≤ steps.old + 10 * (length world.now.graph.value.edges + length world.now.graph.value.nodes)) }
{
    for _ in 0..TIMES {
        renderer.prepare(world, steps)?;
    }
    Ok(())
}

// Whether the world is as large as it has to be, and can be prepared for so often.
fn is_prepared<L: Ledger>(alloc: Global, world: &World, blank: Blank) -> Result<bool, NoMemory>
    requires valid { IsValid world.now }
    requires spec { IsSupported world.now.spec }
    requires name { blank.name ≡ L.name }
    requires parts { blank.parts ≡ L.parts }
    requires some { 0 < L.parts }
{
    let edits = u64::from(1 + 1 + MERGERS + CONNECTIONS);
    if world.graph.edits() != edits || !world.params.as_slice().is_empty() {
        return Ok(false);
    }
    let mut steps: Steps<L> = Steps::new(blank);
    let mut renderer = Renderer::new(alloc, world.spec, Tie::Up)?;
    let done = prepare_often(&mut renderer, world, &mut steps);
    drop(renderer);
    done?;
    Ok(true)
}

fn is_met_in(alloc: Global, world: &mut World) -> Result<bool, Refusal>
    requires valid { IsValid world.old }
    requires spec { IsSupported world.old.spec }
{
    add_nodes(world)?;
    connect_all(world)?;
    Ok(is_prepared::<Brand>(alloc, world, Blank::new(1))?)
}

fn is_met(alloc: Global) -> Result<bool, Refusal> {
    let mut world = begin(alloc)?;
    let is_met = is_met_in(alloc, &mut world);
    drop(world);
    is_met
}

#[test]
fn what_is_unedited_is_planned_once(rt: HostRuntime) -> Result<(), Fail> {
    assert!(rt; is_met(rt.alloc())?);
    Ok(())
}
