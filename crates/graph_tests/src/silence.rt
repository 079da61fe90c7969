ghost use Rattle.std.specs.Prelude.{◌≡◌, ◌<◌, ◌≤◌, ◌+◌, ◌*◌, ◌^◌, None, OnOk};
ghost use Rattle.wa_base.specs.Contexts.{IsSupported, quantum_of};
ghost use Rattle.meaning.specs.Validity.{IsValid};
ghost use Rattle.quantum_render.specs.Plans.{IsPlanned, IsUnedited};
ghost use Rattle.quantum_render.specs.Stands.{plan_of};

use meaning::World;
use quantum_render::Renderer;
use std::alloc::Global;
use std::marker::Brand;
use std::sync::ledger::{Blank, Ledger};
use std::test::Fail;
use wa_base::{ContextSpec, NoMemory, Steps, Tie};

const SPEC: ContextSpec = ContextSpec {
    channels: 2,
    length: 256,
    rate: 48_000,
    quantum: 128,
};

pub(crate) fn render<L: Ledger>(
    renderer: &mut Renderer,
    world: &World,
    first: u64,
    steps: &mut Steps<L>,
) -> Result<(), NoMemory>
    requires valid { IsValid world.now }
    requires spec { world.now.spec ≡ renderer.old.spec }
    requires first { first ≡ quantum_of renderer.old.spec * renderer.old.quanta }
    requires time { first ≤ 2 ^ 62 }
    requires unedited { IsUnedited renderer.old.planned world.now.graph → IsPlanned world.now.graph.value (plan_of renderer.old) }
    ensures plan { OnOk result (IsPlanned world.now.graph.value (plan_of renderer.new)) }
    ensures spec { renderer.new.spec ≡ renderer.old.spec }
    ensures quanta { OnOk result (renderer.new.quanta ≡ renderer.old.quanta + 1) }
{
    renderer.prepare(world, steps)?;
    renderer.counts(world, first, steps);
    renderer.grow(world)?;
    renderer.pass(world, first, steps);
    Ok(())
}

// The greatest magnitude after two quanta.
fn loudest_of<L: Ledger>(
    renderer: &mut Renderer,
    world: &World,
    steps: &mut Steps<L>,
) -> Result<i32, NoMemory>
    requires valid { IsValid world.now }
    requires spec { world.now.spec ≡ renderer.old.spec }
    requires channels { 1 < renderer.old.spec.channels }
    requires first { renderer.old.quanta ≡ 0 }
    requires planned { renderer.old.planned ≡ None }
{
    render(renderer, world, 0, steps)?;
    render(renderer, world, u64::from(world.spec.quantum), steps)?;
    let mut loudest = 0;
    for value in renderer.out(1) {
        loudest = loudest.max(value.saturating_abs());
    }
    Ok(loudest)
}

fn loudest_in<L: Ledger>(
    alloc: Global,
    world: &World,
    steps: &mut Steps<L>,
) -> Result<i32, NoMemory>
    requires valid { IsValid world.now }
    requires spec { IsSupported world.now.spec }
    requires channels { 1 < world.now.spec.channels }
{
    let mut renderer = Renderer::new(alloc, world.spec, Tie::Up)?;
    let loudest = loudest_of(&mut renderer, world, steps);
    drop(renderer);
    loudest
}

// The greatest magnitude in two quanta of a world whose destination hears nothing.
fn loudest<L: Ledger>(alloc: Global, blank: Blank) -> Result<i32, NoMemory>
    requires name { blank.name ≡ L.name }
    requires parts { blank.parts ≡ L.parts }
    requires some { 0 < L.parts }
{
    let mut steps: Steps<L> = Steps::new(blank);
    let world = World::new(alloc, SPEC)?;
    let loudest = loudest_in(alloc, &world, &mut steps);
    drop(world);
    loudest
}

#[test]
fn destination_that_hears_nothing_is_silent(rt: HostRuntime) -> Result<(), Fail> {
    let loudest = loudest::<Brand>(rt.alloc(), Blank::new(1))?;
    assert_eq!(rt; loudest, 0);
    Ok(())
}
