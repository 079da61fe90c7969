ghost use Rattle.std.specs.Prelude.{◌≡◌, ◌<◌, None, IfOk};
ghost use Rattle.wa_base.specs.Contexts.{IsSupported};
ghost use Rattle.meaning.specs.Validity.{IsValid};

use crate::building::{add, add_filter, add_shaper, begin, connect, start};
use crate::orders::told;
use crate::silence::render;
use meaning::World;
use node_table::Kind;
use quantum_render::Renderer;
use std::alloc::Global;
use std::marker::Brand;
use std::sync::ledger::{Blank, Ledger};
use std::test::Fail;
use wa_base::{Fix, NoMemory, Refusal, Steps, Tie};

// A function pays for each of its ends at which a world or a renderer is let go. So they are made in one
// function, lent to the others, and given to `drop` before any error goes up.

const ONE: Fix = 16_777_216;

const HALF: Fix = 8_388_608;

// Two channels of two quanta.
type Played = [[Fix; 256]; 2];

// A constant source (1) and two filters that hear it, y[n] = (x[n] + y[n - 1]) / 2 (2) and
// y[n] = x[n] - y[n - 1] - y[n - 2] (3). A shaper (4) halves the first one, and a gain (5) halves that. Another
// gain (6) negates the sum of both.
fn add_nodes(alloc: Global, world: &mut World) -> Result<(), Refusal>
    requires { IsValid world.old }
    ensures valid { IsValid world.new }
    ensures spec { world.new.spec ≡ world.old.spec }
{
    add(world, 0, Kind::Constant { offset: ONE })?;
    add_filter(alloc, world, 0, &[1], &[2, -1])?;
    add_filter(alloc, world, 0, &[1], &[1, 1, 1])?;
    add_shaper(alloc, world, &[0, 0, HALF])?;
    add(world, 0, Kind::Gain { gain: HALF })?;
    add(world, 0, Kind::Gain { gain: -ONE })
}

fn connect_nodes(world: &mut World) -> Result<(), Refusal>
    requires { IsValid world.old }
    ensures valid { IsValid world.new }
    ensures spec { world.new.spec ≡ world.old.spec }
{
    for (from, to) in [
        (1, 2),
        (1, 3),
        (2, 4),
        (4, 5),
        (2, 6),
        (3, 6),
        (5, 0),
        (6, 0),
    ] {
        connect(world, from, to)?;
    }
    start(world, 1)
}

// What the destination carries in two quanta.
fn play<L: Ledger>(
    renderer: &mut Renderer,
    world: &World,
    steps: &mut Steps<L>,
) -> Result<Played, NoMemory>
    requires valid { IsValid world.now }
    requires spec { world.now.spec ≡ renderer.old.spec }
    requires channels { 1 < renderer.old.spec.channels }
    requires quantum { renderer.old.spec.quantum ≡ 128 }
    requires first { renderer.old.quanta ≡ 0 }
    requires planned { renderer.old.planned ≡ None }
{
    let mut samples = [[0; 256]; 2];
    render(renderer, world, 0, steps)?;
    samples[0][..128].copy_from_slice(renderer.out(0));
    samples[1][..128].copy_from_slice(renderer.out(1));
    render(renderer, world, u64::from(world.spec.quantum), steps)?;
    samples[0][128..].copy_from_slice(renderer.out(0));
    samples[1][128..].copy_from_slice(renderer.out(1));
    Ok(samples)
}

fn play_with<L: Ledger>(
    alloc: Global,
    world: &World,
    tie: Tie,
    steps: &mut Steps<L>,
) -> Result<Played, NoMemory>
    requires valid { IsValid world.now }
    requires spec { IsSupported world.now.spec }
    requires channels { 1 < world.now.spec.channels }
    requires quantum { world.now.spec.quantum ≡ 128 }
{
    let mut renderer = Renderer::new(alloc, world.spec, tie)?;
    let samples = play(&mut renderer, world, steps);
    drop(renderer);
    samples
}

// What the destination carries in the one order and in the other.
fn play_both<L: Ledger>(alloc: Global, world: &World, blank: Blank) -> Result<[Played; 2], NoMemory>
    requires valid { IsValid world.now }
    requires spec { IsSupported world.now.spec }
    requires channels { 1 < world.now.spec.channels }
    requires quantum { world.now.spec.quantum ≡ 128 }
    requires name { blank.name ≡ L.name }
    requires parts { blank.parts ≡ L.parts }
    requires some { 0 < L.parts }
{
    let mut steps: Steps<L> = Steps::new(blank);
    Ok([
        play_with(alloc, world, Tie::Up, &mut steps)?,
        play_with(alloc, world, Tie::Down, &mut steps)?,
    ])
}

// The first filter gives 1 - 1/2, 1 - 1/4 and so on, and the second one 1, 0, 0 again and again. The destination
// hears a quarter of the former less the sum of both: -3/4 + 3/8, -3/4 + 3/16 and so on, and 1 less in each third
// frame. Halves of a step of 2^-24 go up, so behind a rest of 3 steps come 2, 1 and none.
fn expected() -> [Fix; 256] {
    let mut samples: [Fix; 256] = [-12_582_912; 256];
    for (n, sample) in samples.iter_mut().enumerate() {
        let falling = FALLING.get(n).copied().unwrap_or(0);
        let round = if n % 3 == 0 { ONE } else { 0 };
        *sample = sample.wrapping_add(falling).wrapping_sub(round);
    }
    samples
}

// Three quarters of what the first filter still lacks to 1, in its first frames.
const FALLING: [Fix; 24] = [
    6_291_456, 3_145_728, 1_572_864, 786_432, 393_216, 196_608, 98_304, 49_152, 24_576, 12_288,
    6_144, 3_072, 1_536, 768, 384, 192, 96, 48, 24, 12, 6, 3, 2, 1,
];

// Whether the two orders differ, and the samples of both are these.
fn is_met(alloc: Global, world: &World) -> Result<bool, Refusal>
    requires valid { IsValid world.now }
    requires spec { IsSupported world.now.spec }
    requires channels { 1 < world.now.spec.channels }
    requires quantum { world.now.spec.quantum ≡ 128 }
{
    let text = told(alloc, &world.graph)?;
    let samples = play_both::<Brand>(alloc, world, Blank::new(1))?;
    Ok(
        text.as_str() == "cycle; muted; up 1 2 3 4 5 6 0; down 1 3 2 6 4 5 0"
            && samples == [[expected(); 2]; 2],
    )
}

// The graph is built in a world, and played.
fn is_met_in(alloc: Global, world: &mut World) -> Result<bool, Refusal>
    requires valid { IsValid world.old }
    requires spec { IsSupported world.old.spec }
    requires channels { 1 < world.old.spec.channels }
    requires quantum { world.old.spec.quantum ≡ 128 }
{
    add_nodes(alloc, world)?;
    connect_nodes(world)?;
    is_met(alloc, world)
}

fn is_met_by_both(alloc: Global) -> Result<bool, Refusal> {
    let mut world = begin(alloc)?;
    let is_met = is_met_in(alloc, &mut world);
    drop(world);
    is_met
}

#[test]
fn filters_and_shapers_do_not_depend_on_the_order(rt: HostRuntime) -> Result<(), Fail> {
    assert!(rt; is_met_by_both(rt.alloc())?);
    Ok(())
}
