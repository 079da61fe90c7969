ghost use Rattle.std.specs.Prelude.{◌≡◌, ◌≤◌, length, OnOk};
ghost use Rattle.meaning.specs.Validity.{IsValid};

use crate::building::{add, add_filter, begin};
use filter_bank::CausalNodes;
use meaning::World;
use node_table::Kind;
use std::alloc::Global;
use std::test::Fail;
use wa_base::{Fix, NoMemory, NodeId, Refusal};

// A function pays for each of its ends at which a world or its filters are let go. So they are made in one
// function, lent to the others, and given to `drop` before any error goes up.

const ONE: Fix = 16_777_216;

// A quantum of two channels, one after the other.
type Quantum = [Fix; 256];

const SILENCE: Quantum = [0; 256];

// A quantum with an impulse of 1.0 at a place.
fn impulse(place: u8) -> Quantum {
    let mut x = SILENCE;
    x[usize::from(place)] = ONE;
    x
}

// Node 1 is a filter y[n] = x[n] - y[n - 1] - y[n - 2]: after an impulse of 1.0 it gives 1.0, -1.0, 0 again and
// again, so its outputs tell how many frames it has heard since. Node 2 is no filter.
fn add_first(alloc: Global, world: &mut World) -> Result<(), Refusal>
    requires { IsValid world.old }
    ensures { IsValid world.new }
{
    add_filter(alloc, world, 0, &[ONE], &[ONE, ONE, ONE])?;
    add(world, 0, Kind::Gain { gain: ONE })
}

// Node 3 is born at frame 128, a filter y[n] = x[n - 2].
fn add_late(alloc: Global, world: &mut World) -> Result<(), Refusal>
    requires { IsValid world.old }
    ensures { IsValid world.new }
{
    add_filter(alloc, world, 128, &[0, 0, ONE], &[ONE])
}

// Begins a quantum in which node 1 has so many channels, and each other node one.
fn begin_quantum(bank: &mut CausalNodes, world: &World, channels: u32) -> Result<(), NoMemory>
    requires valid { IsValid world.now }
    requires channels { channels ≤ 2 }
    ensures count { OnOk result (length world.now.nodes ≤ length bank.new.nodes) }
    ensures quantum { bank.new.quantum ≡ bank.old.quantum }
{
    bank.follow(world)?;
    bank.grow(&[1, 1, 1, channels, 1, 1, 1, 1])
}

// The outputs of a node's filter for a quantum, of as many channels as it has room for.
fn hear(bank: &mut CausalNodes, world: &World, node: u32, x: &Quantum) -> Quantum
    requires count { length world.now.nodes ≤ length bank.old.nodes }
    requires quantum { bank.old.quantum ≡ 128 }
    ensures count { length bank.new.nodes ≡ length bank.old.nodes }
    ensures quantum { bank.new.quantum ≡ bank.old.quantum }
{
    let mut y = SILENCE;
    let values = bank.room(NodeId(node)) * 128;
    if node < world.nodes.len() && values <= 256 {
        bank.hear(NodeId(node), &x[..values], &mut y[..values]);
    }
    y
}

// Whether these are the outputs of the first filter where its impulse was so many frames before.
fn goes_round(y: &[Fix], frames: usize) -> bool {
    y.iter().enumerate().all(|(k, value)| *value == [ONE, -ONE, 0][k.wrapping_add(frames) % 3])
}

// The same of two channels. A second one that is not there gives nothing.
fn go_round(y: &Quantum, first: usize, second: Option<usize>) -> bool {
    let follows = match second {
        Some(frames) => goes_round(&y[128..], frames),
        None => y[128..] == SILENCE[128..],
    };
    follows && goes_round(&y[..128], first)
}

// The rooms of nodes 1, 2, 3, and of one that is not there.
fn rooms(bank: &CausalNodes) -> (usize, usize, usize, usize) {
    (
        bank.room(NodeId(1)),
        bank.room(NodeId(2)),
        bank.room(NodeId(3)),
        bank.room(NodeId(9)),
    )
}

// Frames 0 to 127. The first filter hears an impulse in its first frame.
fn first_quantum(bank: &mut CausalNodes, world: &World) -> Result<bool, NoMemory>
    requires valid { IsValid world.now }
    requires quantum { bank.old.quantum ≡ 128 }
    ensures { bank.new.quantum ≡ bank.old.quantum }
{
    bank.follow(world)?;
    let had_no_room = rooms(bank) == (0, 0, 0, 0);
    begin_quantum(bank, world, 1)?;
    let y = hear(bank, world, 1, &impulse(0));
    bank.rest(0);
    Ok(had_no_room && rooms(bank) == (1, 0, 0, 0) && go_round(&y, 0, None))
}

// Frames 128 to 255. The first filter gets a second channel, which hears an impulse, and the late one, which is
// born, hears an impulse in the last frame.
fn second_quantum(bank: &mut CausalNodes, world: &World) -> Result<bool, NoMemory>
    requires valid { IsValid world.now }
    requires quantum { bank.old.quantum ≡ 128 }
    ensures { bank.new.quantum ≡ bank.old.quantum }
{
    begin_quantum(bank, world, 2)?;
    let y = hear(bank, world, 1, &impulse(128));
    let late = hear(bank, world, 3, &impulse(127));
    bank.rest(128);
    Ok(rooms(bank) == (2, 0, 1, 0) && go_round(&y, 128, Some(0)) && late == SILENCE)
}

// Frames 256 to 383. The second channel is away, so it hears silence. The late filter puts out what it heard at
// frame 255, and hears an impulse two frames before the next quantum.
fn third_quantum(bank: &mut CausalNodes, world: &World) -> Result<bool, NoMemory>
    requires valid { IsValid world.now }
    requires quantum { bank.old.quantum ≡ 128 }
    ensures { bank.new.quantum ≡ bank.old.quantum }
{
    begin_quantum(bank, world, 1)?;
    let y = hear(bank, world, 1, &SILENCE);
    let late = hear(bank, world, 3, &impulse(126));
    bank.rest(256);
    Ok(rooms(bank) == (2, 0, 1, 0) && go_round(&y, 256, Some(128)) && late == impulse(1))
}

// Frames 384 to 511, in which both filters are muted, and frames 512 to 639. The second channel comes back with
// its history, and what the late filter would have put out at frame 384 is over.
fn last_quanta(bank: &mut CausalNodes, world: &World) -> Result<bool, NoMemory>
    requires valid { IsValid world.now }
    requires quantum { bank.old.quantum ≡ 128 }
    ensures { bank.new.quantum ≡ bank.old.quantum }
{
    begin_quantum(bank, world, 2)?;
    bank.rest(384);
    // Behind it no filter has to rest in this quantum.
    bank.rest(384);
    begin_quantum(bank, world, 2)?;
    let y = hear(bank, world, 1, &SILENCE);
    let late = hear(bank, world, 3, &SILENCE);
    Ok(go_round(&y, 512, Some(384)) && late == SILENCE)
}

fn quanta(alloc: Global, bank: &mut CausalNodes, world: &mut World) -> Result<[bool; 4], Refusal>
    requires valid { IsValid world.old }
    requires quantum { bank.old.quantum ≡ 128 }
{
    add_first(alloc, world)?;
    let first = first_quantum(bank, world)?;
    add_late(alloc, world)?;
    Ok([
        first,
        second_quantum(bank, world)?,
        third_quantum(bank, world)?,
        last_quanta(bank, world)?,
    ])
}

fn hear_all(alloc: Global, world: &mut World) -> Result<[bool; 4], Refusal>
    requires { IsValid world.old }
{
    let mut bank = CausalNodes::new(alloc, 128)?;
    let are_met = quanta(alloc, &mut bank, world);
    drop(bank);
    are_met
}

// Whether each of the quanta is as it was worked out.
fn are_met(alloc: Global) -> Result<[bool; 4], Refusal> {
    let mut world = begin(alloc)?;
    let are_met = hear_all(alloc, &mut world);
    drop(world);
    are_met
}

#[test]
fn filters_go_on_from_quantum_to_quantum(rt: HostRuntime) -> Result<(), Fail> {
    assert_eq!(rt; are_met(rt.alloc())?, [true; 4]);
    Ok(())
}
