ghost use Rattle.std.specs.Prelude.{◌≡◌, ◌≤◌, ◌+◌, [], ◌∷◌, length, IfOk, OnOk};
ghost use Rattle.script_ast.specs.WellFormed.{IsWellFormed};
ghost use Rattle.load_gen.specs.Generator.{Adds, muting_ops};
ghost use Rattle.load_gen.specs.Generator as generated;
ghost use Rattle.load_gen.specs.Voices.{voice_ops, ops_of_voices};

use crate::names::{GAIN, gain, text};
use crate::random::Random;
use crate::voices::Voice;
use script_ast::{Call, Calls, Op, Script};
use std::alloc::Global;
use wa_base::{ContextSpec, DEFAULT_QUANTUM, NoMemory};

/// How many voices a script has.
const VOICES: u32 = 200;

/// How many of them the suspension mutes: each fifth one.
const MUTED: u32 = 40;

/// The script of a number: 200 voices in a context of 2 channels and 480,000 frames at 48,000 Hz,
/// each a constant source through a gain with a ramp, each eighth one also through a delay with
/// feedback, and in the middle a suspension in which each fifth voice is muted. What is drawn for a
/// voice hangs on the number; the calls are 1,768 for every number (`count_law`).
#[tactic(auto, unfolding(crate::specs::Generator::calls))]
pub fn script(alloc: Global, number: u32) -> Result<Script, NoMemory>
    ensures script { IfOk result (λ script. script ≡ generated.script number) }
    ensures well_formed { IfOk result IsWellFormed }
{
    let mut calls = Calls::new(alloc);
    add_voices(alloc, &mut calls, number)?;
    let suspension = add(&mut calls, 0, Op::Suspend { time: 240_000 })?;
    add_muting(alloc, &mut calls, suspension)?;
    add(&mut calls, suspension, Op::Resume)?;
    add(&mut calls, 0, Op::StartRendering)?;
    Ok(Script {
        context: ContextSpec {
            channels: 2,
            length: 480_000,
            rate: 48_000,
            quantum: DEFAULT_QUANTUM,
        },
        calls,
    })
}

/// Every script has 1,768 calls: how many there are does not hang on what is drawn.
pub fn count_law(number: u32)
    ensures { length (generated.calls number) ≡ 1768 }
{}

// Adds the calls of all voices, which are the first ones.
fn add_voices(alloc: Global, calls: &mut Calls, number: u32) -> Result<(), NoMemory>
    requires { calls.old ≡ [] }
    ensures { OnOk result (Adds 0 (ops_of_voices number 200) calls.old calls.new) }
{
    let mut random = Random { state: number };
    for place in 0..VOICES {
        let voice = Voice::draw(&mut random, place);
        add_voice(alloc, calls, &voice)?;
    }
    Ok(())
}

// Adds the calls of a voice.
fn add_voice(alloc: Global, calls: &mut Calls, voice: &Voice) -> Result<(), NoMemory>
    requires { length calls.old ≤ 2600 }
    ensures { OnOk result (Adds 0 (voice_ops voice.now) calls.old calls.new) }
{
    add_all(calls, voice.ramp_ops(alloc)?)?;
    add_all(calls, voice.way_ops(alloc)?)?;
    add_all(calls, voice.time_ops(alloc)?)
}

// Adds the calls that mute each fifth voice.
fn add_muting(alloc: Global, calls: &mut Calls, suspension: u32) -> Result<(), NoMemory>
    requires { length calls.old ≤ 2601 }
    ensures { OnOk result (Adds suspension (muting_ops 40) calls.old calls.new) }
{
    for place in 0..MUTED {
        let muted = Op::SetValue {
            node: gain(alloc, 5 * place)?,
            param: text(alloc, GAIN)?,
            value: 0,
        };
        add(calls, suspension, muted)?;
    }
    Ok(())
}

// Adds calls to the main list.
fn add_all(calls: &mut Calls, ops: Vec<Op>) -> Result<(), NoMemory>
    requires { length calls.old + length ops.items ≤ 4000000000 }
    ensures { OnOk result (Adds 0 ops.items calls.old calls.new) }
{
    for op in ops {
        add(calls, 0, op)?;
    }
    Ok(())
}

// Adds a call to the list of a holder. Gives its ordinal.
fn add(calls: &mut Calls, holder: u32, op: Op) -> Result<u32, NoMemory>
    requires { length calls.old ≤ 4000000000 }
    ensures ordinal { IfOk result (λ ordinal. ordinal ≡ length calls.old + 1) }
    ensures calls { OnOk result (Adds holder (op ∷ []) calls.old calls.new) }
{
    let ordinal = calls.len() as u32 + 1;
    calls.push(Call {
        ordinal,
        holder,
        op,
    })?;
    Ok(ordinal)
}
