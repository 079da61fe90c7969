ghost use Rattle.std.specs.Prelude.{◌≡◌, ◌≤◌, ◌/◌, ◌<◌, ℕ};
ghost use Rattle.lane_kern.specs.Blocks.{at};
ghost use Rattle.explain.specs.declared.facts.Key.TheVariants as keys;
ghost use Rattle.explain.specs.Accounts.{value_in, cells_in};
ghost use Rattle.explain.specs.Needs.{carried};
ghost use Rattle.derivations.specs.Contexts.{tape_in, StandsIn};
ghost use Rattle.equations.specs.Given.{IsGiven, meaning_of, AllKnown};

use crate::mixing::{Carried, MAX_CHANNELS};
use derivations::Context;
use explain::{Fact, Key};
use wa_base::{End, Fix, NodeId, ParamName};

// The fact of a key that stands.
fn known_fact(context: Context<'_>, key: Key) -> Fact
    requires given { IsGiven context }
    requires known { StandsIn context key }
    ensures value { result.value ≡ value_in context.entry.quantum (tape_in context.entry) (meaning_of context.entry) key }
    ensures cells { result.cells ≡ cells_in context.entry.quantum (tape_in context.entry) (meaning_of context.entry) key }
{
    let Some(fact) = context.known.find(key) else {
        unreachable!()
    };
    fact
}

// Its value.
pub(crate) fn value_of(context: Context<'_>, key: Key) -> i64
    requires given { IsGiven context }
    requires known { StandsIn context key }
    ensures { result ≡ value_in context.entry.quantum (tape_in context.entry) (meaning_of context.entry) key }
{
    known_fact(context, key).value
}

// The cells that a processor left at a frame.
pub(crate) fn cells_of(
    context: Context<'_>,
    frame: u64,
    node: NodeId,
    channel: u32,
) -> Option<[Fix; 16]>
    requires given { IsGiven context }
    requires known { StandsIn context (keys.Hist frame node channel) }
    ensures { result ≡ cells_in context.entry.quantum (tape_in context.entry) (meaning_of context.entry) (keys.Hist frame node channel) }
{
    let key = Key::Hist {
        frame,
        node,
        channel,
    };
    known_fact(context, key).cells
}

// How many channels an output of an end has in a quantum.
pub(crate) fn count_of(context: Context<'_>, quantum: u64, end: End, output: u32) -> u32
    requires given { IsGiven context }
    requires known { StandsIn context (keys.Count quantum end output) }
    ensures value { result ≡ (meaning_of context.entry).counts quantum end }
    ensures few { result ≤ 32 }
{
    let key = Key::Count {
        quantum,
        end,
        output,
    };
    value_of(context, key).unsigned_abs() as u32
}

// What an input took in.
pub(crate) fn inlet_of(context: Context<'_>, frame: u64, end: End, input: u32, channel: u32) -> Fix
    requires given { IsGiven context }
    requires known { StandsIn context (keys.Inlet frame end input channel) }
    ensures { result ≡ value_in context.entry.quantum (tape_in context.entry) (meaning_of context.entry) (keys.Inlet frame end input channel) }
{
    let key = Key::Inlet {
        frame,
        end,
        input,
        channel,
    };
    value_of(context, key) as Fix
}

// The value of a parameter.
pub(crate) fn param_of(context: Context<'_>, frame: u64, node: NodeId, name: ParamName) -> Fix
    requires given { IsGiven context }
    requires known { StandsIn context (keys.Par frame node name) }
    ensures { result ≡ value_in context.entry.quantum (tape_in context.entry) (meaning_of context.entry) (keys.Par frame node name) }
{
    let key = Key::Par { frame, node, name };
    value_of(context, key) as Fix
}

// What an output carries at a frame.
pub(crate) fn carried_by(context: Context<'_>, frame: u64, end: End, output: u32) -> Carried
    requires given { IsGiven context }
    requires known { AllKnown context (carried context.quantum (tape_in context) (meaning_of context) frame end output) }
    ensures count { result.count ≡ (meaning_of context.entry).counts (frame / context.entry.quantum) end }
    ensures few { result.count ≤ 32 }
    ensures samples { (c : ℕ) → c < result.count → at result.samples c ≡ (meaning_of context.entry).values frame end output c }
{
    let count = count_of(context, frame / u64::from(context.quantum), end, output);
    let mut samples = [0; MAX_CHANNELS];
    for channel in 0..count {
        let key = Key::Out {
            frame,
            end,
            output,
            channel,
        };
        samples[channel as usize] = value_of(context, key);
    }
    Carried { count, samples }
}
