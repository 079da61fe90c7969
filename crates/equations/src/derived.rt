ghost use Rattle.std.specs.Prelude.{◌≡◌, false, IfOk};
ghost use Rattle.explain.specs.Accounts.{Account, derived, value_by_equation};
ghost use Rattle.explain.specs.declared.facts.Key.TheVariants as keys;
ghost use Rattle.explain.specs.Checked.{AllHold};
ghost use Rattle.explain.specs.Facts.{IsKeyOf};
ghost use Rattle.explain.specs.Needs.{needs};
ghost use Rattle.derivations.specs.Contexts.{tape_in, IsReady, AreKnown};
ghost use Rattle.equations.specs.Given.{IsShort, IsGiven, meaning_of, AllKnown};
ghost use Rattle.equations.specs.Histories.{is_history};

use crate::counts::end_channels;
use crate::histories::{Heard, history_of};
use crate::inputs::input_value;
use crate::outputs::{Sample, output_value};
use crate::params::param_value;
use derivations::Context;
use explain::{Fact, Key};
use std::alloc::Global;
use wa_base::{NoMemory, ParamId};

/// What the equation of a key gives, where all that it needs is known. The tape has at most 2^62 frames.
pub fn fact_of(alloc: Global, context: Context<'_>, key: Key) -> Result<Fact, NoMemory>
    requires ready { IsReady context }
    requires short { IsShort context }
    requires key { IsKeyOf context.quantum (tape_in context) key }
    requires needed { AreKnown context (λ q tape a. needs q tape a key) }
    ensures { IfOk result (λ fact. (a : Account) → AllHold context.entry.quantum (tape_in context.entry) a context.entry.known.now → derived context.entry.quantum (tape_in context.entry) a key ≡ fact) }
{
    meant_fact(alloc, context, key)
}

// The same in the meaning, in which checked facts hold. Where two accounts have in common what a key
// needs, its equation gives the same in both.
fn meant_fact(alloc: Global, context: Context<'_>, key: Key) -> Result<Fact, NoMemory>
    requires given { IsGiven context }
    requires key { IsKeyOf context.quantum (tape_in context) key }
    requires known { AllKnown context (needs context.quantum (tape_in context) (meaning_of context) key) }
    ensures { IfOk result (λ fact. derived context.entry.quantum (tape_in context.entry) (meaning_of context.entry) key ≡ fact) }
{
    if let Key::Hist {
        frame,
        node,
        channel,
    } = key
    {
        return history_fact(
            alloc,
            context,
            Heard {
                frame,
                node,
                channel,
            },
        );
    }
    Ok(Fact {
        key,
        value: meant_value(context, key),
        cells: None,
    })
}

// The fact of a history.
fn history_fact(alloc: Global, context: Context<'_>, heard: Heard) -> Result<Fact, NoMemory>
    requires given { IsGiven context }
    requires key { IsKeyOf context.quantum (tape_in context) (keys.Hist heard.frame heard.node heard.channel) }
    requires known { AllKnown context (needs context.quantum (tape_in context) (meaning_of context) (keys.Hist heard.frame heard.node heard.channel)) }
    ensures { IfOk result (λ fact. derived context.entry.quantum (tape_in context.entry) (meaning_of context.entry) (keys.Hist heard.frame heard.node heard.channel) ≡ fact) }
{
    let history = history_of(alloc, context, heard)?;
    Ok(Fact {
        key: heard.key(),
        value: history.value,
        cells: history.cells,
    })
}

// The value of a key that is none of a history.
fn meant_value(context: Context<'_>, key: Key) -> i64
    requires given { IsGiven context }
    requires key { IsKeyOf context.quantum (tape_in context) key }
    requires form { is_history key ≡ false }
    requires known { AllKnown context (needs context.quantum (tape_in context) (meaning_of context) key) }
    ensures { result ≡ value_by_equation context.entry.quantum (tape_in context.entry) (meaning_of context.entry) key }
{
    match key {
        Key::Count { quantum, end, .. } => i64::from(end_channels(context, quantum, end)),
        Key::Inlet {
            frame,
            end,
            input,
            channel,
        } => i64::from(input_value(context, frame, end.node, input, channel)),
        Key::Par { frame, node, name } => {
            i64::from(param_value(context, frame, ParamId { node, name }))
        }
        Key::Out {
            frame,
            end,
            output,
            channel,
        } => output_value(
            context,
            Sample {
                frame,
                end,
                output,
                channel,
            },
        ),
        Key::Hist { .. } => unreachable!(),
    }
}
