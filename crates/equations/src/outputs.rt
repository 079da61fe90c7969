ghost use Rattle.std.specs.Prelude.{◌≡◌, ◌/◌, false, true};
ghost use Rattle.node_table.specs.Kinds.{is_delay_kind};
ghost use Rattle.meaning.specs.World.{kind_of, param_id};
ghost use Rattle.meaning.specs.Values.{equation, value_by_kind, delayed as delayed_value, computed_value, input_value, level_of, made_of};
ghost use Rattle.explain.specs.declared.facts.Key.TheVariants as keys;
ghost use Rattle.explain.specs.Facts.{HasOutput, has_history};
ghost use Rattle.explain.specs.Needs.{delayed_needs, level_needs, output_by_kind, output_needs};
ghost use Rattle.derivations.specs.Contexts.{tape_in, world_of, StandsIn, HasFrame};
ghost use Rattle.derivations.specs.Heard.{IsEffect};
ghost use Rattle.derivations.specs.Stretches.{IsInForce};
ghost use Rattle.equations.specs.Given.{IsGiven, meaning_of, AllKnown, frame_of, frames_before};
ghost use Rattle.equations.specs.Outputs.{IsPresent};

use crate::mixing::{mix, nearest};
use crate::sources::played_at;
use crate::told::{carried_by, count_of, inlet_of, param_of, value_of};
use derivations::{Context, Stretch, sounds, taken_from};
use explain::Key;
use node_table::{Kind, ParamRow};
use wa_base::{End, Fix, ParamName, scale};

// A channel of an output at a frame.
#[derive(Clone, Copy)]
pub(crate) struct Sample {
    pub(crate) frame: u64,
    pub(crate) end: End,
    pub(crate) output: u32,
    pub(crate) channel: u32,
}

// What an output carries at a frame.
pub(crate) fn output_value(context: Context<'_>, sample: Sample) -> i64
    requires given { IsGiven context }
    requires there { HasFrame context sample.frame }
    requires output { HasOutput (world_of context sample.frame) sample.end sample.output }
    requires known { AllKnown context (output_needs context.quantum (tape_in context) (meaning_of context) sample.frame sample.end sample.output sample.channel) }
    ensures { result ≡ equation context.entry.quantum sample.frame (frames_before context.entry sample.frame) (frame_of context.entry sample.frame) sample.end sample.output sample.channel }
{
    let stretch = context.piece_at(sample.frame);
    if stretch.is_muted(sample.end) {
        return 0;
    }
    let quantum = sample.frame / u64::from(context.quantum);
    if sample.channel >= count_of(context, quantum, sample.end, sample.output) {
        return 0;
    }
    present_value(context, stretch, sample)
}

// The same of a channel that is there, by the kind of its node.
fn present_value(context: Context<'_>, stretch: &Stretch, sample: Sample) -> i64
    requires given { IsGiven context }
    requires piece { IsInForce (tape_in context) (sample.frame / context.quantum) stretch.now }
    requires present { IsPresent context sample }
    requires known { AllKnown context (output_by_kind context.quantum (tape_in context) (meaning_of context) sample.frame sample.end sample.output sample.channel (kind_of (world_of context sample.frame) sample.end.node.0)) }
    ensures { result ≡ value_by_kind context.entry.quantum sample.frame (frames_before context.entry sample.frame) (frame_of context.entry sample.frame) (kind_of (world_of context.entry sample.frame) sample.end.node.0) sample.end sample.output sample.channel }
{
    let world = &stretch.piece.world;
    let node = sample.end.node;
    match world.nodes.kind(node) {
        Kind::Constant { .. } => {
            if sounds(world, node, sample.frame) {
                param(context, sample, ParamName::Offset)
            } else {
                0
            }
        }
        Kind::Buffer { .. } => i64::from(played_at(world, node, sample.channel, sample.frame)),
        Kind::Delay { .. } => {
            if sample.end.writer {
                inlet(context, sample, 0, sample.channel)
            } else {
                delayed(context, stretch, sample)
            }
        }
        Kind::Shaper { .. } | Kind::Causal { .. } => history(context, sample),
        // All others are made of their input and of their parameter.
        kind => effect(context, sample, kind),
    }
}

// What a node makes of its input and of its parameter.
fn effect(context: Context<'_>, sample: Sample, kind: &Kind) -> i64
    requires given { IsGiven context }
    requires effect { IsEffect kind.now }
    requires known { AllKnown context (output_by_kind context.quantum (tape_in context) (meaning_of context) sample.frame sample.end sample.output sample.channel kind.now) }
    ensures { result ≡ value_by_kind context.entry.quantum sample.frame (frames_before context.entry sample.frame) (frame_of context.entry sample.frame) kind.now sample.end sample.output sample.channel }
{
    let (input, channel) = taken_from(kind, sample.output, sample.channel);
    let value = inlet_of(context, sample.frame, sample.end, input, channel);
    let level = level_at(context, sample, kind.row().param);
    i64::from(made(kind, value, level))
}

// The value of a parameter, where there is one.
fn level_at(context: Context<'_>, sample: Sample, param: Option<ParamRow>) -> Fix
    requires given { IsGiven context }
    requires known { AllKnown context (level_needs context.quantum (tape_in context) (meaning_of context) sample.frame sample.end.node param) }
    ensures { result ≡ level_of context.entry.quantum sample.frame (frames_before context.entry sample.frame) (frame_of context.entry sample.frame) sample.end.node.0 param }
{
    match param {
        Some(row) => param_of(context, sample.frame, sample.end.node, row.name),
        None => 0,
    }
}

// What a node of a kind makes of a value of its input and of that of its parameter.
fn made(kind: &Kind, value: Fix, level: Fix) -> Fix
    requires effect { IsEffect kind.now }
    ensures { result ≡ made_of kind.now value level }
{
    match kind {
        Kind::Gain { .. } => scale(value, level),
        _ => value,
    }
}

// What an input of its node takes in.
fn inlet(context: Context<'_>, sample: Sample, input: u32, channel: u32) -> i64
    requires given { IsGiven context }
    requires known { StandsIn context (keys.Inlet sample.frame sample.end input channel) }
    ensures { result ≡ input_value (frame_of context.entry sample.frame) sample.end.node.0 input channel }
{
    i64::from(inlet_of(context, sample.frame, sample.end, input, channel))
}

// The value of a parameter of its node.
fn param(context: Context<'_>, sample: Sample, name: ParamName) -> i64
    requires given { IsGiven context }
    requires known { StandsIn context (keys.Par sample.frame sample.end.node name) }
    ensures { result ≡ computed_value context.entry.quantum sample.frame (frames_before context.entry sample.frame) (frame_of context.entry sample.frame) (param_id sample.end.node.0 name) }
{
    i64::from(param_of(context, sample.frame, sample.end.node, name))
}

// What its node makes of all that it took in.
fn history(context: Context<'_>, sample: Sample) -> i64
    requires given { IsGiven context }
    requires present { IsPresent context sample }
    requires history { has_history (kind_of (world_of context sample.frame) sample.end.node.0) ≡ true }
    requires known { StandsIn context (keys.Hist sample.frame sample.end.node sample.channel) }
    ensures { result ≡ value_by_kind context.entry.quantum sample.frame (frames_before context.entry sample.frame) (frame_of context.entry sample.frame) (kind_of (world_of context.entry sample.frame) sample.end.node.0) sample.end sample.output sample.channel }
{
    let key = Key::Hist {
        frame: sample.frame,
        node: sample.end.node,
        channel: sample.channel,
    };
    value_of(context, key)
}

// What the reader of a delay gives: what its writer took in so many frames before, mixed to as many
// channels as the reader has.
fn delayed(context: Context<'_>, stretch: &Stretch, sample: Sample) -> i64
    requires given { IsGiven context }
    requires piece { IsInForce (tape_in context) (sample.frame / context.quantum) stretch.now }
    requires present { IsPresent context sample }
    requires delay { is_delay_kind (kind_of (world_of context sample.frame) sample.end.node.0) ≡ true }
    requires reader { sample.end.writer ≡ false }
    requires known { AllKnown context (delayed_needs context.quantum (tape_in context) (meaning_of context) sample.frame sample.end.node.0) }
    ensures { result ≡ delayed_value context.entry.quantum sample.frame (frames_before context.entry sample.frame) (frame_of context.entry sample.frame) sample.end.node.0 sample.channel }
{
    let node = sample.end.node;
    let time = param_of(context, sample.frame, node, ParamName::DelayTime);
    let frames = stretch.delay_frames(context.quantum, node, time);
    let attrs = stretch.piece.world.nodes.attrs(node);
    if sample.frame - attrs.birth < frames {
        return 0;
    }
    let writer = End { node, writer: true };
    let carried = carried_by(context, sample.frame - frames, writer, 0);
    let quantum = sample.frame / u64::from(context.quantum);
    let channels = count_of(context, quantum, sample.end, sample.output);
    i64::from(nearest(mix(&carried, attrs.interp, channels, sample.channel)))
}
