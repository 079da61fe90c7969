ghost use Rattle.std.specs.Prelude.{◌≡◌, ◌<◌, ◌/◌, max, true, [], take, length, if◌then◌else◌, IfSome, IfNone, OnSome};
ghost use Rattle.wa_base.specs.declared.graph_names.ParamName.TheVariants as params;
ghost use Rattle.sched_source.specs.Schedule.{plays_at};
ghost use Rattle.node_table.specs.Delays.{frames_of as frames_in_seconds};
ghost use Rattle.node_table.specs.Kinds.{is_delay_kind};
ghost use Rattle.conn_graph.specs.Ends.{is_delay, in_cycle};
ghost use Rattle.meaning.specs.World.{sounding, kind_of, sounds_at};
ghost use Rattle.meaning.specs.Values.{taken_from as source_of};
ghost use Rattle.explain.specs.declared.facts.Key.TheVariants as keys;
ghost use Rattle.explain.specs.Facts.{HasOutput};
ghost use Rattle.explain.specs.Needs.{output_by_kind, level_needs, delayed_needs};
ghost use Rattle.derivations.specs.Contexts.{tape_in, world_of, IsReady, HasFrame, AreKnown, IsMissing, AreAllKnown, IsMissingIn, IsPast};
ghost use Rattle.derivations.specs.Groups.{one, output_group, delay_keys, delayed_keys};
ghost use Rattle.derivations.specs.Heard.{IsHeard, IsEffect, HasParam};
ghost use Rattle.derivations.specs.Marks.{AreMarks};
ghost use Rattle.derivations.specs.Stretches.{IsInForce};

use crate::carried::next_carried;
use crate::places::{Context, Place};
use crate::tape::Stretch;
use explain::Key;
use meaning::World;
use node_table::{Kind, ParamRow, frames_of};
use sched_source::Sched;
use wa_base::{End, Fix, NodeId, ParamName};

// A channel of an output at a frame.
#[derive(Clone, Copy)]
pub(crate) struct Sample {
    pub(crate) frame: u64,
    pub(crate) end: End,
    pub(crate) output: u32,
    pub(crate) channel: u32,
}

impl Sample {
    fn inlet(self, input: u32, channel: u32) -> Key
        ensures { result ≡ keys.Inlet self.frame self.end input channel }
    {
        Key::Inlet {
            frame: self.frame,
            end: self.end,
            input,
            channel,
        }
    }

    fn param(self, name: ParamName) -> Key
        ensures { result ≡ keys.Par self.frame self.end.node name }
    {
        Key::Par {
            frame: self.frame,
            node: self.end.node,
            name,
        }
    }

    fn history(self) -> Key
        ensures { result ≡ keys.Hist self.frame self.end.node self.channel }
    {
        Key::Hist {
            frame: self.frame,
            node: self.end.node,
            channel: self.channel,
        }
    }
}

// The first need of an output that is missing.
pub(crate) fn next_of_output(
    context: Context<'_>,
    frame: u64,
    end: End,
    output: u32,
    channel: u32,
    place: &mut Place,
) -> Option<Key>
    requires ready { IsReady context }
    requires there { HasFrame context frame }
    requires output { HasOutput (world_of context frame) end output }
    requires before { IsPast context (λ q tape a. output_group q tape a frame end output channel) place.old }
    ensures none { IfNone result (AreAllKnown context.entry (λ q tape a. output_group q tape a frame end output channel)) }
    ensures some { IfSome result (IsMissingIn context.entry (λ q tape a. output_group q tape a frame end output channel)) }
    ensures after { OnSome result (IsPast context.entry (λ q tape a. output_group q tape a frame end output channel) place.new) }
{
    let stretch = context.piece_at(frame);
    if stretch.is_muted(end) {
        return None;
    }
    let quantum = frame / u64::from(context.quantum);
    let Some(count) = context.count(quantum, end, output) else {
        return Some(Key::Count {
            quantum,
            end,
            output,
        });
    };
    if channel >= count {
        return None;
    }
    let sample = Sample {
        frame,
        end,
        output,
        channel,
    };
    let mut item = place.items_of_first();
    let missing = next_by_kind(context, stretch, sample, &mut item);
    *place = Place { group: 0, item };
    missing
}

// The first need of a channel that an output has, by the kind of its node, that is missing. Of what a
// delay gives later so many needs are known to stand.
fn next_by_kind(
    context: Context<'_>,
    stretch: &Stretch,
    sample: Sample,
    item: &mut u64,
) -> Option<Key>
    requires ready { IsReady context }
    requires there { HasFrame context sample.frame }
    requires piece { IsInForce (tape_in context) (sample.frame / context.quantum) stretch.now }
    requires sample { IsHeard context sample }
    requires before { AreKnown context (λ q tape a. take item.old (delay_keys q tape a sample.frame sample.end (kind_of stretch.now.piece.world sample.end.node.0))) }
    ensures none { IfNone result (AreKnown context.entry (λ q tape a. output_by_kind q tape a sample.frame sample.end sample.output sample.channel (kind_of stretch.now.piece.world sample.end.node.0))) }
    ensures some { IfSome result (IsMissing context.entry (λ q tape a. output_by_kind q tape a sample.frame sample.end sample.output sample.channel (kind_of stretch.now.piece.world sample.end.node.0))) }
    ensures after { OnSome result (AreKnown context.entry (λ q tape a. take item.new (delay_keys q tape a sample.frame sample.end (kind_of stretch.now.piece.world sample.end.node.0)))) }
{
    match stretch.piece.world.nodes.kind(sample.end.node) {
        Kind::Constant { .. } => missing_offset(context, &stretch.piece.world, sample),
        Kind::Buffer { .. } => None,
        Kind::Delay { .. } => {
            if sample.end.writer {
                context.missing(sample.inlet(0, sample.channel))
            } else {
                next_delayed(context, stretch, sample.frame, sample.end.node, item)
            }
        }
        Kind::Shaper { .. } | Kind::Causal { .. } => context.missing(sample.history()),
        // All others are made of their input and of their parameter.
        kind => next_of_effect(context, stretch, sample, kind),
    }
}

// The first need that is missing of a node that is made of its input and of its parameter.
fn next_of_effect(
    context: Context<'_>,
    stretch: &Stretch,
    sample: Sample,
    kind: &Kind,
) -> Option<Key>
    requires ready { IsReady context }
    requires there { HasFrame context sample.frame }
    requires piece { IsInForce (tape_in context) (sample.frame / context.quantum) stretch.now }
    requires sample { IsHeard context sample }
    requires kind { kind_of stretch.now.piece.world sample.end.node.0 ≡ kind.now }
    requires effect { IsEffect kind.now }
    ensures none { IfNone result (AreKnown context.entry (λ q tape a. output_by_kind q tape a sample.frame sample.end sample.output sample.channel kind.now)) }
    ensures some { IfSome result (IsMissing context.entry (λ q tape a. output_by_kind q tape a sample.frame sample.end sample.output sample.channel kind.now)) }
{
    match missing_level(context, sample, kind.row().param) {
        Some(key) => Some(key),
        None => {
            let (input, channel) = taken_from(kind, sample.output, sample.channel);
            context.missing(sample.inlet(input, channel))
        }
    }
}

// The value of a parameter, where there is one and it is missing.
fn missing_level(context: Context<'_>, sample: Sample, param: Option<ParamRow>) -> Option<Key>
    requires there { HasFrame context sample.frame }
    requires key { IfSome param (λ row. HasParam (world_of context sample.frame) sample.end.node.0 row.name) }
    ensures none { IfNone result (AreKnown context.entry (λ q tape a. level_needs q tape a sample.frame sample.end.node param)) }
    ensures some { IfSome result (IsMissing context.entry (λ q tape a. level_needs q tape a sample.frame sample.end.node param)) }
{
    match param {
        Some(row) => context.missing(sample.param(row.name)),
        None => None,
    }
}

/// The input of a node of a kind, and the channel of it, of which a channel of an output is made.
pub fn taken_from(kind: &Kind, output: u32, channel: u32) -> (u32, u32)
    ensures { result ≡ source_of kind.now output channel }
{
    match kind {
        Kind::Splitter { .. } => (0, output),
        Kind::Merger { .. } => (channel, 0),
        _ => (0, channel),
    }
}

// The value of a constant source, where it sounds and that is missing.
fn missing_offset(context: Context<'_>, world: &World, sample: Sample) -> Option<Key>
    requires there { HasFrame context sample.frame }
    requires world { world_of context sample.frame ≡ sounding world.now }
    requires key { HasParam world.now sample.end.node.0 params.Offset }
    ensures none { IfNone result (AreKnown context.entry (λ q tape a. if sounds_at (sounding world.now) sample.end.node.0 sample.frame then one (keys.Par sample.frame sample.end.node params.Offset) else [])) }
    ensures some { IfSome result (IsMissing context.entry (λ q tape a. if sounds_at (sounding world.now) sample.end.node.0 sample.frame then one (keys.Par sample.frame sample.end.node params.Offset) else [])) }
{
    if !sounds(world, sample.end.node, sample.frame) {
        return None;
    }
    context.missing(sample.param(ParamName::Offset))
}

/// Whether a source sounds at a frame.
pub fn sounds(world: &World, node: NodeId, frame: u64) -> bool
    ensures { result ≡ sounds_at (sounding world.now) node.0 frame }
{
    match world.scheds.find(node) {
        Some(place) => plays(&world.scheds.at(place).sched, frame),
        None => false,
    }
}

fn plays(sched: &Sched, frame: u64) -> bool
    ensures { result ≡ plays_at sched.now frame }
{
    match (sched.start_frame(), sched.end_frame()) {
        (None, _) => false,
        (Some(start), None) => start <= frame,
        (Some(start), Some(end)) => start <= frame && frame < end,
    }
}

// The first need of the reader of a delay that is missing: its delayTime, and then what its writer took
// in so many frames before.
fn next_delayed(
    context: Context<'_>,
    stretch: &Stretch,
    frame: u64,
    node: NodeId,
    item: &mut u64,
) -> Option<Key>
    requires ready { IsReady context }
    requires there { HasFrame context frame }
    requires piece { IsInForce (tape_in context) (frame / context.quantum) stretch.now }
    requires node { node.0 < length stretch.now.piece.world.nodes }
    requires delay { is_delay_kind (kind_of stretch.now.piece.world node.0) ≡ true }
    requires before { AreKnown context (λ q tape a. take item.old (delayed_keys q tape a frame node.0)) }
    ensures none { IfNone result (AreKnown context.entry (λ q tape a. delayed_needs q tape a frame node.0)) }
    ensures some { IfSome result (IsMissing context.entry (λ q tape a. delayed_needs q tape a frame node.0)) }
    ensures after { OnSome result (AreKnown context.entry (λ q tape a. take item.new (delayed_keys q tape a frame node.0))) }
{
    let key = Key::Par {
        frame,
        node,
        name: ParamName::DelayTime,
    };
    let Some(time) = context.known.find(key) else {
        return Some(key);
    };
    let frames = stretch.delay_frames(context.quantum, node, time.value as Fix);
    if frame - stretch.piece.world.nodes.attrs(node).birth < frames {
        return None;
    }
    let writer = End { node, writer: true };
    next_carried(context, frame - frames, writer, 0, item)
}

impl Stretch {
    /// How many frames a delay lasts whose delayTime has a value.
    pub fn delay_frames(&self, quantum: u32, node: NodeId, time: Fix) -> u64
        requires marks { AreMarks self.now.piece.world.graph.value self.now.marks }
        requires node { node.0 < length self.now.piece.world.graph.value.nodes }
        requires delay { is_delay self.now.piece.world.graph.value node.0 ≡ true }
        ensures { result ≡ (if in_cycle self.now.piece.world.graph.value node.0 then max quantum (frames_in_seconds time self.now.piece.world.spec.rate) else frames_in_seconds time self.now.piece.world.spec.rate) }
    {
        let frames = frames_of(time, self.piece.world.spec.rate);
        if self.marks.cycles[node.0 as usize] {
            frames.max(u64::from(quantum))
        } else {
            frames
        }
    }
}
