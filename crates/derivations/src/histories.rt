ghost use Rattle.std.specs.Prelude.{◌≡◌, ◌<◌, ◌≤◌, ◌-◌, true, length, IfSome, IfNone, OnSome};
ghost use Rattle.explain.specs.Facts.{has_history};
ghost use Rattle.explain.specs.Needs.{hears as hears_at, feeds_back as feeds_back_at, heard_needs};
ghost use Rattle.meaning.specs.World.{node_at, kind_of};
ghost use Rattle.derivations.specs.Groups.{history_group, input_keys, result_keys, read_keys};
ghost use Rattle.derivations.specs.Reaches.{reach_of};
ghost use Rattle.derivations.specs.Contexts.{world_of, IsReady, HasFrame, AreKnown, IsMissing, AreAllKnown, IsMissingIn, IsPast};

use crate::places::{Context, Place};
use explain::Key;
use node_table::{Equation, Kind};
use wa_base::{End, NodeId};

// The first need of a history that is missing: what its node reads of each frame, from this one back.
pub(crate) fn next_of_history(
    context: Context<'_>,
    frame: u64,
    node: NodeId,
    channel: u32,
    place: &mut Place,
) -> Option<Key>
    requires ready { IsReady context }
    requires there { HasFrame context frame }
    requires node { node.0 < length (world_of context frame).nodes }
    requires history { has_history (kind_of (world_of context frame) node.0) ≡ true }
    requires channel { channel < 32 }
    requires before { IsPast context (λ q tape a. history_group q tape a frame node.0 channel) place.old }
    ensures none { IfNone result (AreAllKnown context.entry (λ q tape a. history_group q tape a frame node.0 channel)) }
    ensures some { IfSome result (IsMissingIn context.entry (λ q tape a. history_group q tape a frame node.0 channel)) }
    ensures after { OnSome result (IsPast context.entry (λ q tape a. history_group q tape a frame node.0 channel) place.new) }
{
    let stretch = context.piece_at(frame);
    let kind = stretch.piece.world.nodes.kind(node);
    let age = frame - stretch.piece.world.nodes.attrs(node).birth;
    for ago in place.group..reach(kind).min(age.saturating_add(1)) {
        let heard = Heard {
            frame: frame - ago,
            node,
            channel,
        };
        match missing_ago(context, kind, heard, ago) {
            Some(key) => return Some(key),
            None => {
                *place = Place {
                    group: ago + 1,
                    item: 0,
                }
            }
        }
    }
    None
}

// A channel of what a node took in at a frame.
#[derive(Clone, Copy)]
struct Heard {
    frame: u64,
    node: NodeId,
    channel: u32,
}

// The first key that is missing of what a node of a kind reads of a frame so many frames ago.
fn missing_ago(context: Context<'_>, kind: &Kind, heard: Heard, ago: u64) -> Option<Key>
    requires ready { IsReady context }
    requires there { HasFrame context heard.frame }
    requires node { heard.node.0 < length (world_of context heard.frame).nodes }
    requires history { has_history (kind_of (world_of context heard.frame) heard.node.0) ≡ true }
    requires channel { heard.channel < 32 }
    ensures none { IfNone result (AreKnown context.entry (λ q tape a. read_keys q tape a heard.frame heard.node.0 heard.channel kind.now ago)) }
    ensures some { IfSome result (IsMissing context.entry (λ q tape a. read_keys q tape a heard.frame heard.node.0 heard.channel kind.now ago)) }
{
    match missing_input(context, kind, heard, ago) {
        Some(key) => Some(key),
        None => missing_result(context, kind, heard, ago),
    }
}

// The first key that is missing of what the node took in then, where its kind reads that.
fn missing_input(context: Context<'_>, kind: &Kind, heard: Heard, ago: u64) -> Option<Key>
    requires ready { IsReady context }
    requires there { HasFrame context heard.frame }
    requires node { heard.node.0 < length (world_of context heard.frame).nodes }
    requires history { has_history (kind_of (world_of context heard.frame) heard.node.0) ≡ true }
    requires channel { heard.channel < 32 }
    ensures none { IfNone result (AreKnown context.entry (λ q tape a. input_keys q tape a heard.frame heard.node.0 heard.channel kind.now ago)) }
    ensures some { IfSome result (IsMissing context.entry (λ q tape a. input_keys q tape a heard.frame heard.node.0 heard.channel kind.now ago)) }
{
    if hears(kind, ago) {
        missing_heard(context, heard)
    } else {
        None
    }
}

// What came of it then, where the kind reads that and it is missing.
fn missing_result(context: Context<'_>, kind: &Kind, heard: Heard, ago: u64) -> Option<Key>
    requires there { HasFrame context heard.frame }
    requires node { heard.node.0 < length (world_of context heard.frame).nodes }
    requires history { has_history (kind_of (world_of context heard.frame) heard.node.0) ≡ true }
    requires channel { heard.channel < 32 }
    ensures none { IfNone result (AreKnown context.entry (λ q tape a. result_keys heard.frame heard.node.0 heard.channel kind.now ago)) }
    ensures some { IfSome result (IsMissing context.entry (λ q tape a. result_keys heard.frame heard.node.0 heard.channel kind.now ago)) }
{
    if feeds_back(kind, ago) {
        context.missing(Key::Hist {
            frame: heard.frame,
            node: heard.node,
            channel: heard.channel,
        })
    } else {
        None
    }
}

// The first key that is missing of what a node took in: how many channels it had, and then the input.
fn missing_heard(context: Context<'_>, heard: Heard) -> Option<Key>
    requires ready { IsReady context }
    requires there { HasFrame context heard.frame }
    requires node { heard.node.0 < length (world_of context heard.frame).nodes }
    requires history { has_history (kind_of (world_of context heard.frame) heard.node.0) ≡ true }
    requires channel { heard.channel < 32 }
    ensures none { IfNone result (AreKnown context.entry (λ q tape a. heard_needs q tape a heard.frame heard.node.0 heard.channel)) }
    ensures some { IfSome result (IsMissing context.entry (λ q tape a. heard_needs q tape a heard.frame heard.node.0 heard.channel)) }
{
    let end = End {
        node: heard.node,
        writer: false,
    };
    let quantum = heard.frame / u64::from(context.quantum);
    let Some(count) = context.count(quantum, end, 0) else {
        return Some(Key::Count {
            quantum,
            end,
            output: 0,
        });
    };
    if context.piece(quantum).is_muted(end) {
        return None;
    }
    if heard.channel >= count {
        return None;
    }
    context.missing(Key::Inlet {
        frame: heard.frame,
        end,
        input: 0,
        channel: heard.channel,
    })
}

// Whether a node of a kind reads what it took in so many frames ago.
fn hears(kind: &Kind, ago: u64) -> bool
    ensures { result ≡ hears_at kind.now ago }
{
    match kind {
        Kind::Shaper { .. } => ago == 0,
        Kind::Causal { equation } => match equation {
            Equation::Filter { forward, .. } => ago < forward.len() as u64,
            Equation::Convolution { response } => ago < response.len() as u64,
            Equation::Processor { .. } => ago == 0,
        },
        _ => false,
    }
}

// And whether it reads what came of it then.
fn feeds_back(kind: &Kind, ago: u64) -> bool
    ensures { result ≡ feeds_back_at kind.now ago }
{
    match kind {
        Kind::Causal { equation } => match equation {
            Equation::Filter { back, .. } => 1 <= ago && ago < back.len() as u64,
            Equation::Convolution { .. } => false,
            Equation::Processor { .. } => ago == 1,
        },
        _ => false,
    }
}

// How many frames, from this one back, a node of a kind reads at most.
fn reach(kind: &Kind) -> u64
    ensures { result ≡ reach_of kind.now }
{
    match kind {
        Kind::Shaper { .. } => 1,
        Kind::Causal { equation } => match equation {
            Equation::Filter { forward, back } => forward.len().max(back.len()) as u64,
            Equation::Convolution { response } => response.len() as u64,
            Equation::Processor { .. } => 2,
        },
        _ => 0,
    }
}
