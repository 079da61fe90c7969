ghost use Rattle.std.specs.Prelude.{◌≡◌, ◌<◌, ◌+◌, ◌^◌, if◌then◌else◌, true, length, IfSome, IfNone, OnSome};
ghost use Rattle.law_base.specs.Members.{IsIn};
ghost use Rattle.conn_graph.specs.declared.edges.Edge.{Edge as an_edge};
ghost use Rattle.conn_graph.specs.Ends.{reader_of, ends, muted, is_delay, in_cycle};
ghost use Rattle.derivations.specs.Marks.{AreMarks};
ghost use Rattle.node_table.specs.Kinds.{is_delay_kind};
ghost use Rattle.meaning.specs.Counts.{world_in};
ghost use Rattle.meaning.specs.World.{kind_of};
ghost use Rattle.explain.specs.Facts.{HasOutput};
ghost use Rattle.derivations.specs.Groups.{edge_group, one, input_of, led, writer_count_group, count_group};
ghost use Rattle.derivations.specs.Contexts.{tape_in, IsReady, AreKnown, IsMissing, AreAllKnown, IsMissingIn, IsPast};
ghost use Rattle.derivations.specs.Stretches.{IsInForce};
ghost use Rattle.explain.specs.declared.facts.Key.TheVariants as keys;

use crate::places::{Context, Place};
use crate::tape::Stretch;
use conn_graph::{Edge, Target};
use explain::Key;
use node_table::Channels;
use wa_base::{End, NodeId};

// The first need that is missing of how many channels an end has.
pub(crate) fn next_of_count(
    context: Context<'_>,
    quantum: u64,
    end: End,
    place: &mut Place,
) -> Option<Key>
    requires ready { IsReady context }
    requires there { quantum < length (tape_in context) }
    requires end { IsIn end (ends (world_in (tape_in context) quantum).graph.value) }
    requires before { IsPast context (λ q tape a. count_group q tape a quantum end) place.old }
    ensures none { IfNone result (AreAllKnown context.entry (λ q tape a. count_group q tape a quantum end)) }
    ensures some { IfSome result (IsMissingIn context.entry (λ q tape a. count_group q tape a quantum end)) }
    ensures after { OnSome result (IsPast context.entry (λ q tape a. count_group q tape a quantum end) place.new) }
{
    let stretch = context.piece(quantum);
    if stretch.is_muted(end) {
        return None;
    }
    let row = stretch.piece.world.nodes.kind(end.node).row();
    if row.keeps.is_written() && !end.writer {
        return next_writer_count(context, quantum, stretch, end.node, place);
    }
    match row.channels {
        Channels::OfInput => {
            let edges = stretch.marks.into.part(end.node.0 as usize);
            next_input_count(context, quantum, end.node, edges, place)
        }
        Channels::Always(_) => None,
        Channels::OfBuffer => None,
    }
}

// The first count that is missing of what is connected to a node.
fn next_input_count(
    context: Context<'_>,
    quantum: u64,
    node: NodeId,
    edges: &[Edge],
    place: &mut Place,
) -> Option<Key>
    requires ready { IsReady context }
    requires there { quantum < length (tape_in context) }
    requires sources { (x : an_edge) → IsIn x edges.now → HasOutput (world_in (tape_in context) quantum) (reader_of x.from.0) x.output }
    requires before { IsPast context (λ q tape a. edge_group (input_of node.0 0) (λ x. one (keys.Count quantum (reader_of x.from.0) x.output)) edges.now) place.old }
    ensures none { IfNone result (AreAllKnown context.entry (λ q tape a. edge_group (input_of node.0 0) (λ x. one (keys.Count quantum (reader_of x.from.0) x.output)) edges.now)) }
    ensures some { IfSome result (IsMissingIn context.entry (λ q tape a. edge_group (input_of node.0 0) (λ x. one (keys.Count quantum (reader_of x.from.0) x.output)) edges.now)) }
    ensures after { OnSome result (IsPast context.entry (λ q tape a. edge_group (input_of node.0 0) (λ x. one (keys.Count quantum (reader_of x.from.0) x.output)) edges.now) place.new) }
{
    let target = Target::Input { node, input: 0 };
    for group in place.group..edges.len() as u64 {
        let edge = edges[group as usize];
        match missing_count(context, quantum, target, edge) {
            Some(key) => return Some(key),
            None => {
                *place = Place {
                    group: group + 1,
                    item: 0,
                }
            }
        }
    }
    None
}

// The count of a connection's source, where the connection leads to a target and the count is missing.
fn missing_count(context: Context<'_>, quantum: u64, target: Target, edge: Edge) -> Option<Key>
    requires there { quantum < length (tape_in context) }
    requires source { HasOutput (world_in (tape_in context) quantum) (reader_of edge.from.0) edge.output }
    ensures none { IfNone result (AreKnown context.entry (λ q tape a. led target (λ x. one (keys.Count quantum (reader_of x.from.0) x.output)) edge)) }
    ensures some { IfSome result (IsMissing context.entry (λ q tape a. led target (λ x. one (keys.Count quantum (reader_of x.from.0) x.output)) edge)) }
{
    if target.is_same(edge.to) {
        context.missing(Key::Count {
            quantum,
            end: End {
                node: edge.from,
                writer: false,
            },
            output: edge.output,
        })
    } else {
        None
    }
}

// The first count that is missing of the writer of a delay.
fn next_writer_count(
    context: Context<'_>,
    quantum: u64,
    stretch: &Stretch,
    node: NodeId,
    place: &mut Place,
) -> Option<Key>
    requires ready { IsReady context }
    requires piece { IsInForce (tape_in context) quantum stretch.now }
    requires node { node.0 < length stretch.now.piece.world.nodes }
    requires delay { is_delay_kind (kind_of stretch.now.piece.world node.0) ≡ true }
    requires low { quantum < 2 ^ 62 }
    requires before { IsPast context (λ q tape a. writer_count_group q tape a quantum node.0) place.old }
    ensures none { IfNone result (AreAllKnown context.entry (λ q tape a. writer_count_group q tape a quantum node.0)) }
    ensures some { IfSome result (IsMissingIn context.entry (λ q tape a. writer_count_group q tape a quantum node.0)) }
    ensures after { OnSome result (IsPast context.entry (λ q tape a. writer_count_group q tape a quantum node.0) place.new) }
{
    let first = stretch.piece.world.nodes.attrs(node).birth / u64::from(context.quantum);
    let end = stretch.counted_until(quantum, node);
    let writer = End { node, writer: true };
    for group in place.group..end.saturating_sub(first) {
        let key = Key::Count {
            quantum: first + group,
            end: writer,
            output: 0,
        };
        match context.missing(key) {
            Some(key) => return Some(key),
            None => {
                *place = Place {
                    group: group + 1,
                    item: 0,
                }
            }
        }
    }
    None
}

impl Stretch {
    /// Whether an end is muted.
    pub fn is_muted(&self, end: End) -> bool
        requires marks { AreMarks self.now.piece.world.graph.value self.now.marks }
        requires end { IsIn end (ends self.now.piece.world.graph.value) }
        ensures { result ≡ muted self.now.piece.world.graph.value end }
    {
        if end.writer {
            return false;
        }
        self.marks.muted[end.node.0 as usize]
    }

    /// Up to which quantum the writer of a delay is counted for its reader in a quantum: in a cycle up to
    /// the one before.
    pub fn counted_until(&self, quantum: u64, node: NodeId) -> u64
        requires marks { AreMarks self.now.piece.world.graph.value self.now.marks }
        requires node { node.0 < length self.now.piece.world.graph.value.nodes }
        requires delay { is_delay self.now.piece.world.graph.value node.0 ≡ true }
        requires low { quantum < 2 ^ 62 }
        ensures { result ≡ (if in_cycle self.now.piece.world.graph.value node.0 then quantum else quantum + 1) }
    {
        if self.marks.cycles[node.0 as usize] {
            quantum
        } else {
            quantum + 1
        }
    }
}
