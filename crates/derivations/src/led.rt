ghost use Rattle.std.specs.Prelude.{take, IfSome, IfNone, OnSome};
ghost use Rattle.law_base.specs.Members.{IsIn};
ghost use Rattle.conn_graph.specs.declared.edges.Edge.{Edge as an_edge};
ghost use Rattle.conn_graph.specs.Ends.{reader_of};
ghost use Rattle.explain.specs.Facts.{HasOutput};
ghost use Rattle.derivations.specs.Groups.{edge_group, led, source_keys};
ghost use Rattle.derivations.specs.Contexts.{world_of, IsReady, HasFrame, AreKnown, IsMissing, AreAllKnown, IsMissingIn, IsPast};

use crate::carried::next_carried;
use crate::places::{Context, Place};
use conn_graph::{Edge, Target};
use explain::Key;
use wa_base::End;

// The first key that is missing of what the connections to a target carry at a frame, from a place on
// in a list of connections.
pub(crate) fn next_led(
    context: Context<'_>,
    frame: u64,
    target: Target,
    edges: &[Edge],
    place: &mut Place,
) -> Option<Key>
    requires ready { IsReady context }
    requires there { HasFrame context frame }
    requires sources { (x : an_edge) → IsIn x edges.now → HasOutput (world_of context frame) (reader_of x.from.0) x.output }
    requires before { IsPast context (λ q tape a. edge_group target (source_keys q tape a frame) edges.now) place.old }
    ensures none { IfNone result (AreAllKnown context.entry (λ q tape a. edge_group target (source_keys q tape a frame) edges.now)) }
    ensures some { IfSome result (IsMissingIn context.entry (λ q tape a. edge_group target (source_keys q tape a frame) edges.now)) }
    ensures after { OnSome result (IsPast context.entry (λ q tape a. edge_group target (source_keys q tape a frame) edges.now) place.new) }
{
    for group in place.group..edges.len() as u64 {
        let edge = edges[group as usize];
        match next_of_edge(context, frame, target, edge, &mut place.item) {
            Some(key) => return Some(key),
            None => {
                *place = Place {
                    group: group + 1,
                    item: 0,
                }
            }
        }
    }
    None
}

// The first key that is missing of what a connection carries, where it leads to a target.
fn next_of_edge(
    context: Context<'_>,
    frame: u64,
    target: Target,
    edge: Edge,
    item: &mut u64,
) -> Option<Key>
    requires ready { IsReady context }
    requires there { HasFrame context frame }
    requires source { HasOutput (world_of context frame) (reader_of edge.from.0) edge.output }
    requires before { AreKnown context (λ q tape a. take item.old (led target (source_keys q tape a frame) edge)) }
    ensures none { IfNone result (AreKnown context.entry (λ q tape a. led target (source_keys q tape a frame) edge)) }
    ensures some { IfSome result (IsMissing context.entry (λ q tape a. led target (source_keys q tape a frame) edge)) }
    ensures after { OnSome result (AreKnown context.entry (λ q tape a. take item.new (led target (source_keys q tape a frame) edge))) }
{
    if target.is_same(edge.to) {
        let source = End {
            node: edge.from,
            writer: false,
        };
        next_carried(context, frame, source, edge.output, item)
    } else {
        None
    }
}
