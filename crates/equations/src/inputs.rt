ghost use Rattle.std.specs.Prelude.{◌≡◌, ◌<◌, ◌≤◌, length};
ghost use Rattle.law_base.specs.Members.{IsIn};
ghost use Rattle.conn_graph.specs.declared.edges.Edge.{Edge as an_edge};
ghost use Rattle.conn_graph.specs.Ends.{reader_of};
ghost use Rattle.conn_graph.specs.Graph.{edges_to_input};
ghost use Rattle.meaning.specs.Counts.{world_in, input_channels as channels_in};
ghost use Rattle.meaning.specs.Values.{input_value as value_in};
ghost use Rattle.explain.specs.declared.facts.Key.TheVariants as keys;
ghost use Rattle.explain.specs.Needs.{connections_needs};
ghost use Rattle.derivations.specs.Contexts.{tape_in, world_of, StandsIn, HasFrame};
ghost use Rattle.equations.specs.Given.{IsGiven, meaning_of, AllKnown, frame_of};

use crate::mixing::nearest;
use crate::sums::{Lane, most_led, total_led};
use conn_graph::Target;
use derivations::Context;
use mix_rules::count;
use wa_base::{Fix, NodeId};

// How many channels an input of a node has in a quantum, from those of its connections.
pub(crate) fn input_channels(context: Context<'_>, quantum: u64, node: NodeId, input: u32) -> u32
    requires given { IsGiven context }
    requires there { quantum < length (tape_in context) }
    requires node { node.0 < length (world_in (tape_in context) quantum).nodes }
    requires known { (x : an_edge) → IsIn x (edges_to_input (world_in (tape_in context) quantum).graph.value node.0 input) → StandsIn context (keys.Count quantum (reader_of x.from.0) x.output) }
    ensures value { result ≡ channels_in (world_in (tape_in context.entry) quantum) ((meaning_of context.entry).counts quantum) node.0 input }
    ensures few { result ≤ 32 }
{
    let stretch = context.piece(quantum);
    let edges = stretch.marks.into.part(node.0 as usize);
    let most = most_led(context, quantum, Target::Input { node, input }, edges);
    let attrs = stretch.piece.world.nodes.attrs(node);
    count(attrs.mode, attrs.count, &[most])
}

// What an input of a node takes in at a frame: the sum of its connections, saturated once.
pub(crate) fn input_value(
    context: Context<'_>,
    frame: u64,
    node: NodeId,
    input: u32,
    channel: u32,
) -> Fix
    requires given { IsGiven context }
    requires there { HasFrame context frame }
    requires node { node.0 < length (world_of context frame).nodes }
    requires known { AllKnown context (connections_needs context.quantum (tape_in context) (meaning_of context) frame (edges_to_input (world_of context frame).graph.value node.0 input)) }
    ensures { result ≡ value_in (frame_of context.entry frame) node.0 input channel }
{
    let channels = input_channels(context, frame / u64::from(context.quantum), node, input);
    if channel >= channels {
        return 0;
    }
    let stretch = context.piece_at(frame);
    let edges = stretch.marks.into.part(node.0 as usize);
    let lane = Lane {
        interp: stretch.piece.world.nodes.attrs(node).interp,
        channels,
        channel,
    };
    nearest(total_led(context, frame, Target::Input { node, input }, edges, lane))
}
