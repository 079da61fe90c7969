ghost use Rattle.std.specs.Prelude.{◌≡◌, ◌<◌, ◌*◌, length, true};
ghost use Rattle.law_base.specs.Members.{IsIn};
ghost use Rattle.conn_graph.specs.Ends.{ends};
ghost use Rattle.node_table.specs.Kinds.{is_delay_kind};
ghost use Rattle.meaning.specs.World.{kind_of};
ghost use Rattle.meaning.specs.Counts.{world_in, count_rule, reader_channels as channels_in};
ghost use Rattle.explain.specs.Accounts.{counts_in};
ghost use Rattle.explain.specs.Needs.{writer_counts, count_needs};
ghost use Rattle.derivations.specs.Contexts.{tape_in};
ghost use Rattle.equations.specs.Given.{IsGiven, meaning_of, AllKnown};

use crate::inputs::input_channels;
use crate::sources::played_channels;
use crate::told::count_of;
use derivations::Context;
use node_table::Channels;
use wa_base::{End, NodeId};

// How many channels an end has in a quantum.
pub(crate) fn end_channels(context: Context<'_>, quantum: u64, end: End) -> u32
    requires given { IsGiven context }
    requires there { quantum < length (tape_in context) }
    requires end { IsIn end (ends (world_in (tape_in context) quantum).graph.value) }
    requires known { AllKnown context (count_needs context.quantum (tape_in context) (meaning_of context) quantum end) }
    ensures { result ≡ count_rule context.entry.quantum (world_in (tape_in context.entry) quantum) quantum (counts_in context.entry.quantum (tape_in context.entry) (meaning_of context.entry) quantum) ((meaning_of context.entry).counts quantum) end }
{
    let stretch = context.piece(quantum);
    if stretch.is_muted(end) {
        return 1;
    }
    let world = &stretch.piece.world;
    let row = world.nodes.kind(end.node).row();
    if row.keeps.is_written() && !end.writer {
        return reader_channels(context, quantum, end.node);
    }
    match row.channels {
        Channels::Always(channels) => channels,
        Channels::OfInput => input_channels(context, quantum, end.node, 0),
        Channels::OfBuffer => {
            let first = u64::from(context.quantum) * quantum;
            played_channels(world, end.node, context.quantum, first)
        }
    }
}

// How many channels the reader of a delay has: the most that its writer had since its birth.
fn reader_channels(context: Context<'_>, quantum: u64, node: NodeId) -> u32
    requires given { IsGiven context }
    requires there { quantum < length (tape_in context) }
    requires node { node.0 < length (world_in (tape_in context) quantum).nodes }
    requires delay { is_delay_kind (kind_of (world_in (tape_in context) quantum) node.0) ≡ true }
    requires known { AllKnown context (writer_counts context.quantum (tape_in context) (meaning_of context) quantum node.0) }
    ensures { result ≡ channels_in context.entry.quantum (world_in (tape_in context.entry) quantum) quantum (counts_in context.entry.quantum (tape_in context.entry) (meaning_of context.entry) quantum) ((meaning_of context.entry).counts quantum) node.0 }
{
    let stretch = context.piece(quantum);
    let first = stretch.piece.world.nodes.attrs(node).birth / u64::from(context.quantum);
    let writer = End { node, writer: true };
    let mut most = 1;
    for earlier in first..stretch.counted_until(quantum, node) {
        most = most.max(count_of(context, earlier, writer, 0));
    }
    most
}
