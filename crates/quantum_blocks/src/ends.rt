ghost use Rattle.std.specs.Prelude.{◌≡◌};
ghost use Rattle.conn_graph.specs.Ends.{writer_of, reader_of};
ghost use Rattle.quantum_blocks.specs.Blocks.{slot as slot_of};

use wa_base::{End, NodeId};

/// The place of an end among the blocks and the counts.
pub fn slot(end: End) -> usize
    ensures { result ≡ slot_of end }
{
    2 * end.node.0 as usize + if end.writer { 0 } else { 1 }
}

/// The end from which a node's connections leave.
pub fn reader(node: NodeId) -> End
    ensures { result ≡ reader_of node.0 }
{
    End {
        node,
        writer: false,
    }
}

/// The end at which the input of a delay arrives.
pub fn writer(node: NodeId) -> End
    ensures { result ≡ writer_of node.0 }
{
    End { node, writer: true }
}
