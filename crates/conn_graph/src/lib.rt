//! The connections of an audio graph: connecting, disconnecting, and walks from node to node.
//!
//! What follows from the connections alone stands here too: ends, cycles, muting and legal orders.
#![tactic(auto)]

ghost use Rattle.conn_graph.specs.Ends.{EndsOrderLaw};
ghost use Rattle.conn_graph.specs.Orders.{LegalOrderLaw, MutingLaw};

mod cells;
mod edges;
mod graph;
mod lists;
mod walks;

pub use edges::{Edge, Form, Ports, Target};
pub use graph::Graph;

/// A writer is never muted, and every graph has a legal order of its unmuted ends.
pub fn muting_law()
    ensures { MutingLaw }
{}

/// A legal order has each unmuted end, and nothing else, and each once; and every arrow between its
/// ends goes forward. Each list of which this holds is a legal order.
pub fn legal_order_law()
    ensures { LegalOrderLaw }
{}

/// The list of ends is in order of node number, a delay's writer before its reader. It has the
/// writer of each delay and the reader of each node, and no other end.
pub fn ends_order_law()
    ensures { EndsOrderLaw }
{}
