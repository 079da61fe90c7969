//! The meaning of a graph over time: the worlds of a session, the value that each end of a node
//! carries at each frame, and the laws of these values.
#![tactic(auto)]

ghost use Rattle.meaning.specs.Laws.{RecursionLaw, HeightLaw, FixpointLaw, RangeLaw, OrderLaw, BlockLaw, PastLaw, SlotLaw, ReachLaw};
ghost use Rattle.meaning.specs.Changes.{ChangeLaw};

mod automation;
mod buffers;
mod change;
mod convolvers;
mod growth;
mod listed;
mod params;
mod scheds;
mod sources;
mod world;

pub use automation::ParamEdit;
pub use buffers::BufferEdit;
pub use change::{AttributeEdit, Change, Edit};
pub use conn_graph::muting_law;
pub use listed::Listed;
pub use params::{Param, Params};
pub use scheds::{LoopPart, Play, Scheds};
pub use sources::SourceEdit;
pub use world::World;

/// The recursions over frame and height, of values and of counts, as one reads them.
pub fn recursion_law()
    ensures { RecursionLaw }
{}

/// A zero is a silence of the graph, never a height that ran out.
pub fn height_law()
    ensures { HeightLaw }
{}

/// The values of a frame solve its equations, and the counts of its quantum theirs: nothing is said of
/// heights.
pub fn fixpoint_law()
    ensures { FixpointLaw }
{}

/// Every value is a Fix, from -2^31 to 2^31 - 1, where the samples of the buffers and the points of the
/// curves are.
pub fn range_law()
    ensures { RangeLaw }
{}

/// The values do not depend on the order in which the ends are gone along.
pub fn order_law()
    ensures { OrderLaw }
{}

/// A quantum can be made end by end, each with its whole block.
pub fn block_law()
    ensures { BlockLaw }
{}

/// Of the quanta before, a quantum reads only their past: after two regular tapes of one past it has
/// the same counts, values and parameters, and it leaves one past.
pub fn past_law()
    ensures { PastLaw }
{}

/// The current value slots are never heard: no sample hangs on when they are set.
pub fn slot_law()
    ensures { SlotLaw }
{}

/// The reader of a delay asks only for frames that the delay keeps, and in a cycle only for frames of
/// earlier quanta. What it asks for was written with no more channels than it has.
pub fn reach_law()
    ensures { ReachLaw }
{}

/// A valid world stays valid by each change that it accepts. It keeps its context and its nodes, and
/// each new node is born at the time of the change.
pub fn change_law()
    ensures { ChangeLaw }
{}
