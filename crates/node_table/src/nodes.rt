ghost use Rattle.std.specs.Prelude.{◌≡◌, ◌==◌, ◌↔◌, ◌<◌, ◌≤◌, ◌∷◌, ◌++◌, [], false, Some, None, length, slice_get, IfOk, IsErrOf, OnOk, OnErr};
ghost use Rattle.wa_base.specs.Contexts.{IsSupported};
ghost use Rattle.node_table.specs.Kinds.{is_destination};
ghost use Rattle.node_table.specs.Nodes as table;

use crate::kinds::Kind;
use std::alloc::Global;
use std::marker::Model;
use wa_base::{ContextSpec, Exc, Feature, Interp, Mode, NoMemory, NodeId, Refusal};

const MAX_NODES: usize = 1_024;

const MAX_DELAY_FRAMES: u64 = 4_194_304;

/// How the channels of a node's inputs are mixed, and when the node was created.
#[derive(Clone, Copy, PartialEq, Eq)]
pub struct Attrs {
    /// The number of channels that the mode speaks of (channelCount), from 1 to 32.
    pub count: u32,
    /// channelCountMode.
    pub mode: Mode,
    /// channelInterpretation.
    pub interp: Interp,
    /// The time of the context at the creation, in frames.
    pub birth: u64,
}

impl Attrs {
    // The attributes with which a node of a kind is created at this frame.
    fn first(kind: &Kind, birth: u64) -> Attrs
        ensures { result ≡ table.first_attrs kind.now birth }
    {
        let row = kind.row();
        Attrs {
            count: row.count,
            mode: row.mode,
            interp: row.interp,
            birth,
        }
    }
}

/// A node (AudioNode).
#[derive(Drop)]
pub struct Node {
    pub kind: Kind,
    pub attrs: Attrs,
}

impl Node {
    // The destination of a context.
    fn destination(spec: ContextSpec) -> Node
        ensures { result ≡ table.destination_of spec }
    {
        Node {
            kind: Kind::Destination,
            attrs: Attrs {
                count: spec.channels,
                mode: Mode::Explicit,
                interp: Interp::Speakers,
                birth: 0,
            },
        }
    }

    // A node that was created at this frame.
    fn created(kind: Kind, birth: u64) -> Node
        ensures { result ≡ table.node_of kind birth }
    {
        let attrs = Attrs::first(&kind, birth);
        Node { kind, attrs }
    }

    // An equal node with memory of its own.
    fn copy(&self) -> Result<Node, NoMemory>
        ensures { IfOk result (λ copy. copy ≡ self.now) }
    {
        Ok(Node {
            kind: self.kind.copy()?,
            attrs: self.attrs,
        })
    }
}

/// The nodes of a graph, in order of creation. Contracts see them as the list of nodes.
///
/// The destination is node 0, and is there from the start. A node is never removed.
#[derive(Drop)]
pub struct Nodes {
    pub(crate) nodes: Vec<Node>,
    // How many frames the delays keep together.
    delay_frames: u64,
}

impl Model for Nodes {
    ghost use Rattle.std.specs.Prelude.{List, ◌≡◌};
    ghost use Rattle.node_table.specs.declared.nodes.Node.{Node};
    ghost use Rattle.node_table.specs.Nodes.{AreNodes, capacities};

    ghost Value = { List Node };

    ghost view = { λ s. s.nodes.items };

    ghost invariant = { λ s. AreNodes s.nodes.items × (s.delay_frames ≡ capacities s.nodes.items) };
}

impl Nodes {
    /// The destination of a context, alone: its channel count is the context's, its mode explicit and
    /// its interpretation speakers (the recommendation's section on AudioDestinationNode).
    pub fn new(alloc: Global, spec: ContextSpec) -> Result<Nodes, NoMemory>
        requires { IsSupported spec }
        ensures { IfOk result (λ nodes. nodes ≡ table.destination_of spec ∷ []) }
    {
        let mut nodes = Vec::new(alloc);
        nodes.push(Node::destination(spec))?;
        Ok(Nodes {
            nodes,
            delay_frames: 0,
        })
    }

    /// Creates a node of a kind other than the destination at the frame `birth`. Its number is the
    /// count of the nodes that were there before, and its attributes are the kind's defaults.
    ///
    /// It is refused with IndexSizeError where a splitter would have no output or more than 32, or a
    /// merger so many inputs, with NotSupportedError and the feature `playback-rate` where a buffer
    /// source would have the rate 0, with NotSupportedError where the longest delay of a delay would not
    /// be above 0, and with that and the feature `long-delay` where it would be above 16 seconds, with
    /// InvalidStateError where a shaper would have a curve of fewer than two points, as `filter_refusal`
    /// says for a filter, as `response_refusal` says for a convolver, then with NotSupportedError and the feature `node-limit` where 1,024 nodes are
    /// there, the destination among them, and then with the feature `delay-limit` where the delays would
    /// keep more than 4,194,304 frames together. After a refusal, and after `NoMemory`, the nodes are as
    /// before, and the kind is dropped.
    #[tactic(auto, using(crate::proofs::NodeLists::are_nodes_with_another))]
    pub fn create(&mut self, kind: Kind, birth: u64) -> Result<NodeId, Refusal>
        requires { is_destination kind ≡ false }
        ensures id { IfOk result (λ id. id.0 ≡ length self.old) }
        ensures nodes { OnOk result (self.new ≡ self.old ++ table.node_of kind birth ∷ []) }
        ensures accepted { OnOk result (table.creation_refusal self.old kind ≡ None) }
        ensures refused { (exc : Exc) → IsErrOf result (Refusal.Exc exc) ↔ (table.creation_refusal self.old kind ≡ Some exc) }
        ensures err { OnErr result (self.new ≡ self.old) }
    {
        if let Some(exc) = self.creation_refusal(&kind) {
            return Err(Refusal::Exc(exc));
        }
        let id = NodeId(self.nodes.len() as u32);
        let capacity = kind.row().keeps.frames();
        self.nodes
            .push(Node::created(kind, birth))
            .map_err(NoMemory::from)?;
        self.delay_frames += capacity;
        Ok(id)
    }

    /// The exception with which `create` would refuse a node of a kind now.
    pub fn creation_refusal(&self, kind: &Kind) -> Option<Exc>
        ensures { result ≡ table.creation_refusal self.now kind.now }
    {
        if let Some(exc) = kind.range_refusal() {
            return Some(exc);
        }
        self.limit_refusal(kind.row().keeps.frames())
    }

    /// The exception with which a node that keeps so many frames of what it wrote would be refused now
    /// for want of room, whatever its kind: the features are `node-limit` and `delay-limit`.
    pub fn limit_refusal(&self, frames: u64) -> Option<Exc>
        ensures { result ≡ table.limit_refusal self.now frames }
    {
        if self.nodes.len() >= MAX_NODES {
            return Some(Exc::NotSupported(Some(Feature::NodeLimit)));
        }
        self.delay_limit_refusal(frames)
    }

    // The delays keep at most so many frames together.
    fn delay_limit_refusal(&self, frames: u64) -> Option<Exc>
        ensures { result ≡ table.delay_limit_refusal self.now frames }
    {
        if frames > MAX_DELAY_FRAMES - self.delay_frames {
            Some(Exc::NotSupported(Some(Feature::DelayLimit)))
        } else {
            None
        }
    }

    // A node with its attributes.
    pub(crate) fn node(&self, node: NodeId) -> &Node
        requires { node.0 < length self.now }
        ensures { slice_get self.now node.0 ≡ Some result.now }
    {
        &self.nodes[node.0 as usize]
    }

    /// What a node is.
    pub fn kind(&self, node: NodeId) -> &Kind
        requires { node.0 < length self.now }
        ensures value { table.kind_at self.now node.0 ≡ Some result.now }
        ensures destination { is_destination result.now ≡ (node.0 == 0) }
    {
        &self.nodes[node.0 as usize].kind
    }

    /// The attributes of a node.
    pub fn attrs(&self, node: NodeId) -> Attrs
        requires { node.0 < length self.now }
        ensures value { table.attrs_at self.now node.0 ≡ Some result }
        ensures count { (1 ≤ result.count) × (result.count ≤ 32) }
    {
        self.nodes[node.0 as usize].attrs
    }

    /// The number of nodes, from 1 to 1,024.
    pub fn len(&self) -> u32
        ensures value { result ≡ length self.now }
        ensures nodes { table.AreNodes self.now }
    {
        self.nodes.len() as u32
    }

    /// Equal nodes with memory of their own.
    pub fn copy(&self) -> Result<Nodes, NoMemory>
        ensures { IfOk result (λ copy. copy ≡ self.now) }
    {
        let nodes = copy_all(*self.nodes.allocator(), self.nodes.as_slice())?;
        Ok(Nodes {
            nodes,
            delay_frames: self.delay_frames,
        })
    }
}

// Copies of nodes, in their order.
fn copy_all(alloc: Global, nodes: &[Node]) -> Result<Vec<Node>, NoMemory>
    ensures { IfOk result (λ copies. copies.items ≡ nodes.now) }
{
    let mut copies = Vec::with_capacity(alloc, nodes.len())?;
    for node in nodes {
        copies.push_reserved(node.copy()?);
    }
    Ok(copies)
}
