ghost use Rattle.std.specs.Prelude.{◌≡◌, ◌↔◌, ◌<◌, ◌+◌, ◌-◌, ◌^◌, [], ◌∷◌, ◌++◌, if◌then◌else◌, length, not, Some, IsOk, IfOk, OnOk, OnErr, IsErrOf, IfSome};
ghost use Rattle.wa_base.specs.declared.exceptions.Exc.{Exc};
ghost use Rattle.wa_base.specs.declared.exceptions.Refusal.TheVariants as Refusal;
ghost use Rattle.std.specs.List.{list_any};
ghost use Rattle.conn_graph.specs.Edges.{target_node, form_node, is_named};
ghost use Rattle.conn_graph.specs.Graph as spec;
ghost use Rattle.conn_graph.specs.Walks.{out_walk, in_walk, next_step, IsOnWalk, IsOutWalk, IsInWalk, LeavesGraph, one_more};

use crate::cells::Side;
use crate::edges::{Edge, Form, Ports, Target};
use crate::lists::Lists;
use crate::walks::{is_one_named, take_named};
use std::alloc::Global;
use std::marker::Model;
use std::sync::ledger::Ledger;
use wa_base::{Exc, Feature, NoMemory, NodeId, Refusal, Steps};

const MAX_EDGES: usize = 8_192;

/// The nodes of an audio graph, as far as connections see them, and the connections between them.
///
/// Contracts see it as the list of the nodes' ports and the list of connections, in order of the
/// source's number and, for one source, in order of connection. No connection is there twice. The
/// edits that change it are counted, so that whoever made something of a graph can tell whether it
/// is still that graph.
#[derive(Drop)]
pub struct Graph {
    lists: Lists,
    edits: u64,
}

impl Model for Graph {
    ghost use Rattle.conn_graph.specs.Lists.{view_of, IsWhole};
    ghost use Rattle.conn_graph.specs.Walks.{GraphView};

    ghost Value = { GraphView };

    ghost view = { λ g. view_of g.lists g.edits };

    ghost invariant = { λ g. IsWhole g.lists };
}

impl Graph {
    /// A graph without nodes. It takes no memory until it grows.
    pub fn new(alloc: Global) -> Graph
        ensures value { result.value ≡ spec.no_connections }
        ensures edits { result.edits ≡ 0 }
    {
        Graph {
            lists: Lists::new(alloc),
            edits: 0,
        }
    }

    /// Makes room for one more node. The graph stays, and so does the room that there was.
    pub fn reserve(&mut self) -> Result<(), NoMemory>
        ensures graph { LeavesGraph self.old self.new }
        ensures room { OnOk result (0 < self.new.room) }
    {
        self.lists.reserve()
    }

    /// Adds a node with so many inputs and outputs, and no connection. After `NoMemory` the graph
    /// is as before.
    pub fn add_node(&mut self, inputs: u32, outputs: u32, is_delay: bool) -> Result<(), NoMemory>
        requires { length self.old.value.nodes < 2 ^ 32 - 1 }
        ensures ok { OnOk result (self.new.value ≡ spec.with_node self.old.value (record { inputs = inputs; outputs = outputs; is_delay = is_delay })) }
        ensures edits { OnOk result (self.new.edits ≡ one_more self.old.edits) }
        ensures reserved { 0 < self.old.room → IsOk result }
        ensures err { OnErr result (LeavesGraph self.old self.new) }
    {
        self.lists.add_node(Ports {
            inputs,
            outputs,
            is_delay,
        })?;
        self.edits = edits_after(self.edits);
        Ok(())
    }

    /// Makes a connection. `Ok(false)` says that an identical one was there, and nothing changes.
    ///
    /// The refusals are, in this order, `IndexSize` for an output or an input that the node does
    /// not have, and `NotSupported` with `ConnectionLimit` for a new connection where there are
    /// 8,192. A refusal leaves the graph as it was, with the room that was reserved, and so does want
    /// of memory (AudioNode.connect).
    pub fn connect(&mut self, edge: Edge) -> Result<bool, Refusal>
        requires from { edge.from.0 < length self.old.value.nodes }
        requires to { target_node edge.to < length self.old.value.nodes }
        ensures ok { IfOk result (λ is_new. is_new ≡ not (spec.has_edge self.old.value edge)) }
        ensures value { OnOk result (self.new.value ≡ spec.connected self.old.value edge) }
        ensures edits { IfOk result (λ is_new. self.new.edits ≡ (if is_new then one_more self.old.edits else self.old.edits)) }
        ensures room { self.new.room ≡ self.old.room }
        ensures refused { (exc : Exc) → IsErrOf result (Refusal.Exc exc) ↔ (spec.connect_refusal self.old.value edge ≡ Some exc) }
        ensures err { OnErr result (LeavesGraph self.old self.new) }
        ensures whole { spec.IsGraph self.new.value }
    {
        if let Some(exc) = self.connect_refusal(edge) {
            return Err(Refusal::Exc(exc));
        }
        if self.has_edge(edge) {
            return Ok(false);
        }
        self.lists.put(edge)?;
        self.edits = edits_after(self.edits);
        Ok(true)
    }

    /// The exception with which `connect` would refuse now, and `None` where it would not refuse and
    /// could fail for want of memory alone.
    ///
    /// The refusals come in the order of `connect`: `IndexSize` for an output or an input that the
    /// node does not have, then `NotSupported` with `ConnectionLimit` for a new connection where
    /// there are 8,192. Nothing changes.
    pub fn connect_refusal(&self, edge: Edge) -> Option<Exc>
        requires from { edge.from.0 < length self.now.value.nodes }
        requires to { target_node edge.to < length self.now.value.nodes }
        ensures { result ≡ spec.connect_refusal self.now.value edge }
    {
        if edge.output >= self.ports(edge.from).outputs || self.lacks_input(edge.to) {
            return Some(Exc::IndexSize);
        }
        if self.lists.edges() >= MAX_EDGES && !self.has_edge(edge) {
            return Some(Exc::NotSupported(Some(Feature::ConnectionLimit)));
        }
        None
    }

    // Whether an identical connection is there.
    fn has_edge(&self, edge: Edge) -> bool
        requires from { edge.from.0 < length self.now.value.nodes }
        requires to { target_node edge.to < length self.now.value.nodes }
        ensures { result ≡ spec.has_edge self.now.value edge }
    {
        self.names_one(edge.from, edge.form())
    }

    // Whether a disconnect from a node names a connection. Where it names a target, it is looked for on
    // the shorter one of the two walks that would have it.
    fn names_one(&self, from: NodeId, form: Form) -> bool
        requires from { from.0 < length self.now.value.nodes }
        requires to { IfSome (form_node form) (λ node. node < length self.now.value.nodes) }
        ensures { result ≡ list_any (is_named from.0 form) self.now.value.edges }
    {
        match form.node() {
            Some(to) if self.has_fewer_in(to, from) => {
                is_one_named(&self.lists, Side::In, to, from, form)
            }
            _ => is_one_named(&self.lists, Side::Out, from, from, form),
        }
    }

    // Whether fewer connections lead to a node than from another.
    fn has_fewer_in(&self, to: NodeId, from: NodeId) -> bool
        requires to { to.0 < length self.now.value.nodes }
        requires from { from.0 < length self.now.value.nodes }
    {
        self.lists.count(Side::In, to) < self.lists.count(Side::Out, from)
    }

    fn lacks_input(&self, target: Target) -> bool
        requires { target_node target < length self.now.value.nodes }
        ensures { result ≡ spec.lacks_input self.now.value target }
    {
        match target {
            Target::Input { node, input } => input >= self.ports(node).inputs,
            Target::Param(_) => false,
        }
    }

    /// Takes the connections away that the form names, and no other (AudioNode.disconnect).
    ///
    /// The refusals are, in this order, `IndexSize` for an output and for an input that the node
    /// does not have, and `InvalidAccess` where a form with a target names no connection. A refusal
    /// leaves the graph as it was.
    pub fn disconnect(&mut self, from: NodeId, form: Form) -> Result<(), Exc>
        requires from { from.0 < length self.old.value.nodes }
        requires to { IfSome (form_node form) (λ node. node < length self.old.value.nodes) }
        ensures ok { OnOk result (self.new.value ≡ spec.disconnected self.old.value from.0 form) }
        ensures edits { OnOk result (self.new.edits ≡ one_more self.old.edits) }
        ensures room { self.new.room ≡ self.old.room }
        ensures refused { (exc : Exc) → IsErrOf result exc ↔ (spec.disconnect_refusal self.old.value from.0 form ≡ Some exc) }
        ensures err { OnErr result (LeavesGraph self.old self.new) }
        ensures whole { spec.IsGraph self.new.value }
    {
        if let Some(exc) = self.disconnect_refusal(from, form) {
            return Err(exc);
        }
        take_named(&mut self.lists, from, form);
        self.edits = edits_after(self.edits);
        Ok(())
    }

    /// The exception with which `disconnect` would refuse now, and `None` where it would succeed.
    ///
    /// The refusals come in the order of `disconnect`: `IndexSize` for an output and for an input
    /// that the node does not have, then `InvalidAccess` where a form with a target names no
    /// connection. Nothing changes.
    pub fn disconnect_refusal(&self, from: NodeId, form: Form) -> Option<Exc>
        requires from { from.0 < length self.now.value.nodes }
        requires to { IfSome (form_node form) (λ node. node < length self.now.value.nodes) }
        ensures { result ≡ spec.disconnect_refusal self.now.value from.0 form }
    {
        let lacks_output = match form.output() {
            Some(output) => output >= self.ports(from).outputs,
            None => false,
        };
        let lacks_input = match form.input() {
            Some((node, input)) => input >= self.ports(node).inputs,
            None => false,
        };
        if lacks_output || lacks_input {
            return Some(Exc::IndexSize);
        }
        if form.names_a_target() && !self.names_one(from, form) {
            return Some(Exc::InvalidAccess);
        }
        None
    }

    /// The number of nodes.
    pub fn len(&self) -> u32
        ensures number { result ≡ length self.now.value.nodes }
        ensures whole { spec.IsGraph self.now.value }
    {
        self.lists.nodes() as u32
    }

    /// Whether a node is a delay.
    pub fn is_delay(&self, node: NodeId) -> bool
        requires { node.0 < length self.now.value.nodes }
        ensures { result ≡ (spec.ports_at self.now.value node.0).is_delay }
    {
        self.ports(node).is_delay
    }

    fn ports(&self, node: NodeId) -> Ports
        requires { node.0 < length self.now.value.nodes }
        ensures { result ≡ spec.ports_at self.now.value node.0 }
    {
        self.lists.ports(node)
    }

    /// The next connection to a node, with its cell, for one step: the first one after `None`, and
    /// the one behind the cell of the last answer otherwise. `None` is the end of the walk. The
    /// connections come in no promised order.
    pub fn next_in<L: Ledger>(
        &self,
        node: NodeId,
        after: Option<usize>,
        steps: &mut Steps<L>,
    ) -> Option<(usize, Edge)>
        requires node { node.0 < length self.now.value.nodes }
        requires after { IsOnWalk (in_walk self.now node.0) after }
        ensures next { result ≡ next_step (in_walk self.now node.0) after }
        ensures cost { steps.new ≡ steps.old + 1 }
        ensures walk { IsInWalk self.now.value node.0 (in_walk self.now node.0) }
    {
        steps.tick();
        self.lists.next(Side::In, node, after)
    }

    /// The next connection from a node, with its cell, for one step, in the graph's order: the
    /// first one after `None`, and the one behind the cell of the last answer otherwise. `None` is
    /// the end of the walk.
    pub fn next_out<L: Ledger>(
        &self,
        node: NodeId,
        after: Option<usize>,
        steps: &mut Steps<L>,
    ) -> Option<(usize, Edge)>
        requires node { node.0 < length self.now.value.nodes }
        requires after { IsOnWalk (out_walk self.now node.0) after }
        ensures next { result ≡ next_step (out_walk self.now node.0) after }
        ensures cost { steps.new ≡ steps.old + 1 }
        ensures walk { IsOutWalk self.now.value node.0 (out_walk self.now node.0) }
    {
        steps.tick();
        self.lists.next(Side::Out, node, after)
    }

    /// How often the graph was edited: the number of nodes that were added, of new connections that
    /// were made, and of disconnects that were not refused. It stops at 2^64 - 1. Below that, a graph
    /// whose number is still the same has the same nodes and connections.
    pub fn edits(&self) -> u64
        ensures { result ≡ self.now.edits }
    {
        self.edits
    }

    /// A graph of equal value and as many edits, with memory of its own.
    pub fn copy(&self) -> Result<Graph, NoMemory>
        ensures value { IfOk result (λ graph. graph.value ≡ self.now.value) }
        ensures edits { IfOk result (λ graph. graph.edits ≡ self.now.edits) }
    {
        Ok(Graph {
            lists: self.lists.copy()?,
            edits: self.edits,
        })
    }
}

// The number of edits after one more.
fn edits_after(edits: u64) -> u64
    ensures { result ≡ one_more edits }
{
    if edits < u64::MAX { edits + 1 } else { edits }
}
