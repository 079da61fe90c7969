ghost use Rattle.std.specs.Prelude.{◌≡◌, ◌<◌, ◌≤◌, ◌^◌, ◌++◌, ◌∷◌, [], ℕ, length, slice_set, slice_index_or, option_map, IsOk, IfOk, OnOk, OnErr};
ghost use Rattle.conn_graph.specs.Edges.{target_node};
ghost use Rattle.conn_graph.specs.Graph.{no_ports};
ghost use Rattle.conn_graph.specs.Walks.{Walk, next_step, IsOnWalk};
ghost use Rattle.conn_graph.specs.Lists.{walk_at, thread, edges_in, IsEmpty, SameThreads, AreThreads};

use crate::cells::{Cell, Node, Side, relink, set_behind};
use crate::edges::{Edge, Ports};
use slab::Slab;
use std::alloc::Global;
use std::marker::Model;
use wa_base::{NoMemory, NodeId};

/// The nodes of a graph, and the connections in cells. Each cell is in the list of its source and in
/// that of its target, and its links lead to its neighbours there, so it is put in and taken out
/// without a look at the others.
///
/// Contracts see it as the nodes' ports and, for each node, the walk along either list.
#[derive(Drop)]
pub(crate) struct Lists {
    nodes: Vec<Node>,
    cells: Slab<Cell>,
}

impl Model for Lists {
    ghost use Rattle.std.specs.Prelude.{◌-◌, vec_capacity, vec_len};
    ghost use Rattle.slab.specs.Slab.{get};
    ghost use Rattle.conn_graph.specs.Lists.{Threads, threads_of, AreLists};

    ghost Value = { Threads };

    ghost view = { λ s. threads_of s.nodes.items (get s.cells) (vec_capacity s.nodes - vec_len s.nodes) };

    ghost invariant = { λ s. AreLists s.nodes.items s.cells };
}

impl Lists {
    /// No nodes. It takes no memory until it grows.
    pub(crate) fn new(alloc: Global) -> Lists
        ensures empty { IsEmpty result }
        ensures whole { AreThreads result }
    {
        Lists {
            nodes: Vec::new(alloc),
            cells: Slab::new(alloc),
        }
    }

    /// Makes room for one more node.
    pub(crate) fn reserve(&mut self) -> Result<(), NoMemory>
        ensures kept { SameThreads self.old self.new }
        ensures room { OnOk result (0 < self.new.room) }
    {
        self.nodes.reserve(1)?;
        Ok(())
    }

    /// Adds a node without connections.
    pub(crate) fn add_node(&mut self, ports: Ports) -> Result<(), NoMemory>
        ensures nodes { OnOk result (self.new.nodes ≡ self.old.nodes ++ ports ∷ []) }
        ensures outs { OnOk result (self.new.outs ≡ self.old.outs ++ [] ∷ []) }
        ensures reserved { 0 < self.old.room → IsOk result }
        ensures err { OnErr result (SameThreads self.old self.new) }
        ensures whole { OnOk result (AreThreads self.new) }
    {
        self.nodes.push(Node::new(ports))?;
        Ok(())
    }

    /// The number of nodes.
    pub(crate) fn nodes(&self) -> usize
        ensures { result ≡ length self.now.nodes }
    {
        self.nodes.len()
    }

    /// The number of connections.
    pub(crate) fn edges(&self) -> usize
        ensures { result ≡ length (edges_in self.now.outs) }
    {
        self.cells.len()
    }

    /// The ports of a node.
    pub(crate) fn ports(&self, node: NodeId) -> Ports
        requires { node.0 < length self.now.nodes }
        ensures { result ≡ slice_index_or self.now.nodes node.0 no_ports }
    {
        self.nodes[node.0 as usize].ports
    }

    /// How many connections a node has on a side.
    pub(crate) fn count(&self, side: Side, node: NodeId) -> usize
        requires { node.0 < length self.now.nodes }
        ensures { result ≡ length (thread side self.now node.0) }
    {
        self.nodes[node.0 as usize].ends(side).count
    }

    /// The next connection of a node on a side, with its cell: the first one after `None`, and the
    /// one behind a cell otherwise.
    pub(crate) fn next(
        &self,
        side: Side,
        node: NodeId,
        after: Option<usize>,
    ) -> Option<(usize, Edge)>
        requires node { node.0 < length self.now.nodes }
        requires after { IsOnWalk (thread side self.now node.0) after }
        ensures { result ≡ next_step (thread side self.now node.0) after }
    {
        let key = self.key_after(side, node, after)?;
        let cell = self.cells.get(key)?;
        Some((key, cell.edge))
    }

    fn key_after(&self, side: Side, node: NodeId, after: Option<usize>) -> Option<usize>
        requires node { node.0 < length self.now.nodes }
        requires after { IsOnWalk (thread side self.now node.0) after }
        ensures { result ≡ option_map (λ step. step.0) (next_step (thread side self.now node.0) after) }
    {
        match after {
            None => self.nodes[node.0 as usize].ends(side).first,
            Some(key) => self.cells.get(key)?.links(side).behind,
        }
    }

    /// Puts a connection into a cell of its own, which becomes the last one of both of its lists.
    /// After `NoMemory` nothing has changed.
    pub(crate) fn put(&mut self, edge: Edge) -> Result<(), NoMemory>
        requires from { edge.from.0 < length self.old.nodes }
        requires to { target_node edge.to < length self.old.nodes }
        requires few_out { length (walk_at self.old.outs edge.from.0) < 2 ^ 32 }
        requires few_in { length (walk_at self.old.ins (target_node edge.to)) < 2 ^ 32 }
        ensures ok { OnOk result ((key : ℕ) × (self.new.outs ≡ slice_set self.old.outs edge.from.0 (walk_at self.old.outs edge.from.0 ++ (key, edge) ∷ []))) }
        ensures nodes { self.new.nodes ≡ self.old.nodes }
        ensures room { self.new.room ≡ self.old.room }
        ensures err { OnErr result (self.new ≡ self.old) }
        ensures whole { OnOk result (AreThreads self.new) }
    {
        let from = edge.from.0 as usize;
        let to = edge.to.node().0 as usize;
        let out = self.nodes[from].out;
        let into = self.nodes[to].into;
        let key = self.cells.insert(Cell {
            edge,
            out: out.end(),
            into: into.end(),
        })?;
        set_behind(&mut self.cells, Side::Out, out.last, Some(key));
        set_behind(&mut self.cells, Side::In, into.last, Some(key));
        self.nodes[from].out = out.longer(key);
        self.nodes[to].into = into.longer(key);
        Ok(())
    }

    /// Takes the cell with a key out of both of its lists, and the connection with it.
    pub(crate) fn take(&mut self, key: usize)
        ensures taken { (front back : Walk) (e : Edge) → walk_at self.old.outs e.from.0 ≡ front ++ (key, e) ∷ back → self.new.outs ≡ slice_set self.old.outs e.from.0 (front ++ back) }
        ensures nodes { self.new.nodes ≡ self.old.nodes }
        ensures room { self.new.room ≡ self.old.room }
        ensures whole { AreThreads self.new }
    {
        let Some(cell) = self.cells.try_remove(key) else {
            return;
        };
        let from = cell.edge.from.0 as usize;
        let to = cell.edge.to.node().0 as usize;
        relink(&mut self.cells, Side::Out, cell.out);
        relink(&mut self.cells, Side::In, cell.into);
        let out = self.nodes[from].out.shorter(cell.out);
        let into = self.nodes[to].into.shorter(cell.into);
        self.nodes[from].out = out;
        self.nodes[to].into = into;
    }

    /// The same nodes and connections, with memory of its own.
    pub(crate) fn copy(&self) -> Result<Lists, NoMemory>
        ensures same { IfOk result (λ lists. lists ≡ record self.now { room = lists.room }) }
        ensures whole { IfOk result AreThreads }
    {
        Ok(Lists {
            nodes: Vec::from_slice(*self.nodes.allocator(), self.nodes.as_slice())?,
            cells: self.cells.clone()?,
        })
    }
}
