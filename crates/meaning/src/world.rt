ghost use Rattle.std.specs.Prelude.{◌≡◌, IfOk};
ghost use Rattle.wa_base.specs.Contexts.{IsSupported};
ghost use Rattle.meaning.specs.World.{plain};
ghost use Rattle.meaning.specs.Validity.{IsValid};
ghost use Rattle.meaning.specs.Worlds.{first_world};

use crate::params::Params;
use crate::scheds::Scheds;
use buffer_store::Store;
use conn_graph::Graph;
use node_table::Nodes;
use std::alloc::Global;
use wa_base::{ContextSpec, NoMemory};

/// What is in force in one render quantum: the context, its nodes with their connections, the
/// parameters with their timelines, the schedules of the sources, and the buffers.
#[derive(Drop)]
pub struct World {
    pub spec: ContextSpec,
    pub nodes: Nodes,
    pub graph: Graph,
    pub params: Params,
    pub scheds: Scheds,
    pub store: Store,
}

impl World {
    /// The world of a context before its first call: the destination alone.
    pub fn new(alloc: Global, spec: ContextSpec) -> Result<World, NoMemory>
        requires { IsSupported spec }
        ensures value { IfOk result (λ world. plain world ≡ first_world spec) }
        ensures valid { IfOk result IsValid }
    {
        let mut graph = Graph::new(alloc);
        graph.add_node(1, 1, false)?;
        Ok(World {
            spec,
            nodes: Nodes::new(alloc, spec)?,
            graph,
            params: Params::new(alloc),
            scheds: Scheds::new(alloc),
            store: Store::new(alloc),
        })
    }

    /// An equal world with memory of its own.
    pub fn copy(&self) -> Result<World, NoMemory>
        ensures { IfOk result (λ copy. plain copy ≡ plain self.now) }
    {
        Ok(World {
            spec: self.spec,
            nodes: self.nodes.copy()?,
            graph: self.graph.copy()?,
            params: self.params.copy()?,
            scheds: self.scheds.copy()?,
            store: self.store.copy()?,
        })
    }
}
