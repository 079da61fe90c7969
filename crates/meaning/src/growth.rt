ghost use Rattle.std.specs.Prelude.{◌≡◌, ◌<◌, ◌++◌, length, false, None, Some, IsOk, OnOk, OnErr};
ghost use Rattle.conn_graph.specs.Walks.{CountsEdits};
ghost use Rattle.node_table.specs.Kinds.{is_destination, IsInLimits};
ghost use Rattle.node_table.specs.Nodes.{creation_refusal};
ghost use Rattle.node_table.specs.declared.kinds.Kind.TheVariants as kinds;
ghost use Rattle.meaning.specs.Changes as changes;
ghost use Rattle.meaning.specs.Plays.{new_source};
ghost use Rattle.meaning.specs.Validity.{IsValid};
ghost use Rattle.meaning.specs.World.{plain, first_sched as first_sched_of};

use crate::params::{Param, Params};
use crate::scheds::{Play, Scheds};
use crate::world::World;
use node_table::{Kind, ParamRow, Plays};
use param_events::Timeline;
use sched_source::{Loop, Sched};
use wa_base::{BufId, NoMemory, NodeId, ParamId, Rate, Refusal};

// A buffer source is created without a loop.
const NO_LOOP: Loop = Loop {
    on: false,
    first: 0,
    end: 0,
};

impl World {
    // Adds a node of a kind, a source without a buffer and without a loop.
    pub(crate) fn create(&mut self, kind: Kind, now: u64) -> Result<(), NoMemory>
        requires kind { is_destination kind ≡ false }
        requires valid { IsValid self.old }
        requires accepted { creation_refusal self.old.nodes kind ≡ None }
        ensures ok { OnOk result (plain self.new ≡ changes.created (plain self.old) kind (changes.new_play (length self.old.nodes) kind) now) }
        ensures err { OnErr result (plain self.new ≡ plain self.old) }
        ensures graph { CountsEdits self.old.graph self.new.graph }
    {
        let node = NodeId(self.nodes.len());
        let play = first_sched(&kind).map(|sched| Play::not_started(node, sched));
        self.add(kind, play, now)
    }

    // Adds a buffer source with its buffer and its loop.
    pub(crate) fn create_source(
        &mut self,
        rate: u32,
        buffer: Option<BufId>,
        points: Loop,
        now: u64,
    ) -> Result<(), NoMemory>
        requires valid { IsValid self.old }
        requires accepted { creation_refusal self.old.nodes (kinds.Buffer rate) ≡ None }
        ensures ok { OnOk result (plain self.new ≡ changes.created (plain self.old) (kinds.Buffer rate) (Some (new_source (length self.old.nodes) rate buffer points)) now) }
        ensures err { OnErr result (plain self.new ≡ plain self.old) }
        ensures graph { CountsEdits self.old.graph self.new.graph }
    {
        let play = Play {
            id: NodeId(self.nodes.len()),
            sched: Sched::buffer(rate, points),
            buffer,
            was_set: buffer.is_some(),
        };
        self.add(Kind::Buffer { rate }, Some(play), now)
    }

    // Adds a node of a kind, with its ports, its parameter and its schedule.
    pub(crate) fn add(&mut self, kind: Kind, play: Option<Play>, now: u64) -> Result<(), NoMemory>
        requires kind { is_destination kind ≡ false }
        requires valid { IsValid self.old }
        requires accepted { creation_refusal self.old.nodes kind ≡ None }
        ensures ok { OnOk result (plain self.new ≡ changes.created (plain self.old) kind play now) }
        ensures err { OnErr result (plain self.new ≡ plain self.old) }
        ensures graph { CountsEdits self.old.graph self.new.graph }
    {
        self.graph.reserve()?;
        self.params.reserve()?;
        self.scheds.reserve()?;
        let row = kind.row();
        let node = match self.nodes.create(kind, now) {
            Ok(node) => node,
            Err(Refusal::NoMemory) => return Err(NoMemory),
            Err(Refusal::Exc(_)) => unreachable!(),
        };
        self.graph
            .add_node(row.inputs, row.outputs, row.keeps.is_written())?;
        push_param(&mut self.params, node, row.param)?;
        push_play(&mut self.scheds, play)
    }
}

// The schedule with which a source is created. Another kind has none.
fn first_sched(kind: &Kind) -> Option<Sched>
    requires { IsInLimits kind.now }
    ensures { result ≡ first_sched_of kind.now }
{
    match kind.row().plays? {
        Plays::Value => Some(Sched::constant()),
        Plays::Content(rate) => Some(Sched::buffer(rate, NO_LOOP)),
    }
}

// Appends the parameter of a new node, where it has one.
fn push_param(params: &mut Params, node: NodeId, param: Option<ParamRow>) -> Result<(), NoMemory>
    ensures ok { OnOk result (params.new.items ≡ params.old.items ++ changes.new_params node.0 param) }
    ensures reserved { 0 < params.old.room → IsOk result }
{
    if let Some(param) = param {
        let line = Timeline::new(params.alloc(), param.value);
        params.push(Param {
            id: ParamId {
                node,
                name: param.name,
            },
            line,
            rate: Rate::A,
        })?;
    }
    Ok(())
}

// Appends the schedule of a new node, where it is a source.
fn push_play(scheds: &mut Scheds, play: Option<Play>) -> Result<(), NoMemory>
    ensures ok { OnOk result (scheds.new.items ≡ scheds.old.items ++ changes.plays_of play) }
    ensures reserved { 0 < scheds.old.room → IsOk result }
{
    if let Some(play) = play {
        scheds.push(play)?;
    }
    Ok(())
}
