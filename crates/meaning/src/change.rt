ghost use Rattle.std.specs.Prelude.{◌≡◌, ◌<◌, ◌≤◌, ◌^◌, length, None, IfSome, IsOk, OnOk, OnErr};
ghost use Rattle.std.specs.Result.{result_err};
ghost use Rattle.node_table.specs.Nodes.{changed_at, refusal_at, curve_refusal, node_with_curve};
ghost use Rattle.conn_graph.specs.Edges.{form_node};
ghost use Rattle.conn_graph.specs.Walks.{CountsEdits};
ghost use Rattle.conn_graph.specs.Graph.{connect_refusal, connected, disconnect_refusal, disconnected};
ghost use Rattle.meaning.specs.Changes as changes;
ghost use Rattle.meaning.specs.Validity.{IsValid};
ghost use Rattle.meaning.specs.World.{plain};

use crate::automation::ParamEdit;
use crate::buffers::BufferEdit;
use crate::sources::SourceEdit;
use crate::world::World;
use conn_graph::{Edge, Form};
use node_table::Kind;
use sched_source::Loop;
use wa_base::{BufId, Exc, Feature, Interp, Mode, NoMemory, NodeId, ParamId, Refusal, Samples};

/// What a control call edits in a world. It names nodes by their numbers.
#[derive(Drop)]
pub enum Edit {
    /// A node is created (the factory methods of BaseAudioContext).
    Create {
        kind: Kind,
    },
    /// A buffer source is created, which moves on by `rate` frames of its buffer in each frame
    /// (BaseAudioContext.createBufferSource).
    CreateBufferSource {
        rate: u32,
        buffer: Option<BufId>,
        points: Loop,
    },
    /// A convolver is created, with the buffer of its response, which it acquires, or with none
    /// (BaseAudioContext.createConvolver).
    CreateConvolver {
        buffer: Option<BufId>,
    },
    /// A connection is made (AudioNode.connect).
    Connect {
        edge: Edge,
    },
    /// Connections of a node are taken away (AudioNode.disconnect).
    Disconnect {
        from: NodeId,
        form: Form,
    },
    /// A source is edited.
    Source {
        node: NodeId,
        edit: SourceEdit,
    },
    /// A parameter is edited.
    Param {
        id: ParamId,
        edit: ParamEdit,
    },
    /// An attribute of a node is set.
    Attribute {
        node: NodeId,
        edit: AttributeEdit,
    },
    /// Another curve is put into force in a shaper, or none (WaveShaperNode.curve), in units of 2^-24.
    SetCurve {
        node: NodeId,
        curve: Option<Samples>,
    },
    /// The buffers are edited.
    Buffers {
        edit: BufferEdit,
    },
}

/// How the inputs of a node are to be mixed (the attributes of AudioNode).
#[derive(Clone, Copy)]
pub enum AttributeEdit {
    /// channelCount
    Count(u32),
    /// channelCountMode
    Mode(Mode),
    /// channelInterpretation
    Interp(Interp),
}

/// An edit, and the time of the context at which its call came, in frames.
#[derive(Drop)]
pub struct Change {
    pub time: u64,
    pub edit: Edit,
}

impl World {
    /// The exception with which an edit is refused at a time of the context, in frames, if it is. Nothing
    /// is changed.
    pub fn refusal(&self, now: u64, edit: &Edit) -> Option<Exc>
        requires valid { IsValid self.now }
        requires time { now ≤ 2 ^ 62 }
        requires named { changes.IsNamed (plain self.now) edit.now }
        ensures { result ≡ changes.refusal (plain self.now) now edit.now }
    {
        match edit {
            Edit::Create { kind } => self.nodes.creation_refusal(kind),
            Edit::CreateBufferSource { rate, buffer, .. } => {
                self.source_creation_refusal(*rate, *buffer)
            }
            Edit::CreateConvolver { buffer } => self.convolver_refusal(*buffer),
            Edit::Connect { edge } => self.connect_refusal(*edge),
            Edit::Disconnect { from, form } => self.disconnect_refusal(*from, *form),
            Edit::Source { node, edit } => self.source_refusal(*node, *edit),
            Edit::Param { id, edit } => self.automation_refusal(now, *id, edit),
            Edit::Attribute { node, edit } => self.attribute_refusal(*node, *edit),
            Edit::SetCurve { node, curve } => self.nodes.curve_refusal(*node, curve),
            Edit::Buffers { edit } => self.buffers_refusal(edit),
        }
    }

    /// Makes a change that the world accepts. What the change holds is copied, but for a recording, whose
    /// samples are shared. After `NoMemory` the world is as before. The graph counts its edits, so that
    /// whoever keeps its number can tell whether it is still the same.
    pub fn apply(&mut self, change: &Change) -> Result<(), NoMemory>
        requires valid { IsValid self.old }
        requires accepted { changes.Accepts (plain self.old) change.now }
        ensures ok { OnOk result (plain self.new ≡ changes.changed (plain self.old) change.now) }
        ensures err { OnErr result (plain self.new ≡ plain self.old) }
        ensures graph { CountsEdits self.old.graph self.new.graph }
        ensures grows { changes.Grows change.now.time (plain self.old) (plain self.new) }
    {
        self.edit(change.time, &change.edit)
    }

    // Makes an edit that the world accepts.
    fn edit(&mut self, now: u64, edit: &Edit) -> Result<(), NoMemory>
        requires valid { IsValid self.old }
        requires time { now ≤ 2 ^ 62 }
        requires named { changes.IsNamed (plain self.old) edit.now }
        requires accepted { changes.refusal (plain self.old) now edit.now ≡ None }
        ensures ok { OnOk result (plain self.new ≡ changes.edited (plain self.old) now edit.now) }
        ensures err { OnErr result (plain self.new ≡ plain self.old) }
        ensures graph { CountsEdits self.old.graph self.new.graph }
    {
        match edit {
            Edit::Create { kind } => self.create(kind.copy()?, now),
            Edit::CreateBufferSource {
                rate,
                buffer,
                points,
            } => self.create_source(*rate, *buffer, *points, now),
            Edit::CreateConvolver { buffer } => self.create_convolver(*buffer, now),
            Edit::Connect { edge } => self.connect(*edge),
            Edit::Disconnect { from, form } => {
                self.disconnect(*from, *form);
                Ok(())
            }
            Edit::Source { node, edit } => {
                self.edit_source(now, *node, *edit);
                Ok(())
            }
            Edit::Param { id, edit } => self.edit_param(now, *id, edit),
            Edit::Attribute { node, edit } => {
                done(self.set_attribute(*node, *edit));
                Ok(())
            }
            Edit::SetCurve { node, curve } => self.set_curve(*node, curve),
            Edit::Buffers { edit } => self.edit_buffers(edit),
        }
    }
}

// Why an edit is refused.
impl World {
    fn connect_refusal(&self, edge: Edge) -> Option<Exc>
        requires valid { IsValid self.now }
        requires from { edge.from.0 < length self.now.nodes }
        requires to { changes.IsTarget (plain self.now) edge.to }
        ensures { result ≡ changes.output_refusal edge.from.0 (connect_refusal self.now.graph.value edge) }
    {
        if edge.from.0 == 0 {
            return Some(Exc::NotSupported(Some(Feature::DestinationOutput)));
        }
        self.graph.connect_refusal(edge)
    }

    fn disconnect_refusal(&self, from: NodeId, form: Form) -> Option<Exc>
        requires valid { IsValid self.now }
        requires from { from.0 < length self.now.nodes }
        requires to { IfSome (form_node form) (λ node. node < length self.now.nodes) }
        ensures { result ≡ changes.output_refusal from.0 (disconnect_refusal self.now.graph.value from.0 form) }
    {
        if from.0 == 0 {
            return Some(Exc::NotSupported(Some(Feature::DestinationOutput)));
        }
        self.graph.disconnect_refusal(from, form)
    }

    fn attribute_refusal(&self, node: NodeId, edit: AttributeEdit) -> Option<Exc>
        requires { node.0 < length self.now.nodes }
        ensures { result ≡ refusal_at self.now.nodes node.0 (changes.attribute_refusal edit) }
    {
        match edit {
            AttributeEdit::Count(count) => self.nodes.count_refusal(node, count),
            AttributeEdit::Mode(mode) => self.nodes.mode_refusal(node, mode),
            AttributeEdit::Interp(interp) => self.nodes.interp_refusal(node, interp),
        }
    }
}

// Edits that the world accepts.
impl World {
    fn connect(&mut self, edge: Edge) -> Result<(), NoMemory>
        requires valid { IsValid self.old }
        requires from { edge.from.0 < length self.old.nodes }
        requires to { changes.IsTarget (plain self.old) edge.to }
        requires accepted { connect_refusal self.old.graph.value edge ≡ None }
        ensures ok { OnOk result (plain self.new ≡ changes.with_graph (plain self.old) (connected self.old.graph.value edge)) }
        ensures err { OnErr result (plain self.new ≡ plain self.old) }
        ensures graph { CountsEdits self.old.graph self.new.graph }
    {
        match self.graph.connect(edge) {
            Ok(_) => Ok(()),
            Err(Refusal::NoMemory) => Err(NoMemory),
            Err(Refusal::Exc(_)) => unreachable!(),
        }
    }

    fn disconnect(&mut self, from: NodeId, form: Form)
        requires valid { IsValid self.old }
        requires from { from.0 < length self.old.nodes }
        requires to { IfSome (form_node form) (λ node. node < length self.old.nodes) }
        requires accepted { disconnect_refusal self.old.graph.value from.0 form ≡ None }
        ensures disconnected { plain self.new ≡ changes.with_graph (plain self.old) (disconnected self.old.graph.value from.0 form) }
        ensures graph { CountsEdits self.old.graph self.new.graph }
    {
        done(self.graph.disconnect(from, form));
    }

    fn set_attribute(&mut self, node: NodeId, edit: AttributeEdit) -> Result<(), Exc>
        requires { node.0 < length self.old.nodes }
        ensures refusal { result_err result ≡ refusal_at self.old.nodes node.0 (changes.attribute_refusal edit) }
        ensures ok { OnOk result (plain self.new ≡ changes.with_nodes (plain self.old) (changed_at node.0 (changes.attribute_set edit) self.old.nodes)) }
        ensures graph { self.new.graph ≡ self.old.graph }
    {
        match edit {
            AttributeEdit::Count(count) => self.nodes.set_count(node, count),
            AttributeEdit::Mode(mode) => self.nodes.set_mode(node, mode),
            AttributeEdit::Interp(interp) => self.nodes.set_interp(node, interp),
        }
    }

    fn set_curve(&mut self, node: NodeId, curve: &Option<Samples>) -> Result<(), NoMemory>
        requires node { node.0 < length self.old.nodes }
        requires accepted { refusal_at self.old.nodes node.0 (curve_refusal curve.now) ≡ None }
        ensures ok { OnOk result (plain self.new ≡ changes.with_nodes (plain self.old) (changed_at node.0 (node_with_curve curve.now) self.old.nodes)) }
        ensures err { OnErr result (plain self.new ≡ plain self.old) }
        ensures graph { self.new.graph ≡ self.old.graph }
    {
        let copy = match curve {
            Some(points) => Some(points.copy()?),
            None => None,
        };
        done(self.nodes.set_curve(node, copy));
        Ok(())
    }
}

// An edit that the world accepts and that takes no memory is done.
fn done(edit: Result<(), Exc>)
    requires accepted { IsOk edit }
{
    match edit {
        Ok(()) => (),
        Err(_) => unreachable!(),
    }
}
