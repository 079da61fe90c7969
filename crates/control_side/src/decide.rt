ghost use Rattle.std.specs.Prelude.{◌≡◌, ◌≢◌, ◌<◌, length, IfOk, IfSome};
ghost use Rattle.io_edge.specs.Paths.{Paths};
ghost use Rattle.script_ast.specs.Operations.{IsInRange, interface_of};
ghost use Rattle.meaning.specs.Changes.{IsNamed};
ghost use Rattle.control_side.specs.Assets.{HasAsset, IsAssetOf};
ghost use Rattle.control_side.specs.Steady.{IsSteady};
ghost use Rattle.control_side.specs.Step as spec;

use crate::control::Control;
use io_edge::Fetched;
use meaning::Edit;
use name_book::Object;
use script_ast::{Interface, Op};
use transcript::Answer;
use wa_base::{BufId, Exc, Name, NoMemory, NodeId};

/// What an operation comes to, before anything is changed.
#[derive(Drop)]
pub enum Decided {
    /// It is answered, and leaves all as it is.
    Answer(Answer),
    /// It starts the rendering.
    Start,
    /// It schedules a suspension at a frame.
    Suspend { frame: u64 },
    /// It lets rendering go on.
    Resume,
    /// It edits the world, which accepts the edit.
    Change(Edit),
}

// What operations come to. Nothing is changed.
impl Control {
    // What an operation comes to, with the asset that it needs.
    pub(crate) fn decide_with(&self, op: &Op, asset: Option<Fetched>) -> Result<Decided, NoMemory>
        requires in_range { IsInRange op.now }
        requires asset { HasAsset op.now asset }
        ensures decided { IfOk result (λ decided. (held : Paths) → IsAssetOf held op.now asset → decided ≡ spec.decided_with self.now held op.now) }
        ensures fits { IfOk result (spec.IsFor self.now op.now) }
        ensures steady { IsSteady self.now }
    {
        let alloc = self.alloc;
        match op {
            Op::DecodeAudioData { .. } => match asset {
                Some(asset) => self.decode(alloc, asset),
                None => unreachable!(),
            },
            _ => self.decide(op),
        }
    }

    // What any other operation comes to.
    fn decide(&self, op: &Op) -> Result<Decided, NoMemory>
        requires in_range { IsInRange op.now }
        requires looks_away { interface_of op.now ≢ Interface.Asset }
        ensures { IfOk result (λ decided. decided ≡ spec.decided self.now op.now) }
    {
        match op.interface() {
            Interface::Creation => self.decide_creation(op),
            Interface::Node => Ok(self.decide_on_node(op)),
            Interface::Source => Ok(self.decide_on_source(op)),
            Interface::Buffer => self.decide_on_buffer(op),
            Interface::Shaper => self.decide_on_shaper(op),
            Interface::Processor => self.decide_on_processor(op),
            Interface::Timeline => self.decide_on_timeline(op),
            Interface::Param => Ok(self.decide_on_param(op)),
            Interface::Context => Ok(self.decide_on_context(op)),
            Interface::Asset => unreachable!(),
            Interface::LeftOut => Ok(self.decide_left_out(op)),
        }
    }

    // What the profile leaves out is refused.
    #[tactic(auto, unfolding(crate::specs::Step::decided))]
    fn decide_left_out(&self, op: &Op) -> Decided
        requires { interface_of op.now ≡ Interface.LeftOut }
        ensures { result ≡ spec.decided self.now op.now }
    {
        match op {
            Op::LeftOut { name } => refused(Exc::NotSupported(Some(name.feature()))),
            _ => unreachable!(),
        }
    }
}

// What operations have in common.
impl Control {
    // The node that a name is bound to.
    pub(crate) fn node_named(&self, name: &Name) -> Option<NodeId>
        ensures node { result ≡ spec.node_named self.now name.now }
        ensures there { IfSome result (λ node. node.0 < length self.now.world.nodes) }
    {
        match self.book.find(name) {
            Some(Object::Node(node)) => Some(node),
            _ => None,
        }
    }

    // The buffer that a name is bound to.
    pub(crate) fn buffer_named(&self, name: &Name) -> Option<BufId>
        ensures buffer { result ≡ spec.buffer_named self.now name.now }
        ensures there { IfSome result (λ buffer. buffer.0 < length self.now.world.store) }
    {
        match self.book.find(name) {
            Some(Object::Buffer(buffer)) => Some(buffer),
            _ => None,
        }
    }

    // An edit, unless the world refuses it.
    pub(crate) fn edits(&self, edit: Edit) -> Decided
        requires { IsNamed self.now.world edit }
        ensures { result ≡ spec.edits self.now edit }
    {
        match self.world.refusal(self.context.now(), &edit) {
            Some(exc) => refused(exc),
            None => Decided::Change(edit),
        }
    }
}

// A call that is refused.
pub(crate) fn refused(exc: Exc) -> Decided
    ensures { result ≡ spec.refused exc }
{
    Decided::Answer(Answer::Throw(exc))
}
