ghost use Rattle.std.specs.Prelude.{◌≡◌, IfOk};
ghost use Rattle.meaning.specs.Changes.{IsNamed};
ghost use Rattle.script_ast.specs.Operations.{IsInRange, interface_of};
ghost use Rattle.control_side.specs.Step as spec;

use crate::control::Control;
use crate::decide::{Decided, refused};
use conn_graph::{Edge, Form, Target};
use meaning::{AttributeEdit, Edit};
use node_table::{Kind, delay_capacity};
use script_ast::{Interface, Op};
use wa_base::{Exc, Fix, Name, NoMemory, NodeId};

// What the operations on nodes come to, whatever their kind (the BaseAudioContext and AudioNode
// interfaces).
impl Control {
    // What the creation of a node comes to that its numbers alone tell.
    #[tactic(auto, unfolding(crate::specs::Step::decided))]
    pub(crate) fn decide_creation(&self, op: &Op) -> Result<Decided, NoMemory>
        requires in_range { IsInRange op.now }
        requires creation { interface_of op.now ≡ Interface.Creation }
        ensures { IfOk result (λ decided. decided ≡ spec.decided self.now op.now) }
    {
        match op {
            Op::Create { kind, .. } => Ok(self.create_node(kind.copy()?)),
            Op::CreateDelay {
                max_delay_time,
                delay_time,
                ..
            } => Ok(self.create_delay(*max_delay_time, *delay_time)),
            _ => unreachable!(),
        }
    }

    fn create_node(&self, kind: Kind) -> Decided
        requires { IsNamed self.now.world (Edit.Create kind) }
        ensures { result ≡ spec.edits self.now (Edit.Create kind) }
    {
        self.edits(Edit::Create { kind })
    }

    fn create_delay(&self, longest: Fix, time: Fix) -> Decided
        ensures { result ≡ spec.edits self.now (Edit.Create (spec.delay_of self.now.world.spec longest time)) }
    {
        let spec = self.spec();
        self.create_node(Kind::Delay {
            longest,
            time,
            capacity: delay_capacity(u64::from(spec.quantum), longest, spec.rate),
        })
    }

    // What is done to any node.
    #[tactic(auto, unfolding(crate::specs::Step::decided))]
    pub(crate) fn decide_on_node(&self, op: &Op) -> Decided
        requires { interface_of op.now ≡ Interface.Node }
        ensures { result ≡ spec.decided self.now op.now }
    {
        match op {
            Op::Connect {
                from,
                output,
                to,
                input,
            } => self.connect(from, *output, to, *input),
            Op::Disconnect {
                from,
                output,
                to,
                input,
            } => self.disconnect(from, *output, to, *input),
            Op::SetChannelCount { node, value } => {
                self.set_attribute(node, AttributeEdit::Count(*value))
            }
            Op::SetChannelCountMode { node, value } => {
                self.set_attribute(node, AttributeEdit::Mode(*value))
            }
            Op::SetChannelInterpretation { node, value } => {
                self.set_attribute(node, AttributeEdit::Interp(*value))
            }
            _ => unreachable!(),
        }
    }

    fn connect(&self, from: &Name, output: u32, to: &Name, input: u32) -> Decided
        ensures { result ≡ spec.edits_nodes self.now (spec.node_named self.now from.now) (spec.node_named self.now to.now) (λ node target. Edit.Connect (spec.edge_of output input node target)) }
    {
        let (Some(from), Some(node)) = (self.node_named(from), self.node_named(to)) else {
            return refused(Exc::WrongType);
        };
        let to = Target::Input { node, input };
        self.edits(Edit::Connect {
            edge: Edge { from, output, to },
        })
    }

    fn disconnect(
        &self,
        from: &Name,
        output: Option<u32>,
        to: &Option<Name>,
        input: Option<u32>,
    ) -> Decided
        ensures { result ≡ spec.disconnects self.now (spec.node_named self.now from.now) output to.now input }
    {
        let Some(from) = self.node_named(from) else {
            return refused(Exc::WrongType);
        };
        let form = match to {
            None => form_from(output),
            Some(name) => match self.node_named(name) {
                Some(node) => form_to(output, input, node),
                None => return refused(Exc::WrongType),
            },
        };
        self.edits(Edit::Disconnect { from, form })
    }

    fn set_attribute(&self, node: &Name, edit: AttributeEdit) -> Decided
        ensures { result ≡ spec.edits_node self.now (spec.node_named self.now node.now) (λ n. Edit.Attribute n edit) }
    {
        match self.node_named(node) {
            Some(node) => self.edits(Edit::Attribute { node, edit }),
            None => refused(Exc::WrongType),
        }
    }
}

// The form of a disconnect to a node, by the other members that are there.
fn form_to(output: Option<u32>, input: Option<u32>, to: NodeId) -> Form
    ensures { result ≡ spec.form_to output input to }
{
    match (output, input) {
        (None, _) => Form::Node(to),
        (Some(output), None) => Form::NodeOutput(to, output),
        (Some(output), Some(input)) => Form::NodeOutputInput(to, output, input),
    }
}

// The form of a disconnect that names no node.
fn form_from(output: Option<u32>) -> Form
    ensures { result ≡ spec.form_from output }
{
    match output {
        None => Form::All,
        Some(output) => Form::Output(output),
    }
}
