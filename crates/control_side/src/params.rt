ghost use Rattle.std.specs.Prelude.{◌≡◌, ◌<◌, length, option_map, is_some, IfOk, IfSome};
ghost use Rattle.law_base.specs.Members.{IsIn};
ghost use Rattle.script_ast.specs.Operations.{interface_of};
ghost use Rattle.meaning.specs.Validity.{param_ids};
ghost use Rattle.control_side.specs.Deciding.{by_found};
ghost use Rattle.control_side.specs.Params as spec;
ghost use Rattle.control_side.specs.Step as step;
ghost use Rattle.control_side.specs.Step.{node_named, edits};
ghost use Rattle.meaning.specs.World.{slot_of};

use crate::control::Control;
use crate::decide::{Decided, refused};
use conn_graph::{Edge, Form, Target};
use meaning::{Edit, ParamEdit};
use node_table::{Kind, Plays};
use script_ast::{Interface, Op};
use transcript::Answer;
use wa_base::{Exc, Feature, Name, NoMemory, NodeId, ParamId, ParamName, Samples};

const PARAM_NAMES: [ParamName; 5] = [
    ParamName::Offset,
    ParamName::Gain,
    ParamName::DelayTime,
    ParamName::PlaybackRate,
    ParamName::Detune,
];

// What the operations on parameters come to (the AudioParam interface, and the calls of AudioNode that
// connect to parameters).
impl Control {
    // What the operations on parameters come to, but for those on their timelines.
    #[tactic(auto, unfolding(crate::specs::Step::decided))]
    pub(crate) fn decide_on_param(&self, op: &Op) -> Decided
        requires { interface_of op.now ≡ Interface.Param }
        ensures { result ≡ step.decided self.now op.now }
    {
        match op {
            Op::ConnectParam {
                from,
                output,
                to,
                param,
            } => self.connect_param(from, *output, to, param),
            Op::DisconnectParam {
                from,
                to,
                param,
                output,
            } => self.disconnect_param(from, *output, to, param),
            Op::SetAutomationRate { node, param, value } => {
                self.edit_param(node, param, ParamEdit::Rate(*value))
            }
            Op::ExponentialRampToValueAtTime { node, param } => {
                self.leave_out(node, param, Feature::ExponentialRamp)
            }
            Op::SetTargetAtTime { node, param } => {
                self.leave_out(node, param, Feature::SetTarget)
            }
            Op::ReadValue { node, param } => self.read_value(node, param),
            _ => unreachable!(),
        }
    }

    // What the operations on timelines come to.
    #[tactic(auto, unfolding(crate::specs::Step::decided))]
    pub(crate) fn decide_on_timeline(&self, op: &Op) -> Result<Decided, NoMemory>
        requires { interface_of op.now ≡ Interface.Timeline }
        ensures { IfOk result (λ decided. decided ≡ step.decided self.now op.now) }
    {
        match op {
            Op::SetValue { node, param, value } => {
                Ok(self.edit_param(node, param, ParamEdit::SetNow { value: *value }))
            }
            Op::SetValueAtTime {
                node,
                param,
                value,
                time,
            } => {
                let (value, time) = (*value, *time);
                Ok(self.edit_param(node, param, ParamEdit::Set { value, time }))
            }
            Op::LinearRampToValueAtTime {
                node,
                param,
                value,
                time,
            } => {
                let (value, time) = (*value, *time);
                Ok(self.edit_param(node, param, ParamEdit::Ramp { value, time }))
            }
            Op::SetValueCurveAtTime {
                node,
                param,
                values,
                time,
                duration,
            } => self.edit_curve(node, param, values, *time, *duration),
            Op::CancelScheduledValues { node, param, time } => {
                Ok(self.edit_param(node, param, ParamEdit::Cancel { time: *time }))
            }
            Op::CancelAndHoldAtTime { node, param, time } => {
                Ok(self.edit_param(node, param, ParamEdit::Hold { time: *time }))
            }
            _ => unreachable!(),
        }
    }

    fn connect_param(&self, from: &Name, output: u32, to: &Name, param: &Name) -> Decided
        ensures { result ≡ spec.leads (node_named self.now from.now) (spec.param_at self.now (node_named self.now to.now) param.now) (λ node id. edits self.now (Edit.Connect (spec.edge_to_param output node id))) }
    {
        let (Some(from), Some(id)) = (self.node_named(from), self.param_at(to, param)) else {
            return refused(Exc::WrongType);
        };
        if let Some(exc) = lead_refusal(from, id) {
            return refused(exc);
        }
        let to = Target::Param(id);
        self.edits(Edit::Connect {
            edge: Edge { from, output, to },
        })
    }

    fn disconnect_param(&self, from: &Name, output: Option<u32>, to: &Name, param: &Name) -> Decided
        ensures { result ≡ spec.leads (node_named self.now from.now) (spec.param_at self.now (node_named self.now to.now) param.now) (λ node id. edits self.now (Edit.Disconnect node (spec.form_of_param output id))) }
    {
        let (Some(from), Some(id)) = (self.node_named(from), self.param_at(to, param)) else {
            return refused(Exc::WrongType);
        };
        if let Some(exc) = lead_refusal(from, id) {
            return refused(exc);
        }
        let form = form_of_param(output, id);
        self.edits(Edit::Disconnect { from, form })
    }

    fn edit_param(&self, node: &Name, param: &Name, edit: ParamEdit) -> Decided
        ensures { result ≡ spec.edits_param self.now node.now param.now edit }
    {
        match self.kept_param(node, param) {
            Ok(id) => self.edits(Edit::Param { id, edit }),
            Err(exc) => refused(exc),
        }
    }

    fn edit_curve(
        &self,
        node: &Name,
        param: &Name,
        values: &Samples,
        time: i64,
        duration: i64,
    ) -> Result<Decided, NoMemory>
        ensures { IfOk result (λ decided. decided ≡ spec.edits_param self.now node.now param.now (ParamEdit.Curve values.now time duration)) }
    {
        let edit = ParamEdit::Curve {
            points: values.copy()?,
            time,
            duration,
        };
        Ok(self.edit_param(node, param, edit))
    }

    // An operation on a parameter that the profile leaves out.
    fn leave_out(&self, node: &Name, param: &Name, feature: Feature) -> Decided
        ensures { result ≡ spec.on_param (spec.param_at self.now (node_named self.now node.now) param.now) (λ _. step.refused (Exc.NotSupported (Some feature))) }
    {
        match self.kept_param(node, param) {
            Ok(_) => refused(Exc::NotSupported(Some(feature))),
            Err(exc) => refused(exc),
        }
    }

    fn read_value(&self, node: &Name, param: &Name) -> Decided
        ensures { result ≡ spec.on_param (spec.param_at self.now (node_named self.now node.now) param.now) (λ id. Decided.Answer (Answer.Value (slot_of self.now.world id))) }
    {
        match self.kept_param(node, param) {
            Ok(id) => Decided::Answer(Answer::Value(self.world().current(id))),
            Err(exc) => refused(exc),
        }
    }

    // The parameter on which an operation is done, or why it is not.
    fn kept_param(&self, node: &Name, param: &Name) -> Result<ParamId, Exc>
        ensures decided { (what : ParamId → Decided) → spec.on_param (spec.param_at self.now (node_named self.now node.now) param.now) what ≡ by_found result what }
        ensures there { IfOk result (λ id. IsIn id (param_ids self.now.world)) }
    {
        let Some(id) = self.param_at(node, param) else {
            return Err(Exc::WrongType);
        };
        match name_refusal(id.name) {
            Some(exc) => Err(exc),
            None => Ok(id),
        }
    }

    // The parameter of a node that a text names.
    fn param_at(&self, node: &Name, param: &Name) -> Option<ParamId>
        ensures param { result ≡ spec.param_at self.now (node_named self.now node.now) param.now }
        ensures there { IfSome result (λ id. spec.name_refusal id.name ≡ None → IsIn id (param_ids self.now.world)) }
        ensures node { IfSome result (λ id. id.node.0 < length self.now.world.nodes) }
    {
        let node = self.node_named(node)?;
        let name = param_named(param)?;
        if has_param(self.world().nodes.kind(node), name) {
            Some(ParamId { node, name })
        } else {
            None
        }
    }
}

// Whether a kind has a parameter: those of a buffer source are left out.
fn has_param(kind: &Kind, name: ParamName) -> bool
    ensures { result ≡ spec.has_param kind.now name }
{
    let row = kind.row();
    match row.param {
        Some(param) => param.name == name,
        None => matches!(row.plays, Some(Plays::Content(_))) && left_out(name).is_some(),
    }
}

// The feature for which a parameter is left out of the profile.
fn left_out(name: ParamName) -> Option<Feature>
    ensures { result ≡ spec.left_out name }
{
    match name {
        ParamName::PlaybackRate => Some(Feature::PlaybackRateAutomation),
        ParamName::Detune => Some(Feature::Detune),
        ParamName::Offset | ParamName::Gain | ParamName::DelayTime => None,
    }
}

// Why no operation is done on a parameter with a name.
fn name_refusal(name: ParamName) -> Option<Exc>
    ensures { result ≡ spec.name_refusal name }
{
    let feature = left_out(name)?;
    Some(Exc::NotSupported(Some(feature)))
}

// Why nothing leads from a node to a parameter.
fn lead_refusal(from: NodeId, to: ParamId) -> Option<Exc>
    ensures { result ≡ spec.lead_refusal from to }
{
    if from.0 == 0 {
        return Some(Exc::NotSupported(Some(Feature::DestinationOutput)));
    }
    name_refusal(to.name)
}

// The form of a disconnect from a parameter.
fn form_of_param(output: Option<u32>, to: ParamId) -> Form
    ensures { result ≡ spec.form_of_param output to }
{
    match output {
        None => Form::Param(to),
        Some(output) => Form::ParamOutput(to, output),
    }
}

// The parameter that a text names.
#[tactic(auto, unfolding(crate::specs::Params::param_named))]
fn param_named(word: &Name) -> Option<ParamName>
    ensures { result ≡ spec.param_named word.now }
{
    find_param(&PARAM_NAMES, word.as_slice()).copied()
}

// The first of the parameters that a text names.
fn find_param<'a>(names: &'a [ParamName], word: &[u8]) -> Option<&'a ParamName>
    ensures { option_map (λ name. name.now) result ≡ spec.first_param word.now names.now }
{
    names.iter().find(|name| name.word().as_bytes() == word)
}
