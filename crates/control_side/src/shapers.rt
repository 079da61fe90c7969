ghost use Rattle.std.specs.Prelude.{◌≡◌, is_some, IfOk};
ghost use Rattle.script_ast.specs.Operations.{interface_of};
ghost use Rattle.control_side.specs.Shapers as spec;
ghost use Rattle.control_side.specs.Step.{node_named, edits, edits_node, decided};

use crate::control::Control;
use crate::decide::{Decided, refused};
use meaning::Edit;
use node_table::Kind;
use script_ast::{Interface, Op, Oversample};
use transcript::Answer;
use wa_base::{Exc, Feature, Name, NoMemory, Samples};

// What the operations on wave shapers come to (the WaveShaperNode interface).
impl Control {
    #[tactic(auto, unfolding(crate::specs::Step::decided))]
    pub(crate) fn decide_on_shaper(&self, op: &Op) -> Result<Decided, NoMemory>
        requires { interface_of op.now ≡ Interface.Shaper }
        ensures { IfOk result (λ found. found ≡ decided self.now op.now) }
    {
        match op {
            Op::CreateWaveShaper {
                curve,
                oversample,
                ..
            } => self.create_shaper(curve, *oversample),
            Op::SetCurve { node, curve } => self.set_curve(node, curve),
            Op::SetOversample { node, value } => Ok(self.set_oversample(node, *value)),
            _ => unreachable!(),
        }
    }

    fn create_shaper(
        &self,
        curve: &Option<Samples>,
        oversample: Oversample,
    ) -> Result<Decided, NoMemory>
        ensures { IfOk result (λ decided. decided ≡ spec.creates_shaper self.now curve.now oversample) }
    {
        if let Some(exc) = oversample_refusal(oversample) {
            return Ok(refused(exc));
        }
        let kind = Kind::Shaper {
            curve: copy_of(curve)?,
            was_set: curve.is_some(),
        };
        Ok(self.edits(Edit::Create { kind }))
    }

    fn set_curve(&self, node: &Name, curve: &Option<Samples>) -> Result<Decided, NoMemory>
        ensures { IfOk result (λ decided. decided ≡ edits_node self.now (node_named self.now node.now) (λ n. Edit.SetCurve n curve.now)) }
    {
        let Some(node) = self.node_named(node) else {
            return Ok(refused(Exc::WrongType));
        };
        let curve = copy_of(curve)?;
        Ok(self.edits(Edit::SetCurve { node, curve }))
    }

    fn set_oversample(&self, node: &Name, value: Oversample) -> Decided
        ensures { result ≡ spec.sets_oversample self.now (node_named self.now node.now) value }
    {
        let Some(node) = self.node_named(node) else {
            return refused(Exc::WrongType);
        };
        if !is_shaper(self.world().nodes.kind(node)) {
            return refused(Exc::WrongType);
        }
        match oversample_refusal(value) {
            Some(exc) => refused(exc),
            None => Decided::Answer(Answer::Ok),
        }
    }
}

fn is_shaper(kind: &Kind) -> bool
    ensures { result ≡ spec.is_shaper kind.now }
{
    matches!(kind, Kind::Shaper { .. })
}

// The profile has no oversampling.
fn oversample_refusal(oversample: Oversample) -> Option<Exc>
    ensures { result ≡ spec.oversample_refusal oversample }
{
    match oversample {
        Oversample::Off => None,
        Oversample::Two | Oversample::Four => Some(Exc::NotSupported(Some(Feature::Oversample))),
    }
}

// A curve with memory of its own, if there is one.
fn copy_of(curve: &Option<Samples>) -> Result<Option<Samples>, NoMemory>
    ensures { IfOk result (λ copy. copy ≡ curve.now) }
{
    match curve {
        Some(points) => Ok(Some(points.copy()?)),
        None => Ok(None),
    }
}
