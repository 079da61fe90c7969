ghost use Rattle.std.specs.Prelude.{◌≡◌};
ghost use Rattle.ctx_state.specs.Context.{suspend_refusal, suspend_frame};
ghost use Rattle.script_ast.specs.Operations.{interface_of};
ghost use Rattle.control_side.specs.Step as spec;

use crate::control::Control;
use crate::decide::Decided;
use script_ast::{Interface, Op};
use transcript::Answer;
use wa_base::Exc;

// What the operations on the context come to (the BaseAudioContext and OfflineAudioContext interfaces).
impl Control {
    #[tactic(auto, unfolding(crate::specs::Step::decided))]
    pub(crate) fn decide_on_context(&self, op: &Op) -> Decided
        requires { interface_of op.now ≡ Interface.Context }
        ensures { result ≡ spec.decided self.now op.now }
    {
        match op {
            Op::StartRendering => promise(self.context.start_refusal(), Decided::Start),
            Op::Suspend { time } => self.suspend(*time),
            Op::Resume => promise(self.context.resume_refusal(), Decided::Resume),
            Op::ReadState => Decided::Answer(Answer::State(self.context.state())),
            Op::ReadTime => Decided::Answer(Answer::Time(self.context.now())),
            _ => unreachable!(),
        }
    }

    fn suspend(&self, time: i64) -> Decided
        ensures { result ≡ spec.promises (suspend_refusal self.now.context time) (Decided.Suspend (suspend_frame self.now.context time)) }
    {
        match self.context.suspend_frame(time) {
            Ok(frame) => Decided::Suspend { frame },
            Err(exc) => Decided::Answer(Answer::Rejected(exc)),
        }
    }
}

// A promise, which is rejected where there is a refusal.
fn promise(refusal: Option<Exc>, decided: Decided) -> Decided
    ensures { result ≡ spec.promises refusal decided }
{
    match refusal {
        Some(exc) => Decided::Answer(Answer::Rejected(exc)),
        None => decided,
    }
}
