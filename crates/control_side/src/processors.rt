ghost use Rattle.std.specs.Prelude.{◌≡◌, ◌↔◌, if◌then◌else◌, Some, None, IfOk, IsTrue};
ghost use Rattle.script_ast.specs.Operations.{interface_of};
ghost use Rattle.worklet.specs.Decision.{is_accepted};
ghost use Rattle.worklet.specs.declared.errors.ProgErr.TheVariants.{NoMemory as no_memory};
ghost use Rattle.control_side.specs.Processors as spec;
ghost use Rattle.control_side.specs.Step.{decided};

use crate::control::Control;
use crate::decide::{Decided, refused};
use meaning::Edit;
use node_table::{Code, Equation, Kind, Program};
use script_ast::{Interface, Op};
use std::alloc::Global;
use wa_base::{Exc, Feature, NoMemory};
use worklet::{ProgErr, check};

// What the creation of a processor comes to (this profile's answer to the AudioWorkletNode interface).
impl Control {
    #[tactic(auto, unfolding(crate::specs::Step::decided))]
    pub(crate) fn decide_on_processor(&self, op: &Op) -> Result<Decided, NoMemory>
        requires { interface_of op.now ≡ Interface.Processor }
        ensures { IfOk result (λ found. found ≡ decided self.now op.now) }
    {
        match op {
            Op::CreateProcessor { code, .. } => self.create_processor(code),
            _ => unreachable!(),
        }
    }

    fn create_processor(&self, code: &Code) -> Result<Decided, NoMemory>
        ensures { IfOk result (λ decided. decided ≡ spec.creates_processor self.now code.now) }
    {
        match program_of(self.alloc, code)? {
            Some(program) => {
                let equation = Equation::Processor { program };
                Ok(self.edits(Edit::Create {
                    kind: Kind::Causal { equation },
                }))
            }
            None => Ok(refused(Exc::NotSupported(Some(Feature::Program)))),
        }
    }
}

// The program of a code, where it is accepted.
fn program_of(alloc: Global, code: &Code) -> Result<Option<Program>, NoMemory>
    ensures { IfOk result (λ found. found ≡ (if is_accepted code.now then Some code.now else None)) }
{
    match check(alloc, code) {
        Ok(program) => Ok(Some(program)),
        Err(error) if ran_out(error) => Err(NoMemory),
        Err(_) => Ok(None),
    }
}

// Whether memory ran out, and the program has no error.
fn ran_out(error: ProgErr) -> bool
    ensures { IsTrue result ↔ (error ≡ no_memory) }
{
    matches!(error, ProgErr::NoMemory)
}
