ghost use Rattle.std.specs.Prelude.{◌≡◌, IfOk, string_bytes};
ghost use Rattle.answers.specs.FaultLine as fault_spec;

use script_fields::ScriptErr;
use std::alloc::{AllocError, Global};

/// The line that tells a script's fault, with its end.
#[tactic(auto, unfolding(crate::specs::FaultLine::fault_line))]
pub fn fault_line(alloc: Global, fault: ScriptErr) -> Result<String, AllocError>
    ensures { IfOk result (λ line. string_bytes line ≡ fault_spec.fault_line fault) }
{
    match fault {
        ScriptErr::BadJson => String::from_str(alloc, "script: BadJson\n"),
        ScriptErr::MissingField(ordinal, field) => {
            format!(in alloc; "script: {ordinal} {} MissingField\n", field.word())
        }
        ScriptErr::WrongKind(ordinal, field) => {
            format!(in alloc; "script: {ordinal} {} WrongKind\n", field.word())
        }
        ScriptErr::UnknownOp(ordinal) => format!(in alloc; "script: {ordinal} op UnknownOp\n"),
        ScriptErr::OutOfRange(ordinal, field) => {
            format!(in alloc; "script: {ordinal} {} OutOfRange\n", field.word())
        }
        ScriptErr::NoMemory => Ok(String::new(alloc)),
    }
}
