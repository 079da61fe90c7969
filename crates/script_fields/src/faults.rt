use script_ast::Field;
use std::alloc::{AllocError, AllocFailed};
use thiserror::Error;
use wa_base::NoMemory;

/// Why bytes are no script: their first fault, with the ordinal of its call (0 outside of the calls)
/// and the member that has it.
#[derive(Clone, Copy, Debug, PartialEq, Eq, Error)]
pub enum ScriptErr {
    /// The bytes have no JSON reading with arrays and objects nested at most 127 deep.
    #[error("BadJson")]
    BadJson,
    /// A member that has no default is absent.
    #[error("{0} {1} MissingField")]
    MissingField(u32, Field),
    /// A member's value is of another kind than its field.
    #[error("{0} {1} WrongKind")]
    WrongKind(u32, Field),
    /// The call has no `op`, or one that names no operation.
    #[error("{0} op UnknownOp")]
    UnknownOp(u32),
    /// A member's value is of the field's kind, but not in its range.
    #[error("{0} {1} OutOfRange")]
    OutOfRange(u32, Field),
    /// Memory ran out.
    #[error("out of memory")]
    NoMemory,
}

impl From<NoMemory> for ScriptErr {
    ghost use Rattle.std.specs.Prelude.{◌≡◌};
    ghost use Rattle.script_fields.specs.declared.faults.ScriptErr.TheVariants.{NoMemory as no_memory};

    ghost from_gives = { λ _ e. e ≡ no_memory };

    fn from(_: NoMemory) -> ScriptErr {
        ScriptErr::NoMemory
    }
}

impl From<AllocError> for ScriptErr {
    ghost use Rattle.std.specs.Prelude.{◌≡◌};
    ghost use Rattle.script_fields.specs.declared.faults.ScriptErr.TheVariants.{NoMemory as no_memory};

    ghost from_gives = { λ _ e. e ≡ no_memory };

    fn from(_: AllocError) -> ScriptErr {
        ScriptErr::NoMemory
    }
}

impl<T: Drop> From<AllocFailed<T>> for ScriptErr {
    ghost use Rattle.std.specs.Prelude.{◌≡◌};
    ghost use Rattle.script_fields.specs.declared.faults.ScriptErr.TheVariants.{NoMemory as no_memory};

    ghost from_gives = { λ _ e. e ≡ no_memory };

    fn from(_: AllocFailed<T>) -> ScriptErr {
        ScriptErr::NoMemory
    }
}
