use std::alloc::AllocFailed;
use wa_base::NoMemory;

/// Why a program is not accepted. The places are judged from 0 upwards, and the first one with an error
/// gives it; at one place the errors are tried in the order written here. The length is tried before
/// all places, and the end after them.
#[derive(Clone, Copy, Debug, PartialEq, Eq)]
pub enum ProgErr {
    /// The code has so many instructions, and not 1 to 256.
    BadLength(usize),
    /// No earlier place may go on at this one.
    Unreached(usize),
    /// Two earlier places that may go on at this one leave different heights of the stack.
    Uneven(usize),
    /// The instruction at this place names a cell above 15.
    BadCell(usize),
    /// The instruction at this place divides by 0.
    BadDivisor(usize),
    /// This place may go on past the end of the code.
    BadJump(usize),
    /// The stack has too few values for the instruction at this place.
    Underflow(usize),
    /// The stack has more than 32 values after the instruction at this place.
    TooDeep(usize),
    /// The stack has so many values at the end, and not one.
    BadEnd(usize),
    /// Memory ran out; nothing is said of the code.
    NoMemory,
}

impl<T: Drop> From<AllocFailed<T>> for ProgErr {
    ghost use Rattle.std.specs.Prelude.{◌≡◌};
    ghost use Rattle.worklet.specs.declared.errors.ProgErr.TheVariants.{NoMemory as no_memory};

    ghost from_gives = { λ cause error. error ≡ no_memory };

    fn from(_: AllocFailed<T>) -> ProgErr {
        ProgErr::NoMemory
    }
}

impl From<NoMemory> for ProgErr {
    ghost use Rattle.std.specs.Prelude.{◌≡◌};
    ghost use Rattle.worklet.specs.declared.errors.ProgErr.TheVariants.{NoMemory as no_memory};

    ghost from_gives = { λ cause error. error ≡ no_memory };

    fn from(_: NoMemory) -> ProgErr {
        ProgErr::NoMemory
    }
}
