use json::Invalid;
use std::alloc::{AllocError, AllocFailed};

/// Why a value was not read.
#[derive(Clone, Copy, Debug, PartialEq, Eq)]
pub enum ReadErr {
    /// The bytes have no JSON reading with arrays and objects nested at most 127 deep.
    BadJson,
    /// Memory ran out.
    NoMemory,
}

impl From<Invalid> for ReadErr {
    ghost use Rattle.std.specs.Prelude.{◌≡◌};
    ghost use Rattle.json_tree.specs.declared.errors.ReadErr.TheVariants.{BadJson};

    ghost from_gives = { λ _ e. e ≡ BadJson };

    fn from(_: Invalid) -> ReadErr {
        ReadErr::BadJson
    }
}

impl From<AllocError> for ReadErr {
    ghost use Rattle.std.specs.Prelude.{◌≡◌};
    ghost use Rattle.json_tree.specs.declared.errors.ReadErr.TheVariants.{NoMemory};

    ghost from_gives = { λ _ e. e ≡ NoMemory };

    fn from(_: AllocError) -> ReadErr {
        ReadErr::NoMemory
    }
}

impl<T: Drop> From<AllocFailed<T>> for ReadErr {
    ghost use Rattle.std.specs.Prelude.{◌≡◌};
    ghost use Rattle.json_tree.specs.declared.errors.ReadErr.TheVariants.{NoMemory};

    ghost from_gives = { λ _ e. e ≡ NoMemory };

    fn from(_: AllocFailed<T>) -> ReadErr {
        ReadErr::NoMemory
    }
}
