use std::alloc::{AllocError, AllocFailed};
use thiserror::Error;

/// The outside failed at a read.
#[derive(Clone, Copy, Debug, PartialEq, Eq, Error)]
#[error("the outside failed")]
pub struct Failed;

/// Why a write to the outside was not done, or not to its end.
#[derive(Clone, Copy, Debug, PartialEq, Eq, Error)]
pub enum EdgeErr {
    #[error("the outside failed")]
    Failed,
    #[error("out of memory")]
    NoMemory,
}

impl From<AllocError> for EdgeErr {
    ghost use Rattle.std.specs.Prelude.{◌≡◌};
    ghost use Rattle.io_edge.specs.declared.errors.EdgeErr.TheVariants.{NoMemory};

    ghost from_gives = { λ _ e. e ≡ NoMemory };

    fn from(_: AllocError) -> EdgeErr {
        EdgeErr::NoMemory
    }
}

impl<T: Drop> From<AllocFailed<T>> for EdgeErr {
    ghost use Rattle.std.specs.Prelude.{◌≡◌};
    ghost use Rattle.io_edge.specs.declared.errors.EdgeErr.TheVariants.{NoMemory};

    ghost from_gives = { λ _ e. e ≡ NoMemory };

    fn from(_: AllocFailed<T>) -> EdgeErr {
        EdgeErr::NoMemory
    }
}

/// Why a source was not read to its end.
#[derive(Clone, Copy, Debug, PartialEq, Eq, Error)]
pub enum ReadErr {
    #[error("the outside failed")]
    Failed,
    #[error("the source is longer than the limit")]
    TooLong,
    #[error("out of memory")]
    NoMemory,
}
