ghost use Rattle.std.specs.Prelude.{◌≡◌};
ghost use Rattle.wa_base.specs.Exceptions.{exception_name};

use crate::features::Feature;
use crate::memory::NoMemory;

/// An exception of the Web Audio recommendation, of WebIDL or of ECMAScript.
#[derive(Clone, Copy, Debug, PartialEq, Eq)]
pub enum Exc {
    /// NotSupportedError, with a feature where what is left out or limited has a word of its own.
    NotSupported(Option<Feature>),
    InvalidState,
    InvalidAccess,
    IndexSize,
    Range,
    /// TypeError.
    WrongType,
    NotFound,
    Encoding,
}

impl Exc {
    /// The name of the exception, without the feature.
    pub fn name(self) -> &'static str
        ensures { result.now ≡ exception_name self }
    {
        match self {
            Exc::NotSupported(_) => "NotSupportedError",
            Exc::InvalidState => "InvalidStateError",
            Exc::InvalidAccess => "InvalidAccessError",
            Exc::IndexSize => "IndexSizeError",
            Exc::Range => "RangeError",
            Exc::WrongType => "TypeError",
            Exc::NotFound => "NotFoundError",
            Exc::Encoding => "EncodingError",
        }
    }
}

/// Why a call was not done.
#[derive(Clone, Copy, Debug, PartialEq, Eq)]
pub enum Refusal {
    /// The call is refused with an exception.
    Exc(Exc),
    /// Memory ran out.
    NoMemory,
}

impl From<Exc> for Refusal {
    ghost use Rattle.std.specs.Prelude.{◌≡◌};
    ghost use Rattle.wa_base.specs.declared.exceptions.Refusal.TheVariants.{Exc as exception};

    ghost from_gives = { λ exc refusal. refusal ≡ exception exc };

    fn from(exc: Exc) -> Refusal {
        Refusal::Exc(exc)
    }
}

impl From<NoMemory> for Refusal {
    ghost use Rattle.std.specs.Prelude.{◌≡◌};
    ghost use Rattle.wa_base.specs.declared.exceptions.Refusal.TheVariants.{NoMemory as no_memory};

    ghost from_gives = { λ _ refusal. refusal ≡ no_memory };

    fn from(_: NoMemory) -> Refusal {
        Refusal::NoMemory
    }
}
