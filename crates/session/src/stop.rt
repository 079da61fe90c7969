use thiserror::Error;
use wa_base::NoMemory;

/// Why a session stopped short.
#[derive(Clone, Copy, Debug, Error, PartialEq, Eq)]
pub enum Stop {
    #[error("reading an asset failed")]
    AssetFault,
    #[error("memory ran out")]
    NoMemory,
}

impl From<NoMemory> for Stop {
    ghost use Rattle.std.specs.Prelude.{◌≡◌};
    ghost use Rattle.session.specs.declared.stop.Stop.TheVariants.{NoMemory as no_memory};

    ghost from_gives = { λ _ stop. stop ≡ no_memory };

    fn from(_: NoMemory) -> Stop {
        Stop::NoMemory
    }
}
