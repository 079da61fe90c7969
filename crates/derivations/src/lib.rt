//! A tape of worlds, the facts that are known of it, and the first need of a key that is missing.
#![tactic(auto)]

ghost use Rattle.derivations.specs.Laws.{SearchedLaw};

mod carried;
mod counts;
mod histories;
mod inputs;
mod known;
mod led;
mod marks;
mod needs;
mod outputs;
mod places;
mod tape;

pub use inputs::param_frame;
pub use known::Known;
pub use marks::Marks;
pub use needs::Search;
pub use outputs::{sounds, taken_from};
pub use places::{Context, Place};
pub use tape::{Piece, Stretch, Tape};

/// How far a walk came stays so when one more fact is known.
pub fn searched_law()
    ensures { SearchedLaw }
{}
