//! Texts of derivations: whether one is checked, and one for each sample; and the answer to the words of
//! a command line that ask for either.
#![tactic(auto)]

ghost use Rattle.explain_top.specs.Laws.{FaultLaw};

mod answering;
mod checking;
mod derivation;
mod facts;
mod keeper;
mod lines;
mod program;
mod status;
mod tape;
mod words;

pub use checking::{CheckErr, check};
pub use derivation::{Derivation, DeriveErr, derive};
pub use program::run;
pub use status::Status;

/// A text at fault is no derivation, but for want of memory: there are no facts whose checked text it
/// is.
pub fn fault_law()
    ensures { FaultLaw }
{}
