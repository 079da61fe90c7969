//! Cycles and orders of an audio graph: which delays are in a cycle, which ends are muted, and in
//! which order the others are rendered.
#![tactic(auto)]

mod arrows;
mod layouts;
mod legality;
mod orders;
mod parts;
mod passes;
mod places;
mod reaching;
mod sorting;
mod surveys;
mod targets;
mod turned;

pub use layouts::{Layout, lay_out};
pub use legality::is_legal;
pub use orders::{Ordered, order};
pub use parts::Parts;
pub use surveys::{Ends, Ids, Surveyed, marked, survey};
pub use targets::by_target;
