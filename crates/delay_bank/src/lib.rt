//! The delays of a graph's nodes, each with what its writer wrote since its node was born.
#![tactic(auto)]

mod delay;
mod delays;
mod spans;

pub use delay::Reading;
pub use delays::Delays;
pub use spans::Spans;
