//! Scripts that are generated: from a number to a session of 200 voices, so that a load for the
//! replayer can be had without a file.
#![tactic(auto)]

mod generator;
mod names;
mod random;
mod voices;

pub use generator::{count_law, script};
