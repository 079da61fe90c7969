//! The words of a command line, read by `clap`, and what they ask for.
#![tactic(auto)]

mod command;
mod reading;
mod values;

pub use reading::{Mode, Reading, USAGE, reading_of};
