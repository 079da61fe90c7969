//! What of a script is heard, and the script without the rest, by the lines of its session.
#![tactic(auto)]

mod deeds;
mod keeping;
mod live;
mod operations;
mod pruning;

pub use pruning::pruned;
