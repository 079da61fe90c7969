//! Up-mixing and down-mixing: what a block of one number of channels adds to sums of another, and what sums
//! are as samples.
#![tactic(auto)]

mod four;
mod kernels;
mod mixing;
mod outputs;
mod settling;
mod sums;
mod widening;

pub use four::Four;
pub use mix_rules::count;
pub use mixing::mix_add;
pub use settling::{level_of, pair_of, sum_into};
pub use sums::{CHANNELS, Sums};
