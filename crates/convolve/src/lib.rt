//! Direct convolution with a given response (ConvolverNode), as a state that hears a frame or a block of
//! frames at a time.
#![tactic(auto)]

mod convolver;
mod lines;
mod sums;

pub use convolver::Convolver;
