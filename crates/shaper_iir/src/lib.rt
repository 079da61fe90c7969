//! The IIR filter (IIRFilterNode) and the wave shaper (WaveShaperNode), as states that hear a frame
//! or a block of frames at a time.
#![tactic(auto)]

mod curves;
mod histories;
mod iir;
mod quotients;
mod scales;
mod shaper;
mod sums;

pub use iir::Iir;
pub use shaper::{Shaper, shape_all};
