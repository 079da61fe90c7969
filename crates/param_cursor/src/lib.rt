//! The place of a timeline at which rendering stands, and the values of the frames that follow it.
#![tactic(auto)]

mod cursor;
mod drawing;
mod lanes;
mod levels;
mod ramps;
mod slope;
mod spans;

pub use cursor::Cursor;
pub use levels::{Drawn, Stay};
pub use ramps::Ramp;
