//! Automation of a parameter: the events of a timeline, and the value that they give at a frame.
#![tactic(auto)]

mod edits;
mod events;
mod laws;
mod lines;
mod pieces;
mod refusals;
mod timeline;
mod values;

pub use events::Event;
pub use laws::base_is_held;
pub use lines::{along, rise, times};
pub use refusals::ParamErr;
pub use timeline::Timeline;
pub use values::curve_value;
