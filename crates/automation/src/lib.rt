//! The values of all parameters in a render quantum, without what their connections carry.
#![tactic(auto)]

mod automation;
mod level;

pub use automation::Automation;
pub use level::{Level, Values};
