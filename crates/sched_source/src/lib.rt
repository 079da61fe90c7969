//! When a source sounds: its start, its stop and its end; and what a buffer source plays.
#![tactic(auto)]

mod content;
mod playing;
mod sched;

pub use content::Loop;
pub use sched::Sched;
