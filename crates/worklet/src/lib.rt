//! Processor programs, this profile's answer to AudioWorklet: small code that is checked before it
//! runs, so that it never traps; as a state that hears a frame or a block of frames at a time.
#![tactic(auto)]

mod checker;
mod errors;
mod machine;
mod prepared;
mod processor;
mod rules;
mod stack;
mod steps;

pub use checker::{accepted_law, check, error_law, one_error_law};
pub use errors::ProgErr;
pub use machine::{frame, never_traps_law};
pub use processor::Processor;
