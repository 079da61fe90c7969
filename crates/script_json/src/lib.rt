//! Reading a script: from its bytes to typed calls, or to its first fault.
#![tactic(auto)]

mod calls;
mod creations;
mod ops;
mod param_ops;
mod scripts;
mod shaper_ops;
mod tree;

pub use creations::{Number, creation_of, numbers_of};
pub use script_fields::ScriptErr;
pub use scripts::read;
