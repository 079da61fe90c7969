//! How the answer of a program is given out: its text goes into a sink and then its file is made. And the
//! line of a script's fault, which is such a text.
#![tactic(auto)]

mod given;
mod script_faults;

pub use given::{GiveErr, OutFile, give};
pub use script_faults::fault_line;
