//! Scripts as typed calls, and the table of the fields that each call has.
#![tactic(auto)]

mod call_list;
mod clocks;
pub mod entries;
mod fields;
mod left_out;
mod operations;
mod param_ops;
mod paths;
mod words;

pub use call_list::{Call, Calls, Script};
pub use clocks::Clock;
pub use entries::{Creation, Fallback, Kind, OP_NAMES, OpName, Row, fallback_in, is_built};
pub use fields::Field;
pub use left_out::LeftOutName;
pub use operations::{Interface, Op, Oversample};
pub use param_ops::ParamOpName;
pub use paths::Path;
pub use words::{instr_word, interp_named, mode_named, oversample_named, rate_named};
