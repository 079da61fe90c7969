//! Reading the members of a script's objects: the first fault of those that an entry's rows name, and
//! the value of each that has none.
//!
//! `check_fields` finds the faults; the calls that read a value have no error of their own. A number
//! that is absent is the default of its row, or 0; one that has a fault is 0. A flag or an oversampling
//! is in both cases the default of its row. A text or a list that is absent or of another kind is empty,
//! an item of a list that is no fix is 0, one of a program that is no instruction is an `in`, and a text
//! out of range stays as it is. Of another word the
//! first of its list stands ("max", "speakers", "a-rate"). Where null may stand, what is absent, of
//! another kind or a number out of range is none.
#![tactic(auto)]

mod faults;
mod instructions;
mod members;
mod seconds;
mod texts;
mod values;

pub use faults::ScriptErr;
pub use members::{
    check_fields, check_there, code, count, count_or_null, fix, fixes, fixes_or_null, flag,
    is_there, list, member, time, time_or_null,
};
pub use seconds::{Decimal, frames_of_seconds};
pub use texts::{interp, mode, oversample, path, rate, text, text_or_null};
pub use values::Cause;
