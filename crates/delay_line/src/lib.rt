//! A delay line: it keeps the last frames that the writer of a delay (DelayNode) wrote, and gives its
//! reader what was written so many frames ago.
#![tactic(auto)]

mod counts;
mod line;
mod rings;
mod sources;
mod spans;

pub use line::DelayLine;
