//! What a session tells: its lines and its end, and their text, whole or as a summary.
#![tactic(auto)]

mod lines;
mod loudness;
mod printed;
mod summaries;

pub use lines::{Answer, EndWord, Line, Lines};
pub use loudness::Loudness;
pub use printed::text;
pub use summaries::summary;
