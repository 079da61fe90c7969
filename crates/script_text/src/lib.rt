//! The text of a script, in version 2: JSON that `script_json` reads back as the same script.
#![tactic(auto)]

mod buffers;
mod calls;
mod creations;
mod laws;
mod members;
mod nodes;
mod ops;
mod params;
mod placed;
mod seconds;
mod texts;
mod values;

pub use laws::{read_textable_law, script_text_law, two_levels_law};
pub use texts::text;
