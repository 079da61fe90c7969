//! JSON values that borrow their text, and how they are read.
//!
//! What a text means is what the crate `serde_json` says of it, and so is what a look-up finds. Only the
//! form in memory is another: a text of a value stands in the text that was read, or in the scratch
//! where it was written with escapes, and a list takes the room of its items and no more.
#![tactic(auto)]

mod errors;
mod numbers;
mod reading;
mod texts;
mod values;

pub use errors::ReadErr;
pub use json::Scratch;
pub use numbers::Number;
pub use texts::Text;
pub use values::Value;
