//! Pruned scripts: what of a script is never heard is left out, and the session of what is left
//! sounds as that of the script; and the answer to the words of a command line that ask for it.
#![tactic(auto)]

mod answering;
mod laws;
mod program;
mod pruning;
mod status;
mod words;

pub use laws::{pruned_law, pruned_text_law};
pub use program::run;
pub use pruning::{PruneErr, Pruned, prune};
pub use status::Status;
