//! The top call of the replayer: from the words of a command line and a script to a transcript and
//! a WAV file, or to a script of version 2.
#![tactic(auto)]

ghost use Rattle.replay_top.specs.Laws.{CompletenessLaw};

mod replay;
mod status;
mod wav_file;

pub use replay::run;
pub use status::Status;

/// The answer to words and bytes is Rendered exactly where the words have a reading, there is the
/// script that they ask for, generated or of no more bytes than a script may have, its context can be
/// rendered, its main list starts the rendering, and the list of each suspension that becomes due
/// resumes it: whatever the folder of assets holds. A run ends as the answer says, but for a fault that was counted and for `NoMemory`.
pub fn completeness_law()
    ensures { CompletenessLaw }
{}
