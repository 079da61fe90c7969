ghost use Rattle.std.specs.Prelude.{◌≡◌};

/// How a run ended.
#[derive(Clone, Copy, PartialEq, Eq)]
pub enum Status {
    /// The session completed; its transcript is written and, where samples are rendered, its WAV file, or
    /// its script where that is asked for.
    Rendered,
    /// The session did not complete; its transcript is written, and no file is touched but for the script
    /// where that is asked for and the context was not refused.
    Unrendered,
    /// The words of the command line have no reading; the usage line is written.
    BadWords,
    /// The script has a fault; its line is written.
    BadScript,
    /// The script has more than 16,777,216 bytes; nothing is written.
    ScriptTooLong,
    /// Reading the script failed; nothing is written.
    ScriptFault,
    /// Reading an asset failed; nothing is written, and no file is touched.
    AssetFault,
    /// Writing the transcript, the usage line or a fault's line failed; no file is touched.
    TranscriptFault,
    /// Writing the file failed; the transcript is written.
    WavFault,
    /// Memory ran out.
    NoMemory,
}

impl Status {
    ghost use Rattle.replay_top.specs.ExitStatus.{exit_status};

    /// The number that the process ends with.
    pub fn number(self) -> u8
        ensures { result ≡ exit_status self }
    {
        match self {
            Status::Rendered => 0,
            Status::BadWords => 2,
            Status::Unrendered => 3,
            Status::BadScript => 4,
            Status::ScriptTooLong => 5,
            Status::ScriptFault => 6,
            Status::AssetFault => 7,
            Status::TranscriptFault => 8,
            Status::WavFault => 9,
            Status::NoMemory => 10,
        }
    }
}
