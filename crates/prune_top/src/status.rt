ghost use Rattle.std.specs.Prelude.{◌≡◌};

/// How a run ended.
#[derive(Clone, Copy, PartialEq, Eq)]
pub enum Status {
    /// The pruned script is in the file OUT; a line says how many calls it has.
    Done,
    /// The words of the command line have no reading; the usage line is written.
    BadWords,
    /// The session did not complete; the line of its end is written, and no file is touched.
    NotCompleted,
    /// The script has a fault; its line is written.
    BadScript,
    /// The script has more than 16,777,216 bytes; nothing is written.
    ScriptTooLong,
    /// Reading the script failed; nothing is written.
    ScriptFault,
    /// Reading an asset failed; nothing is written, and no file is touched.
    AssetFault,
    /// Writing a line failed; no file is touched.
    TranscriptFault,
    /// Writing the file OUT failed; the line is written.
    WavFault,
    /// Memory ran out.
    NoMemory,
}

impl Status {
    ghost use Rattle.prune_top.specs.ExitStatus.{exit_status};

    /// The number that the process ends with.
    pub fn number(self) -> u8
        ensures { result ≡ exit_status self }
    {
        match self {
            Status::Done => 0,
            Status::BadWords => 2,
            Status::NotCompleted => 3,
            Status::BadScript => 4,
            Status::ScriptTooLong => 5,
            Status::ScriptFault => 6,
            Status::AssetFault => 7,
            Status::TranscriptFault => 8,
            Status::WavFault => 9,
            Status::NoMemory => 10,
        }
    }
}
