ghost use Rattle.std.specs.Prelude.{◌≡◌};

/// How a run ended.
#[derive(Clone, Copy, PartialEq, Eq)]
pub enum Status {
    /// The derivation is in the file OUT, or the text of the file IN is one; a line says so.
    Done,
    /// The session did not complete; the line of its end is written, and no file is touched.
    NotCompleted,
    /// The words of the command line have no reading; the usage line is written.
    BadWords,
    /// The script has a fault; its line is written.
    BadScript,
    /// The script has more than 16,777,216 bytes; nothing is written.
    ScriptTooLong,
    /// Reading the script failed; nothing is written.
    ScriptFault,
    /// Reading an asset or the file IN failed; nothing is written, and no file is touched.
    AssetFault,
    /// Writing a line failed; no file is touched.
    TranscriptFault,
    /// Writing the file OUT failed; the line is written.
    WavFault,
    /// Memory ran out.
    NoMemory,
    /// Each derivation has more than 1,048,576 facts or 67,108,864 bytes; a line says so.
    TooLong,
    /// The text of the file IN is no derivation; a line says where it fails.
    Invalid,
    /// The session has no such frame or channel; a line says so.
    OutOfRange,
}

impl Status {
    ghost use Rattle.explain_top.specs.ExitStatus.{exit_status};

    /// The number that the process ends with.
    pub fn number(self) -> u8
        ensures { result ≡ exit_status self }
    {
        match self {
            Status::Done => 0,
            Status::BadWords => 2,
            Status::NotCompleted => 3,
            Status::BadScript => 4,
            Status::ScriptTooLong => 5,
            Status::ScriptFault => 6,
            Status::AssetFault => 7,
            Status::TranscriptFault => 8,
            Status::WavFault => 9,
            Status::NoMemory => 10,
            Status::TooLong => 11,
            Status::Invalid => 12,
            Status::OutOfRange => 13,
        }
    }
}
