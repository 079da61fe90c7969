ghost use Rattle.std.specs.Prelude.{◌≡◌};
ghost use Rattle.script_ast.specs.Fields.{field_word};

use std::fmt;

/// A member of a script or of a call, or what stands in the place of one: the whole script, a call.
#[derive(Clone, Copy, Debug, PartialEq, Eq)]
pub enum Field {
    Version,
    Context,
    Channels,
    Length,
    Rate,
    RenderQuantum,
    Calls,
    Op,
    Then,
    Script,
    Call,
    As,
    Offset,
    Gain,
    MaxDelayTime,
    DelayTime,
    NumberOfOutputs,
    NumberOfInputs,
    Curve,
    Oversample,
    Feedforward,
    Feedback,
    Buffer,
    DisableNormalization,
    Code,
    Loop,
    LoopStart,
    LoopEnd,
    PlaybackRate,
    From,
    Output,
    To,
    Input,
    Param,
    Node,
    Value,
    Channel,
    Samples,
    At,
    When,
    Duration,
    Time,
    Values,
    Path,
}

// The names of the members, in the order of the variants.
const WORDS: [&str; 44] = [
    "version",
    "context",
    "channels",
    "length",
    "rate",
    "renderQuantum",
    "calls",
    "op",
    "then",
    "script",
    "call",
    "as",
    "offset",
    "gain",
    "maxDelayTime",
    "delayTime",
    "numberOfOutputs",
    "numberOfInputs",
    "curve",
    "oversample",
    "feedforward",
    "feedback",
    "buffer",
    "disableNormalization",
    "code",
    "loop",
    "loopStart",
    "loopEnd",
    "playbackRate",
    "from",
    "output",
    "to",
    "input",
    "param",
    "node",
    "value",
    "channel",
    "samples",
    "at",
    "when",
    "duration",
    "time",
    "values",
    "path",
];

impl Field {
    /// The member's name in a script, and its name in a fault.
    pub fn word(self) -> &'static str
        ensures { result.now ≡ field_word self }
    {
        WORDS[self as usize]
    }
}

impl fmt::Display for Field {
    fn fmt<W: fmt::Write>(&self, f: &mut fmt::Formatter<W>) -> fmt::Result {
        write!(f, "{}", self.word())
    }
}
