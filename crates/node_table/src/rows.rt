ghost use Rattle.std.specs.Prelude.{◌≡◌};
ghost use Rattle.node_table.specs.Rows as spec;

use wa_base::{Fix, Interp, Mode, ParamName};

const MAX_CHANNELS: u32 = 32;

/// What a kind of node has: a row of the table of nodes. It is all that is asked of a kind, but for its
/// equation and for what it is refused for.
#[derive(Clone, Copy)]
pub struct Row {
    /// The number of inputs (numberOfInputs). A source has none.
    pub inputs: u32,
    /// The number of outputs (numberOfOutputs). The destination has one, although the profile lets no
    /// connection leave it.
    pub outputs: u32,
    /// How many channels each output has.
    pub channels: Channels,
    /// The channelCount at the creation. That of the destination is its context's.
    pub count: u32,
    /// The channelCountMode at the creation.
    pub mode: Mode,
    /// The channelInterpretation at the creation.
    pub interp: Interp,
    /// Which of these three stay as they are.
    pub fixed: Fixed,
    /// Whether it has at most two channels: a channelCount above 2 is refused, and so is the
    /// channelCountMode `max` (the recommendation's constraints on ConvolverNode).
    pub at_most_stereo: bool,
    /// The parameter that can be automated, if there is one.
    pub param: Option<ParamRow>,
    /// What a source plays. Another kind plays nothing.
    pub plays: Option<Plays>,
    /// What later quanta need of a node.
    pub keeps: Keeps,
}

impl Row {
    /// A node with one input and one output, which has as many channels as come in, and with the
    /// attributes that the recommendation gives to most nodes.
    pub const EFFECT: Row = Row {
        inputs: 1,
        outputs: 1,
        channels: Channels::OfInput,
        count: 2,
        mode: Mode::Max,
        interp: Interp::Speakers,
        fixed: Fixed::NONE,
        at_most_stereo: false,
        param: None,
        plays: None,
        keeps: Keeps::Nothing,
    };

    /// The most channels that a channelCount may ask for.
    pub fn most_channels(&self) -> u32
        ensures { result ≡ spec.most_channels self.now }
    {
        if self.at_most_stereo { 2 } else { MAX_CHANNELS }
    }
}

/// How many channels each output of a node has (computedNumberOfChannels).
#[derive(Clone, Copy)]
pub enum Channels {
    /// So many, whatever comes in.
    Always(u32),
    /// As many as the first input. The reader of a delay has the most that its writer had.
    OfInput,
    /// As many as the buffer that is played, in a quantum in which it sounds, and else one.
    OfBuffer,
}

/// Which of the attributes that mix a node's inputs stay what they were at the creation.
#[derive(Clone, Copy)]
pub struct Fixed {
    /// channelCount.
    pub count: bool,
    /// channelCountMode.
    pub mode: bool,
    /// channelInterpretation.
    pub interp: bool,
}

impl Fixed {
    /// All of them may be set.
    pub const NONE: Fixed = Fixed {
        count: false,
        mode: false,
        interp: false,
    };
}

/// A parameter (AudioParam) of a kind.
#[derive(Clone, Copy)]
pub struct ParamRow {
    pub name: ParamName,
    /// The value that it was created with.
    pub value: Fix,
    /// Its nominal range.
    pub range: Range,
}

/// The nominal range of a parameter, from its minValue to its maxValue.
#[derive(Clone, Copy)]
pub enum Range {
    /// All values.
    Any,
    /// From 0 up to a value.
    UpTo(Fix),
}

/// What a source plays.
#[derive(Clone, Copy)]
pub enum Plays {
    /// The value of its parameter.
    Value,
    /// A buffer, of which it moves on by so many frames in each frame.
    Content(u32),
}

/// What later quanta need of a node.
#[derive(Clone, Copy)]
pub enum Keeps {
    /// Nothing.
    Nothing,
    /// All that its input took in since its creation.
    Heard,
    /// So many frames of what it wrote last.
    Written(u64),
}

impl Keeps {
    /// Whether the node gives later what it wrote, as a delay does (DelayNode).
    pub fn is_written(self) -> bool
        ensures { result ≡ spec.is_written self }
    {
        matches!(self, Keeps::Written(_))
    }

    /// How many frames the node keeps of what it wrote.
    pub fn frames(self) -> u64
        ensures { result ≡ spec.frames_written self }
    {
        match self {
            Keeps::Written(frames) => frames,
            Keeps::Nothing | Keeps::Heard => 0,
        }
    }
}
