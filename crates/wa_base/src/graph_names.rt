ghost use Rattle.std.specs.Prelude.{◌≡◌};
ghost use Rattle.wa_base.specs.GraphNames.{param_word, mode_word, interp_word, rate_word};

use crate::items::Items;

/// A name that a script gives to an object: its bytes.
pub type Name = Items<u8>;

/// A node, by its place in order of creation; the destination is 0.
#[derive(Clone, Copy, Debug, PartialEq, Eq)]
pub struct NodeId(pub u32);

/// A buffer, by its place in order of creation.
#[derive(Clone, Copy, Debug, PartialEq, Eq)]
pub struct BufId(pub u32);

/// The name of a parameter (AudioParam).
#[derive(Clone, Copy, Debug, PartialEq, Eq)]
pub enum ParamName {
    Offset,
    Gain,
    DelayTime,
    PlaybackRate,
    Detune,
}

impl ParamName {
    /// The name as the Web Audio recommendation spells it.
    pub fn word(self) -> &'static str
        ensures { result.now ≡ param_word self }
    {
        match self {
            ParamName::Offset => "offset",
            ParamName::Gain => "gain",
            ParamName::DelayTime => "delayTime",
            ParamName::PlaybackRate => "playbackRate",
            ParamName::Detune => "detune",
        }
    }
}

/// A parameter of a node.
#[derive(Clone, Copy, Debug, PartialEq, Eq)]
pub struct ParamId {
    pub node: NodeId,
    pub name: ParamName,
}

/// One end of a node. A delay has two, a writer and a reader; every other node has a reader alone.
#[derive(Clone, Copy, Debug, PartialEq, Eq)]
pub struct End {
    pub node: NodeId,
    pub writer: bool,
}

/// How the number of channels of a node's input is found (ChannelCountMode).
#[derive(Clone, Copy, Debug, PartialEq, Eq)]
pub enum Mode {
    Max,
    ClampedMax,
    Explicit,
}

impl Mode {
    /// The mode as the Web Audio recommendation spells it.
    pub fn word(self) -> &'static str
        ensures { result.now ≡ mode_word self }
    {
        match self {
            Mode::Max => "max",
            Mode::ClampedMax => "clamped-max",
            Mode::Explicit => "explicit",
        }
    }
}

/// How channels are mixed where their numbers differ (ChannelInterpretation).
#[derive(Clone, Copy, Debug, PartialEq, Eq)]
pub enum Interp {
    Speakers,
    Discrete,
}

impl Interp {
    /// The interpretation as the Web Audio recommendation spells it.
    pub fn word(self) -> &'static str
        ensures { result.now ≡ interp_word self }
    {
        match self {
            Interp::Speakers => "speakers",
            Interp::Discrete => "discrete",
        }
    }
}

/// How often a parameter's value is taken (AutomationRate): at each frame, or once in a quantum.
#[derive(Clone, Copy, Debug, PartialEq, Eq)]
pub enum Rate {
    A,
    K,
}

impl Rate {
    /// The rate as the Web Audio recommendation spells it.
    pub fn word(self) -> &'static str
        ensures { result.now ≡ rate_word self }
    {
        match self {
            Rate::A => "a-rate",
            Rate::K => "k-rate",
        }
    }
}

/// Which of two nodes goes first where either may: the one created earlier, or the later one.
#[derive(Clone, Copy, Debug, PartialEq, Eq)]
pub enum Tie {
    Up,
    Down,
}
