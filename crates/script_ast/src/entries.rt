ghost use Rattle.std.specs.Prelude.{◌≡◌, Some, IsTrue, ◌↔◌, IsSome, bytes_eq, option_map};
ghost use Rattle.script_ast.specs.Fallbacks.{row_in, fallback_in};
ghost use Rattle.script_ast.specs.Entries.{creation_word, creation_fields, op_word, op_named, first_named, fields_of, has_calls};
ghost use Rattle.script_ast.specs.declared.entries.OpName.TheVariants.{Create};

use crate::fields::Field;
use crate::left_out::LeftOutName;
use crate::operations::Oversample;
use crate::param_ops::ParamOpName;
use wa_base::DEFAULT_QUANTUM;

/// What the JSON value of a field has to be.
#[derive(Clone, Copy, PartialEq, Eq)]
pub enum Kind {
    /// A whole number from -2^31 to 2^31 - 1.
    Fix,
    /// A number of frames from -2^40 to 2^40, in the units of a clock.
    Time,
    /// A whole number from 0 to 2^32 - 1.
    Count,
    /// The whole number 1 or 2.
    Version,
    /// Any string.
    Name,
    /// Any string, or null, which is a value here and no default.
    NameOrNull,
    /// A string that an object may be given as its name.
    NewName,
    /// True or false.
    Flag,
    /// An array of whole numbers from -2^31 to 2^31 - 1.
    Fixes,
    /// Such an array, or null, which is a value here and no default.
    FixesOrNull,
    /// A string of 1 to 255 bytes.
    Path,
    /// An array of strings, each of them an instruction of a processor program.
    Code,
    /// The word of a ChannelCountMode.
    Mode,
    /// The word of a ChannelInterpretation.
    Interp,
    /// The word of an AutomationRate.
    Rate,
    /// The word of an Oversample.
    Oversample,
    /// An array.
    Calls,
    /// An object.
    Object,
}

/// What stands for a field that is absent.
#[derive(Clone, Copy, PartialEq, Eq)]
pub enum Fallback {
    /// The field has to be there.
    Needed,
    /// `null`, which the field may also hold.
    Null,
    /// A number of frames, or of units of 2^-24.
    Number(i64),
    /// A count.
    Count(u32),
    /// True or false.
    Flag(bool),
    /// An oversampling.
    Oversample(Oversample),
    /// The empty list of calls.
    NoCalls,
}

/// A field of an entry: its name, its kind and its default.
#[derive(Clone, Copy, PartialEq, Eq)]
pub struct Row {
    pub field: Field,
    pub kind: Kind,
    pub fallback: Fallback,
}

// A row: the name of a field, its kind and its default.
macro_rules! row {
    ($field:ident, $kind:ident, $($fallback:tt)+) => {
        Row {
            field: Field::$field,
            kind: Kind::$kind,
            fallback: Fallback::$($fallback)+,
        }
    };
}

// The members of a script, around those of its `context`.

pub const SCRIPT_HEAD: [Row; 2] = [
    row!(Version, Version, Needed),
    row!(Context, Object, Needed),
];

pub const CONTEXT_FIELDS: [Row; 4] = [
    row!(Channels, Count, Needed),
    row!(Length, Count, Needed),
    row!(Rate, Count, Needed),
    row!(RenderQuantum, Count, Count(DEFAULT_QUANTUM)),
];

pub const SCRIPT_TAIL: [Row; 1] = [row!(Calls, Calls, Needed)];

/// The name of an operation that creates a node by its numbers alone.
#[derive(Clone, Copy, PartialEq, Eq)]
pub enum Creation {
    /// The ConstantSourceNode Interface.
    ConstantSource,
    /// The GainNode Interface.
    Gain,
    /// The ChannelSplitterNode Interface.
    ChannelSplitter,
    /// The ChannelMergerNode Interface.
    ChannelMerger,
    /// The IIRFilterNode Interface.
    IIRFilter,
}

/// The name of an operation that a script may have.
#[derive(Clone, Copy, PartialEq, Eq)]
pub enum OpName {
    Create(Creation),
    CreateDelay,
    CreateWaveShaper,
    CreateConvolver,
    CreateProcessor,
    CreateBufferSource,
    CreateBuffer,
    Connect,
    ConnectParam,
    Disconnect,
    DisconnectParam,
    SetChannelCount,
    SetChannelCountMode,
    SetChannelInterpretation,
    SetCurve,
    SetOversample,
    SetBuffer,
    SetLoop,
    SetLoopStart,
    SetLoopEnd,
    CopyToChannel,
    Start,
    Stop,
    Param(ParamOpName),
    Suspend,
    StartRendering,
    Resume,
    DecodeAudioData,
    ReadState,
    ReadTime,
    LeftOut(LeftOutName),
}

/// Every operation.
pub const OP_NAMES: [OpName; 57] = [
    OpName::Create(Creation::ConstantSource),
    OpName::Create(Creation::Gain),
    OpName::CreateDelay,
    OpName::Create(Creation::ChannelSplitter),
    OpName::Create(Creation::ChannelMerger),
    OpName::CreateWaveShaper,
    OpName::Create(Creation::IIRFilter),
    OpName::CreateConvolver,
    OpName::CreateProcessor,
    OpName::CreateBufferSource,
    OpName::CreateBuffer,
    OpName::Connect,
    OpName::ConnectParam,
    OpName::Disconnect,
    OpName::DisconnectParam,
    OpName::SetChannelCount,
    OpName::SetChannelCountMode,
    OpName::SetChannelInterpretation,
    OpName::SetCurve,
    OpName::SetOversample,
    OpName::SetBuffer,
    OpName::SetLoop,
    OpName::SetLoopStart,
    OpName::SetLoopEnd,
    OpName::CopyToChannel,
    OpName::Start,
    OpName::Stop,
    OpName::Param(ParamOpName::SetValue),
    OpName::Param(ParamOpName::SetValueAtTime),
    OpName::Param(ParamOpName::LinearRampToValueAtTime),
    OpName::Param(ParamOpName::SetValueCurveAtTime),
    OpName::Param(ParamOpName::CancelScheduledValues),
    OpName::Param(ParamOpName::CancelAndHoldAtTime),
    OpName::Param(ParamOpName::SetAutomationRate),
    OpName::Param(ParamOpName::ExponentialRampToValueAtTime),
    OpName::Param(ParamOpName::SetTargetAtTime),
    OpName::Param(ParamOpName::ReadValue),
    OpName::Suspend,
    OpName::StartRendering,
    OpName::Resume,
    OpName::DecodeAudioData,
    OpName::ReadState,
    OpName::ReadTime,
    OpName::LeftOut(LeftOutName::CreateOscillator),
    OpName::LeftOut(LeftOutName::CreatePeriodicWave),
    OpName::LeftOut(LeftOutName::CreateBiquadFilter),
    OpName::LeftOut(LeftOutName::CreateStereoPanner),
    OpName::LeftOut(LeftOutName::CreatePanner),
    OpName::LeftOut(LeftOutName::CreateDynamicsCompressor),
    OpName::LeftOut(LeftOutName::CreateAnalyser),
    OpName::LeftOut(LeftOutName::SetListener),
    OpName::LeftOut(LeftOutName::CreateMediaElementSource),
    OpName::LeftOut(LeftOutName::CreateMediaStreamSource),
    OpName::LeftOut(LeftOutName::CreateMediaStreamTrackSource),
    OpName::LeftOut(LeftOutName::CreateMediaStreamDestination),
    OpName::LeftOut(LeftOutName::CreateScriptProcessor),
    OpName::LeftOut(LeftOutName::CreateAudioWorkletNode),
];

// The fields of each operation, in the order in which they are read; `then` comes last.

pub const CREATE_CONSTANT_SOURCE: [Row; 2] = [
    row!(As, NewName, Needed),
    row!(Offset, Fix, Number(16_777_216)),
];

pub const CREATE_GAIN: [Row; 2] = [
    row!(As, NewName, Needed),
    row!(Gain, Fix, Number(16_777_216)),
];

pub const CREATE_DELAY: [Row; 3] = [
    row!(As, NewName, Needed),
    row!(MaxDelayTime, Fix, Number(16_777_216)),
    row!(DelayTime, Fix, Number(0)),
];

pub const CREATE_CHANNEL_SPLITTER: [Row; 2] = [
    row!(As, NewName, Needed),
    row!(NumberOfOutputs, Count, Count(6)),
];

pub const CREATE_CHANNEL_MERGER: [Row; 2] = [
    row!(As, NewName, Needed),
    row!(NumberOfInputs, Count, Count(6)),
];

pub const CREATE_WAVE_SHAPER: [Row; 3] = [
    row!(As, NewName, Needed),
    row!(Curve, Fixes, Null),
    row!(Oversample, Oversample, Oversample(Oversample::Off)),
];

pub const CREATE_IIR_FILTER: [Row; 3] = [
    row!(As, NewName, Needed),
    row!(Feedforward, Fixes, Needed),
    row!(Feedback, Fixes, Needed),
];

pub const CREATE_CONVOLVER: [Row; 3] = [
    row!(As, NewName, Needed),
    row!(Buffer, Name, Null),
    row!(DisableNormalization, Flag, Flag(false)),
];

pub const CREATE_PROCESSOR: [Row; 2] = [row!(As, NewName, Needed), row!(Code, Code, Needed)];

pub const CREATE_BUFFER_SOURCE: [Row; 6] = [
    row!(As, NewName, Needed),
    row!(Buffer, Name, Null),
    row!(Loop, Flag, Flag(false)),
    row!(LoopStart, Time, Number(0)),
    row!(LoopEnd, Time, Number(0)),
    row!(PlaybackRate, Fix, Number(16_777_216)),
];

pub const CREATE_BUFFER: [Row; 4] = [
    row!(As, NewName, Needed),
    row!(Channels, Count, Needed),
    row!(Length, Count, Needed),
    row!(Rate, Count, Needed),
];

pub const CONNECT: [Row; 4] = [
    row!(From, Name, Needed),
    row!(Output, Count, Count(0)),
    row!(To, Name, Needed),
    row!(Input, Count, Count(0)),
];

pub const CONNECT_PARAM: [Row; 4] = [
    row!(From, Name, Needed),
    row!(Output, Count, Count(0)),
    row!(To, Name, Needed),
    row!(Param, Name, Needed),
];

pub const DISCONNECT: [Row; 4] = [
    row!(From, Name, Needed),
    row!(Output, Count, Null),
    row!(To, Name, Null),
    row!(Input, Count, Null),
];

pub const DISCONNECT_PARAM: [Row; 4] = [
    row!(From, Name, Needed),
    row!(To, Name, Needed),
    row!(Param, Name, Needed),
    row!(Output, Count, Null),
];

pub const SET_CHANNEL_COUNT: [Row; 2] = [row!(Node, Name, Needed), row!(Value, Count, Needed)];

pub const SET_CHANNEL_COUNT_MODE: [Row; 2] = [row!(Node, Name, Needed), row!(Value, Mode, Needed)];

pub const SET_CHANNEL_INTERPRETATION: [Row; 2] = [
    row!(Node, Name, Needed),
    row!(Value, Interp, Needed),
];

pub const SET_CURVE: [Row; 2] = [row!(Node, Name, Needed), row!(Curve, FixesOrNull, Needed)];

pub const SET_OVERSAMPLE: [Row; 2] = [row!(Node, Name, Needed), row!(Value, Oversample, Needed)];

pub const SET_BUFFER: [Row; 2] = [row!(Node, Name, Needed), row!(Buffer, NameOrNull, Needed)];

pub const SET_LOOP: [Row; 2] = [row!(Node, Name, Needed), row!(Value, Flag, Needed)];

pub const SET_LOOP_START: [Row; 2] = [row!(Node, Name, Needed), row!(Value, Time, Needed)];

pub const SET_LOOP_END: [Row; 2] = [row!(Node, Name, Needed), row!(Value, Time, Needed)];

pub const COPY_TO_CHANNEL: [Row; 4] = [
    row!(Buffer, Name, Needed),
    row!(Channel, Count, Needed),
    row!(Samples, Fixes, Needed),
    row!(At, Count, Count(0)),
];

pub const START: [Row; 4] = [
    row!(Node, Name, Needed),
    row!(When, Time, Number(0)),
    row!(Offset, Time, Number(0)),
    row!(Duration, Time, Null),
];

pub const STOP: [Row; 2] = [row!(Node, Name, Needed), row!(When, Time, Number(0))];

pub const SET_VALUE: [Row; 3] = [
    row!(Node, Name, Needed),
    row!(Param, Name, Needed),
    row!(Value, Fix, Needed),
];

pub const SET_VALUE_AT_TIME: [Row; 4] = [
    row!(Node, Name, Needed),
    row!(Param, Name, Needed),
    row!(Value, Fix, Needed),
    row!(Time, Time, Needed),
];

pub const LINEAR_RAMP_TO_VALUE_AT_TIME: [Row; 4] = [
    row!(Node, Name, Needed),
    row!(Param, Name, Needed),
    row!(Value, Fix, Needed),
    row!(Time, Time, Needed),
];

pub const SET_VALUE_CURVE_AT_TIME: [Row; 5] = [
    row!(Node, Name, Needed),
    row!(Param, Name, Needed),
    row!(Values, Fixes, Needed),
    row!(Time, Time, Needed),
    row!(Duration, Time, Needed),
];

pub const CANCEL_SCHEDULED_VALUES: [Row; 3] = [
    row!(Node, Name, Needed),
    row!(Param, Name, Needed),
    row!(Time, Time, Needed),
];

pub const CANCEL_AND_HOLD_AT_TIME: [Row; 3] = [
    row!(Node, Name, Needed),
    row!(Param, Name, Needed),
    row!(Time, Time, Needed),
];

pub const SET_AUTOMATION_RATE: [Row; 3] = [
    row!(Node, Name, Needed),
    row!(Param, Name, Needed),
    row!(Value, Rate, Needed),
];

pub const EXPONENTIAL_RAMP_TO_VALUE_AT_TIME: [Row; 2] = [
    row!(Node, Name, Needed),
    row!(Param, Name, Needed),
];

pub const SET_TARGET_AT_TIME: [Row; 2] = [row!(Node, Name, Needed), row!(Param, Name, Needed)];

pub const READ_VALUE: [Row; 2] = [row!(Node, Name, Needed), row!(Param, Name, Needed)];

pub const SUSPEND: [Row; 2] = [row!(Time, Time, Needed), row!(Then, Calls, NoCalls)];

pub const START_RENDERING: [Row; 1] = [row!(Then, Calls, NoCalls)];

pub const DECODE_AUDIO_DATA: [Row; 2] = [row!(As, NewName, Needed), row!(Path, Path, Needed)];

impl Creation {
    /// The value of a call's `op` that names the operation, and no other one.
    #[tactic(auto, unfolding(crate::specs::Entries::op_named))]
    pub fn word(self) -> &'static str
        ensures word { result.now ≡ creation_word self }
        ensures named { op_named result.now ≡ Some (Create self) }
    {
        match self {
            Creation::ConstantSource => "createConstantSource",
            Creation::Gain => "createGain",
            Creation::ChannelSplitter => "createChannelSplitter",
            Creation::ChannelMerger => "createChannelMerger",
            Creation::IIRFilter => "createIIRFilter",
        }
    }

    /// The fields of the operation, in the order in which they are read.
    pub fn fields(self) -> &'static [Row]
        ensures { result.now ≡ creation_fields self }
    {
        match self {
            Creation::ConstantSource => &CREATE_CONSTANT_SOURCE,
            Creation::Gain => &CREATE_GAIN,
            Creation::ChannelSplitter => &CREATE_CHANNEL_SPLITTER,
            Creation::ChannelMerger => &CREATE_CHANNEL_MERGER,
            Creation::IIRFilter => &CREATE_IIR_FILTER,
        }
    }
}

impl OpName {
    /// The value of a call's `op` that names the operation, and no other one.
    #[tactic(auto, unfolding(crate::specs::Entries::op_named))]
    pub fn word(self) -> &'static str
        ensures word { result.now ≡ op_word self }
        ensures named { op_named result.now ≡ Some self }
    {
        match self {
            OpName::Create(name) => name.word(),
            OpName::CreateDelay => "createDelay",
            OpName::CreateWaveShaper => "createWaveShaper",
            OpName::CreateConvolver => "createConvolver",
            OpName::CreateProcessor => "createProcessor",
            OpName::CreateBufferSource => "createBufferSource",
            OpName::CreateBuffer => "createBuffer",
            OpName::Connect => "connect",
            OpName::ConnectParam => "connectParam",
            OpName::Disconnect => "disconnect",
            OpName::DisconnectParam => "disconnectParam",
            OpName::SetChannelCount => "setChannelCount",
            OpName::SetChannelCountMode => "setChannelCountMode",
            OpName::SetChannelInterpretation => "setChannelInterpretation",
            OpName::SetCurve => "setCurve",
            OpName::SetOversample => "setOversample",
            OpName::SetBuffer => "setBuffer",
            OpName::SetLoop => "setLoop",
            OpName::SetLoopStart => "setLoopStart",
            OpName::SetLoopEnd => "setLoopEnd",
            OpName::CopyToChannel => "copyToChannel",
            OpName::Start => "start",
            OpName::Stop => "stop",
            OpName::Param(name) => name.word(),
            OpName::Suspend => "suspend",
            OpName::StartRendering => "startRendering",
            OpName::Resume => "resume",
            OpName::DecodeAudioData => "decodeAudioData",
            OpName::ReadState => "readState",
            OpName::ReadTime => "readTime",
            OpName::LeftOut(name) => name.word(),
        }
    }

    fn is_named(self, word: &str) -> bool
        ensures { result ≡ bytes_eq (op_word self) word.now }
    {
        self.word() == word
    }

    /// The operation that a call's `op` names.
    #[tactic(auto, unfolding(crate::specs::Entries::op_named))]
    pub fn from_word(word: &str) -> Option<OpName>
        ensures { result ≡ op_named word.now }
    {
        find_named(&OP_NAMES, word).copied()
    }

    /// The fields of the operation, in the order in which they are read.
    pub fn fields(self) -> &'static [Row]
        ensures { result.now ≡ fields_of self }
    {
        match self {
            OpName::Create(name) => name.fields(),
            OpName::CreateDelay => &CREATE_DELAY,
            OpName::CreateWaveShaper => &CREATE_WAVE_SHAPER,
            OpName::CreateConvolver => &CREATE_CONVOLVER,
            OpName::CreateProcessor => &CREATE_PROCESSOR,
            OpName::CreateBufferSource => &CREATE_BUFFER_SOURCE,
            OpName::CreateBuffer => &CREATE_BUFFER,
            OpName::Connect => &CONNECT,
            OpName::ConnectParam => &CONNECT_PARAM,
            OpName::Disconnect => &DISCONNECT,
            OpName::DisconnectParam => &DISCONNECT_PARAM,
            OpName::SetChannelCount => &SET_CHANNEL_COUNT,
            OpName::SetChannelCountMode => &SET_CHANNEL_COUNT_MODE,
            OpName::SetChannelInterpretation => &SET_CHANNEL_INTERPRETATION,
            OpName::SetCurve => &SET_CURVE,
            OpName::SetOversample => &SET_OVERSAMPLE,
            OpName::SetBuffer => &SET_BUFFER,
            OpName::SetLoop => &SET_LOOP,
            OpName::SetLoopStart => &SET_LOOP_START,
            OpName::SetLoopEnd => &SET_LOOP_END,
            OpName::CopyToChannel => &COPY_TO_CHANNEL,
            OpName::Start => &START,
            OpName::Stop => &STOP,
            OpName::Param(name) => name.fields(),
            OpName::Suspend => &SUSPEND,
            OpName::StartRendering => &START_RENDERING,
            OpName::DecodeAudioData => &DECODE_AUDIO_DATA,
            OpName::Resume | OpName::ReadState | OpName::ReadTime | OpName::LeftOut(_) => &[],
        }
    }

    /// Whether a call of the operation may hold further calls.
    pub fn has_calls(self) -> bool
        ensures { result ≡ has_calls self }
    {
        self.fields()
            .iter()
            .any(|row| matches!(row.kind, Kind::Calls))
    }
}

// The first of the operations that the text names.
fn find_named<'a>(names: &'a [OpName], word: &str) -> Option<&'a OpName>
    ensures { option_map (λ name. name.now) result ≡ first_named word.now names.now }
{
    names.iter().find(|name| name.is_named(word))
}

/// Whether scripts with this `op` are read: whether it names an operation.
pub fn is_built(op: &str) -> bool
    ensures { IsTrue result ↔ IsSome (op_named op.now) }
{
    OpName::from_word(op).is_some()
}

/// The default of the field with this name in an entry; a field that the entry has not is needed.
pub fn fallback_in(rows: &[Row], field: Field) -> Fallback
    ensures { result ≡ fallback_in rows.now field }
{
    match find_row(rows, field).copied() {
        Some(row) => row.fallback,
        None => Fallback::Needed,
    }
}

// The row of the field with this name.
fn find_row(rows: &[Row], field: Field) -> Option<&Row>
    ensures { option_map (λ row. row.now) result ≡ row_in rows.now field }
{
    rows.iter().find(|row| row.field.word() == field.word())
}
