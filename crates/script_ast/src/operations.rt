ghost use Rattle.std.specs.Prelude.{◌≡◌, option_map};
ghost use Rattle.script_ast.specs.Operations as spec;
ghost use Rattle.script_ast.specs.Words.{oversample_word};

use crate::left_out::LeftOutName;
use crate::paths::Path;
use node_table::{Code, Kind};
use wa_base::{Fix, Interp, Mode, Name, Rate, Samples};

/// How often a shaper samples its curve (OverSampleType).
#[derive(Clone, Copy, PartialEq, Eq)]
pub enum Oversample {
    Off,
    Two,
    Four,
}

impl Oversample {
    /// The oversampling as the Web Audio recommendation spells it.
    pub fn word(self) -> &'static str
        ensures { result.now ≡ oversample_word self }
    {
        match self {
            Oversample::Off => "none",
            Oversample::Two => "2x",
            Oversample::Four => "4x",
        }
    }
}

/// An operation of a script with its fields. Values and curves are in units of 2^-24, and times are
/// whole frames; `max_delay_time` and `delay_time` alone are seconds, in units of 2^-24. Each
/// operation is described in the named section of the Web Audio recommendation of 17 June 2021.
#[derive(Drop)]
pub enum Op {
    /// A node that its kind alone tells: the interface that its `Creation` names.
    Create {
        name: Name,
        kind: Kind,
    },
    /// The DelayNode Interface.
    CreateDelay {
        name: Name,
        max_delay_time: Fix,
        delay_time: Fix,
    },
    /// The WaveShaperNode Interface.
    CreateWaveShaper {
        name: Name,
        curve: Option<Samples>,
        oversample: Oversample,
    },
    /// The ConvolverNode Interface.
    CreateConvolver {
        name: Name,
        buffer: Option<Name>,
        disable_normalization: bool,
    },
    /// A processor, this profile's answer to the AudioWorkletNode Interface.
    CreateProcessor {
        name: Name,
        code: Code,
    },
    /// The AudioBufferSourceNode Interface.
    CreateBufferSource {
        name: Name,
        buffer: Option<Name>,
        looping: bool,
        loop_start: i64,
        loop_end: i64,
        playback_rate: Fix,
    },
    /// The AudioBuffer Interface.
    CreateBuffer {
        name: Name,
        channels: u32,
        length: u32,
        rate: u32,
    },
    /// An operation that the profile leaves out; none of its fields is read.
    LeftOut {
        name: LeftOutName,
    },
    /// The AudioNode Interface, connect to a node.
    Connect {
        from: Name,
        output: u32,
        to: Name,
        input: u32,
    },
    /// The AudioNode Interface, connect to a parameter.
    ConnectParam {
        from: Name,
        output: u32,
        to: Name,
        param: Name,
    },
    /// The AudioNode Interface, disconnect. The fields that are there choose its form: none,
    /// `output`, `to`, `to` and `output`, or all three. So an `input` stands beside the other two.
    Disconnect {
        from: Name,
        output: Option<u32>,
        to: Option<Name>,
        input: Option<u32>,
    },
    /// The AudioNode Interface, disconnect from a parameter.
    DisconnectParam {
        from: Name,
        to: Name,
        param: Name,
        output: Option<u32>,
    },
    /// The AudioNode Interface, channelCount.
    SetChannelCount {
        node: Name,
        value: u32,
    },
    /// The AudioNode Interface, channelCountMode.
    SetChannelCountMode {
        node: Name,
        value: Mode,
    },
    /// The AudioNode Interface, channelInterpretation.
    SetChannelInterpretation {
        node: Name,
        value: Interp,
    },
    /// The WaveShaperNode Interface, curve; `None` takes it away.
    SetCurve {
        node: Name,
        curve: Option<Samples>,
    },
    /// The WaveShaperNode Interface, oversample.
    SetOversample {
        node: Name,
        value: Oversample,
    },
    /// The AudioBufferSourceNode Interface, buffer; `None` takes it away.
    SetBuffer {
        node: Name,
        buffer: Option<Name>,
    },
    /// The AudioBufferSourceNode Interface, loop.
    SetLoop {
        node: Name,
        value: bool,
    },
    /// The AudioBufferSourceNode Interface, loopStart.
    SetLoopStart {
        node: Name,
        value: i64,
    },
    /// The AudioBufferSourceNode Interface, loopEnd.
    SetLoopEnd {
        node: Name,
        value: i64,
    },
    /// The AudioBuffer Interface, copyToChannel; `at` is the first frame that is written.
    CopyToChannel {
        buffer: Name,
        channel: u32,
        samples: Samples,
        at: u32,
    },
    /// The AudioScheduledSourceNode and AudioBufferSourceNode Interfaces, start.
    Start {
        node: Name,
        when: i64,
        offset: i64,
        duration: Option<i64>,
    },
    /// The AudioScheduledSourceNode Interface, stop.
    Stop {
        node: Name,
        when: i64,
    },
    /// The AudioParam Interface, value.
    SetValue {
        node: Name,
        param: Name,
        value: Fix,
    },
    /// The AudioParam Interface, setValueAtTime.
    SetValueAtTime {
        node: Name,
        param: Name,
        value: Fix,
        time: i64,
    },
    /// The AudioParam Interface, linearRampToValueAtTime.
    LinearRampToValueAtTime {
        node: Name,
        param: Name,
        value: Fix,
        time: i64,
    },
    /// The AudioParam Interface, setValueCurveAtTime.
    SetValueCurveAtTime {
        node: Name,
        param: Name,
        values: Samples,
        time: i64,
        duration: i64,
    },
    /// The AudioParam Interface, cancelScheduledValues.
    CancelScheduledValues {
        node: Name,
        param: Name,
        time: i64,
    },
    /// The AudioParam Interface, cancelAndHoldAtTime.
    CancelAndHoldAtTime {
        node: Name,
        param: Name,
        time: i64,
    },
    /// The AudioParam Interface, automationRate.
    SetAutomationRate {
        node: Name,
        param: Name,
        value: Rate,
    },
    /// The AudioParam Interface, exponentialRampToValueAtTime.
    ExponentialRampToValueAtTime {
        node: Name,
        param: Name,
    },
    /// The AudioParam Interface, setTargetAtTime.
    SetTargetAtTime {
        node: Name,
        param: Name,
    },
    /// The AudioParam Interface, value.
    ReadValue {
        node: Name,
        param: Name,
    },
    /// The OfflineAudioContext Interface, suspend.
    Suspend {
        time: i64,
    },
    /// The OfflineAudioContext Interface, startRendering.
    StartRendering,
    /// The OfflineAudioContext Interface, resume.
    Resume,
    /// The BaseAudioContext Interface, decodeAudioData.
    DecodeAudioData {
        name: Name,
        path: Path,
    },
    /// The BaseAudioContext Interface, state.
    ReadState,
    /// The BaseAudioContext Interface, currentTime, in frames.
    ReadTime,
}

/// What an operation is done to, or reads. Operations with the same one are decided together.
#[derive(Clone, Copy, PartialEq, Eq)]
pub enum Interface {
    /// A node is created by its numbers (BaseAudioContext).
    Creation,
    /// A node of any kind (AudioNode).
    Node,
    /// A source (AudioScheduledSourceNode, AudioBufferSourceNode).
    Source,
    /// A buffer, or what is created with one (AudioBuffer, BaseAudioContext).
    Buffer,
    /// A wave shaper (WaveShaperNode).
    Shaper,
    /// A processor (AudioWorkletNode).
    Processor,
    /// The timeline of a parameter (AudioParam).
    Timeline,
    /// A parameter, its connections included (AudioParam, AudioNode).
    Param,
    /// The context (BaseAudioContext, OfflineAudioContext).
    Context,
    /// A file of the folder of assets (BaseAudioContext, decodeAudioData).
    Asset,
    /// Nothing: the profile leaves the operation out.
    LeftOut,
}

impl Op {
    /// What the operation is done to.
    pub fn interface(&self) -> Interface
        ensures { result ≡ spec.interface_of self.now }
    {
        match self {
            Op::Create { .. } | Op::CreateDelay { .. } => Interface::Creation,
            Op::Connect { .. }
            | Op::Disconnect { .. }
            | Op::SetChannelCount { .. }
            | Op::SetChannelCountMode { .. }
            | Op::SetChannelInterpretation { .. } => Interface::Node,
            Op::SetBuffer { .. }
            | Op::SetLoop { .. }
            | Op::SetLoopStart { .. }
            | Op::SetLoopEnd { .. }
            | Op::Start { .. }
            | Op::Stop { .. } => Interface::Source,
            Op::CreateConvolver { .. }
            | Op::CreateBufferSource { .. }
            | Op::CreateBuffer { .. }
            | Op::CopyToChannel { .. } => Interface::Buffer,
            Op::CreateProcessor { .. } => Interface::Processor,
            Op::CreateWaveShaper { .. } | Op::SetCurve { .. } | Op::SetOversample { .. } =>
                Interface::Shaper,
            Op::SetValue { .. }
            | Op::SetValueAtTime { .. }
            | Op::LinearRampToValueAtTime { .. }
            | Op::SetValueCurveAtTime { .. }
            | Op::CancelScheduledValues { .. }
            | Op::CancelAndHoldAtTime { .. } => Interface::Timeline,
            Op::ConnectParam { .. }
            | Op::DisconnectParam { .. }
            | Op::SetAutomationRate { .. }
            | Op::ExponentialRampToValueAtTime { .. }
            | Op::SetTargetAtTime { .. }
            | Op::ReadValue { .. } => Interface::Param,
            Op::Suspend { .. } | Op::StartRendering | Op::Resume | Op::ReadState | Op::ReadTime =>
                Interface::Context,
            Op::DecodeAudioData { .. } => Interface::Asset,
            Op::LeftOut { .. } => Interface::LeftOut,
        }
    }

    /// The name that the operation gives to what it creates.
    pub fn new_name(&self) -> Option<&Name>
        ensures { option_map (λ name. name.now) result ≡ spec.new_name self.now }
    {
        match self {
            Op::Create { name, .. }
            | Op::CreateDelay { name, .. }
            | Op::CreateWaveShaper { name, .. }
            | Op::CreateConvolver { name, .. }
            | Op::CreateProcessor { name, .. }
            | Op::CreateBufferSource { name, .. }
            | Op::CreateBuffer { name, .. }
            | Op::DecodeAudioData { name, .. } => Some(name),
            _ => None,
        }
    }
}
