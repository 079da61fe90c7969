ghost use Rattle.std.specs.Prelude.{◌≡◌};
ghost use Rattle.wa_base.specs.Features.{feature_word};

/// What the profile leaves out or limits, as a refusal names it.
#[derive(Clone, Copy, Debug, PartialEq, Eq)]
pub enum Feature {
    Oscillator,
    PeriodicWave,
    Biquad,
    StereoPanner,
    Panner,
    Listener,
    Compressor,
    Analyser,
    MediaElementSource,
    MediaStreamSource,
    MediaStreamTrackSource,
    MediaStreamDestination,
    ScriptProcessor,
    AudioWorklet,
    ExponentialRamp,
    SetTarget,
    Oversample,
    Resampling,
    PlaybackRate,
    PlaybackRateAutomation,
    Detune,
    LoopChange,
    LateBuffer,
    BufferAcquired,
    DestinationOutput,
    LongDelay,
    Normalization,
    ResponseChannels,
    LongResponse,
    LoudResponse,
    Program,
    AssetSize,
    NodeLimit,
    ConnectionLimit,
    BufferLimit,
    DelayLimit,
}

impl Feature {
    /// The word that stands for the feature in a transcript, after `profile:`.
    pub fn word(self) -> &'static str
        ensures { result.now ≡ feature_word self }
    {
        match self {
            Feature::Oscillator => "oscillator",
            Feature::PeriodicWave => "periodic-wave",
            Feature::Biquad => "biquad",
            Feature::StereoPanner => "stereo-panner",
            Feature::Panner => "panner",
            Feature::Listener => "listener",
            Feature::Compressor => "compressor",
            Feature::Analyser => "analyser",
            Feature::MediaElementSource => "media-element-source",
            Feature::MediaStreamSource => "media-stream-source",
            Feature::MediaStreamTrackSource => "media-stream-track-source",
            Feature::MediaStreamDestination => "media-stream-destination",
            Feature::ScriptProcessor => "script-processor",
            Feature::AudioWorklet => "audio-worklet",
            Feature::ExponentialRamp => "exponential-ramp",
            Feature::SetTarget => "set-target",
            Feature::Oversample => "oversample",
            Feature::Resampling => "resampling",
            Feature::PlaybackRate => "playback-rate",
            Feature::PlaybackRateAutomation => "playback-rate-automation",
            Feature::Detune => "detune",
            Feature::LoopChange => "loop-change",
            Feature::LateBuffer => "late-buffer",
            Feature::BufferAcquired => "buffer-acquired",
            Feature::DestinationOutput => "destination-output",
            Feature::LongDelay => "long-delay",
            Feature::Normalization => "normalization",
            Feature::ResponseChannels => "response-channels",
            Feature::LongResponse => "long-response",
            Feature::LoudResponse => "loud-response",
            Feature::Program => "program",
            Feature::AssetSize => "asset-size",
            Feature::NodeLimit => "node-limit",
            Feature::ConnectionLimit => "connection-limit",
            Feature::BufferLimit => "buffer-limit",
            Feature::DelayLimit => "delay-limit",
        }
    }
}
