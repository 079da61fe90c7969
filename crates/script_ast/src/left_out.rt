ghost use Rattle.std.specs.Prelude.{◌≡◌, Some};
ghost use Rattle.script_ast.specs.Entries.{left_out_word, left_out_feature, op_named};
ghost use Rattle.script_ast.specs.declared.entries.OpName.TheVariants.{LeftOut};

use wa_base::Feature;

/// The name of an operation that the profile leaves out.
#[derive(Clone, Copy, PartialEq, Eq)]
pub enum LeftOutName {
    CreateOscillator,
    CreatePeriodicWave,
    CreateBiquadFilter,
    CreateStereoPanner,
    CreatePanner,
    CreateDynamicsCompressor,
    CreateAnalyser,
    SetListener,
    CreateMediaElementSource,
    CreateMediaStreamSource,
    CreateMediaStreamTrackSource,
    CreateMediaStreamDestination,
    CreateScriptProcessor,
    CreateAudioWorkletNode,
}

impl LeftOutName {
    /// The value of a call's `op` that names the operation, and no other one.
    #[tactic(auto, unfolding(crate::specs::Entries::op_named))]
    pub fn word(self) -> &'static str
        ensures word { result.now ≡ left_out_word self }
        ensures named { op_named result.now ≡ Some (LeftOut self) }
    {
        match self {
            LeftOutName::CreateOscillator => "createOscillator",
            LeftOutName::CreatePeriodicWave => "createPeriodicWave",
            LeftOutName::CreateBiquadFilter => "createBiquadFilter",
            LeftOutName::CreateStereoPanner => "createStereoPanner",
            LeftOutName::CreatePanner => "createPanner",
            LeftOutName::CreateDynamicsCompressor => "createDynamicsCompressor",
            LeftOutName::CreateAnalyser => "createAnalyser",
            LeftOutName::SetListener => "setListener",
            LeftOutName::CreateMediaElementSource => "createMediaElementSource",
            LeftOutName::CreateMediaStreamSource => "createMediaStreamSource",
            LeftOutName::CreateMediaStreamTrackSource => "createMediaStreamTrackSource",
            LeftOutName::CreateMediaStreamDestination => "createMediaStreamDestination",
            LeftOutName::CreateScriptProcessor => "createScriptProcessor",
            LeftOutName::CreateAudioWorkletNode => "createAudioWorkletNode",
        }
    }

    /// The feature for which the operation is always refused.
    pub fn feature(self) -> Feature
        ensures { result ≡ left_out_feature self }
    {
        match self {
            LeftOutName::CreateOscillator => Feature::Oscillator,
            LeftOutName::CreatePeriodicWave => Feature::PeriodicWave,
            LeftOutName::CreateBiquadFilter => Feature::Biquad,
            LeftOutName::CreateStereoPanner => Feature::StereoPanner,
            LeftOutName::CreatePanner => Feature::Panner,
            LeftOutName::CreateDynamicsCompressor => Feature::Compressor,
            LeftOutName::CreateAnalyser => Feature::Analyser,
            LeftOutName::SetListener => Feature::Listener,
            LeftOutName::CreateMediaElementSource => Feature::MediaElementSource,
            LeftOutName::CreateMediaStreamSource => Feature::MediaStreamSource,
            LeftOutName::CreateMediaStreamTrackSource => Feature::MediaStreamTrackSource,
            LeftOutName::CreateMediaStreamDestination => Feature::MediaStreamDestination,
            LeftOutName::CreateScriptProcessor => Feature::ScriptProcessor,
            LeftOutName::CreateAudioWorkletNode => Feature::AudioWorklet,
        }
    }
}
