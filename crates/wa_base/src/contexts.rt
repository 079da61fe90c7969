ghost use Rattle.std.specs.Prelude.{◌≡◌, ◌≤◌, ◌*◌, nat_le, true};
ghost use Rattle.wa_base.specs.Contexts.{state_word, IsQuantumSize, IsSupported};
ghost use Rattle.wa_base.specs.Contexts as contexts;

/// The size of a render quantum where none is asked for, in frames.
pub const DEFAULT_QUANTUM: u32 = 128;

const MAX_LENGTH: u64 = 33_554_432;

const MAX_SAMPLES: u128 = 67_108_864;

/// The state of a context (AudioContextState).
#[derive(Clone, Copy, Debug, PartialEq, Eq)]
pub enum State {
    Suspended,
    Running,
    Closed,
}

impl State {
    /// The state as the Web Audio recommendation spells it.
    pub fn word(self) -> &'static str
        ensures { result.now ≡ state_word self }
    {
        match self {
            State::Suspended => "suspended",
            State::Running => "running",
            State::Closed => "closed",
        }
    }
}

/// What an offline context is made with (OfflineAudioContextOptions).
#[derive(Clone, Copy, Debug, PartialEq, Eq)]
pub struct ContextSpec {
    /// The number of channels.
    pub channels: u32,
    /// The length in frames.
    pub length: u64,
    /// The sample rate, in frames a second.
    pub rate: u32,
    /// The size of a render quantum, in frames (renderSizeHint).
    pub quantum: u32,
}

impl ContextSpec {
    /// Whether the context can be rendered: 1 to 32 channels, 1 to 33,554,432 frames, a rate of
    /// 8,000 to 96,000, at most 67,108,864 samples, and render quanta of 32, 64, 128, 256, 512 or
    /// 1,024 frames.
    #[tactic(auto, unfolding(crate::specs::Contexts::is_supported))]
    pub fn is_supported(self) -> bool
        ensures value { result ≡ contexts.is_supported self }
        ensures ranges { result ≡ true → IsSupported self }
    {
        self.has_channels()
            && self.has_length()
            && self.has_rate()
            && self.has_few_samples()
            && self.has_quantum()
    }

    fn has_channels(self) -> bool
        ensures value { result ≡ contexts.has_channels self }
        ensures range { result ≡ true → (1 ≤ self.channels) × (self.channels ≤ 32) }
    {
        1 <= self.channels && self.channels <= 32
    }

    fn has_length(self) -> bool
        ensures value { result ≡ contexts.has_length self }
        ensures range { result ≡ true → (1 ≤ self.length) × (self.length ≤ 33554432) }
    {
        1 <= self.length && self.length <= MAX_LENGTH
    }

    fn has_rate(self) -> bool
        ensures value { result ≡ contexts.has_rate self }
        ensures range { result ≡ true → (8000 ≤ self.rate) × (self.rate ≤ 96000) }
    {
        8_000 <= self.rate && self.rate <= 96_000
    }

    fn has_few_samples(self) -> bool
        ensures value { result ≡ nat_le (self.channels * self.length) 67108864 }
        ensures range { result ≡ true → self.channels * self.length ≤ 67108864 }
    {
        u128::from(self.channels) * u128::from(self.length) <= MAX_SAMPLES
    }

    fn has_quantum(self) -> bool
        ensures value { result ≡ contexts.has_quantum self }
        ensures range { result ≡ true → IsQuantumSize self.quantum }
    {
        matches!(self.quantum, 32 | 64 | 128 | 256 | 512 | 1_024)
    }
}
