ghost use Rattle.std.specs.Prelude.{◌≡◌, ◌<◌, ◌≤◌, ℕ, MatchOption};
ghost use Rattle.mix_rules.specs.Mixing.{form, table, layout, kept};
ghost use Rattle.channel_mix.specs.Outputs.{form_of, needed, IsRow};

use wa_base::Interp;

/// What one output channel is made of.
#[derive(Clone, Copy)]
pub(crate) enum Output {
    Silence,
    /// The input channel with this index.
    Channel(usize),
    /// Half of the sum of two input channels.
    HalfOfTwo(usize, usize),
    /// A quarter of the sum of L, R, SL and SR.
    QuarterOfFour,
    /// K (L + R) + C + (SL + SR) / 2, where K is the square root of one half.
    AllSpeakers,
    /// F + K (C + S) of a channel F in front and a surround channel S.
    SideSpeakers(usize, usize),
    /// F + K C of a channel F in front.
    FrontSpeakers(usize),
}

use Output::{
    AllSpeakers, Channel, FrontSpeakers, HalfOfTwo, QuarterOfFour, SideSpeakers, Silence,
};

// The output channels of each pair of the speakers' table, in order. From M:
const MONO_TO_STEREO: [Output; 2] = [Channel(0), Channel(0)];

const MONO_TO_QUAD: [Output; 4] = [Channel(0), Channel(0), Silence, Silence];

const MONO_TO_FIVE_POINT_ONE: [Output; 6] = [
    Silence,
    Silence,
    Channel(0),
    Silence,
    Silence,
    Silence,
];

// From L, R:
const STEREO_TO_MONO: [Output; 1] = [HalfOfTwo(0, 1)];

const STEREO_TO_QUAD: [Output; 4] = [Channel(0), Channel(1), Silence, Silence];

const STEREO_TO_FIVE_POINT_ONE: [Output; 6] = [
    Channel(0),
    Channel(1),
    Silence,
    Silence,
    Silence,
    Silence,
];

// From L, R, SL, SR:
const QUAD_TO_MONO: [Output; 1] = [QuarterOfFour];

const QUAD_TO_STEREO: [Output; 2] = [HalfOfTwo(0, 2), HalfOfTwo(1, 3)];

const QUAD_TO_FIVE_POINT_ONE: [Output; 6] = [
    Channel(0),
    Channel(1),
    Silence,
    Silence,
    Channel(2),
    Channel(3),
];

// From L, R, C, LFE, SL, SR:
const FIVE_POINT_ONE_TO_MONO: [Output; 1] = [AllSpeakers];

const FIVE_POINT_ONE_TO_STEREO: [Output; 2] = [SideSpeakers(0, 4), SideSpeakers(1, 5)];

const FIVE_POINT_ONE_TO_QUAD: [Output; 4] = [
    FrontSpeakers(0),
    FrontSpeakers(1),
    Channel(4),
    Channel(5),
];

// The output channels where the table has the pair.
fn by_speakers(from: usize, to: usize) -> Option<&'static [Output]>
    ensures { let row = table (layout from) (layout to) in
        MatchOption result (row ≡ None) (λ outputs. IsRow from outputs.now row) }
{
    match (from, to) {
        (1, 2) => Some(&MONO_TO_STEREO),
        (1, 4) => Some(&MONO_TO_QUAD),
        (1, 6) => Some(&MONO_TO_FIVE_POINT_ONE),
        (2, 1) => Some(&STEREO_TO_MONO),
        (2, 4) => Some(&STEREO_TO_QUAD),
        (2, 6) => Some(&STEREO_TO_FIVE_POINT_ONE),
        (4, 1) => Some(&QUAD_TO_MONO),
        (4, 2) => Some(&QUAD_TO_STEREO),
        (4, 6) => Some(&QUAD_TO_FIVE_POINT_ONE),
        (6, 1) => Some(&FIVE_POINT_ONE_TO_MONO),
        (6, 2) => Some(&FIVE_POINT_ONE_TO_STEREO),
        (6, 4) => Some(&FIVE_POINT_ONE_TO_QUAD),
        _ => None,
    }
}

impl Output {
    /// The output channel with this index, where `from` channels are mixed to `to`.
    #[tactic(auto, unfolding(mix_rules::specs::Mixing::form))]
    pub(crate) fn new(interp: Interp, from: usize, to: usize, channel: usize) -> Output
        requires { channel < to }
        ensures form { form_of from result ≡ form interp from to channel }
        ensures needed { needed result ≤ from }
    {
        match interp {
            Interp::Speakers => match by_speakers(from, to) {
                Some(outputs) => outputs[channel],
                None => Output::kept(from, channel),
            },
            Interp::Discrete => Output::kept(from, channel),
        }
    }

    // The input channel with the same index, where there is one.
    fn kept(from: usize, channel: usize) -> Output
        ensures form { (to : ℕ) → channel < to → form_of from result ≡ kept from to channel }
        ensures needed { needed result ≤ from }
    {
        if channel < from {
            Channel(channel)
        } else {
            Silence
        }
    }
}
