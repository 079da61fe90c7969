ghost use Rattle.std.specs.Prelude.{◌≡◌, ◌<◌, ◌≤◌, ℕ, ℤ, MatchOption, None};
ghost use Rattle.mix_rules.specs.Mixing.{form, kept, layout, mix, table};
ghost use Rattle.delay_line.specs.Sources.{repeated, picked, needed, IsRow};

use wa_base::Interp;

// Which channel each channel repeats where channels are mixed up; the others are silent. From M:
const MONO_TO_STEREO: [Option<usize>; 2] = [Some(0), Some(0)];

const MONO_TO_QUAD: [Option<usize>; 4] = [Some(0), Some(0), None, None];

const MONO_TO_FIVE_POINT_ONE: [Option<usize>; 6] = [None, None, Some(0), None, None, None];

// From L, R:
const STEREO_TO_QUAD: [Option<usize>; 4] = [Some(0), Some(1), None, None];

const STEREO_TO_FIVE_POINT_ONE: [Option<usize>; 6] = [Some(0), Some(1), None, None, None, None];

// From L, R, SL, SR:
const QUAD_TO_FIVE_POINT_ONE: [Option<usize>; 6] = [Some(0), Some(1), None, None, Some(2), Some(3)];

// The channel of a frame that a channel repeats, where the frame is mixed to no fewer channels.
pub(crate) fn source_of(interp: Interp, from: usize, to: usize, channel: usize) -> Option<usize>
    requires up { from ≤ to }
    requires channel { channel < to }
    ensures value { (frame : ℕ → ℤ) → mix interp from to frame channel ≡ picked frame result }
    ensures needed { needed result ≤ from }
{
    form_source(interp, from, to, channel)
}

// The same by its linear form.
#[tactic(auto, unfolding(mix_rules::specs::Mixing::form))]
fn form_source(interp: Interp, from: usize, to: usize, channel: usize) -> Option<usize>
    requires up { from ≤ to }
    requires channel { channel < to }
    ensures form { repeated from result ≡ form interp from to channel }
    ensures needed { needed result ≤ from }
{
    match interp {
        Interp::Speakers => match by_speakers(from, to) {
            Some(sources) => sources[channel],
            None => same_place(from, channel),
        },
        Interp::Discrete => same_place(from, channel),
    }
}

// The channels where the table of mixing has the pair.
fn by_speakers(from: usize, to: usize) -> Option<&'static [Option<usize>]>
    requires { from ≤ to }
    ensures { let row = table (layout from) (layout to) in
        MatchOption result (row ≡ None) (λ sources. IsRow from sources.now row) }
{
    match (from, to) {
        (1, 2) => Some(&MONO_TO_STEREO),
        (1, 4) => Some(&MONO_TO_QUAD),
        (1, 6) => Some(&MONO_TO_FIVE_POINT_ONE),
        (2, 4) => Some(&STEREO_TO_QUAD),
        (2, 6) => Some(&STEREO_TO_FIVE_POINT_ONE),
        (4, 6) => Some(&QUAD_TO_FIVE_POINT_ONE),
        _ => None,
    }
}

// The channel with the same index, where there is one.
fn same_place(from: usize, channel: usize) -> Option<usize>
    ensures form { (to : ℕ) → channel < to → repeated from result ≡ kept from to channel }
    ensures needed { needed result ≤ from }
{
    if channel < from { Some(channel) } else { None }
}
