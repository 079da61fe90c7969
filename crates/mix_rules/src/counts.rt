ghost use Rattle.std.specs.Prelude.{◌≡◌};
ghost use Rattle.mix_rules.specs.Counts as spec;

use wa_base::Mode;

/// The number of channels of an input (computedNumberOfChannels), from its node's channelCountMode
/// and channelCount and from the number of channels of each of its connections. An input with no
/// connection carries one silent channel.
///
/// From the section on channel up-mixing and down-mixing.
pub fn count(mode: Mode, channel_count: u32, counts: &[u32]) -> u32
    ensures { result ≡ spec.input_count mode channel_count counts.now }
{
    match mode {
        Mode::Max => greatest(counts),
        Mode::ClampedMax => greatest(counts).min(channel_count),
        Mode::Explicit => channel_count,
    }
}

// The greatest of the numbers, and at least 1.
fn greatest(counts: &[u32]) -> u32
    ensures { result ≡ spec.greatest counts.now }
{
    counts.iter().copied().fold(1, u32::max)
}
