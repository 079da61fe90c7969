ghost use Rattle.std.specs.Prelude.{◌≡◌};
ghost use Rattle.node_table.specs.Delays as spec;

use wa_base::Fix;

const FRACTION_BITS: u32 = 24;

const HALF: i64 = 8_388_608;

/// A time in seconds and units of 2^-24 as whole frames at a rate: the nearest number, and the higher
/// one for a half. A time before 0 has none.
pub fn frames_of(seconds: Fix, rate: u32) -> u64
    ensures { result ≡ spec.frames_of seconds rate }
{
    let product = i64::from(seconds) * i64::from(rate);
    ((product + HALF) >> FRACTION_BITS).max(0).unsigned_abs()
}

/// How many frames a delay (DelayNode) keeps of what comes in, by its longest delay (maxDelayTime, in
/// seconds and units of 2^-24) and the number of frames of a quantum.
pub fn delay_capacity(quantum: u64, longest: Fix, rate: u32) -> u64
    ensures { result ≡ spec.delay_capacity quantum longest rate }
{
    frames_of(longest, rate).max(quantum)
}
