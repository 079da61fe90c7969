ghost use Rattle.std.specs.Prelude.{◌≡◌, ◌≤◌, ◌+◌, ◌*◌, ◌^◌, ◌+ℤ◌, pos, length, take, drop, All};
ghost use Rattle.wa_base.specs.Numbers.{rnd};
ghost use Rattle.lane_kern.specs.Blocks.{at, IsWithin};
ghost use Rattle.channel_mix.specs.Adding.{Adds};
ghost use Rattle.mix_rules.specs.Mixing.{one};
ghost use Rattle.channel_mix.specs.Outputs.{all_speakers, side_speakers, front_speakers};

use lane_kern::add_into;

const FRACTION_BITS: u32 = 24;

// The factors one, the square root of one half, and one half, in units of 2^-24.
const ONE: i64 = 16_777_216;

const ROOT_HALF: i64 = 11_863_283;

const HALF: i64 = 8_388_608;

/// Adds each sample to the sum at its frame.
pub(crate) fn add_channel(sums: &mut [i64], samples: &[i32])
    requires samples { length samples.now ≡ length sums.old }
    requires room { All (IsWithin (2 ^ 47)) sums.old }
    ensures { Adds (at samples.now) sums.old sums.new }
{
    add_into(sums, samples);
}

/// Adds half of two channels to the sums, rounded at each frame.
pub(crate) fn add_halves(sums: &mut [i64], left: &[i32], right: &[i32])
    requires left { length left.now ≡ length sums.old }
    requires right { length right.now ≡ length sums.old }
    requires room { All (IsWithin (2 ^ 47)) sums.old }
    ensures { Adds (λ k. rnd (at left.now k +ℤ at right.now k) (pos 2)) sums.old sums.new }
{
    for (k, sum) in sums.iter_mut().enumerate() {
        *sum += half_of(left[k], right[k]);
    }
}

/// Adds a quarter of four channels to the sums, rounded at each frame.
pub(crate) fn add_quarters(sums: &mut [i64], l: &[i32], r: &[i32], sl: &[i32], sr: &[i32])
    requires l { length l.now ≡ length sums.old }
    requires r { length r.now ≡ length sums.old }
    requires sl { length sl.now ≡ length sums.old }
    requires sr { length sr.now ≡ length sums.old }
    requires room { All (IsWithin (2 ^ 47)) sums.old }
    ensures { Adds (λ k. rnd ((at l.now k +ℤ at r.now k) +ℤ (at sl.now k +ℤ at sr.now k)) (pos 4)) sums.old sums.new }
{
    for (k, sum) in sums.iter_mut().enumerate() {
        *sum += quarter_of(l[k], r[k], sl[k], sr[k]);
    }
}

/// Adds K (L + R) + C + (SL + SR) / 2 to the sums, rounded at each frame, where K is the square root of
/// one half.
pub(crate) fn add_all_speakers(
    sums: &mut [i64],
    l: &[i32],
    r: &[i32],
    c: &[i32],
    sl: &[i32],
    sr: &[i32],
)
    requires l { length l.now ≡ length sums.old }
    requires r { length r.now ≡ length sums.old }
    requires c { length c.now ≡ length sums.old }
    requires sl { length sl.now ≡ length sums.old }
    requires sr { length sr.now ≡ length sums.old }
    requires room { All (IsWithin (2 ^ 47)) sums.old }
    ensures { Adds (λ k. rnd (all_speakers (at l.now k) (at r.now k) (at c.now k) (at sl.now k) (at sr.now k)) one) sums.old sums.new }
{
    for (k, sum) in sums.iter_mut().enumerate() {
        *sum += all_speakers_of(l[k], r[k], c[k], sl[k], sr[k]);
    }
}

/// Adds F + K (C + S) to the sums, rounded at each frame, where F is the channel in front, S is the
/// surround channel and K is the square root of one half.
pub(crate) fn add_side_speakers(sums: &mut [i64], front: &[i32], centre: &[i32], surround: &[i32])
    requires front { length front.now ≡ length sums.old }
    requires centre { length centre.now ≡ length sums.old }
    requires surround { length surround.now ≡ length sums.old }
    requires room { All (IsWithin (2 ^ 47)) sums.old }
    ensures { Adds (λ k. rnd (side_speakers (at front.now k) (at centre.now k) (at surround.now k)) one) sums.old sums.new }
{
    for (k, sum) in sums.iter_mut().enumerate() {
        *sum += side_speakers_of(front[k], centre[k], surround[k]);
    }
}

/// Adds F + K C to the sums, rounded at each frame, where F is the channel in front and K is the square
/// root of one half.
pub(crate) fn add_front_speakers(sums: &mut [i64], front: &[i32], centre: &[i32])
    requires front { length front.now ≡ length sums.old }
    requires centre { length centre.now ≡ length sums.old }
    requires room { All (IsWithin (2 ^ 47)) sums.old }
    ensures { Adds (λ k. rnd (front_speakers (at front.now k) (at centre.now k)) one) sums.old sums.new }
{
    for (k, sum) in sums.iter_mut().enumerate() {
        *sum += front_speakers_of(front[k], centre[k]);
    }
}

/// The frames of one channel.
pub(crate) fn channel_of(src: &[i32], frames: usize, channel: usize) -> &[i32]
    requires { channel * frames + frames ≤ length src.now }
    ensures value { result.now ≡ take frames (drop (channel * frames) src.now) }
    ensures length { length result.now ≡ frames }
{
    let first = channel * frames;
    &src[first..first + frames]
}

// Half of the sum, rounded.
fn half_of(x: i32, y: i32) -> i64
    ensures value { result ≡ rnd (x +ℤ y) (pos 2) }
    ensures small { IsWithin (2 ^ 34) result }
{
    (sum_of(x, y) + 1) >> 1
}

// A quarter of the sum, rounded.
fn quarter_of(x: i32, y: i32, z: i32, w: i32) -> i64
    ensures value { result ≡ rnd ((x +ℤ y) +ℤ (z +ℤ w)) (pos 4) }
    ensures small { IsWithin (2 ^ 34) result }
{
    (sum_of(x, y) + sum_of(z, w) + 2) >> 2
}

// The exact sum.
fn sum_of(x: i32, y: i32) -> i64
    ensures value { result ≡ x +ℤ y }
    ensures small { IsWithin (2 ^ 32) result }
{
    i64::from(x) + i64::from(y)
}

// K (L + R) + C + (SL + SR) / 2, rounded.
fn all_speakers_of(l: i32, r: i32, c: i32, sl: i32, sr: i32) -> i64
    ensures value { result ≡ rnd (all_speakers l r c sl sr) one }
    ensures small { IsWithin (2 ^ 34) result }
{
    rounded(ROOT_HALF * sum_of(l, r) + ONE * i64::from(c) + HALF * sum_of(sl, sr))
}

// F + K (C + S), rounded.
fn side_speakers_of(front: i32, centre: i32, surround: i32) -> i64
    ensures value { result ≡ rnd (side_speakers front centre surround) one }
    ensures small { IsWithin (2 ^ 34) result }
{
    rounded(ONE * i64::from(front) + ROOT_HALF * sum_of(centre, surround))
}

// F + K C, rounded.
fn front_speakers_of(front: i32, centre: i32) -> i64
    ensures value { result ≡ rnd (front_speakers front centre) one }
    ensures small { IsWithin (2 ^ 34) result }
{
    rounded(ONE * i64::from(front) + ROOT_HALF * i64::from(centre))
}

// A sum of samples times factors, divided by the factor one and rounded.
fn rounded(sum: i64) -> i64
    requires { IsWithin (2 ^ 57) sum }
    ensures value { result ≡ rnd sum one }
    ensures small { IsWithin (2 ^ 34) result }
{
    (sum + HALF) >> FRACTION_BITS
}
