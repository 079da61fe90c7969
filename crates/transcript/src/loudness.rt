ghost use Rattle.std.specs.Prelude.{◌≡◌, ◌≤◌, length};
ghost use Rattle.transcript.specs.Loudness.{loudness_of};

use wa_base::Fix;

/// How loud samples are, each `v` of which stands for v / 2^24.
#[derive(Clone, Copy, Debug, PartialEq, Eq)]
pub struct Loudness {
    /// The greatest absolute value.
    pub peak: u32,
    /// The sum of all values.
    pub sum: i64,
}

impl Loudness {
    /// The loudness of samples, of which no context has more.
    pub fn of(samples: &[Fix]) -> Loudness
        requires { length samples.now ≤ 67108864 }
        ensures { result ≡ loudness_of samples.now }
    {
        let mut peak = 0;
        let mut sum = 0;
        for sample in samples {
            peak = sample.unsigned_abs().max(peak);
            sum += i64::from(*sample);
        }
        Loudness { peak, sum }
    }
}
