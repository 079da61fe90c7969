ghost use Rattle.std.specs.Prelude.{◌≡◌, ◌^◌, ◌+ℤ◌, length, All};
ghost use Rattle.lane_kern.specs.Blocks.{IsWithin};
ghost use Rattle.channel_mix.specs.Adding.{Adds};
ghost use Rattle.channel_mix.specs.Sums.{AreLong, four_at};

use wa_base::Fix;

/// What four connections carry, each with a value for each frame of each channel, channel after channel.
#[derive(Clone, Copy)]
pub struct Four<'a> {
    pub first: &'a [Fix],
    pub second: &'a [Fix],
    pub third: &'a [Fix],
    pub fourth: &'a [Fix],
}

// Adds four values to each sum.
pub(crate) fn add_four(sums: &mut [i64], four: Four<'_>)
    requires four { AreLong (length sums.old) four }
    requires room { All (IsWithin (2 ^ 47)) sums.old }
    ensures { Adds (four_at four.entry) sums.old sums.new }
{
    for (k, sum) in sums.iter_mut().enumerate() {
        *sum += sum_of(four.first[k], four.second[k], four.third[k], four.fourth[k]);
    }
}

// The exact sum of four values.
fn sum_of(first: Fix, second: Fix, third: Fix, fourth: Fix) -> i64
    ensures value { result ≡ (first +ℤ second) +ℤ (third +ℤ fourth) }
    ensures small { IsWithin (2 ^ 34) result }
{
    sum_of_two(first, second) + sum_of_two(third, fourth)
}

fn sum_of_two(one: Fix, other: Fix) -> i64
    ensures value { result ≡ one +ℤ other }
    ensures small { IsWithin (2 ^ 32) result }
{
    i64::from(one) + i64::from(other)
}
