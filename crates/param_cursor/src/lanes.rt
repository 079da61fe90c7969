ghost use Rattle.std.specs.Prelude.{◌≡◌, ℤ, ℕ, pos, ◌+ℤ◌, ◌-ℤ◌, ◌*ℤ◌, ◌≤ℤ◌, ◌<ℤ◌, ◌<◌, ◌^◌, length, slice_index_or};
ghost use Rattle.std.specs.Int.{w32, int_wrap};
ghost use Rattle.param_cursor.specs.Lanes.{IsRest, AreLanes};

use wa_base::Fix;

// So many frames are drawn at once.
pub(crate) const LANES: usize = 8;

// The remainders over the divisor of LANES frames side by side, their values, and how far that many
// frames lead. The values wrap: behind the last frame of a line they need not fit.
#[derive(Drop)]
pub(crate) struct Lanes {
    pub(crate) rests: [i32; LANES],
    pub(crate) values: [Fix; LANES],
    pub(crate) whole: i32,
    pub(crate) part: i32,
    pub(crate) divisor: i32,
}

// A value and its remainder, raised by others. `above` is one more than what raises the value.
fn raised(value: i32, rest: i32, above: i32, part: i32, divisor: i32) -> (i32, i32)
    requires rest { IsRest rest divisor }
    requires part { IsRest part divisor }
    requires divisor { divisor ≤ℤ pos (2 ^ 30) }
    ensures below { (rest +ℤ part) <ℤ divisor → (result.0 ≡ int_wrap w32 (value +ℤ above -ℤ pos 1)) × (result.1 ≡ rest +ℤ part) }
    ensures over { divisor ≤ℤ (rest +ℤ part) → (result.0 ≡ int_wrap w32 (value +ℤ above)) × (result.1 ≡ rest +ℤ part -ℤ divisor) }
{
    let sum = value.wrapping_add(above);
    let both = rest + part;
    if both < divisor {
        (sum.wrapping_sub(1), both)
    } else {
        (sum, both - divisor)
    }
}

impl Lanes {
    // Writes the values.
    pub(crate) fn write(&self, out: &mut [Fix])
        requires { length out.old ≡ 8 }
        ensures length { length out.new ≡ 8 }
        ensures values { (i : ℕ) → i < 8 → slice_index_or out.new i (pos 0) ≡ slice_index_or self.now.values i (pos 0) }
    {
        for i in 0..LANES {
            out[i] = self.values[i];
        }
    }

    // Goes LANES frames on.
    pub(crate) fn advance(&mut self)
        requires { (start : ℤ) × (step : ℤ) × (divisor : ℕ) × AreLanes self.old start step divisor }
        ensures { (start step : ℤ) → (divisor : ℕ) → AreLanes self.old start step divisor → AreLanes self.new (start +ℤ step *ℤ pos 8) step divisor }
    {
        let above = self.whole.wrapping_add(1);
        let mut values = [0; LANES];
        let mut rests = [0; LANES];
        for i in 0..LANES {
            (values[i], rests[i]) = raised(
                self.values[i],
                self.rests[i],
                above,
                self.part,
                self.divisor,
            );
        }
        self.values = values;
        self.rests = rests;
    }
}
