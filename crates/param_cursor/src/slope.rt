ghost use Rattle.std.specs.Prelude.{◌≡◌, pos, ◌+ℤ◌, ◌*ℤ◌, ◌≤ℤ◌, ◌<ℤ◌, ◌*◌, ◌+◌, ◌<◌, ◌≤◌, ◌^◌, ℕ, unsigned_abs, FitsSigned, true};
ghost use Rattle.std.specs.Int.{w32, int_div_euclid};
ghost use Rattle.param_cursor.specs.Rising.{numerator_on, value_on};
ghost use Rattle.param_cursor.specs.Lanes.{IsNarrow, AreLanes};

use crate::lanes::{LANES, Lanes};
use std::marker::Model;
use wa_base::Fix;

const MOST_DIVISOR: u64 = 1 << 30;

const MOST_STEP: u64 = 1 << 26;

// A quotient that rises by the same amount from frame to frame. It is kept as a whole number and a
// remainder, and so is its step: a step is an addition and a comparison, with no division.
#[derive(Drop)]
pub(crate) struct Slope {
    value: i64,
    rest: u64,
    step: i64,
    step_rest: u64,
    divisor: u64,
}

impl Model for Slope {
    ghost use Rattle.param_cursor.specs.Rising.{Rising};
    ghost use Rattle.param_cursor.specs.Slopes.{rising_of, IsReduced};

    ghost Value = { Rising };

    ghost view = { rising_of };

    ghost invariant = { IsReduced };
}

// A quotient, rounded down, and its remainder.
fn divided(numerator: i128, divisor: u64) -> (i64, u64)
    requires some { 1 ≤ divisor }
    requires small { unsigned_abs numerator ≤ 2 ^ 34 * divisor }
    ensures parts { result.0 *ℤ pos divisor +ℤ pos result.1 ≡ numerator }
    ensures rest { result.1 < divisor }
{
    match (i64::try_from(numerator), i64::try_from(divisor)) {
        (Ok(numerator), Ok(divisor)) => divided_in_64_bits(numerator, divisor),
        _ => divided_in_128_bits(numerator, divisor),
    }
}

fn divided_in_64_bits(numerator: i64, divisor: i64) -> (i64, u64)
    requires { pos 1 ≤ℤ divisor }
    ensures parts { result.0 *ℤ divisor +ℤ pos result.1 ≡ numerator }
    ensures rest { pos result.1 <ℤ divisor }
{
    let quotient = numerator.div_euclid(divisor);
    let rest = numerator.rem_euclid(divisor);
    (quotient, rest as u64)
}

fn divided_in_128_bits(numerator: i128, divisor: u64) -> (i64, u64)
    requires some { 1 ≤ divisor }
    requires small { unsigned_abs numerator ≤ 2 ^ 34 * divisor }
    ensures parts { result.0 *ℤ pos divisor +ℤ pos result.1 ≡ numerator }
    ensures rest { result.1 < divisor }
{
    let quotient = numerator.div_euclid(divisor as i128);
    let rest = numerator - quotient * divisor as i128;
    (quotient as i64, rest as u64)
}

// The whole number and the remainder that lead from one quotient to another over the same divisor.
fn way(from: (i64, u64), to: (i64, u64), divisor: u64) -> (i64, u64)
    requires from { from.1 < divisor }
    requires to { to.1 < divisor }
    requires small { unsigned_abs from.0 ≤ 2 ^ 34 }
    requires near { unsigned_abs to.0 ≤ 2 ^ 35 }
    ensures parts { (from.0 *ℤ pos divisor +ℤ pos from.1) +ℤ (result.0 *ℤ pos divisor +ℤ pos result.1) ≡ to.0 *ℤ pos divisor +ℤ pos to.1 }
    ensures rest { result.1 < divisor }
{
    let whole = to.0 - from.0;
    if from.1 <= to.1 {
        (whole, to.1 - from.1)
    } else {
        (whole - 1, to.1 + (divisor - from.1))
    }
}

impl Slope {
    // A numerator over a divisor, where the numerator rises by a step.
    pub(crate) fn new(numerator: i128, step: i128, divisor: u64) -> Slope
        requires some { 1 ≤ divisor }
        requires numerator { unsigned_abs numerator ≤ 2 ^ 34 * divisor }
        requires step { unsigned_abs step ≤ 2 ^ 34 * divisor }
        ensures { result ≡ record { numerator = numerator; step = step; divisor = divisor } }
    {
        let (value, rest) = divided(numerator, divisor);
        let (step, step_rest) = divided(step, divisor);
        Slope {
            value,
            rest,
            step,
            step_rest,
            divisor,
        }
    }

    // The quotient, rounded down.
    pub(crate) fn value(&self) -> i64
        ensures { result ≡ int_div_euclid self.now.numerator (pos self.now.divisor) }
    {
        self.value
    }

    // The quotient, rounded down, and its remainder.
    fn parts(&self) -> (i64, u64)
        ensures parts { result.0 *ℤ pos self.now.divisor +ℤ pos result.1 ≡ self.now.numerator }
        ensures rest { result.1 < self.now.divisor }
    {
        (self.value, self.rest)
    }

    // Whether the divisor and each step fit 32 bits.
    pub(crate) fn is_narrow(&self) -> bool
        ensures { result ≡ true → IsNarrow self.now }
    {
        self.divisor <= MOST_DIVISOR && self.step.unsigned_abs() <= MOST_STEP
    }

    // The values of the next LANES frames of a slope that begins at a value.
    pub(crate) fn lanes(&self, base: Fix) -> Lanes
        requires narrow { IsNarrow self.now }
        requires small { (i : ℕ) → i < 8 → unsigned_abs (numerator_on self.now i) ≤ 2 ^ 34 * self.now.divisor }
        requires fits { (i : ℕ) → i < 8 → FitsSigned w32 (value_on base self.now i) }
        ensures { AreLanes result (base *ℤ pos self.now.divisor +ℤ self.now.numerator) self.now.step self.now.divisor }
    {
        let mut values = [0; LANES];
        let mut rests = [0; LANES];
        let mut on = Slope {
            value: self.value,
            rest: self.rest,
            step: self.step,
            step_rest: self.step_rest,
            divisor: self.divisor,
        };
        for i in 0..LANES {
            let (value, rest) = on.parts();
            values[i] = (i64::from(base) + value) as i32;
            rests[i] = rest as i32;
            on.advance();
        }
        let (whole, part) = way(self.parts(), on.parts(), self.divisor);
        Lanes {
            values,
            rests,
            whole: whole as i32,
            part: part as i32,
            divisor: self.divisor as i32,
        }
    }

    // Goes one step on.
    pub(crate) fn advance(&mut self)
        requires numerator { unsigned_abs self.old.numerator ≤ 2 ^ 34 * self.old.divisor }
        requires step { unsigned_abs self.old.step ≤ 2 ^ 34 * self.old.divisor }
        ensures { self.new ≡ record self.old { numerator = self.old.numerator +ℤ self.old.step } }
    {
        self.raise(self.step, self.step_rest);
    }

    // Raises the quotient by a whole number and a remainder.
    fn raise(&mut self, whole: i64, rest: u64)
        requires rest { rest < self.old.divisor }
        requires numerator { unsigned_abs self.old.numerator ≤ 2 ^ 34 * self.old.divisor }
        requires whole { unsigned_abs whole ≤ 2 ^ 34 }
        ensures { self.new ≡ record self.old { numerator = self.old.numerator +ℤ (whole *ℤ pos self.old.divisor +ℤ pos rest) } }
    {
        let room = self.divisor - rest;
        self.value = self.value + whole;
        if self.rest < room {
            self.rest = self.rest + rest;
        } else {
            self.value = self.value + 1;
            self.rest = self.rest - room;
        }
    }
}
