ghost use Rattle.std.specs.Prelude.{◌≡◌, ◌≤◌, ◌^◌, unsigned_abs, if◌then◌else◌, IfSome, OnSome, IsTrue};
ghost use Rattle.std.specs.Str.Parse.{digits_value};
ghost use Rattle.script_fields.specs.Seconds as spec;
ghost use Rattle.script_fields.specs.Seconds.{are_digits};

use wa_base::rnd_div;

/// A number without a sign: what its digits spell, and how many of them stand behind the point.
#[derive(Clone, Copy)]
pub struct Decimal {
    pub units: u64,
    pub places: u32,
}

const MAX_WHOLE: usize = 10;

const MAX_PLACES: usize = 9;

/// The number of frames of a text of seconds, at a rate in frames a second; `None` where the text is none.
#[tactic(auto, unfolding(crate::specs::Seconds::frames_of_seconds))]
pub fn frames_of_seconds(rate: u32, text: &str) -> Option<i128>
    ensures { result ≡ spec.frames_of_seconds rate text.now }
{
    match text.strip_prefix('-') {
        Some(unsigned) => {
            let seconds = decimal_of(unsigned)?;
            Some(frames_at(rate, -i128::from(seconds.units), seconds.places))
        }
        None => {
            let seconds = decimal_of(text)?;
            Some(frames_at(rate, i128::from(seconds.units), seconds.places))
        }
    }
}

fn frames_at(rate: u32, units: i128, places: u32) -> i128
    requires size { unsigned_abs units ≤ 2 ^ 64 }
    requires few { places ≤ 9 }
    ensures { result ≡ spec.frames_at rate units places }
{
    rnd_div(units * i128::from(rate), i128::from(10_u64.pow(places)))
}

fn decimal_of(text: &str) -> Option<Decimal>
    ensures value { result ≡ spec.decimal_of text.now }
    ensures few { IfSome result (λ decimal. decimal.places ≤ 9) }
{
    match text.split_once('.') {
        Some((whole, fraction)) => {
            let units = digits_in(whole, MAX_WHOLE)?;
            let parts = digits_in(fraction, MAX_PLACES)?;
            let places = fraction.len() as u32;
            Some(Decimal {
                units: units * 10_u64.pow(places) + parts,
                places,
            })
        }
        None => Some(Decimal {
            units: digits_in(text, MAX_WHOLE)?,
            places: 0,
        }),
    }
}

// The number that 1 to `most` decimal digits spell.
fn digits_in(text: &str, most: usize) -> Option<u64>
    requires { most ≤ 10 }
    ensures value { result ≡ (if are_digits most text.now then Some (digits_value 10 text.now) else None) }
    ensures digits { OnSome result (IsTrue (are_digits most text.now)) }
{
    if text.len() > most || text.starts_with('+') {
        None
    } else {
        text.parse().ok()
    }
}
