ghost use Rattle.std.specs.Prelude.{◌≡◌, ◌<◌, ◌==◌, length, slice_index, option_map, true, false, IsTrue};
ghost use Rattle.serde_json.specs.Find.{as_integer, of_float};
ghost use Rattle.serde_json.specs.Read.{number_of, number_from, float_of};

use fast_float::Numeral;

/// A number of a JSON text.
#[derive(Clone, Copy, Debug, PartialEq)]
pub enum Number {
    /// A whole number without a sign, in 64 bits.
    Unsigned(u64),
    /// A whole number below 0, in 64 bits.
    Negative(i64),
    /// Any other number: the nearest float, which is finite.
    Float(f64),
}

impl Number {
    ghost use Rattle.json_tree.specs.View.{number_view};

    /// The whole number; `None` of a float.
    #[inline]
    pub fn as_i128(&self) -> Option<i128>
        ensures { result ≡ as_integer (number_view self.now) }
    {
        match self {
            Number::Unsigned(n) => Some(i128::from(*n)),
            Number::Negative(n) => Some(i128::from(*n)),
            Number::Float(_) => None,
        }
    }

    // The number that a token of JSON writes; `None` where no float is as large.
    #[inline]
    pub(crate) fn parse(text: &str) -> Option<Number>
        ensures { option_map number_view result ≡ number_of text.now }
    {
        let bytes = text.as_bytes();
        if has_minus(bytes) {
            Number::negative(&Numeral::scan(&bytes[1..]))
        } else {
            Number::unsigned(&Numeral::scan(bytes))
        }
    }

    #[inline]
    fn unsigned(numeral: &Numeral<'_>) -> Option<Number>
        ensures { option_map number_view result ≡ number_from false numeral.now }
    {
        match numeral.to_u64() {
            Some(n) => Some(Number::Unsigned(n)),
            None => Number::nearest(false, numeral),
        }
    }

    #[inline]
    fn negative(numeral: &Numeral<'_>) -> Option<Number>
        ensures { option_map number_view result ≡ number_from true numeral.now }
    {
        if let Some(n) = numeral.to_i64(true) {
            if n < 0 {
                return Some(Number::Negative(n));
            }
        }
        Number::nearest(true, numeral)
    }

    #[inline]
    fn nearest(negative: bool, numeral: &Numeral<'_>) -> Option<Number>
        ensures { option_map number_view result ≡ float_of negative numeral.now }
    {
        let x = numeral.to_float::<f64>(negative);
        if x.is_finite() {
            Some(Number::Float(x))
        } else {
            None
        }
    }
}

#[inline]
fn has_minus(bytes: &[u8]) -> bool
    ensures value { result ≡ (slice_index bytes.now 0 == 45) }
    ensures some { IsTrue result → 0 < length bytes.now }
{
    !bytes.is_empty() && bytes[0] == b'-'
}
