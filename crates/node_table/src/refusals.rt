ghost use Rattle.std.specs.Prelude.{◌≡◌, ◌≤◌, None, length, option_copied};
ghost use Rattle.node_table.specs.Convolutions as convolutions;
ghost use Rattle.node_table.specs.Curves as curves;
ghost use Rattle.node_table.specs.Curves.{IsCurve};
ghost use Rattle.node_table.specs.Filters as filters;
ghost use Rattle.node_table.specs.Filters.{IsFilter};

use wa_base::{Channel, Exc, Feature, Fix};

/// The most coefficients of each list of a filter.
const MAX_COEFFICIENTS: usize = 20;

/// The most samples of a response.
const MAX_RESPONSE: usize = 16_384;

/// How far from 0 a sample of a response can be: 2.0.
const LOUDEST: u32 = 33_554_432;

/// Why an IIR filter (createIIRFilter) is refused: NotSupportedError for a list of no coefficient or
/// of more than 20, then InvalidStateError where all feedforward coefficients are 0, and then where
/// the first feedback coefficient is 0.
pub fn filter_refusal(forward: &[Fix], back: &[Fix]) -> Option<Exc>
    ensures value { result ≡ filters.filter_refusal forward.now back.now }
    ensures accepted { result ≡ None → IsFilter forward.now back.now }
{
    if !is_order(forward) || !is_order(back) {
        return Some(Exc::NotSupported(None));
    }
    if all_zero(forward) || is_zero(back[0]) {
        return Some(Exc::InvalidState);
    }
    None
}

// Whether a list has 1 to 20 coefficients.
fn is_order(coefficients: &[Fix]) -> bool
    ensures { result ≡ filters.is_order coefficients.now }
{
    1 <= coefficients.len() && coefficients.len() <= MAX_COEFFICIENTS
}

// Whether each coefficient is 0.
fn all_zero(coefficients: &[Fix]) -> bool
    ensures { result ≡ filters.all_zero coefficients.now }
{
    coefficients.iter().all(|c| is_zero(*c))
}

fn is_zero(coefficient: Fix) -> bool
    ensures { result ≡ filters.is_zero coefficient }
{
    coefficient == 0
}

/// Why a convolver cannot have a response: NotSupportedError and the feature `long-response` for more
/// than 16,384 samples, then NotSupportedError and the feature `loud-response` where one of them is
/// further from 0 than 2.0. Samples are in units of 2^-24.
pub fn response_refusal(response: &Channel<'_>) -> Option<Exc>
    ensures { result ≡ convolutions.response_refusal response.now }
{
    if response.len() > MAX_RESPONSE {
        return Some(Exc::NotSupported(Some(Feature::LongResponse)));
    }
    if !all_small(response) {
        return Some(Exc::NotSupported(Some(Feature::LoudResponse)));
    }
    None
}

// Whether no sample is further from 0 than 2.0.
fn all_small(response: &Channel<'_>) -> bool
    requires { length response.now ≤ 16384 }
    ensures { result ≡ convolutions.all_small response.now }
{
    for at in 0..response.len() {
        if !is_small(response.get(at)) {
            return false;
        }
    }
    true
}

fn is_small(sample: Fix) -> bool
    ensures { result ≡ convolutions.is_small sample }
{
    sample.unsigned_abs() <= LOUDEST
}

/// Why a shaper's curve, or none, is refused (the attribute `curve` of WaveShaperNode), where one was
/// set before or not: InvalidStateError for fewer than two points, and for a second curve.
pub fn curve_refusal(curve: Option<&[Fix]>, was_set: bool) -> Option<Exc>
    ensures value { result ≡ curves.curve_refusal (option_copied curve.entry) was_set }
    ensures accepted { result ≡ None → IsCurve (option_copied curve.entry) }
{
    match curve {
        Some(points) if points.len() < 2 || was_set => Some(Exc::InvalidState),
        _ => None,
    }
}
