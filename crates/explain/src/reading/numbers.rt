ghost use Rattle.std.specs.Prelude.{◌<◌, ◌^◌, ◌↔◌, IsTrue, decimal, FitsSigned};
ghost use Rattle.std.specs.Fmt.{signed_decimal};
ghost use Rattle.std.specs.Int.{w64};
ghost use Rattle.wa_base.specs.Numbers.{IsFix};
ghost use Rattle.explain.specs.LineReading.{IsReading, IsPlain, IsPlainSigned};

use wa_base::Fix;

/// The number of 64 bits that a word writes.
pub fn number_of(word: &str) -> Option<u64>
    ensures { IsReading (λ n. n < 2 ^ 64) decimal word.now result }
{
    if !is_plain(word) {
        return None;
    }
    word.parse().ok()
}

/// The number of 32 bits that a word writes.
pub fn index_of(word: &str) -> Option<u32>
    ensures { IsReading (λ n. n < 2 ^ 32) decimal word.now result }
{
    if !is_plain(word) {
        return None;
    }
    word.parse().ok()
}

/// The value that a word writes.
pub fn value_of(word: &str) -> Option<i64>
    ensures { IsReading (FitsSigned w64) signed_decimal word.now result }
{
    if !is_plain_signed(word) {
        return None;
    }
    word.parse().ok()
}

/// The cell that a word writes.
pub fn cell_of(word: &str) -> Option<Fix>
    ensures { IsReading IsFix signed_decimal word.now result }
{
    if !is_plain_signed(word) {
        return None;
    }
    word.parse().ok()
}

fn is_plain_signed(word: &str) -> bool
    ensures { IsTrue result ↔ IsPlainSigned word.now }
{
    match word.strip_prefix('-') {
        Some(digits) => is_plain(digits) && digits != "0",
        None => is_plain(word),
    }
}

fn is_plain(word: &str) -> bool
    ensures { IsTrue result ↔ IsPlain word.now }
{
    !word.starts_with('+') && (!word.starts_with('0') || word.len() == 1)
}
