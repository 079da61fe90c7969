ghost use Rattle.std.specs.Prelude.{◌≡◌, option_and_then, option_map, is_some};
ghost use Rattle.std.specs.List.{list_all};
ghost use Rattle.serde_json.specs.Find.{as_array};
ghost use Rattle.json_tree.specs.View.{view, items_view};
ghost use Rattle.script_ast.specs.Ranges.{is_name_byte, has_name_length, has_name_bytes, is_new_name, is_path};
ghost use Rattle.script_fields.specs.Values.{whole, wholes, is_fix, frames, cause_of, number_cause, fixes_cause, text_cause, word_cause, kind_cause, fixes_or_null_cause};

use crate::instructions::code_cause;
use crate::seconds::frames_of_seconds;
use json_tree::{Number, Value};
use script_ast::{Clock, Kind, interp_named, mode_named, oversample_named, rate_named};

/// Why a value is not taken for a field.
#[derive(Clone, Copy, PartialEq, Eq)]
pub enum Cause {
    WrongKind,
    OutOfRange,
}

/// The least Fix.
pub const MIN_FIX: i64 = -2_147_483_648;
/// The greatest Fix.
pub const MAX_FIX: i64 = 2_147_483_647;
/// The least number of frames.
pub const MIN_TIME: i64 = -1_099_511_627_776;
/// The greatest number of frames.
pub const MAX_TIME: i64 = 1_099_511_627_776;
/// The greatest count.
pub const MAX_COUNT: i64 = 4_294_967_295;

const MAX_NAME: usize = 64;

const MAX_PATH: usize = 255;

/// The whole number that a value is: none with a fraction or an exponent, past 64 bits, or `-0`.
pub fn whole(value: &Value<'_>) -> Option<i128>
    ensures { result ≡ whole (view value.now) }
{
    value.as_number().and_then(Number::as_i128)
}

/// The number of frames that a value stands for on a clock: a whole number, or a text of seconds.
pub fn frames(clock: Clock, value: &Value<'_>) -> Option<i128>
    ensures { result ≡ frames clock (view value.now) }
{
    match clock {
        Clock::Frames => whole(value),
        Clock::Seconds { rate } => frames_of_seconds(rate, value.as_str()?),
    }
}

/// Why a value may not stand in a field of this kind, with times on this clock; `None` where it may.
pub fn cause_of(clock: Clock, kind: Kind, value: &Value<'_>) -> Option<Cause>
    ensures { result ≡ cause_of clock kind (view value.now) }
{
    match kind {
        Kind::Fix => number_cause(whole(value), MIN_FIX, MAX_FIX),
        Kind::Time => number_cause(frames(clock, value), MIN_TIME, MAX_TIME),
        Kind::Count => number_cause(whole(value), 0, MAX_COUNT),
        Kind::Version => number_cause(whole(value), 1, 2),
        Kind::Name => kind_cause(value.as_str().is_some()),
        Kind::NameOrNull => kind_cause(value.as_str().is_some() || value.is_null()),
        Kind::NewName => text_cause(value.as_str().map(|name| is_new_name(name))),
        Kind::Flag => kind_cause(value.as_bool().is_some()),
        Kind::Fixes => fixes_cause(value),
        Kind::FixesOrNull => fixes_or_null_cause(value),
        Kind::Path => text_cause(value.as_str().map(|path| is_path(path))),
        Kind::Code => code_cause(value),
        Kind::Mode => word_cause(value.as_str().map(|word| mode_named(word))),
        Kind::Interp => word_cause(value.as_str().map(|word| interp_named(word))),
        Kind::Rate => word_cause(value.as_str().map(|word| rate_named(word))),
        Kind::Oversample => word_cause(value.as_str().map(|word| oversample_named(word))),
        Kind::Calls => kind_cause(value.is_array()),
        Kind::Object => kind_cause(value.is_object()),
    }
}

fn kind_cause(holds: bool) -> Option<Cause>
    ensures { result ≡ kind_cause holds }
{
    if holds { None } else { Some(Cause::WrongKind) }
}

fn number_cause(number: Option<i128>, low: i64, high: i64) -> Option<Cause>
    ensures { result ≡ number_cause low high number }
{
    match number {
        None => Some(Cause::WrongKind),
        Some(number) => {
            if i128::from(low) <= number && number <= i128::from(high) {
                None
            } else {
                Some(Cause::OutOfRange)
            }
        }
    }
}

// An item that is no whole number comes before one that is out of range.
fn fixes_cause(value: &Value<'_>) -> Option<Cause>
    ensures { result ≡ fixes_cause (option_map wholes (as_array (view value.now))) }
{
    let Some(list) = value.as_array() else {
        return Some(Cause::WrongKind);
    };
    if !are_whole(list) {
        return Some(Cause::WrongKind);
    }
    if !are_fixes(list) {
        return Some(Cause::OutOfRange);
    }
    None
}

fn fixes_or_null_cause(value: &Value<'_>) -> Option<Cause>
    ensures { result ≡ fixes_or_null_cause (view value.now) }
{
    if value.is_null() {
        return None;
    }
    fixes_cause(value)
}

fn are_whole(list: &[Value<'_>]) -> bool
    ensures { result ≡ list_all is_some (wholes (items_view list.now)) }
{
    list.iter().all(|item| whole(item).is_some())
}

fn are_fixes(list: &[Value<'_>]) -> bool
    ensures { result ≡ list_all is_fix (wholes (items_view list.now)) }
{
    list.iter().all(|item| is_fix(whole(item)))
}

fn is_fix(number: Option<i128>) -> bool
    ensures { result ≡ is_fix number }
{
    match number {
        Some(number) => i128::from(MIN_FIX) <= number && number <= i128::from(MAX_FIX),
        None => false,
    }
}

fn text_cause(holds: Option<bool>) -> Option<Cause>
    ensures { result ≡ text_cause holds }
{
    match holds {
        None => Some(Cause::WrongKind),
        Some(true) => None,
        Some(false) => Some(Cause::OutOfRange),
    }
}

fn word_cause<T: Copy>(named: Option<Option<T>>) -> Option<Cause>
    ensures { result ≡ word_cause named }
{
    match named {
        None => Some(Cause::WrongKind),
        Some(None) => Some(Cause::OutOfRange),
        Some(Some(_)) => None,
    }
}

// Whether an object may be given the name.
#[tactic(auto, unfolding(script_ast::specs::Ranges::is_new_name))]
fn is_new_name(name: &str) -> bool
    ensures { result ≡ is_new_name name.now }
{
    has_name_length(name) && has_name_bytes(name) && name != "destination"
}

// Whether a file may have the path.
fn is_path(path: &str) -> bool
    ensures { result ≡ is_path path.now }
{
    1 <= path.len() && path.len() <= MAX_PATH
}

fn has_name_length(name: &str) -> bool
    ensures { result ≡ has_name_length name.now }
{
    1 <= name.len() && name.len() <= MAX_NAME
}

fn has_name_bytes(name: &str) -> bool
    ensures { result ≡ has_name_bytes name.now }
{
    name.as_bytes().iter().all(|c| is_name_byte(*c))
}

fn is_name_byte(c: u8) -> bool
    ensures { result ≡ is_name_byte c }
{
    c.is_ascii_alphanumeric() || c == b'_' || c == b'-'
}
