ghost use Rattle.std.specs.Prelude.{◌≡◌, [], Some, IfOk, MatchOption, option_map};
ghost use Rattle.json_tree.specs.View.{view, items_view};
ghost use Rattle.script_ast.specs.Fallbacks.{fallback_in};
ghost use Rattle.script_fields.specs.Fields.{member_at, member_faults, field_faults, fields_faults, default_number, default_flag, default_oversample, number_in, fix_in, time_in, time_or_null_in, count_in, flag_in, list_in, fix_of, fixes_of, fixes_in, fixes_or_null_in, code_in, count_or_null_in, is_there, lack_faults, is_needed, takes_null, given_number, number_within};
ghost use Rattle.script_fields.specs.Instructions.{code_of};
ghost use Rattle.script_fields.specs.Outcome.{outcome};
ghost use Rattle.script_fields.specs.Values.{whole, frames};

use crate::faults::ScriptErr;
use crate::instructions::instr_or_in;
use crate::values::{
    Cause, MAX_COUNT, MAX_FIX, MAX_TIME, MIN_FIX, MIN_TIME, cause_of, frames, whole,
};
use json_tree::Value;
use node_table::{Code, Instr};
use script_ast::{Clock, Fallback, Field, Oversample, Row, fallback_in};
use std::alloc::Global;
use wa_base::{Fix, NoMemory, Samples};

/// The member with the field's name.
pub fn member<'v, 'a>(object: &'v Value<'a>, field: Field) -> Option<&'v Value<'a>>
    ensures { option_map (λ value. view value.now) result ≡ member_at field (view object.now) }
{
    object.get(field.word())
}

/// Whether the member is there, where null counts as absent.
pub fn is_there(object: &Value<'_>, field: Field) -> bool
    ensures { result ≡ is_there field (view object.now) }
{
    member(object, field).is_some_and(|value| !value.is_null())
}

/// The fault of a member that has to be there, where null counts as absent.
pub fn check_there(ordinal: u32, object: &Value<'_>, field: Field) -> Result<(), ScriptErr>
    ensures { result ≡ outcome (lack_faults ordinal (view object.now) field) tt }
{
    if is_there(object, field) {
        Ok(())
    } else {
        Err(ScriptErr::MissingField(ordinal, field))
    }
}

/// The first fault of the members of an object that the rows name, in their order.
pub fn check_fields(
    clock: Clock,
    ordinal: u32,
    object: &Value<'_>,
    rows: &[Row],
) -> Result<(), ScriptErr>
    ensures { result ≡ outcome (fields_faults clock ordinal (view object.now) rows.now) tt }
{
    for row in rows {
        check_field(clock, ordinal, object, *row)?;
    }
    Ok(())
}

fn check_field(clock: Clock, ordinal: u32, object: &Value<'_>, row: Row) -> Result<(), ScriptErr>
    ensures { result ≡ outcome (field_faults clock ordinal (view object.now) row) tt }
{
    match member(object, row.field) {
        None => {
            if is_needed(row.fallback) {
                return Err(ScriptErr::MissingField(ordinal, row.field));
            }
            Ok(())
        }
        Some(value) => check_value(clock, ordinal, value, row),
    }
}

fn check_value(clock: Clock, ordinal: u32, value: &Value<'_>, row: Row) -> Result<(), ScriptErr>
    ensures { result ≡ outcome (member_faults clock ordinal row (Some (view value.now))) tt }
{
    if takes_null(row.fallback) && value.is_null() {
        return Ok(());
    }
    match cause_of(clock, row.kind, value) {
        None => Ok(()),
        Some(Cause::WrongKind) => Err(ScriptErr::WrongKind(ordinal, row.field)),
        Some(Cause::OutOfRange) => Err(ScriptErr::OutOfRange(ordinal, row.field)),
    }
}

fn is_needed(fallback: Fallback) -> bool
    ensures { result ≡ is_needed fallback }
{
    matches!(fallback, Fallback::Needed)
}

fn takes_null(fallback: Fallback) -> bool
    ensures { result ≡ takes_null fallback }
{
    matches!(fallback, Fallback::Null)
}

fn default_number(fallback: Fallback) -> Option<i128>
    ensures { result ≡ default_number fallback }
{
    match fallback {
        Fallback::Number(number) => Some(i128::from(number)),
        Fallback::Count(count) => Some(i128::from(count)),
        _ => None,
    }
}

fn default_flag(fallback: Fallback) -> bool
    ensures { result ≡ default_flag fallback }
{
    match fallback {
        Fallback::Flag(flag) => flag,
        _ => false,
    }
}

// The default that is an oversampling.
pub(crate) fn default_oversample(fallback: Fallback) -> Oversample
    ensures { result ≡ default_oversample fallback }
{
    match fallback {
        Fallback::Oversample(oversample) => oversample,
        _ => Oversample::Off,
    }
}

fn given_number(fallback: Fallback, number: Option<Option<i128>>) -> Option<i128>
    ensures { result ≡ given_number fallback number }
{
    match number {
        None => default_number(fallback),
        Some(number) => number,
    }
}

fn number_within(number: Option<i128>, low: i64, high: i64) -> Option<i64>
    ensures { result ≡ number_within low high number }
{
    match number {
        Some(number) if i128::from(low) <= number && number <= i128::from(high) => Some(
            number as i64,
        ),
        _ => None,
    }
}

/// The value of a field of an entry, in units of 2^-24.
#[tactic(auto, unfolding(crate::specs::Fields::number_in))]
pub fn fix(object: &Value<'_>, entry: &[Row], field: Field) -> Fix
    ensures { result ≡ fix_in entry.now field (view object.now) }
{
    fix_of(given_number(fallback_in(entry, field), member(object, field).map(whole)))
}

fn fix_of(number: Option<i128>) -> Fix
    ensures { result ≡ fix_of number }
{
    match number_within(number, MIN_FIX, MAX_FIX) {
        Some(number) => number as Fix,
        None => 0,
    }
}

/// The number of frames of a field of an entry.
#[tactic(auto, unfolding(crate::specs::Fields::number_in))]
pub fn time(clock: Clock, object: &Value<'_>, entry: &[Row], field: Field) -> i64
    ensures { result ≡ time_in clock entry.now field (view object.now) }
{
    let given = member(object, field).map(|value| frames(clock, value));
    let number = given_number(fallback_in(entry, field), given);
    number_within(number, MIN_TIME, MAX_TIME).unwrap_or(0)
}

/// The number of frames of a field that may be null or absent.
#[tactic(auto, unfolding(crate::specs::Fields::time_or_null_in))]
pub fn time_or_null(clock: Clock, object: &Value<'_>, field: Field) -> Option<i64>
    ensures { result ≡ time_or_null_in clock field (view object.now) }
{
    let number = member(object, field).and_then(|value| frames(clock, value));
    number_within(number, MIN_TIME, MAX_TIME)
}

/// The count of a field of an entry.
#[tactic(auto, unfolding(crate::specs::Fields::number_in))]
pub fn count(object: &Value<'_>, entry: &[Row], field: Field) -> u32
    ensures { result ≡ count_in entry.now field (view object.now) }
{
    let number = given_number(fallback_in(entry, field), member(object, field).map(whole));
    match number_within(number, 0, MAX_COUNT) {
        Some(count) => count as u32,
        None => 0,
    }
}

/// The count of a field that may be null or absent.
#[tactic(auto, unfolding(crate::specs::Fields::count_or_null_in))]
pub fn count_or_null(object: &Value<'_>, field: Field) -> Option<u32>
    ensures { result ≡ count_or_null_in field (view object.now) }
{
    match number_within(member(object, field).and_then(whole), 0, MAX_COUNT) {
        Some(count) => Some(count as u32),
        None => None,
    }
}

/// Whether a field of an entry is true.
#[tactic(auto, unfolding(crate::specs::Fields::flag_in))]
pub fn flag(object: &Value<'_>, entry: &[Row], field: Field) -> bool
    ensures { result ≡ flag_in entry.now field (view object.now) }
{
    member(object, field)
        .and_then(Value::as_bool)
        .unwrap_or(default_flag(fallback_in(entry, field)))
}

/// The list of a field.
pub fn list<'v, 'a>(object: &'v Value<'a>, field: Field) -> &'v [Value<'a>]
    ensures { items_view result.now ≡ list_in field (view object.now) }
{
    or_empty(member(object, field).and_then(Value::as_array))
}

fn or_empty<T>(list: Option<&[T]>) -> &[T]
    ensures { MatchOption list.entry (result.now ≡ []) (λ items. result.now ≡ items.now) }
{
    match list {
        Some(items) => items,
        None => &[],
    }
}

/// The values of a field that is a list of them.
pub fn fixes(alloc: Global, object: &Value<'_>, field: Field) -> Result<Samples, NoMemory>
    ensures { IfOk result (λ fixes. fixes ≡ fixes_in field (view object.now)) }
{
    let fixes = fixes_of(alloc, list(object, field))?;
    Ok(Samples::from(fixes))
}

/// The values of a field that is a list of them, or may be null or absent.
#[tactic(auto, unfolding(crate::specs::Fields::fixes_or_null_in))]
pub fn fixes_or_null(
    alloc: Global,
    object: &Value<'_>,
    field: Field,
) -> Result<Option<Samples>, NoMemory>
    ensures { IfOk result (λ fixes. fixes ≡ fixes_or_null_in field (view object.now)) }
{
    match member(object, field).and_then(Value::as_array) {
        Some(list) => {
            let fixes = fixes_of(alloc, list)?;
            Ok(Some(Samples::from(fixes)))
        }
        None => Ok(None),
    }
}

/// The program of a field.
pub fn code(alloc: Global, object: &Value<'_>, field: Field) -> Result<Code, NoMemory>
    ensures { IfOk result (λ code. code ≡ code_in field (view object.now)) }
{
    let instrs = instrs_of(alloc, list(object, field))?;
    Ok(Code::from(instrs))
}

// The instructions of the items of a list, in memory that is taken once.
fn instrs_of(alloc: Global, list: &[Value<'_>]) -> Result<Vec<Instr>, NoMemory>
    ensures { IfOk result (λ instrs. instrs.items ≡ code_of (items_view list.now)) }
{
    let mut instrs = Vec::with_capacity(alloc, list.len())?;
    for item in list {
        instrs.push_reserved(instr_or_in(item));
    }
    Ok(instrs)
}

// The values of the items of a list, in memory that is taken once.
fn fixes_of(alloc: Global, list: &[Value<'_>]) -> Result<Vec<Fix>, NoMemory>
    ensures { IfOk result (λ fixes. fixes.items ≡ fixes_of (items_view list.now)) }
{
    let mut fixes = Vec::with_capacity(alloc, list.len())?;
    for item in list {
        fixes.push_reserved(fix_of(whole(item)));
    }
    Ok(fixes)
}
