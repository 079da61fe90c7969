ghost use Rattle.std.specs.Prelude.{◌≡◌, ◌≢◌, ◌+◌, ◌<◌, Ok, Err, Some, IfOk, IfErr, OnOk, length, option_map};
ghost use Rattle.json_tree.specs.View.{view, items_view};
ghost use Rattle.serde_json.specs.Data.{items_depth};
ghost use Rattle.script_json.specs.Calls.{name_in, placed, form_faults, op_faults};
ghost use Rattle.script_fields.specs.Outcome.{outcome};
ghost use Rattle.script_json.specs.Reading.{held_list, placed_at, call_read, calls_read};

use crate::ops::build;
use json_tree::Value;
use script_ast::{Call, Calls, Clock, Field, OpName};
use script_fields::{ScriptErr, check_fields, check_there, is_there, list};
use std::alloc::Global;
use wa_base::NoMemory;

/// Adds the calls of a list, each followed by those that it holds. Arrays and objects nest less than
/// `depth` deep in the list. After an error the calls before the fault may have been added.
pub fn add_calls(
    alloc: Global,
    clock: Clock,
    list: &[Value<'_>],
    depth: u32,
    holder: u32,
    calls: &mut Calls,
) -> Result<(), ScriptErr>
    requires { items_depth (items_view list.now) < depth }
    ensures ok { OnOk result (calls_read clock calls.old
        (placed (items_view list.now) (length calls.old) holder) ≡ Ok calls.new) }
    ensures fault { IfErr result (λ e. e ≢ ScriptErr.NoMemory → calls_read clock calls.old
        (placed (items_view list.now) (length calls.old) holder) ≡ Err e) }
{
    for value in list {
        let ordinal = next_ordinal(calls)?;
        let call = read_call(alloc, clock, ordinal, holder, value)?;
        calls.push(call)?;
        add_calls(alloc, clock, held_list(value), depth - 1, ordinal, calls)?;
    }
    Ok(())
}

// The ordinal of the next call. Ordinals that have no room in 32 bits count as want of memory.
fn next_ordinal(calls: &Calls) -> Result<u32, NoMemory>
    ensures { IfOk result (λ ordinal. ordinal ≡ length calls.now + 1) }
{
    match u32::try_from(calls.len()) {
        Ok(count) if count < u32::MAX => Ok(count + 1),
        _ => Err(NoMemory),
    }
}

// The call that a value is, or its first fault.
fn read_call(
    alloc: Global,
    clock: Clock,
    ordinal: u32,
    holder: u32,
    value: &Value<'_>,
) -> Result<Call, ScriptErr>
    ensures ok { IfOk result (λ call. call_read clock (placed_at ordinal holder (view value.now)) ≡ Ok (Some call)) }
    ensures fault { IfErr result (λ e. e ≢ ScriptErr.NoMemory
        → call_read clock (placed_at ordinal holder (view value.now)) ≡ Err e) }
{
    if !value.is_object() {
        return Err(ScriptErr::WrongKind(ordinal, Field::Call));
    }
    let Some(name) = name_in(value) else {
        return Err(ScriptErr::UnknownOp(ordinal));
    };
    check_call(clock, ordinal, name, value)?;
    let op = build(alloc, clock, name, value)?;
    Ok(Call {
        ordinal,
        holder,
        op,
    })
}

// The first fault of a call's fields: those of each field come before those of several together.
fn check_call(clock: Clock, ordinal: u32, name: OpName, call: &Value<'_>) -> Result<(), ScriptErr>
    ensures { result ≡ outcome (op_faults clock ordinal (view call.now) name) tt }
{
    check_fields(clock, ordinal, call, name.fields())?;
    match name {
        OpName::Disconnect => check_form(ordinal, call),
        _ => Ok(()),
    }
}

// The fault of a disconnect whose fields are not those of one of its forms.
fn check_form(ordinal: u32, call: &Value<'_>) -> Result<(), ScriptErr>
    ensures { result ≡ outcome (form_faults ordinal (view call.now)) tt }
{
    if is_there(call, Field::Input) {
        check_there(ordinal, call, Field::To)?;
        check_there(ordinal, call, Field::Output)?;
    }
    Ok(())
}

// The operation that a call names.
fn name_in(call: &Value<'_>) -> Option<OpName>
    ensures { result ≡ name_in (view call.now) }
{
    let word = call.get(Field::Op.word()).and_then(Value::as_str)?;
    OpName::from_word(word)
}

// The calls that a call holds.
#[tactic(auto, unfolding(crate::specs::Reading::held_list))]
fn held_list<'v, 'a>(call: &'v Value<'a>) -> &'v [Value<'a>]
    ensures { items_view result.now ≡ held_list (view call.now) }
{
    let list = list(call, Field::Then);
    match name_in(call) {
        Some(name) if name.has_calls() => list,
        _ => &list[..0],
    }
}
