ghost use Rattle.std.specs.Prelude.{◌≡◌, ◌≤◌, ◌<◌, ◌+◌, [], ◌∷◌, ◌++◌, IfOk, OnOk, false, true, ℕ};
ghost use Rattle.serde_json.specs.Written.{compact_text, items_text, members_text};
ghost use Rattle.script_ast.specs.Holders.{holds_calls};
ghost use Rattle.script_text.specs.Order.{AreInOrder, BeginBelow, MayBeginWith, IsAfter, then_text, opened_text};
ghost use Rattle.script_text.specs.Text.{call_data, held_calls};
ghost use Rattle.script_text.specs.Writing.{members_given};

use crate::members::{Given, push_key, push_members};
use crate::ops::push_op;
use crate::values::{push_comma, push_string};
use script_ast::{Call, Field, Op, OpName};
use std::alloc::AllocError;

/// Appends the calls of the list of `holder`, each with those that it holds, and the end of the list.
/// Gives the calls after them.
#[cycle(calls)]
pub fn push_list<'a>(
    out: &mut Vec<u8>,
    rate: u32,
    holder: u32,
    calls: &'a [Call],
) -> Result<&'a [Call], AllocError>
    requires rate { 1 ≤ rate }
    requires first { MayBeginWith holder calls.now }
    ensures text { OnOk result (out.new.items ≡ out.old.items ++ items_text false (held_calls rate holder calls.now)) }
    ensures after { IfOk result (λ rest. IsAfter holder calls.now rest.now) }
    ensures below { IfOk result (λ rest. BeginBelow holder rest.now) }
{
    let mut rest = calls;
    let mut later = false;
    while let Some((call, after)) = rest.split_first() {
        if call.holder != holder {
            break;
        }
        push_comma(out, later)?;
        rest = push_call(out, rate, call, after)?;
        later = true;
    }
    out.push(b']')?;
    Ok(rest)
}

// Appends a call with those that it holds, which come first after it. Gives the calls after them.
#[cycle(calls)]
fn push_call<'a>(
    out: &mut Vec<u8>,
    rate: u32,
    call: &Call,
    after: &'a [Call],
) -> Result<&'a [Call], AllocError>
    requires rate { 1 ≤ rate }
    requires in_order { (n : ℕ) × AreInOrder n (call.now ∷ after.now) }
    ensures text { OnOk result (out.new.items
        ≡ out.old.items ++ compact_text (call_data rate (held_calls rate call.now.ordinal after.now) call.now.op)) }
    ensures after { IfOk result (λ rest. IsAfter call.now.ordinal after.now rest.now) }
    ensures below { IfOk result (λ rest. BeginBelow (call.now.holder + 1) rest.now) }
{
    match &call.op {
        Op::Suspend { time } => {
            push_opened(out, OpName::Suspend)?;
            let rest = push_then(out, rate, call.ordinal, after)?;
            push_time_end(out, rate, *time)?;
            Ok(rest)
        }
        Op::StartRendering => {
            push_opened(out, OpName::StartRendering)?;
            let rest = push_then(out, rate, call.ordinal, after)?;
            push_members(out, rate, true, &[])?;
            Ok(rest)
        }
        _ => push_alone(out, rate, call, after),
    }
}

// Appends the member for the calls that a call holds, where it holds any, after another member. Gives
// the calls after them.
#[cycle(calls)]
fn push_then<'a>(
    out: &mut Vec<u8>,
    rate: u32,
    ordinal: u32,
    calls: &'a [Call],
) -> Result<&'a [Call], AllocError>
    requires rate { 1 ≤ rate }
    requires first { MayBeginWith ordinal calls.now }
    ensures text { OnOk result (out.new.items ≡ out.old.items ++ then_text (held_calls rate ordinal calls.now)) }
    ensures after { IfOk result (λ rest. IsAfter ordinal calls.now rest.now) }
    ensures below { IfOk result (λ rest. BeginBelow ordinal rest.now) }
{
    match calls.split_first() {
        Some((call, _)) if call.holder == ordinal => {
            push_key(out, true, Field::Then)?;
            out.push(b'[')?;
            let rest = push_list(out, rate, ordinal, calls)?;
            Ok(rest)
        }
        _ => Ok(calls),
    }
}

// Appends the last member of a suspend, its time.
fn push_time_end(out: &mut Vec<u8>, rate: u32, frames: i64) -> Result<(), AllocError>
    requires { 1 ≤ rate }
    ensures { OnOk result (out.new.items
        ≡ out.old.items ++ members_text true (members_given rate ((Field.Time, Given.Time frames) ∷ []))) }
{
    push_members(out, rate, true, &[(Field::Time, Given::Time(frames))])
}

// Appends a call that has no list of calls. Gives the calls after it.
fn push_alone<'a>(
    out: &mut Vec<u8>,
    rate: u32,
    call: &Call,
    after: &'a [Call],
) -> Result<&'a [Call], AllocError>
    requires rate { 1 ≤ rate }
    requires alone { holds_calls call.now.op ≡ false }
    requires in_order { (n : ℕ) × AreInOrder n (call.now ∷ after.now) }
    ensures text { OnOk result (out.new.items
        ≡ out.old.items ++ compact_text (call_data rate (held_calls rate call.now.ordinal after.now) call.now.op)) }
    ensures after { IfOk result (λ rest. IsAfter call.now.ordinal after.now rest.now) }
    ensures below { IfOk result (λ rest. BeginBelow (call.now.holder + 1) rest.now) }
{
    push_op(out, rate, &call.op)?;
    Ok(after)
}

// Appends the beginning of a call, up to its name.
fn push_opened(out: &mut Vec<u8>, name: OpName) -> Result<(), AllocError>
    ensures { OnOk result (out.new.items ≡ out.old.items ++ opened_text name) }
{
    out.push(b'{')?;
    push_key(out, false, Field::Op)?;
    push_string(out, name.word().as_bytes())
}
