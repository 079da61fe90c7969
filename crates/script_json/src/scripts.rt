ghost use Rattle.std.specs.Prelude.{◌≡◌, ◌≢◌, ◌≤◌, Ok, Err, IfOk, IfErr};
ghost use Rattle.serde_json.specs.Data.{depth};
ghost use Rattle.json_tree.specs.View.{view, items_view};
ghost use Rattle.script_ast.specs.Holders.{AreNested};
ghost use Rattle.script_ast.specs.WellFormed.{IsWellFormed};
ghost use Rattle.script_fields.specs.Outcome.{outcome};
ghost use Rattle.script_json.specs.Script.{context_in, context_of, clock_at, main_list, head_faults, script_faults, script_in, script_of};

use crate::calls::add_calls;
use crate::tree::parse;
use json_tree::{Scratch, Value};
use script_ast::entries::{CONTEXT_FIELDS, SCRIPT_HEAD, SCRIPT_TAIL};
use script_ast::{Calls, Clock, Field, Script};
use script_fields::{ScriptErr, check_fields, count, list, member};
use std::alloc::Global;
use wa_base::ContextSpec;

// How deep the arrays and objects of a JSON text may nest.
const MAX_DEPTH: u32 = 127;

/// The script of version 1 or 2 that bytes are, or its first fault: first `BadJson`, then the faults of the members
/// around the calls, then those of each call in order of ordinals. A call's own faults come in the
/// order of its entry. The context may be one that cannot be rendered: a session refuses it.
pub fn read(alloc: Global, bytes: &[u8]) -> Result<Script, ScriptErr>
    ensures ok { IfOk result (λ script. script_of bytes.now ≡ Ok script) }
    ensures fault { IfErr result (λ e. e ≢ ScriptErr.NoMemory → script_of bytes.now ≡ Err e) }
    ensures well_formed { IfOk result (λ script. IsWellFormed script) }
    ensures nested { IfOk result (λ script. AreNested script.calls) }
{
    let mut scratch = Scratch::new(alloc);
    let value = parse(alloc, bytes, &mut scratch)?;
    read_script(alloc, &value)
}

// The script that a value is, or its first fault.
fn read_script(alloc: Global, value: &Value<'_>) -> Result<Script, ScriptErr>
    requires { depth (view value.now) ≤ 127 }
    ensures ok { IfOk result (λ script. outcome (script_faults (view value.now)) (script_in (view value.now)) ≡ Ok script) }
    ensures fault { IfErr result (λ e. e ≢ ScriptErr.NoMemory
        → outcome (script_faults (view value.now)) (script_in (view value.now)) ≡ Err e) }
    ensures well_formed { IfOk result (λ script. IsWellFormed script) }
    ensures nested { IfOk result (λ script. AreNested script.calls) }
{
    let context = read_context(value)?;
    let clock = clock_at(count(value, &SCRIPT_HEAD, Field::Version), context.rate);
    let mut calls = Calls::new(alloc);
    add_calls(alloc, clock, main_list(value), MAX_DEPTH, 0, &mut calls)?;
    Ok(Script { context, calls })
}

// What times are counted in.
fn clock_at(version: u32, rate: u32) -> Clock
    ensures { result ≡ clock_at version rate }
{
    if version == 2 {
        Clock::Seconds { rate }
    } else {
        Clock::Frames
    }
}

// The context that a script asks for, or the first fault of what stands around the calls.
fn read_context(value: &Value<'_>) -> Result<ContextSpec, ScriptErr>
    ensures { result ≡ outcome (head_faults (view value.now)) (context_of (context_in (view value.now))) }
{
    if !value.is_object() {
        return Err(ScriptErr::WrongKind(0, Field::Script));
    }
    check_fields(Clock::Frames, 0, value, &SCRIPT_HEAD)?;
    let Some(context) = member(value, Field::Context) else {
        return Err(ScriptErr::MissingField(0, Field::Context));
    };
    check_fields(Clock::Frames, 0, context, &CONTEXT_FIELDS)?;
    check_fields(Clock::Frames, 0, value, &SCRIPT_TAIL)?;
    Ok(context_of(context))
}

fn context_of(context: &Value<'_>) -> ContextSpec
    ensures { result ≡ context_of (view context.now) }
{
    ContextSpec {
        channels: count(context, &CONTEXT_FIELDS, Field::Channels),
        length: u64::from(count(context, &CONTEXT_FIELDS, Field::Length)),
        rate: count(context, &CONTEXT_FIELDS, Field::Rate),
        quantum: count(context, &CONTEXT_FIELDS, Field::RenderQuantum),
    }
}

// The main list of calls.
#[tactic(auto, unfolding(crate::specs::Script::main_list))]
fn main_list<'v, 'a>(value: &'v Value<'a>) -> &'v [Value<'a>]
    ensures { items_view result.now ≡ main_list (view value.now) }
{
    list(value, Field::Calls)
}
