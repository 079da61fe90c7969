ghost use Rattle.std.specs.Prelude.{◌≡◌, ◌≤◌, ◌++◌, IfOk, OnOk};
ghost use Rattle.serde_json.specs.Written.{compact_text};
ghost use Rattle.script_ast.specs.WellFormed.{IsWellFormed};
ghost use Rattle.script_text.specs.Text.{context_data, script_text};

use crate::calls::push_list;
use crate::members::{Given, push_key, push_members, push_object};
use script_ast::{Field, Script};
use std::alloc::{AllocError, Global};
use wa_base::{Bytes, ContextSpec, NoMemory};

/// The text of a script, in version 2. Every field of a call stands in it, defaults and nulls included.
/// It is compact JSON in UTF-8, and its times are seconds with nine digits. `script_text_law` says which
/// scripts are read again from it.
pub fn text(alloc: Global, script: &Script) -> Result<Bytes, NoMemory>
    requires formed { IsWellFormed script.now }
    requires rate { 1 ≤ script.now.context.rate }
    ensures { IfOk result (λ bytes. bytes ≡ script_text script.now) }
{
    let mut out = Vec::new(alloc);
    push_script(&mut out, script)?;
    Ok(Bytes::from(out))
}

// Appends a script.
#[tactic(auto, using(crate::proofs::Order::main_list_first))]
fn push_script(out: &mut Vec<u8>, script: &Script) -> Result<(), AllocError>
    requires formed { IsWellFormed script.now }
    requires rate { 1 ≤ script.now.context.rate }
    ensures { OnOk result (out.new.items ≡ out.old.items ++ script_text script.now) }
{
    let rate = script.context.rate;
    out.push(b'{')?;
    push_key(out, false, Field::Calls)?;
    out.push(b'[')?;
    push_list(out, rate, 0, script.calls.as_slice())?;
    push_key(out, true, Field::Context)?;
    push_context(out, script.context)?;
    push_members(out, rate, true, &[(Field::Version, Given::Count(2))])?;
    Ok(())
}

// Appends a context.
fn push_context(out: &mut Vec<u8>, context: ContextSpec) -> Result<(), AllocError>
    requires { 1 ≤ context.rate }
    ensures { OnOk result (out.new.items ≡ out.old.items ++ compact_text (context_data context)) }
{
    push_object(
        out,
        context.rate,
        &[
            (Field::Channels, Given::Count(context.channels)),
            (Field::Length, Given::Length(context.length)),
            (Field::Rate, Given::Count(context.rate)),
            (Field::RenderQuantum, Given::Count(context.quantum)),
        ],
    )
}
