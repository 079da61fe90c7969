ghost use Rattle.std.specs.Prelude.{◌≡◌, ◌≤◌, ◌++◌, OnOk, Some, false};
ghost use Rattle.serde_json.specs.Data.{no_items};
ghost use Rattle.serde_json.specs.Written.{compact_text};
ghost use Rattle.script_ast.specs.Holders.{holds_calls};
ghost use Rattle.script_ast.specs.Operations.{interface_of};
ghost use Rattle.script_text.specs.Text.{call_data, object_of, op_field};

use crate::buffers::{push_on_buffer, push_on_shaper};
use crate::creations::{push_creation, push_processor};
use crate::members::{Given, push_object};
use crate::nodes::{push_on_node, push_on_source};
use crate::params::{push_on_param, push_on_timeline};
use script_ast::{Field, Interface, Op, OpName};
use std::alloc::AllocError;

/// Appends a call of an operation that holds no calls.
pub fn push_op(out: &mut Vec<u8>, rate: u32, op: &Op) -> Result<(), AllocError>
    requires rate { 1 ≤ rate }
    requires alone { holds_calls op.now ≡ false }
    ensures { OnOk result (out.new.items ≡ out.old.items ++ compact_text (call_data rate no_items op.now)) }
{
    match op.interface() {
        Interface::Creation => push_creation(out, rate, op),
        Interface::Node => push_on_node(out, rate, op),
        Interface::Source => push_on_source(out, rate, op),
        Interface::Buffer => push_on_buffer(out, rate, op),
        Interface::Shaper => push_on_shaper(out, rate, op),
        Interface::Processor => push_processor(out, rate, op),
        Interface::Timeline => push_on_timeline(out, rate, op),
        Interface::Param => push_on_param(out, rate, op),
        Interface::Context => push_on_context(out, rate, op),
        Interface::Asset => push_asset(out, rate, op),
        Interface::LeftOut => push_left_out(out, rate, op),
    }
}

// Appends an operation on the context that holds no calls.
fn push_on_context(out: &mut Vec<u8>, rate: u32, op: &Op) -> Result<(), AllocError>
    requires rate { 1 ≤ rate }
    requires alone { holds_calls op.now ≡ false }
    requires context { interface_of op.now ≡ Interface.Context }
    ensures { OnOk result (out.new.items ≡ out.old.items ++ compact_text (call_data rate no_items op.now)) }
{
    match op {
        Op::Resume => push_name(out, rate, OpName::Resume),
        Op::ReadState => push_name(out, rate, OpName::ReadState),
        Op::ReadTime => push_name(out, rate, OpName::ReadTime),
        _ => unreachable!(),
    }
}

// Appends the reading of a file.
fn push_asset(out: &mut Vec<u8>, rate: u32, op: &Op) -> Result<(), AllocError>
    requires rate { 1 ≤ rate }
    requires asset { interface_of op.now ≡ Interface.Asset }
    ensures { OnOk result (out.new.items ≡ out.old.items ++ compact_text (call_data rate no_items op.now)) }
{
    match op {
        Op::DecodeAudioData { name, path } => push_object(
            out,
            rate,
            &[
                (Field::As, Given::Name(name)),
                (Field::Op, Given::Op(OpName::DecodeAudioData)),
                (Field::Path, Given::Path(path)),
            ],
        ),
        _ => unreachable!(),
    }
}

// Appends an operation that the profile leaves out.
fn push_left_out(out: &mut Vec<u8>, rate: u32, op: &Op) -> Result<(), AllocError>
    requires rate { 1 ≤ rate }
    requires left_out { interface_of op.now ≡ Interface.LeftOut }
    ensures { OnOk result (out.new.items ≡ out.old.items ++ compact_text (call_data rate no_items op.now)) }
{
    match op {
        Op::LeftOut { name } => push_name(out, rate, OpName::LeftOut(*name)),
        _ => unreachable!(),
    }
}

// Appends a call that has its name alone.
fn push_name(out: &mut Vec<u8>, rate: u32, name: OpName) -> Result<(), AllocError>
    requires { 1 ≤ rate }
    ensures { OnOk result (out.new.items ≡ out.old.items ++ compact_text (object_of (op_field (Some name)))) }
{
    push_object(out, rate, &[(Field::Op, Given::Op(name))])
}
