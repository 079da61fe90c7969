ghost use Rattle.std.specs.Prelude.{◌≡◌, ◌≤◌, [], ◌∷◌, ◌++◌, OnOk, Some, true};
ghost use Rattle.serde_json.specs.Data.{no_items, string};
ghost use Rattle.serde_json.specs.Written.{compact_text};
ghost use Rattle.script_ast.specs.Operations.{interface_of};
ghost use Rattle.script_text.specs.Text.{call_data, object_of, op_field};
ghost use Rattle.script_text.specs.Writing.{connects_nodes, given_data, starts_or_stops};

use crate::members::{Given, push_object};
use script_ast::{Field, Interface, Op, OpName};
use std::alloc::AllocError;
use wa_base::Name;

/// Appends what is done to any node.
pub fn push_on_node(out: &mut Vec<u8>, rate: u32, op: &Op) -> Result<(), AllocError>
    requires rate { 1 ≤ rate }
    requires node { interface_of op.now ≡ Interface.Node }
    ensures { OnOk result (out.new.items ≡ out.old.items ++ compact_text (call_data rate no_items op.now)) }
{
    match op {
        Op::Connect { .. } | Op::Disconnect { .. } => push_connection(out, rate, op),
        Op::SetChannelCount { node, value } => {
            let value = Given::Count(*value);
            push_setting(out, rate, OpName::SetChannelCount, node, value)
        }
        Op::SetChannelCountMode { node, value } => {
            let value = Given::Mode(*value);
            push_setting(out, rate, OpName::SetChannelCountMode, node, value)
        }
        Op::SetChannelInterpretation { node, value } => {
            let value = Given::Interp(*value);
            push_setting(out, rate, OpName::SetChannelInterpretation, node, value)
        }
        _ => unreachable!(),
    }
}

// Appends a connection of nodes, or its end.
fn push_connection(out: &mut Vec<u8>, rate: u32, op: &Op) -> Result<(), AllocError>
    requires rate { 1 ≤ rate }
    requires connection { connects_nodes op.now ≡ true }
    ensures { OnOk result (out.new.items ≡ out.old.items ++ compact_text (call_data rate no_items op.now)) }
{
    match op {
        Op::Connect {
            from,
            output,
            to,
            input,
        } => {
            let members = [
                (Field::From, Given::Name(from)),
                (Field::Input, Given::Count(*input)),
                (Field::Op, Given::Op(OpName::Connect)),
                (Field::Output, Given::Count(*output)),
                (Field::To, Given::Name(to)),
            ];
            push_object(out, rate, &members)
        }
        Op::Disconnect {
            from,
            output,
            to,
            input,
        } => {
            let members = [
                (Field::From, Given::Name(from)),
                (Field::Input, Given::CountOrNull(*input)),
                (Field::Op, Given::Op(OpName::Disconnect)),
                (Field::Output, Given::CountOrNull(*output)),
                (Field::To, Given::NameOrNull(to)),
            ];
            push_object(out, rate, &members)
        }
        _ => unreachable!(),
    }
}

/// Appends a call that sets one value of a node.
pub fn push_setting<'a>(
    out: &mut Vec<u8>,
    rate: u32,
    name: OpName,
    node: &'a Name,
    value: Given<'a>,
) -> Result<(), AllocError>
    requires { 1 ≤ rate }
    ensures { OnOk result (out.new.items ≡ out.old.items ++ compact_text (object_of
        (op_field (Some name) ++ (Field.Node, string node.now) ∷ (Field.Value, given_data rate value.entry) ∷ []))) }
{
    let members = [
        (Field::Node, Given::Name(node)),
        (Field::Op, Given::Op(name)),
        (Field::Value, value),
    ];
    push_object(out, rate, &members)
}

/// Appends what is done to a source.
pub fn push_on_source(out: &mut Vec<u8>, rate: u32, op: &Op) -> Result<(), AllocError>
    requires rate { 1 ≤ rate }
    requires source { interface_of op.now ≡ Interface.Source }
    ensures { OnOk result (out.new.items ≡ out.old.items ++ compact_text (call_data rate no_items op.now)) }
{
    match op {
        Op::SetBuffer { node, buffer } => {
            let members = [
                (Field::Buffer, Given::NameOrNull(buffer)),
                (Field::Node, Given::Name(node)),
                (Field::Op, Given::Op(OpName::SetBuffer)),
            ];
            push_object(out, rate, &members)
        }
        Op::SetLoop { node, value } => {
            push_setting(out, rate, OpName::SetLoop, node, Given::Flag(*value))
        }
        Op::SetLoopStart { node, value } => {
            push_setting(out, rate, OpName::SetLoopStart, node, Given::Time(*value))
        }
        Op::SetLoopEnd { node, value } => {
            push_setting(out, rate, OpName::SetLoopEnd, node, Given::Time(*value))
        }
        Op::Start { .. } | Op::Stop { .. } => push_playing(out, rate, op),
        _ => unreachable!(),
    }
}

// Appends the start or the stop of a source.
fn push_playing(out: &mut Vec<u8>, rate: u32, op: &Op) -> Result<(), AllocError>
    requires rate { 1 ≤ rate }
    requires playing { starts_or_stops op.now ≡ true }
    ensures { OnOk result (out.new.items ≡ out.old.items ++ compact_text (call_data rate no_items op.now)) }
{
    match op {
        Op::Start {
            node,
            when,
            offset,
            duration,
        } => {
            let members = [
                (Field::Duration, Given::TimeOrNull(*duration)),
                (Field::Node, Given::Name(node)),
                (Field::Offset, Given::Time(*offset)),
                (Field::Op, Given::Op(OpName::Start)),
                (Field::When, Given::Time(*when)),
            ];
            push_object(out, rate, &members)
        }
        Op::Stop { node, when } => {
            let members = [
                (Field::Node, Given::Name(node)),
                (Field::Op, Given::Op(OpName::Stop)),
                (Field::When, Given::Time(*when)),
            ];
            push_object(out, rate, &members)
        }
        _ => unreachable!(),
    }
}
