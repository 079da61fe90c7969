ghost use Rattle.std.specs.Prelude.{◌≡◌, ◌≤◌, ◌++◌, OnOk, true};
ghost use Rattle.serde_json.specs.Data.{no_items, object};
ghost use Rattle.serde_json.specs.Written.{compact_text};
ghost use Rattle.script_ast.specs.Operations.{interface_of};
ghost use Rattle.script_text.specs.Text.{call_data};
ghost use Rattle.script_text.specs.Writing.{connects_param, param_members, sets_value};

use crate::members::{Given, push_key, push_members, push_object};
use crate::placed::Member;
use crate::values::push_string;
use script_ast::{Field, Interface, Op, OpName, ParamOpName};
use std::alloc::AllocError;
use wa_base::Name;

/// Appends what is done to the timeline of a parameter.
pub fn push_on_timeline(out: &mut Vec<u8>, rate: u32, op: &Op) -> Result<(), AllocError>
    requires rate { 1 ≤ rate }
    requires timeline { interface_of op.now ≡ Interface.Timeline }
    ensures { OnOk result (out.new.items ≡ out.old.items ++ compact_text (call_data rate no_items op.now)) }
{
    match op {
        Op::SetValue { .. } | Op::SetValueAtTime { .. } | Op::LinearRampToValueAtTime { .. } => {
            push_set_value(out, rate, op)
        }
        Op::SetValueCurveAtTime {
            node,
            param,
            values,
            time,
            duration,
        } => {
            let name = OpName::Param(ParamOpName::SetValueCurveAtTime);
            let members = [
                (Field::Duration, Given::Time(*duration)),
                (Field::Node, Given::Name(node)),
                (Field::Op, Given::Op(name)),
                (Field::Param, Given::Name(param)),
                (Field::Time, Given::Time(*time)),
                (Field::Values, Given::Fixes(values)),
            ];
            push_object(out, rate, &members)
        }
        Op::CancelScheduledValues { node, param, time } => {
            let name = ParamOpName::CancelScheduledValues;
            let others = [(Field::Time, Given::Time(*time))];
            push_param_op(out, rate, name, node, param, &others)
        }
        Op::CancelAndHoldAtTime { node, param, time } => {
            let name = ParamOpName::CancelAndHoldAtTime;
            let others = [(Field::Time, Given::Time(*time))];
            push_param_op(out, rate, name, node, param, &others)
        }
        _ => unreachable!(),
    }
}

// Appends a call that sets a value now or at a time, or that a ramp leads to.
fn push_set_value(out: &mut Vec<u8>, rate: u32, op: &Op) -> Result<(), AllocError>
    requires rate { 1 ≤ rate }
    requires value { sets_value op.now ≡ true }
    ensures { OnOk result (out.new.items ≡ out.old.items ++ compact_text (call_data rate no_items op.now)) }
{
    match op {
        Op::SetValue { node, param, value } => {
            let others = [(Field::Value, Given::Fix(*value))];
            push_param_op(out, rate, ParamOpName::SetValue, node, param, &others)
        }
        Op::SetValueAtTime {
            node,
            param,
            value,
            time,
        } => {
            let name = ParamOpName::SetValueAtTime;
            let others = [
                (Field::Time, Given::Time(*time)),
                (Field::Value, Given::Fix(*value)),
            ];
            push_param_op(out, rate, name, node, param, &others)
        }
        Op::LinearRampToValueAtTime {
            node,
            param,
            value,
            time,
        } => {
            let name = ParamOpName::LinearRampToValueAtTime;
            let others = [
                (Field::Time, Given::Time(*time)),
                (Field::Value, Given::Fix(*value)),
            ];
            push_param_op(out, rate, name, node, param, &others)
        }
        _ => unreachable!(),
    }
}

/// Appends what is done to a parameter, its connections included.
pub fn push_on_param(out: &mut Vec<u8>, rate: u32, op: &Op) -> Result<(), AllocError>
    requires rate { 1 ≤ rate }
    requires param { interface_of op.now ≡ Interface.Param }
    ensures { OnOk result (out.new.items ≡ out.old.items ++ compact_text (call_data rate no_items op.now)) }
{
    match op {
        Op::ConnectParam { .. } | Op::DisconnectParam { .. } => push_connection(out, rate, op),
        Op::SetAutomationRate { node, param, value } => {
            let name = ParamOpName::SetAutomationRate;
            let others = [(Field::Value, Given::Rate(*value))];
            push_param_op(out, rate, name, node, param, &others)
        }
        Op::ExponentialRampToValueAtTime { node, param } => {
            let name = ParamOpName::ExponentialRampToValueAtTime;
            push_param_op(out, rate, name, node, param, &[])
        }
        Op::SetTargetAtTime { node, param } => {
            push_param_op(out, rate, ParamOpName::SetTargetAtTime, node, param, &[])
        }
        Op::ReadValue { node, param } => {
            push_param_op(out, rate, ParamOpName::ReadValue, node, param, &[])
        }
        _ => unreachable!(),
    }
}

// Appends a connection of a node to a parameter, or its end.
fn push_connection(out: &mut Vec<u8>, rate: u32, op: &Op) -> Result<(), AllocError>
    requires rate { 1 ≤ rate }
    requires connection { connects_param op.now ≡ true }
    ensures { OnOk result (out.new.items ≡ out.old.items ++ compact_text (call_data rate no_items op.now)) }
{
    match op {
        Op::ConnectParam {
            from,
            output,
            to,
            param,
        } => {
            let members = [
                (Field::From, Given::Name(from)),
                (Field::Op, Given::Op(OpName::ConnectParam)),
                (Field::Output, Given::Count(*output)),
                (Field::Param, Given::Name(param)),
                (Field::To, Given::Name(to)),
            ];
            push_object(out, rate, &members)
        }
        Op::DisconnectParam {
            from,
            to,
            param,
            output,
        } => {
            let members = [
                (Field::From, Given::Name(from)),
                (Field::Op, Given::Op(OpName::DisconnectParam)),
                (Field::Output, Given::CountOrNull(*output)),
                (Field::Param, Given::Name(param)),
                (Field::To, Given::Name(to)),
            ];
            push_object(out, rate, &members)
        }
        _ => unreachable!(),
    }
}

// Appends a call on a parameter, whose other members come after the parameter's name.
fn push_param_op(
    out: &mut Vec<u8>,
    rate: u32,
    name: ParamOpName,
    node: &Name,
    param: &Name,
    others: &[Member<'_>],
) -> Result<(), AllocError>
    requires { 1 ≤ rate }
    ensures { OnOk result (out.new.items
        ≡ out.old.items ++ compact_text (object (param_members rate name node.now param.now others.now))) }
{
    out.push(b'{')?;
    push_key(out, false, Field::Node)?;
    push_string(out, node.as_slice())?;
    push_key(out, true, Field::Op)?;
    push_string(out, OpName::Param(name).word().as_bytes())?;
    push_key(out, true, Field::Param)?;
    push_string(out, param.as_slice())?;
    push_members(out, rate, true, others)
}
