ghost use Rattle.std.specs.Prelude.{◌≡◌, IfOk};
ghost use Rattle.json_tree.specs.View.{view};
ghost use Rattle.script_json.specs.Calls.{param_op_in};

use json_tree::Value;
use script_ast::{Clock, Field, Op, ParamOpName, entries};
use script_fields::{fix, fixes, rate, text, time};
use std::alloc::Global;
use wa_base::NoMemory;

/// The operation of a call on a parameter with its fields, which have no fault.
pub fn build_param_op(
    alloc: Global,
    clock: Clock,
    name: ParamOpName,
    call: &Value<'_>,
) -> Result<Op, NoMemory>
    ensures { IfOk result (λ op. op ≡ param_op_in clock name (view call.now)) }
{
    match name {
        ParamOpName::SetValue => set_value(alloc, call),
        ParamOpName::SetValueAtTime => set_value_at_time(alloc, clock, call),
        ParamOpName::LinearRampToValueAtTime => linear_ramp_to_value_at_time(alloc, clock, call),
        ParamOpName::SetValueCurveAtTime => set_value_curve_at_time(alloc, clock, call),
        ParamOpName::CancelScheduledValues => cancel_scheduled_values(alloc, clock, call),
        ParamOpName::CancelAndHoldAtTime => cancel_and_hold_at_time(alloc, clock, call),
        ParamOpName::SetAutomationRate => set_automation_rate(alloc, call),
        ParamOpName::ExponentialRampToValueAtTime => exponential_ramp_to_value_at_time(alloc, call),
        ParamOpName::SetTargetAtTime => set_target_at_time(alloc, call),
        ParamOpName::ReadValue => read_value(alloc, call),
    }
}

// Of those below the ones with a time are handed the clock. The others are the same on every clock.

fn set_value(alloc: Global, call: &Value<'_>) -> Result<Op, NoMemory>
    ensures { IfOk result (λ op. op ≡ param_op_in Clock.Frames ParamOpName.SetValue (view call.now)) }
{
    Ok(Op::SetValue {
        node: text(alloc, call, Field::Node)?,
        param: text(alloc, call, Field::Param)?,
        value: fix(call, &entries::SET_VALUE, Field::Value),
    })
}

fn set_value_at_time(alloc: Global, clock: Clock, call: &Value<'_>) -> Result<Op, NoMemory>
    ensures { IfOk result (λ op. op ≡ param_op_in clock ParamOpName.SetValueAtTime (view call.now)) }
{
    Ok(Op::SetValueAtTime {
        node: text(alloc, call, Field::Node)?,
        param: text(alloc, call, Field::Param)?,
        value: fix(call, &entries::SET_VALUE_AT_TIME, Field::Value),
        time: time(clock, call, &entries::SET_VALUE_AT_TIME, Field::Time),
    })
}

fn linear_ramp_to_value_at_time(
    alloc: Global,
    clock: Clock,
    call: &Value<'_>,
) -> Result<Op, NoMemory>
    ensures { IfOk result (λ op. op ≡ param_op_in clock ParamOpName.LinearRampToValueAtTime (view call.now)) }
{
    Ok(Op::LinearRampToValueAtTime {
        node: text(alloc, call, Field::Node)?,
        param: text(alloc, call, Field::Param)?,
        value: fix(call, &entries::LINEAR_RAMP_TO_VALUE_AT_TIME, Field::Value),
        time: time(
            clock,
            call,
            &entries::LINEAR_RAMP_TO_VALUE_AT_TIME,
            Field::Time,
        ),
    })
}

fn set_value_curve_at_time(alloc: Global, clock: Clock, call: &Value<'_>) -> Result<Op, NoMemory>
    ensures { IfOk result (λ op. op ≡ param_op_in clock ParamOpName.SetValueCurveAtTime (view call.now)) }
{
    Ok(Op::SetValueCurveAtTime {
        node: text(alloc, call, Field::Node)?,
        param: text(alloc, call, Field::Param)?,
        values: fixes(alloc, call, Field::Values)?,
        time: time(clock, call, &entries::SET_VALUE_CURVE_AT_TIME, Field::Time),
        duration: time(
            clock,
            call,
            &entries::SET_VALUE_CURVE_AT_TIME,
            Field::Duration,
        ),
    })
}

fn cancel_scheduled_values(alloc: Global, clock: Clock, call: &Value<'_>) -> Result<Op, NoMemory>
    ensures { IfOk result (λ op. op ≡ param_op_in clock ParamOpName.CancelScheduledValues (view call.now)) }
{
    Ok(Op::CancelScheduledValues {
        node: text(alloc, call, Field::Node)?,
        param: text(alloc, call, Field::Param)?,
        time: time(clock, call, &entries::CANCEL_SCHEDULED_VALUES, Field::Time),
    })
}

fn cancel_and_hold_at_time(alloc: Global, clock: Clock, call: &Value<'_>) -> Result<Op, NoMemory>
    ensures { IfOk result (λ op. op ≡ param_op_in clock ParamOpName.CancelAndHoldAtTime (view call.now)) }
{
    Ok(Op::CancelAndHoldAtTime {
        node: text(alloc, call, Field::Node)?,
        param: text(alloc, call, Field::Param)?,
        time: time(clock, call, &entries::CANCEL_AND_HOLD_AT_TIME, Field::Time),
    })
}

fn set_automation_rate(alloc: Global, call: &Value<'_>) -> Result<Op, NoMemory>
    ensures { IfOk result (λ op. op ≡ param_op_in Clock.Frames ParamOpName.SetAutomationRate (view call.now)) }
{
    Ok(Op::SetAutomationRate {
        node: text(alloc, call, Field::Node)?,
        param: text(alloc, call, Field::Param)?,
        value: rate(call, Field::Value),
    })
}

fn exponential_ramp_to_value_at_time(alloc: Global, call: &Value<'_>) -> Result<Op, NoMemory>
    ensures { IfOk result (λ op. op ≡ param_op_in Clock.Frames ParamOpName.ExponentialRampToValueAtTime (view call.now)) }
{
    Ok(Op::ExponentialRampToValueAtTime {
        node: text(alloc, call, Field::Node)?,
        param: text(alloc, call, Field::Param)?,
    })
}

fn set_target_at_time(alloc: Global, call: &Value<'_>) -> Result<Op, NoMemory>
    ensures { IfOk result (λ op. op ≡ param_op_in Clock.Frames ParamOpName.SetTargetAtTime (view call.now)) }
{
    Ok(Op::SetTargetAtTime {
        node: text(alloc, call, Field::Node)?,
        param: text(alloc, call, Field::Param)?,
    })
}

fn read_value(alloc: Global, call: &Value<'_>) -> Result<Op, NoMemory>
    ensures { IfOk result (λ op. op ≡ param_op_in Clock.Frames ParamOpName.ReadValue (view call.now)) }
{
    Ok(Op::ReadValue {
        node: text(alloc, call, Field::Node)?,
        param: text(alloc, call, Field::Param)?,
    })
}
