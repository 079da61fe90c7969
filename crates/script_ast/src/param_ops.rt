ghost use Rattle.std.specs.Prelude.{◌≡◌, Some};
ghost use Rattle.script_ast.specs.Entries.{op_named, param_op_word, param_op_fields};
ghost use Rattle.script_ast.specs.declared.entries.OpName.TheVariants.{Param};

use crate::entries::{
    CANCEL_AND_HOLD_AT_TIME, CANCEL_SCHEDULED_VALUES, EXPONENTIAL_RAMP_TO_VALUE_AT_TIME,
    LINEAR_RAMP_TO_VALUE_AT_TIME, READ_VALUE, Row, SET_AUTOMATION_RATE, SET_TARGET_AT_TIME,
    SET_VALUE, SET_VALUE_AT_TIME, SET_VALUE_CURVE_AT_TIME,
};

/// The name of an operation on a parameter (AudioParam).
#[derive(Clone, Copy, PartialEq, Eq)]
pub enum ParamOpName {
    SetValue,
    SetValueAtTime,
    LinearRampToValueAtTime,
    SetValueCurveAtTime,
    CancelScheduledValues,
    CancelAndHoldAtTime,
    SetAutomationRate,
    ExponentialRampToValueAtTime,
    SetTargetAtTime,
    ReadValue,
}

impl ParamOpName {
    /// The value of a call's `op` that names the operation, and no other one.
    #[tactic(auto, unfolding(crate::specs::Entries::op_named))]
    pub fn word(self) -> &'static str
        ensures word { result.now ≡ param_op_word self }
        ensures named { op_named result.now ≡ Some (Param self) }
    {
        match self {
            ParamOpName::SetValue => "setValue",
            ParamOpName::SetValueAtTime => "setValueAtTime",
            ParamOpName::LinearRampToValueAtTime => "linearRampToValueAtTime",
            ParamOpName::SetValueCurveAtTime => "setValueCurveAtTime",
            ParamOpName::CancelScheduledValues => "cancelScheduledValues",
            ParamOpName::CancelAndHoldAtTime => "cancelAndHoldAtTime",
            ParamOpName::SetAutomationRate => "setAutomationRate",
            ParamOpName::ExponentialRampToValueAtTime => "exponentialRampToValueAtTime",
            ParamOpName::SetTargetAtTime => "setTargetAtTime",
            ParamOpName::ReadValue => "readValue",
        }
    }

    /// The fields of the operation, in the order in which they are read.
    pub fn fields(self) -> &'static [Row]
        ensures { result.now ≡ param_op_fields self }
    {
        match self {
            ParamOpName::SetValue => &SET_VALUE,
            ParamOpName::SetValueAtTime => &SET_VALUE_AT_TIME,
            ParamOpName::LinearRampToValueAtTime => &LINEAR_RAMP_TO_VALUE_AT_TIME,
            ParamOpName::SetValueCurveAtTime => &SET_VALUE_CURVE_AT_TIME,
            ParamOpName::CancelScheduledValues => &CANCEL_SCHEDULED_VALUES,
            ParamOpName::CancelAndHoldAtTime => &CANCEL_AND_HOLD_AT_TIME,
            ParamOpName::SetAutomationRate => &SET_AUTOMATION_RATE,
            ParamOpName::ExponentialRampToValueAtTime => &EXPONENTIAL_RAMP_TO_VALUE_AT_TIME,
            ParamOpName::SetTargetAtTime => &SET_TARGET_AT_TIME,
            ParamOpName::ReadValue => &READ_VALUE,
        }
    }
}
