use crate::field_texts::{rate_text, text, values_text};
use script_ast::Op;
use std::alloc::{AllocError, Global};
use wa_base::Name;

/// The word of an operation on a parameter and its fields, in the order in which they are read.
pub fn param_op_text(alloc: Global, op: &Op) -> Result<String, AllocError> {
    match op {
        Op::SetValue { node, param, value } => {
            let param = param_text(alloc, node, param)?;
            format!(in alloc; "setValue {param} {value}")
        }
        Op::SetAutomationRate { node, param, value } => {
            let param = param_text(alloc, node, param)?;
            format!(in alloc; "setAutomationRate {param} {}", rate_text(*value))
        }
        Op::ExponentialRampToValueAtTime { node, param } => {
            let param = param_text(alloc, node, param)?;
            format!(in alloc; "exponentialRampToValueAtTime {param}")
        }
        Op::SetTargetAtTime { node, param } => {
            let param = param_text(alloc, node, param)?;
            format!(in alloc; "setTargetAtTime {param}")
        }
        Op::ReadValue { node, param } => {
            let param = param_text(alloc, node, param)?;
            format!(in alloc; "readValue {param}")
        }
        _ => event_text(alloc, op),
    }
}

// Of the operations with a time.
fn event_text(alloc: Global, op: &Op) -> Result<String, AllocError> {
    match op {
        Op::SetValueAtTime {
            node,
            param,
            value,
            time,
        } => {
            let param = param_text(alloc, node, param)?;
            format!(in alloc; "setValueAtTime {param} {value} {time}")
        }
        Op::LinearRampToValueAtTime {
            node,
            param,
            value,
            time,
        } => {
            let param = param_text(alloc, node, param)?;
            format!(in alloc; "linearRampToValueAtTime {param} {value} {time}")
        }
        Op::SetValueCurveAtTime {
            node,
            param,
            values,
            time,
            duration,
        } => {
            let param = param_text(alloc, node, param)?;
            let values = values_text(alloc, values.as_slice())?;
            format!(in alloc; "setValueCurveAtTime {param} [{values}] {time} {duration}")
        }
        _ => cancel_text(alloc, op),
    }
}

fn cancel_text(alloc: Global, op: &Op) -> Result<String, AllocError> {
    match op {
        Op::CancelScheduledValues { node, param, time } => {
            let param = param_text(alloc, node, param)?;
            format!(in alloc; "cancelScheduledValues {param} {time}")
        }
        Op::CancelAndHoldAtTime { node, param, time } => {
            let param = param_text(alloc, node, param)?;
            format!(in alloc; "cancelAndHoldAtTime {param} {time}")
        }
        _ => String::from_str(alloc, "another operation"),
    }
}

// A parameter by its node and its own name.
fn param_text(alloc: Global, node: &Name, param: &Name) -> Result<String, AllocError> {
    format!(in alloc; "{} {}", text(node), text(param))
}
