ghost use Rattle.std.specs.Prelude.{◌≡◌, IfOk, map};
ghost use Rattle.json_tree.specs.View.{view};
ghost use Rattle.script_json.specs.Calls.{op_in};
ghost use Rattle.script_ast.specs.Entries.{creation_of};
ghost use Rattle.script_json.specs.Creations.{kind_in, numbers_of};
ghost use Rattle.script_json.specs.Given.{number_given};

use json_tree::Value;
use node_table::{Equation, Kind};
use script_ast::{Clock, Creation, Field, Op, OpName};
use script_fields::{count, fix, fixes, text};
use std::alloc::{AllocError, Global};
use wa_base::{Fix, NoMemory, Samples};

/// The creation of a node by its numbers alone, from a call whose fields have no fault.
pub fn create(alloc: Global, name: Creation, call: &Value<'_>) -> Result<Op, NoMemory>
    ensures { IfOk result (λ op. op ≡ op_in Clock.Frames (OpName.Create name) (view call.now)) }
{
    Ok(Op::Create {
        name: text(alloc, call, Field::As)?,
        kind: kind_in(alloc, name, call)?,
    })
}

// The kind of the node that a call makes.
fn kind_in(alloc: Global, name: Creation, call: &Value<'_>) -> Result<Kind, NoMemory>
    ensures { IfOk result (λ kind. kind ≡ kind_in name (view call.now)) }
{
    let entry = name.fields();
    Ok(match name {
        Creation::ConstantSource => Kind::Constant {
            offset: fix(call, entry, Field::Offset),
        },
        Creation::Gain => Kind::Gain {
            gain: fix(call, entry, Field::Gain),
        },
        Creation::ChannelSplitter => Kind::Splitter {
            outputs: count(call, entry, Field::NumberOfOutputs),
        },
        Creation::ChannelMerger => Kind::Merger {
            inputs: count(call, entry, Field::NumberOfInputs),
        },
        Creation::IIRFilter => Kind::Causal {
            equation: Equation::Filter {
                forward: fixes(alloc, call, Field::Feedforward)?,
                back: fixes(alloc, call, Field::Feedback)?,
            },
        },
    })
}

/// A number, or several, that a kind of node has from the call that creates it.
#[derive(Clone, Copy)]
pub enum Number<'a> {
    /// A value in units of 2^-24.
    Fix(Fix),
    Count(u32),
    Fixes(&'a Samples),
}

/// The operation that creates a node of the kind by its numbers alone; `None` for the other kinds.
pub fn creation_of(kind: &Kind) -> Option<Creation>
    ensures { result ≡ creation_of kind.now }
{
    match kind {
        Kind::Constant { .. } => Some(Creation::ConstantSource),
        Kind::Gain { .. } => Some(Creation::Gain),
        Kind::Splitter { .. } => Some(Creation::ChannelSplitter),
        Kind::Merger { .. } => Some(Creation::ChannelMerger),
        Kind::Causal {
            equation: Equation::Filter { .. },
        } => Some(Creation::IIRFilter),
        Kind::Causal {
            equation: Equation::Convolution { .. } | Equation::Processor { .. },
        }
        | Kind::Destination
        | Kind::Buffer { .. }
        | Kind::Delay { .. }
        | Kind::Shaper { .. } => None,
    }
}

/// The numbers of a kind that is created so, with their fields; none of the other kinds.
pub fn numbers_of<'a>(alloc: Global, kind: &'a Kind) -> Result<Vec<(Field, Number<'a>)>, AllocError>
    ensures { IfOk result (λ numbers. map number_given numbers.items ≡ numbers_of kind.now) }
{
    Ok(match kind {
        Kind::Constant { offset } => vec![in alloc; (Field::Offset, Number::Fix(*offset))]?,
        Kind::Gain { gain } => vec![in alloc; (Field::Gain, Number::Fix(*gain))]?,
        Kind::Splitter { outputs } => vec![in alloc;
            (Field::NumberOfOutputs, Number::Count(*outputs)),
        ]?,
        Kind::Merger { inputs } => vec![in alloc; (Field::NumberOfInputs, Number::Count(*inputs))]?,
        Kind::Causal {
            equation: Equation::Filter { forward, back },
        } => vec![in alloc;
            (Field::Feedforward, Number::Fixes(forward)),
            (Field::Feedback, Number::Fixes(back)),
        ]?,
        Kind::Causal {
            equation: Equation::Convolution { .. } | Equation::Processor { .. },
        }
        | Kind::Destination
        | Kind::Buffer { .. }
        | Kind::Delay { .. }
        | Kind::Shaper { .. } => Vec::new(alloc),
    })
}
