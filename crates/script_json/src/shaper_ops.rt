ghost use Rattle.std.specs.Prelude.{◌≡◌, IfOk};
ghost use Rattle.json_tree.specs.View.{view};
ghost use Rattle.script_json.specs.Calls.{op_in};

use json_tree::Value;
use script_ast::{Clock, Field, Op, OpName, entries};
use script_fields::{fixes_or_null, oversample, text};
use std::alloc::Global;
use wa_base::NoMemory;

// The operations on wave shapers (WaveShaperNode), which are the same on every clock. The fields of a
// call have no fault.

/// The operation of a `createWaveShaper`.
pub fn create_wave_shaper(alloc: Global, call: &Value<'_>) -> Result<Op, NoMemory>
    ensures { IfOk result (λ op. op ≡ op_in Clock.Frames OpName.CreateWaveShaper (view call.now)) }
{
    Ok(Op::CreateWaveShaper {
        name: text(alloc, call, Field::As)?,
        curve: fixes_or_null(alloc, call, Field::Curve)?,
        oversample: oversample(call, &entries::CREATE_WAVE_SHAPER, Field::Oversample),
    })
}

/// The operation of a `setCurve`, which takes the curve away where it is null.
pub fn set_curve(alloc: Global, call: &Value<'_>) -> Result<Op, NoMemory>
    ensures { IfOk result (λ op. op ≡ op_in Clock.Frames OpName.SetCurve (view call.now)) }
{
    Ok(Op::SetCurve {
        node: text(alloc, call, Field::Node)?,
        curve: fixes_or_null(alloc, call, Field::Curve)?,
    })
}

/// The operation of a `setOversample`.
pub fn set_oversample(alloc: Global, call: &Value<'_>) -> Result<Op, NoMemory>
    ensures { IfOk result (λ op. op ≡ op_in Clock.Frames OpName.SetOversample (view call.now)) }
{
    Ok(Op::SetOversample {
        node: text(alloc, call, Field::Node)?,
        value: oversample(call, &entries::SET_OVERSAMPLE, Field::Value),
    })
}
