ghost use Rattle.std.specs.Prelude.{◌≡◌, ◌≤◌, ◌++◌, OnOk, true};
ghost use Rattle.serde_json.specs.Data.{no_items};
ghost use Rattle.serde_json.specs.Written.{compact_text};
ghost use Rattle.script_ast.specs.Operations.{interface_of};
ghost use Rattle.script_text.specs.Text.{call_data};
ghost use Rattle.script_text.specs.Writing.{creates_with_buffer};

use crate::members::{Given, push_object};
use crate::nodes::push_setting;
use script_ast::{Field, Interface, Op, OpName};
use std::alloc::AllocError;

/// Appends what is done to a buffer, or a creation that names one.
pub fn push_on_buffer(out: &mut Vec<u8>, rate: u32, op: &Op) -> Result<(), AllocError>
    requires rate { 1 ≤ rate }
    requires buffer { interface_of op.now ≡ Interface.Buffer }
    ensures { OnOk result (out.new.items ≡ out.old.items ++ compact_text (call_data rate no_items op.now)) }
{
    match op {
        Op::CreateConvolver { .. } | Op::CreateBufferSource { .. } => push_user(out, rate, op),
        Op::CreateBuffer {
            name,
            channels,
            length,
            rate: of_buffer,
        } => {
            let members = [
                (Field::As, Given::Name(name)),
                (Field::Channels, Given::Count(*channels)),
                (Field::Length, Given::Count(*length)),
                (Field::Op, Given::Op(OpName::CreateBuffer)),
                (Field::Rate, Given::Count(*of_buffer)),
            ];
            push_object(out, rate, &members)
        }
        Op::CopyToChannel {
            buffer,
            channel,
            samples,
            at,
        } => {
            let members = [
                (Field::At, Given::Count(*at)),
                (Field::Buffer, Given::Name(buffer)),
                (Field::Channel, Given::Count(*channel)),
                (Field::Op, Given::Op(OpName::CopyToChannel)),
                (Field::Samples, Given::Fixes(samples)),
            ];
            push_object(out, rate, &members)
        }
        _ => unreachable!(),
    }
}

// Appends the creation of a node that uses a buffer.
fn push_user(out: &mut Vec<u8>, rate: u32, op: &Op) -> Result<(), AllocError>
    requires rate { 1 ≤ rate }
    requires creation { creates_with_buffer op.now ≡ true }
    ensures { OnOk result (out.new.items ≡ out.old.items ++ compact_text (call_data rate no_items op.now)) }
{
    match op {
        Op::CreateConvolver {
            name,
            buffer,
            disable_normalization: disabled,
        } => {
            let members = [
                (Field::As, Given::Name(name)),
                (Field::Buffer, Given::NameOrNull(buffer)),
                (Field::DisableNormalization, Given::Flag(*disabled)),
                (Field::Op, Given::Op(OpName::CreateConvolver)),
            ];
            push_object(out, rate, &members)
        }
        Op::CreateBufferSource {
            name,
            buffer,
            looping,
            loop_start,
            loop_end,
            playback_rate,
        } => {
            let members = [
                (Field::As, Given::Name(name)),
                (Field::Buffer, Given::NameOrNull(buffer)),
                (Field::Loop, Given::Flag(*looping)),
                (Field::LoopEnd, Given::Time(*loop_end)),
                (Field::LoopStart, Given::Time(*loop_start)),
                (Field::Op, Given::Op(OpName::CreateBufferSource)),
                (Field::PlaybackRate, Given::Fix(*playback_rate)),
            ];
            push_object(out, rate, &members)
        }
        _ => unreachable!(),
    }
}

/// Appends what is done to a shaper, or its creation.
pub fn push_on_shaper(out: &mut Vec<u8>, rate: u32, op: &Op) -> Result<(), AllocError>
    requires rate { 1 ≤ rate }
    requires shaper { interface_of op.now ≡ Interface.Shaper }
    ensures { OnOk result (out.new.items ≡ out.old.items ++ compact_text (call_data rate no_items op.now)) }
{
    match op {
        Op::CreateWaveShaper {
            name,
            curve,
            oversample,
        } => push_object(
            out,
            rate,
            &[
                (Field::As, Given::Name(name)),
                (Field::Curve, Given::FixesOrNull(curve)),
                (Field::Op, Given::Op(OpName::CreateWaveShaper)),
                (Field::Oversample, Given::Oversample(*oversample)),
            ],
        ),
        Op::SetCurve { node, curve } => push_object(
            out,
            rate,
            &[
                (Field::Curve, Given::FixesOrNull(curve)),
                (Field::Node, Given::Name(node)),
                (Field::Op, Given::Op(OpName::SetCurve)),
            ],
        ),
        Op::SetOversample { node, value } => {
            let value = Given::Oversample(*value);
            push_setting(out, rate, OpName::SetOversample, node, value)
        }
        _ => unreachable!(),
    }
}
