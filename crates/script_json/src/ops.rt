ghost use Rattle.std.specs.Prelude.{◌≡◌, IfOk};
ghost use Rattle.json_tree.specs.View.{view};
ghost use Rattle.script_json.specs.Calls.{op_in};

use crate::creations::create;
use crate::param_ops::build_param_op;
use crate::shaper_ops::{create_wave_shaper, set_curve, set_oversample};
use json_tree::Value;
use script_ast::{Clock, Field, Op, OpName, entries};
use script_fields::{
    code, count, count_or_null, fix, fixes, flag, interp, mode, path, text, text_or_null, time,
    time_or_null,
};
use std::alloc::Global;
use wa_base::NoMemory;

/// The operation of a call with its fields, which have no fault.
pub fn build(alloc: Global, clock: Clock, name: OpName, call: &Value<'_>) -> Result<Op, NoMemory>
    ensures { IfOk result (λ op. op ≡ op_in clock name (view call.now)) }
{
    match name {
        OpName::Create(name) => create(alloc, name, call),
        OpName::CreateDelay => create_delay(alloc, call),
        OpName::CreateWaveShaper => create_wave_shaper(alloc, call),
        OpName::CreateConvolver => create_convolver(alloc, call),
        OpName::CreateProcessor => create_processor(alloc, call),
        OpName::CreateBufferSource => create_buffer_source(alloc, clock, call),
        OpName::CreateBuffer => create_buffer(alloc, call),
        OpName::Connect => connect(alloc, call),
        OpName::ConnectParam => connect_param(alloc, call),
        OpName::Disconnect => disconnect(alloc, call),
        OpName::DisconnectParam => disconnect_param(alloc, call),
        OpName::SetChannelCount => set_channel_count(alloc, call),
        OpName::SetChannelCountMode => set_channel_count_mode(alloc, call),
        OpName::SetChannelInterpretation => set_channel_interpretation(alloc, call),
        OpName::SetCurve => set_curve(alloc, call),
        OpName::SetOversample => set_oversample(alloc, call),
        OpName::SetBuffer => set_buffer(alloc, call),
        OpName::SetLoop => set_loop(alloc, call),
        OpName::SetLoopStart => set_loop_start(alloc, clock, call),
        OpName::SetLoopEnd => set_loop_end(alloc, clock, call),
        OpName::CopyToChannel => copy_to_channel(alloc, call),
        OpName::Start => start(alloc, clock, call),
        OpName::Stop => stop(alloc, clock, call),
        OpName::Param(name) => build_param_op(alloc, clock, name, call),
        OpName::Suspend => Ok(suspend(clock, call)),
        OpName::StartRendering => Ok(Op::StartRendering),
        OpName::Resume => Ok(Op::Resume),
        OpName::DecodeAudioData => decode_audio_data(alloc, call),
        OpName::ReadState => Ok(Op::ReadState),
        OpName::ReadTime => Ok(Op::ReadTime),
        OpName::LeftOut(name) => Ok(Op::LeftOut { name }),
    }
}

// Of those below the ones with a time are handed the clock. The others are the same on every clock.

fn create_delay(alloc: Global, call: &Value<'_>) -> Result<Op, NoMemory>
    ensures { IfOk result (λ op. op ≡ op_in Clock.Frames OpName.CreateDelay (view call.now)) }
{
    Ok(Op::CreateDelay {
        name: text(alloc, call, Field::As)?,
        max_delay_time: fix(call, &entries::CREATE_DELAY, Field::MaxDelayTime),
        delay_time: fix(call, &entries::CREATE_DELAY, Field::DelayTime),
    })
}

fn create_convolver(alloc: Global, call: &Value<'_>) -> Result<Op, NoMemory>
    ensures { IfOk result (λ op. op ≡ op_in Clock.Frames OpName.CreateConvolver (view call.now)) }
{
    Ok(Op::CreateConvolver {
        name: text(alloc, call, Field::As)?,
        buffer: text_or_null(alloc, call, Field::Buffer)?,
        disable_normalization: flag(
            call,
            &entries::CREATE_CONVOLVER,
            Field::DisableNormalization,
        ),
    })
}

fn create_processor(alloc: Global, call: &Value<'_>) -> Result<Op, NoMemory>
    ensures { IfOk result (λ op. op ≡ op_in Clock.Frames OpName.CreateProcessor (view call.now)) }
{
    Ok(Op::CreateProcessor {
        name: text(alloc, call, Field::As)?,
        code: code(alloc, call, Field::Code)?,
    })
}

fn create_buffer_source(alloc: Global, clock: Clock, call: &Value<'_>) -> Result<Op, NoMemory>
    ensures { IfOk result (λ op. op ≡ op_in clock OpName.CreateBufferSource (view call.now)) }
{
    Ok(Op::CreateBufferSource {
        name: text(alloc, call, Field::As)?,
        buffer: text_or_null(alloc, call, Field::Buffer)?,
        looping: flag(call, &entries::CREATE_BUFFER_SOURCE, Field::Loop),
        loop_start: time(
            clock,
            call,
            &entries::CREATE_BUFFER_SOURCE,
            Field::LoopStart,
        ),
        loop_end: time(clock, call, &entries::CREATE_BUFFER_SOURCE, Field::LoopEnd),
        playback_rate: fix(call, &entries::CREATE_BUFFER_SOURCE, Field::PlaybackRate),
    })
}

fn create_buffer(alloc: Global, call: &Value<'_>) -> Result<Op, NoMemory>
    ensures { IfOk result (λ op. op ≡ op_in Clock.Frames OpName.CreateBuffer (view call.now)) }
{
    Ok(Op::CreateBuffer {
        name: text(alloc, call, Field::As)?,
        channels: count(call, &entries::CREATE_BUFFER, Field::Channels),
        length: count(call, &entries::CREATE_BUFFER, Field::Length),
        rate: count(call, &entries::CREATE_BUFFER, Field::Rate),
    })
}

fn connect(alloc: Global, call: &Value<'_>) -> Result<Op, NoMemory>
    ensures { IfOk result (λ op. op ≡ op_in Clock.Frames OpName.Connect (view call.now)) }
{
    Ok(Op::Connect {
        from: text(alloc, call, Field::From)?,
        output: count(call, &entries::CONNECT, Field::Output),
        to: text(alloc, call, Field::To)?,
        input: count(call, &entries::CONNECT, Field::Input),
    })
}

fn connect_param(alloc: Global, call: &Value<'_>) -> Result<Op, NoMemory>
    ensures { IfOk result (λ op. op ≡ op_in Clock.Frames OpName.ConnectParam (view call.now)) }
{
    Ok(Op::ConnectParam {
        from: text(alloc, call, Field::From)?,
        output: count(call, &entries::CONNECT_PARAM, Field::Output),
        to: text(alloc, call, Field::To)?,
        param: text(alloc, call, Field::Param)?,
    })
}

fn disconnect(alloc: Global, call: &Value<'_>) -> Result<Op, NoMemory>
    ensures { IfOk result (λ op. op ≡ op_in Clock.Frames OpName.Disconnect (view call.now)) }
{
    Ok(Op::Disconnect {
        from: text(alloc, call, Field::From)?,
        output: count_or_null(call, Field::Output),
        to: text_or_null(alloc, call, Field::To)?,
        input: count_or_null(call, Field::Input),
    })
}

fn disconnect_param(alloc: Global, call: &Value<'_>) -> Result<Op, NoMemory>
    ensures { IfOk result (λ op. op ≡ op_in Clock.Frames OpName.DisconnectParam (view call.now)) }
{
    Ok(Op::DisconnectParam {
        from: text(alloc, call, Field::From)?,
        to: text(alloc, call, Field::To)?,
        param: text(alloc, call, Field::Param)?,
        output: count_or_null(call, Field::Output),
    })
}

fn set_channel_count(alloc: Global, call: &Value<'_>) -> Result<Op, NoMemory>
    ensures { IfOk result (λ op. op ≡ op_in Clock.Frames OpName.SetChannelCount (view call.now)) }
{
    Ok(Op::SetChannelCount {
        node: text(alloc, call, Field::Node)?,
        value: count(call, &entries::SET_CHANNEL_COUNT, Field::Value),
    })
}

fn set_channel_count_mode(alloc: Global, call: &Value<'_>) -> Result<Op, NoMemory>
    ensures { IfOk result (λ op. op ≡ op_in Clock.Frames OpName.SetChannelCountMode (view call.now)) }
{
    Ok(Op::SetChannelCountMode {
        node: text(alloc, call, Field::Node)?,
        value: mode(call, Field::Value),
    })
}

fn set_channel_interpretation(alloc: Global, call: &Value<'_>) -> Result<Op, NoMemory>
    ensures { IfOk result (λ op. op ≡ op_in Clock.Frames OpName.SetChannelInterpretation (view call.now)) }
{
    Ok(Op::SetChannelInterpretation {
        node: text(alloc, call, Field::Node)?,
        value: interp(call, Field::Value),
    })
}

fn set_buffer(alloc: Global, call: &Value<'_>) -> Result<Op, NoMemory>
    ensures { IfOk result (λ op. op ≡ op_in Clock.Frames OpName.SetBuffer (view call.now)) }
{
    Ok(Op::SetBuffer {
        node: text(alloc, call, Field::Node)?,
        buffer: text_or_null(alloc, call, Field::Buffer)?,
    })
}

fn set_loop(alloc: Global, call: &Value<'_>) -> Result<Op, NoMemory>
    ensures { IfOk result (λ op. op ≡ op_in Clock.Frames OpName.SetLoop (view call.now)) }
{
    Ok(Op::SetLoop {
        node: text(alloc, call, Field::Node)?,
        value: flag(call, &entries::SET_LOOP, Field::Value),
    })
}

fn set_loop_start(alloc: Global, clock: Clock, call: &Value<'_>) -> Result<Op, NoMemory>
    ensures { IfOk result (λ op. op ≡ op_in clock OpName.SetLoopStart (view call.now)) }
{
    Ok(Op::SetLoopStart {
        node: text(alloc, call, Field::Node)?,
        value: time(clock, call, &entries::SET_LOOP_START, Field::Value),
    })
}

fn set_loop_end(alloc: Global, clock: Clock, call: &Value<'_>) -> Result<Op, NoMemory>
    ensures { IfOk result (λ op. op ≡ op_in clock OpName.SetLoopEnd (view call.now)) }
{
    Ok(Op::SetLoopEnd {
        node: text(alloc, call, Field::Node)?,
        value: time(clock, call, &entries::SET_LOOP_END, Field::Value),
    })
}

fn copy_to_channel(alloc: Global, call: &Value<'_>) -> Result<Op, NoMemory>
    ensures { IfOk result (λ op. op ≡ op_in Clock.Frames OpName.CopyToChannel (view call.now)) }
{
    Ok(Op::CopyToChannel {
        buffer: text(alloc, call, Field::Buffer)?,
        channel: count(call, &entries::COPY_TO_CHANNEL, Field::Channel),
        samples: fixes(alloc, call, Field::Samples)?,
        at: count(call, &entries::COPY_TO_CHANNEL, Field::At),
    })
}

fn start(alloc: Global, clock: Clock, call: &Value<'_>) -> Result<Op, NoMemory>
    ensures { IfOk result (λ op. op ≡ op_in clock OpName.Start (view call.now)) }
{
    Ok(Op::Start {
        node: text(alloc, call, Field::Node)?,
        when: time(clock, call, &entries::START, Field::When),
        offset: time(clock, call, &entries::START, Field::Offset),
        duration: time_or_null(clock, call, Field::Duration),
    })
}

fn stop(alloc: Global, clock: Clock, call: &Value<'_>) -> Result<Op, NoMemory>
    ensures { IfOk result (λ op. op ≡ op_in clock OpName.Stop (view call.now)) }
{
    Ok(Op::Stop {
        node: text(alloc, call, Field::Node)?,
        when: time(clock, call, &entries::STOP, Field::When),
    })
}

fn suspend(clock: Clock, call: &Value<'_>) -> Op
    ensures { result ≡ op_in clock OpName.Suspend (view call.now) }
{
    Op::Suspend {
        time: time(clock, call, &entries::SUSPEND, Field::Time),
    }
}

fn decode_audio_data(alloc: Global, call: &Value<'_>) -> Result<Op, NoMemory>
    ensures { IfOk result (λ op. op ≡ op_in Clock.Frames OpName.DecodeAudioData (view call.now)) }
{
    Ok(Op::DecodeAudioData {
        name: text(alloc, call, Field::As)?,
        path: path(alloc, call, Field::Path)?,
    })
}
