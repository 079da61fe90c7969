use crate::field_texts::{
    code_text, count_text, interp_text, list_or_none, list_text, mode_text, oversample_text, text,
    text_or_none,
};
use crate::param_texts::param_op_text;
use node_table::{Equation, Kind};
use script_ast::Op;
use std::alloc::{AllocError, Global};
use wa_base::Name;

// The functions below have the operations of one subject each. What is of another subject goes on to
// the next one.

/// The operation's word and its fields, in the order in which they are read.
pub fn op_text(alloc: Global, op: &Op) -> Result<String, AllocError> {
    match op {
        Op::Suspend { time } => format!(in alloc; "suspend {time}"),
        Op::StartRendering => String::from_str(alloc, "startRendering"),
        Op::Resume => String::from_str(alloc, "resume"),
        Op::DecodeAudioData { name, path } => {
            format!(in alloc; "decodeAudioData {} {}", text(name), path.as_str())
        }
        Op::ReadState => String::from_str(alloc, "readState"),
        Op::ReadTime => String::from_str(alloc, "readTime"),
        Op::LeftOut { name } => format!(in alloc; "left out {}", name.feature().word()),
        _ => creation_text(alloc, op),
    }
}

fn creation_text(alloc: Global, op: &Op) -> Result<String, AllocError> {
    match op {
        Op::Create { name, kind } => kind_text(alloc, text(name), kind),
        Op::CreateDelay {
            name,
            max_delay_time,
            delay_time,
        } => { format!(in alloc; "createDelay {} {max_delay_time} {delay_time}", text(name)) }
        Op::CreateBuffer {
            name,
            channels,
            length,
            rate,
        } => format!(in alloc; "createBuffer {} {channels} {length} {rate}", text(name)),
        Op::CreateConvolver {
            name,
            buffer,
            disable_normalization,
        } => {
            let buffer = text_or_none(buffer);
            format!(in alloc;
                "createConvolver {} {buffer} {disable_normalization}",
                text(name)
            )
        }
        Op::CreateProcessor { name, code } => {
            let code = code_text(alloc, code)?;
            format!(in alloc; "createProcessor {} [{code}]", text(name))
        }
        _ => connection_text(alloc, op),
    }
}

// The creation of a node that its kind alone tells.
fn kind_text(alloc: Global, name: &str, kind: &Kind) -> Result<String, AllocError> {
    match kind {
        Kind::Constant { offset } => format!(in alloc; "createConstantSource {name} {offset}"),
        Kind::Gain { gain } => format!(in alloc; "createGain {name} {gain}"),
        Kind::Splitter { outputs } => format!(in alloc; "createChannelSplitter {name} {outputs}"),
        Kind::Merger { inputs } => format!(in alloc; "createChannelMerger {name} {inputs}"),
        Kind::Causal {
            equation: Equation::Filter { forward, back },
        } => {
            let forward = list_text(alloc, forward)?;
            let back = list_text(alloc, back)?;
            format!(in alloc; "createIIRFilter {name} {forward} {back}")
        }
        Kind::Causal {
            equation: Equation::Convolution { .. } | Equation::Processor { .. },
        }
        | Kind::Destination
        | Kind::Buffer { .. }
        | Kind::Delay { .. }
        | Kind::Shaper { .. } => format!(in alloc; "create {name}"),
    }
}

fn connection_text(alloc: Global, op: &Op) -> Result<String, AllocError> {
    match op {
        Op::Connect {
            from,
            output,
            to,
            input,
        } => format!(in alloc; "connect {} {output} {} {input}", text(from), text(to)),
        Op::ConnectParam {
            from,
            output,
            to,
            param,
        } => {
            let param = text(param);
            format!(in alloc; "connectParam {} {output} {} {param}", text(from), text(to))
        }
        Op::Disconnect {
            from,
            output,
            to,
            input,
        } => disconnect_text(alloc, text(from), *output, to, *input),
        Op::DisconnectParam {
            from,
            to,
            param,
            output,
        } => {
            let output = count_text(alloc, *output)?;
            let end = format!(in alloc; "{} {}", text(to), text(param))?;
            format!(in alloc; "disconnectParam {} {end} {output}", text(from))
        }
        _ => attribute_text(alloc, op),
    }
}

fn disconnect_text(
    alloc: Global,
    from: &str,
    output: Option<u32>,
    to: &Option<Name>,
    input: Option<u32>,
) -> Result<String, AllocError> {
    let output = count_text(alloc, output)?;
    let input = count_text(alloc, input)?;
    let to = text_or_none(to);
    format!(in alloc; "disconnect {from} {output} {to} {input}")
}

fn attribute_text(alloc: Global, op: &Op) -> Result<String, AllocError> {
    match op {
        Op::SetChannelCount { node, value } => {
            format!(in alloc; "setChannelCount {} {value}", text(node))
        }
        Op::SetChannelCountMode { node, value } => {
            format!(in alloc; "setChannelCountMode {} {}", text(node), mode_text(*value))
        }
        Op::SetChannelInterpretation { node, value } => {
            format!(in alloc;
                "setChannelInterpretation {} {}",
                text(node),
                interp_text(*value)
            )
        }
        Op::CopyToChannel {
            buffer,
            channel,
            samples,
            at,
        } => {
            let samples = list_text(alloc, samples)?;
            format!(in alloc; "copyToChannel {} {channel} {samples} {at}", text(buffer))
        }
        _ => shaper_text(alloc, op),
    }
}

fn shaper_text(alloc: Global, op: &Op) -> Result<String, AllocError> {
    match op {
        Op::CreateWaveShaper {
            name,
            curve,
            oversample,
        } => {
            let curve = list_or_none(alloc, curve)?;
            let oversample = oversample_text(*oversample);
            format!(in alloc; "createWaveShaper {} {curve} {oversample}", text(name))
        }
        Op::SetCurve { node, curve } => {
            let curve = list_or_none(alloc, curve)?;
            format!(in alloc; "setCurve {} {curve}", text(node))
        }
        Op::SetOversample { node, value } => {
            format!(in alloc; "setOversample {} {}", text(node), oversample_text(*value))
        }
        _ => buffer_source_text(alloc, op),
    }
}

fn buffer_source_text(alloc: Global, op: &Op) -> Result<String, AllocError> {
    match op {
        Op::CreateBufferSource {
            name,
            buffer,
            looping,
            loop_start,
            loop_end,
            playback_rate,
        } => {
            let parts = format!(in alloc; "{looping} {loop_start} {loop_end} {playback_rate}")?;
            format!(in alloc;
                "createBufferSource {} {} {parts}",
                text(name),
                text_or_none(buffer)
            )
        }
        Op::SetBuffer { node, buffer } => {
            format!(in alloc; "setBuffer {} {}", text(node), text_or_none(buffer))
        }
        Op::SetLoop { node, value } => format!(in alloc; "setLoop {} {value}", text(node)),
        Op::SetLoopStart { node, value } => {
            format!(in alloc; "setLoopStart {} {value}", text(node))
        }
        Op::SetLoopEnd { node, value } => format!(in alloc; "setLoopEnd {} {value}", text(node)),
        _ => source_text(alloc, op),
    }
}

fn source_text(alloc: Global, op: &Op) -> Result<String, AllocError> {
    match op {
        Op::Start {
            node,
            when,
            offset,
            duration: Some(duration),
        } => format!(in alloc; "start {} {when} {offset} {duration}", text(node)),
        Op::Start {
            node,
            when,
            offset,
            duration: None,
        } => format!(in alloc; "start {} {when} {offset} none", text(node)),
        Op::Stop { node, when } => format!(in alloc; "stop {} {when}", text(node)),
        _ => param_op_text(alloc, op),
    }
}
