ghost use Rattle.std.specs.Prelude.{◌≡◌};
ghost use Rattle.prune_script.specs.Pruned as spec;

use script_ast::Op;
use std::marker::Model;
use wa_base::Name;

// The names of nodes that an operation has.
#[derive(Drop)]
pub(crate) struct NodeNames<'a> {
    pub(crate) first: Option<&'a Name>,
    pub(crate) second: Option<&'a Name>,
}

impl<'a> Model for NodeNames<'a> {
    ghost use Rattle.std.specs.Prelude.{ℕ, List, ◌++◌, option_map, option_to_list};

    ghost Value = { List (List ℕ) };

    ghost view = { λ names. option_to_list (option_map (λ name. name.now) names.first) ++ option_to_list (option_map (λ name. name.now) names.second) };
}

// Whether a call creates a node.
pub(crate) fn creates_node(op: &Op) -> bool
    ensures { result ≡ spec.creates_node op.now }
{
    match op {
        Op::CreateBuffer { .. } | Op::DecodeAudioData { .. } => false,
        _ => op.new_name().is_some(),
    }
}

pub(crate) fn is_connect(op: &Op) -> bool
    ensures { result ≡ spec.is_connect op.now }
{
    matches!(op, Op::Connect { .. } | Op::ConnectParam { .. })
}

pub(crate) fn is_read(op: &Op) -> bool
    ensures { result ≡ spec.is_read op.now }
{
    matches!(op, Op::ReadValue { .. } | Op::ReadState | Op::ReadTime)
}

pub(crate) fn is_start(op: &Op) -> bool
    ensures { result ≡ spec.is_start op.now }
{
    matches!(op, Op::StartRendering)
}

// The names of nodes that an operation has.
pub(crate) fn node_names(op: &Op) -> NodeNames<'_>
    ensures { result ≡ spec.node_names op.now }
{
    match op {
        Op::Connect { from, to, .. }
        | Op::ConnectParam { from, to, .. }
        | Op::DisconnectParam { from, to, .. } => NodeNames {
            first: Some(from),
            second: Some(to),
        },
        Op::Disconnect { from, to, .. } => NodeNames {
            first: Some(from),
            second: to.as_ref(),
        },
        Op::SetChannelCount { node, .. }
        | Op::SetChannelCountMode { node, .. }
        | Op::SetChannelInterpretation { node, .. }
        | Op::SetCurve { node, .. }
        | Op::SetOversample { node, .. }
        | Op::SetBuffer { node, .. }
        | Op::SetLoop { node, .. }
        | Op::SetLoopStart { node, .. }
        | Op::SetLoopEnd { node, .. }
        | Op::Start { node, .. }
        | Op::Stop { node, .. }
        | Op::SetValue { node, .. }
        | Op::SetValueAtTime { node, .. }
        | Op::LinearRampToValueAtTime { node, .. }
        | Op::SetValueCurveAtTime { node, .. }
        | Op::CancelScheduledValues { node, .. }
        | Op::CancelAndHoldAtTime { node, .. }
        | Op::SetAutomationRate { node, .. }
        | Op::ExponentialRampToValueAtTime { node, .. }
        | Op::SetTargetAtTime { node, .. }
        | Op::ReadValue { node, .. } => NodeNames {
            first: Some(node),
            second: None,
        },
        _ => NodeNames {
            first: None,
            second: None,
        },
    }
}
