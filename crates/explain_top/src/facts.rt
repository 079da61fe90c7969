ghost use Rattle.std.specs.Prelude.{◌≡◌, ◌↔◌, ◌<◌, Some, length, IsTrue, IfSome, IfNone};
ghost use Rattle.node_table.specs.Kinds.{param_name};
ghost use Rattle.law_base.specs.Members.{IsIn};
ghost use Rattle.conn_graph.specs.Ends.{ends};
ghost use Rattle.meaning.specs.Validity.{IsValid};
ghost use Rattle.meaning.specs.World.{sounding, kind_of as spec_kind_of};
ghost use Rattle.explain.specs.Facts as spec;
ghost use Rattle.explain.specs.Facts.{IsFactOf, HasKey, HasOutput, HasInput};
ghost use Rattle.derivations.specs.Contexts.{tape_in, IsReady};

use derivations::Context;
use explain::{Fact, Key};
use meaning::World;
use node_table::{Equation, Kind};
use wa_base::{End, NodeId, ParamName};

const CHANNELS: u32 = 32;

// Whether a fact is one of the tape, true or not.
pub(crate) fn is_fact(context: Context<'_>, fact: &Fact) -> bool
    requires ready { IsReady context }
    ensures { IsTrue result ↔ IsFactOf context.entry.quantum (tape_in context.entry) fact.now }
{
    match context.tape.world(quantum_of(context.quantum, fact.key)) {
        Some(world) => {
            has_key(world, fact.key) && fact.cells.is_some() == has_cells(world, fact.key)
        }
        None => false,
    }
}

// The quantum that a key is about.
fn quantum_of(quantum: u32, key: Key) -> u64
    requires { 0 < quantum }
    ensures { result ≡ spec.quantum_of_key quantum key }
{
    match key {
        Key::Count { quantum, .. } => quantum,
        Key::Inlet { frame, .. }
        | Key::Par { frame, .. }
        | Key::Hist { frame, .. }
        | Key::Out { frame, .. } => frame / u64::from(quantum),
    }
}

// Whether a world has what a key names.
fn has_key(world: &World, key: Key) -> bool
    requires valid { IsValid world.now }
    ensures { IsTrue result ↔ HasKey (sounding world.now) key }
{
    match key {
        Key::Count { end, output, .. } => has_output(world, end, output),
        Key::Inlet {
            end,
            input,
            channel,
            ..
        } => has_input(world, end, input) && channel < CHANNELS,
        Key::Par { node, name, .. } => match kind_of(world, node) {
            Some(kind) => has_param(kind, name),
            None => false,
        },
        Key::Hist { node, channel, .. } => match kind_of(world, node) {
            Some(kind) => has_history(kind) && channel < CHANNELS,
            None => false,
        },
        Key::Out {
            end,
            output,
            channel,
            ..
        } => has_output(world, end, output) && channel < CHANNELS,
    }
}

// Whether an end is there, and has an output.
fn has_output(world: &World, end: End, output: u32) -> bool
    requires valid { IsValid world.now }
    ensures { IsTrue result ↔ HasOutput (sounding world.now) end output }
{
    has_end(world, end) && output < world.nodes.kind(end.node).row().outputs
}

fn has_end(world: &World, end: End) -> bool
    requires valid { IsValid world.now }
    ensures end { IsTrue result ↔ IsIn end (ends world.now.graph.value) }
    ensures node { IsTrue result → end.node.0 < length world.now.nodes }
{
    if end.node.0 >= world.graph.len() {
        return false;
    }
    !end.writer || world.graph.is_delay(end.node)
}

// Whether connections arrive at an end, and it has an input.
fn has_input(world: &World, end: End, input: u32) -> bool
    requires valid { IsValid world.now }
    ensures { IsTrue result ↔ HasInput (sounding world.now) end input }
{
    match kind_of(world, end.node) {
        Some(kind) => { end.writer == world.graph.is_delay(end.node) && input < kind.row().inputs }
        None => false,
    }
}

// What a node is, if it is there.
fn kind_of(world: &World, node: NodeId) -> Option<&Kind>
    ensures some { IfSome result (λ kind. (node.0 < length world.now.nodes) × (spec_kind_of world.now node.0 ≡ kind.now)) }
    ensures none { IfNone result (node.0 < length world.now.nodes → ⊥) }
{
    if node.0 < world.nodes.len() {
        Some(world.nodes.kind(node))
    } else {
        None
    }
}

// Whether a fact about a key has cells.
fn has_cells(world: &World, key: Key) -> bool
    requires key { HasKey (sounding world.now) key }
    ensures { result ≡ spec.has_cells (sounding world.now) key }
{
    match key {
        Key::Hist { node, .. } => is_processor(world.nodes.kind(node)),
        Key::Count { .. } | Key::Inlet { .. } | Key::Par { .. } | Key::Out { .. } => false,
    }
}

fn has_param(kind: &Kind, name: ParamName) -> bool
    ensures { IsTrue result ↔ (param_name kind.now ≡ Some name) }
{
    match kind.row().param {
        Some(param) => param.name == name,
        None => false,
    }
}

fn has_history(kind: &Kind) -> bool
    ensures { result ≡ spec.has_history kind.now }
{
    matches!(kind, Kind::Shaper { .. } | Kind::Causal { .. })
}

fn is_processor(kind: &Kind) -> bool
    ensures { result ≡ spec.is_processor kind.now }
{
    matches!(
        kind,
        Kind::Causal {
            equation: Equation::Processor { .. }
        }
    )
}
