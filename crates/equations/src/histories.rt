ghost use Rattle.std.specs.Prelude.{◌≡◌, ◌<◌, ◌≤◌, ◌+◌, ◌-◌, ◌∷◌, [], ℕ, true, Some, None, IfOk};
ghost use Rattle.node_table.specs.Curves.{IsCurve, shaper_value};
ghost use Rattle.node_table.specs.declared.equation.Equation.TheVariants as equations;
ghost use Rattle.node_table.specs.declared.kinds.Kind.TheVariants as kinds;
ghost use Rattle.meaning.specs.World.{kind_of};
ghost use Rattle.explain.specs.declared.facts.Key.TheVariants as keys;
ghost use Rattle.explain.specs.Accounts.{result_of, cells_of as cells_left, cells_in};
ghost use Rattle.explain.specs.Facts.{is_processor};
ghost use Rattle.explain.specs.Needs.{history_needs};
ghost use Rattle.derivations.specs.Contexts.{tape_in, world_of, StandsIn};
ghost use Rattle.equations.specs.Given.{IsGiven, meaning_of, AllKnown};
ghost use Rattle.equations.specs.Histories as spec;

use crate::filters::{convolver_output, filter_output};
use crate::told::{cells_of, count_of, inlet_of, value_of};
use derivations::Context;
use explain::Key;
use node_table::{Equation, Kind, Program};
use shaper_iir::shape_all;
use std::alloc::Global;
use wa_base::{End, Fix, NoMemory, NodeId, Samples};
use worklet::frame;

// A channel of the input of a node, at a frame.
#[derive(Clone, Copy)]
pub(crate) struct Heard {
    pub(crate) frame: u64,
    pub(crate) node: NodeId,
    pub(crate) channel: u32,
}

impl Heard {
    // The key of what came of it.
    pub(crate) fn key(self) -> Key
        ensures { result ≡ keys.Hist self.frame self.node self.channel }
    {
        Key::Hist {
            frame: self.frame,
            node: self.node,
            channel: self.channel,
        }
    }

    // The same so many frames before.
    fn ago(self, frames: u64) -> Heard
        requires { frames ≤ self.frame }
        ensures { result ≡ record self { frame = self.frame - frames } }
    {
        Heard {
            frame: self.frame - frames,
            ..self
        }
    }
}

// What comes of all that a node took in on a channel, and the cells that a processor leaves.
#[derive(Clone, Copy)]
pub(crate) struct History {
    pub(crate) value: i64,
    pub(crate) cells: Option<[Fix; 16]>,
}

impl History {
    fn without_cells(value: Fix) -> History
        ensures { result ≡ record { value = value; cells = None } }
    {
        History {
            value: i64::from(value),
            cells: None,
        }
    }
}

// What comes of a history up to a frame.
pub(crate) fn history_of(
    alloc: Global,
    context: Context<'_>,
    heard: Heard,
) -> Result<History, NoMemory>
    requires given { IsGiven context }
    requires past { spec.HasPast context heard }
    requires known { AllKnown context (history_needs context.quantum (tape_in context) (meaning_of context) heard.frame heard.node.0 heard.channel) }
    ensures value { IfOk result (λ h. h.value ≡ result_of (kind_of (world_of context.entry heard.frame) heard.node.0) (spec.all_heard context.entry heard)) }
    ensures cells { IfOk result (λ h. h.cells ≡ cells_left (kind_of (world_of context.entry heard.frame) heard.node.0) (spec.all_heard context.entry heard)) }
{
    let nodes = &context.piece_at(heard.frame).piece.world.nodes;
    let age = heard.frame - nodes.attrs(heard.node).birth;
    match nodes.kind(heard.node) {
        Kind::Shaper { curve, .. } => {
            let value = shaped(curve, taken(context, heard));
            Ok(History::without_cells(value))
        }
        Kind::Causal { equation } => caused(alloc, context, heard, age, equation),
        _ => unreachable!(),
    }
}

// By the equation of a node that is so many frames old.
fn caused(
    alloc: Global,
    context: Context<'_>,
    heard: Heard,
    age: u64,
    equation: &Equation,
) -> Result<History, NoMemory>
    requires given { IsGiven context }
    requires recalled { spec.IsRecalled context heard age }
    requires kind { kind_of (world_of context heard.frame) heard.node.0 ≡ kinds.Causal equation.now }
    ensures value { IfOk result (λ h. h.value ≡ result_of (kinds.Causal equation.now) (spec.all_heard context.entry heard)) }
    ensures cells { IfOk result (λ h. h.cells ≡ cells_left (kinds.Causal equation.now) (spec.all_heard context.entry heard)) }
{
    match equation {
        Equation::Filter { forward, back } => {
            let value = filtered(alloc, context, heard, age, forward, back)?;
            Ok(History::without_cells(value))
        }
        Equation::Convolution { response } => {
            let value = convolved(alloc, context, heard, age, response)?;
            Ok(History::without_cells(value))
        }
        Equation::Processor { program } => Ok(processed(context, heard, age, program)),
    }
}

// The output of a filter, from what it took in at the place of each feedforward coefficient, and what
// it put out at the place of each feedback coefficient but the first.
fn filtered(
    alloc: Global,
    context: Context<'_>,
    heard: Heard,
    age: u64,
    forward: &Samples,
    back: &Samples,
) -> Result<Fix, NoMemory>
    requires given { IsGiven context }
    requires recalled { spec.IsRecalled context heard age }
    requires kind { kind_of (world_of context heard.frame) heard.node.0 ≡ kinds.Causal (equations.Filter forward.now back.now) }
    ensures { IfOk result (λ value. value ≡ result_of (kinds.Causal (equations.Filter forward.now back.now)) (spec.all_heard context.entry heard)) }
{
    let inputs = frames_taken(
        alloc,
        context,
        heard,
        age.saturating_add(1).min(forward.len() as u64),
    )?;
    let outputs = results_before(alloc, context, heard, age.min(back.len() as u64 - 1))?;
    Ok(filter_output(
        forward.as_slice(),
        back.as_slice(),
        inputs.as_slice(),
        outputs.as_slice(),
    ))
}

// The output of a convolver, from what it took in at the place of each sample of its response.
fn convolved(
    alloc: Global,
    context: Context<'_>,
    heard: Heard,
    age: u64,
    response: &Samples,
) -> Result<Fix, NoMemory>
    requires given { IsGiven context }
    requires recalled { spec.IsRecalled context heard age }
    requires kind { kind_of (world_of context heard.frame) heard.node.0 ≡ kinds.Causal (equations.Convolution response.now) }
    ensures { IfOk result (λ value. value ≡ result_of (kinds.Causal (equations.Convolution response.now)) (spec.all_heard context.entry heard)) }
{
    let inputs = frames_taken(
        alloc,
        context,
        heard,
        age.saturating_add(1).min(response.len() as u64),
    )?;
    Ok(convolver_output(response.as_slice(), inputs.as_slice()))
}

// The output of a processor, and the cells that it leaves, from what it took in and from the cells that
// it left before.
fn processed(context: Context<'_>, heard: Heard, age: u64, program: &Program) -> History
    requires given { IsGiven context }
    requires recalled { spec.IsRecalled context heard age }
    requires kind { kind_of (world_of context heard.frame) heard.node.0 ≡ kinds.Causal (equations.Processor program.now) }
    ensures value { result.value ≡ result_of (kinds.Causal (equations.Processor program.now)) (spec.all_heard context.entry heard) }
    ensures cells { result.cells ≡ cells_left (kinds.Causal (equations.Processor program.now)) (spec.all_heard context.entry heard) }
{
    let mut cells = match age {
        0 => [0; 16],
        _ => cells_before(context, heard),
    };
    let value = frame(program, &mut cells, taken(context, heard));
    History {
        value: i64::from(value),
        cells: Some(cells),
    }
}

// The cells that a processor left at the frame before.
fn cells_before(context: Context<'_>, heard: Heard) -> [Fix; 16]
    requires given { IsGiven context }
    requires later { 1 ≤ heard.frame }
    requires past { spec.HasPast context (spec.heard_ago heard 1) }
    requires processor { is_processor (kind_of (world_of context (heard.frame - 1)) heard.node.0) ≡ true }
    requires known { StandsIn context (keys.Hist (heard.frame - 1) heard.node heard.channel) }
    ensures { cells_in context.entry.quantum (tape_in context.entry) (meaning_of context.entry) (keys.Hist (heard.frame - 1) heard.node heard.channel) ≡ Some result }
{
    match cells_of(context, heard.frame - 1, heard.node, heard.channel) {
        Some(cells) => cells,
        None => unreachable!(),
    }
}

// The output of a shaper.
fn shaped(curve: &Option<Samples>, x: Fix) -> Fix
    requires { IsCurve curve.now }
    ensures { result ≡ shaper_value curve.now (x ∷ []) }
{
    let mut y = [0];
    shape_all(curve, &[x], &mut y);
    y[0]
}

// What a node took in at a frame.
fn taken(context: Context<'_>, heard: Heard) -> Fix
    requires given { IsGiven context }
    requires heard { spec.IsHeard context heard }
    ensures { result ≡ spec.taken_at context.entry heard heard.frame }
{
    let end = End {
        node: heard.node,
        writer: false,
    };
    let quantum = heard.frame / u64::from(context.quantum);
    if context.piece(quantum).is_muted(end) {
        return 0;
    }
    if heard.channel >= count_of(context, quantum, end, 0) {
        return 0;
    }
    inlet_of(context, heard.frame, end, 0, heard.channel)
}

// What a node took in at a frame and at those before it, so many in all, the newest first.
fn frames_taken(
    alloc: Global,
    context: Context<'_>,
    heard: Heard,
    count: u64,
) -> Result<Vec<i64>, NoMemory>
    requires given { IsGiven context }
    requires few { count ≤ heard.frame + 1 }
    requires each { (ago : ℕ) → ago < count → spec.IsHeard context (spec.heard_ago heard ago) }
    ensures { IfOk result (λ frames. frames.items ≡ spec.back_from (spec.taken_at context.entry heard) heard.frame 0 count) }
{
    let mut frames = Vec::new(alloc);
    for ago in 0..count {
        frames.push(i64::from(taken(context, heard.ago(ago))))?;
    }
    Ok(frames)
}

// What came of it at the frames before, so many in all, the newest first.
fn results_before(
    alloc: Global,
    context: Context<'_>,
    heard: Heard,
    count: u64,
) -> Result<Vec<i64>, NoMemory>
    requires given { IsGiven context }
    requires few { count ≤ heard.frame }
    requires each { (ago : ℕ) → ago < count → StandsIn context (keys.Hist (heard.frame - (ago + 1)) heard.node heard.channel) }
    ensures { IfOk result (λ results. results.items ≡ spec.back_from (spec.result_at context.entry heard) heard.frame 1 count) }
{
    let mut results = Vec::new(alloc);
    for ago in 0..count {
        results.push(value_of(context, heard.ago(ago + 1).key()))?;
    }
    Ok(results)
}
