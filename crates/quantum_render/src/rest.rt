ghost use Rattle.std.specs.Prelude.{◌≡◌, ◌≤◌, ◌<◌, ◌^◌, ◌⊎◌, ℕ, ℤ, List, [], length, slice_index_or, All, nat_le, if◌then◌else◌, true, false, IsTrue, IfSome, FitsSigned};
ghost use Rattle.std.specs.Int.{w32};
ghost use Rattle.wa_base.specs.Contexts.{quantum_of};
ghost use Rattle.wa_base.specs.declared.graph_names.End.{End as an_end};
ghost use Rattle.law_base.specs.Members.{IsIn};
ghost use Rattle.node_table.specs.declared.kinds.Kind.TheVariants.{Gain};
ghost use Rattle.conn_graph.specs.declared.edges.Edge.{Edge as an_edge};
ghost use Rattle.conn_graph.specs.declared.edges.Target.TheVariants.{Input};
ghost use Rattle.conn_graph.specs.Ends.{ends, reader_of, muted as is_muted};
ghost use Rattle.sched_source.specs.Schedule.{plays_at};
ghost use Rattle.automation.specs.Ready.{IsHeld};
ghost use Rattle.meaning.specs.World.{kind_of, sounds_at, param_id};
ghost use Rattle.meaning.specs.Validity.{IsValid};
ghost use Rattle.quantum_blocks.specs.Blocks.{slot as slot_of, counts_in};
ghost use Rattle.quantum_blocks.specs.Connections.{into as leads_into, leads_to};
ghost use Rattle.quantum_blocks.specs.Fits.{AreInRange, AreFit};
ghost use Rattle.quantum_render.specs.Plans.{IsPlan};
ghost use Rattle.quantum_render.specs.Idle.{IsMarked, IsUnheard, IsQuiet, IsIdle, AreIdle, BringsSilence, HasLevel, IsStill, IsStillGain, IsStillSource, StaysSilent};
ghost use Rattle.quantum_render.specs.Ahead.{IsAhead};

use crate::counting::{Census, has_count};
use automation::Automation;
use conn_graph::{Edge, Target};
use node_table::Kind;
use quantum_blocks::{Block, near_of, play_place, reader, slot};
use sched_source::Sched;
use std::alloc::Global;
use std::marker::Model;
use wa_base::{End, Fix, NoMemory, NodeId, ParamId, ParamName};

// For how many quanta ends are looked at.
const AHEAD: u64 = 32;

// Which ends are idle up to a frame: a mark for each place.
#[derive(Drop)]
pub(crate) struct Rest {
    until: u64,
    marks: Vec<bool>,
}

impl Model for Rest {
    ghost use Rattle.quantum_render.specs.Idle.{RestView};

    ghost Value = { RestView };

    ghost view = { λ r. record { until = r.until; marks = r.marks.items } };
}

impl Rest {
    // Nothing is known to be idle.
    pub(crate) fn new(alloc: Global) -> Rest
        ensures { result.until ≡ 0 }
    {
        Rest {
            until: 0,
            marks: Vec::new(alloc),
        }
    }

    // Takes the memory for so many marks. Nothing is known to be idle any more.
    pub(crate) fn make_room(&mut self, places: usize) -> Result<(), NoMemory>
        ensures { self.new.until ≡ 0 }
    {
        self.wake();
        self.marks.resize(places, false)?;
        Ok(())
    }

    // Nothing is known to be idle any more.
    pub(crate) fn wake(&mut self)
        ensures { self.new.until ≡ 0 }
    {
        self.until = 0;
    }

    // Whether it is known which ends are idle in the quantum that ends before a frame.
    pub(crate) fn lasts(&self, next: u64) -> bool
        ensures { result ≡ nat_le next self.now.until }
    {
        next <= self.until
    }

    // The marks of the ends that are idle in the quantum that ends before a frame. There is none where that is
    // not known.
    pub(crate) fn marks(&self, next: u64) -> &[bool]
        ensures { result.now ≡ (if nat_le next self.now.until then self.now.marks else []) }
    {
        if self.lasts(next) {
            self.marks.as_slice()
        } else {
            &[]
        }
    }

    // Looks which ends of an order are idle in the quantum that begins at the census's frame, and in those
    // behind it.
    pub(crate) fn look(
        &mut self,
        order: &[End],
        counts: &[u32],
        blocks: &[Block],
        automation: &Automation,
        census: &Census<'_>,
    )
        requires valid { IsValid census.now.world.now }
        requires plan { (muted : List an_end) × IsPlan census.now.world.now order.now muted census.now.into.now }
        requires time { census.now.first ≤ 2 ^ 62 }
        requires range { AreInRange census.now.world.now counts.now }
        requires fit { AreFit census.now.world.now counts.now blocks.now }
        requires held { IsHeld census.now.world.now.params.items census.now.first automation.now }
        requires frames { automation.now.quantum ≡ quantum_of census.now.world.now.spec }
        ensures { AreIdle census.now.world.now counts.now census.now.first self.new.until self.new.marks blocks.now }
    {
        let ahead = Ahead {
            census,
            counts,
            blocks,
            automation,
            until: census.first + AHEAD * u64::from(census.world.spec.quantum),
        };
        self.until = ahead.until;
        let marks = self.marks.as_mut_slice();
        unmark(marks);
        for end in order {
            if is_idle(marks, &ahead, *end) {
                mark(marks, *end);
            }
        }
    }
}

// What ends are looked at by, from the census's frame up to another one: the channels and the blocks of all ends,
// and the levels of all parameters.
#[derive(Clone, Copy)]
pub(crate) struct Ahead<'a> {
    pub census: &'a Census<'a>,
    pub counts: &'a [u32],
    pub blocks: &'a [Block],
    pub automation: &'a Automation,
    pub until: u64,
}

// Whether an end has a mark.
pub(crate) fn is_marked(marks: &[bool], end: End) -> bool
    ensures { result ≡ slice_index_or marks.now (slot_of end) false }
{
    let place = slot(end);
    place < marks.len() && marks[place]
}

// Takes all marks away.
fn unmark(marks: &mut [bool])
    ensures count { length marks.new ≡ length marks.old }
    ensures none { (d : an_end) → IsMarked marks.new d → ⊥ }
{
    marks.fill(false);
}

// Gives an end a mark, where it has a place.
fn mark(marks: &mut [bool], end: End)
    ensures kept { (d : an_end) → IsMarked marks.old d → IsMarked marks.new d }
    ensures marked { (d : an_end) → IsMarked marks.new d → IsMarked marks.old d ⊎ (slot_of d ≡ slot_of end) }
{
    let place = slot(end);
    if place < marks.len() {
        marks[place] = true;
    }
}

// Whether an end is idle from the census's frame up to another one, where those with a mark are.
fn is_idle(marks: &[bool], ahead: &Ahead<'_>, end: End) -> bool
    requires ahead { IsAhead ahead.now }
    requires plan { (order muted : List an_end) × IsPlan ahead.now.census.now.world.now order muted ahead.now.census.now.into.now }
    requires there { IsIn end (ends ahead.now.census.now.world.now.graph.value) }
    requires unmuted { is_muted ahead.now.census.now.world.now.graph.value end ≡ false }
    ensures { IsTrue result → IsIdle ahead.now.census.now.world.now ahead.now.counts.now ahead.now.census.now.first ahead.now.until marks.now ahead.now.blocks.now end }
{
    let into = ahead.census.into.part(end.node.0 as usize);
    stays_silent(marks, ahead, end, into) || is_still(marks, ahead, end, into)
}

// ---- silence

// Whether an end and all that it hears stay silent.
fn stays_silent(marks: &[bool], ahead: &Ahead<'_>, end: End, into: &[Edge]) -> bool
    requires ahead { IsAhead ahead.now }
    requires there { IsIn end (ends ahead.now.census.now.world.now.graph.value) }
    requires into { into.now ≡ leads_into ahead.now.census.now.world.now.graph.value end.node.0 }
    ensures { IsTrue result → StaysSilent ahead.now.census.now.world.now ahead.now.counts.now ahead.now.census.now.first ahead.now.until marks.now ahead.now.blocks.now end }
{
    if !ahead.blocks[slot(end)].is_silent() {
        return false;
    }
    hears_silence(marks, ahead.blocks, into) && is_quiet(ahead, end)
}

// Whether connections come from ends alone that have a mark and are silent.
fn hears_silence(marks: &[bool], blocks: &[Block], into: &[Edge]) -> bool
    requires { (i : ℕ) (d : an_edge) → i < length into.now → slot_of (reader_of (slice_index_or into.now i d).from.0) < length blocks.now }
    ensures { IsTrue result → All (BringsSilence marks.now blocks.now) into.now }
{
    for edge in into {
        let source = reader(edge.from);
        if !is_marked(marks, source) || !blocks[slot(source)].is_silent() {
            return false;
        }
    }
    true
}

// Whether an end carries silence where all that it hears is silent.
fn is_quiet(ahead: &Ahead<'_>, end: End) -> bool
    requires ahead { IsAhead ahead.now }
    requires there { end.node.0 < length ahead.now.census.now.world.now.nodes }
    requires place { slot_of end < length ahead.now.counts.now }
    ensures { IsTrue result → IsQuiet ahead.now.census.now.world.now ahead.now.counts.now ahead.now.census.now.first ahead.now.until end (kind_of ahead.now.census.now.world.now end.node.0) }
{
    match ahead.census.world.nodes.kind(end.node) {
        Kind::Destination | Kind::Gain { .. } | Kind::Splitter { .. } | Kind::Merger { .. } => true,
        Kind::Constant { .. } => is_unheard(ahead, end.node),
        Kind::Buffer { .. } => { is_unheard(ahead, end.node) && has_count(ahead.counts, end, 1) }
        Kind::Shaper { .. } | Kind::Delay { .. } | Kind::Causal { .. } => false,
    }
}

// Whether a source does not sound at any frame.
fn is_unheard(ahead: &Ahead<'_>, node: NodeId) -> bool
    requires { IsAhead ahead.now }
    ensures { IsTrue result → IsUnheard ahead.now.census.now.world.now node.0 ahead.now.census.now.first ahead.now.until }
{
    let census = ahead.census;
    match play_place(census.world, node, near_of(census.near, node)) {
        Some(place) => {
            is_apart(
                &census.world.scheds.at(place).sched,
                census.first,
                ahead.until,
            )
        }
        None => true,
    }
}

// Whether a source begins no earlier than a frame, or has ended at an earlier one.
fn is_apart(sched: &Sched, from: u64, until: u64) -> bool
    ensures { IsTrue result → (frame : ℕ) → from ≤ frame → frame < until → plays_at sched.now frame ≡ false }
{
    match sched.start_frame() {
        Some(start) => until <= start || is_over(sched, from),
        None => true,
    }
}

// Whether a source does not sound at a frame or behind it, since it has ended.
fn is_over(sched: &Sched, from: u64) -> bool
    ensures { IsTrue result → (frame : ℕ) → from ≤ frame → plays_at sched.now frame ≡ false }
{
    match sched.end_frame() {
        Some(end) => end <= from,
        None => false,
    }
}

// ---- the same value at all frames

// Whether an end carries the same value at all frames, that of its block.
fn is_still(marks: &[bool], ahead: &Ahead<'_>, end: End, into: &[Edge]) -> bool
    requires ahead { IsAhead ahead.now }
    requires there { IsIn end (ends ahead.now.census.now.world.now.graph.value) }
    requires into { into.now ≡ leads_into ahead.now.census.now.world.now.graph.value end.node.0 }
    ensures { IsTrue result → IsStill ahead.now.census.now.world.now ahead.now.counts.now ahead.now.census.now.first ahead.now.until marks.now ahead.now.blocks.now end (kind_of ahead.now.census.now.world.now end.node.0) }
{
    match ahead.census.world.nodes.kind(end.node) {
        Kind::Constant { .. } => is_still_source(ahead, end, into),
        Kind::Gain { .. } => is_still_gain(marks, ahead, end, into),
        Kind::Destination
        | Kind::Buffer { .. }
        | Kind::Delay { .. }
        | Kind::Splitter { .. }
        | Kind::Merger { .. }
        | Kind::Shaper { .. }
        | Kind::Causal { .. } => false,
    }
}

// Whether a constant source sounds at all frames with an offset that stays, to which nothing leads.
fn is_still_source(ahead: &Ahead<'_>, end: End, into: &[Edge]) -> bool
    requires ahead { IsAhead ahead.now }
    requires there { IsIn end (ends ahead.now.census.now.world.now.graph.value) }
    requires into { into.now ≡ leads_into ahead.now.census.now.world.now.graph.value end.node.0 }
    ensures { IsTrue result → IsStillSource ahead.now.census.now.world.now ahead.now.census.now.first ahead.now.until ahead.now.blocks.now end }
{
    if !into.is_empty() || !sounds_throughout(ahead, end.node) {
        return false;
    }
    match level(ahead, end.node, ParamName::Offset) {
        Some(offset) => ahead.blocks[slot(end)].holds(offset),
        None => false,
    }
}

// Whether a gain hears one connection alone, from an end with a mark that has as many channels, and its own
// parameter stays.
fn is_still_gain(marks: &[bool], ahead: &Ahead<'_>, end: End, into: &[Edge]) -> bool
    requires ahead { IsAhead ahead.now }
    requires there { IsIn end (ends ahead.now.census.now.world.now.graph.value) }
    requires kind { (gain : ℤ) × (kind_of ahead.now.census.now.world.now end.node.0 ≡ Gain gain) }
    requires into { into.now ≡ leads_into ahead.now.census.now.world.now.graph.value end.node.0 }
    ensures { IsTrue result → IsStillGain ahead.now.census.now.world.now ahead.now.counts.now ahead.now.census.now.first ahead.now.until marks.now ahead.now.blocks.now end }
{
    let [edge] = into else {
        return false;
    };
    let source = reader(edge.from);
    if !is_marked(marks, source) || !brings_all(ahead, end, *edge) {
        return false;
    }
    match level(ahead, end.node, ParamName::Gain) {
        Some(gain) => {
            let heard = &ahead.blocks[slot(source)];
            ahead.blocks[slot(end)].is_scaled(heard, edge.output as usize, gain)
        }
        None => false,
    }
}

// Whether a connection leads to an end's first input, and brings as many channels as the end has.
fn brings_all(ahead: &Ahead<'_>, end: End, edge: Edge) -> bool
    requires end { slot_of end < length ahead.now.counts.now }
    requires source { slot_of (reader_of edge.from.0) < length ahead.now.counts.now }
    ensures { IsTrue result → (leads_to (Input (record { 0 = end.node.0 }) 0) edge ≡ true) × (counts_in ahead.now.counts.now (reader_of edge.from.0) ≡ counts_in ahead.now.counts.now end) }
{
    let input = Target::Input {
        node: end.node,
        input: 0,
    };
    input.is_same(edge.to) && ahead.counts[slot(reader(edge.from))] == ahead.counts[slot(end)]
}

// The value of a node's parameter, where it is known to stay.
fn level(ahead: &Ahead<'_>, node: NodeId, name: ParamName) -> Option<Fix>
    requires { IsAhead ahead.now }
    ensures level { IfSome result (λ value. HasLevel ahead.now.census.now.world.now (param_id node.0 name) ahead.now.census.now.first ahead.now.until value) }
    ensures fits { IfSome result (λ value. FitsSigned w32 value) }
{
    let params = &ahead.census.world.params;
    let place = params.find(ParamId { node, name })?;
    ahead
        .automation
        .stays(params.as_slice(), place, ahead.until)
}

// Whether a source sounds at all frames.
fn sounds_throughout(ahead: &Ahead<'_>, node: NodeId) -> bool
    requires { IsAhead ahead.now }
    ensures { IsTrue result → (frame : ℕ) → ahead.now.census.now.first ≤ frame → frame < ahead.now.until → sounds_at ahead.now.census.now.world.now node.0 frame ≡ true }
{
    let census = ahead.census;
    match play_place(census.world, node, near_of(census.near, node)) {
        Some(place) => {
            is_throughout(
                &census.world.scheds.at(place).sched,
                census.first,
                ahead.until,
            )
        }
        None => false,
    }
}

// Whether a source has begun at a frame, and does not end before another one.
fn is_throughout(sched: &Sched, from: u64, until: u64) -> bool
    ensures { IsTrue result → (frame : ℕ) → from ≤ frame → frame < until → plays_at sched.now frame ≡ true }
{
    match (sched.start_frame(), sched.end_frame()) {
        (Some(start), Some(end)) => start <= from && until <= end,
        (Some(start), None) => start <= from,
        (None, _) => false,
    }
}
