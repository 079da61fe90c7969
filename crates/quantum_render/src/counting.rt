ghost use Rattle.std.specs.Prelude.{ℤ, ◌≡◌, ◌≤◌, ◌<◌, ◌+◌, ◌*◌, ◌^◌, ◌⊎◌, ℕ, List, length, map, filter, slice_index_or, max, if◌then◌else◌, All, IsTrue, true};
ghost use Rattle.wa_base.specs.Contexts.{quantum_of};
ghost use Rattle.mix_rules.specs.Counts.{greatest as greatest_of};
ghost use Rattle.law_base.specs.Members.{IsIn};
ghost use Rattle.node_table.specs.declared.rows.Channels.TheVariants.{Always};
ghost use Rattle.node_table.specs.Kinds.{row as row_of, outputs, is_delay_kind};
ghost use Rattle.wa_base.specs.declared.graph_names.End.{End as an_end};
ghost use Rattle.conn_graph.specs.declared.edges.Edge.{Edge as an_edge};
ghost use Rattle.conn_graph.specs.Ends.{ends, reader_of};
ghost use Rattle.meaning.specs.declared.world.World.{World as a_world};
ghost use Rattle.meaning.specs.World.{sounding, kind_of, played_channels};
ghost use Rattle.meaning.specs.Validity.{IsValid};
ghost use Rattle.meaning.specs.Counts.{Counts as some_counts, input_channels, reader_channels, count_by_kind};
ghost use Rattle.node_table.specs.declared.kinds.Kind.TheVariants.{Buffer};
ghost use Rattle.quantum_blocks.specs.Blocks.{BlockView as a_block, slot as slot_of, counts_in};
ghost use Rattle.quantum_blocks.specs.Connections.{into as leads_into, leads_to};
ghost use Rattle.quantum_blocks.specs.Fits.{AreInRange};
ghost use Rattle.quantum_render.specs.Listening.{HasKept};
ghost use Rattle.quantum_render.specs.Idle.{IsMarked, AreIdle};
ghost use Rattle.quantum_render.specs.Plans.{AreCycles, AreMost, IsPlan, AreCounted, AsCounted, IsSteady, AreSteady};

use crate::plan::{Plan, channels_of};
use crate::rest::is_marked;
use channel_mix::count;
use conn_graph::{Edge, Target};
use cycle_order::Parts;
use delay_bank::Delays;
use meaning::World;
use node_table::{Channels, Kind};
use quantum_blocks::{near_of, reader, slot, sounding, writer};
use wa_base::{End, NodeId};

// What the channels of ends are counted by, in the quantum that begins at a frame: the connections to each
// node, where its schedule is likely to stand, whether it is a delay in a cycle, and all delays.
#[derive(Clone, Copy)]
pub(crate) struct Census<'a> {
    pub world: &'a World,
    pub into: &'a Parts<Edge>,
    pub near: &'a [usize],
    pub cycles: &'a [bool],
    pub delays: &'a Delays,
    pub first: u64,
}

// Counts the channels of each end, along an order in which each stands behind the ends that it hears. A
// muted end has one channel.
pub(crate) fn count_channels(counts: &mut [u32], order: &[End], census: &Census<'_>)
    requires valid { IsValid census.now.world.now }
    requires plan { (muted : List an_end) × IsPlan census.now.world.now order.now muted census.now.into.now }
    requires cycles { AreCycles census.now.world.now.graph.value census.now.cycles.now }
    requires time { census.now.first ≤ 2 ^ 62 }
    requires delays { census.now.delays.now.quantum ≡ quantum_of census.now.world.now.spec }
    requires places { length counts.old ≡ 2 * length census.now.world.now.nodes }
    ensures range { AreInRange census.now.world.now counts.new }
    ensures counted { (tape : List a_world) → census.now.first ≡ quantum_of census.now.world.now.spec * length tape → HasKept census.now.delays.now census.now.world.now tape census.now.first → AreCounted (quantum_of census.now.world.now.spec) census.now.world.now counts.new tape }
{
    counts.fill(1);
    for end in order {
        let into = census.into.part(end.node.0 as usize);
        counts[slot(*end)] = count_of(counts, census, *end, into);
    }
}

// Whether ends have the channels that they are counted to have. Those that are idle have them.
pub(crate) fn are_counted(counts: &[u32], timed: &[End], idle: &[bool], census: &Census<'_>) -> bool
    requires valid { IsValid census.now.world.now }
    requires plan { (order muted : List an_end) × IsPlan census.now.world.now order muted census.now.into.now }
    requires range { AreInRange census.now.world.now counts.now }
    requires there { (d : an_end) → IsIn d timed.now → IsIn d (ends census.now.world.now.graph.value) }
    requires cycles { AreCycles census.now.world.now.graph.value census.now.cycles.now }
    requires time { census.now.first ≤ 2 ^ 62 }
    requires idle { (blocks : List a_block) × AreIdle census.now.world.now counts.now census.now.first (census.now.first + quantum_of census.now.world.now.spec) idle.now blocks }
    ensures { IsTrue result → (d : an_end) → IsIn d timed.now → AsCounted census.now.delays.now census.now.world.now census.now.first counts.now d }
{
    for end in timed {
        if !(is_idle_buffer(idle, census.world, *end) || is_counted(counts, census, *end)) {
            return false;
        }
    }
    true
}

// Whether an end is idle, and plays a buffer.
fn is_idle_buffer(idle: &[bool], world: &World, end: End) -> bool
    requires { end.node.0 < length world.now.nodes }
    ensures { IsTrue result → IsMarked idle.now end × (rate : ℕ) × (kind_of world.now end.node.0 ≡ Buffer rate) }
{
    is_marked(idle, end) && matches!(world.nodes.kind(end.node), Kind::Buffer { .. })
}

// Whether an end has the channels that it is counted to have.
fn is_counted(counts: &[u32], census: &Census<'_>, end: End) -> bool
    requires valid { IsValid census.now.world.now }
    requires plan { (order muted : List an_end) × IsPlan census.now.world.now order muted census.now.into.now }
    requires range { AreInRange census.now.world.now counts.now }
    requires there { IsIn end (ends census.now.world.now.graph.value) }
    requires cycles { AreCycles census.now.world.now.graph.value census.now.cycles.now }
    requires time { census.now.first ≤ 2 ^ 62 }
    ensures { IsTrue result → AsCounted census.now.delays.now census.now.world.now census.now.first counts.now end }
{
    let into = census.into.part(end.node.0 as usize);
    has_count(counts, end, count_of(counts, census, end, into))
}

// Whether the counts of a plan's ends are steady, but for those that hang on the time.
pub(crate) fn are_steady(counts: &[u32], plan: &Plan, world: &World) -> bool
    requires valid { IsValid world.now }
    requires plan { IsPlan world.now plan.now.order plan.now.muted plan.now.into }
    requires range { AreInRange world.now counts.now }
    ensures { IsTrue result → AreSteady world.now plan.now.order plan.now.muted plan.now.timed counts.now }
{
    have_one(counts, plan.muted()) && are_steady_along(counts, plan, world)
}

// Whether each of so many ends has one channel.
fn have_one(counts: &[u32], muted: &[End]) -> bool
    requires { (d : an_end) → IsIn d muted.now → slot_of d < length counts.now }
    ensures { IsTrue result → (d : an_end) → IsIn d muted.now → counts_in counts.now d ≡ 1 }
{
    for end in muted {
        if !has_count(counts, *end, 1) {
            return false;
        }
    }
    true
}

// Whether each end of a plan's order is steady, or the next of those that hang on the time.
fn are_steady_along(counts: &[u32], plan: &Plan, world: &World) -> bool
    requires valid { IsValid world.now }
    requires plan { IsPlan world.now plan.now.order plan.now.muted plan.now.into }
    requires range { AreInRange world.now counts.now }
    ensures there { IsTrue result → (d : an_end) → IsIn d plan.now.timed → IsIn d (ends world.now.graph.value) }
    ensures steady { IsTrue result → (d : an_end) → IsIn d plan.now.order → IsIn d plan.now.timed ⊎ IsSteady world.now counts.now d }
{
    let timed = plan.timed();
    let mut next = 0;
    for end in plan.order() {
        if next < timed.len() && slot(timed[next]) == slot(*end) {
            next += 1;
        } else {
            let into = plan.sources().part(end.node.0 as usize);
            if !is_steady(counts, world, *end, into) {
                return false;
            }
        }
    }
    next == timed.len()
}

// Whether an end has the channels that its row says, and these hang on this quantum alone.
fn is_steady(counts: &[u32], world: &World, end: End, into: &[Edge]) -> bool
    requires valid { IsValid world.now }
    requires range { AreInRange world.now counts.now }
    requires there { IsIn end (ends world.now.graph.value) }
    requires into { into.now ≡ leads_into world.now.graph.value end.node.0 }
    ensures { IsTrue result → IsSteady world.now counts.now end }
{
    match channels_of(world, end) {
        Some(Channels::Always(channels)) => has_count(counts, end, channels),
        Some(Channels::OfInput) => {
            has_count(counts, end, input_count(counts, world, end.node, into))
        }
        Some(Channels::OfBuffer) | None => false,
    }
}

// Whether an end has so many channels.
pub(crate) fn has_count(counts: &[u32], end: End, count: u32) -> bool
    requires { slot_of end < length counts.now }
    ensures { IsTrue result → counts_in counts.now end ≡ count }
{
    counts[slot(end)] == count
}

// The number of channels of an end, by the kind of its node.
fn count_of(counts: &[u32], census: &Census<'_>, end: End, into: &[Edge]) -> u32
    requires valid { IsValid census.now.world.now }
    requires range { AreInRange census.now.world.now counts.now }
    requires there { IsIn end (ends census.now.world.now.graph.value) }
    requires into { into.now ≡ leads_into census.now.world.now.graph.value end.node.0 }
    requires cycles { AreCycles census.now.world.now.graph.value census.now.cycles.now }
    requires time { census.now.first ≤ 2 ^ 62 }
    ensures value { (j : ℕ) (earlier : ℕ → some_counts) → census.now.first ≡ quantum_of census.now.world.now.spec * j → AreMost census.now.delays.now census.now.world.now j earlier → result ≡ count_by_kind (quantum_of census.now.world.now.spec) (sounding census.now.world.now) j earlier (counts_in counts.now) (kind_of census.now.world.now end.node.0) end }
    ensures range { (1 ≤ result) × (result ≤ 32) }
    ensures lanes { outputs (kind_of census.now.world.now end.node.0) * result ≤ 32 }
    ensures mono { (row_of (kind_of census.now.world.now end.node.0)).channels ≡ Always 1 → result ≡ 1 }
{
    match channels_of(census.world, end) {
        Some(Channels::Always(channels)) => channels,
        Some(Channels::OfInput) => input_count(counts, census.world, end.node, into),
        Some(Channels::OfBuffer) => {
            let near = near_of(census.near, end.node);
            played_count(census.world, end.node, near, census.first)
        }
        None => reader_count(counts, census, end.node),
    }
}

// The reader of a delay has the most channels that the writer had: in a cycle before this quantum, and
// else in it too.
fn reader_count(counts: &[u32], census: &Census<'_>, node: NodeId) -> u32
    requires valid { IsValid census.now.world.now }
    requires range { AreInRange census.now.world.now counts.now }
    requires node { node.0 < length census.now.world.now.nodes }
    requires delay { is_delay_kind (kind_of census.now.world.now node.0) ≡ true }
    requires cycles { AreCycles census.now.world.now.graph.value census.now.cycles.now }
    ensures value { (j : ℕ) (earlier : ℕ → some_counts) → AreMost census.now.delays.now census.now.world.now j earlier → result ≡ reader_channels (quantum_of census.now.world.now.spec) (sounding census.now.world.now) j earlier (counts_in counts.now) node.0 }
    ensures range { (1 ≤ result) × (result ≤ 32) }
{
    let most = census.delays.most(node);
    if census.cycles[node.0 as usize] {
        most
    } else {
        greater(most, counts[slot(writer(node))])
    }
}

// The channels of a buffer source: those of its buffer where it sounds in the quantum.
fn played_count(world: &World, node: NodeId, near: usize, first: u64) -> u32
    requires valid { IsValid world.now }
    requires time { first ≤ 2 ^ 62 }
    ensures value { result ≡ played_channels world.now node.0 (quantum_of world.now.spec) first }
    ensures range { (1 ≤ result) × (result ≤ 32) }
{
    match sounding(world, node, near, first) {
        Some(source) => source.channels(),
        None => 1,
    }
}

fn input_count(counts: &[u32], world: &World, node: NodeId, into: &[Edge]) -> u32
    requires valid { IsValid world.now }
    requires range { AreInRange world.now counts.now }
    requires node { node.0 < length world.now.nodes }
    requires into { into.now ≡ leads_into world.now.graph.value node.0 }
    ensures value { result ≡ input_channels (sounding world.now) (counts_in counts.now) node.0 0 }
    ensures range { (1 ≤ result) × (result ≤ 32) }
{
    let attrs = world.nodes.attrs(node);
    let greatest = greatest_count(counts, into, Target::Input { node, input: 0 });
    count(attrs.mode, attrs.count, &[greatest])
}

// The greatest number of channels of the connections to a target, and at least 1.
fn greatest_count(counts: &[u32], into: &[Edge], target: Target) -> u32
    requires sources { All (λ (e : an_edge). slot_of (reader_of e.from.0) < length counts.now) into.now }
    requires few { (k : ℕ) → k < length counts.now → slice_index_or counts.now k 1 ≤ 32 }
    ensures value { result ≡ greatest_of (map (λ e. counts_in counts.now (reader_of e.from.0)) (filter (leads_to target) into.now)) }
    ensures range { (1 ≤ result) × (result ≤ 32) }
{
    let mut greatest = 1;
    for edge in into {
        greatest = greater(greatest, count_heard(counts, edge, target));
    }
    greatest
}

fn greater(a: u32, b: u32) -> u32
    ensures { result ≡ max a b }
{
    a.max(b)
}

// The channels that a connection brings to a target, or 1 where it leads elsewhere.
fn count_heard(counts: &[u32], edge: &Edge, target: Target) -> u32
    requires source { slot_of (reader_of edge.now.from.0) < length counts.now }
    requires few { (k : ℕ) → k < length counts.now → slice_index_or counts.now k 1 ≤ 32 }
    ensures value { result ≡ (if leads_to target edge.now then counts_in counts.now (reader_of edge.now.from.0) else 1) }
    ensures high { result ≤ 32 }
{
    if target.is_same(edge.to) {
        counts[slot(reader(edge.from))]
    } else {
        1
    }
}
