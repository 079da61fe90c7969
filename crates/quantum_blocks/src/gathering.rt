ghost use Rattle.std.specs.Prelude.{◌≡◌, ◌↔◌, ◌≤◌, ◌<◌, ◌+◌, ◌*◌, ◌+ℤ◌, ℕ, pos, length, slice_index_or, map, filter, if◌then◌else◌, IfSome, IsTrue};
ghost use Rattle.mix_rules.specs.Blocks.{frame_at};
ghost use Rattle.mix_rules.specs.Mixing.{mix, total};
ghost use Rattle.channel_mix.specs.Sums.{sum_at};
ghost use Rattle.conn_graph.specs.declared.edges.Edge.{Edge as an_edge};
ghost use Rattle.conn_graph.specs.Ends.{reader_of};
ghost use Rattle.meaning.specs.declared.world.World.{World as world};
ghost use Rattle.meaning.specs.Values.{part};
ghost use Rattle.quantum_blocks.specs.Blocks.{frame_of, slot as slot_of, counts_in};
ghost use Rattle.quantum_blocks.specs.Connections.{leads_to};
ghost use Rattle.quantum_blocks.specs.Fits.{IsSource, AreSources};
ghost use Rattle.quantum_blocks.specs.Pairs.{IsPair, IsBrought};
ghost use Rattle.quantum_blocks.specs.Waiting.{AreWaiting, count_of, waiting_at};

use crate::block::Block;
use crate::ends::{reader, slot};
use crate::held::Held;
use channel_mix::{Four, Sums};
use conn_graph::{Edge, Target};
use wa_base::{Fix, Interp};

/// How an input or a parameter takes what connections carry.
#[derive(Clone, Copy)]
pub struct Inlet {
    pub target: Target,
    pub count: usize,
    pub interp: Interp,
}

// What waits to be added, four at a time: with as many channels as the sums, and a value for each frame.
#[derive(Clone, Copy)]
enum Waiting<'a> {
    None,
    One(&'a [Fix]),
    Two(&'a [Fix], &'a [Fix]),
    Three(&'a [Fix], &'a [Fix], &'a [Fix]),
}

/// Adds up what those of the connections carry that lead to an inlet, with the channels of each end by
/// its slot. Where all connections are mono, it is their sum that is mixed, once.
pub fn gather(sums: &mut Sums, blocks: &[Block], into: &[Edge], counts: &[u32], inlet: Inlet)
    requires low { 1 ≤ inlet.count }
    requires high { inlet.count ≤ 32 }
    requires few { length into.now ≤ 8192 }
    requires sources { AreSources sums.old.frames counts.now blocks.now into.now }
    ensures frames { sums.new.frames ≡ sums.old.frames }
    ensures count { sums.new.count ≡ inlet.count }
    ensures sums { (w : world) (c m : ℕ) → c < inlet.count → m < sums.old.frames →
        sum_at sums.new c m ≡ total (map (part (frame_of w blocks.now counts.now m) inlet.interp inlet.count c) (filter (leads_to inlet.target) into.now)) }
{
    if inlet.count > 1 && are_mono(into, counts) {
        let mono = Inlet {
            target: inlet.target,
            count: 1,
            interp: inlet.interp,
        };
        gather_each(sums, blocks, into, counts, mono);
        sums.widen(inlet.count, inlet.interp);
        return;
    }
    gather_each(sums, blocks, into, counts, inlet);
}

// Adds up what those of the connections carry that lead to an inlet, each mixed by itself.
fn gather_each(sums: &mut Sums, blocks: &[Block], into: &[Edge], counts: &[u32], inlet: Inlet)
    requires low { 1 ≤ inlet.count }
    requires high { inlet.count ≤ 32 }
    requires few { length into.now ≤ 8192 }
    requires sources { AreSources sums.old.frames counts.now blocks.now into.now }
    ensures frames { sums.new.frames ≡ sums.old.frames }
    ensures count { sums.new.count ≡ inlet.count }
    ensures sums { (w : world) (c m : ℕ) → c < inlet.count → m < sums.old.frames →
        sum_at sums.new c m ≡ total (map (part (frame_of w blocks.now counts.now m) inlet.interp inlet.count c) (filter (leads_to inlet.target) into.now)) }
{
    sums.clear(inlet.count);
    let mut waiting = Waiting::None;
    for edge in into {
        waiting = hear(sums, blocks, counts, edge, inlet, waiting);
    }
    add_waiting(sums, waiting, inlet);
}

// Adds what a connection carries, if it leads to the inlet and is not silent, or lets it wait until there are
// four.
fn hear<'a>(
    sums: &mut Sums,
    blocks: &'a [Block],
    counts: &[u32],
    edge: &Edge,
    inlet: Inlet,
    waiting: Waiting<'a>,
) -> Waiting<'a>
    requires added { sums.old.added < 8192 }
    requires count { sums.old.count ≡ inlet.count }
    requires source { IsSource sums.old.frames counts.now blocks.now edge.now }
    requires waiting { AreWaiting (inlet.count * sums.old.frames) waiting }
    ensures frames { sums.new.frames ≡ sums.old.frames }
    ensures count { sums.new.count ≡ inlet.count }
    ensures added { sums.new.added + count_of result ≤ sums.old.added + count_of waiting.entry + 1 }
    ensures waiting { AreWaiting (inlet.count * sums.old.frames) result }
    ensures sums { (w : world) (c m : ℕ) → c < inlet.count → m < sums.old.frames →
        sum_at sums.new c m +ℤ waiting_at result (c * sums.old.frames + m) ≡ (sum_at sums.old c m +ℤ waiting_at waiting.entry (c * sums.old.frames + m)) +ℤ (if leads_to inlet.target edge.now then part (frame_of w blocks.now counts.now m) inlet.interp inlet.count c edge.now else pos 0) }
{
    let place = slot(reader(edge.from));
    let block = &blocks[place];
    if block.is_silent() || !inlet.target.is_same(edge.to) {
        return waiting;
    }
    let channels = counts[place] as usize;
    match block.output(edge.output as usize, channels) {
        Held::Steady(held) => {
            sums.add_steady(held, inlet.interp);
            waiting
        }
        Held::Moving(values) => add_or_wait(sums, values, channels, inlet, waiting),
    }
}

// Adds what moves, or lets it wait until there are four: only what has the inlet's number of channels waits.
fn add_or_wait<'a>(
    sums: &mut Sums,
    values: &'a [Fix],
    channels: usize,
    inlet: Inlet,
    waiting: Waiting<'a>,
) -> Waiting<'a>
    requires added { sums.old.added < 8192 }
    requires count { sums.old.count ≡ inlet.count }
    requires length { length values.now ≡ channels * sums.old.frames }
    requires waiting { AreWaiting (inlet.count * sums.old.frames) waiting }
    ensures frames { sums.new.frames ≡ sums.old.frames }
    ensures count { sums.new.count ≡ inlet.count }
    ensures added { sums.new.added + count_of result ≤ sums.old.added + count_of waiting.entry + 1 }
    ensures waiting { AreWaiting (inlet.count * sums.old.frames) result }
    ensures sums { (c m : ℕ) → c < inlet.count → m < sums.old.frames →
        sum_at sums.new c m +ℤ waiting_at result (c * sums.old.frames + m) ≡ (sum_at sums.old c m +ℤ waiting_at waiting.entry (c * sums.old.frames + m)) +ℤ mix inlet.interp channels inlet.count (frame_at sums.old.frames values.now m) c }
{
    if channels != inlet.count {
        sums.add_moving(values, channels, inlet.interp);
        return waiting;
    }
    match waiting {
        Waiting::None => Waiting::One(values),
        Waiting::One(first) => Waiting::Two(first, values),
        Waiting::Two(first, second) => Waiting::Three(first, second, values),
        Waiting::Three(first, second, third) => {
            sums.add_four(Four {
                first,
                second,
                third,
                fourth: values,
            });
            Waiting::None
        }
    }
}

// Adds what waits.
fn add_waiting(sums: &mut Sums, waiting: Waiting<'_>, inlet: Inlet)
    requires added { sums.old.added + count_of waiting ≤ 8192 }
    requires count { sums.old.count ≡ inlet.count }
    requires waiting { AreWaiting (inlet.count * sums.old.frames) waiting }
    ensures frames { sums.new.frames ≡ sums.old.frames }
    ensures count { sums.new.count ≡ inlet.count }
    ensures sums { (c m : ℕ) → c < inlet.count → m < sums.old.frames → sum_at sums.new c m ≡ sum_at sums.old c m +ℤ waiting_at waiting.entry (c * sums.old.frames + m) }
{
    match waiting {
        Waiting::None => {}
        Waiting::One(first) => sums.add_moving(first, inlet.count, inlet.interp),
        Waiting::Two(first, second) => {
            sums.add_moving(first, inlet.count, inlet.interp);
            sums.add_moving(second, inlet.count, inlet.interp);
        }
        Waiting::Three(first, second, third) => {
            sums.add_moving(first, inlet.count, inlet.interp);
            sums.add_moving(second, inlet.count, inlet.interp);
            sums.add_moving(third, inlet.count, inlet.interp);
        }
    }
}

// What the two connections to a node carry, where there are two, and both lead to the inlet and have its
// number of channels.
pub(crate) fn pair<'a>(
    blocks: &'a [Block],
    into: &[Edge],
    counts: &[u32],
    inlet: Inlet,
) -> Option<(Held<'a>, Held<'a>)>
    requires { (q : ℕ) × AreSources q counts.now blocks.now into.now }
    ensures { (q : ℕ) → AreSources q counts.now blocks.now into.now → IfSome result (λ pair. IsPair q counts.now blocks.now into.now inlet pair.0 pair.1) }
{
    let [first, second] = into else {
        return None;
    };
    let heard = brought(blocks, counts, first, inlet)?;
    Some((heard, brought(blocks, counts, second, inlet)?))
}

// What a connection carries, where it leads to the inlet and has its number of channels.
fn brought<'a>(blocks: &'a [Block], counts: &[u32], edge: &Edge, inlet: Inlet) -> Option<Held<'a>>
    requires { (q : ℕ) × IsSource q counts.now blocks.now edge.now }
    ensures { (q : ℕ) → IsSource q counts.now blocks.now edge.now → IfSome result (λ held. IsBrought q counts.now blocks.now edge.now inlet held) }
{
    let place = slot(reader(edge.from));
    if !inlet.target.is_same(edge.to) || counts[place] as usize != inlet.count {
        return None;
    }
    Some(blocks[place].output(edge.output as usize, inlet.count))
}

// Whether each connection comes from an end of one channel.
fn are_mono(into: &[Edge], counts: &[u32]) -> bool
    requires { (i : ℕ) (d : an_edge) → i < length into.now → slot_of (reader_of (slice_index_or into.now i d).from.0) < length counts.now }
    ensures { IsTrue result ↔ ((i : ℕ) (d : an_edge) → i < length into.now → counts_in counts.now (reader_of (slice_index_or into.now i d).from.0) ≡ 1) }
{
    for edge in into {
        if counts[slot(reader(edge.from))] != 1 {
            return false;
        }
    }
    true
}
