ghost use Rattle.std.specs.Prelude.{◌≡◌, ◌<◌, ◌≤◌, ◌+◌, ◌^◌, ◌+ℤ◌, length, map, unsigned_abs};
ghost use Rattle.law_base.specs.Members.{IsIn};
ghost use Rattle.lane_kern.specs.Blocks.{IsWithin};
ghost use Rattle.conn_graph.specs.declared.edges.Edge.{Edge as an_edge};
ghost use Rattle.mix_rules.specs.Counts.{greatest};
ghost use Rattle.mix_rules.specs.Mixing.{total};
ghost use Rattle.explain.specs.declared.facts.Key.TheVariants as keys;
ghost use Rattle.conn_graph.specs.Ends.{reader_of};
ghost use Rattle.derivations.specs.Contexts.{tape_in};
ghost use Rattle.derivations.specs.Groups.{led, one, source_keys};
ghost use Rattle.equations.specs.Given.{IsGiven, meaning_of, AllKnown, frame_of};
ghost use Rattle.equations.specs.Sums as spec;

use crate::mixing::mix;
use crate::told::{carried_by, count_of};
use conn_graph::{Edge, Target};
use derivations::Context;
use wa_base::{End, Interp};

// A channel of so many, to which connections are mixed.
#[derive(Clone, Copy)]
pub(crate) struct Lane {
    pub(crate) interp: Interp,
    pub(crate) channels: u32,
    pub(crate) channel: u32,
}

// The exact sum of what the connections that lead to a target carry at a frame, each mixed to a lane.
pub(crate) fn total_led(
    context: Context<'_>,
    frame: u64,
    target: Target,
    edges: &[Edge],
    lane: Lane,
) -> i128
    requires given { IsGiven context }
    requires few { length edges.now ≤ 8192 }
    requires channels { lane.channels ≤ 32 }
    requires lane { lane.channel < lane.channels }
    requires known { (x : an_edge) → IsIn x edges.now → AllKnown context (led target (source_keys context.quantum (tape_in context) (meaning_of context) frame) x) }
    ensures { result ≡ total (map (spec.led_part target (frame_of context.entry frame) lane) edges.now) }
{
    let mut sum: i128 = 0;
    for edge in edges {
        let part = led_part(context, frame, target, *edge, lane);
        sum = with_part(sum, part);
    }
    sum
}

fn with_part(sum: i128, part: i128) -> i128
    requires sum { unsigned_abs sum ≤ 2 ^ 114 }
    requires part { IsWithin (2 ^ 100) part }
    ensures value { result ≡ sum +ℤ part }
    ensures small { unsigned_abs result ≤ unsigned_abs sum + 2 ^ 100 }
{
    sum + part
}

// What a connection carries, mixed to a lane, where it leads to the target.
fn led_part(context: Context<'_>, frame: u64, target: Target, edge: Edge, lane: Lane) -> i128
    requires given { IsGiven context }
    requires channels { lane.channels ≤ 32 }
    requires lane { lane.channel < lane.channels }
    requires known { AllKnown context (led target (source_keys context.quantum (tape_in context) (meaning_of context) frame) edge) }
    ensures value { result ≡ spec.led_part target (frame_of context.entry frame) lane edge }
    ensures small { IsWithin (2 ^ 100) result }
{
    if !target.is_same(edge.to) {
        return 0;
    }
    let source = End {
        node: edge.from,
        writer: false,
    };
    let carried = carried_by(context, frame, source, edge.output);
    mix(&carried, lane.interp, lane.channels, lane.channel)
}

// The most channels that a connection to a target has in a quantum, and at least one.
pub(crate) fn most_led(context: Context<'_>, quantum: u64, target: Target, edges: &[Edge]) -> u32
    requires given { IsGiven context }
    requires known { (x : an_edge) → IsIn x edges.now → AllKnown context (led target (λ x. one (keys.Count quantum (reader_of x.from.0) x.output)) x) }
    ensures value { result ≡ greatest (map (spec.led_count target ((meaning_of context.entry).counts quantum)) edges.now) }
    ensures few { result ≤ 32 }
{
    let mut most = 1;
    for edge in edges {
        most = most.max(led_count(context, quantum, target, *edge));
    }
    most
}

// How many channels a connection has, where it leads to the target.
fn led_count(context: Context<'_>, quantum: u64, target: Target, edge: Edge) -> u32
    requires given { IsGiven context }
    requires known { AllKnown context (led target (λ x. one (keys.Count quantum (reader_of x.from.0) x.output)) edge) }
    ensures value { result ≡ spec.led_count target ((meaning_of context.entry).counts quantum) edge }
    ensures few { result ≤ 32 }
{
    if !target.is_same(edge.to) {
        return 1;
    }
    let source = End {
        node: edge.from,
        writer: false,
    };
    count_of(context, quantum, source, edge.output)
}
