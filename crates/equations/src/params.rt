ghost use Rattle.std.specs.Prelude.{◌≡◌, ◌<◌, ◌≤◌, ◌^◌, length};
ghost use Rattle.param_events.specs.Values.{value_at};
ghost use Rattle.meaning.specs.Validity.{IsValid};
ghost use Rattle.meaning.specs.World.{sounding, intrinsic_value as value_in, nominal as nominal_of, in_range as range_in};
ghost use Rattle.meaning.specs.Values.{computed_value};
ghost use Rattle.explain.specs.Needs.{param_needs};
ghost use Rattle.derivations.specs.Contexts.{tape_in, world_of, HasFrame};
ghost use Rattle.equations.specs.Given.{IsGiven, meaning_of, AllKnown, frame_of, frames_before};

use crate::mixing::nearest;
use crate::sums::{Lane, total_led};
use conn_graph::Target;
use derivations::{Context, param_frame};
use meaning::World;
use node_table::{Kind, Range};
use param_cursor::Cursor;
use param_events::Timeline;
use std::marker::Brand;
use std::sync::ledger::{Blank, Ledger};
use wa_base::{Fix, Interp, ParamId, Steps, sat};

// What connections to a parameter are mixed to.
const MONO: Lane = Lane {
    interp: Interp::Speakers,
    channels: 1,
    channel: 0,
};

// The computed value of a parameter at a frame (paramComputedValue).
pub(crate) fn param_value(context: Context<'_>, frame: u64, id: ParamId) -> Fix
    requires given { IsGiven context }
    requires there { HasFrame context frame }
    requires node { id.node.0 < length (world_of context frame).nodes }
    requires known { AllKnown context (param_needs context.quantum (tape_in context) (meaning_of context) frame id.node.0 id.name) }
    ensures { result ≡ computed_value context.entry.quantum frame (frames_before context.entry frame) (frame_of context.entry frame) id }
{
    let stretch = context.piece_at(frame);
    let world = &stretch.piece.world;
    let edges = stretch.marks.into.part(id.node.0 as usize);
    let taken = param_frame(context.quantum, world, frame, id);
    let driven = nearest(total_led(context, taken, Target::Param(id), edges, MONO));
    let own = intrinsic_value(world, id, taken);
    nominal(
        world.nodes.kind(id.node),
        i64::from(own) + i64::from(driven),
    )
}

// The intrinsic value of a parameter at a frame (paramIntrinsicValue).
fn intrinsic_value(world: &World, id: ParamId, frame: u64) -> Fix
    requires valid { IsValid world.now }
    requires time { frame ≤ 2 ^ 62 }
    ensures { result ≡ value_in (sounding world.now) id frame }
{
    match world.params.find(id) {
        Some(place) => line_value::<Brand>(&world.params.at(place).line, frame, Blank::new(1)),
        None => 0,
    }
}

// The value of a timeline at a frame. Its steps are not counted.
fn line_value<L: Ledger>(line: &Timeline, frame: u64, blank: Blank) -> Fix
    requires name { blank.name ≡ L.name }
    requires parts { blank.parts ≡ L.parts }
    requires some { 0 < L.parts }
    requires time { frame ≤ 2 ^ 62 }
    ensures { result ≡ value_at line.now.base line.now.events frame }
{
    let mut steps: Steps<L> = Steps::new(blank);
    let mut cursor = Cursor::new();
    cursor.reseek(frame, line, &mut steps);
    let mut values = [0];
    cursor.fill(&mut values, frame, line, &mut steps);
    values[0]
}

// A value in the nominal range of the parameter that a kind has; 0 where it has none.
fn nominal(kind: &Kind, value: i64) -> Fix
    ensures { result ≡ nominal_of kind.now value }
{
    match kind.row().param {
        Some(param) => in_range(param.range, value),
        None => 0,
    }
}

// The value nearest to a number in a range.
fn in_range(range: Range, value: i64) -> Fix
    ensures { result ≡ range_in range value }
{
    match range {
        Range::Any => sat(value),
        Range::UpTo(most) => {
            if most < 0 || value < 0 {
                0
            } else {
                value.min(i64::from(most)) as Fix
            }
        }
    }
}
