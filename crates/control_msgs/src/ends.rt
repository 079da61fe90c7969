ghost use Rattle.std.specs.Prelude.{◌≡◌, map};
ghost use Rattle.meaning.specs.Validity.{IsValid};
ghost use Rattle.meaning.specs.World.{plain};
ghost use Rattle.control_msgs.specs.Messages as spec;

use meaning::{Scheds, World};
use sched_source::Sched;

/// Whether a source ends before the quantum that begins at `next`, and has not ended before
/// (AudioScheduledSourceNode, the `ended` event).
pub fn ends_by(sched: &Sched, next: u64) -> bool
    ensures { result ≡ spec.ends_by next sched.now }
{
    if sched.has_ended() {
        return false;
    }
    match sched.end_frame() {
        Some(end) => end <= next,
        None => false,
    }
}

/// Marks the sources that end before the quantum that begins at `next`.
pub fn mark_ended(world: &mut World, next: u64)
    ensures marked { plain world.new ≡ spec.ended_marked next (plain world.old) }
    ensures valid { IsValid world.old → IsValid world.new }
    ensures graph { world.new.graph ≡ world.old.graph }
{
    mark_each(&mut world.scheds, next);
}

fn mark_each(scheds: &mut Scheds, next: u64)
    ensures { scheds.new.items ≡ map (spec.marked next) scheds.old.items }
{
    for place in 0..scheds.len() {
        if ends_by(&scheds.at(place).sched, next) {
            scheds.at_mut(place).sched.fire();
        }
    }
}
