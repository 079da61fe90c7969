ghost use Rattle.std.specs.Prelude.{◌≡◌, ◌<◌, ◌==◌, length, slice_get, option_and_then, IfSome};
ghost use Rattle.meaning.specs.World.{find_play};
ghost use Rattle.meaning.specs.Validity.{IsValid};

use meaning::{Play, World};
use std::alloc::Global;
use wa_base::{NoMemory, NodeId};

/// Where the schedule of a node is likely to stand in its list: where it stood when the plan was made.
/// A new node has no place of its own.
pub fn near_of(near: &[usize], node: NodeId) -> usize {
    near.get(node.0 as usize).copied().unwrap_or(0)
}

/// The place for each node.
pub fn places_of(alloc: Global, world: &World) -> Result<Vec<usize>, NoMemory> {
    let nodes = world.nodes.len() as usize;
    let mut near = vec![in alloc; 0; nodes]?;
    for (place, play) in world.scheds.as_slice().iter().enumerate() {
        if let Some(near) = near.get_mut(play.id.0 as usize) {
            *near = place;
        }
    }
    Ok(near)
}

/// The place of a source's schedule: the one that is near, or else it is searched for.
pub fn play_place(world: &World, node: NodeId, near: usize) -> Option<usize>
    requires { IsValid world.now }
    ensures item { option_and_then (slice_get world.now.scheds.items) result ≡ find_play world.now.scheds.items node.0 }
    ensures within { IfSome result (λ place. place < length world.now.scheds.items) }
{
    let plays = world.scheds.as_slice();
    if near < plays.len() && is_play(&plays[near], node) {
        return Some(near);
    }
    world.scheds.find(node)
}

fn is_play(play: &Play, node: NodeId) -> bool
    ensures { result ≡ (play.now.id.0 == node.0) }
{
    play.id.0 == node.0
}
