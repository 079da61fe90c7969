ghost use Rattle.std.specs.Prelude.{◌≡◌, ◌≤◌, ◌^◌};
ghost use Rattle.meaning.specs.Validity.{IsValid};
ghost use Rattle.meaning.specs.World.{sounding, played_channels as channels_played, played_at as sample_played};

use derivations::sounds;
use meaning::World;
use wa_base::{Fix, NodeId};

// How many channels a source plays in so many frames from the first on: those of its buffer where it
// sounds in one of them.
pub(crate) fn played_channels(world: &World, node: NodeId, frames: u32, first: u64) -> u32
    requires valid { IsValid world.now }
    requires first { first ≤ 2 ^ 62 }
    requires frames { (1 ≤ frames) × (frames ≤ 1024) }
    ensures { result ≡ channels_played (sounding world.now) node.0 frames first }
{
    let Some(place) = world.scheds.find(node) else {
        return 1;
    };
    let play = world.scheds.at(place);
    let Some(buffer) = play.buffer else {
        return 1;
    };
    if play.sched.plays_in(first, frames) {
        world.store.shape(buffer).channels
    } else {
        1
    }
}

// What a source plays of a channel of its buffer at a frame.
pub(crate) fn played_at(world: &World, node: NodeId, channel: u32, frame: u64) -> Fix
    requires valid { IsValid world.now }
    requires time { frame ≤ 2 ^ 62 }
    ensures { result ≡ sample_played (sounding world.now) node.0 channel frame }
{
    let Some(place) = world.scheds.find(node) else {
        return 0;
    };
    let play = world.scheds.at(place);
    let Some(buffer) = play.buffer else {
        return 0;
    };
    if !sounds(world, node, frame) {
        return 0;
    }
    if channel >= world.store.shape(buffer).channels {
        return 0;
    }
    let mut samples = [0];
    play.sched
        .play(&mut samples, &world.store.channel(buffer, channel), frame);
    samples[0]
}
