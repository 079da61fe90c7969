ghost use Rattle.std.specs.Prelude.{◌≡◌, ◌≤◌, ◌<◌, ◌+◌, ◌*◌, ◌^◌, ℕ, length, pos, Some, slice_index_or};
ghost use Rattle.sched_source.specs.Schedule.{played};
ghost use Rattle.mix_rules.specs.Blocks.{sample};
ghost use Rattle.wa_base.specs.Contexts.{IsQuantumSize};
ghost use Rattle.meaning.specs.Validity.{IsValid};
ghost use Rattle.meaning.specs.World.{channels_in, samples_in};
ghost use Rattle.quantum_blocks.specs.Heard.{heard_source};

use crate::kernels::fill;
use crate::places::play_place;
use buffer_store::Store;
use meaning::World;
use sched_source::Sched;
use std::marker::Model;
use wa_base::{BufId, Fix, NodeId};

/// A buffer source that sounds in a quantum.
#[derive(Drop)]
pub struct Source<'a> {
    sched: Sched,
    store: &'a Store,
    buffer: BufId,
}

impl<'a> Model for Source<'a> {
    ghost use Rattle.quantum_blocks.specs.Heard.{SourceView, IsHeard};

    ghost Value = { SourceView };

    ghost view = { λ s. record { sched = s.sched; store = s.store.now; buffer = s.buffer } };

    ghost invariant = { λ s. IsHeard s.sched s.store.now s.buffer };
}

/// A source with its buffer, where it sounds in the quantum that begins at `first`.
pub fn sounding(world: &World, node: NodeId, near: usize, first: u64) -> Option<Source<'_>>
    requires valid { IsValid world.now }
    requires time { first ≤ 2 ^ 62 }
    ensures { result ≡ heard_source world.now node.0 first }
{
    let place = play_place(world, node, near)?;
    let play = world.scheds.at(place);
    if !play.sched.plays_in(first, world.spec.quantum) {
        return None;
    }
    let buffer = play.buffer?;
    Some(Source {
        sched: play.sched,
        store: &world.store,
        buffer,
    })
}

impl Source<'_> {
    /// The number of channels of its buffer.
    pub fn channels(&self) -> u32
        ensures value { result ≡ channels_in self.now.store (Some self.now.buffer) }
        ensures range { (1 ≤ result) × (result ≤ 32) }
    {
        self.store.shape(self.buffer).channels
    }

    // Writes what it plays in the quantum of so many frames that begins at `first`, lane after lane. A
    // lane past its channels is silent.
    pub(crate) fn play(&self, out: &mut [Fix], lanes: usize, frames: usize, first: u64)
        requires few { lanes ≤ 32 }
        requires frames { IsQuantumSize frames }
        requires length { length out.old ≡ lanes * frames }
        requires time { first ≤ 2 ^ 62 }
        ensures length { length out.new ≡ length out.old }
        ensures values { (lane m : ℕ) → lane < lanes → lane < channels_in self.now.store (Some self.now.buffer) → m < frames →
            sample frames out.new lane m ≡ played self.now.sched (samples_in self.now.store (Some self.now.buffer) lane) (first + m) }
    {
        for lane in 0..lanes {
            self.play_lane(
                &mut out[lane * frames..lane * frames + frames],
                lane as u32,
                first,
            );
        }
    }

    fn play_lane(&self, out: &mut [Fix], lane: u32, first: u64)
        requires frames { IsQuantumSize (length out.old) }
        requires time { first ≤ 2 ^ 62 }
        ensures length { length out.new ≡ length out.old }
        ensures values { lane < channels_in self.now.store (Some self.now.buffer) → (m : ℕ) → m < length out.old →
            slice_index_or out.new m (pos 0) ≡ played self.now.sched (samples_in self.now.store (Some self.now.buffer) lane) (first + m) }
    {
        if lane < self.channels() {
            self.sched
                .play(out, &self.store.channel(self.buffer, lane), first);
        } else {
            fill(out, 0);
        }
    }
}
