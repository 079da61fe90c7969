ghost use Rattle.std.specs.Prelude.{◌≡◌, ◌<◌, ◌≤◌, ◌+◌, ◌-◌, ◌*◌, ◌^◌, ◌++◌, [], ℕ, ℤ, pos, true, length, replicate, max, slice_index_or, OnOk, OnErr};
ghost use Rattle.lane_kern.specs.Blocks.{at};
ghost use Rattle.mix_rules.specs.Blocks.{sample};
ghost use Rattle.circular_buffer.specs.Buffer.{Buffer, buffer};
ghost use Rattle.delay_line.specs.Lines.{from_end};
ghost use Rattle.delay_line.specs.Rings.{IsExtended};
ghost use Rattle.delay_line.specs.Spans.{delay_at};

use circular_buffer::HeapCircularBuffer;
use std::alloc::Global;
use wa_base::{Fix, NoMemory};

/// The longest block, in frames.
const MOST_FRAMES: usize = 1_024;

static SILENCE: [Fix; MOST_FRAMES] = [0; MOST_FRAMES];

// The newest frames of a channel.
pub(crate) type Ring = HeapCircularBuffer<Fix>;

// How many frames follow the one that frame f of a reader reads.
pub(crate) fn distance(written: u64, f: u64, delay: u64) -> usize
    requires written { f - delay < written }
    requires born { delay ≤ f }
    ensures { result ≡ written - (f - delay) - 1 }
{
    (written - (f - delay) - 1) as usize
}

// What a reader reads of a channel from one of its frames on, by the delay of each frame. The ring lies in
// two slices at most.
pub(crate) fn gather(ring: &Ring, out: &mut [Fix], written: u64, first: u64, delays: &[u64])
    requires same { length delays.now ≡ length out.old }
    requires small { (written ≤ 2 ^ 63) × (first ≤ 2 ^ 63) × (length out.old ≤ 1024) }
    requires born { (k : ℕ) → k < length delays.now → delay_at delays.now k ≤ first + k }
    requires written { (k : ℕ) → k < length delays.now → first + k - delay_at delays.now k < written }
    ensures { (k : ℕ) → k < length out.old → at out.new k ≡ from_end ring.now.items (written - (first + k - delay_at delays.now k) - 1) (pos 0) }
{
    let (front, rear) = ring.as_slices();
    for (k, value) in out.iter_mut().enumerate() {
        *value = frame_back(front, rear, distance(written, first + k as u64, delays[k]));
    }
}

// The item of two slices that follow one another that so many others follow, and silence where there
// is none.
fn frame_back(front: &[Fix], rear: &[Fix], back: usize) -> Fix
    ensures { result ≡ from_end (front.now ++ rear.now) back (pos 0) }
{
    if back < rear.len() {
        return rear[rear.len() - back - 1];
    }
    let back = back - rear.len();
    if back < front.len() {
        front[front.len() - back - 1]
    } else {
        0
    }
}

// Frames of a ring one after another, from the one that so many others follow on.
pub(crate) fn copy_run(ring: &Ring, out: &mut [Fix], back: usize)
    requires length { length out.old ≤ back + 1 }
    requires back { back ≤ 2 ^ 63 }
    ensures { (k : ℕ) → k < length out.old → at out.new k ≡ from_end ring.now.items (back - k) (pos 0) }
{
    let (front, rear) = ring.as_slices();
    let count = front.len() + rear.len();
    // So many frames are older than the ring.
    let missing = (back + 1).saturating_sub(count).min(out.len());
    let end = out.len();
    out[..missing].fill(0);
    if missing < end {
        copy_joined(
            &mut out[missing..end],
            front,
            rear,
            count + missing - (back + 1),
        );
    }
}

// The items of two slices that follow one another, from an index on.
fn copy_joined(out: &mut [Fix], front: &[Fix], rear: &[Fix], start: usize)
    requires { start + length out.old ≤ length front.now + length rear.now }
    ensures { (k : ℕ) → k < length out.old → at out.new k ≡ at (front.now ++ rear.now) (start + k) }
{
    let end = out.len();
    let in_front = front.len().saturating_sub(start).min(end);
    if in_front > 0 {
        out[..in_front].copy_from_slice(&front[start..start + in_front]);
    }
    if in_front < end {
        let skipped = start + in_front - front.len();
        out[in_front..end].copy_from_slice(&rear[skipped..skipped + (end - in_front)]);
    }
}

// Writes a block to the rings of its channels, and silence to the others, so that all go on.
pub(crate) fn write_rings(rings: &mut [Ring], block: &[Fix], channels: usize, frames: usize)
    requires block { length block.now ≡ channels * frames }
    requires short { frames ≤ 1024 }
    requires room { (c : ℕ) (ring : Buffer ℤ) → c < length rings.old → frames ≤ (slice_index_or rings.old c ring).capacity }
    ensures { (c : ℕ) (ring : Buffer ℤ) → c < length rings.old → IsExtended (slice_index_or rings.old c ring) (slice_index_or rings.new c ring) block.now channels frames c }
{
    for c in 0..rings.len() {
        write_ring(&mut rings[c], block, channels, frames, c);
    }
}

fn write_ring(ring: &mut Ring, block: &[Fix], channels: usize, frames: usize, c: usize)
    requires block { length block.now ≡ channels * frames }
    requires short { frames ≤ 1024 }
    requires room { frames ≤ ring.old.capacity }
    ensures { IsExtended ring.old ring.new block.now channels frames c }
{
    ring.extend_from_slice(channel_of(block, channels, frames, c));
}

// The samples of a channel of a block, and silence where the block lacks it.
fn channel_of(block: &[Fix], channels: usize, frames: usize, c: usize) -> &[Fix]
    requires block { length block.now ≡ channels * frames }
    requires short { frames ≤ 1024 }
    ensures length { length result.now ≡ frames }
    ensures samples { (k : ℕ) → c < channels → k < frames → at result.now k ≡ sample frames block.now c k }
{
    if c < channels {
        &block[c * frames..c * frames + frames]
    } else {
        &SILENCE[..frames]
    }
}

// Adds empty rings until there are so many.
pub(crate) fn grow_rings(
    alloc: Global,
    rings: &mut Vec<Ring>,
    count: usize,
    capacity: usize,
) -> Result<(), NoMemory>
    ensures grown { (more : ℕ) × (rings.new.items ≡ rings.old.items ++ replicate more (buffer [] capacity)) }
    ensures ok { OnOk result (length rings.new.items ≡ max (length rings.old.items) count) }
    ensures err { OnErr result (rings.new.items ≡ rings.old.items) }
{
    let old = rings.len();
    let grown = add_rings(alloc, rings, count, capacity);
    if grown.is_err() {
        rings.truncate(old);
    }
    grown
}

fn add_rings(
    alloc: Global,
    rings: &mut Vec<Ring>,
    count: usize,
    capacity: usize,
) -> Result<(), NoMemory>
    ensures grown { (more : ℕ) × (rings.new.items ≡ rings.old.items ++ replicate more (buffer [] capacity)) }
    ensures ok { OnOk result (length rings.new.items ≡ max (length rings.old.items) count) }
{
    for _ in rings.len()..count {
        let ring = HeapCircularBuffer::with_capacity(alloc, capacity)?;
        rings.push(ring)?;
    }
    Ok(())
}
