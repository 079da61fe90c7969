ghost use Rattle.std.specs.Prelude.{◌≡◌, ◌<◌, ◌*◌, ℕ, length, slice_index_or, OnOk};
ghost use Rattle.wa_base.specs.declared.graph_names.End.{End as an_end};
ghost use Rattle.law_base.specs.Members.{IsIn};
ghost use Rattle.meaning.specs.Validity.{IsValid};
ghost use Rattle.quantum_blocks.specs.Blocks.{slot as slot_of, block_of, lanes_of, frames_of, IsSilent, Writes};
ghost use Rattle.quantum_blocks.specs.Fits.{AreInRange, AreFit};

use crate::block::Block;
use crate::ends::slot;
use meaning::World;
use std::alloc::Global;
use wa_base::{End, NoMemory, NodeId};

/// Makes two blocks for each node, with the lanes of its ends and the frames of the world's quanta.
/// Their values may be any.
pub fn fit_blocks(
    alloc: Global,
    blocks: &mut Vec<Block>,
    world: &World,
    counts: &[u32],
) -> Result<(), NoMemory>
    requires valid { IsValid world.now }
    requires range { AreInRange world.now counts.now }
    ensures { OnOk result (AreFit world.now counts.now blocks.new.items) }
{
    let frames = world.spec.quantum as usize;
    blocks.truncate(counts.len());
    for _ in blocks.len()..counts.len() {
        blocks.push(Block::empty(alloc, frames))?;
    }
    fit_each(blocks.as_mut_slice(), world, counts)
}

fn fit_each(blocks: &mut [Block], world: &World, counts: &[u32]) -> Result<(), NoMemory>
    requires valid { IsValid world.now }
    requires length { length blocks.old ≡ length counts.now }
    requires range { AreInRange world.now counts.now }
    ensures { OnOk result (AreFit world.now counts.now blocks.new) }
{
    let frames = world.spec.quantum as usize;
    for node in 0..counts.len() / 2 {
        let outputs = world.nodes.kind(NodeId(node as u32)).row().outputs as usize;
        let (writer, reader) = (2 * node, 2 * node + 1);
        blocks[writer].fit(outputs * counts[writer] as usize, frames)?;
        blocks[reader].fit(outputs * counts[reader] as usize, frames)?;
    }
    Ok(())
}

/// Silences the lanes of each end. What is silent stays so, and other ends keep their blocks.
pub fn hush(blocks: &mut [Block], muted: &[End])
    requires { (i : ℕ) (d : an_end) → i < length muted.now → slot_of (slice_index_or muted.now i d) < length blocks.old }
    ensures lanes { lanes_of blocks.new ≡ lanes_of blocks.old }
    ensures frames { frames_of blocks.new ≡ frames_of blocks.old }
    ensures silent { (i : ℕ) (d : an_end) → i < length muted.now → IsSilent blocks.new (slice_index_or muted.now i d) }
    ensures kept { (d : an_end) → IsSilent blocks.old d → IsSilent blocks.new d }
    ensures others { (d : an_end) → (IsIn d muted.now → ⊥) → block_of blocks.new d ≡ block_of blocks.old d }
{
    for end in muted {
        hush_end(blocks, *end);
    }
}

fn hush_end(blocks: &mut [Block], end: End)
    requires { slot_of end < length blocks.old }
    ensures writes { Writes blocks.old blocks.new end }
    ensures silent { IsSilent blocks.new end }
{
    blocks[slot(end)].silence();
}
