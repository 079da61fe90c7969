ghost use Rattle.std.specs.Prelude.{◌≡◌, ◌<◌, ◌≤◌, ◌+◌, ◌*◌, ◌∷◌, [], ℕ, ℤ, List, length, max, pos, slice_index_or, IsTrue, ◌↔◌, OnOk, OnErr};
ghost use Rattle.node_table.specs.Frames.{item, heard};
ghost use Rattle.node_table.specs.Machine.{cells_after, cells_at_birth, program_value};
ghost use Rattle.worklet.specs.Processor.{ProcessorStands, HasHeard, cells_of, after_silence};

use crate::prepared::Prepared;
use crate::rules::{CELLS, DEPTH};
use node_table::{Causal, Program};
use std::alloc::Global;
use std::marker::Model;
use wa_base::{Fix, NoMemory};

/// The state of a processor: its program, the cells of each channel that there is room for, and those
/// that the channels past them share, which hear nothing but 0.
#[derive(Drop)]
pub struct Processor {
    program: Prepared,
    channels: Vec<[Fix; CELLS]>,
    // the shared cells, without the frames that they have still to hear
    others: [Fix; CELLS],
    owed: usize,
}

impl Model for Processor {
    ghost use Rattle.worklet.specs.Processor.{ProcessorView};

    ghost Value = { ProcessorView };

    ghost use Rattle.worklet.specs.ProcessorInside.{view_of};

    ghost view = { view_of };
}

impl Processor {
    /// A processor at its birth, which has heard nothing and has no room for a channel
    /// (createProcessor).
    pub fn new(alloc: Global, program: Program) -> Processor
        ensures value { result ≡ record { code = program; channels = []; others = cells_at_birth } }
        ensures born { (c : ℕ) → ProcessorStands result c [] }
    {
        Processor {
            program: Prepared::new(alloc, program),
            channels: Vec::new(alloc),
            others: [0; CELLS],
            owed: 0,
        }
    }

    /// The number of channels that there is room for.
    pub fn channels(&self) -> usize
        ensures { result ≡ length self.now.channels }
    {
        self.channels.len()
    }

    // Has the channels past the room hear so many frames. That is put off until one of them gets cells
    // of its own, which most never do.
    fn hear_nothing(&mut self, frames: usize)
        ensures { self.new ≡ record { code = self.old.code; channels = self.old.channels; others = after_silence self.old.code self.old.others frames } }
    {
        match self.owed.checked_add(frames) {
            Some(owed) => self.owed = owed,
            None => {
                hear_silence(&self.program, &mut self.others, self.owed);
                self.owed = frames;
            }
        }
    }
}

impl Causal for Processor {
    ghost use Rattle.std.specs.Prelude.{length};
    ghost use Rattle.node_table.specs.Machine.{program_value};

    ghost stands = { ProcessorStands };

    ghost value = { λ processor frames. program_value processor.code frames };

    ghost room = { λ processor. length processor.channels };

    fn grow(&mut self, channels: u32) -> Result<(), NoMemory>
        ensures stands { (c : ℕ) (xs : List ℤ) → ProcessorStands self.old c xs → ProcessorStands self.new c xs }
        ensures value { program_value self.new.code ≡ program_value self.old.code }
        ensures ok { OnOk result (length self.new.channels ≡ max (length self.old.channels) channels) }
        ensures err { OnErr result (length self.new.channels ≡ length self.old.channels) }
        ensures code { self.new.code ≡ self.old.code }
        ensures cells { (c : ℕ) → cells_of self.new c ≡ cells_of self.old c }
    {
        self.program.prepare()?;
        let count = channels as usize;
        if count > self.channels.len() {
            hear_silence(&self.program, &mut self.others, self.owed);
            self.owed = 0;
            grow_to(&mut self.channels, count, self.others)?;
        }
        Ok(())
    }

    fn step(&mut self, x: &[Fix], y: &mut [Fix]) {
        hear_all(&self.program, &mut self.channels, x, y, 1);
        self.hear_nothing(1);
    }

    fn block(&mut self, x: &[Fix], y: &mut [Fix], frames: usize) {
        hear_all(&self.program, &mut self.channels, x, y, frames);
        self.hear_nothing(frames);
    }
}

// Adds channels with the cells of one past the room, until there are so many.
fn grow_to(
    channels: &mut Vec<[Fix; CELLS]>,
    count: usize,
    others: [Fix; CELLS],
) -> Result<(), NoMemory>
    ensures cells { (c : ℕ) → slice_index_or channels.new.items c others ≡ slice_index_or channels.old.items c others }
    ensures ok { OnOk result (length channels.new.items ≡ max (length channels.old.items) count) }
    ensures err { OnErr result (length channels.new.items ≡ length channels.old.items) }
{
    let old = channels.len();
    if count > old {
        channels.reserve(count - old)?;
        for _ in old..count {
            channels.push_reserved(others);
        }
    }
    Ok(())
}

// Hears a block of each channel.
fn hear_all(
    program: &Prepared,
    channels: &mut [[Fix; CELLS]],
    x: &[Fix],
    y: &mut [Fix],
    frames: usize,
)
    requires x { length x.now ≡ length channels.old * frames }
    requires y { length y.old ≡ length channels.old * frames }
    ensures heard { (c : ℕ) (other : List ℤ) → c < length channels.old → HasHeard program.now (slice_index_or channels.old c other) (slice_index_or channels.new c other) x.now (c * frames) frames }
    ensures outputs { (c k : ℕ) (other xs : List ℤ) → c < length channels.old → k < frames → slice_index_or channels.old c other ≡ cells_after program.now xs → item y.new (c * frames + k) ≡ program_value program.now (heard x.now (c * frames) (k + 1) xs) }
{
    for c in 0..channels.len() {
        let start = c * frames;
        hear_channel(
            program,
            &mut channels[c],
            &x[start..start + frames],
            &mut y[start..start + frames],
        );
    }
}

// Hears a block of a channel.
fn hear_channel(program: &Prepared, cells: &mut [Fix; CELLS], x: &[Fix], y: &mut [Fix])
    requires y { length y.old ≡ length x.now }
    ensures heard { HasHeard program.now cells.old cells.new x.now 0 (length x.now) }
    ensures outputs { (k : ℕ) (xs : List ℤ) → k < length x.now → cells.old ≡ cells_after program.now xs → item y.new k ≡ program_value program.now (heard x.now 0 (k + 1) xs) }
{
    let mut room = [0; DEPTH];
    for (k, out) in y.iter_mut().enumerate() {
        *out = program.frame(&mut room, cells, x[k]);
    }
}

// Hears so many frames that are 0. Where one of them leaves the cells as they were, so do all that
// follow.
fn hear_silence(program: &Prepared, cells: &mut [Fix; CELLS], frames: usize)
    ensures { cells.new ≡ after_silence program.now cells.old frames }
{
    let mut room = [0; DEPTH];
    for _ in 0..frames {
        let before = *cells;
        program.frame(&mut room, cells, 0);
        if is_same(cells, &before) {
            return;
        }
    }
}

fn is_same(cells: &[Fix; CELLS], others: &[Fix; CELLS]) -> bool
    ensures { IsTrue result ↔ (cells.now ≡ others.now) }
{
    cells == others
}
