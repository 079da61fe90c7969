ghost use Rattle.std.specs.Prelude.{◌≡◌, ◌<◌, ◌≤◌, ◌^◌, ◌++◌, ◌∷◌, [], ℕ, length, IfOk};
ghost use Rattle.circular_buffer.specs.Buffer.{buffer, keep_last};
ghost use Rattle.delay_line.specs.Lines.{from_end};
ghost use Rattle.delay_line.specs.Spans.{IsStretch};

use circular_buffer::HeapCircularBuffer;
use std::alloc::Global;
use std::marker::Model;
use wa_base::NoMemory;

// With how many channels the newest blocks of a line were written.
#[derive(Drop)]
pub(crate) struct Counts {
    ring: HeapCircularBuffer<u32>,
    // The count of the newest block, and how many of the newest blocks have it.
    latest: u32,
    alike: usize,
}

// Blocks with one count, one after another: the newest of them is `first` blocks older than the newest
// of all, and the oldest comes right after the block that is `end` blocks older.
#[derive(Clone, Copy)]
pub(crate) struct Stretch {
    pub(crate) first: usize,
    pub(crate) end: usize,
    pub(crate) count: u32,
}

impl Model for Counts {
    ghost use Rattle.std.specs.Prelude.{ℕ};
    ghost use Rattle.circular_buffer.specs.Buffer.{Buffer};

    ghost Value = { Buffer ℕ };

    ghost use Rattle.delay_line.specs.Inside.{AreAlike};

    ghost view = { λ s. s.ring };

    ghost invariant = { AreAlike };
}

impl Counts {
    // Room for so many blocks.
    pub(crate) fn new(alloc: Global, blocks: usize) -> Result<Counts, NoMemory>
        ensures { IfOk result (λ counts. counts ≡ buffer [] blocks) }
    {
        let ring = HeapCircularBuffer::with_capacity(alloc, blocks)?;
        Ok(Counts {
            ring,
            latest: 0,
            alike: 0,
        })
    }

    // One more block.
    pub(crate) fn push(&mut self, count: u32)
        ensures { self.new ≡ buffer (keep_last self.old.capacity (self.old.items ++ count ∷ [])) self.old.capacity }
    {
        let most = self.ring.capacity();
        let alike = self.alike_with(count);
        self.ring.push_back(count);
        self.latest = count;
        self.alike = (alike + 1).min(most);
    }

    // How many of the newest blocks are known to have this count.
    fn alike_with(&self, count: u32) -> usize
        ensures within { result ≤ self.now.capacity }
        ensures alike { (i : ℕ) → i < result → i < length self.now.items → from_end self.now.items i 0 ≡ count }
    {
        if count == self.latest { self.alike } else { 0 }
    }

    // Blocks with the count of the one that so many others follow.
    pub(crate) fn stretch(&self, i: usize) -> Stretch
        requires i { i < self.now.capacity }
        requires small { self.now.capacity ≤ 2 ^ 23 }
        ensures stretch { IsStretch self.now.items i result }
        ensures within { result.end ≤ self.now.capacity }
    {
        if i < self.alike {
            return Stretch {
                first: 0,
                end: self.alike,
                count: self.latest,
            };
        }
        Stretch {
            first: i,
            end: i + 1,
            count: count_back(&self.ring, i),
        }
    }
}

// The count that so many others follow.
fn count_back(ring: &HeapCircularBuffer<u32>, i: usize) -> u32
    ensures { result ≡ from_end ring.now.items i 0 }
{
    ring.nth_back(i).copied().unwrap_or(0)
}
