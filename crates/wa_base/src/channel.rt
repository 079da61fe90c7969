ghost use Rattle.std.specs.Prelude.{◌≡◌, ◌≤◌, ◌<◌, ◌+◌, ◌^◌, pos, length, take, drop, slice_index_or, IfOk};

use crate::items::Samples;
use crate::memory::NoMemory;
use crate::numbers::Fix;
use crate::paged::PagedSamples;
use std::alloc::Global;
use std::marker::Model;

/// The samples of a channel, wherever they stand. Contracts see the list of them.
#[derive(Drop)]
pub struct Channel<'a> {
    place: Place<'a>,
}

// Where the samples of a channel stand.
#[derive(Clone, Copy)]
enum Place<'a> {
    // Side by side.
    Slice(&'a [Fix]),
    // In pages, so many from one on.
    Paged {
        samples: &'a PagedSamples,
        first: usize,
        frames: usize,
    },
}

impl<'a> Model for Channel<'a> {
    ghost use Rattle.std.specs.Prelude.{ℤ, List};
    ghost use Rattle.wa_base.specs.Channels.{standing_at, IsWithin};

    ghost Value = { List ℤ };

    ghost view = { λ c. standing_at c.place };

    ghost invariant = { λ c. IsWithin c.place };
}

impl<'a> From<&'a [Fix]> for Channel<'a> {
    ghost from_gives = { λ samples channel. channel ≡ samples.now };

    fn from(samples: &'a [Fix]) -> Channel<'a> {
        Channel {
            place: Place::Slice(samples),
        }
    }
}

impl<'a> Channel<'a> {
    // So many of the samples from one on.
    pub(crate) fn of_pages(samples: &'a PagedSamples, first: usize, frames: usize) -> Channel<'a>
        requires memory { length samples.now ≤ 2 ^ 62 }
        requires inside { first + frames ≤ length samples.now }
        ensures { result ≡ take frames (drop first samples.now) }
    {
        Channel {
            place: Place::Paged {
                samples,
                first,
                frames,
            },
        }
    }

    /// The number of samples.
    pub fn len(&self) -> usize
        ensures { result ≡ length self.now }
    {
        match self.place {
            Place::Slice(samples) => samples.len(),
            Place::Paged { frames, .. } => frames,
        }
    }

    /// A sample.
    pub fn get(&self, at: usize) -> Fix
        requires memory { length self.now ≤ 2 ^ 62 }
        requires inside { at < length self.now }
        ensures { result ≡ slice_index_or self.now at (pos 0) }
    {
        match self.place {
            Place::Slice(samples) => samples[at],
            Place::Paged { samples, first, .. } => samples.get(first + at),
        }
    }

    /// Copies samples from a place on.
    pub fn read(&self, at: usize, out: &mut [Fix])
        requires memory { length self.now ≤ 2 ^ 62 }
        requires inside { at + length out.old ≤ length self.now }
        ensures { out.new ≡ take (length out.old) (drop at self.now) }
    {
        if out.is_empty() {
            return;
        }
        match self.place {
            Place::Slice(samples) => out.copy_from_slice(&samples[at..at + out.len()]),
            Place::Paged { samples, first, .. } => samples.read(first + at, out),
        }
    }

    /// An equal list of its own.
    pub fn copy(&self, alloc: Global) -> Result<Samples, NoMemory>
        requires { length self.now ≤ 2 ^ 62 }
        ensures { IfOk result (λ copy. copy ≡ self.now) }
    {
        let mut samples = vec![in alloc; 0; self.len()]?;
        self.read(0, samples.as_mut_slice());
        Ok(Samples::from(samples))
    }
}
