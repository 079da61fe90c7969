ghost use Rattle.std.specs.Prelude.{◌≡◌, ◌≤◌, ◌<◌, ◌+◌, ◌*◌, ◌/◌, ◌^◌, ◌++◌, ℕ, [], pos, length, take, drop, slice_index_or, IfOk, OnOk, OnErr};
ghost use Rattle.std.specs.Prelude.{ℤ, List};
ghost use Rattle.std.specs.Int.{div_ceil};
ghost use Rattle.wa_base.specs.Paging.{value_at, ArePages, IsPage, IsWrittenOver};

use crate::items::Samples;
use crate::memory::NoMemory;
use crate::numbers::Fix;
use std::alloc::Global;
use std::marker::Model;

/// The number of samples of a page.
pub(crate) const PAGE: usize = 128;

/// What was written over a list of samples, in pages. Contracts see the list of the pages. An empty one leaves
/// what is below it.
#[derive(Drop)]
pub(crate) struct Pages {
    pages: Vec<Samples>,
}

impl Model for Pages {
    ghost use Rattle.std.specs.Prelude.{ℤ, List};
    ghost use Rattle.wa_base.specs.Paging.{ArePages};

    ghost Value = { List (List ℤ) };

    ghost view = { λ p. p.pages.items };

    ghost invariant = { λ p. ArePages p.pages.items };
}

impl Pages {
    /// Empty pages for so many samples.
    pub(crate) fn new(alloc: Global, count: usize) -> Result<Pages, NoMemory>
        ensures value { IfOk result (λ pages. (i : ℕ) → slice_index_or pages i [] ≡ []) }
        ensures room { IfOk result (λ pages. count ≤ 128 * length pages) }
    {
        let count = count.div_ceil(PAGE);
        let mut pages = Vec::with_capacity(alloc, count)?;
        for _ in 0..count {
            pages.push_reserved(Samples::new(alloc));
        }
        Ok(Pages { pages })
    }

    /// Equal pages with memory of their own.
    pub(crate) fn copy(&self) -> Result<Pages, NoMemory>
        ensures { IfOk result (λ copy. copy ≡ self.now) }
    {
        let mut pages = Vec::with_capacity(*self.pages.allocator(), self.pages.len())?;
        for page in self.pages.as_slice() {
            pages.push_reserved(page.copy()?);
        }
        Ok(Pages { pages })
    }

    /// The page of a sample, or nothing where it was not written.
    pub(crate) fn page(&self, at: usize) -> &[Fix]
        ensures value { result.now ≡ slice_index_or self.now (at / 128) [] }
        ensures page { IsPage result.now }
    {
        match self.pages.get(at / PAGE) {
            Some(page) => page.as_slice(),
            None => &[],
        }
    }

    /// Writes samples over a list that is below the pages, from a place on. After `NoMemory` the samples of both
    /// together are as before.
    pub(crate) fn write(
        &mut self,
        alloc: Global,
        below: &[Fix],
        start: usize,
        samples: &[Fix],
    ) -> Result<(), NoMemory>
        requires memory { start + length samples.now ≤ 2 ^ 62 }
        requires inside { start + length samples.now ≤ 128 * length self.old }
        ensures ok { OnOk result (IsWrittenOver below.now self.old self.new start samples.now) }
        ensures err { OnErr result ((i : ℕ) → value_at below.now self.new i ≡ value_at below.now self.old i) }
        ensures length { length self.new ≡ length self.old }
    {
        let end = start + samples.len();
        fill_in(
            &mut self.pages,
            alloc,
            below,
            start / PAGE,
            end.div_ceil(PAGE),
        )?;
        write_over(&mut self.pages, start, samples);
        Ok(())
    }
}

// Has the pages from one place to before another written: an empty one becomes a copy of what is below it.
fn fill_in(
    pages: &mut Vec<Samples>,
    alloc: Global,
    below: &[Fix],
    from: usize,
    to: usize,
) -> Result<(), NoMemory>
    requires memory { to ≤ 2 ^ 56 }
    requires inside { to ≤ length pages.old.items }
    requires pages { ArePages pages.old.items }
    ensures same { (i : ℕ) → value_at below.now pages.new.items i ≡ value_at below.now pages.old.items i }
    ensures written { OnOk result ((i : ℕ) → from ≤ i → i < to → length (slice_index_or pages.new.items i []) ≡ 128) }
    ensures length { length pages.new.items ≡ length pages.old.items }
    ensures pages { ArePages pages.new.items }
{
    for place in from..to {
        if pages[place].is_empty() {
            pages[place] = copied(alloc, below, place)?;
        }
    }
    Ok(())
}

// A page of what a list has at its place, and silence past the end.
fn copied(alloc: Global, list: &[Fix], place: usize) -> Result<Samples, NoMemory>
    requires { place ≤ 2 ^ 56 }
    ensures length { IfOk result (λ page. length page ≡ 128) }
    ensures value { IfOk result (λ page. (k : ℕ) → k < 128 → slice_index_or page k (pos 0) ≡ slice_index_or list.now (place * 128 + k) (pos 0)) }
{
    let mut page = Vec::with_capacity(alloc, PAGE)?;
    for k in 0..PAGE {
        page.push_reserved(sample_at(list, place * PAGE + k));
    }
    Ok(Samples::from(page))
}

/// A sample of a list, and silence past the end.
pub(crate) fn sample_at(list: &[Fix], at: usize) -> Fix
    ensures { result ≡ slice_index_or list.now at (pos 0) }
{
    match list.get(at) {
        Some(sample) => *sample,
        None => 0,
    }
}

// Writes samples over pages that are all written, from a place on.
fn write_over(pages: &mut Vec<Samples>, start: usize, samples: &[Fix])
    requires memory { start + length samples.now ≤ 2 ^ 62 }
    requires room { start + length samples.now ≤ 128 * length pages.old.items }
    requires written { (i : ℕ) → start / 128 ≤ i → i < div_ceil (start + length samples.now) 128 → length (slice_index_or pages.old.items i []) ≡ 128 }
    requires pages { ArePages pages.old.items }
    ensures value { (list : List ℤ) → IsWrittenOver list pages.old.items pages.new.items start samples.now }
    ensures length { length pages.new.items ≡ length pages.old.items }
    ensures pages { ArePages pages.new.items }
{
    let mut done = 0;
    while done < samples.len() {
        let at = start + done;
        let count = (PAGE - at % PAGE).min(samples.len() - done);
        write_page(
            &mut pages[at / PAGE],
            at % PAGE,
            &samples[done..done + count],
        );
        done += count;
    }
}

// Writes samples over a page from a place on.
fn write_page(page: &mut Samples, place: usize, samples: &[Fix])
    requires { place + length samples.now ≤ length page.old }
    ensures { page.new ≡ take place page.old ++ (samples.now ++ drop (place + length samples.now) page.old) }
{
    page.as_mut_slice()[place..place + samples.len()].copy_from_slice(samples);
}
