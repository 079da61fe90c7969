ghost use Rattle.wa_base.specs.Paging.{origin_of, pages_of, value_at, IsPage};
ghost use Rattle.std.specs.Prelude.{List, ℤ, ◌*◌, ◌≡◌, ◌≤◌, ◌<◌, ◌+◌, ◌-◌, ◌/◌, ◌%◌, ◌^◌, ◌++◌, ℕ, pos, length, take, drop, replicate, slice_index_or, [], IfSome, IfOk, OnOk, OnErr};

use crate::channel::Channel;
use crate::memory::NoMemory;
use crate::numbers::Fix;
use crate::pages::{PAGE, Pages, sample_at};
use crate::shared::SharedSamples;
use std::alloc::Global;
use std::marker::Model;
use std::rc::Rc;

/// The samples of a buffer (AudioBuffer), which may be written over. Contracts see the list of them.
///
/// They begin as a recording, which others may share, or as silence, which takes no memory. What is written over
/// stands in pages of 128 samples, so that a write takes memory for the pages that it touches alone.
#[derive(Drop)]
pub struct PagedSamples {
    count: usize,
    // What they began as, where that was no silence.
    origin: Option<SharedSamples>,
    // What was written over, where something was.
    pages: Option<Rc<Pages>>,
}

impl Model for PagedSamples {
    ghost use Rattle.std.specs.Prelude.{ℤ, List};
    ghost use Rattle.wa_base.specs.Paging.{laid_over, origin_of, pages_of, IsPaged};

    ghost Value = { List ℤ };

    ghost view = { λ s. laid_over (origin_of s.origin) (pages_of s.pages) s.count };

    ghost invariant = { λ s. IsPaged s.origin s.pages s.count };
}

impl PagedSamples {
    /// So many samples of silence, which take no memory.
    pub fn silence(count: usize) -> PagedSamples
        ensures { result ≡ replicate count (pos 0) }
    {
        PagedSamples {
            count,
            origin: None,
            pages: None,
        }
    }

    /// The samples of a recording.
    pub fn shared(samples: SharedSamples) -> PagedSamples
        ensures { result ≡ samples }
    {
        PagedSamples {
            count: samples.len(),
            origin: Some(samples),
            pages: None,
        }
    }

    /// Equal samples, which share their memory. `NoMemory` comes where there are more owners than can be
    /// counted.
    pub fn share(&self) -> Result<PagedSamples, NoMemory>
        ensures { IfOk result (λ shared. shared ≡ self.now) }
    {
        let origin = match &self.origin {
            Some(origin) => Some(origin.share()?),
            None => None,
        };
        let pages = match &self.pages {
            Some(pages) => Some(pages.clone()?),
            None => None,
        };
        Ok(PagedSamples {
            count: self.count,
            origin,
            pages,
        })
    }

    /// The number of samples.
    pub fn len(&self) -> usize
        ensures { result ≡ length self.now }
    {
        self.count
    }

    /// So many samples from a place on, as a channel.
    pub fn channel(&self, first: usize, frames: usize) -> Channel<'_>
        requires memory { length self.now ≤ 2 ^ 62 }
        requires room { first + frames ≤ length self.now }
        ensures { result ≡ take frames (drop first self.now) }
    {
        match (&self.origin, &self.pages) {
            (Some(origin), None) => part_of(origin, first, frames),
            _ => Channel::of_pages(self, first, frames),
        }
    }

    /// A sample.
    pub(crate) fn get(&self, at: usize) -> Fix
        requires memory { length self.now ≤ 2 ^ 62 }
        requires inside { at < length self.now }
        ensures { result ≡ slice_index_or self.now at (pos 0) }
    {
        let page = page_at(&self.pages, at);
        if page.is_empty() {
            sample_at(origin_slice(&self.origin), at)
        } else {
            page[at % PAGE]
        }
    }

    /// Copies samples from a place on.
    pub(crate) fn read(&self, at: usize, out: &mut [Fix])
        requires memory { length self.now ≤ 2 ^ 62 }
        requires inside { at + length out.old ≤ length self.now }
        ensures { out.new ≡ take (length out.old) (drop at self.now) }
    {
        let mut done = 0;
        while done < out.len() {
            let from = at + done;
            let count = (PAGE - from % PAGE).min(out.len() - done);
            read_part(
                &self.origin,
                &self.pages,
                from,
                &mut out[done..done + count],
            );
            done += count;
        }
    }

    /// Writes samples over those from a place on. After `NoMemory` they are as before. What others share stays as
    /// it is.
    pub fn write(&mut self, alloc: Global, start: usize, samples: &[Fix]) -> Result<(), NoMemory>
        requires memory { length self.old ≤ 2 ^ 62 }
        requires inside { start + length samples.now ≤ length self.old }
        ensures ok { OnOk result (self.new ≡ take start self.old ++ (samples.now ++ drop (start + length samples.now) self.old)) }
        ensures err { OnErr result (self.new ≡ self.old) }
    {
        let below = origin_slice(&self.origin);
        if let Some(shared) = &mut self.pages {
            if let Some(own) = Rc::get_mut(shared) {
                return own.write(alloc, below, start, samples);
            }
        }
        let mut own = own_pages(&self.pages, alloc, self.count)?;
        own.write(alloc, below, start, samples)?;
        self.pages = Some(Rc::new(alloc, own)?);
        Ok(())
    }
}

// So many samples of a recording from one on.
fn part_of(origin: &SharedSamples, first: usize, frames: usize) -> Channel<'_>
    requires memory { length origin.now ≤ 2 ^ 62 }
    requires room { first + frames ≤ length origin.now }
    ensures { result ≡ take frames (drop first origin.now) }
{
    Channel::from(&origin.as_slice()[first..first + frames])
}

// Copies samples that one page would have.
fn read_part(origin: &Option<SharedSamples>, pages: &Option<Rc<Pages>>, at: usize, out: &mut [Fix])
    requires memory { at ≤ 2 ^ 62 }
    requires page { at % 128 + length out.old ≤ 128 }
    requires origin { IfSome origin.now (λ samples. at + length out.old ≤ length samples) }
    ensures length { length out.new ≡ length out.old }
    ensures value { (k : ℕ) → k < length out.new → slice_index_or out.new k (pos 0) ≡ value_at (origin_of origin.now) (pages_of pages.now) (at + k) }
{
    let page = page_at(pages, at);
    if !page.is_empty() {
        out.copy_from_slice(&page[at % PAGE..at % PAGE + out.len()]);
        return;
    }
    match origin {
        Some(origin) => out.copy_from_slice(&origin.as_slice()[at..at + out.len()]),
        None => out.fill(0),
    }
}

// What samples began as; silence is the empty list.
fn origin_slice(origin: &Option<SharedSamples>) -> &[Fix]
    ensures { result.now ≡ origin_of origin.now }
{
    match origin {
        Some(origin) => origin.as_slice(),
        None => &[],
    }
}

fn page_at(pages: &Option<Rc<Pages>>, at: usize) -> &[Fix]
    ensures value { result.now ≡ slice_index_or (pages_of pages.now) (at / 128) [] }
    ensures page { IsPage result.now }
{
    match pages {
        Some(pages) => pages.as_ref().page(at),
        None => &[],
    }
}

// Pages of its own for so many samples, with what was written.
fn own_pages(pages: &Option<Rc<Pages>>, alloc: Global, count: usize) -> Result<Pages, NoMemory>
    requires { IfSome pages.now (λ pages. count ≤ 128 * length pages.value) }
    ensures value { IfOk result (λ own. (list : List ℤ) (i : ℕ) → value_at list own i ≡ value_at list (pages_of pages.now) i) }
    ensures room { IfOk result (λ own. count ≤ 128 * length own) }
{
    match pages {
        Some(pages) => pages.as_ref().copy(),
        None => Pages::new(alloc, count),
    }
}
