ghost use Rattle.std.specs.Prelude.{◌≡◌, ◌<◌, ℕ, pos, length, max, slice_index_or, IfOk};
ghost use Rattle.std.specs.List.{list_all};
ghost use Rattle.node_table.specs.Delays.{frames_of as whole_frames};
ghost use Rattle.delay_bank.specs.Kept.{between};
ghost use Rattle.delay_bank.specs.Lasting.{IsLasting};

use node_table::frames_of;
use std::alloc::Global;
use std::marker::Model;
use wa_base::{Fix, NoMemory};

/// How many frames a delay lasts at each frame of a quantum. Contracts see a list.
#[derive(Drop)]
pub struct Spans {
    // How long it lasts where it lasts equally long at all frames. Otherwise `each` says it.
    steady: Option<u64>,
    each: Vec<u64>,
}

impl Model for Spans {
    ghost use Rattle.std.specs.Prelude.{ℕ, List};
    ghost use Rattle.delay_bank.specs.Lasting.{spans_of};

    ghost Value = { List ℕ };

    ghost view = { λ s. spans_of s.steady s.each.items };
}

// How many frames a delay lasts: equally many at all frames, or so many at each.
pub(crate) enum Lasting<'a> {
    Steady(u64),
    Each(&'a [u64]),
}

impl Spans {
    /// No delay at so many frames.
    pub fn new(alloc: Global, frames: usize) -> Result<Spans, NoMemory>
        ensures { IfOk result (λ spans. length spans ≡ frames) }
    {
        Ok(Spans {
            steady: None,
            each: vec![in alloc; 0; frames]?,
        })
    }

    /// The number of frames of the quantum.
    pub fn frames(&self) -> usize
        ensures { result ≡ length self.now }
    {
        self.each.len()
    }

    /// Lasts as long as a level says, in seconds, at a rate, and at least so many frames: equally long at
    /// all frames.
    pub fn hold(&mut self, level: Fix, rate: u32, least: u64)
        ensures length { length self.new ≡ length self.old }
        ensures spans { (m : ℕ) → m < length self.old → slice_index_or self.new m 0 ≡ max least (whole_frames level rate) }
    {
        self.steady = Some(least.max(frames_of(level, rate)));
    }

    /// The same for the level of each frame.
    pub fn follow(&mut self, levels: &[Fix], rate: u32, least: u64)
        requires { length levels.now ≡ length self.old }
        ensures length { length self.new ≡ length self.old }
        ensures spans { (m : ℕ) → m < length self.old → slice_index_or self.new m 0 ≡ max least (whole_frames (slice_index_or levels.now m (pos 0)) rate) }
    {
        self.steady = None;
        span_each(&mut self.each, levels, rate, least);
    }

    // How long it lasts.
    pub(crate) fn lasting(&self) -> Lasting<'_>
        ensures { IsLasting self.now result }
    {
        match self.steady {
            Some(span) => Lasting::Steady(span),
            None => Lasting::Each(&self.each),
        }
    }

    // Whether it lasts so many frames at each frame.
    pub(crate) fn are_within(&self, least: u64, most: u64) -> bool
        requires { 0 < length self.now }
        ensures { result ≡ list_all (between least most) self.now }
    {
        match self.lasting() {
            Lasting::Steady(span) => is_within(span, least, most),
            Lasting::Each(spans) => are_within(spans, least, most),
        }
    }
}

fn span_each(spans: &mut [u64], levels: &[Fix], rate: u32, least: u64)
    requires { length levels.now ≡ length spans.old }
    ensures length { length spans.new ≡ length spans.old }
    ensures spans { (m : ℕ) → m < length spans.old → slice_index_or spans.new m 0 ≡ max least (whole_frames (slice_index_or levels.now m (pos 0)) rate) }
{
    for (m, span) in spans.iter_mut().enumerate() {
        *span = least.max(frames_of(levels[m], rate));
    }
}

// All are looked at, with no branch, so that the compiler can look at several at once.
fn are_within(spans: &[u64], least: u64, most: u64) -> bool
    ensures { result ≡ list_all (between least most) spans.now }
{
    let mut within = true;
    for span in spans {
        within &= is_within(*span, least, most);
    }
    within
}

fn is_within(span: u64, least: u64, most: u64) -> bool
    ensures { result ≡ between least most span }
{
    (least <= span) & (span <= most)
}
