ghost use Rattle.std.specs.Prelude.{◌≡◌, ◌<◌, ◌≤◌, ◌+◌, ◌*◌, [], ℕ, ℤ, List, None, length, max, slice_index_or, IfOk, OnOk, OnErr};
ghost use Rattle.node_table.specs.Filters.{IsFilter, filter_refusal, filter_value};
ghost use Rattle.node_table.specs.Frames.{item, newest};
ghost use Rattle.shaper_iir.specs.Filter.{FilterStands, history_of};
ghost use Rattle.shaper_iir.specs.Histories.{after, silent};
ghost use Rattle.shaper_iir.specs.Scales.{IsScale};

use crate::histories::{History, KEPT};
use crate::scales::{Scale, is_also_within};
use node_table::Causal;
use std::alloc::Global;
use std::marker::Model;
use wa_base::{Fix, NoMemory, Samples};

const SILENT: History = History {
    inputs: [0; KEPT],
    outputs: [0; KEPT],
};

/// The state of an IIR filter (IIRFilterNode): its coefficients, and what it remembers of each channel.
#[derive(Drop)]
pub struct Iir {
    forward: Samples,
    back: Samples,
    channels: Vec<History>,
}

impl Model for Iir {
    ghost use Rattle.shaper_iir.specs.Filter.{Filter};

    ghost Value = { Filter };

    ghost use Rattle.shaper_iir.specs.FilterInside.{filter_of, IsSound};

    ghost view = { filter_of };

    ghost invariant = { IsSound };
}

impl Iir {
    /// A filter at its birth, which has heard nothing and has no room for a channel (createIIRFilter): its feedforward and feedback
    /// coefficients, in units of 2^-24. `filter_refusal` says which ones it can have.
    #[tactic(auto, using(crate::proofs::Coefficients::accepted))]
    pub fn new(alloc: Global, forward: &[Fix], back: &[Fix]) -> Result<Iir, NoMemory>
        requires { filter_refusal forward.now back.now ≡ None }
        ensures value { IfOk result (λ filter. filter ≡ record { forward = forward.now; back = back.now; channels = [] }) }
        ensures born { IfOk result (λ filter. (c : ℕ) → FilterStands filter c []) }
    {
        let forward = Samples::from(Vec::from_slice(alloc, forward)?);
        let back = Samples::from(Vec::from_slice(alloc, back)?);
        Ok(Iir {
            forward,
            back,
            channels: Vec::new(alloc),
        })
    }

    /// The number of channels that there is room for.
    pub fn channels(&self) -> usize
        ensures { result ≡ length self.now.channels }
    {
        self.channels.len()
    }
}

impl Causal for Iir {
    ghost use Rattle.std.specs.Prelude.{length};
    ghost use Rattle.node_table.specs.Filters.{filter_value};

    ghost stands = { FilterStands };

    ghost value = { λ filter frames. filter_value filter.forward filter.back frames };

    ghost room = { λ filter. length filter.channels };

    fn grow(&mut self, channels: u32) -> Result<(), NoMemory>
        ensures stands { (c : ℕ) (xs : List ℤ) → FilterStands self.old c xs → FilterStands self.new c xs }
        ensures value { filter_value self.new.forward self.new.back ≡ filter_value self.old.forward self.old.back }
        ensures ok { OnOk result (length self.new.channels ≡ max (length self.old.channels) channels) }
        ensures err { OnErr result (length self.new.channels ≡ length self.old.channels) }
        ensures coefficients { (self.new.forward ≡ self.old.forward) × (self.new.back ≡ self.old.back) }
        ensures histories { (c : ℕ) → history_of self.new c ≡ history_of self.old c }
    {
        grow_to(&mut self.channels, channels as usize)
    }

    fn step(&mut self, x: &[Fix], y: &mut [Fix]) {
        filter_all(
            self.forward.as_slice(),
            self.back.as_slice(),
            &mut self.channels,
            x,
            y,
            1,
        );
    }

    fn block(&mut self, x: &[Fix], y: &mut [Fix], frames: usize) {
        filter_all(
            self.forward.as_slice(),
            self.back.as_slice(),
            &mut self.channels,
            x,
            y,
            frames,
        );
    }
}

// Adds silent channels until there are so many.
fn grow_to(channels: &mut Vec<History>, count: usize) -> Result<(), NoMemory>
    ensures histories { (c : ℕ) → slice_index_or channels.new.items c silent ≡ slice_index_or channels.old.items c silent }
    ensures ok { OnOk result (length channels.new.items ≡ max (length channels.old.items) count) }
    ensures err { OnErr result (length channels.new.items ≡ length channels.old.items) }
{
    let old = channels.len();
    if count > old {
        channels.reserve(count - old)?;
        for _ in old..count {
            channels.push_reserved(SILENT);
        }
    }
    Ok(())
}

// Hears a block of each channel.
fn filter_all(
    forward: &[Fix],
    back: &[Fix],
    channels: &mut [History],
    x: &[Fix],
    y: &mut [Fix],
    frames: usize,
)
    requires filter { IsFilter forward.now back.now }
    requires x { length x.now ≡ length channels.old * frames }
    requires y { length y.old ≡ length channels.old * frames }
    ensures histories { (c : ℕ) → c < length channels.old → slice_index_or channels.new c silent ≡ after forward.now back.now (slice_index_or channels.old c silent) x.now (c * frames) frames }
    ensures outputs { (c k : ℕ) → c < length channels.old → k < frames → item y.new (c * frames + k) ≡ newest (after forward.now back.now (slice_index_or channels.old c silent) x.now (c * frames) (k + 1)).outputs }
{
    let scale = Scale::of(forward, back);
    for c in 0..channels.len() {
        let start = c * frames;
        filter_channel(
            forward,
            back,
            &scale,
            &mut channels[c],
            &x[start..start + frames],
            &mut y[start..start + frames],
        );
    }
}

// Hears a block of a channel.
fn filter_channel(
    forward: &[Fix],
    back: &[Fix],
    scale: &Scale,
    history: &mut History,
    x: &[Fix],
    y: &mut [Fix],
)
    requires filter { IsFilter forward.now back.now }
    requires scale { IsScale scale.now forward.now back.now }
    requires y { length y.old ≡ length x.now }
    ensures history { history.new ≡ after forward.now back.now history.old x.now 0 (length x.now) }
    ensures outputs { (k : ℕ) → k < length x.now → item y.new k ≡ newest (after forward.now back.now history.old x.now 0 (k + 1)).outputs }
{
    let mut is_small = history.is_quiet(scale.reach);
    for (k, out) in y.iter_mut().enumerate() {
        is_small = is_also_within(is_small, x[k], scale.reach);
        let value = history.hear(forward, back, scale, is_small, x[k]);
        is_small = is_also_within(is_small, value, scale.reach);
        *out = value;
    }
}
