ghost use Rattle.std.specs.Prelude.{◌≡◌, ◌↔◌, ◌<◌, ◌≤◌, ◌+◌, ◌-◌, ◌*◌, ◌/◌, ◌^◌, ℕ, pos, true, [], length, slice_index_or, MatchOption, IfOk, OnOk};
ghost use Rattle.wa_base.specs.Contexts.{IsQuantumSize};
ghost use Rattle.mix_rules.specs.Blocks.{sample};
ghost use Rattle.delay_line.specs.Delays.{Writer, delayed};
ghost use Rattle.delay_line.specs.Lines.{Keeps};
ghost use Rattle.delay_line.specs.Spans.{IsReached, heard_count, delay_at};
ghost use Rattle.delay_bank.specs.Kept.{room_of, HasKept, Brings, IsAsked, IsNearest, AreFew, read_back};

use crate::spans::{Lasting, Spans};
use delay_line::DelayLine;
use std::alloc::Global;
use std::marker::Model;
use wa_base::{Fix, Interp, NoMemory};

/// A quantum that is asked of a delay's reader: its first frame, how many frames the delay lasts at each of
/// its frames, and to how many channels what was written is mixed, and how.
#[derive(Clone, Copy)]
pub struct Reading<'a> {
    pub first: u64,
    pub delays: &'a Spans,
    pub channels: u32,
    pub interp: Interp,
}

// The delay of a node: what its writer wrote before a frame, and the most channels that it had.
#[derive(Drop)]
pub(crate) struct NodeDelay {
    birth: u64,
    time: u64,
    // The frames of a render quantum.
    quantum: u64,
    most: u32,
    capacity: u64,
    line: DelayLine,
}

impl Model for NodeDelay {
    ghost use Rattle.delay_bank.specs.Kept.{DelayView, IsLived};

    ghost Value = { DelayView };

    ghost view = { λ d. record { birth = d.birth; time = d.time; most = d.most; line = d.line } };

    ghost invariant = { λ d. IsLived d.quantum d.birth d.time d.most d.capacity d.line };
}

impl NodeDelay {
    // The delay of a node that is born at a frame, of at most so many frames, for render quanta of
    // `quantum` frames.
    pub(crate) fn new(
        alloc: Global,
        birth: u64,
        capacity: u64,
        quantum: usize,
    ) -> Result<NodeDelay, NoMemory>
        requires capacity { capacity ≤ 4194304 }
        requires quantum { IsQuantumSize quantum }
        ensures { IfOk result (λ d. d ≡ record { birth = birth; time = birth; most = 1; line = record { capacity = capacity; block = quantum; blocks = 0; counts = []; channels = [] } }) }
    {
        Ok(NodeDelay {
            birth,
            time: birth,
            quantum: quantum as u64,
            most: 1,
            capacity,
            line: DelayLine::new(alloc, capacity, quantum as u32)?,
        })
    }

    // Makes room for so many channels.
    pub(crate) fn grow(&mut self, channels: u32) -> Result<(), NoMemory>
        ensures still { (q longest born now : ℕ) (writer : Writer) → HasKept q self.old longest born now writer ↔ HasKept q self.new longest born now writer }
        ensures block { self.new.line.block ≡ self.old.line.block }
        ensures ok { OnOk result (channels ≤ room_of self.new) }
    {
        self.line.grow(channels)
    }

    // The most channels that the writer had in a quantum, and at least 1.
    pub(crate) fn most(&self) -> u32
        ensures value { result ≡ self.now.most }
        ensures low { 1 ≤ result }
        ensures high { result ≤ 32 }
    {
        self.most
    }

    // Keeps what the writer writes in the quantum that begins at the frame `first`, where all before
    // is kept.
    pub(crate) fn write(&mut self, block: &[Fix], channels: u32, first: u64)
        requires room { channels ≤ room_of self.old }
        requires few { channels ≤ 32 }
        requires block { length block.now ≡ channels * self.old.line.block }
        requires time { first ≤ 2 ^ 62 }
        ensures room { room_of self.new ≡ room_of self.old }
        ensures block { self.new.line.block ≡ self.old.line.block }
        ensures kept { (q longest born : ℕ) (writer : Writer) → HasKept q self.old longest born first writer → Brings q first channels block.now writer → HasKept q self.new longest born (first + q) writer }
    {
        if self.time != first {
            return;
        }
        self.line.write(block, channels);
        self.time += self.quantum;
        self.most = self.most.max(channels);
    }

    // Reads a quantum. What is not kept is silent.
    pub(crate) fn read(&self, out: &mut [Fix], asked: Reading<'_>)
        requires out { length out.old ≡ asked.channels * self.now.line.block }
        requires delays { length asked.delays.now ≡ self.now.line.block }
        requires time { asked.first ≤ 2 ^ 62 }
        ensures values { (q longest born now : ℕ) (writer : Writer) → HasKept q self.now longest born now writer → IsAsked q asked.entry.first now longest asked.entry.delays.now → AreFew q born writer asked.entry.channels asked.entry.first asked.entry.delays.now → q * (born / q) ≡ born →
            (c k : ℕ) → c < asked.entry.channels → k < q → sample q out.new c k ≡ read_back q born writer asked.entry.interp asked.entry.channels (asked.entry.first + k) (delay_at asked.entry.delays.now k) c }
    {
        if !self.has(asked.first, asked.delays) {
            silence(out);
            return;
        }
        let since = asked.first - self.birth;
        read_line(&self.line, out, since, asked);
    }

    // Whether all that the quantum asks for is kept.
    fn has(&self, first: u64, delays: &Spans) -> bool
        requires delays { length delays.now ≡ self.now.line.block }
        requires time { first ≤ 2 ^ 62 }
        ensures born { result ≡ true → self.now.birth ≤ first }
        ensures reached { result ≡ true → (k : ℕ) → k < self.now.line.block → IsReached self.now.line (first - self.now.birth + k) (delay_at delays.now k) }
        ensures asked { IsAsked self.now.line.block first self.now.time self.now.line.capacity delays.now → self.now.birth ≤ first → result ≡ true }
    {
        let Some(least) = self.nearest(first) else {
            return false;
        };
        if self.birth > first {
            return false;
        }
        delays.are_within(least, self.capacity)
    }

    // The least number of frames back at which all of the quantum was written, where all before it was.
    fn nearest(&self, first: u64) -> Option<u64>
        requires { first ≤ 2 ^ 62 }
        ensures { MatchOption result ((self.now.time ≡ first → ⊥) × (self.now.time ≡ first + self.now.line.block → ⊥)) (IsNearest self.now.line.block first self.now.time) }
    {
        if self.time == first {
            Some(self.quantum)
        } else if self.time == first + self.quantum {
            Some(0)
        } else {
            None
        }
    }
}

// Reads of a line what a quantum asks for, which begins so many frames after its birth.
fn read_line(line: &DelayLine, out: &mut [Fix], since: u64, asked: Reading<'_>)
    requires out { length out.old ≡ asked.channels * line.now.block }
    requires delays { length asked.delays.now ≡ line.now.block }
    requires since { since ≤ 2 ^ 62 }
    requires frames { (k : ℕ) → k < line.now.block → IsReached line.now (since + k) (delay_at asked.delays.now k) }
    ensures { (writer : Writer) (c k : ℕ) → Keeps line.now writer → c < asked.entry.channels → k < line.now.block → heard_count line.now (since + k) (delay_at asked.entry.delays.now k) ≤ asked.entry.channels →
        sample line.now.block out.new c k ≡ delayed line.now.block writer asked.entry.interp asked.entry.channels (since + k) (delay_at asked.entry.delays.now k) c }
{
    match asked.delays.lasting() {
        Lasting::Steady(delay) => {
            line.read_steady(out, asked.channels, since, delay, asked.interp);
        }
        Lasting::Each(delays) => line.read(out, asked.channels, since, delays, asked.interp),
    }
}

// Silences a block.
pub(crate) fn silence(out: &mut [Fix])
    ensures { (k : ℕ) → k < length out.old → slice_index_or out.new k (pos 0) ≡ pos 0 }
{
    out.fill(0);
}
