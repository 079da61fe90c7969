ghost use Rattle.std.specs.Prelude.{◌≡◌, ◌<◌, ◌≤◌, ◌+◌, ◌-◌, ◌*◌, ◌^◌, ℕ, ℤ, pos, None, [], length, slice_index_or, IfOk, OnOk};
ghost use Rattle.wa_base.specs.Contexts.{IsQuantumSize};
ghost use Rattle.node_table.specs.Equations.{equation_refusal, equation_value};
ghost use Rattle.filter_bank.specs.States.{equation_of, first_state};
ghost use Rattle.node_table.specs.Frames.{item};
ghost use Rattle.meaning.specs.Lists.{since};
ghost use Rattle.filter_bank.specs.Heard.{room_of, HasHeard, Brings, HasOutputs, IsRested, IsSame};

use crate::state::State;
use node_table::{Causal, Equation};
use std::alloc::Global;
use std::marker::Model;
use wa_base::{Fix, NoMemory};

// A causal node: its state, and before which frame it has heard its input.
#[derive(Drop)]
pub(crate) struct CausalNode {
    birth: u64,
    time: u64,
    state: State,
}

impl Model for CausalNode {
    ghost use Rattle.filter_bank.specs.Heard.{HeardView, IsLived};

    ghost Value = { HeardView };

    ghost view = { λ f. record { birth = f.birth; time = f.time; state = f.state } };

    ghost invariant = { λ f. IsLived f.birth f.time f.state };
}

impl CausalNode {
    // A causal node that is born at a frame, and has heard nothing.
    pub(crate) fn new(
        alloc: Global,
        birth: u64,
        equation: &Equation,
    ) -> Result<CausalNode, NoMemory>
        requires { equation_refusal equation.now ≡ None }
        ensures { IfOk result (λ f. f ≡ record { birth = birth; time = birth; state = first_state equation.now }) }
    {
        Ok(CausalNode {
            birth,
            time: birth,
            state: State::new(alloc, equation)?,
        })
    }

    // Makes room for so many channels.
    pub(crate) fn grow(&mut self, channels: u32) -> Result<(), NoMemory>
        requires { channels ≤ 32 }
        ensures same { IsSame self.old self.new }
        ensures few { room_of self.new ≤ 32 }
        ensures ok { OnOk result (channels ≤ room_of self.new) }
    {
        self.state.grow(channels)
    }

    // For so many channels there is room.
    pub(crate) fn room(&self) -> usize
        ensures room { result ≡ room_of self.now }
        ensures few { result ≤ 32 }
    {
        self.state.channels()
    }

    // Hears so many frames of each channel that there is room for, and writes the output of each.
    pub(crate) fn hear(&mut self, x: &[Fix], y: &mut [Fix], frames: usize)
        requires frames { IsQuantumSize frames }
        requires x { length x.now ≡ room_of self.old * frames }
        requires y { length y.old ≡ room_of self.old * frames }
        ensures birth { self.new.birth ≡ self.old.birth }
        ensures time { self.old.time ≤ 2 ^ 62 → self.new.time ≡ self.old.time + frames }
        ensures room { room_of self.new ≡ room_of self.old }
        ensures outputs { HasOutputs self.new.state (equation_of self.old.state) }
        ensures heard { self.old.time ≤ 2 ^ 62 → (at : ℕ → ℕ → ℤ) → HasHeard at self.old → Brings frames self.old.time x.now at → HasHeard at self.new }
        ensures values { (at : ℕ → ℕ → ℤ) → HasHeard at self.old → Brings frames self.old.time x.now at → (c k : ℕ) → c < room_of self.old → k < frames →
            item y.new (c * frames + k) ≡ equation_value (equation_of self.old.state) (since (λ g. at g c) self.old.birth (self.old.time + k + 1 - self.old.birth)) }
        ensures length { length y.new ≡ length y.old }
    {
        self.state.block(x, y, frames);
        self.time = self.time.saturating_add(frames as u64);
    }

    // Hears a silent quantum of so many frames, where it has heard its input before the frame `first`
    // and no further.
    pub(crate) fn rest(&mut self, zeros: &[Fix], scratch: &mut [Fix], frames: usize, first: u64)
        requires frames { IsQuantumSize frames }
        requires zeros { length zeros.now ≡ 32 * frames }
        requires silent { (k : ℕ) → slice_index_or zeros.now k (pos 0) ≡ pos 0 }
        requires scratch { length scratch.old ≡ 32 * frames }
        requires time { first ≤ 2 ^ 62 }
        ensures scratch { length scratch.new ≡ 32 * frames }
        ensures rested { IsRested frames first self.old self.new }
    {
        if self.time != first {
            return;
        }
        let values = self.room() * frames;
        self.hear(&zeros[..values], &mut scratch[..values], frames);
    }
}
