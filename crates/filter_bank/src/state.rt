ghost use Rattle.std.specs.Prelude.{◌≡◌, ◌≤◌, ◌<◌, ◌+◌, ◌*◌, ℕ, ℤ, List, None, [], max, length, IfOk, OnOk, OnErr};
ghost use Rattle.node_table.specs.Equations.{equation_refusal, equation_value};
ghost use Rattle.node_table.specs.Frames.{item, heard};
ghost use Rattle.filter_bank.specs.States as spec;

use convolve::Convolver;
use node_table::{Causal, Equation};
use shaper_iir::Iir;
use std::alloc::Global;
use wa_base::{Fix, NoMemory};
use worklet::Processor;

/// What a node remembers of all that its input took in, by its equation.
#[derive(Drop)]
pub enum State {
    /// What a filter remembers (IIRFilterNode).
    Filter(Iir),
    /// What a convolver remembers (ConvolverNode).
    Convolution(Convolver),
    /// What a processor remembers, this profile's answer to AudioWorkletNode.
    Processor(Processor),
}

impl State {
    // That of a node that has heard nothing. It has room for no channel.
    pub(crate) fn new(alloc: Global, equation: &Equation) -> Result<State, NoMemory>
        requires { equation_refusal equation.now ≡ None }
        ensures { IfOk result (λ state. state ≡ spec.first_state equation.now) }
    {
        Ok(match equation {
            Equation::Filter { forward, back } => {
                State::Filter(Iir::new(alloc, forward.as_slice(), back.as_slice())?)
            }
            Equation::Convolution { response } => {
                State::Convolution(Convolver::new(alloc, response.as_slice())?)
            }
            Equation::Processor { program } => {
                State::Processor(Processor::new(alloc, program.copy()?))
            }
        })
    }

    // For so many channels there is room.
    pub(crate) fn channels(&self) -> usize
        ensures { result ≡ spec.room self.now }
    {
        match self {
            State::Filter(filter) => filter.channels(),
            State::Convolution(convolver) => convolver.channels(),
            State::Processor(processor) => processor.channels(),
        }
    }
}

impl Causal for State {
    ghost stands = { spec.stands };

    ghost value = { λ state frames. equation_value (spec.equation_of state) frames };

    ghost room = { spec.room };

    fn grow(&mut self, channels: u32) -> Result<(), NoMemory>
        ensures stands { (c : ℕ) (xs : List ℤ) → spec.stands self.old c xs → spec.stands self.new c xs }
        ensures value { equation_value (spec.equation_of self.new) ≡ equation_value (spec.equation_of self.old) }
        ensures ok { OnOk result (spec.room self.new ≡ max (spec.room self.old) channels) }
        ensures err { OnErr result (spec.room self.new ≡ spec.room self.old) }
        ensures back { (c : ℕ) (xs : List ℤ) → spec.stands self.new c xs → spec.stands self.old c xs }
    {
        match self {
            State::Filter(filter) => filter.grow(channels),
            State::Convolution(convolver) => convolver.grow(channels),
            State::Processor(processor) => processor.grow(channels),
        }
    }

    fn step(&mut self, x: &[Fix], y: &mut [Fix]) {
        match self {
            State::Filter(filter) => filter.step(x, y),
            State::Convolution(convolver) => convolver.step(x, y),
            State::Processor(processor) => processor.step(x, y),
        }
    }

    fn block(&mut self, x: &[Fix], y: &mut [Fix], frames: usize) {
        match self {
            State::Filter(filter) => filter.block(x, y, frames),
            State::Convolution(convolver) => convolver.block(x, y, frames),
            State::Processor(processor) => processor.block(x, y, frames),
        }
    }
}
