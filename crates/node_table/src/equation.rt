ghost use Rattle.std.specs.Prelude.{◌≡◌, IfOk};
ghost use Rattle.node_table.specs.Equations as spec;

use crate::program::Program;
use crate::refusals::{filter_refusal, response_refusal};
use wa_base::{Channel, Exc, NoMemory, Samples};

/// What a node puts out on a channel at each frame, from all frames that the channel took in since the
/// node's creation.
#[derive(Drop)]
pub enum Equation {
    /// An IIR filter (IIRFilterNode), by 1 to 20 coefficients of each kind, in units of 2^-24.
    Filter {
        /// Those of the inputs (feedforward), of which one is not 0.
        forward: Samples,
        /// Those of the outputs (feedback), of which the first is not 0.
        back: Samples,
    },
    /// The convolution with a response (ConvolverNode): at most 16,384 samples, none of them further
    /// from 0 than 2.0. Without a sample the output is 0.
    Convolution {
        /// The response to a single frame of 1.0, in units of 2^-24.
        response: Samples,
    },
    /// A processor, by the program that runs at each frame (this profile's answer to
    /// AudioWorkletNode).
    Processor {
        program: Program,
    },
}

impl Equation {
    /// The exception with which a node of this equation is refused at its creation, as `filter_refusal`
    /// and `response_refusal` say. A program was accepted before.
    pub fn refusal(&self) -> Option<Exc>
        ensures { result ≡ spec.equation_refusal self.now }
    {
        match self {
            Equation::Filter { forward, back } => {
                filter_refusal(forward.as_slice(), back.as_slice())
            }
            Equation::Convolution { response } => response_refusal(&Channel::from(
                response.as_slice(),
            )),
            Equation::Processor { .. } => None,
        }
    }

    /// Whether a node of this equation has at most two channels (the recommendation's constraints on the
    /// channelCount of ConvolverNode).
    pub fn is_at_most_stereo(&self) -> bool
        ensures { result ≡ spec.is_at_most_stereo self.now }
    {
        match self {
            Equation::Filter { .. } | Equation::Processor { .. } => false,
            Equation::Convolution { .. } => true,
        }
    }

    /// An equal equation with memory of its own.
    pub fn copy(&self) -> Result<Equation, NoMemory>
        ensures { IfOk result (λ copy. copy ≡ self.now) }
    {
        Ok(match self {
            Equation::Filter { forward, back } => Equation::Filter {
                forward: forward.copy()?,
                back: back.copy()?,
            },
            Equation::Convolution { response } => Equation::Convolution {
                response: response.copy()?,
            },
            Equation::Processor { program } => Equation::Processor {
                program: program.copy()?,
            },
        })
    }
}
