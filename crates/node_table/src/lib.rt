//! The nodes (AudioNode) of a graph, in order of creation: what each of them is, and how the channels
//! of its inputs are mixed. Of those whose output at a frame rests on the input up to that frame, the
//! equations, and the trait of their states.
#![tactic(auto)]

mod attributes;
mod causal;
mod code;
mod curves;
mod delays;
mod equation;
mod kinds;
mod laws;
mod nodes;
mod program;
mod refusals;
mod rows;

pub use causal::Causal;
pub use code::{Code, Instr};
pub use delays::{delay_capacity, frames_of};
pub use equation::Equation;
pub use kinds::Kind;
pub use laws::{block_law, silence_law};
pub use nodes::{Attrs, Node, Nodes};
pub use program::Program;
pub use refusals::{curve_refusal, filter_refusal, response_refusal};
pub use rows::{Channels, Fixed, Keeps, ParamRow, Plays, Range, Row};
