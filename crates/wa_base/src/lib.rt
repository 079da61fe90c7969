//! What every crate of the replayer stands on: fixed-point numbers with their rounding, the answer
//! for want of memory, lists that contracts see as lists, samples that are shared and written over, a
//! counter of steps, and the names of nodes, parameters, features and exceptions.
#![tactic(auto)]

mod channel;
mod contexts;
mod exceptions;
mod features;
mod graph_names;
mod items;
mod memory;
mod numbers;
mod paged;
mod pages;
mod shared;
mod steps;

pub use channel::Channel;
pub use contexts::{ContextSpec, DEFAULT_QUANTUM, State};
pub use exceptions::{Exc, Refusal};
pub use features::Feature;
pub use graph_names::{BufId, End, Interp, Mode, Name, NodeId, ParamId, ParamName, Rate, Tie};
pub use items::{Bytes, Items, Samples};
pub use memory::NoMemory;
pub use numbers::{Fix, ONE, rnd_div, sat, scale};
pub use paged::PagedSamples;
pub use shared::SharedSamples;
pub use steps::Steps;
