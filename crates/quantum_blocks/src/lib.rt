//! The blocks of a render quantum: the values that the ends of a graph carry over the frames of one.
#![tactic(auto)]

mod block;
mod blocks;
mod ends;
mod gathering;
mod held;
mod kernels;
mod places;
mod playing;

pub use block::Block;
pub use blocks::{fit_blocks, hush};
pub use ends::{reader, slot, writer};
pub use gathering::{Inlet, gather};
pub use held::Held;
pub use places::{near_of, places_of, play_place};
pub use playing::{Source, sounding};
