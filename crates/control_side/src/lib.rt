//! The side of a session that calls are made on: a context, its nodes and connections, and the names of
//! a script. It renders nothing.
#![tactic(auto)]

mod assets;
mod buffers;
mod contexts;
mod control;
mod convolvers;
mod decide;
mod ends;
mod laws;
mod nodes;
mod params;
mod processors;
mod shapers;
mod sources;

pub use control::{Control, Stepped};
pub use decide::Decided;
pub use laws::ended_law;
