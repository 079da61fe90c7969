//! What the control side of a session tells the side that renders: accepted changes, and the marks of
//! each render quantum, in a queue.
#![tactic(auto)]

mod ends;
mod message;
mod queue;

pub use ends::{ends_by, mark_ended};
pub use message::Message;
pub use queue::Queue;
