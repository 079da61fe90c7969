//! When an offline context renders: its state, its time, and the suspensions that are scheduled.
#![tactic(auto)]

mod context;

pub use context::{Context, Turn};
