//! The machine of a session: control calls, render quanta and the samples that they give.
#![tactic(auto)]

mod assets;
mod laws;
mod observer;
mod render_side;
mod rendered;
mod replay;
mod session;
mod stop;

pub use ctx_state::Turn;
pub use laws::tape_law;
pub use observer::{NoObserver, Observer};
pub use rendered::Rendered;
pub use replay::{Outcome, run, run_observed};
pub use session::{Options, Session};
pub use stop::Stop;
