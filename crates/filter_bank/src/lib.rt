//! What the nodes that hear their input from their creation on remember of it, each by its equation.
#![tactic(auto)]

mod causal_node;
mod causal_nodes;
mod state;

pub use causal_nodes::CausalNodes;
pub use state::State;
