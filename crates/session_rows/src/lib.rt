//! What the definition of a whole session computes, at each branch of a turn.
//!
//! The crate has no code of its own. Its rows stand in proofs/, where the check computes them.
#![tactic(auto)]
