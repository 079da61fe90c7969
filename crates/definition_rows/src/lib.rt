//! What the definitions of calls, turns and decodes compute: each refusal in its order, each limit at its
//! number and one past.
//!
//! The crate has no code of its own. Its rows stand in proofs/, where the check computes them.
#![tactic(auto)]
