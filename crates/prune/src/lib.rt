//! What of a tape is not heard: the law that what reaches no kept node can be left out.
//!
//! The crate has no code of its own.
#![tactic(auto)]

ghost use Rattle.prune.specs.Laws.{PartLaw};

/// What is left out is not heard: a tape without some nodes, none of which is ever connected to one
/// that is kept, has the same counts, values and parameters at the kept nodes, and the same rows.
pub fn part_law()
    ensures { PartLaw }
{}
