//! Laws that speak of no audio: membership in lists, reaching along the arrows of a graph, and
//! recursions over moment and height.
//!
//! The crate has no code of its own. Its definitions and laws carry the meaning of a graph of nodes.
#![tactic(auto)]

ghost use Rattle.law_base.specs.Laws.{ReachingLaw, SettlingLaw};

/// As many arrows as there are ends reach all that any number of arrows reaches.
pub fn reaching_law<E>()
    ensures { ReachingLaw E }
{}

/// Heights settle: from the number of ends on they give the same, where an end that reaches itself
/// is silent.
pub fn settling_law<E, A>()
    ensures { SettlingLaw E A }
{}
