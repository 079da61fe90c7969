//! What a sample rests on: facts about a tape of worlds, what each of them needs, and which lists of
//! facts are checked.
#![tactic(auto)]

ghost use Rattle.explain.specs.Laws.{CheckedLaw, CheckedTextLaw, CheckerLaw, NeedsLaw, NextFactLaw, TextLaw};

mod facts;
mod printed;
mod reading;

pub use facts::{Fact, Key};
pub use printed::fact_text;
pub use reading::read_fact;

/// A checked list tells the truth: each of its facts is what the meaning has.
pub fn checked_law()
    ensures { CheckedLaw }
{}

/// A checked text tells the truth.
pub fn checked_text_law()
    ensures { CheckedTextLaw }
{}

/// What a fact needs is all that it rests on: behind a checked list in which that stands, a true fact
/// makes a checked list.
pub fn needs_law()
    ensures { NeedsLaw }
{}

/// A list is checked exactly where each of its facts passes behind those before it: it is a fact of the
/// tape, what it needs stands before it, and its equation gives it.
pub fn checker_law()
    ensures { CheckerLaw }
{}

/// A list with one more fact behind it is checked exactly where it is checked without that fact, and
/// the fact passes.
pub fn next_fact_law()
    ensures { NextFactLaw }
{}

/// A text is that of at most one list of facts whose numbers fit their types.
pub fn text_law()
    ensures { TextLaw }
{}
