ghost use Rattle.std.specs.Prelude.{◌≡◌, ◌≢◌, ◌↔◌, IsTrue, ◌+◌, ◌*◌, ◌<◌, ◌≤◌, ◌^◌, ◌++◌, [], length, IfOk, IfErr};
ghost use Rattle.meaning.specs.Worlds.{IsRegular};
ghost use Rattle.derivations.specs.Tapes.{worlds};
ghost use Rattle.derivations.specs.Contexts.{tape_in, IsReady};
ghost use Rattle.equations.specs.Given.{IsShort};
ghost use Rattle.explain_top.specs.Faults.{IsDerivationOf, IsFault, IsFaultNext};
ghost use Rattle.explain_top.specs.Steps.{IsNext};

use crate::lines::first_fact;
use derivations::{Context, Known, Search, Tape};
use equations::fact_of;
use explain::Fact;
use std::alloc::Global;
use wa_base::{Fix, NoMemory};

/// Why a text is not checked. The first line is line 1, and each error names the first line that does
/// not follow from those before it.
#[derive(Clone, Copy, Debug, PartialEq, Eq)]
pub enum CheckErr {
    /// There is no line.
    Empty,
    /// The line is no fact of the tape, or no byte 10 ends it.
    BadLine(u64),
    /// The fact needs one that stands in no earlier line.
    Missing(u64),
    /// The fact says something else than its equation.
    Wrong(u64),
    /// Memory ran out; nothing is said of the text.
    NoMemory,
}

impl From<NoMemory> for CheckErr {
    ghost use Rattle.std.specs.Prelude.{◌≡◌};
    ghost use Rattle.explain_top.specs.declared.checking.CheckErr.TheVariants.{NoMemory as no_memory};

    ghost from_gives = { λ _ error. error ≡ no_memory };

    fn from(_: NoMemory) -> CheckErr {
        CheckErr::NoMemory
    }
}

/// The last fact of a text that is a derivation: each of its lines is a fact, what a fact needs stands
/// in earlier lines, and its value is what its equation makes of these. So each is what the meaning has
/// (`explain::checked_text_law`). A quantum has so many frames.
///
/// It takes time for each need of each line once, and memory for each line.
pub fn check(alloc: Global, tape: &Tape, quantum: u32, text: &[u8]) -> Result<Fact, CheckErr>
    requires some { 0 < quantum }
    requires most { quantum ≤ 1024 }
    requires regular { IsRegular quantum (worlds tape.now) }
    requires short { quantum * length (worlds tape.now) ≤ 2 ^ 62 }
    ensures derivation { IfOk result (λ fact. IsDerivationOf quantum (worlds tape.now) text.now fact) }
    ensures fault { IfErr result (λ e. IsFault quantum (worlds tape.now) text.now e) }
{
    let mut known = Known::new(alloc);
    let mut rest = text;
    while !rest.is_empty() {
        let context = Context {
            quantum,
            tape,
            known: &known,
        };
        let (fact, more) = next_fact(alloc, context, rest)?;
        known.push(fact)?;
        rest = more;
    }
    match known.as_slice().last() {
        Some(fact) => Ok(*fact),
        None => Err(CheckErr::Empty),
    }
}

// The fact of the line that a text begins with, where it follows from the known ones, and the text
// behind that line.
fn next_fact<'a>(
    alloc: Global,
    context: Context<'_>,
    rest: &'a [u8],
) -> Result<(Fact, &'a [u8]), CheckErr>
    requires ready { IsReady context }
    requires short { IsShort context }
    requires few { length context.known.now + 1 < 2 ^ 64 }
    requires some { rest.now ≢ [] }
    ensures next { IfOk result (λ r. IsNext context.entry.quantum (tape_in context.entry) context.entry.known.now rest.now r.0 r.1.now) }
    ensures fault { IfErr result (λ e. IsFaultNext context.entry.quantum (tape_in context.entry) context.entry.known.now rest.now e) }
{
    let line = context.known.len() as u64 + 1;
    let Some((fact, more)) = first_fact(context, rest) else {
        return Err(CheckErr::BadLine(line));
    };
    let mut search = Search::new(fact.key);
    if let Some(_) = search.next_missing(context) {
        return Err(CheckErr::Missing(line));
    }
    let derived = fact_of(alloc, context, fact.key)?;
    if is_same(&derived, &fact) {
        Ok((fact, more))
    } else {
        Err(CheckErr::Wrong(line))
    }
}

// Whether two facts have the same value and the same cells.
fn is_same(fact: &Fact, other: &Fact) -> bool
    ensures { IsTrue result ↔ ((fact.now.value ≡ other.now.value) × (fact.now.cells ≡ other.now.cells)) }
{
    fact.value == other.value && are_same(&fact.cells, &other.cells)
}

fn are_same(cells: &Option<[Fix; 16]>, others: &Option<[Fix; 16]>) -> bool
    ensures { IsTrue result ↔ (cells.now ≡ others.now) }
{
    match cells {
        Some(cells) => match others {
            Some(others) => are_equal(cells, others),
            None => false,
        },
        None => others.is_none(),
    }
}

fn are_equal(cells: &[Fix; 16], others: &[Fix; 16]) -> bool
    ensures { IsTrue result ↔ (cells.now ≡ others.now) }
{
    cells == others
}
