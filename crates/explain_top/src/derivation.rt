ghost use Rattle.std.specs.Prelude.{◌≡◌, ◌+◌, ◌*◌, ◌<◌, ◌≤◌, ◌^◌, ◌++◌, [], ◌∷◌, List, length, IfOk, IfErr, OnOk, IsErrOf};
ghost use Rattle.meaning.specs.Worlds.{IsRegular};
ghost use Rattle.explain.specs.declared.facts.Fact.{Fact as a_fact};
ghost use Rattle.explain.specs.Facts.{IsKeyOf};
ghost use Rattle.explain.specs.Texts.{facts_text};
ghost use Rattle.derivations.specs.Tapes.{worlds};
ghost use Rattle.explain_top.specs.Derived.{IsDerivation, AreAllTooMany};
ghost use Rattle.explain_top.specs.Faults.{line_of};
ghost use Rattle.explain_top.specs.Stacks.{AreNeeded};

use derivations::{Context, Known, Search, Tape};
use equations::fact_of;
use explain::{Fact, Key, fact_text};
use std::alloc::{AllocFailed, Global};
use wa_base::{Bytes, NoMemory};

const MAX_FACTS: usize = 1 << 20;

const MAX_BYTES: usize = 1 << 26;

/// Why there is no derivation.
#[derive(Clone, Copy, Debug, PartialEq, Eq)]
pub enum DeriveErr {
    /// It needs more than 1,048,576 facts, or its text more than 67,108,864 bytes.
    TooLong,
    NoMemory,
}

impl From<NoMemory> for DeriveErr {
    ghost use Rattle.std.specs.Prelude.{◌≡◌};
    ghost use Rattle.explain_top.specs.declared.derivation.DeriveErr.TheVariants.{NoMemory as no_memory};

    ghost from_gives = { λ _ error. error ≡ no_memory };

    fn from(_: NoMemory) -> DeriveErr {
        DeriveErr::NoMemory
    }
}

impl<T: Drop> From<AllocFailed<T>> for DeriveErr {
    ghost use Rattle.std.specs.Prelude.{◌≡◌};
    ghost use Rattle.explain_top.specs.declared.derivation.DeriveErr.TheVariants.{NoMemory as no_memory};

    ghost from_gives = { λ _ error. error ≡ no_memory };

    fn from(_: AllocFailed<T>) -> DeriveErr {
        DeriveErr::NoMemory
    }
}

/// The text of a derivation, and of how many facts it is.
#[derive(Drop)]
pub struct Derivation {
    pub facts: usize,
    pub text: Bytes,
}

/// Derives the fact about a key: its text is checked, each key stands in one line, behind what it
/// needs, and the last line is about this key. A quantum has so many frames.
pub fn derive(alloc: Global, tape: &Tape, quantum: u32, key: Key) -> Result<Derivation, DeriveErr>
    requires some { 0 < quantum }
    requires most { quantum ≤ 1024 }
    requires regular { IsRegular quantum (worlds tape.now) }
    requires short { quantum * length (worlds tape.now) ≤ 2 ^ 62 }
    requires key { IsKeyOf quantum (worlds tape.now) key }
    ensures derivation { IfOk result (λ d. (facts : List a_fact) × IsDerivation quantum (worlds tape.now) key facts × (facts_text facts ≡ d.text) × (length facts ≡ d.facts)) }
    ensures few { IfOk result (λ d. (d.facts ≤ 2 ^ 20) × (length d.text ≤ 2 ^ 26)) }
    ensures long { IsErrOf result DeriveErr.TooLong → AreAllTooMany quantum (worlds tape.now) key }
{
    let known = facts_for(alloc, tape, quantum, key)?;
    let facts = known.len();
    match text_of(alloc, known.as_slice()) {
        Ok(text) => Ok(Derivation { facts, text }),
        Err(error) => Err(error),
    }
}

// The facts of a derivation. Each walk goes along the needs of one key, and waits where a need is not
// known yet, for which the next walk begins.
fn facts_for(alloc: Global, tape: &Tape, quantum: u32, key: Key) -> Result<Known, DeriveErr>
    requires some { 0 < quantum }
    requires most { quantum ≤ 1024 }
    requires regular { IsRegular quantum (worlds tape.now) }
    requires short { quantum * length (worlds tape.now) ≤ 2 ^ 62 }
    requires key { IsKeyOf quantum (worlds tape.now) key }
    ensures derivation { IfOk result (λ known. IsDerivation quantum (worlds tape.now) key known) }
    ensures needed { IfOk result (λ known. AreNeeded quantum (worlds tape.now) key known) }
    ensures few { IfOk result (λ known. length known ≤ 2 ^ 20) }
    ensures long { IsErrOf result DeriveErr.TooLong → AreAllTooMany quantum (worlds tape.now) key }
{
    let mut known = Known::new(alloc);
    let mut walks = Vec::new(alloc);
    walks.push(Search::new(key))?;
    while let Some(mut walk) = walks.pop() {
        let context = Context {
            quantum,
            tape,
            known: &known,
        };
        match walk.next_missing(context) {
            Some(need) => {
                walks.push(walk)?;
                walks.push(Search::new(need))?;
                if known.len() + walks.len() > MAX_FACTS {
                    return Err(DeriveErr::TooLong);
                }
            }
            None => {
                let fact = fact_of(alloc, context, walk.key)?;
                known.push(fact)?;
            }
        }
    }
    Ok(known)
}

// The lines of facts, where they are not too long.
fn text_of(alloc: Global, facts: &[Fact]) -> Result<Bytes, DeriveErr>
    ensures text { IfOk result (λ text. text ≡ facts_text facts.now) }
    ensures few { IfOk result (λ text. length text ≤ 2 ^ 26) }
    ensures long { IsErrOf result DeriveErr.TooLong → 2 ^ 26 < length (facts_text facts.now) }
{
    let mut text = Vec::new(alloc);
    for fact in facts {
        push_line(alloc, &mut text, fact)?;
        if text.len() > MAX_BYTES {
            return Err(DeriveErr::TooLong);
        }
    }
    Ok(Bytes::from(text))
}

// Appends the line of a fact.
fn push_line(alloc: Global, text: &mut Vec<u8>, fact: &Fact) -> Result<(), NoMemory>
    ensures { OnOk result (text.new.items ≡ text.old.items ++ line_of fact.now) }
{
    let line = fact_text(alloc, fact)?;
    text.extend_from_slice(line.as_slice())?;
    text.push(b'\n')?;
    Ok(())
}
