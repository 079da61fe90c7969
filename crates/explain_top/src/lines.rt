ghost use Rattle.std.specs.Prelude.{◌≡◌, ◌++◌, ◌∷◌, IfSome, IfNone};
ghost use Rattle.law_base.specs.Members.{IsIn};
ghost use Rattle.explain.specs.declared.facts.Fact.{Fact as a_fact};
ghost use Rattle.derivations.specs.Contexts.{tape_in, IsReady};
ghost use Rattle.explain_top.specs.Faults.{IsFirst, BeginsWith};

use crate::facts::is_fact;
use derivations::Context;
use explain::{Fact, read_fact};
use memchr::memchr;

// The fact of the tape whose line a text begins with, and the text behind that line.
pub(crate) fn first_fact<'a>(context: Context<'_>, text: &'a [u8]) -> Option<(Fact, &'a [u8])>
    requires ready { IsReady context }
    ensures some { IfSome result (λ r. IsFirst context.entry.quantum (tape_in context.entry) text.now r.0 r.1.now) }
    ensures none { IfNone result ((x : a_fact) → BeginsWith context.entry.quantum (tape_in context.entry) text.now x → ⊥) }
{
    match first_line(text) {
        Some((line, more)) => match read_fact(line) {
            Some(fact) => {
                if is_fact(context, &fact) {
                    Some((fact, more))
                } else {
                    None
                }
            }
            None => None,
        },
        None => None,
    }
}

// The line that a text begins with, without the byte 10 at its end, and the text behind it.
fn first_line(text: &[u8]) -> Option<(&[u8], &[u8])>
    ensures some { IfSome result (λ r. (r.0.now ++ 10 ∷ r.1.now ≡ text.now) × (IsIn 10 r.0.now → ⊥)) }
    ensures none { IfNone result (IsIn 10 text.now → ⊥) }
{
    match memchr(b'\n', text) {
        Some(end) => Some((&text[..end], &text[end + 1..])),
        None => None,
    }
}
