ghost use Rattle.std.specs.Prelude.{◌≡◌, ◌≢◌, IfSome, IfNone};
ghost use Rattle.explain.specs.declared.facts.Fact.{Fact};
ghost use Rattle.explain.specs.Texts as spec;
ghost use Rattle.explain.specs.Texts.{IsSized};
ghost use Rattle.explain.specs.LineReading.{IsReading};

mod cells;
mod keys;
mod names;
mod numbers;
mod taking;
mod words;

use crate::facts::Fact;
use cells::take_cells;
use keys::take_key;
use std::str;
use taking::take_value;
use words::Words;

/// The fact that a line writes, without the byte 10 at its end; `None` where it is the line of no fact.
pub fn read_fact(line: &[u8]) -> Option<Fact>
    ensures read { IfSome result (λ fact. IsSized fact × (spec.fact_text fact ≡ line.now)) }
    ensures none { IfNone result ((fact : Fact) → IsSized fact → spec.fact_text fact ≢ line.now) }
{
    match str::from_utf8(line) {
        Ok(text) => fact_of(text),
        Err(_) => None,
    }
}

// The same of a text.
fn fact_of(text: &str) -> Option<Fact>
    ensures { IsReading IsSized spec.fact_text text.now result }
{
    let mut words = Words { rest: Some(text) };
    let key = take_key(&mut words)?;
    let value = take_value(&mut words)?;
    let cells = take_cells(&mut words)?;
    Some(Fact { key, value, cells })
}
