ghost use Rattle.std.specs.Prelude.{◌∷◌, codes};
ghost use Rattle.explain.specs.Texts.{IsSizedKey, key_words};
ghost use Rattle.explain.specs.LineReading.{words_left, IsTaken};

use crate::facts::Key;
use crate::reading::taking::{take_end, take_index, take_name, take_number};
use crate::reading::words::Words;
use wa_base::NodeId;

/// Takes a key off the words.
pub fn take_key(words: &mut Words<'_>) -> Option<Key>
    ensures { IsTaken IsSizedKey key_words (words_left words.old) result (words_left words.new) }
{
    match words.next()? {
        "count" => take_count(words),
        "in" => take_inlet(words),
        "par" => take_par(words),
        "hist" => take_hist(words),
        "out" => take_out(words),
        _ => None,
    }
}

fn take_count(words: &mut Words<'_>) -> Option<Key>
    ensures { IsTaken IsSizedKey key_words (codes "count" ∷ words_left words.old) result (words_left words.new) }
{
    let quantum = take_number(words)?;
    let end = take_end(words)?;
    let output = take_index(words)?;
    Some(Key::Count {
        quantum,
        end,
        output,
    })
}

fn take_inlet(words: &mut Words<'_>) -> Option<Key>
    ensures { IsTaken IsSizedKey key_words (codes "in" ∷ words_left words.old) result (words_left words.new) }
{
    let frame = take_number(words)?;
    let end = take_end(words)?;
    let input = take_index(words)?;
    let channel = take_index(words)?;
    Some(Key::Inlet {
        frame,
        end,
        input,
        channel,
    })
}

fn take_par(words: &mut Words<'_>) -> Option<Key>
    ensures { IsTaken IsSizedKey key_words (codes "par" ∷ words_left words.old) result (words_left words.new) }
{
    let frame = take_number(words)?;
    let number = take_index(words)?;
    let name = take_name(words)?;
    Some(Key::Par {
        frame,
        node: NodeId(number),
        name,
    })
}

fn take_hist(words: &mut Words<'_>) -> Option<Key>
    ensures { IsTaken IsSizedKey key_words (codes "hist" ∷ words_left words.old) result (words_left words.new) }
{
    let frame = take_number(words)?;
    let number = take_index(words)?;
    let channel = take_index(words)?;
    Some(Key::Hist {
        frame,
        node: NodeId(number),
        channel,
    })
}

fn take_out(words: &mut Words<'_>) -> Option<Key>
    ensures { IsTaken IsSizedKey key_words (codes "out" ∷ words_left words.old) result (words_left words.new) }
{
    let frame = take_number(words)?;
    let end = take_end(words)?;
    let output = take_index(words)?;
    let channel = take_index(words)?;
    Some(Key::Out {
        frame,
        end,
        output,
        channel,
    })
}
