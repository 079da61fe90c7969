ghost use Rattle.std.specs.Prelude.{◌<◌, ◌^◌, ◌∷◌, ⊤, decimal, FitsSigned};
ghost use Rattle.std.specs.Int.{w64};
ghost use Rattle.wa_base.specs.GraphNames.{param_word};
ghost use Rattle.explain.specs.Texts.{end_text, value_words};
ghost use Rattle.explain.specs.LineReading.{words_left, IsTaken};

use crate::reading::names::{end_of, name_of};
use crate::reading::numbers::{index_of, number_of, value_of};
use crate::reading::words::Words;
use wa_base::{End, ParamName};

/// Takes a number of 64 bits off the words.
pub fn take_number(words: &mut Words<'_>) -> Option<u64>
    ensures { IsTaken (λ n. n < 2 ^ 64) (λ n more. decimal n ∷ more) (words_left words.old) result (words_left words.new) }
{
    number_of(words.next()?)
}

/// Takes a number of 32 bits.
pub fn take_index(words: &mut Words<'_>) -> Option<u32>
    ensures { IsTaken (λ n. n < 2 ^ 32) (λ n more. decimal n ∷ more) (words_left words.old) result (words_left words.new) }
{
    index_of(words.next()?)
}

/// Takes an end.
pub fn take_end(words: &mut Words<'_>) -> Option<End>
    ensures { IsTaken (λ e. e.node.0 < 2 ^ 32) (λ e more. end_text e ∷ more) (words_left words.old) result (words_left words.new) }
{
    end_of(words.next()?)
}

/// Takes the name of a parameter.
pub fn take_name(words: &mut Words<'_>) -> Option<ParamName>
    ensures { IsTaken (λ _. ⊤) (λ name more. param_word name ∷ more) (words_left words.old) result (words_left words.new) }
{
    name_of(words.next()?)
}

/// Takes the equals sign and the value behind it.
pub fn take_value(words: &mut Words<'_>) -> Option<i64>
    ensures { IsTaken (FitsSigned w64) value_words (words_left words.old) result (words_left words.new) }
{
    if words.next()? != "=" {
        return None;
    }
    value_of(words.next()?)
}
