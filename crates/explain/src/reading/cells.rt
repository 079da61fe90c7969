ghost use Rattle.std.specs.Prelude.{IfSome, map};
ghost use Rattle.std.specs.Fmt.{signed_decimal};
ghost use Rattle.explain.specs.Texts.{AreCells, cell_words};
ghost use Rattle.explain.specs.LineReading.{words_left, IsReading};

use crate::reading::numbers::cell_of;
use crate::reading::words::Words;
use wa_base::Fix;

/// The cells that the words are, with which a line ends; it may end without any.
pub fn take_cells(words: &mut Words<'_>) -> Option<Option<[Fix; 16]>>
    ensures { IsReading (λ cells. IfSome cells AreCells) cell_words (words_left words.old) result }
{
    if words.rest.is_none() {
        return Some(None);
    }
    let cells = take_sixteen(words)?;
    Some(Some(cells))
}

fn take_sixteen(words: &mut Words<'_>) -> Option<[Fix; 16]>
    ensures { IsReading AreCells (map signed_decimal) (words_left words.old) result }
{
    let mut cells = [0; 16];
    for cell in cells.iter_mut() {
        let word = words.next()?;
        *cell = cell_of(word)?;
    }
    match words.next() {
        None => Some(cells),
        Some(_) => None,
    }
}
