ghost use Rattle.std.specs.Prelude.{◌≡◌, ◌<◌, ◌≤◌, ◌-◌, [], length, take, drop, slice_index_or, IfOk};
ghost use Rattle.std.specs.List.{flat_map};
ghost use Rattle.cycle_order.specs.Parts.{parts_of, AreBounds};

use std::alloc::Global;
use std::marker::Model;
use wa_base::NoMemory;

/// Lists that stand in one list, part after part. Contracts see it as the list of the parts.
#[derive(Drop)]
pub struct Parts<T> {
    items: Vec<T>,
    // where each part begins, and where the last one ends
    bounds: Vec<usize>,
}

impl<T> Model for Parts<T> {
    ghost use Rattle.std.specs.Prelude.{List, length};
    ghost use Rattle.cycle_order.specs.Parts.{parts_of, AreBounds};

    ghost Value = { List (List T) };

    ghost view = { λ p. parts_of p.bounds.items p.items.items };

    ghost invariant = { λ p. AreBounds p.bounds.items (length p.items.items) };
}

impl<T: Drop> Parts<T> {
    /// No parts.
    pub fn new(alloc: Global) -> Result<Parts<T>, NoMemory>
        ensures { IfOk result (λ parts. parts ≡ []) }
    {
        Ok(Parts {
            items: Vec::new(alloc),
            bounds: vec![in alloc; 0]?,
        })
    }

    // The parts between bounds.
    pub(crate) fn between(items: Vec<T>, bounds: Vec<usize>) -> Parts<T>
        requires { AreBounds bounds.items (length items.items) }
        ensures { result ≡ parts_of bounds.items items.items }
    {
        Parts { items, bounds }
    }

    // The items of all parts, those of one part behind those of the part before it.
    pub(crate) fn items(&self) -> &[T]
        ensures { result.now ≡ flat_map (λ part. part) self.now }
    {
        self.items.as_slice()
    }

    // The number of parts.
    pub(crate) fn len(&self) -> usize
        ensures { result ≡ length self.now }
    {
        self.bounds.len() - 1
    }

    /// The items of a part.
    pub fn part(&self, number: usize) -> &[T]
        requires { number < length self.now }
        ensures { result.now ≡ slice_index_or self.now number [] }
    {
        between(
            self.items.as_slice(),
            self.bounds[number],
            self.bounds[number + 1],
        )
    }
}

// The items from a place to another.
fn between<T>(items: &[T], start: usize, end: usize) -> &[T]
    requires order { start ≤ end }
    requires within { end ≤ length items.now }
    ensures { result.now ≡ take (end - start) (drop start items.now) }
{
    &items[start..end]
}
