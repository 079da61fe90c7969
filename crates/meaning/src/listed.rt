ghost use Rattle.std.specs.Prelude.{◌≡◌, ◌↔◌, ◌<◌, ◌≤◌, [], ◌∷◌, ◌++◌, length, slice_get, slice_set, Some, IsTrue, IsOk, OnOk, OnErr};
ghost use Rattle.std.specs.Borrow.{Lends, sem};
ghost use Rattle.meaning.specs.contracts.listed.Listed.{the_row};

use std::alloc::Global;
use std::marker::Model;
use wa_base::NoMemory;

/// A list with room for more items. Contracts see its items, and for how many more there is room.
#[derive(Drop)]
pub struct Listed<T> {
    items: Vec<T>,
}

impl<T> Model for Listed<T> {
    ghost use Rattle.std.specs.Prelude.{◌-◌, vec_capacity, vec_len};
    ghost use Rattle.meaning.specs.Lists.{Listed as listed_items};

    ghost Value = { listed_items T };

    ghost view = { λ s. record { items = s.items.items; room = vec_capacity s.items - vec_len s.items } };
}

impl<T> Listed<T> {
    /// The empty list. It takes no memory until it grows.
    pub fn new(alloc: Global) -> Listed<T>
        ensures { result.items ≡ [] }
    {
        Listed {
            items: Vec::new(alloc),
        }
    }

    // A list of items that are there.
    pub(crate) fn of(items: Vec<T>) -> Listed<T>
        ensures { result.items ≡ items.items }
    {
        Listed { items }
    }

    // Where the list takes its memory from.
    pub(crate) fn alloc(&self) -> Global {
        *self.items.allocator()
    }

    /// The number of items.
    pub fn len(&self) -> usize
        ensures { result ≡ length self.now.items }
    {
        self.items.len()
    }

    /// Whether there is no item.
    pub fn is_empty(&self) -> bool
        ensures { IsTrue result ↔ (self.now.items ≡ []) }
    {
        self.items.is_empty()
    }

    /// The items in order.
    pub fn as_slice(&self) -> &[T]
        ensures { result.now ≡ self.now.items }
    {
        self.items.as_slice()
    }

    /// The item at a place.
    pub fn at(&self, i: usize) -> &T
        requires { i < length self.now.items }
        ensures { slice_get self.now.items i ≡ Some result.now }
    {
        &self.items[i]
    }

    /// The item at a place, for writing. All other items stay.
    pub fn at_mut(&mut self, i: usize) -> &mut T
        requires { i < length self.old.items }
        ensures* writes_back { sem 𝓛 (Lends (the_row T.row) T.row self.entry result (λ item. record self.old { items = slice_set self.old.items i item })) }
        ensures value { slice_get self.old.items i ≡ Some result.now }
    {
        &mut self.items[i]
    }
}

impl<T: Drop> Listed<T> {
    /// Makes room for one more item. The items stay.
    pub fn reserve(&mut self) -> Result<(), NoMemory>
        ensures items { self.new.items ≡ self.old.items }
        ensures room { OnOk result (0 < self.new.room) }
    {
        self.items.reserve(1)?;
        Ok(())
    }

    /// Appends an item. After `NoMemory` the items are as before, and the item is dropped.
    pub fn push(&mut self, item: T) -> Result<(), NoMemory>
        ensures ok { OnOk result (self.new.items ≡ self.old.items ++ item ∷ []) }
        ensures reserved { 0 < self.old.room → IsOk result }
        ensures err { OnErr result (self.new.items ≡ self.old.items) }
    {
        self.items.push(item)?;
        Ok(())
    }
}
