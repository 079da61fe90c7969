ghost use Rattle.std.specs.Prelude.{◌≡◌, ◌↔◌, ◌∷◌, ◌++◌, [], length, IsTrue, IfOk, OnOk, OnErr};
ghost use Rattle.std.specs.Borrow.{Lends, sem, Array, i32 as signed_32};
ghost use Rattle.wa_base.specs.Lists.{overwritten};
ghost use Rattle.wa_base.specs.contracts.items.Items.{the_row as the_samples};

use crate::memory::NoMemory;
use crate::numbers::Fix;
use std::alloc::Global;
use std::marker::Model;

/// A list that owns its items. Contracts see it as the list itself.
#[derive(Debug, Drop)]
pub struct Items<T> {
    items: Vec<T>,
}

/// A list of sample or parameter values.
pub type Samples = Items<Fix>;

/// A list of bytes.
pub type Bytes = Items<u8>;

impl<T> Model for Items<T> {
    ghost use Rattle.std.specs.Prelude.{List};

    ghost Value = { List T };

    ghost view = { λ s. s.items.items };
}

impl<T> Items<T> {
    /// The empty list, which takes no memory until it grows.
    pub fn new(alloc: Global) -> Items<T>
        ensures { result ≡ [] }
    {
        Items {
            items: Vec::new(alloc),
        }
    }

    /// The number of items.
    pub fn len(&self) -> usize
        ensures { result ≡ length self.now }
    {
        self.items.len()
    }

    /// Whether there is no item.
    pub fn is_empty(&self) -> bool
        ensures { IsTrue result ↔ (self.now ≡ []) }
    {
        self.items.is_empty()
    }

    /// The items in order.
    pub fn as_slice(&self) -> &[T]
        ensures { result.now ≡ self.now }
    {
        self.items.as_slice()
    }
}

impl<T: Copy> Items<T> {
    /// An equal list with memory of its own.
    pub fn copy(&self) -> Result<Items<T>, NoMemory>
        ensures { IfOk result (λ copy. copy ≡ self.now) }
    {
        let items = Vec::from_slice(*self.items.allocator(), self.items.as_slice())?;
        Ok(Items { items })
    }
}

impl Items<Fix> {
    /// Lends the values for writing. Their number stays.
    pub fn as_mut_slice(&mut self) -> &mut [Fix]
        ensures* writes_back { sem 𝓛 (Lends (the_samples signed_32) (Array signed_32 0) self.entry result (overwritten self.old)) }
        ensures value { result.now ≡ self.old }
    {
        self.items.as_mut_slice()
    }
}

impl<T> From<Vec<T>> for Items<T> {
    ghost from_gives = { λ v items. items ≡ v.items };

    fn from(items: Vec<T>) -> Items<T> {
        Items { items }
    }
}

impl<T> From<Items<T>> for Vec<T> {
    ghost from_gives = { λ list v. v.items ≡ list };

    fn from(list: Items<T>) -> Vec<T> {
        list.items
    }
}

impl<T: Drop> Items<T> {
    /// Appends an item. After `NoMemory` the list is as before, and the item is dropped.
    pub fn push(&mut self, item: T) -> Result<(), NoMemory>
        ensures ok { OnOk result (self.new ≡ self.old ++ item ∷ []) }
        ensures err { OnErr result (self.new ≡ self.old) }
    {
        self.items.push(item)?;
        Ok(())
    }
}
