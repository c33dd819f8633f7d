ghost use Rattle.std.specs.Prelude.{◌≡◌, ◌+◌, ◌<◌, ◌≤◌, ◌∷◌, ◌++◌, [], OnOk, OnErr, IfOk, length, insert, slice_get, slice_set, take};

use crate::NoMemory;
use std::alloc::Global;
use std::marker::Model;

/// A list of items in memory, seen as a list. Its capacity can't be seen. A step that makes several lists longer does so one
/// by one, and where memory is refused truncates each to the length that it had before, which can't fail.
#[derive(Drop)]
pub struct ItemList<T> {
    items: Vec<T>,
}

impl<T> Model for ItemList<T> {
    ghost use Rattle.std.specs.Prelude.{List};

    ghost Value = { List T };

    ghost view = { λ s. s.items.items };
}

impl<T> ItemList<T> {
    /// Returns the empty list.
    pub fn new(alloc: Global) -> ItemList<T>
        ensures { result ≡ [] }
    {
        ItemList {
            items: Vec::new(alloc),
        }
    }

    /// Pushes `item` at the end. Where memory is refused the list stays as it was.
    pub fn push(&mut self, item: T) -> Result<(), NoMemory>
    where
        T: Drop,
        ensures ok { OnOk result (self.new ≡ self.old ++ item ∷ []) }
        ensures err { OnErr result (self.new ≡ self.old) }
    {
        self.items.push(item)?;
        Ok(())
    }

    /// Inserts `item` at `index`, before the item that was there. Where memory is refused the list stays as it was.
    pub fn insert(&mut self, index: usize, item: T) -> Result<(), NoMemory>
    where
        T: Drop,
        requires { index ≤ length self.old }
        ensures ok { OnOk result (self.new ≡ insert self.old index item) }
        ensures err { OnErr result (self.new ≡ self.old) }
    {
        self.items.insert(index, item)?;
        Ok(())
    }

    /// Returns the number of items.
    pub fn len(&self) -> usize
        ensures { result ≡ length self.now }
    {
        self.items.len()
    }

    /// Lends the items as a slice, in order.
    pub fn items(&self) -> &[T]
        ensures { result.now ≡ self.now }
    {
        self.items.as_slice()
    }
}

impl<T> ItemList<T> {
    ghost use Rattle.std.specs.Borrow.{sem};
    ghost use Rattle.ttm_base.specs.Lending.{lends_item};
    ghost use Rattle.std.specs.Prelude.{◌≡◌, ◌<◌, [], length, remove, slice_get, slice_set, Some};

    /// Lends the item at `index`.
    #[tactic(auto, using(std::proofs::lemmas::Option::slice_get_read))]
    pub fn get(&self, index: usize) -> &T
        requires { index < length self.now }
        ensures { slice_get self.now index ≡ Some result.now }
    {
        &self.items[index]
    }

    /// Lends the item at `index` for writing.
    pub fn get_mut(&mut self, index: usize) -> &mut T
        requires { index < length self.old }
        ensures* writes_back { sem 𝓛 (lends_item T.row self.entry index result) }
        ensures value { slice_get self.old index ≡ Some result.now }
    {
        &mut self.items[index]
    }

    /// Replaces the item at `index` by `item`.
    pub fn set(&mut self, index: usize, item: T)
    where
        T: Drop,
        requires { index < length self.old }
        ensures { self.new ≡ slice_set self.old index item }
    {
        self.items[index] = item;
    }

    /// Removes the item at `index` and returns it. The items after it move up.
    pub fn remove(&mut self, index: usize) -> T
        requires { index < length self.old }
        ensures left { self.new ≡ remove self.old index }
        ensures value { slice_get self.old index ≡ Some result }
    {
        self.items.remove(index)
    }

    /// Keeps the first `len` items, and drops the others.
    pub fn truncate(&mut self, len: usize)
    where
        T: Drop,
        ensures { self.new ≡ take len self.old }
    {
        self.items.truncate(len);
    }

    /// Drops all items, and keeps their memory.
    pub fn clear(&mut self)
    where
        T: Drop,
        ensures { self.new ≡ [] }
    {
        self.items.clear();
    }
}

impl<T: Copy> ItemList<T> {
    /// Copies the items of a slice into a new list.
    pub fn from_slice(alloc: Global, items: &[T]) -> Result<ItemList<T>, NoMemory>
        ensures { IfOk result (λ list. list ≡ items.now) }
    {
        let items = Vec::from_slice(alloc, items)?;
        Ok(ItemList { items })
    }

    /// Copies the list.
    pub fn copy(&self) -> Result<ItemList<T>, NoMemory>
        ensures { IfOk result (λ list. list ≡ self.now) }
    {
        ItemList::from_slice(*self.items.allocator(), self.items())
    }

    /// Appends copies of `items`: all of them, or none where memory is refused.
    pub fn extend(&mut self, items: &[T]) -> Result<(), NoMemory>
        ensures ok { OnOk result (self.new ≡ self.old ++ items.now) }
        ensures err { OnErr result (self.new ≡ self.old) }
    {
        self.items.extend_from_slice(items)?;
        Ok(())
    }

    /// Returns a copy of the item at `index`.
    pub fn at(&self, index: usize) -> T
        requires { index < length self.now }
        ensures { slice_get self.now index ≡ Some result }
    {
        self.items[index]
    }
}
