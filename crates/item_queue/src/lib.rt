//! A queue: items join it at its end and leave it at its front, and are side by side in memory, so that they are lent as a
//! slice.
#![tactic(auto)]

ghost use Rattle.std.specs.Prelude.{◌≡◌, ◌+◌, ◌<◌, ◌≤◌, ◌∷◌, ◌++◌, [], OnOk, OnErr, Some, drop, length, slice_get, take};

use std::alloc::Global;
use std::marker::Model;
use ttm_base::NoMemory;

/// A queue of items, seen as a list. Its capacity can't be seen.
///
/// Items that have left stay stored in front of the others, until they are more than those. Then they are dropped together,
/// and the others move up: over all calls, each item that has left costs at most one drop and one move. At least half of
/// what is stored is in the queue.
#[derive(Drop)]
pub struct ItemQueue<T> {
    stored: Vec<T>,
    /// The number of stored items that have left the queue.
    left: usize,
}

impl<T> Model for ItemQueue<T> {
    ghost use Rattle.std.specs.Prelude.{◌+◌, ◌≤◌, List, drop, length};

    ghost Value = { List T };

    ghost view = { λ s. drop s.left s.stored.items };

    ghost invariant = { λ s. s.left + s.left ≤ length s.stored.items };
}

/// Drops the items that have left, if they are more than the others. Returns how many of them are still stored.
fn settle<T>(stored: &mut Vec<T>, left: usize) -> usize
where
    T: Drop,
    requires { left ≤ length stored.old.items }
    ensures same { drop result stored.new.items ≡ drop left stored.old.items }
    ensures few { result + result ≤ length stored.new.items }
{
    if left <= stored.len() - left {
        return left;
    }
    stored.drain(..left);
    0
}

impl<T> ItemQueue<T> {
    /// Returns the empty queue.
    pub fn new(alloc: Global) -> ItemQueue<T>
        ensures { result ≡ [] }
    {
        ItemQueue {
            stored: Vec::new(alloc),
            left: 0,
        }
    }

    /// Pushes `item` at the end. Where memory is refused the queue stays as it was.
    pub fn push(&mut self, item: T) -> Result<(), NoMemory>
    where
        T: Drop,
        ensures ok { OnOk result (self.new ≡ self.old ++ item ∷ []) }
        ensures err { OnErr result (self.new ≡ self.old) }
    {
        self.stored.push(item)?;
        Ok(())
    }

    /// Returns the number of items.
    pub fn len(&self) -> usize
        ensures { result ≡ length self.now }
    {
        self.stored.len() - self.left
    }

    /// Lends the items as a slice, in order.
    pub fn items(&self) -> &[T]
        ensures { result.now ≡ self.now }
    {
        &self.stored[self.left..]
    }

    /// Lends the item at `index`.
    pub fn get(&self, index: usize) -> &T
        requires { index < length self.now }
        ensures { slice_get self.now index ≡ Some result.now }
    {
        &self.items()[index]
    }

    /// Removes the first item. Takes constant time, amortized, and no memory; the item is dropped now or later.
    pub fn drop_first(&mut self)
    where
        T: Drop,
        requires { 0 < length self.old }
        ensures { self.new ≡ drop 1 self.old }
    {
        self.left = settle(&mut self.stored, self.left + 1);
    }

    /// Keeps the first `len` items, and drops the others.
    pub fn truncate(&mut self, len: usize)
    where
        T: Drop,
        ensures { self.new ≡ take len self.old }
    {
        if len < self.len() {
            self.stored.truncate(self.left + len);
            self.left = settle(&mut self.stored, self.left);
        }
    }
}
