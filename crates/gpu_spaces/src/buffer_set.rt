//! A set of buffers, by their numbers.
ghost use Rattle.std.specs.Prelude.{◌≡◌, ℕ, [], true, false, ◌==◌, OnOk, if◌then◌else◌};
ghost use Rattle.gpu_spaces.specs.buffer_set.Members.{is_member};

use std::alloc::Global;
use std::collections::BTreeSet;
use std::marker::Model;
use ttm_base::{BufId, NoMemory};

/// A set of buffers, each of them once.
pub struct BufferSet {
    set: BTreeSet<u32>,
}

/// Names each part, so that no crate above proves how they are dropped.
impl Drop for BufferSet {
    fn drop(self) {
        let Self { set: _ } = self;
    }
}

impl Model for BufferSet {
    ghost use Rattle.std.specs.Prelude.{ℕ, List};

    ghost Value = { List ℕ };

    ghost view = { λ s. s.set.keys };
}

impl BufferSet {
    /// Returns the empty set.
    pub fn new(alloc: Global) -> BufferSet
        ensures { result ≡ [] }
    {
        BufferSet {
            set: BTreeSet::new(alloc),
        }
    }

    /// Returns whether the buffer `b` is in the set.
    pub fn has(&self, b: BufId) -> bool
        ensures { result ≡ is_member self.now b.0 }
    {
        self.set.contains(&b.0)
    }

    /// Adds the buffer `b` to the set.
    pub fn add(&mut self, b: BufId) -> Result<(), NoMemory>
        ensures { OnOk result ((n : ℕ) → is_member self.new n ≡ (if b.0 == n then true else is_member self.old n)) }
    {
        self.set.insert(b.0)?;
        Ok(())
    }

    /// Removes the buffer `b` from the set.
    pub fn remove(&mut self, b: BufId)
        ensures { (n : ℕ) → is_member self.new n ≡ (if b.0 == n then false else is_member self.old n) }
    {
        self.set.remove(&b.0);
    }
}
