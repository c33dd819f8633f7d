//! Values that the caller sets.
ghost use Rattle.std.specs.Prelude.{◌≡◌, ℕ, ◌==◌, [], OnOk, OnErr, if◌then◌else◌};
ghost use Rattle.mm_c.specs.UserValues.{value_at};

use std::alloc::Global;
use std::collections::BTreeMap;
use std::marker::Model;
use ttm_base::NoMemory;

/// A 64-bit value for each page, 0 until it is set. Memory is taken only for those pages whose value was set.
#[derive(Drop)]
pub struct Values {
    set: BTreeMap<u32, u64>,
}

impl Model for Values {
    ghost use Rattle.std.specs.Prelude.{ℕ, List};

    ghost Value = { List (ℕ × ℕ) };

    ghost view = { λ v. v.set.entries };
}

impl Values {
    /// Makes the values with none set.
    pub fn new(alloc: Global) -> Values
        ensures { result ≡ [] }
    {
        Values {
            set: BTreeMap::new(alloc),
        }
    }

    pub fn get(&self, page: u32) -> u64
        ensures { result ≡ value_at self.now page }
    {
        self.set.get(&page).copied().unwrap_or(0)
    }

    /// Sets the value of page `page`. After a refusal nothing is changed.
    pub fn set(&mut self, page: u32, value: u64) -> Result<(), NoMemory>
        ensures set { OnOk result ((other : ℕ) → value_at self.new other ≡ (if other == page then value else value_at self.old other)) }
        ensures same { OnErr result (self.new ≡ self.old) }
    {
        let Ok(_) = self.set.insert(page, value) else {
            return Err(NoMemory);
        };
        Ok(())
    }

    /// Sets the value of page `page` to 0. Takes no memory.
    #[inline]
    pub fn clear(&mut self, page: u32)
        ensures { (other : ℕ) → value_at self.new other ≡ (if other == page then 0 else value_at self.old other) }
    {
        if !self.set.is_empty() {
            self.unset(page);
        }
    }

    /// Removes the value of page `page`. It stays out of line, so that a call where no value is set pays one comparison.
    #[inline(never)]
    fn unset(&mut self, page: u32)
        ensures { (other : ℕ) → value_at self.new other ≡ (if other == page then 0 else value_at self.old other) }
    {
        let _ = self.set.remove(&page);
    }
}
