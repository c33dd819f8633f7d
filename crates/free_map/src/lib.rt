//! The numbers below a length that are free, and the lowest of them: the frames of a page pool (ttm_pool), or swap slots.
//! Only `new` takes memory.
#![tactic(auto)]

ghost use Rattle.std.specs.Prelude.{◌≡◌, ℕ, ◌<◌, Bool, true, false, not, List, length, Some, IfOk, IfSome, IfNone, count_by, find, position, replicate, slice_get, slice_set};
ghost use Rattle.ttm_base.specs.ListWords.{count_from};

use bit_set::BitSet;
use std::alloc::Global;
use std::marker::Model;
use ttm_base::NoMemory;

/// A map that knows of each number below a length whether it is held, seen as a list.
#[derive(Drop)]
pub struct FreeMap {
    /// The numbers that are free.
    numbers: BitSet,
    /// The number of them that are free.
    free: u32,
}

impl Model for FreeMap {
    ghost use Rattle.std.specs.Prelude.{◌≡◌, ◌^◌, ◌<◌, Bool, List, count_by, not, length, map};

    ghost Value = { List Bool };

    ghost view = { λ m. map not m.numbers };

    ghost invariant = { λ m. (m.free ≡ count_by not (map not m.numbers)) × (length m.numbers < 2 ^ 32) };
}

impl FreeMap {
    /// Returns a map of `len` numbers, each of them free.
    pub fn new(alloc: Global, len: u32) -> Result<FreeMap, NoMemory>
        ensures { IfOk result (λ map. map ≡ replicate len false) }
    {
        let mut numbers = BitSet::new(alloc, len as usize)?;
        for number in 0..len {
            numbers.set(number as usize);
        }
        Ok(FreeMap { numbers, free: len })
    }

    /// Takes the lowest free number, which is then held. None means that no number is free, and changes nothing.
    pub fn take(&mut self) -> Option<u32>
        ensures lowest { result ≡ position not self.old }
        ensures taken { IfSome result (λ number. self.new ≡ slice_set self.old number true) }
        ensures none { IfNone result (self.new ≡ self.old) }
    {
        let number = self.numbers.first_from(0)?;
        self.numbers.clear(number);
        self.free -= 1;
        Some(number as u32)
    }

    /// Gives back `number`, which is held.
    pub fn give(&mut self, number: u32)
        requires { slice_get self.old number ≡ Some true }
        ensures { self.new ≡ slice_set self.old number false }
    {
        self.numbers.set(number as usize);
        self.free += 1;
    }

    /// Returns how many numbers are free.
    pub fn free(&self) -> u32
        ensures { result ≡ count_by not self.now }
    {
        self.free
    }

    /// Finds the lowest free number, which `take` would return.
    pub fn first(&self) -> Option<u32>
        ensures { result ≡ position not self.now }
    {
        let number = self.numbers.first_from(0)?;
        Some(number as u32)
    }
}

/// Tells that the lowest number that isn't held is what a search among all numbers finds, by any test that tells of each
/// number whether it is held. The call does nothing: its contract is the law.
pub fn lowest_is_found()
    ensures { (held : List Bool) (is_held : ℕ → Bool) → ((n : ℕ) → n < length held → slice_get held n ≡ Some (is_held n))
        → position not held ≡ find (λ n. not (is_held n)) (count_from 1 (length held) 0) }
{}
