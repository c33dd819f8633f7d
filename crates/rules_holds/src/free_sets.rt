ghost use Rattle.std.specs.Prelude.{◌≡◌, ℕ, ◌<◌, ◌^◌, Bool, List, true, false, IfOk, length, slice_set};
ghost use Rattle.journal_model.specs.rules.Holds.{lowest_free};
ghost use Rattle.journal_model.specs.rules.Places as places;
ghost use Rattle.rules_holds.specs.Free.{AreFree, AreTurned, AreUnheld, put};

use crate::free::{frame_marks, slot_marks};
use bit_set::BitSet;
use journal_model::{Core, Script};
use rules_state::{frame_of, slot_of};
use std::alloc::Global;
use std::marker::Model;
use ttm_base::{Loc, NoMemory};

/// The numbers below a length that are free, of which the lowest is found at once. It is seen as a mark for each number.
#[derive(Drop)]
pub struct FreeNumbers {
    numbers: BitSet,
    len: usize,
}

impl Model for FreeNumbers {
    ghost use Rattle.std.specs.Prelude.{◌≡◌, ◌<◌, ◌^◌, Bool, List, length};

    ghost Value = { List Bool };

    ghost view = { λ f. f.numbers };

    ghost invariant = { λ f. (f.len ≡ length f.numbers) × (length f.numbers < 2 ^ 32) };
}

/// Returns the set of the numbers whose mark isn't set.
fn unmarked_numbers(alloc: Global, marks: &[bool]) -> Result<BitSet, NoMemory>
    requires { length marks.now < 2 ^ 32 }
    ensures { IfOk result (AreTurned marks.now (length marks.now)) }
{
    let mut numbers = BitSet::new(alloc, marks.len())?;
    for n in 0..marks.len() {
        if !marks[n] {
            numbers.set(n);
        }
    }
    Ok(numbers)
}

impl FreeNumbers {
    /// Makes the set of the numbers whose mark in `held` isn't set.
    fn new(alloc: Global, held: Vec<bool>) -> Result<FreeNumbers, NoMemory>
        requires { length held.items < 2 ^ 32 }
        ensures { IfOk result (AreTurned held.items (length held.items)) }
    {
        let numbers = unmarked_numbers(alloc, &held)?;
        Ok(FreeNumbers {
            numbers,
            len: held.len(),
        })
    }

    /// Returns the lowest free number, or `None` if none is free.
    pub fn lowest(&self) -> Option<u32>
        ensures { (size : ℕ) (held : List ℕ) → AreUnheld size held self.now → result ≡ lowest_free held size }
    {
        let number = self.numbers.first_from(0)?;
        Some(number as u32)
    }

    /// Makes `number` one that is held. A number past the length changes nothing.
    fn take(&mut self, number: u32)
        ensures { self.new ≡ slice_set self.old number false }
    {
        let at = number as usize;
        if at < self.len {
            self.numbers.clear(at);
        }
    }

    /// Makes `number` free. A number past the length changes nothing.
    pub fn give(&mut self, number: u32)
        ensures { self.new ≡ slice_set self.old number true }
    {
        let at = number as usize;
        if at < self.len {
            self.numbers.set(at);
        }
    }
}

/// The frames and the swap slots that are free.
#[derive(Drop)]
pub struct FreeSets {
    pub frames: FreeNumbers,
    pub slots: FreeNumbers,
}

impl FreeSets {
    /// Finds what is free in a state. It goes over each page table.
    pub fn new(alloc: Global, script: &Script, core: &Core) -> Result<FreeSets, NoMemory>
        ensures { IfOk result (AreFree script.now core.now) }
    {
        let frames = FreeNumbers::new(alloc, frame_marks(alloc, script, core)?)?;
        let slots = FreeNumbers::new(alloc, slot_marks(alloc, script, core)?)?;
        Ok(FreeSets { frames, slots })
    }

    /// Takes the frame or the swap slot that `loc` is, if it is one.
    pub fn take(&mut self, loc: Loc)
        ensures frames { self.new.frames ≡ put false self.old.frames (places.frame_of loc) }
        ensures slots { self.new.slots ≡ put false self.old.slots (places.slot_of loc) }
    {
        if let Some(frame) = frame_of(loc) {
            self.frames.take(frame);
        }
        if let Some(slot) = slot_of(loc) {
            self.slots.take(slot);
        }
    }

    /// Gives back the frame or the swap slot that `loc` is, if it is one.
    pub fn give(&mut self, loc: Loc)
        ensures frames { self.new.frames ≡ put true self.old.frames (places.frame_of loc) }
        ensures slots { self.new.slots ≡ put true self.old.slots (places.slot_of loc) }
    {
        if let Some(frame) = frame_of(loc) {
            self.frames.give(frame);
        }
        if let Some(slot) = slot_of(loc) {
            self.slots.give(slot);
        }
    }
}
