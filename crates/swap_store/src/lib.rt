//! Swap slots: pages in memory that stand for those of a swap device (a ttm_tt that is swapped out to shmem). Only `new`
//! takes memory.
#![tactic(auto)]

ghost use Rattle.std.specs.Prelude.{◌≡◌, ◌*◌, ◌<◌, false, true, not, Some, IfOk, IfSome, IfNone, length, position, replicate, slice_get, slice_set};
ghost use Rattle.byte_store.specs.Parts.{filled, overwritten, part};

use byte_store::{ByteStore, PAGE};
use free_map::FreeMap;
use std::alloc::Global;
use std::marker::Model;
use ttm_base::NoMemory;

/// A store that knows of each slot whether it is held, and has the bytes of all slots. A slot keeps its bytes when it is
/// given back.
pub struct SwapStore {
    held: FreeMap,
    bytes: ByteStore,
}

/// Names each part, so that no crate above proves how they are dropped.
impl Drop for SwapStore {
    fn drop(self) {
        let Self { held: _, bytes: _ } = self;
    }
}

impl Model for SwapStore {
    ghost use Rattle.std.specs.Prelude.{◌≡◌, ◌*◌, ◌^◌, ◌<◌, length};
    ghost use Rattle.swap_store.specs.Slots.{SwapSlots};

    ghost Value = { SwapSlots };

    ghost view = { λ s. record { held = s.held; bytes = s.bytes } };

    ghost invariant = { λ s. (length s.bytes ≡ 4096 * length s.held) × (length s.held < 2 ^ 32) };
}

impl SwapStore {
    /// Returns a store of `slots` free slots, whose bytes are zeros.
    pub fn new(alloc: Global, slots: u32) -> Result<SwapStore, NoMemory>
        ensures zeros { IfOk result (λ store. store ≡ record { held = replicate slots false; bytes = filled (PAGE * slots) 0 }) }
        ensures len { IfOk result (λ store. length store.bytes ≡ PAGE * length store.held) }
    {
        let bytes = ByteStore::new(alloc, slots)?;
        let held = FreeMap::new(alloc, slots)?;
        Ok(SwapStore { held, bytes })
    }

    /// Copies the bytes of a page into the lowest free slot, which is then held, and returns the slot. None means that no
    /// slot is free, and changes nothing.
    pub fn put(&mut self, page: &[u8]) -> Option<u32>
        requires { length page.now ≡ PAGE }
        ensures lowest { result ≡ position not self.old.held }
        ensures held { IfSome result (λ slot. self.new.held ≡ slice_set self.old.held slot true) }
        ensures stored { IfSome result (λ slot. self.new.bytes ≡ overwritten self.old.bytes (PAGE * slot) page.now) }
        ensures none { IfNone result (self.new ≡ self.old) }
        ensures len { length self.new.bytes ≡ PAGE * length self.new.held }
    {
        let slot = self.held.take()?;
        self.bytes.copy_page_part(PAGE * slot as u64, page);
        Some(slot)
    }

    /// Copies the bytes of a held slot to `into`, and frees the slot.
    pub fn take(&mut self, slot: u32, into: &mut [u8])
        requires held { slice_get self.old.held slot ≡ Some true }
        requires page { length into.old ≡ PAGE }
        ensures bytes { into.new ≡ part self.old.bytes (PAGE * slot) PAGE }
        ensures freed { self.new ≡ record { held = slice_set self.old.held slot false; bytes = self.old.bytes } }
    {
        into.copy_from_slice(self.page(slot));
        self.drop_slot(slot);
    }

    /// Frees a held slot without reading its bytes.
    pub fn drop_slot(&mut self, slot: u32)
        requires { slice_get self.old.held slot ≡ Some true }
        ensures { self.new ≡ record { held = slice_set self.old.held slot false; bytes = self.old.bytes } }
    {
        self.held.give(slot);
    }

    /// Lends the page of a slot, be it held or free.
    pub fn page(&self, slot: u32) -> &[u8]
        requires { slot < length self.now.held }
        ensures value { result.now ≡ part self.now.bytes (PAGE * slot) PAGE }
        ensures len { length result.now ≡ PAGE }
    {
        self.bytes.part(PAGE * slot as u64, PAGE)
    }

    /// Returns the lowest free slot, into which `put` would copy a page, or None where no slot is free.
    pub fn first(&self) -> Option<u32>
        ensures { result ≡ position not self.now.held }
    {
        self.held.first()
    }
}
