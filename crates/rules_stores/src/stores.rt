ghost use Rattle.std.specs.Prelude.{◌≡◌, ℕ, ◌+◌, ◌<◌, Some, length, slice_index, IfOk};
ghost use Rattle.ttm_base.specs.Pages.{with_bytes};
ghost use Rattle.journal_model.specs.rules.Stores.{zeros};
ghost use Rattle.rules_stores.specs.StorePages.{page_of};
ghost use Rattle.rules_stores.specs.Kept.{BecomesBytes, bytes_of};

use crate::page_store::PageStore;
use crate::pages::StorePage;
use journal_model::Sizes;
use std::alloc::Global;
use std::marker::Model;
use ttm_base::NoMemory;

/// The bytes of VRAM, of frames and of swap slots, page after page. Nothing but `new` takes memory.
pub struct PlainStores {
    sizes: Sizes,
    vram: PageStore,
    frames: PageStore,
    slots: PageStore,
}

/// By hand, so that no crate above proves how each part goes.
impl Drop for PlainStores {
    fn drop(self) {
        let Self {
            sizes: _,
            vram: _,
            frames: _,
            slots: _,
        } = self;
    }
}

impl Model for PlainStores {
    ghost use Rattle.rules_stores.specs.Kept.{KeptBytes, HasSizes};

    ghost Value = { KeptBytes };

    ghost view = { λ s. record { sizes = s.sizes; vram = s.vram; frames = s.frames; slots = s.slots } };

    ghost invariant = { λ s. HasSizes s.sizes s.vram s.frames s.slots };
}

impl PlainStores {
    /// Makes stores of all zeros, with the pages of VRAM, frames and slots that `sizes` tells.
    pub fn new(alloc: Global, sizes: Sizes) -> Result<PlainStores, NoMemory>
        ensures sizes { IfOk result (λ s. s.sizes ≡ sizes) }
        ensures bytes { IfOk result (λ s. bytes_of s ≡ zeros) }
    {
        Ok(PlainStores {
            sizes,
            vram: PageStore::new(alloc, sizes.vram)?,
            frames: PageStore::new(alloc, sizes.frames)?,
            slots: PageStore::new(alloc, sizes.swap)?,
        })
    }

    /// Returns the byte of `page` at `off`.
    pub fn byte(&self, page: StorePage, off: u32) -> u8
        ensures { result ≡ bytes_of self.now (page_of page) off }
    {
        match page {
            StorePage::Nowhere => 0,
            StorePage::Vram(p) => self.vram.byte(p, off),
            StorePage::Frame(f) => self.frames.byte(f, off),
            StorePage::Slot(k) => self.slots.byte(k, off),
        }
    }

    /// Reads bytes of `page` from `off` on into `into`.
    pub fn read(&self, page: StorePage, off: u32, into: &mut [u8])
        ensures { (i : ℕ) → i < length into.old → slice_index into.new i ≡ bytes_of self.now (page_of page) (off + i) }
    {
        match page {
            StorePage::Nowhere => into.fill(0),
            StorePage::Vram(p) => self.vram.read(p, off, into),
            StorePage::Frame(f) => self.frames.read(f, off, into),
            StorePage::Slot(k) => self.slots.read(k, off, into),
        }
    }

    /// Writes `from` to `page` from `off` on.
    pub fn write(&mut self, page: StorePage, off: u32, from: &[u8])
        ensures { BecomesBytes self.old self.new (with_bytes (bytes_of self.old) (page_of page) off (length from.now) (slice_index from.now)) }
    {
        match page {
            StorePage::Nowhere => {}
            StorePage::Vram(p) => self.vram.write(p, off, from),
            StorePage::Frame(f) => self.frames.write(f, off, from),
            StorePage::Slot(k) => self.slots.write(k, off, from),
        }
    }

    /// Writes `byte` to `len` bytes of `page` from `off` on.
    pub fn fill(&mut self, page: StorePage, off: u32, len: u32, byte: u8)
        ensures { BecomesBytes self.old self.new (with_bytes (bytes_of self.old) (page_of page) off len (λ i. byte)) }
    {
        match page {
            StorePage::Nowhere => {}
            StorePage::Vram(p) => self.vram.fill(p, off, len, byte),
            StorePage::Frame(f) => self.frames.fill(f, off, len, byte),
            StorePage::Slot(k) => self.slots.fill(k, off, len, byte),
        }
    }
}
