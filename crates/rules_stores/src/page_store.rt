ghost use Rattle.std.specs.Prelude.{◌≡◌, ℕ, ◌+◌, ◌-◌, ◌*◌, ◌<◌, length, min, replicate, slice_index, if◌then◌else◌, IfOk};
ghost use Rattle.rules_stores.specs.StoredPages.{stored_byte, has_page, byte_after};

use byte_store::{ByteStore, PAGE};
use std::alloc::Global;
use std::marker::Model;
use ttm_base::NoMemory;

/// The bytes of pages, page after page.
#[derive(Drop)]
pub struct PageStore {
    bytes: ByteStore,
    pages: u32,
}

impl Model for PageStore {
    ghost use Rattle.std.specs.Prelude.{◌≡◌, ℕ, ◌*◌, List, length};

    ghost Value = { List ℕ };

    ghost view = { λ s. s.bytes };

    ghost invariant = { λ s. length s.bytes ≡ 4096 * s.pages };
}

/// Returns the position of the byte at `off` of `page`.
fn position_of(page: u32, off: u32) -> u64
    ensures { result ≡ 4096 * page + off }
{
    page as u64 * PAGE + off as u64
}

impl PageStore {
    /// Makes `pages` pages of zeros.
    #[tactic(auto, using(crate::proofs::StoredLaws::zeros_of))]
    pub fn new(alloc: Global, pages: u32) -> Result<PageStore, NoMemory>
        ensures { IfOk result (λ stored. stored ≡ replicate (4096 * pages) 0) }
    {
        let bytes = ByteStore::new(alloc, pages)?;
        Ok(PageStore { bytes, pages })
    }

    /// Counts those of `len` bytes from `off` on that stand on `page`: 0 if there is no such page.
    fn count_on_page(&self, page: u32, off: u32, len: u64) -> u64
        ensures { result ≡ (if has_page self.now page then min (4096 - off) len else 0) }
    {
        if page < self.pages {
            PAGE.saturating_sub(off as u64).min(len)
        } else {
            0
        }
    }

    /// Returns the byte at `off` of `page`, or 0 where there is none.
    pub fn byte(&self, page: u32, off: u32) -> u8
        ensures { result ≡ stored_byte self.now page off }
    {
        if self.count_on_page(page, off, 1) > 0 {
            self.bytes.get(position_of(page, off))
        } else {
            0
        }
    }

    /// Writes `from` to `page` from `off` on, as far as the page goes.
    pub fn write(&mut self, page: u32, off: u32, from: &[u8])
        ensures len { length self.new ≡ length self.old }
        ensures bytes { (q o : ℕ) → stored_byte self.new q o ≡ byte_after self.old page off (length from.now) (slice_index from.now) q o }
    {
        let count = self.count_on_page(page, off, from.len() as u64);
        if count > 0 {
            let at = position_of(page, off);
            self.bytes.copy_page_part(at, &from[..count as usize]);
        }
    }

    /// Writes `byte` to `len` bytes of `page` from `off` on, as far as the page goes.
    pub fn fill(&mut self, page: u32, off: u32, len: u32, byte: u8)
        ensures len { length self.new ≡ length self.old }
        ensures bytes { (q o : ℕ) → stored_byte self.new q o ≡ byte_after self.old page off len (λ i. byte) q o }
    {
        let count = self.count_on_page(page, off, len as u64);
        if count > 0 {
            self.bytes.fill(position_of(page, off), count, byte);
        }
    }

    /// Reads bytes of `page` from `off` on into `into`. Zeros follow the page.
    pub fn read(&self, page: u32, off: u32, into: &mut [u8])
        ensures { (i : ℕ) → i < length into.old → slice_index into.new i ≡ (if has_page self.now page then stored_byte self.now page (off + i) else 0) }
    {
        let count = self.count_on_page(page, off, into.len() as u64);
        if count > 0 {
            let part = self.bytes.part(position_of(page, off), count);
            into[..count as usize].copy_from_slice(part);
        }
        into[count as usize..].fill(0);
    }
}
