//! The mapping of one buffer by one thread.
ghost use Rattle.std.specs.Prelude.{◌≡◌, IfOk};
ghost use Rattle.cpu_maps.specs.Areas as words;
ghost use Rattle.cpu_maps.specs.Areas.{empty_area, entry_of, with_entry, emptied, with_fault, without_page, without_buffer, unmapped};

use crate::entries::Entries;
use state_words::same_buffer;
use std::alloc::Global;
use ttm_base::{BufId, NoMemory, PagePlace};

/// The mapping of a buffer by a thread, with its entries (vm_area_struct).
#[derive(Drop)]
pub struct Area {
    pub thread: u32,
    pub b: BufId,
    pub entries: Entries,
}

impl Area {
    /// Returns an area of `pages` pages, without an entry.
    pub(crate) fn new(alloc: Global, thread: u32, b: BufId, pages: u32) -> Result<Area, NoMemory>
        ensures { IfOk result (λ area. area ≡ empty_area thread b pages) }
    {
        let entries = Entries::new(alloc, pages)?;
        Ok(Area { thread, b, entries })
    }

    /// Returns whether the area is a mapping of the buffer `b` by the thread `thread`.
    pub(crate) fn is_of(&self, thread: u32, b: BufId) -> bool
        ensures { result ≡ words.is_of thread b self.now }
    {
        self.thread == thread && same_buffer(self.b, b)
    }

    /// Returns the entry of a page, or None where it has none.
    pub(crate) fn entry(&self, page: u32) -> Option<PagePlace>
        ensures { result ≡ entry_of page self.now }
    {
        self.entries.get(page)
    }

    /// Sets the entry of a page, or removes it.
    fn set(&mut self, page: u32, entry: Option<PagePlace>)
        ensures { self.new ≡ with_entry page entry self.old }
    {
        self.entries.set(page, entry);
    }

    /// Sets the entry of a page, if the area is a mapping of the buffer `b` by the thread `thread`.
    pub(crate) fn fault_in(&mut self, thread: u32, b: BufId, page: u32, place: PagePlace)
        ensures { self.new ≡ with_fault thread b page place self.old }
    {
        if self.is_of(thread, b) {
            self.set(page, Some(place));
        }
    }

    /// Removes the entry of a page, if the area is a mapping of the buffer `b`.
    pub(crate) fn drop_page(&mut self, b: BufId, page: u32)
        ensures { self.new ≡ without_page b page self.old }
    {
        if same_buffer(self.b, b) {
            self.set(page, None);
        }
    }

    /// Removes all entries, if the area is a mapping of the buffer `b`.
    pub(crate) fn drop_buffer(&mut self, b: BufId)
        ensures { self.new ≡ without_buffer b self.old }
    {
        if same_buffer(self.b, b) {
            self.entries.clear();
        }
    }

    /// Removes all entries, if the area is a mapping of the buffer `b` by the thread `thread`.
    pub(crate) fn unmap(&mut self, thread: u32, b: BufId)
        ensures { self.new ≡ unmapped thread b self.old }
    {
        if self.is_of(thread, b) {
            self.entries.clear();
        }
    }
}
