ghost use Rattle.std.specs.Prelude.{◌≡◌, IfOk, OnOk, find, map, option_copied};
ghost use Rattle.std.specs.List.{list_any};
ghost use Rattle.cpu_maps.specs.Areas.{areas_of, entry_in, is_of, with_area, with_fault, without_page, without_buffer, unmapped};

use crate::area::Area;
use journal_model::{MarkKind, Script};
use state_words::declared_pages;
use std::alloc::Global;
use std::marker::Model;
use ttm_base::{BufId, ItemList, NoMemory, PagePlace};

/// The CPU mappings of a script, seen as a list: one for each buffer that a thread maps anywhere, in the order of the first
/// lines that do so. A buffer that is mapped again gets the same mapping, which its unmap has emptied. A change of a mapping
/// that isn't there changes nothing. Only `new` takes memory, and for entries it only reserves it (`Entries`).
pub struct CpuMaps {
    areas: ItemList<Area>,
}

/// Names each part, so that no crate above proves how they are dropped.
impl Drop for CpuMaps {
    fn drop(self) {
        let Self { areas: _ } = self;
    }
}

impl Model for CpuMaps {
    ghost use Rattle.std.specs.Prelude.{List};
    ghost use Rattle.cpu_maps.specs.declared.area.Area.{Area as OneArea};

    ghost Value = { List OneArea };

    ghost view = { λ maps. maps.areas };
}

/// Returns whether the thread has an area of the buffer.
fn has_area(areas: &[Area], thread: u32, b: BufId) -> bool
    ensures { result ≡ list_any (is_of thread b) areas.now }
{
    areas.iter().any(|area| area.is_of(thread, b))
}

/// Returns the thread's area of the buffer, if there is one.
fn area_in(areas: &[Area], thread: u32, b: BufId) -> Option<&Area>
    ensures { option_copied result ≡ find (is_of thread b) areas.now }
{
    areas.iter().find(|area| area.is_of(thread, b))
}

impl CpuMaps {
    /// Returns the mappings of a script, in which no page has an entry.
    pub fn new(alloc: Global, script: &Script) -> Result<CpuMaps, NoMemory>
        ensures { IfOk result (λ maps. maps ≡ areas_of script.now) }
    {
        let mut maps = CpuMaps {
            areas: ItemList::new(alloc),
        };
        for mark in script.marks.items() {
            if let MarkKind::Map { b } = mark.kind {
                maps.add(alloc, mark.thread, b, declared_pages(script, b))?;
            }
        }
        Ok(maps)
    }

    /// Adds an area without an entry, unless the thread already has one of the buffer.
    fn add(&mut self, alloc: Global, thread: u32, b: BufId, pages: u32) -> Result<(), NoMemory>
        ensures { OnOk result (self.new ≡ with_area thread b pages self.old) }
    {
        if has_area(self.areas.items(), thread, b) {
            return Ok(());
        }
        let area = Area::new(alloc, thread, b, pages)?;
        self.areas.push(area)
    }

    /// Lends the mappings, in order.
    pub fn areas(&self) -> &[Area]
        ensures { result.now ≡ self.now }
    {
        self.areas.items()
    }

    /// Returns the place that a thread's mapping of a buffer has for a page, or None where it has none.
    pub fn entry(&self, thread: u32, b: BufId, page: u32) -> Option<PagePlace>
        ensures { result ≡ entry_in self.now thread b page }
    {
        match area_in(self.areas.items(), thread, b) {
            Some(area) => area.entry(page),
            None => None,
        }
    }

    /// Sets the place of a page in a thread's mapping of a buffer, where an access has found it (ttm_bo_vm_fault).
    pub fn fault_in(&mut self, thread: u32, b: BufId, page: u32, place: PagePlace)
        ensures { self.new ≡ map (with_fault thread b page place) self.old }
    {
        for i in 0..self.areas.len() {
            self.areas.get_mut(i).fault_in(thread, b, page, place);
        }
    }

    /// Removes the entries of a page from all mappings of its buffer, since the page leaves its place.
    pub fn drop_page(&mut self, b: BufId, page: u32)
        ensures { self.new ≡ map (without_page b page) self.old }
    {
        for i in 0..self.areas.len() {
            self.areas.get_mut(i).drop_page(b, page);
        }
    }

    /// Removes all entries from all mappings of a buffer, since it is moved or destroyed (ttm_bo_unmap_virtual).
    pub fn drop_buffer(&mut self, b: BufId)
        ensures { self.new ≡ map (without_buffer b) self.old }
    {
        for i in 0..self.areas.len() {
            self.areas.get_mut(i).drop_buffer(b);
        }
    }

    /// Removes all entries from a thread's mapping of a buffer (munmap).
    pub fn unmap(&mut self, thread: u32, b: BufId)
        ensures { self.new ≡ map (unmapped thread b) self.old }
    {
        for i in 0..self.areas.len() {
            self.areas.get_mut(i).unmap(thread, b);
        }
    }
}
