ghost use Rattle.std.specs.Prelude.{◌≡◌, ℕ, ◌+◌, ◌<◌, ◌≤◌, true, [], Some, None, Ok, Err, IfOk, OnOk, OnErr, IsSome, length};
ghost use Rattle.std.specs.List.{find};
ghost use Rattle.ttm_base.specs.Holes.{holes, has_page, is_free_beside};
ghost use Rattle.ttm_base.specs.RangeChoice.{range_choice};
ghost use Rattle.hole_tree.specs.HoleSet.{starts_at, without};
ghost use Rattle.hole_tree.specs.Longest.{longest};
ghost use Rattle.range_manager.specs.Held.{held_spans, with_span, pages_of, is_open, HasTakenPage};
ghost use Rattle.range_manager.specs.Kept.{IsManaged};

use crate::InsertFault;
use crate::choice::{Choice, chosen};
use crate::gaps::{around, give, make_room, take, whole};
use hole_tree::Holes;
use sparse_table::SparseTable;
use std::alloc::Global;
use std::marker::Model;
use ttm_base::{Mode, NoMemory, Span};

/// A manager of the pages of a memory type by ranges, seen as the number of pages and the spans that are held. The other
/// pages are free.
pub struct RangeManager {
    holes: Holes,
    /// For each page the end of the span that begins there, or 0 where none begins.
    ends: SparseTable,
    /// The number of pages that are held.
    used: u32,
    /// The number of spans that are held.
    count: u32,
}

/// Names each part, so that no crate above proves how they are dropped.
impl Drop for RangeManager {
    fn drop(self) {
        let Self {
            holes: _,
            ends: _,
            used: _,
            count: _,
        } = self;
    }
}

impl Model for RangeManager {
    ghost use Rattle.std.specs.Prelude.{length};
    ghost use Rattle.range_manager.specs.Held.{Managed};

    ghost Value = { Managed };

    ghost use Rattle.range_manager.specs.Held.{held_spans};
    ghost use Rattle.range_manager.specs.Kept.{IsManaged};

    ghost view = { λ m. record { size = length m.ends; held = held_spans 0 m.ends } };

    ghost invariant = { λ m. IsManaged m.holes m.ends m.used m.count };
}

/// Holds pages of a hole. All memory is taken before anything changes.
#[inline(always)]
fn hold(
    holes: &mut Holes,
    ends: &mut SparseTable,
    used: &mut u32,
    count: &mut u32,
    choice: Choice,
) -> Result<(), NoMemory>
    requires managed { IsManaged holes.old ends.old used.old count.old }
    requires hole { find (starts_at choice.hole.start) holes.old.holes ≡ Some choice.hole }
    requires some { choice.pages.start < choice.pages.end }
    requires from { choice.hole.start ≤ choice.pages.start }
    requires to { choice.pages.end ≤ choice.hole.end }
    ensures managed { IsManaged holes.new ends.new used.new count.new }
    ensures size { length ends.new ≡ length ends.old }
    ensures held { OnOk result (held_spans 0 ends.new ≡ with_span choice.pages (held_spans 0 ends.old)) }
    ensures same { OnErr result (ends.new ≡ ends.old) }
{
    make_room(holes, *count)?;
    let Choice { hole, pages } = choice;
    ends.set(pages.start as usize, pages.end)?;
    take(holes, hole, pages);
    *used += pages.end - pages.start;
    *count += 1;
    Ok(())
}

impl RangeManager {
    /// Returns a manager of `pages` pages, all of them free.
    pub fn new(alloc: Global, pages: u32) -> Result<RangeManager, NoMemory>
        ensures size { IfOk result (λ manager. manager.size ≡ pages) }
        ensures held { IfOk result (λ manager. manager.held ≡ []) }
    {
        let ends = SparseTable::new(alloc, pages)?;
        let holes = whole(alloc, pages)?;
        Ok(RangeManager {
            holes,
            ends,
            used: 0,
            count: 0,
        })
    }

    /// Returns the span that `insert` would take, and takes nothing. It takes no memory. None means that no hole fits.
    pub fn choice(&self, pages: u32, align: u32, first: u32, last: u32, mode: Mode) -> Option<Span>
        requires { 1 ≤ align }
        ensures { result ≡ range_choice mode (holes (is_free_beside self.now.held) self.now.size) pages align (record { start = first; end = last }) }
    {
        let range = Span {
            start: first,
            end: last,
        };
        let choice = chosen(&self.holes, pages, align, range, mode)?;
        Some(choice.pages)
    }

    /// Takes `pages` pages that begin at a multiple of `align`, from page `first` up to page `last`, in the hole of the
    /// range choice (drm_mm_insert_node). After an error nothing is changed.
    pub fn insert(
        &mut self,
        pages: u32,
        align: u32,
        first: u32,
        last: u32,
        mode: Mode,
    ) -> Result<Span, InsertFault>
        requires { 1 ≤ align }
        ensures size { self.new.size ≡ self.old.size }
        ensures ok { IfOk result (λ span. range_choice mode (holes (is_free_beside self.old.held) self.old.size) pages align (record { start = first; end = last }) ≡ Some span) }
        ensures held { IfOk result (λ span. self.new.held ≡ with_span span self.old.held) }
        ensures none { result ≡ Err InsertFault.NoHole → range_choice mode (holes (is_free_beside self.old.held) self.old.size) pages align (record { start = first; end = last }) ≡ None }
        ensures same { OnErr result (self.new ≡ self.old) }
    {
        let range = Span {
            start: first,
            end: last,
        };
        let Some(choice) = chosen(&self.holes, pages, align, range, mode) else {
            return Err(InsertFault::NoHole);
        };
        let Ok(()) = hold(
            &mut self.holes,
            &mut self.ends,
            &mut self.used,
            &mut self.count,
            choice,
        ) else {
            return Err(InsertFault::NoMemory);
        };
        Ok(choice.pages)
    }

    /// Takes the pages of a span (drm_mm_reserve_node); a span without pages changes nothing. After an error nothing is
    /// changed.
    pub fn reserve(&mut self, span: Span) -> Result<(), InsertFault>
        ensures size { self.new.size ≡ self.old.size }
        ensures free { OnOk result ((page : ℕ) → has_page page span ≡ true → is_open self.old page ≡ true) }
        ensures held { OnOk result (self.new.held ≡ with_span span self.old.held) }
        ensures empty { span.end ≤ span.start → result ≡ Ok tt }
        ensures none { result ≡ Err InsertFault.NoHole → HasTakenPage self.old span }
        ensures same { OnErr result (self.new ≡ self.old) }
    {
        if span.end <= span.start {
            return Ok(());
        }
        let Some(hole) = around(&self.holes, span.start) else {
            return Err(InsertFault::NoHole);
        };
        if hole.end < span.end {
            return Err(InsertFault::NoHole);
        }
        let Ok(()) = hold(
            &mut self.holes,
            &mut self.ends,
            &mut self.used,
            &mut self.count,
            Choice { hole, pages: span },
        ) else {
            return Err(InsertFault::NoMemory);
        };
        Ok(())
    }

    /// Releases the span that begins at the page `start`. It takes no memory.
    pub fn remove(&mut self, start: u32)
        requires { IsSome (find (starts_at start) self.old.held) }
        ensures size { self.new.size ≡ self.old.size }
        ensures held { self.new.held ≡ without start self.old.held }
    {
        let at = start as usize;
        let span = Span {
            start,
            end: self.ends.get(at),
        };
        self.ends.replace(at, 0);
        give(&mut self.holes, span);
        self.used -= span.end - span.start;
        self.count -= 1;
    }

    /// Returns the held span that begins at the page `start`, or None where none begins there.
    pub fn held_from(&self, start: u32) -> Option<Span>
        ensures { result ≡ find (starts_at start) self.now.held }
    {
        let end = self.ends.get(start as usize);
        if start < end {
            Some(Span { start, end })
        } else {
            None
        }
    }

    /// Returns how many pages are free, and how many are used.
    pub fn lengths(&self) -> (u32, u32)
        ensures used { result.1 ≡ pages_of self.now.held }
        ensures sum { result.0 + result.1 ≡ self.now.size }
    {
        (self.ends.len() as u32 - self.used, self.used)
    }

    /// Returns the number of spans that are held.
    pub fn span_count(&self) -> u32
        ensures { result ≡ length self.now.held }
    {
        self.count
    }

    /// Returns the number of holes.
    pub fn hole_count(&self) -> usize
        ensures { result ≡ length (holes (is_free_beside self.now.held) self.now.size) }
    {
        self.holes.hole_count()
    }

    /// Returns the length of the longest hole in pages, or 0 where there is none.
    pub fn longest_hole(&self) -> u32
        ensures { result ≡ longest (holes (is_free_beside self.now.held) self.now.size) }
    {
        self.holes.longest_hole()
    }
}
