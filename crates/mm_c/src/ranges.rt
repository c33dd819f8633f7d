//! A range manager with the calls that C needs.
ghost use Rattle.std.specs.Prelude.{◌≡◌, ◌≢◌, ◌↔◌, ℕ, ◌+◌, ◌<◌, ◌≤◌, ◌==◌, true, [], ◌∷◌, Some, None, Contains, IfOk, length, if◌then◌else◌};
ghost use Rattle.std.specs.List.{find};
ghost use Rattle.ttm_base.specs.Holes.{has_page};
ghost use Rattle.hole_tree.specs.HoleSet.{starts_at, without};
ghost use Rattle.hole_tree.specs.Longest.{longest};
ghost use Rattle.range_manager.specs.Held.{with_span, pages_of, is_open, HasTakenPage};
ghost use Rattle.manager_walk.specs.Walk.{IsNextHeld, IsNextHole, NoneFrom, NoneOpen};
ghost use Rattle.mm_c.specs.Calls.{span_of, mode_of, range_for};
ghost use Rattle.mm_c.specs.States.{managed, holes_of};
ghost use Rattle.mm_c.specs.UserValues.{value_at};
ghost use Rattle.mm_c.specs.declared.status.TheConstants.{DONE, NO_ROOM, NO_MEMORY, INVALID, NOT_HELD, NO_MORE};

use crate::page_span::PageSpan;
use crate::status::{DONE, INVALID, NO_MEMORY, NO_MORE, NO_ROOM, NOT_HELD};
use crate::values::Values;
use manager_walk::{next_held, next_hole};
use range_manager::{InsertFault, RangeManager};
use std::alloc::Global;
use std::marker::Model;
use ttm_base::{Mode, NoMemory, Span};

/// A range manager, its size, and the caller's values of the spans by where they begin.
#[derive(Drop)]
pub struct Ranges {
    manager: RangeManager,
    size: u32,
    values: Values,
}

impl Model for Ranges {
    ghost use Rattle.std.specs.Prelude.{◌≡◌};
    ghost use Rattle.mm_c.specs.States.{State};

    ghost Value = { State };

    ghost view = { λ r. record { size = r.manager.size; held = r.manager.held; values = r.values } };

    ghost invariant = { λ r. r.manager.size ≡ r.size };
}

/// The request of an insert.
#[repr(C)]
#[derive(Clone, Copy)]
pub struct RangeRequest {
    pub pages: u32,
    pub align: u32,
    pub first: u32,
    pub last: u32,
    pub mode: u32,
}

/// The counts of what is held and what is free, in pages, spans and holes.
#[repr(C)]
#[derive(Clone, Copy)]
pub struct RangeStats {
    pub free: u32,
    pub held: u32,
    pub spans: u32,
    /// The number of pages of the longest hole.
    pub longest: u32,
    pub holes: usize,
}

/// Returns which hole is taken: the smallest that fits, the lowest, or the highest. None means that the mode is unknown.
fn mode_of(mode: u32) -> Option<Mode>
    ensures { result ≡ mode_of mode }
{
    match mode {
        0 => Some(Mode::Best),
        1 => Some(Mode::Low),
        2 => Some(Mode::High),
        _ => None,
    }
}

fn status_of(fault: InsertFault) -> u32
    ensures no_room { (result ≡ NO_ROOM) ↔ (fault ≡ InsertFault.NoHole) }
    ensures status { Contains (NO_ROOM ∷ NO_MEMORY ∷ []) result }
{
    match fault {
        InsertFault::NoHole => NO_ROOM,
        InsertFault::NoMemory => NO_MEMORY,
    }
}

/// Writes the span that was found to `span`, and returns the status.
pub fn tell(found: Option<Span>, span: &mut PageSpan) -> u32
    ensures some { result ≡ DONE → found ≡ Some (span_of span.new) }
    ensures none { (result ≡ NO_MORE) ↔ (found ≡ None) }
    ensures status { Contains (DONE ∷ NO_MORE ∷ []) result }
{
    match found {
        Some(found) => {
            *span = PageSpan::of(found);
            DONE
        }
        None => NO_MORE,
    }
}

impl Ranges {
    pub fn new(alloc: Global, pages: u32) -> Result<Box<Ranges>, NoMemory>
        ensures size { IfOk result (λ ranges. ranges.value.size ≡ pages) }
        ensures held { IfOk result (λ ranges. ranges.value.held ≡ []) }
        ensures values { IfOk result (λ ranges. ranges.value.values ≡ []) }
    {
        let manager = RangeManager::new(alloc, pages)?;
        let ranges = Ranges {
            manager,
            size: pages,
            values: Values::new(alloc),
        };
        Box::new(alloc, ranges).map_err(|_| NoMemory)
    }

    pub fn insert(&mut self, request: RangeRequest, span: &mut PageSpan) -> u32
        ensures size { self.new.size ≡ self.old.size }
        ensures done { result ≡ DONE → range_for self.old request.mode request.pages request.align (record { start = request.first; end = request.last }) ≡ Some (span_of span.new) }
        ensures held { result ≡ DONE → self.new.held ≡ with_span (span_of span.new) self.old.held }
        ensures values { self.new.values ≡ self.old.values }
        ensures no_room { result ≡ NO_ROOM → range_for self.old request.mode request.pages request.align (record { start = request.first; end = request.last }) ≡ None }
        ensures invalid { (result ≡ INVALID) ↔ (mode_of request.mode ≡ None) }
        ensures same { result ≢ DONE → self.new ≡ self.old }
        ensures status { Contains (DONE ∷ NO_ROOM ∷ NO_MEMORY ∷ INVALID ∷ []) result }
    {
        let Some(mode) = mode_of(request.mode) else {
            return INVALID;
        };
        let align = request.align.max(1);
        let (first, last) = (request.first, request.last);
        match self.manager.insert(request.pages, align, first, last, mode) {
            Ok(taken) => {
                *span = PageSpan::of(taken);
                DONE
            }
            Err(fault) => status_of(fault),
        }
    }

    pub fn reserve(&mut self, first: u32, last: u32) -> u32
        ensures size { self.new.size ≡ self.old.size }
        ensures free { result ≡ DONE → (page : ℕ) → has_page page (record { start = first; end = last }) ≡ true → is_open (managed self.old) page ≡ true }
        ensures held { result ≡ DONE → self.new.held ≡ with_span (record { start = first; end = last }) self.old.held }
        ensures values { self.new.values ≡ self.old.values }
        ensures empty { last ≤ first → result ≡ NO_ROOM }
        ensures no_room { result ≡ NO_ROOM → first < last → HasTakenPage (managed self.old) (record { start = first; end = last }) }
        ensures same { result ≢ DONE → self.new ≡ self.old }
        ensures status { Contains (DONE ∷ NO_ROOM ∷ NO_MEMORY ∷ []) result }
    {
        if last <= first {
            return NO_ROOM;
        }
        let span = Span {
            start: first,
            end: last,
        };
        match self.manager.reserve(span) {
            Ok(()) => DONE,
            Err(fault) => status_of(fault),
        }
    }

    pub fn remove(&mut self, start: u32) -> u32
        ensures size { self.new.size ≡ self.old.size }
        ensures held { result ≡ DONE → self.new.held ≡ without start self.old.held }
        ensures values { result ≡ DONE → (page : ℕ) → value_at self.new.values page ≡ (if page == start then 0 else value_at self.old.values page) }
        ensures not_held { (result ≡ NOT_HELD) ↔ (find (starts_at start) self.old.held ≡ None) }
        ensures same { result ≢ DONE → self.new ≡ self.old }
        ensures status { Contains (DONE ∷ NOT_HELD ∷ []) result }
    {
        match self.manager.held_from(start) {
            Some(_) => {
                self.manager.remove(start);
                self.values.clear(start);
                DONE
            }
            None => NOT_HELD,
        }
    }

    /// Sets the caller's value of the span that begins at page `start`.
    pub fn set_value(&mut self, start: u32, value: u64) -> u32
        ensures size { self.new.size ≡ self.old.size }
        ensures held { self.new.held ≡ self.old.held }
        ensures set { result ≡ DONE → (page : ℕ) → value_at self.new.values page ≡ (if page == start then value else value_at self.old.values page) }
        ensures not_held { (result ≡ NOT_HELD) ↔ (find (starts_at start) self.old.held ≡ None) }
        ensures same { result ≢ DONE → self.new ≡ self.old }
        ensures status { Contains (DONE ∷ NO_MEMORY ∷ NOT_HELD ∷ []) result }
    {
        if self.manager.held_from(start).is_none() {
            return NOT_HELD;
        }
        match self.values.set(start, value) {
            Ok(()) => DONE,
            Err(_) => NO_MEMORY,
        }
    }

    /// Writes the caller's value of the span that begins at page `start` to `value`.
    pub fn value(&self, start: u32, value: &mut u64) -> u32
        ensures value { result ≡ DONE → value.new ≡ value_at self.now.values start }
        ensures not_held { (result ≡ NOT_HELD) ↔ (find (starts_at start) self.now.held ≡ None) }
        ensures status { Contains (DONE ∷ NOT_HELD ∷ []) result }
    {
        if self.manager.held_from(start).is_none() {
            return NOT_HELD;
        }
        *value = self.values.get(start);
        DONE
    }

    /// Counts what is held and what is free.
    pub fn stats(&self) -> RangeStats
        ensures held { result.held ≡ pages_of self.now.held }
        ensures free { result.free + result.held ≡ self.now.size }
        ensures spans { result.spans ≡ length self.now.held }
        ensures holes { result.holes ≡ length (holes_of self.now) }
        ensures longest { result.longest ≡ longest (holes_of self.now) }
    {
        let (free, held) = self.manager.lengths();
        RangeStats {
            free,
            held,
            spans: self.manager.span_count(),
            longest: self.manager.longest_hole(),
            holes: self.manager.hole_count(),
        }
    }

    /// Returns how many pages are free, and how many are held.
    pub fn lengths(&self) -> (u32, u32)
        ensures used { result.1 ≡ pages_of self.now.held }
        ensures sum { result.0 + result.1 ≡ self.now.size }
    {
        self.manager.lengths()
    }

    pub fn next_held(&self, from: u32, span: &mut PageSpan) -> u32
        ensures some { result ≡ DONE → IsNextHeld self.now.held from (span_of span.new) }
        ensures none { result ≡ NO_MORE → NoneFrom self.now.held from self.now.size }
        ensures status { Contains (DONE ∷ NO_MORE ∷ []) result }
    {
        tell(next_held(&self.manager, self.size, from), span)
    }

    pub fn next_hole(&self, from: u32, span: &mut PageSpan) -> u32
        ensures some { result ≡ DONE → IsNextHole self.now.held self.now.size from (span_of span.new) }
        ensures none { result ≡ NO_MORE → NoneOpen self.now.held self.now.size from self.now.size }
        ensures status { Contains (DONE ∷ NO_MORE ∷ []) result }
    {
        tell(next_hole(&self.manager, self.size, from), span)
    }
}
