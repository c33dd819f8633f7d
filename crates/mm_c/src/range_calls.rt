//! The calls of C on a range manager. Each takes the manager out of its handle and puts it back.
ghost use Rattle.std.specs.Prelude.{◌≡◌, ◌≢◌, ◌↔◌, ℕ, ◌+◌, ◌<◌, ◌≤◌, ◌==◌, true, false, [], ◌∷◌, Some, None, Contains, length, if◌then◌else◌};
ghost use Rattle.std.specs.List.{find};
ghost use Rattle.ttm_base.specs.Holes.{has_page};
ghost use Rattle.hole_tree.specs.HoleSet.{starts_at, without};
ghost use Rattle.hole_tree.specs.Longest.{longest};
ghost use Rattle.range_manager.specs.Held.{with_span, pages_of, is_open, HasTakenPage};
ghost use Rattle.manager_walk.specs.Walk.{IsNextHeld, IsNextHole, NoneFrom, NoneOpen};
ghost use Rattle.mm_c.specs.Calls.{span_of, mode_of, range_for};
ghost use Rattle.mm_c.specs.States.{managed, holes_of};
ghost use Rattle.mm_c.specs.UserValues.{value_at};
ghost use Rattle.mm_c.specs.declared.status.TheConstants.{DONE, NO_ROOM, NO_MEMORY, INVALID, NOT_HELD, NO_MORE};

use crate::page_span::PageSpan;
use crate::parts::Parts;
use crate::range_handle::RangeHandle;
use crate::ranges::{RangeRequest, RangeStats, Ranges};
use crate::status::{DONE, NO_MEMORY};
use std::alloc::Global;

/// Makes a manager of `pages` pages, none of which is held (drm_mm_init).
#[unsafe(no_mangle)]
pub extern "C" fn pearoar_ranges_create(alloc: Global, ranges: &mut RangeHandle, pages: u32) -> u32
    requires closed { ranges.old.live ≡ false }
    ensures live { result ≡ DONE → ranges.new.live ≡ true }
    ensures size { result ≡ DONE → ranges.new.value.size ≡ pages }
    ensures held { result ≡ DONE → ranges.new.value.held ≡ [] }
    ensures values { result ≡ DONE → ranges.new.value.values ≡ [] }
    ensures none { result ≢ DONE → ranges.new.live ≡ false }
    ensures status { Contains (DONE ∷ NO_MEMORY ∷ []) result }
{
    match Ranges::new(alloc, pages) {
        Ok(made) => {
            ranges.put(Parts::of(made));
            DONE
        }
        Err(_) => NO_MEMORY,
    }
}

/// Frees a manager, with whatever it holds (drm_mm_takedown).
#[unsafe(no_mangle)]
pub extern "C" fn pearoar_ranges_destroy(alloc: Global, ranges: &mut RangeHandle)
    requires live { ranges.old.live ≡ true }
    ensures closed { ranges.new.live ≡ false }
{
    drop(ranges.take(alloc).into_box());
}

/// Takes the pages that `request` asks for, at a multiple of its `align`, from its `first` up to its `last` (drm_mm_insert_node_in_range).
#[unsafe(no_mangle)]
pub extern "C" fn pearoar_ranges_insert(
    alloc: Global,
    ranges: &mut RangeHandle,
    request: &RangeRequest,
    span: &mut PageSpan,
) -> u32
    requires live { ranges.old.live ≡ true }
    ensures live { ranges.new.live ≡ true }
    ensures size { ranges.new.value.size ≡ ranges.old.value.size }
    ensures done { result ≡ DONE → range_for ranges.old.value request.now.mode request.now.pages request.now.align (record { start = request.now.first; end = request.now.last }) ≡ Some (span_of span.new) }
    ensures held { result ≡ DONE → ranges.new.value.held ≡ with_span (span_of span.new) ranges.old.value.held }
    ensures values { ranges.new.value.values ≡ ranges.old.value.values }
    ensures no_room { result ≡ NO_ROOM → range_for ranges.old.value request.now.mode request.now.pages request.now.align (record { start = request.now.first; end = request.now.last }) ≡ None }
    ensures invalid { (result ≡ INVALID) ↔ (mode_of request.now.mode ≡ None) }
    ensures same { result ≢ DONE → ranges.new.value ≡ ranges.old.value }
    ensures status { Contains (DONE ∷ NO_ROOM ∷ NO_MEMORY ∷ INVALID ∷ []) result }
{
    let mut manager = ranges.take(alloc).into_box();
    let status = manager.insert(*request, span);
    ranges.put(Parts::of(manager));
    status
}

/// Takes the pages from `first` up to `last` (drm_mm_reserve_node).
#[unsafe(no_mangle)]
pub extern "C" fn pearoar_ranges_reserve(
    alloc: Global,
    ranges: &mut RangeHandle,
    first: u32,
    last: u32,
) -> u32
    requires live { ranges.old.live ≡ true }
    ensures live { ranges.new.live ≡ true }
    ensures size { ranges.new.value.size ≡ ranges.old.value.size }
    ensures free { result ≡ DONE → (page : ℕ) → has_page page (record { start = first; end = last }) ≡ true → is_open (managed ranges.old.value) page ≡ true }
    ensures held { result ≡ DONE → ranges.new.value.held ≡ with_span (record { start = first; end = last }) ranges.old.value.held }
    ensures values { ranges.new.value.values ≡ ranges.old.value.values }
    ensures empty { last ≤ first → result ≡ NO_ROOM }
    ensures no_room { result ≡ NO_ROOM → first < last → HasTakenPage (managed ranges.old.value) (record { start = first; end = last }) }
    ensures same { result ≢ DONE → ranges.new.value ≡ ranges.old.value }
    ensures status { Contains (DONE ∷ NO_ROOM ∷ NO_MEMORY ∷ []) result }
{
    let mut manager = ranges.take(alloc).into_box();
    let status = manager.reserve(first, last);
    ranges.put(Parts::of(manager));
    status
}

/// Frees the span that begins at page `start` (drm_mm_remove_node). Takes no memory.
#[unsafe(no_mangle)]
pub extern "C" fn pearoar_ranges_remove(alloc: Global, ranges: &mut RangeHandle, start: u32) -> u32
    requires live { ranges.old.live ≡ true }
    ensures live { ranges.new.live ≡ true }
    ensures size { ranges.new.value.size ≡ ranges.old.value.size }
    ensures held { result ≡ DONE → ranges.new.value.held ≡ without start ranges.old.value.held }
    ensures values { result ≡ DONE → (page : ℕ) → value_at ranges.new.value.values page ≡ (if page == start then 0 else value_at ranges.old.value.values page) }
    ensures not_held { (result ≡ NOT_HELD) ↔ (find (starts_at start) ranges.old.value.held ≡ None) }
    ensures same { result ≢ DONE → ranges.new.value ≡ ranges.old.value }
    ensures status { Contains (DONE ∷ NOT_HELD ∷ []) result }
{
    let mut manager = ranges.take(alloc).into_box();
    let status = manager.remove(start);
    ranges.put(Parts::of(manager));
    status
}

/// Sets the caller's value of the span that begins at page `start`.
#[unsafe(no_mangle)]
pub extern "C" fn pearoar_ranges_set_value(
    alloc: Global,
    ranges: &mut RangeHandle,
    start: u32,
    value: u64,
) -> u32
    requires live { ranges.old.live ≡ true }
    ensures live { ranges.new.live ≡ true }
    ensures size { ranges.new.value.size ≡ ranges.old.value.size }
    ensures held { ranges.new.value.held ≡ ranges.old.value.held }
    ensures set { result ≡ DONE → (page : ℕ) → value_at ranges.new.value.values page ≡ (if page == start then value else value_at ranges.old.value.values page) }
    ensures not_held { (result ≡ NOT_HELD) ↔ (find (starts_at start) ranges.old.value.held ≡ None) }
    ensures same { result ≢ DONE → ranges.new.value ≡ ranges.old.value }
    ensures status { Contains (DONE ∷ NO_MEMORY ∷ NOT_HELD ∷ []) result }
{
    let mut manager = ranges.take(alloc).into_box();
    let status = manager.set_value(start, value);
    ranges.put(Parts::of(manager));
    status
}

/// Writes the caller's value of the span that begins at page `start` to `value`; it is 0 until it is set. Takes no memory.
#[unsafe(no_mangle)]
pub extern "C" fn pearoar_ranges_value(
    alloc: Global,
    ranges: &mut RangeHandle,
    start: u32,
    value: &mut u64,
) -> u32
    requires live { ranges.old.live ≡ true }
    ensures live { ranges.new.live ≡ true }
    ensures same { ranges.new.value ≡ ranges.old.value }
    ensures value { result ≡ DONE → value.new ≡ value_at ranges.old.value.values start }
    ensures not_held { (result ≡ NOT_HELD) ↔ (find (starts_at start) ranges.old.value.held ≡ None) }
    ensures status { Contains (DONE ∷ NOT_HELD ∷ []) result }
{
    let manager = ranges.take(alloc).into_box();
    let status = manager.value(start, value);
    ranges.put(Parts::of(manager));
    status
}

/// Counts what is held and what is free. Takes no memory, and constant time.
#[unsafe(no_mangle)]
pub extern "C" fn pearoar_ranges_stats(
    alloc: Global,
    ranges: &mut RangeHandle,
    stats: &mut RangeStats,
)
    requires live { ranges.old.live ≡ true }
    ensures live { ranges.new.live ≡ true }
    ensures same { ranges.new.value ≡ ranges.old.value }
    ensures held { stats.new.held ≡ pages_of ranges.old.value.held }
    ensures free { stats.new.free + stats.new.held ≡ ranges.old.value.size }
    ensures spans { stats.new.spans ≡ length ranges.old.value.held }
    ensures holes { stats.new.holes ≡ length (holes_of ranges.old.value) }
    ensures longest { stats.new.longest ≡ longest (holes_of ranges.old.value) }
{
    let manager = ranges.take(alloc).into_box();
    *stats = manager.stats();
    ranges.put(Parts::of(manager));
}

/// Writes how many pages are free, and how many are held. Takes no memory.
#[unsafe(no_mangle)]
pub extern "C" fn pearoar_ranges_lengths(
    alloc: Global,
    ranges: &mut RangeHandle,
    free: &mut u32,
    used: &mut u32,
)
    requires live { ranges.old.live ≡ true }
    ensures live { ranges.new.live ≡ true }
    ensures same { ranges.new.value ≡ ranges.old.value }
    ensures used { used.new ≡ pages_of ranges.old.value.held }
    ensures sum { free.new + used.new ≡ ranges.old.value.size }
{
    let manager = ranges.take(alloc).into_box();
    (*free, *used) = manager.lengths();
    ranges.put(Parts::of(manager));
}

/// Writes the first span that begins at page `from` or above it to `span`. Takes no memory, and costs a step for each page.
#[unsafe(no_mangle)]
pub extern "C" fn pearoar_ranges_next_held(
    alloc: Global,
    ranges: &mut RangeHandle,
    from: u32,
    span: &mut PageSpan,
) -> u32
    requires live { ranges.old.live ≡ true }
    ensures live { ranges.new.live ≡ true }
    ensures same { ranges.new.value ≡ ranges.old.value }
    ensures some { result ≡ DONE → IsNextHeld ranges.old.value.held from (span_of span.new) }
    ensures none { result ≡ NO_MORE → NoneFrom ranges.old.value.held from ranges.old.value.size }
    ensures status { Contains (DONE ∷ NO_MORE ∷ []) result }
{
    let manager = ranges.take(alloc).into_box();
    let status = manager.next_held(from, span);
    ranges.put(Parts::of(manager));
    status
}

/// Writes the first free pages at page `from` or above it to `span` (drm_mm_for_each_hole). Takes no memory.
#[unsafe(no_mangle)]
pub extern "C" fn pearoar_ranges_next_hole(
    alloc: Global,
    ranges: &mut RangeHandle,
    from: u32,
    span: &mut PageSpan,
) -> u32
    requires live { ranges.old.live ≡ true }
    ensures live { ranges.new.live ≡ true }
    ensures same { ranges.new.value ≡ ranges.old.value }
    ensures some { result ≡ DONE → IsNextHole ranges.old.value.held ranges.old.value.size from (span_of span.new) }
    ensures none { result ≡ NO_MORE → NoneOpen ranges.old.value.held ranges.old.value.size from ranges.old.value.size }
    ensures status { Contains (DONE ∷ NO_MORE ∷ []) result }
{
    let manager = ranges.take(alloc).into_box();
    let status = manager.next_hole(from, span);
    ranges.put(Parts::of(manager));
    status
}
