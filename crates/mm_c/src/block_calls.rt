//! The calls of C on a buddy manager. Each takes the manager out of its handle and puts it back.
ghost use Rattle.std.specs.Prelude.{◌≡◌, ◌≢◌, ◌↔◌, ℕ, ◌+◌, ◌<◌, ◌≤◌, ◌==◌, true, false, [], ◌∷◌, Some, None, Contains, IfSome, length, count_by, slice_index, if◌then◌else◌};
ghost use Rattle.std.specs.List.{find};
ghost use Rattle.ttm_base.specs.Reach.{length_of};
ghost use Rattle.hole_tree.specs.HoleSet.{starts_at};
ghost use Rattle.buddy_manager.specs.Held.{with_block, with_blocks, without, is_held, pages_of};
ghost use Rattle.manager_walk.specs.Walk.{IsNextHeld, NoneFrom};
ghost use Rattle.mm_c.specs.Calls.{span_of, first_spans, is_block_request, blocks_for};
ghost use Rattle.mm_c.specs.States.{free_blocks_of, has_order};
ghost use Rattle.mm_c.specs.UserValues.{value_at};
ghost use Rattle.mm_c.specs.declared.status.TheConstants.{DONE, NO_ROOM, NO_MEMORY, INVALID, NOT_HELD, TOO_MANY, NO_MORE};

use crate::block_handle::BlockHandle;
use crate::blocks::{BlockRequest, BlockStats, Blocks};
use crate::page_span::PageSpan;
use crate::parts::Parts;
use crate::status::{DONE, NO_MEMORY};
use std::alloc::Global;
use ttm_base::Span;

/// Makes a manager of `pages` pages, none of which is held (drm_buddy_init). There must be fewer than 2^31.
#[unsafe(no_mangle)]
pub extern "C" fn pearoar_blocks_create(alloc: Global, blocks: &mut BlockHandle, pages: u32) -> u32
    requires closed { blocks.old.live ≡ false }
    ensures live { result ≡ DONE → blocks.new.live ≡ true }
    ensures size { result ≡ DONE → blocks.new.value.size ≡ pages }
    ensures held { result ≡ DONE → blocks.new.value.held ≡ [] }
    ensures values { result ≡ DONE → blocks.new.value.values ≡ [] }
    ensures none { result ≢ DONE → blocks.new.live ≡ false }
    ensures status { Contains (DONE ∷ NO_MEMORY ∷ []) result }
{
    match Blocks::new(alloc, pages) {
        Ok(made) => {
            blocks.put(Parts::of(made));
            DONE
        }
        Err(_) => NO_MEMORY,
    }
}

/// Frees a manager, with whatever it holds (drm_buddy_fini).
#[unsafe(no_mangle)]
pub extern "C" fn pearoar_blocks_destroy(alloc: Global, blocks: &mut BlockHandle)
    requires live { blocks.old.live ≡ true }
    ensures closed { blocks.new.live ≡ false }
{
    drop(blocks.take(alloc).into_box());
}

/// Takes blocks for the pages that `request` asks for, from its `first` up to its `last`, and writes them to `out` and their number to `count`
/// (drm_buddy_alloc_blocks).
#[unsafe(no_mangle)]
pub extern "C" fn pearoar_blocks_alloc(
    alloc: Global,
    blocks: &mut BlockHandle,
    request: &BlockRequest,
    out: &mut [PageSpan],
    count: &mut usize,
) -> u32
    requires live { blocks.old.live ≡ true }
    ensures live { blocks.new.live ≡ true }
    ensures size { blocks.new.value.size ≡ blocks.old.value.size }
    ensures fits { result ≡ DONE → count.new ≤ length out.old }
    ensures done { result ≡ DONE → blocks_for blocks.old.value request.now ≡ Some (first_spans count.new out.new) }
    ensures held { result ≡ DONE → blocks.new.value.held ≡ with_blocks (first_spans count.new out.new) blocks.old.value.held }
    ensures values { blocks.new.value.values ≡ blocks.old.value.values }
    ensures too_many { result ≡ TOO_MANY → length out.old < count.new }
    ensures wanted { result ≡ TOO_MANY → IfSome (blocks_for blocks.old.value request.now) (λ spans. length spans ≡ count.new) }
    ensures no_room { result ≡ NO_ROOM → blocks_for blocks.old.value request.now ≡ None }
    ensures invalid { (result ≡ INVALID) ↔ (is_block_request request.now ≡ false) }
    ensures same { result ≢ DONE → blocks.new.value ≡ blocks.old.value }
    ensures status { Contains (DONE ∷ NO_ROOM ∷ NO_MEMORY ∷ INVALID ∷ TOO_MANY ∷ []) result }
{
    let mut manager = blocks.take(alloc).into_box();
    let status = manager.alloc(*request, out, count);
    blocks.put(Parts::of(manager));
    status
}

/// Gives a block back, as it was given out or as a trim left it (drm_buddy_free_block). Takes no memory.
#[unsafe(no_mangle)]
pub extern "C" fn pearoar_blocks_release(
    alloc: Global,
    blocks: &mut BlockHandle,
    start: u32,
    end: u32,
) -> u32
    requires live { blocks.old.live ≡ true }
    ensures live { blocks.new.live ≡ true }
    ensures size { blocks.new.value.size ≡ blocks.old.value.size }
    ensures held { result ≡ DONE → blocks.new.value.held ≡ without (record { start = start; end = end }) blocks.old.value.held }
    ensures values { result ≡ DONE → (page : ℕ) → value_at blocks.new.value.values page ≡ (if page == start then 0 else value_at blocks.old.value.values page) }
    ensures not_held { (result ≡ NOT_HELD) ↔ (is_held (record { start = start; end = end }) blocks.old.value.held ≡ false) }
    ensures same { result ≢ DONE → blocks.new.value ≡ blocks.old.value }
    ensures status { Contains (DONE ∷ NOT_HELD ∷ []) result }
{
    let mut manager = blocks.take(alloc).into_box();
    let status = manager.release(Span { start, end });
    blocks.put(Parts::of(manager));
    status
}

/// Gives back the pages of a block beyond the first `keep` (drm_buddy_block_trim). Takes no memory.
#[unsafe(no_mangle)]
pub extern "C" fn pearoar_blocks_trim(
    alloc: Global,
    blocks: &mut BlockHandle,
    start: u32,
    end: u32,
    keep: u32,
) -> u32
    requires live { blocks.old.live ≡ true }
    ensures live { blocks.new.live ≡ true }
    ensures size { blocks.new.value.size ≡ blocks.old.value.size }
    ensures held { result ≡ DONE → blocks.new.value.held ≡ with_block (record { start = start; end = start + keep }) (without (record { start = start; end = end }) blocks.old.value.held) }
    ensures values { blocks.new.value.values ≡ blocks.old.value.values }
    ensures not_held { (result ≡ NOT_HELD) ↔ (is_held (record { start = start; end = end }) blocks.old.value.held ≡ false) }
    ensures some { result ≡ DONE → 1 ≤ keep }
    ensures most { result ≡ DONE → keep ≤ length_of (record { start = start; end = end }) }
    ensures invalid { result ≡ INVALID → 1 ≤ keep → length_of (record { start = start; end = end }) < keep }
    ensures same { result ≢ DONE → blocks.new.value ≡ blocks.old.value }
    ensures status { Contains (DONE ∷ INVALID ∷ NOT_HELD ∷ []) result }
{
    let mut manager = blocks.take(alloc).into_box();
    let status = manager.trim(Span { start, end }, keep);
    blocks.put(Parts::of(manager));
    status
}

/// Sets the caller's value of the block that begins at page `start`.
#[unsafe(no_mangle)]
pub extern "C" fn pearoar_blocks_set_value(
    alloc: Global,
    blocks: &mut BlockHandle,
    start: u32,
    value: u64,
) -> u32
    requires live { blocks.old.live ≡ true }
    ensures live { blocks.new.live ≡ true }
    ensures size { blocks.new.value.size ≡ blocks.old.value.size }
    ensures held { blocks.new.value.held ≡ blocks.old.value.held }
    ensures set { result ≡ DONE → (page : ℕ) → value_at blocks.new.value.values page ≡ (if page == start then value else value_at blocks.old.value.values page) }
    ensures not_held { (result ≡ NOT_HELD) ↔ (find (starts_at start) blocks.old.value.held ≡ None) }
    ensures same { result ≢ DONE → blocks.new.value ≡ blocks.old.value }
    ensures status { Contains (DONE ∷ NO_MEMORY ∷ NOT_HELD ∷ []) result }
{
    let mut manager = blocks.take(alloc).into_box();
    let status = manager.set_value(start, value);
    blocks.put(Parts::of(manager));
    status
}

/// Writes the caller's value of the block that begins at page `start` to `value`; it is 0 until it is set. Takes no memory.
#[unsafe(no_mangle)]
pub extern "C" fn pearoar_blocks_value(
    alloc: Global,
    blocks: &mut BlockHandle,
    start: u32,
    value: &mut u64,
) -> u32
    requires live { blocks.old.live ≡ true }
    ensures live { blocks.new.live ≡ true }
    ensures same { blocks.new.value ≡ blocks.old.value }
    ensures value { result ≡ DONE → value.new ≡ value_at blocks.old.value.values start }
    ensures not_held { (result ≡ NOT_HELD) ↔ (find (starts_at start) blocks.old.value.held ≡ None) }
    ensures status { Contains (DONE ∷ NOT_HELD ∷ []) result }
{
    let manager = blocks.take(alloc).into_box();
    let status = manager.value(start, value);
    blocks.put(Parts::of(manager));
    status
}

/// Counts what is held and what is free. Takes memory, and costs a search for each page.
#[unsafe(no_mangle)]
pub extern "C" fn pearoar_blocks_stats(
    alloc: Global,
    blocks: &mut BlockHandle,
    stats: &mut BlockStats,
) -> u32
    requires live { blocks.old.live ≡ true }
    ensures live { blocks.new.live ≡ true }
    ensures same { blocks.new.value ≡ blocks.old.value }
    ensures held { result ≡ DONE → stats.new.held ≡ pages_of blocks.old.value.held }
    ensures free { result ≡ DONE → stats.new.free + stats.new.held ≡ blocks.old.value.size }
    ensures blocks { result ≡ DONE → stats.new.blocks ≡ length blocks.old.value.held }
    ensures orders { result ≡ DONE → (order : ℕ) → order < 31 → slice_index stats.new.orders order ≡ count_by (has_order order) (free_blocks_of blocks.old.value) }
    ensures status { Contains (DONE ∷ NO_MEMORY ∷ []) result }
{
    let mut manager = blocks.take(alloc).into_box();
    let status = manager.stats(alloc, stats);
    blocks.put(Parts::of(manager));
    status
}

/// Writes how many pages are free, and how many are held. Takes no memory.
#[unsafe(no_mangle)]
pub extern "C" fn pearoar_blocks_lengths(
    alloc: Global,
    blocks: &mut BlockHandle,
    free: &mut u32,
    used: &mut u32,
)
    requires live { blocks.old.live ≡ true }
    ensures live { blocks.new.live ≡ true }
    ensures same { blocks.new.value ≡ blocks.old.value }
    ensures used { used.new ≡ pages_of blocks.old.value.held }
    ensures sum { free.new + used.new ≡ blocks.old.value.size }
{
    let manager = blocks.take(alloc).into_box();
    (*free, *used) = manager.lengths();
    blocks.put(Parts::of(manager));
}

/// Writes the first block that begins at page `from` or above it to `span`. Takes no memory, and costs a step for each page.
#[unsafe(no_mangle)]
pub extern "C" fn pearoar_blocks_next_held(
    alloc: Global,
    blocks: &mut BlockHandle,
    from: u32,
    span: &mut PageSpan,
) -> u32
    requires live { blocks.old.live ≡ true }
    ensures live { blocks.new.live ≡ true }
    ensures same { blocks.new.value ≡ blocks.old.value }
    ensures some { result ≡ DONE → IsNextHeld blocks.old.value.held from (span_of span.new) }
    ensures none { result ≡ NO_MORE → NoneFrom blocks.old.value.held from blocks.old.value.size }
    ensures status { Contains (DONE ∷ NO_MORE ∷ []) result }
{
    let manager = blocks.take(alloc).into_box();
    let status = manager.next_held(from, span);
    blocks.put(Parts::of(manager));
    status
}
