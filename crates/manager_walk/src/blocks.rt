//! The free blocks of a buddy manager (drm_buddy_print).
ghost use Rattle.std.specs.Prelude.{◌≡◌, ◌+◌, ◌^◌, ◌<◌, ◌≤◌, ◌++◌, [], IfOk, IfSome, IfNone, OnOk, flat_map};
ghost use Rattle.ttm_base.specs.Holes.{holes, is_free_beside};
ghost use Rattle.manager_walk.specs.Walk.{is_open, IsNextHeld, NoneFrom};
ghost use Rattle.manager_walk.specs.Cutting.{grown, blocks_of, free_list};

use buddy_manager::{AllocFault, BuddyFlags, BuddyManager};
use place_list::spans::add_page;
use std::alloc::Global;
use ttm_base::{NoMemory, Span, Spans};

/// The flags for one block, the lowest of those from the smallest.
const ALONE: BuddyFlags = BuddyFlags {
    topdown: false,
    contig: true,
};

/// Returns the first block that is held from page `from` or a later page on, in a manager of `size` pages, or None where none is. Costs a step for
/// each page.
#[tactic(auto, using(crate::proofs::OpenLaws::none_to_next, crate::proofs::OpenLaws::next_at))]
pub fn next_block(manager: &BuddyManager, size: u32, from: u32) -> Option<Span>
    requires { manager.now.size ≡ size }
    ensures some { IfSome result (IsNextHeld manager.now.held from) }
    ensures none { IfNone result (NoneFrom manager.now.held from size) }
{
    for page in from..size {
        if let Some(block) = manager.held_from(page) {
            return Some(block);
        }
    }
    None
}

/// Returns whether page `page` is free. `room` is for the answer of the search; it is empty before and after.
fn is_open(manager: &mut BuddyManager, page: u32, room: &mut Spans) -> Result<bool, NoMemory>
    requires page { page + 1 < 2 ^ 32 }
    requires empty { room.old ≡ [] }
    ensures value { IfOk result (λ answer. answer ≡ is_open manager.old.held manager.old.size page) }
    ensures same { manager.new ≡ manager.old }
    ensures left { room.new ≡ [] }
{
    match manager.choice(1, page, page + 1, ALONE, room) {
        Ok(()) => {
            room.clear();
            Ok(true)
        }
        Err(AllocFault::NoBlocks) => Ok(false),
        Err(AllocFault::NoMemory) => Err(NoMemory),
    }
}

/// Returns the holes of a manager.
fn holes(alloc: Global, manager: &mut BuddyManager) -> Result<Spans, NoMemory>
    ensures holes { IfOk result (λ found. found ≡ holes (is_free_beside manager.old.held) manager.old.size) }
    ensures same { manager.new ≡ manager.old }
{
    let (free, used) = manager.lengths();
    let size = free.checked_add(used).ok_or(NoMemory)?;
    let mut found = Spans::new(alloc);
    let mut room = Spans::new(alloc);
    for page in 0..size {
        if is_open(manager, page, &mut room)? {
            add_page(&mut found, page)?;
        }
    }
    Ok(found)
}

/// Returns the size in pages of the largest block from page `from` on that ends by page `to`. It is doubled at most `times` times.
fn grown(times: u32, from: u64, to: u64) -> u64
    requires some { from < to }
    requires most { to < 2 ^ 32 }
    ensures size { result ≡ grown times from to 1 }
    ensures fits { from + result ≤ to }
{
    let mut size = 1;
    for _time in 0..times {
        if from % (2 * size) != 0 || from + 2 * size > to {
            return size;
        }
        size = 2 * size;
    }
    size
}

/// Returns the largest block from page `start` on that ends by page `end`.
fn block_from(start: u32, end: u32) -> Span
    requires { start < end }
    ensures { result ≡ record { start = start; end = start + grown 32 start end 1 } }
{
    let size = grown(32, start as u64, end as u64);
    Span {
        start,
        end: start + size as u32,
    }
}

/// Appends the blocks of `hole` to `blocks`.
fn put_blocks(blocks: &mut Spans, hole: Span) -> Result<(), NoMemory>
    ensures { OnOk result (blocks.new ≡ blocks.old ++ blocks_of hole) }
{
    let mut start = hole.start;
    for _page in hole.start..hole.end {
        if start >= hole.end {
            return Ok(());
        }
        let block = block_from(start, hole.end);
        blocks.push(block)?;
        start = block.end;
    }
    Ok(())
}

/// Returns the free blocks of a manager, each as large as it can be. Costs a search for each page. The manager stays as it was.
pub fn free_blocks(alloc: Global, manager: &mut BuddyManager) -> Result<Spans, NoMemory>
    ensures blocks { IfOk result (λ blocks. blocks ≡ free_list (is_free_beside manager.old.held) manager.old.size) }
    ensures same { manager.new ≡ manager.old }
{
    let holes = holes(alloc, manager)?;
    let mut blocks = Spans::new(alloc);
    for hole in holes.items() {
        put_blocks(&mut blocks, *hole)?;
    }
    Ok(blocks)
}
