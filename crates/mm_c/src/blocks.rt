//! A buddy manager with the calls that C needs.
ghost use Rattle.std.specs.Prelude.{◌≡◌, ◌≢◌, ◌↔◌, ℕ, ◌+◌, ◌<◌, ◌≤◌, ◌==◌, true, false, [], ◌∷◌, Some, None, Contains, IfOk, IfSome, IfNone, length, count_by, slice_index, if◌then◌else◌};
ghost use Rattle.std.specs.List.{find};
ghost use Rattle.ttm_base.specs.Holes.{is_free_beside};
ghost use Rattle.ttm_base.specs.Reach.{length_of};
ghost use Rattle.hole_tree.specs.HoleSet.{starts_at};
ghost use Rattle.buddy_manager.specs.Held.{held_from, with_block, with_blocks, without, is_held, pages_of};
ghost use Rattle.buddy_manager.specs.Taking.{AreTaken};
ghost use Rattle.manager_walk.specs.Walk.{IsNextHeld, NoneFrom};
ghost use Rattle.mm_c.specs.Calls.{span_of, first_spans, is_topdown, is_contiguous, is_block_request, blocks_for};
ghost use Rattle.mm_c.specs.States.{free_blocks_of, has_order};
ghost use Rattle.mm_c.specs.UserValues.{value_at};
ghost use Rattle.mm_c.specs.declared.status.TheConstants.{DONE, NO_ROOM, NO_MEMORY, INVALID, NOT_HELD, TOO_MANY, NO_MORE};

use crate::page_span::{PageSpan, write};
use crate::ranges::tell;
use crate::status::{DONE, INVALID, NO_MEMORY, NO_ROOM, NOT_HELD, TOO_MANY};
use crate::values::Values;
use buddy_manager::{AllocFault, BuddyFlags, BuddyManager};
use manager_walk::{free_blocks, next_block};
use std::alloc::Global;
use std::marker::Model;
use ttm_base::{NoMemory, Span, Spans};

/// The number of orders of blocks, since there are fewer than 2^31 pages.
const ORDERS: usize = 31;

/// A buddy manager, its size, room for the blocks of a call, and the caller's values of the blocks by where they begin.
#[derive(Drop)]
pub struct Blocks {
    manager: BuddyManager,
    size: u32,
    /// Room for the blocks of a call.
    room: Spans,
    values: Values,
}

impl Model for Blocks {
    ghost use Rattle.std.specs.Prelude.{◌≡◌};
    ghost use Rattle.mm_c.specs.States.{State};

    ghost Value = { State };

    ghost view = { λ b. record { size = b.manager.size; held = b.manager.held; values = b.values } };

    ghost invariant = { λ b. b.manager.size ≡ b.size };
}

/// The request of an alloc.
#[repr(C)]
#[derive(Clone, Copy)]
pub struct BlockRequest {
    pub pages: u32,
    pub first: u32,
    pub last: u32,
    pub flags: u32,
}

/// The counts of what is held and what is free, in pages and blocks.
#[repr(C)]
#[derive(Clone, Copy)]
pub struct BlockStats {
    pub free: u32,
    pub held: u32,
    /// The number of held blocks.
    pub blocks: usize,
    /// The number of free blocks of each order, where each free block is as large as it can be.
    pub orders: [usize; ORDERS],
}

/// Returns how many of `blocks` have `pages` pages.
fn count_of(blocks: &[Span], pages: u32) -> usize
    ensures { result ≡ count_by (λ block. length_of block == pages) blocks.now }
{
    blocks
        .iter()
        .filter(|block| block.end.saturating_sub(block.start) == pages)
        .count()
}

/// Counts `blocks` by their orders into `counts`.
fn count_orders(blocks: &[Span], counts: &mut [usize])
    requires { length counts.old ≡ 31 }
    ensures { (order : ℕ) → order < 31 → slice_index counts.new order ≡ count_by (has_order order) blocks.now }
{
    for order in 0..ORDERS {
        counts[order] = count_of(blocks, 1 << order);
    }
}

impl BlockRequest {
    /// Returns whether the request is for pages, with known flags.
    fn is_valid(&self) -> bool
        ensures { result ≡ is_block_request self.now }
    {
        self.pages > 0 && self.flags < 4
    }

    fn buddy_flags(&self) -> BuddyFlags
        ensures topdown { result.topdown ≡ is_topdown self.now.flags }
        ensures contiguous { result.contig ≡ is_contiguous self.now.flags }
    {
        BuddyFlags {
            topdown: self.flags % 2 == 1,
            contig: self.flags / 2 % 2 == 1,
        }
    }
}

fn status_of(fault: AllocFault) -> u32
    ensures no_room { (result ≡ NO_ROOM) ↔ (fault ≡ AllocFault.NoBlocks) }
    ensures status { Contains (NO_ROOM ∷ NO_MEMORY ∷ []) result }
{
    match fault {
        AllocFault::NoBlocks => NO_ROOM,
        AllocFault::NoMemory => NO_MEMORY,
    }
}

/// Returns the held block that begins at page `start`, or None where there is none.
fn block_from(manager: &BuddyManager, start: u32) -> Option<Span>
    ensures { result ≡ find (starts_at start) manager.now.held }
{
    manager.held_from(start)
}

impl Blocks {
    pub fn new(alloc: Global, pages: u32) -> Result<Box<Blocks>, NoMemory>
        ensures size { IfOk result (λ blocks. blocks.value.size ≡ pages) }
        ensures held { IfOk result (λ blocks. blocks.value.held ≡ []) }
        ensures values { IfOk result (λ blocks. blocks.value.values ≡ []) }
    {
        let manager = BuddyManager::new(alloc, pages)?;
        let blocks = Blocks {
            manager,
            size: pages,
            room: Spans::new(alloc),
            values: Values::new(alloc),
        };
        Box::new(alloc, blocks).map_err(|_| NoMemory)
    }

    /// Takes the blocks that `request` asks for, writes them to the front of `out`, and writes their number to `count`.
    pub fn alloc(&mut self, request: BlockRequest, out: &mut [PageSpan], count: &mut usize) -> u32
        ensures size { self.new.size ≡ self.old.size }
        ensures room { length out.new ≡ length out.old }
        ensures fits { result ≡ DONE → count.new ≤ length out.old }
        ensures done { result ≡ DONE → blocks_for self.old request ≡ Some (first_spans count.new out.new) }
        ensures held { result ≡ DONE → self.new.held ≡ with_blocks (first_spans count.new out.new) self.old.held }
        ensures values { self.new.values ≡ self.old.values }
        ensures too_many { result ≡ TOO_MANY → length out.old < count.new }
        ensures wanted { result ≡ TOO_MANY → IfSome (blocks_for self.old request) (λ spans. length spans ≡ count.new) }
        ensures no_room { result ≡ NO_ROOM → blocks_for self.old request ≡ None }
        ensures invalid { (result ≡ INVALID) ↔ (is_block_request request ≡ false) }
        ensures same { result ≢ DONE → self.new ≡ self.old }
        ensures status { Contains (DONE ∷ NO_ROOM ∷ NO_MEMORY ∷ INVALID ∷ TOO_MANY ∷ []) result }
    {
        *count = 0;
        if !request.is_valid() {
            return INVALID;
        }
        self.room.clear();
        let flags = request.buddy_flags();
        let (first, last) = (request.first, request.last);
        let taken = self
            .manager
            .alloc(request.pages, first, last, flags, &mut self.room);
        if let Err(fault) = taken {
            return status_of(fault);
        }
        *count = self.room.len();
        if self.room.len() > out.len() {
            self.manager.release(&self.room);
            return TOO_MANY;
        }
        write(self.room.items(), out);
        DONE
    }

    /// Gives `block` back, as it was given out or as a trim left it.
    pub fn release(&mut self, block: Span) -> u32
        ensures size { self.new.size ≡ self.old.size }
        ensures held { result ≡ DONE → self.new.held ≡ without block self.old.held }
        ensures values { result ≡ DONE → (page : ℕ) → value_at self.new.values page ≡ (if page == block.start then 0 else value_at self.old.values page) }
        ensures not_held { (result ≡ NOT_HELD) ↔ (is_held block self.old.held ≡ false) }
        ensures same { result ≢ DONE → self.new ≡ self.old }
        ensures status { Contains (DONE ∷ NOT_HELD ∷ []) result }
    {
        if !self.manager.is_held(block) {
            return NOT_HELD;
        }
        self.manager.release_block(block);
        self.values.clear(block.start);
        DONE
    }

    /// Gives back the pages of `block` beyond the first `keep`.
    pub fn trim(&mut self, block: Span, keep: u32) -> u32
        ensures size { self.new.size ≡ self.old.size }
        ensures held { result ≡ DONE → self.new.held ≡ with_block (record { start = block.start; end = block.start + keep }) (without block self.old.held) }
        ensures values { self.new.values ≡ self.old.values }
        ensures not_held { (result ≡ NOT_HELD) ↔ (is_held block self.old.held ≡ false) }
        ensures some { result ≡ DONE → 1 ≤ keep }
        ensures most { result ≡ DONE → keep ≤ length_of block }
        ensures invalid { result ≡ INVALID → 1 ≤ keep → length_of block < keep }
        ensures same { result ≢ DONE → self.new ≡ self.old }
        ensures status { Contains (DONE ∷ INVALID ∷ NOT_HELD ∷ []) result }
    {
        if !self.manager.is_held(block) {
            return NOT_HELD;
        }
        if keep == 0 || keep > block.end.saturating_sub(block.start) {
            return INVALID;
        }
        self.manager.trim(block, keep);
        DONE
    }

    /// Sets the caller's value of the block that begins at page `start`.
    pub fn set_value(&mut self, start: u32, value: u64) -> u32
        ensures size { self.new.size ≡ self.old.size }
        ensures held { self.new.held ≡ self.old.held }
        ensures set { result ≡ DONE → (page : ℕ) → value_at self.new.values page ≡ (if page == start then value else value_at self.old.values page) }
        ensures not_held { (result ≡ NOT_HELD) ↔ (find (starts_at start) self.old.held ≡ None) }
        ensures same { result ≢ DONE → self.new ≡ self.old }
        ensures status { Contains (DONE ∷ NO_MEMORY ∷ NOT_HELD ∷ []) result }
    {
        if block_from(&self.manager, start).is_none() {
            return NOT_HELD;
        }
        match self.values.set(start, value) {
            Ok(()) => DONE,
            Err(_) => NO_MEMORY,
        }
    }

    /// Writes the caller's value of the block that begins at page `start` to `value`.
    pub fn value(&self, start: u32, value: &mut u64) -> u32
        ensures value { result ≡ DONE → value.new ≡ value_at self.now.values start }
        ensures not_held { (result ≡ NOT_HELD) ↔ (find (starts_at start) self.now.held ≡ None) }
        ensures status { Contains (DONE ∷ NOT_HELD ∷ []) result }
    {
        if block_from(&self.manager, start).is_none() {
            return NOT_HELD;
        }
        *value = self.values.get(start);
        DONE
    }

    /// Counts what is held and what is free. After a refusal `stats` tells nothing.
    pub fn stats(&mut self, alloc: Global, stats: &mut BlockStats) -> u32
        ensures same { self.new ≡ self.old }
        ensures held { result ≡ DONE → stats.new.held ≡ pages_of self.old.held }
        ensures free { result ≡ DONE → stats.new.free + stats.new.held ≡ self.old.size }
        ensures blocks { result ≡ DONE → stats.new.blocks ≡ length self.old.held }
        ensures orders { result ≡ DONE → (order : ℕ) → order < 31 → slice_index stats.new.orders order ≡ count_by (has_order order) (free_blocks_of self.old) }
        ensures status { Contains (DONE ∷ NO_MEMORY ∷ []) result }
    {
        let Ok(free) = free_blocks(alloc, &mut self.manager) else {
            return NO_MEMORY;
        };
        (stats.free, stats.held) = self.manager.lengths();
        stats.blocks = self.manager.block_count();
        count_orders(free.items(), &mut stats.orders);
        DONE
    }

    /// Returns how many pages are free, and how many are held.
    pub fn lengths(&self) -> (u32, u32)
        ensures used { result.1 ≡ pages_of self.now.held }
        ensures sum { result.0 + result.1 ≡ self.now.size }
    {
        self.manager.lengths()
    }

    pub fn next_held(&self, from: u32, span: &mut PageSpan) -> u32
        ensures some { result ≡ DONE → IsNextHeld self.now.held from (span_of span.new) }
        ensures none { result ≡ NO_MORE → NoneFrom self.now.held from self.now.size }
        ensures status { Contains (DONE ∷ NO_MORE ∷ []) result }
    {
        tell(next_block(&self.manager, self.size, from), span)
    }
}
