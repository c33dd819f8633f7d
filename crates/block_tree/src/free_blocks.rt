ghost use Rattle.std.specs.Prelude.{◌≡◌, ℕ, suc, ◌+◌, ◌-◌, ◌*◌, ◌/◌, ◌^◌, ◌<◌, ◌≤◌, Bool, true, false, length, nat_lt, option_map, None, IfOk, IfSome};
ghost use Rattle.ttm_base.specs.BuddyChoice.{block_around, candidate, is_free_block};
ghost use Rattle.ttm_base.specs.Holes.{has_page};
ghost use Rattle.block_tree.specs.FreeSet.{beside, is_free, place};
ghost use Rattle.block_tree.specs.Holding.{AroundOf, ChosenOf, FirstFreeOf, FirstHolderOf, FoundOf, IsAround, IsFree, IsLowest, LastFreeOf, LowestOf, PiecesOf};
ghost use Rattle.block_tree.specs.Masks.{is_marked};
ghost use Rattle.block_tree.specs.Pieces.{LeastWholeOf, FirstPieceOf};
ghost use Rattle.block_tree.specs.Searching.{numbered};

use crate::block::{Block, block_len};
use crate::request::{Found, Pieces, Request};
use bit_set::BitSet;
use std::alloc::Global;
use std::marker::Model;
use ttm_base::{NoMemory, Span, log2, order_of};

/// The free pages of a memory type: each block that is wholly free and part of no greater such block is in a set. The blocks
/// of order 0 are numbered first, then those of order 1 and so on; the one that has all pages is the last but one. It is
/// seen as a mark for each page that tells whether it is free. Only `new` takes memory.
#[derive(Drop)]
pub struct FreeBlocks {
    blocks: BitSet,
    /// Twice the number of blocks of order 0.
    count: usize,
    order: u32,
    size: u32,
}

impl Model for FreeBlocks {
    ghost use Rattle.std.specs.Prelude.{Bool, List};

    ghost Value = { List Bool };

    ghost use Rattle.block_tree.specs.FreeSet.{marks_of, IsKept};

    ghost view = { λ b. marks_of b.order b.size b.blocks };

    ghost invariant = { λ b. IsKept b.count b.order b.size b.blocks };
}

/// Returns the number of a block among the blocks of all orders, where `count` is twice the number of blocks of order 0.
#[inline(always)]
fn place(count: usize, block: Block) -> usize
    requires order { block.order ≤ 31 }
    requires count { count ≤ 2 ^ 32 }
    ensures { result ≡ count - count / 2 ^ block.order + block.number }
{
    count - (count >> block.order) + block.number as usize
}

/// Returns the block with the number `at` among the blocks of all orders up to `order`.
#[inline(always)]
fn block_at(count: usize, order: u32, at: usize) -> Block
    requires count { count ≡ 2 ^ suc order }
    requires order { order ≤ 31 }
    requires at { at + 1 < count }
    ensures order { result.order ≤ order }
    ensures number { result.number < 2 ^ (order - result.order) }
    ensures place { place order result.order result.number ≡ at }
{
    let level = log2((count - 1 - at) as u32);
    let len = 2 * block_len(level) as usize;
    Block {
        order: order - level,
        number: (at + len - count) as u32,
    }
}

/// Returns the largest block that begins at page `start` and has only pages below `end`.
fn largest_at(start: u32, end: u32) -> Block
    requires some { start < end }
    ensures order { result.order ≤ 31 }
    ensures start { result.number * 2 ^ result.order ≡ start }
    ensures end { start + 2 ^ result.order ≤ end }
{
    let order = start.trailing_zeros().min(log2(end - start));
    Block {
        order,
        number: start >> order,
    }
}

impl FreeBlocks {
    /// Returns `pages` pages, all of them held.
    fn all_held(alloc: Global, pages: u32) -> Result<FreeBlocks, NoMemory>
        requires { pages < 2 ^ 31 }
        ensures size { IfOk result (λ blocks. length blocks ≡ pages) }
        ensures held { IfOk result (λ blocks. (page : ℕ) → is_free blocks page ≡ false) }
    {
        let order = order_of(pages);
        let count = 2 * block_len(order) as usize;
        let blocks = BitSet::new(alloc, count)?;
        Ok(FreeBlocks {
            blocks,
            count,
            order,
            size: pages,
        })
    }

    /// Returns `pages` pages, all of them free.
    pub fn new(alloc: Global, pages: u32) -> Result<FreeBlocks, NoMemory>
        requires { pages < 2 ^ 31 }
        ensures size { IfOk result (λ blocks. length blocks ≡ pages) }
        ensures free { IfOk result (λ blocks. (page : ℕ) → is_free blocks page ≡ nat_lt page pages) }
    {
        let mut blocks = FreeBlocks::all_held(alloc, pages)?;
        blocks.mark(
            Span {
                start: 0,
                end: pages,
            },
            true,
        );
        Ok(blocks)
    }

    /// Returns the number of pages.
    pub fn size(&self) -> u32
        ensures value { result ≡ length self.now }
        ensures small { result < 2 ^ 31 }
    {
        self.size
    }

    /// Removes a free block from the set, so that its pages are held.
    #[inline(always)]
    fn remove(&mut self, block: Block)
        requires { IsFree (is_free self.old) (length self.old) block.order block.number }
        ensures size { length self.new ≡ length self.old }
        ensures marked { (page : ℕ) → is_free self.new page ≡ is_marked (numbered block.order block.number) false (is_free self.old page) page }
    {
        self.blocks.clear(place(self.count, block));
    }

    /// Adds a block, whose pages are held, to the set, so that its pages are free.
    #[inline(always)]
    fn add(&mut self, block: Block)
        requires end { block.number * 2 ^ block.order + 2 ^ block.order ≤ length self.old }
        requires held { (page : ℕ) → page / 2 ^ block.order ≡ block.number → is_free self.old page ≡ false }
        requires alone { IsFree (is_free self.old) (length self.old) block.order (beside block.number) → ⊥ }
        ensures size { length self.new ≡ length self.old }
        ensures marked { (page : ℕ) → is_free self.new page ≡ is_marked (numbered block.order block.number) true (is_free self.old page) page }
    {
        self.blocks.set(place(self.count, block));
    }

    /// Returns whether the buddy of a block is free, and part of no greater free block.
    #[inline(always)]
    fn has_beside(&self, block: Block) -> bool
        requires { block.number * 2 ^ block.order + 2 ^ block.order ≤ length self.now }
        ensures yes { result ≡ true → IsFree (is_free self.now) (length self.now) block.order (beside block.number) }
        ensures no { result ≡ false → IsFree (is_free self.now) (length self.now) block.order (beside block.number) → ⊥ }
        ensures small { result ≡ true → block.order < 31 }
    {
        if block.order >= self.order {
            return false;
        }
        self.blocks.contains(place(self.count, block.beside()))
    }

    /// Finds the free block that is a block or has it.
    fn around(&self, block: Block) -> Option<Block>
        requires { block.number * 2 ^ block.order + 2 ^ block.order ≤ length self.now }
        ensures around { AroundOf (is_free self.now) (length self.now) block.order block.number result }
        ensures size { length self.now < 2 ^ 31 }
    {
        for order in block.order..self.order + 1 {
            let above = Block {
                order,
                number: block.number >> (order - block.order),
            };
            if self.blocks.contains(place(self.count, above)) {
                return Some(above);
            }
        }
        None
    }

    /// Finds the first free block from the block `from` on: those of its order by their numbers, then those of the next
    /// order, and so on.
    #[inline(always)]
    fn first_from(&self, from: Block) -> Option<Block>
        requires { from.number * 2 ^ from.order < length self.now }
        ensures first { FirstFreeOf (is_free self.now) (length self.now) from.order from.number result }
        ensures small { IfSome result (λ block. block.order < 31) }
    {
        if from.order > self.order {
            return None;
        }
        let at = self.blocks.first_from(place(self.count, from))?;
        Some(block_at(self.count, self.order, at))
    }

    /// Finds the last free block of an order up to the block `to`.
    #[inline(always)]
    fn last_to(&self, to: Block) -> Option<Block>
        requires { to.number * 2 ^ to.order < length self.now }
        ensures { LastFreeOf (is_free self.now) (length self.now) to.order to.number result }
    {
        if to.order > self.order {
            return None;
        }
        let at = self.blocks.last_to(place(self.count, to))?;
        let block = block_at(self.count, self.order, at);
        if block.order == to.order {
            Some(block)
        } else {
            None
        }
    }

    /// Returns the blocks that a request can take, or None where there are none.
    #[inline(always)]
    fn pieces(&self, request: Request) -> Option<Pieces>
        ensures pieces { PiecesOf request (length self.now) result }
        ensures small { IfSome result (λ pieces. pieces.order ≤ 31) }
        ensures size { length self.now < 2 ^ 31 }
    {
        if request.order > self.order {
            return None;
        }
        request.pieces(self.size)
    }

    /// Finds the lowest free block that has a wanted block, among those of the least order with such a block.
    fn lowest(&self, pieces: Pieces) -> Option<Block>
        requires order { pieces.order ≤ 31 }
        requires some { pieces.first ≤ pieces.last }
        requires end { pieces.last * 2 ^ pieces.order + 2 ^ pieces.order ≤ length self.now }
        ensures lowest { LowestOf (is_free self.now) (length self.now) pieces result }
        ensures small { IfSome result (λ block. block.order < 31) }
    {
        let mut order = pieces.order;
        loop {
            let number = pieces.first >> (order - pieces.order);
            let block = self.first_from(Block { order, number })?;
            let up = block.order - pieces.order;
            order = block.order;
            if block.number > pieces.last >> up {
                order += 1;
            } else if block.number >= pieces.first >> up {
                return Some(block);
            }
        }
    }

    /// Finds the lowest free block of the order `order` that has a wanted block.
    #[inline(always)]
    fn lowest_of(&self, pieces: Pieces, order: u32) -> Option<Block>
        requires order { pieces.order ≤ order }
        requires small { order ≤ 31 }
        requires some { pieces.first ≤ pieces.last }
        requires end { pieces.last * 2 ^ pieces.order + 2 ^ pieces.order ≤ length self.now }
        ensures { FirstHolderOf (is_free self.now) (length self.now) pieces false order result }
    {
        let number = pieces.first >> (order - pieces.order);
        let block = self.first_from(Block { order, number })?;
        if block.order != order {
            return None;
        }
        let last = pieces.last >> (order - pieces.order);
        if block.number <= last {
            Some(block)
        } else {
            None
        }
    }

    /// Finds the highest free block of the order `order` that has a wanted block.
    #[inline(always)]
    fn highest_of(&self, pieces: Pieces, order: u32) -> Option<Block>
        requires order { pieces.order ≤ order }
        requires small { order ≤ 31 }
        requires end { pieces.last * 2 ^ pieces.order + 2 ^ pieces.order ≤ length self.now }
        ensures { FirstHolderOf (is_free self.now) (length self.now) pieces true order result }
    {
        let number = pieces.last >> (order - pieces.order);
        let block = self.last_to(Block { order, number })?;
        let first = pieces.first >> (order - pieces.order);
        if first <= block.number {
            Some(block)
        } else {
            None
        }
    }

    /// Finds the free block of the order `order` that has a wanted block: the lowest, or for `topdown` the highest.
    #[inline(always)]
    fn first_of(&self, pieces: Pieces, topdown: bool, order: u32) -> Option<Block>
        requires order { pieces.order ≤ order }
        requires small { order ≤ 31 }
        requires some { pieces.first ≤ pieces.last }
        requires end { pieces.last * 2 ^ pieces.order + 2 ^ pieces.order ≤ length self.now }
        ensures { FirstHolderOf (is_free self.now) (length self.now) pieces topdown order result }
    {
        if topdown {
            self.highest_of(pieces, order)
        } else {
            self.lowest_of(pieces, order)
        }
    }

    /// Finds the free block that has a wanted block, among those of the order of `lowest`, which is the lowest one of the
    /// least order: `lowest` itself, or for `topdown` the highest.
    #[inline(always)]
    fn first_or(&self, pieces: Pieces, topdown: bool, lowest: Block) -> Option<Block>
        requires small { lowest.order ≤ 31 }
        requires some { pieces.first ≤ pieces.last }
        requires end { pieces.last * 2 ^ pieces.order + 2 ^ pieces.order ≤ length self.now }
        requires lowest { IsLowest (is_free self.now) (length self.now) pieces lowest }
        ensures { FirstHolderOf (is_free self.now) (length self.now) pieces topdown lowest.order result }
    {
        if topdown {
            self.highest_of(pieces, lowest.order)
        } else {
            Some(lowest)
        }
    }

    /// Finds the wanted block that would be split first from a free block of the order `order`.
    #[inline(always)]
    fn find(&self, request: Request, order: u32) -> Option<Found>
        requires order { request.order ≤ order }
        requires small { order < 32 }
        ensures found { FoundOf (is_free self.now) (length self.now) request order result }
        ensures size { length self.now < 2 ^ 31 }
    {
        let pieces = self.pieces(request)?;
        let free = self.first_of(pieces, request.topdown, order)?;
        let piece = pieces.first_in(free, request.topdown);
        Some(Found { free, piece })
    }

    /// Finds the wanted block that would be split first from a free block of the least order from which one can be split.
    #[inline(always)]
    fn choose(&self, request: Request) -> Option<Found>
        ensures chosen { ChosenOf (is_free self.now) (length self.now) request result }
        ensures size { length self.now < 2 ^ 31 }
    {
        let pieces = self.pieces(request)?;
        let lowest = self.lowest(pieces)?;
        let free = self.first_or(pieces, request.topdown, lowest)?;
        let piece = pieces.first_in(free, request.topdown);
        Some(Found { free, piece })
    }

    /// Takes a block out of the free block that has it.
    fn split(&mut self, found: Found)
        requires { IsAround (is_free self.old) (length self.old) found.piece.order found.piece.number found.free }
        ensures size { length self.new ≡ length self.old }
        ensures marked { (page : ℕ) → is_free self.new page ≡ is_marked (numbered found.piece.order found.piece.number) false (is_free self.old page) page }
    {
        self.remove(found.free);
        let mut block = found.piece;
        while block.order < found.free.order {
            self.add(block.beside());
            block = block.above();
        }
    }

    /// Gives back a block, all of whose pages are held.
    fn give_block(&mut self, held: Block)
        requires end { held.number * 2 ^ held.order + 2 ^ held.order ≤ length self.old }
        requires held { (page : ℕ) → page / 2 ^ held.order ≡ held.number → is_free self.old page ≡ false }
        ensures size { length self.new ≡ length self.old }
        ensures marked { (page : ℕ) → is_free self.new page ≡ is_marked (numbered held.order held.number) true (is_free self.old page) page }
    {
        let mut block = held;
        while self.has_beside(block) {
            self.remove(block.beside());
            block = block.above();
        }
        self.add(block);
    }

    /// Marks the pages of a block as held. The block is neither free nor part of a free one.
    fn clear_inside(&mut self, block: Block)
        requires end { block.number * 2 ^ block.order + 2 ^ block.order ≤ length self.old }
        requires small { length self.old < 2 ^ 31 }
        requires held { is_free_block (is_free self.old) (length self.old) (block_around block.order (block.number * 2 ^ block.order)) ≡ false }
        ensures size { length self.new ≡ length self.old }
        ensures marked { (page : ℕ) → is_free self.new page ≡ is_marked (numbered block.order block.number) false (is_free self.old page) page }
    {
        let span = block.pages();
        let pages = Pieces {
            order: 0,
            first: span.start,
            last: span.end - 1,
        };
        while let Some(inside) = self.lowest(pages) {
            self.remove(inside);
        }
    }

    /// Marks the pages of a block as held.
    fn hold_block(&mut self, block: Block)
        requires { block.number * 2 ^ block.order + 2 ^ block.order ≤ length self.old }
        ensures size { length self.new ≡ length self.old }
        ensures marked { (page : ℕ) → is_free self.new page ≡ is_marked (numbered block.order block.number) false (is_free self.old page) page }
    {
        match self.around(block) {
            Some(free) => self.split(Found { free, piece: block }),
            None => self.clear_inside(block),
        }
    }

    /// Marks the pages of a block as free.
    fn free_block(&mut self, block: Block)
        requires { block.number * 2 ^ block.order + 2 ^ block.order ≤ length self.old }
        ensures size { length self.new ≡ length self.old }
        ensures marked { (page : ℕ) → is_free self.new page ≡ is_marked (numbered block.order block.number) true (is_free self.old page) page }
    {
        match self.around(block) {
            Some(_) => {}
            None => {
                self.clear_inside(block);
                self.give_block(block);
            }
        }
    }

    /// Marks the pages of a block as free or held.
    fn mark_block(&mut self, block: Block, free: bool)
        requires { block.number * 2 ^ block.order + 2 ^ block.order ≤ length self.old }
        ensures size { length self.new ≡ length self.old }
        ensures marked { (page : ℕ) → is_free self.new page ≡ is_marked (numbered block.order block.number) free (is_free self.old page) page }
    {
        if free {
            self.free_block(block);
        } else {
            self.hold_block(block);
        }
    }

    /// Marks the pages of a span as free or held.
    pub fn mark(&mut self, span: Span, free: bool)
        requires { span.end ≤ length self.old }
        ensures size { length self.new ≡ length self.old }
        ensures marked { (page : ℕ) → is_free self.new page ≡ is_marked span free (is_free self.old page) page }
    {
        let mut start = span.start;
        while start < span.end {
            let block = largest_at(start, span.end);
            self.mark_block(block, free);
            start += block_len(block.order);
        }
    }

    /// Marks the pages of a span, all of which are held, as free. It doesn't look for free blocks inside the span, as `mark`
    /// does.
    pub fn give(&mut self, span: Span)
        requires end { span.end ≤ length self.old }
        requires held { (page : ℕ) → has_page page span ≡ true → is_free self.old page ≡ false }
        ensures size { length self.new ≡ length self.old }
        ensures marked { (page : ℕ) → is_free self.new page ≡ is_marked span true (is_free self.old page) page }
    {
        let mut start = span.start;
        while start < span.end {
            let block = largest_at(start, span.end);
            self.give_block(block);
            start += block_len(block.order);
        }
    }

    /// Finds the least order of the free blocks from which a block of the order `order` inside a range can be split.
    pub fn least_whole(&self, range: Span, order: u32) -> Option<u32>
        ensures least { LeastWholeOf (is_free self.now) (length self.now) range order result }
        ensures small { IfSome result (λ whole. whole < 32) }
    {
        let request = Request {
            order,
            range,
            topdown: false,
        };
        let pieces = self.pieces(request)?;
        let block = self.lowest(pieces)?;
        Some(block.order)
    }

    /// Finds the block of the order `order` inside a range that would be split first from a free block of the order `whole`:
    /// the lowest, or for `topdown` the highest.
    pub fn first_piece(&self, range: Span, topdown: bool, order: u32, whole: u32) -> Option<Span>
        requires order { order ≤ whole }
        requires whole { whole < 32 }
        ensures first { FirstPieceOf (is_free self.now) (length self.now) range topdown order whole result }
        ensures within { IfSome result (λ block. block.end ≤ length self.now) }
        ensures small { IfSome result (λ block. block.end < 2 ^ 31) }
    {
        let request = Request {
            order,
            range,
            topdown,
        };
        let found = self.find(request, whole)?;
        Some(found.piece.pages())
    }

    /// Finds the free block of the order `order` inside a range that is split from the smallest free block: among equals the
    /// lowest, or for `topdown` the highest. None means that there is no such block.
    pub fn candidate(&self, range: Span, topdown: bool, order: u32) -> Option<Span>
        ensures choice { (test : ℕ → Bool) → ((page : ℕ) → page < length self.now → test page ≡ is_free self.now page) → option_map (λ c. c.block) (candidate test (length self.now) range topdown order) ≡ result }
        ensures free { IfSome result (λ block. (page : ℕ) → has_page page block ≡ true → is_free self.now page ≡ true) }
        ensures within { IfSome result (λ block. block.end ≤ length self.now) }
        ensures small { IfSome result (λ block. block.end < 2 ^ 31) }
        ensures len { IfSome result (λ block. block.end ≡ block.start + 2 ^ order) }
    {
        let request = Request {
            order,
            range,
            topdown,
        };
        let found = self.choose(request)?;
        Some(found.piece.pages())
    }

    /// Takes the block that `candidate` returns, which is then held. None means that there is no such block, and changes
    /// nothing.
    pub fn take(&mut self, range: Span, topdown: bool, order: u32) -> Option<Span>
        ensures choice { (test : ℕ → Bool) → ((page : ℕ) → page < length self.old → test page ≡ is_free self.old page) → option_map (λ c. c.block) (candidate test (length self.old) range topdown order) ≡ result }
        ensures size { length self.new ≡ length self.old }
        ensures taken { IfSome result (λ block. (page : ℕ) → is_free self.new page ≡ is_marked block false (is_free self.old page) page) }
        ensures none { result ≡ None → self.new ≡ self.old }
        ensures free { IfSome result (λ block. (page : ℕ) → has_page page block ≡ true → is_free self.old page ≡ true) }
        ensures within { IfSome result (λ block. block.end ≤ length self.old) }
        ensures small { IfSome result (λ block. block.end < 2 ^ 31) }
        ensures len { IfSome result (λ block. block.end ≡ block.start + 2 ^ order) }
    {
        let request = Request {
            order,
            range,
            topdown,
        };
        let found = self.choose(request)?;
        self.split(found);
        Some(found.piece.pages())
    }
}
