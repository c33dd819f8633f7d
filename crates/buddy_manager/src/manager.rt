ghost use Rattle.std.specs.Prelude.{◌≡◌, ◌+◌, ◌^◌, ◌<◌, ◌≤◌, ◌==◌, true, [], Some, None, length, Decides, IfOk, OnOk, OnErr};
ghost use Rattle.std.specs.List.{find};
ghost use Rattle.ttm_base.specs.BuddyChoice.{buddy_choice};
ghost use Rattle.ttm_base.specs.Holes.{is_free_beside};
ghost use Rattle.ttm_base.specs.Reach.{length_of};
ghost use Rattle.buddy_manager.specs.Held.{with_block, with_blocks, without, without_all, is_held, pages_of, AreHeld};
ghost use Rattle.buddy_manager.specs.Taking.{AreTaken};

use crate::choice::{find_choice, free_spans, take_choice, take_spans};
use crate::ends::{are_held, block_count, block_from, cut, hold, is_held, let_go, pages_of};
use crate::{AllocFault, BuddyFlags};
use block_tree::FreeBlocks;
use sparse_table::SparseTable;
use std::alloc::Global;
use std::marker::Model;
use ttm_base::{NoMemory, Span, Spans};

/// The greatest number of pages of a manager.
const MOST_PAGES: u32 = i32::MAX as u32;

/// A manager of the pages of a memory type by blocks, seen as the number of pages and the blocks that are held. The other
/// pages are free.
pub struct BuddyManager {
    free: FreeBlocks,
    ends: SparseTable,
    used: u32,
}

/// Names each part, so that no crate above proves how they are dropped.
impl Drop for BuddyManager {
    fn drop(self) {
        let Self {
            free: _,
            ends: _,
            used: _,
        } = self;
    }
}

impl Model for BuddyManager {
    ghost use Rattle.std.specs.Prelude.{length};
    ghost use Rattle.buddy_manager.specs.Held.{Managed};

    ghost Value = { Managed };

    ghost use Rattle.buddy_manager.specs.Held.{held_from};
    ghost use Rattle.buddy_manager.specs.Taking.{IsManaged};

    ghost view = { λ m. record { size = length m.free; held = held_from 0 m.ends } };

    ghost invariant = { λ m. IsManaged m.free m.ends m.used };
}

impl BuddyManager {
    /// Returns a manager of `pages` pages, all of them free. A manager has room for fewer than 2^31 pages: for more the
    /// answer is `NoMemory`.
    pub fn new(alloc: Global, pages: u32) -> Result<BuddyManager, NoMemory>
        ensures size { IfOk result (λ manager. manager.size ≡ pages) }
        ensures held { IfOk result (λ manager. manager.held ≡ []) }
        ensures most { OnOk result (pages < 2 ^ 31) }
    {
        if pages > MOST_PAGES {
            return Err(NoMemory);
        }
        let free = FreeBlocks::new(alloc, pages)?;
        let ends = SparseTable::new(alloc, pages)?;
        Ok(BuddyManager {
            free,
            ends,
            used: 0,
        })
    }

    /// Finds the blocks that `alloc` would take, and puts them into `out` in their order. None of them is taken: the manager
    /// stays as it was, whatever the answer.
    pub fn choice(
        &mut self,
        pages: u32,
        first: u32,
        last: u32,
        flags: BuddyFlags,
        out: &mut Spans,
    ) -> Result<(), AllocFault>
        requires empty { out.old ≡ [] }
        requires some { 1 ≤ pages }
        ensures same { self.new ≡ self.old }
        ensures ok { OnOk result (buddy_choice (is_free_beside self.old.held) self.old.size (record { start = first; end = last }) flags.topdown flags.contig pages ≡ Some out.new) }
        ensures none { result ≡ Err AllocFault.NoBlocks → buddy_choice (is_free_beside self.old.held) self.old.size (record { start = first; end = last }) flags.topdown flags.contig pages ≡ None }
        ensures free { OnOk result (AreTaken (is_free_beside self.old.held) self.old.size out.new) }
        ensures empty { OnErr result (out.new ≡ []) }
    {
        let range = Span {
            start: first,
            end: last,
        };
        find_choice(&mut self.free, range, flags, pages, out)?;
        Ok(())
    }

    /// Takes blocks for `pages` pages from page `first` up to page `last`, and puts them into `out`, in the order of the
    /// buddy choice. After an error nothing is changed.
    pub fn alloc(
        &mut self,
        pages: u32,
        first: u32,
        last: u32,
        flags: BuddyFlags,
        out: &mut Spans,
    ) -> Result<(), AllocFault>
        requires empty { out.old ≡ [] }
        requires some { 1 ≤ pages }
        ensures size { self.new.size ≡ self.old.size }
        ensures ok { OnOk result (buddy_choice (is_free_beside self.old.held) self.old.size (record { start = first; end = last }) flags.topdown flags.contig pages ≡ Some out.new) }
        ensures held { OnOk result (self.new.held ≡ with_blocks out.new self.old.held) }
        ensures free { OnOk result (AreTaken (is_free_beside self.old.held) self.old.size out.new) }
        ensures given { OnOk result (AreHeld out.new self.new.held) }
        ensures back { OnOk result (without_all out.new self.new.held ≡ self.old.held) }
        ensures none { result ≡ Err AllocFault.NoBlocks → buddy_choice (is_free_beside self.old.held) self.old.size (record { start = first; end = last }) flags.topdown flags.contig pages ≡ None }
        ensures same { OnErr result (self.new ≡ self.old) }
        ensures empty { OnErr result (out.new ≡ []) }
    {
        let range = Span {
            start: first,
            end: last,
        };
        take_choice(&mut self.free, range, flags, pages, out)?;
        let Ok(()) = hold(&mut self.ends, out.items()) else {
            free_spans(&mut self.free, out.items());
            out.clear();
            return Err(AllocFault::NoMemory);
        };
        self.used += pages_of(out.items());
        Ok(())
    }

    /// Holds the blocks `spans`, as a journal names them. Where memory is refused nothing is changed.
    pub fn hold(&mut self, spans: &Spans) -> Result<(), NoMemory>
        requires { AreTaken (is_free_beside self.old.held) self.old.size spans.now }
        ensures size { self.new.size ≡ self.old.size }
        ensures held { OnOk result (self.new.held ≡ with_blocks spans.now self.old.held) }
        ensures same { OnErr result (self.new ≡ self.old) }
    {
        hold(&mut self.ends, spans.items())?;
        take_spans(&mut self.free, spans.items());
        self.used += pages_of(spans.items());
        Ok(())
    }

    /// Returns whether a block is held, as it was given out or as `trim` left it.
    pub fn is_held(&self, block: Span) -> bool
        ensures { result ≡ is_held block self.now.held }
    {
        is_held(&self.ends, block)
    }

    /// Returns whether blocks are distinct and each is held. It compares each with those after it.
    pub fn are_held(&self, blocks: &Spans) -> bool
        ensures { Decides result (AreHeld blocks.now self.now.held) }
    {
        are_held(&self.ends, blocks.items())
    }

    /// Finds the held block that begins at page `start`.
    pub fn held_from(&self, start: u32) -> Option<Span>
        ensures { result ≡ find (λ block. block.start == start) self.now.held }
    {
        block_from(&self.ends, start)
    }

    /// Counts the blocks that are held. It costs a step for each page.
    pub fn block_count(&self) -> usize
        ensures { result ≡ length self.now.held }
    {
        block_count(&self.ends)
    }

    /// Gives back blocks that are held. It takes no memory.
    pub fn release(&mut self, spans: &Spans)
        requires { AreHeld spans.now self.old.held }
        ensures size { self.new.size ≡ self.old.size }
        ensures held { self.new.held ≡ without_all spans.now self.old.held }
    {
        let_go(&mut self.ends, spans.items());
        free_spans(&mut self.free, spans.items());
        self.used -= pages_of(spans.items());
    }

    /// Gives back a block that is held. It takes no memory.
    pub fn release_block(&mut self, block: Span)
        requires { is_held block self.old.held ≡ true }
        ensures size { self.new.size ≡ self.old.size }
        ensures held { self.new.held ≡ without block self.old.held }
    {
        self.ends.replace(block.start as usize, 0);
        self.free.give(block);
        self.used -= block.end - block.start;
    }

    /// Gives back the pages of a held block beyond the first `keep`. It takes no memory.
    pub fn trim(&mut self, span: Span, keep: u32)
        requires held { is_held span self.old.held ≡ true }
        requires some { 1 ≤ keep }
        requires most { keep ≤ length_of span }
        ensures size { self.new.size ≡ self.old.size }
        ensures held { self.new.held ≡ with_block (record { start = span.start; end = span.start + keep }) (without span self.old.held) }
    {
        cut(&mut self.ends, span, keep);
        let rest = Span {
            start: span.start + keep,
            end: span.end,
        };
        self.free.give(rest);
        self.used -= rest.end - rest.start;
    }

    /// Returns how many pages are free, and how many are used.
    pub fn lengths(&self) -> (u32, u32)
        ensures used { result.1 ≡ pages_of self.now.held }
        ensures sum { result.0 + result.1 ≡ self.now.size }
    {
        (self.free.size() - self.used, self.used)
    }
}
