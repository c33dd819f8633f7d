//! For each page the end of the block that begins there. A page where no block begins has no end above it.
ghost use Rattle.std.specs.Prelude.{◌≡◌, ◌+◌, ◌^◌, ◌<◌, ◌≤◌, ◌==◌, true, length, OnOk, OnErr};
ghost use Rattle.std.specs.List.{find};
ghost use Rattle.ttm_base.specs.Holes.{is_free_beside};
ghost use Rattle.buddy_manager.specs.Held.{held_from, with_block, with_blocks, without, without_all, is_held, all_held, pages_of, AreHeld, IsApart};
ghost use Rattle.buddy_manager.specs.Taking.{AreTaken};

use sparse_table::SparseTable;
use ttm_base::{NoMemory, Span};

/// Holds blocks, one after the other. Where memory is refused none of them is held.
pub(crate) fn hold(ends: &mut SparseTable, blocks: &[Span]) -> Result<(), NoMemory>
    requires taken { AreTaken (is_free_beside (held_from 0 ends.old)) (length ends.old) blocks.now }
    requires apart { IsApart (held_from 0 ends.old) }
    ensures len { length ends.new ≡ length ends.old }
    ensures held { OnOk result (held_from 0 ends.new ≡ with_blocks blocks.now (held_from 0 ends.old)) }
    ensures same { OnErr result (held_from 0 ends.new ≡ held_from 0 ends.old) }
{
    for (i, block) in blocks.iter().enumerate() {
        let Ok(()) = ends.set(block.start as usize, block.end) else {
            let_go(ends, &blocks[..i]);
            return Err(NoMemory);
        };
    }
    Ok(())
}

/// Releases blocks, which are held.
pub(crate) fn let_go(ends: &mut SparseTable, blocks: &[Span])
    requires { AreHeld blocks.now (held_from 0 ends.old) }
    ensures len { length ends.new ≡ length ends.old }
    ensures held { held_from 0 ends.new ≡ without_all blocks.now (held_from 0 ends.old) }
{
    for block in blocks {
        ends.replace(block.start as usize, 0);
    }
}

/// Keeps the first `keep` pages of a held block, and releases the others.
pub(crate) fn cut(ends: &mut SparseTable, block: Span, keep: u32)
    requires held { is_held block (held_from 0 ends.old) ≡ true }
    requires some { 1 ≤ keep }
    requires most { block.start + keep ≤ block.end }
    ensures len { length ends.new ≡ length ends.old }
    ensures held { held_from 0 ends.new ≡ with_block (record { start = block.start; end = block.start + keep }) (without block (held_from 0 ends.old)) }
{
    ends.replace(block.start as usize, block.start + keep);
}

/// Returns whether a block is held.
pub(crate) fn is_held(ends: &SparseTable, block: Span) -> bool
    ensures { result ≡ is_held block (held_from 0 ends.now) }
{
    block.start < block.end && ends.get(block.start as usize) == block.end
}

/// Returns whether a block is one of `blocks`.
fn is_among(block: Span, blocks: &[Span]) -> bool
    ensures { result ≡ is_held block blocks.now }
{
    blocks.iter().any(|other| block.start == other.start && block.end == other.end)
}

/// Returns whether blocks are distinct and each is held. It compares each with those after it.
pub(crate) fn are_held(ends: &SparseTable, blocks: &[Span]) -> bool
    ensures { result ≡ all_held blocks.now (held_from 0 ends.now) }
{
    for (i, block) in blocks.iter().enumerate() {
        if is_among(*block, &blocks[i + 1..]) || !is_held(ends, *block) {
            return false;
        }
    }
    true
}

/// Finds the held block that begins at page `start`.
pub(crate) fn block_from(ends: &SparseTable, start: u32) -> Option<Span>
    ensures { result ≡ find (λ block. block.start == start) (held_from 0 ends.now) }
{
    let end = ends.get(start as usize);
    if start < end {
        Some(Span { start, end })
    } else {
        None
    }
}

/// Counts the blocks that are held.
pub(crate) fn block_count(ends: &SparseTable) -> usize
    requires { length ends.now < 2 ^ 32 }
    ensures { result ≡ length (held_from 0 ends.now) }
{
    let mut count = 0;
    for start in 0..ends.len() as u32 {
        if start < ends.get(start as usize) {
            count += 1;
        }
    }
    count
}

/// Counts the pages of blocks.
pub(crate) fn pages_of(blocks: &[Span]) -> u32
    requires { pages_of blocks.now < 2 ^ 32 }
    ensures { result ≡ pages_of blocks.now }
{
    let mut pages = 0;
    for block in blocks {
        pages += block.end.saturating_sub(block.start);
    }
    pages
}
