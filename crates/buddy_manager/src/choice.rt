ghost use Rattle.std.specs.Prelude.{◌≡◌, ℕ, ◌+◌, ◌<◌, ◌≤◌, ◌^◌, ◌∷◌, ◌++◌, ◌==◌, ◌||◌, Bool, false, [], Some, None, IfSome, IfOk, OnOk, OnErr, length, option_map, if◌then◌else◌};
ghost use Rattle.std.specs.List.{list_any};
ghost use Rattle.ttm_base.specs.Holes.{has_page};
ghost use Rattle.ttm_base.specs.BuddyChoice as words;
ghost use Rattle.block_tree.specs.FreeSet.{is_free};
ghost use Rattle.block_tree.specs.Masks.{is_marked};
ghost use Rattle.buddy_manager.specs.Taking.{AreGiven, AreTaken, CanTake, Tells, IsTakenBy, IsSame};

use crate::find::find_blocks;
use crate::{AllocFault, BuddyFlags};
use block_tree::FreeBlocks;
use ttm_base::{Span, Spans, log2, order_of};

/// Takes the block of the greatest order below `orders` that has one. None means that there is no such block, and changes
/// nothing.
fn take_block(free: &mut FreeBlocks, range: Span, topdown: bool, orders: u32) -> Option<Span>
    ensures choice { (test : ℕ → Bool) → Tells test free.old → option_map (λ c. c.block) (words.first_candidate (words.candidate test (length free.old) range topdown) orders) ≡ result }
    ensures can { IfSome result (CanTake (is_free free.old) (length free.old)) }
    ensures size { length free.new ≡ length free.old }
    ensures taken { IfSome result (λ block. (page : ℕ) → is_free free.new page ≡ is_marked block false (is_free free.old page) page) }
    ensures less { (pages : ℕ) → ((order : ℕ) → order < orders → 2 ^ order < pages) → IfSome result (λ block. block.end < block.start + pages) }
    ensures none { result ≡ None → free.new ≡ free.old }
{
    let mut order = orders;
    while order > 0 {
        order -= 1;
        if let Some(block) = free.take(range, topdown, order) {
            return Some(block);
        }
    }
    None
}

/// Takes block after block until no page is left to take. After an error the blocks that were taken are in `out`.
fn scattered(
    free: &mut FreeBlocks,
    range: Span,
    topdown: bool,
    pages: u32,
    out: &mut Spans,
) -> Result<(), AllocFault>
    requires { out.old ≡ [] }
    ensures taken { IsTakenBy free.old out.new free.new }
    ensures ok { OnOk result ((test : ℕ → Bool) → Tells test free.old → words.scattered pages test (length free.old) range topdown pages ≡ Some out.new) }
    ensures none { result ≡ Err AllocFault.NoBlocks → (test : ℕ → Bool) → Tells test free.old → words.scattered pages test (length free.old) range topdown pages ≡ None }
{
    let mut left = pages;
    for _block in 0..pages {
        if left == 0 {
            return Ok(());
        }
        let Some(block) = take_block(free, range, topdown, log2(left) + 1) else {
            return Err(AllocFault::NoBlocks);
        };
        let Ok(()) = out.push(block) else {
            free.give(block);
            return Err(AllocFault::NoMemory);
        };
        left = left.saturating_sub(block.end - block.start);
    }
    if left == 0 {
        Ok(())
    } else {
        Err(AllocFault::NoBlocks)
    }
}

/// Finds one block of the next power of two, cut to `pages` pages, and takes nothing.
fn find_block(
    free: &FreeBlocks,
    range: Span,
    topdown: bool,
    pages: u32,
    out: &mut Spans,
) -> Result<(), AllocFault>
    requires empty { out.old ≡ [] }
    requires some { 1 ≤ pages }
    ensures can { OnOk result (AreTaken (is_free free.now) (length free.now) out.new) }
    ensures ok { OnOk result ((test : ℕ → Bool) → Tells test free.now → words.contiguous test (length free.now) range topdown pages ≡ Some out.new) }
    ensures none { result ≡ Err AllocFault.NoBlocks → (test : ℕ → Bool) → Tells test free.now → words.contiguous test (length free.now) range topdown pages ≡ None }
    ensures empty { OnErr result (out.new ≡ []) }
{
    let Some(block) = free.candidate(range, topdown, order_of(pages)) else {
        return Err(AllocFault::NoBlocks);
    };
    let span = Span {
        start: block.start,
        end: block.start + pages,
    };
    let Ok(()) = out.push(span) else {
        return Err(AllocFault::NoMemory);
    };
    Ok(())
}

/// Takes one block of the next power of two, cut to `pages` pages.
fn contiguous(
    free: &mut FreeBlocks,
    range: Span,
    topdown: bool,
    pages: u32,
    out: &mut Spans,
) -> Result<(), AllocFault>
    requires empty { out.old ≡ [] }
    requires some { 1 ≤ pages }
    ensures taken { IsTakenBy free.old out.new free.new }
    ensures ok { OnOk result ((test : ℕ → Bool) → Tells test free.old → words.contiguous test (length free.old) range topdown pages ≡ Some out.new) }
    ensures none { result ≡ Err AllocFault.NoBlocks → (test : ℕ → Bool) → Tells test free.old → words.contiguous test (length free.old) range topdown pages ≡ None }
{
    find_block(free, range, topdown, pages, out)?;
    take_spans(free, out.items());
    Ok(())
}

/// Marks the pages of spans as held.
pub(crate) fn take_spans(free: &mut FreeBlocks, spans: &[Span])
    requires { AreTaken (is_free free.old) (length free.old) spans.now }
    ensures { IsTakenBy free.old spans.now free.new }
{
    for span in spans {
        free.mark(*span, false);
    }
}

/// Marks the pages of spans, all of which are held, as free.
pub(crate) fn free_spans(free: &mut FreeBlocks, spans: &[Span])
    requires { AreGiven (is_free free.old) (length free.old) spans.now }
    ensures size { length free.new ≡ length free.old }
    ensures freed { (page : ℕ) → is_free free.new page ≡ (is_free free.old page || list_any (has_page page) spans.now) }
{
    for span in spans {
        free.give(*span);
    }
}

/// Takes blocks one after the other, or one block, as `flags` say. After an error the blocks that were taken are in `out`.
fn take_blocks(
    free: &mut FreeBlocks,
    range: Span,
    flags: BuddyFlags,
    pages: u32,
    out: &mut Spans,
) -> Result<(), AllocFault>
    requires empty { out.old ≡ [] }
    requires some { 1 ≤ pages }
    ensures taken { IsTakenBy free.old out.new free.new }
    ensures ok { OnOk result ((test : ℕ → Bool) → Tells test free.old → words.buddy_choice test (length free.old) range flags.topdown flags.contig pages ≡ Some out.new) }
    ensures none { result ≡ Err AllocFault.NoBlocks → (test : ℕ → Bool) → Tells test free.old → words.buddy_choice test (length free.old) range flags.topdown flags.contig pages ≡ None }
{
    if flags.contig {
        contiguous(free, range, flags.topdown, pages, out)
    } else {
        scattered(free, range, flags.topdown, pages, out)
    }
}

/// Takes the blocks of the choice, and puts them into `out` in the order in which they are taken. After an error nothing is
/// taken.
pub(crate) fn take_choice(
    free: &mut FreeBlocks,
    range: Span,
    flags: BuddyFlags,
    pages: u32,
    out: &mut Spans,
) -> Result<(), AllocFault>
    requires empty { out.old ≡ [] }
    requires some { 1 ≤ pages }
    ensures taken { OnOk result (IsTakenBy free.old out.new free.new) }
    ensures ok { OnOk result ((test : ℕ → Bool) → Tells test free.old → words.buddy_choice test (length free.old) range flags.topdown flags.contig pages ≡ Some out.new) }
    ensures none { result ≡ Err AllocFault.NoBlocks → (test : ℕ → Bool) → Tells test free.old → words.buddy_choice test (length free.old) range flags.topdown flags.contig pages ≡ None }
    ensures same { OnErr result (IsSame free.old free.new) }
    ensures empty { OnErr result (out.new ≡ []) }
{
    match take_blocks(free, range, flags, pages, out) {
        Ok(()) => Ok(()),
        Err(fault) => {
            free_spans(free, out.items());
            out.clear();
            Err(fault)
        }
    }
}

/// Finds the blocks of the choice, and puts them into `out`. None of them stays taken.
pub(crate) fn find_choice(
    free: &mut FreeBlocks,
    range: Span,
    flags: BuddyFlags,
    pages: u32,
    out: &mut Spans,
) -> Result<(), AllocFault>
    requires empty { out.old ≡ [] }
    requires some { 1 ≤ pages }
    ensures can { OnOk result (AreTaken (is_free free.old) (length free.old) out.new) }
    ensures same { IsSame free.old free.new }
    ensures ok { OnOk result ((test : ℕ → Bool) → Tells test free.old → words.buddy_choice test (length free.old) range flags.topdown flags.contig pages ≡ Some out.new) }
    ensures none { result ≡ Err AllocFault.NoBlocks → (test : ℕ → Bool) → Tells test free.old → words.buddy_choice test (length free.old) range flags.topdown flags.contig pages ≡ None }
    ensures empty { OnErr result (out.new ≡ []) }
{
    if flags.contig {
        find_block(free, range, flags.topdown, pages, out)
    } else {
        find_blocks(free, range, flags.topdown, pages, out)
    }
}
