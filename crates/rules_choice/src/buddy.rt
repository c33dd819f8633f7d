ghost use Rattle.std.specs.Prelude.{◌≡◌, ◌+◌, ◌<◌, ◌≤◌, ◌^◌, IfOk, Some, length, option_map};
ghost use Rattle.ttm_base.specs.BuddyChoice as words;
ghost use Rattle.rules_choice.specs.Marks.{marked, IsWithout};

use crate::blocks::FreePages;
use crate::candidates::{candidate, first_candidate};
use crate::pages::take_span;
use place_list::spans::length_of;
use std::alloc::Global;
use ttm_base::{NoMemory, Span, Spans, log2, order_of};

/// Returns the free pages without those of `block`, which was taken.
fn without(free: FreePages, block: Span) -> FreePages
    ensures { IsWithout free.marks.items block result.marks.items }
{
    let FreePages { mut marks } = free;
    take_span(&mut marks, block);
    FreePages { marks }
}

/// Takes block after block until no page is left of `pages`, each as large as can be. Returns `None` if there are too few blocks.
fn scattered(
    alloc: Global,
    free: FreePages,
    range: Span,
    topdown: bool,
    pages: u32,
) -> Result<Option<Spans>, NoMemory>
    ensures { IfOk result (λ found. found ≡ words.scattered pages (marked free.marks.items) (length free.marks.items) range topdown pages) }
{
    let mut rest = free;
    let mut left = pages;
    let mut spans = Spans::new(alloc);
    for _block in 0..pages {
        if left == 0 {
            return Ok(Some(spans));
        }
        match first_candidate(&rest, range, topdown, log2(left) + 1) {
            None => return Ok(None),
            Some(found) => {
                spans.push(found.block)?;
                left = left.saturating_sub(length_of(found.block));
                rest = without(rest, found.block);
            }
        }
    }
    if left == 0 { Ok(Some(spans)) } else { Ok(None) }
}

/// Takes one block of the next power of two, cut to `pages` pages. Returns `None` if there is none.
fn contiguous(
    alloc: Global,
    free: &FreePages,
    range: Span,
    topdown: bool,
    pages: u32,
) -> Result<Option<Spans>, NoMemory>
    ensures { IfOk result (λ found. found ≡ words.contiguous (marked free.now.marks.items) (length free.now.marks.items) range topdown pages) }
{
    match candidate(free, range, topdown, order_of(pages)) {
        None => Ok(None),
        Some(found) => {
            let cut = Span {
                start: found.block.start,
                end: found.block.start + pages,
            };
            Ok(Some(Spans::from_slice(alloc, &[cut])?))
        }
    }
}

/// Returns the blocks that a request takes among marked pages: one for a contiguous request, else block after block. `None` if the request
/// can't be met.
pub fn buddy_choice(
    alloc: Global,
    marks: Vec<bool>,
    range: Span,
    topdown: bool,
    contig: bool,
    pages: u32,
) -> Result<Option<Spans>, NoMemory>
    requires { length marks.items < 2 ^ 32 }
    ensures { IfOk result (λ found. found ≡ words.buddy_choice (marked marks.items) (length marks.items) range topdown contig pages) }
{
    let free = FreePages { marks };
    if contig {
        contiguous(alloc, &free, range, topdown, pages)
    } else {
        scattered(alloc, free, range, topdown, pages)
    }
}
