ghost use Rattle.std.specs.Prelude.{◌≡◌, ◌+◌, ◌*◌, ◌/◌, ◌<◌, ◌≤◌, ◌^◌, Some, length, option_map};
ghost use Rattle.ttm_base.specs.BuddyChoice as words;
ghost use Rattle.ttm_base.specs.BlockStarts.{candidate_at};
ghost use Rattle.rules_choice.specs.Marks.{marked};
ghost use Rattle.rules_choice.specs.Least.{best_with, has_key, lesser_by};
ghost use Rattle.rules_choice.specs.Candidates.{candidate_of};
ghost use Rattle.rules_choice.specs.Settled.{IsSettled};

use crate::blocks::{FreeBlock, FreePages, block_len};
use crate::turns::{blocks_left, end_inside, first_inside, start_at};
use place_list::spans::is_inside;
use ttm_base::Span;

/// Returns the block of order `order` around the page `start`, if it is free and inside `range`.
fn candidate_at(free: &FreePages, range: Span, order: u32, start: usize) -> Option<FreeBlock>
    requires order { order ≤ 32 }
    requires start { start < 2 ^ 32 }
    ensures { option_map candidate_of result ≡ candidate_at (marked free.now.marks.items) (length free.now.marks.items) range order start }
{
    if !free.is_free_block(order, start) {
        return None;
    }
    let len = block_len(order);
    let first = start / len * len;
    let block = Span {
        start: first as u32,
        end: (first + len) as u32,
    };
    if is_inside(range, block) {
        Some(FreeBlock {
            block,
            whole: free.free_order(order, first),
        })
    } else {
        None
    }
}

/// Returns `best`, the candidate so far, or `next`, which comes after it, if that is split from a smaller block.
fn lesser(best: Option<FreeBlock>, next: FreeBlock) -> FreeBlock
    ensures { candidate_of result ≡ lesser_by (λ c. c.whole) (option_map candidate_of best) (candidate_of next) }
{
    match best {
        Some(least) if least.whole <= next.whole => least,
        _ => next,
    }
}

/// Returns `best`, the candidate so far, or the block of order `order` at `start`, if it is a candidate and is split from a smaller block.
/// Where the block around `start` of the order from which `best` is split is free, `best` stays.
fn next_best(
    free: &FreePages,
    range: Span,
    order: u32,
    start: usize,
    best: Option<FreeBlock>,
) -> Option<FreeBlock>
    requires order { order ≤ 32 }
    requires start { start < 2 ^ 32 }
    ensures { option_map candidate_of result ≡ best_with (λ c. c.whole) (option_map candidate_of best) (candidate_at (marked free.now.marks.items) (length free.now.marks.items) range order start) }
{
    if let Some(least) = best {
        if free.is_free_block(least.whole, start) {
            return best;
        }
    }
    match candidate_at(free, range, order, start) {
        Some(next) => Some(lesser(best, next)),
        None => best,
    }
}

/// Returns whether `best` is split from no greater block: no other is split from a smaller one.
fn is_whole(best: Option<FreeBlock>, order: u32) -> bool
    ensures { result ≡ has_key (λ c. c.whole) order (option_map candidate_of best) }
{
    match best {
        Some(least) => least.whole == order,
        None => false,
    }
}

/// Returns the order of a block around `start` in which no block of order `order` is better than `best`, the candidate so far, if that at
/// `start` isn't.
fn settled_order(free: &FreePages, order: u32, start: usize, best: Option<FreeBlock>) -> u32
    requires order { order ≤ 32 }
    requires start { start < length free.now.marks.items }
    ensures least { order ≤ result }
    ensures small { result < 64 }
    ensures settled { (range : Span) → IsSettled free.now.marks.items range order result start (option_map candidate_of best) }
{
    let alike = free.alike_order(order, start);
    match best {
        Some(least) if least.whole <= alike => alike,
        _ if free.marks[start] => order,
        _ => alike,
    }
}

/// Returns a free block of order `order`, split from the smallest one: among equals the lowest, or for `topdown` the highest. `None` if
/// there is none. It looks only at blocks inside `range`, and once at each larger block whose pages are all free or all held.
pub fn candidate(free: &FreePages, range: Span, topdown: bool, order: u32) -> Option<FreeBlock>
    requires { order ≤ 32 }
    ensures { option_map candidate_of result ≡ words.candidate (marked free.now.marks.items) (length free.now.marks.items) range topdown order }
{
    let size = free.marks.len();
    let end = end_inside(range, topdown, order, size);
    let mut best = None;
    let mut i = first_inside(range, topdown, order, size);
    while i < end {
        let start = start_at(topdown, order, size, i);
        best = next_best(free, range, order, start, best);
        if is_whole(best, order) {
            return best;
        }
        let settled = settled_order(free, order, start, best);
        i += blocks_left(topdown, order, settled, start);
    }
    best
}

/// Returns a candidate of the greatest order below `orders` that has one, or `None` if none has.
pub fn first_candidate(
    free: &FreePages,
    range: Span,
    topdown: bool,
    orders: u32,
) -> Option<FreeBlock>
    requires { orders ≤ 33 }
    ensures { option_map candidate_of result ≡ words.first_candidate (words.candidate (marked free.now.marks.items) (length free.now.marks.items) range topdown) orders }
{
    let mut order = orders;
    while order > 0 {
        order -= 1;
        let found = candidate(free, range, topdown, order);
        if found.is_some() {
            return found;
        }
    }
    None
}
