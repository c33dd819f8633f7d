ghost use Rattle.std.specs.Prelude.{◌≡◌, ◌+◌, ◌-◌, ◌*◌, ◌/◌, ◌<◌, ◌≤◌, ◌^◌, ℕ, false, true, min, slice_index};
ghost use Rattle.ttm_base.specs.BlockStarts.{starts_of};
ghost use Rattle.rules_choice.specs.Settled.{IsOutside};

use crate::blocks::block_len;
use ttm_base::Span;

/// Counts the blocks of order `order` among `size` pages.
fn blocks_of(order: u32, size: usize) -> usize
    requires { order ≤ 32 }
    ensures { result ≡ size / 2 ^ order }
{
    size / block_len(order)
}

/// Returns the start of the `i`-th block of order `order` that is looked at, from the top down for `topdown`.
pub fn start_at(topdown: bool, order: u32, size: usize, i: usize) -> usize
    requires order { order ≤ 32 }
    requires size { size < 2 ^ 32 }
    requires there { i < size / 2 ^ order }
    ensures value { result ≡ slice_index (starts_of topdown order size) i }
    ensures small { result < 2 ^ 32 }
{
    let block = if topdown {
        blocks_of(order, size) - 1 - i
    } else {
        i
    };
    block * block_len(order)
}

/// Counts the blocks of order `order` that end at or before the start of `range` or have its first page inside them.
fn blocks_before(range: Span, order: u32) -> usize
    requires { order ≤ 32 }
    ensures { result ≡ (range.start + 2 ^ order - 1) / 2 ^ order }
{
    let len = block_len(order);
    (range.start as usize + len - 1) / len
}

/// Counts the blocks of order `order` among `size` pages that end within `range` or before it.
fn blocks_to(range: Span, order: u32, size: usize) -> usize
    requires { order ≤ 32 }
    ensures { result ≡ min range.end size / 2 ^ order }
{
    blocks_of(order, size.min(range.end as usize))
}

/// Returns a number of blocks of order `order`, in the order of looks, which all are outside `range`: a look may begin after them.
pub fn first_inside(range: Span, topdown: bool, order: u32, size: usize) -> usize
    requires order { order ≤ 32 }
    requires size { size < 2 ^ 32 }
    ensures outside { (i : ℕ) → i < result → i < size / 2 ^ order → IsOutside range topdown order size i }
    ensures small { result < 2 ^ 33 }
{
    if topdown {
        blocks_of(order, size) - blocks_to(range, order, size)
    } else {
        blocks_before(range, order)
    }
}

/// Returns a number of blocks of order `order`, in the order of looks, after which all are outside `range`: a look may end there.
pub fn end_inside(range: Span, topdown: bool, order: u32, size: usize) -> usize
    requires order { order ≤ 32 }
    requires size { size < 2 ^ 32 }
    ensures outside { (i : ℕ) → result ≤ i → i < size / 2 ^ order → IsOutside range topdown order size i }
    ensures within { result ≤ size / 2 ^ order }
{
    if topdown {
        blocks_of(order, size).saturating_sub(blocks_before(range, order))
    } else {
        blocks_to(range, order, size)
    }
}

/// Counts the blocks of order `order` from the one at `start` on, from the top down for `topdown`, that begin in the block of order `whole`
/// around `start`.
pub fn blocks_left(topdown: bool, order: u32, whole: u32, start: usize) -> usize
    requires order { order ≤ 32 }
    requires whole { whole < 64 }
    requires start { start < 2 ^ 32 }
    ensures some { 0 < result }
    ensures small { result ≤ 2 ^ 63 }
    ensures up { topdown ≡ false → (n : ℕ) → n < result → (start + n * 2 ^ order) / 2 ^ whole ≡ start / 2 ^ whole }
    ensures down { topdown ≡ true → (n : ℕ) → n < result → (start - n * 2 ^ order) / 2 ^ whole ≡ start / 2 ^ whole }
{
    let len = block_len(whole);
    let first = start / len * len;
    let pages = if topdown {
        start - first
    } else {
        first + len - 1 - start
    };
    pages / block_len(order) + 1
}
