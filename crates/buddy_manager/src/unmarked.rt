//! What is left of the free blocks while blocks that were found stay unmarked: after a free block that was found whole, and
//! after one from which a block was split.
ghost use Rattle.std.specs.Prelude.{◌≡◌, ℕ, ◌+◌, ◌*◌, ◌/◌, ◌^◌, ◌<◌, ◌≤◌, Bool, true, length};
ghost use Rattle.ttm_base.specs.Reach.{is_inside};
ghost use Rattle.ttm_base.specs.BuddyChoice as words;
ghost use Rattle.block_tree.specs.Searching.{numbered, IsAhead};
ghost use Rattle.buddy_manager.specs.Taking.{less};
ghost use Rattle.buddy_manager.specs.Finding.{IsEven, IsBeside, IsFirstIn, HasNumbers, HasRoom, IsKnown, IsFound, IsFoundFree, behind, rest_of};

use block_tree::block_len;
use ttm_base::Span;

/// The half that is left of a block whose other half was found or split, by its order and its number among the blocks of
/// that order.
#[derive(Clone, Copy)]
pub struct Half {
    pub order: u32,
    pub number: u32,
}

/// The origin of a block: what it was split from, or is.
#[derive(Clone, Copy)]
pub enum Origin {
    /// A free block of this order.
    Free(u32),
    Spare(Half),
}

/// A block that was found.
#[derive(Clone, Copy)]
pub struct Found {
    pub block: Span,
    pub origin: Origin,
}

/// Returns what is left of a range behind a block, in the direction in which blocks are taken.
fn behind(range: Span, topdown: bool, block: Span) -> Span
    ensures { result ≡ behind topdown range block }
{
    if topdown {
        Span {
            start: range.start,
            end: block.start,
        }
    } else {
        Span {
            start: block.end,
            end: range.end,
        }
    }
}

/// Returns true only if no block of the order `order` lies across that end of a range from which blocks are taken.
pub(crate) fn is_even(range: Span, topdown: bool, order: u32, size: u32) -> bool
    requires { order ≤ 31 }
    ensures { result ≡ true → IsEven topdown range size order }
{
    let len = block_len(order);
    if topdown {
        range.end % len == 0 || size <= range.end
    } else {
        range.start % len == 0
    }
}

/// Returns the part of the range in which free blocks of the order `order` are left.
pub(crate) fn rest_of(rests: &[Span], order: u32) -> Span
    requires { order < length rests.now }
    ensures { result ≡ rest_of rests.now order }
{
    rests[order as usize]
}

/// Returns whether all pages of a block are in a range.
fn is_inside(range: Span, block: Span) -> bool
    ensures { result ≡ is_inside range block }
{
    range.start <= block.start && block.end <= range.end
}

/// Returns the pages of the block with the order `order` and the number `number`.
fn span_of(order: u32, number: u32) -> Span
    requires order { order ≤ 31 }
    requires small { number * 2 ^ order + 2 ^ order ≤ 2 ^ 31 }
    ensures { result ≡ numbered order number }
{
    let len = block_len(order);
    let start = number * len;
    Span {
        start,
        end: start + len,
    }
}

/// Returns the block of the order `order` that has the page `page`.
fn block_around(order: u32, page: u32) -> Span
    requires order { order ≤ 31 }
    requires small { page < 2 ^ 31 }
    ensures { result ≡ words.block_around order page }
{
    let len = block_len(order);
    let start = page / len * len;
    Span {
        start,
        end: start + len,
    }
}

/// Returns the buddy of a block: the other half of the block of which it is a half.
fn half_beside(order: u32, block: Span) -> Half
    requires order { order ≤ 30 }
    requires small { block.start < 2 ^ 31 }
    ensures order { result.order ≡ order }
    ensures number { IsBeside (block.start / 2 ^ order) result.number }
    ensures numbers { result.number * 2 ^ order + 2 ^ order ≤ 2 ^ 31 }
{
    let number = block.start / block_len(order);
    let beside = if number % 2 == 0 {
        number + 1
    } else {
        number - 1
    };
    Half {
        order,
        number: beside,
    }
}

/// Returns the number of the first block of the order `order` in a half.
fn first_number(half: Half, topdown: bool, order: u32) -> u32
    requires order { order < half.order }
    requires most { half.order ≤ 31 }
    requires numbers { half.number * 2 ^ half.order + 2 ^ half.order ≤ 2 ^ 31 }
    ensures within { result * 2 ^ order / 2 ^ half.order ≡ half.number }
    ensures first { (m : ℕ) → m * 2 ^ order / 2 ^ half.order ≡ half.number → IsAhead topdown result m }
{
    let blocks = block_len(half.order - order);
    if topdown {
        half.number * blocks + (blocks - 1)
    } else {
        half.number * blocks
    }
}

/// Returns the first block of the order `order` in a half.
pub(crate) fn first_in(half: Half, topdown: bool, order: u32) -> Span
    requires order { order < half.order }
    requires most { half.order ≤ 31 }
    requires numbers { half.number * 2 ^ half.order + 2 ^ half.order ≤ 2 ^ 31 }
    ensures { IsFirstIn half topdown order result }
{
    span_of(order, first_number(half, topdown, order))
}

/// Returns true only if the free blocks of an order are left behind the block, from which they were found: none of that
/// order lies across the end of its rest, and the block is inside the rest.
fn is_clear(rest: Span, topdown: bool, order: u32, size: u32, block: Span) -> bool
    requires { order ≤ 31 }
    ensures even { result ≡ true → IsEven topdown rest size order }
    ensures inside { result ≡ true → is_inside rest block ≡ true }
{
    is_even(rest, topdown, order, size) && is_inside(rest, block)
}

/// Notes that a free block of the order `order` was found, or a block that is split from it. False means that what is left
/// can't be known without marking it.
fn note_free(
    rests: &mut [Span],
    half: &mut Option<Half>,
    topdown: bool,
    size: u32,
    order: u32,
    block: Span,
    whole: u32,
) -> bool
    requires count { length rests.old ≡ 32 }
    requires order { order ≤ 30 }
    requires whole { whole < 32 }
    requires small { block.start < 2 ^ 31 }
    ensures known { (f : ℕ → Bool) (range : Span) → IsFoundFree f size range topdown order rests.old half.old whole block → result ≡ true → (g : ℕ → Bool) → IsKnown g f size range rests.old half.old → IsKnown (less g block) f size range rests.new half.new }
    ensures numbers { HasNumbers half.old → HasNumbers half.new }
    ensures count { length rests.new ≡ 32 }
{
    let rest = rest_of(rests, whole);
    let around = block_around(whole, block.start);
    if !is_clear(rest, topdown, whole, size, around) {
        return false;
    }
    rests[whole as usize] = behind(rest, topdown, around);
    if order == whole {
        return true;
    }
    *half = Some(half_beside(order, block));
    true
}

/// Notes that a block was found. False means that what is left can't be known without marking it.
pub(crate) fn note(
    rests: &mut [Span],
    half: &mut Option<Half>,
    topdown: bool,
    size: u32,
    order: u32,
    found: Found,
) -> bool
    requires count { length rests.old ≡ 32 }
    requires room { HasRoom order found }
    ensures known { (f : ℕ → Bool) (range : Span) → IsFound f size range topdown order rests.old half.old found → result ≡ true → (g : ℕ → Bool) → IsKnown g f size range rests.old half.old → IsKnown (less g found.block) f size range rests.new half.new }
    ensures numbers { HasNumbers half.old → HasNumbers half.new }
    ensures count { length rests.new ≡ 32 }
{
    match found.origin {
        Origin::Free(whole) => note_free(rests, half, topdown, size, order, found.block, whole),
        Origin::Spare(_) => {
            *half = Some(half_beside(order, found.block));
            true
        }
    }
}
