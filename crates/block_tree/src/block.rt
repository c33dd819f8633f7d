ghost use Rattle.std.specs.Prelude.{◌≡◌, suc, ◌+◌, ◌*◌, ◌/◌, ◌^◌, ◌<◌, ◌≤◌};
ghost use Rattle.block_tree.specs.FreeSet.{beside};
ghost use Rattle.block_tree.specs.Searching.{numbered};

use ttm_base::Span;

/// A block, by its order and its number among the blocks of that order.
#[derive(Clone, Copy)]
pub struct Block {
    pub order: u32,
    pub number: u32,
}

/// Returns the size in pages of a block of the order `order`.
pub fn block_len(order: u32) -> u32
    requires { order ≤ 31 }
    ensures value { result ≡ 2 ^ order }
    ensures some { 0 < result }
    ensures small { result ≤ 2 ^ 31 }
{
    1 << order
}

impl Block {
    /// Returns the buddy of the block: the other half of the block of which this one is a half.
    #[inline(always)]
    pub(crate) fn beside(self) -> Block
        ensures order { result.order ≡ self.order }
        ensures number { result.number ≡ beside self.number }
    {
        Block {
            order: self.order,
            number: self.number ^ 1,
        }
    }

    /// Returns the block of which this one is a half.
    #[inline(always)]
    pub(crate) fn above(self) -> Block
        requires { self.order < 4294967295 }
        ensures order { result.order ≡ self.order + 1 }
        ensures number { result.number ≡ self.number / 2 }
    {
        Block {
            order: self.order + 1,
            number: self.number / 2,
        }
    }

    /// Returns the pages of the block.
    #[inline(always)]
    pub(crate) fn pages(self) -> Span
        requires order { self.order ≤ 31 }
        requires small { self.number * 2 ^ self.order + 2 ^ self.order ≤ 2 ^ 31 }
        ensures { result ≡ numbered self.order self.number }
    {
        let len = block_len(self.order);
        let start = self.number * len;
        Span {
            start,
            end: start + len,
        }
    }
}
