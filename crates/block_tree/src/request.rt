ghost use Rattle.std.specs.Prelude.{◌≡◌, ◌+◌, ◌-◌, ◌*◌, ◌/◌, ◌^◌, ◌<◌, ◌≤◌, min, max, if◌then◌else◌};
ghost use Rattle.block_tree.specs.Holding.{PiecesOf};

use crate::block::{Block, block_len};
use ttm_base::Span;

/// A request for a block: its order, the pages in which it has to lie, and whether the highest block is taken instead of the
/// lowest.
#[derive(Clone, Copy)]
pub struct Request {
    pub order: u32,
    pub range: Span,
    pub topdown: bool,
}

/// The blocks that a request can take, by their numbers, from `first` to `last`, both included.
#[derive(Clone, Copy)]
pub struct Pieces {
    pub order: u32,
    pub first: u32,
    pub last: u32,
}

/// A wanted block, and the free block that has it.
#[derive(Clone, Copy)]
pub struct Found {
    pub free: Block,
    pub piece: Block,
}

impl Request {
    /// Returns the blocks below page `size` that the request can take, or None where there are none.
    pub(crate) fn pieces(self, size: u32) -> Option<Pieces>
        requires { self.order ≤ 31 }
        ensures { PiecesOf self size result }
    {
        let len = block_len(self.order);
        let floor = self.range.start / len;
        let first = if floor * len == self.range.start {
            floor
        } else {
            floor + 1
        };
        let end = self.range.end.min(size) / len;
        if first < end {
            Some(Pieces {
                order: self.order,
                first,
                last: end - 1,
            })
        } else {
            None
        }
    }
}

impl Pieces {
    /// Returns the first of the wanted blocks that is in a free block: the lowest, or for `topdown` the highest.
    pub(crate) fn first_in(self, free: Block, topdown: bool) -> Block
        requires order { self.order ≤ free.order }
        requires small { free.order ≤ 31 }
        requires free { free.number * 2 ^ free.order + 2 ^ free.order ≤ 2 ^ 31 }
        ensures order { result.order ≡ self.order }
        ensures number { result.number ≡ (if topdown then min self.last (free.number * 2 ^ (free.order - self.order) + 2 ^ (free.order - self.order) - 1) else max self.first (free.number * 2 ^ (free.order - self.order))) }
    {
        let len = block_len(free.order - self.order);
        let low = free.number * len;
        let number = if topdown {
            self.last.min(low + (len - 1))
        } else {
            self.first.max(low)
        };
        Block {
            order: self.order,
            number,
        }
    }
}
