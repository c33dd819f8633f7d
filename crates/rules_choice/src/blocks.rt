ghost use Rattle.std.specs.Prelude.{◌≡◌, ◌+◌, ◌*◌, ◌/◌, ◌<◌, ◌≤◌, ◌^◌, true, length};
ghost use Rattle.ttm_base.specs.BuddyChoice as words;
ghost use Rattle.rules_choice.specs.Marks.{marked, AreAlike};

use crate::alike::first_other;
use ttm_base::{Span, log2};

/// The free pages of a manager: a mark for each page, set where it is free.
#[derive(Drop)]
pub struct FreePages {
    pub marks: Vec<bool>,
    ghost small: { length marks.items < 2 ^ 32 },
}

/// A free block inside the range, and the order of the free block from which it would be split.
#[derive(Clone, Copy)]
pub struct FreeBlock {
    pub block: Span,
    pub whole: u32,
    ghost small: { whole < 64 },
}

/// Returns the number of pages of a block of order `order`.
pub fn block_len(order: u32) -> usize
    requires { order < 64 }
    ensures value { result ≡ 2 ^ order }
    ensures some { 0 < result }
    ensures small { result ≤ 2 ^ 63 }
{
    1 << order
}

impl FreePages {
    /// Returns whether all pages of the block of order `order` around `page` are free and it ends within the size.
    pub fn is_free_block(&self, order: u32, page: usize) -> bool
        requires order { order < 64 }
        requires page { page < 2 ^ 32 }
        ensures { result ≡ words.is_free_block (marked self.now.marks.items) (length self.now.marks.items) (words.block_around order page) }
    {
        let len = block_len(order);
        let start = page / len * len;
        let end = start + len;
        end <= self.marks.len() && first_other(&self.marks, true, start, end).is_none()
    }

    /// Returns the order of the largest free block around the free block of order `order` around `page`.
    pub fn free_order(&self, order: u32, page: usize) -> u32
        requires order { order ≤ 32 }
        requires page { page < 2 ^ 32 }
        ensures small { result < 64 }
        ensures order { result ≡ words.free_order (marked self.now.marks.items) (length self.now.marks.items) page order (words.log2 (length self.now.marks.items)) }
    {
        let mut whole = order;
        let mut left = log2(self.marks.len() as u32);
        while left > 0 && self.is_free_block(whole + 1, page) {
            whole += 1;
            left -= 1;
        }
        whole
    }

    /// Returns whether all pages of the block of order `order` around `page` are free, or all held, and it ends within the size.
    fn is_alike(&self, order: u32, page: usize) -> bool
        requires order { order < 64 }
        requires page { page < length self.now.marks.items }
        ensures { result ≡ true → AreAlike self.now.marks.items order page }
    {
        let len = block_len(order);
        let start = page / len * len;
        let end = start + len;
        end <= self.marks.len() && first_other(&self.marks, self.marks[page], start, end).is_none()
    }

    /// Returns the order of the largest block around `page` whose pages are all free or all held, at least `order`.
    pub fn alike_order(&self, order: u32, page: usize) -> u32
        requires order { order ≤ 32 }
        requires page { page < length self.now.marks.items }
        ensures least { order ≤ result }
        ensures small { result < 64 }
        ensures alike { order < result → AreAlike self.now.marks.items result page }
    {
        let mut whole = order;
        let mut left = log2(self.marks.len() as u32);
        while left > 0 && self.is_alike(whole + 1, page) {
            whole += 1;
            left -= 1;
        }
        whole
    }
}
