//! A set of numbers below a length, as a bitmap with summaries: a bit for each number, above each word a bit that tells whether the
//! word has one, and so on up to one word. The least number from one on and the greatest up to one are found by a look at two words
//! a level at most. Only `new` takes memory.
#![tactic(auto)]

ghost use Rattle.std.specs.Prelude.{◌≡◌, ℕ, ◌^◌, ◌<◌, ◌≤◌, true, false, length, replicate, slice_set, IfOk, IfSome, IfNone};
ghost use Rattle.bit_set.specs.Marks.{has, IsFirstFrom, IsLastTo};

use std::alloc::Global;
use std::marker::Model;
use ttm_base::NoMemory;
use words::{WORD, base_of, clear_bit, first_from, last_to, set_bit};

mod words;

/// A set of numbers below a length, seen as a mark for each.
#[derive(Drop)]
pub struct BitSet {
    words: Vec<u64>,
    /// The place of the number 0.
    first: usize,
    len: usize,
}

impl Model for BitSet {
    ghost use Rattle.std.specs.Prelude.{Bool, List};
    ghost use Rattle.bit_set.specs.Words.{marks_of, IsKept};

    ghost Value = { List Bool };

    ghost view = { λ b. marks_of b.first b.len b.words.items };

    ghost invariant = { λ b. IsKept b.first b.len b.words.items };
}

impl BitSet {
    /// Makes the empty set of numbers below `len`.
    pub fn new(alloc: Global, len: usize) -> Result<BitSet, NoMemory>
        requires { len ≤ 2 ^ 32 }
        ensures { IfOk result (λ set. set ≡ replicate len false) }
    {
        let words_len = len.div_ceil(WORD);
        let base = base_of(words_len);
        let words = vec![in alloc; 0; base + words_len]?;
        Ok(BitSet {
            words,
            first: base * WORD,
            len,
        })
    }

    /// Returns whether `number` is in the set.
    #[inline(always)]
    pub fn contains(&self, number: usize) -> bool
        requires { number < length self.now }
        ensures { result ≡ has self.now number }
    {
        let place = self.first + number;
        (self.words[place / WORD] >> (place % WORD)) & 1 == 1
    }

    /// Puts `number` into the set.
    #[inline(always)]
    pub fn set(&mut self, number: usize)
        requires { number < length self.old }
        ensures { self.new ≡ slice_set self.old number true }
    {
        set_bit(&mut self.words, self.first + number);
    }

    /// Takes `number` out of the set.
    #[inline(always)]
    pub fn clear(&mut self, number: usize)
        requires { number < length self.old }
        ensures { self.new ≡ slice_set self.old number false }
    {
        clear_bit(&mut self.words, self.first + number);
    }

    /// Finds the least number of the set that is not below `number`, or returns None where there is none.
    #[inline(always)]
    pub fn first_from(&self, number: usize) -> Option<usize>
        ensures some { IfSome result (λ m. IsFirstFrom self.now number m) }
        ensures none { IfNone result ((i : ℕ) → number ≤ i → has self.now i ≡ false) }
    {
        if number >= self.len {
            return None;
        }
        let place = first_from(&self.words, self.first, self.first + number)?;
        Some(place - self.first)
    }

    /// Finds the greatest number of the set that is not above `number`, or returns None where there is none.
    #[inline(always)]
    pub fn last_to(&self, number: usize) -> Option<usize>
        requires { number < length self.now }
        ensures some { IfSome result (λ m. IsLastTo self.now number m) }
        ensures none { IfNone result ((i : ℕ) → i ≤ number → has self.now i ≡ false) }
    {
        let place = last_to(&self.words, self.first, self.first + number)?;
        Some(place - self.first)
    }
}
