//! Words of bits in levels: a bit of a level tells whether a word of the next level has a bit, and the last level has the
//! bits of the numbers. The words are ordered level by level, where the first level is one word. A place is the index of a
//! bit among all bits, and the bit at a place above the last level tells of the word whose index is one more than the place.

ghost use Rattle.std.specs.Prelude.{◌≡◌, ℕ, ◌/◌, ◌^◌, ◌<◌, ◌≤◌, true, false, length, MatchOption};
ghost use Rattle.bit_set.specs.Words.{has_bit, IsBase, IsBitTree, IsFirstBit, IsHighestBit, IsLastBit, IsPart, IsPut};

/// The number of bits of a word.
pub(crate) const WORD: usize = 64;

/// Finds the first word of the last level, which has `words` words. Its index is the number of words in the levels above it.
pub(crate) fn base_of(words: usize) -> usize
    requires { words ≤ 2 ^ 32 }
    ensures { IsBase words result }
{
    let mut base = 0;
    while 63 * base + 1 < words {
        base = 64 * base + 1;
    }
    base
}

/// Sets the bit at `place`, and those above that tell of it.
#[inline(always)]
pub(crate) fn set_bit(words: &mut [u64], place: usize)
    requires { place / 64 < length words.old }
    ensures { (first : ℕ) → first ≤ place → IsBitTree first words.old → IsPut first place true words.old words.new }
{
    let mut next = place;
    loop {
        let at = next / WORD;
        let word = words[at];
        words[at] = word | (1 << (next % WORD));
        if word != 0 || at == 0 {
            return;
        }
        next = at - 1;
    }
}

/// Clears the bit at `place`, and those above that told of it alone.
#[inline(always)]
pub(crate) fn clear_bit(words: &mut [u64], place: usize)
    requires { place / 64 < length words.old }
    ensures { (first : ℕ) → first ≤ place → IsBitTree first words.old → IsPut first place false words.old words.new }
{
    let mut next = place;
    loop {
        let at = next / WORD;
        let word = words[at] & !(1 << (next % WORD));
        words[at] = word;
        if word != 0 || at == 0 {
            return;
        }
        next = at - 1;
    }
}

/// Keeps the bits of `word` from `bit` on.
#[inline(always)]
fn bits_from(word: u64, bit: usize) -> u64
    requires { bit < 64 }
    ensures { IsPart (λ k. bit ≤ k) word result }
{
    word & (u64::MAX << bit)
}

/// Keeps the bits of `word` above `bit`.
#[inline(always)]
fn bits_above(word: u64, bit: usize) -> u64
    requires { bit < 64 }
    ensures { IsPart (λ k. bit < k) word result }
{
    word & !(u64::MAX >> (63 - bit))
}

/// Finds the first place from `start` on that has a bit, among the places of numbers, which begin at `first`.
pub(crate) fn first_from(words: &[u64], first: usize, start: usize) -> Option<usize>
    requires tree { IsBitTree first words.now }
    requires small { first < 2 ^ 40 }
    requires from { first ≤ start }
    requires within { start / 64 < length words.now }
    ensures { MatchOption result ((i : ℕ) → start ≤ i → has_bit words.now i ≡ false) (λ m. IsFirstBit words.now start m) }
{
    let mut place = start;
    let mut bits = bits_from(words[place / WORD], place % WORD);
    while bits == 0 {
        let at = place / WORD;
        if at == 0 {
            return None;
        }
        place = at - 1;
        bits = bits_above(words[place / WORD], place % WORD);
    }
    place = place / WORD * WORD + bits.trailing_zeros() as usize;
    while place < first {
        let at = place + 1;
        place = at * WORD + words[at].trailing_zeros() as usize;
    }
    Some(place)
}

/// Keeps the bits of `word` up to `bit`.
#[inline(always)]
fn bits_to(word: u64, bit: usize) -> u64
    requires { bit < 64 }
    ensures { IsPart (λ k. k ≤ bit) word result }
{
    word & (u64::MAX >> (63 - bit))
}

/// Keeps the bits of `word` below `bit`.
#[inline(always)]
fn bits_below(word: u64, bit: usize) -> u64
    requires { bit < 64 }
    ensures { IsPart (λ k. k < bit) word result }
{
    word & !(u64::MAX << bit)
}

/// Finds the highest bit of `word`, which has one.
#[inline(always)]
fn highest_bit(word: u64) -> usize
    requires { 0 < word }
    ensures { IsHighestBit word result }
{
    63 - word.leading_zeros() as usize
}

/// Finds the last place up to `start` that has a bit, among the places of numbers, which begin at `first`.
pub(crate) fn last_to(words: &[u64], first: usize, start: usize) -> Option<usize>
    requires tree { IsBitTree first words.now }
    requires small { first < 2 ^ 40 }
    requires from { first ≤ start }
    requires within { start / 64 < length words.now }
    ensures { MatchOption result ((i : ℕ) → first ≤ i → i ≤ start → has_bit words.now i ≡ false) (λ m. IsLastBit words.now first start m) }
{
    let mut place = start;
    let mut bits = bits_to(words[place / WORD], place % WORD);
    while bits == 0 {
        let at = place / WORD;
        if at == 0 {
            return None;
        }
        place = at - 1;
        bits = bits_below(words[place / WORD], place % WORD);
    }
    let bit = highest_bit(bits);
    place = place / WORD * WORD + bit;
    while place < first {
        let at = place + 1;
        let last = highest_bit(words[at]);
        place = at * WORD + last;
    }
    Some(place)
}
