//! Numbers of 32 and of 64 bits.

ghost use Rattle.std.specs.Prelude.{◌≡◌, min};
ghost use Rattle.journal_model.specs.scripts.Reading.{read_on};
ghost use Rattle.entry_reader.specs.EntryReading.{u32_of, u64_of};

use script_words::words::is_plain_number;

const ABOVE: u128 = 1 << 64;

/// Returns the number that `word`, a word of digits, tells. Numbers above 64 bits count as 2^64.
fn value_of(word: &[u8]) -> u128
    ensures { result ≡ min (read_on 0 word.now) 18446744073709551616 }
{
    let mut n = 0;
    for &c in word {
        n = (10 * n + u128::from(c.saturating_sub(b'0'))).min(ABOVE);
    }
    n
}

/// Returns the number of 64 bits that `word` tells in plain decimals, or `None` if it tells none.
pub fn number(word: &[u8]) -> Option<u64>
    ensures { result ≡ u64_of word.now }
{
    let n = value_of(word);
    if is_plain_number(word) && n < ABOVE {
        Some(n as u64)
    } else {
        None
    }
}

/// Returns the number of 32 bits that `word` tells in plain decimals, or `None` if it tells none.
pub(crate) fn small_number(word: &[u8]) -> Option<u32>
    ensures { result ≡ u32_of word.now }
{
    script_words::words::number(0, u32::MAX, word)
}
