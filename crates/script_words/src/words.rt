//! What a word says.

ghost use Rattle.std.specs.Prelude.{◌≡◌, ◌<◌, ◌^◌, ◌*◌, ◌+◌, ◌-◌, ◌==◌, min, IfOk, bytes_eq, length, Some, None, true, false, if◌then◌else◌};
ghost use Rattle.std.specs.List.{list_all};
ghost use Rattle.journal_model.specs.scripts.CommandRules.{is_between};
ghost use Rattle.journal_model.specs.scripts.Cut.{is_semicolon};
ghost use Rattle.journal_model.specs.scripts.Reading.{is_digit, has_no_leading_zero, is_plain, read_on, number_in, group_of, offset_of, address_of, is_hex, hex_value, bytes_in_hex, byte_in_hex, mem_of, engine_word_of, actor_of, thread_actor, engine_actor};

use crate::cut::Word;
use hex::FromHexError;
use journal_model::Bytes;
use journal_model::line::{ActorWord, EngineWord};
use std::alloc::Global;
use ttm_base::{Actor, Mem, NoMemory};

const MOST: u64 = 1 << 40;

const MOST_LEN: u32 = 16_777_216;

/// Returns a copy of `text`.
pub fn owned(alloc: Global, text: &[u8]) -> Result<Bytes, NoMemory>
    ensures { IfOk result (λ list. list ≡ text.now) }
{
    Bytes::from_slice(alloc, text)
}

/// Returns whether `word` is `text`.
pub fn is(word: &[u8], text: &[u8]) -> bool
    ensures { result ≡ bytes_eq word.now text.now }
{
    word.len() == text.len() && is_of_same_length(word, text)
}

/// Returns whether `word` is `text`, which is as long.
fn is_of_same_length(word: &[u8], text: &[u8]) -> bool
    requires { length word.now ≡ length text.now }
    ensures { result ≡ bytes_eq word.now text.now }
{
    for i in 0..text.len() {
        if word[i] != text[i] {
            return false;
        }
    }
    true
}

pub fn is_lone_semicolon(word: &Word) -> bool
    ensures { result ≡ is_semicolon word.now }
{
    is(word.items(), b";")
}

fn is_decimal_digit(c: u8) -> bool
    ensures { result ≡ is_digit c }
{
    b'0' <= c && c <= b'9'
}

fn are_digits(word: &[u8]) -> bool
    ensures { result ≡ list_all is_digit word.now }
{
    word.iter().all(|c| is_decimal_digit(*c))
}

fn lacks_leading_zero(word: &[u8]) -> bool
    ensures { result ≡ has_no_leading_zero word.now }
{
    match word {
        [] => false,
        [c, rest @ ..] => *c != b'0' || rest.len() == 0,
    }
}

/// Returns whether `word` is a number in plain decimals.
pub fn is_plain_number(word: &[u8]) -> bool
    ensures { result ≡ is_plain word.now }
{
    lacks_leading_zero(word) && are_digits(word)
}

/// Returns the number that the digits of `word` tell, or `None` where a byte is no digit. Numbers above 2^40 count as that.
fn value_of(word: &[u8]) -> Option<u64>
    ensures { result ≡ (if list_all is_digit word.now then Some (min (read_on 0 word.now) 1099511627776) else None) }
{
    let mut n = 0;
    for &c in word {
        if !is_decimal_digit(c) {
            return None;
        }
        n = (10 * n + u64::from(c.saturating_sub(b'0'))).min(MOST);
    }
    Some(n)
}

/// Returns the number that `word` tells in plain decimals, or `None` if it isn't plain. Numbers above 2^40 count as that.
fn plain_value(word: &[u8]) -> Option<u64>
    ensures { result ≡ (if is_plain word.now then Some (min (read_on 0 word.now) 1099511627776) else None) }
{
    if lacks_leading_zero(word) {
        value_of(word)
    } else {
        None
    }
}

/// Returns `n` if it is from `low` to `high`.
fn within(low: u32, high: u32, n: u64) -> Option<u32>
    ensures { result ≡ (if is_between low high n then Some n else None) }
{
    if u64::from(low) <= n && n <= u64::from(high) {
        Some(n as u32)
    } else {
        None
    }
}

/// Returns the number that `word` tells, if it is plain and from `low` to `high`.
pub fn number(low: u32, high: u32, word: &[u8]) -> Option<u32>
    ensures { result ≡ number_in low high word.now }
{
    match plain_value(word) {
        Some(n) => within(low, high, n),
        None => None,
    }
}

pub fn group(word: &[u8]) -> Option<Option<u32>>
    ensures { result ≡ group_of word.now }
{
    if is(word, b"-") {
        return Some(None);
    }
    match number(0, 15, word) {
        Some(n) => Some(Some(n)),
        None => None,
    }
}

/// Returns the offset or length in bytes that `word` tells, if it is one.
pub fn offset(word: &[u8]) -> Option<u32>
    ensures { result ≡ offset_of word.now }
{
    number(0, MOST_LEN, word)
}

/// Returns the address of a space that `word` tells, if it is one.
pub fn address(word: &[u8]) -> Option<u64>
    ensures { result ≡ address_of word.now }
{
    match number(0, u32::MAX, word) {
        Some(n) => Some(u64::from(n)),
        None => None,
    }
}

fn is_hex_digit(c: u8) -> bool
    ensures { result ≡ is_hex c }
{
    (b'0'..=b'9').contains(&c) || (b'a'..=b'f').contains(&c)
}

fn value_of_hex(c: u8) -> u8
    requires { is_hex c ≡ true }
    ensures value { result ≡ hex_value c }
    ensures small { result < 16 }
{
    if c < b'a' { c - b'0' } else { c - b'a' + 10 }
}

/// Returns the byte that `word` tells in two hexadecimal digits, if it is one.
pub fn byte(word: &[u8]) -> Option<u8>
    ensures { result ≡ byte_in_hex word.now }
{
    match word {
        [c, d] => {
            if is_hex_digit(*c) && is_hex_digit(*d) {
                Some(value_of_hex(*c) * 16 + value_of_hex(*d))
            } else {
                None
            }
        }
        _ => None,
    }
}

pub fn memory(word: &[u8]) -> Option<Mem>
    ensures { result ≡ mem_of word.now }
{
    if is(word, b"sys") {
        Some(Mem::System)
    } else if is(word, b"tt") {
        Some(Mem::Tt)
    } else if is(word, b"vram") {
        Some(Mem::Vram)
    } else {
        None
    }
}

pub fn engine(engines: u32, word: &[u8]) -> EngineWord
    ensures { result ≡ engine_word_of engines word.now }
{
    let Some(n) = plain_value(word) else {
        return EngineWord::BrokenNumber;
    };
    match within(1, engines, n) {
        Some(n) => EngineWord::Is(n),
        None => EngineWord::Missing,
    }
}

fn thread_word(threads: u32, word: &[u8]) -> ActorWord
    ensures { result ≡ thread_actor threads word.now }
{
    let Some(n) = plain_value(word) else {
        return ActorWord::BrokenNumber;
    };
    match within(1, threads, n) {
        Some(n) => ActorWord::Is(Actor::Thread(n)),
        None => ActorWord::Missing,
    }
}

fn engine_word(engines: u32, word: &[u8]) -> ActorWord
    ensures { result ≡ engine_actor engines word.now }
{
    let Some(n) = plain_value(word) else {
        return ActorWord::BrokenNumber;
    };
    match within(0, engines, n) {
        Some(n) => ActorWord::Is(Actor::Engine(n)),
        None => ActorWord::Missing,
    }
}

pub fn actor(threads: u32, engines: u32, word: &[u8]) -> ActorWord
    ensures { result ≡ actor_of threads engines word.now }
{
    match word {
        [b'r'] => ActorWord::Is(Actor::Reaper),
        [b't', _, ..] => thread_word(threads, &word[1..]),
        [b'e', _, ..] => engine_word(engines, &word[1..]),
        _ => ActorWord::Malformed,
    }
}

/// Returns whether each byte of `word` is a lower-case hexadecimal digit.
fn are_hex_digits(word: &[u8]) -> bool
    ensures { result ≡ list_all is_hex word.now }
{
    word.iter().all(|c| is_hex_digit(*c))
}

/// Returns the bytes that `word` tells in pairs of lower-case hexadecimal digits, or `None` if it tells none.
pub fn bytes(alloc: Global, word: &[u8]) -> Result<Option<Bytes>, NoMemory>
    ensures { IfOk result (λ bytes. bytes ≡ bytes_in_hex word.now) }
{
    if !are_hex_digits(word) {
        return Ok(None);
    }
    match hex::decode(alloc, word) {
        Ok(bytes) => Ok(Some(owned(alloc, bytes.as_slice())?)),
        Err(error) => match error {
            FromHexError::OutOfMemory => Err(NoMemory),
            _ => Ok(None),
        },
    }
}
