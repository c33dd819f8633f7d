//! The kind of an entry by its words: which verb, and each other word as what must stand there.

ghost use Rattle.std.specs.Prelude.{◌≡◌, ◌≤◌, IfOk, length};
ghost use Rattle.entry_reader.specs.EntryReading.{buffer_kind, dry_kind, find_kind, kind_of, kind_of_four, kind_of_one, kind_of_three, kind_of_two, later_kind, packet_of, page_kind, pair_kind, plain_kind, probe_of, read_kind, take_of, worded_kind};

use crate::numbers::{number, small_number};
use crate::parts::{deny, dry_why, engine, left, piece, spans, why};
use journal_model::{Bytes, Kind, Shown};
use script_words::cut::Word;
use script_words::names::Names;
use script_words::words::{bytes, is, memory};
use std::alloc::Global;
use ttm_base::{BufId, NoMemory, Stamp};

// ---- a verb and one word

fn later_kind_of_buffer(verb: &[u8], b: BufId) -> Option<Kind>
    ensures { result ≡ later_kind verb.now b }
{
    if is(verb, b"unbind") {
        Some(Kind::Unbind { b })
    } else if is(verb, b"loose") {
        Some(Kind::Loose { b })
    } else if is(verb, b"skip") {
        Some(Kind::Skip { b })
    } else if is(verb, b"nopages") {
        Some(Kind::NoPages { b })
    } else {
        None
    }
}

fn kind_of_buffer(verb: &[u8], b: BufId) -> Option<Kind>
    ensures { result ≡ buffer_kind verb.now b }
{
    if is(verb, b"reserve") {
        Some(Kind::Reserve { b })
    } else if is(verb, b"new") {
        Some(Kind::New { b })
    } else if is(verb, b"depopulate") {
        Some(Kind::Depopulate { b })
    } else if is(verb, b"bind") {
        Some(Kind::Bind { b })
    } else {
        later_kind_of_buffer(verb, b)
    }
}

fn plain_result(word: &[u8]) -> Option<Kind>
    ensures { result ≡ plain_kind word.now }
{
    if is(word, b"ok") {
        Some(Kind::Result {
            shown: Shown::Plain,
        })
    } else {
        None
    }
}

fn kind_of_one_word(names: &Names, verb: &[u8], a: &[u8]) -> Option<Kind>
    requires { length names.now ≤ 256 }
    ensures { result ≡ kind_of_one names.now verb.now a.now }
{
    if is(verb, b"ticket") {
        match number(a) {
            Some(s) => Some(Kind::Ticket { s: Stamp(s) }),
            None => None,
        }
    } else if is(verb, b"done") {
        match number(a) {
            Some(num) => Some(Kind::Done { num }),
            None => None,
        }
    } else if is(verb, b"reap") {
        match number(a) {
            Some(g) => Some(Kind::Reap { g }),
            None => None,
        }
    } else if is(verb, b"bulk") {
        match small_number(a) {
            Some(group) => Some(Kind::Bulk { group }),
            None => None,
        }
    } else if is(verb, b"result") {
        plain_result(a)
    } else if is(verb, b"refused") {
        match deny(a) {
            Some(deny) => Some(Kind::Refused { deny }),
            None => None,
        }
    } else {
        match names.find(a) {
            Some(b) => kind_of_buffer(verb, b),
            None => None,
        }
    }
}

// ---- a verb and two words

fn read_result(alloc: Global, word: &[u8], a: &[u8]) -> Result<Option<Kind>, NoMemory>
    ensures { IfOk result (λ kind. kind ≡ read_kind word.now a.now) }
{
    if !is(word, b"read") {
        return Ok(None);
    }
    match bytes(alloc, a)? {
        Some(bytes) => Ok(Some(Kind::Result {
            shown: Shown::Read(bytes),
        })),
        None => Ok(None),
    }
}

fn packet(alloc: Global, a: &[u8], b: &[u8]) -> Option<Kind>
    ensures { result ≡ packet_of a.now b.now }
{
    match (number(a), small_number(b)) {
        (Some(num), Some(k)) => Some(Kind::Packet {
            num,
            k,
            piece: Bytes::new(alloc),
        }),
        _ => None,
    }
}

fn kind_with_word(verb: &[u8], b: BufId, word: &[u8]) -> Option<Kind>
    ensures { result ≡ worded_kind verb.now b word.now }
{
    if is(verb, b"backoff") {
        Some(Kind::Backoff {
            b,
            s: Stamp(number(word)?),
        })
    } else if is(verb, b"free") {
        Some(Kind::Free {
            b,
            g: number(word)?,
        })
    } else if is(verb, b"untake") {
        Some(Kind::Untake {
            b,
            mem: memory(word)?,
        })
    } else if is(verb, b"catch") {
        Some(Kind::Catch { b, why: why(word)? })
    } else {
        None
    }
}

fn kind_of_a_pair(alloc: Global, names: &Names, verb: &[u8], a: &[u8], b: &[u8]) -> Option<Kind>
    requires { length names.now ≤ 256 }
    ensures { result ≡ pair_kind names.now verb.now a.now b.now }
{
    if is(verb, b"arm") {
        match (engine(a), number(b)) {
            (Some(engine), Some(num)) => Some(Kind::Arm { engine, num }),
            _ => None,
        }
    } else if is(verb, b"packet") {
        packet(alloc, a, b)
    } else {
        kind_with_word(verb, names.find(a)?, b)
    }
}

fn kind_of_two_words(
    alloc: Global,
    names: &Names,
    verb: &[u8],
    a: &[u8],
    b: &[u8],
) -> Result<Option<Kind>, NoMemory>
    requires { length names.now ≤ 256 }
    ensures { IfOk result (λ kind. kind ≡ kind_of_two names.now verb.now a.now b.now) }
{
    if is(verb, b"result") {
        return read_result(alloc, a, b);
    }
    Ok(kind_of_a_pair(alloc, names, verb, a, b))
}

// ---- a verb and three words

fn find_result(alloc: Global, word: &[u8], a: &[u8], b: &[u8]) -> Result<Option<Kind>, NoMemory>
    ensures { IfOk result (λ kind. kind ≡ find_kind word.now a.now b.now) }
{
    if !is(word, b"find") {
        return Ok(None);
    }
    let Some(mem) = memory(a) else {
        return Ok(None);
    };
    match spans(alloc, b)? {
        Some(spans) => Ok(Some(Kind::Result {
            shown: Shown::Find { mem, spans },
        })),
        None => Ok(None),
    }
}

fn take(
    alloc: Global,
    names: &Names,
    a: &[u8],
    b: &[u8],
    c: &[u8],
) -> Result<Option<Kind>, NoMemory>
    requires { length names.now ≤ 256 }
    ensures { IfOk result (λ kind. kind ≡ take_of names.now a.now b.now c.now) }
{
    let (Some(buffer), Some(mem)) = (names.find(a), memory(b)) else {
        return Ok(None);
    };
    match spans(alloc, c)? {
        Some(spans) => Ok(Some(Kind::Take {
            b: buffer,
            mem,
            spans,
        })),
        None => Ok(None),
    }
}

fn dry(alloc: Global, names: &Names, a: &[u8], b: &[u8], c: &[u8]) -> Result<Option<Kind>, NoMemory>
    requires { length names.now ≤ 256 }
    ensures { IfOk result (λ kind. kind ≡ dry_kind names.now a.now b.now c.now) }
{
    let (Some(buffer), Some(k)) = (names.find(a), small_number(b)) else {
        return Ok(None);
    };
    match dry_why(alloc, names, c)? {
        Some(why) => Ok(Some(Kind::Dry { b: buffer, k, why })),
        None => Ok(None),
    }
}

fn probe(alloc: Global, a: &[u8], b: &[u8], c: &[u8]) -> Result<Option<Kind>, NoMemory>
    ensures { IfOk result (λ kind. kind ≡ probe_of a.now b.now c.now) }
{
    let (Some(num), Some(k)) = (number(a), small_number(b)) else {
        return Ok(None);
    };
    match piece(alloc, c)? {
        Some(piece) => Ok(Some(Kind::Packet { num, k, piece })),
        None => Ok(None),
    }
}

fn kind_of_pages(names: &Names, verb: &[u8], a: &[u8], b: &[u8], c: &[u8]) -> Option<Kind>
    requires { length names.now ≤ 256 }
    ensures { result ≡ page_kind names.now verb.now a.now b.now c.now }
{
    let parts = (names.find(a), small_number(b), small_number(c));
    let (Some(b), Some(page), Some(place)) = parts else {
        return None;
    };
    if is(verb, b"populate") {
        Some(Kind::Populate {
            b,
            page,
            frame: place,
        })
    } else if is(verb, b"swapout") {
        Some(Kind::SwapOut {
            b,
            page,
            slot: place,
        })
    } else {
        None
    }
}

fn kind_of_three_words(
    alloc: Global,
    names: &Names,
    verb: &[u8],
    a: &[u8],
    b: &[u8],
    c: &[u8],
) -> Result<Option<Kind>, NoMemory>
    requires { length names.now ≤ 256 }
    ensures { IfOk result (λ kind. kind ≡ kind_of_three names.now verb.now a.now b.now c.now) }
{
    if is(verb, b"take") {
        take(alloc, names, a, b, c)
    } else if is(verb, b"dry") {
        dry(alloc, names, a, b, c)
    } else if is(verb, b"packet") {
        probe(alloc, a, b, c)
    } else if is(verb, b"result") {
        find_result(alloc, a, b, c)
    } else {
        Ok(kind_of_pages(names, verb, a, b, c))
    }
}

// ---- a verb and four words

fn kind_of_four_words(
    names: &Names,
    verb: &[u8],
    a: &[u8],
    b: &[u8],
    c: &[u8],
    d: &[u8],
) -> Option<Kind>
    requires { length names.now ≤ 256 }
    ensures { result ≡ kind_of_four names.now verb.now a.now b.now c.now d.now }
{
    if is(verb, b"swapin") {
        let places = (small_number(b), small_number(c), small_number(d));
        match (names.find(a), places) {
            (Some(b), (Some(page), Some(slot), Some(frame))) => Some(Kind::SwapIn {
                b,
                page,
                slot,
                frame,
            }),
            _ => None,
        }
    } else if is(verb, b"move") {
        match (names.find(a), memory(b), number(c), left(d)) {
            (Some(b), Some(mem), Some(num), Some(left)) => Some(Kind::Move { b, mem, num, left }),
            _ => None,
        }
    } else {
        None
    }
}

/// Returns the kind of an entry with the words `words`, or `None` if they are the words of none.
pub(crate) fn kind(alloc: Global, names: &Names, words: &[Word]) -> Result<Option<Kind>, NoMemory>
    requires { length names.now ≤ 256 }
    ensures { IfOk result (λ kind. kind ≡ kind_of names.now words.now) }
{
    match words {
        [verb, a] => Ok(kind_of_one_word(names, verb.items(), a.items())),
        [verb, a, b] => kind_of_two_words(alloc, names, verb.items(), a.items(), b.items()),
        [verb, a, b, c] => {
            let (verb, a, b) = (verb.items(), a.items(), b.items());
            kind_of_three_words(alloc, names, verb, a, b, c.items())
        }
        [verb, a, b, c, d] => {
            let (verb, a, b) = (verb.items(), a.items(), b.items());
            Ok(kind_of_four_words(names, verb, a, b, c.items(), d.items()))
        }
        _ => Ok(None),
    }
}
