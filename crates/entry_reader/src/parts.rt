//! The words of an entry: why, what is left, causes, spans and pieces.

ghost use Rattle.std.specs.Prelude.{◌≡◌, ◌≤◌, [], IfOk, None, Some, if◌then◌else◌, length};
ghost use Rattle.entry_reader.specs.EntryReading.{all_of, cause_of, deny_of, deny_of_buffer, dry_of, engine_of, left_of, list_of, piece_of, reserved_of, row_of, row_parts, row_with, span_of, span_parts, span_with, why_of, with_two};

use crate::numbers::{number, small_number};
use journal_model::{Bytes, Cause, CauseRow, Causes, DryWhy, Left, Why};
use script_words::cut::{Word, Words, cut, cut_into};
use script_words::names::Names;
use script_words::words::{bytes, is};
use std::alloc::Global;
use ttm_base::{BufId, Deny, NoMemory, Span, Spans, Stamp};

pub(crate) fn why(word: &[u8]) -> Option<Why>
    ensures { result ≡ why_of word.now }
{
    if is(word, b"vram") {
        Some(Why::Vram)
    } else if is(word, b"tt") {
        Some(Why::Tt)
    } else if is(word, b"swap") {
        Some(Why::Swap)
    } else {
        None
    }
}

pub(crate) fn left(word: &[u8]) -> Option<Left>
    ensures { result ≡ left_of word.now }
{
    if is(word, b"now") {
        return Some(Left::Now);
    }
    match number(word) {
        Some(g) => Some(Left::Ghost(g)),
        None => None,
    }
}

fn deny_of_a_buffer(word: &[u8]) -> Option<Deny>
    ensures { result ≡ deny_of_buffer word.now }
{
    if is(word, b"NoBuffer") {
        Some(Deny::NoBuffer)
    } else if is(word, b"Exists") {
        Some(Deny::Exists)
    } else if is(word, b"Pinned") {
        Some(Deny::Pinned)
    } else if is(word, b"NotPinned") {
        Some(Deny::NotPinned)
    } else {
        None
    }
}

pub(crate) fn deny(word: &[u8]) -> Option<Deny>
    ensures { result ≡ deny_of word.now }
{
    if is(word, b"PinMax") {
        Some(Deny::PinMax)
    } else if is(word, b"NoSpace") {
        Some(Deny::NoSpace)
    } else if is(word, b"NoPages") {
        Some(Deny::NoPages)
    } else if is(word, b"NoSwap") {
        Some(Deny::NoSwap)
    } else {
        deny_of_a_buffer(word)
    }
}

/// Reads the number of an engine after its letter, or returns `None` if `word` isn't one.
pub(crate) fn engine(word: &[u8]) -> Option<u32>
    ensures { result ≡ engine_of word.now }
{
    match word {
        [b'e', digits @ ..] => small_number(digits),
        _ => None,
    }
}

/// Reads the bytes of a probe's piece, which has one at least.
pub(crate) fn piece(alloc: Global, word: &[u8]) -> Result<Option<Bytes>, NoMemory>
    ensures { IfOk result (λ piece. piece ≡ piece_of word.now) }
{
    if word.is_empty() {
        return Ok(None);
    }
    bytes(alloc, word)
}

// ---- spans

fn span_between_pages(start: Option<u32>, end: Option<u32>) -> Option<Span>
    ensures { result ≡ span_with start end }
{
    match (start, end) {
        (Some(start), Some(end)) if start < end => Some(Span { start, end }),
        _ => None,
    }
}

fn span_of_words(words: &[Word]) -> Option<Span>
    ensures { result ≡ span_parts words.now }
{
    match words {
        [first, last] => {
            span_between_pages(small_number(first.items()), small_number(last.items()))
        }
        _ => None,
    }
}

/// Reads the span of each of `words` into `spans`, and returns false where one tells none. The list `parts` is left with the parts of a word.
fn read_spans<'a>(
    parts: &mut Words<'a>,
    spans: &mut Spans,
    words: &'a [Word],
) -> Result<bool, NoMemory>
    requires { spans.old ≡ [] }
    ensures { IfOk result (λ all. (if all then Some spans.new else None) ≡ all_of span_of words.now) }
{
    for word in words {
        cut_into(parts, b'-', word.items())?;
        match span_of_words(parts.items()) {
            Some(span) => spans.push(span)?,
            None => return Ok(false),
        }
    }
    Ok(true)
}

/// Reads spans with a comma between each two, or a dash for none.
pub(crate) fn spans(alloc: Global, word: &[u8]) -> Result<Option<Spans>, NoMemory>
    ensures { IfOk result (λ spans. spans ≡ list_of span_of word.now) }
{
    let mut spans = Spans::new(alloc);
    if is(word, b"-") {
        return Ok(Some(spans));
    }
    let words = cut(alloc, b',', word)?;
    let mut parts = Words::new(alloc);
    if read_spans(&mut parts, &mut spans, words.items())? {
        return Ok(Some(spans));
    }
    Ok(None)
}

// ---- causes

fn cause(word: &[u8]) -> Option<Cause>
    ensures { result ≡ cause_of word.now }
{
    if is(word, b"pinned") {
        Some(Cause::Pinned)
    } else if is(word, b"outside") {
        Some(Cause::Outside)
    } else if is(word, b"skipped") {
        Some(Cause::Skipped)
    } else {
        None
    }
}

fn reserved(word: &[u8], stamp: &[u8]) -> Option<Cause>
    ensures { result ≡ reserved_of word.now stamp.now }
{
    if !is(word, b"reserved") {
        return None;
    }
    match number(stamp) {
        Some(stamp) => Some(Cause::Reserved(Stamp(stamp))),
        None => None,
    }
}

fn row_of_parts(b: Option<BufId>, cause: Option<Cause>) -> Option<CauseRow>
    ensures { result ≡ with_two row_with b cause }
{
    match (b, cause) {
        (Some(b), Some(cause)) => Some(CauseRow { b, cause }),
        _ => None,
    }
}

fn row_of_words(names: &Names, words: &[Word]) -> Option<CauseRow>
    requires { length names.now ≤ 256 }
    ensures { result ≡ row_parts names.now words.now }
{
    match words {
        [name, word] => row_of_parts(names.find(name.items()), cause(word.items())),
        [name, word, stamp] => {
            row_of_parts(
                names.find(name.items()),
                reserved(word.items(), stamp.items()),
            )
        }
        _ => None,
    }
}

/// Reads the buffer with its cause that each of `words` tells into `rows`, and returns false where one tells none. The list `parts` is left
/// with the parts of a word.
fn read_rows<'a>(
    parts: &mut Words<'a>,
    rows: &mut Causes,
    names: &Names,
    words: &'a [Word],
) -> Result<bool, NoMemory>
    requires few { length names.now ≤ 256 }
    requires none { rows.old ≡ [] }
    ensures { IfOk result (λ all. (if all then Some rows.new else None) ≡ all_of (row_of names.now) words.now) }
{
    for word in words {
        cut_into(parts, b':', word.items())?;
        match row_of_words(names, parts.items()) {
            Some(row) => rows.push(row)?,
            None => return Ok(false),
        }
    }
    Ok(true)
}

/// Reads buffers with their causes, with a comma between each two, or a dash for none.
fn rows(alloc: Global, names: &Names, word: &[u8]) -> Result<Option<Causes>, NoMemory>
    requires { length names.now ≤ 256 }
    ensures { IfOk result (λ rows. rows ≡ list_of (row_of names.now) word.now) }
{
    let mut rows = Causes::new(alloc);
    if is(word, b"-") {
        return Ok(Some(rows));
    }
    let words = cut(alloc, b',', word)?;
    let mut parts = Words::new(alloc);
    if read_rows(&mut parts, &mut rows, names, words.items())? {
        return Ok(Some(rows));
    }
    Ok(None)
}

/// Reads why a place is dry.
pub(crate) fn dry_why(alloc: Global, names: &Names, word: &[u8]) -> Result<Option<DryWhy>, NoMemory>
    requires { length names.now ≤ 256 }
    ensures { IfOk result (λ why. why ≡ dry_of names.now word.now) }
{
    if is(word, b"short") {
        return Ok(Some(DryWhy::Short));
    }
    match rows(alloc, names, word)? {
        Some(rows) => Ok(Some(DryWhy::Of(rows))),
        None => Ok(None),
    }
}
