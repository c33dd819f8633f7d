//! What a thread's peeks and pokes have met.
ghost use Rattle.std.specs.Prelude.{◌≡◌, ℕ, ◌<◌, ◌≤◌, ◌==◌, ◌&&◌, [], OnOk, length, slice_get, slice_set, unwrap_or, if◌then◌else◌};
ghost use Rattle.report_mappings.specs.Faults as words;
ghost use Rattle.report_mappings.specs.Faults.{left_by, met_by};

use journal_model::Kind;
use map_access::Access;
use std::alloc::Global;
use ttm_base::{BufId, ItemList, NoMemory};

/// For each page the number of a command.
type Numbers = ItemList<u64>;

/// For each page of each buffer the number, counted from 1, of the peek or poke that met it last, or 0 where none did since it came. It
/// grows as pages are met.
pub(crate) type Seen = ItemList<Numbers>;

fn number_at(pages: &Numbers, page: u64) -> u64
    ensures { result ≡ words.number_at pages.now page }
{
    match pages.items().get(page as usize) {
        Some(number) => *number,
        None => 0,
    }
}

/// Returns the number of page `page` of buffer `b`, 0 if it has none.
pub(crate) fn seen_at(seen: &Seen, b: BufId, page: u64) -> u64
    ensures { result ≡ words.seen_at seen.now b.0 page }
{
    match seen.items().get(b.0 as usize) {
        Some(pages) => number_at(pages, page),
        None => 0,
    }
}

/// Makes room for `len` pages.
fn grow(pages: &mut Numbers, len: usize) -> Result<(), NoMemory>
    ensures long { OnOk result (len ≤ length pages.new) }
    ensures same { OnOk result ((i : ℕ) → words.number_at pages.new i ≡ words.number_at pages.old i) }
{
    for _page in pages.len()..len {
        pages.push(0)?;
    }
    Ok(())
}

/// Gives page `page` the number `number`.
fn set_number(pages: &mut Numbers, page: u64, number: u64) -> Result<(), NoMemory>
    requires { page < 18446744073709551615 }
    ensures { OnOk result ((i : ℕ) → words.number_at pages.new i ≡ (if page == i then number else words.number_at pages.old i)) }
{
    grow(pages, page as usize + 1)?;
    pages.set(page as usize, number);
    Ok(())
}

/// Makes room for `len` buffers.
fn grow_seen(seen: &mut Seen, alloc: Global, len: usize) -> Result<(), NoMemory>
    ensures long { OnOk result (len ≤ length seen.new) }
    ensures same { OnOk result ((c : ℕ) → unwrap_or (slice_get seen.new c) [] ≡ unwrap_or (slice_get seen.old c) []) }
{
    for _buffer in seen.len()..len {
        seen.push(Numbers::new(alloc))?;
    }
    Ok(())
}

/// Gives page `page` of buffer `b` the number `number`.
fn meet(seen: &mut Seen, alloc: Global, b: BufId, page: u64, number: u64) -> Result<(), NoMemory>
    requires { page < 18446744073709551615 }
    ensures { OnOk result ((c i : ℕ) → words.seen_at seen.new c i ≡ (if (c == b.0) && (page == i) then number else words.seen_at seen.old c i)) }
{
    grow_seen(seen, alloc, b.0 as usize + 1)?;
    set_number(seen.get_mut(b.0 as usize), page, number)
}

/// Gives each page of `access` the number `number`.
pub(crate) fn meet_pages(
    seen: &mut Seen,
    alloc: Global,
    access: Access,
    number: u64,
) -> Result<(), NoMemory>
    ensures { OnOk result ((c i : ℕ) → words.seen_at seen.new c i ≡ met_by access number c i (words.seen_at seen.old c i)) }
{
    for page in access.first..access.end {
        meet(seen, alloc, access.b, page, number)?;
    }
    Ok(())
}

/// Takes the number of page `page` away.
fn clear_number(pages: &mut Numbers, page: u32)
    ensures { (i : ℕ) → words.number_at pages.new i ≡ (if page == i then 0 else words.number_at pages.old i) }
{
    if (page as usize) < pages.len() {
        pages.set(page as usize, 0);
    }
}

/// Takes the number of page `page` of buffer `b` away.
fn leave_page(seen: &mut Seen, b: BufId, page: u32)
    ensures { (c i : ℕ) → words.seen_at seen.new c i ≡ (if (c == b.0) && (page == i) then 0 else words.seen_at seen.old c i) }
{
    if (b.0 as usize) < seen.len() {
        clear_number(seen.get_mut(b.0 as usize), page);
    }
}

/// Takes the numbers of the pages of buffer `b` away.
fn leave_buffer(seen: &mut Seen, b: BufId)
    ensures { (c i : ℕ) → words.seen_at seen.new c i ≡ (if c == b.0 then 0 else words.seen_at seen.old c i) }
{
    if (b.0 as usize) < seen.len() {
        seen.get_mut(b.0 as usize).clear();
    }
}

/// Takes away the numbers of the pages that leave their place by an entry of this `kind`.
pub(crate) fn leave(seen: &mut Seen, kind: &Kind)
    ensures { (c i : ℕ) → words.seen_at seen.new c i ≡ left_by kind.now c i (words.seen_at seen.old c i) }
{
    match kind {
        Kind::Free { b, .. } => leave_buffer(seen, *b),
        Kind::Move { b, .. } => leave_buffer(seen, *b),
        Kind::Bind { b } => leave_buffer(seen, *b),
        Kind::Unbind { b } => leave_buffer(seen, *b),
        Kind::SwapOut { b, page, .. } => leave_page(seen, *b, *page),
        _ => {}
    }
}
