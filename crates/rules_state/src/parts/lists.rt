ghost use Rattle.std.specs.Prelude.{◌≡◌, IfOk, OnOk, fold, length, map, option_copied, unwrap_or};
ghost use Rattle.journal_model.specs.rules.Lists as words;
ghost use Rattle.rules_state.specs.parts.Listing as listing;

use crate::{
    declared_prio, is_mate, is_member, list_number, live_in, reservation_in, without_buffer,
};
use journal_model::{BufIds, Buffer, Lists, Reservation, Script};
use std::alloc::Global;
use ttm_base::{BufId, Mem, NoMemory};

/// Returns the lists without buffer `b`.
pub fn taken_off(alloc: Global, lists: &[BufIds], b: BufId) -> Result<Lists, NoMemory>
    ensures { IfOk result (λ rest. rest ≡ words.taken_off lists.now b) }
{
    let mut rest = Lists::new(alloc);
    for list in lists {
        let kept = without_buffer(alloc, list.items(), b)?;
        rest.push(kept)?;
    }
    Ok(rest)
}

/// Returns the position at which `b` comes in `list`: after the last of its mates, or at the end.
fn place_in(script: &Script, list: &[BufId], b: BufId) -> usize
    ensures { result ≡ unwrap_or (words.behind_last (words.is_mate script.now b) list.now) (length list.now) }
{
    let mut at = list.len();
    for i in 0..list.len() {
        if is_mate(script, b, list[i]) {
            at = i + 1;
        }
    }
    at
}

/// Inserts `b` into `list` after the last of its mates, or at the end.
#[tactic(auto, using(crate::proofs::parts::OrderLaws::behind_last_within))]
fn put_in(script: &Script, list: &mut BufIds, b: BufId) -> Result<(), NoMemory>
    ensures { OnOk result (list.new ≡ words.placed_in (words.is_mate script.now b) b list.old) }
{
    let at = place_in(script, list.items(), b);
    list.insert(at, b)
}

/// Returns the memory type in whose lists a buffer stands: that of a live buffer without pins, else `None`.
pub fn listed_mem(reservation: Reservation, buffer: Option<&Buffer>) -> Option<Mem>
    ensures { result ≡ listing.listed_mem reservation (option_copied buffer.entry) }
{
    match buffer {
        Some(buffer) if reservation.pins == 0 => Some(buffer.mem),
        _ => None,
    }
}

/// Returns the lists with `b` on the list of the memory type `mem` and the buffer's priority alone, or on none if `mem` is `None`.
pub fn listed_in(
    alloc: Global,
    script: &Script,
    lists: &[BufIds],
    b: BufId,
    mem: Option<Mem>,
) -> Result<Lists, NoMemory>
    ensures { IfOk result (λ new. new ≡ listing.listed_in script.now lists.now b mem) }
{
    let mut new = taken_off(alloc, lists, b)?;
    if let Some(mem) = mem {
        let at = list_number(mem, declared_prio(script, b));
        if at < new.len() {
            put_in(script, new.get_mut(at), b)?;
        }
    }
    Ok(new)
}

/// Returns the lists after the live buffer `b` went to the memory type `mem`.
pub fn relisted(
    alloc: Global,
    script: &Script,
    buffers: &[Option<Buffer>],
    reservations: &[Reservation],
    lists: &[BufIds],
    b: BufId,
    mem: Mem,
) -> Result<Lists, NoMemory>
    ensures { IfOk result (λ new. new ≡ listing.relisted script.now buffers.now reservations.now lists.now b mem) }
{
    let listed = listed_mem(reservation_in(reservations, b), live_in(buffers, b)).map(|_| mem);
    listed_in(alloc, script, lists, b, listed)
}

/// Returns the lists after buffer `b` was touched.
#[tactic(auto, using(crate::proofs::parts::ListingLaws::listed_as_in))]
pub fn touched(
    alloc: Global,
    script: &Script,
    buffers: &[Option<Buffer>],
    reservations: &[Reservation],
    lists: &[BufIds],
    b: BufId,
) -> Result<Lists, NoMemory>
    ensures { IfOk result (λ new. new ≡ words.touched script.now buffers.now reservations.now lists.now b) }
{
    let mem = listed_mem(reservation_in(reservations, b), live_in(buffers, b));
    listed_in(alloc, script, lists, b, mem)
}

/// Returns a second list of the same buffers for each of `lists`.
fn copied(alloc: Global, lists: &[BufIds]) -> Result<Lists, NoMemory>
    ensures { IfOk result (λ copy. copy ≡ lists.now) }
{
    let mut copy = Lists::new(alloc);
    for list in lists {
        let same = list.copy()?;
        copy.push(same)?;
    }
    Ok(copy)
}

/// Returns the lists after the buffers `bs` were touched, one after another.
pub fn touched_all(
    alloc: Global,
    script: &Script,
    buffers: &[Option<Buffer>],
    reservations: &[Reservation],
    lists: &[BufIds],
    bs: &[BufId],
) -> Result<Lists, NoMemory>
    ensures { IfOk result (λ new. new ≡ fold (words.touched script.now buffers.now reservations.now) lists.now bs.now) }
{
    let mut new = copied(alloc, lists)?;
    for b in bs {
        new = touched(alloc, script, buffers, reservations, new.items(), *b)?;
    }
    Ok(new)
}

/// Returns a copy of `list` with the members of `group` after the others.
fn with_members_last(
    alloc: Global,
    script: &Script,
    group: u32,
    list: &[BufId],
) -> Result<BufIds, NoMemory>
    ensures { IfOk result (λ new. new ≡ words.members_last (words.is_member script.now group) list.now) }
{
    let mut new = BufIds::new(alloc);
    for other in list {
        if !is_member(script, group, *other) {
            new.push(*other)?;
        }
    }
    for member in list {
        if is_member(script, group, *member) {
            new.push(*member)?;
        }
    }
    Ok(new)
}

/// Returns the lists, on each the members of `group` after the others.
pub fn members_last(
    alloc: Global,
    script: &Script,
    group: u32,
    lists: &[BufIds],
) -> Result<Lists, NoMemory>
    ensures { IfOk result (λ new. new ≡ map (words.members_last (words.is_member script.now group)) lists.now) }
{
    let mut new = Lists::new(alloc);
    for list in lists {
        let moved = with_members_last(alloc, script, group, list.items())?;
        new.push(moved)?;
    }
    Ok(new)
}
