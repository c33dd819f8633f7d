ghost use Rattle.std.specs.Prelude.{◌<◌, ◌≤◌, length};
ghost use Rattle.laws.specs.lemma_bytes_told.Told.{IsThere};
ghost use Rattle.room_state.specs.Kept.{state_behind};
ghost use Rattle.test_device.specs.Steps.{AreInStep};

use super::accounts::{are_kept, are_same_accounts};
use super::difference::{Stop, agree_all, agree_on};
use super::replay::Replay;
use aperture_table::Aperture;
use bo_table::BoTable;
use copy_packet::ProbeBytes;
use journal_model::{Course, Script, State};
use lru_bulk::Lru;
use plain_accounts::accounts_of;
use rules_holds::{free_frame, free_slot, waited_before_read, waited_before_write};
use rules_state::{declared_pages, list_number, live_in};
use rules_stores::StorePage;
use std::alloc::Global;
use ttm_base::{BufId, JobId, Mem, PagePlace, Usage};

/// The bytes of a page.
const PAGE: u32 = 4096;

/// The number of bytes that are shown at once.
const PIECE: u32 = 256;

/// Compares the bytes of each page of a live buffer.
fn compare_pages(replay: &Replay, b: BufId, seen: &mut ProbeBytes) -> Result<(), Stop>
    requires { IsThere (state_behind replay.now.rooms) b }
{
    let plain = &replay.plain;
    let mut wanted = [0; PIECE as usize];
    let mut is_same = true;
    for piece in 0..declared_pages(plain.script(), b).saturating_mul(PAGE / PIECE) {
        let at = piece.saturating_mul(PIECE);
        replay.rooms.shown(b, at, PIECE, seen);
        let place = StorePage::of(&plain.state().core, b, at / PAGE);
        plain.stores().read(place, at % PAGE, &mut wanted);
        is_same &= seen.bytes() == wanted.as_slice();
    }
    agree_on(is_same, "other bytes on a page of buffer ", u64::from(b.0))
}

/// Returns whether the table has a live buffer of that number.
fn is_alive(bos: &BoTable, b: BufId) -> bool {
    (b.0 as usize) < bos.len() && bos.get(b).alive
}

/// Compares what is to be known of buffer `b`: whether it is live, and if it is, the jobs to wait for before it is used, and its bytes.
fn compare_buffer(replay: &Replay, b: BufId, seen: &mut ProbeBytes) -> Result<(), Stop>
    requires step { AreInStep replay.now.plain replay.now.rooms }
    requires declared { b.0 < length replay.now.rooms.script.buffers }
{
    let number = u64::from(b.0);
    let rooms = &replay.rooms;
    let core = &replay.plain.state().core;
    let alive = is_alive(rooms.bos(), b);
    let Some(buffer) = live_in(core.buffers.items(), b) else {
        return agree_on(!alive, "another life of buffer ", number);
    };
    let same_write = rooms.need(b, Usage::Write) == waited_before_write(core, buffer);
    let same_read = rooms.need(b, Usage::Read) == waited_before_read(core, buffer);
    agree_on(alive, "another life of buffer ", number)
        .and(agree_on(same_write & same_read, "other jobs before buffer ", number))
        .and(compare_pages(replay, b, seen))
}

/// Counts the declared buffers. No script that has a spelling declares more than 32 bits hold.
fn declared(script: &Script) -> u32
    ensures { result ≤ length script.now.buffers }
{
    match u32::try_from(script.buffers.len()) {
        Ok(count) => count,
        Err(_) => 0,
    }
}

fn compare_buffers(replay: &Replay, alloc: Global) -> Result<(), Stop>
    requires { AreInStep replay.now.plain replay.now.rooms }
{
    let mut seen = ProbeBytes::new(alloc)?;
    let mut found = Ok(());
    for i in 0..declared(replay.rooms.script()) {
        found = found.and(compare_buffer(replay, BufId(i), &mut seen));
    }
    found
}

/// Returns the frame that the plain device has at page `page` of TT.
fn frame_at(state: &State, page: u32) -> Option<u32> {
    match StorePage::named(&state.core, PagePlace::Aper(page)) {
        StorePage::Frame(frame) => Some(frame),
        _ => None,
    }
}

/// Compares the frame that each of `pages` pages of TT stands for.
fn compare_aperture(aperture: &Aperture, pages: u32, state: &State) -> Result<(), Stop>
    requires { pages ≤ length aperture.now }
{
    let mut found = Ok(());
    for page in 0..pages {
        let same = aperture.get(page) == frame_at(state, page);
        found = found.and(agree_on(same, "another frame at page of TT ", u64::from(page)));
    }
    found
}

/// Returns whether the list from `first` on has these buffers in this order.
fn is_same_list(lru: &Lru, first: Option<BufId>, wanted: &[BufId]) -> bool {
    let mut listed = first;
    let mut same = true;
    for b in wanted {
        same &= listed == Some(*b);
        listed = if lru.is_listed(*b) {
            lru.next(*b)
        } else {
            None
        };
    }
    same & listed.is_none()
}

/// Compares the list of the number `number`: those of each memory type are four, by their priorities.
fn compare_list(lru: &Lru, state: &State, number: u32) -> Result<(), Stop> {
    let mem = match number / 4 {
        0 => Mem::System,
        1 => Mem::Tt,
        _ => Mem::Vram,
    };
    let prio = number % 4;
    let first = lru.first(mem, prio);
    let same = match state.lists.items().get(list_number(mem, prio)) {
        Some(list) => is_same_list(lru, first, list.items()),
        None => first.is_none(),
    };
    agree_on(same, "another order of list ", u64::from(number))
}

/// Compares the twelve lists.
fn compare_lists(lru: &Lru, state: &State) -> Result<(), Stop> {
    let mut found = Ok(());
    for number in 0..12 {
        found = found.and(compare_list(lru, state, number));
    }
    found
}

/// Returns the first job of the context `ctx` that isn't finished.
fn head_of(state: &State, ctx: u32) -> Option<JobId> {
    for job in state.core.jobs.pending() {
        if job.id.ctx == ctx && !job.finished {
            return Some(job.id);
        }
    }
    None
}

/// Compares the next and the first job of each context.
fn compare_jobs(replay: &Replay) -> Result<(), Stop> {
    let state = replay.plain.state();
    let rooms = &replay.rooms;
    let mut found = Ok(());
    for ctx in 0..=rooms.script().sizes.engines {
        let last = state.last_jobs.items().get(ctx as usize).copied();
        let next = last.unwrap_or(0).checked_add(1);
        let same = (next == Some(rooms.next_job(ctx))) & (head_of(state, ctx) == rooms.head(ctx));
        found = found.and(agree_on(same, "other jobs of context ", u64::from(ctx)));
    }
    found
}

/// Compares the last ticket and ghost, the first ghost, how many entries there are, and whether all is over.
fn compare_numbers(replay: &Replay) -> Result<(), Stop> {
    let plain = &replay.plain;
    let state = plain.state();
    let rooms = &replay.rooms;
    let same_stamp = state.last_stamp.checked_add(1) == Some(rooms.next_stamp().0);
    let first = match state.core.ghosts.items().first() {
        Some(left) => Some(left.num),
        None => None,
    };
    let same_next = state.last_ghost.checked_add(1) == Some(rooms.next_ghost());
    let same_first = first == rooms.first_ghost();
    let same_count = plain.journal().len() == rooms.journal().len();
    agree_all(&[
        (same_stamp, "another stamp"),
        (same_next & same_first, "other ghosts"),
        (plain.over() == rooms.over(), "another end on the parts"),
        (same_count, "another number of entries on the parts"),
    ])
}

/// Compares how many commands each thread has answered.
fn compare_answered(kept: &[Course], wanted: &[Course]) -> Result<(), Stop> {
    let mut found = Ok(());
    for i in 0..wanted.len() {
        let same = match kept.get(i) {
            Some(course) => course.answered == wanted[i].answered,
            None => false,
        };
        found = found.and(agree_on(same, "another place of thread from 0 ", i as u64));
    }
    found
}

/// Compares the lowest free frame and slot.
fn compare_free(replay: &Replay, alloc: Global) -> Result<(), Stop> {
    let script = replay.plain.script();
    let core = &replay.plain.state().core;
    match (
        free_frame(alloc, script, core),
        free_slot(alloc, script, core),
    ) {
        (Ok(frame), Ok(slot)) => agree_all(&[
            (
                replay.rooms.free_frame() == frame,
                "another lowest free frame",
            ),
            (replay.rooms.free_slot() == slot, "another lowest free slot"),
        ]),
        _ => Err(Stop::NoMemory),
    }
}

/// Compares the counts of pages, frames and slots that are held or free.
fn compare_accounts(replay: &Replay, alloc: Global) -> Result<(), Stop> {
    let wanted = accounts_of(alloc, replay.plain.script(), replay.plain.state())?;
    let rooms = &replay.rooms;
    let held = room_accounts::accounts_of(rooms.parts(), rooms.script(), rooms.journal());
    agree_all(&[
        (are_same_accounts(&held, &wanted), "other accounts"),
        (
            are_kept(rooms.parts(), &wanted),
            "other accounts that are kept",
        ),
    ])
}

/// Compares what the parts tell with what the plain device does.
pub fn compare_parts(replay: &Replay, alloc: Global) -> Result<(), Stop>
    requires { AreInStep replay.now.plain replay.now.rooms }
{
    let rooms = &replay.rooms;
    let state = replay.plain.state();
    let pages = rooms.script().sizes.tt;
    compare_numbers(replay)
        .and(compare_answered(rooms.parts().courses.items(), state.courses.items()))
        .and(compare_jobs(replay))
        .and(compare_lists(rooms.lru(), state))
        .and(compare_aperture(rooms.aperture(), pages, state))
        .and(compare_free(replay, alloc))
        .and(compare_accounts(replay, alloc))
        .and(compare_buffers(replay, alloc))
}
