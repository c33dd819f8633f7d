ghost use Rattle.std.specs.Prelude.{◌≡◌, ◌+◌, ◌<◌, ◌≤◌, ◌^◌, IfOk, IfSome, None, Some, if◌then◌else◌, length, not, option_copied, position};
ghost use Rattle.journal_model.specs.rules.State as states;
ghost use Rattle.journal_model.specs.rules.Places.{is_frame, loc_of};
ghost use Rattle.journal_model.specs.rules.Dry.{has_frame};
ghost use Rattle.journal_model.specs.rules.Holds as holds;
ghost use Rattle.journal_model.specs.rules.PageSteps as words;
ghost use Rattle.rules_holds.specs.Free.{AreFree};
ghost use Rattle.rules_search.specs.Room.{HasRoom};
ghost use Rattle.rules_search.specs.Swaps.{IsSwap};

use crate::Step;
use crate::dry::{ghost_with_frame, swap_victim};
use journal_model::{Buffer, Core, Course, Kind, Left, Script, State, Why};
use rules_holds::{FreeSets, free_frame, free_slot, waited_before_write};
use rules_state::parts::courses::why_caught;
use rules_state::{
    Standing, buffer_in, dead_buffer, filled_by, is_caught, is_frame, loc_of, target_to_untake,
    unless_waiting,
};
use std::alloc::Global;
use ttm_base::{BufId, JobId, Loc, Mem, Need, NoMemory};

/// Returns the entry `kind`, unless a job of buffer `b` isn't done.
pub fn once_idle(alloc: Global, core: &Core, b: BufId, kind: Kind) -> Step
    ensures { result ≡ words.once_idle core.now b kind }
{
    let dead = dead_buffer(alloc);
    let job = waited_before_write(core, buffer_in(core, b, &dead));
    unless_waiting(job, kind)
}

/// Returns the position of the first page without a frame, or `None` if each page has one.
fn first_empty(table: &[Loc]) -> Option<usize>
    ensures value { result ≡ position (λ l. not (is_frame l)) table.now }
    ensures bound { IfSome result (λ page. page < length table.now) }
{
    table.iter().position(|loc| !is_frame(*loc))
}

/// Returns the first page of `buffer` without a frame, or page 0.
fn page_to_fill(buffer: &Buffer) -> u32
    requires { length buffer.now.table ≤ 2 ^ 32 }
    ensures { result ≡ words.page_to_fill buffer.now }
{
    match first_empty(buffer.table.items()) {
        Some(page) => page as u32,
        None => 0,
    }
}

/// Returns the lowest free frame, by `free` where it is given, or `None` if no frame is free.
fn frame_to_give(
    alloc: Global,
    script: &Script,
    core: &Core,
    free: Option<&FreeSets>,
) -> Result<Option<u32>, NoMemory>
    requires { IfSome (option_copied free) (AreFree script.now core.now) }
    ensures { IfOk result (λ frame. frame ≡ holds.free_frame script.now core.now) }
{
    match free {
        Some(free) => Ok(free.frames.lowest()),
        None => free_frame(alloc, script, core),
    }
}

/// Returns the lowest free swap slot, by `free` where it is given, or `None` if no slot is free.
fn slot_to_give(
    alloc: Global,
    script: &Script,
    core: &Core,
    free: Option<&FreeSets>,
) -> Result<Option<u32>, NoMemory>
    requires { IfSome (option_copied free) (AreFree script.now core.now) }
    ensures { IfOk result (λ slot. slot ≡ holds.free_slot script.now core.now) }
{
    match free {
        Some(free) => Ok(free.slots.lowest()),
        None => free_slot(alloc, script, core),
    }
}

/// Returns the step of a buffer for which no frame is free: it catches a victim for swap, where a slot is free; else a ghost will give a
/// frame, or there is none.
fn step_without_frame(
    alloc: Global,
    script: &Script,
    state: &State,
    free: Option<&FreeSets>,
    b: BufId,
) -> Result<Step, NoMemory>
    requires { IfSome (option_copied free) (AreFree script.now state.now.core) }
    ensures { IfOk result (λ step. step ≡ words.step_without_frame script.now state.now b) }
{
    if slot_to_give(alloc, script, &state.core, free)?.is_some() {
        if let Some(v) = swap_victim(alloc, state)? {
            return Ok(Ok(Kind::Catch {
                b: v,
                why: Why::Swap,
            }));
        }
    }
    match ghost_with_frame(state) {
        Some(g) => Ok(Err(Need::Ghost(g.num))),
        None => Ok(Ok(Kind::NoPages { b })),
    }
}

/// Returns the entry that gives the next page without a frame `frame`: a fresh page, or one that comes back from swap.
fn filled_with(alloc: Global, core: &Core, b: BufId, frame: u32) -> Kind
    requires { length (states.buffer_in core.now b).table ≤ 2 ^ 32 }
    ensures { result ≡ words.filled_by b (words.page_to_fill (states.buffer_in core.now b)) frame (loc_of (states.buffer_in core.now b) (words.page_to_fill (states.buffer_in core.now b))) }
{
    let dead = dead_buffer(alloc);
    let buffer = buffer_in(core, b, &dead);
    let page = page_to_fill(buffer);
    filled_by(b, page, frame, loc_of(buffer, page))
}

/// Gives the next page the lowest free frame, or without one catches a victim for swap. `free` is what is free in `state`; without it that
/// is found anew.
pub fn step_of_fill(
    alloc: Global,
    script: &Script,
    state: &State,
    free: Option<&FreeSets>,
    b: BufId,
) -> Result<Step, NoMemory>
    requires room { HasRoom script.now state.now }
    requires free { IfSome (option_copied free) (AreFree script.now state.now.core) }
    ensures { IfOk result (λ step. step ≡ words.step_of_fill script.now state.now b) }
{
    match frame_to_give(alloc, script, &state.core, free)? {
        Some(frame) => Ok(Ok(filled_with(alloc, &state.core, b, frame))),
        None => step_without_frame(alloc, script, state, free, b),
    }
}

/// Returns the position of the first page with a frame, or `None` if none has one.
fn first_frame(table: &[Loc]) -> Option<usize>
    ensures value { result ≡ position is_frame table.now }
    ensures bound { IfSome result (λ page. page < length table.now) }
{
    table.iter().position(|loc| is_frame(*loc))
}

/// Returns the first page of `buffer` with a frame, or page 0.
fn first_frame_page(buffer: &Buffer) -> u32
    requires { length buffer.now.table ≤ 2 ^ 32 }
    ensures { result ≡ words.first_frame_page buffer.now }
{
    match first_frame(buffer.table.items()) {
        Some(page) => page as u32,
        None => 0,
    }
}

/// What comes of the wish to swap out a page of a buffer.
#[derive(Drop)]
pub enum Swap {
    NoFrame,
    NoSlot,
    Page(Step),
}

/// Returns the next page of buffer `b` to swap out, if the buffer has a frame.
fn page_to_swap(alloc: Global, core: &Core, b: BufId) -> Option<u32>
    requires { length (states.buffer_in core.now b).table ≤ 2 ^ 32 }
    ensures { result ≡ (if has_frame (states.buffer_in core.now b) then Some (words.first_frame_page (states.buffer_in core.now b)) else None) }
{
    let dead = dead_buffer(alloc);
    let buffer = buffer_in(core, b, &dead);
    if buffer.has_frame() {
        Some(first_frame_page(buffer))
    } else {
        None
    }
}

/// Swaps out the next page of buffer `b`, if it has a frame and a slot is free. `free` is what is free in `state`; without it that is found
/// anew.
pub fn swap_out(
    alloc: Global,
    script: &Script,
    state: &State,
    free: Option<&FreeSets>,
    b: BufId,
) -> Result<Swap, NoMemory>
    requires room { HasRoom script.now state.now }
    requires free { IfSome (option_copied free) (AreFree script.now state.now.core) }
    ensures { IfOk result (IsSwap script.now state.now b) }
{
    let Some(page) = page_to_swap(alloc, &state.core, b) else {
        return Ok(Swap::NoFrame);
    };
    match slot_to_give(alloc, script, &state.core, free)? {
        None => Ok(Swap::NoSlot),
        Some(slot) => {
            let kind = Kind::SwapOut { b, page, slot };
            Ok(Swap::Page(once_idle(alloc, &state.core, b, kind)))
        }
    }
}

/// Empties the victim `b` as far as can be, and lets it go. `free` is what is free in `state`; without it that is found anew.
pub fn step_of_empty(
    alloc: Global,
    script: &Script,
    state: &State,
    free: Option<&FreeSets>,
    course: &Course,
    b: BufId,
) -> Result<Step, NoMemory>
    requires room { HasRoom script.now state.now }
    requires free { IfSome (option_copied free) (AreFree script.now state.now.core) }
    ensures { IfOk result (λ step. step ≡ words.step_of_empty script.now state.now course.now b) }
{
    match why_caught(course, b) {
        Some(Why::Swap) => match swap_out(alloc, script, state, free, b)? {
            Swap::Page(step) => Ok(step),
            Swap::NoFrame | Swap::NoSlot => Ok(Ok(Kind::Loose { b })),
        },
        _ => Ok(Ok(Kind::Loose { b })),
    }
}

/// Returns the number of the next job of the context `ctx`.
pub fn next_job(state: &State, ctx: u32) -> u64
    requires { words.next_job state.now ctx < 2 ^ 64 }
    ensures { result ≡ words.next_job state.now ctx }
{
    match state.last_jobs.items().get(ctx as usize) {
        Some(last) => *last + 1,
        None => 1,
    }
}

/// Returns the number of the next ghost.
pub fn next_ghost(state: &State) -> u64
    requires { state.now.last_ghost + 1 < 2 ^ 64 }
    ensures { result ≡ words.next_ghost state.now }
{
    state.last_ghost + 1
}

/// Moves buffer `b` to the memory type `mem`: a victim's old pages in VRAM are free at once; others stay with a ghost.
pub fn step_of_move(script: &Script, state: &State, course: &Course, b: BufId, mem: Mem) -> Step
    requires { HasRoom script.now state.now }
    ensures { result ≡ words.step_of_move state.now course.now b mem }
{
    let left = if is_caught(course, b) {
        Left::Now
    } else {
        Left::Ghost(next_ghost(state))
    };
    Ok(Kind::Move {
        b,
        mem,
        num: next_job(state, 0),
        left,
    })
}

/// Gives back what a failed search took.
pub fn step_of_give_back(alloc: Global, state: &State, b: BufId) -> Step
    ensures { result ≡ words.step_of_give_back state.now b }
{
    let dead = dead_buffer(alloc);
    let buffer = buffer_in(&state.core, b, &dead);
    match buffer.mem {
        Mem::Vram if buffer.has_frame() => Ok(Kind::Depopulate { b }),
        _ => Ok(Kind::Untake {
            b,
            mem: target_to_untake(&buffer.targets),
        }),
    }
}
