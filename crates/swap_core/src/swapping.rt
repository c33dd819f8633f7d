ghost use Rattle.std.specs.Prelude.{◌≡◌, ◌<◌, Some, true, find, length, option_map, IfOk, OnOk, OnErr};
ghost use Rattle.ttm_base.specs.declared.Actor.TheVariants as actor;
ghost use Rattle.ttm_base.specs.declared.Need.TheVariants as need;
ghost use Rattle.journal_model.specs.declared.entry.Kind.TheVariants as kind;
ghost use Rattle.journal_model.specs.declared.state.Task.TheVariants as task;
ghost use Rattle.journal_model.specs.rules.State.{buffer};
ghost use Rattle.journal_model.specs.rules.PageSteps as words;
ghost use Rattle.journal_model.specs.rules.Tasks.{task_of};
ghost use Rattle.room_state.specs.turns.Turns.{state_behind};
ghost use Rattle.room_state.specs.turns.Acting.{made_unless};
ghost use Rattle.room_state.specs.turns.Turns.{after_step, entry_of, step_of};
ghost use Rattle.swap_core.specs.Due as due;
ghost use Rattle.swap_core.specs.Due.{job_before_swap, swapped, swap_out_due};

use crate::buffers::{has_frame, live};
use journal_model::{Command, Course, Kind, Task, Why};
use room_state::turns::{Rooms, Step, turn};
use state_words::courses::why_caught;
use ttm_base::{Actor, BufId, Need, NoMemory, Usage};

/// Returns the first page of buffer `b` with a frame, or page 0. Takes constant time.
fn first_frame_page(rooms: &Rooms, b: BufId) -> u32
    ensures { result ≡ words.first_frame_page (buffer (state_behind rooms.now) b) }
{
    match live(rooms, b) {
        Some(bo) => bo.table.first_filled().unwrap_or(0),
        None => 0,
    }
}

/// Returns the entry by which the next page of buffer `b` goes to the free slot `slot`, or the job to wait for first.
fn next_of_swap(rooms: &Rooms, b: BufId, slot: u32) -> Result<Kind, Need>
    requires { b.0 < length rooms.now.script.buffers }
    ensures { result ≡ words.once_idle (state_behind rooms.now).core b (kind.SwapOut b (words.first_frame_page (buffer (state_behind rooms.now) b)) slot) }
{
    match rooms.need(b, Usage::Write) {
        Some(job) => Err(Need::Fence(job)),
        None => Ok(Kind::SwapOut {
            b,
            page: first_frame_page(rooms, b),
            slot,
        }),
    }
}

/// Returns buffer `b` where it was caught for swap.
fn if_for_swap(course: &Course, b: BufId) -> Option<BufId>
    ensures { result ≡ due.if_for_swap b (words.why_caught course.now b) }
{
    match why_caught(course, b) {
        Some(Why::Swap) => Some(b),
        _ => None,
    }
}

/// Returns whether a page of buffer `b` can go to a slot: the buffer has a frame, and a slot is free.
pub fn can_swap(rooms: &Rooms, b: BufId) -> bool
    ensures { result ≡ due.can_swap rooms.now.script (state_behind rooms.now) (Some b) }
{
    has_frame(rooms, b) && rooms.free_slot().is_some()
}

/// Returns whether a SwapOut of the victim `b` of `thread` is due: it was caught for swap, has a frame, and a slot is free. It is due whether the
/// buffer is idle or not.
pub fn is_victim_due(rooms: &Rooms, thread: u32, b: BufId) -> bool
    requires { task_of rooms.now.script (state_behind rooms.now) thread ≡ task.Empty b }
    ensures due { result ≡ swap_out_due rooms.now.script (state_behind rooms.now) thread }
    ensures victim { result ≡ true → swapped rooms.now.script (state_behind rooms.now) thread ≡ Some b }
{
    match if_for_swap(rooms.course(thread), b) {
        Some(_) => can_swap(rooms, b),
        None => false,
    }
}

/// Returns the buffer whose frames go to slots, or None where `thread` has none.
fn swapped_buffer(rooms: &Rooms, thread: u32) -> Option<BufId>
    ensures { result ≡ swapped rooms.now.script (state_behind rooms.now) thread }
{
    match rooms.task(thread) {
        Task::Empty(b) => if_for_swap(rooms.course(thread), b),
        Task::Act => match rooms.command(thread) {
            Some(Command::SwapOut { b }) => Some(*b),
            _ => None,
        },
        _ => None,
    }
}

/// Returns whether a SwapOut of `thread` is due: a victim that was caught for swap, or the buffer of a swapout that is at work, has a frame, and a
/// slot is free. It is due whether the buffer is idle or not. Takes time as `Rooms::task` does.
pub fn is_swap_out_due(rooms: &Rooms, thread: u32) -> bool
    ensures { result ≡ swap_out_due rooms.now.script (state_behind rooms.now) thread }
{
    match swapped_buffer(rooms, thread) {
        Some(b) => can_swap(rooms, b),
        None => false,
    }
}

/// Moves the first page with a frame of buffer `b`, a victim that was caught for swap or the buffer of a swapout, to the lowest free slot, once the
/// SwapOut of `thread` is due (ttm_tt_swapout). Where jobs use the buffer, returns the one to wait for first.
///
/// # Errors
///
/// Lack of memory; nothing is changed.
pub fn swap_out(rooms: &mut Rooms, thread: u32, b: BufId) -> Result<Step, NoMemory>
    requires buffer { swapped rooms.old.script (state_behind rooms.old) thread ≡ Some b }
    requires due { swap_out_due rooms.old.script (state_behind rooms.old) thread ≡ true }
    ensures step { IfOk result (λ step. step ≡ step_of (entry_of rooms.old (actor.Thread thread))) }
    ensures waits { IfOk result (λ step. step ≡ made_unless (option_map need.Fence (job_before_swap rooms.old.script (state_behind rooms.old) thread))) }
    ensures made { OnOk result (rooms.new ≡ after_step rooms.old (entry_of rooms.old (actor.Thread thread))) }
    ensures err { OnErr result (rooms.new ≡ rooms.old) }
{
    let _legal = rooms.journal();
    let Some(slot) = rooms.free_slot() else {
        unreachable!()
    };
    let next = next_of_swap(rooms, b, slot);
    turn(rooms, Actor::Thread(thread), next)
}

/// Moves the first page with a frame of a victim that was caught for swap, or of the buffer of a swapout, to the lowest free slot, once the SwapOut
/// of `thread` is due (ttm_tt_swapout).
///
/// # Errors
///
/// Lack of memory; nothing is changed.
pub fn swap_out_page(rooms: &mut Rooms, thread: u32) -> Result<Step, NoMemory>
    requires { swap_out_due rooms.old.script (state_behind rooms.old) thread ≡ true }
    ensures step { IfOk result (λ step. step ≡ step_of (entry_of rooms.old (actor.Thread thread))) }
    ensures waits { IfOk result (λ step. step ≡ made_unless (option_map need.Fence (job_before_swap rooms.old.script (state_behind rooms.old) thread))) }
    ensures made { OnOk result (rooms.new ≡ after_step rooms.old (entry_of rooms.old (actor.Thread thread))) }
    ensures err { OnErr result (rooms.new ≡ rooms.old) }
{
    let Some(b) = swapped_buffer(rooms, thread) else {
        unreachable!()
    };
    swap_out(rooms, thread, b)
}
