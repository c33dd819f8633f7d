ghost use Rattle.std.specs.Prelude.{◌≡◌, ◌<◌, false, Some, IfOk, OnOk, OnErr, length};
ghost use Rattle.ttm_base.specs.declared.Actor.TheVariants as actor;
ghost use Rattle.journal_model.specs.declared.state.Task.TheVariants as task;
ghost use Rattle.journal_model.specs.rules.Tasks.{task_of};
ghost use Rattle.room_state.specs.turns.BufferSearches.{seen};
ghost use Rattle.room_state.specs.turns.Searching.{buffer_search_of, finds_choice};
ghost use Rattle.room_state.specs.turns.Turns.{after_step, entry_of, state_behind, step_of};

use evict_core::{catch_victim, note_dry, release_victim, skip_victim};
use ghost_destroy::hold;
use journal_model::{Command, Task};
use move_pipeline::{bind, move_to_target, release_target, take_pages, unbind};
use room_state::turns::{BufferSearch, Rooms, Step, buffer_search_for};
use std::alloc::Global;
use swap_core::{
    can_swap, fill_buffer, give_back_frames, has_frame_in_vram, is_victim_due, swap_out,
};
use ttm_base::{BufId, Need, NoMemory};
use validate_list::{answer, lock_buffer, perform, refuse_for, start};

/// Catches a buffer to evict for `buffer_search`, which finds no pages; without one, notes the place at work as dry.
fn make_room(
    alloc: Global,
    rooms: &mut Rooms,
    thread: u32,
    buffer_search: BufferSearch,
) -> Result<Step, NoMemory>
    requires at { buffer_search_of rooms.old.script (state_behind rooms.old) thread ≡ Some (seen rooms.old.script buffer_search) }
    requires none { finds_choice rooms.old.script (state_behind rooms.old) thread ≡ false }
    ensures step { IfOk result (λ step. step ≡ step_of (entry_of rooms.old (actor.Thread thread))) }
    ensures made { OnOk result (rooms.new ≡ after_step rooms.old (entry_of rooms.old (actor.Thread thread))) }
    ensures err { OnErr result (rooms.new ≡ rooms.old) }
{
    if catch_victim(rooms, thread, buffer_search)? {
        return Ok(Step::Made);
    }
    note_dry(alloc, rooms, thread, buffer_search)
}

/// Takes the pages that `buffer_search` finds; where it finds none, makes room.
fn search(
    alloc: Global,
    rooms: &mut Rooms,
    thread: u32,
    buffer_search: BufferSearch,
) -> Result<Step, NoMemory>
    requires at { buffer_search_of rooms.old.script (state_behind rooms.old) thread ≡ Some (seen rooms.old.script buffer_search) }
    requires declared { buffer_search.b.0 < length rooms.old.script.buffers }
    ensures step { IfOk result (λ step. step ≡ step_of (entry_of rooms.old (actor.Thread thread))) }
    ensures made { OnOk result (rooms.new ≡ after_step rooms.old (entry_of rooms.old (actor.Thread thread))) }
    ensures err { OnErr result (rooms.new ≡ rooms.old) }
{
    if take_pages(rooms, thread, buffer_search)? {
        return Ok(Step::Made);
    }
    make_room(alloc, rooms, thread, buffer_search)
}

/// Swaps out the pages of the victim `b` as far as that is due, and then lets it go.
fn empty(rooms: &mut Rooms, thread: u32, b: BufId) -> Result<Step, NoMemory>
    requires { task_of rooms.old.script (state_behind rooms.old) thread ≡ task.Empty b }
    ensures step { IfOk result (λ step. step ≡ step_of (entry_of rooms.old (actor.Thread thread))) }
    ensures made { OnOk result (rooms.new ≡ after_step rooms.old (entry_of rooms.old (actor.Thread thread))) }
    ensures err { OnErr result (rooms.new ≡ rooms.old) }
{
    if is_victim_due(rooms, thread, b) {
        swap_out(rooms, thread, b)
    } else {
        release_victim(rooms, thread, b)
    }
}

/// Gives back what a failed search took for buffer `b`, first frames, then targets.
fn give_back(rooms: &mut Rooms, thread: u32, b: BufId) -> Result<Step, NoMemory>
    requires { task_of rooms.old.script (state_behind rooms.old) thread ≡ task.GiveBack b }
    ensures step { IfOk result (λ step. step ≡ step_of (entry_of rooms.old (actor.Thread thread))) }
    ensures made { OnOk result (rooms.new ≡ after_step rooms.old (entry_of rooms.old (actor.Thread thread))) }
    ensures err { OnErr result (rooms.new ≡ rooms.old) }
{
    if has_frame_in_vram(rooms, b) {
        give_back_frames(rooms, thread, b)
    } else {
        release_target(rooms, thread, b)
    }
}

/// Does what a command is for. A Free, and a SwapOut of each page, are entries of their own.
fn work(alloc: Global, rooms: &mut Rooms, thread: u32) -> Result<Step, NoMemory>
    requires { task_of rooms.old.script (state_behind rooms.old) thread ≡ task.Act }
    ensures step { IfOk result (λ step. step ≡ step_of (entry_of rooms.old (actor.Thread thread))) }
    ensures made { OnOk result (rooms.new ≡ after_step rooms.old (entry_of rooms.old (actor.Thread thread))) }
    ensures err { OnErr result (rooms.new ≡ rooms.old) }
{
    match rooms.command(thread) {
        Some(Command::Free { .. }) => hold(rooms, thread),
        Some(Command::SwapOut { b }) if can_swap(rooms, *b) => {
            let b = *b;
            swap_out(rooms, thread, b)
        }
        _ => perform(alloc, rooms, thread),
    }
}

/// Takes a turn of `thread`, by its task, which is found once. A thread that the script doesn't have is idle.
pub(crate) fn turn_of_thread(
    alloc: Global,
    rooms: &mut Rooms,
    thread: u32,
) -> Result<Step, NoMemory>
    ensures step { IfOk result (λ step. step ≡ step_of (entry_of rooms.old (actor.Thread thread))) }
    ensures made { OnOk result (rooms.new ≡ after_step rooms.old (entry_of rooms.old (actor.Thread thread))) }
    ensures err { OnErr result (rooms.new ≡ rooms.old) }
{
    match rooms.task(thread) {
        Task::Idle => Ok(Step::Need(Need::NoCommand)),
        Task::Start => start(rooms, thread),
        Task::Lock(b) => lock_buffer(rooms, thread, b),
        Task::Search { b, aim } => {
            let buffer_search = buffer_search_for(rooms, thread, b, aim);
            search(alloc, rooms, thread, buffer_search)
        }
        Task::Bind(b) => bind(rooms, thread, b),
        Task::Unbind(b) => unbind(rooms, thread, b),
        Task::Move { b, mem } => move_to_target(rooms, thread, b, mem),
        Task::Fill(b) => fill_buffer(rooms, thread, b),
        Task::Empty(b) => empty(rooms, thread, b),
        Task::GiveBack(b) => give_back(rooms, thread, b),
        Task::Skip(b) => skip_victim(rooms, thread, b),
        Task::GiveUp(deny) | Task::Refuse(deny) => refuse_for(rooms, thread, deny),
        Task::Answer => answer(rooms, thread),
        Task::Act => work(alloc, rooms, thread),
    }
}
