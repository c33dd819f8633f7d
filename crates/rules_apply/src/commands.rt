ghost use Rattle.std.specs.Prelude.{◌≡◌, ◌==◌, ◌++◌, ◌∷◌, [], if◌then◌else◌, IfOk, OnOk, OnErr, filter, fold, option_copied};
ghost use Rattle.journal_model.specs.rules.State as words;
ghost use Rattle.journal_model.specs.rules.ApplyCommands as rows;
ghost use Rattle.journal_model.specs.rules.ApplyCommands.{after_new, after_free, after_bulk, after_result, named_in, released, with_pins};
ghost use Rattle.journal_model.specs.rules.Lists.{touched};
ghost use Rattle.rules_state.specs.parts.Pins.{HasPinsLeft};
ghost use Rattle.rules_apply.specs.Ready.{IsThread, CanShowResult};

use crate::moves::ghost_of;
use journal_model::{
    BufIds, Buffer, Command, Core, Ghost, Lists, Reservation, Reservations, Script, State,
};
use rules_holds::unfinished_before_write;
use rules_state::parts::buffers::put_item;
use rules_state::parts::lists::{listed_in, members_last, taken_off, touched_all};
use rules_state::parts::reservations::{change_pins, release_all};
use rules_state::{
    buffer_in, command_at_work, dead_buffer, declared_pages, frames_of, has_buffer, new_buffer,
    new_course, no_reservation, without_buffer,
};
use state_words::named_in;
use std::alloc::Global;
use ttm_base::{BufId, Mem, NoMemory};

/// Makes buffer `b` for the thread numbered `thread`. Without memory it leaves `state` as it was.
pub fn make(
    alloc: Global,
    script: &Script,
    state: &mut State,
    thread: u32,
    b: BufId,
) -> Result<(), NoMemory>
    requires { IsThread state.old thread }
    ensures ok { OnOk result (state.new ≡ after_new script.now state.old thread b) }
    ensures err { OnErr result (state.new ≡ state.old) }
{
    let buffer = new_buffer(alloc, declared_pages(script, b))?;
    let lists = listed_in(alloc, script, state.lists.items(), b, Some(Mem::System))?;
    put_item(&mut state.core.buffers, b.0, Some(buffer));
    put_item(&mut state.reservations, b.0, no_reservation());
    state.lists = lists;
    let course = state.courses.get_mut(thread as usize - 1);
    course.made = true;
    Ok(())
}

/// Returns the ghost numbered `num` that `buffer`, which has unfinished jobs, leaves when it is freed.
fn ghost_of_freed(alloc: Global, core: &Core, buffer: &Buffer, num: u64) -> Result<Ghost, NoMemory>
    ensures { IfOk result (λ left. left ≡ rows.ghost_of_freed core.now buffer.now num) }
{
    let frames = frames_of(alloc, buffer)?;
    let jobs = unfinished_before_write(alloc, core, buffer)?;
    ghost_of(alloc, buffer, num, frames, jobs)
}

/// Returns the ghost numbered `num` that buffer `b` of `core` leaves when it is freed.
fn ghost_of_buffer(alloc: Global, core: &Core, b: BufId, num: u64) -> Result<Ghost, NoMemory>
    ensures { IfOk result (λ left. left ≡ rows.ghost_of_freed core.now (words.buffer_in core.now b) num) }
{
    let dead = dead_buffer(alloc);
    ghost_of_freed(alloc, core, buffer_in(core, b, &dead), num)
}

/// Adds the ghost of the freed buffer `b` to `state`, the last one from now on. The number 0 is that of no ghost. Without memory it leaves
/// `state` as it was.
fn leave_ghost(alloc: Global, state: &mut State, b: BufId, num: u64) -> Result<(), NoMemory>
    ensures ok { OnOk result (state.new ≡ record state.old { core = record state.old.core { ghosts = (if num == 0 then state.old.core.ghosts else state.old.core.ghosts ++ rows.ghost_of_freed state.old.core (words.buffer state.old b) num ∷ []) }; last_ghost = (if num == 0 then state.old.last_ghost else num) }) }
    ensures err { OnErr result (state.new ≡ state.old) }
{
    if num != 0 {
        let left = ghost_of_buffer(alloc, &state.core, b, num)?;
        state.core.ghosts.push(left)?;
        state.last_ghost = num;
    }
    Ok(())
}

/// Frees buffer `b` for the thread numbered `thread` (ttm_bo_release). The buffer leaves a ghost numbered `num` if that isn't 0. Without
/// memory it leaves `state` as it was.
pub fn free(
    alloc: Global,
    state: &mut State,
    thread: u32,
    b: BufId,
    num: u64,
) -> Result<(), NoMemory>
    requires { IsThread state.old thread }
    ensures ok { OnOk result (state.new ≡ after_free state.old thread b num) }
    ensures err { OnErr result (state.new ≡ state.old) }
{
    let lists = taken_off(alloc, state.lists.items(), b)?;
    let course = state.courses.get(thread as usize - 1);
    let held = without_buffer(alloc, course.held.items(), b)?;
    leave_ghost(alloc, state, b, num)?;
    put_item(&mut state.core.buffers, b.0, None);
    put_item(&mut state.reservations, b.0, no_reservation());
    state.lists = lists;
    let course = state.courses.get_mut(thread as usize - 1);
    course.held = held;
    course.made = true;
    Ok(())
}

/// Puts the buffers of `group` at the end of their lists (ttm_lru_bulk_move_tail). Without memory it leaves `state` as it was.
pub fn bulk(
    alloc: Global,
    script: &Script,
    state: &mut State,
    thread: u32,
    group: u32,
) -> Result<(), NoMemory>
    requires { IsThread state.old thread }
    ensures ok { OnOk result (state.new ≡ after_bulk script.now state.old thread group) }
    ensures err { OnErr result (state.new ≡ state.old) }
{
    state.lists = members_last(alloc, script, group, state.lists.items())?;
    let course = state.courses.get_mut(thread as usize - 1);
    course.made = true;
    Ok(())
}

/// Returns those of `bs` that are among `held`.
fn held_among(alloc: Global, held: &[BufId], bs: &[BufId]) -> Result<BufIds, NoMemory>
    ensures { IfOk result (λ found. found ≡ filter (words.has_buffer held.now) bs.now) }
{
    let mut found = BufIds::new(alloc);
    for b in bs {
        if has_buffer(held, *b) {
            found.push(*b)?;
        }
    }
    Ok(found)
}

/// Returns the reservations once `command` is answered: held buffers are let go, and pins change as it asks.
fn answered_reservations(
    alloc: Global,
    reservations: &Reservations,
    held: &[BufId],
    command: Option<&Command>,
) -> Result<Reservations, NoMemory>
    requires { HasPinsLeft reservations.now (option_copied command) }
    ensures { IfOk result (λ new. new ≡ with_pins (option_copied command.entry) (released reservations.now held.now)) }
{
    let mut new = reservations.copy()?;
    release_all(&mut new, held);
    if let Some(command) = command {
        change_pins(&mut new, command);
    }
    Ok(new)
}

/// Returns the lists once `command` is answered: held buffers are touched, in the order in which the command names them.
fn answered_lists(
    alloc: Global,
    script: &Script,
    buffers: &[Option<Buffer>],
    reservations: &[Reservation],
    lists: &[BufIds],
    held: &[BufId],
    command: Option<&Command>,
) -> Result<Lists, NoMemory>
    ensures { IfOk result (λ new. new ≡ fold (touched script.now buffers.now reservations.now) lists.now (filter (words.has_buffer held.now) (named_in (option_copied command.entry)))) }
{
    let held = held_among(alloc, held, named_in(command))?;
    touched_all(alloc, script, buffers, reservations, lists, held.items())
}

/// Answers the command of the thread numbered `thread`: its buffers are let go and touched. Without memory it leaves `state` as it was.
pub fn answer(
    alloc: Global,
    script: &Script,
    state: &mut State,
    thread: u32,
) -> Result<(), NoMemory>
    requires { CanShowResult script.now state.old thread }
    ensures ok { OnOk result (state.new ≡ after_result script.now state.old thread) }
    ensures err { OnErr result (state.new ≡ state.old) }
{
    let command = command_at_work(script, state, thread);
    let course = state.courses.get(thread as usize - 1);
    let answered = course.answered + 1;
    let reservations = answered_reservations(
        alloc,
        &state.reservations,
        course.held.items(),
        command,
    )?;
    let lists = answered_lists(
        alloc,
        script,
        state.core.buffers.items(),
        reservations.items(),
        state.lists.items(),
        course.held.items(),
        command,
    )?;
    state.reservations = reservations;
    state.lists = lists;
    state
        .courses
        .set(thread as usize - 1, new_course(alloc, answered));
    Ok(())
}
