ghost use Rattle.std.specs.Prelude.{◌≡◌, Ok, true, false, None, Some, IfOk, OnOk, OnErr, is_some};
ghost use Rattle.ttm_base.specs.declared.Actor.TheVariants as actor;
ghost use Rattle.journal_model.specs.declared.entry.Kind.TheVariants as kind_words;
ghost use Rattle.journal_model.specs.declared.state.Stage.TheVariants as stage;
ghost use Rattle.journal_model.specs.declared.state.Task.TheVariants as task;
ghost use Rattle.journal_model.specs.rules.Tasks.{stage_of, task_of};
ghost use Rattle.room_state.specs.turns.Turns.{state_behind};
ghost use Rattle.room_state.specs.declared.turns.Step.TheVariants as step_words;
ghost use Rattle.room_state.specs.turns.Searching.{buffer_search_of, finds_choice, victim_of};
ghost use Rattle.room_state.specs.turns.Turns.{after_step, entry_of, step_of};
ghost use Rattle.room_state.specs.turns.BufferSearches.{seen};
ghost use Rattle.evict_core.specs.Tasks.{is_skip, lets_go};

use crate::keepers::{causes, ghost_in};
use crate::victims::victim;
use journal_model::{DryWhy, Kind, Task};
use room_state::turns::{BufferSearch, Rooms, Step, buffer_search_at_work, make, place_at_work};
use state_words::{is_long_enough, why_of};
use std::alloc::Global;
use ttm_base::{Actor, BufId, Need, NoMemory};

/// Returns the buffer that is evicted for `buffer_search`, the search of `thread`, or None where the forced place at work is shorter than the buffer
/// that looks for pages, or where no buffer in it may be evicted. Takes time by the lists of the place's memory type up to the first that may be, by
/// the spans of their buffers, and by the buffers that were skipped.
fn first_victim(rooms: &Rooms, thread: u32, buffer_search: BufferSearch) -> Option<BufId>
    requires { buffer_search_of rooms.now.script (state_behind rooms.now) thread ≡ Some (seen rooms.now.script buffer_search) }
    ensures { result ≡ victim_of rooms.now.script (state_behind rooms.now) thread }
{
    let place = place_at_work(rooms.script(), buffer_search);
    if !is_long_enough(rooms.script(), buffer_search.b, place) {
        return None;
    }
    victim(rooms, rooms.course(thread).skips.items(), place)
}

/// Returns the buffer that is evicted for the search of `thread`, or None where the forced place at work is shorter than the buffer that looks for
/// pages, or where no buffer in it may be evicted. Takes time by the lists of the place's memory type up to the first that may be, by the spans of
/// their buffers, by the buffers that were skipped, and as `Rooms::task` does.
pub fn next_victim(rooms: &Rooms, thread: u32) -> Option<BufId>
    requires { stage_of (task_of rooms.now.script (state_behind rooms.now) thread) ≡ stage.Search }
    ensures { result ≡ victim_of rooms.now.script (state_behind rooms.now) thread }
{
    first_victim(rooms, thread, buffer_search_at_work(rooms, thread))
}

/// Catches the buffer that is evicted for `buffer_search`, the search of `thread`, which finds no pages. Returns whether there is one; without one
/// nothing is changed.
///
/// # Errors
///
/// Lack of memory; nothing is changed.
pub fn catch_victim(
    rooms: &mut Rooms,
    thread: u32,
    buffer_search: BufferSearch,
) -> Result<bool, NoMemory>
    requires at { buffer_search_of rooms.old.script (state_behind rooms.old) thread ≡ Some (seen rooms.old.script buffer_search) }
    requires none { finds_choice rooms.old.script (state_behind rooms.old) thread ≡ false }
    ensures caught { IfOk result (λ caught. caught ≡ is_some (victim_of rooms.old.script (state_behind rooms.old) thread)) }
    ensures made { result ≡ Ok true → rooms.new ≡ after_step rooms.old (entry_of rooms.old (actor.Thread thread)) }
    ensures step { result ≡ Ok true → step_of (entry_of rooms.old (actor.Thread thread)) ≡ step_words.Made }
    ensures none { result ≡ Ok false → rooms.new ≡ rooms.old }
    ensures err { OnErr result (rooms.new ≡ rooms.old) }
{
    let Some(v) = first_victim(rooms, thread, buffer_search) else {
        return Ok(false);
    };
    let why = why_of(place_at_work(rooms.script(), buffer_search).mem);
    make(rooms, Actor::Thread(thread), Kind::Catch { b: v, why })?;
    Ok(true)
}

/// Catches the buffer that is evicted for the search of `thread` (`next_victim`), and returns whether there is one.
///
/// # Errors
///
/// Lack of memory; nothing is changed.
pub fn catch(rooms: &mut Rooms, thread: u32) -> Result<bool, NoMemory>
    requires stage { stage_of (task_of rooms.old.script (state_behind rooms.old) thread) ≡ stage.Search }
    requires none { finds_choice rooms.old.script (state_behind rooms.old) thread ≡ false }
    ensures caught { IfOk result (λ caught. caught ≡ is_some (victim_of rooms.old.script (state_behind rooms.old) thread)) }
    ensures made { result ≡ Ok true → rooms.new ≡ after_step rooms.old (entry_of rooms.old (actor.Thread thread)) }
    ensures step { result ≡ Ok true → step_of (entry_of rooms.old (actor.Thread thread)) ≡ step_words.Made }
    ensures none { result ≡ Ok false → rooms.new ≡ rooms.old }
    ensures err { OnErr result (rooms.new ≡ rooms.old) }
{
    let buffer_search = buffer_search_at_work(rooms, thread);
    catch_victim(rooms, thread, buffer_search)
}

/// Makes the entry that notes the forced place at work of a search as dry, for the reason `why`.
fn make_dry(
    rooms: &mut Rooms,
    thread: u32,
    buffer_search: BufferSearch,
    why: DryWhy,
) -> Result<Step, NoMemory>
    requires { entry_of rooms.old (actor.Thread thread) ≡ Ok (record { who = actor.Thread thread; kind = kind_words.Dry buffer_search.b buffer_search.dry why }) }
    ensures step { IfOk result (λ step. step ≡ step_of (entry_of rooms.old (actor.Thread thread))) }
    ensures made { OnOk result (rooms.new ≡ after_step rooms.old (entry_of rooms.old (actor.Thread thread))) }
    ensures err { OnErr result (rooms.new ≡ rooms.old) }
{
    let kind = Kind::Dry {
        b: buffer_search.b,
        k: buffer_search.dry,
        why,
    };
    make(rooms, Actor::Thread(thread), kind)
}

/// Notes that the forced place at work of `buffer_search`, the search of `thread`, is dry: it is shorter than the buffer, or each buffer in its
/// memory type has a cause for which it isn't evicted. Where a ghost holds pages of it, returns the first such ghost, to wait for, instead.
///
/// # Errors
///
/// Lack of memory; nothing is changed.
pub fn note_dry(
    alloc: Global,
    rooms: &mut Rooms,
    thread: u32,
    buffer_search: BufferSearch,
) -> Result<Step, NoMemory>
    requires at { buffer_search_of rooms.old.script (state_behind rooms.old) thread ≡ Some (seen rooms.old.script buffer_search) }
    requires none { finds_choice rooms.old.script (state_behind rooms.old) thread ≡ false }
    requires nobody { victim_of rooms.old.script (state_behind rooms.old) thread ≡ None }
    ensures step { IfOk result (λ step. step ≡ step_of (entry_of rooms.old (actor.Thread thread))) }
    ensures made { OnOk result (rooms.new ≡ after_step rooms.old (entry_of rooms.old (actor.Thread thread))) }
    ensures err { OnErr result (rooms.new ≡ rooms.old) }
{
    let place = place_at_work(rooms.script(), buffer_search);
    if !is_long_enough(rooms.script(), buffer_search.b, place) {
        return make_dry(rooms, thread, buffer_search, DryWhy::Short);
    }
    if let Some(g) = ghost_in(rooms, place) {
        return Ok(Step::Need(Need::Ghost(g)));
    }
    let rows = causes(alloc, rooms, place)?;
    make_dry(rooms, thread, buffer_search, DryWhy::Of(rows))
}

/// Notes that the forced place at work of the search of `thread` is dry: it is shorter than the buffer, or each buffer in its memory type has a
/// cause for which it isn't evicted. Where a ghost holds pages of it, the thread waits for the first such ghost instead.
///
/// # Errors
///
/// Lack of memory; nothing is changed.
pub fn dry(alloc: Global, rooms: &mut Rooms, thread: u32) -> Result<Step, NoMemory>
    requires stage { stage_of (task_of rooms.old.script (state_behind rooms.old) thread) ≡ stage.Search }
    requires none { finds_choice rooms.old.script (state_behind rooms.old) thread ≡ false }
    requires nobody { victim_of rooms.old.script (state_behind rooms.old) thread ≡ None }
    ensures step { IfOk result (λ step. step ≡ step_of (entry_of rooms.old (actor.Thread thread))) }
    ensures made { OnOk result (rooms.new ≡ after_step rooms.old (entry_of rooms.old (actor.Thread thread))) }
    ensures err { OnErr result (rooms.new ≡ rooms.old) }
{
    let buffer_search = buffer_search_at_work(rooms, thread);
    note_dry(alloc, rooms, thread, buffer_search)
}

/// Skips the victim `b` of `thread`, for which there was no room, once it has neither a frame nor a target left: its command tries it no more.
///
/// # Errors
///
/// Lack of memory; nothing is changed.
pub fn skip_victim(rooms: &mut Rooms, thread: u32, b: BufId) -> Result<Step, NoMemory>
    requires { task_of rooms.old.script (state_behind rooms.old) thread ≡ task.Skip b }
    ensures step { IfOk result (λ step. step ≡ step_of (entry_of rooms.old (actor.Thread thread))) }
    ensures made { OnOk result (rooms.new ≡ after_step rooms.old (entry_of rooms.old (actor.Thread thread))) }
    ensures err { OnErr result (rooms.new ≡ rooms.old) }
{
    make(rooms, Actor::Thread(thread), Kind::Skip { b })
}

/// Skips a victim for which there was no room, once it has neither a frame nor a target left: its command tries it no more.
///
/// # Errors
///
/// Lack of memory; nothing is changed.
pub fn skip(rooms: &mut Rooms, thread: u32) -> Result<Step, NoMemory>
    requires { is_skip (task_of rooms.old.script (state_behind rooms.old) thread) ≡ true }
    ensures step { IfOk result (λ step. step ≡ step_of (entry_of rooms.old (actor.Thread thread))) }
    ensures made { OnOk result (rooms.new ≡ after_step rooms.old (entry_of rooms.old (actor.Thread thread))) }
    ensures err { OnErr result (rooms.new ≡ rooms.old) }
{
    match rooms.task(thread) {
        Task::Skip(b) => skip_victim(rooms, thread, b),
        _ => unreachable!(),
    }
}

/// Releases the victim `b` of `thread`, with which nothing is left to do.
///
/// # Errors
///
/// Lack of memory; nothing is changed.
pub fn release_victim(rooms: &mut Rooms, thread: u32, b: BufId) -> Result<Step, NoMemory>
    requires task { task_of rooms.old.script (state_behind rooms.old) thread ≡ task.Empty b }
    requires goes { lets_go (entry_of rooms.old (actor.Thread thread)) ≡ true }
    ensures step { IfOk result (λ step. step ≡ step_of (entry_of rooms.old (actor.Thread thread))) }
    ensures made { OnOk result (rooms.new ≡ after_step rooms.old (entry_of rooms.old (actor.Thread thread))) }
    ensures err { OnErr result (rooms.new ≡ rooms.old) }
{
    make(rooms, Actor::Thread(thread), Kind::Loose { b })
}

/// Releases a victim with which nothing is left to do.
///
/// # Errors
///
/// Lack of memory; nothing is changed.
pub fn loose(rooms: &mut Rooms, thread: u32) -> Result<Step, NoMemory>
    requires stage { stage_of (task_of rooms.old.script (state_behind rooms.old) thread) ≡ stage.Empty }
    requires goes { lets_go (entry_of rooms.old (actor.Thread thread)) ≡ true }
    ensures step { IfOk result (λ step. step ≡ step_of (entry_of rooms.old (actor.Thread thread))) }
    ensures made { OnOk result (rooms.new ≡ after_step rooms.old (entry_of rooms.old (actor.Thread thread))) }
    ensures err { OnErr result (rooms.new ≡ rooms.old) }
{
    match rooms.task(thread) {
        Task::Empty(b) => release_victim(rooms, thread, b),
        _ => unreachable!(),
    }
}
