//! Where a thread's search for pages stands, read from the rooms: for which buffer, at which places. No call takes memory.

ghost use Rattle.std.specs.Prelude.{◌≡◌, ◌<◌, Some, length, slice_get, unwrap_or};
ghost use Rattle.ttm_base.specs.Placement.{forced_places};
ghost use Rattle.ttm_base.specs.declared.Mem.TheVariants.{System};
ghost use Rattle.journal_model.specs.rules.Commands.{whole as all_of};
ghost use Rattle.journal_model.specs.rules.Tasks.{stage_of, task_of};
ghost use Rattle.journal_model.specs.declared.state.Stage.TheVariants as stage;
ghost use Rattle.journal_model.specs.declared.state.Task.TheVariants as task;
ghost use Rattle.room_state.specs.Kept.{state_behind};
ghost use Rattle.room_state.specs.turns.Searching as words;
ghost use Rattle.room_state.specs.turns.Searching.{buffer_search_of};
ghost use Rattle.room_state.specs.turns.BufferSearches as seen_as;
ghost use Rattle.room_state.specs.turns.BufferSearches.{list_of, place_search_of, seen};

use crate::Rooms;
use journal_model::{Command, Course, Script, SearchAim, Task};
use place_list::places::forced_at;
use state_words::{as_fallback, declared_places, is_caught, unflagged, whole};
use ttm_base::{BufId, FlaggedPlace, Mem, Place};

/// The places where a search looks.
#[derive(Clone, Copy)]
pub enum SearchPlaces {
    /// One place alone.
    One(FlaggedPlace),
    /// The places where the buffer is declared to stand.
    Declared,
}

/// The state of a search for pages.
#[derive(Clone, Copy)]
pub struct BufferSearch {
    /// The buffer that looks for pages.
    pub b: BufId,
    /// The places where it looks.
    pub sought: SearchPlaces,
    /// Whether the search is under pressure.
    pub forced: bool,
    /// The number of forced places that are dry.
    pub dry: u32,
}

/// Returns the places where `command` wants its buffer.
fn sought_by(command: &Command) -> SearchPlaces
    ensures { result ≡ seen_as.sought_by command.now }
{
    match command {
        Command::Move { mem, .. } => SearchPlaces::One(unflagged(whole(*mem))),
        Command::SwapOut { .. } => SearchPlaces::One(unflagged(whole(Mem::System))),
        _ => SearchPlaces::Declared,
    }
}

/// Returns the search for the hop through TT: from its beginning for a victim, and at the thread's place for another buffer.
fn hop_by(course: &Course, b: BufId) -> BufferSearch
    ensures { result ≡ seen_as.hop_by course.now b }
{
    let sought = SearchPlaces::One(as_fallback(whole(Mem::Tt)));
    if is_caught(course, b) {
        BufferSearch {
            b,
            sought,
            forced: false,
            dry: 0,
        }
    } else {
        BufferSearch {
            b,
            sought,
            forced: course.forced,
            dry: course.dry,
        }
    }
}

/// Returns the search for buffer `b` that `command` needs, with `aim`.
fn buffer_search_by(command: &Command, course: &Course, b: BufId, aim: SearchAim) -> BufferSearch
    ensures { result ≡ seen_as.buffer_search_by command.now course.now b aim }
{
    match aim {
        SearchAim::Asked => BufferSearch {
            b,
            sought: sought_by(command),
            forced: course.forced,
            dry: course.dry,
        },
        SearchAim::Hop => hop_by(course, b),
    }
}

/// Returns the search for buffer `b` with `aim`, which is the task of `thread`. Takes constant time.
pub fn buffer_search_for(rooms: &Rooms, thread: u32, b: BufId, aim: SearchAim) -> BufferSearch
    requires { task_of rooms.now.script (state_behind rooms.now) thread ≡ task.Search b aim }
    ensures at { buffer_search_of rooms.now.script (state_behind rooms.now) thread ≡ Some (seen rooms.now.script result) }
    ensures declared { result.b.0 < length rooms.now.script.buffers }
{
    let _legal = rooms.journal();
    let Some(command) = rooms.command(thread) else {
        unreachable!()
    };
    buffer_search_by(command, rooms.course(thread), b, aim)
}

/// Returns the search at which `thread` is. Takes time as `Rooms::task` does.
pub fn buffer_search_at_work(rooms: &Rooms, thread: u32) -> BufferSearch
    requires { stage_of (task_of rooms.now.script (state_behind rooms.now) thread) ≡ stage.Search }
    ensures at { buffer_search_of rooms.now.script (state_behind rooms.now) thread ≡ Some (seen rooms.now.script result) }
    ensures declared { result.b.0 < length rooms.now.script.buffers }
{
    match rooms.task(thread) {
        Task::Search { b, aim } => buffer_search_for(rooms, thread, b, aim),
        _ => unreachable!(),
    }
}

/// Returns the number of places that a search tries.
pub fn place_count(script: &Script, buffer_search: BufferSearch) -> usize
    ensures { result ≡ length (list_of script.now buffer_search.b buffer_search.sought) }
{
    match buffer_search.sought {
        SearchPlaces::One(_) => 1,
        SearchPlaces::Declared => declared_places(script, buffer_search.b).len(),
    }
}

/// Returns the place number `at` of those that a search tries.
pub fn place_at(script: &Script, buffer_search: BufferSearch, at: usize) -> FlaggedPlace
    requires { at < length (list_of script.now buffer_search.b buffer_search.sought) }
    ensures { slice_get (list_of script.now buffer_search.b buffer_search.sought) at ≡ Some result }
{
    match buffer_search.sought {
        SearchPlaces::One(place) => place,
        SearchPlaces::Declared => declared_places(script, buffer_search.b)[at],
    }
}

/// Returns the place of `list` that is tried under pressure after `dry` others, else all of SYSTEM.
fn forced_place(list: &[FlaggedPlace], dry: u32) -> Place
    ensures { result ≡ unwrap_or (slice_get (forced_places list.now) dry) (all_of System) }
{
    match forced_at(list, dry) {
        Some(place) => *place,
        None => whole(Mem::System),
    }
}

/// Returns the forced place at which the search is.
pub fn place_at_work(script: &Script, buffer_search: BufferSearch) -> Place
    ensures { result ≡ words.place_at_work (place_search_of script.now buffer_search) }
{
    match buffer_search.sought {
        SearchPlaces::One(place) => forced_place(&[place], buffer_search.dry),
        SearchPlaces::Declared => forced_place(
            declared_places(script, buffer_search.b),
            buffer_search.dry,
        ),
    }
}
