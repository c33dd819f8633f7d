ghost use Rattle.std.specs.Prelude.{◌≡◌, ◌<◌, Ok, true, false, Some, IfOk, OnErr, length};
ghost use Rattle.ttm_base.specs.Placement.{first_places};
ghost use Rattle.ttm_base.specs.declared.Actor.TheVariants as actor;
ghost use Rattle.journal_model.specs.declared.state.Stage.TheVariants as stage;
ghost use Rattle.journal_model.specs.rules.Search.{first_choice};
ghost use Rattle.journal_model.specs.rules.Tasks.{stage_of, task_of};
ghost use Rattle.room_state.specs.turns.Turns.{state_behind};
ghost use Rattle.room_state.specs.declared.turns.Step.TheVariants as step_words;
ghost use Rattle.room_state.specs.turns.Searching.{buffer_search_of, finds_choice};
ghost use Rattle.room_state.specs.turns.Turns.{after_step, entry_of, step_of};
ghost use Rattle.room_state.specs.turns.BufferSearches.{list_of, seen};
ghost use Rattle.move_pipeline.specs.Finds as words;

use journal_model::Kind;
use room_state::turns::{
    BufferSearch, Rooms, buffer_search_at_work, make, place_at, place_at_work, place_count,
};
use ttm_base::{Actor, BufId, FlaggedPlace, Mem, NoMemory, Place, Spans};

/// Returns the pages that `place` has for buffer `b`, with its memory type, or None where it has none.
fn found_at(rooms: &mut Rooms, b: BufId, place: Place) -> Result<Option<(Mem, Spans)>, NoMemory>
    requires { b.0 < length rooms.old.script.buffers }
    ensures found { IfOk result (λ found. found ≡ words.found_at rooms.old.script (state_behind rooms.old) b place) }
    ensures same { rooms.new ≡ rooms.old }
{
    match rooms.choice(b, &place)? {
        Some(spans) => Ok(Some((place.mem, spans))),
        None => Ok(None),
    }
}

/// Returns the pages that the place `tried` has, or None where it has none or is tried under pressure alone.
fn tried_at(
    rooms: &mut Rooms,
    b: BufId,
    tried: FlaggedPlace,
) -> Result<Option<(Mem, Spans)>, NoMemory>
    requires { b.0 < length rooms.old.script.buffers }
    ensures found { IfOk result (λ found. found ≡ words.tried_at rooms.old.script (state_behind rooms.old) b tried) }
    ensures same { rooms.new ≡ rooms.old }
{
    if tried.fallback {
        return Ok(None);
    }
    found_at(rooms, b, tried.place)
}

/// Returns the pages of the first place with a choice, among those that are tried first, or None where none has one.
fn first_found(
    rooms: &mut Rooms,
    buffer_search: BufferSearch,
) -> Result<Option<(Mem, Spans)>, NoMemory>
    requires { buffer_search.b.0 < length rooms.old.script.buffers }
    ensures found { IfOk result (λ found. found ≡ first_choice rooms.old.script (state_behind rooms.old) buffer_search.b (first_places (list_of rooms.old.script buffer_search.b buffer_search.sought))) }
    ensures same { rooms.new ≡ rooms.old }
{
    for at in 0..place_count(rooms.script(), buffer_search) {
        let tried = place_at(rooms.script(), buffer_search, at);
        if let Some(found) = tried_at(rooms, buffer_search.b, tried)? {
            return Ok(Some(found));
        }
    }
    Ok(None)
}

/// Returns the pages that a search finds: not yet under pressure, those of the first place with a choice among those tried first; else those of the
/// forced place at work.
fn find(rooms: &mut Rooms, buffer_search: BufferSearch) -> Result<Option<(Mem, Spans)>, NoMemory>
    requires { buffer_search.b.0 < length rooms.old.script.buffers }
    ensures found { IfOk result (λ found. found ≡ words.found rooms.old.script (state_behind rooms.old) (seen rooms.old.script buffer_search)) }
    ensures same { rooms.new ≡ rooms.old }
{
    if !buffer_search.forced {
        if let Some(found) = first_found(rooms, buffer_search)? {
            return Ok(Some(found));
        }
    }
    let place = place_at_work(rooms.script(), buffer_search);
    found_at(rooms, buffer_search.b, place)
}

/// Takes the pages that `buffer_search`, the search of `thread`, finds, as the buffer's target. Returns false where no place to try now has a
/// choice; nothing is changed then.
///
/// # Errors
///
/// Lack of memory; nothing is changed.
pub fn take_pages(
    rooms: &mut Rooms,
    thread: u32,
    buffer_search: BufferSearch,
) -> Result<bool, NoMemory>
    requires at { buffer_search_of rooms.old.script (state_behind rooms.old) thread ≡ Some (seen rooms.old.script buffer_search) }
    requires declared { buffer_search.b.0 < length rooms.old.script.buffers }
    ensures found { IfOk result (λ taken. taken ≡ finds_choice rooms.old.script (state_behind rooms.old) thread) }
    ensures made { result ≡ Ok true → rooms.new ≡ after_step rooms.old (entry_of rooms.old (actor.Thread thread)) }
    ensures step { result ≡ Ok true → step_of (entry_of rooms.old (actor.Thread thread)) ≡ step_words.Made }
    ensures none { result ≡ Ok false → rooms.new ≡ rooms.old }
    ensures err { OnErr result (rooms.new ≡ rooms.old) }
{
    let Some((mem, spans)) = find(rooms, buffer_search)? else {
        return Ok(false);
    };
    let kind = Kind::Take {
        b: buffer_search.b,
        mem,
        spans,
    };
    make(rooms, Actor::Thread(thread), kind)?;
    Ok(true)
}

/// Takes the pages that the search of `thread` finds, as the buffer's target. Returns false where no place to try now has a choice; nothing is
/// changed then.
///
/// # Errors
///
/// Lack of memory; nothing is changed.
pub fn take_target(rooms: &mut Rooms, thread: u32) -> Result<bool, NoMemory>
    requires { stage_of (task_of rooms.old.script (state_behind rooms.old) thread) ≡ stage.Search }
    ensures found { IfOk result (λ taken. taken ≡ finds_choice rooms.old.script (state_behind rooms.old) thread) }
    ensures made { result ≡ Ok true → rooms.new ≡ after_step rooms.old (entry_of rooms.old (actor.Thread thread)) }
    ensures step { result ≡ Ok true → step_of (entry_of rooms.old (actor.Thread thread)) ≡ step_words.Made }
    ensures none { result ≡ Ok false → rooms.new ≡ rooms.old }
    ensures err { OnErr result (rooms.new ≡ rooms.old) }
{
    let buffer_search = buffer_search_at_work(rooms, thread);
    take_pages(rooms, thread, buffer_search)
}
