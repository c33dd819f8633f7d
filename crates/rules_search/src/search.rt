ghost use Rattle.std.specs.Prelude.{◌≡◌, IfOk};
ghost use Rattle.ttm_base.specs.Placement.{first_places, forced_places};
ghost use Rattle.rules_state.specs.PlaceSearches.{place_search_of};
ghost use Rattle.journal_model.specs.rules.Search as words;
ghost use Rattle.rules_search.specs.Room.{HasRoom};

use crate::Step;
use crate::dry::{causes, ghost_in, victim};
use journal_model::{Course, DryWhy, Kind, Script, State};
use rules_choice::choice;
use rules_state::{PlaceSearch, forced_at, is_first, is_long_enough, whole, why_of};
use std::alloc::Global;
use ttm_base::{BufId, FlaggedPlace, Mem, Need, NoMemory, Place, Spans};

/// Returns the step at the `k`-th forced place, which has no choice: it is too short, a buffer is caught there, a ghost is waited for, or
/// it is dry.
fn step_of_crowded(
    alloc: Global,
    script: &Script,
    state: &State,
    course: &Course,
    b: BufId,
    k: u32,
    place: Place,
) -> Result<Step, NoMemory>
    requires { HasRoom script.now state.now }
    ensures { IfOk result (λ step. step ≡ words.step_of_crowded script.now state.now course.now b k place) }
{
    if !is_long_enough(script, b, place) {
        return Ok(Ok(Kind::Dry {
            b,
            k,
            why: DryWhy::Short,
        }));
    }
    if let Some(v) = victim(alloc, script, state, course.skips.items(), place)? {
        return Ok(Ok(Kind::Catch {
            b: v,
            why: why_of(place.mem),
        }));
    }
    if let Some(g) = ghost_in(script, state, place) {
        return Ok(Err(Need::Ghost(g.num)));
    }
    let rows = causes(alloc, script, state, place)?;
    Ok(Ok(Kind::Dry {
        b,
        k,
        why: DryWhy::Of(rows),
    }))
}

/// Returns the step at the `k`-th of the places of `list` that are tried under pressure.
fn step_of_forced(
    alloc: Global,
    script: &Script,
    state: &State,
    course: &Course,
    b: BufId,
    k: u32,
    list: &[FlaggedPlace],
) -> Result<Step, NoMemory>
    requires { HasRoom script.now state.now }
    ensures { IfOk result (λ step. step ≡ words.step_of_forced script.now state.now course.now b k (forced_places list.now)) }
{
    let place = match forced_at(list, k) {
        Some(place) => *place,
        None => whole(Mem::System),
    };
    match choice(alloc, script, &state.core, b, place)? {
        Some(spans) => Ok(Ok(Kind::Take {
            b,
            mem: place.mem,
            spans,
        })),
        None => step_of_crowded(alloc, script, state, course, b, k, place),
    }
}

/// Returns the memory type and the pages of the first place with a choice, among those of `list` that are tried first, or `None` if none has one.
fn first_choice(
    alloc: Global,
    script: &Script,
    state: &State,
    b: BufId,
    list: &[FlaggedPlace],
) -> Result<Option<(Mem, Spans)>, NoMemory>
    requires { HasRoom script.now state.now }
    ensures { IfOk result (λ found. found ≡ words.first_choice script.now state.now b (first_places list.now)) }
{
    for p in list {
        if is_first(p) {
            if let Some(spans) = choice(alloc, script, &state.core, b, p.place)? {
                return Ok(Some((p.place.mem, spans)));
            }
        }
    }
    Ok(None)
}

/// Returns the step of a search: not yet under pressure, it takes the first place with a choice among those tried first; else it is at the
/// forced place at work.
pub fn step_of_place_search(
    alloc: Global,
    script: &Script,
    state: &State,
    course: &Course,
    b: BufId,
    place_search: &PlaceSearch,
) -> Result<Step, NoMemory>
    requires { HasRoom script.now state.now }
    ensures { IfOk result (λ step. step ≡ words.step_of_place_search script.now state.now course.now b (place_search_of place_search.now)) }
{
    if !place_search.forced {
        let list = place_search.list.items();
        if let Some((mem, spans)) = first_choice(alloc, script, state, b, list)? {
            return Ok(Ok(Kind::Take { b, mem, spans }));
        }
    }
    step_of_forced(
        alloc,
        script,
        state,
        course,
        b,
        place_search.dry,
        place_search.list.items(),
    )
}
