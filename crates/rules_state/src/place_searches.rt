ghost use Rattle.std.specs.Prelude.{◌≡◌, IfOk};
ghost use Rattle.journal_model.specs.rules.State.{new_buffer};
ghost use Rattle.journal_model.specs.rules.Search as words;
ghost use Rattle.rules_state.specs.PlaceSearches.{place_search_of};

use crate::buffers::{buffer_in, dead_buffer};
use crate::commands::asked_places;
use journal_model::{Command, Course, Script, SearchAim, State};
use state_words::{as_fallback, has_some_target, is_caught, whole};
use std::alloc::Global;
use ttm_base::{BufId, FlaggedPlaces, Mem, NoMemory};

/// The places that a search tries, whether it is under pressure, and the number of forced places that are dry.
#[derive(Drop)]
pub struct PlaceSearch {
    pub list: FlaggedPlaces,
    pub forced: bool,
    pub dry: u32,
}

/// Returns the search of the buffer `b` for a command: the places that the command asks for, or for a hop between SYSTEM and VRAM all of
/// TT, tried under pressure alone. A victim's search starts without pressure and with no dry place.
pub fn place_search_for(
    alloc: Global,
    script: &Script,
    command: &Command,
    course: &Course,
    b: BufId,
    aim: SearchAim,
) -> Result<PlaceSearch, NoMemory>
    ensures { IfOk result (λ q. place_search_of q ≡ words.place_search script.now command.now course.now b aim) }
{
    match aim {
        SearchAim::Asked => Ok(PlaceSearch {
            list: asked_places(alloc, script, command, b)?,
            forced: course.forced,
            dry: course.dry,
        }),
        SearchAim::Hop => {
            let list = FlaggedPlaces::from_slice(alloc, &[as_fallback(whole(Mem::Tt))])?;
            if is_caught(course, b) {
                Ok(PlaceSearch {
                    list,
                    forced: false,
                    dry: 0,
                })
            } else {
                Ok(PlaceSearch {
                    list,
                    forced: course.forced,
                    dry: course.dry,
                })
            }
        }
    }
}

/// Returns the search of the buffer `b` as its state tells it: a victim, and a buffer that has a target, hop through TT; any other goes
/// where its command asks.
pub fn place_search_at_work(
    alloc: Global,
    script: &Script,
    state: &State,
    course: &Course,
    command: &Command,
    b: BufId,
) -> Result<PlaceSearch, NoMemory>
    ensures { IfOk result (λ q. place_search_of q ≡ words.place_search_at_work script.now state.now course.now command.now b) }
{
    let dead = dead_buffer(alloc);
    let aim = if is_caught(course, b) || has_some_target(buffer_in(&state.core, b, &dead)) {
        SearchAim::Hop
    } else {
        SearchAim::Asked
    };
    place_search_for(alloc, script, command, course, b, aim)
}
