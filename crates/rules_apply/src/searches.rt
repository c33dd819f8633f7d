ghost use Rattle.std.specs.Prelude.{◌≡◌, IfOk, OnOk, OnErr, length};
ghost use Rattle.ttm_base.specs.Placement.{forced_places};
ghost use Rattle.journal_model.specs.rules.Search as words;
ghost use Rattle.journal_model.specs.rules.ApplyVictims.{after_dry};
ghost use Rattle.rules_apply.specs.Ready.{CanGoDry};

use journal_model::{Command, Course, Script, State};
use rules_state::parts::courses::{fail_search, go_dry};
use rules_state::{command_at_work, forced_count, is_caught, place_search_at_work};
use std::alloc::Global;
use ttm_base::{BufId, Deny, NoMemory};

/// Counts the places that the search of buffer `b` tries under pressure.
fn count_forced(
    alloc: Global,
    script: &Script,
    state: &State,
    course: &Course,
    command: &Command,
    b: BufId,
) -> Result<usize, NoMemory>
    ensures { IfOk result (λ n. n ≡ length (forced_places (words.place_search_at_work script.now state.now course.now command.now b).list)) }
{
    let place_search = place_search_at_work(alloc, script, state, course, command, b)?;
    Ok(forced_count(place_search.list.items()))
}

/// Notes that place `k` is dry. After the last one the search of a named buffer has failed; a victim has one place alone. Without memory it
/// leaves `state` as it was.
#[tactic(auto, using(ttm_base::proofs::ListLaws::set_same))]
pub fn dry(
    alloc: Global,
    script: &Script,
    state: &mut State,
    thread: u32,
    b: BufId,
    k: u32,
) -> Result<(), NoMemory>
    requires { CanGoDry state.old thread k }
    ensures ok { OnOk result (state.new ≡ after_dry script.now state.old thread b k) }
    ensures err { OnErr result (state.new ≡ state.old) }
{
    let Some(command) = command_at_work(script, state, thread) else {
        return Ok(());
    };
    let course = state.courses.get(thread as usize - 1);
    let places = count_forced(alloc, script, state, course, command, b)?;
    let course = state.courses.get_mut(thread as usize - 1);
    if is_caught(course, b) {
        fail_search(course, b, Deny::NoSpace);
    } else {
        go_dry(course, k, places);
    }
    Ok(())
}
