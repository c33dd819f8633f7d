ghost use Rattle.std.specs.Prelude.{◌≡◌, OnOk, OnErr};
ghost use Rattle.journal_model.specs.rules.ApplyVictims.{after_no_pages, after_skip, after_catch, after_loose};
ghost use Rattle.rules_apply.specs.Ready.{IsThread};

use journal_model::{Script, State, Why};
use rules_state::parts::lists::touched;
use rules_state::parts::{buffers, courses, reservations};
use std::alloc::Global;
use ttm_base::{BufId, Deny, NoMemory};

/// Notes that the thread numbered `thread` finds no page for buffer `b`.
pub fn no_pages(state: &mut State, thread: u32, b: BufId)
    requires { IsThread state.old thread }
    ensures { state.new ≡ after_no_pages state.old thread b }
{
    let course = state.courses.get_mut(thread as usize - 1);
    courses::fail_search(course, b, Deny::NoPages);
}

/// Lets the victim `b` go and skips it. Without memory it leaves `state` as it was.
#[tactic(auto, using(ttm_base::proofs::ListLaws::set_same))]
pub fn skip(state: &mut State, thread: u32, b: BufId) -> Result<(), NoMemory>
    requires { IsThread state.old thread }
    ensures ok { OnOk result (state.new ≡ after_skip state.old thread b) }
    ensures err { OnErr result (state.new ≡ state.old) }
{
    let course = state.courses.get_mut(thread as usize - 1);
    courses::skip_victim(course, b)?;
    reservations::set_holder(&mut state.reservations, b, None);
    Ok(())
}

/// Catches the victim `b`, for pages of a memory type or for frames, as `why` tells. Without memory it leaves `state` as it was.
#[tactic(auto, using(ttm_base::proofs::ListLaws::set_same))]
pub fn catch(
    alloc: Global,
    state: &mut State,
    thread: u32,
    b: BufId,
    why: Why,
) -> Result<(), NoMemory>
    requires { IsThread state.old thread }
    ensures ok { OnOk result (state.new ≡ after_catch state.old thread b why) }
    ensures err { OnErr result (state.new ≡ state.old) }
{
    let course = state.courses.get_mut(thread as usize - 1);
    courses::add_victim(course, b, why)?;
    let stamp = course.stamp;
    reservations::set_holder(&mut state.reservations, b, stamp);
    buffers::leave_tt(alloc, &mut state.core.buffers, b);
    Ok(())
}

/// Lets the victim `b` go. Without memory it leaves `state` as it was.
#[tactic(auto, using(rules_state::proofs::parts::ListingLaws::touched_released))]
pub fn loose(
    alloc: Global,
    script: &Script,
    state: &mut State,
    thread: u32,
    b: BufId,
) -> Result<(), NoMemory>
    requires { IsThread state.old thread }
    ensures ok { OnOk result (state.new ≡ after_loose script.now state.old thread b) }
    ensures err { OnErr result (state.new ≡ state.old) }
{
    let lists = touched(
        alloc,
        script,
        state.core.buffers.items(),
        state.reservations.items(),
        state.lists.items(),
        b,
    )?;
    let course = state.courses.get_mut(thread as usize - 1);
    courses::forget_victim(course, b);
    reservations::set_holder(&mut state.reservations, b, None);
    state.lists = lists;
    Ok(())
}
