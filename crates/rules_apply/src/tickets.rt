ghost use Rattle.std.specs.Prelude.{◌≡◌, OnOk, OnErr};
ghost use Rattle.journal_model.specs.rules.ApplyCommands.{after_ticket, after_reserve, after_backoff, after_refusal};
ghost use Rattle.rules_apply.specs.Ready.{IsThread, CanAnswer};

use journal_model::{BufIds, State};
use rules_state::new_course;
use rules_state::parts::reservations;
use std::alloc::Global;
use ttm_base::{BufId, NoMemory, Stamp};

/// Gives the thread numbered `thread` the ticket `stamp` (ww_acquire_init).
pub fn ticket(state: &mut State, thread: u32, stamp: Stamp)
    requires { IsThread state.old thread }
    ensures { state.new ≡ after_ticket state.old thread stamp }
{
    state.last_stamp = stamp.0;
    let course = state.courses.get_mut(thread as usize - 1);
    course.stamp = Some(stamp);
}

/// Reserves buffer `b` for the thread numbered `thread` with its stamp (dma_resv_lock). Without memory it leaves `state` as it was.
#[tactic(auto, using(ttm_base::proofs::ListLaws::set_same))]
pub fn reserve(state: &mut State, thread: u32, b: BufId) -> Result<(), NoMemory>
    requires { IsThread state.old thread }
    ensures ok { OnOk result (state.new ≡ after_reserve state.old thread b) }
    ensures err { OnErr result (state.new ≡ state.old) }
{
    let course = state.courses.get_mut(thread as usize - 1);
    course.held.push(b)?;
    let stamp = course.stamp;
    reservations::set_holder(&mut state.reservations, b, stamp);
    Ok(())
}

/// Lets all reservations of the thread numbered `thread` go, after which it begins again with buffer `b`.
pub fn back_off(alloc: Global, state: &mut State, thread: u32, b: BufId)
    requires { IsThread state.old thread }
    ensures { state.new ≡ after_backoff state.old thread b }
{
    let course = state.courses.get_mut(thread as usize - 1);
    reservations::release_all(&mut state.reservations, course.held.items());
    course.held = BufIds::new(alloc);
    course.first = Some(b);
}

/// Refuses the command of the thread numbered `thread`, whose buffers are let go.
pub fn refuse(alloc: Global, state: &mut State, thread: u32)
    requires { CanAnswer state.old thread }
    ensures { state.new ≡ after_refusal state.old thread }
{
    let course = state.courses.get_mut(thread as usize - 1);
    reservations::release_all(&mut state.reservations, course.held.items());
    *course = new_course(alloc, course.answered + 1);
}
