ghost use Rattle.std.specs.Prelude.{◌≡◌, IfOk, OnOk, OnErr, option_to_list};
ghost use Rattle.journal_model.specs.rules.Waits.{jobs_before_target};
ghost use Rattle.rules_state.specs.parts.Listing.{relisted};
ghost use Rattle.rules_apply.specs.Ready.{IsThread};
ghost use Rattle.journal_model.specs.rules.ApplyPages.{after_take, after_bind, after_unbind, after_untake, after_populate, after_swap_in, after_swap_out, after_depopulate};

use journal_model::{Core, Lists, Script, State};
use rules_holds::is_unfinished;
use rules_state::parts::lists::relisted;
use rules_state::parts::{buffers, courses};
use std::alloc::Global;
use ttm_base::{BufId, JobId, Loc, Mem, NoMemory, Spans};

/// Returns the job that a target waits for: in VRAM the last one that moved a victim out, until it is done.
fn move_fence(core: &Core, mem: Mem) -> Option<JobId>
    ensures { option_to_list result ≡ jobs_before_target core.now mem }
{
    match (mem, core.move_fence) {
        (Mem::Vram, Some(job)) if is_unfinished(core, job) => Some(job),
        _ => None,
    }
}

/// Gives buffer `b` the target `spans` in the memory type `mem`, in VRAM with the move fence. Without memory it leaves `state` as it was.
pub fn take(
    state: &mut State,
    thread: u32,
    b: BufId,
    mem: Mem,
    spans: &Spans,
) -> Result<(), NoMemory>
    requires { IsThread state.old thread }
    ensures ok { OnOk result (state.new ≡ after_take state.old thread b mem spans.now) }
    ensures err { OnErr result (state.new ≡ state.old) }
{
    let fence = move_fence(&state.core, mem);
    let taken = spans.copy()?;
    buffers::give_target(&mut state.core.buffers, b, mem, taken, fence)?;
    let course = state.courses.get_mut(thread as usize - 1);
    courses::end_search(course, b);
    Ok(())
}

/// Takes the target in the memory type `mem` from buffer `b`.
pub fn untake(state: &mut State, b: BufId, mem: Mem)
    ensures { state.new ≡ after_untake state.old b mem }
{
    buffers::drop_target(&mut state.core.buffers, b, mem);
}

/// Gives page `page` of buffer `b` the frame `frame`: a frame of zeros, or one into which the page comes back from swap.
pub fn give_frame(state: &mut State, b: BufId, page: u32, frame: u32)
    ensures new { state.new ≡ after_populate state.old b page frame }
    ensures back { state.new ≡ after_swap_in state.old b page frame }
{
    buffers::set_page(&mut state.core.buffers, b, page, Loc::Frame(frame));
}

/// Moves page `page` of buffer `b` to the swap slot `slot`.
pub fn swap_out(state: &mut State, b: BufId, page: u32, slot: u32)
    ensures { state.new ≡ after_swap_out state.old b page slot }
{
    buffers::set_page(&mut state.core.buffers, b, page, Loc::Slot(slot));
}

/// Takes the frames from buffer `b`.
pub fn depopulate(state: &mut State, b: BufId)
    ensures { state.new ≡ after_depopulate state.old b }
{
    buffers::depopulate(&mut state.core.buffers, b);
}

/// Returns the lists of `state` after the live buffer `b` went to the memory type `mem`.
pub fn relisted_in(
    alloc: Global,
    script: &Script,
    state: &State,
    b: BufId,
    mem: Mem,
) -> Result<Lists, NoMemory>
    ensures { IfOk result (λ new. new ≡ relisted script.now state.now.core.buffers state.now.reservations state.now.lists b mem) }
{
    relisted(
        alloc,
        script,
        state.core.buffers.items(),
        state.reservations.items(),
        state.lists.items(),
        b,
        mem,
    )
}

/// Moves buffer `b` from SYSTEM to TT (ttm_bo_move_null). Without memory it leaves `state` as it was.
#[tactic(auto, using(crate::proofs::Rows::after_bind_is))]
pub fn bind(alloc: Global, script: &Script, state: &mut State, b: BufId) -> Result<(), NoMemory>
    ensures ok { OnOk result (state.new ≡ after_bind script.now state.old b) }
    ensures err { OnErr result (state.new ≡ state.old) }
{
    let lists = relisted_in(alloc, script, state, b, Mem::Tt)?;
    buffers::bind(alloc, &mut state.core.buffers, b);
    state.lists = lists;
    Ok(())
}

/// Moves buffer `b` from TT to SYSTEM (ttm_bo_wait_ctx, then a driver's unbind). Without memory it leaves `state` as it was.
#[tactic(auto, using(crate::proofs::Rows::after_unbind_is))]
pub fn unbind(alloc: Global, script: &Script, state: &mut State, b: BufId) -> Result<(), NoMemory>
    ensures ok { OnOk result (state.new ≡ after_unbind script.now state.old b) }
    ensures err { OnErr result (state.new ≡ state.old) }
{
    let lists = relisted_in(alloc, script, state, b, Mem::System)?;
    buffers::unbind(alloc, &mut state.core.buffers, b);
    state.lists = lists;
    Ok(())
}
