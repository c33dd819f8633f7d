ghost use Rattle.std.specs.Prelude.{◌≡◌, ◌+◌, ◌==◌, ◌++◌, ◌∷◌, [], true, IfOk, OnOk, OnErr, IsTrue, filter, flat_map, fold, not, if◌then◌else◌};
ghost use Rattle.journal_model.specs.rules.Waits as waits;
ghost use Rattle.journal_model.specs.rules.ApplyJobs.{with_use, core_after_arm, after_arm, after_packet_run, after_done, after_reap};
ghost use Rattle.rules_apply.specs.Ready.{IsThread, CanRun};

use journal_model::{Buffers, Core, Ghosts, Job, JobIds, Script, State};
use rules_holds::{jobs_before_use, packets_of, use_of};
use rules_state::parts::buffers::{add_fence, drop_last_fence, put_item};
use rules_state::{command_at_work, ops_of};
use state_words::named_in;
use std::alloc::Global;
use ttm_base::{BufId, JobId, NoMemory, Op};

/// Adds to `jobs` those that a job with the operations `ops` waits for at its buffers `bs`.
fn add_waits(
    alloc: Global,
    jobs: &mut JobIds,
    core: &Core,
    ops: &[Op],
    bs: &[BufId],
) -> Result<(), NoMemory>
    ensures { OnOk result (jobs.new ≡ jobs.old ++ flat_map (waits.jobs_before_use core.now ops.now) bs.now) }
{
    for b in bs {
        let more = jobs_before_use(alloc, core, ops, *b)?;
        jobs.append(&more)?;
    }
    Ok(())
}

/// Gives each of the buffers `bs` the job as a fence, in the way in which it uses the buffer. Without memory it leaves `buffers` as they
/// were.
#[tactic(auto, using(rules_state::proofs::parts::UndoLaws::fence_undone))]
fn add_uses(buffers: &mut Buffers, job: JobId, ops: &[Op], bs: &[BufId]) -> Result<(), NoMemory>
    ensures ok { OnOk result (buffers.new ≡ fold (with_use job ops.now) buffers.old bs.now) }
    ensures err { OnErr result (buffers.new ≡ buffers.old) }
{
    let Some((b, rest)) = bs.split_first() else {
        return Ok(());
    };
    add_fence(buffers, *b, job, use_of(ops, *b))?;
    if add_uses(buffers, job, ops, rest).is_err() {
        drop_last_fence(buffers, *b);
        return Err(NoMemory);
    }
    Ok(())
}

/// Adds the job `id` with the operations `ops`, after the jobs that it waits for, and gives its buffers `bs` the fences. Without memory it
/// leaves `core` as it was.
fn emit(alloc: Global, core: &mut Core, id: JobId, ops: &[Op], bs: &[BufId]) -> Result<(), NoMemory>
    ensures ok { OnOk result (core.new ≡ core_after_arm core.old id ops.now bs.now) }
    ensures err { OnErr result (core.new ≡ core.old) }
{
    let mut waits = JobIds::new(alloc);
    add_waits(alloc, &mut waits, core, ops, bs)?;
    let packets = packets_of(alloc, core, ops)?;
    core.jobs.push(Job {
        id,
        waits,
        packets,
        ran: 0,
        finished: false,
    })?;
    if add_uses(&mut core.buffers, id, ops, bs).is_err() {
        core.jobs.drop_last();
        return Err(NoMemory);
    }
    Ok(())
}

/// Emits the job of a thread's command: it waits for the jobs of its buffers, and becomes one of them. Without memory it leaves `state` as
/// it was.
pub fn arm(
    alloc: Global,
    script: &Script,
    state: &mut State,
    thread: u32,
    ctx: u32,
    num: u64,
) -> Result<(), NoMemory>
    requires { IsThread state.old thread }
    ensures ok { OnOk result (state.new ≡ after_arm script.now state.old thread ctx num) }
    ensures err { OnErr result (state.new ≡ state.old) }
{
    let command = command_at_work(script, state, thread);
    let id = JobId { ctx, num };
    let bs = named_in(command);
    emit(alloc, &mut state.core, id, ops_of(command), bs)?;
    put_item(&mut state.last_jobs, ctx, num);
    let course = state.courses.get_mut(thread as usize - 1);
    course.made = true;
    Ok(())
}

/// Counts one more packet of a job as run.
pub fn packet_run(state: &mut State, ctx: u32, num: u64)
    requires { CanRun state.old (record { ctx = ctx; num = num }) }
    ensures { state.new ≡ after_packet_run state.old (record { ctx = ctx; num = num }) }
{
    state.core.jobs.count_packet(JobId { ctx, num });
}

/// Marks a job as done.
pub fn done(state: &mut State, ctx: u32, num: u64)
    ensures { state.new ≡ after_done state.old (record { ctx = ctx; num = num }) }
{
    state.core.jobs.finish(JobId { ctx, num });
}

/// Removes the ghost numbered `num`.
fn remove_ghost(ghosts: &mut Ghosts, num: u64)
    ensures { ghosts.new ≡ filter (λ h. not (h.num == num)) ghosts.old }
{
    let mut i = 0;
    while i < ghosts.len() {
        if ghosts.get(i).num == num {
            let _ = ghosts.remove(i);
        } else {
            i += 1;
        }
    }
}

/// Removes the ghost numbered `num` from `state`.
pub fn reap(state: &mut State, num: u64)
    ensures { state.new ≡ after_reap state.old num }
{
    remove_ghost(&mut state.core.ghosts, num);
}
