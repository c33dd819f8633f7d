ghost use Rattle.std.specs.Prelude.{◌≡◌, ◌<◌, ◌^◌, ◌++◌, ◌∷◌, [], false, IfOk, OnOk, OnErr, length, option_to_list};
ghost use Rattle.journal_model.specs.rules.State.{changed};
ghost use Rattle.journal_model.specs.rules.State as words;
ghost use Rattle.journal_model.specs.rules.Waits as waits;
ghost use Rattle.journal_model.specs.rules.Holds as holds;
ghost use Rattle.journal_model.specs.rules.ApplyMoves as rows;
ghost use Rattle.ttm_base.specs.declared.Mem.TheVariants.{Tt, Vram};
ghost use Rattle.rules_apply.specs.Ready.{HasShortTable};
ghost use Rattle.rules_state.specs.parts.Undo.{without_last};

use crate::pages::relisted_in;
use journal_model::{
    Buffer, Core, Frames, Ghost, Ghosts, Job, JobIds, Left, Packets, Script, State,
};
use rules_holds::{spans_in, unfinished_before_write};
use rules_state::parts::buffers::{carry, put_item};
use rules_state::{buffer_in, dead_buffer, frames_of, name_in_spans, packet_place, target_spans};
use state_words::copy_of_page;
use std::alloc::Global;
use ttm_base::{BufId, JobId, Mem, NoMemory, Spans};

/// Returns one copy of each page of `buffer`, from where it stands to its target in the memory type `mem`.
fn move_packets(alloc: Global, buffer: &Buffer, mem: Mem) -> Result<Packets, NoMemory>
    requires { length buffer.now.table < 2 ^ 32 }
    ensures { IfOk result (λ packets. packets ≡ rows.move_packets buffer.now mem) }
{
    let mut packets = Packets::new(alloc);
    let target = target_spans(mem, buffer);
    for i in 0..buffer.table.len() as u32 {
        let to = name_in_spans(mem, target, i);
        packets.push(copy_of_page(to, packet_place(buffer, i)))?;
    }
    Ok(packets)
}

/// Returns the job `id` that moves `buffer` to its target in the memory type `mem`, after all jobs of the buffer.
fn move_job(
    alloc: Global,
    core: &Core,
    buffer: &Buffer,
    mem: Mem,
    id: JobId,
) -> Result<Job, NoMemory>
    requires { length buffer.now.table < 2 ^ 32 }
    ensures { IfOk result (λ job. job ≡ record { id = id; waits = waits.unfinished core.now (waits.jobs_before_write buffer.now); packets = rows.move_packets buffer.now mem; ran = 0; finished = false }) }
{
    Ok(Job {
        id,
        waits: unfinished_before_write(alloc, core, buffer)?,
        packets: move_packets(alloc, buffer, mem)?,
        ran: 0,
        finished: false,
    })
}

/// Returns the frames that a move of `buffer` leaves: those of a buffer in TT.
fn frames_left(alloc: Global, buffer: &Buffer) -> Result<Frames, NoMemory>
    ensures { IfOk result (λ frames. frames ≡ rows.frames_left buffer.now.mem buffer.now) }
{
    match buffer.mem {
        Mem::Tt => frames_of(alloc, buffer),
        Mem::Vram | Mem::System => Ok(Frames::new(alloc)),
    }
}

/// Returns a list of the one job `id`.
fn only(alloc: Global, id: JobId) -> Result<JobIds, NoMemory>
    ensures { IfOk result (λ jobs. jobs ≡ id ∷ []) }
{
    let mut jobs = JobIds::new(alloc);
    jobs.push(id)?;
    Ok(jobs)
}

/// Returns the ghost numbered `num` with the pages of `buffer` and with `frames`, which stay until `jobs` are done.
pub fn ghost_of(
    alloc: Global,
    buffer: &Buffer,
    num: u64,
    frames: Frames,
    jobs: JobIds,
) -> Result<Ghost, NoMemory>
    ensures { IfOk result (λ left. left ≡ record { num = num; vram = holds.spans_in Vram buffer.now; tt = holds.spans_in Tt buffer.now; frames = frames; jobs = jobs }) }
{
    Ok(Ghost {
        num,
        vram: Spans::from_slice(alloc, spans_in(Mem::Vram, buffer))?,
        tt: Spans::from_slice(alloc, spans_in(Mem::Tt, buffer))?,
        frames,
        jobs,
    })
}

/// Returns the ghost numbered `num` that a moved buffer leaves until the job `id` is done.
fn ghost_of_moved(alloc: Global, buffer: &Buffer, id: JobId, num: u64) -> Result<Ghost, NoMemory>
    ensures { IfOk result (λ left. left ≡ rows.ghost_of_moved buffer.now id num) }
{
    let frames = frames_left(alloc, buffer)?;
    let jobs = only(alloc, id)?;
    ghost_of(alloc, buffer, num, frames, jobs)
}

/// Returns the ghost that a move leaves, or `None` if its pages are free at once.
fn kept_by_ghost(
    alloc: Global,
    buffer: &Buffer,
    id: JobId,
    left: Left,
) -> Result<Option<Ghost>, NoMemory>
    ensures { IfOk result (λ behind. (ghosts : _) → rows.ghosts_left buffer.now id left ghosts ≡ ghosts ++ option_to_list behind) }
{
    match left {
        Left::Now => Ok(None),
        Left::Ghost(num) => {
            let behind = ghost_of_moved(alloc, buffer, id, num)?;
            Ok(Some(behind))
        }
    }
}

/// Removes the last ghost.
fn drop_last_ghost(ghosts: &mut Ghosts)
    ensures { ghosts.new ≡ without_last ghosts.old }
{
    let count = ghosts.len();
    if count > 0 {
        let _ = ghosts.remove(count - 1);
    }
}

/// Carries buffer `b` to its target, and adds `behind`, what it leaves. Without memory it leaves `core` as it was.
fn carry_and_leave(
    alloc: Global,
    core: &mut Core,
    b: BufId,
    mem: Mem,
    id: JobId,
    behind: Option<Ghost>,
) -> Result<(), NoMemory>
    ensures ok { OnOk result (core.new ≡ record core.old { buffers = changed (rows.moved mem id) core.old.buffers b; ghosts = core.old.ghosts ++ option_to_list behind }) }
    ensures err { OnErr result (core.new ≡ core.old) }
{
    let Some(behind) = behind else {
        return carry(alloc, &mut core.buffers, b, mem, id);
    };
    core.ghosts.push(behind)?;
    if carry(alloc, &mut core.buffers, b, mem, id).is_err() {
        drop_last_ghost(&mut core.ghosts);
        return Err(NoMemory);
    }
    Ok(())
}

/// Emits `job`, a move of buffer `b`, and adds `behind`, what it leaves. Without memory it leaves `core` as it was.
fn emit(
    alloc: Global,
    core: &mut Core,
    b: BufId,
    mem: Mem,
    job: Job,
    behind: Option<Ghost>,
) -> Result<(), NoMemory>
    ensures ok { OnOk result (core.new ≡ record core.old { buffers = changed (rows.moved mem job.id) core.old.buffers b; jobs = core.old.jobs ++ job ∷ []; ghosts = core.old.ghosts ++ option_to_list behind }) }
    ensures err { OnErr result (core.new ≡ core.old) }
{
    let id = job.id;
    core.jobs.push(job)?;
    if carry_and_leave(alloc, core, b, mem, id, behind).is_err() {
        core.jobs.drop_last();
        return Err(NoMemory);
    }
    Ok(())
}

/// Makes `core` the core after a move of buffer `b`. Without memory it leaves `core` as it was.
fn move_in_core(
    alloc: Global,
    core: &mut Core,
    b: BufId,
    mem: Mem,
    id: JobId,
    left: Left,
) -> Result<(), NoMemory>
    requires { length (words.buffer_in core.old b).table < 2 ^ 32 }
    ensures ok { OnOk result (core.new ≡ rows.core_after_move core.old b mem id left) }
    ensures err { OnErr result (core.new ≡ core.old) }
{
    let dead = dead_buffer(alloc);
    let buffer = buffer_in(core, b, &dead);
    let job = move_job(alloc, core, buffer, mem, id)?;
    let behind = kept_by_ghost(alloc, buffer, id, left)?;
    emit(alloc, core, b, mem, job, behind)?;
    if let Left::Now = left {
        core.move_fence = Some(id);
    }
    Ok(())
}

/// Moves buffer `b` to its target by a job of context 0 (ttm_bo_move_accel_cleanup). Without memory it leaves `state` as it was.
#[tactic(auto, using(crate::proofs::Rows::after_move_job_is))]
pub fn move_buffer(
    alloc: Global,
    script: &Script,
    state: &mut State,
    b: BufId,
    mem: Mem,
    num: u64,
    left: Left,
) -> Result<(), NoMemory>
    requires { HasShortTable state.old b }
    ensures ok { OnOk result (state.new ≡ rows.after_move script.now state.old b mem num left) }
    ensures err { OnErr result (state.new ≡ state.old) }
{
    let id = JobId { ctx: 0, num };
    let lists = relisted_in(alloc, script, state, b, mem)?;
    move_in_core(alloc, &mut state.core, b, mem, id, left)?;
    state.lists = lists;
    if let Left::Ghost(num) = left {
        state.last_ghost = num;
    }
    put_item(&mut state.last_jobs, 0, num);
    Ok(())
}
