ghost use Rattle.std.specs.Prelude.{◌≡◌, ◌<◌, IfOk, replicate};
ghost use Rattle.ttm_base.specs.declared.Usage.TheVariants as usage;
ghost use Rattle.fence_core.specs.Fences.{added, nothing_kept};
ghost use Rattle.journal_model.specs.rules.Holds as holds;
ghost use Rattle.journal_model.specs.rules.ApplyMoves as words;
ghost use Rattle.room_representation.specs.steps.Lent.{as_buffer};
ghost use Rattle.room_moves.specs.Lefts.{left_by_move};

use bo_table::Bo;
use fence_core::FenceSet;
use journal_model::{Frames, Left};
use room_pages::binding::frames_in;
use room_representation::Ghost;
use std::alloc::Global;
use ttm_base::{JobId, Mem, NoMemory, Spans, Usage};

/// Returns a copy of the spans that the buffer `bo` has in the memory type `mem`.
fn spans_in(alloc: Global, bo: &Bo, mem: Mem) -> Result<Spans, NoMemory>
    ensures { IfOk result (λ spans. spans ≡ holds.spans_in mem (as_buffer bo.now)) }
{
    if bo.mem == mem {
        bo.spans.copy()
    } else {
        Ok(Spans::new(alloc))
    }
}

/// Returns the frames that the buffer `bo` leaves when it moves: its own, where it stands in TT.
fn frames_left(alloc: Global, bo: &Bo) -> Result<Frames, NoMemory>
    ensures { IfOk result (λ frames. frames ≡ words.frames_left bo.now.mem (as_buffer bo.now)) }
{
    match bo.mem {
        Mem::Tt => frames_in(alloc, bo.table.places()),
        Mem::Vram | Mem::System => Ok(Frames::new(alloc)),
    }
}

/// Returns a set with `job` as its only job.
fn only_job(alloc: Global, contexts: u32, job: JobId) -> Result<FenceSet, NoMemory>
    requires known { job.ctx < contexts }
    requires num { 0 < job.num }
    ensures { IfOk result (λ set. set ≡ added (replicate contexts nothing_kept) job usage.Kernel) }
{
    let mut jobs = FenceSet::new(alloc, contexts)?;
    jobs.add(job, Usage::Kernel);
    Ok(jobs)
}

/// Returns what the moved buffer `bo` leaves: a ghost that waits for `job`, the move, or None where its pages are free at once.
pub(crate) fn ghost_left(
    alloc: Global,
    contexts: u32,
    bo: &Bo,
    job: JobId,
    left: Left,
) -> Result<Option<Ghost>, NoMemory>
    requires known { job.ctx < contexts }
    requires num { 0 < job.num }
    ensures { IfOk result (λ object. object ≡ left_by_move contexts (as_buffer bo.now) job left) }
{
    let num = match left {
        Left::Now => return Ok(None),
        Left::Ghost(num) => num,
    };
    Ok(Some(Ghost {
        num,
        vram: spans_in(alloc, bo, Mem::Vram)?,
        tt: spans_in(alloc, bo, Mem::Tt)?,
        frames: frames_left(alloc, bo)?,
        jobs: only_job(alloc, contexts, job)?,
    }))
}
