ghost use Rattle.std.specs.Prelude.{◌≡◌, IfOk};
ghost use Rattle.room_pages.specs.ghosts.Leaving.{spans_if, all_jobs, ghost_of as left_by};

use crate::binding::frames_in;
use bo_table::Bo;
use fence_core::FenceSet;
use place_list::PlacedSpans;
use room_representation::Ghost;
use std::alloc::Global;
use ttm_base::{Mem, NoMemory, Spans, Usage};

/// Returns a copy of `spans`, or none where the memory type `mem` isn't `mine`, the one that is asked for.
fn spans_in(alloc: Global, mem: Mem, mine: Mem, spans: &PlacedSpans) -> Result<Spans, NoMemory>
    ensures { IfOk result (λ copy. copy ≡ spans_if mem mine spans.now) }
{
    if mem == mine {
        spans.copy()
    } else {
        Ok(Spans::new(alloc))
    }
}

/// Returns a set of all jobs of `set`.
fn jobs_in(alloc: Global, set: &FenceSet) -> Result<FenceSet, NoMemory>
    ensures { IfOk result (λ jobs. jobs ≡ all_jobs set.now) }
{
    let mut jobs = FenceSet::new(alloc, set.contexts())?;
    jobs.add_all(set, Usage::Read);
    Ok(jobs)
}

/// Returns the ghost number `g` that the freed buffer `bo` leaves until its jobs are done.
pub(crate) fn ghost_of(alloc: Global, bo: &Bo, g: u64) -> Result<Ghost, NoMemory>
    ensures { IfOk result (λ ghost. ghost ≡ left_by bo.now g) }
{
    let vram = spans_in(alloc, bo.mem, Mem::Vram, &bo.spans)?;
    let tt = spans_in(alloc, bo.mem, Mem::Tt, &bo.spans)?;
    let frames = frames_in(alloc, bo.table.places())?;
    let jobs = jobs_in(alloc, bo.resv.fences())?;
    Ok(Ghost {
        num: g,
        vram,
        tt,
        frames,
        jobs,
    })
}
