ghost use Rattle.std.specs.Prelude.{◌≡◌, ◌<◌, IfOk, All, length, replicate};
ghost use Rattle.fence_core.specs.Fences.{nothing_kept};
ghost use Rattle.room_jobs.specs.Uses as words;
ghost use Rattle.room_jobs.specs.Uses.{AreWide, HaveContext, with_uses, with_waits};

use bo_table::BoTable;
use fence_core::FenceSet;
use state_words::{is_written, use_of};
use std::alloc::Global;
use ttm_base::{BufId, JobId, NoMemory, Op, Usage};

/// Returns up to which usage jobs are waited for before a job of `ops` uses buffer `b`.
fn waited_use(ops: &[Op], b: BufId) -> Usage
    ensures { result ≡ words.waited_use ops.now b }
{
    if is_written(ops, b) {
        Usage::Read
    } else {
        Usage::Write
    }
}

/// Returns the set of jobs that a job of `ops` waits for at the buffers `bs`.
pub(crate) fn waits_at(
    alloc: Global,
    bos: &BoTable,
    contexts: u32,
    ops: &[Op],
    bs: &[BufId],
) -> Result<FenceSet, NoMemory>
    requires declared { All (λ b. b.0 < length bos.now.reservations) bs.now }
    requires wide { AreWide contexts bos.now.fences }
    ensures { IfOk result (λ waits. waits ≡ with_waits ops.now bos.now.fences (replicate contexts nothing_kept) bs.now) }
{
    let mut waits = FenceSet::new(alloc, contexts)?;
    for b in bs {
        let bo = bos.get(*b);
        waits.add_all(bo.resv.fences(), waited_use(ops, *b));
    }
    Ok(waits)
}

/// Adds `job`, which runs `ops`, to the jobs that use the buffers `bs`.
pub(crate) fn add_uses(bos: &mut BoTable, job: JobId, ops: &[Op], bs: &[BufId])
    requires known { HaveContext job.ctx bos.old.fences }
    requires num { 0 < job.num }
    ensures { bos.new ≡ with_uses job ops.now bos.old bs.now }
{
    for b in bs {
        bos.add_fence(*b, job, use_of(ops, *b));
    }
}
