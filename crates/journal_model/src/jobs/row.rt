ghost use Rattle.std.specs.Prelude.{◌≡◌, ◌<◌, ◌≤◌, ◌-◌, ◌++◌, ◌∷◌, [], List, IsTrue, false, true, length, drop};
ghost use Rattle.std.specs.List.{list_any};
ghost use Rattle.journal_model.specs.rules.Waits.{same_job};
ghost use Rattle.journal_model.specs.declared.state.Job.{Job};
ghost use Rattle.journal_model.specs.rules.ApplyJobs.{changed_job};
ghost use Rattle.journal_model.specs.code.JobRuns.{is_in, behind, fits, up_to};
ghost use Rattle.journal_model.specs.code.Jobs.{IsRow, ends_open};

use crate::job_ids::JobRun;
use crate::runs::Run;
use crate::state::Job;
use ttm_base::JobId;

/// The row without jobs.
pub const NO_ROW: JobRun = JobRun {
    ctx: 0,
    first: 0,
    count: 0,
};

/// Counts the jobs of `row` up to the one named `id`: none, if it is none of them.
fn count_up_to(row: JobRun, id: JobId) -> u64
    ensures value { result ≡ up_to id row }
    ensures within { result ≤ row.count }
    ensures apart { is_in id (behind result row) ≡ false }
{
    if id.ctx == row.ctx && row.first <= id.num && id.num - row.first < row.count {
        id.num - row.first + 1
    } else {
        0
    }
}

/// Returns the row once the job `id`, which isn't done, has come after it.
fn row_with(row: JobRun, id: JobId) -> JobRun
    ensures some { 0 < result.count }
    ensures row { (jobs : List Job) (job : Job) → job.id ≡ id → job.finished ≡ false → IsRow jobs row → IsRow (jobs ++ job ∷ []) result }
{
    let alone = JobRun {
        ctx: id.ctx,
        first: id.num,
        count: 1,
    };
    match row.joined(alone) {
        Some(both) => both,
        None => alone,
    }
}

/// Returns the row once `job` has come after it.
pub fn row_behind(row: JobRun, job: &Job) -> JobRun
    ensures some { job.now.finished ≡ false → 0 < result.count }
    ensures row { (jobs : List Job) → IsRow jobs row → IsRow (jobs ++ job.now ∷ []) result }
{
    if job.finished {
        NO_ROW
    } else {
        row_with(row, job.id)
    }
}

/// Returns the row once the job `id` is done: the jobs after it.
#[tactic(auto, using(crate::proofs::RowLaws::no_row))]
pub fn row_after(row: JobRun, id: JobId) -> JobRun
    requires { IsTrue (fits row) }
    ensures left { result.count ≡ row.count - up_to id row }
    ensures row { (jobs : _) → IsRow jobs row → IsRow (changed_job (λ j. record j { finished = true }) id jobs) result }
{
    let count = count_up_to(row, id);
    if count == row.count {
        return NO_ROW;
    }
    JobRun {
        ctx: row.ctx,
        first: row.first + count,
        count: row.count - count,
    }
}

/// Returns the row of the last of `jobs` alone, if it isn't done.
pub fn row_of_last(jobs: &[Job]) -> JobRun
    ensures some { ends_open jobs.now ≡ true → 0 < result.count }
    ensures row { IsRow jobs.now result }
{
    match jobs.split_last() {
        Some((job, _)) => row_behind(NO_ROW, job),
        None => NO_ROW,
    }
}

/// Returns where the jobs end that can be named `id`, but at least `start`: after them none has the name.
#[tactic(auto, using(crate::proofs::RowLaws::row_within))]
pub fn end_of(jobs: &[Job], start: usize, row: JobRun, id: JobId) -> usize
    requires within { start ≤ length jobs.now }
    requires row { IsRow jobs.now row }
    ensures from { start ≤ result }
    ensures within { result ≤ length jobs.now }
    ensures apart { list_any (λ j. same_job id j.id) (drop result jobs.now) ≡ false }
{
    let end = jobs.len() - (row.count - count_up_to(row, id)) as usize;
    end.max(start)
}
