ghost use Rattle.journal_model.specs.code.JobRuns as runs;

use crate::runs::{Run, Runs};
use ttm_base::JobId;

/// Jobs of one context whose numbers follow one another.
#[derive(Clone, Copy)]
pub struct JobRun {
    pub ctx: u32,
    /// The least number of the jobs.
    pub first: u64,
    /// The number of jobs.
    pub count: u64,
}

/// Ids of jobs, in order, kept by runs, since the jobs of a context mostly come one after another.
pub type JobIds = Runs<JobRun>;

impl Run for JobRun {
    type Item = JobId;

    ghost items = { runs.jobs_of_run };

    ghost is_whole = { runs.fits };

    fn of(id: JobId) -> JobRun {
        JobRun {
            ctx: id.ctx,
            first: id.num,
            count: 1,
        }
    }

    fn is_empty(self) -> bool {
        self.count == 0
    }

    fn joined(self, next: JobRun) -> Option<JobRun> {
        let ahead = next.first.checked_sub(self.first)?;
        if self.ctx != next.ctx || ahead != self.count {
            return None;
        }
        let count = self.count.checked_add(next.count)?;
        Some(JobRun { count, ..self })
    }
}
