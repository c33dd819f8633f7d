ghost use Rattle.std.specs.Prelude.{◌≡◌, ◌-◌, length, take};
ghost use Rattle.journal_model.specs.code.JobRuns as runs;

use crate::job_ids::JobRun;
use crate::runs::{Run, Runs};
use ttm_base::{Fence, Usage};

/// Fences of one usage whose jobs' numbers follow one another.
#[derive(Clone, Copy)]
pub struct FenceRun {
    pub jobs: JobRun,
    pub usage: Usage,
}

/// The fences of a buffer, in the order of their coming, kept by runs.
pub type Fences = Runs<FenceRun>;

impl Run for FenceRun {
    type Item = Fence;

    ghost items = { runs.fences_of_run };

    ghost is_whole = { runs.is_whole };

    fn of(fence: Fence) -> FenceRun {
        FenceRun {
            jobs: JobRun::of(fence.job),
            usage: fence.usage,
        }
    }

    fn is_empty(self) -> bool {
        self.jobs.is_empty()
    }

    fn joined(self, next: FenceRun) -> Option<FenceRun> {
        if self.usage != next.usage {
            return None;
        }
        let jobs = self.jobs.joined(next.jobs)?;
        Some(FenceRun { jobs, ..self })
    }
}

impl Fences {
    /// Removes the last fence, if there is one.
    pub fn drop_last(&mut self)
        ensures { self.new ≡ take (length self.old - 1) self.old }
    {
        let Some(last) = self.runs.len().checked_sub(1) else {
            return;
        };
        let run = self.runs.at(last);
        if run.jobs.count > 1 {
            let jobs = JobRun {
                count: run.jobs.count - 1,
                ..run.jobs
            };
            self.runs.set(last, FenceRun { jobs, ..run });
        } else {
            let _ = self.runs.remove(last);
        }
    }
}
