use crate::making::{ensure, job_of};
use journal_model::Jobs;
use std::alloc::Global;
use std::process::Abort;
use ttm_base::JobId;

const FIRST: JobId = JobId { ctx: 1, num: 1 };

/// The job of engine 2.
const OTHER: JobId = JobId { ctx: 2, num: 1 };

/// A job that there isn't.
const NEITHER: JobId = JobId { ctx: 2, num: 2 };

/// Two jobs of engine 1, and one of engine 2 between them.
const THREE: &[JobId] = &[FIRST, OTHER, JobId { ctx: 1, num: 2 }];

fn three_jobs(rt: &impl Abort, alloc: Global) -> Jobs {
    let mut jobs = Jobs::new(alloc);
    for id in THREE {
        jobs.push(job_of(rt, alloc, *id, &[], &[]))
            .expect(rt, "a job");
    }
    jobs
}

/// Asserts that there are `all` jobs, and `pending` of them after those at the front that are done.
fn assert_jobs(rt: &impl Abort, jobs: &Jobs, all: usize, pending: usize) {
    ensure(rt, jobs.items().len() == all);
    ensure(rt, jobs.pending().len() == pending);
}

#[test]
fn jobs_at_the_front_are_closed_once_done(rt: HostRuntime) {
    let rt = &rt;
    let mut jobs = three_jobs(rt, rt.alloc());
    jobs.finish(OTHER);
    assert_jobs(rt, &jobs, 3, 3);
    jobs.finish(FIRST);
    assert_jobs(rt, &jobs, 3, 1);
    ensure(rt, jobs.named(OTHER).is_some());
    ensure(rt, jobs.named(NEITHER).is_none());
    jobs.drop_last();
    assert_jobs(rt, &jobs, 2, 0);
}
