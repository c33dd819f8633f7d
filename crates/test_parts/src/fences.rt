use crate::wanted::{ensure, is_job};
use fence_core::{FenceSet, Timeline};
use std::alloc::Global;
use std::process::Abort;
use ttm_base::{JobId, Usage};

/// Emits the next job of the context `ctx`, and returns it.
pub fn emitted(timeline: &mut Timeline, ctx: u32) -> Option<JobId> {
    if ctx < timeline.contexts() && timeline.next(ctx) < 100 {
        return Some(timeline.emit(ctx));
    }
    None
}

/// Marks a job of the context `ctx` as done, if one isn't. Returns whether there was one.
fn finished(timeline: &mut Timeline, ctx: u32) -> bool {
    if ctx < timeline.contexts() {
        let num = timeline.next(ctx) - 1;
        if !timeline.signalled(JobId { ctx, num }) {
            timeline.done(ctx);
            return true;
        }
    }
    false
}

fn is_done(timeline: &Timeline, job: JobId) -> bool {
    job.ctx < timeline.contexts() && timeline.signalled(job)
}

fn add(set: &mut FenceSet, job: JobId, usage: Usage) {
    if job.ctx < set.contexts() && 0 < job.num {
        set.add(job, usage);
    }
}

fn need(set: &FenceSet, usage: Usage, timeline: &Timeline) -> Option<JobId> {
    if set.contexts() == timeline.contexts() {
        return set.need(usage, timeline);
    }
    None
}

/// Asserts for each usage which job is to be waited for.
fn assert_need(
    rt: &impl Abort,
    set: &FenceSet,
    timeline: &Timeline,
    rows: &[(Usage, Option<JobId>)],
) {
    for (usage, wanted) in rows {
        is_job(rt, need(set, *usage, timeline), *wanted);
    }
}

/// Jobs in the order in which they are emitted, and whether each is done once the first context has marked one.
const JOBS: &[(JobId, bool)] = &[
    (JobId { ctx: 0, num: 1 }, true),
    (JobId { ctx: 0, num: 2 }, false),
    (JobId { ctx: 1, num: 1 }, false),
];

/// Asserts which of the jobs are done.
fn assert_done(rt: &impl Abort, timeline: &Timeline) {
    for (job, done) in JOBS {
        ensure(rt, is_done(timeline, *job) == *done);
    }
}

/// Makes a timeline with the jobs 1 and 2 of context 0, of which the first is done, and job 1 of context 1.
fn two_contexts(rt: &impl Abort, alloc: Global) -> Timeline {
    let mut timeline = Timeline::new(alloc, 2).expect(rt, "contexts");
    for (job, _done) in JOBS {
        is_job(rt, emitted(&mut timeline, job.ctx), Some(*job));
    }
    ensure(rt, finished(&mut timeline, 0));
    assert_done(rt, &timeline);
    timeline
}

const WRITE: JobId = JobId { ctx: 0, num: 2 };

const KERNEL: JobId = JobId { ctx: 1, num: 1 };

/// No job is waited for.
const NONE: &[(Usage, Option<JobId>)] = &[(Usage::Read, None)];

/// The write is waited for, but not before the kernel's own use.
const WRITTEN: &[(Usage, Option<JobId>)] = &[
    (Usage::Kernel, Some(KERNEL)),
    (Usage::Write, Some(WRITE)),
    (Usage::Read, Some(WRITE)),
];

const READ_BEHIND_WRITE: &[(Usage, Option<JobId>)] = &[(Usage::Read, Some(WRITE))];

const READ_BEHIND_KERNEL: &[(Usage, Option<JobId>)] = &[(Usage::Read, Some(KERNEL))];

/// Makes a set of a write, and a use by the kernel. Asserts that it has no job to wait for before.
fn two_fences(rt: &impl Abort, alloc: Global, timeline: &Timeline) -> FenceSet {
    let mut set = FenceSet::new(alloc, 2).expect(rt, "contexts");
    assert_need(rt, &set, timeline, NONE);
    add(&mut set, WRITE, Usage::Write);
    add(&mut set, KERNEL, Usage::Kernel);
    assert_need(rt, &set, timeline, WRITTEN);
    set
}

/// Makes a set of the uses of another set, as by the kernel.
fn copied(rt: &impl Abort, alloc: Global, set: &FenceSet) -> FenceSet {
    let mut other = FenceSet::new(alloc, 2).expect(rt, "contexts");
    if other.contexts() == set.contexts() {
        other.add_all(set, Usage::Kernel);
    }
    other
}

#[test]
fn usages_and_what_they_wait_for(rt: HostRuntime) {
    let rt = &rt;
    let mut timeline = two_contexts(rt, rt.alloc());
    let mut set = two_fences(rt, rt.alloc(), &timeline);
    let other = copied(rt, rt.alloc(), &set);
    assert_need(rt, &other, &timeline, READ_BEHIND_KERNEL);
    finished(&mut timeline, 1);
    assert_need(rt, &other, &timeline, NONE);
    assert_need(rt, &set, &timeline, READ_BEHIND_WRITE);
    set.clear();
    assert_need(rt, &set, &timeline, NONE);
}
