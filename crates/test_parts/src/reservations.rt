use crate::fences::emitted;
use crate::wanted::{ensure, is_job};
use fence_core::Timeline;
use resv_object::Resv;
use std::process::Abort;
use ttm_base::{JobId, Stamp, Usage};

/// Tries to take the reservation for `stamp`. Asserts that it is taken or not, and that the third ticket holds it.
fn try_take(rt: &impl Abort, resv: &mut Resv, stamp: Stamp, taken: bool) {
    ensure(rt, resv.try_take(stamp) == taken);
    ensure(rt, resv.holder() == Some(Stamp(3)));
}

#[test]
fn one_ticket_holds_it(rt: HostRuntime) {
    let rt = &rt;
    let mut resv = Resv::new(rt.alloc(), 1).expect(rt, "a context");
    try_take(rt, &mut resv, Stamp(3), true);
    try_take(rt, &mut resv, Stamp(2), false);
    try_take(rt, &mut resv, Stamp(3), false);
    ensure(rt, resv.holder().is_some());
    resv.release();
    ensure(rt, resv.holder().is_none());
    ensure(rt, resv.try_take(Stamp(2)));
    resv.clear();
    ensure(rt, resv.holder().is_none());
}

const JOB: JobId = JobId { ctx: 0, num: 1 };

/// For each usage the job to wait for, where a job writes.
const WRITTEN: &[(Usage, Option<JobId>)] = &[
    (Usage::Kernel, None),
    (Usage::Write, Some(JOB)),
    (Usage::Read, Some(JOB)),
];

/// Asserts that the write is waited for until the reservation is cleared.
fn assert_waits(rt: &impl Abort, resv: &mut Resv, timeline: &Timeline) {
    ensure(rt, resv.fences().contexts() == timeline.contexts());
    for (usage, wanted) in WRITTEN {
        is_job(rt, resv.need(*usage, timeline), *wanted);
    }
    resv.clear();
    ensure(rt, resv.fences().contexts() == timeline.contexts());
    is_job(rt, resv.need(Usage::Read, timeline), None);
}

#[test]
fn jobs_are_waited_for_by_usage(rt: HostRuntime) {
    let rt = &rt;
    let mut timeline = Timeline::new(rt.alloc(), 1).expect(rt, "a context");
    is_job(rt, emitted(&mut timeline, 0), Some(JOB));
    let mut resv = Resv::new(rt.alloc(), 1).expect(rt, "a context");
    ensure(rt, resv.fences().contexts() == 1);
    resv.add_fence(JOB, Usage::Write);
    assert_waits(rt, &mut resv, &timeline);
}
