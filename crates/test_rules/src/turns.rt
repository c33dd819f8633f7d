use crate::making::{core_of, ensure, job_of, script_of, state_of};
use journal_model::{Buffers, Courses, Ghosts, Jobs, Script, State};
use rules_next::turns::{is_over, next_actor};
use rules_search::has_room;
use rules_state::new_course;
use std::alloc::Global;
use std::process::Abort;
use ttm_base::{Actor, JobId, Stamp};
use turn_order::TurnOrder;

const JOB: JobId = JobId { ctx: 1, num: 1 };

/// Three threads without commands, and one engine.
const SCRIPT: &str =
    "ttm 1\nvram range 4\ntt 4\nframes 2\nswap 1\nengines 1\nthread\nthread\nthread\nend\n";

/// The first thread has no ticket, the third an older one than the second.
const TICKETS: &[Option<Stamp>] = &[None, Some(Stamp(7)), Some(Stamp(3))];

fn three_courses(rt: &impl Abort, alloc: Global) -> Courses {
    let mut courses = Courses::new(alloc);
    for stamp in TICKETS {
        let mut course = new_course(alloc, 0);
        course.stamp = *stamp;
        courses.push(course).expect(rt, "a thread");
    }
    courses
}

/// Makes a state where a job of engine 1 has run.
fn state_with_tickets(rt: &impl Abort, alloc: Global) -> State {
    let mut jobs = Jobs::new(alloc);
    jobs.push(job_of(rt, alloc, JOB, &[], &[]))
        .expect(rt, "a job");
    let core = core_of(Buffers::new(alloc), jobs, Ghosts::new(alloc));
    let mut state = state_of(alloc, core);
    let courses = three_courses(rt, alloc);
    state.courses = courses;
    state.last_stamp = 7;
    state.last_jobs.extend(&[0, 1]).expect(rt, "numbers");
    state
}

const ORDER: &[Actor] = &[
    Actor::Reaper,
    Actor::Engine(0),
    Actor::Engine(1),
    Actor::Thread(3),
    Actor::Thread(2),
    Actor::Thread(1),
];

/// Asserts that the order of the actors is this one.
fn assert_order(rt: &impl Abort, script: &Script, state: &State, want: &[Actor]) {
    ensure(rt, has_room(script, state));
    let mut order = TurnOrder::new();
    for who in want {
        ensure(rt, order.next(script, &state.courses) == Some(*who));
    }
    ensure(rt, order.next(script, &state.courses).is_none());
}

/// Asserts that the actor is the first that has an entry.
fn goes_next(rt: &impl Abort, alloc: Global, script: &Script, state: &State, who: Actor) {
    ensure(rt, has_room(script, state));
    ensure(
        rt,
        next_actor(alloc, script, state).expect(rt, "memory") == Some(who),
    );
}

/// Asserts that nothing is left to do, or that something is.
fn assert_over(rt: &impl Abort, script: &Script, state: &State, want: bool) {
    ensure(rt, has_room(script, state));
    ensure(rt, is_over(script, state) == want);
}

#[test]
fn engines_go_before_threads_and_elders_before_others(rt: HostRuntime) {
    let rt = &rt;
    let alloc = rt.alloc();
    let script = script_of(rt, alloc, SCRIPT);
    let mut state = state_with_tickets(rt, alloc);
    assert_order(rt, &script, &state, ORDER);
    goes_next(rt, alloc, &script, &state, Actor::Engine(1));
    assert_over(rt, &script, &state, false);
    state.core.jobs.finish(JOB);
    assert_over(rt, &script, &state, true);
}
