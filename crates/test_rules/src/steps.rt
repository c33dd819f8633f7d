use crate::making::{core_of, ensure, ids_of, job_of, list, one, script_of, state_of};
use journal_model::{BufIds, Core, Course, Frames, Ghost, Jobs, Kind, Script, State};
use rules_next::next;
use rules_search::has_room;
use rules_state::{new_buffer, new_course, no_reservation};
use std::alloc::Global;
use std::process::Abort;
use ttm_base::{Actor, BufId, JobId, Mem, Need, NoMemory, Packet, PagePlace, Span, Spans, Stamp};

const A: BufId = BufId(0);

const THREAD: Actor = Actor::Thread(1);

/// A buffer of one page in VRAM, and a thread that looks for it.
const SCRIPT: &str = "ttm 2
vram range 4
tt 4
frames 2
swap 1
engines 1
buffer a 1 prio 0 group - align 1 place vram
thread
find a
end
";

/// The first job of the manager's own context.
const FIRST: JobId = JobId { ctx: 0, num: 1 };

const FILL: Packet = Packet::Fill {
    to: PagePlace::Frame(0),
    off: 0,
    len: 1,
    byte: 7,
};

/// A job of engine 1.
const SECOND: JobId = JobId { ctx: 1, num: 1 };

/// Makes two jobs, of which the one of engine 1 waits for the first.
fn waiting_jobs(rt: &impl Abort, alloc: Global) -> Jobs {
    let mut jobs = Jobs::new(alloc);
    jobs.push(job_of(rt, alloc, FIRST, &[], &[FILL]))
        .expect(rt, "a job");
    jobs.push(job_of(rt, alloc, SECOND, &[FIRST], &[FILL]))
        .expect(rt, "a job");
    jobs
}

/// Makes a ghost, which waits for the first job.
fn waiting_ghost(rt: &impl Abort, alloc: Global) -> Ghost {
    Ghost {
        num: 5,
        vram: Spans::new(alloc),
        tt: Spans::new(alloc),
        frames: Frames::new(alloc),
        jobs: ids_of(rt, alloc, &[FIRST]),
    }
}

/// Makes a core with the buffer live in SYSTEM, beside the jobs and the ghost.
fn waiting_core(rt: &impl Abort, alloc: Global) -> Core {
    let buffer = new_buffer(alloc, 1).expect(rt, "a buffer");
    let buffers = one(rt, alloc, Some(buffer));
    let ghosts = one(rt, alloc, waiting_ghost(rt, alloc));
    core_of(buffers, waiting_jobs(rt, alloc), ghosts)
}

/// Makes a thread's course with this stamp, which holds these buffers.
fn course_with(alloc: Global, stamp: Option<Stamp>, held: BufIds) -> Course {
    let mut course = new_course(alloc, 0);
    course.stamp = stamp;
    course.held = held;
    course
}

/// Makes a state with this thread.
fn state_with(rt: &impl Abort, alloc: Global, course: Course) -> State {
    let mut state = state_of(alloc, waiting_core(rt, alloc));
    state
        .reservations
        .push(no_reservation())
        .expect(rt, "a reservation");
    state.last_ghost = 5;
    state.last_jobs.push(1).expect(rt, "a number");
    state.courses.push(course).expect(rt, "a course");
    state
}

/// What a row tells of a step.
#[derive(Clone, Copy)]
enum Seen {
    Ticket(Stamp),
    Reserve(BufId),
    /// A target of one span.
    Take(BufId, Mem, Span),
    /// A packet of no pieces shown, by its job's number and its place there.
    Packet(u64, u32),
    /// A wait for a job.
    Waits(JobId),
}

/// Returns whether the entry is the one of a row.
fn is_seen(kind: &Kind, want: Seen) -> bool {
    match kind {
        Kind::Ticket { s } => matches!(want, Seen::Ticket(stamp) if *s == stamp),
        Kind::Reserve { b } => matches!(want, Seen::Reserve(buffer) if *b == buffer),
        Kind::Take { b, mem, spans } => {
            let first = spans.items().first().copied();
            spans.len() == 1
                && matches!(want, Seen::Take(buffer, place, span) if (*b, *mem, first) == (buffer, place, Some(span)))
        }
        Kind::Packet { num, k, piece } => {
            piece.len() == 0 && matches!(want, Seen::Packet(job, at) if *num == job && *k == at)
        }
        _ => false,
    }
}

/// Returns whether what an actor waits for is what a row tells.
fn is_awaited(need: Need, want: Seen) -> bool {
    match (need, want) {
        (Need::Fence(job), Seen::Waits(wanted)) => job == wanted,
        _ => false,
    }
}

/// Returns whether the next step of an actor is the one of a row.
fn comes(alloc: Global, script: &Script, state: &State, who: Actor, want: Seen) -> bool {
    if !has_room(script, state) {
        return false;
    }
    match next(alloc, script, state, who) {
        Ok(Ok(kind)) => {
            let is_it = is_seen(&kind, want);
            drop(kind);
            is_it
        }
        Ok(Err(need)) => is_awaited(need, want),
        Err(NoMemory) => false,
    }
}

/// The thread's stamp, the buffers that it holds, an actor, and its next step.
const STEPS: &[(Option<Stamp>, &[BufId], Actor, Seen)] = &[
    (None, &[], THREAD, Seen::Ticket(Stamp(1))),
    (Some(Stamp(1)), &[], THREAD, Seen::Reserve(A)),
    (
        Some(Stamp(1)),
        &[A],
        THREAD,
        Seen::Take(A, Mem::Vram, Span { start: 0, end: 1 }),
    ),
    (None, &[], Actor::Engine(0), Seen::Packet(1, 0)),
    (None, &[], Actor::Engine(1), Seen::Waits(FIRST)),
    (None, &[], Actor::Reaper, Seen::Waits(FIRST)),
];

#[test]
fn steps_of_threads_engines_and_reaper(rt: HostRuntime) {
    let rt = &rt;
    let alloc = rt.alloc();
    let script = script_of(rt, alloc, SCRIPT);
    for (stamp, held, who, want) in STEPS {
        let course = course_with(alloc, *stamp, list(rt, alloc, held));
        let state = state_with(rt, alloc, course);
        ensure(rt, comes(alloc, &script, &state, *who, *want));
    }
}
