use crate::making::{buffer_of, core_of, ensure, job_of, list, one, script_of, state_of};
use journal_model::{Buffer, Command, Core, Course, Ghost, JobIds, Jobs, Ops, Script, State};
use rules_holds::{free_frame, free_slot, held_spans, jobs_before_use, packets_of};
use rules_state::{
    asked_places, frames_of, in_order, named, new_course, place_search_at_work, without_buffer,
};
use std::alloc::Global;
use std::process::Abort;
use ttm_base::{
    BufId, Fence, ItemList, JobId, Loc, Mem, NoMemory, Op, Packet, PagePlace, Span, Spans, Usage,
};

const A: BufId = BufId(0);

const B: BufId = BufId(1);

const JOB: JobId = JobId { ctx: 1, num: 1 };

/// A frame, a page of zeros and a slot.
const PLACES: &[Loc] = &[Loc::Frame(0), Loc::Zero, Loc::Slot(0)];

const READ: Fence = Fence {
    job: JOB,
    usage: Usage::Read,
};

/// Makes a buffer of three pages, whose last job read it.
fn read_buffer(rt: &impl Abort, alloc: Global) -> Buffer {
    buffer_of(rt, alloc, PLACES, &[READ])
}

/// Two pages.
const HELD: &[Span] = &[Span { start: 2, end: 4 }];

/// Makes a ghost that holds two pages of TT and a frame.
fn ghost_of(rt: &impl Abort, alloc: Global) -> Ghost {
    Ghost {
        num: 1,
        vram: Spans::new(alloc),
        tt: list(rt, alloc, HELD),
        frames: list(rt, alloc, &[2]),
        jobs: JobIds::new(alloc),
    }
}

/// Makes a core of the buffer, its job, which isn't done, and the ghost.
fn read_core(rt: &impl Abort, alloc: Global) -> Core {
    let buffers = one(rt, alloc, Some(read_buffer(rt, alloc)));
    let ghosts = one(rt, alloc, ghost_of(rt, alloc));
    let mut jobs = Jobs::new(alloc);
    jobs.push(job_of(rt, alloc, JOB, &[], &[]))
        .expect(rt, "a job");
    let mut core = core_of(buffers, jobs, ghosts);
    core.move_fence = Some(JOB);
    core
}

/// A script with three frames and a slot.
const SCRIPT: &str = "ttm 1\nvram range 4\ntt 4\nframes 3\nswap 1\nengines 1\nend\n";

/// Makes a state with one list, which has the buffer.
fn listed_state(rt: &impl Abort, alloc: Global) -> State {
    let mut state = state_of(alloc, read_core(rt, alloc));
    let listed = one(rt, alloc, list(rt, alloc, &[A]));
    state.lists = listed;
    state.last_ghost = 1;
    state
}

/// Asserts that the list is this one.
fn are<T: Copy + PartialEq>(rt: &impl Abort, items: Result<ItemList<T>, NoMemory>, want: &[T]) {
    ensure(rt, items.expect(rt, "memory").items() == want);
}

/// Asserts that the jobs are the one of engine 1.
fn is_job(rt: &impl Abort, jobs: &JobIds) {
    match jobs.runs().first() {
        Some(run) => ensure(rt, (run.ctx, run.first, run.count) == (JOB.ctx, JOB.num, 1)),
        None => ensure(rt, false),
    }
    ensure(rt, jobs.runs().len() == 1);
}

/// Operations that mention B, A and B, and then A.
const OPS: &[Op] = &[
    Op::Copy {
        dst: B,
        doff: 0,
        src: A,
        soff: 0,
        len: 1,
    },
    Op::Fill {
        dst: B,
        off: 0,
        len: 1,
        byte: 1,
    },
    Op::Probe {
        src: A,
        off: 0,
        len: 1,
    },
];

/// Makes a job of engine 1.
fn job_of_ops(rt: &impl Abort, alloc: Global, ops: &[Op]) -> Command {
    let mut job = Ops::new(alloc);
    for op in ops {
        job.push(*op).expect(rt, "memory");
    }
    Command::Submit {
        engine: 1,
        ops: job,
    }
}

/// Two buffers, of which the first stands twice.
const NAMED: &[BufId] = &[A, B, A];

#[test]
fn buffers_pages_and_places_of_commands(rt: HostRuntime) {
    let rt = &rt;
    let alloc = rt.alloc();
    are(rt, without_buffer(alloc, NAMED, A), &[B]);
    ensure(rt, named(&Command::Pin { b: B }) == [B].as_slice());
    ensure(rt, named(&job_of_ops(rt, alloc, OPS)) == [B, A].as_slice());
    let buffer = read_buffer(rt, alloc);
    are(rt, frames_of(alloc, &buffer), &[0]);
    let script = script_of(rt, alloc, SCRIPT);
    let places = asked_places(alloc, &script, &Command::SwapOut { b: A }, A).expect(rt, "memory");
    ensure(rt, places.len() == 1);
}

/// The packets of a probe of some bytes, which end at a page.
const PIECES: &[Packet] = &[
    Packet::Probe {
        from: PagePlace::Frame(0),
        off: 4090,
        len: 6,
    },
    Packet::Probe {
        from: PagePlace::Frame(0),
        off: 0,
        len: 4,
    },
];

const PROBE: Op = Op::Probe {
    src: A,
    off: 4090,
    len: 10,
};

const FILL: Op = Op::Fill {
    dst: A,
    off: 0,
    len: 1,
    byte: 7,
};

/// Asserts that the second frame is the lowest that is free, and no slot is.
fn assert_free(rt: &impl Abort, alloc: Global, script: &Script, core: &Core) {
    ensure(rt, free_frame(alloc, script, core) == Ok(Some(1)));
    ensure(rt, free_slot(alloc, script, core) == Ok(None));
}

/// Packets end at pages, and a job is waited for.
#[test]
fn what_is_held_and_free_and_waited_for(rt: HostRuntime) {
    let rt = &rt;
    let alloc = rt.alloc();
    let core = read_core(rt, alloc);
    let script = script_of(rt, alloc, SCRIPT);
    are(rt, held_spans(alloc, Mem::Tt, &core), HELD);
    assert_free(rt, alloc, &script, &core);
    are(rt, packets_of(alloc, &core, &[PROBE]), PIECES);
    let jobs = jobs_before_use(alloc, &core, &[FILL], A).expect(rt, "memory");
    is_job(rt, &jobs);
}

/// Asserts that the search at work of a move to VRAM has one place, and no pressure.
fn has_one_place(rt: &impl Abort, alloc: Global, script: &Script, state: &State, course: &Course) {
    let moved = Command::Move {
        b: A,
        mem: Mem::Vram,
    };
    match place_search_at_work(alloc, script, state, course, &moved, A) {
        Ok(search) => ensure(rt, search.list.len() == 1 && !search.forced),
        Err(NoMemory) => ensure(rt, false),
    }
}

#[test]
fn eviction_order_and_search_of_a_state(rt: HostRuntime) {
    let rt = &rt;
    let alloc = rt.alloc();
    let state = listed_state(rt, alloc);
    let script = script_of(rt, alloc, SCRIPT);
    let course = new_course(alloc, 0);
    are(rt, in_order(alloc, &state, Mem::System), &[A]);
    has_one_place(rt, alloc, &script, &state, &course);
}
