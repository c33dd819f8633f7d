use crate::making::{ensure, script_of};
use entry_reader::read_report;
use journal_model::{Core, Entry, FenceRun, Script, State};
use rules_apply::{apply, first_state, is_ready};
use std::alloc::Global;
use std::process::Abort;
use ttm_base::Mem;

/// Two buffers of two pages, mates of priority 1, and a thread that fills the first over a page border, by a job.
const SCRIPT: &str = "ttm 1
vram range 4
tt 4
frames 4
swap 4
engines 1
buffer a 2 prio 1 group 3 align 1 want sys busy sys
buffer b 2 prio 1 group 3 align 1 want sys busy sys
thread
submit 1 fill a 4000 200 07
end
";

/// The number of entries that lead to where the first buffer has moved.
const MOVED: usize = 10;

/// The number of entries.
const ALL: usize = 25;

/// The first buffer gets two pages of TT, and frames for both. The job is armed, and the buffer moves to VRAM and leaves a ghost. Both
/// jobs end, and the ghost is reaped. The second buffer is made, and is a victim twice that is let go. The first buffer is freed, and two
/// commands are answered.
const JOURNAL: &str = "report 1
journal 25
1 t1 new a
2 t1 ticket 1
3 t1 reserve a
4 t1 take a tt 1-3
5 t1 populate a 0 2
6 t1 populate a 1 0
7 t1 bind a
8 t1 arm e1 1
9 t1 take a vram 1-3
10 t1 move a vram 1 1
11 e1 packet 1 0
12 e1 done 1
13 e0 done 1
14 r reap 1
15 t1 new b
16 t1 catch b vram
17 t1 skip b
18 t1 catch b swap
19 t1 loose b
20 t1 dry b 0 short
21 t1 bulk 3
22 t1 unbind a
23 t1 free a 0
24 t1 result ok
25 t1 refused NoBuffer
";

/// Asserts that each entry is ready where it comes, and makes it.
fn make_all(rt: &impl Abort, alloc: Global, script: &Script, state: &mut State, entries: &[Entry]) {
    for entry in entries {
        ensure(rt, is_ready(script, state, entry));
        apply(state, alloc, script, entry).expect(rt, "memory");
    }
}

/// Asserts that two fences stand in these runs.
fn are_two(rt: &impl Abort, runs: &[FenceRun]) {
    let mut count: u64 = 0;
    for run in runs {
        count = count.saturating_add(run.jobs.count);
    }
    ensure(rt, count == 2);
}

const FRAMES: &[u32] = &[2, 0];

/// Asserts that the first buffer stands in VRAM and has two fences, the first ghost holds the frames 2 and 0, and the first job has two
/// packets: it fills up to a page border, and from there on.
fn assert_moved(rt: &impl Abort, core: &Core) {
    match (
        core.buffers.items().first(),
        core.ghosts.items().first(),
        core.jobs.items().first(),
    ) {
        (Some(Some(buffer)), Some(left), Some(job)) => {
            ensure(rt, buffer.mem == Mem::Vram && job.packets.len() == 2);
            are_two(rt, buffer.fences.runs());
            ensure(rt, left.frames.items() == FRAMES);
        }
        _ => ensure(rt, false),
    }
}

/// Asserts that there is no ghost and the thread has answered two commands.
fn assert_over(rt: &impl Abort, state: &State) {
    ensure(rt, state.core.ghosts.len() == 0);
    match state.courses.items().first() {
        Some(course) => ensure(rt, course.answered == 2),
        None => ensure(rt, false),
    }
}

#[test]
fn buffer_moves_and_leaves_a_ghost(rt: HostRuntime) {
    let rt = &rt;
    let alloc = rt.alloc();
    let script = script_of(rt, alloc, SCRIPT);
    let parsed = read_report(alloc, &script, JOURNAL.as_bytes()).expect(rt, "memory");
    let mut state = first_state(alloc, &script).expect(rt, "a state");
    let entries = parsed.entries.items();
    ensure(rt, entries.len() == ALL);
    let (first, rest) = entries.split_at(MOVED);
    make_all(rt, alloc, &script, &mut state, first);
    assert_moved(rt, &state.core);
    make_all(rt, alloc, &script, &mut state, rest);
    assert_over(rt, &state);
}
