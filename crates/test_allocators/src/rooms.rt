use crate::wanted::{are_spans, ensure};
use resource_core::{BuddyRoom, Lengths, Manager, PagesKind, RangeRoom, TakeFault, VramRoom};
use std::alloc::Global;
use std::process::Abort;
use ttm_base::{BufId, JobId, Mem, NoMemory, Owner, Place, Span, Spans};

const PLAIN: Place = Place {
    mem: Mem::Vram,
    first: 0,
    last: 0,
    topdown: false,
    contig: false,
};

const CONTIG: Place = Place {
    mem: Mem::Vram,
    first: 0,
    last: 0,
    topdown: false,
    contig: true,
};

const TOPDOWN: Place = Place {
    mem: Mem::Tt,
    first: 0,
    last: 0,
    topdown: true,
    contig: false,
};

const UP_TO_EIGHT: Place = Place {
    mem: Mem::Vram,
    first: 0,
    last: 8,
    topdown: false,
    contig: false,
};

/// A call, and the spans that it is to get: none where there is no room.
enum Step {
    Take(Owner, u32, Place, &'static [Span]),
    /// What a request would get, which nobody takes.
    Choose(u32, Place, &'static [Span]),
    /// What a request would get, which the owner then holds.
    Hold(Owner, u32, Place, &'static [Span]),
    Pass(Owner, Owner),
    Give(Owner),
}

/// Returns what a request gets: no spans where there is no room.
fn answered(rt: &impl Abort, alloc: Global, answer: Result<Spans, TakeFault>) -> Spans {
    match answer {
        Ok(spans) => spans,
        Err(fault) => {
            ensure(rt, fault == TakeFault::NoRoom);
            Spans::new(alloc)
        }
    }
}

/// Asserts that the owner keeps these spans: none where it holds nothing.
fn keeps<M: Manager>(rt: &impl Abort, room: &M, owner: Owner, want: &[Span]) {
    match room.spans_of(owner) {
        Some(spans) => are_spans(rt, spans.items(), want),
        None => ensure(rt, want.is_empty()),
    }
}

/// Asserts that the owner gets the spans, and keeps them.
fn take<M: Manager>(
    rt: &impl Abort,
    alloc: Global,
    room: &mut M,
    owner: Owner,
    pages: u32,
    place: &Place,
    want: &[Span],
) {
    ensure(rt, !room.holds(owner));
    let answer = room.take(alloc, owner, pages.max(1), 1, place);
    let spans = answered(rt, alloc, answer);
    are_spans(rt, spans.items(), want);
    drop(spans);
    keeps(rt, room, owner, want);
}

/// Asserts that the request would get the spans.
fn choose<M: Manager>(
    rt: &impl Abort,
    alloc: Global,
    room: &mut M,
    pages: u32,
    place: &Place,
    want: &[Span],
) {
    let answer = room.choose(alloc, pages.max(1), 1, place);
    let spans = answered(rt, alloc, answer);
    are_spans(rt, spans.items(), want);
    drop(spans);
}

/// Asserts that the request would get the spans, and gives them to the owner to hold, which keeps them.
fn hold<M: Manager>(
    rt: &impl Abort,
    alloc: Global,
    room: &mut M,
    owner: Owner,
    pages: u32,
    place: &Place,
    want: &[Span],
) {
    ensure(rt, !room.holds(owner));
    let answer = room.choose(alloc, pages.max(1), 1, place);
    let spans = answer.expect(rt, "spans");
    are_spans(rt, spans.items(), want);
    room.hold(owner, &spans).expect(rt, "a holding");
    drop(spans);
    keeps(rt, room, owner, want);
}

/// Passes the pages of the owner `from` to the owner `to`.
fn pass<M: Manager>(rt: &impl Abort, room: &mut M, from: Owner, to: Owner) {
    ensure(rt, room.holds(from));
    ensure(rt, !room.holds(to));
    room.pass(from, to);
}

/// Gives the owner's pages back.
fn give<M: Manager>(rt: &impl Abort, room: &mut M, owner: Owner) {
    ensure(rt, room.holds(owner));
    room.give(owner);
    ensure(rt, !room.holds(owner));
}

/// Asserts that the step gets what it is to get.
fn run<M: Manager>(rt: &impl Abort, alloc: Global, room: &mut M, step: &Step) {
    match step {
        Step::Take(owner, pages, place, want) => {
            take(rt, alloc, room, *owner, *pages, place, want);
        }
        Step::Choose(pages, place, want) => choose(rt, alloc, room, *pages, place, want),
        Step::Hold(owner, pages, place, want) => {
            hold(rt, alloc, room, *owner, *pages, place, want);
        }
        Step::Pass(from, to) => pass(rt, room, *from, *to),
        Step::Give(owner) => give(rt, room, *owner),
    }
}

/// Asserts that each step gets what it is to get, and that after the last one these numbers of pages are free or held.
fn ends_with<M: Manager + Drop>(
    rt: &impl Abort,
    alloc: Global,
    room: Result<M, NoMemory>,
    steps: &[Step],
    want: Lengths,
) {
    let mut room = room.expect(rt, "a room");
    for step in steps {
        run(rt, alloc, &mut room, step);
    }
    ensure(rt, room.lengths() == want);
    drop(room);
}

/// Calls on 12 pages of blocks.
const BLOCKS: &[Step] = &[
    Step::Choose(
        3,
        PLAIN,
        &[Span { start: 8, end: 10 }, Span { start: 10, end: 11 }],
    ),
    Step::Take(
        Owner::Live(BufId(0)),
        3,
        PLAIN,
        &[Span { start: 8, end: 10 }, Span { start: 10, end: 11 }],
    ),
    Step::Give(Owner::Live(BufId(0))),
    Step::Take(
        Owner::Live(BufId(1)),
        4,
        CONTIG,
        &[Span { start: 8, end: 12 }],
    ),
    Step::Hold(
        Owner::Live(BufId(2)),
        8,
        CONTIG,
        &[Span { start: 0, end: 8 }],
    ),
    Step::Choose(1, PLAIN, &[]),
    Step::Take(Owner::Live(BufId(3)), 1, PLAIN, &[]),
    Step::Pass(Owner::Live(BufId(1)), Owner::Ghost(7)),
    Step::Take(Owner::Live(BufId(3)), 1, PLAIN, &[]),
    Step::Give(Owner::Ghost(7)),
    Step::Take(Owner::Target(BufId(4)), 4, UP_TO_EIGHT, &[]),
    Step::Take(
        Owner::Target(BufId(4)),
        3,
        CONTIG,
        &[Span { start: 8, end: 11 }],
    ),
];

/// The numbers of pages after `BLOCKS`.
const BLOCKS_HELD: Lengths = Lengths {
    free: 1,
    live: 8,
    targets: 3,
    ghosts: 0,
};

#[test]
fn buddy_room_answers(rt: HostRuntime) {
    let room = BuddyRoom::new(rt.alloc(), 12);
    ends_with(&rt, rt.alloc(), room, BLOCKS, BLOCKS_HELD);
}

/// Calls on 16 pages of ranges.
const RANGES: &[Step] = &[
    Step::Take(
        Owner::Live(BufId(0)),
        4,
        PLAIN,
        &[Span { start: 0, end: 4 }],
    ),
    Step::Take(
        Owner::Live(BufId(1)),
        2,
        PLAIN,
        &[Span { start: 4, end: 6 }],
    ),
    Step::Take(
        Owner::Live(BufId(2)),
        4,
        PLAIN,
        &[Span { start: 6, end: 10 }],
    ),
    Step::Take(
        Owner::Live(BufId(3)),
        1,
        PLAIN,
        &[Span { start: 10, end: 11 }],
    ),
    Step::Take(
        Owner::Live(BufId(4)),
        5,
        PLAIN,
        &[Span { start: 11, end: 16 }],
    ),
    Step::Take(Owner::Live(BufId(5)), 1, PLAIN, &[]),
    Step::Give(Owner::Live(BufId(1))),
    Step::Pass(Owner::Live(BufId(3)), Owner::Ghost(1)),
    Step::Pass(Owner::Live(BufId(0)), Owner::Ghost(2)),
    Step::Choose(2, PLAIN, &[Span { start: 4, end: 6 }]),
    Step::Give(Owner::Ghost(1)),
    Step::Pass(Owner::Ghost(2), Owner::Live(BufId(0))),
    Step::Hold(
        Owner::Live(BufId(5)),
        1,
        PLAIN,
        &[Span { start: 10, end: 11 }],
    ),
    Step::Take(
        Owner::Live(BufId(6)),
        1,
        TOPDOWN,
        &[Span { start: 5, end: 6 }],
    ),
];

/// The numbers of pages after `RANGES`.
const RANGES_HELD: Lengths = Lengths {
    free: 1,
    live: 15,
    targets: 0,
    ghosts: 0,
};

#[test]
fn range_room_answers(rt: HostRuntime) {
    let room = RangeRoom::new(rt.alloc(), 16);
    ends_with(&rt, rt.alloc(), room, RANGES, RANGES_HELD);
}

/// Calls on 8 pages of ranges, where a request that found no room is asked again before and after pages are free.
const ASKED_AGAIN: &[Step] = &[
    Step::Take(
        Owner::Live(BufId(0)),
        4,
        PLAIN,
        &[Span { start: 0, end: 4 }],
    ),
    Step::Take(
        Owner::Live(BufId(1)),
        2,
        PLAIN,
        &[Span { start: 4, end: 6 }],
    ),
    Step::Take(Owner::Live(BufId(2)), 3, PLAIN, &[]),
    Step::Take(Owner::Live(BufId(2)), 3, PLAIN, &[]),
    Step::Choose(3, PLAIN, &[]),
    Step::Choose(2, PLAIN, &[Span { start: 6, end: 8 }]),
    Step::Choose(3, TOPDOWN, &[]),
    Step::Pass(Owner::Live(BufId(1)), Owner::Ghost(1)),
    Step::Choose(3, TOPDOWN, &[]),
    Step::Give(Owner::Ghost(1)),
    Step::Choose(3, TOPDOWN, &[Span { start: 5, end: 8 }]),
    Step::Hold(
        Owner::Live(BufId(2)),
        3,
        PLAIN,
        &[Span { start: 4, end: 7 }],
    ),
    Step::Choose(3, PLAIN, &[]),
    Step::Choose(3, PLAIN, &[]),
    Step::Give(Owner::Live(BufId(0))),
    Step::Take(
        Owner::Live(BufId(3)),
        3,
        PLAIN,
        &[Span { start: 0, end: 3 }],
    ),
];

/// The numbers of pages after `ASKED_AGAIN`.
const ASKED_AGAIN_HELD: Lengths = Lengths {
    free: 2,
    live: 6,
    targets: 0,
    ghosts: 0,
};

#[test]
fn a_request_in_vain_is_asked_again(rt: HostRuntime) {
    let room = RangeRoom::new(rt.alloc(), 8);
    ends_with(&rt, rt.alloc(), room, ASKED_AGAIN, ASKED_AGAIN_HELD);
}

/// Calls on 12 pages of VRAM in ranges.
const VRAM_RANGES: &[Step] = &[
    Step::Take(
        Owner::Live(BufId(0)),
        3,
        PLAIN,
        &[Span { start: 0, end: 3 }],
    ),
    Step::Hold(
        Owner::Target(BufId(0)),
        3,
        PLAIN,
        &[Span { start: 3, end: 6 }],
    ),
    Step::Give(Owner::Live(BufId(0))),
    Step::Pass(Owner::Target(BufId(0)), Owner::Live(BufId(0))),
];

/// Calls on 12 pages of VRAM in blocks.
const VRAM_BLOCKS: &[Step] = &[
    Step::Take(
        Owner::Live(BufId(0)),
        3,
        PLAIN,
        &[Span { start: 8, end: 10 }, Span { start: 10, end: 11 }],
    ),
    Step::Hold(
        Owner::Live(BufId(1)),
        1,
        PLAIN,
        &[Span { start: 11, end: 12 }],
    ),
    Step::Give(Owner::Live(BufId(0))),
];

const VRAM_RANGES_HELD: Lengths = Lengths {
    free: 9,
    live: 3,
    targets: 0,
    ghosts: 0,
};

const VRAM_BLOCKS_HELD: Lengths = Lengths {
    free: 11,
    live: 1,
    targets: 0,
    ghosts: 0,
};

/// Asserts that the steps on twelve pages of VRAM of this kind get what they are to get.
fn vram_ends_with(rt: &impl Abort, alloc: Global, kind: PagesKind, steps: &[Step], want: Lengths) {
    let room = VramRoom::new(alloc, 12, kind).expect(rt, "a room");
    ensure(rt, room.kind() == kind);
    ends_with(rt, alloc, Ok(room), steps, want);
}

#[test]
fn vram_room_answers(rt: HostRuntime) {
    let alloc = rt.alloc();
    let rt = &rt;
    vram_ends_with(rt, alloc, PagesKind::Ranges, VRAM_RANGES, VRAM_RANGES_HELD);
    vram_ends_with(rt, alloc, PagesKind::Blocks, VRAM_BLOCKS, VRAM_BLOCKS_HELD);
}

const FENCE: JobId = JobId { ctx: 0, num: 1 };

const LAST_FENCE: JobId = JobId { ctx: 0, num: 2 };

#[test]
fn move_fence_is_the_last(rt: HostRuntime) {
    let mut room = BuddyRoom::new(rt.alloc(), 12).expect(&rt, "a room");
    ensure(&rt, room.move_fence().is_none());
    room.set_move_fence(FENCE);
    room.set_move_fence(LAST_FENCE);
    ensure(&rt, room.move_fence() == Some(LAST_FENCE));
    drop(room);
}
