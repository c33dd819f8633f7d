use crate::maps::scripts::declared;
use crate::wanted::{ensure, is_number};
use bo_table::{Bo, BoTable};
use std::alloc::Global;
use std::process::Abort;
use ttm_base::{BufId, JobId, Loc, Mem, Span, Spans, Stamp, Usage};

/// A change of a buffer, as the table's calls are named.
#[derive(Clone, Copy)]
enum Change {
    Make,
    Page(u32, Loc),
    /// Three pages from this one on, as a target.
    Target(Mem, u32),
    LeaveTt,
    Bind,
    Unbind,
    Carry(Mem),
    DropFrames,
    Reserve(u64),
    Release,
    Pin,
    Unpin,
    Use(u64),
}

/// What is to be seen of a live buffer: its memory type, its first span there, the number of pages that have frames, the page to fill next,
/// its pins and its holder.
#[derive(Clone, Copy)]
struct Look {
    mem: Mem,
    span: Option<Span>,
    frames: u32,
    unfilled: Option<u32>,
    pins: u8,
    holder: Option<Stamp>,
}

/// Returns a span of three pages from `start` on.
fn three_from(rt: &impl Abort, alloc: Global, start: u32) -> Spans {
    let span = Span {
        start,
        end: start.saturating_add(3),
    };
    Spans::from_slice(alloc, &[span]).expect(rt, "a span")
}

/// Returns buffer `b`, which is declared.
fn lent<'a>(rt: &impl Abort, table: &'a BoTable, b: BufId) -> &'a Bo {
    ensure(rt, (b.0 as usize) < table.len());
    table.get(b)
}

/// Reserves buffer `b`, which is declared and which nobody holds.
fn reserve(rt: &impl Abort, table: &mut BoTable, b: BufId, stamp: Stamp) {
    ensure(rt, (b.0 as usize) < table.len());
    ensure(rt, table.get(b).resv.holder().is_none());
    table.reserve(b, stamp);
}

/// Pins buffer `b`, which is declared and can be pinned once more.
fn pin(rt: &impl Abort, table: &mut BoTable, b: BufId) {
    ensure(rt, (b.0 as usize) < table.len());
    ensure(rt, table.get(b).pins < 255);
    table.pin(b);
}

/// Adds the fence of job `num` of context 0 to buffer `b`, which is declared.
fn add_fence(rt: &impl Abort, table: &mut BoTable, b: BufId, num: u64) {
    ensure(rt, (b.0 as usize) < table.len());
    ensure(rt, 0 < table.get(b).resv.fences().contexts());
    ensure(rt, 0 < num);
    table.add_fence(b, JobId { ctx: 0, num }, Usage::Write);
}

/// Changes the second buffer.
fn take_change(rt: &impl Abort, alloc: Global, table: &mut BoTable, what: Change) {
    let b = BufId(1);
    match what {
        Change::Make => table.make(b),
        Change::Page(page, place) => table.set_page(b, page, place),
        Change::Target(mem, start) => {
            let spans = three_from(rt, alloc, start);
            table.set_target(b, mem, Some(spans));
        }
        Change::LeaveTt => table.leave_tt(alloc, b),
        Change::Bind => table.bind(b),
        Change::Unbind => table.unbind(b),
        Change::Carry(mem) => table.carry(b, mem),
        Change::DropFrames => table.drop_frames(b),
        Change::Reserve(stamp) => reserve(rt, table, b, Stamp(stamp)),
        Change::Release => table.release(b),
        Change::Pin => pin(rt, table, b),
        Change::Unpin => table.unpin(b),
        Change::Use(num) => add_fence(rt, table, b, num),
    }
}

/// Asserts that the buffer lives, is pinned and held as is wanted, and stands where it is to stand.
fn assert_seen(rt: &impl Abort, bo: &Bo, look: &Look) {
    ensure(rt, bo.alive && bo.pins == look.pins && bo.mem == look.mem);
    ensure(rt, bo.resv.holder() == look.holder);
    ensure(rt, bo.spans.items().first().copied() == look.span);
    ensure(rt, bo.table.frames() == look.frames);
    is_number(rt, bo.table.first_unfilled(), look.unfilled);
}

/// A buffer in SYSTEM without pages to fill, which nobody pins or holds.
const EMPTY: Look = Look {
    mem: Mem::System,
    span: None,
    frames: 0,
    unfilled: None,
    pins: 0,
    holder: None,
};

/// The stamp of the ticket that holds the buffer.
const HELD: Option<Stamp> = Some(Stamp(2));

const AT_4: Option<Span> = Some(Span { start: 4, end: 7 });

const AT_8: Option<Span> = Some(Span { start: 8, end: 11 });

const AT_16: Option<Span> = Some(Span { start: 16, end: 19 });

/// The changes of the second buffer's life, and what is to be seen after each.
const LIFE: &[(Change, Look)] = &[
    (
        Change::Make,
        Look {
            unfilled: Some(0),
            ..EMPTY
        },
    ),
    (
        Change::Page(1, Loc::Frame(7)),
        Look {
            frames: 1,
            unfilled: Some(0),
            ..EMPTY
        },
    ),
    (
        Change::Page(0, Loc::Frame(5)),
        Look {
            frames: 2,
            unfilled: Some(2),
            ..EMPTY
        },
    ),
    (Change::Page(2, Loc::Frame(6)), Look { frames: 3, ..EMPTY }),
    (
        Change::Page(1, Loc::Slot(4)),
        Look {
            frames: 2,
            unfilled: Some(1),
            ..EMPTY
        },
    ),
    (
        Change::Page(0, Loc::Slot(3)),
        Look {
            frames: 1,
            unfilled: Some(0),
            ..EMPTY
        },
    ),
    (
        Change::Page(1, Loc::Frame(8)),
        Look {
            frames: 2,
            unfilled: Some(0),
            ..EMPTY
        },
    ),
    (Change::Page(0, Loc::Frame(9)), Look { frames: 3, ..EMPTY }),
    (Change::Page(3, Loc::Zero), Look { frames: 3, ..EMPTY }),
    (
        Change::Reserve(2),
        Look {
            frames: 3,
            holder: HELD,
            ..EMPTY
        },
    ),
    (
        Change::Target(Mem::Tt, 4),
        Look {
            frames: 3,
            holder: HELD,
            ..EMPTY
        },
    ),
    (
        Change::Bind,
        Look {
            mem: Mem::Tt,
            span: AT_4,
            frames: 3,
            holder: HELD,
            ..EMPTY
        },
    ),
    (
        Change::LeaveTt,
        Look {
            mem: Mem::Tt,
            span: AT_4,
            frames: 3,
            holder: HELD,
            ..EMPTY
        },
    ),
    (
        Change::Unbind,
        Look {
            frames: 3,
            holder: HELD,
            ..EMPTY
        },
    ),
    (
        Change::Target(Mem::Tt, 8),
        Look {
            frames: 3,
            holder: HELD,
            ..EMPTY
        },
    ),
    (
        Change::Bind,
        Look {
            mem: Mem::Tt,
            span: AT_8,
            frames: 3,
            holder: HELD,
            ..EMPTY
        },
    ),
    (
        Change::Target(Mem::Vram, 16),
        Look {
            mem: Mem::Tt,
            span: AT_8,
            frames: 3,
            holder: HELD,
            ..EMPTY
        },
    ),
    (
        Change::Carry(Mem::Vram),
        Look {
            mem: Mem::Vram,
            span: AT_16,
            unfilled: Some(0),
            holder: HELD,
            ..EMPTY
        },
    ),
    (
        Change::Use(1),
        Look {
            mem: Mem::Vram,
            span: AT_16,
            unfilled: Some(0),
            holder: HELD,
            ..EMPTY
        },
    ),
    (
        Change::Page(0, Loc::Frame(5)),
        Look {
            mem: Mem::Vram,
            span: AT_16,
            frames: 1,
            unfilled: Some(1),
            holder: HELD,
            ..EMPTY
        },
    ),
    (
        Change::DropFrames,
        Look {
            mem: Mem::Vram,
            span: AT_16,
            unfilled: Some(0),
            holder: HELD,
            ..EMPTY
        },
    ),
    (
        Change::Pin,
        Look {
            mem: Mem::Vram,
            span: AT_16,
            unfilled: Some(0),
            pins: 1,
            holder: HELD,
            ..EMPTY
        },
    ),
    (
        Change::Pin,
        Look {
            mem: Mem::Vram,
            span: AT_16,
            unfilled: Some(0),
            pins: 2,
            holder: HELD,
            ..EMPTY
        },
    ),
    (
        Change::Unpin,
        Look {
            mem: Mem::Vram,
            span: AT_16,
            unfilled: Some(0),
            pins: 1,
            holder: HELD,
            ..EMPTY
        },
    ),
    (
        Change::Release,
        Look {
            mem: Mem::Vram,
            span: AT_16,
            unfilled: Some(0),
            pins: 1,
            ..EMPTY
        },
    ),
];

/// Makes a table of two dead buffers, of two pages and of three.
fn two_buffers(rt: &impl Abort, alloc: Global) -> BoTable {
    let decls = declared(rt, alloc, 0, &[2, 3]);
    BoTable::new(alloc, decls.items(), 1).expect(rt, "buffers")
}

/// Asserts that buffer `b` is dead and nobody pins it.
fn assert_dead(rt: &impl Abort, table: &BoTable, b: BufId) {
    let bo = lent(rt, table, b);
    ensure(rt, !bo.alive && bo.pins == 0);
}

/// Makes the change of `step`, and asserts that the second buffer is then seen as is wanted.
fn assert_step(rt: &impl Abort, alloc: Global, table: &mut BoTable, step: &(Change, Look)) {
    take_change(rt, alloc, table, step.0);
    assert_seen(rt, lent(rt, table, BufId(1)), &step.1);
}

#[test]
fn life_of_a_buffer(rt: HostRuntime) {
    let rt = &rt;
    let mut table = two_buffers(rt, rt.alloc());
    for step in LIFE {
        assert_step(rt, rt.alloc(), &mut table, step);
    }
    table.kill(BufId(1));
    assert_dead(rt, &table, BufId(0));
    assert_dead(rt, &table, BufId(1));
    drop(table);
}
