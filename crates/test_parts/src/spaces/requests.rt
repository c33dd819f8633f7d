ghost use Rattle.std.specs.Prelude.{◌+◌, ◌≤◌};

use crate::wanted::ensure;
use Request::{Map, Unmap};
use Told::{Gone, Kept, Made};
use gpu_spaces::Space;
use journal_model::{VStep, VSteps};
use std::alloc::Global;
use std::process::Abort;
use ttm_base::limits::SPACE_PAGES;
use ttm_base::{BufId, Span};

pub const A: BufId = BufId(0);

pub const B: BufId = BufId(1);

pub const C: BufId = BufId(2);

/// The first page of the space, the number of pages, and what they are mapped to: a buffer from a page on.
#[derive(Clone, Copy)]
pub enum Request {
    Map(u32, u32, BufId, u32),
    Unmap(u32, u32),
}

/// A step, with pages from a first up to a last: a mapping goes, keeps what is before and after, or is new.
#[derive(Clone, Copy)]
enum Told {
    Gone(u32, u32),
    Kept(u32, u32, Option<(u32, u32)>, Option<(u32, u32)>),
    Made(u32, u32, BufId, u32),
}

/// Asserts that the pages are a request's: at least one, no more than a buffer has, in the space.
fn assert_inside(rt: &impl Abort, va: u32, n: u32)
    ensures some { 1 ≤ n }
    ensures most { n ≤ 4096 }
    ensures inside { va + n ≤ SPACE_PAGES }
{
    ensure(rt, n >= 1);
    ensure(rt, n <= 4096);
    ensure(rt, va <= SPACE_PAGES - n);
}

/// Answers a request, and returns its steps.
pub fn answer(rt: &impl Abort, alloc: Global, space: &mut Space, request: Request) -> VSteps {
    let mut steps = VSteps::new(alloc);
    match request {
        Map(va, n, b, off) => {
            assert_inside(rt, va, n);
            ensure(rt, off <= 4096 - n);
            space.map(va, n, b, off, &mut steps).expect(rt, "memory");
        }
        Unmap(va, n) => {
            assert_inside(rt, va, n);
            space.unmap(va, n, &mut steps).expect(rt, "memory");
        }
    }
    steps
}

/// Returns whether the span has these ends.
fn has_ends(span: Span, start: u32, end: u32) -> bool {
    span.start == start && span.end == end
}

/// Returns whether what is kept is this.
fn is_kept(part: Option<Span>, want: Option<(u32, u32)>) -> bool {
    match (part, want) {
        (Some(span), Some((start, end))) => has_ends(span, start, end),
        (None, None) => true,
        _ => false,
    }
}

/// Returns whether the step is this one.
fn is_told(step: VStep, want: Told) -> bool {
    match step {
        VStep::Unmap { span } => matches!(want, Gone(start, end) if has_ends(span, start, end)),
        VStep::Remap {
            span,
            before,
            after,
        } => match want {
            Kept(start, end, left, right) => {
                has_ends(span, start, end) && is_kept(before, left) && is_kept(after, right)
            }
            _ => false,
        },
        VStep::Map { span, b, off } => match want {
            Made(start, end, buffer, first) => {
                has_ends(span, start, end) && b == buffer && off == first
            }
            _ => false,
        },
    }
}

/// Asserts that the steps are these.
fn assert_told(rt: &impl Abort, steps: &[VStep], want: &[Told]) {
    ensure(rt, steps.len() == want.len());
    for place in 0..steps.len() {
        ensure(rt, is_told(steps[place], want[place]));
    }
}

/// Asserts that the first steps of these are those of the request, as many as are told. Returns the others.
fn assert_answer<'a>(
    rt: &impl Abort,
    alloc: Global,
    space: &mut Space,
    row: &(Request, usize),
    steps: &'a [Told],
) -> &'a [Told] {
    let (request, count) = *row;
    ensure(rt, count <= steps.len());
    let (want, others) = steps.split_at(count);
    let got = answer(rt, alloc, space, request);
    assert_told(rt, got.items(), want);
    others
}

/// Requests of a new space, each with the number of its steps, the steps of all, and what then stands at pages. (One list of steps: each list in
/// a constant adds to the proof of the function that names it.)
struct Case {
    rows: &'static [(Request, usize)],
    steps: &'static [Told],
    pages: &'static [(u32, Option<(BufId, u32)>)],
}

/// Asserts that the requests have their steps and the pages stand as is wanted.
fn assert_case(rt: &impl Abort, alloc: Global, case: &Case) {
    let mut space = Space::new(alloc);
    let mut steps = case.steps;
    for row in case.rows {
        steps = assert_answer(rt, alloc, &mut space, row, steps);
    }
    ensure(rt, steps.is_empty());
    for (page, want) in case.pages {
        ensure(rt, space.at(*page) == *want);
    }
}

/// Requests where a remap keeps both ends.
const BOTH_ENDS: Case = Case {
    rows: &[
        (Map(16, 4, A, 0), 1),
        (Map(17, 2, B, 0), 2),
        (Unmap(18, 1), 1),
    ],
    steps: &[
        Made(16, 20, A, 0),
        Kept(16, 20, Some((16, 17)), Some((19, 20))),
        Made(17, 19, B, 0),
        Kept(17, 19, Some((17, 18)), None),
    ],
    pages: &[
        (15, None),
        (16, Some((A, 0))),
        (17, Some((B, 0))),
        (18, None),
        (19, Some((A, 3))),
        (20, None),
    ],
};

/// Requests that make a hole in a mapping. The last but one takes what is left, and the last nothing.
const HOLES: Case = Case {
    rows: &[
        (Map(0, 8, A, 10), 1),
        (Unmap(2, 3), 1),
        (Unmap(2, 3), 0),
        (Unmap(1, 5), 2),
        (Unmap(0, 4096), 2),
        (Unmap(0, 4096), 0),
    ],
    steps: &[
        Made(0, 8, A, 10),
        Kept(0, 8, Some((0, 2)), Some((5, 8))),
        Kept(0, 2, Some((0, 1)), None),
        Kept(5, 8, None, Some((6, 8))),
        Gone(0, 1),
        Gone(6, 8),
    ],
    pages: &[(0, None), (6, None), (7, None)],
};

/// Requests that map over several mappings.
const OVER_SEVERAL: Case = Case {
    rows: &[
        (Map(8, 2, C, 7), 1),
        (Map(0, 2, A, 0), 1),
        (Map(4, 2, B, 0), 1),
        (Map(1, 8, B, 100), 4),
        (Map(1, 8, C, 0), 2),
    ],
    steps: &[
        Made(8, 10, C, 7),
        Made(0, 2, A, 0),
        Made(4, 6, B, 0),
        Kept(0, 2, Some((0, 1)), None),
        Gone(4, 6),
        Kept(8, 10, None, Some((9, 10))),
        Made(1, 9, B, 100),
        Gone(1, 9),
        Made(1, 9, C, 0),
    ],
    pages: &[
        (0, Some((A, 0))),
        (1, Some((C, 0))),
        (8, Some((C, 7))),
        (9, Some((C, 8))),
        (10, None),
    ],
};

/// Requests whose mappings side by side stay two, also where the buffer's pages go on.
const NEIGHBOURS: Case = Case {
    rows: &[
        (Map(2, 2, A, 2), 1),
        (Map(0, 2, A, 0), 1),
        (Map(4, 2, A, 4), 1),
        (Unmap(1, 4), 3),
    ],
    steps: &[
        Made(2, 4, A, 2),
        Made(0, 2, A, 0),
        Made(4, 6, A, 4),
        Kept(0, 2, Some((0, 1)), None),
        Gone(2, 4),
        Kept(4, 6, None, Some((5, 6))),
    ],
    pages: &[(0, Some((A, 0))), (4, None), (5, Some((A, 5)))],
};

/// Requests at the ends of the space.
const ENDS: Case = Case {
    rows: &[
        (Map(1_048_575, 1, A, 4095), 1),
        (Map(1_044_480, 4096, B, 0), 2),
        (Map(0, 1, C, 0), 1),
        (Unmap(1_048_575, 1), 1),
    ],
    steps: &[
        Made(1_048_575, 1_048_576, A, 4095),
        Gone(1_048_575, 1_048_576),
        Made(1_044_480, 1_048_576, B, 0),
        Made(0, 1, C, 0),
        Kept(1_044_480, 1_048_576, Some((1_044_480, 1_048_575)), None),
    ],
    pages: &[
        (0, Some((C, 0))),
        (1_044_479, None),
        (1_048_574, Some((B, 4094))),
        (1_048_575, None),
        (4_294_967_295, None),
    ],
};

const CASES: &[Case] = &[BOTH_ENDS, HOLES, OVER_SEVERAL, NEIGHBOURS, ENDS];

#[test]
fn requests_have_their_steps(rt: HostRuntime) {
    let alloc = rt.alloc();
    let rt = &rt;
    for case in CASES {
        assert_case(rt, alloc, case);
    }
}
