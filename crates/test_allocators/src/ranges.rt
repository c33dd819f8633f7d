use crate::wanted::{are_lengths, ensure, is_span};
use range_manager::{InsertFault, RangeManager};
use std::alloc::Global;
use std::process::Abort;
use ttm_base::{Mode, Span};

const FIVE: &[Span] = &[
    Span { start: 0, end: 4 },
    Span { start: 4, end: 6 },
    Span { start: 6, end: 10 },
    Span { start: 10, end: 11 },
    Span { start: 11, end: 16 },
];

/// A request for pages from a first page up to a last one, aligned to a number of pages.
struct Request {
    pages: u32,
    align: u32,
    first: u32,
    last: u32,
    mode: Mode,
}

/// A call to a manager of 16 pages, and the answer to it.
enum Step {
    /// Makes a manager, which the steps after it call.
    New,
    /// Holds five spans, which have all pages.
    HoldFive,
    /// Holds a span of free pages.
    Hold(Span),
    /// The span can't be held, since a page of it is.
    Refuse(Span),
    /// Lets the span go that is held from this page on.
    LetGo(u32),
    /// A choice alone, which nobody takes.
    Choose(Request, Option<Span>),
    /// A request, whose answer is also the choice before it.
    Insert(Request, Result<Span, InsertFault>),
    /// Asserts how many pages are free and how many are used.
    Lengths(u32, u32),
}

/// Holds five spans of free pages.
fn hold_five(rt: &impl Abort, manager: &mut RangeManager) {
    for span in FIVE {
        ensure(rt, manager.reserve(*span).is_ok());
    }
}

/// Lets the span go that is held from page `start` on.
fn let_go(rt: &impl Abort, manager: &mut RangeManager, start: u32) {
    ensure(rt, manager.held_from(start).is_some());
    manager.remove(start);
}

/// Returns the span that the request would get.
fn choice(manager: &RangeManager, it: &Request) -> Option<Span> {
    manager.choice(it.pages, it.align.max(1), it.first, it.last, it.mode)
}

/// Asserts that the answer to the request is the one that is wanted, and the choice before it.
fn insert(
    rt: &impl Abort,
    manager: &mut RangeManager,
    it: &Request,
    want: &Result<Span, InsertFault>,
) {
    is_span(rt, choice(manager, it), want.ok());
    let got = manager.insert(it.pages, it.align.max(1), it.first, it.last, it.mode);
    ensure(rt, got == *want);
}

/// Asserts that the step is answered as is wanted.
fn run(rt: &impl Abort, alloc: Global, manager: &mut RangeManager, step: &Step) {
    match step {
        Step::New => *manager = new_manager(rt, alloc),
        Step::HoldFive => hold_five(rt, manager),
        Step::Hold(span) => ensure(rt, manager.reserve(*span).is_ok()),
        Step::Refuse(span) => {
            ensure(rt, manager.reserve(*span) == Err(InsertFault::NoHole));
        }
        Step::LetGo(start) => let_go(rt, manager, *start),
        Step::Choose(request, want) => is_span(rt, choice(manager, request), *want),
        Step::Insert(request, want) => insert(rt, manager, request, want),
        Step::Lengths(free, used) => are_lengths(rt, manager.lengths(), *free, *used),
    }
}

/// Makes a manager of 16 pages.
fn new_manager(rt: &impl Abort, alloc: Global) -> RangeManager {
    RangeManager::new(alloc, 16).expect(rt, "a manager")
}

/// A request for no pages in any place, by the best fit.
const ANYWHERE: Request = Request {
    pages: 0,
    align: 1,
    first: 0,
    last: 16,
    mode: Mode::Best,
};

/// The steps of managers. (One list of them: each list in a constant adds to the proof of the function that names it.)
const STEPS: &[Step] = &[
    // in each mode
    Step::New,
    Step::HoldFive,
    Step::LetGo(4),
    Step::LetGo(10),
    Step::Insert(
        Request {
            pages: 1,
            mode: Mode::Low,
            ..ANYWHERE
        },
        Ok(Span { start: 4, end: 5 }),
    ),
    Step::New,
    Step::Hold(Span { start: 0, end: 3 }),
    Step::Insert(
        Request {
            pages: 4,
            align: 4,
            ..ANYWHERE
        },
        Ok(Span { start: 4, end: 8 }),
    ),
    Step::New,
    Step::Insert(
        Request {
            pages: 4,
            align: 8,
            mode: Mode::High,
            ..ANYWHERE
        },
        Ok(Span { start: 8, end: 12 }),
    ),
    Step::New,
    Step::Insert(
        Request {
            pages: 4,
            first: 2,
            last: 5,
            ..ANYWHERE
        },
        Err(InsertFault::NoHole),
    ),
    // the rest of a hole is free
    Step::New,
    Step::Hold(Span { start: 5, end: 7 }),
    Step::Insert(
        Request {
            pages: 5,
            ..ANYWHERE
        },
        Ok(Span { start: 0, end: 5 }),
    ),
    Step::New,
    Step::Hold(Span { start: 5, end: 7 }),
    Step::Insert(
        Request {
            pages: 6,
            mode: Mode::Low,
            ..ANYWHERE
        },
        Ok(Span { start: 7, end: 13 }),
    ),
    Step::New,
    Step::Hold(Span { start: 12, end: 16 }),
    Step::Insert(
        Request {
            pages: 3,
            mode: Mode::High,
            ..ANYWHERE
        },
        Ok(Span { start: 9, end: 12 }),
    ),
    Step::New,
    Step::Hold(Span { start: 0, end: 4 }),
    Step::Hold(Span { start: 8, end: 16 }),
    Step::Hold(Span { start: 4, end: 8 }),
    Step::Insert(
        Request {
            pages: 1,
            mode: Mode::Low,
            ..ANYWHERE
        },
        Err(InsertFault::NoHole),
    ),
    // holes that touch are joined
    Step::New,
    Step::HoldFive,
    Step::LetGo(4),
    Step::Insert(
        Request {
            pages: 2,
            ..ANYWHERE
        },
        Ok(Span { start: 4, end: 6 }),
    ),
    Step::New,
    Step::HoldFive,
    Step::LetGo(4),
    Step::LetGo(10),
    Step::Insert(
        Request {
            pages: 3,
            ..ANYWHERE
        },
        Err(InsertFault::NoHole),
    ),
    Step::New,
    Step::HoldFive,
    Step::LetGo(4),
    Step::LetGo(6),
    Step::Insert(
        Request {
            pages: 6,
            ..ANYWHERE
        },
        Ok(Span { start: 4, end: 10 }),
    ),
    Step::New,
    Step::HoldFive,
    Step::LetGo(6),
    Step::LetGo(4),
    Step::Insert(
        Request {
            pages: 6,
            ..ANYWHERE
        },
        Ok(Span { start: 4, end: 10 }),
    ),
    Step::New,
    Step::HoldFive,
    Step::LetGo(0),
    Step::LetGo(6),
    Step::LetGo(4),
    Step::Insert(
        Request {
            pages: 10,
            ..ANYWHERE
        },
        Ok(Span { start: 0, end: 10 }),
    ),
    // the best fit and the highest
    Step::New,
    Step::Insert(
        Request {
            pages: 4,
            ..ANYWHERE
        },
        Ok(Span { start: 0, end: 4 }),
    ),
    Step::Insert(
        Request {
            pages: 2,
            ..ANYWHERE
        },
        Ok(Span { start: 4, end: 6 }),
    ),
    Step::Insert(
        Request {
            pages: 4,
            ..ANYWHERE
        },
        Ok(Span { start: 6, end: 10 }),
    ),
    Step::Insert(
        Request {
            pages: 1,
            ..ANYWHERE
        },
        Ok(Span { start: 10, end: 11 }),
    ),
    Step::Insert(
        Request {
            pages: 5,
            ..ANYWHERE
        },
        Ok(Span { start: 11, end: 16 }),
    ),
    Step::Lengths(0, 16),
    Step::LetGo(4),
    Step::LetGo(10),
    Step::Lengths(3, 13),
    Step::Insert(
        Request {
            pages: 1,
            ..ANYWHERE
        },
        Ok(Span { start: 10, end: 11 }),
    ),
    Step::Insert(
        Request {
            pages: 1,
            mode: Mode::High,
            ..ANYWHERE
        },
        Ok(Span { start: 5, end: 6 }),
    ),
    // what is held isn't held twice
    Step::New,
    Step::Hold(Span { start: 4, end: 8 }),
    Step::Refuse(Span { start: 4, end: 8 }),
    // a choice holds nothing until it is reserved
    Step::New,
    Step::Choose(
        Request {
            pages: 4,
            mode: Mode::Low,
            ..ANYWHERE
        },
        Some(Span { start: 0, end: 4 }),
    ),
    Step::Lengths(16, 0),
    Step::Hold(Span { start: 0, end: 4 }),
    Step::Insert(
        Request {
            pages: 4,
            mode: Mode::Low,
            ..ANYWHERE
        },
        Ok(Span { start: 4, end: 8 }),
    ),
    Step::Choose(
        Request {
            pages: 4,
            last: 8,
            mode: Mode::Low,
            ..ANYWHERE
        },
        None,
    ),
];

#[test]
fn range_manager_answers(rt: HostRuntime) {
    let alloc = rt.alloc();
    let rt = &rt;
    let mut manager = new_manager(rt, alloc);
    for step in STEPS {
        run(rt, alloc, &mut manager, step);
    }
}
