ghost use Rattle.std.specs.Prelude.{◌≡◌, [], ◌∷◌};

mod tables;

use crate::blocks::tables::{CONTIG, PLAIN, Row, TABLES, Table};
use crate::wanted::{are_lengths, are_spans, ensure};
use buddy_manager::{AllocFault, BuddyFlags, BuddyManager};
use std::alloc::Global;
use std::process::Abort;
use ttm_base::{Span, Spans};

/// Returns the blocks of an answer, none where there are none.
fn blocks_of(rt: &impl Abort, answer: Result<(), AllocFault>, blocks: Spans) -> Spans {
    ensure(rt, answer != Err(AllocFault::NoMemory));
    blocks
}

/// Returns the blocks that a request gets.
fn got(
    rt: &impl Abort,
    alloc: Global,
    manager: &mut BuddyManager,
    pages: u32,
    range: (u32, u32),
    flags: BuddyFlags,
) -> Spans {
    let mut out = Spans::new(alloc);
    let answer = manager.alloc(pages.max(1), range.0, range.1, flags, &mut out);
    blocks_of(rt, answer, out)
}

/// Asserts that `pages` more pages are used, and as many fewer free, than `before` tells.
fn are_used(rt: &impl Abort, manager: &BuddyManager, before: (u32, u32), pages: u32) {
    let free = before.0.saturating_sub(pages);
    let used = before.1.saturating_add(pages);
    are_lengths(rt, manager.lengths(), free, used);
}

/// Asserts that the request would get the blocks. Each is held once, and given back.
fn choose(
    rt: &impl Abort,
    alloc: Global,
    manager: &mut BuddyManager,
    pages: u32,
    range: (u32, u32),
    flags: BuddyFlags,
    want: &[Span],
) {
    let mut out = Spans::new(alloc);
    let before = manager.lengths();
    let answer = manager.choice(pages.max(1), range.0, range.1, flags, &mut out);
    are_used(rt, manager, before, 0);
    if let Ok(()) = answer {
        manager.hold(&out).expect(rt, "the ends of blocks");
        are_used(rt, manager, before, pages);
        ensure(rt, manager.are_held(&out));
        manager.release(&out);
    }
    are_used(rt, manager, before, 0);
    let blocks = blocks_of(rt, answer, out);
    are_spans(rt, blocks.items(), want);
    drop(blocks);
}

/// Asserts that the request gets the blocks, and gives them back.
fn take(
    rt: &impl Abort,
    alloc: Global,
    manager: &mut BuddyManager,
    pages: u32,
    range: (u32, u32),
    flags: BuddyFlags,
    want: &[Span],
) {
    let taken = if want.is_empty() { 0 } else { pages };
    let before = manager.lengths();
    let blocks = got(rt, alloc, manager, pages, range, flags);
    are_used(rt, manager, before, taken);
    are_spans(rt, blocks.items(), want);
    if manager.are_held(&blocks) {
        manager.release(&blocks);
    }
    drop(blocks);
}

/// Asserts that the request would get the first blocks of these, as many as are wanted, and gets them. Returns the others.
fn answer<'a>(
    rt: &impl Abort,
    alloc: Global,
    manager: &mut BuddyManager,
    pages: u32,
    row: &Row,
    blocks: &'a [Span],
) -> &'a [Span] {
    let (flags, range, count) = *row;
    ensure(rt, count <= blocks.len());
    let (want, others) = blocks.split_at(count);
    choose(rt, alloc, manager, pages, range, flags, want);
    take(rt, alloc, manager, pages, range, flags, want);
    others
}

/// Holds the page, if there is one.
fn hold_page(rt: &impl Abort, alloc: Global, manager: &mut BuddyManager, page: Option<u32>) {
    if let Some(page) = page {
        let range = (page, page.saturating_add(1));
        drop(got(rt, alloc, manager, 1, range, PLAIN));
    }
}

/// Asserts that each request is answered as is wanted.
fn answers(rt: &impl Abort, alloc: Global, table: &Table) {
    let mut manager = BuddyManager::new(alloc, table.size).expect(rt, "a manager");
    hold_page(rt, alloc, &mut manager, table.held.0);
    hold_page(rt, alloc, &mut manager, table.held.1);
    let mut blocks = table.blocks;
    for row in table.rows {
        blocks = answer(rt, alloc, &mut manager, table.pages, row, blocks);
    }
    ensure(rt, blocks.is_empty());
}

/// Each table is answered as is wanted, and a manager of too many pages isn't made.
#[test]
fn buddy_manager_answers(rt: HostRuntime) {
    let alloc = rt.alloc();
    let rt = &rt;
    for table in TABLES {
        answers(rt, alloc, table);
    }
    ensure(rt, BuddyManager::new(alloc, 1 << 31).is_err());
}

/// Makes a manager of twelve free pages, which are a block of 8 and one of 4.
fn twelve_pages(rt: &impl Abort, alloc: Global) -> BuddyManager
    ensures size { result.size ≡ 12 }
    ensures held { result.held ≡ [] }
{
    BuddyManager::new(alloc, 12).expect(rt, "a manager")
}

/// Asserts that a request for pages anywhere gets one block.
fn gets(
    rt: &impl Abort,
    alloc: Global,
    manager: &mut BuddyManager,
    pages: u32,
    flags: BuddyFlags,
    want: Span,
) {
    let blocks = got(rt, alloc, manager, pages, (0, 12), flags);
    are_spans(rt, blocks.items(), &[want]);
    drop(blocks);
}

const LAST_FOUR: Span = Span { start: 8, end: 12 };

const FIRST_EIGHT: Span = Span { start: 0, end: 8 };

/// The pages that a trim leaves free.
const TRIMMED: Span = Span { start: 10, end: 12 };

#[test]
fn trimmed_pages_are_free(rt: HostRuntime) {
    let rt = &rt;
    let alloc = rt.alloc();
    let mut manager = twelve_pages(rt, alloc);
    gets(rt, alloc, &mut manager, 4, PLAIN, LAST_FOUR);
    ensure(rt, manager.is_held(LAST_FOUR));
    manager.trim(LAST_FOUR, 1);
    gets(rt, alloc, &mut manager, 2, PLAIN, TRIMMED);
    drop(manager);
}

/// The blocks that were split for three pages are whole again.
#[test]
fn buddy_splits_and_merges(rt: HostRuntime) {
    let rt = &rt;
    let alloc = rt.alloc();
    let mut manager = twelve_pages(rt, alloc);
    let three = got(rt, alloc, &mut manager, 3, (0, 12), PLAIN);
    ensure(rt, manager.are_held(&three));
    manager.release(&three);
    drop(three);
    gets(rt, alloc, &mut manager, 4, CONTIG, LAST_FOUR);
    gets(rt, alloc, &mut manager, 8, CONTIG, FIRST_EIGHT);
    drop(manager);
}

/// Returns a list of one span.
fn named(rt: &impl Abort, alloc: Global, span: Span) -> Spans
    ensures { result ≡ span ∷ [] }
{
    Spans::from_slice(alloc, &[span]).expect(rt, "a span")
}

/// Asserts that the blocks are held, but not twice, and gives them back.
fn gives_back_once(rt: &impl Abort, manager: &mut BuddyManager, spans: &Spans) {
    let mut twice = spans.copy().expect(rt, "spans");
    twice.extend(spans.items()).expect(rt, "spans");
    ensure(rt, !manager.are_held(&twice));
    drop(twice);
    ensure(rt, manager.are_held(spans));
    manager.release(spans);
}

/// Gets the blocks beside pages that are named: the lower half of their block, the other root, and the pages on both sides.
fn get_beside(rt: &impl Abort, alloc: Global, manager: &mut BuddyManager) {
    gets(rt, alloc, manager, 4, PLAIN, Span { start: 0, end: 4 });
    gets(rt, alloc, manager, 4, PLAIN, LAST_FOUR);
    gets(rt, alloc, manager, 1, PLAIN, Span { start: 4, end: 5 });
    gets(rt, alloc, manager, 1, PLAIN, Span { start: 7, end: 8 });
}

#[test]
fn named_pages_are_held(rt: HostRuntime) {
    let rt = &rt;
    let alloc = rt.alloc();
    let mut manager = twelve_pages(rt, alloc);
    let spans = named(rt, alloc, Span { start: 5, end: 7 });
    manager.hold(&spans).expect(rt, "the ends of blocks");
    are_lengths(rt, manager.lengths(), 10, 2);
    get_beside(rt, alloc, &mut manager);
    gives_back_once(rt, &mut manager, &spans);
    drop(spans);
    are_lengths(rt, manager.lengths(), 2, 10);
    drop(manager);
}
