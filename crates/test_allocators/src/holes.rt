ghost use Rattle.std.specs.Prelude.{◌≡◌, [], max};

use crate::wanted::is_span;
use hole_tree::Holes;
use std::alloc::Global;
use std::marker::Brand;
use std::process::Abort;
use std::sync::ledger::{Blank, Ledger};
use step_count::Steps;
use ttm_base::{Mode, Span};

const SHORT: Span = Span { start: 20, end: 22 };

const LONG: Span = Span { start: 4, end: 10 };

const HIGH: Span = Span { start: 40, end: 42 };

/// A request for a number of pages within a first and a last page, and the hole for it.
type Row = (Mode, u32, u32, u32, Option<Span>);

/// Returns the hole for a request.
fn found(holes: &Holes, row: &Row) -> Option<Span> {
    let (mode, pages, first, last, _want) = *row;
    match mode {
        Mode::Best => holes.best(pages, 1, first, last),
        Mode::Low => holes.lowest(pages, 1, first, last),
        Mode::High => holes.highest(pages, 1, first, last),
    }
}

/// Returns the hole for a request, by the call that counts steps, in the ledger that `blank` begins.
fn counted<L: Ledger>(holes: &Holes, row: &Row, blank: Blank) -> Option<Span>
    requires name { blank.name ≡ L.name }
    requires parts { blank.parts ≡ L.parts }
    requires one_part { blank.parts ≡ 1 }
{
    let (mode, pages, first, last, _want) = *row;
    let mut steps = Steps::<L>::new(blank);
    match mode {
        Mode::Best => holes.best_counted(pages, 1, first, last, &mut steps),
        Mode::Low => holes.lowest_counted(pages, 1, first, last, &mut steps),
        Mode::High => holes.highest_counted(pages, 1, first, last, &mut steps),
    }
}

/// Asserts that the hole for the request is the one that is wanted, also by the call that counts steps.
fn assert_hole(rt: &impl Abort, holes: &Holes, row: &Row) {
    is_span(rt, found(holes, row), row.4);
    is_span(rt, counted::<Brand>(holes, row, Blank::new(1)), row.4);
}

/// Asserts that each request finds its hole.
fn assert_holes(rt: &impl Abort, holes: &Holes, rows: &[Row]) {
    for row in rows {
        assert_hole(rt, holes, row);
    }
}

/// Makes a list without holes, with `nodes` spare nodes.
fn no_holes(rt: &impl Abort, alloc: Global, nodes: u32) -> Holes
    ensures holes { result.holes ≡ [] }
    ensures spare { result.spare ≡ max 0 nodes }
{
    let mut holes = Holes::new(alloc);
    holes.ready(nodes).expect(rt, "nodes");
    holes
}

const BY_LENGTH_AND_PLACE: &[Row] = &[
    (Mode::Best, 2, 0, 64, Some(SHORT)),
    (Mode::Best, 2, 21, 64, Some(HIGH)),
    (Mode::Best, 3, 0, 64, Some(LONG)),
    (Mode::Low, 2, 0, 64, Some(LONG)),
    (Mode::High, 2, 0, 64, Some(HIGH)),
    (Mode::High, 2, 0, 21, Some(LONG)),
    (Mode::Best, 7, 0, 64, None),
];

#[test]
fn holes_by_length_and_by_place(rt: HostRuntime) {
    let mut holes = no_holes(&rt, rt.alloc(), 3);
    holes.add(HIGH);
    holes.add(SHORT);
    holes.add(LONG);
    assert_holes(&rt, &holes, BY_LENGTH_AND_PLACE);
    drop(holes);
}

const NO_HOLE: &Row = &(Mode::Best, 1, 0, 64, None);

const ONE_HOLE: &[Row] = &[
    (Mode::Best, 1, 0, 64, Some(SHORT)),
    (Mode::Low, 1, 0, 64, Some(SHORT)),
];

#[test]
fn taken_hole_leaves_its_nodes(rt: HostRuntime) {
    let rt = &rt;
    let mut holes = no_holes(rt, rt.alloc(), 1);
    holes.add(LONG);
    is_span(rt, Some(holes.remove(4)), Some(LONG));
    assert_hole(rt, &holes, NO_HOLE);
    holes.add(SHORT);
    assert_holes(rt, &holes, ONE_HOLE);
    drop(holes);
}

const WIDE: Span = Span { start: 18, end: 30 };

const WIDENED: &[Row] = &[
    (Mode::Best, 7, 0, 64, Some(WIDE)),
    (Mode::Low, 7, 0, 64, Some(WIDE)),
];

const LAST: Span = Span { start: 29, end: 30 };

const NARROWED: &[Row] = &[
    (Mode::Best, 1, 0, 64, Some(LAST)),
    (Mode::Best, 7, 0, 64, None),
    (Mode::High, 1, 0, 40, Some(LAST)),
];

#[test]
fn ends_of_a_hole_move(rt: HostRuntime) {
    let rt = &rt;
    let mut holes = no_holes(rt, rt.alloc(), 3);
    holes.add(LONG);
    holes.add(SHORT);
    holes.add(HIGH);
    holes.resize(SHORT, WIDE);
    assert_holes(rt, &holes, WIDENED);
    is_span(rt, holes.around(29), Some(WIDE));
    is_span(rt, holes.around(30), None);
    holes.resize(WIDE, LAST);
    is_span(rt, holes.around(28), None);
    assert_holes(rt, &holes, NARROWED);
    drop(holes);
}

const FOURTH: Span = Span { start: 50, end: 55 };

const FIFTH: Span = Span { start: 60, end: 61 };

const RISEN: &[Row] = &[
    (Mode::Best, 1, 0, 64, Some(FIFTH)),
    (Mode::Low, 3, 0, 64, Some(FOURTH)),
    (Mode::High, 2, 0, 64, Some(FOURTH)),
];

#[test]
fn rising_holes_are_balanced(rt: HostRuntime) {
    let rt = &rt;
    let mut holes = no_holes(rt, rt.alloc(), 5);
    holes.add(LONG);
    holes.add(SHORT);
    holes.add(HIGH);
    holes.add(FOURTH);
    holes.add(FIFTH);
    is_span(rt, Some(holes.remove(20)), Some(SHORT));
    is_span(rt, Some(holes.remove(4)), Some(LONG));
    is_span(rt, holes.around(41), Some(HIGH));
    assert_holes(rt, &holes, RISEN);
    drop(holes);
}
