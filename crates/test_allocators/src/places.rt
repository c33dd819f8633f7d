ghost use Rattle.std.specs.Prelude.{◌≡◌};

use crate::wanted::ensure;
use place_list::{
    PageCursor, PlacedSpans, compatible, first_at, first_count, forced_at, forced_count,
    intersects, reach,
};
use std::alloc::Global;
use std::process::Abort;
use ttm_base::{FlaggedPlace, FlaggedPlaces, Mem, Place, Placement, Span, Spans};

const WHOLE: Place = Place {
    mem: Mem::Vram,
    first: 0,
    last: 0,
    topdown: false,
    contig: false,
};

/// A place's first and last page, the number of pages, and which of them it reaches.
type Reach = (u32, u32, u32, (u32, u32));

const REACHES: &[Reach] = &[
    (0, 2, 8, (0, 2)),
    (3, 0, 8, (3, 8)),
    (3, 9, 8, (3, 8)),
    (5, 2, 8, (2, 2)),
    (9, 0, 8, (8, 8)),
];

#[test]
fn reach_of_a_place(rt: HostRuntime) {
    for (first, last, size, reached) in REACHES {
        let place = Place {
            first: *first,
            last: *last,
            ..WHOLE
        };
        ensure(&rt, reach(&place, *size) == *reached);
    }
}

const TWO_SPANS: &[Span] = &[Span { start: 2, end: 4 }, Span { start: 6, end: 7 }];

/// Returns two spans with a gap between them.
fn two_spans(rt: &impl Abort, alloc: Global) -> Spans {
    Spans::from_slice(alloc, TWO_SPANS).expect(rt, "spans")
}

/// Pages from a first up to a last, and whether the spans have one of them.
const MEETINGS: &[((u32, u32), bool)] = &[
    ((0, 2), false),
    ((0, 3), true),
    ((4, 6), false),
    ((6, 8), true),
    ((3, 3), false),
];

/// The memory type in which a resource of two spans stands, a place, and whether it fits.
const FITS: &[(Mem, Place, bool)] = &[
    (Mem::Vram, WHOLE, true),
    (Mem::Tt, WHOLE, false),
    (
        Mem::Vram,
        Place {
            first: 2,
            last: 7,
            ..WHOLE
        },
        true,
    ),
    (
        Mem::Vram,
        Place {
            first: 2,
            last: 6,
            ..WHOLE
        },
        false,
    ),
    (
        Mem::Vram,
        Place {
            contig: true,
            ..WHOLE
        },
        false,
    ),
];

/// Makes a placement of a list of places.
fn placement(rt: &impl Abort, alloc: Global, places: &[FlaggedPlace]) -> Placement
    ensures { result.list ≡ places.now }
{
    let list = FlaggedPlaces::from_slice(alloc, places).expect(rt, "places");
    Placement { list }
}

/// Asserts that a resource of the spans fits the place, or doesn't.
fn assert_fit(rt: &impl Abort, alloc: Global, spans: &Spans, row: &(Mem, Place, bool)) {
    let unflagged = FlaggedPlace {
        place: row.1,
        desired: false,
        fallback: false,
    };
    let placement = placement(rt, alloc, &[unflagged]);
    ensure(rt, compatible(row.0, spans, &placement, 8) == row.2);
    let kept = PlacedSpans::of(spans.copy().expect(rt, "spans"));
    ensure(rt, kept.is_accepted(row.0, &[unflagged], 8) == row.2);
}

#[test]
fn spans_in_a_reach_and_resources_that_fit(rt: HostRuntime) {
    let spans = two_spans(&rt, rt.alloc());
    for (within, met) in MEETINGS {
        ensure(&rt, intersects(&spans, *within) == *met);
    }
    for row in FITS {
        assert_fit(&rt, rt.alloc(), &spans, row);
    }
}

/// The list `vram+desired, tt+fallback, sys`.
const FLAGGED: &[FlaggedPlace] = &[
    FlaggedPlace {
        place: WHOLE,
        desired: true,
        fallback: false,
    },
    FlaggedPlace {
        place: Place {
            mem: Mem::Tt,
            ..WHOLE
        },
        desired: false,
        fallback: true,
    },
    FlaggedPlace {
        place: Place {
            mem: Mem::System,
            ..WHOLE
        },
        desired: false,
        fallback: false,
    },
];

/// Asserts that the place is one of this memory type.
fn is_in(rt: &impl Abort, place: &Place, mem: Mem) {
    ensure(rt, place.mem == mem);
}

#[test]
fn places_by_their_flags(rt: HostRuntime) {
    let rt = &rt;
    let placement = placement(rt, rt.alloc(), FLAGGED);
    ensure(rt, first_count(&placement) == 2);
    is_in(rt, first_at(&placement, 0), Mem::Vram);
    is_in(rt, first_at(&placement, 1), Mem::System);
    ensure(rt, forced_count(&placement) == 2);
    is_in(rt, forced_at(&placement, 0), Mem::Tt);
    is_in(rt, forced_at(&placement, 1), Mem::System);
    drop(placement);
}

/// Three spans, of which one is empty.
const SPANS: &[Span] = &[
    Span { start: 7, end: 9 },
    Span { start: 5, end: 5 },
    Span { start: 0, end: 3 },
];

/// The pages of `SPANS`, in order.
const PAGES: &[u32] = &[7, 8, 0, 1, 2];

#[test]
fn pages_of_spans_in_order(rt: HostRuntime) {
    let mut cursor = PageCursor::new(SPANS);
    for page in PAGES {
        ensure(&rt, cursor.next() == Some(*page));
    }
    ensure(&rt, cursor.next().is_none());
}
