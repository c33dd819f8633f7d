//! Tests of places: which pages of a manager a place reaches, whether a resource meets or fits them, and which places of a
//! list are tried first or under pressure. Also the spans of a resource with what places ask of them, and a cursor over its pages. Placements are those of TTM
//! (ttm_placement since kernel 6.9), the cursor is that of drivers (xe_res_cursor). No call takes memory but `spans::add_page`.
#![tactic(auto)]

ghost use Rattle.std.specs.Prelude.{◌≡◌, ◌^◌, ◌<◌, length, slice_get, Some};
ghost use Rattle.ttm_base.specs.Reach as words;
ghost use Rattle.ttm_base.specs.Placement as rules;

use ttm_base::{Mem, Place, Placement, Span, Spans};

pub mod page_cursor;
pub mod placed_spans;
pub mod places;
pub mod spans;

pub use page_cursor::PageCursor;
pub use placed_spans::PlacedSpans;

/// Returns the pages that a place reaches in a manager of `size` pages, as the first page and the page after the last. Both
/// are equal where the place reaches no page.
pub fn reach(place: &Place, size: u32) -> (u32, u32)
    ensures start { result.0 ≡ (words.reach place.now size).start }
    ensures end { result.1 ≡ (words.reach place.now size).end }
{
    let within = crate::spans::reach(*place, size);
    (within.start, within.end)
}

/// Returns whether some page of the spans is in `reach`.
pub fn intersects(spans: &Spans, reach: (u32, u32)) -> bool
    ensures { result ≡ words.intersects spans.now (record { start = reach.0; end = reach.1 }) }
{
    let within = Span {
        start: reach.0,
        end: reach.1,
    };
    crate::spans::intersects(spans.items(), within)
}

/// Returns whether some place of the placement accepts the resource, whose manager has `size` pages
/// (ttm_resource_compatible).
pub fn compatible(mem: Mem, spans: &Spans, placement: &Placement, size: u32) -> bool
    ensures { result ≡ rules.compatible mem spans.now placement.now size }
{
    crate::places::compatible(mem, spans.items(), placement.list.items(), size)
}

/// Returns the number of places that are tried first.
pub fn first_count(placement: &Placement) -> u32
    requires { length placement.now.list < 2 ^ 32 }
    ensures { result ≡ length (rules.first_places placement.now.list) }
{
    crate::places::first_count(placement.list.items()) as u32
}

/// Lends the place with number `k` among those that are tried first, counted from 0 in their order.
pub fn first_at(placement: &Placement, k: u32) -> &Place
    requires { k < length (rules.first_places placement.now.list) }
    ensures { slice_get (rules.first_places placement.now.list) k ≡ Some result.now }
{
    let Some(place) = crate::places::first_at(placement.list.items(), k) else {
        unreachable!()
    };
    place
}

/// Returns the number of places that are tried under pressure.
pub fn forced_count(placement: &Placement) -> u32
    requires { length placement.now.list < 2 ^ 32 }
    ensures { result ≡ length (rules.forced_places placement.now.list) }
{
    crate::places::forced_count(placement.list.items()) as u32
}

/// Lends the place with number `k` among those that are tried under pressure, counted from 0 in their order.
pub fn forced_at(placement: &Placement, k: u32) -> &Place
    requires { k < length (rules.forced_places placement.now.list) }
    ensures { slice_get (rules.forced_places placement.now.list) k ≡ Some result.now }
{
    let Some(place) = crate::places::forced_at(placement.list.items(), k) else {
        unreachable!()
    };
    place
}
