//! Lists of places as code: whether some place accepts a resource, and which places are tried first or under pressure. Each
//! function is named after its definition and returns what the definition says.
ghost use Rattle.std.specs.Prelude.{◌≡◌, ◌&&◌, length, not, slice_get};
ghost use Rattle.std.specs.List.{list_any};
ghost use Rattle.std.specs.Option.{option_copied};
ghost use Rattle.place_list.specs.Stretch as stretches;
ghost use Rattle.ttm_base.specs.Placement as rules;
ghost use Rattle.ttm_base.specs.Reach as words;

use crate::spans::{is_contiguous, lies_in, reach, same_mem, stretch_of};
use ttm_base::{FlaggedPlace, Mem, Place, Span};

/// Returns whether `place` accepts spans with this stretch, which are contiguous or not: in constant time.
fn takes(mem: Mem, stretch: Option<Span>, contiguous: bool, size: u32, place: Place) -> bool
    ensures { result ≡ stretches.takes mem stretch contiguous size place }
{
    same_mem(place.mem, mem)
        && lies_in(reach(place, size), stretch)
        && (!place.contig || contiguous)
}

/// Returns whether some place of the list accepts spans with this stretch, which are contiguous or not.
pub(crate) fn is_taken(
    mem: Mem,
    stretch: Option<Span>,
    contiguous: bool,
    places: &[FlaggedPlace],
    size: u32,
) -> bool
    ensures { result ≡ list_any (λ p. stretches.takes mem stretch contiguous size p.place) places.now }
{
    places
        .iter()
        .any(|p| takes(mem, stretch, contiguous, size, p.place))
}

/// Returns whether some place of the list asks for contiguous spans.
fn asks_contiguous(places: &[FlaggedPlace]) -> bool
    ensures { result ≡ list_any (λ p. p.place.contig) places.now }
{
    places.iter().any(|p| p.place.contig)
}

/// Returns whether some place of the list asks for contiguous spans, and these are contiguous.
fn is_asked_contiguous(held: &[Span], places: &[FlaggedPlace]) -> bool
    ensures { result ≡ (list_any (λ p. p.place.contig) places.now && words.is_contiguous held.now) }
{
    asks_contiguous(places) && is_contiguous(held)
}

/// Returns whether some place of the list accepts the resource, whose manager has `size` pages: one of its memory type with
/// all pages in its reach, and contiguous if the place asks for it. Goes through the spans twice at most, however many
/// places there are.
pub fn compatible(mem: Mem, held: &[Span], places: &[FlaggedPlace], size: u32) -> bool
    ensures { result ≡ rules.compatible mem held.now (record { list = places.now }) size }
{
    let contiguous = is_asked_contiguous(held, places);
    is_taken(mem, stretch_of(held), contiguous, places, size)
}

/// Returns whether the place is tried first.
pub fn is_first(place: &FlaggedPlace) -> bool
    ensures { result ≡ not place.now.fallback }
{
    !place.fallback
}

/// Returns whether the place is tried under pressure.
fn is_forced(place: &FlaggedPlace) -> bool
    ensures { result ≡ not place.now.desired }
{
    !place.desired
}

/// Returns the number of places of the list that are tried first.
pub(crate) fn first_count(list: &[FlaggedPlace]) -> usize
    ensures { result ≡ length (rules.first_places list.now) }
{
    list.iter().filter(|p| is_first(p)).count()
}

/// Lends the place with number `k` among those that are tried first, counted from 0 in their order.
pub(crate) fn first_at(list: &[FlaggedPlace], k: u32) -> Option<&Place>
    ensures { option_copied result ≡ slice_get (rules.first_places list.now) k }
{
    match list.iter().filter(|p| is_first(p)).nth(k as usize) {
        Some(p) => Some(&p.place),
        None => None,
    }
}

/// Returns the number of places of the list that are tried under pressure.
pub fn forced_count(list: &[FlaggedPlace]) -> usize
    ensures { result ≡ length (rules.forced_places list.now) }
{
    list.iter().filter(|p| is_forced(p)).count()
}

/// Lends the place with number `k` among those that are tried under pressure, counted from 0 in their order.
pub fn forced_at(list: &[FlaggedPlace], k: u32) -> Option<&Place>
    ensures { option_copied result ≡ slice_get (rules.forced_places list.now) k }
{
    match list.iter().filter(|p| is_forced(p)).nth(k as usize) {
        Some(p) => Some(&p.place),
        None => None,
    }
}
