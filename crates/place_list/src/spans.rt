//! Spans of pages as code: which of them a place reaches, what they have in common, and holes page by page. Each function is named after its
//! definition and returns what the definition says.
ghost use Rattle.std.specs.Prelude.{◌≡◌, ◌+◌, ◌^◌, ◌<◌, OnOk, nat_lt};
ghost use Rattle.place_list.specs.Stretch as stretches;
ghost use Rattle.ttm_base.specs.Holes.{with_page};
ghost use Rattle.ttm_base.specs.Reach as words;

use ttm_base::{Mem, NoMemory, Place, Span, Spans};

/// Returns the number of a memory type: 0 for SYSTEM, 1 for TT, 2 for VRAM.
pub fn mem_number(mem: Mem) -> u32
    ensures { result ≡ words.mem_number mem }
{
    match mem {
        Mem::System => 0,
        Mem::Tt => 1,
        Mem::Vram => 2,
    }
}

/// Returns whether both memory types are the same.
pub fn same_mem(a: Mem, b: Mem) -> bool
    ensures { result ≡ words.same_mem a b }
{
    mem_number(a) == mem_number(b)
}

/// Returns the span of pages that a place reaches in a manager of `size` pages.
pub fn reach(place: Place, size: u32) -> Span
    ensures { result ≡ words.reach place size }
{
    let last = if place.last == 0 || size < place.last {
        size
    } else {
        place.last
    };
    Span {
        start: place.first.min(last),
        end: last,
    }
}

/// Returns the length of a span in pages.
pub fn length_of(span: Span) -> u32
    ensures { result ≡ words.length_of span }
{
    span.end.saturating_sub(span.start)
}

/// Returns the span of the pages that are in both spans.
pub fn common(a: Span, b: Span) -> Span
    ensures { result ≡ words.common a b }
{
    Span {
        start: a.start.max(b.start),
        end: a.end.min(b.end),
    }
}

/// Returns whether the two spans have a page in common.
fn overlaps(a: Span, b: Span) -> bool
    ensures { result ≡ nat_lt (words.common a b).start (words.common a b).end }
{
    let both = common(a, b);
    both.start < both.end
}

/// Returns whether some page of the spans is in the reach `within`.
pub fn intersects(held: &[Span], within: Span) -> bool
    ensures { result ≡ words.intersects held.now within }
{
    held.iter().any(|s| overlaps(*s, within))
}

/// Returns whether all pages of a span are in the reach `within`.
pub fn is_inside(within: Span, span: Span) -> bool
    ensures { result ≡ words.is_inside within span }
{
    within.start <= span.start && span.end <= within.end
}

/// Returns whether each span begins where the one before it ends.
pub(crate) fn is_contiguous(held: &[Span]) -> bool
    ensures { result ≡ words.is_contiguous held.now }
{
    held.iter()
        .zip(held.iter().skip(1))
        .all(|(a, b)| a.end == b.start)
}

/// Returns the stretch from the lowest first page of two spans to their highest end.
fn around(a: Span, b: Span) -> Span
    ensures { result ≡ stretches.around a b }
{
    Span {
        start: a.start.min(b.start),
        end: a.end.max(b.end),
    }
}

/// Returns the stretch from the lowest first page of `held` to their highest end, or None where there are no spans.
pub(crate) fn stretch_of(held: &[Span]) -> Option<Span>
    ensures { result ≡ stretches.stretch_of held.now }
{
    let (first, others) = held.split_first()?;
    let mut stretch = *first;
    for s in others {
        stretch = around(stretch, *s);
    }
    Some(stretch)
}

/// Returns whether a stretch, if there is one, lies in the reach `within`.
pub(crate) fn lies_in(within: Span, stretch: Option<Span>) -> bool
    ensures { result ≡ stretches.lies_in within stretch }
{
    match stretch {
        Some(span) => is_inside(within, span),
        None => true,
    }
}

/// Adds the free page `page`, which is above all `holes` so far: it widens the last one that it touches, or is a new one.
pub fn add_page(holes: &mut Spans, page: u32) -> Result<(), NoMemory>
    requires { page + 1 < 2 ^ 32 }
    ensures { OnOk result (holes.new ≡ with_page page holes.old) }
{
    let len = holes.len();
    if len > 0 {
        let last = holes.at(len - 1);
        if last.end == page {
            holes.set(
                len - 1,
                Span {
                    start: last.start,
                    end: page + 1,
                },
            );
            return Ok(());
        }
    }
    holes.push(Span {
        start: page,
        end: page + 1,
    })
}
