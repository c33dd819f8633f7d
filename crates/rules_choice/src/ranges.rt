ghost use Rattle.std.specs.Prelude.{◌≡◌, Some, option_map};
ghost use Rattle.ttm_base.specs.RangeChoice as words;
ghost use Rattle.rules_choice.specs.Fits.{fit_of, better_fit};

use place_list::spans::{common, length_of};
use ttm_base::{Mode, Span};

/// A hole, and the pages that a request would take of it.
#[derive(Clone, Copy)]
pub struct Fit {
    pub hole: Span,
    pub taken: Span,
}

/// Returns the first page to test in `hole`, which was cut to the range, on a multiple of `align`: from its start up, or from its end down.
fn start_to_test(mode: Mode, pages: u32, align: u32, hole: Span) -> u64
    ensures { result ≡ words.start_to_test mode pages align hole }
{
    if align == 0 {
        return 0;
    }
    let align = align as u64;
    match mode {
        Mode::Best | Mode::Low => (hole.start as u64 + align - 1) / align * align,
        Mode::High => (hole.end as u64).saturating_sub(pages as u64) / align * align,
    }
}

/// Returns `hole` and the pages taken of it, if the request fits.
fn fit_in(mode: Mode, pages: u32, align: u32, range: Span, hole: Span) -> Option<Fit>
    ensures { option_map fit_of result ≡ words.fit_in mode pages align range hole }
{
    let cut = common(hole, range);
    let start = start_to_test(mode, pages, align, cut);
    let end = start + pages as u64;
    if 0 < pages && cut.start as u64 <= start && end <= cut.end as u64 {
        Some(Fit {
            hole,
            taken: Span {
                start: start as u32,
                end: end as u32,
            },
        })
    } else {
        None
    }
}

/// Returns the better of `best`, the best fit so far, and `fit`, which is in a higher hole.
fn better(mode: Mode, best: Option<Fit>, fit: Fit) -> Fit
    ensures { fit_of result ≡ better_fit mode (option_map fit_of best) (fit_of fit) }
{
    match (mode, best) {
        (_, None) | (Mode::High, _) => fit,
        (Mode::Low, Some(first)) => first,
        (Mode::Best, Some(shortest)) => {
            if length_of(fit.hole) < length_of(shortest.hole) {
                fit
            } else {
                shortest
            }
        }
    }
}

/// Returns the hole that a request takes: the shortest, the lowest or the highest that fits. The holes are in rising order. `None` if none
/// fits.
fn fitting_hole(mode: Mode, holes: &[Span], pages: u32, align: u32, range: Span) -> Option<Fit>
    ensures { option_map fit_of result ≡ words.fitting_hole mode holes.now pages align range }
{
    let mut best = None;
    for hole in holes {
        if let Some(fit) = fit_in(mode, pages, align, range, *hole) {
            best = Some(better(mode, best, fit));
        }
    }
    best
}

/// Returns the pages that a request takes among `holes`, which are in rising order, or `None` if none fits.
pub fn range_choice(mode: Mode, holes: &[Span], pages: u32, align: u32, range: Span) -> Option<Span>
    ensures { result ≡ words.range_choice mode holes.now pages align range }
{
    fitting_hole(mode, holes, pages, align, range).map(|fit| fit.taken)
}
