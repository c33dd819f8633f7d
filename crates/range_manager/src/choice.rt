//! The choice of the range that a request takes.
ghost use Rattle.std.specs.Prelude.{◌≡◌, ◌+◌, ◌^◌, ◌<◌, ◌≤◌, Some, IfSome, option_map};
ghost use Rattle.std.specs.List.{find};
ghost use Rattle.ttm_base.specs.RangeChoice.{range_choice, start_to_test};
ghost use Rattle.ttm_base.specs.Reach.{common};
ghost use Rattle.hole_tree.specs.Choosing.{chosen_hole};
ghost use Rattle.hole_tree.specs.HoleSet.{starts_at};
ghost use Rattle.range_manager.specs.Kept.{IsSpaced};

use hole_tree::{Holes, aligned_down, aligned_up};
use ttm_base::{Mode, Span};

/// The pages that a request takes, and the hole that has them.
#[derive(Clone, Copy)]
pub struct Choice {
    pub hole: Span,
    pub pages: Span,
}

/// Chooses the pages that a request takes, and the hole that has them. None means that no hole fits.
#[inline(always)]
pub(crate) fn chosen(
    holes: &Holes,
    pages: u32,
    align: u32,
    range: Span,
    mode: Mode,
) -> Option<Choice>
    requires align { 1 ≤ align }
    requires spaced { IsSpaced 1 holes.now.holes }
    ensures pages { option_map (λ c. c.pages) result ≡ range_choice mode holes.now.holes pages align range }
    ensures hole { IfSome result (λ c. find (starts_at c.hole.start) holes.now.holes ≡ Some c.hole) }
    ensures some { IfSome result (λ c. c.pages.start < c.pages.end) }
    ensures from { IfSome result (λ c. c.hole.start ≤ c.pages.start) }
    ensures to { IfSome result (λ c. c.pages.end ≤ c.hole.end) }
{
    let hole = chosen_hole(holes, pages, align, range, mode)?;
    let start = start_in(hole, pages, align, range, mode);
    let end = start + pages;
    Some(Choice {
        hole,
        pages: Span { start, end },
    })
}

/// Chooses the hole that a request takes.
#[inline(always)]
fn chosen_hole(holes: &Holes, pages: u32, align: u32, range: Span, mode: Mode) -> Option<Span>
    requires { 1 ≤ align }
    ensures { result ≡ chosen_hole mode holes.now.holes pages align range.start range.end }
{
    match mode {
        Mode::Best => holes.best(pages, align, range.start, range.end),
        Mode::Low => holes.lowest(pages, align, range.start, range.end),
        Mode::High => holes.highest(pages, align, range.start, range.end),
    }
}

/// Finds where the pages begin in a hole that they fit.
#[inline(always)]
fn start_in(hole: Span, pages: u32, align: u32, range: Span, mode: Mode) -> u32
    requires align { 1 ≤ align }
    requires fits { start_to_test mode pages align (common hole range) < 2 ^ 32 }
    ensures { result ≡ start_to_test mode pages align (common hole range) }
{
    let first = hole.start.max(range.start) as u64;
    let last = hole.end.min(range.end) as u64;
    let align = align as u64;
    let start = match mode {
        Mode::Best | Mode::Low => aligned_up(first, align),
        Mode::High => aligned_down(last.saturating_sub(pages as u64), align),
    };
    start as u32
}
