ghost use Rattle.std.specs.Prelude.{◌≡◌, ◌+◌, ◌-◌, ◌*◌, ◌/◌, ◌^◌, ◌<◌, ◌≤◌};
ghost use Rattle.ttm_base.specs.RangeChoice.{start_to_test};
ghost use Rattle.ttm_base.specs.Reach.{common};
ghost use Rattle.hole_tree.specs.Fitting.{fits, range_of, reaches_left, reaches_right};

use crate::hole::Hole;
use ttm_base::Mode;

/// So many pages at a multiple of `align`, from `first` up to `last`.
#[derive(Clone, Copy)]
pub struct Request {
    pub pages: u32,
    pub align: u32,
    pub first: u32,
    pub last: u32,
}

impl Request {
    pub(crate) fn of(pages: u32, align: u32, first: u32, last: u32) -> Request
        ensures { result ≡ record { pages = pages; align = align; first = first; last = last } }
    {
        Request {
            pages,
            align,
            first,
            last,
        }
    }

    pub(crate) fn fits(self, mode: Mode, hole: Hole) -> bool
        requires { 1 ≤ self.align }
        ensures { result ≡ fits mode self hole }
    {
        if hole.pages() < self.pages {
            return false;
        }
        let start = hole.start().max(self.first) as u64;
        let end = hole.end().min(self.last) as u64;
        let pages = self.pages as u64;
        let align = self.align as u64;
        pages > 0
            && match mode {
                Mode::Best | Mode::Low => aligned_up(start, align) + pages <= end,
                Mode::High => pages <= end && start <= aligned_down(end - pages, align),
            }
    }

    /// Some hole before the one at a root may fit, where the longest of them is so long.
    pub(crate) fn reaches_left(self, longest: u32, root: Hole) -> bool
        ensures { result ≡ reaches_left self longest root }
    {
        self.pages <= longest && self.first < root.start()
    }

    /// Some hole after it may.
    pub(crate) fn reaches_right(self, longest: u32, root: Hole) -> bool
        ensures { result ≡ reaches_right self longest root }
    {
        self.pages <= longest && root.end() < self.last
    }
}

/// The lowest multiple of `align` from a page on.
pub fn aligned_up(page: u64, align: u64) -> u64
    requires align { 1 ≤ align }
    requires fits { page + align < 2 ^ 64 }
    ensures { result ≡ (page + align - 1) / align * align }
{
    if align == 1 {
        page
    } else {
        (page + align - 1) / align * align
    }
}

/// The highest up to a page.
pub fn aligned_down(page: u64, align: u64) -> u64
    requires { 1 ≤ align }
    ensures { result ≡ page / align * align }
{
    if align == 1 {
        page
    } else {
        page / align * align
    }
}
