ghost use Rattle.std.specs.Prelude.{◌≡◌};
ghost use Rattle.std.specs.Iterator.{YieldsFirst, item_count};
ghost use Rattle.place_list.specs.SpanPages.{pages_of};

use std::marker::Model;
use ttm_base::Span;

/// A cursor over the pages of spans, in order, seen as the list of the pages that are left (xe_res_cursor). To go through
/// all pages takes as many steps as there are pages and spans together, while to look up each page alone takes as many as
/// there are spans.
#[derive(Drop)]
pub struct PageCursor<'a> {
    /// The pages that are left of the current span.
    here: Span,
    /// The spans after the current one.
    behind: &'a [Span],
}

impl<'a> Model for PageCursor<'a> {
    ghost use Rattle.std.specs.Prelude.{ℕ, List, ◌++◌};
    ghost use Rattle.place_list.specs.SpanPages.{pages_of_span, pages_of};

    ghost Value = { List ℕ };

    ghost view = { λ c. pages_of_span c.here ++ pages_of c.behind.now };
}

impl<'a> PageCursor<'a> {
    /// Returns a cursor at the first page of the spans.
    pub fn new(spans: &'a [Span]) -> PageCursor<'a>
        ensures { result ≡ pages_of spans.now }
    {
        PageCursor {
            here: Span { start: 0, end: 0 },
            behind: spans,
        }
    }
}

impl<'a> Iterator for PageCursor<'a> {
    type Item = u32;

    ghost next_gives = { YieldsFirst (λ left. left) };

    ghost remaining = { item_count (λ left. left) };

    fn next(&mut self) -> Option<u32> {
        while self.here.start >= self.here.end {
            let (first, others) = self.behind.split_first()?;
            self.here = *first;
            self.behind = others;
        }
        let page = self.here.start;
        self.here.start += 1;
        Some(page)
    }
}
