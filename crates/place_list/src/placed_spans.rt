ghost use Rattle.std.specs.Prelude.{◌≡◌, [], IfOk};
ghost use Rattle.ttm_base.specs.Placement as rules;

use crate::places::is_taken;
use crate::spans::{is_contiguous, stretch_of};
use std::alloc::Global;
use std::marker::Model;
use ttm_base::{FlaggedPlace, Mem, NoMemory, Span, Spans};

/// The spans where a resource is, with what places ask of them, seen as the list of the spans. To make it takes time by the number of
/// spans; whether a place accepts them is known in constant time from then on.
#[derive(Drop)]
pub struct PlacedSpans {
    spans: Spans,
    /// From the lowest first page of the spans to their highest end, or None where there are no spans.
    stretch: Option<Span>,
    /// Whether each span begins where the one before it ends.
    contiguous: bool,
}

impl Model for PlacedSpans {
    ghost use Rattle.std.specs.Prelude.{List};
    ghost use Rattle.ttm_base.specs.declared.Span.{Span as Piece};
    ghost use Rattle.place_list.specs.Stretch.{IsMeasured};

    ghost Value = { List Piece };

    ghost view = { λ s. s.spans };

    ghost invariant = { λ s. IsMeasured s.spans s.stretch s.contiguous };
}

impl PlacedSpans {
    /// Returns a list without spans.
    pub fn new(alloc: Global) -> PlacedSpans
        ensures { result ≡ [] }
    {
        PlacedSpans {
            spans: Spans::new(alloc),
            stretch: None,
            contiguous: true,
        }
    }

    /// Keeps `spans` with what places ask of them. Goes through the spans twice.
    pub fn of(spans: Spans) -> PlacedSpans
        ensures { result ≡ spans }
    {
        let stretch = stretch_of(spans.items());
        let contiguous = is_contiguous(spans.items());
        PlacedSpans {
            spans,
            stretch,
            contiguous,
        }
    }

    /// Lends the spans as a slice, in order.
    pub fn items(&self) -> &[Span]
        ensures { result.now ≡ self.now }
    {
        self.spans.items()
    }

    /// Copies the spans into a new list.
    pub fn copy(&self) -> Result<Spans, NoMemory>
        ensures { IfOk result (λ spans. spans ≡ self.now) }
    {
        self.spans.copy()
    }

    /// Drops all spans, and keeps their memory.
    pub fn clear(&mut self)
        ensures { self.new ≡ [] }
    {
        self.spans.clear();
        self.stretch = None;
        self.contiguous = true;
    }

    /// Returns whether some place of the list accepts the spans, where the manager of `mem` has `size` pages, as `places::compatible` does.
    /// Takes time by the number of places, however many spans there are.
    pub fn is_accepted(&self, mem: Mem, places: &[FlaggedPlace], size: u32) -> bool
        ensures { result ≡ rules.compatible mem self.now (record { list = places.now }) size }
    {
        is_taken(mem, self.stretch, self.contiguous, places, size)
    }
}
