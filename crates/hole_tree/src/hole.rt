//! A hole as the trees keep it.
ghost use Rattle.std.specs.Prelude.{◌≡◌, ◌+◌, ◌*◌, ◌^◌};
ghost use Rattle.ttm_base.specs.Reach.{length_of};

use std::marker::Model;
use ttm_base::Span;

/// A span with its pages, which are counted once.
#[derive(Clone, Copy)]
pub struct Hole {
    /// Its first page.
    start: u32,
    /// How many pages it has.
    pages: u32,
    /// The page after its last.
    end: u32,
}

impl Model for Hole {
    ghost use Rattle.std.specs.Prelude.{◌≡◌};
    ghost use Rattle.ttm_base.specs.declared.Span.{Span};
    ghost use Rattle.ttm_base.specs.Reach.{length_of};

    ghost Value = { Span };

    ghost view = { λ h. record { start = h.start; end = h.end } };

    ghost invariant = { λ h. h.pages ≡ length_of (record { start = h.start; end = h.end }) };

    ghost inverse = { λ s. record { start = s.start; pages = length_of s; end = s.end } };
}

impl Hole {
    pub(crate) fn of(span: Span) -> Hole
        ensures { result ≡ span }
    {
        Hole {
            start: span.start,
            pages: span.end.saturating_sub(span.start),
            end: span.end,
        }
    }

    pub(crate) fn span(self) -> Span
        ensures { result ≡ self }
    {
        Span {
            start: self.start,
            end: self.end,
        }
    }

    pub(crate) fn start(self) -> u32
        ensures { result ≡ self.start }
    {
        self.start
    }

    pub(crate) fn end(self) -> u32
        ensures { result ≡ self.end }
    {
        self.end
    }

    pub(crate) fn pages(self) -> u32
        ensures { result ≡ length_of self }
    {
        self.pages
    }

    /// Its place by length, and by start among equals, in one number: one comparison tells which of two stands first.
    pub(crate) fn rank(self) -> u64
        ensures { result ≡ length_of self * 2 ^ 32 + self.start }
    {
        self.pages as u64 * 0x1_0000_0000 + self.start as u64
    }
}
