//! The calls of C on spans that a manager gave.
ghost use Rattle.std.specs.Prelude.{◌≡◌};
ghost use Rattle.std.specs.List.Sorted.{IsPermutation, IsNonDecreasingBy};

use crate::page_span::PageSpan;

/// Sorts `spans` by where they begin. Takes no memory.
#[unsafe(no_mangle)]
pub extern "C" fn pearoar_spans_sort(spans: &mut [PageSpan])
    ensures permutation { IsPermutation spans.old spans.new }
    ensures sorted { IsNonDecreasingBy (λ span. span.start) spans.new }
{
    spans.sort_unstable_by_key(|span| span.start);
}
