//! Comparisons with what is wanted, each written out once, since a call costs the check a third of it.
ghost use Rattle.std.specs.Prelude.{◌≡◌, true};

use std::process::Abort;
use ttm_base::Span;

/// Asserts that the condition holds.
pub fn ensure(rt: &impl Abort, holds: bool)
    ensures { holds ≡ true }
{
    if !holds {
        rt.panic("a condition doesn't hold")
    }
}

/// Asserts that there is this span, or none.
pub fn is_span(rt: &impl Abort, got: Option<Span>, want: Option<Span>) {
    ensure(rt, got == want);
}

/// Asserts that the spans are these.
pub fn are_spans(rt: &impl Abort, got: &[Span], want: &[Span]) {
    ensure(rt, got == want);
}

/// Asserts how many pages are free and how many are used.
pub fn are_lengths(rt: &impl Abort, got: (u32, u32), free: u32, used: u32) {
    ensure(rt, got == (free, used));
}
