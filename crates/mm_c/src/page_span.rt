//! Pages, as C has them.
ghost use Rattle.std.specs.Prelude.{◌≡◌, ◌≤◌, length};
ghost use Rattle.mm_c.specs.Calls.{span_of, first_spans};

use ttm_base::Span;

/// The pages from `start` up to `end`, without `end`.
#[repr(C)]
#[derive(Clone, Copy)]
pub struct PageSpan {
    pub start: u32,
    pub end: u32,
}

impl PageSpan {
    pub fn of(span: Span) -> PageSpan
        ensures { span_of result ≡ span }
    {
        PageSpan {
            start: span.start,
            end: span.end,
        }
    }
}

/// Writes `spans` to the front of `out`.
pub fn write(spans: &[Span], out: &mut [PageSpan])
    requires { length spans.now ≤ length out.old }
    ensures spans { first_spans (length spans.now) out.new ≡ spans.now }
    ensures size { length out.new ≡ length out.old }
{
    for (i, span) in spans.iter().enumerate() {
        out[i] = PageSpan::of(*span);
    }
}
