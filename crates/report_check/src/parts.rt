//! Whether parts of entries are one.

ghost use Rattle.std.specs.Prelude.{◌≡◌, ◌↔◌, IsTrue};

use journal_model::{Cause, CauseRow, DryWhy, Left, Shown, Why};
use ttm_base::Span;

pub(super) fn same_why(a: Why, b: Why) -> bool
    ensures { IsTrue result ↔ (a ≡ b) }
{
    match (a, b) {
        (Why::Vram, Why::Vram) | (Why::Tt, Why::Tt) | (Why::Swap, Why::Swap) => true,
        _ => false,
    }
}

pub(super) fn same_left(a: Left, b: Left) -> bool
    ensures { IsTrue result ↔ (a ≡ b) }
{
    match (a, b) {
        (Left::Now, Left::Now) => true,
        (Left::Ghost(g), Left::Ghost(h)) => g == h,
        _ => false,
    }
}

fn same_cause(a: Cause, b: Cause) -> bool
    ensures { IsTrue result ↔ (a ≡ b) }
{
    match (a, b) {
        (Cause::Pinned, Cause::Pinned) => true,
        (Cause::Reserved(s), Cause::Reserved(t)) => s == t,
        (Cause::Outside, Cause::Outside) => true,
        (Cause::Skipped, Cause::Skipped) => true,
        _ => false,
    }
}

fn same_row(a: &CauseRow, b: &CauseRow) -> bool
    ensures { IsTrue result ↔ (a.now ≡ b.now) }
{
    a.b == b.b && same_cause(a.cause, b.cause)
}

fn same_rows(a: &[CauseRow], b: &[CauseRow]) -> bool
    ensures { IsTrue result ↔ (a.now ≡ b.now) }
{
    if a.len() != b.len() {
        return false;
    }
    for (i, row) in a.iter().enumerate() {
        if !same_row(row, &b[i]) {
            return false;
        }
    }
    true
}

pub(super) fn same_spans(a: &[Span], b: &[Span]) -> bool
    ensures { IsTrue result ↔ (a.now ≡ b.now) }
{
    a == b
}

pub(super) fn same_bytes(a: &[u8], b: &[u8]) -> bool
    ensures { IsTrue result ↔ (a.now ≡ b.now) }
{
    a == b
}

pub(super) fn same_dry(a: &DryWhy, b: &DryWhy) -> bool
    ensures { IsTrue result ↔ (a.now ≡ b.now) }
{
    match (a, b) {
        (DryWhy::Short, DryWhy::Short) => true,
        (DryWhy::Of(rows), DryWhy::Of(others)) => same_rows(rows.items(), others.items()),
        _ => false,
    }
}

pub(super) fn same_shown(a: &Shown, b: &Shown) -> bool
    ensures { IsTrue result ↔ (a.now ≡ b.now) }
{
    match (a, b) {
        (Shown::Plain, Shown::Plain) => true,
        (Shown::Read(bytes), Shown::Read(others)) => same_bytes(bytes.items(), others.items()),
        (Shown::Find { mem, spans }, Shown::Find { mem: m, spans: s }) => {
            mem == m && same_spans(spans.items(), s.items())
        }
        _ => false,
    }
}
