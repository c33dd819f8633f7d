//! Whether kinds of entries, and their steps, are one.

ghost use Rattle.std.specs.Prelude.{◌≡◌, ◌↔◌, IsTrue};
ghost use Rattle.journal_model.specs.declared.entry.Kind.TheVariants as kinds;
ghost use Rattle.journal_model.specs.reports.Verdict.{unshown};

use crate::parts::{same_bytes, same_dry, same_left, same_shown, same_spans, same_why};
use journal_model::{DryWhy, Kind, Left, Shown};
use ttm_base::{BufId, Mem, Span};

fn is_take(kind: &Kind, b: BufId, mem: Mem, spans: &[Span]) -> bool
    ensures { IsTrue result ↔ (kinds.Take b mem spans.now ≡ kind.now) }
{
    match kind {
        Kind::Take {
            b: c,
            mem: m,
            spans: s,
        } => b == *c && mem == *m && same_spans(spans, s.items()),
        _ => false,
    }
}

fn is_populate(kind: &Kind, b: BufId, page: u32, frame: u32) -> bool
    ensures { IsTrue result ↔ (kinds.Populate b page frame ≡ kind.now) }
{
    matches!(kind, Kind::Populate { b: c, page: p, frame: f } if b == *c && page == *p && frame == *f)
}

fn is_swap_in(kind: &Kind, b: BufId, page: u32, slot: u32, frame: u32) -> bool
    ensures { IsTrue result ↔ (kinds.SwapIn b page slot frame ≡ kind.now) }
{
    match kind {
        Kind::SwapIn {
            b: c,
            page: p,
            slot: s,
            frame: f,
        } => { b == *c && page == *p && slot == *s && frame == *f }
        _ => false,
    }
}

fn is_move(kind: &Kind, b: BufId, mem: Mem, num: u64, left: Left) -> bool
    ensures { IsTrue result ↔ (kinds.Move b mem num left ≡ kind.now) }
{
    match kind {
        Kind::Move {
            b: c,
            mem: m,
            num: n,
            left: l,
        } => { b == *c && mem == *m && num == *n && same_left(left, *l) }
        _ => false,
    }
}

fn is_dry(kind: &Kind, b: BufId, k: u32, why: &DryWhy) -> bool
    ensures { IsTrue result ↔ (kinds.Dry b k why.now ≡ kind.now) }
{
    match kind {
        Kind::Dry { b: c, k: i, why: w } => b == *c && k == *i && same_dry(why, w),
        _ => false,
    }
}

fn is_swap_out(kind: &Kind, b: BufId, page: u32, slot: u32) -> bool
    ensures { IsTrue result ↔ (kinds.SwapOut b page slot ≡ kind.now) }
{
    matches!(kind, Kind::SwapOut { b: c, page: p, slot: s } if b == *c && page == *p && slot == *s)
}

fn is_packet(kind: &Kind, num: u64, k: u32, piece: &[u8]) -> bool
    ensures { IsTrue result ↔ (kinds.Packet num k piece.now ≡ kind.now) }
{
    match kind {
        Kind::Packet {
            num: n,
            k: i,
            piece: p,
        } => num == *n && k == *i && same_bytes(piece, p.items()),
        _ => false,
    }
}

fn is_result(kind: &Kind, shown: &Shown) -> bool
    ensures { IsTrue result ↔ (kinds.Result shown.now ≡ kind.now) }
{
    match kind {
        Kind::Result { shown: s } => same_shown(shown, s),
        _ => false,
    }
}

/// Returns whether what the entries do, and what they show, is the same.
pub fn same_kind(kind: &Kind, other: &Kind) -> bool
    ensures { IsTrue result ↔ (kind.now ≡ other.now) }
{
    match (kind, other) {
        (Kind::Reserve { b }, Kind::Reserve { b: c })
        | (Kind::New { b }, Kind::New { b: c })
        | (Kind::Depopulate { b }, Kind::Depopulate { b: c })
        | (Kind::Bind { b }, Kind::Bind { b: c })
        | (Kind::Unbind { b }, Kind::Unbind { b: c })
        | (Kind::Loose { b }, Kind::Loose { b: c })
        | (Kind::Skip { b }, Kind::Skip { b: c })
        | (Kind::NoPages { b }, Kind::NoPages { b: c }) => b == c,
        (Kind::Ticket { s }, Kind::Ticket { s: t }) => s == t,
        (Kind::Backoff { b, s }, Kind::Backoff { b: c, s: t }) => b == c && s == t,
        (Kind::Free { b, g }, Kind::Free { b: c, g: h }) => b == c && g == h,
        (Kind::Untake { b, mem }, Kind::Untake { b: c, mem: m }) => b == c && mem == m,
        (Kind::Catch { b, why }, Kind::Catch { b: c, why: w }) => b == c && same_why(*why, *w),
        (Kind::Arm { engine, num }, Kind::Arm { engine: e, num: n }) => engine == e && num == n,
        (Kind::Done { num: n }, Kind::Done { num: m })
        | (Kind::Reap { g: n }, Kind::Reap { g: m }) => n == m,
        (Kind::Bulk { group }, Kind::Bulk { group: g }) => group == g,
        (Kind::Refused { deny }, Kind::Refused { deny: d }) => deny == d,
        (Kind::Take { b, mem, spans }, _) => is_take(other, *b, *mem, spans.items()),
        (Kind::Populate { b, page, frame }, _) => is_populate(other, *b, *page, *frame),
        (
            Kind::SwapIn {
                b,
                page,
                slot,
                frame,
            },
            _,
        ) => is_swap_in(other, *b, *page, *slot, *frame),
        (Kind::Move { b, mem, num, left }, _) => is_move(other, *b, *mem, *num, *left),
        (Kind::Dry { b, k, why }, _) => is_dry(other, *b, *k, why),
        (Kind::SwapOut { b, page, slot }, _) => is_swap_out(other, *b, *page, *slot),
        (Kind::Packet { num, k, piece }, _) => is_packet(other, *num, *k, piece.items()),
        (Kind::Result { shown }, _) => is_result(other, shown),
        _ => false,
    }
}

/// Returns whether what the entries do is the same, whatever they show.
pub fn same_step(kind: &Kind, other: &Kind) -> bool
    ensures { IsTrue result ↔ (unshown kind.now ≡ unshown other.now) }
{
    match (kind, other) {
        (Kind::Result { .. }, Kind::Result { .. }) => true,
        (Kind::Packet { num, k, .. }, Kind::Packet { num: n, k: i, .. }) => num == n && k == i,
        _ => same_kind(kind, other),
    }
}
