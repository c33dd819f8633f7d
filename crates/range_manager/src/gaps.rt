//! Holes that are split and joined. They are specified by their pages.
ghost use Rattle.std.specs.Prelude.{◌≡◌, ℕ, ◌+◌, ◌^◌, ◌<◌, ◌≤◌, ◌&&◌, ◌||◌, true, false, Some, IfSome, IfNone, IfOk, OnOk, not, nat_lt};
ghost use Rattle.std.specs.List.{find, list_any};
ghost use Rattle.ttm_base.specs.Holes.{has_page};
ghost use Rattle.hole_tree.specs.HoleSet.{starts_at};
ghost use Rattle.range_manager.specs.Kept.{IsSpaced, IsClear};

use hole_tree::{Holes, Neighbours};
use std::alloc::Global;
use ttm_base::{NoMemory, Span};

/// Returns all pages as one hole, or no hole where there are no pages.
pub(crate) fn whole(alloc: Global, pages: u32) -> Result<Holes, NoMemory>
    ensures spaced { IfOk result (λ holes. IsSpaced 1 holes.holes) }
    ensures pages { IfOk result (λ holes. (page : ℕ) → list_any (has_page page) holes.holes ≡ nat_lt page pages) }
{
    let mut holes = Holes::new(alloc);
    holes.ready(1)?;
    put(
        &mut holes,
        Span {
            start: 0,
            end: pages,
        },
    );
    Ok(holes)
}

/// Makes room for the holes that come up when one more span is held beside `held` others, and when all of them are released.
pub(crate) fn make_room(holes: &mut Holes, held: u32) -> Result<(), NoMemory>
    ensures holes { holes.new.holes ≡ holes.old.holes }
    ensures room { OnOk result (held + 2 ≤ holes.new.spare) }
    ensures kept { holes.old.spare ≤ holes.new.spare }
{
    let room = held.checked_add(2).ok_or(NoMemory)?;
    if holes.is_ready(room) {
        return Ok(());
    }
    holes.ready(room)
}

/// Returns the hole that has the page `page`, if there is one.
pub(crate) fn around(holes: &Holes, page: u32) -> Option<Span>
    requires spaced { IsSpaced 1 holes.now.holes }
    ensures hole { IfSome result (λ hole. find (starts_at hole.start) holes.now.holes ≡ Some hole) }
    ensures page { IfSome result (λ hole. has_page page hole ≡ true) }
    ensures none { IfNone result (list_any (has_page page) holes.now.holes ≡ false) }
{
    holes.around(page)
}

/// Takes pages of a hole. What is left of it on both sides are holes.
#[inline(always)]
pub(crate) fn take(holes: &mut Holes, hole: Span, taken: Span)
    requires spaced { IsSpaced 1 holes.old.holes }
    requires hole { find (starts_at hole.start) holes.old.holes ≡ Some hole }
    requires some { taken.start < taken.end }
    requires from { hole.start ≤ taken.start }
    requires to { taken.end ≤ hole.end }
    requires room { 1 ≤ holes.old.spare }
    ensures spaced { IsSpaced 1 holes.new.holes }
    ensures pages { (page : ℕ) → list_any (has_page page) holes.new.holes ≡ (list_any (has_page page) holes.old.holes && not (has_page page taken)) }
    ensures room { holes.old.spare ≤ holes.new.spare + 1 }
{
    let below = Span {
        start: hole.start,
        end: taken.start,
    };
    let above = Span {
        start: taken.end,
        end: hole.end,
    };
    if below.start < below.end {
        holes.resize(hole, below);
        put(holes, above);
        return;
    }
    if above.start < above.end {
        holes.resize(hole, above);
        return;
    }
    holes.remove(hole.start);
}

/// Gives pages back, which are joined to the holes that they touch.
pub(crate) fn give(holes: &mut Holes, pages: Span)
    requires spaced { IsSpaced 1 holes.old.holes }
    requires some { pages.start < pages.end }
    requires clear { IsClear 0 pages holes.old.holes }
    requires room { 1 ≤ holes.old.spare }
    ensures spaced { IsSpaced 1 holes.new.holes }
    ensures pages { (page : ℕ) → list_any (has_page page) holes.new.holes ≡ (list_any (has_page page) holes.old.holes || has_page page pages) }
    ensures room { holes.old.spare ≤ holes.new.spare + 1 }
{
    let Neighbours { before, behind } = holes.beside(pages);
    match (before, behind) {
        (None, None) => put(holes, pages),
        (Some(below), None) => grow(holes, below, pages),
        (None, Some(above)) => {
            let joined = Span {
                start: pages.start,
                end: above.end,
            };
            holes.resize(above, joined);
        }
        (Some(below), Some(above)) => {
            holes.remove(above.start);
            let joined = Span {
                start: pages.start,
                end: above.end,
            };
            grow(holes, below, joined);
        }
    }
}

/// Adds pages to the hole that ends where they begin. They touch no other hole.
fn grow(holes: &mut Holes, hole: Span, pages: Span)
    requires spaced { IsSpaced 1 holes.old.holes }
    requires hole { find (starts_at hole.start) holes.old.holes ≡ Some hole }
    requires touch { hole.end ≡ pages.start }
    requires some { pages.start < pages.end }
    requires clear { IsClear 0 pages holes.old.holes }
    requires above { list_any (has_page pages.end) holes.old.holes ≡ false }
    ensures spaced { IsSpaced 1 holes.new.holes }
    ensures pages { (page : ℕ) → list_any (has_page page) holes.new.holes ≡ (list_any (has_page page) holes.old.holes || has_page page pages) }
    ensures room { holes.new.spare ≡ holes.old.spare }
{
    holes.resize(
        hole,
        Span {
            start: hole.start,
            end: pages.end,
        },
    );
}

/// Adds pages, if there are any, as a hole of their own. No hole has or touches one of them.
fn put(holes: &mut Holes, pages: Span)
    requires spaced { IsSpaced 1 holes.old.holes }
    requires clear { IsClear 1 pages holes.old.holes }
    requires room { 1 ≤ holes.old.spare }
    ensures spaced { IsSpaced 1 holes.new.holes }
    ensures pages { (page : ℕ) → list_any (has_page page) holes.new.holes ≡ (list_any (has_page page) holes.old.holes || has_page page pages) }
    ensures room { holes.old.spare ≤ holes.new.spare + 1 }
{
    if pages.start < pages.end {
        holes.add(pages);
    }
}
