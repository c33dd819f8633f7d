ghost use Rattle.std.specs.Prelude.{◌≡◌, ◌+◌, ◌^◌, ◌<◌, ◌≤◌, true, IfSome, IfNone};
ghost use Rattle.manager_walk.specs.Walk.{is_open, IsNextHeld, IsNextHole, NoneFrom, NoneOpen};

use range_manager::RangeManager;
use ttm_base::{Mode, Span};

/// Returns the first span that is held from page `from` or a later page on, in a manager of `size` pages, or None where none is. Costs a step for
/// each page.
#[tactic(auto, using(crate::proofs::OpenLaws::none_to_next, crate::proofs::OpenLaws::next_at))]
pub fn next_held(manager: &RangeManager, size: u32, from: u32) -> Option<Span>
    requires { manager.now.size ≡ size }
    ensures some { IfSome result (IsNextHeld manager.now.held from) }
    ensures within { IfSome result (λ span. span.start < size) }
    ensures none { IfNone result (NoneFrom manager.now.held from size) }
{
    for page in from..size {
        if let Some(span) = manager.held_from(page) {
            return Some(span);
        }
    }
    None
}

/// Returns whether page `page` is free. Costs a search.
#[tactic(auto, using(crate::proofs::OpenLaws::open_by_choice))]
pub fn is_open(manager: &RangeManager, page: u32) -> bool
    requires { page + 1 < 2 ^ 32 }
    ensures { result ≡ is_open manager.now.held manager.now.size page }
{
    manager.choice(1, 1, page, page + 1, Mode::Low).is_some()
}

/// Returns the first free page from `from` on, or None where none is free.
#[tactic(auto, using(crate::proofs::OpenLaws::closed_to_next))]
fn next_open(manager: &RangeManager, size: u32, from: u32) -> Option<u32>
    requires { manager.now.size ≡ size }
    ensures from { IfSome result (λ page. from ≤ page) }
    ensures some { IfSome result (λ page. page < size) }
    ensures open { IfSome result (λ page. is_open manager.now.held size page ≡ true) }
    ensures first { IfSome result (NoneOpen manager.now.held size from) }
    ensures none { IfNone result (NoneOpen manager.now.held size from size) }
{
    for page in from..size {
        if is_open(manager, page) {
            return Some(page);
        }
    }
    None
}

/// Returns the first free pages from page `from` on, up to where a held span begins, or None where none is free. Costs a search for each page up to
/// the first that is free, and a step for each one that is free with it.
#[tactic(auto, using(crate::proofs::OpenLaws::hole_at))]
pub fn next_hole(manager: &RangeManager, size: u32, from: u32) -> Option<Span>
    requires { manager.now.size ≡ size }
    ensures some { IfSome result (IsNextHole manager.now.held size from) }
    ensures none { IfNone result (NoneOpen manager.now.held size from size) }
{
    let start = next_open(manager, size, from)?;
    let end = match next_held(manager, size, start + 1) {
        Some(span) => span.start,
        None => size,
    };
    Some(Span { start, end })
}
