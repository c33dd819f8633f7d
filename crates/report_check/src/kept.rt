//! What frames and swap slots are free, kept from entry to entry.

ghost use Rattle.std.specs.Prelude.{◌≡◌, IfOk, IfSome};
ghost use Rattle.journal_model.specs.rules.Apply.{apply};
ghost use Rattle.journal_model.specs.rules.ApplyPages.{with_changed, with_loc};
ghost use Rattle.laws.specs.law_owners.OneOwner.{HaveOneOwner};
ghost use Rattle.rules_holds.specs.Free.{AreFree};
ghost use Rattle.report_check.specs.Kept as words;

use crate::given::{
    free_after_depopulate, free_after_free, free_after_move, free_after_new, free_after_reap,
};
use journal_model::{Core, Entry, Kind, Script, State};
use rules_holds::FreeSets;
use rules_state::live_in;
use std::alloc::Global;
use ttm_base::{BufId, Loc, NoMemory};

/// Returns what the page tables of `state` leave free, where `entry` can be the first that depends on it, else `None`: until a page has got its
/// first frame, none is swapped.
fn first_free(
    alloc: Global,
    script: &Script,
    state: &State,
    entry: &Entry,
) -> Result<Option<FreeSets>, NoMemory>
    ensures { IfOk result (λ free. IfSome free (AreFree script.now state.now.core)) }
{
    match &entry.kind {
        Kind::Populate { .. } | Kind::NoPages { .. } => {
            Ok(Some(FreeSets::new(alloc, script, &state.core)?))
        }
        _ => Ok(None),
    }
}

/// Returns what is free in `state`, before `entry`: what was kept, or, at the first entry that depends on it, what is found in the page tables.
pub(super) fn free_before(
    alloc: Global,
    script: &Script,
    state: &State,
    kept: Option<FreeSets>,
    entry: &Entry,
) -> Result<Option<FreeSets>, NoMemory>
    requires { IfSome kept (AreFree script.now state.now.core) }
    ensures { IfOk result (λ free. IfSome free (AreFree script.now state.now.core)) }
{
    match kept {
        Some(free) => Ok(Some(free)),
        None => first_free(alloc, script, state, entry),
    }
}

/// Returns what the page table of buffer `b` says of page `page`, or `None` if the buffer isn't live or has no such page.
fn loc_at(core: &Core, b: BufId, page: u32) -> Option<Loc>
    ensures { result ≡ words.loc_at core.now b page }
{
    let buffer = live_in(core.buffers.items(), b)?;
    buffer.table.items().get(page as usize).copied()
}

/// Returns what is free once page `page` of buffer `b` goes to `loc`, or `None` if there is no such page.
fn free_after_page(state: &State, free: FreeSets, b: BufId, page: u32, loc: Loc) -> Option<FreeSets>
    ensures { (script : Script) → HaveOneOwner script state.now.core → AreFree script state.now.core free → IfSome result (AreFree script (with_changed (with_loc page loc) b state.now).core) }
{
    let old = loc_at(&state.core, b, page)?;
    let mut free = free;
    free.give(old);
    free.take(loc);
    Some(free)
}

/// Returns what is free once `entry` is made in `state`, or `None` where that isn't known: at an entry on a buffer that isn't live, or on a
/// page that it hasn't, which isn't legal.
pub(super) fn free_after(state: &State, free: Option<FreeSets>, entry: &Entry) -> Option<FreeSets>
    ensures { (script : Script) → HaveOneOwner script state.now.core → IfSome free (AreFree script state.now.core) → IfSome result (AreFree script (apply script state.now entry.now).core) }
{
    let free = free?;
    match &entry.kind {
        Kind::Populate { b, page, frame } | Kind::SwapIn { b, page, frame, .. } => {
            free_after_page(state, free, *b, *page, Loc::Frame(*frame))
        }
        Kind::SwapOut { b, page, slot } => {
            free_after_page(state, free, *b, *page, Loc::Slot(*slot))
        }
        Kind::New { b } => free_after_new(state, free, *b),
        Kind::Free { b, g } => free_after_free(state, free, *b, *g),
        Kind::Depopulate { b } => free_after_depopulate(state, free, *b),
        Kind::Move { b, left, .. } => free_after_move(state, free, *b, *left),
        Kind::Reap { g } => Some(free_after_reap(state, free, *g)),
        _ => Some(free),
    }
}
